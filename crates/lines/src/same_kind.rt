//! Edits that only lengthen or shorten a run of characters of the same kind. Such an edit changes no level
//! and no break mark outside the run, so the paragraph needs no new analysis.
ghost use Rattle.std.specs.Prelude.{◌≡◌, ◌+◌, ◌^◌, ◌<◌, ◌≤◌, true, None, length, replicate, take, drop};
ghost use Rattle.std.specs.Prelude.{All, IfSome, OnOk};
ghost use Rattle.std.specs.List.{splice};
ghost use Rattle.breaks.specs.Bases.{character};
ghost use Rattle.lines.specs.SameKind.{levels_with, mark_in_run, marks_with, AreOfOneKind, IsEdited};
ghost use Rattle.lines.specs.SameKind.{IsInRun, IsNoRunEdit, IsRunEdit};
ghost use Rattle.bidi.specs.Doubling as bidi;

use crate::laid::Laid;
use crate::reserve::reserve;
use breaks::{Mark, are_of_one_kind, mark_if_doubled};
use std::alloc::AllocError;
use ucd::{BidiClass, Tables};

/// Which characters of a paragraph an edit replaces: `inserted` characters replace the `removed` characters
/// from index `at` on.
#[derive(Clone, Copy, Debug)]
pub struct Replacement {
    pub at: usize,
    pub removed: usize,
    pub inserted: usize,
}

/// An edit of a paragraph in which a run of characters of the same kind replaces another one.
#[derive(Clone, Copy)]
pub(crate) struct RunEdit {
    /// The index of the first character of both runs.
    pub(crate) at: usize,
    /// The number of characters in the replaced run.
    pub(crate) old_len: usize,
    /// The number of characters in the run that replaces it.
    pub(crate) new_len: usize,
    /// The break mark between two characters of this kind.
    pub(crate) mark: Mark,
}

/// A laid-out paragraph, and a run edit of it.
#[derive(Clone, Copy)]
pub(crate) struct RunChange<'a> {
    pub(crate) laid: &'a Laid,
    pub(crate) run: RunEdit,
}

// Returns whether a character of this class can be doubled.
fn can_be_doubled(class: BidiClass) -> bool
    ensures { result ≡ bidi.can_be_doubled class }
{
    matches!(
        class,
        BidiClass::L
            | BidiClass::R
            | BidiClass::AL
            | BidiClass::EN
            | BidiClass::ET
            | BidiClass::AN
            | BidiClass::S
            | BidiClass::WS
            | BidiClass::ON
    )
}

// Returns the break mark between two characters of the kind of `c`, or `None` if such a character cannot be
// doubled.
fn mark_in_run(tables: &Tables, c: char) -> Option<Mark>
    ensures { result ≡ mark_in_run tables.now c }
{
    if can_be_doubled(tables.properties(c).bidi_class()) {
        mark_if_doubled(tables, c)
    } else {
        None
    }
}

// Returns whether the line breaking rules read the same properties of both characters.
fn are_same_for_lines(tables: &Tables, c: char, d: char) -> bool
    ensures yes { result ≡ true → character tables.now d ≡ character tables.now c }
    ensures no { character tables.now d ≡ character tables.now c → result ≡ true }
{
    let (one, other) = (tables.properties(c), tables.properties(d));
    // Most characters of the same kind have the same number.
    if one.line_index() == other.line_index() {
        return true;
    }
    are_of_one_kind(tables, c, d)
}

// Returns whether two characters are of the same kind.
fn are_alike(tables: &Tables, c: char, d: char) -> bool
    ensures yes { result ≡ true → AreOfOneKind tables.now c d }
    ensures no { AreOfOneKind tables.now c d → result ≡ true }
{
    let (one, other) = (tables.properties(c), tables.properties(d));
    one.bidi_class() == other.bidi_class()
        && !one.has_bracket()
        && !other.has_bracket()
        && are_same_for_lines(tables, c, d)
}

// Returns whether all characters are of the kind of `c`, which must not be a bracket.
fn are_of_kind(tables: &Tables, c: char, text: &[char]) -> bool
    requires { AreOfOneKind tables.now c c }
    ensures yes { result ≡ true → All (AreOfOneKind tables.now c) text.now }
    ensures no { All (AreOfOneKind tables.now c) text.now → result ≡ true }
{
    for k in 0..text.len() {
        if text[k] != c && !are_alike(tables, c, text[k]) {
            return false;
        }
    }
    true
}

// Returns the run edit that replaces `old_len` characters from index `at` on with `new_len` characters, or
// `None` if these are not characters of one kind.
fn run_at(
    tables: &Tables,
    old: &[char],
    new: &[char],
    at: usize,
    old_len: usize,
    new_len: usize,
) -> Option<RunEdit>
    requires some { (0 < old_len) × (0 < new_len) }
    requires before { take at new.now ≡ take at old.now }
    requires after { drop (at + new_len) new.now ≡ drop (at + old_len) old.now }
    ensures some { IfSome result (IsRunEdit tables.now old.now new.now) }
    ensures none { result ≡ None → IsNoRunEdit tables.now old.now new.now at old_len new_len }
{
    if old.len() < old_len || old.len() - old_len < at {
        return None;
    }
    if new.len() < new_len || new.len() - new_len < at {
        return None;
    }
    let first = old[at];
    if tables.properties(first).has_bracket() {
        return None;
    }
    if !are_of_kind(tables, first, &old[at..at + old_len]) {
        return None;
    }
    if !are_of_kind(tables, first, &new[at..at + new_len]) {
        return None;
    }
    let mark = mark_in_run(tables, first)?;
    Some(RunEdit {
        at,
        old_len,
        new_len,
        mark,
    })
}

/// Returns the run edit that consists of an edit and of one character next to it, or `None` if the edited
/// characters are not of the same kind as a character next to them.
pub(crate) fn run_of(
    tables: &Tables,
    old: &[char],
    new: &[char],
    edit: Replacement,
) -> Option<RunEdit>
    requires { IsEdited old.now new.now edit }
    ensures some { IfSome result (IsRunEdit tables.now old.now new.now) }
    ensures none { result ≡ None → ¬ (IsInRun tables.now old.now new.now edit) }
{
    let (old_len, new_len) = (edit.removed + 1, edit.inserted + 1);
    if edit.at > 0 {
        if let Some(run) = run_at(tables, old, new, edit.at - 1, old_len, new_len) {
            return Some(run);
        }
    }
    run_at(tables, old, new, edit.at, old_len, new_len)
}

// Replaces the contents of `list` with those of another list, in which `len` copies of an item replace the
// `removed` items from index `at` on.
fn put_items<T: Copy>(
    from: &[T],
    at: usize,
    removed: usize,
    item: T,
    len: usize,
    list: &mut Vec<T>,
) -> Result<(), AllocError>
    requires within { at + removed ≤ length from.now }
    requires fits { length from.now + len < 2 ^ 64 }
    ensures { OnOk result (list.new.items ≡ splice from.now at (at + removed) (replicate len item)) }
{
    list.clear();
    reserve(list, from.len() - removed + len)?;
    list.extend_from_slice(&from[..at])?;
    list.resize(at + len, item)?;
    list.extend_from_slice(&from[at + removed..])
}

/// Replaces the contents of `list` with the levels of a paragraph after a run edit, given those before it.
pub(crate) fn put_levels(levels: &[u8], run: RunEdit, list: &mut Vec<u8>) -> Result<(), AllocError>
    requires some { 0 < run.old_len }
    requires within { run.at + run.old_len ≤ length levels.now }
    requires fits { length levels.now + run.new_len < 2 ^ 64 }
    ensures { OnOk result (list.new.items ≡ levels_with run levels.now) }
{
    let RunEdit {
        at,
        old_len,
        new_len,
        mark: _,
    } = run;
    put_items(levels, at, old_len, levels[at], new_len, list)
}

/// Replaces the contents of `list` with the break marks of a paragraph after a run edit, given those before
/// it.
pub(crate) fn put_marks(
    marks: &[Mark],
    run: RunEdit,
    list: &mut Vec<Mark>,
) -> Result<(), AllocError>
    requires some { (0 < run.old_len) × (0 < run.new_len) }
    requires within { run.at + run.old_len ≤ length marks.now }
    requires fits { length marks.now + run.new_len < 2 ^ 64 }
    ensures { OnOk result (list.new.items ≡ marks_with run marks.now) }
{
    put_items(
        marks,
        run.at,
        run.old_len - 1,
        run.mark,
        run.new_len - 1,
        list,
    )
}
