//! Finds which characters of a paragraph an edit has changed: those outside of which no level and no break
//! mark has changed.
ghost use Rattle.std.specs.Prelude.{◌≡◌, ◌+◌, ◌-◌, ◌≤◌, true, length};
ghost use Rattle.lines.specs.Changed.{Contains, IsChange};
ghost use Rattle.lines.specs.SameKind.{IsEdited};
ghost use Rattle.lines.specs.Windows.{StaysOutside};

use crate::laid::Laid;
use crate::same_kind::Replacement;
use breaks::Mark;

// How many characters before and after the edited ones are taken for changed. Few edits change levels or
// marks further away.
const NEAR: usize = 64;

/// A laid-out paragraph, and an edit of it.
#[derive(Clone, Copy)]
pub(crate) struct Change<'a> {
    pub(crate) laid: &'a Laid,
    pub(crate) edit: Replacement,
}

/// Returns an edit that contains a given one and outside of which no level and no break mark has changed,
/// given the levels and break marks after the edit.
pub(crate) fn changed(
    old: &Laid,
    edit: Replacement,
    text: &[char],
    levels: &[u8],
    marks: &[Mark],
) -> Replacement
    requires edit { IsEdited old.now.text text.now edit }
    requires levels { length levels.now ≡ length text.now }
    requires marks { length marks.now ≡ length text.now }
    requires old_marks { length old.now.marks ≡ length old.now.text }
    ensures change { IsChange old.now text.now levels.now marks.now result }
    ensures len { length old.now.levels ≡ length old.now.text }
{
    let old_levels = old.levels();
    let change = with_neighbors(old.text().len(), text.len(), edit);
    if levels_stay(change, old_levels, levels) && marks_stay(change, old.marks(), marks) {
        return change;
    }
    Replacement {
        at: 0,
        removed: old.text().len(),
        inserted: text.len(),
    }
}

// Returns the edit with up to `NEAR` characters before and after the edited ones, given the lengths of the
// text before and after the edit.
fn with_neighbors(old_len: usize, new_len: usize, edit: Replacement) -> Replacement
    requires within { (edit.at + edit.removed ≤ old_len) × (edit.at + edit.inserted ≤ new_len) }
    requires rest { old_len - (edit.at + edit.removed) ≡ new_len - (edit.at + edit.inserted) }
    ensures { Contains old_len new_len edit result }
{
    let front = edit.at.saturating_sub(NEAR);
    let back = (new_len - (edit.at + edit.inserted)).saturating_sub(NEAR);
    Replacement {
        at: front,
        removed: old_len - back - front,
        inserted: new_len - back - front,
    }
}

// Returns whether the levels outside the edited characters are the same.
fn levels_stay(edit: Replacement, old: &[u8], new: &[u8]) -> bool
    requires old { edit.at + edit.removed ≤ length old.now }
    requires new { edit.at + edit.inserted ≤ length new.now }
    ensures { result ≡ true → StaysOutside edit old.now new.now }
{
    are_same_levels(&new[..edit.at], &old[..edit.at])
        && are_same_levels(
            &new[edit.at + edit.inserted..],
            &old[edit.at + edit.removed..],
        )
}

fn are_same_levels(one: &[u8], other: &[u8]) -> bool
    ensures { result ≡ true → one.now ≡ other.now }
{
    one == other
}

// Returns whether the break marks outside the edited characters are the same.
fn marks_stay(edit: Replacement, old: &[Mark], new: &[Mark]) -> bool
    requires old { edit.at + edit.removed ≤ length old.now }
    requires new { edit.at + edit.inserted ≤ length new.now }
    ensures { result ≡ true → StaysOutside edit old.now new.now }
{
    are_same_marks(&new[..edit.at], &old[..edit.at])
        && are_same_marks(
            &new[edit.at + edit.inserted..],
            &old[edit.at + edit.removed..],
        )
}

fn are_same_marks(one: &[Mark], other: &[Mark]) -> bool
    ensures { result ≡ true → one.now ≡ other.now }
{
    one == other
}
