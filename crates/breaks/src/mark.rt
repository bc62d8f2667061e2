//! The break marks of a paragraph.
ghost use Rattle.std.specs.Prelude.{◌≡◌, ◌+◌, ◌-◌, ◌<◌, ◌≤◌, ℕ, Bool, false, true};
ghost use Rattle.std.specs.Prelude.{List, Some, drop, length, map};
ghost use Rattle.std.specs.List.{list_all};
ghost use Rattle.std.specs.Prelude.{slice_get, vec_capacity, IfOk, OnErr, OnOk};
ghost use Rattle.ucd.specs.Properties.{properties_of};
ghost use Rattle.ucd.specs.declared.properties.Properties.{Properties};
ghost use Rattle.ucd.specs.declared.version.Version.TheVariants.{V17_0};
ghost use Rattle.breaks.specs.Doubling.{DoublingKeepsMarks};
ghost use Rattle.breaks.specs.Marks.{marks_of};
ghost use Rattle.breaks.specs.Passes.{bases_after, marks_by};
ghost use Rattle.breaks.specs.Symbols.{character_by};
ghost use Rattle.breaks.specs.declared.mark.Mark.TheVariants.{Must};

use crate::characters::{Characters, Known, LookedUp};
use crate::ordinary_17::OrdinaryWalk17;
use crate::rules::{Rules, Walk};
use crate::walk::{OrdinaryWalk15, Rules15, Walk15};
use crate::walk_17::{NarrowWalk17, Rules17, Walk17};
use std::alloc::{AllocError, Global};
use ucd::{Properties, Tables, Version};

// The number of marks that are decided at a time. The compiler unrolls a loop of fixed length.
const GROUP: usize = 4;

/// Whether a line may or must end after a character of a paragraph.
#[derive(Clone, Copy, Debug, PartialEq, Eq)]
pub enum Mark {
    /// A line must not end there.
    Never,
    /// A line may end there.
    May,
    /// A line must end there.
    Must,
}

/// Returns the break mark after each character of a paragraph (UAX #14, LB1 to LB31, as in
/// docs/reference.md), with the rules of the tables' Unicode version. The last mark is `Must`. With
/// `whole_numbers`, another rule replaces LB25 of Unicode 15.0: no line ends inside a number (section 8.2,
/// example 7). LB25 of 17.0 already requires this.
///
/// Allocates only the list of marks.
pub fn marks(
    alloc: Global,
    tables: &Tables,
    text: &[char],
    whole_numbers: bool,
) -> Result<Vec<Mark>, AllocError>
    ensures marks { IfOk result (λ marks. marks.items ≡ marks_of tables.now whole_numbers text.now) }
    ensures len { IfOk result (λ marks. length marks.items ≡ length text.now) }
    ensures memory { OnErr result (0 < length text.now) }
{
    let mut marks = Vec::new(alloc);
    marks.resize(text.len(), Mark::Must)?;
    let characters = LookedUp { tables, text };
    fill_all(tables, text, characters, whole_numbers, &mut marks);
    Ok(marks)
}

/// Replaces the contents of a list with what `marks` returns, given the properties of the characters.
///
/// Allocates only if the list's capacity is less than the number of characters.
pub fn marks_into(
    tables: &Tables,
    text: &[char],
    properties: &[Properties],
    whole_numbers: bool,
    marks: &mut Vec<Mark>,
) -> Result<(), AllocError>
    requires { properties.now ≡ map (properties_of tables.now) text.now }
    ensures marks { OnOk result (marks.new.items ≡ marks_of tables.now whole_numbers text.now) }
    ensures len { OnOk result (length marks.new.items ≡ length text.now) }
    ensures full { OnErr result (vec_capacity marks.old < length text.now) }
{
    marks.resize(properties.len(), Mark::Must)?;
    let characters = Known { properties };
    fill_all(tables, text, characters, whole_numbers, marks);
    Ok(())
}

// Overwrites `marks` with the break mark after each character.
fn fill_all<C: Characters>(
    tables: &Tables,
    text: &[char],
    characters: C,
    whole_numbers: bool,
    marks: &mut [Mark],
)
    requires len { length marks.old ≡ length text.now }
    requires characters { C.all characters ≡ map (properties_of tables.now) text.now }
    ensures { marks.new ≡ marks_of tables.now whole_numbers text.now }
{
    match tables.version() {
        Version::V15_0 => {
            let rules = Rules15 { whole_numbers };
            fill_by::<Rules15, OrdinaryWalk15, Walk15, C>(characters, rules, marks);
        }
        Version::V17_0 => fill_all_17(characters, marks),
    }
}

// Does the same as `fill_all`, with the given rules. Uses the walk `O`, which is faster than `W`, if all
// properties are known and `O` can pass all characters. Otherwise, uses `W`.
fn fill_by<R: Rules, O: Walk<R>, W: Walk<R>, C: Characters>(
    characters: C,
    rules: R,
    marks: &mut [Mark],
)
    requires len { length marks.old ≡ length (C.all characters) }
    requires any { (one : Properties) → W.accepts one ≡ true }
    ensures { marks.new ≡ marks_by R.version (R.whole_numbers rules) (C.all characters) }
{
    if C::ARE_KNOWN && are_accepted::<R, O, C>(characters) {
        fill_each::<R, O, C>(characters, rules, marks);
    } else {
        fill_each::<R, W, C>(characters, rules, marks);
    }
}

// Does the same as `fill_all`, with the rules of 17.0. Prefers `NarrowWalk17`, which is even faster than
// `OrdinaryWalk17`.
fn fill_all_17<C: Characters>(characters: C, marks: &mut [Mark])
    requires { length marks.old ≡ length (C.all characters) }
    ensures { marks.new ≡ marks_by V17_0 false (C.all characters) }
{
    if C::ARE_KNOWN && are_accepted::<Rules17, NarrowWalk17, C>(characters) {
        fill_each::<Rules17, NarrowWalk17, C>(characters, Rules17, marks);
    } else {
        fill_by::<Rules17, OrdinaryWalk17, Walk17, C>(characters, Rules17, marks);
    }
}

// Returns whether a walk can pass all characters. The loop has no branches, so the compiler can vectorize it.
fn are_accepted<R: Rules, W: Walk<R>, C: Characters>(characters: C) -> bool
    ensures { result ≡ list_all W.accepts (C.all characters) }
{
    let mut accepted = true;
    for at in 0..characters.len() {
        accepted &= W::accepts(characters.get(at));
    }
    accepted
}

// Does the same as `fill_by`, but always with the walk `W`, which must be able to pass all characters.
#[inline(never)] // so that the loop has all registers
fn fill_each<R: Rules, W: Walk<R>, C: Characters>(characters: C, rules: R, marks: &mut [Mark])
    requires len { length marks.old ≡ length (C.all characters) }
    requires accepted { list_all W.accepts (C.all characters) ≡ true }
    ensures { marks.new ≡ marks_by R.version (R.whole_numbers rules) (C.all characters) }
{
    let Some((first, rest)) = characters.split_first() else {
        return;
    };
    let mut walk = W::start(first);
    let last = rest.len();
    let mut i = 0;
    'groups: while i + GROUP <= last {
        'group: for done in 0..GROUP {
            let outcome = walk.pass(rest.get(i));
            marks[i] = decide_before(rest, i + 1, outcome, rules);
            i += 1;
        }
    }
    'rest: while i < last {
        let outcome = walk.pass(rest.get(i));
        marks[i] = decide_before(rest, i + 1, outcome, rules);
        i += 1;
    }
    marks[last] = Mark::Must;
}

// Returns the mark before the character at `after - 1`, given the outcome there.
#[inline(always)] // so that most characters need no call
fn decide_before<R: Rules, C: Characters>(
    characters: C,
    after: usize,
    outcome: u8,
    rules: R,
) -> Mark
    requires place { after ≤ length (C.all characters) }
    requires below { outcome < R.outcome_count }
    ensures { result ≡ R.mark_of rules outcome
        (bases_after (map (character_by R.version) (drop after (C.all characters)))) }
{
    match rules.mark(outcome) {
        Some(mark) => mark,
        None => decide_question(characters, after, outcome, rules),
    }
}

// Returns the mark that answers a question. Reads the characters from the index `after` on until the answer
// is known, past the combining marks of at most two bases.
#[cold]
#[inline(never)] // so that the loop over the characters has all registers
fn decide_question<R: Rules, C: Characters>(
    characters: C,
    after: usize,
    question: u8,
    rules: R,
) -> Mark
    requires place { after ≤ length (C.all characters) }
    requires below { question < R.outcome_count }
    requires question { R.is_question rules question ≡ true }
    ensures { result ≡ R.mark_of rules question
        (bases_after (map (character_by R.version) (drop after (C.all characters)))) }
{
    let mut asked = question;
    for i in after..characters.len() {
        asked = rules.answer(asked, characters.get(i));
        if let Some(mark) = rules.mark(asked) {
            return mark;
        }
    }
    rules.answer_at_end(asked)
}

/// States, as a theorem, that a paragraph has as many marks as characters.
pub fn marks_are_as_many(tables: &Tables, text: &[char], whole_numbers: bool)
    ensures { length (marks_of tables.now whole_numbers text.now) ≡ length text.now }
{}

/// States, as a theorem (LB3), that the last mark of a paragraph is `Must`, for any tables, with or without
/// whole numbers.
pub fn paragraphs_end_at_must()
    ensures { (tables : Tables) (whole_numbers : Bool) (text : List ℕ) → 0 < length text
        → slice_get (marks_of tables whole_numbers text) (length text - 1) ≡ Some Must }
{}

/// States, as a theorem, that `whole_numbers` has no effect with tables of Unicode 17.0.
pub fn numbers_are_whole()
    ensures { (tables : Tables) (text : List ℕ) → tables.version ≡ V17_0
        → marks_of tables true text ≡ marks_of tables false text }
{}

/// States, as a theorem, that inserting a character next to one of the same kind changes no other mark, for
/// any tables, with or without whole numbers. Two characters are of the same kind if the rules read the same
/// properties of both. Their class after LB1 must be SP, NU, AL, HL or ID, and in 17.0 they must not be
/// U+25CC. The mark between the two is `May` for ID, and otherwise `Never`.
pub fn doubling_keeps_marks()
    ensures { DoublingKeepsMarks }
{}
