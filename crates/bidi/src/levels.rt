//! The levels of a paragraph's characters before L1 (UAX #9, X1 to I2).
ghost use Rattle.std.specs.Prelude.{◌≡◌, ◌≤◌, true, map, length, All, OnOk};
ghost use Rattle.bidi.specs.BracketTypes.{bracket_at};
ghost use Rattle.bidi.specs.Isolates.{matches_of};
ghost use Rattle.bidi.specs.Levels.{levels_by, paragraph_levels, put_back, resolved};
ghost use Rattle.bidi.specs.Paragraphs.{AreFor, OfAllTexts};
ghost use Rattle.bidi.specs.Plain.{is_plain};
ghost use Rattle.bidi.specs.Sequences.{retained};
ghost use Rattle.bidi.specs.Retained.{HasAll};

use crate::bracket_type::BracketType;
use crate::brackets::copy_types;
use crate::classes::is_removed;
use crate::explicit::{Retained, explicit};
use crate::isolates::{Isolates, direct, find_or_keep_matches};
use crate::sequence_levels::{Brackets, Paragraph, Sequence, Sides, resolve_runs, resolve_types};
use crate::sequences::direction;
use std::alloc::{AllocError, Global};
use ucd::BidiClass;

/// What the levels of a paragraph depend on: its bracket types, its classes and its base level.
#[derive(Clone, Copy)]
pub(crate) struct Classified<'a> {
    pub brackets: Brackets<'a>,
    pub classes: &'a [BidiClass],
    pub base: u8,
}

/// Reused lists for a paragraph: the characters that X9 keeps, their bracket types, and the lists for their
/// sequences.
#[derive(Drop)]
pub(crate) struct Work {
    retained: Retained,
    brackets: Vec<BracketType>,
    lists: Lists,
}

// Reused lists for the sequences of the characters that X9 keeps. They hold the matches of the isolate
// initiators, flags for the starts of the runs that continue an earlier run, one sequence, and the levels
// found so far.
#[derive(Drop)]
struct Lists {
    isolates: Isolates,
    continued: Vec<bool>,
    sequence: Sequence,
    resolved: Vec<u8>,
}

impl Work {
    pub fn new(alloc: Global) -> Work {
        Work {
            retained: Retained::new(alloc),
            brackets: Vec::new(alloc),
            lists: Lists::new(alloc),
        }
    }
}

impl Lists {
    fn new(alloc: Global) -> Lists {
        Lists {
            isolates: Isolates::new(alloc),
            continued: Vec::new(alloc),
            sequence: Sequence::new(alloc),
            resolved: Vec::new(alloc),
        }
    }
}

// Finds the levels of the characters that X9 keeps. If `is_found` is true, `lists` already holds the matches
// of the isolate initiators.
fn resolve_retained(
    brackets: &Brackets<'_>,
    base: u8,
    retained: &Retained,
    is_found: bool,
    lists: &mut Lists,
) -> Result<(), AllocError>
    requires retained { HasAll retained.now }
    requires found { is_found ≡ true
        → lists.old.isolates.found.items ≡ matches_of retained.now.classes.items }
    requires brackets { AreFor brackets.now (length retained.now.levels.items) }
    ensures { OnOk result (OfAllTexts brackets.now (length retained.now.levels.items) (λ look text.
        lists.new.resolved.items ≡ resolved look base text retained.now.classes.items
        retained.now.levels.items retained.now.types.items)) }
{
    find_or_keep_matches(&retained.classes, is_found, &mut lists.isolates)?;
    lists.continued.clear();
    lists.continued.resize(retained.levels.len(), false)?;
    lists.resolved.clear();
    lists.resolved.extend_from_slice(&retained.levels)?;
    let paragraph = Paragraph {
        brackets: *brackets,
        base,
        retained,
        matches: &lists.isolates.found,
    };
    resolve_runs(
        &paragraph,
        &mut lists.sequence,
        &mut lists.continued,
        &mut lists.resolved,
    )
}

// Replaces the contents of `brackets` with the bracket types of the characters that X9 keeps.
pub(crate) fn retained_brackets(
    all: &[BracketType],
    classes: &[BidiClass],
    brackets: &mut Vec<BracketType>,
) -> Result<(), AllocError>
    requires { length all.now ≡ length classes.now }
    ensures { OnOk result (brackets.new.items ≡ map (bracket_at all.now) (retained classes.now)) }
{
    brackets.clear();
    brackets.reserve(all.len())?;
    for at in 0..all.len() {
        if !is_removed(classes[at]) {
            brackets.push(all[at])?;
        }
    }
    Ok(())
}

// Does the same as `retained_brackets`, but only if the paragraph has any brackets.
fn any_retained_brackets(
    all: &Brackets<'_>,
    classes: &[BidiClass],
    brackets: &mut Vec<BracketType>,
) -> Result<(), AllocError>
    requires { AreFor all.now (length classes.now) }
    ensures { OnOk result (all.now.has_any ≡ true
        → brackets.new.items ≡ map (bracket_at all.now.types.now) (retained classes.now)) }
{
    if !all.has_any {
        return Ok(());
    }
    retained_brackets(all.types, classes, brackets)
}

// Replaces the contents of `levels` with the levels of all characters. A character that X9 removed gets the
// level of the nearest kept character before it, or the paragraph level if there is none.
fn put_back(
    classes: &[BidiClass],
    base: u8,
    resolved: &[u8],
    levels: &mut Vec<u8>,
) -> Result<(), AllocError>
    ensures { OnOk result (levels.new.items ≡ put_back base classes.now resolved.now) }
{
    levels.clear();
    levels.reserve(classes.len())?;
    let mut level = base;
    let mut rest = resolved;
    for class in classes {
        if !is_removed(*class)
            && let [next, after @ ..] = rest
        {
            level = *next;
            rest = after;
        }
        levels.push(level)?;
    }
    Ok(())
}

// Returns whether the matches are known and X9 removed nothing. If so, the known matches are also those of
// the kept characters.
fn are_still_found(is_found: bool, retained: &[BidiClass], acting: &[BidiClass]) -> bool
    ensures { result ≡ true → (is_found ≡ true) × (length retained.now ≡ length acting.now) }
{
    is_found && retained.len() == acting.len()
}

/// Finds the levels of a paragraph (X1 to I2) from its classes, in which each FSI is already replaced by LRI
/// or RLI. If `is_found` is true, `work` already holds the matches of the paragraph's isolate initiators.
pub(crate) fn resolve_acting(
    paragraph: &Classified<'_>,
    is_found: bool,
    work: &mut Work,
    levels: &mut Vec<u8>,
) -> Result<(), AllocError>
    requires found { is_found ≡ true
        → work.old.lists.isolates.found.items ≡ matches_of paragraph.now.classes.now }
    requires low { paragraph.now.base ≤ 1 }
    requires brackets { AreFor paragraph.now.brackets (length paragraph.now.classes.now) }
    ensures { OnOk result (OfAllTexts paragraph.now.brackets (length paragraph.now.classes.now) (λ look text.
        levels.new.items ≡ levels_by look text paragraph.now.classes.now paragraph.now.base)) }
{
    let acting = paragraph.classes;
    let base = paragraph.base;
    explicit(acting, base, &mut work.retained)?;
    any_retained_brackets(&paragraph.brackets, acting, &mut work.brackets)?;
    let is_found = are_still_found(is_found, &work.retained.classes, acting);
    let brackets = Brackets {
        types: &work.brackets,
        ..paragraph.brackets
    };
    resolve_retained(&brackets, base, &work.retained, is_found, &mut work.lists)?;
    put_back(acting, base, &work.lists.resolved, levels)?;
    Ok(())
}

/// Finds the levels of a paragraph (X1 to I2) from its classes. `acting` is a reused list for the classes
/// with each FSI replaced.
pub(crate) fn resolve_classes(
    paragraph: &Classified<'_>,
    acting: &mut Vec<BidiClass>,
    work: &mut Work,
    levels: &mut Vec<u8>,
) -> Result<(), AllocError>
    requires low { paragraph.now.base ≤ 1 }
    requires brackets { AreFor paragraph.now.brackets (length paragraph.now.classes.now) }
    ensures { OnOk result (OfAllTexts paragraph.now.brackets (length paragraph.now.classes.now) (λ look text.
        levels.new.items ≡ paragraph_levels look text paragraph.now.classes.now paragraph.now.base)) }
{
    let is_found = direct(paragraph.classes, &mut work.lists.isolates, acting)?;
    let paragraph = Classified {
        classes: acting,
        ..*paragraph
    };
    resolve_acting(&paragraph, is_found, work, levels)
}

/// Finds the levels of a paragraph that has no openers, no closers and no characters that X9 removes. Such a
/// paragraph is a single isolating run sequence.
pub(crate) fn resolve_plain(
    paragraph: &Classified<'_>,
    work: &mut Work,
    levels: &mut Vec<u8>,
) -> Result<(), AllocError>
    requires low { paragraph.now.base ≤ 1 }
    requires plain { All (λ class. is_plain class ≡ true) paragraph.now.classes.now }
    requires brackets { AreFor paragraph.now.brackets (length paragraph.now.classes.now) }
    ensures { OnOk result (OfAllTexts paragraph.now.brackets (length paragraph.now.classes.now) (λ look text.
        levels.new.items ≡ paragraph_levels look text paragraph.now.classes.now paragraph.now.base)) }
{
    let classes = paragraph.classes;
    let base = paragraph.base;
    let sequence = &mut work.lists.sequence;
    copy_types(classes, &mut sequence.types)?;
    // All items are overwritten below, so their values do not matter.
    levels.resize(classes.len(), base)?;
    let side = direction(base);
    let sides = Sides {
        level: base,
        sos: side,
        eos: side,
    };
    resolve_types(
        &paragraph.brackets,
        classes,
        sides,
        &mut sequence.types,
        &mut sequence.pairs,
        levels,
    )?;
    Ok(())
}
