//! Isolate initiators: their matching PDIs (UAX #9, BD9), and the direction of an FSI, found from the first
//! strong character inside it (X5c).
ghost use Rattle.std.specs.Prelude.{◌≡◌, ◌+◌, ◌-◌, ◌<◌, ◌==◌, true, IfOk, OnOk, if◌then◌else◌};
ghost use Rattle.std.specs.Prelude.{length, take, slice_index, slice_set};
ghost use Rattle.std.specs.List.{list_any};
ghost use Rattle.bidi.specs.Base.{first_strong_level};
ghost use Rattle.ucd.specs.Classes.{class_at, is_initiator};
ghost use Rattle.bidi.specs.Explicit.{directed, directed_at, is_first_strong, span_of};
ghost use Rattle.bidi.specs.Isolates.{matches_of};

use crate::base::strong_level;
use crate::brackets::copy_types;
use crate::classes::{is_initiator, is_pdi};
use std::alloc::{AllocError, Global};
use ucd::BidiClass;

/// Reused lists for matching isolate initiators with PDIs. `found` has an item for each index: the index of
/// the PDI that matches the initiator there, or the length if there is no initiator or no match. `pending`
/// holds the indices of the initiators that are not matched yet.
#[derive(Drop)]
pub(crate) struct Isolates {
    pub found: Vec<usize>,
    pub pending: Vec<usize>,
}

impl Isolates {
    pub fn new(alloc: Global) -> Isolates {
        Isolates {
            found: Vec::new(alloc),
            pending: Vec::new(alloc),
        }
    }
}

/// Finds the matching PDI of each isolate initiator in a list of classes.
pub(crate) fn find_matches(
    classes: &[BidiClass],
    found: &mut Vec<usize>,
    pending: &mut Vec<usize>,
) -> Result<(), AllocError>
    ensures matches { OnOk result (found.new.items ≡ matches_of classes.now) }
    ensures length { OnOk result (length found.new.items ≡ length classes.now) }
{
    found.clear();
    found.resize(classes.len(), classes.len())?;
    pending.clear();
    for at in 0..classes.len() {
        let class = classes[at];
        if is_initiator(class) {
            pending.push(at)?;
        } else if is_pdi(class) {
            close(found, pending, at);
        }
    }
    Ok(())
}

/// Finds the matching PDI of each isolate initiator in a list of classes, unless the matches are already
/// known.
pub(crate) fn find_or_keep_matches(
    classes: &[BidiClass],
    is_found: bool,
    isolates: &mut Isolates,
) -> Result<(), AllocError>
    requires { is_found ≡ true → isolates.old.found.items ≡ matches_of classes.now }
    ensures matches { OnOk result (isolates.new.found.items ≡ matches_of classes.now) }
    ensures length { OnOk result (length isolates.new.found.items ≡ length classes.now) }
{
    if is_found {
        return Ok(());
    }
    find_matches(classes, &mut isolates.found, &mut isolates.pending)
}

// Matches the last pending initiator, if there is one, with the PDI at `at`, and removes it from `pending`.
fn close(found: &mut [usize], pending: &mut Vec<usize>, at: usize)
    requires { 0 < length pending.old.items
        → slice_index pending.old.items (length pending.old.items - 1) < length found.old }
    ensures rest { pending.new.items ≡ take (length pending.old.items - 1) pending.old.items }
    ensures found { found.new ≡ (if length pending.old.items == 0 then found.old
        else slice_set found.old (slice_index pending.old.items (length pending.old.items - 1)) at) }
{
    if let Some(initiator) = pending.pop() {
        found[initiator] = at;
    }
}

/// Writes the classes of a paragraph to `acting`, with each FSI replaced by LRI or RLI (X5c). Returns whether
/// `isolates` now holds the matches of the initiators. The replacement does not change the matches.
pub(crate) fn direct(
    classes: &[BidiClass],
    isolates: &mut Isolates,
    acting: &mut Vec<BidiClass>,
) -> Result<bool, AllocError>
    ensures acting { OnOk result (acting.new.items ≡ directed classes.now) }
    ensures found { IfOk result (λ found. found ≡ true
        → isolates.new.found.items ≡ matches_of acting.new.items) }
{
    if !has_first_strong(classes) {
        copy_types(classes, acting)?;
        return Ok(false);
    }
    find_matches(classes, &mut isolates.found, &mut isolates.pending)?;
    acting.clear();
    acting.reserve(classes.len())?;
    for at in 0..classes.len() {
        acting.push(acting_class(classes, &isolates.found, at))?;
    }
    Ok(true)
}

fn has_first_strong(classes: &[BidiClass]) -> bool
    ensures { result ≡ list_any is_first_strong classes.now }
{
    classes.iter().any(|class| is_first_strong(*class))
}

fn is_first_strong(class: BidiClass) -> bool
    ensures { result ≡ is_first_strong class }
{
    matches!(class, BidiClass::FSI)
}

// Returns the class of a character, with FSI replaced by LRI or RLI.
fn acting_class(classes: &[BidiClass], matches: &[usize], at: usize) -> BidiClass
    requires within { at < length classes.now }
    requires matches { matches.now ≡ matches_of classes.now }
    requires length { length matches.now ≡ length classes.now }
    ensures { result ≡ directed_at classes.now at (class_at classes.now at) }
{
    let class = classes[at];
    if !is_first_strong(class) {
        return class;
    }
    match first_strong_level(classes, matches, at) {
        Some(1) => BidiClass::RLI,
        _ => BidiClass::LRI,
    }
}

// Returns the level of the first strong character inside an initiator's isolate, or `None` if there is none.
// An isolate without a match extends to the end of the list. Skips each nested isolate in one step.
fn first_strong_level(classes: &[BidiClass], matches: &[usize], initiator: usize) -> Option<u8>
    requires within { initiator < length classes.now }
    requires opens { is_initiator (class_at classes.now initiator) ≡ true }
    requires matches { matches.now ≡ matches_of classes.now }
    requires length { length matches.now ≡ length classes.now }
    ensures { result ≡ first_strong_level (span_of classes.now initiator) }
{
    let end = matches[initiator];
    let mut at = initiator + 1;
    while at < end {
        let class = classes[at];
        let level = strong_level(class);
        if level.is_some() {
            return level;
        }
        at = place_after(class, matches[at], at);
    }
    None
}

// Returns the index after a character or, if the character is an isolate initiator, the index after its
// match.
fn place_after(class: BidiClass, found: usize, at: usize) -> usize
    requires at { at + 1 < usize.MAX }
    requires found { found + 1 < usize.MAX }
    ensures { result ≡ (if is_initiator class then found + 1 else at + 1) }
{
    if is_initiator(class) {
        found + 1
    } else {
        at + 1
    }
}
