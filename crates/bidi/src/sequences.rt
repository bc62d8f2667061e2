//! Level runs and isolating run sequences (UAX #9, X10, BD7 and BD13) of the characters that X9 keeps.
ghost use Rattle.std.specs.Prelude.{◌≡◌, ◌+◌, ◌-◌, ◌<◌, ◌≤◌, ◌==◌, ◌&&◌, ◌++◌, if◌then◌else◌};
ghost use Rattle.std.specs.Prelude.{length, max, slice_index, true, OnOk};
ghost use Rattle.std.specs.List.{range_with_len};
ghost use Rattle.ucd.specs.Classes.{class_at, is_initiator};
ghost use Rattle.bidi.specs.Isolates.{matches_of};
ghost use Rattle.bidi.specs.Sequences.{direction, level_before, level_after};
ghost use Rattle.ucd.specs.Within.{AreWithin};
ghost use Rattle.bidi.specs.Runs.{IsRunEnd, next_start, sequence_at};
ghost use Rattle.bidi.specs.WeakTable.{is_side};

use crate::classes::is_initiator;
use std::alloc::AllocError;
use ucd::BidiClass;

/// Returns the direction of a level.
pub(crate) fn direction(level: u8) -> BidiClass
    ensures direction { result ≡ direction level }
    ensures side { is_side result ≡ true }
{
    if level % 2 == 1 {
        BidiClass::R
    } else {
        BidiClass::L
    }
}

/// Returns the end of the level run that begins at `start`: the first index after `start` with a different
/// level, or the length.
pub(crate) fn run_end(levels: &[u8], start: usize) -> usize
    requires { start < length levels.now }
    ensures { IsRunEnd levels.now start result }
{
    let mut end = start + 1;
    while end < levels.len() && levels[end] == levels[end - 1] {
        end += 1;
    }
    end
}

/// Returns the start of the run that continues the run ending at `end`, or `None` if none does. The
/// continuing run starts at the match of the character before `end`, if a level run begins there.
pub(crate) fn next_run(levels: &[u8], matches: &[usize], end: usize) -> Option<usize>
    requires within { (0 < end) × (end ≤ length levels.now) }
    requires matches { length matches.now ≡ length levels.now }
    requires above { end - 1 < slice_index matches.now (end - 1) }
    ensures { result ≡ next_start levels.now (slice_index matches.now (end - 1)) }
{
    let start = matches[end - 1];
    if start < levels.len() && levels[start] != levels[start - 1] {
        Some(start)
    } else {
        None
    }
}

// Appends the indices of a run, `start..end`, to `places`.
fn push_places(places: &mut Vec<usize>, start: usize, end: usize) -> Result<(), AllocError>
    requires { start ≤ end }
    ensures { OnOk result (places.new.items ≡ places.old.items ++ range_with_len start (end - start)) }
{
    places.reserve(end - start)?;
    for place in start..end {
        places.push(place)?;
    }
    Ok(())
}

/// Replaces the contents of `places` with the indices of the sequence that begins at `first`, in order.
pub(crate) fn gather(
    classes: &[BidiClass],
    levels: &[u8],
    matches: &[usize],
    first: usize,
    places: &mut Vec<usize>,
) -> Result<(), AllocError>
    requires within { first < length levels.now }
    requires length { length classes.now ≡ length levels.now }
    requires matches { matches.now ≡ matches_of classes.now }
    requires found { length matches.now ≡ length levels.now }
    ensures places { OnOk result (places.new.items ≡ sequence_at classes.now levels.now first) }
    ensures within { OnOk result (AreWithin (length levels.now) places.new.items) }
    ensures some { OnOk result (0 < length places.new.items) }
{
    places.clear();
    let mut start = first;
    loop {
        let end = run_end(levels, start);
        push_places(places, start, end)?;
        match next_run(levels, matches, end) {
            Some(next) => start = next,
            None => return Ok(()),
        }
    }
}

/// Returns the direction before a sequence's first character (X10).
pub(crate) fn sos(levels: &[u8], base: u8, first: usize) -> BidiClass
    requires { first < length levels.now }
    ensures direction { result
        ≡ direction (max (slice_index levels.now first) (level_before base levels.now first)) }
    ensures side { is_side result ≡ true }
{
    let before = if first == 0 { base } else { levels[first - 1] };
    direction(levels[first].max(before))
}

/// Returns the direction after a sequence's last character (X10). If that character is an isolate initiator
/// without a match, the level after it is the paragraph level.
pub(crate) fn eos(
    classes: &[BidiClass],
    levels: &[u8],
    matches: &[usize],
    base: u8,
    last: usize,
) -> BidiClass
    requires within { last < length levels.now }
    requires length { length classes.now ≡ length levels.now }
    requires matches { matches.now ≡ matches_of classes.now }
    requires found { length matches.now ≡ length levels.now }
    ensures { result ≡ direction (max (slice_index levels.now last)
        (level_after base classes.now levels.now last)) }
{
    let after = level_after(
        levels,
        base,
        is_open(classes[last], matches[last], levels.len()),
        last,
    );
    direction(levels[last].max(after))
}

// Returns whether a character is an isolate initiator without a match.
fn is_open(class: BidiClass, found: usize, len: usize) -> bool
    ensures { result ≡ (is_initiator class && (found == len)) }
{
    is_initiator(class) && found == len
}

// Returns the level after a sequence's last character, for eos (X10).
fn level_after(levels: &[u8], base: u8, is_open: bool, last: usize) -> u8
    requires { last < length levels.now }
    ensures { result ≡ (if is_open then base
        else (if last + 1 == length levels.now then base else slice_index levels.now (last + 1))) }
{
    if is_open || last + 1 == levels.len() {
        base
    } else {
        levels[last + 1]
    }
}
