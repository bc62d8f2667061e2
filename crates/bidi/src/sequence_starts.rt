//! Where the isolating run sequences of a paragraph begin (UAX #9, BD13), for callers that show how the
//! algorithm arrives at a level.
ghost use Rattle.std.specs.Prelude.{◌≡◌, [], false, length, map, replicate, IfOk, OnOk};
ghost use Rattle.bidi.specs.Isolates.{matches_of};
ghost use Rattle.bidi.specs.Runs.{sequence_at};
ghost use Rattle.bidi.specs.Sequences.{sequences};
ghost use Rattle.ucd.specs.Within.{AreWithin};

use crate::sequence_levels::set_flag;
use crate::sequences::{next_run, run_end};
use std::alloc::{AllocError, Global};
use ucd::BidiClass;

// Appends to `starts` the index at which each sequence begins. `continued` must have a flag for each
// character, all of them `false`.
fn push_starts(
    classes: &[BidiClass],
    levels: &[u8],
    matches: &[usize],
    continued: &mut [bool],
    starts: &mut Vec<usize>,
) -> Result<(), AllocError>
    requires length { length classes.now ≡ length levels.now }
    requires matches { matches.now ≡ matches_of classes.now }
    requires found { length matches.now ≡ length levels.now }
    requires continued { continued.old ≡ replicate (length levels.now) false }
    requires none { starts.old.items ≡ [] }
    ensures sequences { OnOk result (map (sequence_at classes.now levels.now) starts.new.items
        ≡ sequences classes.now levels.now) }
    ensures within { OnOk result (AreWithin (length levels.now) starts.new.items) }
{
    let mut start = 0;
    while start < levels.len() {
        let end = run_end(levels, start);
        // A run that continues an earlier run belongs to the earlier run's sequence.
        if !continued[start] {
            starts.push(start)?;
        }
        set_flag(continued, next_run(levels, matches, end));
        start = end;
    }
    Ok(())
}

/// Returns the index at which each sequence begins, given the classes and levels of the characters that X9
/// keeps, and the matches of their isolate initiators.
pub fn sequence_starts(
    alloc: Global,
    classes: &[BidiClass],
    levels: &[u8],
    matches: &[usize],
) -> Result<Vec<usize>, AllocError>
    requires length { length classes.now ≡ length levels.now }
    requires matches { matches.now ≡ matches_of classes.now }
    requires found { length matches.now ≡ length levels.now }
    ensures sequences { IfOk result (λ starts. map (sequence_at classes.now levels.now) starts.items
        ≡ sequences classes.now levels.now) }
    ensures within { IfOk result (λ starts. AreWithin (length levels.now) starts.items) }
{
    let mut continued = Vec::new(alloc);
    continued.resize(levels.len(), false)?;
    let mut starts = Vec::new(alloc);
    push_starts(classes, levels, matches, &mut continued, &mut starts)?;
    Ok(starts)
}
