//! The level runs of a line, from left to right (UAX #9, BD7 and L2).
ghost use Rattle.std.specs.Prelude.{◌≡◌, ◌-◌, ◌<◌, ◌≤◌, ◌∷◌, false, true, length, slice_index};
ghost use Rattle.std.specs.Prelude.{IfSome, Some};
ghost use Rattle.reorder.specs.LevelRuns.{level_run_len};
ghost use Rattle.reorder.specs.Lowest.{IsExtentBack, IsExtentOn, IsLeftmostBack, IsLeftmostOn};
ghost use Rattle.reorder.specs.Lowest.{IsNext};
ghost use Rattle.reorder.specs.Order.{is_odd};
ghost use Rattle.reorder.specs.Runs.{begins_run, run_from, runs_left, runs_of, AreRuns, IsStartOf};

use crate::order::level_run_len;
use std::marker::Model;

/// A level run of a line: the `len` characters from position `start` on, in logical order, all at one level.
/// The run is read from left to right if the level is even.
#[derive(Clone, Copy, Debug, PartialEq, Eq)]
pub struct Run {
    pub start: usize,
    pub len: usize,
    pub level: u8,
}

/// An iterator over the level runs of a line, from left to right (`level_runs`).
#[derive(Debug, Drop)]
pub struct Runs<'a> {
    levels: &'a [u8],
    next: Option<usize>,
}

impl<'a> Model for Runs<'a> {
    ghost use Rattle.std.specs.Prelude.{◌≡◌, ◌<◌, true, length, List, IfSome};
    ghost use Rattle.reorder.specs.Runs.{begins_run, runs_left};
    ghost use Rattle.reorder.specs.declared.runs.Run.{Run};

    ghost Value = { List Run };

    ghost view = { λ r. runs_left r.levels.now r.next };

    ghost invariant = { λ r. IfSome r.next (λ start.
        (start < length r.levels.now) × (begins_run r.levels.now start ≡ true)) };
}

/// Returns the level runs of a line, from left to right, given its levels after L1. L3 moves characters only
/// inside runs, so it does not affect the result. Each call of `next` needs time at most linear in the length
/// of the line. All calls together need time at most linear in the length times the highest level. Allocates
/// nothing.
pub fn level_runs(levels: &[u8]) -> Runs<'_>
    ensures runs { result ≡ runs_of levels.now }
    ensures are { AreRuns levels.now result }
{
    if levels.is_empty() {
        return Runs { levels, next: None };
    }
    let first = leftmost_on(levels, 0, 0);
    Runs {
        levels,
        next: Some(run_start(levels, first)),
    }
}

impl<'a> Iterator for Runs<'a> {
    ghost use Rattle.std.specs.Iterator.{item_count, YieldsFirst};

    type Item = Run;

    ghost next_gives = { YieldsFirst (λ runs. runs) };

    ghost remaining = { item_count (λ runs. runs) };

    fn next(&mut self) -> Option<Run> {
        let levels = self.levels;
        let start = self.next?;
        let len = level_run_len(levels, start);
        self.next = run_after(levels, start, len);
        Some(Run {
            start,
            len,
            level: levels[start],
        })
    }
}

// Returns the start of the run directly to the right of the given run, or `None` if there is no such run.
fn run_after(levels: &[u8], start: usize, len: usize) -> Option<usize>
    requires start { start < length levels.now }
    requires begins { begins_run levels.now start ≡ true }
    requires len { len ≡ level_run_len levels.now start }
    ensures rest { runs_left levels.now (Some start)
        ≡ run_from levels.now start ∷ runs_left levels.now result }
    ensures begins { IfSome result (λ next.
        (next < length levels.now) × (begins_run levels.now next ≡ true)) }
{
    let is_odd = levels[start] % 2 == 1;
    let last = if is_odd { start } else { start + len - 1 };
    let place = right_of(levels, last)?;
    Some(run_start(levels, place))
}

// Returns the start of the run that contains a character.
fn run_start(levels: &[u8], place: usize) -> usize
    requires { place < length levels.now }
    ensures { IsStartOf levels.now place result }
{
    let level = levels[place];
    let mut start = place;
    while start > 0 && levels[start - 1] == level {
        start -= 1;
    }
    start
}

// Returns the character directly to the right of the one at `place`, or `None` if there is none. Skips, level
// by level, adjoining characters that are to the left of `place`.
fn right_of(levels: &[u8], place: usize) -> Option<usize>
    requires { place < length levels.now }
    ensures { IsNext levels.now place result }
{
    let mut level = levels[place];
    let mut start = place;
    let mut end = place + 1;
    loop {
        if level % 2 == 0 {
            if end < levels.len() && levels[end] >= level {
                return Some(leftmost_on(levels, level, end));
            }
            start = extent_back(levels, level, start);
        } else {
            if start > 0 && levels[start - 1] >= level {
                return Some(leftmost_back(levels, level, start));
            }
            end = extent_on(levels, level, end);
        }
        if level == 0 {
            return None;
        }
        level -= 1;
    }
}

// Returns the start of the characters directly before `end` that are at `level` or higher.
fn extent_back(levels: &[u8], level: u8, end: usize) -> usize
    requires { end ≤ length levels.now }
    ensures { IsExtentBack levels.now level end result }
{
    let mut start = end;
    while start > 0 && levels[start - 1] >= level {
        start -= 1;
    }
    start
}

// Returns the end of the characters from `start` on that are at `level` or higher.
fn extent_on(levels: &[u8], level: u8, start: usize) -> usize
    requires { start ≤ length levels.now }
    ensures { IsExtentOn levels.now level start result }
{
    let mut end = start;
    while end < levels.len() && levels[end] >= level {
        end += 1;
    }
    end
}

// Returns the leftmost of the characters from `start` up to the first one below `level`, which must be even.
// The first character at `level` is to the left of the characters after it.
fn leftmost_on(levels: &[u8], level: u8, start: usize) -> usize
    requires start { start < length levels.now }
    requires level { is_odd level ≡ false }
    requires high { level ≤ slice_index levels.now start }
    ensures { IsLeftmostOn levels.now level start result }
{
    let mut first = start;
    let mut low = levels[start];
    let mut at = start + 1;
    while at < levels.len() && levels[at] > level {
        low = low.min(levels[at]);
        if low % 2 == 1 {
            first = at;
            low = levels[at];
        }
        at += 1;
    }
    first
}

// Returns the leftmost of the characters before `end`, back to the last one below `level`, which must be odd.
// The last character at `level` is to the left of the characters before it.
fn leftmost_back(levels: &[u8], level: u8, end: usize) -> usize
    requires end { (0 < end) × (end ≤ length levels.now) }
    requires level { is_odd level ≡ true }
    requires high { level ≤ slice_index levels.now (end - 1) }
    ensures { IsLeftmostBack levels.now level end result }
{
    let mut at = end - 1;
    let mut first = at;
    let mut low = levels[at];
    while at > 0 && levels[at - 1] > level {
        at -= 1;
        low = low.min(levels[at]);
        if low % 2 == 0 {
            first = at;
            low = levels[at];
        }
    }
    first
}
