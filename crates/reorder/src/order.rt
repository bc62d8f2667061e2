//! The visual order of one line (UAX #9, L2 and, optionally, L3).
ghost use Rattle.std.specs.Prelude.{◌≡◌, ◌<◌, ◌≤◌, ◌==◌, ◌++◌, min, if◌then◌else◌};
ghost use Rattle.std.specs.Prelude.{ℕ, Bool, true, false, List, [], length, map, take, drop, slice_index};
ghost use Rattle.std.specs.Prelude.{unwrap_or, IfSome, None};
ghost use Rattle.std.specs.Prelude.{◌+◌, ◌*◌, reverse};
ghost use Rattle.std.specs.List.{flat_map, list_all, position_or_len, prefix_len, range_with_len};
ghost use Rattle.std.specs.List.Sorted.{IsPermutation};
ghost use Rattle.ucd.specs.Within.{AreWithin};
ghost use Rattle.ucd.specs.declared.bidi_class.BidiClass.{BidiClass};
ghost use Rattle.reorder.specs.Groups.{is_bound, AreBound, IsAlone, IsGroup, StandsTogether};
ghost use Rattle.reorder.specs.LevelRuns.{level_run_len, run_at, run_shown, turned};
ghost use Rattle.reorder.specs.Lanes.{AreAll, first_set, others};
ghost use Rattle.reorder.specs.Order.{has_base, highest, is_at_least, is_nonspacing_mark_at, is_odd};
ghost use Rattle.reorder.specs.Order.{lowest_odd, ltov_of, order_of, places, reverse_runs, reverse_with_next};
ghost use Rattle.reorder.specs.Order.{vtol_of, AreInverse};
ghost use Rattle.reorder.specs.Runs.{run_count};

use std::simd::prelude::*;
use ucd::{BidiClass, Classes};

/// Orders a line, or a prefix of it, given the levels of its characters after L1. Writes the logical position
/// of each visual position to `vtol`, and the visual position of each logical position to `ltov`. With
/// `reordernsm`, also applies L3.
pub fn visual_order<C: Classes>(
    line: &C,
    levels: &[u8],
    reordernsm: bool,
    vtol: &mut [u32],
    ltov: &mut [u32],
)
    requires line { length levels.now ≤ length (C.all line.now) }
    requires vtol { length vtol.old ≡ length levels.now }
    requires ltov { length ltov.old ≡ length levels.now }
    requires within { length levels.now ≤ u32.MAX }
    ensures vtol { vtol.new ≡ vtol_of reordernsm (C.all line.now) levels.now }
    ensures ltov { ltov.new ≡ ltov_of reordernsm (C.all line.now) levels.now }
    ensures within { AreWithin (length levels.now) vtol.new }
    ensures inverse { AreInverse (length levels.now) vtol.new ltov.new }
{
    visual_places(line, levels, reordernsm, vtol);
    invert(vtol, ltov);
}

/// States, as a theorem, that the two maps of a line are inverses of each other, for any classes and levels.
/// Costs nothing at run time.
pub fn maps_are_inverse()
    ensures { (reordernsm : Bool) (classes : List BidiClass) (levels : List ℕ) → AreInverse (length levels)
        (vtol_of reordernsm classes levels) (ltov_of reordernsm classes levels) }
{}

/// States, as a theorem, that a base at an odd level and its nonspacing marks are adjacent in visual order.
/// With L3, they are in logical order. Without L3, they are in reverse order. Costs nothing at run time.
pub fn groups_stand_together()
    ensures { (classes : List BidiClass) (levels : List ℕ) (base n : ℕ)
        → IsGroup classes levels base n → StandsTogether classes levels base n }
{}

/// States, as a theorem, that L3 moves only bases at odd levels and their nonspacing marks. Costs nothing at
/// run time.
pub fn others_stay()
    ensures { (classes : List BidiClass) (levels : List ℕ) (k : ℕ) → k < length levels
        → IsAlone classes levels (slice_index (vtol_of false classes levels) k)
        → slice_index (vtol_of true classes levels) k ≡ slice_index (vtol_of false classes levels) k }
{}

/// Sets the items to 0, 1, 2 and so on.
pub fn identity(items: &mut [u32])
    requires { length items.old ≤ u32.MAX }
    ensures { items.new ≡ range_with_len 0 (length items.old) }
{
    count_from(0, items);
}

// Sets the items to `start`, `start + 1` and so on.
fn count_from(start: u32, items: &mut [u32])
    requires { start + length items.old ≤ u32.MAX }
    ensures { items.new ≡ range_with_len start (length items.old) }
{
    for (k, item) in items.iter_mut().enumerate() {
        *item = start + k as u32;
    }
}

// Sets the items to consecutive numbers in descending order. The last one is `start`.
fn count_down_to(start: u32, items: &mut [u32])
    requires { start + length items.old ≤ u32.MAX }
    ensures { items.new ≡ reverse (range_with_len start (length items.old)) }
{
    let mut next = start + items.len() as u32;
    for item in items.iter_mut() {
        next -= 1;
        *item = next;
    }
}

/// Writes the logical position of each visual position of a line to `vtol`. With `reordernsm`, also applies
/// L3.
pub fn visual_places<C: Classes>(line: &C, levels: &[u8], reordernsm: bool, vtol: &mut [u32])
    requires line { length levels.now ≤ length (C.all line.now) }
    requires vtol { length vtol.old ≡ length levels.now }
    requires limit { length levels.now ≤ u32.MAX }
    ensures vtol { vtol.new ≡ vtol_of reordernsm (C.all line.now) levels.now }
    ensures within { AreWithin (length levels.now) vtol.new }
{
    order_places(levels, vtol);
    if reordernsm {
        reverse_groups(line, levels, vtol);
    }
}

// Writes the logical position of each visual position, according to L2, to `vtol`.
fn order_places(levels: &[u8], vtol: &mut [u32])
    requires vtol { length vtol.old ≡ length levels.now }
    requires limit { length levels.now ≤ u32.MAX }
    ensures { vtol.new ≡ order_of levels.now }
{
    if let Some(count) = order_runs(levels, vtol) {
        lay_runs(levels, count, vtol);
    }
}

/// Writes the start of each level run of a line, in visual order, to the front of a list, and returns the
/// number of runs. L2 then moves runs instead of single characters. If there are more than half as many runs
/// as characters, writes the logical positions of all characters in visual order instead, and returns `None`.
pub fn order_runs(levels: &[u8], items: &mut [u32]) -> Option<usize>
    requires len { length items.old ≡ length levels.now }
    requires limit { length levels.now ≤ u32.MAX }
    ensures runs { IfSome result (λ count.
        flat_map (run_shown levels.now) (take count items.new) ≡ order_of levels.now) }
    ensures within { IfSome result (λ count. AreWithin (length levels.now) (take count items.new)) }
    ensures count { IfSome result (λ count. count ≡ run_count levels.now) }
    ensures few { IfSome result (λ count. 2 * count ≤ length items.new) }
    ensures many { result ≡ None → length items.new < 2 * run_count levels.now }
    ensures places { result ≡ None → items.new ≡ order_of levels.now }
{
    let (count, highest, lowest) = find_runs(levels, items);
    if count > levels.len() / 2 {
        identity(items);
        reverse_levels(levels, highest, lowest, items);
        return None;
    }
    reverse_levels(levels, highest, lowest, &mut items[..count]);
    Some(count)
}

// Writes the start of each level run of a line to the front of a list. Returns the number of runs, the
// highest level (0 if the line is empty) and the lowest odd level (if there is one).
fn find_runs(levels: &[u8], items: &mut [u32]) -> (usize, u8, Option<u8>)
    requires len { length items.old ≡ length levels.now }
    requires limit { length levels.now ≤ u32.MAX }
    ensures runs { flat_map (run_at levels.now) (take result.0 items.new) ≡ places levels.now }
    ensures within { AreWithin (length levels.now) (take result.0 items.new) }
    ensures few { result.0 ≤ length items.new }
    ensures count { result.0 ≡ run_count levels.now }
    ensures highest { result.1 ≡ highest levels.now }
    ensures lowest { result.2 ≡ lowest_odd levels.now }
    ensures ordered { IfSome result.2 (λ lowest. (0 < lowest) × (lowest ≤ result.1)) }
{
    let mut count = 0;
    let mut highest = 0;
    let mut lowest = None;
    let mut start = 0;
    while start < levels.len() {
        items[count] = start as u32;
        count += 1;
        let level = levels[start];
        highest = highest.max(level);
        lowest = lower_odd(lowest, level);
        start += level_run_len(levels, start);
    }
    (count, highest, lowest)
}

// The number of levels that are compared together.
const LANES: usize = 16;

/// Returns the length of the level run that starts at an index.
pub fn level_run_len(levels: &[u8], start: usize) -> usize
    requires { start < length levels.now }
    ensures len { result ≡ level_run_len levels.now start }
    ensures within { (0 < result) × (start + result ≤ length levels.now) }
{
    let level = levels[start];
    let mut end = start + 1;
    while end + LANES <= levels.len() {
        let len = same_len(levels, end, level);
        end += len;
        if len < LANES {
            return end - start;
        }
    }
    if levels.len() >= LANES {
        return end + last_same_len(levels, end, level) - start;
    }
    while end < levels.len() && levels[end] == level {
        end += 1;
    }
    end - start
}

// Returns how many of the next `LANES` levels equal `level`, up to the first level that differs.
fn same_len(levels: &[u8], start: usize, level: u8) -> usize
    requires { start + LANES ≤ length levels.now }
    ensures most { result ≤ LANES }
    ensures same { AreAll levels.now start (start + result) level }
    ensures stops { result < LANES → ¬ (slice_index levels.now (start + result) ≡ level) }
{
    first_set(others(levels, start, level), LANES)
}

// Returns how many levels from `start` on equal `level`, up to the first level that differs. Compares the
// last `LANES` levels of the list, so that no levels are left to be compared one by one.
fn last_same_len(levels: &[u8], start: usize, level: u8) -> usize
    requires last { length levels.now ≤ start + LANES }
    requires within { start ≤ length levels.now }
    requires enough { LANES ≤ length levels.now }
    ensures within { start + result ≤ length levels.now }
    ensures same { AreAll levels.now start (start + result) level }
    ensures stops { start + result < length levels.now
        → ¬ (slice_index levels.now (start + result) ≡ level) }
{
    let first = levels.len() - LANES;
    let others = others(levels, first, level) >> (start - first);
    first_set(others, levels.len() - start)
}

// Compares the `LANES` levels from `start` on with `level`. Returns one bit for each, which is set if they
// differ.
fn others(levels: &[u8], start: usize, level: u8) -> u64
    requires { start + LANES ≤ length levels.now }
    ensures { result ≡ others levels.now start level }
{
    let lanes = u8x16::from_slice(&levels[start..]);
    lanes.simd_ne(u8x16::splat(level)).to_bitmask()
}

// Returns the position of the lowest bit that is set, or `len` if there is none.
fn first_set(bits: u64, len: usize) -> usize
    ensures { result ≡ first_set bits len }
{
    if bits == 0 {
        len
    } else {
        bits.trailing_zeros() as usize
    }
}

// Replaces the starts of runs at the front of a list with the logical positions of all their characters.
// Processes the runs from the last to the first. Each run has at least one character, so no start is
// overwritten before it is read.
fn lay_runs(levels: &[u8], count: usize, items: &mut [u32])
    requires count { count ≤ length items.old }
    requires within { AreWithin (length levels.now) (take count items.old) }
    requires limit { length levels.now ≤ u32.MAX }
    requires whole { length (flat_map (run_shown levels.now) (take count items.old)) ≡ length items.old }
    ensures { items.new ≡ flat_map (run_shown levels.now) (take count items.old) }
{
    let mut left = count;
    let mut end = items.len();
    while left > 0 {
        left -= 1;
        let start = items[left];
        let len = level_run_len(levels, start as usize);
        lay_run(
            start,
            levels[start as usize] % 2 == 1,
            &mut items[end - len..end],
        );
        end -= len;
    }
}

// Writes the logical positions of a run in visual order.
fn lay_run(start: u32, is_odd: bool, items: &mut [u32])
    requires { start + length items.old ≤ u32.MAX }
    ensures { items.new ≡ (if is_odd then reverse (range_with_len start (length items.old))
        else range_with_len start (length items.old)) }
{
    if is_odd {
        count_down_to(start, items);
    } else {
        count_from(start, items);
    }
}

// Reverses each group of a base at an odd level and the nonspacing marks that L2 put to its left.
fn reverse_groups<C: Classes>(line: &C, levels: &[u8], vtol: &mut [u32])
    requires line { length levels.now ≤ length (C.all line.now) }
    requires vtol { vtol.old ≡ order_of levels.now }
    ensures { vtol.new ≡ reverse_with_next (has_base (C.all line.now) levels.now) [] vtol.old }
{
    let mut start = 0;
    while start < vtol.len() {
        start += reverse_group(line, levels, &mut vtol[start..]);
    }
}

// Reverses the group at the front of a list, if there is one. Returns how many positions at the front are
// then final. Before the call, item `result - 1` is a base, or a nonspacing mark without a base.
fn reverse_group<C: Classes>(line: &C, levels: &[u8], items: &mut [u32]) -> usize
    requires line { length levels.now ≤ length (C.all line.now) }
    requires items { (start : ℕ) × (items.old ≡ drop start (order_of levels.now)) }
    requires some { 0 < length items.old }
    ensures len { (0 < result) × (result ≤ length items.old) }
    ensures rest { drop result items.new ≡ drop result items.old }
    ensures done { reverse_with_next (has_base (C.all line.now) levels.now) [] items.old
        ≡ take result items.new
        ++ reverse_with_next (has_base (C.all line.now) levels.now) [] (drop result items.old) }
{
    let len = bound_len(line, levels, items);
    if !is_nonspacing_mark_at(line, items[len]) {
        items[..len + 1].reverse();
    }
    len + 1
}

// Counts the items at the front of a list, up to the first that is not bound to the next item (`is_bound`).
fn bound_len<C: Classes>(line: &C, levels: &[u8], items: &[u32]) -> usize
    requires line { length levels.now ≤ length (C.all line.now) }
    requires items { AreWithin (length levels.now) items.now }
    requires some { 0 < length items.now }
    ensures { AreBound (C.all line.now) levels.now items.now result }
{
    let mut len = 0;
    while len + 1 < items.len() && is_bound(line, levels, items[len], items[len + 1]) {
        len += 1;
    }
    len
}

// Returns whether the character at `place` is a nonspacing mark directly after the character at `next`, and
// both have the same odd level.
fn is_bound<C: Classes>(line: &C, levels: &[u8], place: u32, next: u32) -> bool
    requires line { length levels.now ≤ length (C.all line.now) }
    requires places { (place < length levels.now) × (next < length levels.now) }
    ensures { result ≡ is_bound (C.all line.now) levels.now place next }
{
    let (at, before) = (place as usize, next as usize);
    before + 1 == at
        && is_nonspacing_mark_at(line, place)
        && levels[before] % 2 == 1
        && levels[at] == levels[before]
}

// Returns whether a character is a nonspacing mark, according to its class in the tables.
fn is_nonspacing_mark_at<C: Classes>(line: &C, place: u32) -> bool
    requires { place < length (C.all line.now) }
    ensures { result ≡ is_nonspacing_mark_at (C.all line.now) place }
{
    match line.class_at(place as usize) {
        BidiClass::NSM => true,
        _ => false,
    }
}

// For each level from the highest down to the lowest odd level, reverses the runs of positions at that level
// or higher. Does nothing if there is no odd level.
fn reverse_levels(levels: &[u8], top: u8, low: Option<u8>, items: &mut [u32])
    requires within { AreWithin (length levels.now) items.old }
    requires highest { top ≡ highest levels.now }
    requires lowest { low ≡ lowest_odd levels.now }
    requires ordered { IfSome low (λ lowest. (0 < lowest) × (lowest ≤ top)) }
    ensures { items.new ≡ turned levels.now items.old }
{
    if let Some(lowest) = low {
        // The loop terminates, because `lowest` is odd and therefore not 0.
        let mut level = top;
        while level >= lowest {
            reverse_runs(levels, level, items);
            level -= 1;
        }
    }
}

// Returns the lowest odd level so far: the lower of `lowest` and `level` if `level` is odd, and otherwise
// `lowest`.
fn lower_odd(lowest: Option<u8>, level: u8) -> Option<u8>
    ensures { result ≡ (if is_odd level then Some (min (unwrap_or lowest level) level) else lowest) }
{
    if level % 2 == 1 {
        Some(lowest.unwrap_or(level).min(level))
    } else {
        lowest
    }
}

// Reverses each maximal run of positions at `level` or higher.
fn reverse_runs(levels: &[u8], level: u8, items: &mut [u32])
    requires { AreWithin (length levels.now) items.old }
    ensures { items.new ≡ reverse_runs (is_at_least levels.now level) [] items.old }
{
    let mut start = 0;
    while start < items.len() {
        let len = run_len(levels, level, &items[start..]);
        items[start..start + len].reverse();
        start += len + 1;
    }
}

// Returns the number of positions at `level` or higher at the start of the list.
fn run_len(levels: &[u8], level: u8, items: &[u32]) -> usize
    requires { AreWithin (length levels.now) items.now }
    ensures len { result ≡ prefix_len (is_at_least levels.now level) items.now }
    ensures within { result ≤ length items.now }
{
    for (k, place) in items.iter().enumerate() {
        if levels[*place as usize] < level {
            return k;
        }
    }
    items.len()
}

// Writes the inverse of `vtol`: for each position, its index in `vtol`.
fn invert(vtol: &[u32], ltov: &mut [u32])
    requires places { IsPermutation (range_with_len 0 (length vtol.now)) vtol.now }
    requires len { length ltov.old ≡ length vtol.now }
    requires within { length vtol.now ≤ u32.MAX }
    ensures ltov { ltov.new
        ≡ map (λ k. position_or_len (λ i. i == k) vtol.now) (range_with_len 0 (length vtol.now)) }
    ensures inverse { AreInverse (length vtol.now) vtol.now ltov.new }
{
    for (k, place) in vtol.iter().enumerate() {
        ltov[*place as usize] = k as u32;
    }
}
