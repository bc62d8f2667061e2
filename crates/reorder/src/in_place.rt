//! Moves the items of an array in place into the visual order of one line (UAX #9, L2 and, optionally, L3).
ghost use Rattle.std.specs.Prelude.{◌≡◌, ◌<◌, ◌≤◌, ◌+◌, ◌==◌, ◌&&◌, if◌then◌else◌};
ghost use Rattle.std.specs.Prelude.{ℕ, [], length, map, true, false, nat_le, nat_lt, slice_index};
ghost use Rattle.std.specs.Prelude.{IfSome, Some, None};
ghost use Rattle.std.specs.List.{list_any, prefix_len};
ghost use Rattle.ucd.specs.Classes.{is_nonspacing_mark};
ghost use Rattle.reorder.specs.InPlace.{flags_at, reverse_flagged, IsChunk};
ghost use Rattle.reorder.specs.Order.{has_base, highest, is_nonspacing_mark_at, is_odd, lowest_odd};
ghost use Rattle.reorder.specs.Order.{order_of, vtol_of};

use crate::order::{groups_stand_together, maps_are_inverse, others_stay};
use ucd::{BidiClass, Classes};

/// Moves the items of an array, one for each character of a line, into visual order, given the levels after
/// L1. With `reordernsm`, also applies L3. Allocates nothing.
pub fn reorder_in_place<C: Classes>(line: &C, levels: &[u8], reordernsm: bool, items: &mut [u32])
    requires line { length (C.all line.now) ≡ length levels.now }
    requires items { length items.old ≡ length levels.now }
    ensures { items.new ≡ map (slice_index items.old) (vtol_of reordernsm (C.all line.now) levels.now) }
{
    let (highest, lowest) = highest_and_lowest_odd(levels);
    if let Some(low) = lowest {
        if reordernsm && has_nonspacing_mark(line) {
            reverse_groups(line, levels, items);
        }
        reverse_levels(levels, highest, low, items);
    }
}

// Reverses each group of a base at an odd level and its nonspacing marks, so that L2 then puts the base
// first.
fn reverse_groups<C: Classes>(line: &C, levels: &[u8], items: &mut [u32])
    requires line { length (C.all line.now) ≡ length levels.now }
    requires items { length items.old ≡ length levels.now }
    ensures { map (slice_index items.new) (order_of levels.now)
        ≡ map (slice_index items.old) (vtol_of true (C.all line.now) levels.now) }
{
    groups_stand_together();
    others_stay();
    maps_are_inverse();
    let mut start = 0;
    while start < items.len() {
        let len = group_len(line, levels, start);
        items[start..start + len].reverse();
        start += len;
    }
}

// Returns the length of the group that begins at `start`: a base at an odd level and the nonspacing marks
// after it at the same level, or else a single character.
fn group_len<C: Classes>(line: &C, levels: &[u8], start: usize) -> usize
    requires line { length (C.all line.now) ≡ length levels.now }
    requires start { start < length levels.now }
    requires base { has_base (C.all line.now) levels.now start ≡ false }
    ensures within { (0 < result) × (start + result ≤ length levels.now) }
    ensures chunk { IsChunk (C.all line.now) levels.now start result }
    ensures next { has_base (C.all line.now) levels.now (start + result) ≡ false }
{
    let level = levels[start];
    if level % 2 == 0 || is_nonspacing_mark(line.class_at(start)) {
        return 1;
    }
    let mut len = 1;
    while is_nonspacing_mark_of(line, levels, start + len, level) {
        len += 1;
    }
    len
}

// Returns whether the character at an index is a nonspacing mark and has the given level.
fn is_nonspacing_mark_of<C: Classes>(line: &C, levels: &[u8], place: usize, level: u8) -> bool
    requires { length (C.all line.now) ≡ length levels.now }
    ensures { result ≡ (nat_lt place (length levels.now)
        && (is_nonspacing_mark_at (C.all line.now) place && (slice_index levels.now place == level))) }
{
    place < levels.len() && is_nonspacing_mark(line.class_at(place)) && levels[place] == level
}

fn is_nonspacing_mark(class: BidiClass) -> bool
    ensures { result ≡ is_nonspacing_mark class }
{
    matches!(class, BidiClass::NSM)
}

// Returns whether the line contains a nonspacing mark.
fn has_nonspacing_mark<C: Classes>(line: &C) -> bool
    ensures { result ≡ list_any is_nonspacing_mark (C.all line.now) }
{
    let mut found = false;
    for k in 0..line.len() {
        found |= is_nonspacing_mark(line.class_at(k));
    }
    found
}

// For each level from the highest down to the lowest odd level, reverses the runs of characters at that level
// or higher.
fn reverse_levels(levels: &[u8], top: u8, low: u8, items: &mut [u32])
    requires items { length items.old ≡ length levels.now }
    requires top { top ≡ highest levels.now }
    requires low { Some low ≡ lowest_odd levels.now }
    requires ordered { (0 < low) × (low ≤ top) }
    ensures { items.new ≡ map (slice_index items.old) (order_of levels.now) }
{
    // The loop terminates, because `low` is odd and therefore not 0.
    let mut level = top;
    while level >= low {
        reverse_runs(levels, level, items);
        level -= 1;
    }
}

// Reverses each maximal run of characters at `level` or higher.
fn reverse_runs(levels: &[u8], level: u8, items: &mut [u32])
    requires { length items.old ≡ length levels.now }
    ensures { items.new ≡ reverse_flagged (flags_at level levels.now) [] items.old }
{
    let mut start = 0;
    while start < levels.len() {
        if levels[start] < level {
            start += 1;
        } else {
            let len = run_len(&levels[start..], level);
            items[start..start + len].reverse();
            start += len;
        }
    }
}

// Returns the number of characters at `level` or higher at the start of the list.
fn run_len(levels: &[u8], level: u8) -> usize
    requires { (0 < length levels.now) × (level ≤ slice_index levels.now 0) }
    ensures len { result ≡ prefix_len (nat_le level) levels.now }
    ensures within { (0 < result) × (result ≤ length levels.now) }
{
    for (k, other) in levels.iter().enumerate() {
        if *other < level {
            return k;
        }
    }
    levels.len()
}

/// Returns the highest level (0 if the list is empty) and the lowest odd level (if there is one).
pub fn highest_and_lowest_odd(levels: &[u8]) -> (u8, Option<u8>)
    ensures highest { result.0 ≡ highest levels.now }
    ensures lowest { result.1 ≡ lowest_odd levels.now }
    ensures ordered { IfSome result.1 (λ lowest. (0 < lowest) × (lowest ≤ result.0)) }
    ensures even { result.1 ≡ None
        → (k : ℕ) → k < length levels.now → is_odd (slice_index levels.now k) ≡ false }
{
    let mut highest = 0;
    let mut any = false;
    let mut lowest = 255;
    for level in levels {
        highest = highest.max(*level);
        any |= *level % 2 == 1;
        lowest = lowest.min(odd_or_most(*level));
    }
    (highest, if any { Some(lowest) } else { None })
}

// Returns the level if it is odd, or else 255.
fn odd_or_most(level: u8) -> u8
    ensures { result ≡ (if is_odd level then level else 255) }
{
    if level % 2 == 1 { level } else { 255 }
}
