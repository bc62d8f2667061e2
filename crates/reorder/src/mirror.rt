//! Writes the characters of a line in visual order, mirrored at odd levels (UAX #9, L4).
ghost use Rattle.std.specs.Prelude.{◌≡◌, ◌<◌, ◌≤◌, ◌==◌, ℕ, false, length, map, reverse, if◌then◌else◌};
ghost use Rattle.std.specs.Prelude.{slice_index, slice_index_or};
ghost use Rattle.std.specs.List.{flat_map, position_or_len, range_with_len};
ghost use Rattle.std.specs.List.Sorted.{IsPermutation};
ghost use Rattle.ucd.specs.Properties.{properties_of};
ghost use Rattle.ucd.specs.Within.{AreWithin};
ghost use Rattle.ucd.specs.declared.properties.Properties.{Properties};
ghost use Rattle.reorder.specs.LevelRuns.{run_shown};
ghost use Rattle.reorder.specs.Mirroring.{mirrored, visual_chars};
ghost use Rattle.reorder.specs.Order.{AreInverse};

use crate::order::level_run_len;
use ucd::{Properties, Tables};

/// Writes the characters of a line in visual order. `vtol` holds the logical position for each visual
/// position. A character at an odd level is replaced by its mirror, if it has one.
pub fn visual_chars(
    tables: &Tables,
    line: &[char],
    properties: &[Properties],
    levels: &[u8],
    vtol: &[u32],
    chars: &mut [char],
)
    requires properties { properties.now ≡ map (properties_of tables.now) line.now }
    requires levels { length levels.now ≡ length line.now }
    requires chars { length chars.old ≡ length vtol.now }
    requires within { AreWithin (length line.now) vtol.now }
    ensures { chars.new ≡ visual_chars tables.now levels.now line.now vtol.now }
{
    for (at, place) in vtol.iter().enumerate() {
        let place = *place as usize;
        chars[at] = mirrored(tables, levels[place], line[place], properties[place]);
    }
}

/// Writes what `visual_chars` does, and the inverse of `vtol` to `ltov`: the visual position of each logical
/// position. Mirrors only after all characters are in visual order, since few characters have a mirror.
pub fn show_places(
    tables: &Tables,
    line: &[char],
    properties: &[Properties],
    levels: &[u8],
    vtol: &[u32],
    ltov: &mut [u32],
    chars: &mut [char],
)
    requires properties { properties.now ≡ map (properties_of tables.now) line.now }
    requires levels { length levels.now ≡ length line.now }
    requires places { IsPermutation (range_with_len 0 (length line.now)) vtol.now }
    requires ltov { length ltov.old ≡ length line.now }
    requires chars { length chars.old ≡ length line.now }
    requires limit { length line.now ≤ u32.MAX }
    ensures ltov { ltov.new
        ≡ map (λ k. position_or_len (λ i. i == k) vtol.now) (range_with_len 0 (length line.now)) }
    ensures chars { chars.new ≡ visual_chars tables.now levels.now line.now vtol.now }
{
    copy_places(line, vtol, ltov, chars);
    put_mirrors(tables, line, properties, levels, vtol, ltov, chars);
}

// Writes the inverse of `vtol` to `ltov`, and the characters in the order of `vtol`, without mirroring.
fn copy_places(line: &[char], vtol: &[u32], ltov: &mut [u32], chars: &mut [char])
    requires places { IsPermutation (range_with_len 0 (length line.now)) vtol.now }
    requires ltov { length ltov.old ≡ length line.now }
    requires chars { length chars.old ≡ length line.now }
    requires limit { length line.now ≤ u32.MAX }
    ensures ltov { ltov.new
        ≡ map (λ k. position_or_len (λ i. i == k) vtol.now) (range_with_len 0 (length line.now)) }
    ensures inverse { AreInverse (length line.now) vtol.now ltov.new }
    ensures chars { chars.new ≡ map (slice_index line.now) vtol.now }
{
    for (at, place) in vtol.iter().enumerate() {
        let place = *place as usize;
        ltov[place] = at as u32;
        chars[at] = line[place];
    }
}

// Mirrors the characters at odd levels, given the characters in the order of `_vtol`.
fn put_mirrors(
    tables: &Tables,
    line: &[char],
    properties: &[Properties],
    levels: &[u8],
    _vtol: &[u32],
    ltov: &[u32],
    chars: &mut [char],
)
    requires properties { properties.now ≡ map (properties_of tables.now) line.now }
    requires levels { length levels.now ≡ length line.now }
    requires len { length _vtol.now ≡ length line.now }
    requires ltov { length ltov.now ≡ length line.now }
    requires inverse { AreInverse (length line.now) _vtol.now ltov.now }
    requires chars { chars.old ≡ map (slice_index line.now) _vtol.now }
    ensures { chars.new ≡ visual_chars tables.now levels.now line.now _vtol.now }
{
    let mut at = next_mirror(properties, 0);
    while at < line.len() {
        chars[ltov[at] as usize] = mirrored(tables, levels[at], line[at], properties[at]);
        at = next_mirror(properties, at + 1);
    }
}

// The number of characters that are tested together.
const AT_ONCE: usize = 8;

// Returns the index of the first character at or after `from` that has a mirror, or the length if there is
// none.
fn next_mirror(properties: &[Properties], from: usize) -> usize
    requires { from ≤ length properties.now }
    ensures reached { from ≤ result }
    ensures within { result ≤ length properties.now }
    ensures passed { (m : ℕ) (e : Properties) → from ≤ m → m < result
        → (slice_index_or properties.now m e).has_mirror ≡ false }
{
    let mut at = from;
    while properties.len() - at >= AT_ONCE && !have_mirror(&properties[at..at + AT_ONCE]) {
        at += AT_ONCE;
    }
    while at < properties.len() && !properties[at].has_mirror() {
        at += 1;
    }
    at
}

// Returns whether any of the characters has a mirror. The loop has no branches, so the compiler can test
// several characters at a time.
#[inline(always)] // so that the loop over a group knows its length
fn have_mirror(properties: &[Properties]) -> bool
    ensures { result ≡ false → (m : ℕ) (e : Properties) → m < length properties.now
        → (slice_index_or properties.now m e).has_mirror ≡ false }
{
    let mut any = false;
    for at in 0..properties.len() {
        any |= properties[at].has_mirror();
    }
    any
}

/// Writes the characters of a line in visual order. `runs` holds the logical position at which each level run
/// starts, in visual order. The characters of left-to-right runs are copied unchanged.
pub fn visual_runs(
    tables: &Tables,
    line: &[char],
    properties: &[Properties],
    levels: &[u8],
    runs: &[u32],
    chars: &mut [char],
)
    requires properties { properties.now ≡ map (properties_of tables.now) line.now }
    requires levels { length levels.now ≡ length line.now }
    requires within { AreWithin (length line.now) runs.now }
    requires chars { length chars.old ≡ length (flat_map (run_shown levels.now) runs.now) }
    ensures { chars.new
        ≡ visual_chars tables.now levels.now line.now (flat_map (run_shown levels.now) runs.now) }
{
    let mut at = 0;
    let mut k = 0;
    while k < runs.len() {
        let start = runs[k] as usize;
        let len = level_run_len(levels, start);
        visual_run(
            tables,
            &line[start..start + len],
            &properties[start..start + len],
            levels[start] % 2 == 1,
            &mut chars[at..at + len],
        );
        at += len;
        k += 1;
    }
}

// Writes the characters of a run. In a right-to-left run, they are mirrored and written in reverse order.
fn visual_run(
    tables: &Tables,
    run: &[char],
    properties: &[Properties],
    is_odd: bool,
    chars: &mut [char],
)
    requires properties { properties.now ≡ map (properties_of tables.now) run.now }
    requires chars { length chars.old ≡ length run.now }
    ensures { chars.new
        ≡ (if is_odd then reverse (map (mirrored tables.now 1) run.now) else run.now) }
{
    if !is_odd {
        chars.copy_from_slice(run);
        return;
    }
    let mut k = run.len();
    for at in 0..run.len() {
        k -= 1;
        chars[at] = mirrored(tables, 1, run[k], properties[k]);
    }
}

// Returns the mirror of a character at an odd level, if it has one, and otherwise the character itself.
fn mirrored(tables: &Tables, level: u8, c: char, properties: Properties) -> char
    requires { properties ≡ properties_of tables.now c }
    ensures { result ≡ mirrored tables.now level c }
{
    if level % 2 == 1 && properties.has_mirror() {
        tables.mirror(c).unwrap_or(c)
    } else {
        c
    }
}
