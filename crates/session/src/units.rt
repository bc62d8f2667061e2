//! Caret units: what a caret moves over on a line in one step. The characters of a unit are in one grapheme
//! cluster, and those that take columns are in one level run.
ghost use Rattle.std.specs.Prelude.{◌≡◌, ◌+◌, ◌-◌, ◌^◌, ◌<◌, ◌≤◌, length, slice_index, IfSome};
ghost use Rattle.lines.specs.Columns.{columns_between};
ghost use Rattle.lines.specs.Visual.{Visual};
ghost use Rattle.ucd.specs.Least.{least};
ghost use Rattle.bidi.specs.Brackets.{greatest};
ghost use Rattle.lines.specs.Clusters.{after};
ghost use Rattle.session.specs.Units.{column_after, column_before, holder, is_in_unit, leading_of};
ghost use Rattle.session.specs.Units.{run_begin, run_end, shown_begin, shown_end, takes_columns};
ghost use Rattle.session.specs.Units.{unit_end, unit_of, unit_start};

use crate::carets::{is_odd, leading_edge, level_of, trailing_edge};
use crate::clusters::Cluster;
use crate::hits::logical;
use lines::VisualLine;

/// A unit that a caret moves over on a line in one step. Indices are counted from the line's first character,
/// and columns from the left edge of the line's shown part.
#[derive(Clone, Copy, Debug, PartialEq, Eq)]
pub struct CaretUnit {
    /// The index of the unit's first character.
    pub start: usize,
    /// The index after the unit's last character.
    pub end: usize,
    /// The column of the unit's leading end: the left end if the level is even.
    pub leading: usize,
    /// The column of the unit's trailing end.
    pub trailing: usize,
    /// The unit's level.
    pub level: u8,
}

// Returns whether a character is shown and takes columns.
fn takes_columns(line: &VisualLine<'_>, k: usize) -> bool
    requires { k + 1 < 2 ^ 64 }
    ensures { result ≡ takes_columns line.now k }
{
    line.columns_between(k, k + 1) > 0
}

// Returns the first character from `low` up to `end` that takes columns, or `None` if none does.
fn first_taking(line: &VisualLine<'_>, low: usize, end: usize) -> Option<usize>
    ensures value { result ≡ least (takes_columns line.now) low (end - low) }
    ensures before { IfSome result (λ k. k < end) }
{
    let mut k = low;
    while k < end {
        if takes_columns(line, k) {
            return Some(k);
        }
        k += 1;
    }
    None
}

// Returns the first character of the level run of character `k`.
fn run_begin(line: &VisualLine<'_>, k: usize) -> usize
    ensures value { result ≡ run_begin line.now k }
    ensures most { result ≤ k }
{
    let level = level_of(line, k);
    let mut begin = k;
    while begin > 0 {
        if level_of(line, begin - 1) != level {
            return begin;
        }
        begin -= 1;
    }
    0
}

// Returns the index after the last character of the level run of character `k`.
fn run_end(line: &VisualLine<'_>, k: usize) -> usize
    ensures value { result ≡ run_end line.now k }
    ensures most { result ≤ length line.now.levels }
{
    let level = level_of(line, k);
    let len = line.levels().len();
    let mut end = k;
    while end < len {
        if level_of(line, end) != level {
            return end;
        }
        end += 1;
    }
    len
}

// Returns the index after the shown part of a cluster, on a line that starts at the position `start`.
fn shown_end(line: &VisualLine<'_>, start: usize, cluster: Cluster) -> usize
    ensures value { result ≡ shown_end line.now start cluster }
    ensures fits { result < 2 ^ 63 }
{
    cluster.end.saturating_sub(start).min(line.levels().len())
}

// Returns the first character of the unit of character `k`, where `k` must take columns.
fn unit_start(line: &VisualLine<'_>, start: usize, cluster: Cluster, k: usize) -> usize
    ensures value { result ≡ unit_start line.now start cluster k }
    ensures most { result ≤ k }
{
    let low = cluster.start.saturating_sub(start).max(run_begin(line, k));
    match first_taking(line, low, k) {
        Some(first) => first,
        None => k,
    }
}

// Returns the index after the last character of the unit of character `k`, where `k` must take columns.
fn unit_end(line: &VisualLine<'_>, start: usize, cluster: Cluster, k: usize) -> usize
    ensures value { result ≡ unit_end line.now start cluster k }
    ensures fits { result < 2 ^ 63 }
{
    let shown = shown_end(line, start, cluster);
    match first_taking(line, run_end(line, k), shown) {
        Some(next) => next,
        None => shown,
    }
}

// Returns whether the character at a visual position has an index from `first` up to `end`, and takes
// columns.
fn is_in_unit(line: &VisualLine<'_>, first: usize, end: usize, place: usize) -> bool
    ensures { result ≡ is_in_unit line.now first end place }
{
    let k = logical(line, place);
    first <= k && k < end && takes_columns(line, k)
}

// Returns the visual position after the rightmost character from `first` up to `end` that takes columns, or 0
// if there is none.
fn after_rightmost(line: &VisualLine<'_>, first: usize, end: usize) -> usize
    ensures { result ≡ after (greatest (is_in_unit line.now first end) (length line.now.vtol)) 0 }
{
    let mut place = line.vtol().len();
    while place > 0 {
        if is_in_unit(line, first, end, place - 1) {
            return place;
        }
        place -= 1;
    }
    0
}

// Returns the column of a unit's leading end. The unit has the given level, and consists of the characters
// from `first` up to `end`.
fn leading_of(line: &VisualLine<'_>, level: u8, first: usize, end: usize) -> usize
    ensures column { result ≡ leading_of line.now level first end }
    ensures fits { result < 2 ^ 63 }
{
    if is_odd(level) {
        line.columns_left(after_rightmost(line, first, end))
    } else {
        leading_edge(line, first)
    }
}

/// Returns the unit of character `k`, where `k` must take columns. The line starts at the position `start`.
/// `cluster` is the cluster of the character. Needs time linear in the lengths of the character's level run
/// and of its cluster.
pub fn unit_of(line: &VisualLine<'_>, start: usize, cluster: Cluster, k: usize) -> CaretUnit
    ensures value { result ≡ unit_of line.now start cluster k }
    ensures start { result.start ≤ k }
    ensures end { result.end < 2 ^ 63 }
{
    let first = unit_start(line, start, cluster, k);
    let end = unit_end(line, start, cluster, k);
    let level = level_of(line, k);
    let leading = leading_of(line, level, first, end);
    let columns = line.columns_between(first, end);
    CaretUnit {
        start: first,
        end,
        leading,
        trailing: if is_odd(level) {
            leading.saturating_sub(columns)
        } else {
            leading + columns
        },
        level,
    }
}

// Returns the last character of a cluster at or before `k` that takes columns, or `None` if none does.
fn holder(line: &VisualLine<'_>, start: usize, cluster: Cluster, k: usize) -> Option<usize>
    requires { k + 1 < 2 ^ 64 }
    ensures value { result ≡ holder line.now start cluster k }
    ensures most { IfSome result (λ j. j ≤ k) }
{
    let begin = cluster.start.saturating_sub(start);
    let mut end = k + 1;
    while end > begin {
        end -= 1;
        if takes_columns(line, end) {
            return Some(end);
        }
    }
    None
}

/// Returns the column of the edge before character `k`, on a line that starts at the position `start`. If a
/// unit begins with the character, this is the unit's leading end, and otherwise the character's leading
/// edge. `cluster` is the character's cluster.
pub fn column_before(line: &VisualLine<'_>, start: usize, cluster: Cluster, k: usize) -> usize
    requires { k + 1 < 2 ^ 63 }
    ensures { result ≡ column_before line.now start cluster k }
{
    if takes_columns(line, k) && unit_start(line, start, cluster, k) == k {
        unit_of(line, start, cluster, k).leading
    } else {
        leading_edge(line, k)
    }
}

/// Returns the column of the edge after character `k`, on a line that starts at the position `start`. If a
/// unit ends with the character, this is the unit's trailing end, and otherwise the character's trailing
/// edge. `cluster` is the character's cluster.
pub fn column_after(line: &VisualLine<'_>, start: usize, cluster: Cluster, k: usize) -> usize
    requires { k + 1 < 2 ^ 64 }
    ensures { result ≡ column_after line.now start cluster k }
{
    let Some(j) = holder(line, start, cluster, k) else {
        return trailing_edge(line, k);
    };
    let unit = unit_of(line, start, cluster, j);
    if unit.end == k + 1 {
        unit.trailing
    } else {
        trailing_edge(line, k)
    }
}
