//! Finds which of the damaged lines have changed. Compares the old paragraphs with the new ones from both
//! ends, one pair after another. Two lines can be the same only if both are the first of their paragraph or
//! both are not. So the search ends at the first pair of paragraphs that have different lines or line counts.
ghost use Rattle.std.specs.Prelude.{◌≡◌, ◌+◌, ◌^◌, ◌<◌, ◌≤◌, ℕ, length, map, sum_by};
ghost use Rattle.std.specs.List.{All, slice_range};
ghost use Rattle.lines.specs.Layouts.{visuals, Rules};
ghost use Rattle.lines.specs.Matching.{MatchAtEnd, MatchAtStart, ShareEnds};
ghost use Rattle.session.specs.Changes.{without_same, AreKnown, HasLines};
ghost use Rattle.session.specs.Kept.{lines_in, BringsTo, IsFresh};
ghost use Rattle.session.specs.Matching.{at_width, AreBrought, IsWhole, MatchingAtEnd, MatchingAtStart};

use crate::edits::{ChangedLines, Damage};
use crate::kept::Kept;
use lines::{Extents, SharedLines};
use store::{Measured, ParagraphStore};

/// How many lines of two paragraphs match, counted from one end, and whether all lines of both do.
#[derive(Clone, Copy, Debug)]
pub struct Matching {
    pub count: usize,
    pub is_whole: bool,
}

// Returns a `Matching`, given the number of matching lines and the number of lines in each of two paragraphs.
fn matching_of(count: usize, lines: usize, others: usize) -> Matching
    ensures count { result.count ≡ count }
    ensures whole { IsWhole lines others result }
{
    Matching {
        count,
        is_whole: (count >= lines) & (count >= others),
    }
}

// Returns how many lines at the start of two paragraphs are the same.
fn start_of_pair(old: &Kept, new: &Kept) -> Matching
    ensures { MatchingAtStart old.now new.now result }
{
    let count = old.laid().matching_at_start(new.laid(), SharedLines::NONE);
    matching_of(count, old.lines(), new.lines())
}

// Returns how many lines at the end of two paragraphs are the same.
fn end_of_pair(old: &Kept, new: &Kept) -> Matching
    ensures { MatchingAtEnd old.now new.now result }
{
    let count = old.laid().matching_at_end(new.laid(), SharedLines::NONE);
    matching_of(count, old.lines(), new.lines())
}

// Returns how many lines at the start of a paragraph stay the same at another width.
fn staying_start(kept: &Kept, part: &Option<Extents>) -> Matching
    ensures { (rules : Rules) (width : ℕ) → IsFresh rules kept.now → BringsTo rules width kept.now part.now
        → MatchingAtStart kept.now (at_width rules width kept.now) result }
{
    let lines = kept.lines();
    match part {
        None => matching_of(lines, lines, lines),
        Some(extents) => {
            let count = kept.laid().staying_at_start(extents);
            matching_of(count, lines, extents.line_count())
        }
    }
}

// Returns how many lines at the end of a paragraph stay the same at another width.
fn staying_end(kept: &Kept, part: &Option<Extents>) -> Matching
    ensures { (rules : Rules) (width : ℕ) → IsFresh rules kept.now → BringsTo rules width kept.now part.now
        → MatchingAtEnd kept.now (at_width rules width kept.now) result }
{
    let lines = kept.lines();
    match part {
        None => matching_of(lines, lines, lines),
        Some(extents) => {
            let count = kept.laid().staying_at_end(extents);
            matching_of(count, lines, extents.line_count())
        }
    }
}

/// How many lines at the start and at the end of a range of paragraphs are the same in the new paragraphs.
#[derive(Clone, Copy, Debug)]
pub struct SameEnds {
    pub start: usize,
    pub end: usize,
}

// Returns how many lines at each end of two paragraphs are the same. Does not compare the lines in `shared`.
fn ends_of_pair(old: &Kept, new: &Kept, shared: SharedLines) -> SameEnds
    requires { ShareEnds (visuals old.now) (visuals new.now) shared.front shared.back }
    ensures start { MatchAtStart (visuals old.now) (visuals new.now) result.start }
    ensures end { MatchAtEnd (visuals old.now) (visuals new.now) result.end }
{
    let lines = old.lines();
    let start = old.laid().matching_at_start(new.laid(), shared);
    // Fast path: if all lines but the last of each paragraph match from the start, the last lines differ.
    let end = if new.lines() == lines && start < lines && lines - start == 1 {
        0
    } else {
        old.laid().matching_at_end(new.laid(), shared)
    };
    SameEnds { start, end }
}

// Returns the total number of lines in the new paragraphs.
fn line_count(new: &[Kept]) -> usize
    requires { sum_by (λ l. length l.lines) new.now < 2 ^ 64 }
    ensures { result ≡ sum_by (λ l. length l.lines) new.now }
{
    let mut count = 0;
    for i in 0..new.len() {
        count += new[i].lines();
    }
    count
}

/// Returns how many lines at each end of a range of paragraphs are the same in the new paragraphs. `lines` is
/// the number of lines in the range. If one paragraph replaces one other, does not compare the lines in
/// `shared`.
pub fn same_ends<S: ParagraphStore<Kept>>(
    store: &S,
    first: usize,
    end: usize,
    lines: usize,
    new: &[Kept],
    shared: SharedLines,
) -> SameEnds
    requires order { first ≤ end }
    requires within { end ≤ length (S.items store.now) }
    requires lines { lines ≡ length (lines_in (slice_range (S.items store.now) first end)) }
    requires fit { sum_by (λ l. length l.lines) new.now < 2 ^ 64 }
    requires shared { AreKnown (S.items store.now) first end new.now shared }
    ensures start { All HasLines (S.items store.now) → All HasLines new.now → MatchAtStart
        (lines_in (slice_range (S.items store.now) first end)) (lines_in new.now) result.start }
    ensures end { All HasLines (S.items store.now) → All HasLines new.now → MatchAtEnd
        (lines_in (slice_range (S.items store.now) first end)) (lines_in new.now) result.end }
{
    // Fast path: if one paragraph replaces one other, the old one is looked up only once.
    if new.len() == 1 && end - first == 1 {
        let Some(kept) = store.get(first) else {
            unreachable!()
        };
        return ends_of_pair(kept, &new[0], shared);
    }
    let start = matching_at_start(store, first, end, new);
    // Fast path: if all lines but the last of each side match from the start, these two last lines differ.
    let end = if start < lines && lines - start == 1 && line_count(new) == lines {
        0
    } else {
        matching_at_end(store, first, end, new)
    };
    SameEnds { start, end }
}

// Returns how many lines at the start of a range of paragraphs are the same as at the start of `new`.
fn matching_at_start<S: ParagraphStore<Kept>>(
    store: &S,
    first: usize,
    end: usize,
    new: &[Kept],
) -> usize
    requires order { first ≤ end }
    requires within { end ≤ length (S.items store.now) }
    ensures { All HasLines (S.items store.now) → All HasLines new.now
        → MatchAtStart (lines_in (slice_range (S.items store.now) first end)) (lines_in new.now) result }
{
    // The contract of `total_lines` bounds the count.
    let _total = store.total_lines();
    let mut count = 0;
    for i in 0..(end - first).min(new.len()) {
        let Some(kept) = store.get(first + i) else {
            unreachable!()
        };
        let matching = start_of_pair(kept, &new[i]);
        count += matching.count;
        if !matching.is_whole {
            return count;
        }
    }
    count
}

// Returns how many lines at the end of a range of paragraphs are the same as at the end of `new`.
fn matching_at_end<S: ParagraphStore<Kept>>(
    store: &S,
    first: usize,
    end: usize,
    new: &[Kept],
) -> usize
    requires order { first ≤ end }
    requires within { end ≤ length (S.items store.now) }
    ensures { All HasLines (S.items store.now) → All HasLines new.now
        → MatchAtEnd (lines_in (slice_range (S.items store.now) first end)) (lines_in new.now) result }
{
    // The contract of `total_lines` bounds the count.
    let _total = store.total_lines();
    let mut count = 0;
    for i in 0..(end - first).min(new.len()) {
        let Some(kept) = store.get(end - i - 1) else {
            unreachable!()
        };
        let matching = end_of_pair(kept, &new[new.len() - i - 1]);
        count += matching.count;
        if !matching.is_whole {
            return count;
        }
    }
    count
}

/// Returns how many lines at the start of the text stay the same at another width.
pub fn staying_at_start<S: ParagraphStore<Kept>>(store: &S, parts: &[Option<Extents>]) -> usize
    requires { (rules : Rules) × (width : ℕ) × AreBrought rules width (S.items store.now) parts.now }
    ensures { (rules : Rules) (width : ℕ) → AreBrought rules width (S.items store.now) parts.now
        → All HasLines (S.items store.now) → All HasLines (map (at_width rules width) (S.items store.now))
        → MatchAtStart (lines_in (S.items store.now))
        (lines_in (map (at_width rules width) (S.items store.now))) result }
{
    // The contract of `total_lines` bounds the count.
    let _total = store.total_lines();
    let mut count = 0;
    for i in 0..parts.len() {
        let Some(kept) = store.get(i) else {
            unreachable!()
        };
        let matching = staying_start(kept, &parts[i]);
        count += matching.count;
        if !matching.is_whole {
            return count;
        }
    }
    count
}

/// Returns how many lines at the end of the text stay the same at another width.
pub fn staying_at_end<S: ParagraphStore<Kept>>(store: &S, parts: &[Option<Extents>]) -> usize
    requires { (rules : Rules) × (width : ℕ) × AreBrought rules width (S.items store.now) parts.now }
    ensures { (rules : Rules) (width : ℕ) → AreBrought rules width (S.items store.now) parts.now
        → All HasLines (S.items store.now) → All HasLines (map (at_width rules width) (S.items store.now))
        → MatchAtEnd (lines_in (S.items store.now))
        (lines_in (map (at_width rules width) (S.items store.now))) result }
{
    // The contract of `total_lines` bounds the count.
    let _total = store.total_lines();
    let mut count = 0;
    for i in 0..parts.len() {
        let at = parts.len() - i - 1;
        let Some(kept) = store.get(at) else {
            unreachable!()
        };
        let matching = staying_end(kept, &parts[at]);
        count += matching.count;
        if !matching.is_whole {
            return count;
        }
    }
    count
}

/// Returns the damaged lines without `start` unchanged lines at their start and then `end` unchanged lines at
/// their end.
pub fn without_same(damage: Damage, start: usize, end: usize) -> ChangedLines
    requires { damage.first_line + damage.old_lines < 2 ^ 64 }
    ensures { result ≡ without_same damage start end }
{
    let most = damage.old_lines.min(damage.new_lines);
    let start = start.min(most);
    let end = end.min(most - start);
    ChangedLines {
        first_line: damage.first_line + start,
        old_lines: damage.old_lines - start - end,
        new_lines: damage.new_lines - start - end,
    }
}
