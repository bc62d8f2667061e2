//! Counts how many lines two layouts share at their start and at their end.
ghost use Rattle.std.specs.Prelude.{◌≡◌, ◌<◌, ℕ, true, length, slice_get};
ghost use Rattle.lines.specs.Extents.{extents_of};
ghost use Rattle.lines.specs.Layouts.{layout_of, visuals, IsLaidOut, Rules};
ghost use Rattle.lines.specs.Matching.{HaveSamePlace, MatchAtEnd, MatchAtStart, ShareEnds};

use crate::extents::{Extents, end_of};
use crate::laid::Laid;

/// How many lines at the start and at the end of two layouts are known to be the same.
#[derive(Clone, Copy, Debug, PartialEq, Eq)]
pub struct SharedLines {
    pub front: usize,
    pub back: usize,
}

impl SharedLines {
    /// No lines are known to be the same.
    pub const NONE: SharedLines = SharedLines { front: 0, back: 0 };
}

impl Laid {
    /// Returns how many lines this layout and another one share at the start, compared by
    /// `VisualLine::is_same`. Does not compare the lines in `shared`.
    pub fn matching_at_start(&self, other: &Laid, shared: SharedLines) -> usize
        requires { ShareEnds (visuals self.now) (visuals other.now) shared.front shared.back }
        ensures { MatchAtStart (visuals self.now) (visuals other.now) result }
    {
        let most = self.line_count().min(other.line_count());
        for k in shared.front..most {
            if !self.is_same_line(k, other, k) {
                return k;
            }
        }
        most
    }

    /// Returns how many lines this layout and another one share at the end, compared by
    /// `VisualLine::is_same`. Does not compare the lines in `shared`.
    pub fn matching_at_end(&self, other: &Laid, shared: SharedLines) -> usize
        requires { ShareEnds (visuals self.now) (visuals other.now) shared.front shared.back }
        ensures { MatchAtEnd (visuals self.now) (visuals other.now) result }
    {
        let (len, other_len) = (self.line_count(), other.line_count());
        let most = len.min(other_len);
        for k in shared.back..most {
            if !self.is_same_line(len - k - 1, other, other_len - k - 1) {
                return k;
            }
        }
        most
    }

    // Returns whether line `n` is the same as line `m` of another layout.
    fn is_same_line(&self, n: usize, other: &Laid, m: usize) -> bool
        requires n { n < length self.now.lines }
        requires m { m < length other.now.lines }
        ensures yes { result ≡ true → slice_get (visuals self.now) n ≡ slice_get (visuals other.now) m }
        ensures no { slice_get (visuals self.now) n ≡ slice_get (visuals other.now) m → result ≡ true }
    {
        match (self.line(n), other.line(m)) {
            (Some(line), Some(other_line)) => line.is_same(&other_line),
            _ => unreachable!(),
        }
    }

    /// Returns how many lines at the start stay the same at another width, given the paragraph's extents at
    /// that width.
    pub fn staying_at_start(&self, extents: &Extents) -> usize
        ensures { (rules : Rules) (width : ℕ) → IsLaidOut rules self.now
            → extents.now ≡ extents_of rules width self.now.text
            → MatchAtStart (visuals self.now) (visuals (layout_of rules width self.now.text)) result }
    {
        let old = self.lines.extents();
        let most = old.line_count().min(extents.line_count());
        for k in 0..most {
            if !old.has_same_place(k, extents, k, self.text.len()) {
                return k;
            }
        }
        most
    }

    /// Returns how many lines at the end stay the same at another width, given the paragraph's extents at
    /// that width.
    pub fn staying_at_end(&self, extents: &Extents) -> usize
        ensures { (rules : Rules) (width : ℕ) → IsLaidOut rules self.now
            → extents.now ≡ extents_of rules width self.now.text
            → MatchAtEnd (visuals self.now) (visuals (layout_of rules width self.now.text)) result }
    {
        let old = self.lines.extents();
        let (len, new_len) = (old.line_count(), extents.line_count());
        let most = len.min(new_len);
        for k in 0..most {
            if !old.has_same_place(len - k - 1, extents, new_len - k - 1, self.text.len()) {
                return k;
            }
        }
        most
    }
}

impl Extents {
    /// Returns the number of lines.
    pub fn line_count(&self) -> usize
        ensures { result ≡ length self.now.starts }
    {
        self.starts().len()
    }

    // Returns whether line `k` has the same start, the same end and an equally large shown part as line `m`
    // of other extents, in a paragraph of `len` characters. Returns `false` if only one of them is the first
    // line.
    fn has_same_place(&self, k: usize, other: &Extents, m: usize, len: usize) -> bool
        requires k { k < length self.now.starts }
        requires m { m < length other.now.starts }
        ensures yes { result ≡ true → HaveSamePlace len self.now other.now k m }
        ensures no { HaveSamePlace len self.now other.now k m → result ≡ true }
    {
        let (starts, others) = (self.starts(), other.starts());
        let (shown, other_shown) = (self.shown(k), other.shown(m));
        ((k == 0) == (m == 0))
            & (starts[k] == others[m])
            & (end_of(starts, k, len) == end_of(others, m, len))
            & (shown.len == other_shown.len)
            & (shown.columns == other_shown.columns)
    }
}
