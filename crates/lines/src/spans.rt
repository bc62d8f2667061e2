//! The columns that a range of a line's characters covers, as maximal intervals.
ghost use Rattle.std.specs.Prelude.{◌≡◌, ◌<◌, length};
ghost use Rattle.ucd.specs.Within.{AreWithin};
ghost use Rattle.lines.specs.Selections.{selected_in, IsMeasured, IsReached, Passes};
ghost use Rattle.lines.specs.Spans.{is_selected};

use crate::visual_line::columns_at;
use std::marker::Model;

/// An interval of columns, counted from the left edge of a line's shown part: from `left` up to but not
/// including `right`.
#[derive(Clone, Copy, Debug, PartialEq, Eq)]
pub struct Span {
    pub left: usize,
    pub right: usize,
}

/// An iterator over the spans of columns that a range of a line's characters covers (`VisualLine::spans`).
#[derive(Debug, Drop)]
pub struct Spans<'a> {
    selection: Selection<'a>,
    at: Reached,
}

/// The characters of a line, and a range of their positions.
#[derive(Clone, Copy, Debug)]
pub(crate) struct Selection<'a> {
    pub(crate) text: &'a [char],
    pub(crate) tab_width: u8,
    pub(crate) is_measured: bool,
    pub(crate) advances: &'a [u32],
    pub(crate) widths: &'a [u32],
    pub(crate) vtol: &'a [u32],
    pub(crate) start: usize,
    pub(crate) end: usize,
}

impl<'a> Selection<'a> {
    ghost use Rattle.std.specs.Prelude.{None, option_map, IfSome};
    ghost use Rattle.lines.specs.Columns.{widths};
    ghost use Rattle.lines.specs.Measures.{known_or};
    ghost use Rattle.lines.specs.Widths.{widths_of};

    // Returns the widths of the characters, or `None` if the line is not measured.
    fn known(&self) -> Option<&'a [u32]>
        requires { IsMeasured self.now }
        ensures widths { known_or (option_map (λ list. list.now) result)
            (widths_of self.now.tab_width None self.now.text.now) ≡ widths (selected_in self.now) }
        ensures len { IfSome result (λ list. length list.now ≡ length self.now.text.now) }
    {
        if self.is_measured {
            Some(self.widths)
        } else {
            None
        }
    }
}

/// A visual position, and the number of columns to its left.
#[derive(Clone, Copy, Debug)]
pub(crate) struct Reached {
    pub(crate) place: usize,
    pub(crate) column: usize,
}

impl<'a> Model for Spans<'a> {
    ghost use Rattle.std.specs.Prelude.{List, length};
    ghost use Rattle.ucd.specs.Within.{AreWithin};
    ghost use Rattle.lines.specs.Selections.{selected_in, IsFresh, IsMeasured, IsReached};
    ghost use Rattle.lines.specs.Spans.{spans_from};
    ghost use Rattle.lines.specs.declared.spans.Span.{Span};

    ghost Value = { List Span };

    ghost view = { λ s. spans_from (selected_in s.selection) s.selection.start s.selection.end s.at.column };

    ghost invariant = { λ s. AreWithin (length s.selection.text.now) s.selection.vtol.now
        × IsMeasured s.selection
        × IsReached (selected_in s.selection) s.at × IsFresh s.selection s.at.column };
}

impl<'a> Spans<'a> {
    ghost use Rattle.std.specs.Prelude.{◌≤◌};
    ghost use Rattle.lines.specs.Spans.{spans_from};
    ghost use Rattle.lines.specs.declared.engine.TheConstants.{PARAGRAPH_LIMIT};

    /// Creates an iterator over the spans of a selection.
    pub(crate) fn new(selection: Selection<'a>) -> Spans<'a>
        requires within { AreWithin (length selection.text.now) selection.vtol.now }
        requires measures { IsMeasured selection }
        requires limit { length selection.vtol.now ≤ PARAGRAPH_LIMIT }
        ensures { result
            ≡ spans_from (selected_in selection.entry) selection.entry.start selection.entry.end 0 }
    {
        Spans {
            selection,
            at: Reached {
                place: 0,
                column: 0,
            },
        }
    }
}

impl<'a> Iterator for Spans<'a> {
    ghost use Rattle.std.specs.Iterator.{item_count, YieldsFirst};

    type Item = Span;

    ghost next_gives = { YieldsFirst (λ spans. spans) };

    ghost remaining = { item_count (λ spans. spans) };

    fn next(&mut self) -> Option<Span> {
        let selection = self.selection;
        let left = pass(&selection, self.at, false);
        let right = pass(&selection, left, true);
        self.at = right;
        if left.place == selection.vtol.len() {
            return None;
        }
        Some(Span {
            left: left.column,
            right: right.column,
        })
    }
}

// Starting at `at`, skips selected characters if `inside` is true, and unselected ones if it is false, up to
// the first other character. Always skips characters that occupy no columns. Returns the visual position
// after these characters, with the number of columns to its left.
fn pass(selection: &Selection<'_>, at: Reached, inside: bool) -> Reached
    requires within { AreWithin (length selection.now.text.now) selection.now.vtol.now }
    requires measures { IsMeasured selection.now }
    requires at { IsReached (selected_in selection.now) at }
    ensures at { IsReached (selected_in selection.now) result }
    ensures passes { Passes selection.now inside at.place result.place }
{
    let (text, known, vtol) = (selection.text, selection.known(), selection.vtol);
    let mut place = at.place;
    let mut column = at.column;
    while place < vtol.len() {
        let columns = columns_at(text, selection.tab_width, known, vtol, place);
        if columns > 0 && is_selected(selection, place) != inside {
            return Reached { place, column };
        }
        column += columns;
        place += 1;
    }
    Reached { place, column }
}

// Returns whether the character at a visual position is selected.
fn is_selected(selection: &Selection<'_>, place: usize) -> bool
    requires { place < length selection.now.vtol.now }
    ensures { result ≡ is_selected (selected_in selection.now) selection.now.start selection.now.end place }
{
    let position = selection.vtol[place] as usize;
    selection.start <= position && position < selection.end
}
