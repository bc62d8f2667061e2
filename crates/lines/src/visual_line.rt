//! Visual lines, which borrow from their paragraph.
ghost use Rattle.std.specs.Prelude.{◌≡◌, false, ◌^◌, ◌<◌, ◌≤◌, true, length, slice_index, sum, sum_by};
ghost use Rattle.std.specs.Prelude.{None, option_map, OnOk, IfOk, IfErr, IfSome};
ghost use Rattle.std.specs.Option.{is_some};
ghost use Rattle.device.specs.Device.{Wrote, StoppedAt};
ghost use Rattle.ucd.specs.Within.{AreWithin};
ghost use Rattle.reorder.specs.Runs.{runs_of, AreRuns};
ghost use Rattle.lines.specs.Bytes.{line_bytes, padding};
ghost use Rattle.lines.specs.Columns.{columns_at, columns_between, columns_left};
ghost use Rattle.lines.specs.Columns.{covering, padding_of, run_columns, widths};
ghost use Rattle.lines.specs.Matching.{HaveSameForm};
ghost use Rattle.lines.specs.Measures.{known_or};
ghost use Rattle.lines.specs.Spans.{is_covered, spans_of, AreMaximal};
ghost use Rattle.lines.specs.Visual.{is_measured};
ghost use Rattle.lines.specs.Widths.{widths_of};
ghost use Rattle.lines.specs.Writing.{PassedOn, StoppedIn};
ghost use Rattle.lines.specs.declared.printing.print.Print.{Print};

use crate::printing::bytes::{
    WriteFault, write_direction, write_levels, write_ltov, write_shown, write_vtol,
};
use crate::printing::print::Print;
use crate::spans::{Selection, Spans};
use crate::widths::width_at;
use device::Sink;
use reorder::{Runs, level_runs};
use std::marker::Model;

/// A visual line. All methods except `is_first`, `base` and `len` refer to the shown part, which is the line
/// without the hidden spaces and separators at its end. Positions are counted from the start of the shown
/// part. In a measured paragraph, columns are in the caller's unit.
#[derive(Debug, Drop)]
pub struct VisualLine<'a> {
    pub(crate) is_first: bool,
    pub(crate) base: u8,
    pub(crate) tab_width: u8,
    pub(crate) len: usize,
    pub(crate) text: &'a [char],
    pub(crate) is_measured: bool,
    // The advances and the widths of the shown characters, in a measured paragraph.
    pub(crate) advances: &'a [u32],
    pub(crate) widths: &'a [u32],
    pub(crate) columns: u32,
    pub(crate) levels: &'a [u8],
    pub(crate) ltov: &'a [u32],
    pub(crate) vtol: &'a [u32],
    pub(crate) chars: &'a [char],
}

impl<'a> Model for VisualLine<'a> {
    ghost use Rattle.std.specs.Prelude.{◌≤◌, length};
    ghost use Rattle.ucd.specs.Within.{AreWithin};
    ghost use Rattle.lines.specs.Measures.{given_if, AreMeasured};
    ghost use Rattle.lines.specs.Visual.{Visual};
    ghost use Rattle.lines.specs.declared.engine.TheConstants.{PARAGRAPH_LIMIT};

    ghost Value = { Visual };

    ghost view = { λ l. record {
      is_first = l.is_first;
      base = l.base;
      tab_width = l.tab_width;
      len = l.len;
      text = l.text.now;
      advances = given_if l.is_measured l.advances.now;
      columns = l.columns;
      levels = l.levels.now;
      ltov = l.ltov.now;
      vtol = l.vtol.now;
      chars = l.chars.now;
    } };

    // Each logical position is an index into the text, and the columns of all characters fit in a `usize`.
    ghost invariant = { λ l. AreWithin (length l.text.now) l.vtol.now
        × (length l.text.now ≤ PARAGRAPH_LIMIT) × (length l.vtol.now ≤ PARAGRAPH_LIMIT)
        × AreMeasured l.tab_width l.text.now l.is_measured l.advances.now l.widths.now };
}

impl<'a> VisualLine<'a> {
    // Returns the widths of the shown characters, or `None` if the line is not measured.
    pub(crate) fn known(&self) -> Option<&'a [u32]>
        ensures widths { known_or (option_map (λ list. list.now) result)
            (widths_of self.now.tab_width None self.now.text) ≡ widths self.now }
        ensures len { IfSome result (λ list. length list.now ≡ length self.now.text) }
        ensures measured { is_some result ≡ is_measured self.now }
    {
        if self.is_measured {
            Some(self.widths)
        } else {
            None
        }
    }

    pub fn is_first(&self) -> bool
        ensures { result ≡ self.now.is_first }
    {
        self.is_first
    }

    /// Returns the base level of the paragraph, 0 or 1.
    pub fn base(&self) -> u8
        ensures { result ≡ self.now.base }
    {
        self.base
    }

    /// Returns the number of characters of the line, including its tail.
    pub fn len(&self) -> usize
        ensures { result ≡ self.now.len }
    {
        self.len
    }

    /// Returns the characters in visual order, mirrored.
    pub fn chars(&self) -> &[char]
        ensures { result.now ≡ self.now.chars }
    {
        self.chars
    }

    /// Returns the level of each character after L1, in logical order.
    pub fn levels(&self) -> &[u8]
        ensures { result.now ≡ self.now.levels }
    {
        self.levels
    }

    /// Returns the visual position of each logical position.
    pub fn ltov(&self) -> &[u32]
        ensures { result.now ≡ self.now.ltov }
    {
        self.ltov
    }

    /// Returns the logical position of each visual position.
    pub fn vtol(&self) -> &[u32]
        ensures { result.now ≡ self.now.vtol }
    {
        self.vtol
    }

    /// Returns the width of the line in columns.
    pub fn columns(&self) -> u32
        ensures { result ≡ self.now.columns }
    {
        self.columns
    }

    /// Returns whether all methods return the same results for both lines. Compares the characters, the
    /// levels, the position maps, the columns, the base levels, the lengths, and whether each line is the
    /// first of its paragraph. In a measured paragraph, also compares the advances.
    pub fn is_same(&self, other: &VisualLine<'_>) -> bool
        ensures yes { result ≡ true → self.now ≡ other.now }
        ensures no { self.now ≡ other.now → result ≡ true }
    {
        self.has_form_of(other)
            && self.levels == other.levels
            && self.chars == other.chars
            && self.text == other.text
            && self.ltov == other.ltov
            && self.vtol == other.vtol
            && (!self.is_measured || self.advances == other.advances)
    }

    // Returns whether two lines agree in every field that is not a list.
    fn has_form_of(&self, other: &VisualLine<'_>) -> bool
        ensures yes { result ≡ true → HaveSameForm self.now other.now }
        ensures no { HaveSameForm self.now other.now → result ≡ true }
    {
        (self.is_first == other.is_first)
            & (self.base == other.base)
            & (self.tab_width == other.tab_width)
            & (self.len == other.len)
            & (self.columns == other.columns)
            & (self.is_measured == other.is_measured)
    }

    /// Returns the number of columns to the left of a visual position, or the line's width if the position is
    /// past the last one. Columns are those of the text's characters, not of their mirrored forms.
    pub fn columns_left(&self, place: usize) -> usize
        ensures value { result ≡ columns_left self.now place }
        ensures fits { result < 2 ^ 63 }
    {
        let known = self.known();
        let mut columns = 0;
        for k in 0..place.min(self.vtol.len()) {
            columns += columns_at(self.text, self.tab_width, known, self.vtol, k);
        }
        columns
    }

    /// Returns the width in columns of the character at a visual position, or 0 past the last position. The
    /// width is that of the text's character, not of its mirrored form.
    pub fn columns_at(&self, place: usize) -> usize
        ensures { result ≡ columns_at self.now place }
    {
        if place < self.vtol.len() {
            columns_at(self.text, self.tab_width, self.known(), self.vtol, place)
        } else {
            0
        }
    }

    /// Returns the total columns of the shown characters from position `start` up to `end`. Positions past
    /// the last one are ignored.
    pub fn columns_between(&self, start: usize, end: usize) -> usize
        ensures value { result ≡ columns_between self.now start end }
        ensures fits { result < 2 ^ 63 }
    {
        let past = end.min(self.text.len());
        let first = start.min(past);
        let known = self.known();
        let mut columns = 0;
        for k in first..past {
            columns += width_at(self.text, self.tab_width, known, k);
        }
        columns
    }

    /// Returns the visual position of the character that covers `column`, or `None` past the right edge.
    /// Columns are counted from the left edge. A character of width 0 covers no column.
    pub fn covering(&self, column: usize) -> Option<usize>
        ensures { result ≡ covering self.now column }
    {
        let known = self.known();
        let mut columns = 0;
        for k in 0..self.vtol.len() {
            columns += columns_at(self.text, self.tab_width, known, self.vtol, k);
            if column < columns {
                return Some(k);
            }
        }
        None
    }

    /// Returns the columns that the characters from position `start` up to `end` cover, as maximal intervals
    /// from left to right: no span is empty, and no two spans touch. Positions past the last one are ignored.
    /// Finding all spans needs time linear in the length of the line. Allocates nothing.
    pub fn spans(&self, start: usize, end: usize) -> Spans<'a>
        ensures spans { result ≡ spans_of self.now start end }
        ensures maximal { AreMaximal (is_covered self.now start end)
            (columns_left self.now (length self.now.vtol)) result }
    {
        Spans::new(Selection {
            text: self.text,
            tab_width: self.tab_width,
            is_measured: self.is_measured,
            advances: self.advances,
            widths: self.widths,
            vtol: self.vtol,
            start,
            end,
        })
    }

    /// Returns the level runs of the shown part from left to right, in the visual order of L2. A level run is
    /// a maximal range of adjacent characters that have the same level after L1. The runs do not depend on
    /// `reordernsm` or `reorder_clusters`, since L3 moves characters only inside runs. Has the same cost as
    /// `reorder::level_runs`. Allocates nothing.
    pub fn runs(&self) -> Runs<'a>
        ensures runs { result ≡ runs_of self.now.levels }
        ensures are { AreRuns self.now.levels result }
        ensures columns { length self.now.levels ≡ length self.now.text
            → sum_by (run_columns self.now) result ≡ sum (widths self.now) }
    {
        level_runs(self.levels)
    }

    /// Returns the padding to the left of the line at a width, in columns. Only lines of right-to-left
    /// paragraphs have padding. The padding is not printed in a measured paragraph, or if `nopad` is set.
    pub fn padding(&self, width: u32) -> u32
        ensures value { result ≡ padding_of width self.now }
        ensures spaces { (print : Print) → print.nopad ≡ false → is_measured self.now ≡ false
            → result ≡ length (padding width print self.now) }
    {
        if self.base % 2 == 1 {
            return width.saturating_sub(self.columns);
        }
        0
    }

    /// Writes the line. Stops at the first failed write. Allocates nothing.
    pub fn write<W: Sink>(
        &self,
        writer: &mut W,
        width: u32,
        print: &Print,
    ) -> Result<(), WriteFault>
        ensures ok { OnOk result (Wrote (line_bytes width print.now self.now)
            (W.state writer.old) (W.state writer.new)) }
        ensures err { IfErr result (λ fault.
            StoppedAt fault.written (line_bytes width print.now self.now)
            (W.state writer.old) (W.state writer.new)) }
    {
        self.write_after(writer, 0, width, print)?;
        Ok(())
    }

    /// Writes the line. `before` is the number of bytes already written. The returned byte count includes
    /// these bytes, as does the count in a `WriteFault`.
    pub fn write_after<W: Sink>(
        &self,
        writer: &mut W,
        before: u64,
        width: u32,
        print: &Print,
    ) -> Result<u64, WriteFault>
        requires { before ≤ (W.state writer.old).passed }
        ensures ok { IfOk result (λ n. PassedOn (line_bytes width print.now self.now) before
            (W.state writer.old) (W.state writer.new) n) }
        ensures err { IfErr result (λ fault. StoppedIn (line_bytes width print.now self.now) before
            (W.state writer.old) (W.state writer.new) fault.written) }
        ensures counted { IfOk result (λ n. n ≤ (W.state writer.new).passed) }
    {
        let shown = write_shown(writer, before, self, width, print)?;
        let direction = write_direction(writer, shown, self, print)?;
        let ltov = write_ltov(writer, direction, self, print)?;
        let vtol = write_vtol(writer, ltov, self, print)?;
        write_levels(writer, vtol, self, print)
    }
}

/// Returns the width in columns of the character at a visual position.
pub(crate) fn columns_at(
    text: &[char],
    tab_width: u8,
    known: Option<&[u32]>,
    vtol: &[u32],
    place: usize,
) -> usize
    requires within { AreWithin (length text.now) vtol.now }
    requires known { IfSome known (λ list. length list.now ≡ length text.now) }
    requires place { place < length vtol.now }
    ensures value { result ≡ slice_index
        (known_or (option_map (λ list. list.now) known.entry) (widths_of tab_width None text.now))
        (slice_index vtol.now place) }
    ensures few { result < 2 ^ 32 }
{
    width_at(text, tab_width, known, vtol[place] as usize)
}
