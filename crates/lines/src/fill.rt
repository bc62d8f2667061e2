//! The lines of a paragraph at a width: reading them, replacing them with the lines at another width, and
//! printing them.
ghost use Rattle.std.specs.Prelude.{◌≡◌, ◌+◌, ◌≤◌, ℕ, List, Option, length, map, option_map, slice_get};
ghost use Rattle.std.specs.Prelude.{IfErr, IfOk, IfSome};
ghost use Rattle.ucd.specs.Within.{AreWithin};
ghost use Rattle.lines.specs.Engine.{counted};
ghost use Rattle.lines.specs.Extents.{extents_in, shown_from};
ghost use Rattle.lines.specs.Kept.{AreStarts, line_in};
ghost use Rattle.lines.specs.Layouts;
ghost use Rattle.lines.specs.Paragraphs.{HasEnds, IsLookedUp};
ghost use Rattle.lines.specs.Parts.{line_of};
ghost use Rattle.lines.specs.Showing.{lines_shown};
ghost use Rattle.lines.specs.declared.char_info.CharInfo.{CharInfo};
ghost use Rattle.lines.specs.declared.engine.TheConstants.{PARAGRAPH_LIMIT};

use crate::buffers::{LineBuffers, VisualBuffers};
use crate::counts::Count;
use crate::extents::{Extents, end_of};
use crate::paragraph::Text;
use crate::printing::bytes::WriteFault;
use crate::printing::print::Print;
use crate::showing::show_all;
use crate::visual_line::VisualLine;
use device::Sink;
use std::marker::Model;

/// How much of a line is shown.
#[derive(Clone, Copy, Debug)]
pub struct Shown {
    /// The number of characters in the shown part.
    pub len: u32,
    /// The width of the shown part in columns.
    pub columns: u32,
}

/// The lines of a paragraph at a width. In `levels` and `chars`, a line's items start at the index of the
/// line's first character. `maps` holds the visual position of each logical position, and then the logical
/// position of each visual position. A line's items start at the same index in each half. One list for both
/// maps saves an allocation per paragraph.
#[derive(Debug)]
pub struct Fill {
    pub(crate) extents: Extents,
    pub(crate) levels: Vec<u8>,
    pub(crate) maps: Vec<u32>,
    pub(crate) chars: Vec<char>,
}

impl Drop for Fill {
    fn drop(self) {
        let Fill {
            extents: _,
            levels: _,
            maps: _,
            chars: _,
        } = self;
    }
}

impl Model for Fill {
    ghost use Rattle.std.specs.Prelude.{length};
    ghost use Rattle.lines.specs.Kept.{IsSound, lines_in};
    ghost use Rattle.lines.specs.Layouts.{Filled};

    ghost Value = { Filled };

    ghost view = { λ f. record {
      lines = lines_in f.extents.starts f.extents.shown f.levels.items f.maps.items f.chars.items;
      len = length f.levels.items;
    } };

    ghost invariant = { λ f.
        IsSound f.extents.starts f.extents.shown f.levels.items f.maps.items f.chars.items };
}

impl Fill {
    ghost use Rattle.lines.specs.Buffers.{held_in, AreSound};
    ghost use Rattle.lines.specs.Layouts.{is_line_within, start_of};
    ghost use Rattle.lines.specs.LaidTexts.{advances_in, IsMeasuredText};
    ghost use Rattle.lines.specs.Pages.{lines_bytes};
    ghost use Rattle.lines.specs.Parts.{line_of};
    ghost use Rattle.lines.specs.Visual.{visual_of};
    ghost use Rattle.lines.specs.Writing.{PassedOn, StoppedIn};

    /// Creates a `Fill` from the lines in the buffers.
    pub(crate) fn of(lines: LineBuffers) -> Fill
        requires { AreSound lines }
        ensures { result ≡ held_in lines }
    {
        let VisualBuffers {
            levels,
            maps,
            chars,
        } = lines.visual;
        Fill {
            extents: lines.extents,
            levels,
            maps,
            chars,
        }
    }

    /// Converts the `Fill` to buffers, so that its lists can be reused.
    pub(crate) fn into_buffers(self) -> LineBuffers {
        let Fill {
            extents,
            levels,
            maps,
            chars,
        } = self;
        LineBuffers {
            extents,
            visual: VisualBuffers {
                levels,
                maps,
                chars,
            },
        }
    }

    /// Overwrites the lines with those that `extents` describes: applies L1 to each line, and L2, L3 and L4
    /// to its shown part. Afterwards, `extents` holds the extents of the old lines.
    pub(crate) fn reflow(
        &mut self,
        text: &Text<'_>,
        levels: &[u8],
        extents: &mut Extents,
        written: &mut Count,
    )
        requires text { IsLookedUp text.now }
        requires ends { HasEnds text.now }
        requires len { self.old.len ≡ length text.now.characters.now }
        requires limit { length text.now.characters.now ≤ PARAGRAPH_LIMIT }
        requires levels { length levels.now ≡ length text.now.characters.now }
        requires starts { AreStarts (length text.now.characters.now) extents.old.starts }
        requires shown { (margin : Option ℕ) × (infos : List CharInfo) × (extents.old.shown
            ≡ shown_from margin (length text.now.characters.now) infos extents.old.starts) }
        ensures lines { self.new.lines ≡ lines_shown text.now.rules.tables.now text.now.rules.options
            text.now.base text.now.characters.now levels.now extents.old.starts extents.old.shown }
        ensures len { self.new.len ≡ length text.now.characters.now }
        ensures within { Layouts.AreWithin (length text.now.characters.now) self.new.lines }
        ensures extents { extents.new ≡ extents_in self.old.lines }
        ensures counts { written.new ≡ counted written.old (length text.now.characters.now) }
        ensures least { written.old ≤ written.new }
    {
        std::mem::swap(&mut self.extents, extents);
        self.levels.copy_from_slice(levels);
        let (extents, levels, maps) = (&self.extents, &mut self.levels, &mut self.maps);
        show_all(text, extents, levels, maps, &mut self.chars, written);
    }

    /// Returns where each line starts and how much of it is shown.
    pub(crate) fn extents(&self) -> &Extents
        ensures { result.now ≡ extents_in self.now.lines }
    {
        &self.extents
    }

    /// Returns where each line starts.
    pub(crate) fn starts(&self) -> &[u32]
        ensures { result.now ≡ map start_of self.now.lines }
    {
        self.extents.starts()
    }

    /// Returns whether there is exactly one line, at most `width` columns wide.
    pub(crate) fn is_line_within(&self, width: u32) -> bool
        ensures { result ≡ is_line_within width self.now.lines }
    {
        if self.extents.starts().len() != 1 {
            return false;
        }
        self.extents.shown(0).columns <= width
    }

    /// Returns line `n`, or `None` past the last line.
    pub(crate) fn part(&self, n: usize) -> Option<Part<'_>>
        ensures line { option_map line_of result ≡ slice_get self.now.lines n }
        ensures within { IfSome result (λ part. AreWithin (length part.levels.now) part.vtol.now) }
        ensures size { IfSome result (λ part. length part.vtol.now ≡ length part.levels.now) }
    {
        let starts = self.extents.starts();
        if n >= starts.len() {
            return None;
        }
        let (ltov, vtol) = self.maps.split_at(self.levels.len());
        Some(part_of(
            starts[n],
            self.extents.shown(n),
            &self.levels,
            ltov,
            vtol,
            &self.chars,
        ))
    }

    /// Returns line `n` of the paragraph with this text, or `None` past the last line.
    pub(crate) fn line<'a>(&'a self, of: &LaidText<'a>, n: usize) -> Option<VisualLine<'a>>
        requires within { Layouts.AreWithin (length of.now.text.now) self.now.lines }
        requires limit { length of.now.text.now ≤ PARAGRAPH_LIMIT }
        requires measures { IsMeasuredText of.now self.now.lines }
        ensures { result
            ≡ option_map (visual_of of.now.base of.now.tab_width (advances_in of.now)
            of.now.text.now self.now.lines n)
            (slice_get self.now.lines n) }
    {
        let text = of.text;
        let part = self.part(n)?;
        let start = part.start as usize;
        let end = end_of(self.starts(), n, text.len());
        let shown_end = start + part.levels.len();
        let (advances, widths) = if of.is_measured {
            (&of.advances[start..shown_end], &of.widths[start..shown_end])
        } else {
            (of.advances, of.widths)
        };
        Some(VisualLine {
            is_first: n == 0,
            base: of.base,
            tab_width: of.tab_width,
            len: end.saturating_sub(start),
            text: &text[start..shown_end],
            is_measured: of.is_measured,
            advances,
            widths,
            columns: part.columns,
            levels: part.levels,
            ltov: part.ltov,
            vtol: part.vtol,
            chars: part.chars,
        })
    }

    /// Writes all lines of the paragraph with this text. `before` is the number of bytes already written, and
    /// the returned byte count includes it.
    pub(crate) fn write_after<'a, W: Sink>(
        &'a self,
        of: &LaidText<'a>,
        writer: &mut W,
        before: u64,
        width: u32,
        print: &Print,
    ) -> Result<u64, WriteFault>
        requires within { Layouts.AreWithin (length of.now.text.now) self.now.lines }
        requires limit { length of.now.text.now ≤ PARAGRAPH_LIMIT }
        requires measures { IsMeasuredText of.now self.now.lines }
        requires before { before ≤ (W.state writer.old).passed }
        ensures ok { IfOk result (λ n.
            PassedOn (lines_bytes width print.now of.now.base of.now.tab_width
            (advances_in of.now) of.now.text.now self.now.lines) before
            (W.state writer.old) (W.state writer.new) n) }
        ensures err { IfErr result (λ fault.
            StoppedIn (lines_bytes width print.now of.now.base of.now.tab_width
            (advances_in of.now) of.now.text.now self.now.lines) before
            (W.state writer.old) (W.state writer.new) fault.written) }
        ensures counted { IfOk result (λ n. n ≤ (W.state writer.new).passed) }
    {
        let mut written = before;
        for n in 0..self.starts().len() {
            let Some(line) = self.line(of, n) else {
                unreachable!()
            };
            written = line.write_after(writer, written, width, print)?;
        }
        Ok(written)
    }
}

/// A paragraph's text and the data that its lines share. If the paragraph is measured, `advances` and
/// `widths` have an item for each character.
#[derive(Clone, Copy)]
pub(crate) struct LaidText<'a> {
    pub(crate) text: &'a [char],
    pub(crate) is_measured: bool,
    pub(crate) advances: &'a [u32],
    pub(crate) widths: &'a [u32],
    pub(crate) base: u8,
    pub(crate) tab_width: u8,
}

/// A line, without the data that it shares with its paragraph.
#[derive(Clone, Copy)]
pub(crate) struct Part<'a> {
    pub(crate) start: u32,
    pub(crate) columns: u32,
    pub(crate) levels: &'a [u8],
    pub(crate) ltov: &'a [u32],
    pub(crate) vtol: &'a [u32],
    pub(crate) chars: &'a [char],
}

// Returns the line that starts at `start` and has the shown part `shown`.
fn part_of<'a>(
    start: u32,
    shown: Shown,
    levels: &'a [u8],
    ltov: &'a [u32],
    vtol: &'a [u32],
    chars: &'a [char],
) -> Part<'a>
    requires levels { start + shown.len ≤ length levels.now }
    requires ltov { length ltov.now ≡ length levels.now }
    requires vtol { length vtol.now ≡ length levels.now }
    requires chars { length chars.now ≡ length levels.now }
    ensures line { line_of result ≡ line_in levels.now ltov.now vtol.now chars.now start shown }
    ensures size { length result.vtol.now ≡ length result.levels.now }
{
    let from = start as usize;
    let to = from + shown.len as usize;
    Part {
        start,
        columns: shown.columns,
        levels: &levels[from..to],
        ltov: &ltov[from..to],
        vtol: &vtol[from..to],
        chars: &chars[from..to],
    }
}
