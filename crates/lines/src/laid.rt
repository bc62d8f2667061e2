//! The layout of a paragraph.
ghost use Rattle.std.specs.Prelude.{◌≡◌, ◌<◌, ◌≤◌, ℕ, false, length, map, option_map, slice_get};
ghost use Rattle.std.specs.Prelude.{true, List, take, IfErr, IfOk, IfSome, OnErr, OnOk};
ghost use Rattle.lines.specs.Layouts;
ghost use Rattle.lines.specs.Measures.{kept_len, kept_widths, AreWidthsOf, FollowFrom};
ghost use Rattle.lines.specs.declared.engine.TheConstants.{PARAGRAPH_LIMIT};
ghost use Rattle.device.specs.Device.{StoppedAt, Wrote};

use crate::buffers::LayoutBuffers;
use crate::char_info::CharInfo;
use crate::counts::Count;
use crate::extents::Extents;
use crate::fill::{Fill, LaidText};
use crate::options::Options;
use crate::paragraph::{LentRules, Text};
use crate::printing::bytes::WriteFault;
use crate::printing::print::Print;
use crate::visual_line::VisualLine;
use crate::widths::{columns, put_widths};
use breaks::{Mark, paragraphs_end_at_must};
use device::Sink;
use std::alloc::{AllocError, Global};
use std::marker::Model;
use ucd::{Properties, Tables};

/// The layout of a paragraph: its text, base level, levels, break marks and lines, and where its clusters
/// end if lines are ordered by clusters.
#[derive(Debug)]
pub struct Laid {
    pub(crate) text: Vec<char>,
    pub(crate) base: u8,
    pub(crate) tab_width: u8,
    pub(crate) is_measured: bool,
    // In a measured paragraph, the advance of each character. If there are tab stops, the width of each shown
    // character on its line follows. Using one list saves memory in each paragraph.
    pub(crate) sizes: Vec<u32>,
    pub(crate) levels: Vec<u8>,
    pub(crate) marks: Vec<Mark>,
    pub(crate) ends: Vec<bool>,
    pub(crate) lines: Fill,
}

impl Drop for Laid {
    fn drop(self) {
        let Laid {
            text: _,
            base: _,
            tab_width: _,
            is_measured: _,
            sizes: _,
            levels: _,
            marks: _,
            ends: _,
            lines: _,
        } = self;
    }
}

impl Model for Laid {
    ghost use Rattle.std.specs.Prelude.{◌≡◌, ◌≤◌, true, length};
    ghost use Rattle.lines.specs.Layouts.{AreWithin, Layout};
    ghost use Rattle.lines.specs.Measures.{kept_advances, KeepsSizes};
    ghost use Rattle.lines.specs.declared.engine.TheConstants.{PARAGRAPH_LIMIT};

    ghost Value = { Layout };

    ghost view = { λ l. record {
      text = l.text.items;
      advances = kept_advances l.is_measured l.text.items l.sizes.items;
      base = l.base;
      tab_width = l.tab_width;
      levels = l.levels.items;
      marks = l.marks.items;
      ends = l.ends.items;
      lines = l.lines.lines;
    } };

    ghost invariant = { λ l.
        (length l.levels.items ≡ length l.text.items)
        × (l.lines.len ≡ length l.text.items) × AreWithin (length l.text.items) l.lines.lines
        × (length l.text.items ≤ PARAGRAPH_LIMIT)
        × (l.is_measured ≡ true → KeepsSizes l.tab_width l.text.items l.sizes.items l.lines.lines) };
}

impl Laid {
    ghost use Rattle.lines.specs.Engine.{counted};
    ghost use Rattle.lines.specs.Extents.{extents_in, extents_of, reflowed};
    ghost use Rattle.std.specs.Option.{option_map_or};
    ghost use Rattle.lines.specs.Layouts.{hides_space_within, is_line_within, start_of, visuals};
    ghost use Rattle.lines.specs.LaidTexts.{advances_in, IsMeasuredText};
    ghost use Rattle.lines.specs.Layouts.{AreLinesOf, Exchanges, HaveRoom, IsLaidOut, Rules};
    ghost use Rattle.lines.specs.Layouts.{fill_of, unmeasured, with_advances};
    ghost use Rattle.std.specs.Prelude.{◌^◌, sum, Some};
    ghost use Rattle.lines.specs.Pages.{layout_bytes};
    ghost use Rattle.lines.specs.Visual.{visual_of};
    ghost use Rattle.lines.specs.Writing.{PassedOn, StoppedIn};

    /// Returns the text and the other lists for reuse, except `sizes`, which only measured paragraphs need.
    pub(crate) fn into_lists(self) -> (Vec<char>, LayoutBuffers) {
        let Laid {
            text,
            base: _,
            tab_width: _,
            is_measured: _,
            sizes: _,
            levels,
            marks,
            ends,
            lines,
        } = self;
        let lists = LayoutBuffers {
            levels,
            marks,
            ends,
            lines: lines.into_buffers(),
        };
        (text, lists)
    }

    /// Returns the characters of the paragraph.
    pub fn text(&self) -> &[char]
        ensures { result.now ≡ self.now.text }
    {
        &self.text
    }

    /// Returns the base level, 0 or 1.
    pub fn base(&self) -> u8
        ensures { result ≡ self.now.base }
    {
        self.base
    }

    /// Returns the level of each character, before L1.
    pub fn levels(&self) -> &[u8]
        ensures levels { result.now ≡ self.now.levels }
        ensures len { length result.now ≡ length self.now.text }
    {
        &self.levels
    }

    /// Returns the break mark after each character.
    pub fn marks(&self) -> &[Mark]
        ensures { result.now ≡ self.now.marks }
    {
        &self.marks
    }

    /// Returns whether a grapheme cluster ends after each character, or an empty slice if lines are not
    /// ordered by clusters.
    pub(crate) fn ends(&self) -> &[bool]
        ensures { result.now ≡ self.now.ends }
    {
        &self.ends
    }

    /// Returns the advances, or `None` if the paragraph is not measured.
    pub fn advances(&self) -> Option<&[u32]>
        ensures advances { option_map (λ list. list.now) result ≡ self.now.advances }
        ensures len { IfSome result (λ list. length list.now ≡ length self.now.text) }
        ensures room { HaveRoom self.now.advances }
    {
        if self.is_measured {
            Some(&self.sizes[..self.text.len()])
        } else {
            None
        }
    }

    /// Returns the lines.
    pub(crate) fn lines(&self) -> &Fill
        ensures lines { result.now.lines ≡ self.now.lines }
        ensures len { result.now.len ≡ length self.now.text }
    {
        &self.lines
    }

    /// Returns where each line starts, in characters from the start of the paragraph.
    pub fn line_starts(&self) -> &[u32]
        ensures { result.now ≡ map start_of self.now.lines }
    {
        self.lines.starts()
    }

    /// Returns the number of lines.
    pub fn line_count(&self) -> usize
        ensures { result ≡ length self.now.lines }
    {
        self.lines.starts().len()
    }

    // Returns whether the paragraph has exactly one line, at most `width` columns wide.
    pub(crate) fn is_line_within(&self, width: u32) -> bool
        ensures { result ≡ is_line_within width self.now.lines }
    {
        self.lines.is_line_within(width)
    }

    // Returns whether the first hidden character of the first line is a space that would also fit in the
    // width.
    pub(crate) fn hides_space_within(&self, tables: &Tables, width: u32) -> bool
        ensures { result ≡ option_map_or
            (hides_space_within tables.now self.now.tab_width self.now.advances width self.now.text)
            (slice_get self.now.lines 0) false }
    {
        let Some(line) = self.lines.part(0) else {
            return false;
        };
        let shown = line.levels.len();
        if shown >= self.text.len() {
            return false;
        }
        let c = self.text[shown];
        let info = CharInfo::of(
            columns(c),
            tables.properties(c),
            c,
            Mark::Never,
            self.tab_width,
        );
        let size = match self.advances() {
            Some(advances) => advances[shown],
            None => u32::from(info.columns),
        };
        info.is_space_within(size, line.columns, width)
    }

    /// Returns line `n`, or `None` past the last line.
    pub fn line(&self, n: usize) -> Option<VisualLine<'_>>
        ensures line { result
            ≡ option_map (visual_of self.now.base self.now.tab_width self.now.advances self.now.text
            self.now.lines n) (slice_get self.now.lines n) }
        ensures nth { result ≡ slice_get (visuals self.now) n }
    {
        self.lines.line(&self.laid_text(), n)
    }

    /// Writes the paragraph's lines. Stops at the first failed write. Allocates nothing.
    pub fn write<W: Sink>(
        &self,
        writer: &mut W,
        width: u32,
        print: &Print,
    ) -> Result<(), WriteFault>
        ensures ok { OnOk result (Wrote (layout_bytes width print.now self.now)
            (W.state writer.old) (W.state writer.new)) }
        ensures err { IfErr result (λ fault.
            StoppedAt fault.written (layout_bytes width print.now self.now)
            (W.state writer.old) (W.state writer.new)) }
    {
        self.write_after(writer, 0, width, print)?;
        Ok(())
    }

    /// Writes the lines. `before` is the number of bytes already written. The returned byte count includes
    /// these bytes, as does the count in a `WriteFault`.
    pub fn write_after<W: Sink>(
        &self,
        writer: &mut W,
        before: u64,
        width: u32,
        print: &Print,
    ) -> Result<u64, WriteFault>
        requires { before ≤ (W.state writer.old).passed }
        ensures ok { IfOk result (λ n. PassedOn (layout_bytes width print.now self.now) before
            (W.state writer.old) (W.state writer.new) n) }
        ensures err { IfErr result (λ fault. StoppedIn (layout_bytes width print.now self.now) before
            (W.state writer.old) (W.state writer.new) fault.written) }
        ensures counted { IfOk result (λ n. n ≤ (W.state writer.new).passed) }
    {
        self.lines
            .write_after(&self.laid_text(), writer, before, width, print)
    }

    // Returns the characters of the paragraph, and the data that its lines share.
    fn laid_text(&self) -> LaidText<'_>
        ensures text { result.text.now ≡ self.now.text }
        ensures base { result.base ≡ self.now.base }
        ensures tab_width { result.tab_width ≡ self.now.tab_width }
        ensures advances { advances_in result ≡ self.now.advances }
        ensures measures { IsMeasuredText result self.now.lines }
    {
        let len = self.text.len();
        let (advances, widths) = if !self.is_measured {
            (&self.sizes[..0], &self.sizes[..0])
        } else if self.tab_width == 0 {
            (&self.sizes[..len], &self.sizes[..len])
        } else {
            (&self.sizes[..len], &self.sizes[len..2 * len])
        };
        LaidText {
            text: &self.text,
            is_measured: self.is_measured,
            advances,
            widths,
            base: self.base,
            tab_width: self.tab_width,
        }
    }

    // Overwrites the lines with those that `extents` describes, which are the lines at another width.
    // Afterwards, `extents` holds the extents of the old lines.
    pub(crate) fn reflow(
        &mut self,
        tables: &Tables,
        options: Options,
        extents: &mut Extents,
        properties: &mut Vec<Properties>,
        written: &mut Count,
    )
        requires laid { IsLaidOut (with_advances (unmeasured tables.now options) self.old.advances) self.old }
        requires extents { (width : ℕ) × (extents.old ≡ extents_of
            (with_advances (unmeasured tables.now options) self.old.advances) width self.old.text) }
        requires room { length self.old.text ≤ length properties.old.items }
        ensures laid { self.new ≡ reflowed (unmeasured tables.now options) self.old extents.old }
        ensures extents { extents.new ≡ extents_in self.old.lines }
        ensures room { length properties.new.items ≡ length properties.old.items }
        ensures counts { written.new ≡ counted written.old (length self.old.text) }
        ensures least { written.old ≤ written.new }
    {
        let text = self.text.as_slice();
        let properties = &mut properties[..text.len()];
        tables.look_up(text, properties);
        let text = Text {
            rules: LentRules { tables, options },
            characters: text,
            properties,
            ends: &self.ends,
            base: self.base,
        };
        self.lines.reflow(&text, &self.levels, extents, written);
        put_all_widths(
            self.is_measured,
            &self.text,
            self.tab_width,
            &self.lines,
            &mut self.sizes,
        );
    }

    // Returns a copy of the paragraph with other advances, and with the lines that were found with them.
    pub(crate) fn with_lines(
        &self,
        alloc: Global,
        advances: Vec<u32>,
        lines: Fill,
    ) -> Result<Laid, AllocError>
        requires len { length advances.items ≡ length self.now.text }
        requires room { sum advances.items < 2 ^ 32 }
        requires lines { (rules : Rules) × (width : ℕ) × (lines ≡ fill_of rules width self.now.text) }
        ensures { IfOk result (λ laid. laid
            ≡ record self.now { advances = Some advances.items; lines = lines.lines }) }
    {
        let text = Vec::from_slice(alloc, &self.text)?;
        let levels = Vec::from_slice(alloc, &self.levels)?;
        let marks = Vec::from_slice(alloc, &self.marks)?;
        let ends = Vec::from_slice(alloc, &self.ends)?;
        let mut sizes = with_room(advances, self.tab_width)?;
        put_all_widths(true, &text, self.tab_width, &lines, &mut sizes);
        Ok(Laid {
            text,
            base: self.base,
            tab_width: self.tab_width,
            is_measured: true,
            sizes,
            levels,
            marks,
            ends,
            lines,
        })
    }

    /// Swaps the lines with those in `fill`, which must be the lines of the same text at some width, found
    /// with the same tables, options and advances.
    pub fn exchange(&mut self, fill: &mut Fill)
        requires { (rules : Rules) × IsLaidOut rules self.old × AreLinesOf rules self.old.text fill.old }
        ensures { Exchanges self.old self.new fill.old fill.new }
    {
        std::mem::swap(&mut self.lines, fill);
        put_all_widths(
            self.is_measured,
            &self.text,
            self.tab_width,
            &self.lines,
            &mut self.sizes,
        );
    }
}

impl Laid {
    ghost use Rattle.std.specs.Prelude.{List};
    ghost use Rattle.lines.specs.Beginnings.{BeginInOrder};
    ghost use Rattle.std.specs.Prelude.{◌+◌};
    ghost use Rattle.lines.specs.Clusters.{cluster_begin, cluster_end, cluster_ends, ends_in};
    ghost use Rattle.lines.specs.Clusters.{IsAloneBetweenSplits};
    ghost use Rattle.lines.specs.Layouts.{Rules, lines_of};
    ghost use Rattle.lines.specs.Words.{word_ends};

    /// States, as a theorem, that the lines of a paragraph start in order, the first one at 0, for any
    /// tables, options and width. `Laid::line_starts` returns these starts. Costs nothing at run time.
    pub fn lines_begin_in_order()
        ensures { (rules : Rules) (width : ℕ) (text : List ℕ)
            → BeginInOrder text (lines_of rules width text) }
    {
        // By this theorem, the last break mark of each paragraph is `Must`.
        paragraphs_end_at_must();
    }

    /// Returns, for each character, whether a grapheme cluster ends after it (UAX #29).
    pub fn cluster_ends(
        &self,
        alloc: std::alloc::Global,
    ) -> Result<Vec<bool>, std::alloc::AllocError>
        ensures ends { IfOk result (λ ends. ends.items ≡ cluster_ends self.now.text) }
        ensures len { IfOk result (λ ends. length ends.items ≡ length self.now.text) }
        ensures memory { OnErr result (0 < length self.now.text) }
    {
        crate::clusters::cluster_ends(alloc, &self.text)
    }

    /// Returns the start and the end of the grapheme cluster of character `k` (UAX #29).
    ///
    /// Reads backward and forward from the character to the nearest places where a cluster ends regardless of
    /// other characters, such as before most letters and emoji. In the worst case, such as a paragraph of
    /// flags, reads the whole paragraph. Copies the characters between these two places, unless the character
    /// is the only one there. Fails only if the allocation for this copy fails.
    pub fn cluster(
        &self,
        alloc: std::alloc::Global,
        k: usize,
    ) -> Result<(usize, usize), std::alloc::AllocError>
        requires { k < length self.now.text }
        ensures start { IfOk result (λ found. found.0
            ≡ cluster_begin (cluster_ends self.now.text) k) }
        ensures end { IfOk result (λ found. found.1 ≡ cluster_end (cluster_ends self.now.text) k) }
        ensures around { IfOk result (λ found. (found.0 ≤ k) × (k < found.1)) }
        ensures within { IfOk result (λ found. found.1 ≤ length self.now.text) }
        ensures memory { OnErr result (¬ (IsAloneBetweenSplits self.now.text k)) }
    {
        crate::clusters::cluster_of(alloc, &self.text, k)
    }

    /// Returns the ends of the grapheme clusters in the `len` characters from `start` on, counted from
    /// `start`. The last of these ends is `len`, even if a cluster continues after it.
    ///
    /// Reads the characters around `start` and `start + len` as `cluster` does, and the characters between
    /// these two positions.
    pub fn cluster_ends_in(
        &self,
        alloc: std::alloc::Global,
        start: usize,
        len: usize,
    ) -> Result<Vec<usize>, std::alloc::AllocError>
        requires some { 0 < len }
        requires within { start + len ≤ length self.now.text }
        ensures { IfOk result (λ found. found.items
            ≡ ends_in (cluster_ends self.now.text) start len) }
    {
        crate::clusters::ends_in(alloc, &self.text, start, len)
    }

    /// Returns, for each character, whether there is a word boundary after it (UAX #29).
    pub fn word_ends(&self, alloc: std::alloc::Global) -> Result<Vec<bool>, std::alloc::AllocError>
        ensures ends { IfOk result (λ ends. ends.items ≡ word_ends self.now.text) }
        ensures len { IfOk result (λ ends. length ends.items ≡ length self.now.text) }
        ensures memory { OnErr result (0 < length self.now.text) }
    {
        crate::clusters::word_ends(alloc, &self.text)
    }
}

/// Returns the list that a measured paragraph keeps: its advances, and space for widths if there are tab
/// stops.
pub(crate) fn with_room(advances: Vec<u32>, tab_width: u8) -> Result<Vec<u32>, AllocError>
    requires { length advances.items ≤ PARAGRAPH_LIMIT }
    ensures advances { IfOk result (λ sizes. take (length advances.items) sizes.items ≡ advances.items) }
    ensures len { IfOk result (λ sizes. (text : List ℕ) → length text ≡ length advances.items
        → kept_len tab_width text ≤ length sizes.items) }
{
    let mut sizes = advances;
    if tab_width > 0 {
        let len = sizes.len();
        sizes.resize(2 * len, 0)?;
    }
    Ok(sizes)
}

/// Replaces the stored widths of a measured paragraph with the widths that its characters have on `lines`.
/// Does nothing if the paragraph is not measured or there are no tab stops: then no widths are stored.
pub(crate) fn put_all_widths(
    is_measured: bool,
    text: &[char],
    tab_width: u8,
    lines: &Fill,
    sizes: &mut [u32],
)
    requires limit { length text.now ≤ PARAGRAPH_LIMIT }
    requires len { is_measured ≡ true → kept_len tab_width text.now ≤ length sizes.old }
    requires within { Layouts.AreWithin (length text.now) lines.now.lines }
    requires lines { FollowFrom 0 lines.now.lines }
    ensures advances { take (length text.now) sizes.new ≡ take (length text.now) sizes.old }
    ensures len { length sizes.new ≡ length sizes.old }
    ensures widths { is_measured ≡ true → AreWidthsOf tab_width text.now (take (length text.now) sizes.new)
        (kept_widths tab_width text.now sizes.new) lines.now.lines }
{
    if !is_measured || tab_width == 0 {
        return;
    }
    let (advances, rest) = sizes.split_at_mut(text.len());
    put_each_width(text, tab_width, lines, advances, &mut rest[..text.len()]);
}

// Writes the widths of the shown characters of each line to `widths`. Other items are unchanged.
fn put_each_width(text: &[char], tab_width: u8, lines: &Fill, advances: &[u32], widths: &mut [u32])
    requires limit { length text.now ≤ PARAGRAPH_LIMIT }
    requires advances { length advances.now ≡ length text.now }
    requires widths { length widths.old ≡ length text.now }
    requires within { Layouts.AreWithin (length text.now) lines.now.lines }
    requires lines { FollowFrom 0 lines.now.lines }
    ensures { AreWidthsOf tab_width text.now advances.now widths.new lines.now.lines }
{
    for n in 0..lines.starts().len() {
        let Some(line) = lines.part(n) else {
            unreachable!()
        };
        let start = line.start as usize;
        let end = start + line.levels.len();
        put_widths(
            &text[start..end],
            tab_width,
            &advances[start..end],
            &mut widths[start..end],
        );
    }
}
