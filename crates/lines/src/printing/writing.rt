//! Writes the lines of a paragraph one after another without keeping them. Computes only the parts of a line
//! that are printed.
ghost use Rattle.std.specs.Prelude.{◌≡◌, ◌*◌, ◌≤◌, ℕ, List, Option, true, false, length, slice_index};
ghost use Rattle.std.specs.Prelude.{IfOk, IfErr, None, drop, take};
ghost use Rattle.ucd.specs.Within.{AreWithin};
ghost use Rattle.lines.specs.Asked.{asks_places};
ghost use Rattle.lines.specs.Buffers.{CanHold, SameLengths};
ghost use Rattle.lines.specs.Bytes.{line_bytes};
ghost use Rattle.lines.specs.Engine.{counted};
ghost use Rattle.lines.specs.Extents.{shown_from};
ghost use Rattle.lines.specs.Kept.{AreStarts};
ghost use Rattle.lines.specs.Pages.{lines_bytes};
ghost use Rattle.lines.specs.Paragraphs.{HasEnds, IsLookedUp, held_line, shown_by, shown_levels};
ghost use Rattle.lines.specs.Paragraphs.{shown_of};
ghost use Rattle.lines.specs.Showing.{lines_shown};
ghost use Rattle.lines.specs.Tabs.{tab_width_in};
ghost use Rattle.lines.specs.Writing.{PassedOn, StoppedIn};
ghost use Rattle.lines.specs.declared.char_info.CharInfo.{CharInfo};
ghost use Rattle.lines.specs.declared.engine.TheConstants.{PARAGRAPH_LIMIT};

use crate::buffers::VisualBuffers;
use crate::counts::Count;
use crate::extents::Extents;
use crate::paragraph::{LogicalLine, Text};
use crate::printing::bytes::WriteFault;
use crate::printing::print::Print;
use crate::showing::{is_plain, reset_line, show_chars, show_part};
use crate::visual_line::VisualLine;
use device::Sink;

/// What to print for each line, and the width.
#[derive(Clone, Copy)]
pub(crate) struct Form<'a> {
    pub(crate) width: u32,
    pub(crate) print: &'a Print,
}

/// Writes all lines of a paragraph, given the levels before L1, and returns the number of bytes written. Uses
/// the front of the buffers for each line. Counts the characters.
pub(crate) fn write_each<W: Sink>(
    writer: &mut W,
    form: &Form<'_>,
    text: &Text<'_>,
    extents: &Extents,
    levels: &[u8],
    visual: &mut VisualBuffers,
    count: &mut Count,
) -> Result<u64, WriteFault>
    requires text { IsLookedUp text.now }
    requires ends { HasEnds text.now }
    requires limit { length text.now.characters.now ≤ PARAGRAPH_LIMIT }
    requires starts { AreStarts (length text.now.characters.now) extents.now.starts }
    requires shown { (margin : Option ℕ) × (infos : List CharInfo) × (extents.now.shown
        ≡ shown_from margin (length text.now.characters.now) infos extents.now.starts) }
    requires levels { length levels.now ≡ length text.now.characters.now }
    requires visual { CanHold (length text.now.characters.now) visual.old }
    ensures ok { IfOk result (λ n. PassedOn (lines_bytes form.now.width form.now.print.now text.now.base
        (tab_width_in text.now.rules.tables.now text.now.rules.options) None
        text.now.characters.now (lines_shown text.now.rules.tables.now text.now.rules.options text.now.base
        text.now.characters.now levels.now extents.now.starts extents.now.shown)) 0
        (W.state writer.old) (W.state writer.new) n) }
    ensures err { IfErr result (λ fault. StoppedIn (lines_bytes form.now.width form.now.print.now
        text.now.base (tab_width_in text.now.rules.tables.now text.now.rules.options) None
        text.now.characters.now (lines_shown text.now.rules.tables.now
        text.now.rules.options text.now.base text.now.characters.now levels.now extents.now.starts
        extents.now.shown)) 0 (W.state writer.old) (W.state writer.new) fault.written) }
    ensures counts { count.new ≡ counted count.old (length text.now.characters.now) }
    ensures least { count.old ≤ count.new }
{
    let starts = extents.starts();
    count.raise(text.characters.len());
    let mut written = 0;
    let mut k = 0;
    while k < starts.len() {
        let slice = extents.line_at(starts, text, k);
        let line = LogicalLine {
            text: slice.text,
            levels: &levels[slice.start..slice.end],
            shown: slice.shown,
            is_first: k == 0,
        };
        written = write_line(writer, written, form, &line, visual)?;
        k += 1;
    }
    Ok(written)
}

/// Writes a line. `before` is the number of bytes already written, and the returned byte count includes it.
pub(crate) fn write_line<W: Sink>(
    writer: &mut W,
    before: u64,
    form: &Form<'_>,
    line: &LogicalLine<'_>,
    visual: &mut VisualBuffers,
) -> Result<u64, WriteFault>
    requires before { before ≤ (W.state writer.old).passed }
    requires line { IsLookedUp line.now.text }
    requires limit { length line.now.text.characters.now ≤ PARAGRAPH_LIMIT }
    requires shown { line.now.shown.len ≤ length line.now.text.characters.now }
    requires levels { length line.now.levels.now ≡ length line.now.text.characters.now }
    requires visual { CanHold (length line.now.text.characters.now) visual.old }
    ensures ok { IfOk result (λ n.
        PassedOn (line_bytes form.now.width form.now.print.now (shown_of line.now)) before
        (W.state writer.old) (W.state writer.new) n) }
    ensures err { IfErr result (λ fault.
        StoppedIn (line_bytes form.now.width form.now.print.now (shown_of line.now)) before
        (W.state writer.old) (W.state writer.new) fault.written) }
    ensures counted { IfOk result (λ n. n ≤ (W.state writer.new).passed) }
    ensures visual { SameLengths visual.old visual.new }
{
    let tab_width = line.text.rules.tab_width();
    if line.shown.len == 0 && !form.print.asks_places(tab_width) {
        return write_ordered(writer, before, form, line, &[], &[]);
    }
    let is_flat = reset_front(line, &mut visual.levels);
    write_with_levels(writer, before, form, line, is_flat, visual)
}

// Writes a line whose levels after L1 are at the front of `visual.levels`.
fn write_with_levels<W: Sink>(
    writer: &mut W,
    before: u64,
    form: &Form<'_>,
    line: &LogicalLine<'_>,
    is_flat: bool,
    visual: &mut VisualBuffers,
) -> Result<u64, WriteFault>
    requires before { before ≤ (W.state writer.old).passed }
    requires line { IsLookedUp line.now.text }
    requires limit { length line.now.text.characters.now ≤ PARAGRAPH_LIMIT }
    requires shown { line.now.shown.len ≤ length line.now.text.characters.now }
    requires visual { CanHold (length line.now.text.characters.now) visual.old }
    requires flat { is_flat ≡ true
        → (k : ℕ) → slice_index (take line.now.shown.len visual.old.levels.items) k ≡ 0 }
    ensures ok { IfOk result (λ n. PassedOn (line_bytes form.now.width form.now.print.now
        (shown_by line.now (take line.now.shown.len visual.old.levels.items))) before
        (W.state writer.old) (W.state writer.new) n) }
    ensures err { IfErr result (λ fault. StoppedIn (line_bytes form.now.width form.now.print.now
        (shown_by line.now (take line.now.shown.len visual.old.levels.items))) before
        (W.state writer.old) (W.state writer.new) fault.written) }
    ensures counted { IfOk result (λ n. n ≤ (W.state writer.new).passed) }
    ensures visual { SameLengths visual.old visual.new }
{
    let n = line.shown.len as usize;
    if form.print.asks_places(line.text.rules.tab_width()) {
        let (maps, chars) = (&mut visual.maps, &mut visual.chars);
        order_front(line, is_flat, &visual.levels, maps, chars);
        return write_visual(writer, before, form, line, visual);
    }
    if form.print.novisual || is_plain(&visual.levels[..n], is_flat) {
        let part = &line.text.characters[..n];
        return write_ordered(writer, before, form, line, &visual.levels[..n], part);
    }
    let (places, chars) = (&mut visual.maps, &mut visual.chars);
    chars_front(line, &visual.levels, places, chars);
    write_ordered(
        writer,
        before,
        form,
        line,
        &visual.levels[..n],
        &visual.chars[..n],
    )
}

// Writes the levels of a line after L1 to the front of `levels`. Returns `true` only if all of them are 0.
fn reset_front(line: &LogicalLine<'_>, levels: &mut [u8]) -> bool
    requires line { IsLookedUp line.now.text }
    requires shown { line.now.shown.len ≤ length line.now.text.characters.now }
    requires levels { length line.now.levels.now ≡ length line.now.text.characters.now }
    requires len { length line.now.levels.now ≤ length levels.old }
    ensures levels { take line.now.shown.len levels.new ≡ shown_levels line.now }
    ensures flat { result ≡ true → (k : ℕ) → slice_index (take line.now.shown.len levels.new) k ≡ 0 }
{
    let front = &mut levels[..line.levels.len()];
    front.copy_from_slice(line.levels);
    reset_line(line.text.properties, line.text.base, front)
}

// Applies L2, L3 and L4 to the shown part of a line. The line's levels after L1 are at the front of `levels`.
// Writes `ltov` and then `vtol` to the front of `maps`, and the characters to the front of `chars`.
fn order_front(
    line: &LogicalLine<'_>,
    is_flat: bool,
    levels: &[u8],
    maps: &mut [u32],
    chars: &mut [char],
)
    requires line { IsLookedUp line.now.text }
    requires limit { length line.now.text.characters.now ≤ PARAGRAPH_LIMIT }
    requires shown { line.now.shown.len ≤ length line.now.text.characters.now }
    requires levels { line.now.shown.len ≤ length levels.now }
    requires flat { is_flat ≡ true → (k : ℕ) → slice_index (take line.now.shown.len levels.now) k ≡ 0 }
    requires maps { 2 * line.now.shown.len ≤ length maps.old }
    requires chars { line.now.shown.len ≤ length chars.old }
    ensures ltov { take line.now.shown.len maps.new
        ≡ (shown_by line.now (take line.now.shown.len levels.now)).ltov }
    ensures vtol { take line.now.shown.len (drop line.now.shown.len maps.new)
        ≡ (shown_by line.now (take line.now.shown.len levels.now)).vtol }
    ensures chars { take line.now.shown.len chars.new
        ≡ (shown_by line.now (take line.now.shown.len levels.now)).chars }
    ensures within { AreWithin line.now.shown.len
        (take line.now.shown.len (drop line.now.shown.len maps.new)) }
{
    let n = line.shown.len as usize;
    let (ltov, vtol) = maps.split_at_mut(n);
    show_part(
        &line.text,
        &levels[..n],
        is_flat,
        ltov,
        &mut vtol[..n],
        &mut chars[..n],
    );
}

// Writes the characters of a line's shown part, in visual order, to the front of `chars`. The line's levels
// after L1 are at the front of `levels`.
fn chars_front(line: &LogicalLine<'_>, levels: &[u8], places: &mut [u32], chars: &mut [char])
    requires line { IsLookedUp line.now.text }
    requires limit { length line.now.text.characters.now ≤ PARAGRAPH_LIMIT }
    requires shown { line.now.shown.len ≤ length line.now.text.characters.now }
    requires levels { line.now.shown.len ≤ length levels.now }
    requires places { line.now.shown.len ≤ length places.old }
    requires chars { line.now.shown.len ≤ length chars.old }
    ensures { take line.now.shown.len chars.new
        ≡ (shown_by line.now (take line.now.shown.len levels.now)).chars }
{
    let n = line.shown.len as usize;
    show_chars(&line.text, &levels[..n], &mut places[..n], &mut chars[..n]);
}

// Writes a line whose levels and characters are at the front of the buffers. Its `ltov` and then its `vtol`
// are at the front of `visual.maps`.
fn write_visual<W: Sink>(
    writer: &mut W,
    before: u64,
    form: &Form<'_>,
    line: &LogicalLine<'_>,
    visual: &VisualBuffers,
) -> Result<u64, WriteFault>
    requires before { before ≤ (W.state writer.old).passed }
    requires limit { length line.now.text.characters.now ≤ PARAGRAPH_LIMIT }
    requires shown { line.now.shown.len ≤ length line.now.text.characters.now }
    requires visual { CanHold (length line.now.text.characters.now) visual.now }
    requires within { AreWithin line.now.shown.len
        (take line.now.shown.len (drop line.now.shown.len visual.now.maps.items)) }
    ensures ok { IfOk result (λ n.
        PassedOn (line_bytes form.now.width form.now.print.now (held_line line.now visual.now)) before
        (W.state writer.old) (W.state writer.new) n) }
    ensures err { IfErr result (λ fault.
        StoppedIn (line_bytes form.now.width form.now.print.now (held_line line.now visual.now)) before
        (W.state writer.old) (W.state writer.new) fault.written) }
    ensures counted { IfOk result (λ n. n ≤ (W.state writer.new).passed) }
{
    let n = line.shown.len as usize;
    let levels = &visual.levels[..n];
    let (ltov, vtol) = visual.maps.split_at(n);
    let view = VisualLine {
        is_first: line.is_first,
        base: line.text.base,
        tab_width: line.text.rules.tab_width(),
        len: line.text.characters.len(),
        text: &line.text.characters[..levels.len()],
        is_measured: false,
        advances: &[],
        widths: &[],
        columns: line.shown.columns,
        levels,
        ltov,
        vtol: &vtol[..n],
        chars: &visual.chars[..n],
    };
    view.write_after(writer, before, form.width, form.print)
}

// Writes a line for which the position maps are not needed, given its levels and its characters in visual
// order.
fn write_ordered<W: Sink>(
    writer: &mut W,
    before: u64,
    form: &Form<'_>,
    line: &LogicalLine<'_>,
    levels: &[u8],
    chars: &[char],
) -> Result<u64, WriteFault>
    requires before { before ≤ (W.state writer.old).passed }
    requires limit { length line.now.text.characters.now ≤ PARAGRAPH_LIMIT }
    requires levels { length levels.now ≤ length line.now.text.characters.now }
    requires places { asks_places (tab_width_in line.now.text.rules.tables.now
        line.now.text.rules.options) form.now.print.now ≡ false }
    requires chars { form.now.print.now.novisual ≡ false
        → chars.now ≡ (shown_by line.now levels.now).chars }
    ensures ok { IfOk result (λ n.
        PassedOn (line_bytes form.now.width form.now.print.now (shown_by line.now levels.now)) before
        (W.state writer.old) (W.state writer.new) n) }
    ensures err { IfErr result (λ fault.
        StoppedIn (line_bytes form.now.width form.now.print.now (shown_by line.now levels.now)) before
        (W.state writer.old) (W.state writer.new) fault.written) }
    ensures counted { IfOk result (λ n. n ≤ (W.state writer.new).passed) }
{
    let view = VisualLine {
        is_first: line.is_first,
        base: line.text.base,
        tab_width: line.text.rules.tab_width(),
        len: line.text.characters.len(),
        text: &line.text.characters[..levels.len()],
        is_measured: false,
        advances: &[],
        widths: &[],
        columns: line.shown.columns,
        levels,
        ltov: &[],
        vtol: &[],
        chars,
    };
    view.write_after(writer, before, form.width, form.print)
}
