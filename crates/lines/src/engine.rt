//! Lays out paragraphs using tables and options, and counts the work.
ghost use Rattle.std.specs.Prelude.{◌≡◌, ◌<◌, ◌≤◌, ℕ, [], true, false, length, map};
ghost use Rattle.std.specs.Prelude.{IfOk, IfErr, IsErrOf, IsTrue, OnErr, OnOk};
ghost use Rattle.std.specs.Prelude.{if◌then◌else◌};
ghost use Rattle.std.specs.Str.{chars};
ghost use Rattle.device.specs.Device.{StoppedAt, Wrote};
ghost use Rattle.bidi.specs.LevelReasons.{level_reasons_of, levels_in};
ghost use Rattle.bidi.specs.Levels.{levels_of};
ghost use Rattle.breaks.specs.Reasons.{reasons_of};
ghost use Rattle.lines.specs.Bytes.{direction_line};
ghost use Rattle.lines.specs.Layouts.{AreWithin, base_of};
ghost use Rattle.lines.specs.Buffers.{held_in, held_lines, AreSound};
ghost use Rattle.lines.specs.Pages.{lines_bytes, paragraph_bytes};
ghost use Rattle.lines.specs.Printing.{FailedAs, skips_lines};
ghost use Rattle.lines.specs.Separators.{separator_len};

mod edited;

use crate::buffers::LayoutBuffers;
use crate::counting::char_count;
use crate::counts::Counts;
use crate::extents::Extents;
use crate::fill::Fill;
use crate::laid::{Laid, put_all_widths, with_room};
use crate::options::Options;
use crate::paragraph::LentRules;
use crate::printing::bytes::{WriteFault, write_base};
use crate::printing::print::{Print, PrintFault};
use crate::printing::writing::Form;
use crate::reflow::ReflowScratch;
use crate::separators::ends_line;
use crate::workspace::{Workspace, ready};
use bidi::{
    LevelReason, base_level, base_level_in_text, first_cut, first_cut_in_text, is_cut,
    level_reasons,
};
use breaks::{Reason, marks_are_as_many, paragraphs_end_at_must, reasons};
use device::Sink;
use std::alloc::{AllocError, Global};
use std::fmt;
use std::fmt::{Debug, Formatter};
use std::marker::Model;
use std::mem::swap;
use ucd::Tables;

/// The maximum number of characters in a paragraph.
pub const PARAGRAPH_LIMIT: usize = 1_048_576;

// Contracts refer to the constant by name, so this checks that it has the value that the documentation
// states.
const _: () = prove!(PARAGRAPH_LIMIT == 1_048_576);

/// Lays out paragraphs using its tables and options, and counts the work. The engine never lends its tables
/// to a caller, so all layout done with them is counted. The work of `level_reasons` and `break_reasons` is
/// not counted.
pub struct Engine {
    tables: Tables,
    options: Options,
    counts: Counts,
    // Allocated for the first paragraph, and reused for the next ones.
    work: Option<Box<Workspace>>,
}

impl Debug for Engine {
    fn fmt<W: fmt::Write>(&self, f: &mut Formatter<W>) -> fmt::Result {
        f.debug_struct("Engine").finish_non_exhaustive()
    }
}

impl Drop for Engine {
    fn drop(self) {
        let Engine {
            tables,
            options: _,
            counts,
            work: _,
        } = self;
        counts.end(tables);
    }
}

impl Model for Engine {
    ghost use Rattle.lines.specs.Layouts.{EngineState, unmeasured};

    ghost Value = { EngineState };

    ghost view = { λ e. record {
      rules = unmeasured e.tables e.options;
      analysed = e.counts.analysed;
      filled = e.counts.filled;
      written = e.counts.written;
    } };
}

// Moves a layout into a box.
#[inline(never)] // so that callers do not copy the layout in case this fails
fn boxed(alloc: Global, laid: Laid) -> Result<Box<Laid>, AllocError>
    ensures { IfOk result (λ boxed. boxed.value ≡ laid) }
{
    let boxed = Box::new(alloc, laid)?;
    Ok(boxed)
}

impl Engine {
    ghost use Rattle.std.specs.Prelude.{◌^◌, List, None, Option, Some, option_map, sum};
    ghost use Rattle.bidi.specs.Cuts.{first_cut, SplitsAt};
    ghost use Rattle.bidi.specs.TextCuts.{FindsEndAfter};
    ghost use Rattle.bidi.specs.Levels.{levels_of};
    ghost use Rattle.lines.specs.Extents.{extents_in, extents_of, reflowed};
    ghost use Rattle.lines.specs.Layouts.{base_of, cut_by, fill_of, keeps_lines, layout_of, lines_of};
    ghost use Rattle.lines.specs.Layouts.{AreLinesOf, AreWithin, HaveRoom, IsLaidOut, IsParagraph};
    ghost use Rattle.lines.specs.Layouts.{unmeasured, with_advances};
    ghost use Rattle.lines.specs.Engine.{rules_of, analysed_of, filled_of, written_of, counted};
    ghost use Rattle.lines.specs.Engine.{Fills, FillsAtMost, FindsExtents, FindsExtentsAtMost};
    ghost use Rattle.lines.specs.Engine.{LaysOut, LaysOutAtMost, Prints, Rewrites, RewritesAtMost};
    ghost use Rattle.lines.specs.Engine.{SameRules};
    ghost use Rattle.lines.specs.HeldLayouts.{HoldsLayout};
    ghost use Rattle.lines.specs.Tabs.{tab_width_in};

    /// Creates an engine whose counters are 0. Allocates nothing.
    pub fn new(tables: Tables, options: Options) -> Engine
        ensures rules { rules_of result ≡ unmeasured tables options }
        ensures analysed { analysed_of result ≡ 0 }
        ensures filled { filled_of result ≡ 0 }
        ensures written { written_of result ≡ 0 }
    {
        Engine {
            tables,
            options,
            counts: Counts::zero(),
            work: None,
        }
    }

    /// Sets the options for the next paragraphs. Keeps the tables, the counters and the buffers.
    pub fn set_options(&mut self, options: Options)
        ensures rules { rules_of self.new
            ≡ unmeasured (rules_of self.old).tables options }
        ensures analysed { analysed_of self.new ≡ analysed_of self.old }
        ensures filled { filled_of self.new ≡ filled_of self.old }
        ensures written { written_of self.new ≡ written_of self.old }
    {
        self.options = options;
    }

    /// Returns the options for the next paragraphs.
    pub fn options(&self) -> Options
        ensures rules { rules_of self.now ≡ unmeasured (rules_of self.now).tables result }
    {
        self.options
    }

    /// Frees the buffers that are reused from one paragraph to the next. They have grown to the size that the
    /// longest paragraph so far needed.
    pub fn free_buffers(&mut self)
        ensures { self.new ≡ self.old }
    {
        self.work = None;
    }

    /// Exchanges the buffers of two engines, which keep their tables, options and counters.
    pub fn swap_buffers(&mut self, other: &mut Engine)
        ensures self_stays { self.new ≡ self.old }
        ensures other_stays { other.new ≡ other.old }
    {
        swap(&mut self.work, &mut other.work);
    }

    /// Keeps the lists of a layout that is no longer needed. The next paragraph that is laid out uses them if
    /// their capacity is suitable. Keeps the lists of only one layout at a time, until `free_buffers` is
    /// called.
    pub fn recycle(&mut self, laid: Laid)
        ensures { self.new ≡ self.old }
    {
        if let Some(work) = &mut self.work {
            work.recycle(laid);
        }
    }

    /// Returns an empty list for the text of the next paragraph, which has about `len` characters. Reuses the
    /// list of a recycled text if its capacity is suitable. Allocates nothing.
    pub fn take_text(&mut self, alloc: Global, len: usize) -> Vec<char>
        ensures text { result.items ≡ [] }
        ensures same { self.new ≡ self.old }
    {
        match &mut self.work {
            Some(work) => work.take_text(alloc, len),
            None => Vec::new(alloc),
        }
    }

    /// Returns whether there is a paragraph boundary between two adjacent characters.
    pub fn is_cut(&self, before: char, after: char) -> bool
        ensures { result ≡ cut_by (rules_of self.now) before after }
    {
        is_cut(&self.tables, before, after)
    }

    /// Returns the number of characters in a line's separator: 2 for CR LF, 1 for any other, 0 if there is
    /// none. A separator has bidi class B, or line breaking class BK, CR, LF or NL. `before` and `last` are
    /// the last two characters of the line.
    pub fn separator_len(&self, before: char, last: char) -> usize
        ensures { result ≡ separator_len (rules_of self.now).tables before last }
    {
        if !ends_line(&self.tables, last) {
            return 0;
        }
        if before == '\r' && last == '\n' { 2 } else { 1 }
    }

    /// Returns the index of the first paragraph boundary in a text, or `None` if the text is empty or
    /// consists of one paragraph.
    pub fn first_cut(&self, text: &[char]) -> Option<usize>
        ensures place { result ≡ first_cut (cut_by (rules_of self.now)) text.now }
        ensures paragraphs { SplitsAt (cut_by (rules_of self.now)) text.now result }
    {
        first_cut(&self.tables, text)
    }

    /// Finds the first paragraph boundary in `before` followed by `text`. Returns its byte index in `text`,
    /// or `None` if there is no boundary. `before` must contain no boundary. A boundary between `before` and
    /// `text` has index 0.
    pub fn first_cut_in_text(&self, before: &[char], text: &str) -> Option<usize>
        requires { SplitsAt (cut_by (rules_of self.now)) before.now None }
        ensures { FindsEndAfter (cut_by (rules_of self.now)) before.now text.now result }
    {
        first_cut_in_text(&self.tables, before, text)
    }

    /// Returns the base level, 0 or 1, of a paragraph without characters.
    pub fn empty_base(&self) -> u8
        ensures { result ≡ base_of (rules_of self.now) [] }
    {
        base_level(&self.tables, &[], self.options.base)
    }

    /// Returns the number of characters that were analysed. The count saturates at 2^64−1.
    pub fn analysed(&self) -> u64
        ensures { result ≡ analysed_of self.now }
    {
        self.counts.analysed.get()
    }

    /// Returns the number of characters that were filled into lines. The count saturates at 2^64−1.
    pub fn filled(&self) -> u64
        ensures { result ≡ filled_of self.now }
    {
        self.counts.filled.get()
    }

    /// Returns the number of characters whose lines were written. The count saturates at 2^64−1.
    pub fn written(&self) -> u64
        ensures { result ≡ written_of self.now }
    {
        self.counts.written.get()
    }

    /// Returns whether a paragraph keeps its lines at another width: it has exactly one line, and this line
    /// fits. If spaces at the end of lines are shown, the line must also hide no space that would fit. The
    /// paragraph must have been laid out with this engine's tables and options.
    pub fn keeps_lines(&self, laid: &Laid, width: u32) -> bool
        ensures value { result ≡ keeps_lines (rules_of self.now) width laid.now }
        ensures lines { (advances : Option (List ℕ)) → IsTrue result
            → IsLaidOut (with_advances (rules_of self.now) advances) laid.now
            → lines_of (with_advances (rules_of self.now) advances) width laid.now.text ≡ laid.now.lines }
    {
        // By this theorem, the last break mark of each paragraph is `Must`.
        paragraphs_end_at_must();
        self.is_kept(laid, width)
    }

    // Returns whether a paragraph's only line fits and, if spaces are shown, hides none that would fit.
    fn is_kept(&self, laid: &Laid, width: u32) -> bool
        ensures { result ≡ keeps_lines (rules_of self.now) width laid.now }
    {
        if !laid.is_line_within(width) {
            return false;
        }
        !self.options.show_spaces || !laid.hides_space_within(&self.tables, width)
    }

    /// Lays out one paragraph at a width in columns, which must not be 0. If an allocation fails, returns the
    /// text with the error.
    pub fn lay_out(
        &mut self,
        alloc: Global,
        text: Vec<char>,
        width: u32,
    ) -> Result<Laid, (Vec<char>, AllocError)>
        requires paragraph { IsParagraph (rules_of self.old) text.items }
        requires width { 0 < width }
        ensures ok { IfOk result (λ laid. laid ≡ layout_of (rules_of self.old) width text.items) }
        ensures laid_out { IfOk result (IsLaidOut (rules_of self.new)) }
        ensures counts { IfOk result (λ laid. LaysOut (length text.items) self.old self.new) }
        ensures err { IfErr result (λ back. back.0.items ≡ text.items) }
        ensures unwritten { OnErr result (written_of self.new ≡ written_of self.old) }
        ensures at_most { LaysOutAtMost (length text.items) self.old self.new }

        // The engine's own rules are those for text that is not measured.
        ensures unmeasured { (rules_of self.old).advances ≡ None }

        // Even after an allocation failure, the characters count as analysed and filled.
        ensures analysed { analysed_of self.new ≡ counted (analysed_of self.old) (length text.items) }
        ensures filled { filled_of self.new ≡ counted (filled_of self.old) (length text.items) }
        ensures rules { SameRules self.old self.new }
    {
        let mut lists = LayoutBuffers::new(alloc);
        match self.fill_lists(alloc, &text, None, width, &mut lists) {
            Ok(base) => Ok(Laid {
                text,
                base,
                tab_width: self.tab_width(),
                is_measured: false,
                sizes: Vec::new(alloc),
                levels: lists.levels,
                marks: lists.marks,
                ends: lists.ends,
                lines: Fill::of(lists.lines),
            }),
            Err(error) => Err((text, error)),
        }
    }

    /// Like `lay_out`, but puts the layout in a box. If an allocation fails, the text is freed.
    pub fn lay_out_boxed(
        &mut self,
        alloc: Global,
        text: Vec<char>,
        width: u32,
    ) -> Result<Box<Laid>, AllocError>
        requires paragraph { IsParagraph (rules_of self.old) text.items }
        requires width { 0 < width }
        ensures ok { IfOk result (λ laid. laid.value ≡ layout_of (rules_of self.old) width text.items) }
        ensures counts { IfOk result (λ laid. LaysOut (length text.items) self.old self.new) }
        ensures at_most { LaysOutAtMost (length text.items) self.old self.new }

        // The engine's own rules are those for text that is not measured.
        ensures unmeasured { (rules_of self.old).advances ≡ None }
        ensures rules { SameRules self.old self.new }
    {
        let mut lists = LayoutBuffers::new(alloc);
        let base = self.fill_lists(alloc, &text, None, width, &mut lists)?;
        let tab_width = self.tab_width();
        let laid = Laid {
            text,
            base,
            tab_width,
            is_measured: false,
            sizes: Vec::new(alloc),
            levels: lists.levels,
            marks: lists.marks,
            ends: lists.ends,
            lines: Fill::of(lists.lines),
        };
        boxed(alloc, laid)
    }

    /// Lays out one paragraph that is measured: each character has an advance in a unit that the caller
    /// chooses, and the width is in that unit. The width must not be 0, and the advances must add up to less
    /// than 2^32. If an allocation fails, the text and the advances are freed.
    pub fn lay_out_measured(
        &mut self,
        alloc: Global,
        text: Vec<char>,
        advances: Vec<u32>,
        width: u32,
    ) -> Result<Laid, AllocError>
        requires paragraph { IsParagraph (rules_of self.old) text.items }
        requires width { 0 < width }
        requires len { length advances.items ≡ length text.items }
        requires room { sum advances.items < 2 ^ 32 }
        ensures ok { IfOk result (λ laid. laid
            ≡ layout_of (with_advances (rules_of self.old) (Some advances.items)) width text.items) }
        ensures laid_out { IfOk result
            (IsLaidOut (with_advances (rules_of self.new) (Some advances.items))) }
        ensures counts { IfOk result (λ laid. LaysOut (length text.items) self.old self.new) }
        ensures at_most { LaysOutAtMost (length text.items) self.old self.new }
        ensures rules { SameRules self.old self.new }
    {
        let mut lists = LayoutBuffers::new(alloc);
        let base = self.fill_lists(alloc, &text, Some(&advances), width, &mut lists)?;
        let tab_width = self.tab_width();
        let lines = Fill::of(lists.lines);
        let mut sizes = with_room(advances, tab_width)?;
        put_all_widths(true, &text, tab_width, &lines, &mut sizes);
        Ok(Laid {
            text,
            base,
            tab_width,
            is_measured: true,
            sizes,
            levels: lists.levels,
            marks: lists.marks,
            ends: lists.ends,
            lines,
        })
    }

    /// Finds the lines of a paragraph at another width, which must not be 0. The paragraph must have been
    /// laid out with this engine's tables and options.
    pub fn refill(&mut self, alloc: Global, laid: &Laid, width: u32) -> Result<Fill, AllocError>
        requires laid { IsLaidOut (with_advances (rules_of self.old) laid.now.advances) laid.now }
        requires width { 0 < width }
        ensures ok { IfOk result (λ fill. fill
            ≡ fill_of (with_advances (rules_of self.old) laid.now.advances) width laid.now.text) }
        ensures lines { IfOk result (AreLinesOf
            (with_advances (rules_of self.new) laid.now.advances) laid.now.text) }
        ensures counts { IfOk result (λ fill. Fills (length laid.now.text) self.old self.new) }
        ensures unwritten { OnErr result (written_of self.new ≡ written_of self.old) }
        ensures at_most { FillsAtMost (length laid.now.text) self.old self.new }
        ensures filled { filled_of self.new ≡ counted (filled_of self.old) (length laid.now.text) }
        ensures rules { SameRules self.old self.new }
    {
        let Ok(work) = ready(&mut self.work, alloc) else {
            self.counts.filled.raise(laid.text.len());
            return Err(AllocError);
        };
        let rules = LentRules {
            tables: &self.tables,
            options: self.options,
        };
        work.fill(
            alloc,
            &rules,
            laid,
            laid.advances(),
            width,
            &mut self.counts,
        )
    }

    /// Lays out a paragraph with other advances at a width, which must not be 0. Copies the levels and break
    /// marks, and analyses nothing. The advances must add up to less than 2^32, and the paragraph must have
    /// been laid out with this engine's tables and options.
    pub fn remeasure(
        &mut self,
        alloc: Global,
        laid: &Laid,
        advances: Vec<u32>,
        width: u32,
    ) -> Result<Laid, AllocError>
        requires laid { IsLaidOut (with_advances (rules_of self.old) laid.now.advances) laid.now }
        requires width { 0 < width }
        requires len { length advances.items ≡ length laid.now.text }
        requires room { sum advances.items < 2 ^ 32 }
        ensures ok { IfOk result (λ new. new
            ≡ layout_of (with_advances (rules_of self.old) (Some advances.items)) width laid.now.text) }
        ensures counts { IfOk result (λ new. Fills (length laid.now.text) self.old self.new) }
        ensures at_most { FillsAtMost (length laid.now.text) self.old self.new }
        ensures rules { SameRules self.old self.new }
    {
        let work = ready(&mut self.work, alloc)?;
        let rules = LentRules {
            tables: &self.tables,
            options: self.options,
        };
        let lines = work.fill(
            alloc,
            &rules,
            laid,
            Some(&advances),
            width,
            &mut self.counts,
        )?;
        laid.with_lines(alloc, advances, lines)
    }

    /// Writes the lines of one paragraph without keeping them. The width is in columns, and must not be 0. If
    /// an allocation fails, writes nothing. Allocates nothing if `print.skips_lines()` is true.
    pub fn write_paragraph<W: Sink>(
        &mut self,
        alloc: Global,
        text: &[char],
        width: u32,
        print: &Print,
        writer: &mut W,
    ) -> Result<(), PrintFault>
        requires paragraph { IsParagraph (rules_of self.old) text.now }
        requires width { 0 < width }
        ensures ok { OnOk result (Wrote (paragraph_bytes (rules_of self.old) width print.now text.now)
            (W.state writer.old) (W.state writer.new)) }
        ensures err { IfErr result (λ fault.
            FailedAs fault (paragraph_bytes (rules_of self.old) width print.now text.now)
            (W.state writer.old) (W.state writer.new)) }
        ensures memory { IsErrOf result PrintFault.Memory → skips_lines print.now ≡ false }
        ensures counts { OnOk result (Prints (length text.now) print.now self.old self.new) }

        // After a failed write, the counts are those of a successful call, since the lines have been found by
        // then.
        ensures failed { ¬ (IsErrOf result PrintFault.Memory)
            → Prints (length text.now) print.now self.old self.new }
        ensures unwritten { IsErrOf result PrintFault.Memory → written_of self.new ≡ written_of self.old }
        ensures at_most { LaysOutAtMost (length text.now) self.old self.new }

        // Even after a fault, the characters count as analysed. If lines are printed, the characters also
        // count as filled. Otherwise, they count as neither filled nor written.
        ensures analysed { analysed_of self.new ≡ counted (analysed_of self.old) (length text.now) }
        ensures filled { skips_lines print.now ≡ false
            → filled_of self.new ≡ counted (filled_of self.old) (length text.now) }
        ensures skipped { skips_lines print.now ≡ true → (filled_of self.new ≡ filled_of self.old)
            × (written_of self.new ≡ written_of self.old) }
        ensures rules { SameRules self.old self.new }
    {
        if print.skips_lines() {
            let whole_numbers = self.options.whole_numbers;
            marks_are_as_many(&self.tables, text, whole_numbers);
            return self.write_base(text, print, writer);
        }
        let Ok(work) = ready(&mut self.work, alloc) else {
            self.counts.count_refused(text.len());
            return Err(PrintFault::Memory);
        };
        let rules = LentRules {
            tables: &self.tables,
            options: self.options,
        };
        let form = Form { width, print };
        work.write(&rules, text, &form, &mut self.counts, writer)
    }

    /// Writes the base direction of one paragraph of UTF-8 text, if `print.basedir` is set.
    /// `print.skips_lines()` must be true. Writes the same bytes, and counts the same characters, as
    /// [`Engine::write_paragraph`] does at any width. Fails only if the sink fails.
    ///
    /// Allocates nothing. Reads each byte once to count the characters, but decodes only the characters up to
    /// the one that decides the direction, which is usually the first one.
    pub fn write_base_direction<W: Sink>(
        &mut self,
        text: &str,
        print: &Print,
        writer: &mut W,
    ) -> Result<(), WriteFault>
        requires paragraph { IsParagraph (rules_of self.old) (chars text.now) }
        requires skips { skips_lines print.now ≡ true }
        ensures ok { (width : ℕ) → OnOk result (Wrote
            (paragraph_bytes (rules_of self.old) width print.now (chars text.now))
            (W.state writer.old) (W.state writer.new)) }
        ensures err { (width : ℕ) → IfErr result (λ fault. StoppedAt fault.written
            (paragraph_bytes (rules_of self.old) width print.now (chars text.now))
            (W.state writer.old) (W.state writer.new)) }

        // Even after a failed write, the characters count as analysed. They count as neither filled nor
        // written.
        ensures counts { Prints (length (chars text.now)) print.now self.old self.new }
        ensures at_most { LaysOutAtMost (length (chars text.now)) self.old self.new }
        ensures analysed { analysed_of self.new
            ≡ counted (analysed_of self.old) (length (chars text.now)) }
        ensures skipped { (filled_of self.new ≡ filled_of self.old)
            × (written_of self.new ≡ written_of self.old) }
        ensures rules { SameRules self.old self.new }
    {
        let base = self.find_base_in_text(text);
        write_base(writer, 0, print.basedir, base)?;
        Ok(())
    }

    /// Finds where each line of a paragraph starts at another width, which must not be 0, and how much of
    /// each line is shown. The paragraph must have been laid out with this engine's tables and options.
    pub fn extents(&mut self, alloc: Global, laid: &Laid, width: u32) -> Result<Extents, AllocError>
        requires laid { IsLaidOut (with_advances (rules_of self.old) laid.now.advances) laid.now }
        requires width { 0 < width }
        ensures ok { IfOk result (λ extents. extents
            ≡ extents_of (with_advances (rules_of self.old) laid.now.advances) width laid.now.text) }
        ensures counts { IfOk result (λ extents.
            FindsExtents (length laid.now.text) self.old self.new) }
        ensures at_most { FindsExtentsAtMost (length laid.now.text) self.old self.new }
        ensures filled { filled_of self.new ≡ counted (filled_of self.old) (length laid.now.text) }
        ensures rules { SameRules self.old self.new }
    {
        let Ok(work) = ready(&mut self.work, alloc) else {
            self.counts.filled.raise(laid.text.len());
            return Err(AllocError);
        };
        let rules = LentRules {
            tables: &self.tables,
            options: self.options,
        };
        work.extents(alloc, &rules, laid, width, &mut self.counts)
    }

    /// Allocates scratch space for [`Engine::reflow`], for paragraphs of at most `len` characters.
    pub fn reflow_scratch(&self, alloc: Global, len: usize) -> Result<ReflowScratch, AllocError>
        ensures ok { IfOk result (λ scratch. scratch ≡ record { len = len; written = 0 }) }
        ensures memory { OnErr result (0 < len) }
    {
        ReflowScratch::new(alloc, &self.tables, len)
    }

    /// Replaces the lines of a paragraph with those at another width, given the extents at that width.
    /// Afterwards, `extents` holds the extents of the old lines. The paragraph must have been laid out with
    /// this engine's tables and options. `scratch` must have capacity for the paragraph's characters. They
    /// are added to its count of characters whose lines were written. Allocates nothing.
    pub fn reflow(&self, laid: &mut Laid, extents: &mut Extents, scratch: &mut ReflowScratch)
        requires laid { IsLaidOut (with_advances (rules_of self.now) laid.old.advances) laid.old }
        requires extents { (width : ℕ) × (extents.old
            ≡ extents_of (with_advances (rules_of self.now) laid.old.advances) width laid.old.text) }
        requires scratch { length laid.old.text ≤ scratch.old.len }
        ensures laid { laid.new ≡ reflowed (rules_of self.now) laid.old extents.old }
        ensures laid_out { IsLaidOut (with_advances (rules_of self.now) laid.old.advances) laid.new }
        ensures extents { extents.new ≡ extents_in laid.old.lines }
        ensures scratch { scratch.new ≡ record scratch.old {
          written = counted scratch.old.written (length laid.old.text);
        } }
        ensures least { scratch.old.written ≤ scratch.new.written }
    {
        let ReflowScratch {
            properties,
            written,
        } = scratch;
        laid.reflow(&self.tables, self.options, extents, properties, written);
    }

    /// Frees scratch space, and counts the characters whose lines were written with it. There is no other way
    /// to free scratch space.
    pub fn take_back(&mut self, scratch: ReflowScratch)
        ensures counts { Rewrites scratch.written self.old self.new }
        ensures at_most { RewritesAtMost scratch.written self.old self.new }
        ensures rules { SameRules self.old self.new }
    {
        self.counts.written.add(scratch.end());
    }

    /// Returns the base level, 0 or 1, of one paragraph, and counts its characters as analysed.
    pub fn find_base(&mut self, text: &[char]) -> u8
        ensures base { result ≡ base_of (rules_of self.old) text.now }
        ensures counts { self.new ≡ record self.old {
          analysed = counted (analysed_of self.old) (length text.now);
        } }
        ensures least { analysed_of self.old ≤ analysed_of self.new }
    {
        self.counts.analysed.raise(text.len());
        base_level(&self.tables, text, self.options.base)
    }

    /// Returns how the algorithm arrives at the level of each character of one paragraph (UAX #9, X1 to I2).
    /// The levels are those that `lay_out` finds. Counts nothing. Needs time and memory proportional to the
    /// length of the text.
    pub fn level_reasons(
        &self,
        alloc: Global,
        text: &[char],
    ) -> Result<Vec<LevelReason>, AllocError>
        ensures reasons { IfOk result (λ list. list.items ≡ level_reasons_of (rules_of self.now).tables
            text.now (rules_of self.now).options.base) }
        ensures levels { IfOk result (λ list. (width : ℕ) → levels_in list.items
            ≡ (layout_of (rules_of self.now) width text.now).levels) }
        ensures len { IfOk result (λ list. length list.items ≡ length text.now) }
        ensures memory { OnErr result (0 < length text.now) }
    {
        let reasons = level_reasons(alloc, &self.tables, text, self.options.base)?;
        Ok(reasons)
    }

    /// Returns the rule that decides the break mark after each character of one paragraph (UAX #14), with the
    /// bases and classes around this position. The marks are those that `lay_out` finds. Counts nothing.
    /// Needs time and memory proportional to the length of the text.
    pub fn break_reasons(&self, alloc: Global, text: &[char]) -> Result<Vec<Reason>, AllocError>
        ensures reasons { IfOk result (λ list. list.items ≡ reasons_of (rules_of self.now).tables
            (rules_of self.now).options.whole_numbers text.now) }
        ensures marks { IfOk result (λ list. (width : ℕ) → map (λ reason. reason.mark) list.items
            ≡ (layout_of (rules_of self.now) width text.now).marks) }
        ensures len { IfOk result (λ list. length list.items ≡ length text.now) }
        ensures memory { OnErr result (0 < length text.now) }
    {
        let reasons = reasons(alloc, &self.tables, text, self.options.whole_numbers)?;
        Ok(reasons)
    }

    // Implements `find_base` for UTF-8 text.
    fn find_base_in_text(&mut self, text: &str) -> u8
        ensures base { result ≡ base_of (rules_of self.old) (chars text.now) }
        ensures counts { self.new ≡ record self.old {
          analysed = counted (analysed_of self.old) (length (chars text.now));
        } }
        ensures least { analysed_of self.old ≤ analysed_of self.new }
    {
        self.counts.analysed.raise(char_count(text));
        base_level_in_text(&self.tables, text, self.options.base)
    }

    // Writes the base direction of a paragraph, if `print.basedir` is set. Counts the characters as analysed.
    fn write_base<W: Sink>(
        &mut self,
        text: &[char],
        print: &Print,
        writer: &mut W,
    ) -> Result<(), PrintFault>
        ensures ok { OnOk result (Wrote
            (if print.now.basedir then direction_line (base_of (rules_of self.old) text.now) else [])
            (W.state writer.old) (W.state writer.new)) }
        ensures err { IfErr result (λ fault. FailedAs fault
            (if print.now.basedir then direction_line (base_of (rules_of self.old) text.now) else [])
            (W.state writer.old) (W.state writer.new)) }
        ensures memory { ¬ (IsErrOf result PrintFault.Memory) }
        ensures counts { self.new ≡ record self.old {
          analysed = counted (analysed_of self.old) (length text.now);
        } }
        ensures least { analysed_of self.old ≤ analysed_of self.new }
    {
        let base = self.find_base(text);
        match write_base(writer, 0, print.basedir, base) {
            Ok(_) => Ok(()),
            Err(fault) => Err(PrintFault::Write(fault)),
        }
    }

    // Returns the width of a tab stop, or 0 if there are none.
    fn tab_width(&self) -> u8
        ensures { result ≡ tab_width_in (rules_of self.now).tables (rules_of self.now).options }
    {
        let rules = LentRules {
            tables: &self.tables,
            options: self.options,
        };
        rules.tab_width()
    }

    // Lays out a paragraph. Returns its base level, and replaces the contents of the lists with the rest of
    // its layout.
    fn fill_lists(
        &mut self,
        alloc: Global,
        text: &[char],
        advances: Option<&[u32]>,
        width: u32,
        lists: &mut LayoutBuffers,
    ) -> Result<u8, AllocError>
        requires limit { length text.now ≤ PARAGRAPH_LIMIT }
        requires room { HaveRoom (option_map (λ list. list.now) advances) }
        ensures layout { IfOk result (λ base. HoldsLayout (with_advances (rules_of self.old)
            (option_map (λ list. list.now) advances.entry)) width text.now base lists.new) }
        ensures unmeasured { (rules_of self.old).advances ≡ None }
        ensures counts { OnOk result (LaysOut (length text.now) self.old self.new) }
        ensures unwritten { OnErr result (written_of self.new ≡ written_of self.old) }
        ensures at_most { LaysOutAtMost (length text.now) self.old self.new }
        ensures analysed { analysed_of self.new ≡ counted (analysed_of self.old) (length text.now) }
        ensures filled { filled_of self.new ≡ counted (filled_of self.old) (length text.now) }
        ensures rules { SameRules self.old self.new }
    {
        let Ok(work) = ready(&mut self.work, alloc) else {
            self.counts.count_refused(text.len());
            return Err(AllocError);
        };
        work.lend_lists(text.len(), lists);
        let counts = &mut self.counts;
        let rules = LentRules {
            tables: &self.tables,
            options: self.options,
        };
        let base = work.lay_out(&rules, text, advances, width, lists, counts)?;
        Ok(base)
    }
}
