//! Collects the lines of blocks, and writes them.
ghost use Rattle.std.specs.Prelude.{◌≡◌, ◌+◌, ◌≤◌, ◌<◌, ◌==◌, ◌&&◌, ◌∷◌, [], ℕ, drop, false, nat_lt, length};
ghost use Rattle.std.specs.Prelude.{IfErr, IfOk, OnOk};
ghost use Rattle.device.specs.Device.{StoppedAt, Wrote};
ghost use Rattle.lines.specs.Engine.{rules_of, SameRules};
ghost use Rattle.lines.specs.Layouts.{cut_by};
ghost use Rattle.lines.specs.declared.engine.TheConstants.{PARAGRAPH_LIMIT};
ghost use Rattle.sequences.specs.Laws.{characters_of};
ghost use Rattle.sequences.specs.Scanners.{pen_of};
ghost use Rattle.sequences.specs.Styled.{styled, START};
ghost use Rattle.sequences.specs.StyledTexts.{styled_of};
ghost use Rattle.terminal.specs.Ends.{AreNoEnds};
ghost use Rattle.terminal.specs.Newlines.{ended_page, is_ended, last_of};
ghost use Rattle.terminal.specs.Passed.{HasPassed};
ghost use Rattle.terminal.specs.RunState.{is_left_long, Adds, AddsEnded, AddsLast};
ghost use Rattle.terminal.specs.declared.faults.Fault.TheVariants.{Write as WriteFault};

use crate::block::{Buffers, push_block};
use crate::ends::block_len;
use crate::faults::Fault;
use crate::form::Form;
use crate::known_ends::{FirstEnd, first_end};
use crate::passed::Passed;
use device::{Sink, write_all};
use lines::{Engine, PARAGRAPH_LIMIT};
use sequences::Scanner;
use std::alloc::{AllocError, Global};
use stream::Page;

/// The lines that are not written yet, and the style in which the next block begins.
pub(crate) struct Output {
    pub(crate) scanner: Scanner,
    buffers: Buffers,
    pub(crate) page: Page,
    // The number of bytes written.
    pub(crate) written: u64,
    // Whether a paragraph was over the limit.
    pub(crate) over: bool,
}

impl Drop for Output {
    fn drop(self) {
        let Output {
            scanner: _,
            buffers: _,
            page: _,
            written: _,
            over: _,
        } = self;
    }
}

/// The rest of a text after the blocks that have ended.
#[derive(Clone, Copy)]
pub(crate) struct Remainder {
    /// The index at which the rest begins.
    pub(crate) start: usize,
    /// The number of characters at the start of the rest that end no block, whatever follows the text.
    pub(crate) scanned: usize,
    /// If the character at the index `scanned` of the rest is a CR, how far the text after it was scanned.
    pub(crate) passed: Passed,
    /// Whether the first block of the rest is too long. In that case, `scanned` does not matter.
    pub(crate) is_long: bool,
}

impl Output {
    /// Creates an output for the start of an input. Allocates nothing.
    pub(crate) fn new(alloc: Global) -> Output
        ensures pen { pen_of result.scanner ≡ START }
        ensures empty { styled_of result.scanner.text ≡ [] }
        ensures page { result.page.bytes.items ≡ [] }
        ensures written { result.written ≡ 0 }
        ensures over { result.over ≡ false }
    {
        Output {
            scanner: Scanner::new(alloc),
            buffers: Buffers::new(alloc),
            page: Page::new(alloc),
            written: 0,
            over: false,
        }
    }

    // Adds the lines of a block, and returns the last character that it shows, or `None` if it shows none.
    fn push(
        &mut self,
        alloc: Global,
        engine: &mut Engine,
        form: &Form,
        block: &[char],
    ) -> Result<Option<char>, AllocError>
        requires empty { styled_of self.old.scanner.text ≡ [] }
        ensures adds { OnOk result (Adds (rules_of engine.old) form.now (block.now ∷ []) self.old self.new) }
        ensures last { IfOk result (λ last. last
            ≡ last_of (characters_of (styled (pen_of self.old.scanner) block.now))) }
        ensures written { self.new.written ≡ self.old.written }
        ensures rules { SameRules engine.old engine.new }
    {
        let shown = push_block(
            alloc,
            &mut self.page,
            engine,
            form,
            &mut self.scanner,
            block,
            &mut self.buffers,
        )?;
        self.over = self.over || shown.over;
        Ok(shown.last)
    }

    /// Adds the lines of those blocks of a text that have a known end, up to a block that is too long. If the
    /// form is strict, holds back a block that nothing follows yet. It must be known that no block ends
    /// before the index `scanned`, whatever follows the text. If the character there is a CR, `passed` is how
    /// far the text after it was scanned.
    pub(crate) fn push_ended(
        &mut self,
        alloc: Global,
        engine: &mut Engine,
        form: &Form,
        text: &[char],
        scanned: usize,
        passed: Passed,
    ) -> Result<Remainder, AllocError>
        requires within { scanned ≤ length text.now }
        requires none { AreNoEnds (cut_by (rules_of engine.old)) scanned text.now }
        requires passed { HasPassed passed (drop (scanned + 1) text.now) }
        requires empty { styled_of self.old.scanner.text ≡ [] }
        ensures adds { IfOk result (λ left. AddsEnded (rules_of engine.old) form.now text.now
            self.old self.new left.start left.scanned left.is_long) }
        ensures passed { IfOk result (λ left.
            HasPassed left.passed (drop (left.scanned + 1) (drop left.start text.now))) }
        ensures rules { SameRules engine.old engine.new }
    {
        let mut start = 0;
        let mut from = scanned;
        let mut passed = passed;
        loop {
            let (_, rest) = text.split_at(start);
            match first_end(engine, rest, from, passed) {
                FirstEnd::After(k, passed) => {
                    return Ok(left_open(form, start, k, passed, rest.len()));
                }
                FirstEnd::At(k) if is_too_long(form, k) => {
                    return Ok(Remainder {
                        start,
                        scanned: 0,
                        passed: Passed::nothing(),
                        is_long: true,
                    });
                }
                // Like the command `fribidi`, does not write the last paragraph before invalid UTF-8.
                FirstEnd::At(k) if is_held(form, k, rest.len()) => {
                    return Ok(Remainder {
                        start,
                        scanned: k - 1,
                        passed: Passed::nothing(),
                        is_long: false,
                    });
                }
                FirstEnd::At(k) => {
                    let (block, _) = rest.split_at(k);
                    self.push(alloc, engine, form, block)?;
                    start += k;
                    from = 0;
                    passed = Passed::nothing();
                }
            }
        }
    }

    /// Adds the lines of all blocks of a complete text, up to a block that is too long. Returns whether a
    /// block is too long. If no block is, and the text is the last one, the page ends in a newline only if
    /// the text ends a line.
    pub(crate) fn push_last(
        &mut self,
        alloc: Global,
        engine: &mut Engine,
        form: &Form,
        text: &[char],
        is_last: bool,
    ) -> Result<bool, AllocError>
        requires empty { styled_of self.old.scanner.text ≡ [] }
        ensures adds { IfOk result (AddsLast (rules_of engine.old) form.now is_last text.now
            self.old self.new) }
        ensures written { self.new.written ≡ self.old.written }
        ensures rules { SameRules engine.old engine.new }
    {
        let mut rest = text;
        let mut last = None;
        while !rest.is_empty() {
            let len = block_len(engine, rest);
            if is_too_long(form, len) {
                return Ok(true);
            }
            let (block, after) = rest.split_at(len);
            let shown = self.push(alloc, engine, form, block)?;
            last = shown.or(last);
            rest = after;
        }
        self.end_page(engine, is_last, last);
        Ok(false)
    }

    // Removes the last newline if the text is the last one and does not end a line. `last` is the last
    // character that the text shows.
    fn end_page(&mut self, engine: &Engine, is_last: bool, last: Option<char>)
        ensures page { self.new.page.bytes.items
            ≡ ended_page (rules_of engine.now).tables is_last last self.old.page.bytes.items }
        ensures written { self.new.written ≡ self.old.written }
        ensures over { self.new.over ≡ self.old.over }
    {
        if is_last && !is_ended(engine, last) {
            let len = self.page.bytes.len();
            self.page.bytes.truncate(len.saturating_sub(1));
        }
    }

    /// Writes the lines on the page, and empties the page. Fails with `Write` if the sink fails.
    pub(crate) fn write<W: Sink>(&mut self, writer: &mut W) -> Result<(), Fault>
        requires { self.old.written ≤ (W.state writer.old).passed }
        ensures ok { OnOk result (Wrote self.old.page.bytes.items (W.state writer.old) (W.state writer.new)) }
        ensures empty { OnOk result (self.new.page.bytes.items ≡ []) }
        ensures written { OnOk result (self.new.written
            ≡ self.old.written + length self.old.page.bytes.items) }
        ensures scanner { self.new.scanner ≡ self.old.scanner }
        ensures over { self.new.over ≡ self.old.over }
        ensures err { IfErr result (λ fault. (n : ℕ) × (fault ≡ WriteFault (self.old.written + n))
            × StoppedAt n self.old.page.bytes.items (W.state writer.old) (W.state writer.new)) }
    {
        match write_all(writer, self.page.bytes()) {
            Ok(()) => {
                self.written += self.page.bytes().len() as u64;
                self.page.clear();
                Ok(())
            }
            Err(written) => Err(Fault::Write(self.written + written as u64)),
        }
    }
}

// Returns whether a text with this last character ends a line or is empty.
fn is_ended(engine: &Engine, last: Option<char>) -> bool
    ensures { result ≡ is_ended (rules_of engine.now).tables last }
{
    match last {
        Some(c) => engine.separator_len('\0', c) > 0,
        None => true,
    }
}

// Returns whether a block of length `block` at the start of a text of length `len` is held back. It is if the
// form is strict and nothing follows the block.
fn is_held(form: &Form, block: usize, len: usize) -> bool
    ensures { result ≡ (form.now.strict && (block == len)) }
{
    form.strict && block == len
}

// Returns whether the form is strict and a block of this length is over the limit.
fn is_too_long(form: &Form, len: usize) -> bool
    ensures { result ≡ (form.now.strict && nat_lt PARAGRAPH_LIMIT len) }
{
    form.strict && len > PARAGRAPH_LIMIT
}

// Describes the rest of a text, which begins at `start`, has `len` characters, and contains no known end of a
// block. If the form is strict, the rest is too long in two cases: its first block is over the limit, or the
// rest exceeds twice the limit.
fn left_open(form: &Form, start: usize, scanned: usize, passed: Passed, len: usize) -> Remainder
    ensures start { result.start ≡ start }
    ensures scanned { result.scanned ≡ scanned }
    ensures passed { result.passed ≡ passed }
    ensures short { result.is_long ≡ (form.now.strict && is_left_long scanned len) }
{
    let is_long = form.strict
        && len > PARAGRAPH_LIMIT
        && (scanned >= PARAGRAPH_LIMIT || len > 2 * PARAGRAPH_LIMIT);
    Remainder {
        start,
        scanned,
        passed,
        is_long,
    }
}
