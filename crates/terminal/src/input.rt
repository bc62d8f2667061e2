//! Reads a text in chunks, and writes the lines of what it shows.
ghost use Rattle.std.specs.Prelude.{◌≡◌, ◌+◌, ◌-◌, ◌^◌, ◌≤◌, ◌<◌, ◌++◌};
ghost use Rattle.std.specs.Prelude.{[], false, true, drop, length, take, vec_len, IfOk};
ghost use Rattle.std.specs.Prelude.{Ok};
ghost use Rattle.device.specs.Device.{Device};
ghost use Rattle.lines.specs.Engine.{rules_of, SameRules};
ghost use Rattle.lines.specs.Layouts.{cut_by};
ghost use Rattle.sequences.specs.Scanners.{pen_of};
ghost use Rattle.sequences.specs.Styled.{START};
ghost use Rattle.sequences.specs.StyledTexts.{styled_of};
ghost use Rattle.stream.specs.declared.reading.TheConstants.{CHUNK};
ghost use Rattle.terminal.specs.Ends.{AreNoEnds};
ghost use Rattle.terminal.specs.Passed.{HasPassed};
ghost use Rattle.terminal.specs.Run.{IsRun};
ghost use Rattle.terminal.specs.RunState.{fault_after, last_characters};
ghost use Rattle.terminal.specs.RunState.{AddsLast, Finishes, Gathers, Stands, Steps};

use crate::decoder::Decoder;
use crate::faults::Fault;
use crate::form::Form;
use crate::output::Output;
use crate::passed::Passed;
use device::{Sink, Source};
use lines::Engine;
use std::alloc::{AllocError, Global};

/// What a run keeps between two reads.
struct Held {
    decoder: Decoder,
    // The characters of the block that has not ended. No block ends before the index `scanned`, whatever
    // follows. If the character at this index is a CR, `passed` is how far the text after it was scanned.
    text: Vec<char>,
    scanned: usize,
    passed: Passed,
    output: Output,
}

impl Drop for Held {
    fn drop(self) {
        let Held {
            decoder: _,
            text: _,
            scanned: _,
            passed: _,
            output: _,
        } = self;
    }
}

impl Held {
    fn new(alloc: Global) -> Result<Held, AllocError>
        ensures room { IfOk result (λ held. vec_len held.decoder.chunk ≡ CHUNK) }
        ensures waiting { IfOk result (λ held. held.decoder.waiting ≡ 0) }
        ensures decoded { IfOk result (λ held. held.decoder.decoded ≡ 0) }
        ensures started { IfOk result (λ held. held.decoder.started ≡ false) }
        ensures text { IfOk result (λ held. held.text.items ≡ []) }
        ensures scanned { IfOk result (λ held. held.scanned ≡ 0) }
        ensures passed { IfOk result (λ held. HasPassed held.passed (drop 1 held.text.items)) }
        ensures pen { IfOk result (λ held. pen_of held.output.scanner ≡ START) }
        ensures empty { IfOk result (λ held. styled_of held.output.scanner.text ≡ []) }
        ensures page { IfOk result (λ held. held.output.page.bytes.items ≡ []) }
        ensures written { IfOk result (λ held. held.output.written ≡ 0) }
        ensures over { IfOk result (λ held. held.output.over ≡ false) }
    {
        Ok(Held {
            decoder: Decoder::new(alloc)?,
            text: Vec::new(alloc),
            scanned: 0,
            passed: Passed::nothing(),
            output: Output::new(alloc),
        })
    }

    // Decodes the waiting bytes and `len` more bytes. Adds to the page the lines of the blocks that have
    // ended, up to a block that is too long. Returns why the run ends, or `None` if it continues.
    fn gather(
        &mut self,
        alloc: Global,
        engine: &mut Engine,
        form: &Form,
        len: usize,
    ) -> Result<Option<Fault>, AllocError>
        requires room { self.old.decoder.waiting + len ≤ vec_len self.old.decoder.chunk }
        requires counted { self.old.decoder.decoded + (self.old.decoder.waiting + len) ≤ 2 ^ 64 - 1 }
        requires within { self.old.scanned ≤ length self.old.text.items }
        requires none { AreNoEnds (cut_by (rules_of engine.old)) self.old.scanned self.old.text.items }
        requires passed { HasPassed self.old.passed (drop (self.old.scanned + 1) self.old.text.items) }
        requires empty { styled_of self.old.output.scanner.text ≡ [] }
        ensures gathers { IfOk result (Gathers (rules_of engine.old) form.now
            (take (self.old.decoder.waiting + len) self.old.decoder.chunk.items) self.old self.new) }
        ensures passed { IfOk result (λ fault.
            HasPassed self.new.passed (drop (self.new.scanned + 1) self.new.text.items)) }
        ensures rules { SameRules engine.old engine.new }
    {
        let stops = self
            .decoder
            .decode(form.strict, form.escapes, len, &mut self.text)?;
        let left = self
            .output
            .push_ended(alloc, engine, form, &self.text, self.scanned, self.passed)?;
        remove_front(&mut self.text, left.start);
        self.scanned = left.scanned;
        self.passed = left.passed;
        Ok(fault_of(left.is_long, stops, self.decoder.decoded))
    }

    // Adds to the page the lines of the text that is left at the end of the input, up to a block that is too
    // long. Returns whether a block is too long. If none is, the page of the last input ends in a newline
    // only if the text ends a line.
    fn gather_last(
        &mut self,
        alloc: Global,
        engine: &mut Engine,
        form: &Form,
        is_last: bool,
    ) -> Result<bool, AllocError>
        requires empty { styled_of self.old.output.scanner.text ≡ [] }
        ensures adds { IfOk result (AddsLast (rules_of engine.old) form.now is_last
            (self.old.text.items ++ last_characters self.old.decoder.waiting)
            self.old.output self.new.output) }
        ensures written { self.new.output.written ≡ self.old.output.written }
        ensures rules { SameRules engine.old engine.new }
    {
        self.decoder.finish(&mut self.text)?;
        self.output
            .push_last(alloc, engine, form, &self.text, is_last)
    }
}

// Returns why a run ends after a chunk, or `None` if it continues. `stops` means that the bytes from the
// index `at` on are invalid UTF-8.
fn fault_of(is_long: bool, stops: bool, at: u64) -> Option<Fault>
    ensures { result ≡ fault_after is_long stops at }
{
    if is_long {
        Some(Fault::ParagraphTooLong)
    } else if stops {
        Some(Fault::NotUtf8(at))
    } else {
        None
    }
}

// Removes the first n characters of a text.
fn remove_front(text: &mut Vec<char>, n: usize)
    requires { n ≤ vec_len text.old }
    ensures { text.new.items ≡ drop n text.old.items }
{
    if n == 0 {
        return;
    }
    let len = text.len();
    text.copy_within(n..len, 0);
    text.truncate(len - n);
}

// Ends a run whose input has no more bytes: writes the remaining lines, or returns why the run fails.
fn finish<W: Sink>(
    alloc: Global,
    writer: &mut W,
    engine: &mut Engine,
    form: &Form,
    is_last: bool,
    held: &mut Held,
) -> Result<(), Fault>
    requires empty { styled_of held.old.output.scanner.text ≡ [] }
    requires counted { held.old.output.written ≤ (W.state writer.old).passed }
    ensures ends { Finishes (rules_of engine.old) form.now is_last held.old held.new.output.over
        (W.state writer.old) (W.state writer.new) result }
    ensures rules { SameRules engine.old engine.new }
{
    if held.decoder.is_cut_short(form.strict) {
        return Err(Fault::NotUtf8(held.decoder.decoded));
    }
    let Ok(is_long) = held.gather_last(alloc, engine, form, is_last) else {
        return Err(Fault::Memory);
    };
    if let Err(fault) = held.output.write(writer) {
        return Err(fault);
    }
    if is_long {
        return Err(Fault::ParagraphTooLong);
    }
    Ok(())
}

// Reads a chunk, and writes the lines of the blocks that have ended by then. Returns whether the input
// continues.
fn step<R: Source, W: Sink>(
    alloc: Global,
    reader: &mut R,
    writer: &mut W,
    engine: &mut Engine,
    form: &Form,
    is_last: bool,
    held: &mut Held,
) -> Result<bool, Fault>
    requires stands { (reader_start : Device) × (writer_start : Device)
        × Stands (rules_of engine.old) form.now reader_start writer_start
        (R.state reader.old) (W.state writer.old) held.old }
    ensures steps { (reader_start : Device) (writer_start : Device)
        → Stands (rules_of engine.old) form.now reader_start writer_start
        (R.state reader.old) (W.state writer.old) held.old
        → Steps (rules_of engine.old) form.now is_last reader_start writer_start
        (R.state reader.new) (W.state writer.new) held.new result }
    ensures rises { result ≡ Ok true → (R.state reader.old).passed < (R.state reader.new).passed }
    ensures counted { result ≡ Ok true → (R.state reader.new).passed ≤ 2 ^ 64 - 1 }
    ensures rules { SameRules engine.old engine.new }
{
    let len = match held.decoder.read(reader) {
        Ok(len) => len,
        Err(_) => return Err(Fault::Read),
    };
    if len == 0 {
        return match finish(alloc, writer, engine, form, is_last, held) {
            Ok(()) => Ok(false),
            Err(fault) => Err(fault),
        };
    }
    let Ok(fault) = held.gather(alloc, engine, form, len) else {
        return Err(Fault::Memory);
    };
    if let Err(fault) = held.output.write(writer) {
        return Err(fault);
    }
    match fault {
        Some(fault) => Err(fault),
        None => Ok(true),
    }
}

/// Reads a text to its end, and writes the lines of what it shows.
///
/// A U+FEFF at the start of the text is dropped. Unless the form is strict, invalid UTF-8 is read as U+FFFD.
/// The lines of a paragraph are written as soon as its end is known, before more is read. Only the unfinished
/// paragraph and one chunk of the input are kept in memory.
///
/// With `is_last`, the last newline is left out if the text does not end a line. A text ends a line if its
/// last character has bidi class B, or line breaking class BK, CR, LF or NL.
///
/// A paragraph over `PARAGRAPH_LIMIT` is laid out in pieces of this length, in the direction of the first
/// piece, unless the form is strict. Returns whether there was such a paragraph.
///
/// Errors:
///
/// - `Read`: the source failed. All paragraphs that have ended were written.
/// - `Write`: the sink failed.
/// - `NotUtf8`: the form is strict, and the input is not UTF-8. All paragraphs before the first invalid byte
///   were written, except for the last of them.
/// - `ParagraphTooLong`: the form is strict, and a paragraph with its sequences is longer than
///   `PARAGRAPH_LIMIT`. All paragraphs before it were written.
/// - `Memory`: an allocation failed.
pub fn run<R: Source, W: Sink>(
    alloc: Global,
    reader: &mut R,
    writer: &mut W,
    engine: &mut Engine,
    form: &Form,
    is_last: bool,
) -> Result<bool, Fault>
    ensures run { IsRun (rules_of engine.old) form.now is_last
        (R.state reader.old) (R.state reader.new) (W.state writer.old) (W.state writer.new) result }
    ensures rules { SameRules engine.old engine.new }
{
    let Ok(mut held) = Held::new(alloc) else {
        return Err(Fault::Memory);
    };
    loop {
        match step(alloc, reader, writer, engine, form, is_last, &mut held) {
            Ok(true) => (),
            Ok(false) => return Ok(held.output.over),
            Err(fault) => return Err(fault),
        }
    }
}
