//! Runs a text. The text is read in chunks. Each paragraph is laid out as soon as its end is known, and its
//! lines are written before more is read. What is written and how the run ends depend only on the source's
//! bytes and on how the source ends.
ghost use Rattle.std.specs.Prelude.{◌≡◌, ◌+◌, ◌-◌, ◌++◌, ◌<◌, ◌≤◌, ◌^◌, ◌⊎◌, ℕ, [], false, true};
ghost use Rattle.std.specs.Prelude.{None, Some, Ok};
ghost use Rattle.std.specs.Prelude.{take, drop, length, vec_len};
ghost use Rattle.std.specs.Prelude.{IfOk, IfErr, IsErrOf, OnOk, OnErr, if◌then◌else◌};
ghost use Rattle.std.specs.Str.Lossy.{utf8_valid_len};
ghost use Rattle.bidi.specs.Cuts.{paragraphs, SplitsAt};
ghost use Rattle.device.specs.Device.{Device, Fails};
ghost use Rattle.lines.specs.Engine.{rules_of, Prints, SameRules};
ghost use Rattle.lines.specs.Layouts.{cut_by};
ghost use Rattle.lines.specs.declared.engine.Engine.{Engine};
ghost use Rattle.lines.specs.declared.engine.TheConstants.{PARAGRAPH_LIMIT};
ghost use Rattle.text_run.specs.Counts.{PrintsAtMost};
ghost use Rattle.text_run.specs.Pages.{prints_some};
ghost use Rattle.text_run.specs.Streaming.{FindsFault, Finishes, Gathers, GathersLast, IsRead};
ghost use Rattle.text_run.specs.Streaming.{Stands, Steps, StopsAfter, StopsWriting, Writes};
ghost use Rattle.stream.specs.Utf8.{front_of, is_bad};
ghost use Rattle.text_run.specs.TextRun.{are_within};
ghost use Rattle.text_run.specs.TextRun.{HasStopped, IsTextRun, PrintsNoMore};
ghost use Rattle.text_run.specs.TextRun.{ReadsAhead, TellsReads, WantsMemory};

use crate::faults::RunFault;
use crate::page::{counts_fit, push_paragraph};
use crate::paragraphs::{bad_at, fault_ahead, push_text};
use device::{Sink, Source, write_all};
use lines::{Engine, Print};
use std::alloc::{AllocError, Global};
use std::io::ErrorKind;
use stream::{CHUNK, Page, front, read_to, zeroed};

/// What a run keeps between two reads.
struct Held {
    // The chunk read last. The first `waiting` bytes of the chunk are the beginning of a character.
    chunk: Vec<u8>,
    waiting: usize,
    // The number of bytes decoded before the waiting bytes.
    decoded: u64,
    // The characters after the last paragraph boundary.
    text: Vec<char>,
    // The lines not yet written, and the number of bytes already written.
    page: Page,
    written: u64,
}

impl Drop for Held {
    fn drop(self) {
        let Held {
            chunk: _,
            waiting: _,
            decoded: _,
            text: _,
            page: _,
            written: _,
        } = self;
    }
}

impl Held {
    fn new(alloc: Global) -> Result<Held, AllocError>
        ensures room { IfOk result (λ held. vec_len held.chunk ≡ CHUNK) }
        ensures waiting { IfOk result (λ held. (held.waiting ≡ 0) × (held.decoded ≡ 0) × (held.written ≡ 0)) }
        ensures text { IfOk result (λ held. held.text.items ≡ []) }
        ensures page { IfOk result (λ held. held.page.bytes.items ≡ []) }
    {
        Ok(Held {
            chunk: zeroed(alloc, CHUNK)?,
            waiting: 0,
            decoded: 0,
            text: Vec::new(alloc),
            page: Page::new(alloc),
            written: 0,
        })
    }

    // Reads bytes into the chunk, after the waiting bytes, and returns the number of bytes read.
    fn read<R: Source>(&mut self, reader: &mut R) -> Result<usize, ErrorKind>
        requires { self.old.waiting < vec_len self.old.chunk }
        ensures ok { IfOk result (λ n.
            IsRead n self.old self.new (R.state reader.old) (R.state reader.new)) }
        ensures err { OnErr result (Fails (R.state reader.old) (R.state reader.new)) }
    {
        read_to(reader, &mut self.chunk, self.waiting)
    }

    // Decodes the waiting bytes and `len` more bytes. Adds to the page the lines of the paragraphs whose end
    // is then known. Returns the fault of the text, if there is one.
    //
    // Allocates only if a character is decoded and no paragraph is too long. If some of the bytes are not
    // UTF-8, allocates only if a paragraph ends before them.
    fn gather(
        &mut self,
        alloc: Global,
        engine: &mut Engine,
        width: u16,
        print: &Print,
        len: usize,
    ) -> Result<Option<RunFault>, AllocError>
        requires width { 0 < width }
        requires uncut { SplitsAt (cut_by (rules_of engine.old)) self.old.text.items None }
        requires short { length self.old.text.items ≤ PARAGRAPH_LIMIT }
        requires room { vec_len self.old.chunk ≡ CHUNK }
        requires len { self.old.waiting + len ≤ vec_len self.old.chunk }
        requires counted { self.old.decoded + (self.old.waiting + len) ≤ 2 ^ 64 - 1 }
        ensures gathers { IfOk result (λ fault. FindsFault (rules_of engine.old)
            (take (self.old.waiting + len) self.old.chunk.items) self.old self.new
            engine.old engine.new fault
            ⊎ Gathers (rules_of engine.old) width print.now
            (take (self.old.waiting + len) self.old.chunk.items) self.old self.new
            engine.old engine.new fault) }
        ensures memory { OnErr result (are_within (paragraphs (cut_by (rules_of engine.old))
            (self.old.text.items ++ front_of (take (self.old.waiting + len) self.old.chunk.items))) ≡ true) }
        ensures ended { OnErr result (is_bad (take (self.old.waiting + len) self.old.chunk.items) ≡ true
            → 1 < length (paragraphs (cut_by (rules_of engine.old))
            (self.old.text.items ++ front_of (take (self.old.waiting + len) self.old.chunk.items)))) }
        ensures decoded { OnErr result
            (0 < utf8_valid_len (take (self.old.waiting + len) self.old.chunk.items)) }
        // If nothing is printed, an allocation can fail only before anything is counted.
        ensures some { OnErr result (prints_some print.now ≡ false → engine.new ≡ engine.old) }
        ensures chunk { OnErr result ((self.new.chunk ≡ self.old.chunk)
            × (self.new.waiting ≡ self.old.waiting)) }
        ensures at_most { PrintsAtMost
            (length (self.old.text.items ++ front_of (take (self.old.waiting + len) self.old.chunk.items)))
            print.now engine.old engine.new }
        ensures rules { SameRules engine.old engine.new }
    {
        let filled = self.waiting + len;
        let (more, is_bad) = front(&self.chunk[..filled]);
        let front = more.len();
        let place = self.decoded + front as u64;
        if let Some(fault) = fault_ahead(engine, &self.text, more, is_bad, place) {
            return Ok(Some(fault));
        }
        let held = &mut self.text;
        push_text(alloc, &mut self.page, engine, width, print, held, more)?;
        self.keep_bytes(front, filled);
        Ok(bad_at(is_bad, place))
    }

    // Adds the lines of the last paragraph of a text, if there is one, to the page.
    fn gather_last(
        &mut self,
        alloc: Global,
        engine: &mut Engine,
        width: u16,
        print: &Print,
    ) -> Result<(), AllocError>
        requires width { 0 < width }
        requires uncut { SplitsAt (cut_by (rules_of engine.old)) self.old.text.items None }
        requires short { length self.old.text.items ≤ PARAGRAPH_LIMIT }
        ensures lines { OnOk result (GathersLast (rules_of engine.old) width print.now self.old self.new) }
        ensures memory { OnErr result (0 < length self.old.text.items) }
        ensures some { OnErr result (prints_some print.now ≡ true) }
        ensures counts { OnOk result
            (Prints (length self.old.text.items) print.now engine.old engine.new) }
        ensures at_most { PrintsAtMost (length self.old.text.items) print.now engine.old engine.new }
        ensures rules { SameRules engine.old engine.new }
    {
        if self.text.is_empty() {
            counts_fit(engine);
            return Ok(());
        }
        push_paragraph(alloc, &mut self.page, engine, width, print, &self.text)?;
        Ok(())
    }

    // Writes the lines collected in the page, and empties the page.
    fn write<W: Sink>(&mut self, writer: &mut W) -> Result<(), RunFault>
        requires { self.old.written ≤ (W.state writer.old).passed }
        ensures ok { OnOk result (Writes self.old self.new (W.state writer.old) (W.state writer.new)) }
        ensures err { IfErr result (λ fault.
            StopsWriting self.old fault (W.state writer.old) (W.state writer.new)) }
    {
        match write_all(writer, self.page.bytes()) {
            Ok(()) => {
                self.written += self.page.bytes().len() as u64;
                self.page.clear();
                Ok(())
            }
            Err(written) => Err(RunFault::Write(self.written + written as u64)),
        }
    }

    // Moves the bytes in `start..end`, which have not been decoded, to the front of the chunk, where they
    // wait for the next read.
    fn keep_bytes(&mut self, start: usize, end: usize)
        requires within { (start ≤ end) × (end ≤ vec_len self.old.chunk) }
        requires counted { self.old.decoded + start ≤ 2 ^ 64 - 1 }
        ensures bytes { take self.new.waiting self.new.chunk.items
            ≡ drop start (take end self.old.chunk.items) }
        ensures waiting { self.new.waiting ≡ end - start }
        ensures decoded { self.new.decoded ≡ self.old.decoded + start }
        ensures room { vec_len self.new.chunk ≡ vec_len self.old.chunk }
        ensures text { self.new.text ≡ self.old.text }
        ensures page { self.new.page ≡ self.old.page }
        ensures written { self.new.written ≡ self.old.written }
    {
        self.chunk.copy_within(start..end, 0);
        self.waiting = end - start;
        self.decoded += start as u64;
    }
}

// Ends a run whose source has no more bytes. Writes the lines of the last paragraph or, if the text ends
// inside a character, fails with `NotUtf8`.
fn finish<W: Sink>(
    alloc: Global,
    writer: &mut W,
    engine: &mut Engine,
    width: u16,
    print: &Print,
    held: &mut Held,
) -> Result<(), RunFault>
    requires width { 0 < width }
    requires uncut { SplitsAt (cut_by (rules_of engine.old)) held.old.text.items None }
    requires short { length held.old.text.items ≤ PARAGRAPH_LIMIT }
    requires counted { held.old.written ≤ (W.state writer.old).passed }
    ensures ends { Finishes (rules_of engine.old) width print.now held.old
        (W.state writer.old) (W.state writer.new) result }
    ensures counts { OnOk result (Prints (length held.old.text.items) print.now engine.old engine.new) }
    ensures at_most { PrintsAtMost (length held.old.text.items) print.now engine.old engine.new }

    // If the text ends inside a character, its last paragraph does not count as printed. If the sink fails,
    // the last paragraph does count as printed.
    ensures inside { 0 < held.old.waiting → engine.new ≡ engine.old }
    ensures stopped { (n : ℕ) → IsErrOf result (RunFault.Write n)
        → Prints (length held.old.text.items) print.now engine.old engine.new }
    ensures rules { SameRules engine.old engine.new }
{
    if held.waiting > 0 {
        return Err(RunFault::NotUtf8(held.decoded));
    }
    let Ok(()) = held.gather_last(alloc, engine, width, print) else {
        return Err(RunFault::Memory);
    };
    held.write(writer)
}

// Reads a chunk, and writes the lines of the paragraphs whose end is then known. If the source has no more
// bytes, writes the lines of the last paragraph and returns `false`.
fn step<R: Source, W: Sink>(
    alloc: Global,
    reader: &mut R,
    writer: &mut W,
    engine: &mut Engine,
    width: u16,
    print: &Print,
    held: &mut Held,
) -> Result<bool, RunFault>
    requires width { 0 < width }
    requires stands { (reader_start : Device) × (writer_start : Device) × (engine_start : Engine)
        × Stands (rules_of engine.old) width print.now reader_start writer_start engine_start
        (R.state reader.old) (W.state writer.old) engine.old held.old }
    ensures steps { (reader_start : Device) (writer_start : Device) (engine_start : Engine)
        → Stands (rules_of engine.old) width print.now reader_start writer_start engine_start
        (R.state reader.old) (W.state writer.old) engine.old held.old
        → Steps (rules_of engine.old) width print.now reader_start writer_start engine_start
        (R.state reader.new) (W.state writer.new) engine.new held.new result }
    ensures reads { TellsReads result (R.state reader.old) (R.state reader.new) }

    // If an allocation fails, this step writes nothing.
    ensures memory { IsErrOf result RunFault.Memory → W.state writer.new ≡ W.state writer.old }

    // If no bytes were read, an allocation can fail only for the last paragraph. In that case, something is
    // printed for the paragraph, and the text does not end inside a character.
    ensures last { IsErrOf result RunFault.Memory → (R.state reader.new).passed ≡ (R.state reader.old).passed
        → (held.old.waiting ≡ 0) × (0 < length held.old.text.items) × (prints_some print.now ≡ true) }

    // If bytes were read, an allocation can fail only if a character was decoded.
    ensures decoded { IsErrOf result RunFault.Memory → (n : ℕ)
        → (R.state reader.new).passed ≡ (R.state reader.old).passed + n → 0 < n
        → 0 < utf8_valid_len (take (held.new.waiting + n) held.new.chunk.items) }

    // If the sink fails after bytes were read, only the paragraphs whose lines were to be written count as
    // printed.
    ensures stopped { (n : ℕ) → IsErrOf result (RunFault.Write n)
        → (R.state reader.old).passed < (R.state reader.new).passed
        → StopsAfter (rules_of engine.old) print.now held.old (R.state reader.old) (R.state reader.new)
        engine.old engine.new }
    ensures rises { result ≡ Ok true → (R.state reader.old).passed < (R.state reader.new).passed }
    ensures counted { result ≡ Ok true → (R.state reader.new).passed ≤ 2 ^ 64 - 1 }
    ensures rules { SameRules engine.old engine.new }
{
    let len = match held.read(reader) {
        Ok(len) => len,
        Err(_) => return Err(RunFault::Read),
    };
    if len == 0 {
        return match finish(alloc, writer, engine, width, print, held) {
            Ok(()) => Ok(false),
            Err(fault) => Err(fault),
        };
    }
    let Ok(fault) = held.gather(alloc, engine, width, print, len) else {
        return Err(RunFault::Memory);
    };
    if let Err(fault) = held.write(writer) {
        return Err(fault);
    }
    match fault {
        Some(fault) => Err(fault),
        None => Ok(true),
    }
}

/// Reads a text and writes the lines of its paragraphs. `width` is in columns and must not be 0.
///
/// The lines of a paragraph are written as soon as its end is known, before more is read. Only the current
/// paragraph and one chunk of the input are kept in memory. Never fails with `BadLine` or `TextTooLong`.
pub fn run_text<R: Source, W: Sink>(
    alloc: Global,
    reader: &mut R,
    writer: &mut W,
    engine: &mut Engine,
    width: u16,
    print: &Print,
) -> Result<(), RunFault>
    requires { 0 < width }
    ensures run { IsTextRun (rules_of engine.old) width print.now
        (R.state reader.old) (R.state reader.new) (W.state writer.old) (W.state writer.new)
        engine.old engine.new result }
    ensures at_most { OnErr result (PrintsNoMore print.now
        (R.state reader.old) (R.state reader.new) engine.old engine.new) }
    ensures memory { IsErrOf result RunFault.Memory
        → WantsMemory (rules_of engine.old) width print.now
        (R.state reader.old) (R.state reader.new) (W.state writer.old) (W.state writer.new)
        engine.old engine.new }
    ensures stopped { (n : ℕ) → IsErrOf result (RunFault.Write n)
        → HasStopped (rules_of engine.old) width print.now
        (R.state reader.old) (R.state reader.new) (W.state writer.old) (W.state writer.new)
        engine.old engine.new n }
    ensures reads { TellsReads result (R.state reader.old) (R.state reader.new) }
    ensures ahead { OnErr result (ReadsAhead (rules_of engine.old) width print.now
        (R.state reader.old) (R.state reader.new) (W.state writer.old) (W.state writer.new)) }
    ensures rules { SameRules engine.old engine.new }
{
    counts_fit(engine);
    let Ok(mut held) = Held::new(alloc) else {
        return Err(RunFault::Memory);
    };
    loop {
        match step(alloc, reader, writer, engine, width, print, &mut held) {
            Ok(true) => (),
            Ok(false) => return Ok(()),
            Err(fault) => return Err(fault),
        }
    }
}
