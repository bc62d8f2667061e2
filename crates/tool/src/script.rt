//! Runs an edit script. The script is read in chunks. Each line is executed as soon as its end has been read,
//! and its reply is written before more is read.
ghost use Rattle.std.specs.Prelude.{◌≡◌, ◌+◌, ◌-◌, ◌<◌, ◌≤◌, ◌++◌, ◌^◌, ◌∷◌, ◌⊎◌, [], true, false};
ghost use Rattle.std.specs.Prelude.{None, Ok};
ghost use Rattle.std.specs.Prelude.{length, nat_lt, take, drop, vec_capacity, vec_len, option_map};
ghost use Rattle.std.specs.Prelude.{string_bytes};
ghost use Rattle.std.specs.Prelude.{IfOk, IfErr, IsErrOf, OnOk, OnErr, MatchOption, MatchResult};
ghost use Rattle.std.specs.Str.{chars};
ghost use Rattle.std.specs.Str.Lossy.{utf8_valid_len};
ghost use Rattle.device.specs.Device.{Device};
ghost use Rattle.lines.specs.Engine.{rules_of, SameRules};
ghost use Rattle.lines.specs.Writing.{PassedOn};
ghost use Rattle.session.specs.Sessions.{SessionState, held_at, page_at, IsWholeLayout};
ghost use Rattle.std.specs.Io.KnownBytes.{IsAtEnd};
ghost use Rattle.text_run.specs.TextRun.{TellsReads};
ghost use Rattle.stream.specs.declared.reading.TheConstants.{CHUNK};
ghost use Rattle.script_commands.specs.Parsed.{command_of};
ghost use Rattle.tool.specs.Reading.{CanFeed, Edited, EndsIn, FailsAt, FailsIn, Feeds, Grows, GrowsNot};
ghost use Rattle.tool.specs.Reading.{IsAt, NoEnd, Executes, ExecutesLine, ExecutesNot, Steps, Stops};
ghost use Rattle.tool.specs.Reading.{Takes, WantsIn, answer_text, lacks_memory};
ghost use Rattle.tool.specs.ScriptEnds.{IsScriptRun};
ghost use Rattle.tool.specs.Scripts.{command_of_line};
ghost use Rattle.script_commands.specs.Commands.{Ask, Delete, LacksInserted, SetWidth, Insert};
ghost use Rattle.tool.specs.Work.{LineWorks, CommandWorks};

use crate::answers::{answer_of, write_bytes};
use crate::queries::write_query;
use device::{Sink, Source};
use lines::Print;
use script_commands::{Command, Query, read_command};
use session::{Damage, EditFault, Kept, Session};
use std::alloc::{AllocError, Global};
use store::ParagraphStore;
use stream::{CHUNK, front, push_characters, zeroed};
use text_run::RunFault;

/// The maximum length of a line in bytes, excluding the line end.
pub const LINE_LIMIT: usize = 1_048_576;

// Proves that the constant, which contracts use, equals the number in the documentation.
const _: () = prove!(LINE_LIMIT == 1_048_576);

/// Options for running a script.
#[derive(Clone, Copy, Debug, PartialEq, Eq)]
pub struct ScriptOptions {
    /// What to print for each line of the text.
    pub print: Print,
    /// Whether lines of the script may be queries.
    pub queries: bool,
}

/// What a run keeps between two reads.
struct Reading {
    // The unfinished line: the bytes after the last line end.
    line: Vec<u8>,
    // The number of lines executed, and the number of bytes written.
    lines: u64,
    written: u64,
    // Buffers for the characters of a line, and for the text that it inserts.
    text: Vec<char>,
    inserted: String,
}

impl Drop for Reading {
    fn drop(self) {
        let Reading {
            line: _,
            lines: _,
            written: _,
            text: _,
            inserted: _,
        } = self;
    }
}

// Sets the width of a session. Fails with `WidthOutOfRange` if the width is 0 or more than 65,535.
fn set_width<S: ParagraphStore<Kept>>(
    session: &mut Session<S>,
    width: usize,
) -> Result<Damage, EditFault>
    ensures edited { Edited (rules_of session.old.engine) (SetWidth width)
        (held_at session.old) (held_at session.new) result }
    ensures works { CommandWorks (rules_of session.old.engine) (held_at session.old) (SetWidth width)
        session.old.engine session.new.engine }
    ensures rules { SameRules session.old.engine session.new.engine }
{
    // The contract of `width` shows that the session is laid out.
    let _width = session.width();
    match u16::try_from(width) {
        Ok(width) => session.set_width(width),
        Err(_) => Err(EditFault::WidthOutOfRange),
    }
}

fn insert<S: ParagraphStore<Kept>>(
    session: &mut Session<S>,
    pos: usize,
    inserted: &str,
) -> Result<Damage, EditFault>
    ensures edited { Edited (rules_of session.old.engine) (Insert pos (chars inserted.now))
        (held_at session.old) (held_at session.new) result }
    ensures works { CommandWorks (rules_of session.old.engine) (held_at session.old)
        (Insert pos (chars inserted.now)) session.old.engine session.new.engine }
    ensures rules { SameRules session.old.engine session.new.engine }
{
    // The contract of `width` shows that the session is laid out.
    let _width = session.width();
    session.insert(pos, inserted)
}

fn delete<S: ParagraphStore<Kept>>(
    session: &mut Session<S>,
    pos: usize,
    count: usize,
) -> Result<Damage, EditFault>
    ensures edited { Edited (rules_of session.old.engine) (Delete pos count)
        (held_at session.old) (held_at session.new) result }
    ensures works { CommandWorks (rules_of session.old.engine) (held_at session.old) (Delete pos count)
        session.old.engine session.new.engine }
    ensures rules { SameRules session.old.engine session.new.engine }
{
    // The contract of `width` shows that the session is laid out.
    let _width = session.width();
    session.delete(pos, count)
}

// Writes the reply to an edit. `written` is the number of bytes already written.
fn write_answer<W: Sink>(
    writer: &mut W,
    written: u64,
    edit: &Result<Damage, EditFault>,
) -> Result<u64, RunFault>
    requires { written ≤ (W.state writer.old).passed }
    ensures ok { IfOk result (PassedOn (answer_text edit.now) written
        (W.state writer.old) (W.state writer.new)) }
    ensures err { IfErr result (Stops (answer_text edit.now) written
        (W.state writer.old) (W.state writer.new)) }
    ensures counted { IfOk result (λ n. n ≤ (W.state writer.new).passed) }
{
    write_bytes(writer, written, &answer_of(edit))
}

// Writes all lines. `written` is the number of bytes already written.
fn show<W: Sink, S: ParagraphStore<Kept>>(
    session: &Session<S>,
    writer: &mut W,
    written: u64,
    print: &Print,
) -> Result<u64, RunFault>
    requires { written ≤ (W.state writer.old).passed }
    ensures ok { IfOk result (PassedOn (page_at session.now print.now) written
        (W.state writer.old) (W.state writer.new)) }
    ensures err { IfErr result (Stops (page_at session.now print.now) written
        (W.state writer.old) (W.state writer.new)) }
    ensures counted { IfOk result (λ n. n ≤ (W.state writer.new).passed) }
{
    match session.print_after(writer, written, print) {
        Ok(n) => Ok(n),
        Err(fault) => Err(RunFault::Write(fault.written)),
    }
}

// Writes the reply to a query. `written` is the number of bytes already written.
fn ask<W: Sink, S: ParagraphStore<Kept>>(
    session: &Session<S>,
    writer: &mut W,
    written: u64,
    print: &Print,
    query: &Query,
) -> Result<u64, RunFault>
    requires { written ≤ (W.state writer.old).passed }
    ensures ok { IfOk result (Executes (rules_of session.now.engine) print.now (Ask query.now)
        written (held_at session.now) (held_at session.now) (W.state writer.old) (W.state writer.new)) }
    ensures err { IfErr result (ExecutesNot (rules_of session.now.engine) print.now (Ask query.now)
        written (held_at session.now) (held_at session.now) (W.state writer.old) (W.state writer.new)) }
    ensures counted { IfOk result (λ n. n ≤ (W.state writer.new).passed) }
{
    // The contract of `width` shows that the session is laid out.
    let _width = session.width();
    write_query(session, writer, written, print, query)
}

fn lacks_memory(edit: &Result<Damage, EditFault>) -> bool
    ensures { result ≡ lacks_memory edit.now }
{
    match edit {
        Err(EditFault::NoMemory) => true,
        _ => false,
    }
}

// Executes a command, and writes its reply. `written` is the number of bytes already written.
fn execute<W: Sink, S: ParagraphStore<Kept>>(
    session: &mut Session<S>,
    writer: &mut W,
    written: u64,
    print: &Print,
    command: &Command,
    inserted: &str,
) -> Result<u64, RunFault>
    requires { written ≤ (W.state writer.old).passed }
    ensures ok { IfOk result (Executes (rules_of session.old.engine) print.now
        (command_of inserted.now command.now) written (held_at session.old) (held_at session.new)
        (W.state writer.old) (W.state writer.new)) }
    ensures err { IfErr result (ExecutesNot (rules_of session.old.engine) print.now
        (command_of inserted.now command.now) written (held_at session.old) (held_at session.new)
        (W.state writer.old) (W.state writer.new)) }
    ensures works { CommandWorks (rules_of session.old.engine) (held_at session.old)
        (command_of inserted.now command.now) session.old.engine session.new.engine }
    ensures counted { IfOk result (λ n. n ≤ (W.state writer.new).passed) }
    ensures rules { SameRules session.old.engine session.new.engine }
{
    let edit = match command {
        Command::Insert(pos) => insert(session, *pos, inserted),
        Command::Delete(pos, count) => delete(session, *pos, *count),
        Command::SetWidth(width) => set_width(session, *width),
        Command::Show => return show(session, writer, written, print),
        Command::Ask(query) => return ask(session, writer, written, print, query),
    };
    if lacks_memory(&edit) {
        return Err(RunFault::Memory);
    }
    write_answer(writer, written, &edit)
}

// Parses the bytes of a line. Returns `None` if the bytes are not a valid line of a script.
//
// Stores the line's characters in `text`, and the text of an insert in `inserted`. Checks that the bytes are
// UTF-8 before allocating.
fn read_line(
    queries: bool,
    line: &[u8],
    text: &mut Vec<char>,
    inserted: &mut String,
) -> Result<Option<Command>, AllocError>
    requires { length line.now ≤ LINE_LIMIT }
    ensures ok { IfOk result (λ command. option_map (command_of (string_bytes inserted.new)) command
        ≡ command_of_line queries line.now) }
    ensures err { OnErr result (utf8_valid_len line.now ≡ length line.now) }
    ensures memory { OnErr result (0 < length line.now) }
    ensures part { OnErr result ((length text.new.items < length (chars line.now))
        ⊎ LacksInserted (chars line.now) (chars (string_bytes inserted.new))) }
{
    let (characters, _) = front(line);
    if characters.len() < line.len() {
        return Ok(None);
    }
    text.clear();
    push_characters(characters, text)?;
    read_command(queries, text, inserted)
}

// Executes the line that `reading` holds, and writes the reply.
fn execute_line<W: Sink, S: ParagraphStore<Kept>>(
    session: &mut Session<S>,
    writer: &mut W,
    options: &ScriptOptions,
    reading: &mut Reading,
) -> Result<(), RunFault>
    requires short { length reading.old.line.items ≤ LINE_LIMIT }
    requires written { reading.old.written ≤ (W.state writer.old).passed }
    requires lines { reading.old.lines < 2 ^ 64 - 1 }
    ensures ok { OnOk result (ExecutesLine (rules_of session.old.engine) options.now reading.old.line.items
        (held_at session.old) (held_at session.new) reading.old reading.new
        (W.state writer.old) (W.state writer.new)) }
    ensures err { IfErr result (FailsAt (rules_of session.old.engine) options.now
        reading.old.line.items reading.new reading.old.lines reading.old.written
        (held_at session.old) (held_at session.new) (W.state writer.old) (W.state writer.new)) }
    ensures works { LineWorks (rules_of session.old.engine) options.now.queries (held_at session.old)
        reading.old.line.items session.old.engine session.new.engine }
    ensures lines { OnErr result (reading.new.lines ≡ reading.old.lines) }
    ensures rules { SameRules session.old.engine session.new.engine }
{
    let (text, inserted) = (&mut reading.text, &mut reading.inserted);
    let command = match read_line(options.queries, &reading.line, text, inserted) {
        Ok(Some(command)) => command,
        Ok(None) => return Err(RunFault::BadLine(reading.lines + 1)),
        Err(_) => return Err(RunFault::Memory),
    };
    let written = reading.written;
    match execute(
        session,
        writer,
        written,
        &options.print,
        &command,
        &reading.inserted,
    ) {
        Ok(written) => {
            reading.written = written;
            reading.lines += 1;
            reading.line.clear();
            Ok(())
        }
        Err(fault) => Err(fault),
    }
}

// Appends bytes to the unfinished line. If the line would become too long, fails with `BadLine` before
// allocating.
fn grow(reading: &mut Reading, bytes: &[u8]) -> Result<(), RunFault>
    requires { reading.old.lines < 2 ^ 64 - 1 }
    ensures ok { OnOk result (Grows bytes.now reading.old reading.new) }
    ensures err { IfErr result (GrowsNot bytes.now reading.old reading.new) }
    ensures full { IsErrOf result RunFault.Memory
        → vec_capacity reading.old.line < vec_len reading.old.line + length bytes.now }
{
    if is_too_long(&reading.line, bytes) {
        return Err(RunFault::BadLine(reading.lines + 1));
    }
    match reading.line.extend_from_slice(bytes) {
        Ok(()) => Ok(()),
        Err(_) => Err(RunFault::Memory),
    }
}

fn is_too_long(line: &[u8], more: &[u8]) -> bool
    ensures { result ≡ nat_lt LINE_LIMIT (length (line.now ++ more.now)) }
{
    line.len() > LINE_LIMIT || more.len() > LINE_LIMIT - line.len()
}

// Returns the index of the first line end in a chunk, or `None` if no line ends in it.
fn newline_index(chunk: &[u8]) -> Option<usize>
    ensures { MatchOption result (NoEnd chunk.now) (λ n. (n < length chunk.now)
        × EndsIn chunk.now (take n chunk.now) (drop (n + 1) chunk.now)) }
{
    chunk.iter().position(|&b| b == b'\n')
}

// Consumes a chunk up to and including its first line end, and executes the line. If the chunk has no line
// end, appends all its bytes to the unfinished line. Returns the number of bytes consumed.
fn take_part<W: Sink, S: ParagraphStore<Kept>>(
    session: &mut Session<S>,
    writer: &mut W,
    options: &ScriptOptions,
    reading: &mut Reading,
    chunk: &[u8],
) -> Result<usize, RunFault>
    requires written { reading.old.written ≤ (W.state writer.old).passed }
    requires lines { reading.old.lines < 2 ^ 64 - 1 }
    ensures ok { IfOk result (λ n. Takes (rules_of session.old.engine) options.now chunk.now n
        session.old session.new reading.old reading.new (W.state writer.old) (W.state writer.new)) }
    ensures err { IfErr result (FailsIn (rules_of session.old.engine) options.now chunk.now
        session.old session.new reading.old reading.new (W.state writer.old) (W.state writer.new)) }
    ensures rules { SameRules session.old.engine session.new.engine }
{
    match newline_index(chunk) {
        Some(end) => {
            match grow(reading, &chunk[..end]) {
                Ok(()) => (),
                Err(fault) => return Err(fault),
            }
            match execute_line(session, writer, options, reading) {
                Ok(()) => Ok(end + 1),
                Err(fault) => Err(fault),
            }
        }
        None => match grow(reading, chunk) {
            Ok(()) => Ok(chunk.len()),
            Err(fault) => Err(fault),
        },
    }
}

// Executes the lines that end in a chunk, and keeps the bytes after them.
fn feed<W: Sink, S: ParagraphStore<Kept>>(
    session: &mut Session<S>,
    writer: &mut W,
    options: &ScriptOptions,
    reading: &mut Reading,
    chunk: &[u8],
) -> Result<(), RunFault>
    requires { CanFeed (rules_of session.old.engine) options.now session.old reading.old
        (W.state writer.old) chunk.now }
    ensures feeds { (start : SessionState) (reader_start writer_start reader_now : Device)
        → IsAt (rules_of session.old.engine) options.now start reader_start reader_now
        writer_start (W.state writer.old) session.old reading.old chunk.now
        → Feeds (rules_of session.old.engine) options.now start reader_start writer_start reader_now
        (W.state writer.new) session.new reading.new result }

    // If an allocation fails while a line is read or executed, all lines before that line have been executed.
    ensures wants { (start : SessionState) (reader_start writer_start reader_now : Device)
        → IsAt (rules_of session.old.engine) options.now start reader_start reader_now
        writer_start (W.state writer.old) session.old reading.old chunk.now
        → IsErrOf result RunFault.Memory
        → WantsIn (rules_of session.old.engine) options.now start reader_start reader_now writer_start
        (W.state writer.new) session.new reading.new }
    ensures rules { SameRules session.old.engine session.new.engine }
{
    let mut at = 0;
    while at < chunk.len() {
        match take_part(session, writer, options, reading, &chunk[at..]) {
            Ok(taken) => at += taken,
            Err(fault) => return Err(fault),
        }
    }
    Ok(())
}

// Ends a run whose script has no more bytes. If bytes follow the last line end, executes them as a line.
fn finish<W: Sink, S: ParagraphStore<Kept>>(
    session: &mut Session<S>,
    writer: &mut W,
    options: &ScriptOptions,
    reading: &mut Reading,
) -> Result<(), RunFault>
    requires { CanFeed (rules_of session.old.engine) options.now session.old reading.old
        (W.state writer.old) [] }
    ensures ends { (start : SessionState) (reader_start writer_start reader_now : Device)
        → IsAt (rules_of session.old.engine) options.now start reader_start reader_now
        writer_start (W.state writer.old) session.old reading.old []
        → IsAtEnd reader_now.bytes
        → IsScriptRun (rules_of session.old.engine) options.now start session.new reader_start reader_now
        writer_start (W.state writer.new) result }

    // An allocation can fail only if the unfinished line is not empty, and only while this line is executed.
    ensures memory { IsErrOf result RunFault.Memory → (0 < length reading.old.line.items)
        × FailsAt (rules_of session.old.engine) options.now reading.old.line.items
        reading.new reading.old.lines reading.old.written (held_at session.old)
        (held_at session.new) (W.state writer.old) (W.state writer.new) RunFault.Memory }
    ensures rules { SameRules session.old.engine session.new.engine }
{
    if reading.line.is_empty() {
        return Ok(());
    }
    execute_line(session, writer, options, reading)
}

// Reads a chunk, and executes the lines that end in it. At the end of the script, executes the unfinished
// line, if there is one, and returns false.
fn step<R: Source, W: Sink, S: ParagraphStore<Kept>>(
    reader: &mut R,
    writer: &mut W,
    session: &mut Session<S>,
    options: &ScriptOptions,
    chunk: &mut [u8],
    reading: &mut Reading,
) -> Result<bool, RunFault>
    requires room { length chunk.old ≡ CHUNK }
    requires stands { (start : SessionState) × (reader_start : Device) × (writer_start : Device)
        × IsAt (rules_of session.old.engine) options.now start reader_start (R.state reader.old)
        writer_start (W.state writer.old) session.old reading.old [] }
    ensures steps { (start : SessionState) (reader_start writer_start : Device)
        → IsAt (rules_of session.old.engine) options.now start reader_start (R.state reader.old)
        writer_start (W.state writer.old) session.old reading.old []
        → Steps (rules_of session.old.engine) options.now start reader_start writer_start
        (R.state reader.new) (W.state writer.new) session.new reading.new result }
    ensures reads { TellsReads result (R.state reader.old) (R.state reader.new) }

    // If an allocation fails while a line is read or executed, all lines before that line have been executed.
    // If no bytes were read, that line is the last one, and it is not empty.
    ensures wants { (start : SessionState) (reader_start writer_start : Device)
        → IsAt (rules_of session.old.engine) options.now start reader_start (R.state reader.old)
        writer_start (W.state writer.old) session.old reading.old []
        → IsErrOf result RunFault.Memory
        → (R.state reader.old).passed < (R.state reader.new).passed
        → WantsIn (rules_of session.old.engine) options.now start reader_start (R.state reader.new)
        writer_start (W.state writer.new) session.new reading.new }
    ensures last { IsErrOf result RunFault.Memory
        → (R.state reader.new).passed ≡ (R.state reader.old).passed → (0 < length reading.old.line.items)
        × FailsAt (rules_of session.old.engine) options.now reading.old.line.items
        reading.new reading.old.lines reading.old.written (held_at session.old)
        (held_at session.new) (W.state writer.old) (W.state writer.new) RunFault.Memory }
    ensures rises { result ≡ Ok true → (R.state reader.old).passed < (R.state reader.new).passed }
    ensures counted { result ≡ Ok true → (R.state reader.new).passed ≤ 2 ^ 64 - 1 }
    ensures room { length chunk.new ≡ length chunk.old }
    ensures rules { SameRules session.old.engine session.new.engine }
{
    let len = match reader.read(chunk) {
        Ok(len) => len,
        Err(_) => return Err(RunFault::Read),
    };
    if len == 0 {
        return match finish(session, writer, options, reading) {
            Ok(()) => Ok(false),
            Err(fault) => Err(fault),
        };
    }
    match feed(session, writer, options, reading, &chunk[..len]) {
        Ok(()) => Ok(true),
        Err(fault) => Err(fault),
    }
}

/// Runs an edit script on a session, and drops the session when the run ends. All lines of the script must be
/// commands. [`run_script_in`] borrows the session, and accepts queries.
pub fn run_script<R: Source, W: Sink, S: ParagraphStore<Kept> + Drop>(
    alloc: Global,
    reader: &mut R,
    writer: &mut W,
    session: Session<S>,
    print: &Print,
) -> Result<(), RunFault>
    ensures run { (after : SessionState) × IsScriptRun (rules_of session.engine)
        (record { print = print.now; queries = false }) session after
        (R.state reader.old) (R.state reader.new) (W.state writer.old) (W.state writer.new) result }
    ensures reads { TellsReads result (R.state reader.old) (R.state reader.new) }
{
    let mut session = session;
    let options = ScriptOptions {
        print: *print,
        queries: false,
    };
    run_script_in(alloc, reader, writer, &mut session, &options)
}

/// Runs an edit script on a session. Each line is executed as soon as its end has been read, and its reply is
/// written before more is read. At most one line and one chunk of the script are kept in memory.
///
/// However the run ends, the session contains the edits of all lines whose reply was written, and of a line
/// whose reply could not be written completely. The session's work is at most what these lines and the line
/// at which the run ended require.
///
/// Fails with `Memory` only before anything is read, or while a line is read or executed. The line then
/// changes nothing, and no byte of its reply is written.
pub fn run_script_in<R: Source, W: Sink, S: ParagraphStore<Kept>>(
    alloc: Global,
    reader: &mut R,
    writer: &mut W,
    session: &mut Session<S>,
    options: &ScriptOptions,
) -> Result<(), RunFault>
    ensures run { IsScriptRun (rules_of session.old.engine) options.now session.old session.new
        (R.state reader.old) (R.state reader.new) (W.state writer.old) (W.state writer.new) result }
    ensures reads { TellsReads result (R.state reader.old) (R.state reader.new) }
    ensures laid_out { IsWholeLayout session.new }
    ensures rules { SameRules session.old.engine session.new.engine }
{
    let result = run_over(alloc, reader, writer, session, options);
    // The contract of `width` shows that the session is laid out.
    let _width = session.width();
    result
}

fn run_over<R: Source, W: Sink, S: ParagraphStore<Kept>>(
    alloc: Global,
    reader: &mut R,
    writer: &mut W,
    session: &mut Session<S>,
    options: &ScriptOptions,
) -> Result<(), RunFault>
    ensures run { IsScriptRun (rules_of session.old.engine) options.now session.old session.new
        (R.state reader.old) (R.state reader.new) (W.state writer.old) (W.state writer.new) result }
    ensures reads { TellsReads result (R.state reader.old) (R.state reader.new) }
    ensures rules { SameRules session.old.engine session.new.engine }
{
    let Ok(mut chunk) = zeroed(alloc, CHUNK) else {
        return Err(RunFault::Memory);
    };
    let mut reading = Reading {
        line: Vec::new(alloc),
        lines: 0,
        written: 0,
        text: Vec::new(alloc),
        inserted: String::new(alloc),
    };
    loop {
        match step(reader, writer, session, options, &mut chunk, &mut reading) {
            Ok(true) => (),
            Ok(false) => return Ok(()),
            Err(fault) => return Err(fault),
        }
    }
}
