//! Short replies to the lines of a script. A reply is built in an array, so building it never fails.
ghost use Rattle.std.specs.Prelude.{◌≡◌, ◌+◌, ◌*◌, ◌++◌, ◌<◌, ◌≤◌, ◌∷◌, [], IfOk, IfErr, OnErr, length};
ghost use Rattle.std.specs.Prelude.{option_map};
ghost use Rattle.std.specs.Fmt.{decimal};
ghost use Rattle.arrayvec.specs.ArrayVec.{array_vec_len};
ghost use Rattle.lines.specs.Writing.{PassedOn};
ghost use Rattle.session.specs.Kept.{text_of};
ghost use Rattle.tool.specs.Queries.{cluster_text, optional_answer, word_text};
ghost use Rattle.tool.specs.Queries.{edge_text, listed, out_of_range, side_text, numbers_answer};
ghost use Rattle.tool.specs.Queries.{count_answer, edge_answer, edges_answer, line_end_answer};
ghost use Rattle.tool.specs.Reading.{answer_text, Stops};
ghost use Rattle.tool.specs.ScriptRun.{damage_text, refusal_text};

use arrayvec::ArrayVec;
use device::{Sink, write_all};
use itoa::Buffer;
use session::{Damage, Edge, EditFault, Kept, Session, Side};
use std::alloc::AllocError;
use store::ParagraphStore;
use text_run::RunFault;

/// The maximum length of a reply in bytes: three numbers of 20 digits each, and 5 other bytes.
pub const ANSWER_ROOM: usize = 65;

/// A reply, as bytes in an array of fixed capacity.
pub type Answer = ArrayVec<u8, ANSWER_ROOM>;

/// Returns the reply to an edit: which lines were replaced and by how many, or why the edit was refused.
pub fn answer_of(edit: &Result<Damage, EditFault>) -> Answer
    ensures { result.items ≡ answer_text edit.now }
{
    match edit {
        Ok(damage) => damage_answer(damage.first_line, damage.old_lines, damage.new_lines),
        Err(reason) => refusal_answer(*reason),
    }
}

/// Returns a reply that consists of these numbers on one line. There must be at most three.
pub fn numbers_answer(numbers: &[usize]) -> Answer
    requires { length numbers.now ≤ 3 }
    ensures { result.items ≡ numbers_answer numbers.now }
{
    let mut answer = Answer::new();
    push(&mut answer, b"=");
    for number in numbers {
        push(&mut answer, b" ");
        push_number(&mut answer, *number);
    }
    push(&mut answer, b"\n");
    answer
}

/// Returns these numbers as text, with a space before each. There must be at most three.
pub fn listed(numbers: &[usize]) -> Answer
    requires { length numbers.now ≤ 3 }
    ensures { result.items ≡ listed numbers.now }
{
    let mut answer = Answer::new();
    for number in numbers {
        push(&mut answer, b" ");
        push_number(&mut answer, *number);
    }
    answer
}

/// Returns the start of a reply that lists items: `=` and the number of items.
pub fn count_answer(count: usize) -> Answer
    ensures { result.items ≡ count_answer count }
{
    let mut answer = Answer::new();
    push(&mut answer, b"= ");
    push_number(&mut answer, count);
    answer
}

/// Returns the reply that consists of an edge.
pub fn edge_answer(edge: Edge) -> Answer
    ensures { result.items ≡ edge_answer edge }
{
    let mut answer = Answer::new();
    push(&mut answer, b"=");
    push_edge(&mut answer, edge);
    push(&mut answer, b"\n");
    answer
}

/// Returns the reply to `ends`, which consists of the first and the last edge of a line.
pub fn edges_answer(first: Edge, last: Edge) -> Answer
    ensures { result.items ≡ edges_answer first last }
{
    let mut answer = Answer::new();
    push(&mut answer, b"=");
    push_edge(&mut answer, first);
    push_edge(&mut answer, last);
    push(&mut answer, b"\n");
    answer
}

/// Returns the reply to `step` if the edge is at the end of its line in that direction.
pub fn line_end_answer() -> Answer
    ensures { result.items ≡ line_end_answer }
{
    let mut answer = Answer::new();
    push(&mut answer, b"= end\n");
    answer
}

/// Returns the reply to a command with a position or line past the end.
pub fn out_of_range() -> Answer
    ensures { result.items ≡ out_of_range }
{
    refusal_answer(EditFault::OutOfRange)
}

/// Returns the reply to `cluster POS`: where the character's grapheme cluster starts and ends, or
/// `out_of_range`.
pub fn cluster_answer<S: ParagraphStore<Kept>>(
    session: &Session<S>,
    pos: usize,
) -> Result<Answer, AllocError>
    ensures ok { IfOk result (λ answer. answer.items ≡ cluster_text session.now.kept pos) }
    ensures memory { OnErr result (pos < length (text_of session.now.kept)) }
{
    match session.cluster(pos)? {
        Some(cluster) => Ok(numbers_answer(&[cluster.start, cluster.end])),
        None => Ok(out_of_range()),
    }
}

/// Returns the reply to `word POS`: where the character's word starts and ends, and 1 if the word has an
/// alphabetic or numeric character, else 0. Past the last character, returns `out_of_range`.
pub fn word_answer<S: ParagraphStore<Kept>>(
    session: &Session<S>,
    pos: usize,
) -> Result<Answer, AllocError>
    ensures ok { IfOk result (λ answer. answer.items ≡ word_text session.now.kept pos) }
    ensures memory { OnErr result (pos < length (text_of session.now.kept)) }
{
    match session.word(pos)? {
        Some(word) => Ok(numbers_answer(&[word.start, word.end, usize::from(word.has_letter)])),
        None => Ok(out_of_range()),
    }
}

/// Returns the reply to `byte` or `utf16`: the offset, or `out_of_range` if there is none.
pub fn offset_answer(offset: Option<usize>) -> Answer
    ensures { result.items ≡ optional_answer (option_map (λ offset. offset ∷ []) offset) }
{
    match offset {
        Some(offset) => numbers_answer(&[offset]),
        None => out_of_range(),
    }
}

/// Returns the reply to `frombyte` or `fromutf16`: the position, and how many units of the character at that
/// position precede the offset, or `out_of_range` if there is no position.
pub fn position_answer(found: Option<(usize, usize)>) -> Answer
    ensures { result.items ≡ optional_answer (option_map (λ place. place.0 ∷ place.1 ∷ []) found) }
{
    match found {
        Some((pos, rest)) => numbers_answer(&[pos, rest]),
        None => out_of_range(),
    }
}

/// Writes bytes. `written` is the number of bytes already written. The returned total includes these bytes,
/// as does the count in a fault.
pub fn write_bytes<W: Sink>(writer: &mut W, written: u64, bytes: &[u8]) -> Result<u64, RunFault>
    requires { written ≤ (W.state writer.old).passed }
    ensures ok { IfOk result (PassedOn bytes.now written (W.state writer.old) (W.state writer.new)) }
    ensures err { IfErr result (Stops bytes.now written (W.state writer.old) (W.state writer.new)) }
    ensures counted { IfOk result (λ n. n ≤ (W.state writer.new).passed) }
{
    match write_all(writer, bytes) {
        Ok(()) => Ok(written + bytes.len() as u64),
        Err(n) => Err(RunFault::Write(written + n as u64)),
    }
}

fn damage_answer(first: usize, old: usize, new: usize) -> Answer
    ensures { result.items ≡ damage_text first old new }
{
    let mut answer = Answer::new();
    push(&mut answer, b"@ ");
    push_number(&mut answer, first);
    push(&mut answer, b" ");
    push_number(&mut answer, old);
    push(&mut answer, b" ");
    push_number(&mut answer, new);
    push(&mut answer, b"\n");
    answer
}

fn refusal_answer(reason: EditFault) -> Answer
    ensures { result.items ≡ refusal_text reason }
{
    let mut answer = Answer::new();
    push(&mut answer, reason_text(reason).as_bytes());
    answer
}

fn push_number(answer: &mut Answer, number: usize)
    requires { array_vec_len answer.old + 20 ≤ 65 }
    ensures items { answer.new.items ≡ answer.old.items ++ decimal number }
    ensures len { array_vec_len answer.new ≤ array_vec_len answer.old + 20 }
{
    let mut buffer = Buffer::new();
    push(answer, buffer.format(number).as_bytes());
}

// Appends the position and the side of an edge, with a space before each.
fn push_edge(answer: &mut Answer, edge: Edge)
    requires { array_vec_len answer.old + 28 ≤ 65 }
    ensures items { answer.new.items ≡ answer.old.items ++ edge_text edge }
    ensures len { array_vec_len answer.new ≤ array_vec_len answer.old + 28 }
{
    push(answer, b" ");
    push_number(answer, edge.pos);
    push(answer, b" ");
    push(answer, side_text(edge.side).as_bytes());
}

fn side_text(side: Side) -> &'static str
    ensures value { result.now ≡ side_text side }
    ensures short { length result.now ≤ 6 }
{
    match side {
        Side::Before => "before",
        Side::After => "after",
    }
}

// Appends bytes to a reply, which must have capacity for them.
fn push(answer: &mut Answer, bytes: &[u8])
    requires { array_vec_len answer.old + length bytes.now ≤ 65 }
    ensures items { answer.new.items ≡ answer.old.items ++ bytes.now }
    ensures len { array_vec_len answer.new ≡ array_vec_len answer.old + length bytes.now }
{
    match answer.try_extend_from_slice(bytes) {
        Ok(()) => (),
        Err(_) => unreachable!(),
    }
}

// Returns the reply to a refused edit. `NoMemory` is not a refusal, so its text is empty.
fn reason_text(reason: EditFault) -> &'static str
    ensures value { result.now ≡ refusal_text reason }
    ensures short { length result.now ≤ 65 }
{
    match reason {
        EditFault::OutOfRange => "! range\n",
        EditFault::WidthOutOfRange => "! width\n",
        EditFault::TextTooLong => "! text too long\n",
        EditFault::ParagraphTooLong => "! paragraph too long\n",
        EditFault::NoMemory => "",
    }
}
