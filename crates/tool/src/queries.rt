//! Replies to the queries that a script makes about the current text.
ghost use Rattle.std.specs.Prelude.{◌≡◌, false, ◌^◌, ◌-◌, ◌<◌, ◌≤◌, IfOk, IfErr, OnErr, length, slice_get};
ghost use Rattle.std.specs.Prelude.{option_map, slice_index, true, IfSome};
ghost use Rattle.lines.specs.Engine.{rules_of};
ghost use Rattle.reorder.specs.Order.{is_odd};
ghost use Rattle.lines.specs.Writing.{PassedOn};
ghost use Rattle.session.specs.Edges.{edge_caret_at, is_edge_in, HasCharacter};
ghost use Rattle.session.specs.Kept.{lines_in, text_of};
ghost use Rattle.session.specs.Reasons.{reasons_at};
ghost use Rattle.tool.specs.Reasons.{reasons_text};
ghost use Rattle.tool.specs.Queries.{at_text, caret_text, clusters_text, edge_caret_text};
ghost use Rattle.tool.specs.Queries.{ends_text, hit_text, lines_text, part_text, query_text, runs_text};
ghost use Rattle.tool.specs.Queries.{size_text, spans_text, step_text, numbers_answer, why_text};
ghost use Rattle.tool.specs.Queries.{caret_numbers, direction_of, edge_of, empty_left, is_odd_at};
ghost use Rattle.tool.specs.Queries.{left_columns, screen_hit, screen_left, AnswersNot};
ghost use Rattle.tool.specs.Reading.{Stops};

use crate::answers::{
    Answer, cluster_answer, edge_answer, edges_answer, line_end_answer, numbers_answer,
    offset_answer, out_of_range, position_answer, word_answer, write_bytes,
};
use crate::listings::{write_ends, write_runs, write_spans};
use crate::reasons::reasons_line;
use device::Sink;
use lines::{Print, VisualLine, lines_are_ordered, runs_have_all_columns};
use script_commands::Query;
use session::{Caret, Direction, Edge, Hit, Kept, RangeFault, Session, Side};
use std::alloc::AllocError;
use store::ParagraphStore;
use text_run::RunFault;

// Returns the number of screen columns to the left of a line's shown part.
fn screen_left(line: &VisualLine<'_>, width: u32, print: &Print) -> usize
    ensures value { result ≡ screen_left print.now width line.now }
    ensures fits { result < 2 ^ 32 }
{
    if print.nopad {
        0
    } else {
        line.padding(width) as usize
    }
}

// Returns the number of screen columns to the left of a line that does not exist yet, given its base level.
fn empty_left(level: u8, width: u32, print: &Print) -> usize
    ensures value { result ≡ empty_left print.now width level }
    ensures fits { result < 2 ^ 32 }
{
    if !print.nopad && level % 2 == 1 {
        width as usize
    } else {
        0
    }
}

// Returns the reply that consists of a caret's line, screen column and level.
fn answer_of_caret<S: ParagraphStore<Kept>>(
    session: &Session<S>,
    print: &Print,
    caret: Caret,
) -> Answer
    requires { caret.column < 2 ^ 64 - 2 ^ 32 }
    ensures { result.items
        ≡ numbers_answer (caret_numbers print.now session.now.width session.now.kept caret) }
{
    let left = match session.line(caret.line) {
        Some(line) => screen_left(&line, session.measured_width(), print),
        None => empty_left(caret.level, session.measured_width(), print),
    };
    numbers_answer(&[caret.line, left + caret.column, caret.level as usize])
}

fn caret_answer<S: ParagraphStore<Kept>>(session: &Session<S>, print: &Print, pos: usize) -> Answer
    ensures { result.items ≡ caret_text print.now session.now.width session.now.kept
        (rules_of session.now.engine) pos }
{
    match session.caret(pos) {
        Some(caret) => answer_of_caret(session, print, caret),
        None => out_of_range(),
    }
}

// Returns whether the character at a visual position of a line has an odd level, or false if there is no
// position.
fn is_odd_at(line: &VisualLine<'_>, place: Option<usize>) -> bool
    ensures { result ≡ is_odd_at line.now place }
{
    let Some(place) = place else {
        return false;
    };
    match line.vtol().get(place) {
        Some(k) => is_odd_level(line, *k as usize),
        None => is_odd_level(line, 0),
    }
}

fn is_odd_level(line: &VisualLine<'_>, k: usize) -> bool
    ensures { result ≡ is_odd (slice_index line.now.levels k) }
{
    match line.levels().get(k) {
        Some(level) => level % 2 == 1,
        None => false,
    }
}

// Returns the hit at a screen column of line `n`, or `None` past the last line.
fn screen_hit<S: ParagraphStore<Kept>>(
    session: &Session<S>,
    print: &Print,
    n: usize,
    column: usize,
) -> Option<Hit>
    ensures { result ≡ screen_hit print.now session.now.width session.now.kept n column }
{
    let line = session.line(n)?;
    let left = screen_left(&line, session.measured_width(), print);
    if column >= left {
        return session.hit(n, column - left);
    }
    let hit = session.hit(n, 0)?;
    Some(Hit {
        pos: hit.pos,
        trailing: is_odd_at(&line, line.covering(0)),
    })
}

fn hit_answer<S: ParagraphStore<Kept>>(
    session: &Session<S>,
    print: &Print,
    n: usize,
    column: usize,
) -> Answer
    ensures { result.items ≡ hit_text print.now session.now.width session.now.kept n column }
{
    match screen_hit(session, print, n, column) {
        Some(hit) => numbers_answer(&[hit.pos, usize::from(hit.trailing)]),
        None => out_of_range(),
    }
}

// Returns the `After` edge of a position if `is_after` is true, and otherwise its `Before` edge.
fn edge_of(pos: usize, is_after: bool) -> Edge
    ensures { result ≡ edge_of pos is_after }
{
    Edge {
        pos,
        side: if is_after { Side::After } else { Side::Before },
    }
}

fn direction_of(is_right: bool) -> Direction
    ensures { result ≡ direction_of is_right }
{
    if is_right {
        Direction::Right
    } else {
        Direction::Left
    }
}

// Returns the caret at an edge of a position, or `None` if the text has no such edge. A `Before` edge must
// belong to a character, so its position must not be the end of the text.
fn edge_caret<S: ParagraphStore<Kept>>(
    session: &Session<S>,
    pos: usize,
    is_after: bool,
) -> Result<Option<Caret>, AllocError>
    requires { is_after ≡ false → pos < length (text_of session.now.kept) }
    ensures ok { IfOk result (λ caret. caret
        ≡ edge_caret_at (rules_of session.now.engine) session.now.kept (edge_of pos is_after)) }
    ensures fits { IfOk result (λ caret. IfSome caret (λ caret. caret.column < 2 ^ 64 - 2 ^ 32)) }
    ensures memory { OnErr result (HasCharacter (length (text_of session.now.kept))
        (edge_of pos is_after)) }
{
    // By these theorems, the columns of a line are the sum of the columns of its characters.
    lines_are_ordered();
    runs_have_all_columns();
    // The contract of `width` shows that the session is laid out.
    let _width = session.width();
    let Some(caret) = session.edge_caret(edge_of(pos, is_after))? else {
        return Ok(None);
    };
    match session.line(caret.line) {
        Some(line) => {
            // The contracts of these calls bound the caret's column.
            let _left = line.columns_left(line.vtol().len());
            let _columns = columns_of(&line);
            let _runs = line.runs();
            Ok(Some(caret))
        }
        None => unreachable!(),
    }
}

// Returns the width of a line in columns.
fn columns_of(line: &VisualLine<'_>) -> usize
    ensures value { result ≡ line.now.columns }
    ensures fits { result < 2 ^ 32 }
{
    line.columns() as usize
}

fn edge_caret_answer<S: ParagraphStore<Kept>>(
    session: &Session<S>,
    print: &Print,
    pos: usize,
    is_after: bool,
) -> Result<Answer, AllocError>
    ensures ok { IfOk result (λ answer. answer.items ≡ edge_caret_text print.now session.now.width
        session.now.kept (rules_of session.now.engine) (edge_of pos is_after)) }
    ensures memory { OnErr result (HasCharacter (length (text_of session.now.kept))
        (edge_of pos is_after)) }
{
    if !is_after && pos >= session.char_count() {
        return Ok(caret_answer(session, print, pos));
    }
    match edge_caret(session, pos, is_after)? {
        Some(caret) => Ok(answer_of_caret(session, print, caret)),
        None => Ok(out_of_range()),
    }
}

fn step_answer<S: ParagraphStore<Kept>>(
    session: &Session<S>,
    edge: Edge,
    direction: Direction,
) -> Result<Answer, AllocError>
    ensures ok { IfOk result (λ answer. answer.items
        ≡ step_text session.now.kept (rules_of session.now.engine) edge direction) }
    ensures memory { OnErr result ((is_edge_in (length (text_of session.now.kept)) edge ≡ true)
        × (0 < length (text_of session.now.kept))) }
{
    if session.edge_caret(edge)?.is_none() {
        return Ok(out_of_range());
    }
    match session.step(edge, direction)? {
        Some(next) => Ok(edge_answer(next)),
        None => Ok(line_end_answer()),
    }
}

// Returns the number of screen columns to the left of the shown part of line `n`, or 0 if there is no such
// line.
fn left_columns<S: ParagraphStore<Kept>>(session: &Session<S>, print: &Print, n: usize) -> usize
    ensures { result ≡ left_columns print.now session.now.width session.now.kept
        (slice_get (lines_in session.now.kept) n) }
{
    match session.line(n) {
        Some(line) => screen_left(&line, session.measured_width(), print),
        None => 0,
    }
}

fn at_answer<S: ParagraphStore<Kept>>(
    session: &Session<S>,
    print: &Print,
    n: usize,
    column: usize,
) -> Result<Answer, AllocError>
    ensures ok { IfOk result (λ answer. answer.items
        ≡ at_text print.now session.now.width session.now.kept (rules_of session.now.engine) n column) }
    ensures memory { OnErr result (n < length (lines_in session.now.kept)) }
{
    match session.edge_at(n, column.saturating_sub(left_columns(session, print, n)))? {
        Some(edge) => Ok(edge_answer(edge)),
        None => Ok(out_of_range()),
    }
}

fn ends_answer<S: ParagraphStore<Kept>>(session: &Session<S>, n: usize) -> Answer
    ensures { result.items ≡ ends_text session.now.kept (rules_of session.now.engine) n }
{
    match session.line_edges(n) {
        Some(edges) => edges_answer(edges.first, edges.last),
        None => out_of_range(),
    }
}

fn size_answer<S: ParagraphStore<Kept>>(session: &Session<S>) -> Answer
    ensures { result.items ≡ size_text session.now.kept }
{
    numbers_answer(&[
        session.char_count(),
        session.line_count(),
        session.paragraph_count(),
    ])
}

// Writes the reply to `lines`: `count` and then `count` lines, starting at line `first`, or `out_of_range`.
// `written` is the number of bytes already written.
fn write_lines<W: Sink, S: ParagraphStore<Kept>>(
    session: &Session<S>,
    writer: &mut W,
    written: u64,
    print: &Print,
    first: usize,
    count: usize,
) -> Result<u64, RunFault>
    requires { written ≤ (W.state writer.old).passed }
    ensures ok { IfOk result (PassedOn (lines_text print.now session.now.width session.now.kept first count)
        written (W.state writer.old) (W.state writer.new)) }
    ensures err { IfErr result (Stops (lines_text print.now session.now.width session.now.kept first count)
        written (W.state writer.old) (W.state writer.new)) }
    ensures counted { IfOk result (λ n. n ≤ (W.state writer.new).passed) }
{
    let lines = session.line_count();
    if first > lines || count > lines - first {
        return write_bytes(writer, written, &out_of_range());
    }
    let total = write_bytes(writer, written, &numbers_answer(&[count]))?;
    match session.print_lines_after(writer, total, first, count, print) {
        Ok(written) => Ok(written),
        Err(RangeFault::Write(fault)) => Err(RunFault::Write(fault.written)),
        Err(RangeFault::OutOfRange) => unreachable!(),
    }
}

// Writes the reply to `text`: the number of bytes and then `count` characters, starting at `pos`, or
// `out_of_range`. `written` is the number of bytes already written.
fn write_text<W: Sink, S: ParagraphStore<Kept>>(
    session: &Session<S>,
    writer: &mut W,
    written: u64,
    pos: usize,
    count: usize,
) -> Result<u64, RunFault>
    requires { written ≤ (W.state writer.old).passed }
    ensures ok { IfOk result (PassedOn (part_text session.now.kept pos count) written
        (W.state writer.old) (W.state writer.new)) }
    ensures err { IfErr result (Stops (part_text session.now.kept pos count) written
        (W.state writer.old) (W.state writer.new)) }
    ensures counted { IfOk result (λ n. n ≤ (W.state writer.new).passed) }
{
    let Some(len) = session.utf8_len(pos, count) else {
        return write_bytes(writer, written, &out_of_range());
    };
    let total = write_bytes(writer, written, &numbers_answer(&[len]))?;
    let part = match session.write_text_after(writer, total, pos, count) {
        Ok(written) => written,
        Err(RangeFault::Write(fault)) => return Err(RunFault::Write(fault.written)),
        Err(RangeFault::OutOfRange) => unreachable!(),
    };
    write_bytes(writer, part, b"\n")
}

// Writes the reply to `spans`: the screen columns that a range of characters covers in line `n`, or
// `out_of_range`. `written` is the number of bytes already written.
fn write_selection<W: Sink, S: ParagraphStore<Kept>>(
    session: &Session<S>,
    writer: &mut W,
    written: u64,
    print: &Print,
    n: usize,
    start: usize,
    end: usize,
) -> Result<u64, RunFault>
    requires { written ≤ (W.state writer.old).passed }
    ensures ok { IfOk result (PassedOn (spans_text print.now session.now.width session.now.kept n start end)
        written (W.state writer.old) (W.state writer.new)) }
    ensures err { IfErr result (Stops (spans_text print.now session.now.width session.now.kept n start end)
        written (W.state writer.old) (W.state writer.new)) }
    ensures counted { IfOk result (λ n. n ≤ (W.state writer.new).passed) }
{
    let Some(at) = session.line_start(n) else {
        return write_bytes(writer, written, &out_of_range());
    };
    let Some(line) = session.line(n) else {
        return write_bytes(writer, written, &out_of_range());
    };
    let left = screen_left(&line, session.measured_width(), print);
    let (start, end) = (start.saturating_sub(at), end.saturating_sub(at));
    write_spans(writer, written, left, &line, start, end)
}

// Writes the reply to `runs`: the level runs of line `n`, or `out_of_range` past the last line. `written` is
// the number of bytes already written.
fn write_line_runs<W: Sink, S: ParagraphStore<Kept>>(
    session: &Session<S>,
    writer: &mut W,
    written: u64,
    n: usize,
) -> Result<u64, RunFault>
    requires { written ≤ (W.state writer.old).passed }
    ensures ok { IfOk result (PassedOn (runs_text session.now.kept n) written
        (W.state writer.old) (W.state writer.new)) }
    ensures err { IfErr result (Stops (runs_text session.now.kept n) written
        (W.state writer.old) (W.state writer.new)) }
    ensures counted { IfOk result (λ n. n ≤ (W.state writer.new).passed) }
{
    match session.line(n) {
        Some(line) => write_runs(writer, written, &line),
        None => write_bytes(writer, written, &out_of_range()),
    }
}

// Writes the reply to `clusters`: where the grapheme clusters in line `n` end, or `out_of_range` past the
// last line. `written` is the number of bytes already written.
fn write_line_clusters<W: Sink, S: ParagraphStore<Kept>>(
    session: &Session<S>,
    writer: &mut W,
    written: u64,
    n: usize,
) -> Result<u64, RunFault>
    requires { written ≤ (W.state writer.old).passed }
    ensures ok { IfOk result (PassedOn (clusters_text session.now.kept n) written
        (W.state writer.old) (W.state writer.new)) }
    ensures err { IfErr result (AnswersNot (clusters_text session.now.kept n) session.now.kept
        (Query.Clusters n) written (W.state writer.old) (W.state writer.new)) }
    ensures counted { IfOk result (λ n. n ≤ (W.state writer.new).passed) }
{
    match session.line_clusters(n) {
        Ok(Some(ends)) => write_ends(writer, written, &ends),
        Ok(None) => write_bytes(writer, written, &out_of_range()),
        Err(_) => Err(RunFault::Memory),
    }
}

// Writes the reply to `why`: how the algorithms arrive at the level and the break mark of a character, or
// `out_of_range` past the last character. `written` is the number of bytes already written.
fn write_reasons<W: Sink, S: ParagraphStore<Kept>>(
    session: &Session<S>,
    writer: &mut W,
    written: u64,
    pos: usize,
) -> Result<u64, RunFault>
    requires { written ≤ (W.state writer.old).passed }
    ensures ok { IfOk result (PassedOn (why_text session.now.kept (rules_of session.now.engine) pos) written
        (W.state writer.old) (W.state writer.new)) }
    ensures err { IfErr result (AnswersNot (why_text session.now.kept (rules_of session.now.engine) pos)
        session.now.kept (Query.Why pos) written (W.state writer.old) (W.state writer.new)) }
    ensures counted { IfOk result (λ n. n ≤ (W.state writer.new).passed) }
{
    match why_line(session, pos) {
        Ok(Some(line)) => write_bytes(writer, written, &line),
        Ok(None) => write_bytes(writer, written, &out_of_range()),
        Err(_) => Err(RunFault::Memory),
    }
}

// Returns the reply to `why`, or `None` past the last character.
fn why_line<S: ParagraphStore<Kept>>(
    session: &Session<S>,
    pos: usize,
) -> Result<Option<Vec<u8>>, AllocError>
    ensures ok { IfOk result (λ line. option_map (λ line. line.items) line
        ≡ option_map reasons_text (reasons_at (rules_of session.now.engine) session.now.kept pos)) }
    ensures memory { OnErr result (pos < length (text_of session.now.kept)) }
{
    match session.reasons(pos)? {
        Some(reasons) => Ok(Some(reasons_line(session.allocator(), &reasons)?)),
        None => Ok(None),
    }
}

/// Writes the reply to a query. `written` is the number of bytes already written, and the returned total
/// includes it. Allocates only if the query is for an edge, grapheme clusters, a word or reasons.
pub fn write_query<W: Sink, S: ParagraphStore<Kept>>(
    session: &Session<S>,
    writer: &mut W,
    written: u64,
    print: &Print,
    query: &Query,
) -> Result<u64, RunFault>
    requires { written ≤ (W.state writer.old).passed }
    ensures ok { IfOk result (PassedOn (query_text (rules_of session.now.engine) print.now
        session.now.width session.now.kept query.now) written
        (W.state writer.old) (W.state writer.new)) }
    ensures err { IfErr result (AnswersNot (query_text (rules_of session.now.engine) print.now
        session.now.width session.now.kept query.now) session.now.kept query.now written
        (W.state writer.old) (W.state writer.new)) }
    ensures counted { IfOk result (λ n. n ≤ (W.state writer.new).passed) }
{
    let answer = match *query {
        Query::Lines(first, count) => {
            return write_lines(session, writer, written, print, first, count);
        }
        Query::Text(pos, count) => return write_text(session, writer, written, pos, count),
        Query::Spans(n, start, end) => {
            return write_selection(session, writer, written, print, n, start, end);
        }
        Query::Runs(n) => return write_line_runs(session, writer, written, n),
        Query::Clusters(n) => return write_line_clusters(session, writer, written, n),
        Query::Why(pos) => return write_reasons(session, writer, written, pos),
        Query::Caret(pos) => caret_answer(session, print, pos),
        Query::Hit(n, column) => hit_answer(session, print, n, column),
        Query::Size => size_answer(session),
        Query::Byte(pos) => offset_answer(session.byte_of(pos)),
        Query::Utf16(pos) => offset_answer(session.utf16_of(pos)),
        Query::FromByte(byte) => position_answer(session.position_of_byte(byte)),
        Query::FromUtf16(unit) => position_answer(session.position_of_utf16(unit)),
        Query::Ends(n) => ends_answer(session, n),
        Query::Edge(pos, is_after) => match edge_caret_answer(session, print, pos, is_after) {
            Ok(answer) => answer,
            Err(_) => return Err(RunFault::Memory),
        },
        Query::Step(pos, is_after, is_right) => {
            match step_answer(session, edge_of(pos, is_after), direction_of(is_right)) {
                Ok(answer) => answer,
                Err(_) => return Err(RunFault::Memory),
            }
        }
        Query::At(n, column) => match at_answer(session, print, n, column) {
            Ok(answer) => answer,
            Err(_) => return Err(RunFault::Memory),
        },
        Query::Cluster(pos) => match cluster_answer(session, pos) {
            Ok(answer) => answer,
            Err(_) => return Err(RunFault::Memory),
        },
        Query::Word(pos) => match word_answer(session, pos) {
            Ok(answer) => answer,
            Err(_) => return Err(RunFault::Memory),
        },
    };
    write_bytes(writer, written, &answer)
}
