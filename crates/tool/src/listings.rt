//! Replies that list parts of a line: the number of parts, followed by the numbers that describe each part.
ghost use Rattle.std.specs.Prelude.{◌≡◌, ◌^◌, ◌∷◌, [], ◌<◌, ◌≤◌, length, IfOk, IfErr};
ghost use Rattle.std.specs.List.{flat_map};
ghost use Rattle.lines.specs.Spans.{spans_of};
ghost use Rattle.lines.specs.Writing.{PassedOn};
ghost use Rattle.reorder.specs.Runs.{runs_of};
ghost use Rattle.tool.specs.Queries.{listed, run_numbers, span_numbers, list_answer};
ghost use Rattle.tool.specs.Reading.{Stops};

use crate::answers::{count_answer, listed, write_bytes};
use device::Sink;
use lines::VisualLine;
use text_run::RunFault;

/// Writes a reply that lists the columns of each span of a range, counted from the left edge of the screen.
/// The shown part of the line starts at column `left`. The positions of the range are counted from the start
/// of the line. `written` is the number of bytes already written.
pub fn write_spans<W: Sink>(
    writer: &mut W,
    written: u64,
    left: usize,
    line: &VisualLine<'_>,
    start: usize,
    end: usize,
) -> Result<u64, RunFault>
    requires written { written ≤ (W.state writer.old).passed }
    requires left { left < 2 ^ 32 }
    ensures ok { IfOk result (PassedOn (list_answer (span_numbers left) (spans_of line.now start end))
        written (W.state writer.old) (W.state writer.new)) }
    ensures err { IfErr result (Stops (list_answer (span_numbers left) (spans_of line.now start end))
        written (W.state writer.old) (W.state writer.new)) }
    ensures counted { IfOk result (λ n. n ≤ (W.state writer.new).passed) }
{
    let total = write_bytes(writer, written, &count_answer(span_count(line, start, end)))?;
    let all = write_each_span(writer, total, left, line, start, end)?;
    write_bytes(writer, all, b"\n")
}

// Returns how many spans a range covers in a line.
fn span_count(line: &VisualLine<'_>, start: usize, end: usize) -> usize
    ensures { result ≡ length (spans_of line.now start end) }
{
    // There are at most as many spans as columns, whose number is bounded by the contract of `columns_left`.
    // So `count` does not overflow.
    let _columns = line.columns_left(line.vtol().len());
    let mut count = 0;
    for _span in line.spans(start, end) {
        count += 1;
    }
    count
}

fn write_each_span<W: Sink>(
    writer: &mut W,
    before: u64,
    left: usize,
    line: &VisualLine<'_>,
    start: usize,
    end: usize,
) -> Result<u64, RunFault>
    requires written { before ≤ (W.state writer.old).passed }
    requires left { left < 2 ^ 32 }
    ensures ok { IfOk result (PassedOn
        (flat_map (λ span. listed (span_numbers left span)) (spans_of line.now start end))
        before (W.state writer.old) (W.state writer.new)) }
    ensures err { IfErr result (Stops
        (flat_map (λ span. listed (span_numbers left span)) (spans_of line.now start end))
        before (W.state writer.old) (W.state writer.new)) }
    ensures counted { IfOk result (λ n. n ≤ (W.state writer.new).passed) }
{
    // The contract of `columns_left` bounds the columns of the spans.
    let _columns = line.columns_left(line.vtol().len());
    let mut written = before;
    for span in line.spans(start, end) {
        let numbers = listed(&[left + span.left, left + span.right]);
        written = write_bytes(writer, written, &numbers)?;
    }
    Ok(written)
}

/// Writes a reply that lists the level runs of a line. `written` is the number of bytes already written.
pub fn write_runs<W: Sink>(
    writer: &mut W,
    written: u64,
    line: &VisualLine<'_>,
) -> Result<u64, RunFault>
    requires { written ≤ (W.state writer.old).passed }
    ensures ok { IfOk result (PassedOn (list_answer run_numbers (runs_of line.now.levels)) written
        (W.state writer.old) (W.state writer.new)) }
    ensures err { IfErr result (Stops (list_answer run_numbers (runs_of line.now.levels)) written
        (W.state writer.old) (W.state writer.new)) }
    ensures counted { IfOk result (λ n. n ≤ (W.state writer.new).passed) }
{
    let total = write_bytes(writer, written, &count_answer(run_count(line)))?;
    let all = write_each_run(writer, total, line)?;
    write_bytes(writer, all, b"\n")
}

// Returns the number of characters of a line's shown part.
fn shown_len(line: &VisualLine<'_>) -> usize
    ensures value { result ≡ length line.now.levels }
    ensures fits { result < 2 ^ 64 }
{
    line.levels().len()
}

// Returns the number of level runs of a line.
fn run_count(line: &VisualLine<'_>) -> usize
    ensures { result ≡ length (runs_of line.now.levels) }
{
    // A line has no more runs than characters, and `shown_len` is less than 2^64. So `count` does not
    // overflow.
    let _chars = shown_len(line);
    let mut count = 0;
    for _run in line.runs() {
        count += 1;
    }
    count
}

fn write_each_run<W: Sink>(
    writer: &mut W,
    before: u64,
    line: &VisualLine<'_>,
) -> Result<u64, RunFault>
    requires { before ≤ (W.state writer.old).passed }
    ensures ok { IfOk result (PassedOn
        (flat_map (λ run. listed (run_numbers run)) (runs_of line.now.levels)) before
        (W.state writer.old) (W.state writer.new)) }
    ensures err { IfErr result (Stops
        (flat_map (λ run. listed (run_numbers run)) (runs_of line.now.levels)) before
        (W.state writer.old) (W.state writer.new)) }
    ensures counted { IfOk result (λ n. n ≤ (W.state writer.new).passed) }
{
    let mut written = before;
    for run in line.runs() {
        let numbers = listed(&[run.start, run.len, run.level as usize]);
        written = write_bytes(writer, written, &numbers)?;
    }
    Ok(written)
}

/// Writes a reply that lists the ends of a line's grapheme clusters. `written` is the number of bytes already
/// written.
pub fn write_ends<W: Sink>(writer: &mut W, written: u64, ends: &[usize]) -> Result<u64, RunFault>
    requires { written ≤ (W.state writer.old).passed }
    ensures ok { IfOk result (PassedOn (list_answer (λ end. end ∷ []) ends.now) written
        (W.state writer.old) (W.state writer.new)) }
    ensures err { IfErr result (Stops (list_answer (λ end. end ∷ []) ends.now) written
        (W.state writer.old) (W.state writer.new)) }
    ensures counted { IfOk result (λ n. n ≤ (W.state writer.new).passed) }
{
    let total = write_bytes(writer, written, &count_answer(ends.len()))?;
    let all = write_each_end(writer, total, ends)?;
    write_bytes(writer, all, b"\n")
}

fn write_each_end<W: Sink>(writer: &mut W, before: u64, ends: &[usize]) -> Result<u64, RunFault>
    requires { before ≤ (W.state writer.old).passed }
    ensures ok { IfOk result (PassedOn (flat_map (λ end. listed (end ∷ [])) ends.now) before
        (W.state writer.old) (W.state writer.new)) }
    ensures err { IfErr result (Stops (flat_map (λ end. listed (end ∷ [])) ends.now) before
        (W.state writer.old) (W.state writer.new)) }
    ensures counted { IfOk result (λ n. n ≤ (W.state writer.new).passed) }
{
    let mut written = before;
    for end in ends {
        written = write_bytes(writer, written, &listed(&[*end]))?;
    }
    Ok(written)
}
