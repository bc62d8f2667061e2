//! Writes lines of a store to a sink.
ghost use Rattle.std.specs.Prelude.{◌≡◌, ◌+◌, ◌≤◌, drop, length, take, IfOk, IfErr};
ghost use Rattle.std.specs.List.{flat_map};
ghost use Rattle.lines.specs.Bytes.{line_bytes};
ghost use Rattle.lines.specs.Layouts.{visuals};
ghost use Rattle.lines.specs.Writing.{PassedOn, StoppedIn};
ghost use Rattle.session.specs.Kept.{lines_in};

use crate::kept::Kept;
use device::Sink;
use lines::{Laid, Print, WriteFault};
use store::{Measured, ParagraphStore};
use thiserror::Error;

/// Why writing a range of lines or characters failed.
#[derive(Clone, Copy, Debug, PartialEq, Eq, Error)]
pub enum RangeFault {
    /// The range reaches past the end, and nothing was written.
    #[error("out of range")]
    OutOfRange,
    /// The sink failed.
    #[error("{0}")]
    Write(WriteFault),
}

// Writes `count` lines of a paragraph, starting at line `from`. `before` is the number of bytes already
// written, and the returned byte count includes it.
fn write_in_paragraph<W: Sink>(
    laid: &Laid,
    from: usize,
    count: usize,
    writer: &mut W,
    before: u64,
    width: u32,
    print: &Print,
) -> Result<u64, WriteFault>
    requires within { from + count ≤ length laid.now.lines }
    requires before { before ≤ (W.state writer.old).passed }
    ensures ok { IfOk result (λ n.
        PassedOn (flat_map (line_bytes width print.now) (take count (drop from (visuals laid.now)))) before
        (W.state writer.old) (W.state writer.new) n) }
    ensures err { IfErr result (λ fault.
        StoppedIn (flat_map (line_bytes width print.now) (take count (drop from (visuals laid.now)))) before
        (W.state writer.old) (W.state writer.new) fault.written) }
    ensures counted { IfOk result (λ n. n ≤ (W.state writer.new).passed) }
{
    // The contract of `line_count` bounds the number of lines.
    let _lines = laid.line_count();
    let mut written = before;
    for n in 0..count {
        let Some(line) = laid.line(from + n) else {
            unreachable!()
        };
        written = line.write_after(writer, written, width, print)?;
    }
    Ok(written)
}

/// Writes `count` lines, starting at line `first`. `before` is the number of bytes already written, and the
/// returned byte count includes it. Stops at the first failed write. Searches the store only for the
/// paragraph of the first line.
pub fn write_lines<S: ParagraphStore<Kept>, W: Sink>(
    store: &S,
    first: usize,
    count: usize,
    writer: &mut W,
    before: u64,
    width: u32,
    print: &Print,
) -> Result<u64, WriteFault>
    requires within { first + count ≤ length (lines_in (S.items store.now)) }
    requires before { before ≤ (W.state writer.old).passed }
    ensures ok { IfOk result (λ n. PassedOn (flat_map (line_bytes width print.now)
        (take count (drop first (lines_in (S.items store.now))))) before
        (W.state writer.old) (W.state writer.new) n) }
    ensures err { IfErr result (λ fault. StoppedIn (flat_map (line_bytes width print.now)
        (take count (drop first (lines_in (S.items store.now))))) before
        (W.state writer.old) (W.state writer.new) fault.written) }
    ensures counted { IfOk result (λ n. n ≤ (W.state writer.new).passed) }
{
    if count == 0 {
        return Ok(before);
    }
    let found = store.find_line(first);
    let (mut from, mut left, mut written) = (found.rest, count, before);
    for index in found.index..store.count() {
        if left == 0 {
            return Ok(written);
        }
        let Some(kept) = store.get(index) else {
            unreachable!()
        };
        let part = left.min(kept.lines() - from);
        written = write_in_paragraph(kept.laid(), from, part, writer, written, width, print)?;
        left -= part;
        from = 0;
    }
    Ok(written)
}
