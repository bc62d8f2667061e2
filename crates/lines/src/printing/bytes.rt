//! Writes the bytes of a line to a sink as they are produced. Each function named `write_..` writes one part
//! of the line. `before` is the number of bytes already written, and the returned byte count includes it.
ghost use Rattle.std.specs.Prelude.{◌≡◌, [], ◌∷◌, ◌++◌, ◌≤◌, ◌&&◌, IfOk, IfErr, if◌then◌else◌};
ghost use Rattle.std.specs.Prelude.{◌+◌, ◌<◌, ℕ, take, codes};
ghost use Rattle.std.specs.Prelude.{length, map, replicate, encode_utf8_all, slice_index};
ghost use Rattle.ucd.specs.Within.{AreWithin};
ghost use Rattle.std.specs.List.{join_with_byte, slice_range};
ghost use Rattle.lines.specs.Bytes.{direction_line, numbers_line, padding, shown_chars, visual_line};
ghost use Rattle.lines.specs.Bytes.{expanded, ordered_chars};
ghost use Rattle.lines.specs.Cells.{AreCells};
ghost use Rattle.lines.specs.Tabs.{is_tab};
ghost use Rattle.lines.specs.Writing.{PassedOn, StoppedIn};

use crate::printing::print::Print;
use crate::visual_line::{VisualLine, columns_at};
use crate::widths::is_tab;
use device::{Sink, write_all};
use itoa::{Buffer, Integer};
use stream::{encode, encode_at};
use thiserror::Error;

/// A sink failed after `written` bytes.
#[derive(Clone, Copy, Debug, PartialEq, Eq, Error)]
#[error("cannot write after {written} bytes")]
pub struct WriteFault {
    pub written: u64,
}

// The spaces from which padding is written, at most 64 at a time.
static SPACES: [u8; 64] = [b' '; 64];

fn write_part<W: Sink>(writer: &mut W, before: u64, part: &[u8]) -> Result<u64, WriteFault>
    requires { before ≤ (W.state writer.old).passed }
    ensures ok { IfOk result (λ n.
        PassedOn part.now before (W.state writer.old) (W.state writer.new) n) }
    ensures err { IfErr result (λ fault.
        StoppedIn part.now before (W.state writer.old) (W.state writer.new) fault.written) }
    ensures counted { IfOk result (λ n. n ≤ (W.state writer.new).passed) }
{
    match write_all(writer, part) {
        Ok(()) => Ok(before + part.len() as u64),
        Err(written) => Err(WriteFault {
            written: before + written as u64,
        }),
    }
}

// The number of 4-byte characters that fit in the buffer for one write.
const CHARACTERS_AT_ONCE: usize = 64;

/// Writes characters as UTF-8. `before` is the number of bytes already written. The returned byte count
/// includes these bytes, as does the count in a `WriteFault`. Allocates nothing.
pub fn write_chars<W: Sink>(writer: &mut W, before: u64, chars: &[char]) -> Result<u64, WriteFault>
    requires { before ≤ (W.state writer.old).passed }
    ensures ok { IfOk result (λ n. PassedOn (encode_utf8_all chars.now) before
        (W.state writer.old) (W.state writer.new) n) }
    ensures err { IfErr result (λ fault. StoppedIn (encode_utf8_all chars.now) before
        (W.state writer.old) (W.state writer.new) fault.written) }
    ensures counted { IfOk result (λ n. n ≤ (W.state writer.new).passed) }
{
    if chars.is_empty() {
        return Ok(before);
    }
    let mut buffer = [0; 4 * CHARACTERS_AT_ONCE];
    let mut written = before;
    let mut at = 0;
    while at < chars.len() {
        let end = chars.len().min(at + CHARACTERS_AT_ONCE);
        let len = encode(&chars[at..end], &mut buffer);
        written = write_part(writer, written, &buffer[..len])?;
        at = end;
    }
    Ok(written)
}

// Writes a byte at an index of a buffer, and returns the next index.
fn put(buffer: &mut [u8], at: usize, byte: u8) -> usize
    requires { at < length buffer.old }
    ensures end { result ≡ at + 1 }
    ensures bytes { take result buffer.new ≡ take at buffer.old ++ byte ∷ [] }
{
    buffer[at] = byte;
    at + 1
}

// Writes the characters at the given indices of a text, in the order of the indices.
fn write_places<W: Sink>(
    writer: &mut W,
    before: u64,
    text: &[char],
    places: &[u32],
) -> Result<u64, WriteFault>
    requires before { before ≤ (W.state writer.old).passed }
    requires within { AreWithin (length text.now) places.now }
    ensures ok { IfOk result (λ n.
        PassedOn (encode_utf8_all (map (slice_index text.now) places.now)) before
        (W.state writer.old) (W.state writer.new) n) }
    ensures err { IfErr result (λ fault.
        StoppedIn (encode_utf8_all (map (slice_index text.now) places.now)) before
        (W.state writer.old) (W.state writer.new) fault.written) }
    ensures counted { IfOk result (λ n. n ≤ (W.state writer.new).passed) }
{
    let mut buffer = [0; 4 * CHARACTERS_AT_ONCE];
    let mut written = before;
    let mut at = 0;
    while at < places.len() {
        let (next, len) = encode_places(text, places, at, &mut buffer);
        written = write_part(writer, written, &buffer[..len])?;
        at = next;
    }
    Ok(written)
}

// Encodes the characters at the indices `places[from..]` into a buffer, from its front, as long as they fit.
// Returns the index of the first place not encoded, and the number of bytes written.
fn encode_places(text: &[char], places: &[u32], from: usize, buffer: &mut [u8]) -> (usize, usize)
    requires within { AreWithin (length text.now) places.now }
    requires some { (from < length places.now) × (4 ≤ length buffer.old) }
    ensures next { (from < result.0) × (result.0 ≤ length places.now) }
    ensures len { result.1 ≤ length buffer.old }
    ensures bytes { encode_utf8_all (take from (map (slice_index text.now) places.now))
        ++ take result.1 buffer.new
        ≡ encode_utf8_all (take result.0 (map (slice_index text.now) places.now)) }
{
    let mut next = from;
    let mut len = 0;
    while next < places.len() && len + 4 <= buffer.len() {
        let place = places[next] as usize;
        len = encode_at(text[place], buffer, len);
        next += 1;
    }
    (next, len)
}

fn write_spaces<W: Sink>(writer: &mut W, before: u64, count: usize) -> Result<u64, WriteFault>
    requires { before ≤ (W.state writer.old).passed }
    ensures ok { IfOk result (λ n.
        PassedOn (replicate count 32) before (W.state writer.old) (W.state writer.new) n) }
    ensures err { IfErr result (λ fault.
        StoppedIn (replicate count 32) before (W.state writer.old) (W.state writer.new) fault.written) }
    ensures counted { IfOk result (λ n. n ≤ (W.state writer.new).passed) }
{
    let mut written = before;
    let mut left = count;
    while left > 0 {
        let some = left.min(SPACES.len());
        written = write_part(writer, written, &SPACES[..some])?;
        left -= some;
    }
    Ok(written)
}

// The size of the buffer for formatted numbers, in bytes.
const ROW_BYTES_AT_ONCE: usize = 512;

// The maximum length of a formatted number in bytes, including the space before it.
const NUMBER_LEN: usize = 41;

// Writes a line of numbers. Not inlined, to keep the buffer off the stack when no numbers are written.
#[inline(never)]
fn write_row<W: Sink, I: Integer>(
    writer: &mut W,
    before: u64,
    numbers: &[I],
) -> Result<u64, WriteFault>
    requires { before ≤ (W.state writer.old).passed }
    ensures ok { IfOk result (λ n. PassedOn (join_with_byte 32 (map I.text numbers.now)) before
        (W.state writer.old) (W.state writer.new) n) }
    ensures err { IfErr result (λ fault.
        StoppedIn (join_with_byte 32 (map I.text numbers.now)) before
        (W.state writer.old) (W.state writer.new) fault.written) }
    ensures counted { IfOk result (λ n. n ≤ (W.state writer.new).passed) }
{
    let mut buffer = [0; ROW_BYTES_AT_ONCE];
    let mut written = before;
    let mut at = 0;
    while at < numbers.len() {
        let (next, len) = encode_row(numbers, at, &mut buffer);
        written = write_part(writer, written, &buffer[..len])?;
        at = next;
    }
    Ok(written)
}

// Formats `numbers[from..]` into a buffer, from its front, as long as they fit. Returns the index of the
// first number not formatted, and the number of bytes written.
fn encode_row<I: Integer>(numbers: &[I], from: usize, buffer: &mut [u8]) -> (usize, usize)
    requires { (from < length numbers.now) × (41 ≤ length buffer.old) }
    ensures next { (from < result.0) × (result.0 ≤ length numbers.now) }
    ensures len { result.1 ≤ length buffer.old }
    ensures bytes { join_with_byte 32 (take from (map I.text numbers.now)) ++ take result.1 buffer.new
        ≡ join_with_byte 32 (take result.0 (map I.text numbers.now)) }
{
    let mut next = from;
    let mut len = 0;
    while next < numbers.len() && len + NUMBER_LEN <= buffer.len() {
        len = encode_number(numbers[next], next == 0, buffer, len);
        next += 1;
    }
    (next, len)
}

// Formats a number at an index of a buffer, after a space unless it is the first number. Returns the index
// after the number.
fn encode_number<I: Integer>(number: I, is_first: bool, buffer: &mut [u8], at: usize) -> usize
    requires { at + 41 ≤ length buffer.old }
    ensures within { result ≤ at + 41 }
    ensures bytes { take result buffer.new
        ≡ take at buffer.old ++ ((if is_first then [] else 32 ∷ []) ++ I.text number) }
{
    let mut digits = Buffer::new();
    let start = if is_first { at } else { put(buffer, at, b' ') };
    put_few(buffer, start, digits.format(number).as_bytes())
}

// Copies bytes to an index of a buffer, and returns the index after them. Copies up to four bytes one by one,
// which is faster than a general copy.
fn put_few(buffer: &mut [u8], at: usize, bytes: &[u8]) -> usize
    requires { at + length bytes.now ≤ length buffer.old }
    ensures end { result ≡ at + length bytes.now }
    ensures bytes { take result buffer.new ≡ take at buffer.old ++ bytes.now }
{
    match bytes {
        [first] => put(buffer, at, *first),
        [first, second] => {
            let end = put(buffer, at, *first);
            put(buffer, end, *second)
        }
        [first, second, third] => {
            let end = put(buffer, at, *first);
            let end = put(buffer, end, *second);
            put(buffer, end, *third)
        }
        [first, second, third, fourth] => {
            let end = put(buffer, at, *first);
            let end = put(buffer, end, *second);
            let end = put(buffer, end, *third);
            put(buffer, end, *fourth)
        }
        more => put_all(buffer, at, more),
    }
}

// Copies bytes to an index of a buffer, and returns the index after them.
fn put_all(buffer: &mut [u8], at: usize, bytes: &[u8]) -> usize
    requires { at + length bytes.now ≤ length buffer.old }
    ensures end { result ≡ at + length bytes.now }
    ensures bytes { take result buffer.new ≡ take at buffer.old ++ bytes.now }
{
    let end = at + bytes.len();
    buffer[at..end].copy_from_slice(bytes);
    end
}

// Writes the padding of a line, its characters in visual order, and U+000A, unless `print.novisual` is set.
pub(crate) fn write_shown<W: Sink>(
    writer: &mut W,
    before: u64,
    line: &VisualLine<'_>,
    width: u32,
    print: &Print,
) -> Result<u64, WriteFault>
    requires { before ≤ (W.state writer.old).passed }
    ensures ok { IfOk result (λ n.
        PassedOn (if print.now.novisual then [] else visual_line width print.now line.now) before
        (W.state writer.old) (W.state writer.new) n) }
    ensures err { IfErr result (λ fault.
        StoppedIn (if print.now.novisual then [] else visual_line width print.now line.now) before
        (W.state writer.old) (W.state writer.new) fault.written) }
    ensures counted { IfOk result (λ n. n ≤ (W.state writer.new).passed) }
{
    if print.novisual {
        return Ok(before);
    }
    let padded = write_spaces(writer, before, padding_len(line, width, print))?;
    let shown = write_shown_chars(writer, padded, line, print)?;
    write_part(writer, shown, b"\n")
}

// Writes the characters of a line in visual order, mirrored unless `print.nomirror` is set.
fn write_shown_chars<W: Sink>(
    writer: &mut W,
    before: u64,
    line: &VisualLine<'_>,
    print: &Print,
) -> Result<u64, WriteFault>
    requires { before ≤ (W.state writer.old).passed }
    ensures ok { IfOk result (λ n.
        PassedOn (encode_utf8_all (shown_chars print.now line.now)) before
        (W.state writer.old) (W.state writer.new) n) }
    ensures err { IfErr result (λ fault.
        StoppedIn (encode_utf8_all (shown_chars print.now line.now)) before
        (W.state writer.old) (W.state writer.new) fault.written) }
    ensures counted { IfOk result (λ n. n ≤ (W.state writer.new).passed) }
{
    if line.tab_width == 0 || line.is_measured {
        let len = ordered_len(line, print);
        return write_between(writer, before, line, print, 0, len);
    }
    write_expanded(writer, before, line, print)
}

// Returns how many characters of a line are printed, if tabs are not replaced by spaces.
fn ordered_len(line: &VisualLine<'_>, print: &Print) -> usize
    ensures { result ≡ length (ordered_chars print.now line.now) }
{
    if print.nomirror {
        line.vtol.len()
    } else {
        line.chars.len()
    }
}

// Writes the characters from one visual position up to another, mirrored unless `print.nomirror` is set.
fn write_between<W: Sink>(
    writer: &mut W,
    before: u64,
    line: &VisualLine<'_>,
    print: &Print,
    start: usize,
    end: usize,
) -> Result<u64, WriteFault>
    requires before { before ≤ (W.state writer.old).passed }
    requires within { (start ≤ end) × (end ≤ length (ordered_chars print.now line.now)) }
    ensures ok { IfOk result (λ n.
        PassedOn (encode_utf8_all (slice_range (ordered_chars print.now line.now) start end)) before
        (W.state writer.old) (W.state writer.new) n) }
    ensures err { IfErr result (λ fault.
        StoppedIn (encode_utf8_all (slice_range (ordered_chars print.now line.now) start end)) before
        (W.state writer.old) (W.state writer.new) fault.written) }
    ensures counted { IfOk result (λ n. n ≤ (W.state writer.new).passed) }
{
    if print.nomirror {
        write_places(writer, before, line.text, &line.vtol[start..end])
    } else {
        write_chars(writer, before, &line.chars[start..end])
    }
}

// Writes the characters of a line in visual order, with spaces in place of tabs.
fn write_expanded<W: Sink>(
    writer: &mut W,
    before: u64,
    line: &VisualLine<'_>,
    print: &Print,
) -> Result<u64, WriteFault>
    requires { before ≤ (W.state writer.old).passed }
    ensures ok { IfOk result (λ n. PassedOn
        (encode_utf8_all (expanded line.now (ordered_chars print.now line.now) line.now.vtol)) before
        (W.state writer.old) (W.state writer.new) n) }
    ensures err { IfErr result (λ fault. StoppedIn
        (encode_utf8_all (expanded line.now (ordered_chars print.now line.now) line.now.vtol)) before
        (W.state writer.old) (W.state writer.new) fault.written) }
    ensures counted { IfOk result (λ n. n ≤ (W.state writer.new).passed) }
{
    let len = ordered_len(line, print).min(line.vtol.len());
    let mut written = before;
    let mut at = 0;
    while at < len {
        let end = cells_end(line, at, len);
        written = write_cells(writer, written, line, print, at, end)?;
        at = end;
    }
    Ok(written)
}

// Returns whether the character at a visual position is a tab.
fn is_tab_at(line: &VisualLine<'_>, place: usize) -> bool
    requires { place < length line.now.vtol }
    ensures { result ≡ is_tab line.now.tab_width
        (slice_index line.now.text (slice_index line.now.vtol place)) }
{
    is_tab(line.tab_width, line.text[line.vtol[place] as usize])
}

// Returns the visual position after `start` if there is a tab at `start`. Otherwise, returns the position of
// the next tab, or `len` if there is none.
fn cells_end(line: &VisualLine<'_>, start: usize, len: usize) -> usize
    requires within { (start < len) × (len ≤ length line.now.vtol) }
    ensures within { (start < result) × (result ≤ len) }
    ensures cells { AreCells line.now start result }
{
    let mut end = start + 1;
    if is_tab_at(line, start) {
        return end;
    }
    while end < len && !is_tab_at(line, end) {
        end += 1;
    }
    end
}

// Writes a single tab as spaces, or characters that contain no tab.
fn write_cells<W: Sink>(
    writer: &mut W,
    before: u64,
    line: &VisualLine<'_>,
    print: &Print,
    start: usize,
    end: usize,
) -> Result<u64, WriteFault>
    requires before { before ≤ (W.state writer.old).passed }
    requires within { (start < end) × (end ≤ length (ordered_chars print.now line.now)) }
    requires places { end ≤ length line.now.vtol }
    requires cells { AreCells line.now start end }
    ensures ok { IfOk result (λ n. PassedOn (encode_utf8_all (expanded line.now
        (slice_range (ordered_chars print.now line.now) start end)
        (slice_range line.now.vtol start end))) before
        (W.state writer.old) (W.state writer.new) n) }
    ensures err { IfErr result (λ fault. StoppedIn (encode_utf8_all (expanded line.now
        (slice_range (ordered_chars print.now line.now) start end)
        (slice_range line.now.vtol start end))) before
        (W.state writer.old) (W.state writer.new) fault.written) }
    ensures counted { IfOk result (λ n. n ≤ (W.state writer.new).passed) }
{
    if is_tab_at(line, start) {
        let width = columns_at(line.text, line.tab_width, line.known(), line.vtol, start);
        write_spaces(writer, before, width)
    } else {
        write_between(writer, before, line, print, start, end)
    }
}

// Returns the number of spaces that are printed to the left of a line.
fn padding_len(line: &VisualLine<'_>, width: u32, print: &Print) -> usize
    ensures { replicate result 32 ≡ padding width print.now line.now }
{
    if print.nopad || line.is_measured {
        0
    } else {
        line.padding(width) as usize
    }
}

// Writes the paragraph's base direction, if `line` is its first line and `print.basedir` is set.
pub(crate) fn write_direction<W: Sink>(
    writer: &mut W,
    before: u64,
    line: &VisualLine<'_>,
    print: &Print,
) -> Result<u64, WriteFault>
    requires { before ≤ (W.state writer.old).passed }
    ensures ok { IfOk result (λ n. PassedOn
        (if print.now.basedir && line.now.is_first then direction_line line.now.base else []) before
        (W.state writer.old) (W.state writer.new) n) }
    ensures err { IfErr result (λ fault. StoppedIn
        (if print.now.basedir && line.now.is_first then direction_line line.now.base else []) before
        (W.state writer.old) (W.state writer.new) fault.written) }
    ensures counted { IfOk result (λ n. n ≤ (W.state writer.new).passed) }
{
    write_base(writer, before, print.basedir && line.is_first, line.base)
}

// Writes `LTR` or `RTL` as a line, depending on the base level, if `asked` is true.
pub(crate) fn write_base<W: Sink>(
    writer: &mut W,
    before: u64,
    asked: bool,
    base: u8,
) -> Result<u64, WriteFault>
    requires { before ≤ (W.state writer.old).passed }
    ensures ok { IfOk result (λ n. PassedOn (if asked then direction_line base else []) before
        (W.state writer.old) (W.state writer.new) n) }
    ensures err { IfErr result (λ fault. StoppedIn (if asked then direction_line base else []) before
        (W.state writer.old) (W.state writer.new) fault.written) }
    ensures counted { IfOk result (λ n. n ≤ (W.state writer.new).passed) }
{
    if !asked {
        return Ok(before);
    }
    let direction = if base % 2 == 1 { b"RTL\n" } else { b"LTR\n" };
    write_part(writer, before, direction)
}

// Writes a line of numbers, if `asked` is true.
fn write_numbers<W: Sink, I: Integer>(
    writer: &mut W,
    before: u64,
    asked: bool,
    numbers: &[I],
) -> Result<u64, WriteFault>
    requires { before ≤ (W.state writer.old).passed }
    ensures ok { IfOk result (λ n. PassedOn
        (if asked then join_with_byte 32 (map I.text numbers.now) ++ codes "\n" else []) before
        (W.state writer.old) (W.state writer.new) n) }
    ensures err { IfErr result (λ fault. StoppedIn
        (if asked then join_with_byte 32 (map I.text numbers.now) ++ codes "\n" else []) before
        (W.state writer.old) (W.state writer.new) fault.written) }
    ensures counted { IfOk result (λ n. n ≤ (W.state writer.new).passed) }
{
    if !asked {
        return Ok(before);
    }
    let written = write_row(writer, before, numbers)?;
    write_part(writer, written, b"\n")
}

// Writes the visual position of each logical position as a line, if `print.ltov` is set.
pub(crate) fn write_ltov<W: Sink>(
    writer: &mut W,
    before: u64,
    line: &VisualLine<'_>,
    print: &Print,
) -> Result<u64, WriteFault>
    requires { before ≤ (W.state writer.old).passed }
    ensures ok { IfOk result (λ n.
        PassedOn (if print.now.ltov then numbers_line line.now.ltov else []) before
        (W.state writer.old) (W.state writer.new) n) }
    ensures err { IfErr result (λ fault.
        StoppedIn (if print.now.ltov then numbers_line line.now.ltov else []) before
        (W.state writer.old) (W.state writer.new) fault.written) }
    ensures counted { IfOk result (λ n. n ≤ (W.state writer.new).passed) }
{
    write_numbers(writer, before, print.ltov, line.ltov)
}

// Writes the logical position of each visual position as a line, if `print.vtol` is set.
pub(crate) fn write_vtol<W: Sink>(
    writer: &mut W,
    before: u64,
    line: &VisualLine<'_>,
    print: &Print,
) -> Result<u64, WriteFault>
    requires { before ≤ (W.state writer.old).passed }
    ensures ok { IfOk result (λ n.
        PassedOn (if print.now.vtol then numbers_line line.now.vtol else []) before
        (W.state writer.old) (W.state writer.new) n) }
    ensures err { IfErr result (λ fault.
        StoppedIn (if print.now.vtol then numbers_line line.now.vtol else []) before
        (W.state writer.old) (W.state writer.new) fault.written) }
    ensures counted { IfOk result (λ n. n ≤ (W.state writer.new).passed) }
{
    write_numbers(writer, before, print.vtol, line.vtol)
}

// Writes the level of each character as a line, if `print.levels` is set.
pub(crate) fn write_levels<W: Sink>(
    writer: &mut W,
    before: u64,
    line: &VisualLine<'_>,
    print: &Print,
) -> Result<u64, WriteFault>
    requires { before ≤ (W.state writer.old).passed }
    ensures ok { IfOk result (λ n.
        PassedOn (if print.now.levels then numbers_line line.now.levels else []) before
        (W.state writer.old) (W.state writer.new) n) }
    ensures err { IfErr result (λ fault.
        StoppedIn (if print.now.levels then numbers_line line.now.levels else []) before
        (W.state writer.old) (W.state writer.new) fault.written) }
    ensures counted { IfOk result (λ n. n ≤ (W.state writer.new).passed) }
{
    write_numbers(writer, before, print.levels, line.levels)
}
