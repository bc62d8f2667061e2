//! Functions that store lines, paragraphs and text of a session, and convert positions to offsets and back.
ghost use Rattle.std.specs.Prelude.{◌≡◌, ◌+◌, ◌≤◌, length, option_map, slice_get, IfErr, IfOk};
ghost use Rattle.std.specs.List.{slice_range};
ghost use Rattle.session.specs.Kept.{lines_in};
ghost use Rattle.session.specs.Places.{first_line_at, line_starts, paragraph_starts};
ghost use Rattle.session.specs.Printing.{lines_page};
ghost use Rattle.session.specs.Reading.{utf8_len, utf8_part};
ghost use Rattle.session.specs.Sessions.{text_at};
ghost use Rattle.session.specs.declared.offsets.Encoding.TheVariants.{Utf16, Utf8};
ghost use Rattle.hordguli_c.specs.Calls.{Asks, AsksBy, Gives};
ghost use Rattle.hordguli_c.specs.Lines.{line_fits, line_out, PutsLine, ShowsLine};
ghost use Rattle.hordguli_c.specs.Lines.{paragraph_out, PutsParagraph, ShowsParagraph};
ghost use Rattle.hordguli_c.specs.Lines.{position_out, GivesOffset, GivesPosition, GivesRuns};
ghost use Rattle.hordguli_c.specs.Lines.{PutsCharacters, PutsLines, PutsText, RangeNot};
ghost use Rattle.hordguli_c.specs.Options.{print_of};
ghost use Rattle.hordguli_c.specs.Statuses.{Returns};

use crate::arrays::{
    has_room, put_bytes, put_characters_if, put_columns_if, put_each_character, put_levels_if,
    put_marks_if, put_places_if,
};
use crate::calls::with_object;
use crate::flags::flag;
use crate::options::{has_bit, print_of};
use crate::runs::{RunOut, put_runs};
use crate::session_handle::{SessionHandle, SessionObject};
use crate::status::{Status, number_of};
use lines::{Laid, Print, VisualLine};
use session::RangeFault;
use std::alloc::Global;
use stream::Page;

fn find_start(session: &SessionObject, line: usize, start: &mut usize) -> Status
    ensures { Gives (slice_get (line_starts session.now.kept) line) result start.old start.new }
{
    match session.line_start(line) {
        Some(found) => {
            *start = found;
            Status::Ok
        }
        None => Status::OutOfRange,
    }
}

/// Stores the position of the first character of a line.
#[unsafe(no_mangle)]
pub extern "C" fn hordguli_core_line_start(
    alloc: Global,
    session: &mut SessionHandle,
    line: usize,
    start: &mut usize,
) -> u32
    ensures unchanged { session.new.held ≡ session.old.held }
    ensures start { Returns (λ status.
        Asks (λ status state. Gives (slice_get (line_starts state.kept) line) status) status
        session.old.held start.old start.new) result }
{
    with_object!(session, alloc, object, find_start(&object, line, start))
}

/// Information about a line (`hordguli_line_info` in C).
#[repr(C)]
#[derive(Clone, Copy)]
pub struct LineOut {
    pub start: usize,
    pub length: usize,
    pub shown: usize,
    pub columns: usize,
    pub padding: usize,
    pub base: u32,
    pub first: u32,
}

fn line_out(line: &VisualLine<'_>, width: u32, start: usize) -> LineOut
    ensures { result ≡ line_out width start line.now }
{
    LineOut {
        start,
        length: line.len(),
        shown: line.vtol().len(),
        columns: line.columns() as usize,
        padding: line.padding(width) as usize,
        base: u32::from(line.base()),
        first: flag(line.is_first()),
    }
}

// Returns whether the line's elements fit in all arrays that `wanted` selects.
fn line_fits(
    line: &VisualLine<'_>,
    wanted: u32,
    characters: &[u32],
    levels: &[u8],
    ltov: &[u32],
    vtol: &[u32],
    columns: &[usize],
) -> bool
    ensures { result ≡ line_fits wanted line.now (record {
      characters = characters.now;
      levels = levels.now;
      ltov = ltov.now;
      vtol = vtol.now;
      columns = columns.now;
    }) }
{
    has_room(has_bit(wanted, 1), line.chars().len(), characters.len())
        && has_room(has_bit(wanted, 2), line.levels().len(), levels.len())
        && has_room(has_bit(wanted, 4), line.ltov().len(), ltov.len())
        && has_room(has_bit(wanted, 8), line.vtol().len(), vtol.len())
        && has_room(has_bit(wanted, 16), line.vtol().len(), columns.len())
}

fn put_line(
    line: &VisualLine<'_>,
    wanted: u32,
    characters: &mut [u32],
    levels: &mut [u8],
    ltov: &mut [u32],
    vtol: &mut [u32],
    columns: &mut [usize],
) -> Status
    ensures { PutsLine wanted line.now result (record {
      characters = characters.old;
      levels = levels.old;
      ltov = ltov.old;
      vtol = vtol.old;
      columns = columns.old;
    }) (record {
      characters = characters.new;
      levels = levels.new;
      ltov = ltov.new;
      vtol = vtol.new;
      columns = columns.new;
    }) }
{
    if !line_fits(line, wanted, characters, levels, ltov, vtol, columns) {
        return Status::NoRoom;
    }
    put_characters_if(has_bit(wanted, 1), line.chars(), characters);
    put_levels_if(has_bit(wanted, 2), line.levels(), levels);
    put_places_if(has_bit(wanted, 4), line.ltov(), ltov);
    put_places_if(has_bit(wanted, 8), line.vtol(), vtol);
    put_columns_if(has_bit(wanted, 16), line, columns);
    Status::Ok
}

fn show_line(
    session: &SessionObject,
    n: usize,
    out: &mut LineOut,
    wanted: u32,
    characters: &mut [u32],
    levels: &mut [u8],
    ltov: &mut [u32],
    vtol: &mut [u32],
    columns: &mut [usize],
) -> Status
    ensures { ShowsLine wanted session.now.width (slice_get (line_starts session.now.kept) n)
        (slice_get (lines_in session.now.kept) n) result (
          out.old,
          record {
            characters = characters.old;
            levels = levels.old;
            ltov = ltov.old;
            vtol = vtol.old;
            columns = columns.old;
          },
        ) (
          out.new,
          record {
            characters = characters.new;
            levels = levels.new;
            ltov = ltov.new;
            vtol = vtol.new;
            columns = columns.new;
          },
        ) }
{
    let Some(start) = session.line_start(n) else {
        return Status::OutOfRange;
    };
    let Some(line) = session.line(n) else {
        return Status::OutOfRange;
    };
    *out = line_out(&line, session.measured_width(), start);
    put_line(&line, wanted, characters, levels, ltov, vtol, columns)
}

/// Stores information about a line, and writes the arrays that `wanted` selects.
#[unsafe(no_mangle)]
pub extern "C" fn hordguli_core_line(
    alloc: Global,
    session: &mut SessionHandle,
    n: usize,
    out: &mut LineOut,
    wanted: u32,
    characters: &mut [u32],
    levels: &mut [u8],
    ltov: &mut [u32],
    vtol: &mut [u32],
    columns: &mut [usize],
) -> u32
    ensures unchanged { session.new.held ≡ session.old.held }
    ensures line { Returns (λ status.
        Asks (λ status state. ShowsLine wanted state.width (slice_get (line_starts state.kept) n)
        (slice_get (lines_in state.kept) n) status) status session.old.held (
          out.old,
          record {
            characters = characters.old;
            levels = levels.old;
            ltov = ltov.old;
            vtol = vtol.old;
            columns = columns.old;
          },
        ) (
          out.new,
          record {
            characters = characters.new;
            levels = levels.new;
            ltov = ltov.new;
            vtol = vtol.new;
            columns = columns.new;
          },
        )) result }
{
    with_object!(
        session,
        alloc,
        object,
        show_line(
            &object, n, out, wanted, characters, levels, ltov, vtol, columns
        )
    )
}

fn find_runs(session: &SessionObject, n: usize, array: &mut [RunOut], count: &mut usize) -> Status
    ensures { GivesRuns n result session.now (array.old, count.old) (array.new, count.new) }
{
    match session.line(n) {
        Some(line) => put_runs(line.levels(), array, count),
        None => Status::OutOfRange,
    }
}

/// Stores the directional runs of a line, from left to right.
#[unsafe(no_mangle)]
pub extern "C" fn hordguli_core_runs(
    alloc: Global,
    session: &mut SessionHandle,
    n: usize,
    array: &mut [RunOut],
    count: &mut usize,
) -> u32
    ensures unchanged { session.new.held ≡ session.old.held }
    ensures runs { Returns (λ status. Asks (GivesRuns n) status session.old.held
        (array.old, count.old) (array.new, count.new)) result }
{
    with_object!(session, alloc, object, find_runs(&object, n, array, count))
}

// The maximum number of bytes reserved for output before its size is known.
const FIRST_ROOM: usize = 1_024;

// Returns the printed bytes of lines. `len` is the capacity of the caller's array, and limits how many bytes
// are reserved in advance.
fn printed(
    alloc: Global,
    session: &SessionObject,
    first: usize,
    count: usize,
    print: &Print,
    len: usize,
) -> Result<Page, RangeFault>
    ensures within { IfOk result (λ page. first + count ≤ length (lines_in session.now.kept)) }
    ensures ok { IfOk result (λ page. page.bytes.items ≡ lines_page session.now first count print.now) }
    ensures err { IfErr result (RangeNot (length (lines_in session.now.kept)) first count
        (lines_page session.now first count print.now)) }
{
    let mut page = Page::with_room(alloc, len.min(FIRST_ROOM));
    match session.print_lines(&mut page, first, count, print) {
        Ok(()) => Ok(page),
        Err(fault) => Err(fault),
    }
}

fn put_lines(
    alloc: Global,
    session: &SessionObject,
    first: usize,
    count: usize,
    print: &Print,
    array: &mut [u8],
    len: &mut usize,
) -> Status
    ensures { PutsLines first count print.now result session.now (array.old, len.old) (array.new, len.new) }
{
    match printed(alloc, session, first, count, print, array.len()) {
        Ok(page) => put_bytes(&page.bytes, array, len),
        Err(RangeFault::OutOfRange) => Status::OutOfRange,
        Err(RangeFault::Write(_)) => Status::NoMemory,
    }
}

/// Copies the printed bytes of lines to an array if they fit. Stores the number of bytes in either case.
#[unsafe(no_mangle)]
pub extern "C" fn hordguli_core_lines_utf8(
    alloc: Global,
    session: &mut SessionHandle,
    first: usize,
    count: usize,
    print: u32,
    array: &mut [u8],
    len: &mut usize,
) -> u32
    ensures unchanged { session.new.held ≡ session.old.held }
    ensures lines { Returns (λ status. AsksBy (PutsLines first count) (print_of print) status session.old.held
        (array.old, len.old) (array.new, len.new)) result }
{
    let Some(print) = print_of(print) else {
        return number_of(Status::UnknownOption);
    };
    with_object!(
        session,
        alloc,
        object,
        put_lines(alloc, &object, first, count, &print, array, len)
    )
}

// Returns characters as UTF-8. `len` is the capacity of the caller's array, and limits how many bytes are
// reserved in advance.
fn encoded(
    alloc: Global,
    session: &SessionObject,
    pos: usize,
    count: usize,
    len: usize,
) -> Result<Page, RangeFault>
    ensures within { IfOk result (λ page. pos + count ≤ length (text_at session.now)) }
    ensures ok { IfOk result (λ page. page.bytes.items ≡ utf8_part session.now.kept pos count) }
    ensures err { IfErr result (RangeNot (length (text_at session.now)) pos count
        (utf8_part session.now.kept pos count)) }
{
    let mut page = Page::with_room(alloc, len.min(FIRST_ROOM));
    match session.write_text(&mut page, pos, count) {
        Ok(()) => Ok(page),
        Err(fault) => Err(fault),
    }
}

fn put_text(
    alloc: Global,
    session: &SessionObject,
    pos: usize,
    count: usize,
    array: &mut [u8],
    len: &mut usize,
) -> Status
    ensures { PutsText pos count result session.now (array.old, len.old) (array.new, len.new) }
{
    match encoded(alloc, session, pos, count, array.len()) {
        Ok(page) => put_bytes(&page.bytes, array, len),
        Err(RangeFault::OutOfRange) => Status::OutOfRange,
        Err(RangeFault::Write(_)) => Status::NoMemory,
    }
}

/// Copies a range of characters as UTF-8 to an array if they fit. Stores the number of bytes in either case.
#[unsafe(no_mangle)]
pub extern "C" fn hordguli_core_text(
    alloc: Global,
    session: &mut SessionHandle,
    pos: usize,
    count: usize,
    array: &mut [u8],
    len: &mut usize,
) -> u32
    ensures unchanged { session.new.held ≡ session.old.held }
    ensures text { Returns (λ status. Asks (PutsText pos count) status session.old.held
        (array.old, len.old) (array.new, len.new)) result }
{
    with_object!(
        session,
        alloc,
        object,
        put_text(alloc, &object, pos, count, array, len)
    )
}

// Fills an array with the characters from a position on.
fn put_each_part(session: &SessionObject, pos: usize, array: &mut [u32])
    requires { pos + length array.old ≤ length (text_at session.now) }
    ensures { array.new ≡ slice_range (text_at session.now) pos (pos + length array.old) }
{
    // The contract of `char_count` bounds the number of characters.
    let _chars = session.char_count();
    let mut done = 0;
    while done < array.len() {
        let Some(part) = session.text(pos + done, array.len() - done) else {
            unreachable!()
        };
        put_each_character(part, &mut array[done..done + part.len()]);
        done += part.len();
    }
}

fn put_text_utf32(
    session: &SessionObject,
    pos: usize,
    count: usize,
    array: &mut [u32],
    len: &mut usize,
) -> Status
    ensures { PutsCharacters pos count result session.now (array.old, len.old) (array.new, len.new) }
{
    let chars = session.char_count();
    if pos > chars || count > chars - pos {
        return Status::OutOfRange;
    }
    *len = count;
    if array.len() < count {
        return Status::NoRoom;
    }
    put_each_part(session, pos, &mut array[..count]);
    Status::Ok
}

/// Copies a range of characters to an array if they fit, and stores their number in either case.
#[unsafe(no_mangle)]
pub extern "C" fn hordguli_core_text_utf32(
    alloc: Global,
    session: &mut SessionHandle,
    pos: usize,
    count: usize,
    array: &mut [u32],
    len: &mut usize,
) -> u32
    ensures unchanged { session.new.held ≡ session.old.held }
    ensures text { Returns (λ status. Asks (PutsCharacters pos count) status session.old.held
        (array.old, len.old) (array.new, len.new)) result }
{
    with_object!(
        session,
        alloc,
        object,
        put_text_utf32(&object, pos, count, array, len)
    )
}

fn find_utf8_len(session: &SessionObject, pos: usize, count: usize, len: &mut usize) -> Status
    ensures { Gives (utf8_len session.now.kept pos count) result len.old len.new }
{
    match session.utf8_len(pos, count) {
        Some(found) => {
            *len = found;
            Status::Ok
        }
        None => Status::OutOfRange,
    }
}

/// Stores how many bytes a range of characters has in UTF-8.
#[unsafe(no_mangle)]
pub extern "C" fn hordguli_core_utf8_length(
    alloc: Global,
    session: &mut SessionHandle,
    pos: usize,
    count: usize,
    len: &mut usize,
) -> u32
    ensures unchanged { session.new.held ≡ session.old.held }
    ensures len { Returns (λ status. Asks (λ status state. Gives (utf8_len state.kept pos count) status)
        status session.old.held len.old len.new) result }
{
    with_object!(
        session,
        alloc,
        object,
        find_utf8_len(&object, pos, count, len)
    )
}

/// A position, and an offset within the character at that position (`hordguli_position` in C).
#[repr(C)]
#[derive(Clone, Copy)]
pub struct PositionOut {
    pub pos: usize,
    pub rest: usize,
}

fn put_offset(found: Option<usize>, offset: &mut usize) -> Status
    ensures { Gives found result offset.old offset.new }
{
    match found {
        Some(found) => {
            *offset = found;
            Status::Ok
        }
        None => Status::OutOfRange,
    }
}

fn put_position(found: Option<(usize, usize)>, position: &mut PositionOut) -> Status
    ensures { Gives (option_map position_out found) result position.old position.new }
{
    match found {
        Some((pos, rest)) => {
            *position = PositionOut { pos, rest };
            Status::Ok
        }
        None => Status::OutOfRange,
    }
}

/// Stores the number of UTF-8 bytes before a position.
#[unsafe(no_mangle)]
pub extern "C" fn hordguli_core_byte_of(
    alloc: Global,
    session: &mut SessionHandle,
    pos: usize,
    byte: &mut usize,
) -> u32
    ensures unchanged { session.new.held ≡ session.old.held }
    ensures byte { Returns (λ status. Asks (GivesOffset Utf8 pos) status session.old.held
        byte.old byte.new) result }
{
    with_object!(
        session,
        alloc,
        object,
        put_offset(object.byte_of(pos), byte)
    )
}

/// Stores the number of UTF-16 code units before a position.
#[unsafe(no_mangle)]
pub extern "C" fn hordguli_core_utf16_of(
    alloc: Global,
    session: &mut SessionHandle,
    pos: usize,
    unit: &mut usize,
) -> u32
    ensures unchanged { session.new.held ≡ session.old.held }
    ensures unit { Returns (λ status. Asks (GivesOffset Utf16 pos) status session.old.held
        unit.old unit.new) result }
{
    with_object!(
        session,
        alloc,
        object,
        put_offset(object.utf16_of(pos), unit)
    )
}

/// Stores the position of the character that contains a UTF-8 byte, and the index of the byte within that
/// character.
#[unsafe(no_mangle)]
pub extern "C" fn hordguli_core_position_of_byte(
    alloc: Global,
    session: &mut SessionHandle,
    byte: usize,
    position: &mut PositionOut,
) -> u32
    ensures unchanged { session.new.held ≡ session.old.held }
    ensures position { Returns (λ status. Asks (GivesPosition Utf8 byte) status session.old.held
        position.old position.new) result }
{
    with_object!(
        session,
        alloc,
        object,
        put_position(object.position_of_byte(byte), position)
    )
}

/// Stores the position of the character that contains a UTF-16 code unit, and the index of the unit within
/// that character.
#[unsafe(no_mangle)]
pub extern "C" fn hordguli_core_position_of_utf16(
    alloc: Global,
    session: &mut SessionHandle,
    unit: usize,
    position: &mut PositionOut,
) -> u32
    ensures unchanged { session.new.held ≡ session.old.held }
    ensures position { Returns (λ status. Asks (GivesPosition Utf16 unit) status session.old.held
        position.old position.new) result }
{
    with_object!(
        session,
        alloc,
        object,
        put_position(object.position_of_utf16(unit), position)
    )
}

/// Information about a paragraph (`hordguli_paragraph_info` in C).
#[repr(C)]
#[derive(Clone, Copy)]
pub struct ParagraphOut {
    pub length: usize,
    pub lines: usize,
    pub base: u32,
    pub zero: u32,
    pub start: usize,
    pub first_line: usize,
}

fn paragraph_out(laid: &Laid, start: usize, first_line: usize) -> ParagraphOut
    ensures { result ≡ paragraph_out start first_line laid.now }
{
    ParagraphOut {
        length: laid.text().len(),
        lines: laid.line_count(),
        base: u32::from(laid.base()),
        zero: 0,
        start,
        first_line,
    }
}

fn put_paragraph(laid: &Laid, wanted: u32, levels: &mut [u8], marks: &mut [u8]) -> Status
    ensures { PutsParagraph wanted laid.now result
        (record { levels = levels.old; marks = marks.old })
        (record { levels = levels.new; marks = marks.new }) }
{
    let (wants_levels, wants_marks) = (has_bit(wanted, 1), has_bit(wanted, 2));
    if !has_room(wants_levels, laid.levels().len(), levels.len()) {
        return Status::NoRoom;
    }
    if !has_room(wants_marks, laid.marks().len(), marks.len()) {
        return Status::NoRoom;
    }
    put_levels_if(wants_levels, laid.levels(), levels);
    put_marks_if(wants_marks, laid.marks(), marks);
    Status::Ok
}

fn show_paragraph(
    session: &SessionObject,
    index: usize,
    out: &mut ParagraphOut,
    wanted: u32,
    levels: &mut [u8],
    marks: &mut [u8],
) -> Status
    ensures { ShowsParagraph wanted (slice_get (paragraph_starts session.now.kept) index)
        (first_line_at session.now.kept index) (slice_get session.now.kept index) result
        (out.old, record { levels = levels.old; marks = marks.old })
        (out.new, record { levels = levels.new; marks = marks.new }) }
{
    let Some(start) = session.paragraph_start(index) else {
        return Status::OutOfRange;
    };
    let Some(first_line) = session.paragraph_first_line(index) else {
        return Status::OutOfRange;
    };
    let Some(laid) = session.paragraph(index) else {
        return Status::OutOfRange;
    };
    *out = paragraph_out(laid, start, first_line);
    put_paragraph(laid, wanted, levels, marks)
}

/// Stores information about a paragraph, and writes the arrays that `wanted` selects.
#[unsafe(no_mangle)]
pub extern "C" fn hordguli_core_paragraph(
    alloc: Global,
    session: &mut SessionHandle,
    index: usize,
    out: &mut ParagraphOut,
    wanted: u32,
    levels: &mut [u8],
    marks: &mut [u8],
) -> u32
    ensures unchanged { session.new.held ≡ session.old.held }
    ensures paragraph { Returns (λ status. Asks (λ status state.
        ShowsParagraph wanted (slice_get (paragraph_starts state.kept) index)
        (first_line_at state.kept index) (slice_get state.kept index) status) status session.old.held
        (out.old, record { levels = levels.old; marks = marks.old })
        (out.new, record { levels = levels.new; marks = marks.new })) result }
{
    with_object!(
        session,
        alloc,
        object,
        show_paragraph(&object, index, out, wanted, levels, marks)
    )
}
