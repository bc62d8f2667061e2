//! Parses one line of ArabicShaping.txt or UnicodeData.txt.
ghost use Rattle.std.specs.Prelude.{◌≡◌, ◌<◌, [], codes, drop, length, slice_index_or, ◌-◌, IfOk, IfSome};
ghost use Rattle.std.specs.List.{slice_split};
ghost use Rattle.std.specs.Str.{bytes_eq};
ghost use Rattle.ucd.specs.Grammar.{is_delimiter};
ghost use Rattle.ucd.specs.JoiningLines.{begins_range, ends_range, field, first_by, shaping_by, data_by};
ghost use Rattle.ucd.specs.JoiningLines.{field_count, claim_by, claim_in, IsReadWithin};

use crate::fault::Cause;
use crate::form::Form;
use crate::grammar::{BLANKS, SPACES, code_point, cut, cut_near, trimmed};
use crate::joining_type::JoiningType;

/// The files from which joining types and forms are read.
#[derive(Clone, Copy, Debug, PartialEq, Eq)]
pub enum JoiningFile {
    ArabicShaping,
    UnicodeData,
}

impl JoiningFile {
    // Returns the number of fields of a line.
    fn field_count(self) -> usize
        ensures { result ≡ field_count self }
    {
        match self {
            JoiningFile::ArabicShaping => 4,
            JoiningFile::UnicodeData => 15,
        }
    }
}

/// What a line says: the joining type of the code points from `first` to `last`, the form of a letter that
/// `last` is, and whether the line begins a range, which the next line ends.
#[derive(Clone, Copy)]
pub struct Claim {
    pub first: u32,
    pub last: u32,
    pub joining: JoiningType,
    pub form: Option<(Form, u32)>,
    pub begins: bool,
}

// Returns whether a name ends in `, First>`.
fn begins_range(name: &[u8]) -> bool
    ensures { result ≡ begins_range name.now }
{
    match &name[name.len().saturating_sub(8)..] {
        b", First>" => true,
        _ => false,
    }
}

// Returns whether a name ends in `, Last>`.
fn ends_range(name: &[u8]) -> bool
    ensures { result ≡ ends_range name.now }
{
    match &name[name.len().saturating_sub(7)..] {
        b", Last>" => true,
        _ => false,
    }
}

// Returns a field of a line by its number, which is counted from 0, without the white space around it. A
// field past the end is empty.
fn field(content: &[u8], number: usize) -> &[u8]
    ensures { result.now ≡ field content.now number }
{
    let mut rest = Some(content);
    for _ in 0..number {
        let Some(text) = rest else {
            return b"".as_slice();
        };
        let (_, after) = cut_near(text, b';');
        rest = after;
    }
    let Some(text) = rest else {
        return b"".as_slice();
    };
    let (front, _) = cut_near(text, b';');
    trimmed(front, SPACES)
}

// Returns the number of fields of a line.
fn count_fields(content: &[u8]) -> usize
    ensures { result ≡ length (slice_split (is_delimiter 59) content.now) }
{
    let mut count = 0;
    let mut rest = Some(content);
    while let Some(text) = rest {
        let (_, after) = cut_near(text, b';');
        count += 1;
        rest = after;
    }
    count
}

// Returns the first code point of a line of UnicodeData.txt. `before` is the code point of the line before it
// if that line begins a range, `ends` says whether the line ends a range, and `point` is its code point.
fn first_of(before: Option<u32>, ends: bool, point: u32) -> Result<u32, Cause>
    ensures { result ≡ first_by before ends point }
{
    match before {
        None if !ends => Ok(point),
        Some(before) if ends => {
            if before < point {
                Ok(before + 1)
            } else {
                Err(Cause::Reversed)
            }
        }
        _ => Err(Cause::Value),
    }
}

// Parses the fields of a line of ArabicShaping.txt that have a meaning.
fn shaping_claim(point: Option<u32>, joining: Option<JoiningType>) -> Result<Option<Claim>, Cause>
    ensures { result ≡ shaping_by point joining }
{
    let Some(point) = point else {
        return Err(Cause::CodePoint);
    };
    let Some(joining) = joining else {
        return Err(Cause::Value);
    };
    Ok(Some(Claim {
        first: point,
        last: point,
        joining,
        form: None,
        begins: false,
    }))
}

// Parses the fields of a line of UnicodeData.txt that have a meaning.
fn data_claim(
    before: Option<u32>,
    point: Option<u32>,
    name: &[u8],
    joining: JoiningType,
    form: Option<(Form, u32)>,
) -> Result<Option<Claim>, Cause>
    ensures { result ≡ data_by before point name.now joining form }
{
    let Some(last) = point else {
        return Err(Cause::CodePoint);
    };
    match first_of(before, ends_range(name), last) {
        Err(cause) => Err(cause),
        Ok(first) => Ok(Some(Claim {
            first,
            last,
            joining,
            form,
            begins: begins_range(name),
        })),
    }
}

// Parses a line with the right number of fields.
fn read_fields(
    file: JoiningFile,
    before: Option<u32>,
    content: &[u8],
) -> Result<Option<Claim>, Cause>
    ensures { result ≡ claim_by file before content.now }
{
    let point = code_point(field(content, 0));
    match file {
        JoiningFile::ArabicShaping => {
            shaping_claim(point, JoiningType::from_name(field(content, 2)))
        }
        JoiningFile::UnicodeData => data_claim(
            before,
            point,
            field(content, 1),
            JoiningType::by_category(field(content, 2)),
            Form::of_letter(field(content, 5)),
        ),
    }
}

/// Parses one line. Returns `None` if the line is blank. Fails with the first cause that applies. `before` is
/// the code point of the line before it if that line begins a range.
pub fn read_line(
    file: JoiningFile,
    before: Option<u32>,
    line: &[u8],
) -> Result<Option<Claim>, Cause>
    ensures claim { result ≡ claim_in file before line.now }
    ensures within { IsReadWithin result }
{
    let (line, _) = cut(line, b'#');
    if !line.is_ascii() {
        return Err(Cause::NotAscii);
    }
    let content = trimmed(line, BLANKS);
    if content.is_empty() {
        return Ok(None);
    }
    if count_fields(content) != file.field_count() {
        return Err(Cause::FieldCount);
    }
    read_fields(file, before, content)
}
