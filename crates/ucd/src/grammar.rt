//! Parses one line of a table file. A line assigns a value to code points, or has no entry.
ghost use Rattle.std.specs.Prelude.{◌≡◌, ◌<◌, ◌≤◌, length, IfSome, option_map, if◌then◌else◌};
ghost use Rattle.std.specs.List.{slice_split, before_first, list_all};
ghost use Rattle.std.specs.Char.{is_ascii_hexdigit};
ghost use Rattle.ucd.specs.Grammar.{is_delimiter, is_one_of, trimmed, fields_of, hex_value, code_point};
ghost use Rattle.ucd.specs.Grammar.{both, points_of, by_points, by_fields, reading_of, rest_after, parts_of};

use crate::digits::digit_of;
use crate::fault::Cause;
use crate::plain::plain_line;
use crate::properties::Properties;
use crate::version::Version;
use memchr::memchr;
use std::alloc::AllocError;

/// The code points from `first` to `last`, and their value.
#[derive(Copy)]
pub struct Entry<V> {
    pub first: u32,
    pub last: u32,
    pub value: V,
}

impl<V: Copy> Clone for Entry<V> {
    fn clone(&self) -> Result<Self, AllocError> {
        Ok(*self)
    }
}

/// A property that a file assigns to characters, and how the file's lines express it.
pub trait Property: Copy + Drop {
    ghost use Rattle.ucd.specs.Grammar.{Form};
    ghost use Rattle.ucd.specs.declared.version.Version.{Version};

    ghost form: { Version → Form Self };

    /// Returns whether the first field may be a range.
    fn has_ranges(version: Version) -> bool
        ensures { result ≡ (form version).has_ranges };

    /// Returns whether a line has a third field.
    fn has_third(version: Version) -> bool
        ensures { result ≡ (form version).has_third };

    /// Parses the value in the second and third fields. Returns `None` if the file does not allow this value,
    /// and `Some(None)` if the line assigns no value to any character.
    fn read_value(version: Version, second: &[u8], third: &[u8]) -> Option<Option<Self>>
        ensures { result ≡ (form version).value second.now third.now };
}

/// A value that is applied to the properties of characters.
pub trait Layer: Copy + Drop {
    ghost use Rattle.ucd.specs.Answers.{PropertyAnswers};
    ghost use Rattle.ucd.specs.declared.version.Version.{Version};

    /// The properties of a character after the value has been applied.
    ghost put: { Version → Self → PropertyAnswers → PropertyAnswers };

    /// Returns the properties with this value applied.
    fn put(self, version: Version, properties: Properties) -> Properties
        ensures { result ≡ put version self properties };
}

/// Returns the bytes before the first `delimiter` and, if `delimiter` occurs, the bytes after it.
pub(crate) fn cut(bytes: &[u8], delimiter: u8) -> (&[u8], Option<&[u8]>)
    ensures front { result.0.now ≡ before_first (is_delimiter delimiter) bytes.now }
    ensures rest { option_map (λ rest. rest.now) result.1 ≡ rest_after delimiter bytes.now }
    ensures parts { slice_split (is_delimiter delimiter) bytes.now
        ≡ parts_of delimiter result.0.now (option_map (λ rest. rest.now) result.1) }
    ensures shorter { IfSome result.1 (λ rest. length rest.now < length bytes.now) }
{
    match memchr(delimiter, bytes) {
        Some(at) => (&bytes[..at], Some(&bytes[at + 1..])),
        None => (bytes, None),
    }
}

/// Does the same as `cut`, but byte by byte, which is faster if the delimiter is among the first bytes.
pub(crate) fn cut_near(bytes: &[u8], delimiter: u8) -> (&[u8], Option<&[u8]>)
    ensures front { result.0.now ≡ before_first (is_delimiter delimiter) bytes.now }
    ensures rest { option_map (λ rest. rest.now) result.1 ≡ rest_after delimiter bytes.now }
    ensures parts { slice_split (is_delimiter delimiter) bytes.now
        ≡ parts_of delimiter result.0.now (option_map (λ rest. rest.now) result.1) }
    ensures shorter { IfSome result.1 (λ rest. length rest.now < length bytes.now) }
{
    for (at, byte) in bytes.iter().enumerate() {
        if *byte == delimiter {
            return (&bytes[..at], Some(&bytes[at + 1..]));
        }
    }
    (bytes, None)
}

/// Removes the bytes in `white` from both ends.
pub(crate) fn trimmed<'a>(bytes: &'a [u8], white: &[u8]) -> &'a [u8]
    ensures { result.now ≡ trimmed (is_one_of white.now) bytes.now }
{
    let mut start = 0;
    while start < bytes.len() && white.contains(&bytes[start]) {
        start += 1;
    }
    let rest = &bytes[start..];
    let mut end = rest.len();
    while end > 0 && white.contains(&rest[end - 1]) {
        end -= 1;
    }
    &rest[..end]
}

// Parses up to six hexadecimal digits. Returns `None` if a byte is not a digit.
fn hex_number(digits: &[u8]) -> Option<u32>
    requires { length digits.now ≤ 6 }
    ensures { result ≡ (if list_all is_ascii_hexdigit digits.now then Some (hex_value digits.now) else None) }
{
    let mut number = 0;
    for digit in digits {
        let value = digit_of(*digit);
        if value > 15 {
            return None;
        }
        number = 16 * number + value;
    }
    Some(number)
}

/// Parses a code point written as 4 to 6 hexadecimal digits. Returns `None` for anything else.
pub(crate) fn code_point(digits: &[u8]) -> Option<u32>
    ensures { result ≡ code_point digits.now }
{
    if digits.len() < 4 || digits.len() > 6 {
        return None;
    }
    hex_number(digits).filter(|&number| number <= 0x10FFFF)
}

fn both(first: Option<u32>, last: Option<u32>) -> Option<(u32, u32)>
    ensures { result ≡ both first last }
{
    Some((first?, last?))
}

// Returns the first and the last code point of a field of the form `X` or, if `has_ranges` is true, `X..Y`.
// Returns `None` for any other field.
fn points(field: &[u8], has_ranges: bool) -> Option<(u32, u32)>
    ensures { result ≡ points_of has_ranges field.now }
{
    let (front, rest) = cut_near(field, b'.');
    let Some(rest) = rest else {
        let point = code_point(front);
        return both(point, point);
    };
    let (between, last) = cut_near(rest, b'.');
    let last = last?;
    if !has_ranges || !between.is_empty() {
        return None;
    }
    both(code_point(front), code_point(last))
}

fn entry_of<V: Property>(
    _version: Version,
    points: Option<(u32, u32)>,
    value: Option<Option<V>>,
) -> Result<Option<Entry<V>>, Cause>
    ensures { result ≡ by_points (V.form _version) points value }
{
    let Some((first, last)) = points else {
        return Err(Cause::CodePoint);
    };
    if last < first {
        return Err(Cause::Reversed);
    }
    match value {
        None => Err(Cause::Value),
        Some(None) => Ok(None),
        Some(Some(value)) => Ok(Some(Entry { first, last, value })),
    }
}

// Parses the fields of a line that contains more than a comment.
fn read_fields<V: Property>(version: Version, content: &[u8]) -> Result<Option<Entry<V>>, Cause>
    ensures { result ≡ by_fields (V.form version) (fields_of content.now) }
{
    let (field, rest) = cut_near(content, b';');
    let Some(rest) = rest else {
        return Err(Cause::FieldCount);
    };
    let (second, rest) = cut_near(rest, b';');
    let third = match rest {
        None if !V::has_third(version) => b"".as_slice(),
        Some(rest) if V::has_third(version) => {
            let (third, more) = cut_near(rest, b';');
            if more.is_some() {
                return Err(Cause::FieldCount);
            }
            third
        }
        _ => return Err(Cause::FieldCount),
    };
    let field = trimmed(field, SPACES);
    let value = V::read_value(version, trimmed(second, SPACES), trimmed(third, SPACES));
    entry_of(version, points(field, V::has_ranges(version)), value)
}

pub(crate) const SPACES: &[u8] = b" \t";

pub(crate) const BLANKS: &[u8] = b" \t\r";

/// Parses one line. Returns `None` if the line has no entry. Fails with the first cause that applies.
#[inline(always)]
pub fn read_line<V: Property>(version: Version, line: &[u8]) -> Result<Option<Entry<V>>, Cause>
    ensures { result ≡ reading_of (V.form version) line.now }
{
    if V::has_ranges(version) && !V::has_third(version) {
        if let Some(plain) = plain_line(line) {
            let value = V::read_value(version, plain.name, b"");
            return entry_of(version, Some((plain.first, plain.last)), value);
        }
    }
    read_any_line(version, line)
}

// Does the same as `read_line`, without the fast path for lines of the most common forms.
fn read_any_line<V: Property>(version: Version, line: &[u8]) -> Result<Option<Entry<V>>, Cause>
    ensures { result ≡ reading_of (V.form version) line.now }
{
    let (line, _) = cut(line, b'#');
    if !line.is_ascii() {
        return Err(Cause::NotAscii);
    }
    let content = trimmed(line, BLANKS);
    if content.is_empty() {
        return Ok(None);
    }
    read_fields(version, content)
}
