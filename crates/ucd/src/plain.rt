//! Parses most lines of the table files in one pass.
//!
//! Most lines have the form `X ; NAME # COMMENT` or `X..Y ; NAME # COMMENT`, where the comment is optional. A
//! line of another form is left to `grammar`, which splits and trims a line several times.
ghost use Rattle.std.specs.Prelude.{◌≡◌, ◌<◌, ◌≤◌, length, slice_index, take, true, IfSome, IsTrue, Some};
ghost use Rattle.ucd.specs.Grammar.{code_point, points_of};
ghost use Rattle.ucd.specs.PlainLines.{AreSpaces, AreWord, IsPlain, IsWordByte};

use crate::digits::digit_of;

/// The code points and the name in a line that `plain_line` can parse.
#[derive(Clone, Copy)]
pub struct PlainLine<'a> {
    pub first: u32,
    pub last: u32,
    pub name: &'a [u8],
}

/// Parses a line of one of the forms above. Only spaces may separate its parts. Returns `None` for any other
/// line, which may still be valid.
pub fn plain_line(line: &[u8]) -> Option<PlainLine<'_>>
    ensures { IfSome result (λ p. IsPlain line.now p.first p.last p.name.now) }
{
    let (first, last, field_end) = leading_points(line)?;
    let semicolon = spaces_end(line, field_end);
    if semicolon == line.len() || line[semicolon] != b';' {
        return None;
    }
    let name_start = spaces_end(line, semicolon + 1);
    let name_end = word_end(line, name_start);
    let end = spaces_end(line, name_end);
    if name_start == name_end || !is_end(line, end) {
        return None;
    }
    let name = &line[name_start..name_end];
    Some(PlainLine { first, last, name })
}

// Parses the code point or range with which a line begins. Returns the first and the last code point, and the
// index of the byte that follows. Returns `None` if the line begins with anything else.
fn leading_points(line: &[u8]) -> Option<(u32, u32, usize)>
    ensures within { IfSome result (λ r. (0 < r.2) × (r.2 ≤ length line.now)) }
    ensures points { IfSome result (λ r. points_of true (take r.2 line.now) ≡ Some (r.0, r.1)) }
    ensures word { IfSome result (λ r. AreWord line.now 0 r.2) }
{
    let (first, end) = leading_code_point(line)?;
    if line.len() < end + 2 || line[end] != b'.' || line[end + 1] != b'.' {
        return Some((first, first, end));
    }
    let (last, count) = leading_code_point(&line[end + 2..])?;
    Some((first, last, end + 2 + count))
}

// Parses the code point with which a text begins. Returns the code point and the number of its digits, or
// `None` if the text begins with anything else.
fn leading_code_point(text: &[u8]) -> Option<(u32, usize)>
    ensures within { IfSome result (λ r. r.1 ≤ length text.now) }
    ensures point { IfSome result (λ r. code_point (take r.1 text.now) ≡ Some r.0) }
{
    let most = text.len().min(6);
    let mut number = 0;
    let mut count = 0;
    while count < most {
        let digit = digit_of(text[count]);
        if digit > 15 {
            break;
        }
        number = 16 * number + digit;
        count += 1;
    }
    if count < 4 || number > 0x10FFFF {
        return None;
    }
    Some((number, count))
}

// Returns the index of the first byte from `start` on that is not a space, or the length if there is none.
fn spaces_end(line: &[u8], start: usize) -> usize
    requires { start ≤ length line.now }
    ensures within { (start ≤ result) × (result ≤ length line.now) }
    ensures spaces { AreSpaces line.now start result }
{
    let mut end = start;
    while end < line.len() && line[end] == b' ' {
        end += 1;
    }
    end
}

// Returns the index of the first byte from `start` on that cannot belong to a word, or the length if there is
// none.
fn word_end(line: &[u8], start: usize) -> usize
    requires { start ≤ length line.now }
    ensures within { (start ≤ result) × (result ≤ length line.now) }
    ensures word { AreWord line.now start result }
{
    let mut end = start;
    while end < line.len() && is_word(line[end]) {
        end += 1;
    }
    end
}

// Returns whether a line ends at an index, or its comment begins there.
fn is_end(line: &[u8], at: usize) -> bool
    requires { at ≤ length line.now }
    ensures { IsTrue result → at < length line.now → slice_index line.now at ≡ 35 }
{
    at == line.len() || line[at] == b'#'
}

// Returns whether a byte may belong to a word. Accepts digits, dots, letters, the underscore and some other
// ASCII bytes, but no white space, `#` or `;`.
fn is_word(byte: u8) -> bool
    ensures { IsTrue result → IsWordByte byte }
{
    byte >= b'.' && byte < 0x80 && byte != b';'
}
