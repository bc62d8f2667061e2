//! Where sequences end.
ghost use Rattle.std.specs.Prelude.{◌≡◌, ◌∷◌, ◌≤◌, ◌<◌, ◌^◌, length, IfSome, drop};
ghost use Rattle.sequences.specs.Sequences.{csi_end, csi_len, escape_len, is_csi_final, is_escape_final};
ghost use Rattle.sequences.specs.Sequences.{is_intermediate, len_after_escape, long_len};
ghost use Rattle.sequences.specs.Sequences.{opens_string, sequence_len};
ghost use Rattle.sequences.specs.Sequences.{string_end, string_len, terminator_len};

use crate::characters::{Class, char_at, ends_piece, is_c1_introducer, prefix_len};

/// The maximum length of a control string, in characters. Longer strings are dropped.
pub const LONGEST_STRING: usize = 4_096;

pub(crate) const ESC: char = '\u{1b}';

/// Returns the length of the complete sequence that a text begins with, or `None` if there is none.
pub fn sequence_len(text: &[char]) -> Option<usize>
    ensures len { result ≡ sequence_len text.now }
    ensures within { IfSome result (λ n. n ≤ length text.now) }
    ensures some { IfSome result (λ n. 0 < n) }
{
    let (first, rest) = text.split_first()?;
    if *first == ESC {
        let (second, rest) = rest.split_first()?;
        let len = len_after_escape(*second as u32, rest)?;
        Some(len + 1)
    } else if is_c1_introducer(*first) {
        len_after_escape(*first as u32 - 0x40, rest)
    } else {
        None
    }
}

// Returns the length of a sequence without its ESC, or `None` if it is not complete. `code` is the code after
// ESC, and `rest` is the text after that.
fn len_after_escape(code: u32, rest: &[char]) -> Option<usize>
    ensures len { result ≡ len_after_escape (code ∷ rest.now) }
    ensures within { IfSome result (λ n. n ≤ length (code ∷ rest.now)) }
    ensures some { IfSome result (λ n. 0 < n) }
{
    if code == 0x5b {
        let len = csi_len(rest)?;
        Some(len + 1)
    } else if opens_string(code) {
        let len = string_len(code == 0x5d, rest)?;
        Some(len + 1)
    } else {
        escape_len(code, rest)
    }
}

pub(crate) fn opens_string(code: u32) -> bool
    ensures { result ≡ opens_string code }
{
    code == 0x50 || code == 0x58 || code == 0x5d || code == 0x5e || code == 0x5f
}

pub(crate) fn csi_end(text: &[char]) -> usize
    ensures end { result ≡ csi_end text.now }
    ensures within { result ≤ length text.now }
{
    let parameters = prefix_len(Class::Parameter, text);
    parameters + prefix_len(Class::Intermediate, &text[parameters..])
}

fn is_csi_final(c: char) -> bool
    ensures { result ≡ is_csi_final c }
{
    '@' <= c && c <= '~'
}

// Returns the length of a control sequence without its introducer, or `None` if it has no final character.
fn csi_len(text: &[char]) -> Option<usize>
    ensures len { result ≡ csi_len text.now }
    ensures within { IfSome result (λ n. n ≤ length text.now) }
{
    let end = csi_end(text);
    if end < text.len() && is_csi_final(text[end]) {
        Some(end + 1)
    } else {
        None
    }
}

pub(crate) fn is_intermediate(code: u32) -> bool
    ensures { result ≡ is_intermediate code }
{
    0x20 <= code && code <= 0x2f
}

fn is_escape_final(code: u32) -> bool
    ensures { result ≡ is_escape_final code }
{
    0x30 <= code && code <= 0x7e
}

// Returns the length of an escape sequence without its ESC, or `None` if it has no final character. `code` is
// the code after ESC, and `rest` is the text after that.
fn escape_len(code: u32, rest: &[char]) -> Option<usize>
    ensures len { result ≡ escape_len (code ∷ rest.now) }
    ensures within { IfSome result (λ n. n ≤ length (code ∷ rest.now)) }
{
    if !is_intermediate(code) {
        return if is_escape_final(code) { Some(1) } else { None };
    }
    let end = prefix_len(Class::Intermediate, rest);
    if end < rest.len() && is_escape_final(rest[end] as u32) {
        Some(end + 2)
    } else {
        None
    }
}

/// Returns the length of a string without its terminator, given the text after its introducer. A string that
/// is too long may continue after these characters.
pub(crate) fn string_end(text: &[char]) -> usize
    ensures end { result ≡ string_end text.now }
    ensures within { result ≤ length text.now }
{
    prefix_len(Class::Inline, text)
}

// Returns the length of the string terminator that a text begins with, or 0 if there is none.
pub(crate) fn terminator_len(is_osc: bool, text: &[char]) -> usize
    ensures len { result ≡ terminator_len is_osc text.now }
    ensures within { result ≤ length text.now }
{
    let first = char_at(text, 0);
    if first == '\u{9c}' || (is_osc && first == '\u{7}') {
        1
    } else if first == ESC && char_at(text, 1) == '\\' {
        2
    } else {
        0
    }
}

// Returns the length of a string, including its terminator but not its introducer, or `None` if it is
// incomplete.
fn string_len(is_osc: bool, text: &[char]) -> Option<usize>
    ensures len { result ≡ string_len is_osc text.now }
    ensures within { IfSome result (λ n. n ≤ length text.now) }
{
    let end = string_end(text);
    let (_, rest) = text.split_at(end);
    if end > LONGEST_STRING {
        return Some(end + long_len(is_osc, rest));
    }
    match terminator_len(is_osc, rest) {
        0 => None,
        len => Some(end + len),
    }
}

// Returns the length of an overlong string, including its terminator, without the characters that
// `string_end` counts.
fn long_len(is_osc: bool, text: &[char]) -> usize
    ensures len { result ≡ long_len is_osc text.now }
    ensures within { result ≤ length text.now }
{
    let mut at = 0;
    while at < text.len() {
        let (_, rest) = text.split_at(at);
        if ends_piece(text[at]) {
            return at;
        }
        let len = terminator_len(is_osc, rest);
        if len > 0 {
            return at + len;
        }
        at += 1;
    }
    at
}
