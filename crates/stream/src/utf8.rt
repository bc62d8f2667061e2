//! Decodes a text whose bytes come in chunks, each of which may end inside a character.
ghost use Rattle.std.specs.Prelude.{◌≡◌, ◌+◌, ◌++◌, ◌<◌, ◌≤◌, ℕ, false, true, None, OnErr, OnOk};
ghost use Rattle.std.specs.Prelude.{length, slice_index, take, vec_len, vec_capacity};
ghost use Rattle.std.specs.Simd.Lanes.{Each1};
ghost use Rattle.std.specs.Str.{IsCharBoundary, chars};
ghost use Rattle.stream.specs.declared.short.TheConstants.{LANES};
ghost use Rattle.std.specs.Str.Lossy.{utf8_valid_len, utf8_error_len};
ghost use Rattle.stream.specs.Utf8.{is_bad, char_len, IsCutOff, Moved};

use crate::short::{LANES, is_ascii, is_short, marks, push_ascii, push_marked};
use simdutf8::compat::from_utf8;
use std::alloc::AllocError;
use std::mem;
use std::simd::prelude::*;

/// Adds the characters of a text to a list. If the allocation fails, the list is unchanged.
pub fn push_characters(text: &str, characters: &mut Vec<char>) -> Result<(), AllocError>
    ensures ok { OnOk result (characters.new.items ≡ characters.old.items ++ chars text.now) }
    ensures err { OnErr result (characters.new.items ≡ characters.old.items) }
    ensures memory { OnErr result (0 < length text.now) }
    ensures full { OnErr result (vec_capacity characters.old < vec_len characters.old + length text.now) }
    ensures capacity { vec_capacity characters.old ≤ vec_capacity characters.new }
{
    characters.reserve(text.len())?;
    // Moving the list out keeps its length in a register. Otherwise, the length would be stored for each
    // character.
    let alloc = *characters.allocator();
    let list = mem::replace(characters, Vec::new(alloc));
    *characters = with_all(text, list);
    Ok(())
}

// Adds the characters of a text to a list that has capacity for as many items as the text has bytes.
fn with_all(text: &str, characters: Vec<char>) -> Vec<char>
    requires { vec_len characters + length text.now ≤ vec_capacity characters }
    ensures items { result.items ≡ characters.items ++ chars text.now }
    ensures capacity { vec_capacity result ≡ vec_capacity characters }
{
    let mut list = characters;
    let mut rest = text;
    while rest.len() >= LANES {
        rest = push_lanes(rest, &mut list);
    }
    while !rest.is_empty() {
        rest = push_some(rest, &mut list);
    }
    list
}

// Adds characters at the start of a text, and returns the rest of the text. If the first 16 bytes are in
// characters of one or two bytes, these characters are decoded together. A branch for each change of the
// length would often be mispredicted, as in Hebrew with spaces and digits.
#[inline(always)]
fn push_lanes<'a>(text: &'a str, characters: &mut Vec<char>) -> &'a str
    requires long { LANES ≤ length text.now }
    requires capacity_left { vec_len characters.old + length text.now ≤ vec_capacity characters.old }
    ensures pushed { Moved characters.old.items text.now characters.new.items result.now }
    ensures capacity_left { vec_len characters.new + length result.now ≤ vec_capacity characters.new }
    ensures capacity { vec_capacity characters.new ≡ vec_capacity characters.old }
    ensures less { length result.now < length text.now }
{
    let bytes = u8x16::from_slice(text.as_bytes());
    if is_ascii(bytes) {
        let (_, rest) = text.split_at(LANES);
        // Passes a copy. Otherwise, the text would be read again after each character, since the list might
        // overlap the text.
        push_ascii(&bytes.to_array(), characters);
        return rest;
    }
    if !is_short(bytes) {
        return push_some(text, characters);
    }
    let len = short_len(text);
    let (_, rest) = text.split_at(len);
    push_marked(bytes, marks(bytes) % (1 << len), characters);
    rest
}

// Returns how many of the first `LANES` bytes form whole characters, if all these characters have one or two
// bytes. The result is `LANES`, or one less if the last byte begins a character of two bytes.
#[inline(always)]
fn short_len(text: &str) -> usize
    requires long { LANES ≤ length text.now }
    ensures bounds { (0 < result) × (result ≤ LANES) }
    ensures boundary { Each1 (λ byte. byte < 0xE0) (take LANES text.now) → IsCharBoundary text.now result }
{
    if text.as_bytes()[LANES - 1] < 0xc0 {
        LANES
    } else {
        LANES - 1
    }
}

// Adds the longest prefix of a text whose characters all have one byte, all have two bytes, or all have more.
// Returns the rest of the text.
#[inline(always)]
fn push_some<'a>(text: &'a str, characters: &mut Vec<char>) -> &'a str
    requires some { 0 < length text.now }
    requires capacity_left { vec_len characters.old + length text.now ≤ vec_capacity characters.old }
    ensures pushed { Moved characters.old.items text.now characters.new.items result.now }
    ensures capacity_left { vec_len characters.new + length result.now ≤ vec_capacity characters.new }
    ensures capacity { vec_capacity characters.new ≡ vec_capacity characters.old }
    ensures less { length result.now < length text.now }
{
    let first = text.as_bytes()[0];
    if first >= 0xe0 {
        return push_row(text, 0xe0, 0xff, characters);
    }
    if first >= 0x80 {
        return push_row(text, 0x80, 0xe0, characters);
    }
    push_row(text, 0, 0x80, characters)
}

// Adds the first character of a text, and the following ones as long as their first byte is in `low..high`. A
// separate loop for each length in bytes has fewer steps, and the end of the loop is predicted better.
#[inline(always)]
fn push_row<'a>(text: &'a str, low: u8, high: u8, characters: &mut Vec<char>) -> &'a str
    requires some { 0 < length text.now }
    requires capacity_left { vec_len characters.old + length text.now ≤ vec_capacity characters.old }
    ensures pushed { Moved characters.old.items text.now characters.new.items result.now }
    ensures capacity_left { vec_len characters.new + length result.now ≤ vec_capacity characters.new }
    ensures capacity { vec_capacity characters.new ≡ vec_capacity characters.old }
    ensures less { length result.now < length text.now }
{
    let mut rest = text;
    loop {
        let mut left = rest.chars();
        let Some(c) = left.next() else {
            return rest;
        };
        characters.push_reserved(c);
        rest = left.as_str();
        if !begins_between(rest, low, high) {
            return rest;
        }
    }
}

fn begins_between(text: &str, low: u8, high: u8) -> bool
    ensures some { result ≡ true → 0 < length text.now }
    ensures yes { result ≡ true → (low ≤ slice_index text.now 0) × (slice_index text.now 0 < high) }
    ensures no { result ≡ false → 0 < length text.now → low ≤ slice_index text.now 0
        → high ≤ slice_index text.now 0 }
{
    match text.as_bytes().first() {
        Some(first) => low <= *first && *first < high,
        None => false,
    }
}

/// Returns the longest prefix of `bytes` that is valid UTF-8, and whether the bytes after it are invalid.
/// They are invalid if no character can begin with them.
pub fn front(bytes: &[u8]) -> (&str, bool)
    ensures text { result.0.now ≡ take (utf8_valid_len bytes.now) bytes.now }
    ensures bad { result.1 ≡ is_bad bytes.now }
    ensures few { result.1 ≡ false → length bytes.now < utf8_valid_len bytes.now + 4 }
{
    // A chunk usually ends inside a character. Splitting the chunk here means that it is validated only once.
    let (whole, cut) = bytes.split_at(whole_len(bytes));
    match from_utf8(whole) {
        Ok(text) if is_beginning(cut) => (text, false),
        _ => checked(bytes),
    }
}

// Implements `front` for any bytes. May validate the bytes twice.
fn checked(bytes: &[u8]) -> (&str, bool)
    ensures text { result.0.now ≡ take (utf8_valid_len bytes.now) bytes.now }
    ensures bad { result.1 ≡ is_bad bytes.now }
    ensures few { result.1 ≡ false → length bytes.now < utf8_valid_len bytes.now + 4 }
{
    let error = match from_utf8(bytes) {
        Ok(text) => return (text, false),
        Err(error) => error,
    };
    match from_utf8(&bytes[..error.valid_up_to()]) {
        Ok(text) => (text, error.error_len().is_some()),
        Err(_) => unreachable!(),
    }
}

// Returns whether there are no bytes, or only the beginning of a character.
fn is_beginning(bytes: &[u8]) -> bool
    ensures none { result ≡ true → utf8_valid_len bytes.now ≡ 0 }
    ensures fault { result ≡ true → utf8_error_len bytes.now ≡ None }
    ensures few { result ≡ true → length bytes.now < 4 }
    ensures all { utf8_valid_len bytes.now ≡ 0 → utf8_error_len bytes.now ≡ None → result ≡ true }
{
    match from_utf8(bytes) {
        Ok(_) => bytes.is_empty(),
        Err(error) => error.valid_up_to() == 0 && error.error_len().is_none(),
    }
}

// Returns the index at which the last character begins if this character seems to be incomplete. Otherwise,
// returns the number of bytes.
fn whole_len(bytes: &[u8]) -> usize
    ensures within { result ≤ length bytes.now }
    ensures cut { result < length bytes.now → IsCutOff bytes.now result }
    ensures whole { result ≡ length bytes.now → (k : ℕ) → k < length bytes.now → ¬ (IsCutOff bytes.now k) }
{
    for after in 1..4 {
        if after > bytes.len() {
            break;
        }
        let at = bytes.len() - after;
        // The continuation bytes of a character are below 0xC0.
        if bytes[at] >= 0xc0 {
            return if after < char_len(bytes[at]) {
                at
            } else {
                bytes.len()
            };
        }
    }
    bytes.len()
}

// Returns the length of a character in bytes, given its first byte, which must not be ASCII.
fn char_len(first: u8) -> usize
    ensures { result ≡ char_len first }
{
    if first < 0xe0 {
        2
    } else if first < 0xf0 {
        3
    } else {
        4
    }
}
