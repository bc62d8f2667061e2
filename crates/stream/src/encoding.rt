//! Encodes characters as UTF-8.
ghost use Rattle.std.specs.Prelude.{◌≡◌, ◌+◌, ◌*◌, ◌++◌, ◌<◌, ◌≤◌, ℕ, true, take, length, slice_index};
ghost use Rattle.std.specs.Prelude.{encode_utf8, encode_utf8_all};
ghost use Rattle.std.specs.Char.{is_ascii};
ghost use Rattle.std.specs.List.{list_all};
ghost use Rattle.stream.specs.Packing.{fits_two_bytes};

use crate::packing::{LANES, lanes, pack_any, pack_ascii, pack_short};

// The number of characters in a group. The highest character of a group determines which function encodes the
// whole group.
const GROUP: usize = 16;

/// Encodes characters as UTF-8 at the front of a buffer, and returns the number of bytes written.
pub fn encode(piece: &[char], buffer: &mut [u8]) -> usize
    requires { 4 * length piece.now ≤ length buffer.old }
    ensures within { result ≤ length buffer.old }
    ensures bytes { take result buffer.new ≡ encode_utf8_all piece.now }
{
    let mut len = 0;
    let mut k = 0;
    while k + GROUP <= piece.len() {
        len = encode_group(&piece[k..k + GROUP], buffer, len);
        k += GROUP;
    }
    encode_group(&piece[k..], buffer, len)
}

// Encodes characters at an index of a buffer, and returns the index after their bytes.
#[inline(always)] // so that the loops over a group know its length
fn encode_group(group: &[char], buffer: &mut [u8], at: usize) -> usize
    requires { at + 4 * length group.now ≤ length buffer.old }
    ensures within { result ≤ at + 4 * length group.now }
    ensures bytes { take result buffer.new ≡ take at buffer.old ++ encode_utf8_all group.now }
{
    let highest = highest(group);
    if highest < '\u{80}' {
        encode_ascii(group, buffer, at)
    } else if highest < '\u{800}' {
        encode_short(group, buffer, at)
    } else {
        encode_any(group, buffer, at)
    }
}

// Implements `encode_group`, one character at a time.
#[inline(always)]
fn encode_each(piece: &[char], buffer: &mut [u8], at: usize) -> usize
    requires { at + 4 * length piece.now ≤ length buffer.old }
    ensures within { result ≤ at + 4 * length piece.now }
    ensures bytes { take result buffer.new ≡ take at buffer.old ++ encode_utf8_all piece.now }
{
    let mut len = at;
    for c in piece {
        len = encode_at(*c, buffer, len);
    }
    len
}

// Returns the highest character. The loop has no branches, so the compiler can compare several characters at
// a time.
#[inline(always)]
fn highest(piece: &[char]) -> char
    ensures { (k : ℕ) → k < length piece.now → slice_index piece.now k ≤ result }
{
    let mut highest = '\0';
    for c in piece {
        highest = highest.max(*c);
    }
    highest
}

// Implements `encode_group` for ASCII characters.
#[inline(always)]
fn encode_ascii(piece: &[char], buffer: &mut [u8], at: usize) -> usize
    requires ascii { list_all is_ascii piece.now ≡ true }
    requires room { at + 4 * length piece.now ≤ length buffer.old }
    ensures within { result ≤ at + 4 * length piece.now }
    ensures bytes { take result buffer.new ≡ take at buffer.old ++ encode_utf8_all piece.now }
{
    let mut len = at;
    let mut k = 0;
    while k + LANES <= piece.len() {
        len = pack_ascii(lanes(piece, k), buffer, len);
        k += LANES;
    }
    put_ascii(&piece[k..], buffer, len)
}

// Encodes ASCII characters at an index of a buffer, one after another, and returns the index after them.
#[inline(always)]
fn put_ascii(piece: &[char], buffer: &mut [u8], at: usize) -> usize
    requires ascii { list_all is_ascii piece.now ≡ true }
    requires room { at + length piece.now ≤ length buffer.old }
    ensures end { result ≡ at + length piece.now }
    ensures bytes { take result buffer.new ≡ take at buffer.old ++ encode_utf8_all piece.now }
{
    let end = at + piece.len();
    let part = &mut buffer[at..end];
    let mut k = 0;
    while k < piece.len() {
        part[k] = piece[k] as u8;
        k += 1;
    }
    end
}

/// Encodes a character at an index of a buffer, and returns the index after its bytes. Always writes four
/// bytes, which is faster than a branch. The bytes after the returned index are unspecified.
#[inline(always)]
pub fn encode_at(c: char, buffer: &mut [u8], at: usize) -> usize
    requires { at + 4 ≤ length buffer.old }
    ensures within { result ≤ at + 4 }
    ensures bytes { take result buffer.new ≡ take at buffer.old ++ encode_utf8 c }
{
    let code = c as u32;
    // Each byte after the first holds six bits of the code point.
    let low = 0x80 + code % 64;
    let middle = 0x80 + code / 64 % 64;
    let high = 0x80 + code / 4_096 % 64;
    let (first, second, third, end) = if code < 0x80 {
        (code, low, low, at + 1)
    } else if code < 0x800 {
        (0xc0 + code / 64, low, low, at + 2)
    } else if code < 0x1_0000 {
        (0xe0 + code / 4_096, middle, low, at + 3)
    } else {
        (0xf0 + code / 262_144, high, middle, at + 4)
    };
    buffer[at] = first as u8;
    buffer[at + 1] = second as u8;
    buffer[at + 2] = third as u8;
    buffer[at + 3] = low as u8;
    end
}

// Implements `encode_group` for characters that have one or two bytes.
#[inline(always)]
fn encode_short(piece: &[char], buffer: &mut [u8], at: usize) -> usize
    requires short { list_all fits_two_bytes piece.now ≡ true }
    requires room { at + 4 * length piece.now ≤ length buffer.old }
    ensures within { result ≤ at + 4 * length piece.now }
    ensures bytes { take result buffer.new ≡ take at buffer.old ++ encode_utf8_all piece.now }
{
    let mut len = at;
    let mut k = 0;
    while k + LANES <= piece.len() {
        len = pack_short(lanes(piece, k), buffer, len);
        k += LANES;
    }
    encode_each(&piece[k..], buffer, len)
}

// Implements `encode_group` for all characters.
#[inline(always)]
fn encode_any(piece: &[char], buffer: &mut [u8], at: usize) -> usize
    requires { at + 4 * length piece.now ≤ length buffer.old }
    ensures within { result ≤ at + 4 * length piece.now }
    ensures bytes { take result buffer.new ≡ take at buffer.old ++ encode_utf8_all piece.now }
{
    let mut len = at;
    let mut k = 0;
    while k + LANES <= piece.len() {
        len = pack_any(lanes(piece, k), buffer, len);
        k += LANES;
    }
    encode_each(&piece[k..], buffer, len)
}
