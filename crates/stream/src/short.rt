//! Decodes characters of one or two bytes, using vector instructions.
ghost use Rattle.std.specs.Prelude.{◌≡◌, ◌+◌, ◌^◌, ◌++◌, ◌<◌, ◌≤◌, true, false, length, map, take};
ghost use Rattle.std.specs.Prelude.{vec_len, vec_capacity};
ghost use Rattle.std.specs.Char.{is_ascii};
ghost use Rattle.std.specs.List.{list_all};
ghost use Rattle.std.specs.Simd.Lanes.{mask_l, Each1};
ghost use Rattle.stream.specs.Short.{begins, pairs, short_char};

use std::simd::prelude::*;

/// The number of bytes that are decoded together.
pub const LANES: usize = 16;

// The indices of the bytes that a shuffle reads: one row for each mask of four bytes. Each marked byte and
// the byte after it become the two low bytes of a lane of four bytes. The index 128 yields the byte 0.
static PAIRS: [[u8; 16]; 16] = [
    [
        128, 128, 128, 128, 128, 128, 128, 128, 128, 128, 128, 128, 128, 128, 128, 128,
    ],
    [
        0, 1, 128, 128, 128, 128, 128, 128, 128, 128, 128, 128, 128, 128, 128, 128,
    ],
    [
        1, 2, 128, 128, 128, 128, 128, 128, 128, 128, 128, 128, 128, 128, 128, 128,
    ],
    [
        0, 1, 128, 128, 1, 2, 128, 128, 128, 128, 128, 128, 128, 128, 128, 128,
    ],
    [
        2, 3, 128, 128, 128, 128, 128, 128, 128, 128, 128, 128, 128, 128, 128, 128,
    ],
    [
        0, 1, 128, 128, 2, 3, 128, 128, 128, 128, 128, 128, 128, 128, 128, 128,
    ],
    [
        1, 2, 128, 128, 2, 3, 128, 128, 128, 128, 128, 128, 128, 128, 128, 128,
    ],
    [
        0, 1, 128, 128, 1, 2, 128, 128, 2, 3, 128, 128, 128, 128, 128, 128,
    ],
    [
        3, 4, 128, 128, 128, 128, 128, 128, 128, 128, 128, 128, 128, 128, 128, 128,
    ],
    [
        0, 1, 128, 128, 3, 4, 128, 128, 128, 128, 128, 128, 128, 128, 128, 128,
    ],
    [
        1, 2, 128, 128, 3, 4, 128, 128, 128, 128, 128, 128, 128, 128, 128, 128,
    ],
    [
        0, 1, 128, 128, 1, 2, 128, 128, 3, 4, 128, 128, 128, 128, 128, 128,
    ],
    [
        2, 3, 128, 128, 3, 4, 128, 128, 128, 128, 128, 128, 128, 128, 128, 128,
    ],
    [
        0, 1, 128, 128, 2, 3, 128, 128, 3, 4, 128, 128, 128, 128, 128, 128,
    ],
    [
        1, 2, 128, 128, 2, 3, 128, 128, 3, 4, 128, 128, 128, 128, 128, 128,
    ],
    [
        0, 1, 128, 128, 1, 2, 128, 128, 2, 3, 128, 128, 3, 4, 128, 128,
    ],
];

/// Returns whether all bytes are ASCII.
#[inline(always)]
pub fn is_ascii(bytes: u8x16) -> bool
    ensures { result ≡ list_all is_ascii bytes }
{
    bytes.simd_ge(u8x16::splat(0x80)).to_bitmask() == 0
}

/// Returns whether no byte begins a character of more than two bytes.
#[inline(always)]
pub fn is_short(bytes: u8x16) -> bool
    ensures { result ≡ true → Each1 (λ byte. byte < 0xE0) bytes }
{
    bytes.simd_ge(u8x16::splat(0xe0)).to_bitmask() == 0
}

/// Returns a mask of the bytes at which a character begins. Bit 0 is for the first byte.
#[inline(always)]
pub fn marks(bytes: u8x16) -> usize
    ensures { result ≡ mask_l (map begins bytes) }
{
    (bytes - u8x16::splat(0x80))
        .simd_ge(u8x16::splat(0x40))
        .to_bitmask() as usize
}

/// Adds ASCII characters to a list that has capacity for them.
#[inline(always)]
pub fn push_ascii(bytes: &[u8], characters: &mut Vec<char>)
    requires { vec_len characters.old + length bytes.now ≤ vec_capacity characters.old }
    ensures items { characters.new.items ≡ characters.old.items ++ bytes.now }
    ensures capacity { vec_capacity characters.new ≡ vec_capacity characters.old }
{
    for byte in bytes {
        characters.push_reserved(*byte as char);
    }
}

/// Adds the characters that begin with the marked bytes to a list that has capacity for 16 more characters.
/// The characters must have one or two bytes.
#[inline(always)]
pub fn push_marked(bytes: u8x16, marks: usize, characters: &mut Vec<char>)
    requires marks { marks < 2 ^ 16 }
    requires capacity_left { vec_len characters.old + 16 ≤ vec_capacity characters.old }
    ensures items { characters.new.items ≡ characters.old.items ++ map short_char (pairs 16 marks bytes) }
    ensures capacity { vec_capacity characters.new ≡ vec_capacity characters.old }
{
    let len = characters.len();
    // Appending a whole group and then removing the excess needs no branch on the number of characters.
    push_ascii(&[0; LANES], characters);
    let count = write_marked(bytes, marks, &mut characters[len..]);
    characters.truncate(len + count);
}

// Writes the characters that begin with the marked bytes to the start of a slice, and returns their number.
// The rest of the slice may change too.
#[inline(always)]
fn write_marked(bytes: u8x16, marks: usize, out: &mut [char]) -> usize
    requires marks { marks < 2 ^ 16 }
    requires long { 16 ≤ length out.old }
    ensures items { take result out.new ≡ map short_char (pairs 16 marks bytes) }
    ensures count { result ≤ 16 }
    ensures within { result ≤ length out.new }
    ensures len { length out.new ≡ length out.old }
{
    let none = u8x16::splat(0);
    let after_4 = bytes.shuffle(
        none,
        [4, 5, 6, 7, 8, 9, 10, 11, 12, 13, 14, 15, 16, 17, 18, 19],
    );
    let after_8 = bytes.shuffle(
        none,
        [8, 9, 10, 11, 12, 13, 14, 15, 16, 17, 18, 19, 20, 21, 22, 23],
    );
    let after_12 = bytes.shuffle(
        none,
        [
            12, 13, 14, 15, 16, 17, 18, 19, 20, 21, 22, 23, 24, 25, 26, 27,
        ],
    );
    let second = write_four(bytes, marks % 16, out, 0);
    let third = write_four(after_4, marks / 16 % 16, out, second);
    let fourth = write_four(after_8, marks / 256 % 16, out, third);
    write_four(after_12, marks / 4096, out, fourth)
}

// Writes the characters that begin with the marked bytes among the first four bytes, starting at an index of
// a slice. Returns the index after these characters. Always writes four characters, so that there is no
// branch on their number.
#[inline(always)]
fn write_four(bytes: u8x16, marks: usize, out: &mut [char], at: usize) -> usize
    requires marks { marks < 16 }
    requires long { at + 4 ≤ length out.old }
    ensures items { take result out.new ≡ take at out.old ++ map short_char (pairs 4 marks bytes) }
    ensures count { result ≤ at + 4 }
    ensures len { length out.new ≡ length out.old }
{
    let decoded = decoded(pairs(bytes, marks)).to_array();
    let four = [
        valid(decoded[0]),
        valid(decoded[1]),
        valid(decoded[2]),
        valid(decoded[3]),
    ];
    out[at..at + 4].copy_from_slice(&four);
    at + marks.count_ones() as usize
}

// Moves each marked byte among the first four bytes, together with the byte after it, to a lane of its own.
#[inline(always)]
fn pairs(bytes: u8x16, marks: usize) -> u32x4
    requires { marks < 16 }
    ensures { take (length (pairs 4 marks bytes)) result ≡ pairs 4 marks bytes }
{
    u32x4::from_le_bytes(bytes.swizzle_dyn(u8x16::from_array(PAIRS[marks])))
}

// Decodes a character from each pair of bytes.
#[inline(always)]
fn decoded(pairs: u32x4) -> u32x4
    ensures characters { result ≡ map short_char pairs }
    ensures len { length result ≡ 4 }
{
    let first = pairs & u32x4::splat(0xff);
    let second = pairs >> u32x4::splat(8) & u32x4::splat(0x3f);
    let long = ((pairs & u32x4::splat(0x1f)) << u32x4::splat(6)) + second;
    first.simd_lt(u32x4::splat(0x80)).select(first, long)
}

// Converts a code point to a character. Every code point of at most two bytes in UTF-8 is a character.
#[inline(always)]
fn valid(code: u32) -> char
    requires { code < 0x800 }
    ensures { result ≡ code }
{
    match char::from_u32(code) {
        Some(c) => c,
        None => unreachable!(),
    }
}
