//! Finds paragraph boundaries in the bytes of UTF-8 text. In Unicode's data files, only a few characters end
//! a paragraph, so the text between them is not decoded.
ghost use Rattle.std.specs.Prelude.{◌≡◌, ℕ, ◌<◌, ◌≤◌, ◌+◌, true, false, None, length, map, slice_index};
ghost use Rattle.std.specs.Str.{IsCharBoundary};
ghost use Rattle.ucd.specs.Tables.{class_of};
ghost use Rattle.bidi.specs.Cuts.{cut, SplitsAt};
ghost use Rattle.bidi.specs.TextCuts.{AreUsual, FindsEnd, FindsEndAfter, BeginsAfter, leads_at, may_lead};
ghost use Rattle.std.specs.List.{range_with_len};
ghost use Rattle.std.specs.Simd.Lanes.{mask_l};

use crate::cuts::is_cut;
use std::simd::prelude::*;
use ucd::Tables;

// The number of text positions that are tested together.
const AT_ONCE: usize = 32;

// The number of bytes that the tests at these positions read.
const BLOCK: usize = AT_ONCE + 2;

/// Finds the first paragraph boundary in the concatenation of `before` and `text`. Returns its byte index in
/// `text`, or `None` if there is no boundary. `before` must contain no boundary. A boundary between `before`
/// and `text` has index 0.
pub fn first_cut_in_text(tables: &Tables, before: &[char], text: &str) -> Option<usize>
    requires uncut { SplitsAt (cut (class_of tables.now)) before.now None }
    ensures { FindsEndAfter (cut (class_of tables.now)) before.now text.now result }
{
    if begins_after(tables, before.last().copied(), text) {
        return Some(0);
    }
    first_end(tables, text, has_usual_separators(tables))
}

// Returns whether only U+0085, U+2029 and characters below U+0020 end a paragraph.
fn has_usual_separators(tables: &Tables) -> bool
    ensures { result ≡ true → AreUsual (cut (class_of tables.now)) }
{
    tables.has_usual_separators()
}

// Returns whether there is a paragraph boundary between a text and the last character before it, if there is
// such a character.
fn begins_after(tables: &Tables, last: Option<char>, text: &str) -> bool
    ensures { BeginsAfter (cut (class_of tables.now)) last text.now result }
{
    let (Some(last), Some(first)) = (last, text.chars().next()) else {
        return false;
    };
    is_cut(tables, last, first)
}

// Returns the length in bytes of a text's first paragraph, or `None` if no other paragraph follows it.
fn first_end(tables: &Tables, text: &str, is_usual: bool) -> Option<usize>
    requires { is_usual ≡ true → AreUsual (cut (class_of tables.now)) }
    ensures { FindsEnd (cut (class_of tables.now)) text.now result }
{
    let mut rest = text;
    loop {
        let (_, after) = rest.split_at(plain_len(rest, is_usual));
        let mut characters = after.chars();
        let Some(c) = characters.next() else {
            return None;
        };
        rest = characters.as_str();
        let Some(next) = rest.chars().next() else {
            return None;
        };
        if is_cut(tables, c, next) {
            return Some(text.len() - rest.len());
        }
    }
}

// Returns the length in bytes of a prefix of the text in which no paragraph separator begins. The length is 0
// if `is_usual` is false.
fn plain_len(text: &str, is_usual: bool) -> usize
    ensures boundary { IsCharBoundary text.now result }
    ensures plain { (k : ℕ) → k < result → leads_at text.now k ≡ false }
    ensures unknown { is_usual ≡ false → result ≡ 0 }
{
    if is_usual {
        next_lead(text.as_bytes())
    } else {
        0
    }
}

// Returns the index of the first byte that may begin a paragraph separator, or the length if there is none.
fn next_lead(bytes: &[u8]) -> usize
    ensures within { result ≤ length bytes.now }
    ensures before { (k : ℕ) → k < result → leads_at bytes.now k ≡ false }
    ensures here { result < length bytes.now → leads_at bytes.now result ≡ true }
{
    // Shortcut for a run of separators: tests one position, not a whole block, for each separator.
    if bytes.is_empty() || is_lead(bytes, 0) {
        return 0;
    }
    let mut at = 1;
    while at + BLOCK <= bytes.len() {
        let first = first_lead(&bytes[at..at + BLOCK]);
        if first < AT_ONCE {
            return at + first;
        }
        at += AT_ONCE;
    }
    if bytes.len() >= BLOCK {
        // The last block may overlap the one before.
        let last = bytes.len() - BLOCK;
        let first = first_lead(&bytes[last..last + BLOCK]);
        if first < AT_ONCE {
            return last + first;
        }
        at = last + AT_ONCE;
    }
    while at < bytes.len() && !is_lead(bytes, at) {
        at += 1;
    }
    at
}

// Returns the first index of a block at which a paragraph separator may begin, or `AT_ONCE` if there is none.
fn first_lead(block: &[u8]) -> usize
    requires { length block.now ≡ BLOCK }
    ensures within { result ≤ AT_ONCE }
    ensures before { (k : ℕ) → k < result → leads_at block.now k ≡ false }
    ensures here { result < AT_ONCE → leads_at block.now result ≡ true }
{
    let leads = leads_in(block);
    if leads == 0 {
        AT_ONCE
    } else {
        leads.trailing_zeros() as usize
    }
}

// Returns a bit mask in which bit k is set if a paragraph separator may begin at position k of a block, for
// each k below `AT_ONCE`.
fn leads_in(block: &[u8]) -> u64
    requires { length block.now ≡ BLOCK }
    ensures { result ≡ mask_l (map (leads_at block.now) (range_with_len 0 AT_ONCE)) }
{
    let first = u8x32::from_slice(block);
    let second = u8x32::from_slice(&block[1..]);
    let third = u8x32::from_slice(&block[2..]);
    let begins_nel = first.simd_eq(u8x32::splat(0xc2)) & second.simd_eq(u8x32::splat(0x85));
    let ends_ps = second.simd_eq(u8x32::splat(0x80)) & third.simd_eq(u8x32::splat(0xa9));
    let begins_ps = first.simd_eq(u8x32::splat(0xe2)) & ends_ps;
    (first.simd_lt(u8x32::splat(0x20)) | (begins_nel | begins_ps)).to_bitmask()
}

// Returns whether a paragraph separator may begin at an index.
fn is_lead(bytes: &[u8], at: usize) -> bool
    requires { at < length bytes.now }
    ensures { result ≡ leads_at bytes.now at }
{
    let first = bytes[at];
    if first < 0x20 {
        return true;
    }
    if first != 0xc2 && first != 0xe2 {
        return false;
    }
    may_lead(first, byte_at(bytes, at + 1), byte_at(bytes, at + 2))
}

// Returns the byte at an index, or 0 past the end.
fn byte_at(bytes: &[u8], at: usize) -> u8
    ensures { result ≡ slice_index bytes.now at }
{
    if at < bytes.len() { bytes[at] } else { 0 }
}

// Returns whether a paragraph separator may begin with these three bytes. Has no branches.
fn may_lead(first: u8, second: u8, third: u8) -> bool
    ensures { result ≡ may_lead first second third }
{
    (first < 0x20)
        | (((first == 0xc2) & (second == 0x85))
            | ((first == 0xe2) & ((second == 0x80) & (third == 0xa9))))
}
