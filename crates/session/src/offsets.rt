//! Converts positions to offsets in UTF-8 bytes or UTF-16 code units, and back. The paragraph is found with
//! the store's sums. A paragraph in which each character is one unit is not scanned.
ghost use Rattle.std.specs.Prelude.{◌≡◌, ◌*◌, ◌<◌, ◌≤◌, List, ℕ, length, slice_index, sum_by, take};
ghost use Rattle.session.specs.Kept.{text_of};
ghost use Rattle.session.specs.Offsets.{before_in, length_in, offset_of, position_of, size_in};
ghost use Rattle.session.specs.Offsets.{units_of, IsUnitAt};
ghost use Rattle.session.specs.declared.offsets.Encoding.TheVariants.{Utf8, Utf16};
ghost use Rattle.store.specs.Finding.{Finds};

use crate::borders::front;
use crate::kept::Kept;
use store::{Found, Measured, ParagraphStore};

// The number of characters in a block. The number of units in a block fits in a `u32`, so vector instructions
// can add four numbers at a time.
const BLOCK: usize = 65_536;

/// An encoding whose code units are counted.
#[derive(Clone, Copy)]
pub enum Encoding {
    Utf8,
    Utf16,
}

impl Encoding {
    // Returns the number of units of a character.
    fn size_of(self, c: char) -> usize
        ensures size { result ≡ size_in self c }
        ensures few { result ≤ 4 }
    {
        match self {
            Encoding::Utf8 => c.len_utf8(),
            Encoding::Utf16 => c.len_utf16(),
        }
    }

    /// Returns the number of units in a text.
    pub fn length(self, text: &[char]) -> usize
        ensures { result ≡ length_in self text.now }
    {
        let mut rest = text;
        let mut length = 0;
        while rest.len() > BLOCK {
            let (block, after) = rest.split_at(BLOCK);
            length += self.length_of_block(block) as usize;
            rest = after;
        }
        length + self.length_of_block(rest) as usize
    }

    // Returns the number of units in a block of characters.
    fn length_of_block(self, block: &[char]) -> u32
        requires { length block.now ≤ BLOCK }
        ensures units { result ≡ length_in self block.now }
        ensures few { result ≤ 4 * length block.now }
    {
        let mut length = 0;
        for c in block {
            length += self.size_of(*c) as u32;
        }
        length
    }

    // Returns the number of units in a paragraph.
    fn units(self, kept: &Kept) -> usize
        ensures { result ≡ units_of self kept.now }
    {
        match self {
            Encoding::Utf8 => kept.bytes(),
            Encoding::Utf16 => kept.utf16(),
        }
    }

    // Returns the number of units in the text.
    fn total<S: ParagraphStore<Kept>>(self, store: &S) -> usize
        ensures { result ≡ sum_by (units_of self) (S.items store.now) }
    {
        match self {
            Encoding::Utf8 => store.total_bytes(),
            Encoding::Utf16 => store.total_utf16(),
        }
    }

    // Finds the paragraph that contains a unit.
    fn find<S: ParagraphStore<Kept>>(self, store: &S, offset: usize) -> Found
        requires { offset < sum_by (units_of self) (S.items store.now) }
        ensures { Finds (units_of self) (λ kept. length kept.text) (λ kept. length kept.lines)
            (S.items store.now) offset result }
    {
        match self {
            Encoding::Utf8 => store.find_byte(offset),
            Encoding::Utf16 => store.find_utf16(offset),
        }
    }

    // Returns the number of units before the paragraph that was found.
    fn before(self, found: Found) -> usize
        ensures { result ≡ before_in self found }
    {
        match self {
            Encoding::Utf8 => found.bytes_before,
            Encoding::Utf16 => found.utf16_before,
        }
    }
}

// Returns the largest character, or U+0000 if the text is empty.
fn largest(text: &[char]) -> char
    ensures { (k : ℕ) → k < length text.now → slice_index text.now k ≤ result }
{
    let mut largest = '\0';
    for c in text {
        if *c > largest {
            largest = *c;
        }
    }
    largest
}

// Returns the number of UTF-8 bytes of a character below U+0800.
fn size_below_800(c: char) -> u32
    requires { c < 2048 }
    ensures size { result ≡ size_in Utf8 c }
    ensures few { result ≤ 2 }
{
    if c < '\u{80}' { 1 } else { 2 }
}

// Returns the number of UTF-8 bytes in a block of characters below U+0800.
fn length_below_800(block: &[char]) -> u32
    requires few { length block.now ≤ BLOCK }
    requires small { (k : ℕ) → k < length block.now → slice_index block.now k < 2048 }
    ensures { result ≡ length_in Utf8 block.now }
{
    let mut length = 0;
    for c in block {
        length += size_below_800(*c);
    }
    length
}

/// Returns the numbers of UTF-8 bytes and of UTF-16 code units in a text.
pub fn lengths(text: &[char]) -> (usize, usize)
    ensures bytes { result.0 ≡ length_in Utf8 text.now }
    ensures utf16 { result.1 ≡ length_in Utf16 text.now }
{
    // Fast paths: in most texts, each character is one UTF-16 code unit and at most two UTF-8 bytes. Finding
    // the largest character is faster than computing the sums.
    let largest = largest(text);
    if largest < '\u{80}' {
        return (text.len(), text.len());
    }
    if largest < '\u{800}' && text.len() <= BLOCK {
        return (length_below_800(text) as usize, text.len());
    }
    let bytes = Encoding::Utf8.length(text);
    if largest < '\u{10000}' {
        return (bytes, text.len());
    }
    (bytes, Encoding::Utf16.length(text))
}

/// Returns the number of UTF-16 code units in a text, given its length in UTF-8 bytes.
pub fn utf16_length(text: &[char], bytes: usize) -> usize
    requires { bytes ≡ length_in Utf8 text.now }
    ensures { result ≡ length_in Utf16 text.now }
{
    // Fast paths: in most texts, each character is one UTF-16 code unit, and in ASCII one byte.
    if bytes == text.len() {
        return text.len();
    }
    if largest(text) < '\u{10000}' {
        return text.len();
    }
    Encoding::Utf16.length(text)
}

// Returns the number of units in the first `count` characters of a paragraph.
fn length_to(kept: &Kept, count: usize, encoding: Encoding) -> usize
    requires { count ≤ length kept.now.text }
    ensures { result ≡ length_in encoding (take count kept.now.text) }
{
    if encoding.units(kept) == kept.chars() {
        return count;
    }
    encoding.length(front(kept.laid().text(), count))
}

// Returns the position of the character that contains a unit of a text, and the index of the unit within it.
fn unit_at(text: &[char], offset: usize, encoding: Encoding) -> (usize, usize)
    requires { offset < length_in encoding text.now }
    ensures { IsUnitAt encoding text.now offset result.0 result.1 }
{
    let mut rest = offset;
    for (pos, c) in text.iter().enumerate() {
        let size = encoding.size_of(*c);
        if rest < size {
            return (pos, rest);
        }
        rest -= size;
    }
    unreachable!()
}

// Returns the position of the character that contains a unit of a paragraph, and the index of the unit within
// it.
fn unit_in(kept: &Kept, offset: usize, encoding: Encoding) -> (usize, usize)
    requires { offset < units_of encoding kept.now }
    ensures { IsUnitAt encoding kept.now.text offset result.0 result.1 }
{
    if encoding.units(kept) == kept.chars() {
        return (offset, 0);
    }
    unit_at(kept.laid().text(), offset, encoding)
}

/// Returns the number of units before a position, or `None` past the end.
pub fn offset_of<S: ParagraphStore<Kept>>(
    store: &S,
    pos: usize,
    encoding: Encoding,
) -> Option<usize>
    ensures { result ≡ offset_of encoding (text_of (S.items store.now)) pos }
{
    // The contract of `total` bounds the number of units.
    let total = encoding.total(store);
    let len = store.total_chars();
    if pos > len {
        return None;
    }
    if pos == len {
        return Some(total);
    }
    let found = store.find_char(pos);
    match store.get(found.index) {
        Some(kept) => Some(encoding.before(found) + length_to(kept, found.rest, encoding)),
        None => unreachable!(),
    }
}

/// Returns the position of the character that contains a unit, and the index of the unit within it. At the
/// end, these are the number of characters and 0. Returns `None` past the end.
pub fn position_of<S: ParagraphStore<Kept>>(
    store: &S,
    offset: usize,
    encoding: Encoding,
) -> Option<(usize, usize)>
    ensures { result ≡ position_of encoding (text_of (S.items store.now)) offset }
{
    let (total, len) = (encoding.total(store), store.total_chars());
    if offset > total {
        return None;
    }
    if offset == total {
        return Some((len, 0));
    }
    let found = encoding.find(store, offset);
    match store.get(found.index) {
        Some(kept) => {
            let (pos, rest) = unit_in(kept, found.rest, encoding);
            Some((found.chars_before + pos, rest))
        }
        None => unreachable!(),
    }
}
