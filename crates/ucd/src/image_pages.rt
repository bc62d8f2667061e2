//! The pages of an image.
ghost use Rattle.std.specs.Prelude.{◌≡◌, ◌≢◌, ℕ, ◌+◌, ◌*◌, ◌%◌, ◌<◌, ◌≤◌, true, false};
ghost use Rattle.std.specs.Prelude.{length, slice_index, slice_index_or, IfOk, IsTrue};
ghost use Rattle.ucd.specs.Answers.{unnamed, answers_in};
ghost use Rattle.ucd.specs.ImagePages.{IsOrdinary};
ghost use Rattle.ucd.specs.Images.{image_version, page_number, entry_at, is_entry};
ghost use Rattle.ucd.specs.Pages.{answers_at};
ghost use Rattle.ucd.specs.Separators.{may_separate, IsUsual};

use crate::image_bytes::u16_at;
use crate::image_frame::{HEADER, PAGES_AT, image_version};
use crate::pages::{PAGE, PLACES, Pages};
use crate::properties::Properties;
use std::alloc::{AllocError, Global};

/// Returns whether the page number of each block belongs to a page in the image.
pub fn are_pages_known(bytes: &[u8], pages: usize) -> bool
    requires { 8736 ≤ length bytes.now }
    ensures yes { result ≡ true → (block : ℕ) → block < 4352 → page_number bytes.now block < pages }
    ensures no { result ≡ false → ¬ ((block : ℕ) → block < 4352 → page_number bytes.now block < pages) }
{
    let mut known = true;
    for block in 0..PLACES {
        known &= (u16_at(bytes, HEADER + 2 * block) as usize) < pages;
    }
    known
}

/// Returns whether each of the first `count` numbers in the pages encodes properties.
pub fn are_entries(bytes: &[u8], count: usize) -> bool
    requires { 8736 + 2 * count ≤ length bytes.now }
    ensures yes { result ≡ true → (i : ℕ) → i < count
        → IsTrue (is_entry (image_version bytes.now) (entry_at bytes.now i)) }
    ensures no { result ≡ false
        → ¬ ((i : ℕ) → i < count
        → IsTrue (is_entry (image_version bytes.now) (entry_at bytes.now i))) }
{
    let version = image_version(bytes);
    let mut valid = true;
    for i in 0..count {
        valid &= Properties::are_bits(version, u16_at(bytes, PAGES_AT + 2 * i));
    }
    valid
}

/// Returns the page number of each block.
pub fn index_in(alloc: Global, bytes: &[u8]) -> Result<Vec<u16>, AllocError>
    requires { 8736 ≤ length bytes.now }
    ensures len { IfOk result (λ index. length index.items ≡ 4352) }
    ensures each { IfOk result (λ index. (block : ℕ) → block < 4352
        → slice_index index.items block ≡ page_number bytes.now block) }
{
    let mut index = Vec::with_capacity(alloc, PLACES)?;
    for block in 0..PLACES {
        index.push(u16_at(bytes, HEADER + 2 * block))?;
    }
    Ok(index)
}

/// Returns the properties that the first `count` numbers in the pages encode.
pub fn entries_in(alloc: Global, bytes: &[u8], count: usize) -> Result<Vec<Properties>, AllocError>
    requires room { 8736 + 2 * count ≤ length bytes.now }
    requires valid { (i : ℕ) → i < count
        → IsTrue (is_entry (image_version bytes.now) (entry_at bytes.now i)) }
    ensures len { IfOk result (λ entries. length entries.items ≡ count) }
    ensures each { IfOk result (λ entries. (i : ℕ) → i < count
        → slice_index_or entries.items i unnamed ≡ answers_in (entry_at bytes.now i)) }
{
    let mut entries = Vec::with_capacity(alloc, count)?;
    for i in 0..count {
        entries.push(Properties::from_bits(u16_at(bytes, PAGES_AT + 2 * i)))?;
    }
    Ok(entries)
}

/// The pages of an image. `special` has a flag for each page (`special_pages`).
#[derive(Drop)]
pub struct ImagePages {
    pub(crate) index: Vec<u16>,
    pub(crate) entries: Vec<Properties>,
    special: Vec<bool>,
    ghost places: { length index.items ≡ 4352 },
    ghost within: { (p : ℕ) → p < 4352 → slice_index index.items p * 256 + 256 ≤ length entries.items },
    ghost pages: { length special.items * 256 ≡ length entries.items },
    ghost ordinary: { (p k : ℕ) → p < length special.items → k < 256
        → slice_index_or special.items p false ≡ false
        → IsOrdinary (slice_index_or entries.items (p * 256 + k) unnamed) },
}

// Returns, for each page, whether it contains a paragraph separator, a bracket, or a character with a mirror.
fn special_pages(alloc: Global, entries: &[Properties]) -> Result<Vec<bool>, AllocError>
    requires { length entries.now % 256 ≡ 0 }
    ensures len { IfOk result (λ special. length special.items * 256 ≡ length entries.now) }
    ensures ordinary { IfOk result (λ special. (p k : ℕ) → p < length special.items → k < 256
        → slice_index_or special.items p false ≡ false
        → IsOrdinary (slice_index_or entries.now (p * 256 + k) unnamed)) }
{
    let pages = entries.len() / PAGE;
    let mut special = Vec::with_capacity(alloc, pages)?;
    for page in 0..pages {
        special.push(is_special(entries, page * PAGE))?;
    }
    Ok(special)
}

// Returns whether the page that starts at an index contains a paragraph separator, a bracket, or a character
// with a mirror. Reads the whole page, which is faster than exiting the loop early.
fn is_special(entries: &[Properties], start: usize) -> bool
    requires { start + 256 ≤ length entries.now }
    ensures { result ≡ false → (k : ℕ) → k < 256
        → IsOrdinary (slice_index_or entries.now (start + k) unnamed) }
{
    let mut special = false;
    for k in 0..PAGE {
        special |= !entries[start + k].is_ordinary();
    }
    special
}

impl ImagePages {
    /// Creates the pages from the page number of each block and the concatenated entries.
    pub fn new(
        alloc: Global,
        index: Vec<u16>,
        entries: Vec<Properties>,
    ) -> Result<ImagePages, AllocError>
        requires places { length index.items ≡ 4352 }
        requires whole { length entries.items % 256 ≡ 0 }
        requires within { (p : ℕ) → p < 4352
            → slice_index index.items p * 256 + 256 ≤ length entries.items }
        ensures index { IfOk result (λ pages. pages.index.items ≡ index.items) }
        ensures entries { IfOk result (λ pages. pages.entries.items ≡ entries.items) }
    {
        let special = special_pages(alloc, &entries)?;
        Ok(ImagePages {
            index,
            entries,
            special,
        })
    }

    /// Returns the properties of a code point.
    pub fn at(&self, point: usize) -> Properties
        requires { point < 1114112 }
        ensures { result ≡ answers_at self.now.index.items self.now.entries.items point }
    {
        self.entries[self.index[point / PAGE] as usize * PAGE + point % PAGE]
    }

    /// Returns `true` only if a block contains no paragraph separator, no bracket, and no character with a
    /// mirror.
    pub fn is_ordinary(&self, block: usize) -> bool
        requires { block < 4352 }
        ensures { result ≡ true → (c : ℕ) → block * 256 ≤ c → c < block * 256 + 256
            → IsOrdinary (answers_at self.now.index.items self.now.entries.items c) }
    {
        !self.special[self.index[block] as usize]
    }

    // Returns whether every code point of class B in a block is U+0085, U+2029 or below U+0020.
    fn is_block_usual(&self, block: usize) -> bool
        requires { block < 4352 }
        ensures yes { result ≡ true → (c : ℕ) → block * 256 ≤ c → c < block * 256 + 256
            → IsUsual c (answers_at self.now.index.items self.now.entries.items c) }
        ensures no { result ≡ false → ¬ ((c : ℕ) → block * 256 ≤ c → c < block * 256 + 256
            → IsUsual c (answers_at self.now.index.items self.now.entries.items c)) }
    {
        if self.is_ordinary(block) {
            return true;
        }
        for c in block * PAGE..block * PAGE + PAGE {
            if !is_usual(self.at(c), c) {
                return false;
            }
        }
        true
    }

    // Returns whether every code point of class B is U+0085, U+2029 or below U+0020.
    fn are_usual(&self) -> bool
        ensures yes { result ≡ true → (c : ℕ) → c < 1114112
            → IsUsual c (answers_at self.now.index.items self.now.entries.items c) }
        ensures no { result ≡ false → ¬ ((c : ℕ) → c < 1114112
            → IsUsual c (answers_at self.now.index.items self.now.entries.items c)) }
    {
        for block in 0..PLACES {
            if !self.is_block_usual(block) {
                return false;
            }
        }
        true
    }

    /// Converts the pages of the image to pages of tables.
    pub fn into_pages(self) -> Pages
        ensures index { result.index.items ≡ self.index.items }
        ensures entries { result.entries.items ≡ self.entries.items }
    {
        let has_usual_separators = self.are_usual();
        let ImagePages {
            index,
            entries,
            special: _,
        } = self;
        Pages {
            index,
            entries,
            has_usual_separators,
        }
    }
}

// Returns whether the bidi class is not B, or the code point is U+0085, U+2029 or below U+0020.
fn is_usual(properties: Properties, c: usize) -> bool
    ensures yes { result ≡ true → IsUsual c properties }
    ensures no { result ≡ false → ¬ (IsUsual c properties) }
{
    !properties.is_separator() || may_separate(c)
}

// Returns whether the code point is U+0085, U+2029 or below U+0020.
fn may_separate(c: usize) -> bool
    ensures { result ≡ may_separate c }
{
    c < 0x20 || c == 0x85 || c == 0x2029
}
