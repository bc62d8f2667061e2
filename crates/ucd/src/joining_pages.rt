//! The joining type of each code point, in pages of 256 code points. An index holds the page number of each
//! block of 256 code points. Adjacent equal pages are stored once.
ghost use Rattle.std.specs.Prelude.{◌≡◌, ℕ, ◌+◌, ◌*◌, ◌%◌, ◌<◌, ◌≤◌};
ghost use Rattle.std.specs.Prelude.{length, slice_index, slice_index_or, IfOk, IsTrue};
ghost use Rattle.ucd.specs.JoiningPages.{HasTypes, merged, merged_at, type_at};
ghost use Rattle.ucd.specs.declared.joining_type.JoiningType.TheVariants.{NonJoining};

use crate::joining_type::JoiningType;
use crate::pages::{PAGE, PLACES};
use std::alloc::{AllocError, Global};

/// The concatenated pages, and the page number of each block of 256 code points.
#[derive(Debug, Drop)]
pub struct JoiningPages {
    pub(crate) index: Vec<u16>,
    pub(crate) entries: Vec<JoiningType>,
    ghost places: { length index.items ≡ 4352 },
    ghost within: { (p : ℕ) → p < 4352 → slice_index index.items p * 256 + 256 ≤ length entries.items },
}

impl JoiningPages {
    /// Returns the joining type of a character.
    pub fn get(&self, c: char) -> JoiningType
        ensures { result ≡ type_at self.now.index.items self.now.entries.items c }
    {
        let point = c as usize;
        self.entries[self.index[point / PAGE] as usize * PAGE + point % PAGE]
    }
}

/// Returns the pages of all code points, given the joining types that ArabicShaping.txt and UnicodeData.txt
/// assign. The type from ArabicShaping.txt has precedence.
pub fn joining_pages(
    alloc: Global,
    shaping_types: &[Option<JoiningType>],
    data_types: &[Option<JoiningType>],
) -> Result<JoiningPages, AllocError>
    requires { (length shaping_types.now ≡ 1114112) × (length data_types.now ≡ 1114112) }
    ensures { IfOk result (λ pages. (c : ℕ) → c < 1114112
        → type_at pages.index.items pages.entries.items c ≡ merged_at shaping_types.now data_types.now c) }
{
    let mut index = Vec::with_capacity(alloc, PLACES)?;
    let mut entries = Vec::new(alloc);
    let mut page = empty_page(alloc, PAGE)?;
    for place in 0..PLACES {
        fill(&mut page, place * PAGE, shaping_types, data_types);
        let number = page_number(&mut entries, &page)?;
        index.push(number)?;
    }
    Ok(JoiningPages { index, entries })
}

// Returns the joining types of `len` code points that no line lists.
fn empty_page(alloc: Global, len: usize) -> Result<Vec<JoiningType>, AllocError>
    ensures { IfOk result (λ types. length types.items ≡ len) }
{
    vec![in alloc; JoiningType::NonJoining; len]
}

// Returns the joining type of a code point, given those that the two files assign to it, or `NonJoining`.
fn merged(shaping_type: Option<JoiningType>, data_type: Option<JoiningType>) -> JoiningType
    ensures { result ≡ merged shaping_type data_type }
{
    match shaping_type {
        Some(joining) => joining,
        None => data_type.unwrap_or(JoiningType::NonJoining),
    }
}

// Fills a page with the joining types of the code points from `start` on.
fn fill(
    page: &mut [JoiningType],
    start: usize,
    shaping_types: &[Option<JoiningType>],
    data_types: &[Option<JoiningType>],
)
    requires page { length page.old ≡ 256 }
    requires start { (start + 256 ≤ length shaping_types.now) × (start + 256 ≤ length data_types.now) }
    ensures len { length page.new ≡ 256 }
    ensures page { (k : ℕ) → k < 256
        → slice_index_or page.new k NonJoining ≡ merged_at shaping_types.now data_types.now (start + k) }
{
    for k in 0..PAGE {
        page[k] = merged(shaping_types[start + k], data_types[start + k]);
    }
}

// Returns the number of a page. If the page equals the last page in `entries`, returns that page's number.
// Otherwise, appends the page.
fn page_number(entries: &mut Vec<JoiningType>, page: &[JoiningType]) -> Result<u16, AllocError>
    requires page { length page.now ≡ 256 }
    requires whole { length entries.old.items % 256 ≡ 0 }
    requires room { length entries.old.items ≤ 256 * 4352 }
    ensures { IfOk result (HasTypes entries.old.items entries.new.items page.now) }
{
    let end = entries.len();
    if end >= PAGE && are_equal(&entries[end - PAGE..], page) {
        return Ok((end / PAGE - 1) as u16);
    }
    entries.extend_from_slice(page)?;
    Ok((end / PAGE) as u16)
}

// Returns whether two pages are equal. Compares all items without leaving the loop early, because most pages
// are equal.
fn are_equal(one: &[JoiningType], other: &[JoiningType]) -> bool
    requires { length one.now ≡ length other.now }
    ensures { IsTrue result → one.now ≡ other.now }
{
    let mut equal = true;
    for k in 0..one.len() {
        equal &= one[k] == other[k];
    }
    equal
}
