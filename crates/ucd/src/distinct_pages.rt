//! Divides the properties of all code points into pages for an image, and stores equal pages only once.
ghost use Rattle.std.specs.Prelude.{◌≡◌, ℕ, ◌+◌, ◌*◌, ◌%◌, ◌<◌, ◌≤◌, ◌++◌, ◌⊎◌};
ghost use Rattle.std.specs.Prelude.{true, false, length, slice_index_or, IfOk, OnOk, MatchOption};
ghost use Rattle.ucd.specs.Answers.{unnamed};
ghost use Rattle.ucd.specs.DistinctPages.{AreEntriesOf, AreDistinct, IsPage, HoldsPages};
ghost use Rattle.ucd.specs.Pages.{HasPage};
ghost use Rattle.ucd.specs.declared.version.Version.{Version};

use crate::pages::{PAGE, PLACES, are_equal};
use crate::properties::Properties;
use std::alloc::{AllocError, Global};

/// The page number of each block, and the pages, no two of which are equal.
#[derive(Drop)]
pub struct DistinctPages {
    pub(crate) index: Vec<u16>,
    pub(crate) entries: Vec<Properties>,
}

/// Divides the properties of all code points into pages, and stores equal pages only once.
pub fn distinct_pages(alloc: Global, points: &[Properties]) -> Result<DistinctPages, AllocError>
    requires points { length points.now ≡ 1114112 }
    ensures pages { IfOk result (λ pages.
        HoldsPages (λ c. slice_index_or points.now c unnamed) pages.index.items pages.entries.items 4352) }
    ensures distinct { IfOk result (λ pages. AreDistinct pages.entries.items) }
    ensures valid { IfOk result (λ pages. (version : Version)
        → AreEntriesOf version points.now → AreEntriesOf version pages.entries.items) }
{
    let mut index = Vec::with_capacity(alloc, PLACES)?;
    let mut entries = Vec::new(alloc);
    for place in 0..PLACES {
        let page = &points[place * PAGE..place * PAGE + PAGE];
        let number = number_of(&mut entries, page)?;
        index.push(number)?;
    }
    Ok(DistinctPages { index, entries })
}

// Returns the number of `page` in `entries`. If `entries` contains no equal page, appends `page`.
fn number_of(entries: &mut Vec<Properties>, page: &[Properties]) -> Result<u16, AllocError>
    requires page { length page.now ≡ 256 }
    requires whole { length entries.old.items % 256 ≡ 0 }
    requires room { length entries.old.items ≤ 256 * 4352 }
    ensures page { IfOk result (HasPage entries.old.items entries.new.items page.now) }
    ensures distinct { OnOk result (AreDistinct entries.old.items → AreDistinct entries.new.items) }
    ensures same { OnOk result ((entries.new.items ≡ entries.old.items)
        ⊎ (entries.new.items ≡ entries.old.items ++ page.now)) }
{
    match page_among(entries, page) {
        Some(number) => Ok(number as u16),
        None => append_page(entries, page),
    }
}

// Appends a page, and returns its number.
fn append_page(entries: &mut Vec<Properties>, page: &[Properties]) -> Result<u16, AllocError>
    requires page { length page.now ≡ 256 }
    requires whole { length entries.old.items % 256 ≡ 0 }
    requires room { length entries.old.items ≤ 256 * 4352 }
    ensures page { IfOk result (HasPage entries.old.items entries.new.items page.now) }
    ensures items { OnOk result (entries.new.items ≡ entries.old.items ++ page.now) }
{
    let end = entries.len();
    entries.extend_from_slice(page)?;
    Ok((end / PAGE) as u16)
}

// Returns the number of a page in `entries` that equals `page`, if there is one. Tries the last page first,
// because most pages equal the page before them.
fn page_among(entries: &[Properties], page: &[Properties]) -> Option<usize>
    requires page { length page.now ≡ 256 }
    requires whole { length entries.now % 256 ≡ 0 }
    ensures { MatchOption result
        ((p : ℕ) → p * 256 + 256 ≤ length entries.now → ¬ (IsPage entries.now p page.now))
        (λ p. (p * 256 + 256 ≤ length entries.now) × IsPage entries.now p page.now) }
{
    let count = entries.len() / PAGE;
    for back in 0..count {
        let number = count - 1 - back;
        if is_page(entries, number, page) {
            return Some(number);
        }
    }
    None
}

// Returns whether the page with this number equals `page`.
fn is_page(entries: &[Properties], number: usize, page: &[Properties]) -> bool
    requires page { length page.now ≡ 256 }
    requires within { number * 256 + 256 ≤ length entries.now }
    ensures yes { result ≡ true → IsPage entries.now number page.now }
    ensures no { result ≡ false → ¬ (IsPage entries.now number page.now) }
{
    are_equal(&entries[number * PAGE..number * PAGE + PAGE], page)
}
