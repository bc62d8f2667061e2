//! The properties of each code point, in pages of 256 code points. An index holds the page number of each
//! block of 256 code points. Adjacent equal pages are stored once.
ghost use Rattle.std.specs.Prelude.{◌≡◌, ◌≢◌, ℕ, ◌+◌, ◌*◌, ◌%◌, ◌<◌, ◌≤◌};
ghost use Rattle.std.specs.Prelude.{length, slice_index, slice_index_or};
ghost use Rattle.std.specs.Prelude.{nat_le, nat_lt, ◌&&◌, false, true, if◌then◌else◌, IfOk, IsTrue};
ghost use Rattle.ucd.specs.Answers.{unnamed};
ghost use Rattle.ucd.specs.Layers.{Layers};
ghost use Rattle.ucd.specs.Pages.{answers_at, EndsWithPage, HasPage};
ghost use Rattle.ucd.specs.Runs.{ReachesTo};
ghost use Rattle.ucd.specs.Said.{said, layers_of};
ghost use Rattle.ucd.specs.Separators.{may_separate, IsUsual};
ghost use Rattle.ucd.specs.declared.bidi_class.BidiClass.TheVariants.{B};

use crate::entries::Entries;
use crate::properties::Properties;
use crate::runs::Runs;
use crate::version::Version;
use std::alloc::{AllocError, Global};

/// The number of code points in a page.
pub const PAGE: usize = 256;

/// The number of pages that all code points would need if no page were shared.
pub const PLACES: usize = 4_352;

/// The concatenated pages, and the page number of each block of 256 code points.
#[derive(Debug, Drop)]
pub struct Pages {
    pub(crate) index: Vec<u16>,
    pub(crate) entries: Vec<Properties>,
    pub(crate) has_usual_separators: bool,
    ghost places: { length index.items ≡ 4352 },
    ghost within: { (p : ℕ) → p < 4352 → slice_index index.items p * 256 + 256 ≤ length entries.items },
    ghost usual: { has_usual_separators ≡ true
        → (c : ℕ) → c < 1114112 → IsUsual c (answers_at index.items entries.items c) },
    ghost unusual: { has_usual_separators ≡ false
        → ¬ ((c : ℕ) → c < 1114112 → IsUsual c (answers_at index.items entries.items c)) },
}

impl Pages {
    /// Returns the properties of a character.
    pub fn get(&self, c: char) -> Properties
        ensures { result ≡ answers_at self.now.index.items self.now.entries.items c }
    {
        entry_of(&self.index, &self.entries, c)
    }
}

impl Pages {
    /// Returns the properties of a code point.
    pub(crate) fn at(&self, point: usize) -> Properties
        requires { point < 1114112 }
        ensures { result ≡ answers_at self.now.index.items self.now.entries.items point }
    {
        self.entries[self.index[point / PAGE] as usize * PAGE + point % PAGE]
    }
}

/// Returns the properties of a character, given the page number of each block and the pages.
#[inline]
pub fn entry_of(index: &[u16], entries: &[Properties], c: char) -> Properties
    requires places { length index.now ≡ 4352 }
    requires within { (p : ℕ) → p < 4352 → slice_index index.now p * 256 + 256 ≤ length entries.now }
    ensures answers { result ≡ answers_at index.now entries.now c }
    ensures point { c < 1114112 }
{
    let point = c as usize;
    entries[index[point / PAGE] as usize * PAGE + point % PAGE]
}

/// Returns the pages of all code points. A block in the same run as the whole block before it is not
/// examined, because both have the same page.
pub fn pages_of(alloc: Global, version: Version, entries: &Entries) -> Result<Pages, AllocError>
    ensures { IfOk result (λ pages. (c : ℕ) → c < 1114112
        → answers_at pages.index.items pages.entries.items c ≡ said (layers_of version entries.now) c) }
{
    let mut index = Vec::with_capacity(alloc, PLACES)?;
    let mut pages = Vec::new(alloc);
    let mut page = unnamed_points(alloc, PAGE)?;
    let mut runs = Runs::of(version, entries);
    for place in 0..PLACES {
        let start = place * PAGE;
        let run = runs.run();
        if run.start + PAGE <= start && start + PAGE <= run.end {
            let number = index[place - 1];
            index.push(number)?;
            continue;
        }
        runs = fill(runs, start, &mut page);
        let number = page_number(&mut pages, &page)?;
        index.push(number)?;
    }
    let has_usual_separators = are_usual(&index, &pages);
    Ok(Pages {
        index,
        entries: pages,
        has_usual_separators,
    })
}

// Returns the properties of `len` code points that no line lists.
fn unnamed_points(alloc: Global, len: usize) -> Result<Vec<Properties>, AllocError>
    ensures { IfOk result (λ points. length points.items ≡ len) }
{
    vec![in alloc; Properties::unnamed(); len]
}

// Fills a page with the properties of the code points from `start` on. Returns the runs, moved to the run in
// which the page ends.
fn fill<'a>(runs: Runs<'a>, start: usize, page: &mut [Properties]) -> Runs<'a>
    requires page { length page.old ≡ 256 }
    requires start { start + 256 ≤ 1114112 }
    requires run { (runs.run.start ≤ start) × (start ≤ runs.run.end) × (runs.run.end ≤ 1114112) }
    ensures reaches { (k : Layers) → ReachesTo k runs.entry start → ReachesTo k result (start + 256) }
    ensures page { (k : Layers) → ReachesTo k runs.entry start
        → (i : ℕ) → i < 256 → slice_index_or page.new i unnamed ≡ said k (start + i) }
{
    let mut runs = runs;
    let mut point = start;
    while point < start + PAGE {
        runs.move_to(point);
        let run = runs.run();
        let stop = run.end.min(start + PAGE);
        set_all(page, point - start, stop - start, run.properties);
        point = stop;
    }
    runs
}

// Sets all properties in `first..end`.
fn set_all(page: &mut [Properties], first: usize, end: usize, properties: Properties)
    requires { (first ≤ end) × (end ≤ length page.old) }
    ensures { (i : ℕ) → slice_index_or page.new i unnamed
        ≡ (if nat_le first i && nat_lt i end then properties else slice_index_or page.old i unnamed) }
{
    for i in first..end {
        page[i] = properties;
    }
}

// Returns whether every code point of class B is U+0085, U+2029 or below U+0020.
fn are_usual(index: &[u16], entries: &[Properties]) -> bool
    requires places { length index.now ≡ 4352 }
    requires within { (p : ℕ) → p < 4352 → slice_index index.now p * 256 + 256 ≤ length entries.now }
    ensures yes { result ≡ true
        → (c : ℕ) → c < 1114112 → IsUsual c (answers_at index.now entries.now c) }
    ensures no { result ≡ false
        → ¬ ((c : ℕ) → c < 1114112 → IsUsual c (answers_at index.now entries.now c)) }
{
    let ascii = block_has_separator(index, entries, 0, 0x20, 0x85);
    let latin = block_has_separator(index, entries, 0, 0x86, PAGE);
    let low = blocks_have_separator(index, entries, 1, 0x20);
    let before = block_has_separator(index, entries, 0x20, 0, 0x29);
    let after = block_has_separator(index, entries, 0x20, 0x2a, PAGE);
    let high = blocks_have_separator(index, entries, 0x21, PLACES);
    !(ascii | latin | low | before | after | high)
}

// Returns whether any code point of the blocks in `first..end` has class B. Skips a block that has the same
// page as the block before it.
fn blocks_have_separator(index: &[u16], entries: &[Properties], first: usize, end: usize) -> bool
    requires places { length index.now ≡ 4352 }
    requires within { (p : ℕ) → p < 4352 → slice_index index.now p * 256 + 256 ≤ length entries.now }
    requires blocks { (first ≤ end) × (end ≤ 4352) }
    ensures no { result ≡ false → (c : ℕ) → first * 256 ≤ c → c < end * 256
        → (answers_at index.now entries.now c).bidi_class ≢ B }
    ensures yes { result ≡ true → ¬ ((c : ℕ) → first * 256 ≤ c → c < end * 256
        → (answers_at index.now entries.now c).bidi_class ≢ B) }
{
    let mut found = false;
    for place in first..end {
        if place > first && index[place] == index[place - 1] {
            continue;
        }
        found |= block_has_separator(index, entries, place, 0, PAGE);
    }
    found
}

// Returns whether any of the code points in `first..end` of a block has class B.
fn block_has_separator(
    index: &[u16],
    entries: &[Properties],
    place: usize,
    first: usize,
    end: usize,
) -> bool
    requires places { length index.now ≡ 4352 }
    requires within { (p : ℕ) → p < 4352 → slice_index index.now p * 256 + 256 ≤ length entries.now }
    requires block { (place < 4352) × (first ≤ end) × (end ≤ 256) }
    ensures no { result ≡ false → (c : ℕ) → place * 256 + first ≤ c → c < place * 256 + end
        → (answers_at index.now entries.now c).bidi_class ≢ B }
    ensures yes { result ≡ true → ¬ ((c : ℕ) → place * 256 + first ≤ c → c < place * 256 + end
        → (answers_at index.now entries.now c).bidi_class ≢ B) }
{
    let start = index[place] as usize * PAGE;
    has_separator(entries, start + first, start + end)
}

// Returns whether any of the entries in `first..end` has class B. Reads all these entries, which is faster
// than exiting the loop early.
fn has_separator(entries: &[Properties], first: usize, end: usize) -> bool
    requires { (first ≤ end) × (end ≤ length entries.now) }
    ensures no { result ≡ false → (c : ℕ) → first ≤ c → c < end
        → (slice_index_or entries.now c unnamed).bidi_class ≢ B }
    ensures yes { result ≡ true → ¬ ((c : ℕ) → first ≤ c → c < end
        → (slice_index_or entries.now c unnamed).bidi_class ≢ B) }
{
    let mut found = false;
    for c in first..end {
        found |= entries[c].is_separator();
    }
    found
}

// Returns the number of a page. If the page equals the last page in `entries`, returns that page's number.
// Otherwise, appends the page.
fn page_number(entries: &mut Vec<Properties>, page: &[Properties]) -> Result<u16, AllocError>
    requires page { length page.now ≡ 256 }
    requires whole { length entries.old.items % 256 ≡ 0 }
    requires room { length entries.old.items ≤ 256 * 4352 }
    ensures page { IfOk result (HasPage entries.old.items entries.new.items page.now) }
    ensures once { EndsWithPage entries.old.items page.now → entries.new.items ≡ entries.old.items }
{
    let end = entries.len();
    if end >= PAGE && are_equal(&entries[end - PAGE..], page) {
        return Ok((end / PAGE - 1) as u16);
    }
    entries.extend_from_slice(page)?;
    Ok((end / PAGE) as u16)
}

/// Returns whether two pages are equal. Compares all items without leaving the loop early, because most pages
/// are equal.
pub(crate) fn are_equal(one: &[Properties], other: &[Properties]) -> bool
    requires { length one.now ≡ length other.now }
    ensures same { IsTrue result → one.now ≡ other.now }
    ensures all { one.now ≡ other.now → IsTrue result }
{
    let mut equal = true;
    for k in 0..one.len() {
        equal &= one[k].is(other[k]);
    }
    equal
}
