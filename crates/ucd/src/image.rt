//! Decodes a compiled image of the tables.
ghost use Rattle.std.specs.Prelude.{◌≡◌, ◌≢◌, ℕ, ◌+◌, ◌*◌, ◌<◌, ◌≤◌, true, false};
ghost use Rattle.std.specs.Prelude.{length, IfOk, IfErr, OnOk};
ghost use Rattle.std.specs.BTreeMap.{get};
ghost use Rattle.std.specs.Ordering.{nat_cmp};
ghost use Rattle.ucd.specs.Answers.{answers_in};
ghost use Rattle.ucd.specs.ImagePages.{IsFlag};
ghost use Rattle.ucd.specs.Images.{bits_at, bracket_at, mirror_at, found, page_count, IsFramed, IsImageFault};
ghost use Rattle.ucd.specs.Images.{ArePagesKnown, AreEntries, ArePoints, AreBrackets, AreMirrors, AreFlags};
ghost use Rattle.ucd.specs.Images.{AreBracketFlags, AreMirrorFlags};
ghost use Rattle.ucd.specs.Pages.{answers_at};

use crate::bracket::{Bracket, Mirror};
use crate::image_fault::ImageFault;
use crate::image_frame::{bracket_count, brackets_at, mirror_count, mirrors_at, page_count};
use crate::image_pages::{ImagePages, are_entries, are_pages_known, entries_in, index_in};
use crate::image_points::{Point, are_flags_points, are_points_flagged, points_in};
use crate::pages::PAGE;
use std::alloc::{AllocError, Global};
use std::collections::BTreeMap;

/// Decodes the page numbers and the pages. Fails with `PageNumber`, `Entry` or `Memory`.
pub fn decode_pages(alloc: Global, bytes: &[u8]) -> Result<ImagePages, ImageFault>
    requires { IsFramed bytes.now }
    ensures known { IfOk result (λ _. ArePagesKnown bytes.now) }
    ensures valid { IfOk result (λ _. AreEntries bytes.now) }
    ensures answers { IfOk result (λ pages. (c : ℕ) → c < 1114112
        → answers_at pages.index.items pages.entries.items c ≡ answers_in (bits_at bytes.now c)) }
    ensures err { IfErr result (IsImageFault bytes.now) }
{
    let pages = page_count(bytes);
    if !are_pages_known(bytes, pages) {
        return Err(ImageFault::PageNumber);
    }
    if !are_entries(bytes, pages * PAGE) {
        return Err(ImageFault::Entry);
    }
    match stored_pages(alloc, bytes, pages) {
        Ok(pages) => Ok(pages),
        Err(_) => Err(ImageFault::Memory),
    }
}

// Decodes pages that have already been checked.
fn stored_pages(alloc: Global, bytes: &[u8], pages: usize) -> Result<ImagePages, AllocError>
    requires room { 8736 + 512 * pages ≤ length bytes.now }
    requires pages { pages ≡ page_count bytes.now }
    requires known { ArePagesKnown bytes.now }
    requires valid { AreEntries bytes.now }
    ensures { IfOk result (λ pages. (c : ℕ) → c < 1114112
        → answers_at pages.index.items pages.entries.items c ≡ answers_in (bits_at bytes.now c)) }
{
    let index = index_in(alloc, bytes)?;
    let entries = entries_in(alloc, bytes, pages * PAGE)?;
    ImagePages::new(alloc, index, entries)
}

/// Decodes the brackets of an image whose pages are valid. Fails with `Bracket` or `Memory`.
pub fn decode_brackets(alloc: Global, bytes: &[u8]) -> Result<BTreeMap<u32, Bracket>, ImageFault>
    requires framed { IsFramed bytes.now }
    requires known { ArePagesKnown bytes.now }
    requires valid { AreEntries bytes.now }
    ensures brackets { IfOk result (λ _. AreBrackets bytes.now) }
    ensures values { IfOk result (λ points. (c : ℕ) → get nat_cmp points c ≡ bracket_at bytes.now c) }
    ensures err { IfErr result (IsImageFault bytes.now) }
{
    match points_in(alloc, bytes, brackets_at(bytes), bracket_count(bytes)) {
        Ok(Some(brackets)) => Ok(brackets),
        Ok(None) => Err(ImageFault::Bracket),
        Err(_) => Err(ImageFault::Memory),
    }
}

/// Decodes the mirrors of an image whose pages and brackets are valid. Fails with `Mirror` or `Memory`.
pub fn decode_mirrors(alloc: Global, bytes: &[u8]) -> Result<BTreeMap<u32, Mirror>, ImageFault>
    requires framed { IsFramed bytes.now }
    requires known { ArePagesKnown bytes.now }
    requires valid { AreEntries bytes.now }
    requires brackets { AreBrackets bytes.now }
    ensures mirrors { IfOk result (λ _. AreMirrors bytes.now) }
    ensures values { IfOk result (λ points. (c : ℕ) → get nat_cmp points c ≡ mirror_at bytes.now c) }
    ensures err { IfErr result (IsImageFault bytes.now) }
{
    match points_in(alloc, bytes, mirrors_at(bytes), mirror_count(bytes)) {
        Ok(Some(mirrors)) => Ok(mirrors),
        Ok(None) => Err(ImageFault::Mirror),
        Err(_) => Err(ImageFault::Memory),
    }
}

/// Returns whether the flag is set for exactly the code points in `points`. The map `points` must contain
/// exactly the `count` pairs from the offset `start` on.
pub fn are_flags<P: Point>(
    pages: &ImagePages,
    points: &BTreeMap<u32, P>,
    bytes: &[u8],
    start: usize,
    count: usize,
) -> bool
    requires flag { IsFlag P.flag }
    requires room { start + 8 * count ≤ length bytes.now }
    requires are { ArePoints P.decode bytes.now start count }
    requires answers { (c : ℕ) → c < 1114112
        → answers_at pages.now.index.items pages.now.entries.items c ≡ answers_in (bits_at bytes.now c) }
    requires points { (c : ℕ) → get nat_cmp points.now c ≡ found P.decode bytes.now start count c }
    ensures yes { result ≡ true → AreFlags P.decode bytes.now start P.flag count }
    ensures no { result ≡ false → ¬ (AreFlags P.decode bytes.now start P.flag count) }
{
    are_flags_points(pages, points) && are_points_flagged::<P>(pages, bytes, start, count)
}

/// Checks that the flags in the properties agree with the brackets and the mirrors. Fails with `Flags`.
pub fn check_flags(
    pages: &ImagePages,
    brackets: &BTreeMap<u32, Bracket>,
    mirrors: &BTreeMap<u32, Mirror>,
    bytes: &[u8],
) -> Result<(), ImageFault>
    requires framed { IsFramed bytes.now }
    requires known { ArePagesKnown bytes.now }
    requires valid { AreEntries bytes.now }
    requires answers { (c : ℕ) → c < 1114112
        → answers_at pages.now.index.items pages.now.entries.items c ≡ answers_in (bits_at bytes.now c) }
    requires brackets { AreBrackets bytes.now }
    requires bracket_values { (c : ℕ) → get nat_cmp brackets.now c ≡ bracket_at bytes.now c }
    requires mirrors { AreMirrors bytes.now }
    requires mirror_values { (c : ℕ) → get nat_cmp mirrors.now c ≡ mirror_at bytes.now c }
    ensures ok { OnOk result (AreBracketFlags bytes.now × AreMirrorFlags bytes.now) }
    ensures err { IfErr result (IsImageFault bytes.now) }
{
    if !are_flags(
        pages,
        brackets,
        bytes,
        brackets_at(bytes),
        bracket_count(bytes),
    ) {
        return Err(ImageFault::Flags);
    }
    if !are_flags(
        pages,
        mirrors,
        bytes,
        mirrors_at(bytes),
        mirror_count(bytes),
    ) {
        return Err(ImageFault::Flags);
    }
    Ok(())
}
