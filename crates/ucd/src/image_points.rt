//! The brackets and mirrors of an image.
ghost use Rattle.std.specs.Prelude.{◌≡◌, ℕ, ◌+◌, ◌*◌, ◌<◌, ◌≤◌, true, false};
ghost use Rattle.std.specs.Prelude.{length, Some, IsSome, IfOk, MatchOption};
ghost use Rattle.std.specs.BTreeMap.{get};
ghost use Rattle.std.specs.Ordering.{nat_cmp};
ghost use Rattle.ucd.specs.ImagePages.{IsFlag};
ghost use Rattle.ucd.specs.Images.{u32_at, point_at, found, ArePoints};
ghost use Rattle.ucd.specs.Pages.{answers_at};

use crate::image_bytes::u32_at;
use crate::image_pages::ImagePages;
use crate::pages::{PAGE, PLACES};
use crate::properties::Properties;
use crate::range_table::CODE_POINTS;
use std::alloc::{AllocError, Global};
use std::collections::BTreeMap;

/// A property that an image stores outside the pages, as pairs of a code point and a number. A flag in the
/// properties of a code point says whether the code point has this property.
pub trait Point: Copy + Drop {
    ghost use Rattle.std.specs.Prelude.{ℕ, Bool, Option};
    ghost use Rattle.ucd.specs.Answers.{PropertyAnswers};

    ghost decode: { ℕ → Option Self };

    ghost flag: { PropertyAnswers → Bool };

    /// Returns the value that a number encodes, or `None` if the number encodes no value.
    fn from_number(number: u32) -> Option<Self>
        ensures { result ≡ decode number };

    /// Returns the number that encodes the value.
    fn number(self) -> u32
        ensures { decode result ≡ Some self };

    /// Returns whether the flag for this property is set.
    fn is_flagged(properties: Properties) -> bool
        ensures { result ≡ flag properties };
}

// Decodes the pair at an offset. Returns the code point and its value, or `None` if the code point is out of
// range or less than `next`, or if its number encodes no value.
fn pair_at<P: Point>(bytes: &[u8], at: usize, next: u32) -> Option<(u32, P)>
    requires { at + 8 ≤ length bytes.now }
    ensures { MatchOption result
        (¬ ((next ≤ u32_at bytes.now at) × (u32_at bytes.now at < 1114112)
        × IsSome (P.decode (u32_at bytes.now (at + 4)))))
        (λ pair. (pair.0 ≡ u32_at bytes.now at) × (next ≤ pair.0) × (pair.0 < 1114112)
        × (P.decode (u32_at bytes.now (at + 4)) ≡ Some pair.1)) }
{
    let point = u32_at(bytes, at);
    if point < next || point as usize >= CODE_POINTS {
        return None;
    }
    match P::from_number(u32_at(bytes, at + 4)) {
        Some(value) => Some((point, value)),
        None => None,
    }
}

/// Decodes the pairs from the offset `start` on into a map. Returns `None` if their code points are out of
/// range or not in ascending order, or if a number encodes no value.
pub fn points_in<P: Point>(
    alloc: Global,
    bytes: &[u8],
    start: usize,
    count: usize,
) -> Result<Option<BTreeMap<u32, P>>, AllocError>
    requires { start + 8 * count ≤ length bytes.now }
    ensures { IfOk result (λ points. MatchOption points (¬ (ArePoints P.decode bytes.now start count))
        (λ points. ArePoints P.decode bytes.now start count
        × ((c : ℕ) → get nat_cmp points c ≡ found P.decode bytes.now start count c))) }
{
    let mut points = BTreeMap::new(alloc);
    let mut next = 0;
    for k in 0..count {
        let Some((point, value)) = pair_at::<P>(bytes, start + 8 * k, next) else {
            return Ok(None);
        };
        points.insert(point, value)?;
        next = point + 1;
    }
    Ok(Some(points))
}

/// Returns whether the flag is set for the code point of each pair.
pub fn are_points_flagged<P: Point>(
    pages: &ImagePages,
    bytes: &[u8],
    start: usize,
    count: usize,
) -> bool
    requires room { start + 8 * count ≤ length bytes.now }
    requires points { ArePoints P.decode bytes.now start count }
    ensures yes { result ≡ true → (k : ℕ) → k < count
        → P.flag (answers_at pages.now.index.items pages.now.entries.items
        (point_at P.decode bytes.now start k)) ≡ true }
    ensures no { result ≡ false → ¬ ((k : ℕ) → k < count
        → P.flag (answers_at pages.now.index.items pages.now.entries.items
        (point_at P.decode bytes.now start k)) ≡ true) }
{
    for k in 0..count {
        let point = u32_at(bytes, start + 8 * k);
        if !P::is_flagged(pages.at(point as usize)) {
            return false;
        }
    }
    true
}

/// Returns whether each code point whose flag is set is in the map.
pub fn are_flags_points<P: Point>(pages: &ImagePages, points: &BTreeMap<u32, P>) -> bool
    requires { IsFlag P.flag }
    ensures yes { result ≡ true → (c : ℕ) → c < 1114112
        → P.flag (answers_at pages.now.index.items pages.now.entries.items c) ≡ true
        → IsSome (get nat_cmp points.now c) }
    ensures no { result ≡ false → ¬ ((c : ℕ) → c < 1114112
        → P.flag (answers_at pages.now.index.items pages.now.entries.items c) ≡ true
        → IsSome (get nat_cmp points.now c)) }
{
    for block in 0..PLACES {
        if !are_flags_points_of(pages, points, block) {
            return false;
        }
    }
    true
}

// Returns, for one block, whether each code point whose flag is set is in the map.
fn are_flags_points_of<P: Point>(
    pages: &ImagePages,
    points: &BTreeMap<u32, P>,
    block: usize,
) -> bool
    requires block { block < 4352 }
    requires flag { IsFlag P.flag }
    ensures yes { result ≡ true → (c : ℕ) → block * 256 ≤ c → c < block * 256 + 256
        → P.flag (answers_at pages.now.index.items pages.now.entries.items c) ≡ true
        → IsSome (get nat_cmp points.now c) }
    ensures no { result ≡ false → ¬ ((c : ℕ) → block * 256 ≤ c → c < block * 256 + 256
        → P.flag (answers_at pages.now.index.items pages.now.entries.items c) ≡ true
        → IsSome (get nat_cmp points.now c)) }
{
    if pages.is_ordinary(block) {
        return true;
    }
    for c in block * PAGE..block * PAGE + PAGE {
        if !is_flag_point(pages.at(c), points, c as u32) {
            return false;
        }
    }
    true
}

// Returns whether a code point is in the map, or its flag in these properties is not set.
fn is_flag_point<P: Point>(properties: Properties, points: &BTreeMap<u32, P>, c: u32) -> bool
    ensures yes { result ≡ true → P.flag properties ≡ true → IsSome (get nat_cmp points.now c) }
    ensures no { result ≡ false → ¬ (P.flag properties ≡ true → IsSome (get nat_cmp points.now c)) }
{
    !P::is_flagged(properties) || points.contains_key(&c)
}
