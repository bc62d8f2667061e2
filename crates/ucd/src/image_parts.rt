//! Encodes the parts of an image as bytes.
ghost use Rattle.std.specs.Prelude.{◌≡◌, ℕ, ◌+◌, ◌*◌, ◌/◌, ◌%◌, ◌<◌, ◌≤◌};
ghost use Rattle.std.specs.Prelude.{length, slice_index, slice_index_or, take, codes};
ghost use Rattle.std.specs.Prelude.{Some, MatchOption, IfOk, OnOk, IsTrue};
ghost use Rattle.std.specs.BTreeMap.{get};
ghost use Rattle.std.specs.Ordering.{nat_cmp};
ghost use Rattle.ucd.specs.Answers.{answers_in, unnamed};
ghost use Rattle.ucd.specs.DistinctPages.{AreEntriesOf};
ghost use Rattle.ucd.specs.declared.version.Version.{Version};
ghost use Rattle.ucd.specs.ImageParts.{Adds16, Adds32, AddsPoint};
ghost use Rattle.ucd.specs.Images.{u16_at, u32_at, is_entry, version_number, found, ArePoints};

use crate::image_frame::{FORMAT, MAGIC};
use crate::image_points::Point;
use crate::properties::Properties;
use crate::range_table::CODE_POINTS;
use crate::version::Version;
use std::alloc::{AllocError, Global};
use std::collections::BTreeMap;

// Appends a 16-bit number.
fn push_u16(bytes: &mut Vec<u8>, number: u16) -> Result<(), AllocError>
    ensures { OnOk result (Adds16 bytes.old.items bytes.new.items number) }
{
    bytes.push((number % 256) as u8)?;
    bytes.push((number / 256) as u8)?;
    Ok(())
}

/// Appends a 32-bit number.
pub fn push_u32(bytes: &mut Vec<u8>, number: u32) -> Result<(), AllocError>
    ensures { OnOk result (Adds32 bytes.old.items bytes.new.items number) }
{
    push_u16(bytes, (number % 0x1_0000) as u16)?;
    push_u16(bytes, (number / 0x1_0000) as u16)?;
    Ok(())
}

/// Returns the header of an image with this version and these numbers of pages, brackets and mirrors.
pub fn header(
    alloc: Global,
    version: Version,
    pages: u32,
    brackets: u32,
    mirrors: u32,
) -> Result<Vec<u8>, AllocError>
    ensures len { IfOk result (λ bytes. length bytes.items ≡ 32) }
    ensures magic { IfOk result (λ bytes. take 12 bytes.items ≡ codes "hordguli-ucd") }
    ensures format { IfOk result (λ bytes. u32_at bytes.items 12 ≡ 1) }
    ensures version { IfOk result (λ bytes. u32_at bytes.items 16 ≡ version_number version) }
    ensures pages { IfOk result (λ bytes. u32_at bytes.items 20 ≡ pages) }
    ensures brackets { IfOk result (λ bytes. u32_at bytes.items 24 ≡ brackets) }
    ensures mirrors { IfOk result (λ bytes. u32_at bytes.items 28 ≡ mirrors) }
{
    let mut bytes = Vec::from_slice(alloc, MAGIC)?;
    push_u32(&mut bytes, FORMAT)?;
    push_u32(&mut bytes, version.number())?;
    push_u32(&mut bytes, pages)?;
    push_u32(&mut bytes, brackets)?;
    push_u32(&mut bytes, mirrors)?;
    Ok(bytes)
}

/// Returns the page numbers as bytes.
pub fn index_bytes(alloc: Global, index: &[u16]) -> Result<Vec<u8>, AllocError>
    requires { length index.now ≤ 4352 }
    ensures len { IfOk result (λ bytes. length bytes.items ≡ 2 * length index.now) }
    ensures each { IfOk result (λ bytes. (k : ℕ) → k < length index.now
        → u16_at bytes.items (2 * k) ≡ slice_index index.now k) }
{
    let mut bytes = Vec::new(alloc);
    for k in 0..index.len() {
        push_u16(&mut bytes, index[k])?;
    }
    Ok(bytes)
}

/// Returns the entries of the pages as bytes.
pub fn entry_bytes(alloc: Global, entries: &[Properties]) -> Result<Vec<u8>, AllocError>
    ensures len { IfOk result (λ bytes. length bytes.items ≡ 2 * length entries.now) }
    ensures valid { IfOk result (λ bytes. (version : Version) → AreEntriesOf version entries.now
        → (k : ℕ) → k < length entries.now
        → IsTrue (is_entry version (u16_at bytes.items (2 * k)))) }
    ensures each { IfOk result (λ bytes. (k : ℕ) → k < length entries.now
        → answers_in (u16_at bytes.items (2 * k)) ≡ slice_index_or entries.now k unnamed) }
{
    let mut bytes = Vec::new(alloc);
    for k in 0..entries.len() {
        let entry = entries[k];
        push_u16(&mut bytes, entry.bits())?;
    }
    Ok(bytes)
}

/// Returns the pairs of a map as bytes, in ascending order of their code points.
pub fn point_bytes<P: Point>(
    alloc: Global,
    points: &BTreeMap<u32, P>,
) -> Result<Vec<u8>, AllocError>
    ensures whole { IfOk result (λ bytes. length bytes.items % 8 ≡ 0) }
    ensures room { IfOk result (λ bytes. length bytes.items ≤ 8 * 1114112) }
    ensures points { IfOk result (λ bytes. ArePoints P.decode bytes.items 0 (length bytes.items / 8)) }
    ensures values { IfOk result (λ bytes. (c : ℕ) → c < 1114112
        → found P.decode bytes.items 0 (length bytes.items / 8) c ≡ get nat_cmp points.now c) }
{
    let mut bytes = Vec::new(alloc);
    for c in 0..CODE_POINTS {
        push_if_there(&mut bytes, points, c as u32)?;
    }
    Ok(bytes)
}

// Appends a code point and the number of its value, if the map contains the code point.
fn push_if_there<P: Point>(
    bytes: &mut Vec<u8>,
    points: &BTreeMap<u32, P>,
    c: u32,
) -> Result<(), AllocError>
    ensures { OnOk result (MatchOption (get nat_cmp points.now c) (bytes.new.items ≡ bytes.old.items)
        (AddsPoint P.decode bytes.old.items bytes.new.items c)) }
{
    match points.get(&c).copied() {
        Some(value) => {
            push_u32(bytes, c)?;
            push_u32(bytes, value.number())?;
            Ok(())
        }
        None => Ok(()),
    }
}
