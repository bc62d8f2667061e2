//! Encodes tables as an image.
ghost use Rattle.std.specs.Prelude.{◌≡◌, ℕ, ◌*◌, ◌/◌, ◌%◌, ◌<◌, ◌≤◌};
ghost use Rattle.std.specs.Prelude.{length, slice_index_or, IfOk, OnOk};
ghost use Rattle.ucd.specs.Answers.{unnamed};
ghost use Rattle.ucd.specs.DistinctPages.{IsEntryOf};
ghost use Rattle.ucd.specs.declared.version.Version.{Version};
ghost use Rattle.ucd.specs.ImageParts.{AddsChecksum, ArePages, Joins};
ghost use Rattle.ucd.specs.Images.{checksum};
ghost use Rattle.ucd.specs.LineSeparators.{answers_by};
ghost use Rattle.ucd.specs.Pages.{answers_at};

use crate::distinct_pages::distinct_pages;
use crate::image_bytes::checksum;
use crate::image_parts::{entry_bytes, header, index_bytes, push_u32};
use crate::pages::Pages;
use crate::properties::Properties;
use crate::range_table::CODE_POINTS;
use crate::version::Version;
use std::alloc::{AllocError, Global};

/// Joins a header, the given parts and the checksum into an image.
pub fn joined(
    alloc: Global,
    version: Version,
    index: &[u8],
    pages: &[u8],
    brackets: &[u8],
    mirrors: &[u8],
) -> Result<Vec<u8>, AllocError>
    requires index { length index.now ≡ 8704 }
    requires pages { (length pages.now % 512 ≡ 0) × (length pages.now ≤ 512 * 4352) }
    requires brackets { (length brackets.now % 8 ≡ 0) × (length brackets.now ≤ 8 * 1114112) }
    requires mirrors { (length mirrors.now % 8 ≡ 0) × (length mirrors.now ≤ 8 * 1114112) }
    ensures { IfOk result (λ image. Joins version image.items index.now pages.now brackets.now mirrors.now) }
{
    let mut bytes = header(
        alloc,
        version,
        (pages.len() / 512) as u32,
        (brackets.len() / 8) as u32,
        (mirrors.len() / 8) as u32,
    )?;
    bytes.extend_from_slice(index)?;
    bytes.extend_from_slice(pages)?;
    bytes.extend_from_slice(brackets)?;
    bytes.extend_from_slice(mirrors)?;
    push_checksum(&mut bytes)?;
    Ok(bytes)
}

// Returns the checksum of all bytes.
fn whole_checksum(bytes: &[u8]) -> u64
    ensures { result ≡ checksum bytes.now (length bytes.now / 8) }
{
    checksum(bytes, bytes.len() / 8)
}

// Appends the checksum of all bytes.
fn push_checksum(bytes: &mut Vec<u8>) -> Result<(), AllocError>
    requires { length bytes.old.items % 8 ≡ 0 }
    ensures { OnOk result (AddsChecksum bytes.old.items bytes.new.items) }
{
    let sum = whole_checksum(bytes);
    push_u32(bytes, (sum % 0x1_0000_0000) as u32)?;
    push_u32(bytes, (sum / 0x1_0000_0000) as u32)?;
    Ok(())
}

/// The page number of each block, and the pages, encoded as bytes.
#[derive(Drop)]
pub struct PageBytes {
    pub(crate) index: Vec<u8>,
    pub(crate) entries: Vec<u8>,
}

/// Encodes the page number of each block and the distinct pages as bytes. If `separates` is set, only LF and
/// CR end paragraphs in these pages.
pub fn page_bytes(alloc: Global, pages: &Pages, separates: bool) -> Result<PageBytes, AllocError>
    ensures { IfOk result (λ bytes. (version : Version)
        → ((c : ℕ) → c < 1114112
        → IsEntryOf version (answers_at pages.now.index.items pages.now.entries.items c))
        → ArePages version (answers_by separates pages.now.index.items pages.now.entries.items)
        bytes.index.items bytes.entries.items) }
{
    let points = points_of_pages(alloc, pages, separates)?;
    let pages = distinct_pages(alloc, &points)?;
    let index = index_bytes(alloc, &pages.index)?;
    let entries = entry_bytes(alloc, &pages.entries)?;
    Ok(PageBytes { index, entries })
}

// Returns the properties of all code points. If `separates` is set, only LF and CR end paragraphs.
fn points_of_pages(
    alloc: Global,
    pages: &Pages,
    separates: bool,
) -> Result<Vec<Properties>, AllocError>
    ensures len { IfOk result (λ points. length points.items ≡ 1114112) }
    ensures each { IfOk result (λ points. (c : ℕ) → c < 1114112
        → slice_index_or points.items c unnamed
        ≡ answers_by separates pages.now.index.items pages.now.entries.items c) }
{
    let mut points = Vec::with_capacity(alloc, CODE_POINTS)?;
    for c in 0..CODE_POINTS {
        let properties = pages.at(c);
        points.push(properties.for_lines_if(separates, c as u32))?;
    }
    Ok(points)
}
