//! The header, the length and the checksum of an image.
ghost use Rattle.std.specs.Prelude.{◌≡◌, ◌+◌, ◌*◌, ◌^◌, ◌<◌, ◌≤◌, true, false};
ghost use Rattle.std.specs.Prelude.{length, take, codes, IfErr, OnOk};
ghost use Rattle.ucd.specs.Images.{page_count, bracket_count, mirror_count, brackets_at, mirrors_at};
ghost use Rattle.ucd.specs.Images.{checksum_at, image_version, IsFramed, IsImageFault};

use crate::image_bytes::{checksum, u32_at, u64_at};
use crate::image_fault::ImageFault;
use crate::version::Version;

/// The bytes with which every image begins.
pub const MAGIC: &[u8] = b"hordguli-ucd";

/// The version of the format.
pub const FORMAT: u32 = 1;

/// The length of the header, in bytes.
pub const HEADER: usize = 32;

/// The offset of the pages.
pub const PAGES_AT: usize = 8736;

/// Returns the Unicode version in the header: 17.0 if the header has its number, and otherwise 15.0.
pub fn image_version(bytes: &[u8]) -> Version
    requires { 32 ≤ length bytes.now }
    ensures { result ≡ image_version bytes.now }
{
    if u32_at(bytes, 16) == 0x0011_0000 {
        Version::V17_0
    } else {
        Version::V15_0
    }
}

/// Returns the number of pages.
pub fn page_count(bytes: &[u8]) -> usize
    requires { 32 ≤ length bytes.now }
    ensures value { result ≡ page_count bytes.now }
    ensures within { result < 2 ^ 32 }
{
    u32_at(bytes, 20) as usize
}

/// Returns the number of brackets.
pub fn bracket_count(bytes: &[u8]) -> usize
    requires { 32 ≤ length bytes.now }
    ensures value { result ≡ bracket_count bytes.now }
    ensures within { result < 2 ^ 32 }
{
    u32_at(bytes, 24) as usize
}

/// Returns the number of mirrors.
pub fn mirror_count(bytes: &[u8]) -> usize
    requires { 32 ≤ length bytes.now }
    ensures value { result ≡ mirror_count bytes.now }
    ensures within { result < 2 ^ 32 }
{
    u32_at(bytes, 28) as usize
}

/// Returns the offset of the brackets.
pub fn brackets_at(bytes: &[u8]) -> usize
    requires { 32 ≤ length bytes.now }
    ensures value { result ≡ brackets_at bytes.now }
    ensures within { result < 2 ^ 42 }
{
    PAGES_AT + 512 * page_count(bytes)
}

/// Returns the offset of the mirrors.
pub fn mirrors_at(bytes: &[u8]) -> usize
    requires { 32 ≤ length bytes.now }
    ensures value { result ≡ mirrors_at bytes.now }
    ensures within { result < 2 ^ 43 }
{
    brackets_at(bytes) + 8 * bracket_count(bytes)
}

/// Returns the offset of the checksum.
pub fn checksum_at(bytes: &[u8]) -> usize
    requires { 32 ≤ length bytes.now }
    ensures value { result ≡ checksum_at bytes.now }
    ensures within { result < 2 ^ 44 }
{
    mirrors_at(bytes) + 8 * mirror_count(bytes)
}

// Returns whether the image begins with the magic bytes.
fn has_magic(bytes: &[u8]) -> bool
    requires { 32 ≤ length bytes.now }
    ensures yes { result ≡ true → take 12 bytes.now ≡ codes "hordguli-ucd" }
    ensures no { result ≡ false → ¬ (take 12 bytes.now ≡ codes "hordguli-ucd") }
{
    &bytes[..12] == MAGIC
}

/// Checks the header, the length and the checksum, in this order.
pub fn check_frame(bytes: &[u8]) -> Result<(), ImageFault>
    ensures ok { OnOk result (IsFramed bytes.now) }
    ensures err { IfErr result (IsImageFault bytes.now) }
{
    if bytes.len() < HEADER {
        return Err(ImageFault::Truncated);
    }
    if !has_magic(bytes) {
        return Err(ImageFault::Magic);
    }
    if u32_at(bytes, 12) != FORMAT {
        return Err(ImageFault::Format);
    }
    let version = image_version(bytes);
    if u32_at(bytes, 16) != version.number() {
        return Err(ImageFault::Version);
    }
    let end = checksum_at(bytes);
    if bytes.len() < end + 8 {
        return Err(ImageFault::Truncated);
    }
    if bytes.len() > end + 8 {
        return Err(ImageFault::Excess);
    }
    if u64_at(bytes, end) != checksum(bytes, end / 8) {
        return Err(ImageFault::Checksum);
    }
    Ok(())
}
