//! Reads numbers from the bytes of an image, and computes its checksum.
ghost use Rattle.std.specs.Prelude.{◌≡◌, ◌+◌, ◌*◌, ◌≤◌, length};
ghost use Rattle.ucd.specs.Images.{u16_at, u32_at, u64_at, checksum};

/// Returns the 16-bit number at the offset `i`.
#[tactic(auto, unfolding(crate::specs::Images::u16_at))]
pub fn u16_at(bytes: &[u8], i: usize) -> u16
    requires { i + 2 ≤ length bytes.now }
    ensures { result ≡ u16_at bytes.now i }
{
    u16::from(bytes[i]) + 256 * u16::from(bytes[i + 1])
}

/// Returns the 32-bit number at the offset `i`.
#[tactic(auto, unfolding(crate::specs::Images::u32_at))]
pub fn u32_at(bytes: &[u8], i: usize) -> u32
    requires { i + 4 ≤ length bytes.now }
    ensures { result ≡ u32_at bytes.now i }
{
    u32::from(u16_at(bytes, i)) + 0x1_0000 * u32::from(u16_at(bytes, i + 2))
}

/// Returns the 64-bit number at the offset `i`.
#[tactic(auto, unfolding(crate::specs::Images::u64_at))]
pub fn u64_at(bytes: &[u8], i: usize) -> u64
    requires { i + 8 ≤ length bytes.now }
    ensures { result ≡ u64_at bytes.now i }
{
    u64::from(u32_at(bytes, i)) + 0x1_0000_0000 * u64::from(u32_at(bytes, i + 4))
}

/// The factor of the checksum. It is odd, so changing any one 64-bit number changes the checksum.
const FACTOR: u64 = 0x9E37_79B9_7F4A_7C15;

/// Returns the checksum of the first `count` 64-bit numbers.
pub fn checksum(bytes: &[u8], count: usize) -> u64
    requires { 8 * count ≤ length bytes.now }
    ensures { result ≡ checksum bytes.now count }
{
    let mut sum: u64 = 0;
    for k in 0..count {
        sum = sum.wrapping_mul(FACTOR).wrapping_add(u64_at(bytes, 8 * k));
    }
    sum
}
