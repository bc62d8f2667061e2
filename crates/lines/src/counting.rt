//! Counts the characters of UTF-8 text without decoding them; decoding would be several times slower.
ghost use Rattle.std.specs.Prelude.{◌≡◌, ◌≤◌, length, count_by};
ghost use Rattle.std.specs.Str.{chars};
ghost use Rattle.lines.specs.Counting.{is_lead_byte};

// The number of bytes in a block. The number of lead bytes in a block fits in a `u8`, so vector instructions
// add 16 counts at a time.
const BLOCK: usize = 240;

/// Returns the number of characters of a text.
pub fn char_count(text: &str) -> usize
    ensures { result ≡ length (chars text.now) }
{
    count_lead_bytes(text.as_bytes())
}

// Returns the number of lead bytes.
fn count_lead_bytes(bytes: &[u8]) -> usize
    ensures { result ≡ count_by is_lead_byte bytes.now }
{
    let mut rest = bytes;
    let mut count = 0;
    while rest.len() > BLOCK {
        let (block, after) = rest.split_at(BLOCK);
        count += count_in_block(block) as usize;
        rest = after;
    }
    count + count_in_block(rest) as usize
}

// Returns the number of lead bytes of a block.
fn count_in_block(block: &[u8]) -> u8
    requires { length block.now ≤ BLOCK }
    ensures { result ≡ count_by is_lead_byte block.now }
{
    let mut count = 0;
    for byte in block {
        count += is_lead_byte(*byte) as u8;
    }
    count
}

// Returns whether a byte begins a character. Has no branches.
fn is_lead_byte(byte: u8) -> bool
    ensures { result ≡ is_lead_byte byte }
{
    (byte < 0x80) | (byte >= 0xc0)
}
