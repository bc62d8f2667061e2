//! Decodes bytes that are read in chunks. Invalid UTF-8 becomes U+FFFD, or ends strict decoding.
ghost use Rattle.std.specs.Prelude.{◌≡◌, ◌+◌, ◌++◌, ◌<◌, ◌≤◌, ℕ, List, None, true, IfOk, length, drop, take};
ghost use Rattle.std.specs.Str.Lossy.{utf8_error_len, utf8_valid_len};
ghost use Rattle.terminal.specs.Decoding.{Decodes, IsAllDecoded, IsValidPrefix};

use std::alloc::AllocError;
use std::str::from_utf8;
use stream::{front, push_characters};

// Returns the longest prefix of the bytes that is valid UTF-8, and the length of the invalid sequence after
// it. The length is `None` if the rest is empty or only the beginning of a character.
fn valid_prefix(bytes: &[u8]) -> (&str, Option<usize>)
    ensures { IsValidPrefix bytes.now result.0.now result.1 }
{
    let error = match from_utf8(bytes) {
        Ok(text) => return (text, None),
        Err(error) => error,
    };
    match from_utf8(&bytes[..error.valid_up_to()]) {
        Ok(text) => (text, error.error_len()),
        Err(_) => unreachable!(),
    }
}

/// Adds the characters of bytes to a list. Returns the number of decoded bytes, and whether decoding stopped
/// at invalid UTF-8, which happens only if `strict`. If it did not stop, any other bytes are the beginning of
/// a character. After a failed allocation, some characters may be missing.
pub(crate) fn decode(
    bytes: &[u8],
    strict: bool,
    characters: &mut Vec<char>,
) -> Result<(usize, bool), AllocError>
    ensures { IfOk result (λ decoded. Decodes strict bytes.now decoded.0 decoded.1
        characters.old.items characters.new.items) }
{
    if strict {
        return decode_strict(bytes, characters);
    }
    let n = decode_lossy(bytes, characters)?;
    Ok((n, false))
}

// Implements `decode` if `strict` is true.
fn decode_strict(bytes: &[u8], characters: &mut Vec<char>) -> Result<(usize, bool), AllocError>
    ensures { IfOk result (λ decoded. Decodes true bytes.now decoded.0 decoded.1
        characters.old.items characters.new.items) }
{
    let (text, is_bad) = front(bytes);
    push_characters(text, characters)?;
    Ok((text.len(), is_bad))
}

/// Implements `decode` if `strict` is false. Each invalid sequence becomes U+FFFD.
pub(crate) fn decode_lossy(bytes: &[u8], characters: &mut Vec<char>) -> Result<usize, AllocError>
    ensures { IfOk result (λ n. IsAllDecoded bytes.now n characters.old.items characters.new.items) }
{
    let (text, is_bad) = front(bytes);
    if is_bad {
        return decode_parts(bytes, characters);
    }
    push_characters(text, characters)?;
    Ok(text.len())
}

// Implements `decode_lossy` for bytes that contain invalid sequences. Each byte is validated at most twice.
fn decode_parts(bytes: &[u8], characters: &mut Vec<char>) -> Result<usize, AllocError>
    ensures { IfOk result (λ n. IsAllDecoded bytes.now n characters.old.items characters.new.items) }
{
    let mut at = 0;
    loop {
        let (_, rest) = bytes.split_at(at);
        let (text, error_len) = valid_prefix(rest);
        push_characters(text, characters)?;
        at += text.len();
        match error_len {
            None => return Ok(at),
            Some(len) => {
                characters.push('\u{fffd}')?;
                at += len;
            }
        }
    }
}
