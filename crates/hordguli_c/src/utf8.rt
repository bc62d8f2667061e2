//! Validation of UTF-8.
ghost use Rattle.std.specs.Prelude.{◌≡◌, MatchOption};
ghost use Rattle.std.specs.Str.{IsUtf8};

use simdutf8::is_utf8;
use std::str::from_utf8_unchecked;

/// Returns bytes as text, or `None` if they are not UTF-8.
///
/// Fast path: even fewer than 64 bytes are checked as a block. `simdutf8::compat::from_utf8` would pass them
/// to std, which reads them one by one if they are not ASCII.
pub(crate) fn text_of(bytes: &[u8]) -> Option<&str>
    ensures { MatchOption result (¬ (IsUtf8 bytes.now))
        (λ text. (text.now ≡ bytes.now) × IsUtf8 bytes.now) }
{
    if is_utf8(bytes) {
        Some(unsafe { from_utf8_unchecked(bytes) })
    } else {
        None
    }
}
