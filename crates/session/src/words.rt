//! The word of a character (UAX #29), for moving by words and selecting a word.
ghost use Rattle.std.specs.Prelude.{◌≡◌, ◌+◌, ◌^◌, ◌<◌, ◌≤◌, All, length, IfOk, OnErr};
ghost use Rattle.session.specs.Kept.{text_of};
ghost use Rattle.session.specs.Places.{IsLined};
ghost use Rattle.session.specs.Words.{has_letter, word_at, word_by};

use crate::kept::Kept;
use lines::{cluster_begin, cluster_end};
use std::alloc::{AllocError, Global};
use store::ParagraphStore;

/// A segment between two word boundaries of a text.
#[derive(Clone, Copy, Debug, PartialEq, Eq)]
pub struct Word {
    /// The position of the segment's first character.
    pub start: usize,
    /// The position after the segment's last character.
    pub end: usize,
    /// Whether the segment has an alphabetic or numeric character. If not, it consists of other characters,
    /// such as spaces, punctuation or symbols.
    pub has_letter: bool,
}

// Returns whether a text has an alphabetic or numeric character.
fn has_letter(text: &[char]) -> bool
    ensures { result ≡ has_letter text.now }
{
    text.iter().any(|c| c.is_alphanumeric())
}

// Returns the word of character `k` of a paragraph that starts at the position `start`. `ends` holds, for
// each character, whether a boundary follows it.
fn word_by(start: usize, text: &[char], ends: &[bool], k: usize) -> Word
    requires within { k < length ends.now }
    requires ends { length ends.now ≡ length text.now }
    requires fits { start + length text.now < 2 ^ 64 }
    ensures { result ≡ word_by start text.now ends.now k }
{
    let first = cluster_begin(ends, k);
    let end = cluster_end(ends, k);
    Word {
        start: start + first,
        end: start + end,
        has_letter: has_letter(&text[first..end]),
    }
}

/// Returns the word of the character at a position, or `None` past the last character.
pub fn word_of<S: ParagraphStore<Kept>>(
    store: &S,
    alloc: Global,
    pos: usize,
) -> Result<Option<Word>, AllocError>
    requires { All IsLined (S.items store.now) }
    ensures ok { IfOk result (λ word. word ≡ word_at (S.items store.now) pos) }
    ensures memory { OnErr result (pos < length (text_of (S.items store.now))) }
{
    // The contract of `total_chars` bounds the number of characters.
    let len = store.total_chars();
    if pos >= len {
        return Ok(None);
    }
    let found = store.find_char(pos);
    match store.get(found.index) {
        Some(kept) => {
            let laid = kept.laid();
            let ends = laid.word_ends(alloc)?;
            Ok(Some(word_by(pos - found.rest, laid.text(), &ends, found.rest)))
        }
        None => unreachable!(),
    }
}
