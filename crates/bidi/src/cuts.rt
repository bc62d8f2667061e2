//! Paragraph boundaries (UAX #9, P1).
ghost use Rattle.std.specs.Prelude.{◌≡◌, ◌<◌, ◌≤◌, ℕ, false, length, slice_index};
ghost use Rattle.ucd.specs.Tables.{class_of};
ghost use Rattle.bidi.specs.Cuts.{cut, first_cut, AreNoSeparators, MayNotSeparate, SplitsAt};
ghost use Rattle.bidi.specs.Pieces.{ParagraphsArePieces};

use ucd::{BidiClass, Tables};

// The number of characters that are tested together.
const BLOCK: usize = 16;

/// Returns whether there is a paragraph boundary between two adjacent characters. There is one after each
/// character of class B, but not between U+000D and U+000A if both have class B.
pub fn is_cut(tables: &Tables, before: char, after: char) -> bool
    ensures { result ≡ cut (class_of tables.now) before after }
{
    if tables.bidi_class(before) != BidiClass::B {
        return false;
    }
    before != '\r' || after != '\n' || tables.bidi_class(after) != BidiClass::B
}

// Returns whether a character may end a paragraph if the separators are those of Unicode's data files.
fn may_separate(c: char) -> bool
    ensures { result ≡ false → MayNotSeparate c }
{
    (c < ' ') | (c == '\u{85}') | (c == '\u{2029}')
}

// Returns whether any of the characters may end a paragraph. Tests all of them, so that the compiler can
// vectorize the loop.
#[inline(always)]
fn any_may_separate(text: &[char]) -> bool
    ensures { result ≡ false → AreNoSeparators text.now (length text.now) }
{
    let mut any = false;
    for c in text {
        any |= may_separate(*c);
    }
    any
}

// Returns the index of the first character that may end a paragraph, or the length if there is none.
fn first_separator(text: &[char]) -> usize
    ensures within { result ≤ length text.now }
    ensures before { AreNoSeparators text.now result }
{
    let mut at = 0;
    while at < text.len() && !may_separate(text[at]) {
        at += 1;
    }
    at
}

// Returns the length of a prefix of the text in which no character may end a paragraph. Long texts are tested
// in blocks, and the last block may overlap the one before.
fn plain_len(text: &[char]) -> usize
    ensures within { result ≤ length text.now }
    ensures before { AreNoSeparators text.now result }
{
    let mut at = 0;
    while at + BLOCK <= text.len() {
        if any_may_separate(&text[at..at + BLOCK]) {
            return at + first_separator(&text[at..]);
        }
        at += BLOCK;
    }
    if text.len() >= BLOCK && !any_may_separate(&text[text.len() - BLOCK..]) {
        return text.len();
    }
    at + first_separator(&text[at..])
}

// Returns the length of a prefix of the text in which no character is followed by a paragraph boundary.
fn uncut_len(tables: &Tables, text: &[char]) -> usize
    ensures within { result ≤ length text.now }
    ensures uncut { (k next : ℕ) → k < result
        → cut (class_of tables.now) (slice_index text.now k) next ≡ false }
{
    if tables.has_usual_separators() {
        plain_len(text)
    } else {
        0
    }
}

/// Returns the index of the first paragraph boundary in a text, or `None` if there is none. The index is
/// greater than 0 and less than the length.
pub fn first_cut(tables: &Tables, text: &[char]) -> Option<usize>
    ensures place { result ≡ first_cut (cut (class_of tables.now)) text.now }
    ensures paragraphs { SplitsAt (cut (class_of tables.now)) text.now result }
{
    let last = text.len().saturating_sub(1);
    let mut at = 0;
    while at < last {
        at += uncut_len(tables, &text[at..last]);
        if at < last && is_cut(tables, text[at], text[at + 1]) {
            return Some(at + 1);
        }
        at += 1;
    }
    None
}

/// States, as a theorem, that the paragraphs of a text are exactly its parts between boundaries, whatever the
/// boundaries are. Costs nothing at run time.
pub fn paragraphs_are_pieces()
    ensures { ParagraphsArePieces }
{}
