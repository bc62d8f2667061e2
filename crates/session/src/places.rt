//! Finds where the lines and paragraphs of a text start, and which line a character is on. Paragraphs are
//! found with the store's sums, and lines by where they start in their paragraph.
ghost use Rattle.std.specs.Prelude.{◌≡◌, ◌^◌, ◌<◌, ◌≤◌, ℕ, All, nat_le, count_by, length};
ghost use Rattle.std.specs.Prelude.{is_none, slice_get, slice_index, IfSome};
ghost use Rattle.std.specs.List.Sorted.{IsNonDecreasing};
ghost use Rattle.lines.specs.Engine.{rules_of};
ghost use Rattle.session.specs.Kept.{text_of};
ghost use Rattle.session.specs.Places.{first_line_at, is_closed, line_starts, paragraph_starts};
ghost use Rattle.session.specs.Places.{place_at, place_in, IsLined};
ghost use Rattle.session.specs.declared.edits.TheConstants.{TEXT_LIMIT};

use crate::kept::Kept;
use lines::Engine;
use store::ParagraphStore;

/// The place of a character of a text, or of the end of the text. Paragraphs, lines and offsets are counted
/// from 0.
#[derive(Clone, Copy, Debug, PartialEq, Eq)]
pub struct Place {
    /// The index of the paragraph that contains the place.
    pub paragraph: usize,
    /// The line that contains the place, numbered across the whole text.
    pub line: usize,
    /// The number of characters of this line before the place.
    pub offset: usize,
}

// Returns the line start at index `n`.
fn start_of_nth(starts: &[u32], n: usize) -> usize
    requires { n < length starts.now }
    ensures start { result ≡ slice_index starts.now n }
    ensures fits { result < 2 ^ 32 }
{
    starts[n] as usize
}

/// Returns the position at which a line starts, or `None` past the last line.
pub fn line_start<S: ParagraphStore<Kept>>(store: &S, n: usize) -> Option<usize>
    requires { length (text_of (S.items store.now)) ≤ TEXT_LIMIT }
    ensures start { result ≡ slice_get (line_starts (S.items store.now)) n }
    ensures fits { IfSome result (λ start. start < 2 ^ 33) }
{
    if n >= store.total_lines() {
        return None;
    }
    let found = store.find_line(n);
    match store.get(found.index) {
        Some(kept) => {
            let start = start_of_nth(kept.laid().line_starts(), found.rest);
            Some(found.chars_before + start)
        }
        None => unreachable!(),
    }
}

/// Returns the position of a paragraph's first character, or `None` past the last paragraph.
pub fn paragraph_start<S: ParagraphStore<Kept>>(store: &S, index: usize) -> Option<usize>
    ensures start { result ≡ slice_get (paragraph_starts (S.items store.now)) index }
    ensures none { is_none result ≡ nat_le (length (S.items store.now)) index }
{
    if index >= store.count() {
        return None;
    }
    Some(store.find_item(index).chars_before)
}

/// Returns the index of a paragraph's first line, or `None` past the last paragraph.
pub fn paragraph_first_line<S: ParagraphStore<Kept>>(store: &S, index: usize) -> Option<usize>
    ensures line { result ≡ first_line_at (S.items store.now) index }
    ensures none { is_none result ≡ nat_le (length (S.items store.now)) index }
{
    if index >= store.count() {
        return None;
    }
    Some(store.find_item(index).lines_before)
}

// Returns how many line starts are at most `pos`.
fn lines_to(starts: &[u32], pos: usize) -> usize
    requires { IsNonDecreasing starts.now }
    ensures count { result ≡ count_by (λ start. nat_le start pos) starts.now }
    ensures before { (k : ℕ) → k < result → slice_index starts.now k ≤ pos }
{
    starts.partition_point(|start| *start as usize <= pos)
}

// Returns the place of the character at a position, which must not be the end of the text.
fn place_in<S: ParagraphStore<Kept>>(store: &S, pos: usize) -> Place
    requires within { pos < length (text_of (S.items store.now)) }
    requires lined { All IsLined (S.items store.now) }
    ensures { result ≡ place_in (S.items store.now) pos }
{
    // The contract of `total_lines` bounds the number of lines.
    let _lines = store.total_lines();
    let found = store.find_char(pos);
    match store.get(found.index) {
        Some(kept) => {
            let starts = kept.laid().line_starts();
            let line = lines_to(starts, found.rest) - 1;
            Place {
                paragraph: found.index,
                line: found.lines_before + line,
                offset: found.rest - starts[line] as usize,
            }
        }
        None => unreachable!(),
    }
}

/// Returns the character at a position of the text.
pub fn char_at<S: ParagraphStore<Kept>>(store: &S, pos: usize) -> char
    requires { pos < length (text_of (S.items store.now)) }
    ensures { result ≡ slice_index (text_of (S.items store.now)) pos }
{
    let found = store.find_char(pos);
    match store.get(found.index) {
        Some(kept) => {
            let (text, rest) = (kept.laid().text(), found.rest);
            text[rest]
        }
        None => unreachable!(),
    }
}

/// Returns whether a new paragraph would start at the end of the text.
pub fn is_closed<S: ParagraphStore<Kept>>(store: &S, engine: &Engine) -> bool
    ensures { result ≡ is_closed (rules_of engine.now) (text_of (S.items store.now)) }
{
    let len = store.total_chars();
    if len == 0 {
        return true;
    }
    let last = char_at(store, len - 1);
    engine.is_cut(last, last)
}

/// Returns the place of a position, or `None` past the end of the text.
pub fn place_of<S: ParagraphStore<Kept>>(store: &S, engine: &Engine, pos: usize) -> Option<Place>
    requires { All IsLined (S.items store.now) }
    ensures { result ≡ place_at (rules_of engine.now) (S.items store.now) pos }
{
    let len = store.total_chars();
    if pos > len {
        return None;
    }
    if pos < len {
        return Some(place_in(store, pos));
    }
    if is_closed(store, engine) {
        return Some(Place {
            paragraph: store.count(),
            line: store.total_lines(),
            offset: 0,
        });
    }
    let last = place_in(store, len - 1);
    Some(Place {
        offset: last.offset + 1,
        ..last
    })
}
