//! Where a caret before a character, or at the end of the text, is drawn.
ghost use Rattle.std.specs.Prelude.{◌≡◌, ◌^◌, ◌<◌, slice_index};
ghost use Rattle.reorder.specs.Order.{is_odd};
ghost use Rattle.session.specs.Carets.{caret_in, leading_edge, end_caret, trailing_edge};

use crate::places::Place;
use lines::VisualLine;

/// Where to draw a caret.
#[derive(Clone, Copy, Debug, PartialEq, Eq)]
pub struct Caret {
    /// The line, numbered from 0 across the whole text.
    pub line: usize,
    /// The number of columns from the left edge of the line's shown part to the caret.
    pub column: usize,
    /// The level of the character after L1, or the base level if the character is not shown.
    pub level: u8,
}

/// Returns the caret at the end of a line, in the base direction of its paragraph.
pub fn end_caret(line: &VisualLine<'_>, n: usize) -> Caret
    ensures caret { result ≡ end_caret n line.now }
    ensures fits { result.column < 2 ^ 63 }
{
    let level = line.base();
    Caret {
        line: n,
        column: if is_odd(level) {
            0
        } else {
            line.columns() as usize
        },
        level,
    }
}

pub fn is_odd(level: u8) -> bool
    ensures { result ≡ is_odd level }
{
    level % 2 == 1
}

// Returns the visual position of a character, given its index in the line; 0 if it is not shown.
fn visual(line: &VisualLine<'_>, k: usize) -> usize
    ensures value { result ≡ slice_index line.now.ltov k }
    ensures fits { result < 2 ^ 32 }
{
    match line.ltov().get(k) {
        Some(place) => *place as usize,
        None => 0,
    }
}

/// Returns the level of a character, given its index in the line, or 0 if the character is not shown.
pub fn level_of(line: &VisualLine<'_>, k: usize) -> u8
    ensures { result ≡ slice_index line.now.levels k }
{
    match line.levels().get(k) {
        Some(level) => *level,
        None => 0,
    }
}

/// Returns the column of character `k`'s leading edge: the left edge if its level is even, or else the right.
pub fn leading_edge(line: &VisualLine<'_>, k: usize) -> usize
    ensures column { result ≡ leading_edge line.now k }
    ensures fits { result < 2 ^ 63 }
{
    let left = visual(line, k);
    line.columns_left(if is_odd(level_of(line, k)) {
        left + 1
    } else {
        left
    })
}

/// Returns the column of character `k`'s trailing edge: the right edge if its level is even, or else the
/// left.
pub fn trailing_edge(line: &VisualLine<'_>, k: usize) -> usize
    ensures { result ≡ trailing_edge line.now k }
{
    let left = visual(line, k);
    line.columns_left(if is_odd(level_of(line, k)) {
        left
    } else {
        left + 1
    })
}

/// Returns the caret before the character at a place in a line. The caret is at the character's left edge if
/// its level is even, or else at its right edge. If the character is not shown, the caret is at the end of
/// the line.
pub fn caret_in(line: &VisualLine<'_>, place: Place) -> Caret
    ensures caret { result ≡ caret_in line.now place }
    ensures fits { result.column < 2 ^ 63 }
{
    let k = place.offset;
    match line.levels().get(k) {
        Some(level) => Caret {
            line: place.line,
            column: leading_edge(line, k),
            level: *level,
        },
        None => end_caret(line, place.line),
    }
}
