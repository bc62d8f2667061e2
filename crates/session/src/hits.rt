//! The character at a column of a line.
ghost use Rattle.std.specs.Prelude.{◌≡◌, ◌^◌, ◌<◌, not, slice_index};
ghost use Rattle.lines.specs.Columns.{columns_left, covering};
ghost use Rattle.reorder.specs.Order.{is_odd};
ghost use Rattle.session.specs.Hits.{hit_in, rightmost};

use lines::VisualLine;

/// The character at a column of a line.
#[derive(Clone, Copy, Debug, PartialEq, Eq)]
pub struct Hit {
    /// The position of the character in the text.
    pub pos: usize,
    /// Whether the column is past the character in the character's direction, so that a caret belongs after
    /// the character. At an even level, that is to the character's right; at an odd level, to its left.
    pub trailing: bool,
}

/// Returns the index, within its line, of the character at a visual position, or 0 past the last position.
pub fn logical(line: &VisualLine<'_>, place: usize) -> usize
    ensures value { result ≡ slice_index line.now.vtol place }
    ensures fits { result < 2 ^ 32 }
{
    match line.vtol().get(place) {
        Some(k) => *k as usize,
        None => 0,
    }
}

// Returns whether a character of a line has an even level.
fn is_even(line: &VisualLine<'_>, k: usize) -> bool
    ensures { result ≡ not (is_odd (slice_index line.now.levels k)) }
{
    match line.levels().get(k) {
        Some(level) => level % 2 != 1,
        None => true,
    }
}

// Returns the visual position of the character that covers the last column, or `None` if the width is 0.
fn rightmost(line: &VisualLine<'_>) -> Option<usize>
    ensures { result ≡ rightmost line.now }
{
    let columns = line.columns_left(line.vtol().len());
    line.covering(columns.saturating_sub(1))
}

/// Returns the character that covers a column of a line or, to the right of the line, the rightmost character
/// of nonzero width. In a line of width 0, returns the start of the line. `start` is the position in the text
/// at which the line starts.
pub fn hit_in(line: &VisualLine<'_>, start: usize, column: usize) -> Hit
    requires { start < 2 ^ 33 }
    ensures { result ≡ hit_in start line.now column }
{
    if let Some(place) = line.covering(column) {
        return Hit {
            pos: start + logical(line, place),
            trailing: false,
        };
    }
    match rightmost(line) {
        Some(place) => {
            let k = logical(line, place);
            Hit {
                pos: start + k,
                trailing: is_even(line, k),
            }
        }
        None => Hit {
            pos: start,
            trailing: false,
        },
    }
}
