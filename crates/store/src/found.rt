//! The result of a search in a store.
ghost use Rattle.std.specs.Prelude.{◌≡◌};
ghost use Rattle.store.specs.Finding.{found_at};

use crate::sums::Sums;

/// The item that contains a character, a line, a byte or a UTF-16 code unit.
#[derive(Clone, Copy, Debug, PartialEq, Eq)]
pub struct Found {
    /// The index of the item, starting at 0.
    pub index: usize,
    /// The index of the character, line, byte or code unit within the item, starting at 0.
    pub rest: usize,
    /// The number of characters in the items before this item.
    pub chars_before: usize,
    /// The number of lines in the items before this item.
    pub lines_before: usize,
    /// The number of UTF-8 bytes in the items before this item.
    pub bytes_before: usize,
    /// The number of UTF-16 code units in the items before this item.
    pub utf16_before: usize,
    /// The number of items that the search visited.
    pub visits: usize,
}

/// A search result in the form in which a store computes it. `before` holds the sums of the items before the
/// found item.
#[derive(Clone, Copy)]
pub(crate) struct Position {
    pub(crate) index: usize,
    pub(crate) rest: usize,
    pub(crate) before: Sums,
    pub(crate) visits: usize,
}

impl Position {
    /// Converts the position to a search result.
    pub(crate) fn found(self) -> Found
        ensures { result ≡ found_at self }
    {
        Found {
            index: self.index,
            rest: self.rest,
            chars_before: self.before.chars,
            lines_before: self.before.lines,
            bytes_before: self.before.bytes,
            utf16_before: self.before.utf16,
            visits: self.visits,
        }
    }
}
