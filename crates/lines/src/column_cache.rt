//! A cache of the columns of characters. The columns of a character depend on nothing else, so entries never
//! become outdated.
ghost use Rattle.std.specs.Prelude.{◌≡◌, ◌<◌, ◌≤◌, ℕ, true, length, slice_index, OnOk};
ghost use Rattle.lines.specs.CharInfos.{columns_of};
ghost use Rattle.lines.specs.ColumnCache.{is_right};

use crate::reserve::reserve;
use crate::widths::{are_common, are_printable, columns};
use std::alloc::{AllocError, Global};
use std::marker::Model;

// The number of entries. Characters whose code points differ by a multiple of this number share an entry.
const ENTRIES: usize = 1_024;

// The number of characters that are tested together.
const AT_ONCE: usize = 8;

// Returns `true` only if each character of a group has one column. Looks up no columns.
fn have_one_column(group: &[char]) -> bool
    ensures { result ≡ true → (k : ℕ) → k < length group.now → 1 ≡ columns_of (slice_index group.now k) }
{
    are_printable(group) || are_common(group)
}

/// A cache of the widths of characters, in columns. An entry is a code point times 4, plus the columns of the
/// character. New entries are 0, which is the correct entry for U+0000, since it has no columns.
pub(crate) struct ColumnCache {
    entries: Vec<u32>,
}

impl Drop for ColumnCache {
    fn drop(self) {
        let ColumnCache { entries: _ } = self;
    }
}

impl Model for ColumnCache {
    ghost use Rattle.std.specs.Prelude.{◌≡◌, ℕ, List, true};
    ghost use Rattle.std.specs.List.{list_all};
    ghost use Rattle.lines.specs.ColumnCache.{is_right};

    ghost Value = { List ℕ };

    ghost view = { λ c. c.entries.items };

    ghost invariant = { λ c. list_all is_right c.entries.items ≡ true };
}

impl ColumnCache {
    ghost use Rattle.std.specs.Prelude.{◌≡◌, ◌*◌, ◌-◌, ◌<◌, ◌≤◌, drop, length, map, sum};
    ghost use Rattle.lines.specs.CharInfos.{columns_of};
    ghost use Rattle.lines.specs.declared.engine.TheConstants.{PARAGRAPH_LIMIT};

    /// Creates a cache without entries. Allocates nothing.
    pub(crate) fn new(alloc: Global) -> ColumnCache {
        ColumnCache {
            entries: Vec::new(alloc),
        }
    }

    /// Allocates the entries on the first call.
    pub(crate) fn prepare(&mut self) -> Result<(), AllocError> {
        if self.entries.is_empty() {
            reserve(&mut self.entries, ENTRIES)?;
            self.entries.resize(ENTRIES, 0)?;
        }
        Ok(())
    }

    /// Returns the width of a character in columns.
    pub(crate) fn columns(&mut self, c: char) -> u8
        ensures { result ≡ columns_of c }
    {
        let code = c as u32;
        if let Some(entry) = self.entries.get(code as usize % ENTRIES) {
            if *entry / 4 == code {
                return (*entry % 4) as u8;
            }
        }
        self.look_up(c)
    }

    /// Returns the total columns of the characters of a text.
    pub(crate) fn sum(&mut self, text: &[char]) -> u32
        requires { length text.now ≤ PARAGRAPH_LIMIT }
        ensures { result ≡ sum (map columns_of text.now) }
    {
        let mut rest = text;
        let mut sum = 0;
        while rest.len() >= AT_ONCE {
            let (group, after) = rest.split_at(AT_ONCE);
            sum += self.sum_of_group(group);
            rest = after;
        }
        sum + self.sum_of_last(text, rest.len())
    }

    // Implements `sum` for the last `len` characters of a text. If there are enough characters, tests a whole
    // group, so that few characters are looked up one by one.
    fn sum_of_last(&mut self, text: &[char], len: usize) -> u32
        requires limit { length text.now ≤ PARAGRAPH_LIMIT }
        requires len { len ≤ length text.now }
        requires few { len < AT_ONCE }
        ensures sum { result ≡ sum (map columns_of (drop (length text.now - len) text.now)) }
        ensures most { result ≤ 255 * len }
    {
        if text.len() >= AT_ONCE && have_one_column(&text[text.len() - AT_ONCE..]) {
            return len as u32;
        }
        self.sum_of_each(&text[text.len() - len..])
    }

    // Implements `sum` for a group of characters. Looks up no columns if each character has one.
    fn sum_of_group(&mut self, group: &[char]) -> u32
        requires { length group.now ≡ AT_ONCE }
        ensures sum { result ≡ sum (map columns_of group.now) }
        ensures most { result ≤ 255 * length group.now }
    {
        if have_one_column(group) {
            return group.len() as u32;
        }
        self.sum_of_each(group)
    }

    // Implements `sum`, one character after another.
    fn sum_of_each(&mut self, text: &[char]) -> u32
        requires { length text.now ≤ PARAGRAPH_LIMIT }
        ensures sum { result ≡ sum (map columns_of text.now) }
        ensures most { result ≤ 255 * length text.now }
    {
        let mut sum = 0;
        for c in text {
            sum += u32::from(self.columns(*c));
        }
        sum
    }

    // Finds the columns of a character that is not in the cache. Stores them in the character's entry if
    // `prepare` has allocated the entries.
    fn look_up(&mut self, c: char) -> u8
        ensures { result ≡ columns_of c }
    {
        let columns = columns(c);
        let code = c as u32;
        let at = code as usize % ENTRIES;
        if at < self.entries.len() {
            self.entries[at] = 4 * code + u32::from(columns);
        }
        columns
    }
}
