//! The interface of stores, which are lists of items with the sums of their sizes.
ghost use Rattle.std.specs.Prelude.{◌≡◌, ◌+◌, ◌-◌, ◌^◌, ◌<◌, ◌≤◌, ◌∷◌, ◌++◌};
ghost use Rattle.std.specs.Prelude.{ℕ, List, [], length, map, slice_get, slice_range, option_map, sum_by};
ghost use Rattle.std.specs.Prelude.{IfOk, IfErr, OnOk, OnErr};
ghost use Rattle.std.specs.List.{splice, AllZip};
ghost use Rattle.store.specs.Exchanging.{pairwise, raised, total_cost};
ghost use Rattle.store.specs.Finding.{CountsBefore, Finds, FindsItem};

use crate::found::Found;
use crate::measured::{ByItem, Exchange, Exchanger, Measured};
use std::alloc::{AllocError, Global};
use std::ops::Range;

/// A list of items, with the sums of their characters, lines, bytes and code units. Only `push`, `replace`
/// and `list` allocate, and the last two only if there are items to list, insert or remove. No method drops
/// or copies an item.
pub trait ParagraphStore<P: Measured> {
    // The items in order.
    ghost items: { Self → List P };

    /// Creates an empty store, whose `replace` allocates from `alloc`.
    fn new(alloc: Global) -> Self
        ensures { items result ≡ [] };

    /// Returns the number of items.
    fn count(&self) -> usize
        ensures { result ≡ length (items self.now) };

    /// Returns the total number of characters of all items.
    fn total_chars(&self) -> usize
        ensures { result ≡ sum_by P.chars (items self.now) };

    /// Returns the total number of lines of all items.
    fn total_lines(&self) -> usize
        ensures { result ≡ sum_by P.lines (items self.now) };

    /// Returns the total number of UTF-8 bytes of all items.
    fn total_bytes(&self) -> usize
        ensures { result ≡ sum_by P.bytes (items self.now) };

    /// Returns the total number of UTF-16 code units of all items.
    fn total_utf16(&self) -> usize
        ensures { result ≡ sum_by P.utf16 (items self.now) };

    /// Returns the item at an index, or `None` past the last item.
    fn get(&self, index: usize) -> Option<&P>
        ensures { option_map (λ item. item.now) result ≡ slice_get (items self.now) index };

    /// Returns all items in order. Traverses the store once.
    fn list(&self, alloc: Global) -> Result<Vec<&P>, AllocError>
        ensures ok { IfOk result (λ list. map (λ item. item.now) list.items ≡ items self.now) }
        ensures memory { OnErr result (0 < length (items self.now)) };

    /// Finds the item that contains character `pos`, which must be less than `total_chars()`. Characters are
    /// numbered from 0 across all items.
    fn find_char(&self, pos: usize) -> Found
        requires { pos < sum_by P.chars (items self.now) }
        ensures found { Finds P.chars P.chars P.lines (items self.now) pos result }
        ensures counts { CountsBefore P.bytes P.utf16 (items self.now) result };

    /// Finds the item that contains line `n`, which must be less than `total_lines()`. Lines are numbered
    /// from 0 across all items.
    fn find_line(&self, n: usize) -> Found
        requires { n < sum_by P.lines (items self.now) }
        ensures found { Finds P.lines P.chars P.lines (items self.now) n result }
        ensures counts { CountsBefore P.bytes P.utf16 (items self.now) result };

    /// Finds the item that contains UTF-8 byte `byte`, which must be less than `total_bytes()`. Bytes are
    /// numbered from 0 across all items.
    fn find_byte(&self, byte: usize) -> Found
        requires { byte < sum_by P.bytes (items self.now) }
        ensures found { Finds P.bytes P.chars P.lines (items self.now) byte result }
        ensures counts { CountsBefore P.bytes P.utf16 (items self.now) result };

    /// Finds the item that contains UTF-16 code unit `unit`, which must be less than `total_utf16()`. Code
    /// units are numbered from 0 across all items.
    fn find_utf16(&self, unit: usize) -> Found
        requires { unit < sum_by P.utf16 (items self.now) }
        ensures found { Finds P.utf16 P.chars P.lines (items self.now) unit result }
        ensures counts { CountsBefore P.bytes P.utf16 (items self.now) result };

    /// Finds the item at an index, which must be less than `count()`, with the sums of the items before it.
    fn find_item(&self, index: usize) -> Found
        requires { index < length (items self.now) }
        ensures found { FindsItem P.chars P.lines (items self.now) index result }
        ensures counts { CountsBefore P.bytes P.utf16 (items self.now) result };

    /// Appends an item. The new sums must fit in a `usize`. If an allocation fails, changes nothing, and
    /// returns the item with the error.
    fn push(&mut self, item: P) -> Result<(), (P, AllocError)>
        requires chars_fit { sum_by P.chars (items self.old ++ item ∷ []) < 2 ^ 64 }
        requires lines_fit { sum_by P.lines (items self.old ++ item ∷ []) < 2 ^ 64 }
        requires bytes_fit { sum_by P.bytes (items self.old ++ item ∷ []) < 2 ^ 64 }
        requires utf16_fit { sum_by P.utf16 (items self.old ++ item ∷ []) < 2 ^ 64 }
        ensures ok { OnOk result (items self.new ≡ items self.old ++ item ∷ []) }
        ensures err { OnErr result (self.new ≡ self.old) }
        ensures back { IfErr result (λ e. e.0 ≡ item) };

    /// Replaces the items of a range with new ones, and returns the old items. The new sums must fit in a
    /// `usize`. If an allocation fails, changes nothing, and returns the new items with the error.
    fn replace(
        &mut self,
        range: Range<usize>,
        new_items: Vec<P>,
    ) -> Result<Vec<P>, (Vec<P>, AllocError)>
        requires ordered { range.start ≤ range.end }
        requires in_bounds { range.end ≤ length (items self.old) }
        requires chars_fit { sum_by P.chars
            (splice (items self.old) range.start range.end new_items.items) < 2 ^ 64 }
        requires lines_fit { sum_by P.lines
            (splice (items self.old) range.start range.end new_items.items) < 2 ^ 64 }
        requires bytes_fit { sum_by P.bytes
            (splice (items self.old) range.start range.end new_items.items) < 2 ^ 64 }
        requires utf16_fit { sum_by P.utf16
            (splice (items self.old) range.start range.end new_items.items) < 2 ^ 64 }
        ensures ok { OnOk result
            (items self.new ≡ splice (items self.old) range.start range.end new_items.items) }
        ensures old { IfOk result (λ old. old.items ≡ slice_range (items self.old) range.start range.end) }
        ensures err { OnErr result (self.new ≡ self.old) }
        ensures back { IfErr result (λ e. e.0.items ≡ new_items.items) }
        ensures memory { OnErr result (0 < range.end - range.start + length new_items.items) };

    /// Exchanges a part of each item, in order, using an exchanger. Afterwards, `parts` holds the parts that
    /// were taken out. There must be as many parts as items. Each part must fit its item, and the new sum of
    /// lines must fit in a `usize`. Does not allocate.
    fn exchange_all_by<E: Exchanger<P>>(&mut self, by: &mut E, parts: &mut Vec<E::Part>)
        requires fit { AllZip (E.fits (E.kind by.old)) (items self.old) parts.old.items }
        requires lines_fit { sum_by P.lines
            (pairwise (E.exchanged (E.kind by.old)) (items self.old) parts.old.items) < 2 ^ 64 }
        ensures items { items self.new
            ≡ pairwise (E.exchanged (E.kind by.old)) (items self.old) parts.old.items }
        ensures parts { parts.new.items
            ≡ pairwise (E.handed_out (E.kind by.old)) (items self.old) parts.old.items }
        ensures same { E.kind by.new ≡ E.kind by.old }
        ensures worked { E.worked by.new
            ≡ raised (E.worked by.old) (total_cost E.cost (items self.old) parts.old.items) }
        ensures chars { sum_by P.chars (items self.new) ≡ sum_by P.chars (items self.old) }
        ensures bytes { sum_by P.bytes (items self.new) ≡ sum_by P.bytes (items self.old) }
        ensures utf16 { sum_by P.utf16 (items self.new) ≡ sum_by P.utf16 (items self.old) };

    /// Exchanges a part of each item, in order: `parts[i]` for a part of item `i`. Afterwards, `parts` holds
    /// the parts that were taken out. There must be as many parts as items. Each part must fit its item, and
    /// the new sum of lines must fit in a `usize`. Does not allocate.
    fn exchange_all(&mut self, parts: &mut Vec<P::Part>)
    where
        P: Exchange,
        requires fit { AllZip P.fits (items self.old) parts.old.items }
        requires lines_fit { sum_by P.lines
            (pairwise P.exchanged (items self.old) parts.old.items) < 2 ^ 64 }
        ensures items { items self.new ≡ pairwise P.exchanged (items self.old) parts.old.items }
        ensures parts { parts.new.items ≡ pairwise P.handed_out (items self.old) parts.old.items }
        ensures chars { sum_by P.chars (items self.new) ≡ sum_by P.chars (items self.old) }
        ensures bytes { sum_by P.bytes (items self.new) ≡ sum_by P.bytes (items self.old) }
        ensures utf16 { sum_by P.utf16 (items self.new) ≡ sum_by P.utf16 (items self.old) }
    {
        self.exchange_all_by(&mut ByItem, parts);
    }
}
