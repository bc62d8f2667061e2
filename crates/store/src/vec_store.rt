//! The simple store: a list of items, with the sums of the items.
ghost use Rattle.std.specs.Prelude.{◌≡◌, ◌+◌, ◌-◌, ◌^◌, ◌<◌, ◌≤◌, ◌++◌};
ghost use Rattle.std.specs.Prelude.{ℕ, List, [], length, take, drop, reverse};
ghost use Rattle.std.specs.Prelude.{slice_get, slice_range, option_map, sum_by, vec_len, vec_capacity};
ghost use Rattle.std.specs.Prelude.{IfOk, IfErr, OnOk, OnErr};
ghost use Rattle.std.specs.List.{splice, AllZip};
ghost use Rattle.store.specs.Exchanging.{pairwise, raised, total_cost};
ghost use Rattle.store.specs.Finding.{CountsBefore, Finds, FindsItem, IsItemPosition, IsPosition};
ghost use Rattle.store.specs.Sums.{measure, AreSums, SumsFit};

use crate::found::{Found, Position};
use crate::measured::{Exchanger, Measured};
use crate::paragraph_store::ParagraphStore;
use crate::sums::{Sums, Unit};
use std::alloc::{AllocError, Global};
use std::marker::Model;
use std::ops::Range;

/// A store that is a list. A search scans the items, and `replace` moves the items after the range.
#[derive(Debug)]
pub struct VecStore<P: Measured> {
    items: Vec<P>,
    sums: Sums,
    alloc: Global,
}

impl<P: Measured + Drop> Drop for VecStore<P> {
    fn drop(self) {
        let VecStore {
            items: _,
            sums: _,
            alloc: _,
        } = self;
    }
}

impl<P: Measured> Model for VecStore<P> {
    ghost use Rattle.std.specs.Prelude.{List};
    ghost use Rattle.store.specs.Sums.{AreSums};

    ghost Value = { List P };

    ghost view = { λ s. s.items.items };

    ghost invariant = { λ s. AreSums P.Measured s.items.items s.sums };
}

// Returns the sums of the items.
fn sums<P: Measured>(items: &[P]) -> Sums
    requires { SumsFit P.Measured items.now }
    ensures { AreSums P.Measured items.now result }
{
    let mut sums = Sums::none();
    for item in items {
        sums = sums.plus(Sums::of(item));
    }
    sums
}

// Finds the item that contains the character, line, byte or code unit with number `n`, by scanning the items.
fn find<P: Measured>(items: &[P], unit: Unit, n: usize) -> Position
    requires within { n < sum_by (measure P.Measured unit) items.now }
    requires fit { SumsFit P.Measured items.now }
    ensures found { IsPosition P.Measured unit items.now n result }
    ensures visits { result.visits ≡ result.index + 1 }
{
    let mut rest = n;
    let mut before = Sums::none();
    for (index, item) in items.iter().enumerate() {
        let size = unit.size_of(item);
        if rest < size {
            return Position {
                index,
                rest,
                before,
                visits: index + 1,
            };
        }
        rest -= size;
        before = before.plus(Sums::of(item));
    }
    unreachable!()
}

// Finds the item at an index, by adding up the sizes of the items before it.
fn find_item<P: Measured>(items: &[P], index: usize) -> Position
    requires within { index < length items.now }
    requires fit { SumsFit P.Measured items.now }
    ensures found { IsItemPosition P.Measured items.now index result }
    ensures visits { result.visits ≡ index }
{
    let (front, _) = items.split_at(index);
    Position {
        index,
        rest: 0,
        before: sums(front),
        visits: index,
    }
}

// Moves the last `count` items, in order, to an empty list that has capacity for them.
fn move_last<P>(items: &mut Vec<P>, count: usize, old: &mut Vec<P>)
    requires enough { count ≤ length items.old.items }
    requires empty { old.old.items ≡ [] }
    requires room { count ≤ vec_capacity old.old }
    ensures kept { items.new.items ≡ take (length items.old.items - count) items.old.items }
    ensures moved { old.new.items ≡ drop (length items.old.items - count) items.old.items }
    ensures capacity { vec_capacity items.new ≡ vec_capacity items.old }
{
    for _ in 0..count {
        old.push_reserved(items.take_last());
    }
    old.reverse();
}

// Moves the items in `first..second` to the end of the list.
fn rotate<P>(items: &mut Vec<P>, first: usize, second: usize)
    requires { (first ≤ second) × (second ≤ length items.old.items) }
    ensures items { items.new.items ≡ take first items.old.items
        ++ (drop second items.old.items ++ slice_range items.old.items first second) }
    ensures capacity { vec_capacity items.new ≡ vec_capacity items.old }
{
    let start = second - first;
    items[first..].rotate_left(start);
}

// Replaces the items in `first..second` with the new items, and moves the old items to `old`. `items` and
// `old` must have enough capacity.
fn put_in<P>(
    items: &mut Vec<P>,
    first: usize,
    second: usize,
    new_items: &mut Vec<P>,
    old: &mut Vec<P>,
)
    requires order { (first ≤ second) × (second ≤ length items.old.items) }
    requires empty { old.old.items ≡ [] }
    requires room { length items.old.items + length new_items.old.items ≤ vec_capacity items.old }
    requires old_room { second - first ≤ vec_capacity old.old }
    ensures items { items.new.items ≡ splice items.old.items first second new_items.old.items }
    ensures moved { old.new.items ≡ slice_range items.old.items first second }
    ensures left { new_items.new.items ≡ [] }
{
    let added = new_items.len();
    let _ = items.append(new_items);
    rotate(items, first, second);
    move_last(items, second - first, old);
    let end = items.len() - added;
    rotate(items, first, end);
}

// Exchanges a part of each item: `parts[i]` for a part of `items[i]`.
fn exchange_each<P: Measured, E: Exchanger<P>>(by: &mut E, items: &mut [P], parts: &mut [E::Part])
    requires { AllZip (E.fits (E.kind by.old)) items.old parts.old }
    ensures items { items.new ≡ pairwise (E.exchanged (E.kind by.old)) items.old parts.old }
    ensures parts { parts.new ≡ pairwise (E.handed_out (E.kind by.old)) items.old parts.old }
    ensures same { E.kind by.new ≡ E.kind by.old }
    ensures worked { E.worked by.new ≡ raised (E.worked by.old) (total_cost E.cost items.old parts.old) }
{
    for index in 0..items.len() {
        by.exchange(&mut items[index], &mut parts[index]);
    }
}

impl<P: Measured> VecStore<P> {
    // Returns the total size of all items, in one unit.
    fn total(&self, unit: Unit) -> usize
        ensures { result ≡ sum_by (measure P.Measured unit) self.now }
    {
        self.sums.total(unit)
    }

    // Finds the item that contains the character, line, byte or code unit with number `n`. Visits each item
    // up to this one.
    fn find(&self, unit: Unit, n: usize) -> Found
        requires { n < sum_by (measure P.Measured unit) self.now }
        ensures found { Finds (measure P.Measured unit) P.chars P.lines self.now n result }
        ensures counts { CountsBefore P.bytes P.utf16 self.now result }
        ensures visits { result.visits ≡ result.index + 1 }
    {
        self.sums.fits();
        find(&self.items, unit, n).found()
    }
}

impl<P: Measured> ParagraphStore<P> for VecStore<P> {
    ghost items = { λ s. s };

    fn new(alloc: Global) -> Self {
        VecStore {
            items: Vec::new(alloc),
            sums: Sums::none(),
            alloc,
        }
    }

    fn count(&self) -> usize {
        self.items.len()
    }

    fn total_chars(&self) -> usize {
        self.total(Unit::Char)
    }

    fn total_lines(&self) -> usize {
        self.total(Unit::Line)
    }

    fn total_bytes(&self) -> usize {
        self.total(Unit::Byte)
    }

    fn total_utf16(&self) -> usize {
        self.total(Unit::Utf16)
    }

    fn get(&self, index: usize) -> Option<&P> {
        self.items.get(index)
    }

    fn list(&self, alloc: Global) -> Result<Vec<&P>, AllocError> {
        if self.items.is_empty() {
            return Ok(Vec::new(alloc));
        }
        self.items.iter().collect(alloc)
    }

    /// Visits each item up to the one found.
    fn find_char(&self, pos: usize) -> Found
        requires { pos < sum_by P.chars self.now }
        ensures found { Finds P.chars P.chars P.lines self.now pos result }
        ensures counts { CountsBefore P.bytes P.utf16 self.now result }
        ensures visits { result.visits ≡ result.index + 1 }
    {
        self.find(Unit::Char, pos)
    }

    /// Visits each item up to the one found.
    fn find_line(&self, n: usize) -> Found
        requires { n < sum_by P.lines self.now }
        ensures found { Finds P.lines P.chars P.lines self.now n result }
        ensures counts { CountsBefore P.bytes P.utf16 self.now result }
        ensures visits { result.visits ≡ result.index + 1 }
    {
        self.find(Unit::Line, n)
    }

    /// Visits each item up to the one found.
    fn find_byte(&self, byte: usize) -> Found
        requires { byte < sum_by P.bytes self.now }
        ensures found { Finds P.bytes P.chars P.lines self.now byte result }
        ensures counts { CountsBefore P.bytes P.utf16 self.now result }
        ensures visits { result.visits ≡ result.index + 1 }
    {
        self.find(Unit::Byte, byte)
    }

    /// Visits each item up to the one found.
    fn find_utf16(&self, unit: usize) -> Found
        requires { unit < sum_by P.utf16 self.now }
        ensures found { Finds P.utf16 P.chars P.lines self.now unit result }
        ensures counts { CountsBefore P.bytes P.utf16 self.now result }
        ensures visits { result.visits ≡ result.index + 1 }
    {
        self.find(Unit::Utf16, unit)
    }

    /// Visits each item before the one found.
    fn find_item(&self, index: usize) -> Found
        requires { index < length self.now }
        ensures found { FindsItem P.chars P.lines self.now index result }
        ensures counts { CountsBefore P.bytes P.utf16 self.now result }
        ensures visits { result.visits ≡ index }
    {
        self.sums.fits();
        find_item(&self.items, index).found()
    }

    fn push(&mut self, item: P) -> Result<(), (P, AllocError)> {
        let more = Sums::of(&item);
        if let Err(failed) = self.items.push(item) {
            return Err((failed.value, AllocError));
        }
        self.sums = self.sums.plus(more);
        Ok(())
    }

    fn replace(
        &mut self,
        range: Range<usize>,
        new_items: Vec<P>,
    ) -> Result<Vec<P>, (Vec<P>, AllocError)>
        requires ordered { range.start ≤ range.end }
        requires in_bounds { range.end ≤ length self.old }
        requires chars_fit { sum_by P.chars
            (splice self.old range.start range.end new_items.items) < 2 ^ 64 }
        requires lines_fit { sum_by P.lines
            (splice self.old range.start range.end new_items.items) < 2 ^ 64 }
        requires bytes_fit { sum_by P.bytes
            (splice self.old range.start range.end new_items.items) < 2 ^ 64 }
        requires utf16_fit { sum_by P.utf16
            (splice self.old range.start range.end new_items.items) < 2 ^ 64 }
        ensures ok { OnOk result (self.new ≡ splice self.old range.start range.end new_items.items) }
        ensures old { IfOk result (λ old. old.items ≡ slice_range self.old range.start range.end) }
        ensures err { OnErr result (self.new ≡ self.old) }
        ensures back { IfErr result (λ e. e.0.items ≡ new_items.items) }
        ensures memory { OnErr result (0 < range.end - range.start + length new_items.items) }
    {
        let mut new_items = new_items;
        let removed = range.end - range.start;
        let Ok(mut old) = Vec::with_capacity(self.alloc, removed) else {
            return Err((new_items, AllocError));
        };
        if self.items.reserve(new_items.len()).is_err() {
            old.destroy_empty();
            return Err((new_items, AllocError));
        }
        let new_sums = sums(&new_items);
        put_in(
            &mut self.items,
            range.start,
            range.end,
            &mut new_items,
            &mut old,
        );
        new_items.destroy_empty();
        self.sums.fits();
        self.sums = self.sums.minus(sums(&old)).plus(new_sums);
        Ok(old)
    }

    fn exchange_all_by<E: Exchanger<P>>(&mut self, by: &mut E, parts: &mut Vec<E::Part>) {
        self.sums.fits();
        exchange_each(by, &mut self.items, parts);
        self.sums = sums(&self.items);
    }
}
