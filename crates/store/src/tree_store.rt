//! The tree store: a balanced tree in which each node stores the sums of all items in its subtree.
ghost use Rattle.std.specs.Prelude.{◌≡◌, ◌+◌, ◌-◌, ◌/◌, ◌^◌, ◌<◌, ◌≤◌, ◌∷◌, ◌++◌, true};
ghost use Rattle.std.specs.Prelude.{ℕ, List, [], length, reverse, drop, take};
ghost use Rattle.std.specs.Prelude.{slice_range, sum_by, vec_capacity};
ghost use Rattle.std.specs.Prelude.{IfOk, IfErr, OnOk, OnErr};
ghost use Rattle.std.specs.List.{splice, AllZip};
ghost use Rattle.store.specs.Exchanging.{pairwise};
ghost use Rattle.store.specs.Finding.{CountsBefore, Finds, FindsItem};
ghost use Rattle.store.specs.Sums.{measure, SumsFit};
ghost use Rattle.store.specs.Trees.{fewest_nodes, height, in_order, nodes_to, IsBalanced, Tree};

use crate::found::Found;
use crate::joining::{join, move_items, put_in};
use crate::measured::{Exchanger, Measured};
use crate::paragraph_store::ParagraphStore;
use crate::subtree::{DetachedNode, Subtree};
use crate::sums::{Sums, Unit};
use std::alloc::{AllocError, Global};
use std::fmt::{Debug, Formatter};
use std::marker::Model;
use std::ops::Range;
use std::{fmt, mem};

/// A store that is a balanced tree: the heights of the two subtrees of a node differ by at most 1. A search
/// costs time proportional to the height. So does `replace`, which also costs time for each item that it
/// inserts or removes.
pub struct TreeStore<P: Measured> {
    root: Subtree<P>,
    alloc: Global,
}

impl<P: Measured> Debug for TreeStore<P> {
    fn fmt<W: fmt::Write>(&self, f: &mut Formatter<W>) -> fmt::Result {
        f.debug_struct("TreeStore").finish_non_exhaustive()
    }
}

impl<P: Measured + Drop> Drop for TreeStore<P> {
    fn drop(self) {
        let TreeStore { root: _, alloc: _ } = self;
    }
}

impl<P: Measured> Model for TreeStore<P> {
    ghost use Rattle.store.specs.Trees.{Tree, tree_code};

    ghost Value = { Tree P };

    ghost coded = { tree_code P.code };

    ghost view = { λ s. s.root };
}

impl<P: Measured> TreeStore<P> {
    /// States, as a theorem, a bound on the height: the store has at least as many items as the smallest
    /// balanced tree of its height. The size of the smallest balanced tree at least doubles with every two
    /// levels of height.
    pub fn stays_balanced(&self)
        ensures balanced { IsBalanced self.now }
        ensures items { fewest_nodes (height self.now) ≤ length (in_order self.now) }
        ensures height { 2 ^ (height self.now / 2) ≤ length (in_order self.now) + 1 }

        // The bound is tight: for each height `h`, some balanced tree has exactly `fewest_nodes h` items.
        ensures fewest { P → (h : ℕ) → (t : Tree P) × IsBalanced t × (height t ≡ h)
            × (length (in_order t) ≡ fewest_nodes h) }
    {
        let _height = self.root.height();
    }

    // Finds the item that contains the character, line, byte or code unit with number `n`. Visits the nodes
    // from the root to this item.
    fn find(&self, unit: Unit, n: usize) -> Found
        requires { n < sum_by (measure P.Measured unit) (in_order self.now) }
        ensures found { Finds (measure P.Measured unit) P.chars P.lines (in_order self.now) n result }
        ensures counts { CountsBefore P.bytes P.utf16 (in_order self.now) result }
        ensures visits { result.visits ≡ nodes_to self.now result.index }
        ensures few { 2 ^ (result.visits / 2) ≤ length (in_order self.now) + 1 }
    {
        self.stays_balanced();
        self.root.find(unit, n).found()
    }

    // Exchanges the item at an index for the only item of a list. Allocates nothing.
    fn replace_one(&mut self, index: usize, items: &mut Vec<P>)
        requires within { index < length (in_order self.old) }
        requires one { length items.old.items ≡ 1 }
        requires fit { SumsFit P.Measured
            (splice (in_order self.old) index (index + 1) items.old.items) }
        ensures items { in_order self.new
            ≡ splice (in_order self.old) index (index + 1) items.old.items }
        ensures out { items.new.items ≡ slice_range (in_order self.old) index (index + 1) }
    {
        let (less, more) = (self.root.sizes_at(index), Sums::of(&items[0]));
        self.root.swap_item(index, &mut items[0], less, more);
    }

    // Exchanges the item at an index for another one. Allocates nothing.
    fn exchange(&mut self, index: usize, item: &mut P)
        requires within { index < length (in_order self.old) }
        requires fit { SumsFit P.Measured
            (splice (in_order self.old) index (index + 1) (item.old ∷ [])) }
        ensures items { in_order self.new
            ≡ splice (in_order self.old) index (index + 1) (item.old ∷ []) }
        ensures out { item.new ∷ [] ≡ slice_range (in_order self.old) index (index + 1) }
    {
        let (less, more) = (self.root.sizes_at(index), Sums::of(item));
        self.root.swap_item(index, item, less, more);
    }

    // Exchanges two adjacent items, one after the other, for the two items of a list. Allocates nothing.
    fn replace_two(&mut self, index: usize, items: &mut Vec<P>)
        requires within { index + 2 ≤ length (in_order self.old) }
        requires two { length items.old.items ≡ 2 }
        requires room { SumsFit P.Measured (in_order self.old ++ take 1 items.old.items) }
        requires fit { SumsFit P.Measured
            (splice (in_order self.old) index (index + 2) items.old.items) }
        ensures items { in_order self.new
            ≡ splice (in_order self.old) index (index + 2) items.old.items }
        ensures out { items.new.items ≡ slice_range (in_order self.old) index (index + 2) }
    {
        // The contract of `count` bounds the index.
        let _count = self.root.count();
        self.exchange(index, &mut items[0]);
        self.exchange(index + 1, &mut items[1]);
    }

    // Returns whether the sums of all items and one more item fit in a `usize`.
    fn has_room(&self, item: &P) -> bool
        ensures { result ≡ true → SumsFit P.Measured (in_order self.now ++ item.now ∷ []) }
    {
        let (sums, more) = (self.root.sums(), Sums::of(item));
        (sums.chars <= usize::MAX - more.chars)
            & (sums.lines <= usize::MAX - more.lines)
            & (sums.bytes <= usize::MAX - more.bytes)
            & (sums.utf16 <= usize::MAX - more.utf16)
    }
}

// Moves each item into a new node, starting with the last item. If an allocation fails, moves all items back.
fn hang<P: Measured>(alloc: Global, items: &mut Vec<P>) -> Result<Vec<DetachedNode<P>>, AllocError>
    ensures ok { IfOk result (λ nodes. nodes.items ≡ reverse items.old.items) }
    ensures left { OnOk result (items.new.items ≡ []) }
    ensures err { OnErr result (items.new.items ≡ items.old.items) }
    ensures memory { OnErr result (0 < length items.old.items) }
{
    let mut nodes = Vec::with_capacity(alloc, items.len())?;
    for _ in 0..items.len() {
        match DetachedNode::new(alloc, items.take_last()) {
            Ok(node) => nodes.push_reserved(node),
            Err(failed) => {
                items.push_reserved(failed.value);
                take_down(nodes, items);
                return Err(AllocError);
            }
        }
    }
    Ok(nodes)
}

// Moves items out of their nodes, starting with the last node, into a list that has capacity for them.
fn take_down<P: Measured>(nodes: Vec<DetachedNode<P>>, items: &mut Vec<P>)
    requires { length items.old.items + length nodes.items ≤ vec_capacity items.old }
    ensures { items.new.items ≡ items.old.items ++ reverse nodes.items }
{
    let mut nodes = nodes;
    for _ in 0..nodes.len() {
        items.push_reserved(nodes.take_last().into_item());
    }
    nodes.destroy_empty();
}

// Prepares a replacement: allocates capacity for the old items, and moves each new item into a new node.
// Fails if an allocation fails, or if the number of kept and new items overflows a `usize`. If it fails,
// `items` is unchanged.
fn take_memory<P: Measured>(
    alloc: Global,
    kept: usize,
    removed: usize,
    items: &mut Vec<P>,
) -> Result<(Vec<P>, Vec<DetachedNode<P>>), AllocError>
    ensures old { IfOk result (λ p. (p.0.items ≡ []) × (removed ≤ vec_capacity p.0)) }
    ensures nodes { IfOk result (λ p. p.1.items ≡ reverse items.old.items) }
    ensures count { OnOk result (kept + length items.old.items < 2 ^ 64) }
    ensures left { OnOk result (items.new.items ≡ []) }
    ensures err { OnErr result (items.new.items ≡ items.old.items) }
    ensures memory { OnErr result (0 < removed + length items.old.items) }
{
    if items.len() > usize::MAX - kept {
        return Err(AllocError);
    }
    let old = Vec::with_capacity(alloc, removed)?;
    match hang(alloc, items) {
        Ok(nodes) => Ok((old, nodes)),
        Err(failed) => {
            old.destroy_empty();
            Err(failed)
        }
    }
}

impl<P: Measured> ParagraphStore<P> for TreeStore<P> {
    ghost items = { in_order };

    fn new(alloc: Global) -> Self {
        TreeStore {
            root: Subtree::empty(),
            alloc,
        }
    }

    fn count(&self) -> usize {
        self.root.count()
    }

    fn total_chars(&self) -> usize {
        self.root.total(Unit::Char)
    }

    fn total_lines(&self) -> usize {
        self.root.total(Unit::Line)
    }

    fn total_bytes(&self) -> usize {
        self.root.total(Unit::Byte)
    }

    fn total_utf16(&self) -> usize {
        self.root.total(Unit::Utf16)
    }

    fn get(&self, index: usize) -> Option<&P> {
        self.root.get(index)
    }

    fn list(&self, alloc: Global) -> Result<Vec<&P>, AllocError> {
        let mut list = Vec::with_capacity(alloc, self.root.count())?;
        self.root.list_into(&mut list);
        Ok(list)
    }

    /// Visits the nodes from the root to the item found.
    fn find_char(&self, pos: usize) -> Found
        requires { pos < sum_by P.chars (in_order self.now) }
        ensures found { Finds P.chars P.chars P.lines (in_order self.now) pos result }
        ensures counts { CountsBefore P.bytes P.utf16 (in_order self.now) result }
        ensures visits { result.visits ≡ nodes_to self.now result.index }
        ensures few { 2 ^ (result.visits / 2) ≤ length (in_order self.now) + 1 }
    {
        self.find(Unit::Char, pos)
    }

    /// Visits the nodes from the root to the item found.
    fn find_line(&self, n: usize) -> Found
        requires { n < sum_by P.lines (in_order self.now) }
        ensures found { Finds P.lines P.chars P.lines (in_order self.now) n result }
        ensures counts { CountsBefore P.bytes P.utf16 (in_order self.now) result }
        ensures visits { result.visits ≡ nodes_to self.now result.index }
        ensures few { 2 ^ (result.visits / 2) ≤ length (in_order self.now) + 1 }
    {
        self.find(Unit::Line, n)
    }

    /// Visits the nodes from the root to the item found.
    fn find_byte(&self, byte: usize) -> Found
        requires { byte < sum_by P.bytes (in_order self.now) }
        ensures found { Finds P.bytes P.chars P.lines (in_order self.now) byte result }
        ensures counts { CountsBefore P.bytes P.utf16 (in_order self.now) result }
        ensures visits { result.visits ≡ nodes_to self.now result.index }
        ensures few { 2 ^ (result.visits / 2) ≤ length (in_order self.now) + 1 }
    {
        self.find(Unit::Byte, byte)
    }

    /// Visits the nodes from the root to the item found.
    fn find_utf16(&self, unit: usize) -> Found
        requires { unit < sum_by P.utf16 (in_order self.now) }
        ensures found { Finds P.utf16 P.chars P.lines (in_order self.now) unit result }
        ensures counts { CountsBefore P.bytes P.utf16 (in_order self.now) result }
        ensures visits { result.visits ≡ nodes_to self.now result.index }
        ensures few { 2 ^ (result.visits / 2) ≤ length (in_order self.now) + 1 }
    {
        self.find(Unit::Utf16, unit)
    }

    /// Visits the nodes from the root to the item found.
    fn find_item(&self, index: usize) -> Found
        requires { index < length (in_order self.now) }
        ensures found { FindsItem P.chars P.lines (in_order self.now) index result }
        ensures counts { CountsBefore P.bytes P.utf16 (in_order self.now) result }
        ensures visits { result.visits ≡ nodes_to self.now index }
        ensures few { 2 ^ (result.visits / 2) ≤ length (in_order self.now) + 1 }
    {
        self.stays_balanced();
        self.root.find_item(index).found()
    }

    fn push(&mut self, item: P) -> Result<(), (P, AllocError)> {
        if self.root.count() == usize::MAX {
            return Err((item, AllocError));
        }
        match DetachedNode::new(self.alloc, item) {
            Ok(node) => {
                let root = mem::replace(&mut self.root, Subtree::empty());
                let joined = join(root, node, Subtree::empty());
                mem::replace(&mut self.root, joined).discard();
                Ok(())
            }
            Err(failed) => Err((failed.value, AllocError)),
        }
    }

    fn replace(
        &mut self,
        range: Range<usize>,
        new_items: Vec<P>,
    ) -> Result<Vec<P>, (Vec<P>, AllocError)>
        requires ordered { range.start ≤ range.end }
        requires in_bounds { range.end ≤ length (in_order self.old) }
        requires chars_fit { sum_by P.chars
            (splice (in_order self.old) range.start range.end new_items.items) < 2 ^ 64 }
        requires lines_fit { sum_by P.lines
            (splice (in_order self.old) range.start range.end new_items.items) < 2 ^ 64 }
        requires bytes_fit { sum_by P.bytes
            (splice (in_order self.old) range.start range.end new_items.items) < 2 ^ 64 }
        requires utf16_fit { sum_by P.utf16
            (splice (in_order self.old) range.start range.end new_items.items) < 2 ^ 64 }
        ensures ok { OnOk result
            (in_order self.new ≡ splice (in_order self.old) range.start range.end new_items.items) }
        ensures old { IfOk result (λ old. old.items ≡ slice_range (in_order self.old) range.start range.end) }
        ensures err { OnErr result (self.new ≡ self.old) }
        ensures back { IfErr result (λ e. e.0.items ≡ new_items.items) }
        ensures memory { OnErr result (0 < range.end - range.start + length new_items.items) }
    {
        let mut new_items = new_items;
        let removed = range.end - range.start;
        if removed == 1 && new_items.len() == 1 {
            self.replace_one(range.start, &mut new_items);
            return Ok(new_items);
        }
        if removed == 2 && new_items.len() == 2 && self.has_room(&new_items[0]) {
            self.replace_two(range.start, &mut new_items);
            return Ok(new_items);
        }
        let kept = self.root.count() - removed;
        let Ok((mut old, nodes)) = take_memory(self.alloc, kept, removed, &mut new_items) else {
            return Err((new_items, AllocError));
        };
        new_items.destroy_empty();
        // Nothing is allocated from here on.
        let gone = put_in(&mut self.root, range.start, range.end, nodes);
        move_items(gone, &mut old);
        Ok(old)
    }

    fn exchange_all_by<E: Exchanger<P>>(&mut self, by: &mut E, parts: &mut Vec<E::Part>) {
        self.root.exchange_all(by, parts);
    }
}
