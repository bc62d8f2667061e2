//! Searches and traversals of a tree.
ghost use Rattle.std.specs.Prelude.{◌≡◌, ℕ, ◌+◌, ◌^◌, ◌<◌, ◌≤◌, ◌++◌};
ghost use Rattle.std.specs.Prelude.{length, map, sum_by, option_map, slice_get, vec_capacity};
ghost use Rattle.std.specs.List.{AllZip};
ghost use Rattle.store.specs.Exchanging.{pairwise, raised, total_cost};
ghost use Rattle.store.specs.Finding.{IsItemPosition, IsPosition};
ghost use Rattle.store.specs.Sums.{measure};
ghost use Rattle.store.specs.Trees.{height, in_order, IsBalanced, nodes_to};

use crate::found::Position;
use crate::measured::{Exchanger, Measured};
use crate::subtree::{Node, Subtree};
use crate::sums::{Sums, Unit};

impl<P: Measured> Subtree<P> {
    /// Returns the item at an index, or `None` past the last item.
    pub(crate) fn get(&self, index: usize) -> Option<&P>
        ensures { option_map (λ item. item.now) result ≡ slice_get (in_order self.now) index }
    {
        let node = self.root.as_deref()?;
        let before = node.left.count();
        if index < before {
            return node.left.get(index);
        }
        if index > before {
            return node.right.get(index - before - 1);
        }
        Some(&node.item)
    }

    /// Appends all items, in order, to a list that has capacity for them.
    pub(crate) fn list_into<'a>(&'a self, list: &mut Vec<&'a P>)
        requires { length list.old.items + length (in_order self.now) ≤ vec_capacity list.old }
        ensures items { map (λ item. item.now) list.new.items
            ≡ map (λ item. item.now) list.old.items ++ in_order self.now }
        ensures capacity { vec_capacity list.new ≡ vec_capacity list.old }
    {
        let Some(node) = &self.root else {
            return;
        };
        let node: &Node<P> = node;
        node.left.list_into(list);
        list.push_reserved(&node.item);
        node.right.list_into(list);
    }

    /// Finds the item that contains the character, line, byte or code unit with number `n`.
    pub(crate) fn find(&self, unit: Unit, n: usize) -> Position
        requires { n < sum_by (measure P.Measured unit) (in_order self.now) }
        ensures found { IsPosition P.Measured unit (in_order self.now) n result }
        ensures visits { result.visits ≡ nodes_to self.now result.index }
    {
        let Some(node) = &self.root else {
            unreachable!()
        };
        let node: &Node<P> = node;
        // By the trees' invariants, the contracts of these calls bound the sums.
        let (_height, _count, _sums) = (self.height(), self.count(), self.sums());
        let left = node.left.total(unit);
        if n < left {
            let position = node.left.find(unit, n);
            return Position {
                visits: position.visits + 1,
                ..position
            };
        }
        let (index, before) = (node.left.count(), node.left.sums());
        let rest = n - left;
        let size = unit.size_of(&node.item);
        if rest < size {
            return Position {
                index,
                rest,
                before,
                visits: 1,
            };
        }
        let position = node.right.find(unit, rest - size);
        Position {
            index: index + 1 + position.index,
            rest: position.rest,
            before: before.plus(Sums::of(&node.item)).plus(position.before),
            visits: position.visits + 1,
        }
    }

    /// Finds the item at an index.
    pub(crate) fn find_item(&self, index: usize) -> Position
        requires { index < length (in_order self.now) }
        ensures found { IsItemPosition P.Measured (in_order self.now) index result }
        ensures visits { result.visits ≡ nodes_to self.now index }
    {
        let Some(node) = &self.root else {
            unreachable!()
        };
        let node: &Node<P> = node;
        // By the trees' invariants, the contracts of these calls bound the sums.
        let (_height, _sums) = (self.height(), self.sums());
        let (count, before) = (node.left.count(), node.left.sums());
        if index < count {
            let position = node.left.find_item(index);
            return Position {
                visits: position.visits + 1,
                ..position
            };
        }
        if index == count {
            return Position {
                index,
                rest: 0,
                before,
                visits: 1,
            };
        }
        let position = node.right.find_item(index - count - 1);
        Position {
            index,
            rest: 0,
            before: before.plus(Sums::of(&node.item)).plus(position.before),
            visits: position.visits + 1,
        }
    }

    /// Exchanges a part of each item, in order: `parts[i]` for a part of item `i`.
    pub(crate) fn exchange_all<E: Exchanger<P>>(&mut self, by: &mut E, parts: &mut [E::Part])
        requires fit { AllZip (E.fits (E.kind by.old)) (in_order self.old) parts.old }
        requires lines_fit { sum_by P.lines
            (pairwise (E.exchanged (E.kind by.old)) (in_order self.old) parts.old) < 2 ^ 64 }
        ensures items { in_order self.new
            ≡ pairwise (E.exchanged (E.kind by.old)) (in_order self.old) parts.old }
        ensures parts { parts.new
            ≡ pairwise (E.handed_out (E.kind by.old)) (in_order self.old) parts.old }
        ensures same { E.kind by.new ≡ E.kind by.old }
        ensures worked { E.worked by.new
            ≡ raised (E.worked by.old) (total_cost E.cost (in_order self.old) parts.old) }
        ensures count { length (in_order self.new) ≡ length (in_order self.old) }
        ensures height { height self.new ≡ height self.old }
        ensures balanced { IsBalanced self.new }
    {
        let Some(node) = &mut self.root else {
            return;
        };
        let node: &mut Node<P> = node;
        node.sums.fits();
        let before = node.left.count();
        let (first, rest) = parts.split_at_mut(before);
        let (part, last) = rest.split_at_mut(1);
        node.left.exchange_all(by, first);
        by.exchange(&mut node.item, &mut part[0]);
        node.right.exchange_all(by, last);
        let sums = node.left.sums_with(&node.item, &node.right);
        node.sums = sums;
    }
}
