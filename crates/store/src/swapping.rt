//! Exchanges one item of a tree for another, in place.
ghost use Rattle.std.specs.Prelude.{◌≡◌, ◌+◌, ◌<◌, ◌∷◌, [], length, slice_range};
ghost use Rattle.std.specs.List.{splice};
ghost use Rattle.store.specs.Sums.{AreSums, SumsFit};
ghost use Rattle.store.specs.Trees.{height, in_order, IsBalanced};

use crate::measured::Measured;
use crate::subtree::{Node, Subtree};
use crate::sums::Sums;
use std::mem;

impl<P: Measured> Subtree<P> {
    /// Returns the sizes of the item at an index.
    pub(crate) fn sizes_at(&self, index: usize) -> Sums
        requires { index < length (in_order self.now) }
        ensures { AreSums P.Measured (slice_range (in_order self.now) index (index + 1)) result }
    {
        let Some(item) = self.get(index) else {
            unreachable!()
        };
        Sums::of(item)
    }

    /// Exchanges the item at an index for `item`. `less` and `more` are the sizes of the old and the new
    /// item. Apart from the item, only the sums on the path to it change, so the tree stays balanced.
    pub(crate) fn swap_item(&mut self, index: usize, item: &mut P, less: Sums, more: Sums)
        requires within { index < length (in_order self.old) }
        requires less { AreSums P.Measured (slice_range (in_order self.old) index (index + 1)) less }
        requires more { AreSums P.Measured (item.old ∷ []) more }
        requires fit { SumsFit P.Measured (splice (in_order self.old) index (index + 1) (item.old ∷ [])) }
        ensures items { in_order self.new ≡ splice (in_order self.old) index (index + 1) (item.old ∷ []) }
        ensures out { item.new ∷ [] ≡ slice_range (in_order self.old) index (index + 1) }
        ensures count { length (in_order self.new) ≡ length (in_order self.old) }
        ensures height { height self.new ≡ height self.old }
        ensures balanced { IsBalanced self.new }
    {
        let Some(node) = &mut self.root else {
            unreachable!()
        };
        let node: &mut Node<P> = node;
        let sums = node.sums.minus(less).plus(more);
        node.sums = sums;
        let before = node.left.count();
        if index < before {
            node.left.swap_item(index, item, less, more);
            return;
        }
        if index > before {
            node.right.swap_item(index - before - 1, item, less, more);
            return;
        }
        mem::swap(&mut node.item, item);
    }
}
