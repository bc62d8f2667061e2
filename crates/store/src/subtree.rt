//! Balanced trees. Each node stores the sums of all items in its subtree.
ghost use Rattle.std.specs.Prelude.{◌≡◌, ◌+◌, ◌≤◌, length, sum_by, ◌∷◌, ◌++◌, max};
ghost use Rattle.std.specs.Prelude.{true, IfOk, IfErr, MatchOption};
ghost use Rattle.store.specs.Subtrees.{Fits, IsSummed};
ghost use Rattle.store.specs.Sums.{measure, AreSums, SumsFit};
ghost use Rattle.store.specs.Trees.{Empty, Fork, height, in_order, IsBalanced};

use crate::measured::Measured;
use crate::sums::{Sums, Unit};
use std::alloc::{AllocFailed, Global};
use std::marker::Model;
use std::mem;

/// A balanced tree.
#[cycle(subtree)]
#[derive(Drop)]
pub(crate) struct Subtree<P: Measured> {
    pub(crate) root: Option<Box<Node<P>>>,
}

/// The root of a tree. `height`, `count` and `sums` are those of the whole tree.
#[cycle(subtree)]
#[derive(Drop)]
pub(crate) struct Node<P: Measured> {
    pub(crate) left: Subtree<P>,
    pub(crate) item: P,
    pub(crate) right: Subtree<P>,
    pub(crate) height: usize,
    pub(crate) count: usize,
    pub(crate) sums: Sums,
}

impl<P: Measured> Model for Subtree<P> {
    ghost use Rattle.store.specs.Trees.{Tree, tree_code, in_order};

    ghost Value = { Tree P };

    ghost coded = { tree_code P.code };

    ghost use Rattle.std.specs.Prelude.{length};
    ghost use Rattle.store.specs.Subtrees.{tree_of, IsSound};

    ghost view = { λ s. tree_of s.root };

    ghost invariant = { λ s. IsSound P.Measured s.root };

    ghost size = { λ t. length (in_order t) };

    ghost use Rattle.store.specs.SubtreesFall.{depth_le_length};

    ghost size_decreases = { λ a h. depth_le_length P.Measured a };
}

/// A node that is in no tree. It has an item and no subtrees.
#[derive(Drop)]
pub(crate) struct DetachedNode<P: Measured> {
    node: Box<Node<P>>,
}

impl<P: Measured> Model for DetachedNode<P> {
    ghost use Rattle.std.specs.Prelude.{◌≡◌};
    ghost use Rattle.store.specs.Trees.{Empty};

    ghost Value = { P };

    ghost view = { λ s. s.node.value.item };

    ghost invariant = { λ s. (s.node.value.left ≡ Empty) × (s.node.value.right ≡ Empty) };
}

impl<P: Measured> Subtree<P> {
    /// Returns a tree without items.
    pub(crate) fn empty() -> Subtree<P>
        ensures { result ≡ Empty }
    {
        Subtree { root: None }
    }

    /// Returns the height: the number of nodes on the longest path down from the root.
    pub(crate) fn height(&self) -> usize
        ensures value { result ≡ height self.now }
        ensures low { result ≤ length (in_order self.now) }
        ensures balanced { IsBalanced self.now }
    {
        match &self.root {
            None => 0,
            Some(node) => node.height,
        }
    }

    /// Returns the number of items.
    pub(crate) fn count(&self) -> usize
        ensures { result ≡ length (in_order self.now) }
    {
        match &self.root {
            None => 0,
            Some(node) => node.count,
        }
    }

    /// Returns the sums of all items.
    pub(crate) fn sums(&self) -> Sums
        ensures sums { AreSums P.Measured (in_order self.now) result }
        ensures fit { SumsFit P.Measured (in_order self.now) }
    {
        match &self.root {
            None => Sums::none(),
            Some(node) => {
                node.sums.fits();
                node.sums
            }
        }
    }

    /// Returns the total size of all items, in one unit.
    pub(crate) fn total(&self, unit: Unit) -> usize
        ensures { result ≡ sum_by (measure P.Measured unit) (in_order self.now) }
    {
        self.sums().total(unit)
    }

    /// Returns the sums over the items of this tree, one more item, and the items of another tree.
    pub(crate) fn sums_with(&self, item: &P, right: &Subtree<P>) -> Sums
        requires { SumsFit P.Measured (in_order self.now ++ item.now ∷ in_order right.now) }
        ensures { AreSums P.Measured (in_order self.now ++ item.now ∷ in_order right.now) result }
    {
        self.sums().plus(Sums::of(item)).plus(right.sums())
    }

    /// Frees a tree without items.
    pub(crate) fn discard(self)
        requires { self ≡ Empty }
    {
        let Subtree { root } = self;
        match root {
            None => {}
            Some(_node) => unreachable!(),
        }
    }

    /// Takes a tree apart. Returns its left subtree, its root and its right subtree, or `None` if the tree is
    /// empty.
    pub(crate) fn open(self) -> Option<(Subtree<P>, DetachedNode<P>, Subtree<P>)>
        ensures parts { MatchOption result (self ≡ Empty) (λ p. self ≡ Fork p.0 p.1 p.2) }
        ensures fits { Fits P.Measured (in_order self) }
        ensures balanced { IsBalanced self }
    {
        // By the trees' invariants, the contracts of these calls bound the sums.
        let (_count, _sums) = (self.count(), self.sums());
        match self.root {
            None => None,
            Some(mut node) => {
                let left = mem::replace(&mut node.left, Subtree::empty());
                let right = mem::replace(&mut node.right, Subtree::empty());
                Some((left, DetachedNode { node }, right))
            }
        }
    }
}

impl<P: Measured> DetachedNode<P> {
    /// Puts an item into a new node. If the allocation fails, returns the item with the error.
    pub(crate) fn new(alloc: Global, item: P) -> Result<DetachedNode<P>, AllocFailed<P>>
        ensures ok { IfOk result (λ node. node ≡ item) }
        ensures err { IfErr result (λ failed. failed.value ≡ item) }
    {
        let node = Node {
            left: Subtree::empty(),
            item,
            right: Subtree::empty(),
            height: 0,
            count: 0,
            sums: Sums::none(),
        };
        match Box::new(alloc, node) {
            Ok(node) => Ok(DetachedNode { node }),
            Err(failed) => Err(AllocFailed {
                value: failed.value.into_item(),
            }),
        }
    }

    /// Returns the item, and frees the node.
    pub(crate) fn into_item(self) -> P
        ensures { result ≡ self }
    {
        Box::into_inner(self.node).into_item()
    }

    /// Makes the node the root of a tree with the given subtrees, whose heights differ by at most 1.
    pub(crate) fn over(self, left: Subtree<P>, right: Subtree<P>) -> Subtree<P>
        requires fits { Fits P.Measured (in_order left ++ self ∷ in_order right) }
        requires near { (height left ≤ height right + 1) × (height right ≤ height left + 1) }
        ensures { result ≡ Fork left self right }
    {
        let mut node = self.node;
        node.hang(left, right);
        Subtree { root: Some(node) }
    }
}

impl<P: Measured> Node<P> {
    // Attaches two trees, whose heights differ by at most 1, to a node without subtrees, and computes the
    // node's sums.
    fn hang(&mut self, left: Subtree<P>, right: Subtree<P>)
        requires empty { (self.old.left ≡ Empty) × (self.old.right ≡ Empty) }
        requires fits { Fits P.Measured (in_order left ++ self.old.item ∷ in_order right) }
        requires near { (height left ≤ height right + 1) × (height right ≤ height left + 1) }
        ensures left { self.new.left ≡ left }
        ensures item { self.new.item ≡ self.old.item }
        ensures right { self.new.right ≡ right }
        ensures summed { IsSummed P.Measured self.new }
    {
        self.height = left.height().max(right.height()) + 1;
        self.count = left.count() + 1 + right.count();
        self.sums = left.sums_with(&self.item, &right);
        mem::replace(&mut self.left, left).discard();
        mem::replace(&mut self.right, right).discard();
    }

    // Returns the item of a node outside any tree.
    fn into_item(self) -> P
        requires left { self.left ≡ Empty }
        requires right { self.right ≡ Empty }
        ensures { result ≡ self.item }
    {
        let Node {
            left,
            item,
            right,
            height: _,
            count: _,
            sums: _,
        } = self;
        left.discard();
        right.discard();
        item
    }
}
