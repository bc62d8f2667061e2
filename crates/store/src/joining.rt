//! Joins and splits balanced trees without allocating, in time proportional to the heights of the trees.
ghost use Rattle.std.specs.Prelude.{◌≡◌, ◌+◌, ◌^◌, ◌<◌, ◌≤◌, ◌∷◌, ◌++◌};
ghost use Rattle.std.specs.Prelude.{ℕ, length, [], take, drop, max};
ghost use Rattle.std.specs.Prelude.{map, reverse, slice_range, MatchOption, vec_capacity, ◌-◌};
ghost use Rattle.std.specs.List.{splice};
ghost use Rattle.store.specs.Subtrees.{Fits};
ghost use Rattle.store.specs.Trees.{Empty, Fork, height, in_order, IsBalanced};

use crate::measured::Measured;
use crate::subtree::{DetachedNode, Subtree};
use std::mem;

/// Joins two trees with one more item between them.
pub(crate) fn join<P: Measured>(
    left: Subtree<P>,
    node: DetachedNode<P>,
    right: Subtree<P>,
) -> Subtree<P>
    requires { Fits P.Measured (in_order left ++ node ∷ in_order right) }
    ensures items { in_order result ≡ in_order left ++ node ∷ in_order right }
    ensures not_lower { max (height left) (height right) ≤ height result }
    ensures at_most_one_higher { height result ≤ max (height left) (height right) + 1 }
{
    let left_height = left.height();
    let right_height = right.height();
    if left_height > right_height + 1 {
        let Some((first, top, middle)) = left.open() else {
            unreachable!()
        };
        return balance(first, top, join(middle, node, right));
    }
    if right_height > left_height + 1 {
        let Some((middle, top, last)) = right.open() else {
            unreachable!()
        };
        return balance(join(left, node, middle), top, last);
    }
    node.over(left, right)
}

// Joins two trees, whose heights differ by at most 2, with a node between them.
fn balance<P: Measured>(left: Subtree<P>, node: DetachedNode<P>, right: Subtree<P>) -> Subtree<P>
    requires fits { Fits P.Measured (in_order left ++ node ∷ in_order right) }
    requires near { (height left ≤ height right + 2) × (height right ≤ height left + 2) }
    ensures items { in_order result ≡ in_order left ++ node ∷ in_order right }
    ensures not_lower { max (height left) (height right) ≤ height result }
    ensures at_most_one_higher { height result ≤ max (height left) (height right) + 1 }
    ensures higher { (height left ≤ height right + 1) → (height right ≤ height left + 1)
        → height result ≡ max (height left) (height right) + 1 }
{
    let left_height = left.height();
    let right_height = right.height();
    if left_height > right_height + 1 {
        return lean_left(left, node, right);
    }
    if right_height > left_height + 1 {
        return lean_right(left, node, right);
    }
    node.over(left, right)
}

// Joins two trees with a node between them. The left tree is higher by 2. Makes one rotation, or two if the
// inner subtree of the left tree is higher than its outer subtree.
fn lean_left<P: Measured>(left: Subtree<P>, node: DetachedNode<P>, right: Subtree<P>) -> Subtree<P>
    requires fits { Fits P.Measured (in_order left ++ node ∷ in_order right) }
    requires two_higher { height left ≡ height right + 2 }
    ensures items { in_order result ≡ in_order left ++ node ∷ in_order right }
    ensures not_lower { height left ≤ height result }
    ensures at_most_one_higher { height result ≤ height left + 1 }
{
    let Some((outer, top, inner)) = left.open() else {
        unreachable!()
    };
    if outer.height() >= inner.height() {
        return top.over(outer, node.over(inner, right));
    }
    lift(outer, top, inner, node, right)
}

// Joins two trees with a node between them. The right tree is higher by 2.
fn lean_right<P: Measured>(left: Subtree<P>, node: DetachedNode<P>, right: Subtree<P>) -> Subtree<P>
    requires fits { Fits P.Measured (in_order left ++ node ∷ in_order right) }
    requires two_higher { height right ≡ height left + 2 }
    ensures items { in_order result ≡ in_order left ++ node ∷ in_order right }
    ensures not_lower { height right ≤ height result }
    ensures at_most_one_higher { height result ≤ height right + 1 }
{
    let Some((inner, top, outer)) = right.open() else {
        unreachable!()
    };
    if outer.height() >= inner.height() {
        return top.over(node.over(left, inner), outer);
    }
    lift(left, node, inner, top, outer)
}

// Joins three trees, with a node between each two, by a double rotation. The middle tree is higher by 1 than
// each of the other two, and its root becomes the root of the joined tree.
fn lift<P: Measured>(
    left: Subtree<P>,
    before: DetachedNode<P>,
    inner: Subtree<P>,
    after: DetachedNode<P>,
    right: Subtree<P>,
) -> Subtree<P>
    requires fits { Fits P.Measured
        (in_order left ++ before ∷ in_order inner ++ after ∷ in_order right) }
    requires higher { (height inner ≡ height left + 1) × (height inner ≡ height right + 1) }
    ensures items { in_order result ≡ in_order left ++ before ∷ in_order inner ++ after ∷ in_order right }
    ensures height { height result ≡ height inner + 1 }
{
    let Some((first, middle, second)) = inner.open() else {
        unreachable!()
    };
    middle.over(before.over(left, first), after.over(second, right))
}

// Splits a tree into the items before an index and the items at and after it.
fn split<P: Measured>(tree: Subtree<P>, at: usize) -> (Subtree<P>, Subtree<P>)
    requires { at ≤ length (in_order tree) }
    ensures front { in_order result.0 ≡ take at (in_order tree) }
    ensures after { in_order result.1 ≡ drop at (in_order tree) }
{
    let Some((left, top, right)) = tree.open() else {
        return (Subtree::empty(), Subtree::empty());
    };
    let before = left.count();
    if at <= before {
        let (front, middle) = split(left, at);
        return (front, join(middle, top, right));
    }
    let (middle, after) = split(right, at - before - 1);
    (join(left, top, middle), after)
}

// Removes the first item, and returns its node and the rest of the tree, or `None` if the tree is empty.
fn take_first<P: Measured>(tree: Subtree<P>) -> Option<(DetachedNode<P>, Subtree<P>)>
    ensures { MatchOption result (tree ≡ Empty) (λ p. in_order tree ≡ p.0 ∷ in_order p.1) }
{
    let (left, top, right) = tree.open()?;
    let Some((first, rest)) = take_first(left) else {
        return Some((top, right));
    };
    Some((first, join(rest, top, right)))
}

// Joins two trees. The first item of the right tree becomes the item between them.
fn append<P: Measured>(left: Subtree<P>, right: Subtree<P>) -> Subtree<P>
    requires { Fits P.Measured (in_order left ++ in_order right) }
    ensures { in_order result ≡ in_order left ++ in_order right }
{
    let Some((first, rest)) = take_first(right) else {
        return left;
    };
    join(left, first, rest)
}

// Builds a tree from the nodes of a list. The last node becomes the first item.
fn build_all<P: Measured>(nodes: Vec<DetachedNode<P>>) -> Subtree<P>
    requires { Fits P.Measured (reverse nodes.items) }
    ensures { in_order result ≡ reverse nodes.items }
{
    let mut nodes = nodes;
    let count = nodes.len();
    let tree = build(&mut nodes, count);
    nodes.destroy_empty();
    tree
}

// Removes the last `count` nodes of a list, and builds a tree from them. The last node becomes the first
// item.
fn build<P: Measured>(nodes: &mut Vec<DetachedNode<P>>, count: usize) -> Subtree<P>
    requires enough { count ≤ length nodes.old.items }
    requires fits { Fits P.Measured (reverse nodes.old.items) }
    ensures left { nodes.new.items ≡ take (length nodes.old.items - count) nodes.old.items }
    ensures items { in_order result ≡ reverse (drop (length nodes.old.items - count) nodes.old.items) }
{
    if count == 0 {
        return Subtree::empty();
    }
    let before = count / 2;
    let left = build(nodes, before);
    let top = nodes.take_last();
    let right = build(nodes, count - before - 1);
    join(left, top, right)
}

/// Replaces a range of items with the nodes of a list, starting with the last node. Returns a tree of the old
/// items.
pub(crate) fn put_in<P: Measured>(
    tree: &mut Subtree<P>,
    first: usize,
    second: usize,
    nodes: Vec<DetachedNode<P>>,
) -> Subtree<P>
    requires order { (first ≤ second) × (second ≤ length (in_order tree.old)) }
    requires fits { Fits P.Measured
        (splice (in_order tree.old) first second (reverse nodes.items)) }
    ensures items { in_order tree.new ≡ splice (in_order tree.old) first second (reverse nodes.items) }
    ensures gone { in_order result ≡ slice_range (in_order tree.old) first second }
{
    let whole = mem::replace(tree, Subtree::empty());
    let (front, rest) = split(whole, first);
    let (gone, after) = split(rest, second - first);
    let middle = build_all(nodes);
    mem::replace(tree, append(append(front, middle), after)).discard();
    gone
}

/// Moves the items of a tree to the end of a list, which must have capacity for them, and frees the nodes.
pub(crate) fn move_items<P: Measured>(tree: Subtree<P>, items: &mut Vec<P>)
    requires { length items.old.items + length (in_order tree) ≤ vec_capacity items.old }
    ensures items { items.new.items ≡ items.old.items ++ in_order tree }
    ensures capacity { vec_capacity items.new ≡ vec_capacity items.old }
{
    let Some((left, top, right)) = tree.open() else {
        return;
    };
    move_items(left, items);
    items.push_reserved(top.into_item());
    move_items(right, items);
}
