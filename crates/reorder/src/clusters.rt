//! The classes with which L3 keeps the characters of grapheme clusters in logical order.
ghost use Rattle.std.specs.Prelude.{◌≡◌, ◌<◌, ◌≤◌, ℕ, Bool, List, length, slice_index, slice_index_or};
ghost use Rattle.std.specs.Prelude.{false, true};
ghost use Rattle.reorder.specs.Clusters.{cluster_classes, is_joined, IsSequence, IsSingle};
ghost use Rattle.reorder.specs.Groups.{StandsTogether};
ghost use Rattle.reorder.specs.Order.{vtol_of};

use ucd::{BidiClass, Classes};

/// Classes for [`visual_order`](crate::visual_order) and [`visual_places`](crate::visual_places) with
/// `reordernsm`. With these classes, L3 keeps each grapheme cluster in logical order, instead of each base
/// and its nonspacing marks. A character counts as a nonspacing mark if it continues a cluster and has the
/// same level as the character before it. All other characters count as bases.
#[derive(Clone, Copy)]
pub struct ClusterClasses<'a> {
    /// For each character of the line, whether a cluster ends after it.
    pub ends: &'a [bool],
    /// The levels of the characters to be ordered, after L1.
    pub levels: &'a [u8],
}

impl Classes for ClusterClasses<'_> {
    ghost all = { λ s. cluster_classes s.ends.now s.levels.now };

    fn len(&self) -> usize {
        self.levels.len()
    }

    fn class_at(&self, k: usize) -> BidiClass {
        if is_joined(self.ends, self.levels, k) {
            BidiClass::NSM
        } else {
            BidiClass::ON
        }
    }
}

// Returns whether a character and the character before it are in the same cluster and at the same level.
fn is_joined(ends: &[bool], levels: &[u8], place: usize) -> bool
    requires { place < length levels.now }
    ensures { result ≡ is_joined ends.now levels.now place }
{
    place > 0 && !ends_after(ends, place - 1) && levels[place] == levels[place - 1]
}

// Returns whether a cluster ends after a character of a line.
fn ends_after(ends: &[bool], place: usize) -> bool
    ensures { result ≡ slice_index_or ends.now place false }
{
    place < ends.len() && ends[place]
}

/// States, as a theorem, that adjacent characters of a cluster at the same odd level are adjacent in visual
/// order, too. With `ClusterClasses`, these characters are in logical order. With L2 alone, they are in
/// reverse order. Costs nothing at run time.
pub fn clusters_stand_together()
    ensures { (ends : List Bool) (levels : List ℕ) (first n : ℕ) → IsSequence ends levels first n
        → StandsTogether (cluster_classes ends levels) levels first n }
{}

/// States, as a theorem, that `ClusterClasses` move a character only if its level is odd and an adjacent
/// character of the same cluster has the same level. Costs nothing at run time.
pub fn single_characters_stay()
    ensures { (ends : List Bool) (levels : List ℕ) (k : ℕ) → k < length levels
        → IsSingle ends levels (slice_index (vtol_of false (cluster_classes ends levels) levels) k)
        → slice_index (vtol_of true (cluster_classes ends levels) levels) k
        ≡ slice_index (vtol_of false (cluster_classes ends levels) levels) k }
{}
