//! The classes that L3 uses for a line.
ghost use Rattle.std.specs.Prelude.{if◌then◌else◌, map};
ghost use Rattle.ucd.specs.Classes.{class_in};
ghost use Rattle.reorder.specs.Clusters.{cluster_classes};

use reorder::ClusterClasses;
use ucd::{BidiClass, Classes, KnownClasses, Properties};

/// The bidi classes of a line or, with `reorder_clusters`, classes that mark its clusters. `levels` are the
/// levels of the line's shown part.
#[derive(Clone, Copy)]
pub(crate) struct LineClasses<'a> {
    pub(crate) properties: &'a [Properties],
    pub(crate) ends: &'a [bool],
    pub(crate) levels: &'a [u8],
    pub(crate) reorder_clusters: bool,
}

impl Classes for LineClasses<'_> {
    ghost all = { λ s. if s.reorder_clusters then cluster_classes s.ends.now s.levels.now
        else map class_in s.properties.now };

    fn len(&self) -> usize {
        if self.reorder_clusters {
            self.levels.len()
        } else {
            self.properties.len()
        }
    }

    fn class_at(&self, k: usize) -> BidiClass {
        let (properties, ends, levels) = (self.properties, self.ends, self.levels);
        if self.reorder_clusters {
            ClusterClasses { ends, levels }.class_at(k)
        } else {
            KnownClasses { properties }.class_at(k)
        }
    }
}
