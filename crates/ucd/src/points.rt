//! Maps from single code points to values.
ghost use Rattle.std.specs.Prelude.{◌≡◌, ℕ, ◌<◌, ◌≤◌, IfOk, OnOk, Some, if◌then◌else◌};
ghost use Rattle.std.specs.BTreeMap.{get};
ghost use Rattle.std.specs.Ordering.{nat_cmp};
ghost use Rattle.ucd.specs.Entries.{AreApart, covers, value_at};

use crate::grammar::Entry;
use std::alloc::{AllocError, Global};
use std::collections::BTreeMap;

/// Returns a map from each code point of the entries to its value.
pub fn points_of<V: Copy + Drop>(
    alloc: Global,
    entries: &[Entry<V>],
) -> Result<BTreeMap<u32, V>, AllocError>
    requires { AreApart entries.now }
    ensures { IfOk result (λ points. (c : ℕ) → get nat_cmp points c ≡ value_at entries.now c) }
{
    let mut points = BTreeMap::new(alloc);
    for entry in entries {
        insert_points(&mut points, entry)?;
    }
    Ok(points)
}

// Adds each code point of an entry to the map, with the entry's value.
fn insert_points<V: Copy + Drop>(
    points: &mut BTreeMap<u32, V>,
    entry: &Entry<V>,
) -> Result<(), AllocError>
    requires { (entry.now.first ≤ entry.now.last) × (entry.now.last < 1114112) }
    ensures { OnOk result ((c : ℕ) → get nat_cmp points.new c
        ≡ (if covers entry.now c then Some entry.now.value else get nat_cmp points.old c)) }
{
    for point in entry.first..entry.last + 1 {
        points.insert(point, entry.value)?;
    }
    Ok(())
}
