//! Puts a line of a paragraph into visual order: resets its levels, and reorders its items in the C caller's
//! arrays.
ghost use Rattle.std.specs.Prelude.{◌≡◌, ◌≢◌, ◌<◌, ◌≤◌, ◌-◌, ℕ, false, length, map, drop};
ghost use Rattle.std.specs.Prelude.{slice_index, None, IfSome};
ghost use Rattle.reorder.specs.Order.{highest, is_odd, lowest_odd, vtol_of};
ghost use Rattle.hordguli_fribidi.specs.Lines.{asks_marks, reordered_if, IsReordered};
ghost use Rattle.hordguli_fribidi.specs.Types.{class_of};

use crate::types::TypeClasses;
use reorder::{highest_and_lowest_odd, reorder_in_place, reset_levels};

fn asks_marks(flags: u32) -> bool
    ensures { result ≡ asks_marks flags }
{
    flags / 2 % 2 == 1
}

// Puts the items of an array from `off` on into visual order, if the array ends where the line ends.
fn arrange_if(types: &[u32], off: usize, levels: &[u8], marks: bool, array: &mut [u32])
    requires off { off ≤ length types.now }
    requires levels { length levels.now ≡ length types.now - off }
    ensures { array.new ≡ reordered_if (length types.now) off
        (vtol_of marks (map class_of (drop off types.now)) levels.now) array.old }
{
    if array.len() == types.len() {
        let line = TypeClasses {
            types: &types[off..],
        };
        reorder_in_place(&line, levels, marks, &mut array[off..]);
    }
}

/// Reorders a line in place: applies L1 to the line's levels, and puts the line's part of the string and of
/// the map into visual order. The string or the map may be missing: an array whose length is not that of
/// `types` is unchanged. The arrays contain the paragraph up to the line's end. Returns one more than the
/// line's highest level.
///
/// Returns 0 and changes nothing if, and only if, `levels` and `types` differ in length or `off` is past
/// their end.
#[unsafe(no_mangle)]
pub extern "C" fn hordguli_fribidi_core_reorder(
    flags: u32,
    types: &[u32],
    off: usize,
    direction: u32,
    levels: &mut [u8],
    string: &mut [u32],
    map: &mut [u32],
) -> u32
    ensures none { result ≡ 0 → (levels.new ≡ levels.old) × (string.new ≡ string.old)
        × (map.new ≡ map.old) }
    ensures fit { length levels.old ≡ length types.now → off ≤ length types.now → result ≢ 0 }
    ensures differ { length levels.old ≢ length types.now → result ≡ 0 }
    ensures past { length types.now < off → result ≡ 0 }
    ensures some { result ≢ 0 → IsReordered flags types.now off direction levels.old result levels.new
        string.old string.new map.old map.new }
{
    let len = types.len();
    if levels.len() != len || off > len {
        return 0;
    }
    let base = if direction % 2 == 1 { 1 } else { 0 };
    let line = &mut levels[off..];
    let classes = TypeClasses {
        types: &types[off..],
    };
    reset_levels(&classes, base, line);
    let marks = asks_marks(flags);
    arrange_if(types, off, line, marks, string);
    arrange_if(types, off, line, marks, map);
    let (highest, _lowest_odd) = highest_and_lowest_odd(line);
    u32::from(highest) + 1
}
