//! The table for the pass that applies the neutral and implicit rules (UAX #9, N1, N2, I1 and I2). It has two
//! rows for even levels and two for odd levels: one if neutrals do not rise after the last non-neutral type,
//! and one if they rise by one level. A row has an entry for each bidi class. Each entry is proved correct.
ghost use Rattle.std.specs.Prelude.{◌≡◌, ◌≤◌, ◌/◌, ◌%◌};
ghost use Rattle.bidi.specs.Rows.{row_of, step};

use crate::weak_table::ROW_LEN;
use ucd::BidiClass;

/// The index at which the row for the next type starts, times 256, plus how far the level of this type is
/// above the level of the sequence. The level of a neutral is as if the types on both sides had the same
/// direction.
pub static STEPS: [u16; 4 * ROW_LEN] = [
    0, 8193, 8192, 8194, 8192, 8192, 8194, 8192, 8192, 8192, 0, 0, 0, 0, 8192, 8192, 8192, 8192,
    8192, 0, 0, 0, 0, 0, 0, 0, 0, 0, 0, 0, 0, 0, 0, 8193, 8192, 8194, 8192, 8192, 8194, 8192, 8192,
    8192, 8193, 8193, 8193, 8193, 8192, 8192, 8192, 8192, 8192, 8193, 8193, 8193, 8193, 0, 0, 0, 0,
    0, 0, 0, 0, 0, 24577, 16384, 16384, 16385, 16384, 16384, 16385, 16384, 16384, 16384, 16384,
    16384, 16384, 16384, 16384, 16384, 16384, 16384, 16384, 16384, 16384, 16384, 16384, 24577,
    24577, 24577, 24577, 24577, 24577, 24577, 24577, 24577, 24577, 16384, 16384, 16385, 16384,
    16384, 16385, 16384, 16384, 16384, 24577, 24577, 24577, 24577, 16384, 16384, 16384, 16384,
    16384, 24577, 24577, 24577, 24577, 24577, 24577, 24577, 24577, 24577, 24577, 24577, 24577,
    24577,
];

/// Returns the index at which the row for a level, and for how many levels neutrals rise, starts.
pub fn row_of(level: u8, rise: u8) -> usize
    requires { rise ≤ 1 }
    ensures { result ≡ row_of level rise }
{
    (level % 2) as usize * (2 * ROW_LEN) + rise as usize * ROW_LEN
}

/// Returns the entry of `STEPS` for a row and a class. The row must be one for the level.
pub fn step(level: u8, row: usize, class: BidiClass) -> u16
    requires { row ≡ row_of level (row / 32 % 2) }
    ensures entry { result ≡ step level (row / 32 % 2) class }
    ensures bounded { result % 256 ≤ 2 }
{
    STEPS[row + class as usize]
}
