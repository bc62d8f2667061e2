//! Applies the neutral and implicit rules (UAX #9, N1, N2, I1 and I2) to the types of one isolating run
//! sequence.
ghost use Rattle.std.specs.Prelude.{◌≡◌, ◌+◌, ◌/◌, ◌%◌, ◌<◌, ◌≤◌, length, map};
ghost use Rattle.bidi.specs.Neutral.{implicit_level, is_neutral, neutral};
ghost use Rattle.bidi.specs.Rows.{Advances, beside, row_of, LowersRun};
ghost use Rattle.bidi.specs.Sequences.{direction};

use crate::neutral_table::{row_of, step};
use ucd::BidiClass;

/// Applies N1, N2, I1 and I2 in one pass. A run of neutrals gets the direction of the types on both sides if
/// they have the same direction, or else the embedding direction. To avoid most data-dependent branches, the
/// pass writes the level of a neutral at once, as if the types before and after its run had the same
/// direction. If they do not, the levels of the run may be too high, and the pass writes them again.
#[inline(never)] // so that the loop has all registers
pub(crate) fn resolve_neutral(
    types: &[BidiClass],
    level: u8,
    sos: BidiClass,
    eos: BidiClass,
    levels: &mut [u8],
)
    requires length { length levels.old ≡ length types.now }
    requires bounded { level ≤ 125 }
    ensures { levels.new ≡ map (implicit_level level) (neutral (direction level) sos eos types.now) }
{
    let mut row = row_of(level, rise_beside(level, sos));
    let mut at = 0;
    // Two types at a time, to test the index half as often.
    while at + 1 < types.len() {
        row = advance(types, level, at, row, levels);
        row = advance(types, level, at + 1, row, levels);
        at += 2;
    }
    row = advance_last(types, level, at, row, levels);
    if row_of(level, rise_beside(level, eos)) < row {
        lower_run(types, level, types.len(), levels);
    }
}

// Writes the level of the type at an index, given the row for this type. Returns the row for the next type.
#[inline(always)] // since the loop calls it twice
fn advance(types: &[BidiClass], level: u8, at: usize, row: usize, levels: &mut [u8]) -> usize
    requires length { length levels.old ≡ length types.now }
    requires bounded { level ≤ 125 }
    requires within { at < length types.now }
    requires row { row ≡ row_of level (row / 32 % 2) }
    ensures row { result ≡ row_of level (result / 32 % 2) }
    ensures next { Advances level types.now levels.old row at levels.new result (at + 1) }
{
    let entry = step(level, row, types[at]);
    let next = (entry / 256) as usize;
    if next < row {
        lower_run(types, level, at, levels);
    }
    levels[at] = level + (entry % 256) as u8;
    next
}

// Does the same as `advance` for the last type, if there is one at the index.
#[inline(always)]
fn advance_last(types: &[BidiClass], level: u8, at: usize, row: usize, levels: &mut [u8]) -> usize
    requires length { length levels.old ≡ length types.now }
    requires bounded { level ≤ 125 }
    requires within { (at ≤ length types.now) × (length types.now ≤ at + 1) }
    requires row { row ≡ row_of level (row / 32 % 2) }
    ensures row { result ≡ row_of level (result / 32 % 2) }
    ensures next { Advances level types.now levels.old row at levels.new result (length types.now) }
{
    if at < types.len() {
        return advance(types, level, at, row, levels);
    }
    row
}

// Sets the levels of the run of neutrals that ends at `end` to the embedding level.
#[cold]
#[inline(never)]
fn lower_run(types: &[BidiClass], level: u8, end: usize, levels: &mut [u8])
    requires length { length levels.old ≡ length types.now }
    requires within { end ≤ length types.now }
    ensures { LowersRun level types.now levels.old end levels.new }
{
    let mut at = end;
    while at > 0 && is_neutral(types[at - 1]) {
        at -= 1;
        levels[at] = level;
    }
}

// Returns how many levels neutrals rise if the types on both sides have the direction of `class`.
fn rise_beside(level: u8, class: BidiClass) -> u8
    ensures { result ≡ beside level class }
{
    match (level % 2, class) {
        (0, BidiClass::L) => 0,
        (0, _) | (_, BidiClass::L) => 1,
        _ => 0,
    }
}

pub(crate) fn is_neutral(class: BidiClass) -> bool
    ensures { result ≡ is_neutral class }
{
    matches!(
        class,
        BidiClass::B
            | BidiClass::S
            | BidiClass::WS
            | BidiClass::ON
            | BidiClass::LRI
            | BidiClass::RLI
            | BidiClass::FSI
            | BidiClass::PDI
    )
}
