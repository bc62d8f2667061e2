//! The levels of a list that is a single isolating run sequence (UAX #9, W1 to I2). Each rule is a pass over
//! the types.
mod brackets;
mod neutral;
mod weak;

use crate::levels::brackets::resolve_brackets;
use crate::levels::neutral::resolve_neutral;
use crate::levels::weak::resolve_weak;
use bidi::{Base, base_level};
use std::alloc::{AllocError, Global};
use ucd::{BidiClass, Tables};

/// Returns the level of each character of a list without explicit formatting characters, isolates, or
/// characters that X9 removes.
pub fn reference_levels(
    alloc: Global,
    tables: &Tables,
    text: &[char],
    base: Base,
) -> Result<Vec<u8>, AllocError> {
    let level = base_level(tables, text, base);
    let side = direction(level);
    let classes = classes_of(alloc, tables, text)?;
    let mut types = classes_of(alloc, tables, text)?;
    resolve_weak(&mut types, side);
    resolve_brackets(alloc, tables, text, &classes, &mut types, side)?;
    resolve_neutral(&mut types, side);
    levels_of(alloc, level, &types)
}

fn classes_of(alloc: Global, tables: &Tables, text: &[char]) -> Result<Vec<BidiClass>, AllocError> {
    text.iter().map(|c| tables.bidi_class(*c)).collect(alloc)
}

fn levels_of(alloc: Global, level: u8, types: &[BidiClass]) -> Result<Vec<u8>, AllocError> {
    types
        .iter()
        .map(|class| implicit_level(level, *class))
        .collect(alloc)
}

// Returns the direction of a level. In a list that is a single isolating run sequence, the direction of the
// base level is also sos and eos.
fn direction(level: u8) -> BidiClass {
    if level % 2 == 1 {
        BidiClass::R
    } else {
        BidiClass::L
    }
}

// I1 and I2: returns the level of a character, given its type after N2.
fn implicit_level(level: u8, class: BidiClass) -> u8 {
    let more = match (level % 2, class) {
        (0, BidiClass::R) => 1,
        (0, BidiClass::AN | BidiClass::EN) => 2,
        (0, _) => 0,
        (_, BidiClass::L | BidiClass::AN | BidiClass::EN) => 1,
        _ => 0,
    };
    level.saturating_add(more)
}
