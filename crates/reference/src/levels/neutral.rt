//! The neutral rules (UAX #9, N1 and N2), as a pass over the types of a sequence.
use crate::levels::weak::type_or;
use ucd::BidiClass;

/// Applies N1 and N2: neutrals get the direction of the types on both sides if these agree, and otherwise the
/// embedding direction. The embedding direction is also sos and eos.
pub fn resolve_neutral(types: &mut [BidiClass], side: BidiClass) {
    let mut before = side;
    // The index after the current run of neutrals. This index is found once per run.
    let mut end = 0;
    for at in 0..types.len() {
        let class = types[at];
        if is_neutral(class) {
            if end <= at {
                end = after_neutrals(types, at + 1);
            }
            types[at] = between(side, before, type_or(types, end, side));
        } else {
            before = class;
        }
    }
}

fn is_neutral(class: BidiClass) -> bool {
    matches!(
        class,
        BidiClass::B
            | BidiClass::S
            | BidiClass::WS
            | BidiClass::ON
            | BidiClass::LRI
            | BidiClass::RLI
            | BidiClass::FSI
            | BidiClass::PDI
    )
}

// Returns the first index from `from` on whose type is not neutral, or the length.
fn after_neutrals(types: &[BidiClass], from: usize) -> usize {
    for at in from..types.len() {
        if !is_neutral(types[at]) {
            return at;
        }
    }
    types.len()
}

// Returns the direction of neutrals between two types that are not neutral.
fn between(side: BidiClass, before: BidiClass, after: BidiClass) -> BidiClass {
    match (before, after) {
        (BidiClass::L, BidiClass::L) => BidiClass::L,
        (BidiClass::L, _) | (_, BidiClass::L) => side,
        _ => BidiClass::R,
    }
}
