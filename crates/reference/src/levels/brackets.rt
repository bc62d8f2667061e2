//! Bracket pairs (UAX #9, BD16) and their directions (N0).
use std::alloc::{AllocError, Global};
use ucd::{BidiClass, Bracket, Tables};

// The maximum number of opening brackets on the stack (BD16).
const MAX_OPENERS: usize = 63;

// An opening bracket on the stack, and the closing bracket of its pair.
#[derive(Clone, Copy)]
struct Opener {
    place: usize,
    closer: char,
}

// The indices of the brackets of a pair.
#[derive(Clone, Copy)]
struct Pair {
    opener: usize,
    closer: usize,
}

/// Applies N0 to the types of a sequence, given its characters and their classes.
pub fn resolve_brackets(
    alloc: Global,
    tables: &Tables,
    text: &[char],
    classes: &[BidiClass],
    types: &mut [BidiClass],
    side: BidiClass,
) -> Result<(), AllocError> {
    let pairs = pairs_of(alloc, tables, text, types)?;
    for opener in 0..types.len() {
        if let Some(closer) = closer_of(&pairs, opener) {
            set_pair(types, classes, opener, closer, side);
        }
    }
    Ok(())
}

// BD16: returns the pairs. Pairing stops at an opening bracket if 63 brackets are already on the stack.
fn pairs_of(
    alloc: Global,
    tables: &Tables,
    text: &[char],
    types: &[BidiClass],
) -> Result<Vec<Pair>, AllocError> {
    let mut openers = Vec::new(alloc);
    let mut pairs = Vec::new(alloc);
    for (place, (c, class)) in text.iter().zip(types).enumerate() {
        match bracket_at(tables, *c, *class) {
            Some(bracket) if !bracket.opens => close(&mut openers, &mut pairs, *c, place)?,
            Some(_) if openers.len() >= MAX_OPENERS => return Ok(pairs),
            Some(bracket) => openers.push(Opener {
                place,
                closer: bracket.pair,
            })?,
            None => {}
        }
    }
    Ok(pairs)
}

// Returns the bracket data of a character, or `None` if it is not a bracket or its type is not ON.
fn bracket_at(tables: &Tables, c: char, class: BidiClass) -> Option<Bracket> {
    match class {
        BidiClass::ON => tables.bracket(c),
        _ => None,
    }
}

// Pairs a closing bracket with the newest opening bracket that it matches, if there is one. Removes this
// opening bracket and all newer brackets from the stack.
fn close(
    openers: &mut Vec<Opener>,
    pairs: &mut Vec<Pair>,
    c: char,
    place: usize,
) -> Result<(), AllocError> {
    if let Some((held, opener)) = newest(openers, c) {
        pairs.push(Pair {
            opener,
            closer: place,
        })?;
        openers.truncate(held);
    }
    Ok(())
}

// Finds the newest opening bracket that a closing bracket matches. Returns the number of brackets below it on
// the stack, and its index in the text, or `None` if there is none.
fn newest(openers: &[Opener], c: char) -> Option<(usize, usize)> {
    let mut newest = None;
    for (held, opener) in openers.iter().enumerate() {
        if canonical(opener.closer) == canonical(c) {
            newest = Some((held, opener.place));
        }
    }
    newest
}

// Returns the canonical equivalent of a bracket: U+3008 for U+2329, and U+3009 for U+232A.
fn canonical(c: char) -> char {
    match c {
        '\u{2329}' => '\u{3008}',
        '\u{232A}' => '\u{3009}',
        _ => c,
    }
}

fn closer_of(pairs: &[Pair], opener: usize) -> Option<usize> {
    for pair in pairs {
        if pair.opener == opener {
            return Some(pair.closer);
        }
    }
    None
}

// Sets the types of a pair's brackets, and of the nonspacing marks after them, if the pair has a direction.
fn set_pair(
    types: &mut [BidiClass],
    classes: &[BidiClass],
    opener: usize,
    closer: usize,
    side: BidiClass,
) {
    if let Some(direction) = pair_direction(types, opener, closer, side) {
        set_with_marks(types, classes, opener, direction);
        set_with_marks(types, classes, closer, direction);
    }
}

// Returns the direction of a pair, or `None` if it contains no strong type. If it contains a strong type of
// the embedding direction, it gets that direction. Otherwise, it gets the direction of the nearest strong
// type before the pair, or the embedding direction if there is none.
fn pair_direction(
    types: &[BidiClass],
    opener: usize,
    closer: usize,
    side: BidiClass,
) -> Option<BidiClass> {
    if stands_between(types, opener, closer, side) {
        Some(side)
    } else if stands_between(types, opener, closer, opposite(side)) {
        Some(direction_before(types, opener, side))
    } else {
        None
    }
}

fn stands_between(types: &[BidiClass], opener: usize, closer: usize, wanted: BidiClass) -> bool {
    for (at, class) in types.iter().enumerate() {
        if opener < at && at < closer && strong_direction(*class) == Some(wanted) {
            return true;
        }
    }
    false
}

// Returns the direction of the nearest strong type before an index, or `other` if there is none.
fn direction_before(types: &[BidiClass], place: usize, other: BidiClass) -> BidiClass {
    let mut before = other;
    for class in types.iter().take(place) {
        before = strong_direction(*class).unwrap_or(before);
    }
    before
}

// Returns the direction of a strong type, or `None` for any other type. Numbers count as R.
fn strong_direction(class: BidiClass) -> Option<BidiClass> {
    match class {
        BidiClass::L => Some(BidiClass::L),
        BidiClass::R | BidiClass::AL | BidiClass::EN | BidiClass::AN => Some(BidiClass::R),
        _ => None,
    }
}

fn opposite(side: BidiClass) -> BidiClass {
    match side {
        BidiClass::L => BidiClass::R,
        _ => BidiClass::L,
    }
}

// Sets the type at an index, and the types of the nonspacing marks directly after it.
fn set_with_marks(
    types: &mut [BidiClass],
    classes: &[BidiClass],
    place: usize,
    direction: BidiClass,
) {
    let mut is_set = false;
    for (at, (slot, class)) in types.iter_mut().zip(classes).enumerate() {
        is_set = at == place || (is_set && *class == BidiClass::NSM);
        if is_set {
            *slot = direction;
        }
    }
}
