//! Finds the bracket pairs of one isolating run sequence and their directions (UAX #9, BD14 to BD16 and N0),
//! given the bracket types of its characters.
ghost use Rattle.std.specs.Prelude.{◌≡◌, ℕ, ◌<◌, ◌≤◌, ◌&&◌, [], map, length, List, IfOk, OnOk, Option};
ghost use Rattle.std.specs.Prelude.{Some, None};
ghost use Rattle.std.specs.Prelude.{if◌then◌else◌, true, false, not};
ghost use Rattle.ucd.specs.declared.bracket.Bracket.{Bracket};
ghost use Rattle.bidi.specs.BracketTypes.{bracket_at, bracket_types, is_bracket};
ghost use Rattle.bidi.specs.declared.bracket_type.BracketType.TheVariants.{Other};
ghost use Rattle.bidi.specs.Brackets.{brackets, canonical, is_other, pairs_of, resolve_pairs};
ghost use Rattle.bidi.specs.Brackets.{context, is_direction};
ghost use Rattle.bidi.specs.Brackets.{is_toward, stands, set_with, set_pair};
ghost use Rattle.bidi.specs.Closers.{closers_by, closers_of, closer_in, AreInOrder, AreNested};
ghost use Rattle.bidi.specs.Closers.{closed_by, index_of, left_by, newest};
ghost use Rattle.ucd.specs.Classes.{is_nonspacing_mark};
ghost use Rattle.bidi.specs.Weak.{is_left};
ghost use Rattle.ucd.specs.Classes.{class_at};
ghost use Rattle.bidi.specs.Neutral.{agree, side};
ghost use Rattle.bidi.specs.Resolving.{IsClear};

use crate::bracket_type::{BracketType, next_bracket};
use std::alloc::{AllocError, Global};
use ucd::BidiClass;

/// The maximum number of opening brackets on the stack (BD16).
pub(crate) const MAX_OPENERS: usize = 63;

// An opening bracket on the stack: its index, and the number of its bracket type. Here, the index refers to
// the list of opening brackets; in `bracket_steps`, it refers to the sequence.
#[derive(Clone, Copy, PartialEq, Eq)]
pub(crate) struct Opener {
    pub index: usize,
    pub pair: u32,
}

// The indices of an opening bracket and of its closing bracket in the sequence. For an unpaired bracket,
// `closer` is the length of the sequence.
#[derive(Clone, Copy, PartialEq, Eq)]
struct BracketPair {
    opener: usize,
    closer: usize,
}

// Returns the canonical equivalent of a bracket: U+3008 for U+2329, and U+3009 for U+232A.
fn canonical(character: u32) -> u32
    ensures { result ≡ canonical character }
{
    match character {
        0x2329 => 0x3008,
        0x232A => 0x3009,
        _ => character,
    }
}

// Returns a character's bracket type in N0, where only characters of type ON are brackets.
pub(crate) fn bracket_in(bracket: BracketType, class: BidiClass) -> BracketType
    ensures { result ≡ (if is_other class then bracket else Other) }
{
    match class {
        BidiClass::ON => bracket,
        _ => BracketType::Other,
    }
}

// Returns the position on the stack of the newest opening bracket that a closing bracket matches, if there is
// one.
pub(crate) fn matching(openers: &[Opener], closer: u32) -> Option<usize>
    ensures { result ≡ newest openers.now closer }
{
    let wanted = canonical(closer);
    let mut held = openers.len();
    while held > 0 {
        held -= 1;
        if canonical(openers[held].pair) == wanted {
            return Some(held);
        }
    }
    None
}

// Pairs the closing bracket at `place` with the newest opening bracket that it matches, if any. Removes that
// bracket and all newer ones from the stack. Returns whether a match was found.
fn close(openers: &mut Vec<Opener>, pairs: &mut [BracketPair], closer: u32, place: usize) -> bool
    requires { (m : ℕ) → m < length openers.old.items → index_of openers.old.items m < length pairs.old }
    ensures openers { openers.new.items ≡ left_by (newest openers.old.items closer) openers.old.items }
    ensures pairs { pairs.new
        ≡ closed_by (newest openers.old.items closer) openers.old.items pairs.old place }
    ensures none { result ≡ false → newest openers.old.items closer ≡ None }
{
    match matching(openers, closer) {
        Some(held) => {
            pairs[openers[held].index].closer = place;
            openers.truncate(held);
            true
        }
        None => false,
    }
}

/// Reused lists for the bracket pairs of a sequence: its types before N0, the stack of opening brackets, and
/// all opening brackets with their closing brackets.
#[derive(Drop)]
pub(crate) struct Pairs {
    before: Vec<BidiClass>,
    openers: Vec<Opener>,
    found: Vec<BracketPair>,
}

impl Pairs {
    pub fn new(alloc: Global) -> Pairs {
        Pairs {
            before: Vec::new(alloc),
            openers: Vec::new(alloc),
            found: Vec::new(alloc),
        }
    }

    /// Applies N0 to the types of a sequence, given its bracket types and its types before W1.
    pub fn resolve(
        &mut self,
        kinds: &[BracketType],
        explicit: &[BidiClass],
        types: &mut [BidiClass],
        embedding: BidiClass,
        sos: BidiClass,
    ) -> Result<(), AllocError>
        requires kinds { length kinds.now ≡ length types.old }
        requires explicit { length explicit.now ≡ length types.old }
        ensures { OnOk result ((look : ℕ → Option Bracket) (text : List ℕ)
            → kinds.now ≡ bracket_types look text
            → types.new ≡ brackets look embedding sos text explicit.now types.old) }
    {
        let has_pairs = find_pairs(kinds, types, &mut self.openers, &mut self.found)?;
        if !has_pairs {
            return Ok(());
        }
        copy_types(types, &mut self.before)?;
        resolve_brackets(types, &self.before, explicit, &self.found, embedding, sos);
        Ok(())
    }
}

/// Replaces the contents of `to` with the types in `from`.
pub(crate) fn copy_types(from: &[BidiClass], to: &mut Vec<BidiClass>) -> Result<(), AllocError>
    ensures { OnOk result (to.new.items ≡ from.now) }
{
    to.clear();
    to.extend_from_slice(from)
}

// Replaces the contents of `pairs` with the opening brackets in text order, each with its closing bracket.
// Stops at an opening bracket that no longer fits on the stack. Returns whether any pair was found.
fn find_pairs(
    kinds: &[BracketType],
    types: &[BidiClass],
    openers: &mut Vec<Opener>,
    pairs: &mut Vec<BracketPair>,
) -> Result<bool, AllocError>
    requires { length kinds.now ≡ length types.now }
    ensures pairs { OnOk result ((look : ℕ → Option Bracket) (text : List ℕ)
        → kinds.now ≡ bracket_types look text
        → closers_by pairs.new.items (length types.now)
        ≡ closers_of (pairs_of look text types.now) (length types.now)) }
    ensures order { OnOk result (AreInOrder pairs.new.items (length types.now)) }
    ensures nested { OnOk result (AreNested types.now (closers_by pairs.new.items (length types.now))) }
    ensures none { IfOk result (λ has_pairs. has_pairs ≡ false
        → closers_by pairs.new.items (length types.now) ≡ closers_of [] (length types.now)) }
{
    openers.clear();
    pairs.clear();
    let mut has_pairs = false;
    let mut place = next_bracket(kinds, 0);
    while place < types.len() {
        match bracket_in(kinds[place], types[place]) {
            BracketType::Opening(pair) => {
                if openers.len() >= MAX_OPENERS {
                    return Ok(has_pairs);
                }
                let index = pairs.len();
                openers.push(Opener { index, pair })?;
                pairs.push(BracketPair {
                    opener: place,
                    closer: types.len(),
                })?;
            }
            BracketType::Closing(closer) => {
                has_pairs |= close(openers, pairs, closer, place);
            }
            BracketType::Other => {}
        }
        place = next_bracket(kinds, place + 1);
    }
    Ok(has_pairs)
}

// Returns the index of the first strong type in `from..limit` with a given direction: L if `left` is true, or
// else R. If there is none, returns `limit`, or `from` if that is greater.
pub(crate) fn next_toward(types: &[BidiClass], left: bool, from: usize, limit: usize) -> usize
    requires from { from ≤ length types.now }
    requires limit { limit ≤ length types.now }
    ensures reached { from ≤ result }
    ensures bounded { result ≤ length types.now }
    ensures passed { (m : ℕ) → from ≤ m → m < result → is_toward left (class_at types.now m) ≡ false }
    ensures stops { result < limit → is_toward left (class_at types.now result) ≡ true }
{
    let mut at = from;
    while at < limit && !is_toward(left, types[at]) {
        at += 1;
    }
    at
}

// Returns whether a type is strong and has a given direction: L if `left` is true, or else R. Numbers count
// as R.
fn is_toward(left: bool, class: BidiClass) -> bool
    ensures { result ≡ is_toward left class }
{
    match class {
        BidiClass::L => left,
        BidiClass::R | BidiClass::AL | BidiClass::EN | BidiClass::AN => !left,
        _ => false,
    }
}

// Sets the types of each pair's brackets, and of the nonspacing marks after them, to the pair's direction, in
// the order of the opening brackets (N0). `before` holds the types before N0.
fn resolve_brackets(
    types: &mut [BidiClass],
    before: &[BidiClass],
    explicit: &[BidiClass],
    pairs: &[BracketPair],
    embedding: BidiClass,
    sos: BidiClass,
)
    requires before { before.now ≡ types.old }
    requires explicit { length explicit.now ≡ length types.old }
    requires order { AreInOrder pairs.now (length types.old) }
    requires nested { AreNested types.old (closers_by pairs.now (length types.old)) }
    ensures { types.new
        ≡ resolve_pairs embedding sos (map is_nonspacing_mark explicit.now)
        (closer_in (closers_by pairs.now (length types.old))) types.old }
{
    let left = is_left(embedding);
    // For each direction, the index at which the search for a strong type continues. In the types before N0,
    // there is no strong type of this direction between the pair's opening bracket and the index.
    let mut same = 0;
    let mut other = 0;
    for pair in pairs {
        let BracketPair { opener, closer } = *pair;
        if closer < types.len() {
            let has_same = stands_inside(types, before, left, opener, closer, &mut same);
            let has_other = stands_inside(types, before, !left, opener, closer, &mut other);
            let direction = pair_direction(types, opener, left, sos, has_same, has_other);
            set_pair(types, explicit, opener, closer, direction);
        }
    }
}

// Returns whether a strong type with the given direction is inside a pair. Moves `next` to the first index
// inside the pair that had such a type before N0. If there is none, moves `next` to the closing bracket, or
// leaves it past that bracket.
fn stands_inside(
    types: &[BidiClass],
    before: &[BidiClass],
    left: bool,
    place: usize,
    closer: usize,
    next: &mut usize,
) -> bool
    requires sizes { length before.now ≡ length types.now }
    requires after { place < closer }
    requires inside { closer < length types.now }
    requires clear { IsClear left before.now place next.old }
    requires kept { is_other (class_at types.now place) ≡ true
        → (m : ℕ) → place < m → m < closer → class_at types.now m ≡ class_at before.now m }
    ensures value { result ≡ stands left types.now place closer }
    ensures clear { IsClear left before.now place next.new }
{
    let from = (*next).max(place + 1);
    *next = next_toward(before, left, from, closer);
    if is_other(types[place]) {
        *next < closer
    } else {
        // This bracket is one of the nonspacing marks after an earlier bracket, and the types of those
        // nonspacing marks have changed.
        next_toward(types, left, place + 1, closer) < closer
    }
}

// Returns the direction of a pair, or `None` if it gets none. `has_same` says whether the pair contains a
// strong type of the embedding direction, and `has_other` whether it contains one of the other direction.
fn pair_direction(
    types: &[BidiClass],
    place: usize,
    left: bool,
    sos: BidiClass,
    has_same: bool,
    has_other: bool,
) -> Option<BidiClass>
    requires { place ≤ length types.now }
    ensures { result ≡ (if has_same then Some (side left) else (if has_other
        then Some (side (if agree left (is_left (context sos types.now place)) then left else not left))
        else None)) }
{
    if has_same {
        Some(side(left))
    } else if has_other {
        Some(side(is_left(strong_before(types, place, sos))))
    } else {
        None
    }
}

// Returns the nearest strong type before an index, or `sos` if there is none. Called only for a pair that
// then gets a direction, so the search for a later pair stops at this pair.
pub(crate) fn strong_before(types: &[BidiClass], place: usize, sos: BidiClass) -> BidiClass
    requires { place ≤ length types.now }
    ensures { result ≡ context sos types.now place }
{
    let mut at = place;
    while at > 0 {
        at -= 1;
        if is_direction(types[at]) {
            return types[at];
        }
    }
    sos
}

pub(crate) fn is_left(class: BidiClass) -> bool
    ensures { result ≡ is_left class }
{
    matches!(class, BidiClass::L)
}

pub(crate) fn is_nonspacing_mark(class: BidiClass) -> bool
    ensures { result ≡ is_nonspacing_mark class }
{
    matches!(class, BidiClass::NSM)
}

pub(crate) fn is_other(class: BidiClass) -> bool
    ensures { result ≡ is_other class }
{
    matches!(class, BidiClass::ON)
}

pub(crate) fn side(left: bool) -> BidiClass
    ensures { result ≡ side left }
{
    if left { BidiClass::L } else { BidiClass::R }
}

// Returns whether a type counts as strong in N0: a strong type or a number.
fn is_direction(class: BidiClass) -> bool
    ensures { result ≡ is_direction class }
{
    matches!(
        class,
        BidiClass::L | BidiClass::R | BidiClass::AL | BidiClass::EN | BidiClass::AN
    )
}

// If the pair has a direction, sets the types of its brackets, and of the nonspacing marks after them, to
// that direction.
pub(crate) fn set_pair(
    types: &mut [BidiClass],
    explicit: &[BidiClass],
    place: usize,
    closer: usize,
    direction: Option<BidiClass>,
)
    requires explicit { length explicit.now ≡ length types.old }
    requires place { place < length types.old }
    requires closer { closer < length types.old }
    ensures { types.new ≡ set_pair (map is_nonspacing_mark explicit.now) types.old place closer direction }
{
    if let Some(direction) = direction {
        set_with_marks(types, explicit, place, direction);
        set_with_marks(types, explicit, closer, direction);
    }
}

// Sets the type of a bracket, and of the nonspacing marks directly after it.
fn set_with_marks(
    types: &mut [BidiClass],
    explicit: &[BidiClass],
    place: usize,
    direction: BidiClass,
)
    requires explicit { length explicit.now ≡ length types.old }
    requires place { place < length types.old }
    ensures { types.new ≡ set_with (map is_nonspacing_mark explicit.now) direction types.old place }
{
    types[place] = direction;
    let mut at = place + 1;
    while at < types.len() && is_nonspacing_mark(explicit[at]) {
        types[at] = direction;
        at += 1;
    }
}
