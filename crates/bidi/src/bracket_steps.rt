//! What N0 (UAX #9) does with each character of one isolating run sequence, for callers that show how the
//! algorithm arrives at a level. The fast pass is in `brackets`.
ghost use Rattle.std.specs.Prelude.{◌≡◌, ℕ, ◌<◌, ◌≤◌, length, map, is_some, IfOk, OnOk, List, Option};
ghost use Rattle.std.specs.Prelude.{false, true, not, if◌then◌else◌, None, Some};
ghost use Rattle.std.specs.List.{range_with_len};
ghost use Rattle.ucd.specs.Classes.{is_nonspacing_mark};
ghost use Rattle.ucd.specs.declared.bracket.Bracket.{Bracket};
ghost use Rattle.bidi.specs.BracketPasses.{ArePartners, closer_by, decision_by, direction_in};
ghost use Rattle.bidi.specs.BracketPasses.{is_open, is_past_by, paired_by, step_by, step_given};
ghost use Rattle.bidi.specs.BracketPasses.{unpaired_by};
ghost use Rattle.bidi.specs.BracketSteps.{bracket_steps, deciding, first_inside, has_direction};
ghost use Rattle.bidi.specs.BracketSteps.{pair_case, resolved_before};
ghost use Rattle.bidi.specs.BracketTypes.{bracket_at, bracket_types};
ghost use Rattle.bidi.specs.Brackets.{is_other, pair_step, stands};
ghost use Rattle.bidi.specs.Closers.{index_of, left_by, newest};
ghost use Rattle.bidi.specs.Weak.{is_left};
ghost use Rattle.ucd.specs.Classes.{class_at};
ghost use Rattle.bidi.specs.declared.bracket_steps.Decision.{Decision};
ghost use Rattle.bidi.specs.declared.bracket_steps.BracketCase.{BracketCase};

use crate::bracket_type::{BracketType, is_bracket};
use crate::brackets::{
    MAX_OPENERS, Opener, bracket_in, is_left, is_nonspacing_mark, is_other, matching, next_toward,
    set_pair, side, strong_before,
};
use std::alloc::{AllocError, Global};
use ucd::BidiClass;

/// The case of N0 that applies to a bracket, or why the bracket has no pair.
#[derive(Clone, Copy, Debug, PartialEq, Eq)]
pub enum BracketCase {
    /// The pair contains a strong type of the embedding direction, so it gets that direction.
    B,
    /// The pair contains strong types of the opposite direction only, and the context before it has that
    /// direction too. The pair gets the opposite direction.
    C1,
    /// The pair contains strong types of the opposite direction only, but the context before it has the
    /// embedding direction. The pair gets the embedding direction.
    C2,
    /// The pair contains no strong type, so N0 leaves the types of its brackets as they are.
    D,
    /// The type before N0 is not ON, so the character does not count as a bracket (BD14 and BD15).
    NotOther,
    /// No other bracket of the sequence forms a pair with this one (BD16).
    NoMatch,
    /// Pairing stopped before this bracket was paired, because the stack already held 63 opening brackets
    /// (BD16).
    PastLimit,
}

/// What N0 does with a character of a sequence. Indices refer to the sequence.
#[derive(Clone, Copy, Debug, PartialEq, Eq)]
pub struct BracketStep {
    /// The case that applies, or `None` if the character is not a bracket according to its bracket type.
    pub case: Option<BracketCase>,
    /// For a bracket of a pair, the other bracket. For a nonspacing mark whose type N0 sets, the bracket
    /// before it whose direction the nonspacing mark also gets. Otherwise `None`.
    pub partner: Option<usize>,
    /// The strong type that decides the case, if the pair contains one. In case B, this is the first one of
    /// the embedding direction. In cases C1 and C2, it is the first strong type.
    pub inside: Option<usize>,
}

// What N0 decides for the pair that opens at an index. If no pair opens there, both fields are `None`.
#[derive(Clone, Copy)]
struct Decision {
    case: Option<BracketCase>,
    inside: Option<usize>,
}

// Pairs the closing bracket at `place` with the newest opening bracket on the stack that it matches, if any.
// Removes that bracket and all newer ones from the stack.
fn pair_up(openers: &mut Vec<Opener>, partners: &mut [usize], closer: u32, place: usize)
    requires indices { (m : ℕ) → m < length openers.old.items
        → index_of openers.old.items m < length partners.old }
    requires place { place < length partners.old }
    ensures openers { openers.new.items ≡ left_by (newest openers.old.items closer) openers.old.items }
    ensures partners { partners.new
        ≡ paired_by (newest openers.old.items closer) openers.old.items partners.old place }
{
    if let Some(held) = matching(openers, closer) {
        let opener = openers[held].index;
        partners[opener] = place;
        partners[place] = opener;
        openers.truncate(held);
    }
}

// Finds the partner of each bracket. For a character without a partner, the item of `partners` is the length
// of the sequence. Returns the opening bracket at which pairing stopped, if any: the first one that no longer
// fits on the stack.
fn find_partners(
    kinds: &[BracketType],
    types: &[BidiClass],
    openers: &mut Vec<Opener>,
    partners: &mut Vec<usize>,
) -> Result<Option<usize>, AllocError>
    requires { length kinds.now ≡ length types.now }
    ensures size { OnOk result (length partners.new.items ≡ length types.now) }
    ensures found { IfOk result (λ full. (look : ℕ → Option Bracket) (text : List ℕ)
        → kinds.now ≡ bracket_types look text
        → ArePartners look text types.now openers.new.items partners.new.items full) }
{
    openers.clear();
    partners.clear();
    partners.resize(types.len(), types.len())?;
    for place in 0..types.len() {
        match bracket_in(kinds[place], types[place]) {
            BracketType::Opening(pair) => {
                if openers.len() >= MAX_OPENERS {
                    return Ok(Some(place));
                }
                openers.push(Opener { index: place, pair })?;
            }
            BracketType::Closing(closer) => pair_up(openers, partners, closer, place),
            BracketType::Other => {}
        }
    }
    Ok(None)
}

// Returns whether the opening bracket at an index of the sequence is on the stack.
fn is_open(openers: &[Opener], k: usize) -> bool
    ensures { result ≡ is_open openers.now k }
{
    for opener in openers {
        if opener.index == k {
            return true;
        }
    }
    false
}

// Returns whether pairing stopped before the bracket at `k`, which has no pair, could be paired.
fn is_past(openers: &[Opener], full: Option<usize>, k: usize) -> bool
    ensures { result ≡ is_past_by openers.now full k }
{
    match full {
        Some(full) => full <= k || is_open(openers, k),
        None => false,
    }
}

// Returns why a bracket has no pair, or `None` if the character is not a bracket. The result is not used for
// a bracket that has a pair.
fn unpaired_case(
    openers: &[Opener],
    full: Option<usize>,
    kind: BracketType,
    class: BidiClass,
    k: usize,
) -> Option<BracketCase>
    ensures { result ≡ unpaired_by openers.now full kind class k }
{
    if !is_bracket(kind) {
        None
    } else if !is_other(class) {
        Some(BracketCase::NotOther)
    } else if is_past(openers, full, k) {
        Some(BracketCase::PastLimit)
    } else {
        Some(BracketCase::NoMatch)
    }
}

// Returns the result of `unpaired_case` for each character, even for brackets that have a pair.
fn unpaired_cases(
    alloc: Global,
    kinds: &[BracketType],
    types: &[BidiClass],
    openers: &[Opener],
    full: Option<usize>,
) -> Result<Vec<Option<BracketCase>>, AllocError>
    requires { length kinds.now ≡ length types.now }
    ensures { IfOk result (λ list. list.items ≡ map (λ k. unpaired_by openers.now full
        (bracket_at kinds.now k) (class_at types.now k) k) (range_with_len 0 (length types.now))) }
{
    let mut list = Vec::with_capacity(alloc, types.len())?;
    for k in 0..types.len() {
        list.push(unpaired_case(openers, full, kinds[k], types[k], k))?;
    }
    Ok(list)
}

// Returns the index of the first strong type with the given direction inside a pair, or `None` if none has
// it.
fn first_inside(types: &[BidiClass], left: bool, opener: usize, closer: usize) -> Option<usize>
    requires order { opener < closer }
    requires within { closer ≤ length types.now }
    ensures first { result ≡ first_inside left types.now opener closer }
    ensures stands { is_some result ≡ stands left types.now opener closer }
{
    let next = next_toward(types, left, opener + 1, closer);
    if next < closer { Some(next) } else { None }
}

// Returns the case of a pair that contains strong types of the opposite direction only.
fn opposite_case(types: &[BidiClass], left: bool, sos: BidiClass, opener: usize) -> BracketCase
    requires { opener ≤ length types.now }
    ensures { (closer : ℕ) → stands left types.now opener closer ≡ false
        → stands (not left) types.now opener closer ≡ true
        → result ≡ pair_case left sos types.now opener closer }
{
    if is_left(strong_before(types, opener, sos)) == left {
        BracketCase::C2
    } else {
        BracketCase::C1
    }
}

// Returns the case of a pair, and the index of the strong type that decides the case, if any. Pairs are
// nested at most 63 deep, so the searches for all pairs together read each type at most 126 times.
fn decide(
    types: &[BidiClass],
    left: bool,
    sos: BidiClass,
    opener: usize,
    closer: usize,
) -> (BracketCase, Option<usize>)
    requires order { opener < closer }
    requires within { closer ≤ length types.now }
    ensures case { result.0 ≡ pair_case left sos types.now opener closer }
    ensures inside { result.1 ≡ deciding left types.now opener closer }
{
    let same = first_inside(types, left, opener, closer);
    if same.is_some() {
        return (BracketCase::B, same);
    }
    let other = first_inside(types, !left, opener, closer);
    if other.is_some() {
        return (opposite_case(types, left, sos, opener), other);
    }
    (BracketCase::D, other)
}

// Returns the direction that a pair gets, or `None` if it gets none.
fn direction_in(left: bool, case: BracketCase) -> Option<BidiClass>
    ensures { result ≡ direction_in left case }
{
    match case {
        BracketCase::B => Some(side(left)),
        BracketCase::C1 => Some(side(!left)),
        BracketCase::C2 => Some(side(left)),
        _ => None,
    }
}

// Returns what N0 decides for the pair that opens at an index, if there is one. If the pair gets a direction,
// sets the types of its brackets, and of the nonspacing marks after them.
fn resolve_at(
    types: &mut [BidiClass],
    explicit: &[BidiClass],
    partners: &[usize],
    embedding: BidiClass,
    sos: BidiClass,
    k: usize,
) -> Decision
    requires explicit { length explicit.now ≡ length types.old }
    requires partners { length partners.now ≡ length types.old }
    requires within { k < length types.old }
    ensures types { types.new
        ≡ pair_step embedding sos (map is_nonspacing_mark explicit.now) types.old k
        (closer_by partners.now k) }
    ensures decision { result ≡ decision_by (is_left embedding) sos types.old k (closer_by partners.now k) }
{
    let left = is_left(embedding);
    let partner = partners[k];
    if k < partner && partner < types.len() {
        let (case, inside) = decide(types, left, sos, k, partner);
        set_pair(types, explicit, k, partner, direction_in(left, case));
        Decision {
            case: Some(case),
            inside,
        }
    } else {
        Decision {
            case: None,
            inside: None,
        }
    }
}

// Resolves the pairs in the order of their opening brackets. Returns what N0 decides for the pair that opens
// at each index. `types` holds the types before N0 at first, and the types after N0 on return.
fn resolve_all(
    alloc: Global,
    types: &mut [BidiClass],
    explicit: &[BidiClass],
    partners: &[usize],
    embedding: BidiClass,
    sos: BidiClass,
) -> Result<Vec<Decision>, AllocError>
    requires explicit { length explicit.now ≡ length types.old }
    requires partners { length partners.now ≡ length types.old }
    ensures { IfOk result (λ list. list.items ≡ map (λ a. decision_by (is_left embedding) sos
        (resolved_before embedding sos (map is_nonspacing_mark explicit.now) (closer_by partners.now)
        types.old a) a
        (closer_by partners.now a)) (range_with_len 0 (length types.old))) }
{
    let mut list = Vec::with_capacity(alloc, types.len())?;
    for k in 0..types.len() {
        list.push(resolve_at(types, explicit, partners, embedding, sos, k))?;
    }
    Ok(list)
}

fn has_direction(case: Option<BracketCase>) -> bool
    ensures { result ≡ has_direction case }
{
    matches!(
        case,
        Some(BracketCase::B | BracketCase::C1 | BracketCase::C2)
    )
}

// Returns the bracket whose direction N0 also gives to the character after `k` if it is a nonspacing mark, or
// `None` if there is no such bracket.
fn held_after(
    case: Option<BracketCase>,
    explicit: BidiClass,
    held: Option<usize>,
    k: usize,
) -> Option<usize>
    ensures { result ≡ (if has_direction case then Some k
        else (if is_nonspacing_mark explicit then held else None)) }
{
    if has_direction(case) {
        Some(k)
    } else if is_nonspacing_mark(explicit) {
        held
    } else {
        None
    }
}

// Returns what N0 does with the character at an index.
fn step_at(
    partners: &[usize],
    decisions: &[Decision],
    explicit: BidiClass,
    unpaired: Option<BracketCase>,
    held: Option<usize>,
    k: usize,
) -> BracketStep
    requires decisions { length decisions.now ≡ length partners.now }
    requires within { k < length partners.now }
    ensures { (decision : ℕ → Decision)
        → decisions.now ≡ map decision (range_with_len 0 (length partners.now))
        → result ≡ step_given partners.now decision unpaired (is_nonspacing_mark explicit) held k }
{
    let partner = partners[k];
    if partner < partners.len() {
        let decision = decisions[k.min(partner)];
        BracketStep {
            case: decision.case,
            partner: Some(partner),
            inside: decision.inside,
        }
    } else {
        BracketStep {
            case: unpaired,
            partner: if is_nonspacing_mark(explicit) {
                held
            } else {
                None
            },
            inside: None,
        }
    }
}

// Returns the step of each character, given the partner of each bracket, what N0 decides for each pair, and
// the case of each unpaired bracket.
fn gather_steps(
    alloc: Global,
    explicit: &[BidiClass],
    partners: &[usize],
    decisions: &[Decision],
    unpaired: &[Option<BracketCase>],
) -> Result<Vec<BracketStep>, AllocError>
    requires explicit { length explicit.now ≡ length partners.now }
    requires decisions { length decisions.now ≡ length partners.now }
    requires unpaired { length unpaired.now ≡ length partners.now }
    ensures { IfOk result (λ list. (decision : ℕ → Decision) (case : ℕ → Option BracketCase)
        → decisions.now ≡ map decision (range_with_len 0 (length partners.now))
        → unpaired.now ≡ map case (range_with_len 0 (length partners.now))
        → list.items ≡ map (step_by partners.now decision case (map is_nonspacing_mark explicit.now))
        (range_with_len 0 (length partners.now))) }
{
    let mut list = Vec::with_capacity(alloc, partners.len())?;
    let mut held = None;
    for k in 0..partners.len() {
        let step = step_at(partners, decisions, explicit[k], unpaired[k], held, k);
        held = held_after(step.case, explicit[k], held, k);
        list.push(step)?;
    }
    Ok(list)
}

/// Returns what N0 does with each character of a sequence. `kinds` holds the bracket types of the characters,
/// `explicit` their types before W1, and `types` their types before N0.
pub fn bracket_steps(
    alloc: Global,
    kinds: &[BracketType],
    explicit: &[BidiClass],
    types: &[BidiClass],
    embedding: BidiClass,
    sos: BidiClass,
) -> Result<Vec<BracketStep>, AllocError>
    requires kinds { length kinds.now ≡ length types.now }
    requires explicit { length explicit.now ≡ length types.now }
    ensures { IfOk result (λ list. (look : ℕ → Option Bracket) (text : List ℕ) → kinds.now
        ≡ bracket_types look text
        → list.items ≡ bracket_steps look embedding sos text explicit.now types.now) }
{
    let mut openers = Vec::new(alloc);
    let mut partners = Vec::new(alloc);
    let full = find_partners(kinds, types, &mut openers, &mut partners)?;
    let unpaired = unpaired_cases(alloc, kinds, types, &openers, full)?;
    let mut current = Vec::from_slice(alloc, types)?;
    let decisions = resolve_all(alloc, &mut current, explicit, &partners, embedding, sos)?;
    let list = gather_steps(alloc, explicit, &partners, &decisions, &unpaired)?;
    Ok(list)
}
