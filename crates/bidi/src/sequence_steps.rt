//! What the rules W1 to I2 (UAX #9) do with the types of one isolating run sequence, for callers that show
//! how the algorithm arrives at a level. The fast pass is in `sequence_levels`.
ghost use Rattle.std.specs.Prelude.{◌≡◌, ℕ, ◌≤◌, length, map, IfOk, List, Option};
ghost use Rattle.std.specs.List.{range_with_len};
ghost use Rattle.ucd.specs.Classes.{class_at};
ghost use Rattle.ucd.specs.declared.bracket.Bracket.{Bracket};
ghost use Rattle.bidi.specs.BracketTypes.{bracket_types};
ghost use Rattle.bidi.specs.Brackets.{brackets};
ghost use Rattle.bidi.specs.Levels.{sequence_levels};
ghost use Rattle.bidi.specs.Neutral.{implicit_level, rise_even, rise_odd};
ghost use Rattle.bidi.specs.Reasons.{levels_in, numbered, sequence_step, sequence_steps};
ghost use Rattle.bidi.specs.SequenceSteps.{AreWeakSteps};
ghost use Rattle.bidi.specs.Sequences.{direction};
ghost use Rattle.ucd.specs.declared.bidi_class.BidiClass.{BidiClass};
ghost use Rattle.bidi.specs.declared.bracket_steps.BracketStep.{BracketStep};

use crate::bracket_steps::{BracketStep, bracket_steps};
use crate::bracket_type::BracketType;
use crate::brackets::Pairs;
use crate::neutral_steps::{NeutralStep, neutral_steps};
use crate::sequence_levels::Sides;
use crate::sequences::direction;
use crate::weak_steps::{w1, w2, w3, w4, w5, w6, w7};
use std::alloc::{AllocError, Global};
use ucd::BidiClass;

/// What the rules W1 to I2 do with a character of a sequence: its type after each rule, and its level.
#[derive(Clone, Copy)]
pub struct SequenceStep {
    pub w1: BidiClass,
    pub w2: BidiClass,
    pub w3: BidiClass,
    pub w4: BidiClass,
    pub w5: BidiClass,
    pub w6: BidiClass,
    pub w7: BidiClass,
    pub n0: BidiClass,
    /// What N0 does, with indices in the sequence.
    pub bracket: BracketStep,
    /// What N1 and N2 do, with indices in the sequence.
    pub neutral: NeutralStep,
    /// The level after I1 and I2.
    pub level: u8,
}

// The types of a sequence after each weak rule.
#[derive(Drop)]
pub(crate) struct WeakSteps {
    pub w1: Vec<BidiClass>,
    pub w2: Vec<BidiClass>,
    pub w3: Vec<BidiClass>,
    pub w4: Vec<BidiClass>,
    pub w5: Vec<BidiClass>,
    pub w6: Vec<BidiClass>,
    pub w7: Vec<BidiClass>,
}

fn weak_steps(alloc: Global, sos: BidiClass, types: &[BidiClass]) -> Result<WeakSteps, AllocError>
    ensures { IfOk result (λ steps. AreWeakSteps sos types.now steps) }
{
    let w1 = w1(alloc, sos, types)?;
    let w2 = w2(alloc, sos, &w1)?;
    let w3 = w3(alloc, &w2)?;
    let w4 = w4(alloc, &w3)?;
    let w5 = w5(alloc, &w4)?;
    let w6 = w6(alloc, &w5)?;
    let w7 = w7(alloc, sos, &w6)?;
    Ok(WeakSteps {
        w1,
        w2,
        w3,
        w4,
        w5,
        w6,
        w7,
    })
}

// Returns the type at an index, or ON past the end.
fn class_at(types: &[BidiClass], k: usize) -> BidiClass
    ensures { result ≡ class_at types.now k }
{
    match types.get(k) {
        Some(class) => *class,
        None => BidiClass::ON,
    }
}

fn rise_even(class: BidiClass) -> u8
    ensures rise { result ≡ rise_even class }
    ensures small { result ≤ 2 }
{
    match class {
        BidiClass::R => 1,
        BidiClass::AN => 2,
        BidiClass::EN => 2,
        _ => 0,
    }
}

fn rise_odd(class: BidiClass) -> u8
    ensures rise { result ≡ rise_odd class }
    ensures small { result ≤ 2 }
{
    match class {
        BidiClass::L => 1,
        BidiClass::AN => 1,
        BidiClass::EN => 1,
        _ => 0,
    }
}

// Returns the level of a character whose type after N2 is `class`, in a sequence at the given level (I1 and
// I2).
fn implicit_level(level: u8, class: BidiClass) -> u8
    requires { level ≤ 125 }
    ensures { result ≡ implicit_level level class }
{
    if level % 2 == 0 {
        level + rise_even(class)
    } else {
        level + rise_odd(class)
    }
}

// Returns what the rules do with the character at an index.
fn sequence_step(
    weak: &WeakSteps,
    paired: &[BidiClass],
    level: u8,
    k: usize,
    bracket: BracketStep,
    neutral: NeutralStep,
) -> SequenceStep
    requires { level ≤ 125 }
    ensures { (sos : BidiClass) (types : List BidiClass) (at : ℕ → BracketStep)
        → AreWeakSteps sos types weak.now → bracket ≡ at k
        → result ≡ sequence_step level sos types paired.now at k neutral }
{
    SequenceStep {
        w1: class_at(&weak.w1, k),
        w2: class_at(&weak.w2, k),
        w3: class_at(&weak.w3, k),
        w4: class_at(&weak.w4, k),
        w5: class_at(&weak.w5, k),
        w6: class_at(&weak.w6, k),
        w7: class_at(&weak.w7, k),
        n0: class_at(paired, k),
        bracket,
        neutral,
        level: implicit_level(level, neutral.class),
    }
}

// Applies N0 to the types after W7 (`types`), and returns the new types.
fn pair(
    alloc: Global,
    kinds: &[BracketType],
    explicit: &[BidiClass],
    types: &[BidiClass],
    sides: Sides,
) -> Result<Vec<BidiClass>, AllocError>
    requires kinds { length kinds.now ≡ length types.now }
    requires explicit { length explicit.now ≡ length types.now }
    ensures types { IfOk result (λ paired. (look : ℕ → Option Bracket) (text : List ℕ) → kinds.now
        ≡ bracket_types look text
        → paired.items ≡ brackets look (direction sides.level) sides.sos text explicit.now types.now) }
    ensures size { IfOk result (λ paired. length paired.items ≡ length types.now) }
{
    let mut paired = Vec::from_slice(alloc, types)?;
    let mut pairs = Pairs::new(alloc);
    pairs.resolve(
        kinds,
        explicit,
        &mut paired,
        direction(sides.level),
        sides.sos,
    )?;
    Ok(paired)
}

// Returns the step of each character, given the types after each of the rules W1 to N0, and what N0, N1 and
// N2 do.
fn gather_steps(
    alloc: Global,
    weak: &WeakSteps,
    paired: &[BidiClass],
    level: u8,
    brackets: &[BracketStep],
    neutral: &[NeutralStep],
) -> Result<Vec<SequenceStep>, AllocError>
    requires bounded { level ≤ 125 }
    requires brackets { length brackets.now ≡ length neutral.now }
    ensures { IfOk result (λ list. (sos : BidiClass) (types : List BidiClass) (at : ℕ → BracketStep)
        → AreWeakSteps sos types weak.now
        → brackets.now ≡ map at (range_with_len 0 (length neutral.now))
        → list.items ≡ numbered (sequence_step level sos types paired.now at) 0 neutral.now) }
{
    let mut list = Vec::with_capacity(alloc, neutral.len())?;
    for k in 0..neutral.len() {
        list.push(sequence_step(weak, paired, level, k, brackets[k], neutral[k]))?;
    }
    Ok(list)
}

/// Returns what the rules W1 to I2 do with each character of a sequence, given the bracket types and
/// explicit types of its characters.
pub fn sequence_steps(
    alloc: Global,
    kinds: &[BracketType],
    sides: Sides,
    types: &[BidiClass],
) -> Result<Vec<SequenceStep>, AllocError>
    requires kinds { length kinds.now ≡ length types.now }
    requires bounded { sides.level ≤ 125 }
    ensures steps { IfOk result (λ list. (look : ℕ → Option Bracket) (text : List ℕ) → kinds.now
        ≡ bracket_types look text
        → list.items ≡ sequence_steps look sides.level sides.sos sides.eos text types.now) }
    ensures levels { IfOk result (λ list. (look : ℕ → Option Bracket) (text : List ℕ) → kinds.now
        ≡ bracket_types look text
        → levels_in list.items ≡ sequence_levels look sides.level sides.sos sides.eos text types.now) }
{
    let weak = weak_steps(alloc, sides.sos, types)?;
    let paired = pair(alloc, kinds, types, &weak.w7, sides)?;
    let embedding = direction(sides.level);
    let brackets = bracket_steps(alloc, kinds, types, &weak.w7, embedding, sides.sos)?;
    let neutral = neutral_steps(alloc, embedding, sides.sos, sides.eos, &paired)?;
    let list = gather_steps(alloc, &weak, &paired, sides.level, &brackets, &neutral)?;
    Ok(list)
}
