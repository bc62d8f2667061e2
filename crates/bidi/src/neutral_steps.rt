//! The neutral rules (UAX #9, N1 and N2) for the types of one isolating run sequence, and what these rules
//! read. This module is for callers that show how the algorithm arrives at a level. The fast pass is in
//! `neutral`.
ghost use Rattle.std.specs.Prelude.{◌≡◌, ◌≤◌, drop, length, not, IfOk};
ghost use Rattle.bidi.specs.Neighbours.{nearest};
ghost use Rattle.bidi.specs.Neutral.{between, is_neutral};
ghost use Rattle.bidi.specs.Reasons.{index_from, neutral_steps, rule_between};

use crate::neutral::is_neutral;
use crate::weak::is_left;
use std::alloc::{AllocError, Global};
use ucd::BidiClass;

/// The rule that decides the type of a neutral.
#[derive(Clone, Copy, PartialEq, Eq, Debug)]
pub enum NeutralRule {
    /// The types on both sides have the same direction.
    N1,
    /// The types on both sides have different directions, so the embedding direction decides.
    N2,
}

/// What N1 and N2 do with a type of a sequence.
#[derive(Clone, Copy)]
pub struct NeutralStep {
    /// The type after the rules.
    pub class: BidiClass,
    /// The rule that decides, if the type is neutral.
    pub rule: Option<NeutralRule>,
    /// The index of the type before the run of neutrals, or `None` for sos or if the type is not neutral.
    pub left: Option<usize>,
    /// The index of the type after the run of neutrals, or `None` for eos or if the type is not neutral.
    pub right: Option<usize>,
}

// A type next to a run of neutrals, and its index unless the type is sos or eos.
#[derive(Clone, Copy)]
struct Beside {
    class: BidiClass,
    index: Option<usize>,
}

fn rule_between(before: BidiClass, after: BidiClass) -> NeutralRule
    ensures { result ≡ rule_between before after }
{
    if is_left(before) == is_left(after) {
        NeutralRule::N1
    } else {
        NeutralRule::N2
    }
}

fn between(embedding: BidiClass, before: BidiClass, after: BidiClass) -> BidiClass
    ensures { result ≡ between embedding before after }
{
    match (is_left(before), is_left(after)) {
        (true, true) => BidiClass::L,
        (false, false) => BidiClass::R,
        _ => embedding,
    }
}

// Returns the first type from an index on that is not neutral, or eos if there is none.
fn next_beside(types: &[BidiClass], from: usize, eos: BidiClass) -> Beside
    requires { from ≤ length types.now }
    ensures class { result.class ≡ nearest (λ type. not (is_neutral type)) eos (drop from types.now) }
    ensures index { result.index ≡ index_from (λ type. not (is_neutral type)) from (drop from types.now) }
{
    for k in from..types.len() {
        if !is_neutral(types[k]) {
            return Beside {
                class: types[k],
                index: Some(k),
            };
        }
    }
    Beside {
        class: eos,
        index: None,
    }
}

/// Returns what N1 and N2 do with each type of a sequence.
pub fn neutral_steps(
    alloc: Global,
    embedding: BidiClass,
    sos: BidiClass,
    eos: BidiClass,
    types: &[BidiClass],
) -> Result<Vec<NeutralStep>, AllocError>
    ensures { IfOk result (λ list. list.items ≡ neutral_steps embedding sos eos types.now) }
{
    let mut list = Vec::with_capacity(alloc, types.len())?;
    let mut before = Beside {
        class: sos,
        index: None,
    };
    let mut next = next_beside(types, 0, eos);
    for k in 0..types.len() {
        let class = types[k];
        if is_neutral(class) {
            list.push(NeutralStep {
                class: between(embedding, before.class, next.class),
                rule: Some(rule_between(before.class, next.class)),
                left: before.index,
                right: next.index,
            })?;
        } else {
            list.push(NeutralStep {
                class,
                rule: None,
                left: None,
                right: None,
            })?;
            before = Beside {
                class,
                index: Some(k),
            };
            next = next_beside(types, k + 1, eos);
        }
    }
    Ok(list)
}
