//! The explicit level and type of each character of a paragraph (UAX #9, X1 to X8), for callers that show how
//! the algorithm arrives at a level. The fast pass, which skips the characters that X9 removes, is in
//! `explicit`.
ghost use Rattle.std.specs.Prelude.{◌≡◌, ℕ, ◌-◌, ◌<◌, ◌≤◌, ◌==◌, length, slice_index, unwrap_or, IfOk};
ghost use Rattle.std.specs.Prelude.{OnOk, if◌then◌else◌};
ghost use Rattle.ucd.specs.Classes.{is_separator};
ghost use Rattle.bidi.specs.Explicit.{opener_at, Applies};
ghost use Rattle.bidi.specs.Openers.{updated};
ghost use Rattle.bidi.specs.Reasons.{explicit_steps};

use crate::explicit::{Openers, Status};
use std::alloc::{AllocError, Global};
use ucd::BidiClass;

/// What X1 to X8 do with a character.
#[derive(Clone, Copy)]
pub struct ExplicitStep {
    /// The explicit level.
    pub level: u8,
    /// The explicit type: the class after any override has been applied.
    pub class: BidiClass,
    /// The direction of the override that applies to the character, if any.
    pub overriding: Option<BidiClass>,
    /// The index of the innermost open embedding, override or isolate initiator that does not overflow, if
    /// any. Its level and override apply to the character. A paragraph separator still has the paragraph
    /// level.
    pub opener: Option<usize>,
}

// Returns the step of a character, given the innermost opener that does not overflow and the state inside it.
fn step_in(status: Status, opener: Option<usize>, class: BidiClass, base: u8) -> ExplicitStep
    ensures level { result.level ≡ (if is_separator class then base else status.level) }
    ensures class { result.class ≡ (if is_separator class then class
        else unwrap_or status.overriding class) }
    ensures overriding { result.overriding ≡ status.overriding }
    ensures opener { result.opener ≡ opener }
{
    let overriding = status.overriding;
    match class {
        BidiClass::B => ExplicitStep {
            level: base,
            class,
            overriding,
            opener,
        },
        _ => ExplicitStep {
            level: status.level,
            class: overriding.unwrap_or(class),
            overriding,
            opener,
        },
    }
}

// Returns the last index in a list, or `None` if the list is empty.
fn last(indices: &[usize]) -> Option<usize>
    ensures { result ≡ (if length indices.now == 0 then None
        else Some (slice_index indices.now (length indices.now - 1))) }
{
    match indices {
        [] => None,
        [.., index] => Some(*index),
    }
}

// Updates the indices of the openers that are open and do not overflow. `depth` is their number after the
// character at `k`: at most one more than before it.
fn update(indices: &mut Vec<usize>, depth: usize, k: usize) -> Result<(), AllocError>
    ensures { OnOk result (indices.new.items ≡ updated indices.old.items depth k) }
{
    if depth > indices.len() {
        indices.push(k)?;
    } else {
        indices.truncate(depth);
    }
    Ok(())
}

/// Returns what X1 to X8 do with each character of a paragraph. In `classes`, each FSI must already be
/// replaced by LRI or RLI.
pub fn explicit_steps(
    alloc: Global,
    classes: &[BidiClass],
    base: u8,
) -> Result<Vec<ExplicitStep>, AllocError>
    requires { base ≤ 1 }
    ensures steps { IfOk result (λ list. list.items ≡ explicit_steps base classes.now) }
    ensures openers { OnOk result ((k : ℕ) → k < length classes.now
        → Applies base classes.now k (opener_at base classes.now k)) }
{
    let mut list = Vec::with_capacity(alloc, classes.len())?;
    let mut openers = Openers::new(base);
    let mut indices = Vec::new(alloc);
    for k in 0..classes.len() {
        let class = classes[k];
        openers.reach(class);
        update(&mut indices, openers.depth(), k)?;
        list.push(step_in(openers.status(), last(&indices), class, base))?;
        openers.pass(class);
        update(&mut indices, openers.depth(), k)?;
    }
    Ok(list)
}
