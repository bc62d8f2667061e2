//! How the algorithm arrives at the levels of a paragraph (UAX #9, X1 to I2).
ghost use Rattle.std.specs.Prelude.{◌≡◌, ℕ, ◌≤◌, length, map, IfOk, List, Option};
ghost use Rattle.ucd.specs.Tables.{bracket_of, class_of};
ghost use Rattle.ucd.specs.declared.bracket.Bracket.{Bracket};
ghost use Rattle.bidi.specs.BracketTypes.{bracket_types};
ghost use Rattle.bidi.specs.Reasons.{explicit_steps, sequence_of, sequences_by, AreReasons};
ghost use Rattle.bidi.specs.Explicit.{directed};
ghost use Rattle.bidi.specs.Isolates.{matches_of};
ghost use Rattle.bidi.specs.Sequences.{retained};

use crate::base::{Base, base_level_of};
use crate::bracket_type::{BracketType, bracket_type};
use crate::classes::is_removed;
use crate::explicit::{Retained, explicit};
use crate::explicit_steps::{ExplicitStep, explicit_steps};
use crate::isolates::{Isolates, direct, find_matches};
use crate::levels::retained_brackets;
use crate::resolver::resolve;
use crate::sequence_levels::{Brackets, Paragraph};
use crate::sequence_reasons::{SequenceReasons, all_sequences};
use std::alloc::{AllocError, Global};
use ucd::{BidiClass, Tables};

/// How the algorithm arrives at the levels of a paragraph.
#[derive(Drop)]
pub struct ParagraphReasons {
    /// The class of each character. Each FSI is replaced by the LRI or RLI that it acts as (X5c).
    pub classes: Vec<BidiClass>,
    /// For each character, the index of the PDI that matches the isolate initiator there (BD9), or the length
    /// if there is none.
    pub matches: Vec<usize>,
    /// What X1 to X8 do with each character.
    pub explicit: Vec<ExplicitStep>,
    /// The indices of the characters that X9 keeps.
    pub kept: Vec<usize>,
    /// The isolating run sequences, in the order of their first characters.
    pub sequences: Vec<SequenceReasons>,
    /// The level of each character, as `resolve` returns it.
    pub levels: Vec<u8>,
}

// Returns the class of each character.
fn classes_of(alloc: Global, tables: &Tables, text: &[char]) -> Result<Vec<BidiClass>, AllocError>
    ensures { IfOk result (λ list. list.items ≡ map (class_of tables.now) text.now) }
{
    let mut list = Vec::with_capacity(alloc, text.len())?;
    for k in 0..text.len() {
        list.push(tables.bidi_class(text[k]))?;
    }
    Ok(list)
}

// Returns the bracket type of each character.
fn bracket_types(
    alloc: Global,
    tables: &Tables,
    text: &[char],
) -> Result<Vec<BracketType>, AllocError>
    ensures { IfOk result (λ list. list.items ≡ bracket_types (bracket_of tables.now) text.now) }
{
    let mut list = Vec::with_capacity(alloc, text.len())?;
    for k in 0..text.len() {
        list.push(bracket_type(tables, text[k]))?;
    }
    Ok(list)
}

// Returns the indices of the characters that X9 keeps.
fn kept_indices(alloc: Global, classes: &[BidiClass]) -> Result<Vec<usize>, AllocError>
    ensures { IfOk result (λ list. list.items ≡ retained classes.now) }
{
    let mut list = Vec::new(alloc);
    for k in 0..classes.len() {
        let class = classes[k];
        if !is_removed(class) {
            list.push(k)?;
        }
    }
    Ok(list)
}

// Returns the sequences of a paragraph, given the bracket types and classes of its characters and the
// paragraph level. In `classes`, each FSI must already be replaced by LRI or RLI.
fn sequences_by(
    alloc: Global,
    kinds: &[BracketType],
    classes: &[BidiClass],
    base: u8,
) -> Result<Vec<SequenceReasons>, AllocError>
    requires low { base ≤ 1 }
    requires kinds { length kinds.now ≡ length classes.now }
    ensures { IfOk result (λ list. (look : ℕ → Option Bracket) (text : List ℕ) → kinds.now
        ≡ bracket_types look text
        → map sequence_of list.items ≡ sequences_by look text classes.now base) }
{
    let mut retained = Retained::new(alloc);
    explicit(classes, base, &mut retained)?;
    let mut kept = Vec::new(alloc);
    retained_brackets(kinds, classes, &mut kept)?;
    let mut isolates = Isolates::new(alloc);
    find_matches(
        &retained.classes,
        &mut isolates.found,
        &mut isolates.pending,
    )?;
    let paragraph = Paragraph {
        brackets: Brackets {
            types: &kept,
            has_any: true,
        },
        base,
        retained: &retained,
        matches: &isolates.found,
    };
    let list = all_sequences(alloc, &paragraph)?;
    Ok(list)
}

// Returns the reasons, given the classes and bracket types of the characters, the paragraph level and
// the levels.
fn with_steps(
    alloc: Global,
    classes: &[BidiClass],
    kinds: &[BracketType],
    base: u8,
    levels: Vec<u8>,
) -> Result<ParagraphReasons, AllocError>
    requires low { base ≤ 1 }
    requires kinds { length kinds.now ≡ length classes.now }
    ensures classes { IfOk result (λ reasons. reasons.classes.items ≡ directed classes.now) }
    ensures matches { IfOk result (λ reasons. reasons.matches.items ≡ matches_of (directed classes.now)) }
    ensures explicit { IfOk result (λ reasons. reasons.explicit.items
        ≡ explicit_steps base (directed classes.now)) }
    ensures kept { IfOk result (λ reasons. reasons.kept.items ≡ retained (directed classes.now)) }
    ensures sequences { IfOk result (λ reasons. (look : ℕ → Option Bracket) (text : List ℕ)
        → kinds.now ≡ bracket_types look text
        → map sequence_of reasons.sequences.items ≡ sequences_by look text (directed classes.now) base) }
    ensures levels { IfOk result (λ reasons. reasons.levels.items ≡ levels.items) }
{
    let mut isolates = Isolates::new(alloc);
    let mut acting = Vec::new(alloc);
    let _is_found = direct(classes, &mut isolates, &mut acting)?;
    let explicit = explicit_steps(alloc, &acting, base)?;
    let kept = kept_indices(alloc, &acting)?;
    let sequences = sequences_by(alloc, kinds, &acting, base)?;
    let mut matches = Vec::new(alloc);
    let mut pending = Vec::new(alloc);
    find_matches(&acting, &mut matches, &mut pending)?;
    Ok(ParagraphReasons {
        classes: acting,
        matches,
        explicit,
        kept,
        sequences,
        levels,
    })
}

/// Returns how the algorithm arrives at the levels of one paragraph. The text need not be a single paragraph:
/// any list of characters is allowed. Needs time proportional to the length of the text.
pub fn reasons(
    alloc: Global,
    tables: &Tables,
    text: &[char],
    base: Base,
) -> Result<ParagraphReasons, AllocError>
    ensures { IfOk result (AreReasons tables.now text.now base) }
{
    let classes = classes_of(alloc, tables, text)?;
    let kinds = bracket_types(alloc, tables, text)?;
    let level = base_level_of(&classes, base);
    let levels = resolve(alloc, tables, text, base)?;
    let reasons = with_steps(alloc, &classes, &kinds, level, levels)?;
    Ok(reasons)
}
