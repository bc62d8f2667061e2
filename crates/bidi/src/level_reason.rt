//! How the algorithm arrives at the level of each character (UAX #9): a list with one item for each character
//! of the paragraph. Positions are indices in the paragraph.
ghost use Rattle.std.specs.Prelude.{◌≡◌, ℕ, ◌<◌, List, length, map, not, option_map, slice_index};
ghost use Rattle.std.specs.Prelude.{slice_index_or, IfOk, OnErr, if◌then◌else◌};
ghost use Rattle.std.specs.List.{range_with_len};
ghost use Rattle.std.specs.Option.{option_and_then};
ghost use Rattle.ucd.specs.declared.bidi_class.BidiClass.{BidiClass};
ghost use Rattle.ucd.specs.Classes.{class_at, is_removed};
ghost use Rattle.ucd.specs.Tables.{class_of};
ghost use Rattle.bidi.specs.Brackets.{greatest};
ghost use Rattle.bidi.specs.LevelReasons.{index_of, level_reason, level_reasons_of, levels_in, matching};
ghost use Rattle.bidi.specs.LevelReasons.{moved, position, reason_in, resolved_in};
ghost use Rattle.bidi.specs.Levels.{levels_of};
ghost use Rattle.bidi.specs.ReasonParts.{AreParts, AreSized, IsFilled};
ghost use Rattle.bidi.specs.Reasons.{sequence_of, Sequence};
ghost use Rattle.bidi.specs.Sequences.{retained};

use crate::base::Base;
use crate::bracket_steps::BracketStep;
use crate::classes::{is_initiator, is_removed};
use crate::explicit_steps::ExplicitStep;
use crate::neutral_steps::NeutralStep;
use crate::paragraph_reasons::reasons;
use crate::sequence_reasons::SequenceReasons;
use crate::sequence_steps::SequenceStep;
use std::alloc::{AllocError, Global};
use ucd::{BidiClass, Tables};

/// What the rules W1 to I2 do with a character of an isolating run sequence.
#[derive(Clone, Copy)]
pub struct SequenceReason {
    /// The position of the sequence's first character.
    pub sequence: usize,
    /// The embedding level of the sequence.
    pub level: u8,
    pub sos: BidiClass,
    pub eos: BidiClass,
    /// The types after each rule. All indices in the step are positions in the paragraph.
    pub step: SequenceStep,
}

/// How the algorithm arrives at the level of a character. Positions are indices in the paragraph.
#[derive(Clone, Copy)]
pub struct LevelReason {
    /// The class of the character. Unlike in `ParagraphReasons`, an FSI is not replaced.
    pub class: BidiClass,
    /// What X1 to X8 do with the character.
    pub explicit: ExplicitStep,
    /// The PDI that matches an isolate initiator, or the initiator that a PDI matches, if any (BD9).
    pub matching: Option<usize>,
    /// The level, as `resolve` returns it.
    pub level: u8,
    /// What W1 to I2 do with the character, or `None` if X9 removes it.
    pub resolved: Option<SequenceReason>,
    /// If X9 removes the character, the last kept character before it, which determines its level. `None` if
    /// X9 keeps the character, or if no kept character is before it; a removed character then has the
    /// paragraph level.
    pub level_from: Option<usize>,
}

// Returns the item at an index, or 0 past the end.
fn index_at(items: &[usize], k: usize) -> usize
    ensures { result ≡ slice_index items.now k }
{
    match items.get(k) {
        Some(item) => *item,
        None => 0,
    }
}

// Returns the position of the character at index `k` of a sequence.
fn position(kept: &[usize], places: &[usize], k: usize) -> usize
    ensures { result ≡ position kept.now places.now k }
{
    index_at(kept, index_at(places, k))
}

fn moved_index(kept: &[usize], places: &[usize], k: Option<usize>) -> Option<usize>
    ensures { result ≡ option_map (position kept.now places.now) k }
{
    match k {
        Some(k) => Some(position(kept, places, k)),
        None => None,
    }
}

// Converts the indices in a step, which refer to the sequence, to positions in the paragraph.
fn moved(kept: &[usize], places: &[usize], step: SequenceStep) -> SequenceStep
    ensures { result ≡ moved kept.now places.now step }
{
    SequenceStep {
        bracket: BracketStep {
            partner: moved_index(kept, places, step.bracket.partner),
            inside: moved_index(kept, places, step.bracket.inside),
            ..step.bracket
        },
        neutral: NeutralStep {
            left: moved_index(kept, places, step.neutral.left),
            right: moved_index(kept, places, step.neutral.right),
            ..step.neutral
        },
        ..step
    }
}

// Returns what the rules do with the character at index `k` of a sequence, or `None` past its end.
fn reason_in(kept: &[usize], sequence: &SequenceReasons, k: usize) -> Option<SequenceReason>
    ensures { result ≡ reason_in kept.now (sequence_of sequence.now) k }
{
    let step = match sequence.steps.get(k) {
        Some(step) => *step,
        None => return None,
    };
    Some(SequenceReason {
        sequence: position(kept, &sequence.places, 0),
        level: sequence.level,
        sos: sequence.sos,
        eos: sequence.eos,
        step: moved(kept, &sequence.places, step),
    })
}

// Writes what the rules do with each character of a sequence to `list`, at the character's index among the
// kept characters. If an index occurs twice in the sequence, the first counts.
fn put_reasons(
    kept: &[usize],
    sequence: &SequenceReasons,
    places: &[usize],
    list: &mut [Option<SequenceReason>],
)
    requires { places.now ≡ sequence.now.places.items }
    ensures { IsFilled places.now (reason_in kept.now (sequence_of sequence.now)) list.old 0 list.new }
{
    for k in (0..places.len()).rev() {
        let at = places[k];
        if at < list.len() {
            list[at] = reason_in(kept, sequence, k);
        }
    }
}

// Writes the index of each item of `items` to `list`, at the position that the item gives. If an item occurs
// twice, its first index counts.
fn put_indices(items: &[usize], list: &mut [Option<usize>])
    ensures { IsFilled items.now Some list.old 0 list.new }
{
    for k in (0..items.len()).rev() {
        let at = items[k];
        if at < list.len() {
            list[at] = Some(k);
        }
    }
}

// Returns, for each number below `len`, the index of the first item that equals it, or `None` if none does.
fn indices_of(alloc: Global, items: &[usize], len: usize) -> Result<Vec<Option<usize>>, AllocError>
    ensures { IfOk result (λ list. list.items ≡ map (index_of items.now) (range_with_len 0 len)) }
{
    let mut list = vec![in alloc; None; len]?;
    put_indices(items, &mut list);
    Ok(list)
}

// Returns what the rules do with each kept character, or `None` for a character in no sequence.
fn resolved_in(
    alloc: Global,
    kept: &[usize],
    sequences: &[SequenceReasons],
) -> Result<Vec<Option<SequenceReason>>, AllocError>
    ensures { IfOk result (λ list. list.items
        ≡ map (resolved_in kept.now (map sequence_of sequences.now)) (range_with_len 0 (length kept.now))) }
{
    let mut list = vec![in alloc; None; kept.len()]?;
    for k in (0..sequences.len()).rev() {
        let sequence = &sequences[k];
        put_reasons(kept, sequence, &sequence.places, &mut list);
    }
    Ok(list)
}

// The lists from which the reasons are assembled. Each has an item for each character, except `resolved`,
// which has one for each kept character. In `classes`, each FSI is replaced by LRI or RLI. `initiators` has
// the initiator that each PDI matches, and `indices` the index of each kept character among the kept
// characters.
#[derive(Clone, Copy)]
struct Parts<'a> {
    classes: &'a [BidiClass],
    matches: &'a [usize],
    explicit: &'a [ExplicitStep],
    levels: &'a [u8],
    initiators: &'a [Option<usize>],
    indices: &'a [Option<usize>],
    resolved: &'a [Option<SequenceReason>],
}

// Returns the PDI that matches an isolate initiator, or the initiator that a PDI matches, if any.
fn matching(parts: &Parts<'_>, p: usize) -> Option<usize>
    requires sized { AreSized (length parts.now.classes.now) parts.now }
    requires within { p < length parts.now.classes.now }
    ensures { (base : ℕ) (sequences : List Sequence)
        → AreParts parts.now.classes.now base sequences parts.now
        → result ≡ matching parts.now.classes.now p }
{
    if !is_initiator(parts.classes[p]) {
        return parts.initiators[p];
    }
    let found = parts.matches[p];
    if found < parts.classes.len() {
        Some(found)
    } else {
        None
    }
}

// Returns the item at an index, or `None` past the end.
fn reason_at(resolved: &[Option<SequenceReason>], q: usize) -> Option<SequenceReason>
    ensures { result ≡ slice_index_or resolved.now q None }
{
    match resolved.get(q) {
        Some(reason) => *reason,
        None => None,
    }
}

// Returns what W1 to I2 do with a character, or `None` if X9 removes it.
fn resolved_at(parts: &Parts<'_>, p: usize) -> Option<SequenceReason>
    requires sized { AreSized (length parts.now.classes.now) parts.now }
    requires within { p < length parts.now.classes.now }
    ensures { (base : ℕ) (sequences : List Sequence)
        → AreParts parts.now.classes.now base sequences parts.now
        → result ≡ option_and_then (resolved_in (retained parts.now.classes.now) sequences)
        (index_of (retained parts.now.classes.now) p) }
{
    match parts.indices[p] {
        Some(q) => reason_at(parts.resolved, q),
        None => None,
    }
}

// Returns the character that determines the level of a character that X9 removes: `before`, the last kept
// character before it. Returns `None` for a character that X9 keeps.
fn level_from(class: BidiClass, before: Option<usize>) -> Option<usize>
    ensures { result ≡ (if is_removed class then before else None) }
{
    if is_removed(class) { before } else { None }
}

// Returns the last kept character at or before `p`. `class` is the class of the character at `p`, and
// `before` is the last kept character before `p`.
fn last_kept(class: BidiClass, before: Option<usize>, p: usize) -> Option<usize>
    ensures { result ≡ (if not (is_removed class) then Some p else before) }
{
    if is_removed(class) { before } else { Some(p) }
}

// Returns the reason for the level of the character at `p`, which has the given class. `before` is the last
// kept character before it.
fn level_reason(parts: &Parts<'_>, class: BidiClass, before: Option<usize>, p: usize) -> LevelReason
    requires sized { AreSized (length parts.now.classes.now) parts.now }
    requires within { p < length parts.now.classes.now }
    requires before { before ≡ greatest (λ k. not (is_removed (class_at parts.now.classes.now k))) p }
    ensures { (classes : List BidiClass) (base : ℕ) (sequences : List Sequence)
        → AreParts parts.now.classes.now base sequences parts.now → class ≡ class_at classes p
        → result ≡ level_reason classes parts.now.classes.now base sequences parts.now.levels.now p }
{
    LevelReason {
        class,
        explicit: parts.explicit[p],
        matching: matching(parts, p),
        level: parts.levels[p],
        resolved: resolved_at(parts, p),
        level_from: level_from(parts.classes[p], before),
    }
}

// Returns the reasons for the levels of all characters.
fn list_of(
    alloc: Global,
    tables: &Tables,
    text: &[char],
    parts: &Parts<'_>,
) -> Result<Vec<LevelReason>, AllocError>
    requires sized { AreSized (length parts.now.classes.now) parts.now }
    requires same { length parts.now.classes.now ≡ length text.now }
    ensures { IfOk result (λ list. (base : ℕ) (sequences : List Sequence)
        → AreParts parts.now.classes.now base sequences parts.now
        → list.items ≡ map (level_reason (map (class_of tables.now) text.now) parts.now.classes.now base
        sequences parts.now.levels.now) (range_with_len 0 (length text.now))) }
{
    let mut list = Vec::with_capacity(alloc, text.len())?;
    let mut before = None;
    for p in 0..text.len() {
        let class = tables.bidi_class(text[p]);
        list.push(level_reason(parts, class, before, p))?;
        before = last_kept(parts.classes[p], before, p);
    }
    Ok(list)
}

/// Returns the reason for the level of each character of one paragraph. The text need not be a single
/// paragraph: any list of characters is allowed. Needs time proportional to the length of the text.
pub fn level_reasons(
    alloc: Global,
    tables: &Tables,
    text: &[char],
    base: Base,
) -> Result<Vec<LevelReason>, AllocError>
    ensures reasons { IfOk result (λ list. list.items ≡ level_reasons_of tables.now text.now base) }
    ensures levels { IfOk result (λ list. levels_in list.items ≡ levels_of tables.now text.now base) }
    ensures len { IfOk result (λ list. length list.items ≡ length text.now) }
    ensures memory { OnErr result (0 < length text.now) }
{
    if text.is_empty() {
        return Ok(Vec::new(alloc));
    }
    let reasons = reasons(alloc, tables, text, base)?;
    let initiators = indices_of(alloc, &reasons.matches, text.len())?;
    let indices = indices_of(alloc, &reasons.kept, text.len())?;
    let resolved = resolved_in(alloc, &reasons.kept, &reasons.sequences)?;
    let parts = Parts {
        classes: &reasons.classes,
        matches: &reasons.matches,
        explicit: &reasons.explicit,
        levels: &reasons.levels,
        initiators: &initiators,
        indices: &indices,
        resolved: &resolved,
    };
    let list = list_of(alloc, tables, text, &parts)?;
    Ok(list)
}
