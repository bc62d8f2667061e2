//! What the rules W1 to I2 (UAX #9) do with each isolating run sequence of a paragraph, for callers
//! that show how the algorithm arrives at a level.
ghost use Rattle.std.specs.Prelude.{◌≡◌, ◌<◌, true, length, map, IfOk};
ghost use Rattle.bidi.specs.Paragraphs.{IsReady, OfAllTexts, sequence_in};
ghost use Rattle.bidi.specs.Reasons.{all_sequences, sequence_of, sequence_reasons};
ghost use Rattle.ucd.specs.Within.{AreWithin};

use crate::sequence_levels::{Paragraph, fill_brackets, fill_types, sides_of};
use crate::sequence_starts::sequence_starts;
use crate::sequence_steps::{SequenceStep, sequence_steps};
use crate::sequences::gather;
use std::alloc::{AllocError, Global};
use ucd::BidiClass;

/// An isolating run sequence, and what the rules do with its characters.
#[derive(Drop)]
pub struct SequenceReasons {
    /// The indices of the sequence's characters in the list of the characters that X9 keeps.
    pub places: Vec<usize>,
    pub level: u8,
    pub sos: BidiClass,
    pub eos: BidiClass,
    /// What the rules W1 to I2 do with each of the sequence's characters.
    pub steps: Vec<SequenceStep>,
}

// Returns the sequence that begins at `start`, and what the rules do with its characters.
fn sequence_at(
    alloc: Global,
    paragraph: &Paragraph<'_>,
    start: usize,
) -> Result<SequenceReasons, AllocError>
    requires paragraph { IsReady paragraph.now }
    requires any { paragraph.now.brackets.has_any ≡ true }
    requires within { start < length paragraph.now.retained.now.levels.items }
    ensures { IfOk result (λ found. OfAllTexts paragraph.now.brackets
        (length paragraph.now.retained.now.levels.items)
        (λ look text. sequence_of found ≡ sequence_reasons look paragraph.now.base text
        paragraph.now.retained.now.classes.items paragraph.now.retained.now.levels.items
        paragraph.now.retained.now.types.items (sequence_in paragraph.now start))) }
{
    let retained = paragraph.retained;
    let mut places = Vec::new(alloc);
    gather(
        &retained.classes,
        &retained.levels,
        paragraph.matches,
        start,
        &mut places,
    )?;
    let mut kinds = Vec::new(alloc);
    fill_brackets(paragraph.brackets.types, &places, &mut kinds)?;
    let mut types = Vec::new(alloc);
    fill_types(&retained.types, &places, &mut types)?;
    let sides = sides_of(paragraph, &places);
    let steps = sequence_steps(alloc, &kinds, sides, &types)?;
    Ok(SequenceReasons {
        places,
        level: sides.level,
        sos: sides.sos,
        eos: sides.eos,
        steps,
    })
}

// Returns the sequences that begin at the indices in `starts`, and what the rules do with their characters.
fn sequences_at(
    alloc: Global,
    paragraph: &Paragraph<'_>,
    starts: &[usize],
) -> Result<Vec<SequenceReasons>, AllocError>
    requires paragraph { IsReady paragraph.now }
    requires any { paragraph.now.brackets.has_any ≡ true }
    requires within { AreWithin (length paragraph.now.retained.now.levels.items) starts.now }
    ensures { IfOk result (λ list. OfAllTexts paragraph.now.brackets
        (length paragraph.now.retained.now.levels.items)
        (λ look text. map sequence_of list.items ≡ map (λ start. sequence_reasons look paragraph.now.base text
        paragraph.now.retained.now.classes.items paragraph.now.retained.now.levels.items
        paragraph.now.retained.now.types.items (sequence_in paragraph.now start)) starts.now)) }
{
    let mut list = Vec::new(alloc);
    for k in 0..starts.len() {
        list.push(sequence_at(alloc, paragraph, starts[k])?)?;
    }
    Ok(list)
}

/// Returns the sequences of a paragraph, in the order of their first characters, and what the rules do with
/// them.
pub(crate) fn all_sequences(
    alloc: Global,
    paragraph: &Paragraph<'_>,
) -> Result<Vec<SequenceReasons>, AllocError>
    requires paragraph { IsReady paragraph.now }
    requires any { paragraph.now.brackets.has_any ≡ true }
    ensures { IfOk result (λ list. OfAllTexts paragraph.now.brackets
        (length paragraph.now.retained.now.levels.items)
        (λ look text. map sequence_of list.items ≡ all_sequences look paragraph.now.base text
        paragraph.now.retained.now.classes.items paragraph.now.retained.now.levels.items
        paragraph.now.retained.now.types.items)) }
{
    let retained = paragraph.retained;
    let starts = sequence_starts(
        alloc,
        &retained.classes,
        &retained.levels,
        paragraph.matches,
    )?;
    let list = sequences_at(alloc, paragraph, &starts)?;
    Ok(list)
}
