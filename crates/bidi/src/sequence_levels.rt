//! Finds the levels of isolating run sequences (UAX #9, W1 to I2), one after another.
ghost use Rattle.std.specs.Prelude.{◌≡◌, ◌-◌, ◌<◌, ◌≤◌, true, false, map, replicate, length, take, drop};
ghost use Rattle.std.specs.Prelude.{IfSome, OnOk};
ghost use Rattle.std.specs.List.{range_with_len};
ghost use Rattle.bidi.specs.BracketTypes.{bracket_at};
ghost use Rattle.ucd.specs.Classes.{class_at};
ghost use Rattle.bidi.specs.Levels.{put, sequence_levels};
ghost use Rattle.bidi.specs.Paragraphs.{AreFor, AreSides, AreSidesBetween, IsReady, OfAllTexts, Takes};
ghost use Rattle.bidi.specs.Paragraphs.{resolved_by, sequence_in, write_by};
ghost use Rattle.ucd.specs.Within.{AreWithin};
ghost use Rattle.bidi.specs.Runs.{IsRunEnd, flagged};
ghost use Rattle.bidi.specs.WeakTable.{is_side};

use crate::bracket_type::BracketType;
use crate::brackets::{Pairs, copy_types};
use crate::explicit::Retained;
use crate::neutral::resolve_neutral;
use crate::sequences::{direction, eos, gather, next_run, run_end, sos};
use crate::weak::resolve_weak;
use std::alloc::{AllocError, Global};
use ucd::BidiClass;

/// The bracket types of a paragraph or of part of a paragraph.
#[derive(Clone, Copy)]
pub(crate) struct Brackets<'a> {
    pub types: &'a [BracketType],
    /// If `false`, no character is a bracket, and `types` may be any list.
    pub has_any: bool,
}

/// The input for resolving the sequences of a paragraph. It describes the characters that X9 keeps.
#[derive(Clone, Copy)]
pub(crate) struct Paragraph<'a> {
    pub brackets: Brackets<'a>,
    pub base: u8,
    pub retained: &'a Retained,
    pub matches: &'a [usize],
}

/// The level of a sequence, and the directions at both ends (sos and eos).
#[derive(Clone, Copy, PartialEq, Eq)]
pub(crate) struct Sides {
    pub level: u8,
    pub sos: BidiClass,
    pub eos: BidiClass,
}

pub(crate) fn sides_of(paragraph: &Paragraph<'_>, places: &[usize]) -> Sides
    requires paragraph { IsReady paragraph.now }
    requires some { 0 < length places.now }
    requires within { AreWithin (length paragraph.now.retained.now.levels.items) places.now }
    ensures sides { AreSides paragraph.now places.now result }
    ensures bounded { result.level ≤ 125 }
    ensures side { is_side result.sos ≡ true }
{
    let first = places[0];
    let last = places[places.len() - 1];
    sides_between(paragraph, first, last)
}

// Returns the level, sos and eos of a sequence whose first and last characters are at these indices.
fn sides_between(paragraph: &Paragraph<'_>, first: usize, last: usize) -> Sides
    requires paragraph { IsReady paragraph.now }
    requires first { first < length paragraph.now.retained.now.levels.items }
    requires last { last < length paragraph.now.retained.now.levels.items }
    ensures sides { AreSidesBetween paragraph.now first last result }
    ensures bounded { result.level ≤ 125 }
    ensures side { is_side result.sos ≡ true }
{
    let levels = paragraph.retained.levels.as_slice();
    let classes = paragraph.retained.classes.as_slice();
    Sides {
        level: levels[first],
        sos: sos(levels, paragraph.base, first),
        eos: eos(classes, levels, paragraph.matches, paragraph.base, last),
    }
}

/// Applies W1 to I2 to the types of a sequence, and writes its levels to `levels`.
pub(crate) fn resolve_types(
    brackets: &Brackets<'_>,
    explicit: &[BidiClass],
    sides: Sides,
    types: &mut [BidiClass],
    pairs: &mut Pairs,
    levels: &mut [u8],
) -> Result<(), AllocError>
    requires brackets { AreFor brackets.now (length types.old) }
    requires explicit { explicit.now ≡ types.old }
    requires levels { length levels.old ≡ length types.old }
    requires bounded { sides.level ≤ 125 }
    requires side { is_side sides.sos ≡ true }
    ensures { OnOk result (OfAllTexts brackets.now (length types.old) (λ look text.
        levels.new ≡ sequence_levels look sides.level sides.sos sides.eos text types.old)) }
{
    resolve_weak(types, sides.sos);
    if brackets.has_any {
        let embedding = direction(sides.level);
        pairs.resolve(brackets.types, explicit, types, embedding, sides.sos)?;
    }
    resolve_neutral(types, sides.level, sides.sos, sides.eos, levels);
    Ok(())
}

// Returns the bracket types of the characters in `start..end`.
fn part<'a>(brackets: &Brackets<'a>, start: usize, end: usize) -> Brackets<'a>
    requires order { start ≤ end }
    requires within { brackets.now.has_any ≡ true → end ≤ length brackets.now.types.now }
    ensures same { result.has_any ≡ brackets.now.has_any }
    ensures types { brackets.now.has_any ≡ true
        → result.types.now ≡ take (end - start) (drop start brackets.now.types.now) }
{
    if brackets.has_any {
        Brackets {
            types: &brackets.types[start..end],
            ..*brackets
        }
    } else {
        *brackets
    }
}

// Replaces the contents of `types` with the types at the indices of a sequence.
pub(crate) fn fill_types(
    all: &[BidiClass],
    places: &[usize],
    types: &mut Vec<BidiClass>,
) -> Result<(), AllocError>
    requires { AreWithin (length all.now) places.now }
    ensures { OnOk result (types.new.items ≡ map (class_at all.now) places.now) }
{
    types.clear();
    types.reserve(places.len())?;
    for place in places {
        types.push(all[*place])?;
    }
    Ok(())
}

// Replaces the contents of `brackets` with the bracket types at the indices of a sequence.
pub(crate) fn fill_brackets(
    all: &[BracketType],
    places: &[usize],
    brackets: &mut Vec<BracketType>,
) -> Result<(), AllocError>
    requires { AreWithin (length all.now) places.now }
    ensures { OnOk result (brackets.new.items ≡ map (bracket_at all.now) places.now) }
{
    brackets.clear();
    brackets.reserve(places.len())?;
    for place in places {
        brackets.push(all[*place])?;
    }
    Ok(())
}

// Does the same as `fill_brackets`, but only if the paragraph has any brackets.
fn fill_any_brackets(
    all: &Brackets<'_>,
    places: &[usize],
    brackets: &mut Vec<BracketType>,
) -> Result<(), AllocError>
    requires { all.now.has_any ≡ true → AreWithin (length all.now.types.now) places.now }
    ensures { OnOk result (all.now.has_any ≡ true
        → brackets.new.items ≡ map (bracket_at all.now.types.now) places.now) }
{
    if !all.has_any {
        return Ok(());
    }
    fill_brackets(all.types, places, brackets)
}

// Writes the level of each character of a sequence at the character's index.
fn put_levels(levels: &mut [u8], places: &[usize], values: &[u8])
    requires within { AreWithin (length levels.old) places.now }
    requires length { length values.now ≡ length places.now }
    ensures { levels.new ≡ put levels.old places.now values.now }
{
    for (at, place) in places.iter().enumerate() {
        levels[*place] = values[at];
    }
}

/// Reused lists for a sequence: the indices of its characters, their bracket types, explicit types, types and
/// levels.
#[derive(Drop)]
pub(crate) struct Sequence {
    places: Vec<usize>,
    brackets: Vec<BracketType>,
    explicit: Vec<BidiClass>,
    pub types: Vec<BidiClass>,
    pub pairs: Pairs,
    levels: Vec<u8>,
}

impl Sequence {
    pub fn new(alloc: Global) -> Sequence {
        Sequence {
            places: Vec::new(alloc),
            brackets: Vec::new(alloc),
            explicit: Vec::new(alloc),
            types: Vec::new(alloc),
            pairs: Pairs::new(alloc),
            levels: Vec::new(alloc),
        }
    }

    // Fills the lists with the indices, bracket types and explicit types of the sequence that begins at
    // `start`.
    fn take(&mut self, paragraph: &Paragraph<'_>, start: usize) -> Result<(), AllocError>
        requires paragraph { IsReady paragraph.now }
        requires within { start < length paragraph.now.retained.now.levels.items }
        ensures { OnOk result (Takes paragraph.now start self.new) }
    {
        let retained = paragraph.retained;
        gather(
            &retained.classes,
            &retained.levels,
            paragraph.matches,
            start,
            &mut self.places,
        )?;
        fill_any_brackets(&paragraph.brackets, &self.places, &mut self.brackets)?;
        fill_types(&retained.types, &self.places, &mut self.explicit)?;
        copy_types(&self.explicit, &mut self.types)
    }

    // Resolves a level run that is a whole sequence, without collecting its characters, and writes its
    // levels.
    fn resolve_run(
        &mut self,
        paragraph: &Paragraph<'_>,
        start: usize,
        end: usize,
        resolved: &mut [u8],
    ) -> Result<(), AllocError>
        requires paragraph { IsReady paragraph.now }
        requires run { (start < end) × (end ≤ length paragraph.now.retained.now.levels.items) }
        requires alone { sequence_in paragraph.now start ≡ range_with_len start (end - start) }
        requires resolved { length resolved.old ≡ length paragraph.now.retained.now.levels.items }
        ensures { OnOk result (OfAllTexts paragraph.now.brackets
            (length paragraph.now.retained.now.levels.items) (λ look text.
            resolved.new ≡ write_by look text paragraph.now resolved.old start)) }
    {
        let explicit = &paragraph.retained.types[start..end];
        copy_types(explicit, &mut self.types)?;
        let brackets = part(&paragraph.brackets, start, end);
        resolve_types(
            &brackets,
            explicit,
            sides_between(paragraph, start, end - 1),
            &mut self.types,
            &mut self.pairs,
            &mut resolved[start..end],
        )?;
        Ok(())
    }

    // Resolves the sequence that begins with the run from `start` to `end`, and writes its levels.
    fn resolve(
        &mut self,
        paragraph: &Paragraph<'_>,
        start: usize,
        end: usize,
        resolved: &mut [u8],
    ) -> Result<(), AllocError>
        requires paragraph { IsReady paragraph.now }
        requires run { IsRunEnd paragraph.now.retained.now.levels.items start end }
        requires resolved { length resolved.old ≡ length paragraph.now.retained.now.levels.items }
        ensures { OnOk result (OfAllTexts paragraph.now.brackets
            (length paragraph.now.retained.now.levels.items) (λ look text.
            resolved.new ≡ write_by look text paragraph.now resolved.old start)) }
    {
        match next_run(&paragraph.retained.levels, paragraph.matches, end) {
            Some(_) => self.resolve_gathered(paragraph, start, resolved),
            None => self.resolve_run(paragraph, start, end, resolved),
        }
    }

    // Resolves the sequence that begins at `start`, after collecting its characters, and writes its levels.
    fn resolve_gathered(
        &mut self,
        paragraph: &Paragraph<'_>,
        start: usize,
        resolved: &mut [u8],
    ) -> Result<(), AllocError>
        requires paragraph { IsReady paragraph.now }
        requires within { start < length paragraph.now.retained.now.levels.items }
        requires resolved { length resolved.old ≡ length paragraph.now.retained.now.levels.items }
        ensures { OnOk result (OfAllTexts paragraph.now.brackets
            (length paragraph.now.retained.now.levels.items) (λ look text.
            resolved.new ≡ write_by look text paragraph.now resolved.old start)) }
    {
        self.take(paragraph, start)?;
        let sides = sides_of(paragraph, &self.places);
        self.levels.resize(self.types.len(), 0)?;
        let brackets = Brackets {
            types: &self.brackets,
            ..paragraph.brackets
        };
        resolve_types(
            &brackets,
            &self.explicit,
            sides,
            &mut self.types,
            &mut self.pairs,
            &mut self.levels,
        )?;
        put_levels(resolved, &self.places, &self.levels);
        Ok(())
    }
}

// Sets the flag at `next`, where a run that continues an earlier run starts. Does nothing if `next` is
// `None`.
pub(crate) fn set_flag(continued: &mut [bool], next: Option<usize>)
    requires { IfSome next (λ place. place < length continued.old) }
    ensures { continued.new ≡ flagged continued.old next }
{
    if let Some(next) = next {
        continued[next] = true;
    }
}

/// Resolves all sequences, run by run, and writes their levels.
pub(crate) fn resolve_runs(
    paragraph: &Paragraph<'_>,
    sequence: &mut Sequence,
    continued: &mut [bool],
    done: &mut [u8],
) -> Result<(), AllocError>
    requires paragraph { IsReady paragraph.now }
    requires continued { continued.old ≡ replicate (length paragraph.now.retained.now.levels.items) false }
    requires done { done.old ≡ paragraph.now.retained.now.levels.items }
    ensures { OnOk result (OfAllTexts paragraph.now.brackets (length paragraph.now.retained.now.levels.items)
        (λ look text. done.new ≡ resolved_by look text paragraph.now)) }
{
    let levels = paragraph.retained.levels.as_slice();
    let mut start = 0;
    while start < levels.len() {
        let end = run_end(levels, start);
        // A run that continues an earlier run belongs to the earlier run's sequence.
        if !continued[start] {
            sequence.resolve(paragraph, start, end, done)?;
        }
        set_flag(continued, next_run(levels, paragraph.matches, end));
        start = end;
    }
    Ok(())
}
