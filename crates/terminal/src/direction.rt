//! Finds the base direction of a whole text from its beginning.
ghost use Rattle.std.specs.Prelude.{◌≡◌, ◌≤◌, ◌<◌, ◌∷◌, ◌++◌, ℕ, List, [], Some, drop, length, map, take};
ghost use Rattle.std.specs.Prelude.{IfErr, IfOk, IfSome};
ghost use Rattle.ucd.specs.Tables.{class_of};
ghost use Rattle.bidi.specs.Base.{base_level_of, first_strong_level};
ghost use Rattle.bidi.specs.Cuts.{paragraphs};
ghost use Rattle.lines.specs.Engine.{rules_of, SameRules};
ghost use Rattle.lines.specs.Layouts.{cut_by, Rules};
ghost use Rattle.terminal.specs.Directions.{base_by, direction_of, first_level, shown_level, StartsWith};
ghost use Rattle.terminal.specs.Passed.{HasPassed};
ghost use Rattle.terminal.specs.Searches.{text_direction, HasSearched, HasSearchedAll};

use crate::decoder::{push_end, show_pictures, start};
use crate::decoding::decode_lossy;
use crate::form::Escapes;
use crate::known_ends::{FirstEnd, first_end};
use crate::passed::Passed;
use bidi::{Base, paragraphs_are_pieces};
use lines::{Engine, Options};
use sequences::Scanner;
use std::alloc::{AllocError, Global};

/// The maximum number of characters, including sequences, that the direction of a text depends on.
pub const FIRST_CHARACTERS: usize = 65_536;

/// How far the beginning of a text was searched for the text's direction.
#[derive(Clone, Copy)]
pub(crate) struct Searched {
    // The start of the first block that may show a strong character.
    start: usize,
    // No block ends before this index of the text from `start` on, whatever follows the text. If the
    // character there is a CR, `passed` is how far the text after it was scanned.
    scanned: usize,
    passed: Passed,
}

impl Searched {
    /// Returns the state of a search that has not started.
    pub(crate) fn nothing() -> Searched
        ensures { (rules : Rules) (text : List ℕ) → HasSearched rules result text }
    {
        Searched::up_to(0)
    }

    // Returns the state of a search that has just reached the block at `start`.
    fn up_to(start: usize) -> Searched
        ensures start { result.start ≡ start }
        ensures scanned { result.scanned ≡ 0 }
        ensures passed { (text : List ℕ) → HasPassed result.passed text }
    {
        Searched {
            start,
            scanned: 0,
            passed: Passed::nothing(),
        }
    }
}

// Returns the base level of a paragraph if the option for the base direction is `base`.
fn level_by(engine: &mut Engine, base: Base, paragraph: &[char]) -> u8
    ensures level { result ≡ base_level_of (map (class_of (rules_of engine.old).tables) paragraph.now) base }
    ensures rules { SameRules engine.old engine.new }
{
    let own = engine.options();
    engine.set_options(Options { base, ..own });
    let level = engine.find_base(paragraph);
    engine.set_options(own);
    level
}

// Returns the level of a paragraph's first strong character outside all isolates, or `None` if it has none.
fn strong_level(engine: &mut Engine, paragraph: &[char]) -> Option<u8>
    ensures level { result ≡ first_strong_level (map (class_of (rules_of engine.old).tables) paragraph.now) }
    ensures rules { SameRules engine.old engine.new }
{
    let level = level_by(engine, Base::WeakLtr, paragraph);
    if level == level_by(engine, Base::WeakRtl, paragraph) {
        Some(level)
    } else {
        None
    }
}

// Returns the length of the first paragraph of a text.
fn paragraph_len(engine: &Engine, text: &[char]) -> usize
    requires { 0 < length text.now }
    ensures within { (0 < result) × (result ≤ length text.now) }
    ensures first { paragraphs (cut_by (rules_of engine.now)) text.now
        ≡ take result text.now ∷ paragraphs (cut_by (rules_of engine.now)) (drop result text.now) }
{
    match engine.first_cut(text) {
        Some(len) => len,
        None => text.len(),
    }
}

// Returns the level of the first strong character of the first paragraph that has one, or `None` if none has.
fn first_level(engine: &mut Engine, text: &[char]) -> Option<u8>
    ensures level { result ≡ first_level (rules_of engine.old).tables
        (paragraphs (cut_by (rules_of engine.old)) text.now) }
    ensures rules { SameRules engine.old engine.new }
{
    let mut rest = text;
    while !rest.is_empty() {
        let (paragraph, after) = rest.split_at(paragraph_len(engine, rest));
        if let Some(level) = strong_level(engine, paragraph) {
            return Some(level);
        }
        rest = after;
    }
    None
}

// Does the same as `first_level` for the paragraphs that a text shows.
fn shown_level(alloc: Global, engine: &mut Engine, text: &[char]) -> Result<Option<u8>, AllocError>
    ensures level { IfOk result (λ level. level ≡ shown_level (rules_of engine.old) text.now) }
    ensures rules { SameRules engine.old engine.new }
{
    let mut scanner = Scanner::new(alloc);
    scanner.push_text(text)?;
    Ok(first_level(engine, &scanner.text.characters))
}

// Does the same as `shown_level` for a text that may continue. Considers only blocks that have ended. If they
// show no strong character, returns how far the text has been searched by now. Looks for the ends of blocks
// only in text that has not been searched yet.
fn known_level(
    alloc: Global,
    engine: &mut Engine,
    text: &[char],
    searched: Searched,
) -> Result<Result<u8, Searched>, AllocError>
    requires searched { HasSearched (rules_of engine.old) searched text.now }
    ensures level { IfOk result (λ found. IfOk found (λ level. (more : List ℕ)
        → shown_level (rules_of engine.old) (text.now ++ more) ≡ Some level)) }
    ensures searched { IfOk result (λ found. IfErr found (λ now.
        HasSearchedAll (rules_of engine.old) now text.now)) }
    ensures rules { SameRules engine.old engine.new }
{
    paragraphs_are_pieces();
    let mut searched = searched;
    loop {
        let (_, rest) = text.split_at(searched.start);
        match first_end(engine, rest, searched.scanned, searched.passed) {
            FirstEnd::After(scanned, passed) => {
                return Ok(Err(Searched {
                    start: searched.start,
                    scanned,
                    passed,
                }));
            }
            FirstEnd::At(len) => {
                let (block, _) = rest.split_at(len);
                match shown_level(alloc, engine, block)? {
                    Some(level) => return Ok(Ok(level)),
                    None => searched = Searched::up_to(searched.start + len),
                }
            }
        }
    }
}

/// Returns the base direction of a text that begins with these characters. There must be at most
/// `FIRST_CHARACTERS` of them. If the direction depends on what follows, returns how far the characters have
/// been searched.
pub(crate) fn known_base(
    alloc: Global,
    engine: &mut Engine,
    text: &[char],
    searched: Searched,
) -> Result<Result<Base, Searched>, AllocError>
    requires few { length text.now ≤ FIRST_CHARACTERS }
    requires searched { HasSearched (rules_of engine.old) searched text.now }
    ensures base { IfOk result (λ found. IfOk found (λ base. (more : List ℕ)
        → base ≡ text_direction (rules_of engine.old) (text.now ++ more))) }
    ensures few { IfOk result (λ found. IfErr found (λ now. length text.now < FIRST_CHARACTERS)) }
    ensures searched { IfOk result (λ found. IfErr found (λ now.
        HasSearchedAll (rules_of engine.old) now text.now)) }
    ensures rules { SameRules engine.old engine.new }
{
    if text.len() == FIRST_CHARACTERS {
        return Ok(Ok(whole_base(alloc, engine, text, searched)?));
    }
    match known_level(alloc, engine, text, searched)? {
        Ok(level) => Ok(Ok(base_by(Some(level)))),
        Err(searched) => Ok(Err(searched)),
    }
}

/// Returns the base direction of a complete text, given how far it was searched.
pub(crate) fn whole_base(
    alloc: Global,
    engine: &mut Engine,
    text: &[char],
    searched: Searched,
) -> Result<Base, AllocError>
    requires searched { HasSearched (rules_of engine.old) searched text.now }
    ensures base { IfOk result (λ base. base ≡ base_by (shown_level (rules_of engine.old) text.now)) }
    ensures rules { SameRules engine.old engine.new }
{
    let (_, rest) = text.split_at(searched.start);
    Ok(base_by(shown_level(alloc, engine, rest)?))
}

fn base_by(level: Option<u8>) -> Base
    ensures { result ≡ base_by level }
{
    if level.unwrap_or(0) == 1 {
        Base::Rtl
    } else {
        Base::Ltr
    }
}

// Decodes the start of an input, and returns the number of decoded bytes. The other bytes are the beginning
// of a character.
fn decode_start(escapes: Escapes, bytes: &[u8], text: &mut Vec<char>) -> Result<usize, AllocError>
    requires { text.old.items ≡ [] }
    ensures { IfOk result (λ n. StartsWith escapes bytes.now n text.new.items) }
{
    let n = decode_lossy(bytes, text)?;
    let _started = start(false, text, 0);
    show_pictures(escapes, text, 0);
    Ok(n)
}

/// Returns the base direction of a text. It is the direction of the first paragraph with a strong character
/// among those that the text's first 65,536 characters show, or left-to-right if there is none. Decodes the
/// bytes as `run` does if the form is not strict.
pub fn whole_direction(
    alloc: Global,
    engine: &mut Engine,
    escapes: Escapes,
    bytes: &[u8],
) -> Result<Base, AllocError>
    ensures base { IfOk result (λ base. base ≡ direction_of (rules_of engine.old) escapes bytes.now) }
    ensures rules { SameRules engine.old engine.new }
{
    let mut text = Vec::new(alloc);
    let n = decode_start(escapes, bytes, &mut text)?;
    push_end(bytes.len() - n, &mut text)?;
    text.truncate(FIRST_CHARACTERS);
    whole_base(alloc, engine, &text, Searched::nothing())
}

/// Returns the base direction of a text that begins with these bytes, or `None` if the direction depends on
/// what follows.
pub fn known_direction(
    alloc: Global,
    engine: &mut Engine,
    escapes: Escapes,
    bytes: &[u8],
) -> Result<Option<Base>, AllocError>
    ensures base { IfOk result (λ found. IfSome found (λ base. (more : List ℕ)
        → base ≡ direction_of (rules_of engine.old) escapes (bytes.now ++ more))) }
    ensures rules { SameRules engine.old engine.new }
{
    let mut text = Vec::new(alloc);
    let _decoded = decode_start(escapes, bytes, &mut text)?;
    text.truncate(FIRST_CHARACTERS);
    match known_base(alloc, engine, &text, Searched::nothing())? {
        Ok(base) => Ok(Some(base)),
        Err(_) => Ok(None),
    }
}
