//! Adds the lines of what a text shows, one block at a time. A block ends where a paragraph ends, and no
//! sequence and no overstrike spans its end.
ghost use Rattle.std.specs.Prelude.{◌≡◌, ◌≤◌, ◌<◌, ◌++◌, ◌∷◌, ◌-◌, [], ℕ, List, drop, length, map};
ghost use Rattle.std.specs.Prelude.{slice_index, slice_range, take, All, IfOk, OnOk};
ghost use Rattle.std.specs.List.{flat_map};
ghost use Rattle.lines.specs.Engine.{rules_of, SameRules};
ghost use Rattle.lines.specs.Layouts.{cut_by};
ghost use Rattle.sequences.specs.Laws.{characters_of};
ghost use Rattle.sequences.specs.Scanners.{pen_of};
ghost use Rattle.sequences.specs.Styled.{Style, next_paragraph, pen_at_end, styled};
ghost use Rattle.sequences.specs.StyledTexts.{styled_of};
ghost use Rattle.terminal.specs.Newlines.{last_of};
ghost use Rattle.terminal.specs.Numbers.{numbered};
ghost use Rattle.terminal.specs.Paragraphs.{styles_of};
ghost use Rattle.terminal.specs.Parts.{styles_in};
ghost use Rattle.terminal.specs.Pieces.{has_over, printed_pieces, IsWhole};
ghost use Rattle.terminal.specs.Texts.{block_page, in_mode, styled_paragraphs};

use crate::form::{Escapes, Form};
use crate::numbers::{Part, number_styles};
use crate::pieces::push_pieces;
use bidi::paragraphs_are_pieces;
use lines::{Engine, PARAGRAPH_LIMIT};
use sequences::{Scanner, StyledText};
use std::alloc::{AllocError, Global};
use stream::Page;

/// Buffers that are reused from one block to the next.
#[derive(Drop)]
pub(crate) struct Buffers {
    numbers: Vec<usize>,
    out: Vec<char>,
}

impl Buffers {
    /// Makes empty buffers. Allocates nothing.
    pub(crate) fn new(alloc: Global) -> Buffers {
        Buffers {
            numbers: Vec::new(alloc),
            out: Vec::new(alloc),
        }
    }
}

// Replaces the numbers with `len` zeros.
fn put_zeros(len: usize, numbers: &mut Vec<usize>) -> Result<(), AllocError>
    ensures { OnOk result ((length numbers.new.items ≡ len)
        × ((k : ℕ) → slice_index numbers.new.items k ≡ 0)) }
{
    numbers.clear();
    numbers.resize(len, 0)?;
    Ok(())
}

// Replaces the numbers with the style numbers that a text's characters have in a mode.
fn number_mode(
    escapes: Escapes,
    text: &StyledText,
    numbers: &mut Vec<usize>,
) -> Result<(), AllocError>
    ensures styles { OnOk result (map (numbered text.now.links.items text.now.runs.items) numbers.new.items
        ≡ styles_of (in_mode escapes (styled_of text.now))) }
    ensures len { OnOk result (length numbers.new.items ≡ length text.now.characters.items) }
    ensures known { OnOk result (All (λ n. n ≤ length text.now.runs.items) numbers.new.items) }
{
    match escapes {
        Escapes::Strip => put_zeros(text.characters.len(), numbers),
        Escapes::Keep | Escapes::Text => number_styles(text, numbers),
    }
}

// Returns the end of the paragraph that starts at an index of a block.
fn paragraph_end(engine: &Engine, characters: &[char], at: usize) -> usize
    requires at { at < length characters.now }
    ensures within { (at < result) × (result ≤ length characters.now) }
    ensures paragraph { IsWhole (rules_of engine.now) (slice_range characters.now at result) }
    ensures split { (shown : List (ℕ × Style)) → characters.now ≡ characters_of shown
        → styled_paragraphs (cut_by (rules_of engine.now)) (drop at shown)
        ≡ take (result - at) (drop at shown) ∷ styled_paragraphs (cut_by (rules_of engine.now))
        (drop result shown) }
{
    paragraphs_are_pieces();
    let (_, rest) = characters.split_at(at);
    match engine.first_cut(rest) {
        Some(k) => at + k,
        None => characters.len(),
    }
}

// Returns whether any paragraph of a text is over the limit.
fn has_over(engine: &Engine, characters: &[char]) -> bool
    ensures { result ≡ has_over (rules_of engine.now) characters.now }
{
    paragraphs_are_pieces();
    // Fast path: no paragraph is longer than the text.
    if characters.len() <= PARAGRAPH_LIMIT {
        return false;
    }
    let mut rest = characters;
    while !rest.is_empty() {
        let len = match engine.first_cut(rest) {
            Some(k) => k,
            None => rest.len(),
        };
        if len > PARAGRAPH_LIMIT {
            return true;
        }
        let (_, after) = rest.split_at(len);
        rest = after;
    }
    false
}

// Adds the lines of the paragraphs of a block, given the styles of its characters.
fn push_parts(
    alloc: Global,
    page: &mut Page,
    engine: &mut Engine,
    form: &Form<'_>,
    part: &Part<'_>,
    out: &mut Vec<char>,
) -> Result<(), AllocError>
    requires len { length part.now.numbers.now ≡ length part.now.characters.now }
    ensures ok { (shown : List (ℕ × Style)) → part.now.characters.now ≡ characters_of shown
        → styles_of shown ≡ styles_in part.now
        → OnOk result (page.new.bytes.items ≡ page.old.bytes.items ++ flat_map
        (printed_pieces (rules_of engine.old) form.now)
        (styled_paragraphs (cut_by (rules_of engine.old)) shown)) }
    ensures rules { SameRules engine.old engine.new }
{
    let mut at = 0;
    while at < part.characters.len() {
        let end = paragraph_end(engine, part.characters, at);
        push_pieces(alloc, page, engine, form, &part.paragraph(at, end), out)?;
        at = end;
    }
    Ok(())
}

// Adds the lines of a block, given the text that it shows.
fn push_shown(
    alloc: Global,
    page: &mut Page,
    engine: &mut Engine,
    form: &Form<'_>,
    text: &StyledText,
    buffers: &mut Buffers,
) -> Result<(), AllocError>
    ensures ok { OnOk result (page.new.bytes.items ≡ page.old.bytes.items
        ++ block_page (rules_of engine.old) form.now (styled_of text.now)) }
    ensures rules { SameRules engine.old engine.new }
{
    number_mode(form.escapes, text, &mut buffers.numbers)?;
    let part = Part {
        characters: &text.characters,
        numbers: &buffers.numbers,
        text,
    };
    push_parts(alloc, page, engine, form, &part, &mut buffers.out)
}

/// What `push_block` returns about the text that a block shows.
#[derive(Clone, Copy)]
pub(crate) struct Shown {
    pub(crate) last: Option<char>,
    /// Whether a paragraph is over the limit.
    pub(crate) over: bool,
}

/// Scans a block, and adds the lines of what it shows. Prepares the scanner for the next block. After a
/// failed allocation, the state of the scanner is unspecified.
pub(crate) fn push_block(
    alloc: Global,
    page: &mut Page,
    engine: &mut Engine,
    form: &Form<'_>,
    scanner: &mut Scanner,
    block: &[char],
    buffers: &mut Buffers,
) -> Result<Shown, AllocError>
    requires empty { styled_of scanner.old.text ≡ [] }
    ensures ok { OnOk result (page.new.bytes.items ≡ page.old.bytes.items
        ++ block_page (rules_of engine.old) form.now (styled (pen_of scanner.old) block.now)) }
    ensures pen { OnOk result (pen_of scanner.new
        ≡ next_paragraph (pen_at_end (pen_of scanner.old) block.now)) }
    ensures empty { OnOk result (styled_of scanner.new.text ≡ []) }
    ensures over { IfOk result (λ shown. shown.over
        ≡ has_over (rules_of engine.old) (characters_of (styled (pen_of scanner.old) block.now))) }
    ensures last { IfOk result (λ shown. shown.last
        ≡ last_of (characters_of (styled (pen_of scanner.old) block.now))) }
    ensures rules { SameRules engine.old engine.new }
{
    scanner.push_text(block)?;
    push_shown(alloc, page, engine, form, &scanner.text, buffers)?;
    let last = scanner.text.characters.last().copied();
    let over = has_over(engine, &scanner.text.characters);
    scanner.start_paragraph();
    Ok(Shown { last, over })
}
