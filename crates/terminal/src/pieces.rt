//! Lays out paragraphs over the limit in pieces, all in the direction of the first one.
ghost use Rattle.std.specs.Prelude.{◌≡◌, ◌⊎◌, ◌+◌, ◌-◌, ◌≤◌, ◌<◌, ◌++◌, ℕ, List, drop, length, OnOk};
ghost use Rattle.lines.specs.Engine.{rules_of, SameRules};
ghost use Rattle.lines.specs.declared.engine.TheConstants.{PARAGRAPH_LIMIT};
ghost use Rattle.sequences.specs.Laws.{characters_of};
ghost use Rattle.sequences.specs.Styled.{Style};
ghost use Rattle.terminal.specs.Paragraphs.{styles_of};
ghost use Rattle.terminal.specs.Parts.{styles_in};
ghost use Rattle.terminal.specs.Pieces.{directed, in_direction, printed_each, printed_pieces, IsWhole};

use crate::form::Form;
use crate::numbers::Part;
use crate::paragraph::push_paragraph;
use bidi::{Base, paragraphs_are_pieces};
use lines::{Engine, Options, PARAGRAPH_LIMIT};
use std::alloc::{AllocError, Global};
use stream::Page;

// Returns the end of the piece that starts at an index of a paragraph of length `len`.
fn piece_end(at: usize, len: usize) -> usize
    requires { at < len }
    ensures within { (at < result) × (result ≤ len) }
    ensures short { result - at ≤ PARAGRAPH_LIMIT }
    ensures full { ((result ≡ len) × (len - at ≤ PARAGRAPH_LIMIT)) ⊎ (result ≡ at + PARAGRAPH_LIMIT) }
{
    if len - at <= PARAGRAPH_LIMIT {
        len
    } else {
        at + PARAGRAPH_LIMIT
    }
}

// Adds the lines of the pieces after the first one, by the engine's current rules.
fn push_rest(
    alloc: Global,
    page: &mut Page,
    engine: &mut Engine,
    form: &Form<'_>,
    part: &Part<'_>,
    out: &mut Vec<char>,
) -> Result<(), AllocError>
    requires whole { IsWhole (rules_of engine.old) part.now.characters.now }
    requires len { length part.now.numbers.now ≡ length part.now.characters.now }
    requires long { PARAGRAPH_LIMIT ≤ length part.now.characters.now }
    ensures ok { (shown : List (ℕ × Style)) → part.now.characters.now ≡ characters_of shown
        → styles_of shown ≡ styles_in part.now
        → OnOk result (page.new.bytes.items ≡ page.old.bytes.items
        ++ printed_each (rules_of engine.old) form.now (drop PARAGRAPH_LIMIT shown)) }
    ensures rules { SameRules engine.old engine.new }
{
    paragraphs_are_pieces();
    let mut at = PARAGRAPH_LIMIT;
    while at < part.characters.len() {
        let end = piece_end(at, part.characters.len());
        push_paragraph(alloc, page, engine, form, &part.paragraph(at, end), out)?;
        at = end;
    }
    Ok(())
}

// Returns the options with the base direction set to that of a base level.
fn directed(options: Options, base: u8) -> Options
    ensures { result ≡ directed options base }
{
    Options {
        base: if base % 2 == 1 { Base::Rtl } else { Base::Ltr },
        ..options
    }
}

// Adds the lines of all pieces but the first, with the base direction of the given level.
fn push_directed(
    alloc: Global,
    page: &mut Page,
    engine: &mut Engine,
    form: &Form<'_>,
    part: &Part<'_>,
    base: u8,
    out: &mut Vec<char>,
) -> Result<(), AllocError>
    requires whole { IsWhole (rules_of engine.old) part.now.characters.now }
    requires len { length part.now.numbers.now ≡ length part.now.characters.now }
    requires long { PARAGRAPH_LIMIT ≤ length part.now.characters.now }
    ensures ok { (shown : List (ℕ × Style)) → part.now.characters.now ≡ characters_of shown
        → styles_of shown ≡ styles_in part.now
        → OnOk result (page.new.bytes.items ≡ page.old.bytes.items
        ++ printed_each (in_direction (rules_of engine.old) base) form.now (drop PARAGRAPH_LIMIT shown)) }
    ensures rules { SameRules engine.old engine.new }
{
    let own = engine.options();
    engine.set_options(directed(own, base));
    let result = push_rest(alloc, page, engine, form, part, out);
    engine.set_options(own);
    result
}

/// Adds the lines of a paragraph, given the styles of its characters. A paragraph over the limit is laid out
/// in pieces.
pub(crate) fn push_pieces(
    alloc: Global,
    page: &mut Page,
    engine: &mut Engine,
    form: &Form<'_>,
    part: &Part<'_>,
    out: &mut Vec<char>,
) -> Result<(), AllocError>
    requires whole { IsWhole (rules_of engine.old) part.now.characters.now }
    requires len { length part.now.numbers.now ≡ length part.now.characters.now }
    ensures ok { (shown : List (ℕ × Style)) → part.now.characters.now ≡ characters_of shown
        → styles_of shown ≡ styles_in part.now
        → OnOk result (page.new.bytes.items ≡ page.old.bytes.items
        ++ printed_pieces (rules_of engine.old) form.now shown) }
    ensures rules { SameRules engine.old engine.new }
{
    if part.characters.len() <= PARAGRAPH_LIMIT {
        return push_paragraph(alloc, page, engine, form, part, out);
    }
    paragraphs_are_pieces();
    let first = part.paragraph(0, PARAGRAPH_LIMIT);
    push_paragraph(alloc, page, engine, form, &first, out)?;
    let base = engine.find_base(first.characters);
    push_directed(alloc, page, engine, form, part, base, out)
}
