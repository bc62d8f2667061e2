//! Calls to an engine on one paragraph.
ghost use Rattle.std.specs.Prelude.{IfOk};
ghost use Rattle.lines.specs.Engine.{rules_of};
ghost use Rattle.lines.specs.Layouts.{IsLaidOut};

use crate::Wrong;
use crate::tables::{engine, let_go};
use lines::{Engine, Laid, PARAGRAPH_LIMIT};
use std::alloc::Global;

// One paragraph. At width 1, each character has a line of its own.
const TEXT: &str = "a\u{5d0}(1)";

/// Lays out a paragraph, and fills it again at another width. Tries each call again after an allocation
/// failure.
pub fn try_calls(alloc: Global) -> Result<(), Wrong> {
    let mut engine = engine(alloc)?;
    let answer = try_calls_by(alloc, &mut engine);
    let_go(engine);
    answer
}

fn try_calls_by(alloc: Global, engine: &mut Engine) -> Result<(), Wrong> {
    let laid = lay_out(alloc, engine)?;
    if laid.line_starts() != [0].as_slice() {
        return Err("other lines");
    }
    refill(alloc, engine, &laid)
}

// Returns the characters of the text, and tries again after an allocation failure.
fn characters(alloc: Global) -> Result<Vec<char>, Wrong> {
    if let Ok(text) = TEXT.chars().collect(alloc) {
        return Ok(text);
    }
    match TEXT.chars().collect(alloc) {
        Ok(text) => Ok(text),
        Err(_) => Err("refused twice"),
    }
}

// Lays out the text. If that fails, checks the text that is returned and tries again.
fn lay_out(alloc: Global, engine: &mut Engine) -> Result<Laid, Wrong>
    ensures { IfOk result (IsLaidOut (rules_of engine.new)) }
{
    match lay_out_text(alloc, engine, characters(alloc)?)? {
        Ok(laid) => Ok(laid),
        Err(text) => lay_out_again(alloc, engine, text),
    }
}

fn lay_out_again(alloc: Global, engine: &mut Engine, text: Vec<char>) -> Result<Laid, Wrong>
    ensures { IfOk result (IsLaidOut (rules_of engine.new)) }
{
    check_refusal(engine, &text)?;
    match lay_out_text(alloc, engine, text)? {
        Ok(laid) => Ok(laid),
        Err(_) => Err("refused twice"),
    }
}

// Lays out a text, or returns it after an allocation failure.
fn lay_out_text(
    alloc: Global,
    engine: &mut Engine,
    text: Vec<char>,
) -> Result<Result<Laid, Vec<char>>, Wrong>
    ensures { IfOk result (λ laid. IfOk laid (IsLaidOut (rules_of engine.new))) }
{
    if text.is_empty() || text.len() > PARAGRAPH_LIMIT || engine.first_cut(&text).is_some() {
        return Err("no paragraph");
    }
    match engine.lay_out(alloc, text, 80) {
        Ok(laid) => Ok(Ok(laid)),
        Err((text, _)) => Ok(Err(text)),
    }
}

fn check_refusal(engine: &Engine, text: &[char]) -> Result<(), Wrong> {
    if !text.iter().copied().eq(TEXT.chars()) {
        return Err("another text came back");
    }
    if engine.analysed() > 5 || engine.filled() > 5 {
        return Err("counted more than the text");
    }
    Ok(())
}

fn refill(alloc: Global, engine: &mut Engine, laid: &Laid) -> Result<(), Wrong>
    requires { IsLaidOut (rules_of engine.old) laid.now }
{
    let before = (engine.analysed(), engine.filled());
    if engine.refill(alloc, laid, 1).is_ok() {
        return Ok(());
    }
    if engine.analysed() != before.0 || engine.filled().saturating_sub(before.1) > 5 {
        return Err("counted more than the text");
    }
    match engine.refill(alloc, laid, 1) {
        Ok(_) => Ok(()),
        Err(_) => Err("refused twice"),
    }
}
