//! Measures the time to analyse one paragraph, for several kinds of text.
ghost use Rattle.std.specs.Prelude.{◌<◌, IfOk};
ghost use Rattle.lines.specs.Engine.{rules_of, SameRules};
ghost use Rattle.lines.specs.Layouts.{IsLaidOut};

use crate::numbers::Numbers;
use crate::rows::{show, since};
use anyhow::{Result, bail};
use bidi::{Base, resolve};
use breaks::{Mark, marks};
use lines::{Engine, Laid, Options, PARAGRAPH_LIMIT};
use std::alloc::{AllocError, Global};
use std::time::Instant;
use tables::in_folder;
use ucd::Tables;

/// A kind of paragraph: its name, and the words of which it consists, in pseudorandom order.
pub struct Kind {
    pub name: &'static str,
    pub words: &'static [&'static str],
}

/// What is computed for a paragraph.
#[derive(Clone, Copy)]
pub enum Subject {
    Levels,
    Marks,
}

/// How many times a paragraph is analysed. The minimum time is used.
pub const RUNS: usize = 5;

/// Prints a line for each kind, with a paragraph of `characters` characters: the minimum time in nanoseconds,
/// the highest level or the number of break opportunities, and the name of the kind.
pub fn measure_all(
    rt: &HostRuntime,
    subject: Subject,
    kinds: &[Kind],
    folder: &str,
    characters: usize,
) -> Result<()> {
    let tables = in_folder(rt, folder)?;
    measure_kinds(rt, subject, &tables, kinds, characters)
}

fn measure_kinds(
    rt: &HostRuntime,
    subject: Subject,
    tables: &Tables,
    kinds: &[Kind],
    characters: usize,
) -> Result<()> {
    for kind in kinds {
        measure_kind(rt, subject, tables, kind, characters)?;
    }
    Ok(())
}

fn measure_kind(
    rt: &HostRuntime,
    subject: Subject,
    tables: &Tables,
    kind: &Kind,
    characters: usize,
) -> Result<()> {
    let text = text_of(rt.alloc(), kind.words, characters)?;
    measure(rt, subject, tables, &text, kind.name)
}

/// Makes an engine with the tables read from a folder.
pub fn engine(rt: &HostRuntime, folder: &str) -> Result<Engine> {
    Ok(Engine::new(in_folder(rt, folder)?, Options::default()))
}

/// Drops an engine. No other function drops an engine, since every proof that drops all lists of an engine is
/// slow.
pub fn let_go(_engine: Engine) {}

/// Returns a text of `characters` characters that consists of `words` in pseudorandom order.
pub fn text_of(alloc: Global, words: &[&str], characters: usize) -> Result<Vec<char>, AllocError> {
    let mut text = Vec::new(alloc);
    let mut numbers = Numbers::new();
    for _ in 0..characters {
        let pick = (numbers.next() >> 33) as usize % words.len().max(1);
        for c in words.get(pick).copied().unwrap_or("").chars() {
            if text.len() == characters {
                return Ok(text);
            }
            text.push(c)?;
        }
    }
    Ok(text)
}

/// Lays out a paragraph at a width in columns. Fails if the text is not one paragraph.
pub fn lay_out(alloc: Global, engine: &mut Engine, text: Vec<char>, width: u16) -> Result<Laid>
    requires { 0 < width }
    ensures laid { IfOk result (IsLaidOut (rules_of engine.old)) }
    ensures rules { SameRules engine.old engine.new }
{
    let is_long = text.len() > PARAGRAPH_LIMIT;
    if text.is_empty() || is_long || engine.first_cut(&text).is_some() {
        bail!("that is no paragraph");
    }
    match engine.lay_out(alloc, text, u32::from(width)) {
        Ok(laid) => Ok(laid),
        Err(_) => bail!("out of memory"),
    }
}

// Analyses a paragraph several times. Prints the minimum time in nanoseconds, the result, and the name.
fn measure(
    rt: &HostRuntime,
    subject: Subject,
    tables: &Tables,
    text: &[char],
    name: &str,
) -> Result<()> {
    let mut least = u64::MAX;
    let mut found = 0;
    for _ in 0..RUNS {
        let start = Instant::now(rt)?;
        found = analyse(rt.alloc(), subject, tables, text)?;
        least = least.min(since(rt, start)?);
    }
    show(rt, &[least, found as u64], name)
}

// Returns the highest level or the number of break opportunities, depending on the subject.
fn analyse(
    alloc: Global,
    subject: Subject,
    tables: &Tables,
    text: &[char],
) -> Result<usize, AllocError> {
    match subject {
        Subject::Levels => highest_level(alloc, tables, text),
        Subject::Marks => ends(alloc, tables, text),
    }
}

fn highest_level(alloc: Global, tables: &Tables, text: &[char]) -> Result<usize, AllocError> {
    let levels = resolve(alloc, tables, text, Base::WeakLtr)?;
    let mut highest = 0;
    for level in &levels {
        highest = highest.max(*level);
    }
    Ok(usize::from(highest))
}

fn ends(alloc: Global, tables: &Tables, text: &[char]) -> Result<usize, AllocError> {
    let marks = marks(alloc, tables, text, false)?;
    let mut count: usize = 0;
    for mark in &marks {
        if *mark != Mark::Never {
            count = count.wrapping_add(1);
        }
    }
    Ok(count)
}
