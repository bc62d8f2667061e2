//! Measures how long calls to a session on a long text take.
ghost use Rattle.std.specs.Prelude.{◌<◌, IfOk};
ghost use Rattle.std.specs.List.{All};
ghost use Rattle.lines.specs.Engine.{rules_of, SameRules};
ghost use Rattle.lines.specs.Layouts.{IsLaidOut};

use crate::edits::{StoreKind, close, make_edits, open, text_of};
use crate::paragraphs::{RUNS, engine, lay_out, let_go};
use crate::rows::{show_numbers, since};
use anyhow::Result;
use lines::{Engine, Fill, Laid};
use session::{Kept, Session};
use std::fs;
use std::time::Instant;
use store::{ParagraphStore, TreeStore, VecStore};

/// Opens a session on a text of `paragraphs` paragraphs, each of 80 characters, and makes edits at
/// pseudorandom positions. The session keeps its paragraphs in a list or a tree. Prints the time to open the
/// session and the average time of an edit, in nanoseconds.
pub fn run(
    rt: &HostRuntime,
    folder: &str,
    kind: StoreKind,
    paragraphs: usize,
    edits: usize,
) -> Result<()> {
    let text = text_of(rt.alloc(), paragraphs)?;
    measure(rt, folder, kind, text.as_str(), edits)
}

fn measure(
    rt: &HostRuntime,
    folder: &str,
    kind: StoreKind,
    text: &str,
    edits: usize,
) -> Result<()> {
    let engine = engine(rt, folder)?;
    match kind {
        StoreKind::List => measure_on::<VecStore<Kept>>(rt, engine, text, edits),
        StoreKind::Tree => measure_on::<TreeStore<Kept>>(rt, engine, text, edits),
    }
}

fn measure_on<S: ParagraphStore<Kept> + Drop>(
    rt: &HostRuntime,
    engine: Engine,
    text: &str,
    edits: usize,
) -> Result<()> {
    let start = match Instant::now(rt) {
        Ok(start) => start,
        Err(error) => {
            let_go(engine);
            return Err(error.into());
        }
    };
    let mut session: Session<S> = open(rt.alloc(), engine, text)?;
    let answer = measure_edits(rt, &mut session, start, edits);
    close(session);
    answer
}

// Measures edits in a session that has just been opened. `start` is when opening it began.
fn measure_edits<S: ParagraphStore<Kept>>(
    rt: &HostRuntime,
    session: &mut Session<S>,
    start: Instant,
    edits: usize,
) -> Result<()> {
    let opening = since(rt, start)?;
    let start = Instant::now(rt)?;
    make_edits(session, edits);
    let editing = since(rt, start)? / edits.max(1) as u64;
    show_numbers(rt, &[opening, editing])
}

// The two widths that are set in turn. All paragraphs are first laid out at `WIDE`.
const NARROW: u16 = 60;

const WIDE: u16 = 80;

/// Prints times in nanoseconds for the text of a file. The first three are the times to lay out all
/// paragraphs, to fill them again at the narrow width, and to fill them again at the wide width. The other
/// two are the times to set a session's width to the narrow width and back to the wide width. All times
/// except the first are the minimum of several runs.
pub fn set_width(rt: &HostRuntime, folder: &str, kind: StoreKind, file: &str) -> Result<()> {
    let text = fs::read_to_string(rt, file)?;
    set_width_of(rt, folder, kind, text.as_str())
}

fn set_width_of(rt: &HostRuntime, folder: &str, kind: StoreKind, text: &str) -> Result<()> {
    let (laying_out, filling) = lay_out_and_fill(rt, folder, text)?;
    let engine = engine(rt, folder)?;
    let widths = match kind {
        StoreKind::List => time_widths::<VecStore<Kept>>(rt, engine, text)?,
        StoreKind::Tree => time_widths::<TreeStore<Kept>>(rt, engine, text)?,
    };
    show_numbers(
        rt,
        &[
            laying_out,
            filling.narrow,
            filling.wide,
            widths.narrow,
            widths.wide,
        ],
    )
}

// The minimum times at both widths.
#[derive(Clone, Copy)]
struct Times {
    narrow: u64,
    wide: u64,
}

impl Times {
    fn none() -> Times {
        Times {
            narrow: u64::MAX,
            wide: u64::MAX,
        }
    }

    fn or(self, narrow: u64, wide: u64) -> Times {
        Times {
            narrow: self.narrow.min(narrow),
            wide: self.wide.min(wide),
        }
    }
}

// Times width changes.
fn time_widths<S: ParagraphStore<Kept> + Drop>(
    rt: &HostRuntime,
    engine: Engine,
    text: &str,
) -> Result<Times> {
    let mut session: Session<S> = open(rt.alloc(), engine, text)?;
    let times = times_of_widths(rt, &mut session);
    close(session);
    times
}

fn times_of_widths<S: ParagraphStore<Kept>>(
    rt: &HostRuntime,
    session: &mut Session<S>,
) -> Result<Times> {
    let mut times = Times::none();
    for _ in 0..RUNS {
        let narrow = time_of_width(rt, session, NARROW)?;
        let wide = time_of_width(rt, session, WIDE)?;
        times = times.or(narrow, wide);
    }
    Ok(times)
}

fn time_of_width<S: ParagraphStore<Kept>>(
    rt: &HostRuntime,
    session: &mut Session<S>,
    width: u16,
) -> Result<u64> {
    let start = Instant::now(rt)?;
    session.set_width(width)?;
    since(rt, start)
}

// Returns the time to lay out all paragraphs, and the minimum times to fill them again at both widths.
fn lay_out_and_fill(rt: &HostRuntime, folder: &str, text: &str) -> Result<(u64, Times)> {
    let mut engine = engine(rt, folder)?;
    let answer = lay_out_and_fill_text(rt, &mut engine, text);
    let_go(engine);
    answer
}

fn lay_out_and_fill_text(
    rt: &HostRuntime,
    engine: &mut Engine,
    text: &str,
) -> Result<(u64, Times)> {
    let text: Vec<char> = text.chars().collect(rt.alloc())?;
    lay_out_and_fill_by(rt, engine, &text)
}

fn lay_out_and_fill_by(
    rt: &HostRuntime,
    engine: &mut Engine,
    text: &[char],
) -> Result<(u64, Times)> {
    let start = Instant::now(rt)?;
    let all = lay_out_all(rt, engine, text)?;
    Ok((since(rt, start)?, fill(rt, engine, &all)?))
}

// Returns the minimum times to fill all paragraphs again at both widths.
fn fill(rt: &HostRuntime, engine: &mut Engine, all: &[Laid]) -> Result<Times>
    requires { All (IsLaidOut (rules_of engine.old)) all.now }
{
    let mut times = Times::none();
    for _ in 0..RUNS {
        let narrow = time_to_refill(rt, engine, all, NARROW)?;
        let wide = time_to_refill(rt, engine, all, WIDE)?;
        times = times.or(narrow, wide);
    }
    Ok(times)
}

// Lays out the paragraphs of a text.
fn lay_out_all(rt: &HostRuntime, engine: &mut Engine, text: &[char]) -> Result<Vec<Laid>>
    ensures laid { IfOk result (λ all. All (IsLaidOut (rules_of engine.old)) all.items) }
    ensures rules { SameRules engine.old engine.new }
{
    let mut all = Vec::new(rt.alloc());
    let mut rest = text;
    for _ in 0..text.len() {
        if rest.is_empty() {
            return Ok(all);
        }
        let len = engine.first_cut(rest).unwrap_or(rest.len());
        let (piece, after) = rest.split_at(len.min(rest.len()));
        all.push(lay_out_piece(rt, engine, piece)?)?;
        rest = after;
    }
    Ok(all)
}

fn lay_out_piece(rt: &HostRuntime, engine: &mut Engine, piece: &[char]) -> Result<Laid>
    ensures laid { IfOk result (IsLaidOut (rules_of engine.old)) }
    ensures rules { SameRules engine.old engine.new }
{
    let text = Vec::from_slice(rt.alloc(), piece)?;
    lay_out(rt.alloc(), engine, text, WIDE)
}

fn time_to_refill(rt: &HostRuntime, engine: &mut Engine, all: &[Laid], width: u16) -> Result<u64>
    requires laid { All (IsLaidOut (rules_of engine.old)) all.now }
    requires width { 0 < width }
    ensures { SameRules engine.old engine.new }
{
    let start = Instant::now(rt)?;
    let _ = refill_all(rt, engine, all, width)?;
    since(rt, start)
}

fn refill_all(rt: &HostRuntime, engine: &mut Engine, all: &[Laid], width: u16) -> Result<Vec<Fill>>
    requires laid { All (IsLaidOut (rules_of engine.old)) all.now }
    requires width { 0 < width }
    ensures { SameRules engine.old engine.new }
{
    let mut fills = Vec::new(rt.alloc());
    for laid in all {
        fills.push(engine.refill(rt.alloc(), laid, u32::from(width))?)?;
    }
    Ok(fills)
}
