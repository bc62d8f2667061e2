//! Calls to a layout and to its lines, and exchanges of its lines.
ghost use Rattle.std.specs.Prelude.{IfOk, IfErr};
ghost use Rattle.lines.specs.Engine.{rules_of};
ghost use Rattle.lines.specs.Layouts.{AreLinesOf, IsLaidOut, Rules};

use crate::texts::{mixed, mixed_flag, mixed_place};
use device::ToWrite;
use lines::{Engine, Fill, Laid, PARAGRAPH_LIMIT, Print, VisualLine};
use oom_calls::tables::{engine, let_go};
use oom_calls::{Printed, Writer, Wrong};
use std::alloc::Global;

/// Returns a digest of the calls' results. The results are the same in each round.
pub fn digest(alloc: Global, rounds: u32) -> Result<u64, Wrong> {
    let mut engine = engine(alloc)?;
    let result = digest_by(alloc, &mut engine, rounds);
    let_go(engine);
    result
}

fn digest_by(alloc: Global, engine: &mut Engine, rounds: u32) -> Result<u64, Wrong> {
    let Ok(text) = "ab א(ב) 12 cd".chars().collect(alloc) else {
        return Err("no text");
    };
    let mut laid = lay_out(alloc, engine, text)?;
    let Ok(mut fill) = engine.refill(alloc, &laid, 4) else {
        return Err("not filled");
    };
    let before = repeated(engine, &laid, rounds);
    if rounds > 0 {
        laid.exchange(&mut fill);
    }
    Ok(mixed(before, repeated(engine, &laid, rounds)))
}

fn lay_out(alloc: Global, engine: &mut Engine, text: Vec<char>) -> Result<Laid, Wrong>
    ensures { IfOk result (IsLaidOut (rules_of engine.new)) }
{
    if text.is_empty() || text.len() > PARAGRAPH_LIMIT || engine.first_cut(&text).is_some() {
        return Err("no paragraph");
    }
    match engine.lay_out(alloc, text, 80) {
        Ok(laid) => Ok(laid),
        Err(_) => Err("not laid out"),
    }
}

fn repeated(engine: &Engine, laid: &Laid, rounds: u32) -> u64 {
    let mut sum = 0;
    for _ in 0..rounds {
        sum = mixed_flag(of_laid(laid), engine.keeps_lines(laid, 80));
    }
    sum
}

/// Returns a digest of a layout.
pub fn of_laid(laid: &Laid) -> u64 {
    let mut sum = mixed(laid.text().len() as u64, u64::from(laid.base()));
    for level in laid.levels() {
        sum = mixed(sum, u64::from(*level));
    }
    for mark in laid.marks() {
        sum = mixed(sum, *mark as u64);
    }
    for start in laid.line_starts() {
        sum = mixed(sum, u64::from(*start));
    }
    for n in 0..laid.line_count() {
        if let Some(line) = laid.line(n) {
            sum = mixed(sum, of_line(&line));
        }
    }
    mixed_flag(sum, laid.line(laid.line_count()).is_none())
}

/// Returns a digest of a line and of its printed form.
pub fn of_line(line: &VisualLine<'_>) -> u64 {
    let mut sum = mixed_flag(line.len() as u64, line.is_first());
    sum = mixed(sum, u64::from(line.base()));
    for c in line.chars() {
        sum = mixed(sum, *c as u64);
    }
    for level in line.levels() {
        sum = mixed(sum, u64::from(*level));
    }
    for place in line.ltov() {
        sum = mixed(sum, u64::from(*place));
    }
    for place in line.vtol() {
        sum = mixed(sum, u64::from(*place));
    }
    sum = mixed(sum, u64::from(line.columns()));
    sum = mixed(sum, u64::from(line.padding(80)));
    sum = mixed(sum, line.columns_left(1) as u64);
    sum = mixed(sum, line.columns_at(1) as u64);
    sum = mixed_place(sum, line.covering(1));
    sum = mixed(sum, of_ranges(line));
    mixed(sum, written(line))
}

// Returns a digest of the columns that a range of a line covers, and of the line's level runs.
fn of_ranges(line: &VisualLine<'_>) -> u64 {
    let mut sum = 0;
    for span in line.spans(1, 5) {
        sum = mixed(mixed(sum, span.left as u64), span.right as u64);
    }
    for run in line.runs() {
        sum = mixed(mixed(sum, run.start as u64), run.len as u64);
        sum = mixed(sum, u64::from(run.level));
    }
    sum
}

/// The options that print everything about a line.
pub const ALL: Print = Print {
    novisual: false,
    basedir: true,
    ltov: true,
    vtol: true,
    levels: true,
    nopad: false,
    nomirror: false,
};

fn written(line: &VisualLine<'_>) -> u64 {
    let mut page = Printed::new();
    let mut writer = ToWrite::new(Writer { page: &mut page });
    let is_written = line.write(&mut writer, 80, &ALL).is_ok();
    of_bytes(&page, is_written)
}

/// Returns a digest of what was written, and of whether everything was written.
pub fn of_bytes(page: &Printed, is_written: bool) -> u64 {
    let mut sum = mixed_flag(0, is_written);
    for byte in page.bytes() {
        sum = mixed(sum, u64::from(*byte));
    }
    sum
}
