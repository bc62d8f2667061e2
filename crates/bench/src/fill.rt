//! Measures the times to lay out one paragraph and to fill it again, for several kinds of text and several
//! widths.
ghost use Rattle.std.specs.Prelude.{◌<◌, IfOk};
ghost use Rattle.lines.specs.Engine.{rules_of, SameRules};
ghost use Rattle.lines.specs.Layouts.{IsLaidOut};

use crate::paragraphs::{RUNS, engine, let_go, text_of};
use crate::rows::{show, since};
use anyhow::{Result, bail};
use lines::{Engine, Laid, PARAGRAPH_LIMIT};
use std::time::Instant;

// A case: a name, a width in columns, and the words of which its paragraph consists, in pseudorandom order.
struct Case {
    name: &'static str,
    words: &'static [&'static str],
    width: u16,
}

const LETTERS: &[&str] = &["a"];

const ENGLISH: &[&str] = &[
    "The ", "quick ", "brown ", "fox ", "jumps ", "over ", "the ", "lazy ", "dogs. ",
];

const CASES: [Case; 12] = [
    Case {
        name: "letters",
        words: LETTERS,
        width: 80,
    },
    Case {
        name: "letters",
        words: LETTERS,
        width: 1,
    },
    Case {
        name: "letters",
        words: LETTERS,
        width: 65_535,
    },
    Case {
        name: "words",
        words: ENGLISH,
        width: 80,
    },
    Case {
        name: "words",
        words: ENGLISH,
        width: 1,
    },
    Case {
        name: "words",
        words: ENGLISH,
        width: 65_535,
    },
    Case {
        name: "spaces",
        words: &[" "],
        width: 80,
    },
    Case {
        name: "spaces",
        words: &[" "],
        width: 1,
    },
    Case {
        name: "combining marks",
        words: &["\u{300}"],
        width: 80,
    },
    Case {
        name: "combining marks",
        words: &["\u{300}"],
        width: 1,
    },
    Case {
        name: "zero-width spaces",
        words: &["\u{200B}"],
        width: 1,
    },
    Case {
        name: "ideographs",
        words: &["\u{4E00}"],
        width: 1,
    },
];

/// Prints a line for each case, with a paragraph of `characters` characters. The line has the minimum times
/// in nanoseconds to lay out the paragraph and to fill it again, the number of lines, the width and the name.
pub fn run(rt: &HostRuntime, folder: &str, characters: usize) -> Result<()> {
    let mut engine = engine(rt, folder)?;
    let answer = show_cases(rt, &mut engine, &CASES, characters);
    let_go(engine);
    answer
}

fn show_cases(
    rt: &HostRuntime,
    engine: &mut Engine,
    cases: &[Case],
    characters: usize,
) -> Result<()> {
    for case in cases {
        show_case(rt, engine, case, characters)?;
    }
    Ok(())
}

fn show_case(rt: &HostRuntime, engine: &mut Engine, case: &Case, characters: usize) -> Result<()> {
    let (time, laid) = lay_out(rt, engine, case.words, case.width, characters)?;
    show_filled(rt, engine, case, time, &laid)
}

fn show_filled(
    rt: &HostRuntime,
    engine: &mut Engine,
    case: &Case,
    time: u64,
    laid: &Laid,
) -> Result<()>
    requires { IsLaidOut (rules_of engine.old) laid.now }
{
    let again = refill(rt, engine, laid, case.width)?;
    let numbers = [time, again, laid.line_count() as u64, u64::from(case.width)];
    show(rt, &numbers, case.name)
}

/// Lays out a paragraph that consists of `words` in pseudorandom order and has `characters` characters.
/// Returns the minimum time of several runs in nanoseconds, and the layout.
pub fn lay_out(
    rt: &HostRuntime,
    engine: &mut Engine,
    words: &[&str],
    width: u16,
    characters: usize,
) -> Result<(u64, Laid)>
    ensures { IfOk result (λ r. IsLaidOut (rules_of engine.new) r.1) }
{
    let mut least = u64::MAX;
    for _ in 1..RUNS {
        let (time, _) = lay_out_once(rt, engine, words, width, characters)?;
        least = least.min(time);
    }
    let (time, laid) = lay_out_once(rt, engine, words, width, characters)?;
    Ok((least.min(time), laid))
}

fn lay_out_once(
    rt: &HostRuntime,
    engine: &mut Engine,
    words: &[&str],
    width: u16,
    characters: usize,
) -> Result<(u64, Laid)>
    ensures { IfOk result (λ r. IsLaidOut (rules_of engine.new) r.1) }
{
    let text = text_of(rt.alloc(), words, characters)?;
    lay_out_text(rt, engine, text, width)
}

fn lay_out_text(
    rt: &HostRuntime,
    engine: &mut Engine,
    text: Vec<char>,
    width: u16,
) -> Result<(u64, Laid)>
    ensures { IfOk result (λ r. IsLaidOut (rules_of engine.new) r.1) }
{
    let is_long = text.len() > PARAGRAPH_LIMIT;
    if text.is_empty() || is_long || width == 0 || engine.first_cut(&text).is_some() {
        bail!("that is no paragraph");
    }
    let start = Instant::now(rt)?;
    let Ok(laid) = engine.lay_out(rt.alloc(), text, u32::from(width)) else {
        bail!("out of memory");
    };
    Ok((since(rt, start)?, laid))
}

// Fills a paragraph again. Returns the minimum time of several runs in nanoseconds.
fn refill(rt: &HostRuntime, engine: &mut Engine, laid: &Laid, width: u16) -> Result<u64>
    requires { IsLaidOut (rules_of engine.old) laid.now }
{
    let mut least = u64::MAX;
    if width == 0 {
        bail!("a width of 0");
    }
    for _ in 0..RUNS {
        least = least.min(time_to_refill(rt, engine, laid, width)?);
    }
    Ok(least)
}

fn time_to_refill(rt: &HostRuntime, engine: &mut Engine, laid: &Laid, width: u16) -> Result<u64>
    requires laid { IsLaidOut (rules_of engine.old) laid.now }
    requires width { 0 < width }
    ensures { SameRules engine.old engine.new }
{
    let start = Instant::now(rt)?;
    let _ = engine.refill(rt.alloc(), laid, u32::from(width))?;
    since(rt, start)
}
