//! Measures how long calls to a session on the text of a file take, for comparison with the same calls
//! through C (`tests/c/speed.c`).
use crate::edits::{close, open};
use crate::numbers::Numbers;
use crate::paragraphs::{engine, let_go};
use crate::rows::{show_numbers, since};
use anyhow::Result;
use lines::Engine;
use session::{Kept, Session};
use std::fs;
use std::time::Instant;
use store::TreeStore;

/// Prints three times in nanoseconds: to open a session on the text, to insert a letter `inserts` times at
/// pseudorandom positions, and to read the starts, characters and levels of all lines. Also prints the sum of
/// these starts, characters and levels.
pub fn run(rt: &HostRuntime, folder: &str, file: &str, inserts: usize) -> Result<()> {
    let text = fs::read_to_string(rt, file)?;
    measure(rt, folder, text.as_str(), inserts)
}

fn measure(rt: &HostRuntime, folder: &str, text: &str, inserts: usize) -> Result<()> {
    let engine = engine(rt, folder)?;
    measure_on(rt, engine, text, inserts)
}

fn measure_on(rt: &HostRuntime, engine: Engine, text: &str, inserts: usize) -> Result<()> {
    let start = match Instant::now(rt) {
        Ok(start) => start,
        Err(error) => {
            let_go(engine);
            return Err(error.into());
        }
    };
    let mut session: Session<TreeStore<Kept>> = open(rt.alloc(), engine, text)?;
    let answer = measure_calls(rt, &mut session, start, inserts);
    close(session);
    answer
}

// Measures the calls to a session that has just been opened. `start` is when opening it began.
fn measure_calls(
    rt: &HostRuntime,
    session: &mut Session<TreeStore<Kept>>,
    start: Instant,
    inserts: usize,
) -> Result<()> {
    let opening = since(rt, start)?;
    let start = Instant::now(rt)?;
    make_inserts(session, inserts);
    let inserting = since(rt, start)?;
    let start = Instant::now(rt)?;
    let sum = sum_of_lines(session);
    let walking = since(rt, start)?;
    show_numbers(rt, &[opening, inserting, walking, sum])
}

fn make_inserts(session: &mut Session<TreeStore<Kept>>, inserts: usize) {
    let mut numbers = Numbers::new();
    for _ in 0..inserts {
        let pos = (numbers.next() >> 33) as usize % session.char_count().max(1);
        let _ = session.insert(pos, "a");
    }
}

fn sum_of_lines(session: &Session<TreeStore<Kept>>) -> u64 {
    let mut sum: u64 = 0;
    for n in 0..session.line_count() {
        sum = sum.wrapping_add(sum_of_line(session, n));
    }
    sum
}

fn sum_of_line(session: &Session<TreeStore<Kept>>, n: usize) -> u64 {
    let start = session.line_start(n).unwrap_or(0) as u64;
    match session.line(n) {
        Some(line) => start
            .wrapping_add(sum_of_chars(line.chars()))
            .wrapping_add(sum_of_levels(line.levels())),
        None => 0,
    }
}

fn sum_of_chars(chars: &[char]) -> u64 {
    let mut sum: u64 = 0;
    for c in chars {
        sum = sum.wrapping_add(*c as u64);
    }
    sum
}

fn sum_of_levels(levels: &[u8]) -> u64 {
    let mut sum: u64 = 0;
    for level in levels {
        sum = sum.wrapping_add(*level as u64);
    }
    sum
}
