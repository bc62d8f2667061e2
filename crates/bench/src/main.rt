//! Measures parts of the library on their own, for the scripts in `bench/`. Times are in nanoseconds. UCD is
//! the folder that has the table files. KIND says how paragraphs are stored: `list` or `tree`.
//!
//! - `bench edits KIND PARAGRAPHS EDITS` makes EDITS edits in a session on PARAGRAPHS paragraphs, and prints
//!   the session's counts.
//! - `bench session UCD KIND PARAGRAPHS EDITS` measures the time to open a session on PARAGRAPHS paragraphs,
//!   and the average time of EDITS edits.
//! - `bench calls UCD FILE INSERTS` measures the times to open a session on the text of FILE, to make INSERTS
//!   inserts, and to read the text line by line.
//! - `bench width UCD KIND FILE` measures the times to lay out and to fill the paragraphs of FILE, and to
//!   change the width of a session on FILE.
//! - `bench levels UCD CHARACTERS` measures the time to find the levels of a paragraph of CHARACTERS
//!   characters, for many kinds of text.
//! - `bench layouts UCD CHARACTERS` measures the time to lay out each of these paragraphs.
//! - `bench marks UCD CHARACTERS` measures the time to find the break marks of such a paragraph, for several
//!   kinds of text.
//! - `bench fill UCD CHARACTERS` measures the times to lay out such a paragraph and to fill it again, for
//!   several kinds of text and several widths.
//! - `bench store KIND PARAGRAPHS TIMES` measures the time to make a store of PARAGRAPHS paragraphs, and the
//!   average times of TIMES replacements and TIMES searches.
#![tactic(auto)]

mod calls;
mod edits;
mod fill;
mod levels;
mod marks;
mod numbers;
mod paragraphs;
mod rows;
mod sessions;
mod stores;

use anyhow::{Result, bail};
use edits::StoreKind;
use std::env;

fn main(rt: HostRuntime) -> Result<()> {
    let words: Vec<String> = env::args(&rt)?.collect(rt.alloc())?;
    run(&rt, &words)
}

#[derive(Clone, Copy)]
enum Subject {
    Edits,
    Session,
    Calls,
    Width,
    Levels,
    Layouts,
    Marks,
    Fill,
    Store,
}

const SUBJECTS: [(&str, Subject); 9] = [
    ("edits", Subject::Edits),
    ("session", Subject::Session),
    ("calls", Subject::Calls),
    ("width", Subject::Width),
    ("levels", Subject::Levels),
    ("layouts", Subject::Layouts),
    ("marks", Subject::Marks),
    ("fill", Subject::Fill),
    ("store", Subject::Store),
];

// Runs the named measurement. Functions with many calls that may fail own few values here, since each value
// that is dropped after a failure makes the proof longer. Names are looked up in a table, since a `match` on
// a name would have a path for each byte of the name.
fn run(rt: &HostRuntime, words: &[String]) -> Result<()> {
    let name = word(words, 1);
    for (known, subject) in &SUBJECTS {
        if name == *known {
            return run_subject(rt, *subject, words);
        }
    }
    bail!("that can't be measured")
}

fn run_subject(rt: &HostRuntime, subject: Subject, words: &[String]) -> Result<()> {
    match subject {
        Subject::Edits => edits::run(rt, kind(words, 2)?, number(words, 3), number(words, 4)),
        Subject::Store => stores::run(rt, kind(words, 2)?, number(words, 3), number(words, 4)),
        _ => run_on_tables(rt, subject, folder(words)?, words),
    }
}

fn run_on_tables(rt: &HostRuntime, subject: Subject, folder: &str, words: &[String]) -> Result<()> {
    match subject {
        Subject::Session => {
            sessions::run(
                rt,
                folder,
                kind(words, 3)?,
                number(words, 4),
                number(words, 5),
            )
        }
        Subject::Calls => calls::run(rt, folder, word(words, 3), number(words, 4)),
        Subject::Width => sessions::set_width(rt, folder, kind(words, 3)?, word(words, 4)),
        Subject::Levels => levels::run(rt, folder, number(words, 3)),
        Subject::Layouts => levels::lay_out_each(rt, folder, number(words, 3)),
        Subject::Marks => marks::run(rt, folder, number(words, 3)),
        _ => fill::run(rt, folder, number(words, 3)),
    }
}

// Returns an argument, or an empty string if it is missing. Argument 0 is the program's name.
fn word(words: &[String], place: usize) -> &str {
    match words.get(place) {
        Some(word) => word.as_str(),
        None => "",
    }
}

fn folder(words: &[String]) -> Result<&str> {
    let folder = word(words, 2);
    if folder.is_empty() {
        bail!("where are the table files?");
    }
    Ok(folder)
}

fn kind(words: &[String], place: usize) -> Result<StoreKind> {
    let kind = word(words, place);
    if kind == "list" {
        return Ok(StoreKind::List);
    }
    if kind == "tree" {
        return Ok(StoreKind::Tree);
    }
    bail!("a list or a tree?")
}

// Returns an argument as a number, or 0 if it is missing or not a number.
fn number(words: &[String], place: usize) -> usize {
    match word(words, place).parse() {
        Ok(number) => number,
        Err(_) => 0,
    }
}
