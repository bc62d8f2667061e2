//! Tests the libraries under allocation failures, and runs edit scripts on a list of paragraphs.
//!
//! `oom_driver` makes every library call that can run out of memory, and prints the result of each. A failed
//! call must change nothing, or return the values passed to it. The call is then repeated, so the output is
//! the same whichever single allocation fails. `tests/fault_injection/run` makes each allocation fail in
//! turn.
//!
//! `oom_driver TEXT SCRIPT` runs an edit script on a text whose paragraphs are kept in a list.
//! `tests/cli/run` uses it to test scripts with both stores.
#![tactic(auto)]

mod list_script;
mod runs;

use oom_calls::{Wrong, paragraphs, sessions, stores, tables};
use session::Kept;
use std::alloc::Global;
use std::io;
use std::process::ExitCode;
use store::{ParagraphStore, TreeStore, VecStore};

// If a result is wrong, the output differs but the exit status does not. Any other failure, such as a failed
// write of a line, may end the program with another status.
fn main(rt: HostRuntime) -> ExitCode {
    if let Some((text, script)) = list_script::files(&rt) {
        return execute(&rt, &text, &script);
    }
    match print_all(&rt) {
        Ok(()) => ExitCode::SUCCESS,
        Err(_) => ExitCode::FAILURE,
    }
}

fn execute(rt: &HostRuntime, text: &str, script: &str) -> ExitCode {
    let Err(fault) = list_script::run(rt, text, script) else {
        return ExitCode::SUCCESS;
    };
    let _ = eprintln!(rt; "{fault}");
    ExitCode::from(fault.status())
}

// The groups of calls that are made.
#[derive(Clone, Copy)]
enum Trial {
    Tables,
    Paragraph,
    List,
    Tree,
    ListSession,
    TreeSession,
    Text,
    ListScript,
    TreeScript,
}

const TRIALS: [(&str, Trial); 9] = [
    ("the tables", Trial::Tables),
    ("a paragraph", Trial::Paragraph),
    ("a list", Trial::List),
    ("a tree", Trial::Tree),
    ("a session over a list", Trial::ListSession),
    ("a session over a tree", Trial::TreeSession),
    ("a text", Trial::Text),
    ("a script over a list", Trial::ListScript),
    ("a script over a tree", Trial::TreeScript),
];

fn print_all(rt: &HostRuntime) -> io::Result<()> {
    for (subject, trial) in &TRIALS {
        print(rt, *subject, answer(rt.alloc(), *trial))?;
    }
    Ok(())
}

fn answer(alloc: Global, trial: Trial) -> Result<(), Wrong> {
    match trial {
        Trial::Tables => tables::try_read(alloc),
        Trial::Paragraph => paragraphs::try_calls(alloc),
        Trial::List => stores::try_replace(&mut VecStore::new(alloc), alloc),
        Trial::Tree => stores::try_replace(&mut TreeStore::new(alloc), alloc),
        Trial::ListSession => sessions::try_calls::<VecStore<Kept>>(alloc),
        Trial::TreeSession => sessions::try_calls::<TreeStore<Kept>>(alloc),
        Trial::Text => runs::try_text(alloc),
        Trial::ListScript => runs::try_script::<VecStore<Kept>>(alloc),
        Trial::TreeScript => runs::try_script::<TreeStore<Kept>>(alloc),
    }
}

fn print(rt: &HostRuntime, subject: &str, answer: Result<(), Wrong>) -> io::Result<()> {
    let words = match answer {
        Ok(()) => "as it should be",
        Err(wrong) => wrong,
    };
    println!(rt; "{subject}: {words}")
}
