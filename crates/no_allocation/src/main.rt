//! Calls every function that never allocates, on tables, engines, stores and sessions created beforehand.
//!
//! `no_allocation ROUNDS` makes all these calls ROUNDS times, and prints, for each group of calls, a digest
//! of the results. `tests/fault_injection/run` checks that a larger ROUNDS causes no further allocation
//! and leaves the digests unchanged.
#![tactic(auto)]

mod layouts;
mod sessions;
mod stores;
mod texts;

use oom_calls::Wrong;
use std::alloc::Global;
use std::process::ExitCode;
use std::{env, io};
use store::{TreeStore, VecStore};

fn main(rt: HostRuntime) -> ExitCode {
    match print_all(&rt, rounds(&rt)) {
        Ok(()) => ExitCode::SUCCESS,
        Err(_) => ExitCode::FAILURE,
    }
}

// Returns the number of rounds, or 0 if the argument is missing or not a number.
fn rounds(rt: &HostRuntime) -> u32 {
    let Ok(mut words) = env::args(rt) else {
        return 0;
    };
    let _ = words.next();
    match words.next() {
        Some(word) => u32::from_str_radix(word.as_str(), 10).unwrap_or(0),
        None => 0,
    }
}

const GROUPS: [&str; 6] = [
    "tables and engine",
    "layout",
    "list",
    "tree",
    "session over a list",
    "session over a tree",
];

fn print_all(rt: &HostRuntime, rounds: u32) -> io::Result<()> {
    for (number, name) in GROUPS.iter().enumerate() {
        match digest(rt.alloc(), number, rounds) {
            Ok(digest) => println!(rt; "{name}: {digest}")?,
            Err(wrong) => println!(rt; "{name}: {wrong}")?,
        }
    }
    Ok(())
}

fn digest(alloc: Global, number: usize, rounds: u32) -> Result<u64, Wrong> {
    match number {
        0 => texts::digest(alloc, rounds),
        1 => layouts::digest(alloc, rounds),
        2 => stores::digest::<VecStore<stores::Item>>(alloc, rounds),
        3 => stores::digest::<TreeStore<stores::Item>>(alloc, rounds),
        4 => sessions::digest::<VecStore<session::Kept>>(alloc, rounds),
        _ => sessions::digest::<TreeStore<session::Kept>>(alloc, rounds),
    }
}
