//! The command `hordguli`: shows texts for a terminal in visual order.
#![tactic(auto)]

mod direction;
mod end;
mod files;
mod reports;
mod setup;
mod watched;

use crate::end::End;
use crate::files::{Showing, show_files};
use crate::setup::{form_of, options_of, pattern_of, separated, tables_of};
use lines::Engine;
use program_input::{arguments, as_texts};
use std::alloc::{AllocError, Global};
use std::env::VarError;
use std::io::ErrorKind;
use std::process::ExitCode;
use std::{env, io};
use terminal_options::{Direction, OptionFault, Prefix, Settings, settings};

fn main(rt: HostRuntime) -> ExitCode {
    match run(&rt) {
        Ok(true) => ExitCode::SUCCESS,
        Ok(false) => ExitCode::FAILURE,
        Err(fault) => report(&rt, &fault),
    }
}

// Writes help and the version to standard output, and all other messages to standard error. Returns the exit
// status.
fn report(rt: &HostRuntime, fault: &End) -> ExitCode {
    match fault {
        End::Closed => ExitCode::SUCCESS,
        End::Reported => ExitCode::FAILURE,
        End::Options(refused) => report_refusal(rt, refused),
        _ => {
            let _ = eprintln!(rt; "{fault}");
            ExitCode::FAILURE
        }
    }
}

fn report_refusal(rt: &HostRuntime, refused: &OptionFault) -> ExitCode {
    match print_refusal(rt, refused) {
        Ok(()) => ExitCode::from(refused.status()),
        Err(_) => ExitCode::FAILURE,
    }
}

fn print_refusal(rt: &HostRuntime, refused: &OptionFault) -> io::Result<()> {
    match refused {
        OptionFault::Words(error) if refused.status() == 0 => error.print(rt),
        OptionFault::Words(_) => print_words(rt, refused),
        _ => eprintln!(rt; "{refused}"),
    }
}

// Prints why `clap` refuses the arguments. Replaces `error:`, with which the messages of `clap` begin, by
// `hordguli:`.
fn print_words(rt: &HostRuntime, refused: &OptionFault) -> io::Result<()> {
    let Ok(text) = format!(in rt.alloc(); "{refused}") else {
        return eprintln!(rt; "{}", End::Memory);
    };
    match text.strip_prefix("error: ") {
        Some(reason) => eprint!(rt; "hordguli: {reason}"),
        None => eprint!(rt; "{text}"),
    }
}

// Shows the texts. Returns whether all of them were shown without errors. This function and those that it
// calls each own only one allocated value, because every value to drop after a failed call makes the proof
// longer.
fn run(rt: &HostRuntime) -> Result<bool, End> {
    let line = arguments(rt).map_err(argument_fault)?;
    run_arguments(rt, &line)
}

// Returns the fault to report if the arguments cannot be read.
fn argument_fault(error: io::Error) -> End {
    if error.kind() == ErrorKind::OutOfMemory {
        End::Memory
    } else {
        End::Arguments
    }
}

fn run_arguments(rt: &HostRuntime, line: &[String]) -> Result<bool, End> {
    let Ok(line) = as_texts(rt.alloc(), line) else {
        return Err(End::Memory);
    };
    run_line(rt, &line)
}

fn run_line(rt: &HostRuntime, line: &[&str]) -> Result<bool, End> {
    let environment = environment(rt)?;
    run_environment(rt, &environment, line)
}

// Returns the value of `HORDGULI_OPTIONS`, which is empty if it is not set.
fn environment(rt: &HostRuntime) -> Result<String, End> {
    match env::var(rt, "HORDGULI_OPTIONS") {
        Ok(words) => Ok(words),
        Err(VarError::OutOfMemory) => Err(End::Memory),
        Err(VarError::NotPresent) => Ok(String::new(rt.alloc())),
        Err(_) => Err(End::Environment),
    }
}

fn run_environment(rt: &HostRuntime, environment: &str, line: &[&str]) -> Result<bool, End> {
    let Ok(environment) = words_of(rt.alloc(), environment) else {
        return Err(End::Memory);
    };
    run_words(rt, &environment, line)
}

fn words_of<'a>(alloc: Global, text: &'a str) -> Result<Vec<&'a str>, AllocError> {
    text.split_whitespace().collect(alloc)
}

fn run_words(rt: &HostRuntime, environment: &[&str], line: &[&str]) -> Result<bool, End> {
    let settings = settings(rt.alloc(), environment, line).map_err(End::Options)?;
    run_settings(rt, &settings)
}

fn run_settings(rt: &HostRuntime, settings: &Settings<'_>) -> Result<bool, End> {
    match settings.prefix {
        Prefix::Absent => run_form(rt, settings, terminal::Prefix::None),
        Prefix::Quotes => run_form(rt, settings, terminal::Prefix::Quotes),
        Prefix::Pattern(text) => {
            let pattern = pattern_of(rt, text)?;
            run_form(rt, settings, terminal::Prefix::Pattern(&pattern))
        }
    }
}

fn run_form(
    rt: &HostRuntime,
    settings: &Settings<'_>,
    prefix: terminal::Prefix<'_>,
) -> Result<bool, End> {
    let showing = Showing {
        form: form_of(rt, settings, prefix)?,
        by_file: settings.direction == Direction::File,
    };
    let tables = separated(rt, tables_of(rt, settings)?, settings.line_separators)?;
    let mut engine = Engine::new(tables, options_of(settings));
    show_files(rt, &mut engine, &showing, &settings.files)
}
