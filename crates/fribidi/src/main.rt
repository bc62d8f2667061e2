//! The command `fribidi`: its arguments, files and streams. The crate `tool` defines what the command does
//! with them.
#![tactic(auto)]

ghost use Rattle.std.specs.Prelude.{◌<◌};

use command_line::{LineFault, Settings, settings};
use device::{FromRead, ToWrite};
use lines::Engine;
use program_input::{arguments, as_texts, installed_folder, read_text, with_folder, write_texts};
use session::{Kept, Session};
use std::alloc::{AllocError, Global};
use std::fs::File;
use std::io;
use std::io::{ErrorKind, Stdout};
use std::process::ExitCode;
use store::TreeStore;
use tables::{FolderFault, in_folder_as, installed, installed_as};
use text_run::RunFault;
use tool::{ProgramFault, ScriptOptions, open_text, run_script_in};
use ucd::{Tables, Version};

fn main(rt: HostRuntime) -> ExitCode {
    let Err(fault) = run(&rt) else {
        return ExitCode::SUCCESS;
    };
    let reported = report(&rt, &fault);
    // Failing to write help or the version is an error. If any other message cannot be written, only
    // the exit status reports the error.
    if reported.is_err() && fault.status() == 0 {
        let _ = eprintln!(&rt; "fribidi: cannot write help");
        return ExitCode::FAILURE;
    }
    ExitCode::from(fault.status())
}

// Writes help and the version to standard output, and all other messages to standard error.
fn report(rt: &HostRuntime, fault: &ProgramFault) -> io::Result<()> {
    match fault {
        ProgramFault::Line(LineFault::Words(error)) => error.print(rt),
        _ => eprintln!(rt; "{fault}"),
    }
}

fn run(rt: &HostRuntime) -> Result<(), ProgramFault> {
    let words = arguments(rt).map_err(word_fault)?;
    let Ok(words) = as_texts(rt.alloc(), &words) else {
        return Err(ProgramFault::Line(LineFault::NoMemory));
    };
    run_words(rt, &words)
}

// Runs the command with these arguments. This function and those that it calls each own only one allocated
// value, because every value to drop after a failed call makes the proof longer.
fn run_words(rt: &HostRuntime, words: &[&str]) -> Result<(), ProgramFault> {
    match settings(rt.alloc(), words) {
        Ok(settings) => run_settings(rt, &settings),
        Err(fault) if fault.lacks_folder() => run_installed(rt, words, fault),
        Err(fault) => Err(ProgramFault::Line(fault)),
    }
}

// Runs the command with arguments that lack `--ucd`, using the installed folder of tables if there is one.
fn run_installed(rt: &HostRuntime, words: &[&str], fault: LineFault) -> Result<(), ProgramFault> {
    match installed_folder(rt, "../share/hordguli/ucd", Version::V15_0) {
        Ok(Some(folder)) => run_over(rt, folder.as_str(), words, fault),
        Ok(None) => Err(ProgramFault::Line(fault)),
        Err(AllocError) => Err(ProgramFault::Run(RunFault::Memory)),
    }
}

fn run_over(
    rt: &HostRuntime,
    folder: &str,
    words: &[&str],
    fault: LineFault,
) -> Result<(), ProgramFault> {
    let Ok(words) = with_folder(rt.alloc(), folder, words) else {
        return Err(ProgramFault::Line(LineFault::NoMemory));
    };
    let settings = settings(rt.alloc(), &words).map_err(ProgramFault::Line)?;
    let tables = match settings.unicode {
        Version::V15_0 => installed(rt, folder).map_err(table_fault)?,
        Version::V17_0 => installed_17(rt, fault)?,
    };
    run_tables(rt, tables, &settings)
}

// Reads the installed tables of Unicode 17.0. If there are none, fails with `fault`, since the arguments name
// no folder.
fn installed_17(rt: &HostRuntime, fault: LineFault) -> Result<Tables, ProgramFault> {
    match installed_folder(rt, "../share/hordguli/ucd-17.0", Version::V17_0) {
        Ok(Some(folder)) => {
            installed_as(rt, Version::V17_0, folder.as_str()).map_err(table_fault)
        }
        Ok(None) => Err(ProgramFault::Line(fault)),
        Err(AllocError) => Err(ProgramFault::Run(RunFault::Memory)),
    }
}

// Runs the command with arguments that name the folder of the table files with `--ucd`.
fn run_settings(rt: &HostRuntime, settings: &Settings<'_>) -> Result<(), ProgramFault>
    requires { 0 < settings.now.width }
{
    let tables = in_folder_as(rt, settings.unicode, settings.ucd).map_err(table_fault)?;
    run_tables(rt, tables, settings)
}

fn run_tables(rt: &HostRuntime, tables: Tables, settings: &Settings<'_>) -> Result<(), ProgramFault>
    requires { 0 < settings.now.width }
{
    let tables = separated(rt, tables, settings.line_separators)?;
    let mut engine = Engine::new(tables, settings.options);
    let mut output = ToWrite::new(rt.stdout());
    match settings.script {
        Some(script) => execute(rt, script, &mut output, engine, settings),
        None => write_texts(rt, &mut output, &mut engine, settings).map_err(ProgramFault::Run),
    }
}

// If `line_separators` is true, returns tables in which only LF, CR and CRLF end paragraphs. Otherwise,
// returns `tables`.
fn separated(
    rt: &HostRuntime,
    tables: Tables,
    line_separators: bool,
) -> Result<Tables, ProgramFault> {
    if !line_separators {
        return Ok(tables);
    }
    match tables.with_line_separators(rt.alloc()) {
        Ok(separated) => Ok(separated),
        Err(_) => Err(ProgramFault::Run(RunFault::Memory)),
    }
}

// Returns the fault to report if the arguments cannot be read: one of them is not UTF-8, or memory ran out.
fn word_fault(error: io::Error) -> ProgramFault {
    if error.kind() == ErrorKind::OutOfMemory {
        ProgramFault::Line(LineFault::NoMemory)
    } else {
        ProgramFault::Run(RunFault::Read)
    }
}

fn table_fault(fault: FolderFault) -> ProgramFault {
    match fault {
        FolderFault::Unread(name) => ProgramFault::TableFile(name),
        FolderFault::Table(fault) => ProgramFault::Table(fault),
        FolderFault::Image(fault) => ProgramFault::TableImage(fault),
        FolderFault::Memory => ProgramFault::Run(RunFault::Memory),
    }
}

// Reads the text that a script edits, and then runs the script on that text.
fn execute(
    rt: &HostRuntime,
    script: &str,
    output: &mut ToWrite<Stdout>,
    engine: Engine,
    settings: &Settings<'_>,
) -> Result<(), ProgramFault>
    requires { 0 < settings.now.width }
{
    let Some(path) = settings.files.first() else {
        return Err(ProgramFault::Line(LineFault::ScriptFiles));
    };
    let text = read_text(rt, path).map_err(ProgramFault::Run)?;
    execute_over(rt, &text, script, output, engine, settings)
}

fn execute_over(
    rt: &HostRuntime,
    text: &[u8],
    script: &str,
    output: &mut ToWrite<Stdout>,
    engine: Engine,
    settings: &Settings<'_>,
) -> Result<(), ProgramFault>
    requires { 0 < settings.now.width }
{
    match open_text(rt.alloc(), engine, text, settings.width) {
        Ok(session) => execute_file(rt, script, output, session, &script_options(settings)),
        Err(fault) => Err(ProgramFault::Run(fault)),
    }
}

fn execute_file(
    rt: &HostRuntime,
    script: &str,
    output: &mut ToWrite<Stdout>,
    session: Session<TreeStore<Kept>>,
    options: &ScriptOptions,
) -> Result<(), ProgramFault> {
    match File::open(rt, script) {
        Ok(script) => execute_lines(rt.alloc(), script, output, session, options),
        Err(_) => Err(ProgramFault::Run(RunFault::Read)),
    }
}

fn execute_lines(
    alloc: Global,
    script: File,
    output: &mut ToWrite<Stdout>,
    session: Session<TreeStore<Kept>>,
    options: &ScriptOptions,
) -> Result<(), ProgramFault> {
    let mut session = session;
    let mut reader = FromRead::new(script);
    run_script_in(alloc, &mut reader, output, &mut session, options).map_err(ProgramFault::Run)
}

// Returns the script options that the settings specify.
fn script_options(settings: &Settings<'_>) -> ScriptOptions {
    ScriptOptions {
        print: settings.print,
        queries: settings.queries,
    }
}
