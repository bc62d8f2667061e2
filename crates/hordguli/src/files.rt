//! Shows the files, one after the other.
use crate::direction::set_direction;
use crate::end::End;
use crate::reports::{report, report_error};
use crate::watched::Watched;
use device::{FromRead, ToWrite};
use lines::Engine;
use std::fs::File;
use std::io;
use std::io::{ErrorKind, Read, Stdout};
use terminal::{Fault, Form, run};

/// How the files are shown.
#[derive(Clone, Copy)]
pub(crate) struct Showing<'a> {
    pub form: Form<'a>,
    /// Whether all paragraphs of a file have the direction of the whole file.
    pub by_file: bool,
}

/// Writes the lines of each file, in order, and reports errors in files. `-` is standard input, which is also
/// read if there are no files. Returns true if no error was reported.
pub(crate) fn show_files(
    rt: &HostRuntime,
    engine: &mut Engine,
    showing: &Showing<'_>,
    files: &[&str],
) -> Result<bool, End> {
    let mut stdout = Watched::new(rt.stdout());
    let mut all = true;
    if files.is_empty() {
        all = show_file(rt, engine, showing, "-", true, &mut stdout)?;
    }
    for (n, file) in files.iter().enumerate() {
        let last = n + 1 == files.len();
        let shown = show_file(rt, engine, showing, file, last, &mut stdout)?;
        all = all && shown;
    }
    Ok(all)
}

// Writes the lines of one file. Returns false after reporting an error in the file.
fn show_file(
    rt: &HostRuntime,
    engine: &mut Engine,
    showing: &Showing<'_>,
    name: &str,
    last: bool,
    stdout: &mut Watched<Stdout>,
) -> Result<bool, End> {
    if name == "-" {
        return show(
            rt,
            engine,
            showing,
            "standard input",
            last,
            rt.stdin(),
            stdout,
        );
    }
    match File::open(rt, name) {
        Ok(file) => show(rt, engine, showing, name, last, file, stdout),
        Err(error) => {
            report_error(rt, name, &error);
            Ok(false)
        }
    }
}

// Writes the lines of the text in `input`. Returns false after reporting an error in the text.
fn show<R: Read + Drop>(
    rt: &HostRuntime,
    engine: &mut Engine,
    showing: &Showing<'_>,
    name: &str,
    last: bool,
    input: R,
    stdout: &mut Watched<Stdout>,
) -> Result<bool, End> {
    let mut input = Watched::new(input);
    let result = if showing.by_file {
        run_by_file(rt, engine, &showing.form, last, &mut input, stdout)?
    } else {
        run_input(rt, engine, &showing.form, last, &mut input, stdout)
    };
    match result {
        Ok(false) => Ok(true),
        Ok(true) => {
            report(rt, name, "paragraph too long, laid out in parts");
            Ok(false)
        }
        Err(Fault::Memory) => Err(End::Memory),
        Err(Fault::Write(_)) => Err(output_end(rt, &stdout.error)),
        Err(Fault::Read) => {
            report_read(rt, name, &input.error);
            Ok(false)
        }
        Err(Fault::NotUtf8(at)) => {
            let _ = eprintln!(rt; "hordguli: {name}: not UTF-8 at byte {at}");
            Ok(false)
        }
        Err(Fault::ParagraphTooLong) => {
            report(rt, name, "paragraph too long");
            Ok(false)
        }
    }
}

fn run_input<R: Read + Drop>(
    rt: &HostRuntime,
    engine: &mut Engine,
    form: &Form<'_>,
    last: bool,
    input: R,
    stdout: &mut Watched<Stdout>,
) -> Result<bool, Fault> {
    let mut reader = FromRead::new(input);
    let mut writer = ToWrite::new(&mut *stdout);
    run(rt.alloc(), &mut reader, &mut writer, engine, form, last)
}

// Does the same as `run_input`, but first reads the start of the text to find the direction of the whole
// text, and uses this direction.
fn run_by_file<R: Read + Drop>(
    rt: &HostRuntime,
    engine: &mut Engine,
    form: &Form<'_>,
    last: bool,
    input: &mut Watched<R>,
    stdout: &mut Watched<Stdout>,
) -> Result<Result<bool, Fault>, End> {
    let start = set_direction(rt, engine, form.escapes, &mut *input)?;
    let bytes = start.bytes.as_slice();
    if start.is_whole {
        return Ok(run_input(rt, engine, form, last, bytes, stdout));
    }
    Ok(run_input(rt, engine, form, last, bytes.chain(input), stdout))
}

// Reports why a text cannot be read.
fn report_read(rt: &HostRuntime, name: &str, error: &Option<io::Error>) {
    match error {
        Some(error) => report_error(rt, name, error),
        None => report(rt, name, "cannot be read"),
    }
}

// Reports why standard output cannot be written to, unless it is a pipe whose reader is gone. Returns how the
// command ends: with `Closed` for such a pipe, and otherwise with `Reported`.
fn output_end(rt: &HostRuntime, error: &Option<io::Error>) -> End {
    match error {
        Some(error) if error.kind() == ErrorKind::BrokenPipe => return End::Closed,
        Some(error) => report_error(rt, "standard output", error),
        None => report(rt, "standard output", "cannot be written to"),
    }
    End::Reported
}
