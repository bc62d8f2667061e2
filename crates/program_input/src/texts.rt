//! The texts that the program reads.
ghost use Rattle.std.specs.Prelude.{◌<◌};

use command_line::Settings;
use device::{FromRead, ToWrite};
use lines::Engine;
use std::fs;
use std::fs::File;
use std::io::{ErrorKind, Read, Stdout};
use text_run::{RunFault, run_text};

/// Reads all bytes of the file at `path`. Fails with `Memory` if memory runs out, and otherwise with `Read`.
pub fn read_text(rt: &HostRuntime, path: &str) -> Result<Vec<u8>, RunFault> {
    match fs::read(rt, path) {
        Ok(bytes) => Ok(bytes),
        Err(error) if error.kind() == ErrorKind::OutOfMemory => Err(RunFault::Memory),
        Err(_) => Err(RunFault::Read),
    }
}

/// Writes the output for each text, in the order of the arguments. Without files, reads standard input. Ends
/// at the first error.
pub fn write_texts(
    rt: &HostRuntime,
    output: &mut ToWrite<Stdout>,
    engine: &mut Engine,
    settings: &Settings<'_>,
) -> Result<(), RunFault>
    requires { 0 < settings.now.width }
{
    if settings.files.is_empty() {
        return write_text(rt, rt.stdin(), output, engine, settings);
    }
    for path in &settings.files {
        write_file(rt, path, output, engine, settings)?;
    }
    Ok(())
}

fn write_file(
    rt: &HostRuntime,
    path: &str,
    output: &mut ToWrite<Stdout>,
    engine: &mut Engine,
    settings: &Settings<'_>,
) -> Result<(), RunFault>
    requires { 0 < settings.now.width }
{
    match File::open(rt, path) {
        Ok(file) => write_text(rt, file, output, engine, settings),
        Err(_) => Err(RunFault::Read),
    }
}

fn write_text<R: Read + Drop>(
    rt: &HostRuntime,
    text: R,
    output: &mut ToWrite<Stdout>,
    engine: &mut Engine,
    settings: &Settings<'_>,
) -> Result<(), RunFault>
    requires { 0 < settings.now.width }
{
    let mut reader = FromRead::new(text);
    run_text(
        rt.alloc(),
        &mut reader,
        output,
        engine,
        settings.width,
        &settings.print,
    )
}
