//! Runs an edit script on a text whose paragraphs are in a list, not in a tree as in the command. Uses the
//! test tables and 80 columns.
use device::{FromRead, ToWrite};
use lines::{Engine, Options, Print};
use oom_calls::tables::FILES;
use session::{Kept, Session};
use std::alloc::Global;
use std::fs::File;
use std::{env, fs};
use store::VecStore;
use text_run::RunFault;
use tool::{ProgramFault, open_text, run_script};
use ucd::Tables;

const UNREAD: ProgramFault = ProgramFault::Run(RunFault::Read);

/// Returns the names of the text file and the script file, or `None` if there are fewer than two arguments.
pub fn files(rt: &HostRuntime) -> Option<(String, String)> {
    let Ok(mut words) = env::args(rt) else {
        return None;
    };
    let _ = words.next();
    let Some(text) = words.next() else {
        return None;
    };
    let Some(script) = words.next() else {
        return None;
    };
    Some((text, script))
}

/// Runs the script in the file `script` on the text in the file `text`. Fails if either cannot be read.
pub fn run(rt: &HostRuntime, text: &str, script: &str) -> Result<(), ProgramFault> {
    let Ok(text) = fs::read(rt, text) else {
        return Err(UNREAD);
    };
    let Ok(script) = File::open(rt, script) else {
        return Err(UNREAD);
    };
    run_script_over(rt, &text, script)
}

fn run_script_over(rt: &HostRuntime, text: &[u8], script: File) -> Result<(), ProgramFault> {
    match open_text(rt.alloc(), engine(rt.alloc())?, text, 80) {
        Ok(session) => execute_lines(rt, script, session),
        Err(fault) => Err(ProgramFault::Run(fault)),
    }
}

fn engine(alloc: Global) -> Result<Engine, ProgramFault> {
    match Tables::read(alloc, &FILES) {
        Ok(tables) => Ok(Engine::new(tables, Options::default())),
        Err(fault) => Err(ProgramFault::Table(fault)),
    }
}

fn execute_lines(
    rt: &HostRuntime,
    script: File,
    session: Session<VecStore<Kept>>,
) -> Result<(), ProgramFault> {
    let mut reader = FromRead::new(script);
    let mut writer = ToWrite::new(rt.stdout());
    match run_script(
        rt.alloc(),
        &mut reader,
        &mut writer,
        session,
        &Print::default(),
    ) {
        Ok(()) => Ok(()),
        Err(fault) => Err(ProgramFault::Run(fault)),
    }
}
