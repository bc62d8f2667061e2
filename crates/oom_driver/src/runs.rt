//! Runs texts and scripts as the command does. The output before an allocation failure must consist of
//! whole paragraphs or of whole replies to script lines.
use device::{FromRead, ToWrite};
use lines::{Engine, Print};
use oom_calls::sessions::{ALL, open};
use oom_calls::tables::{engine, let_go};
use oom_calls::{Printed, Writer, Wrong};
use session::{Kept, Session};
use std::alloc::Global;
use store::ParagraphStore;
use text_run::{RunFault, run_text};
use tool::{ScriptOptions, run_script_in};

const LINES: Print = Print {
    basedir: false,
    ltov: false,
    vtol: false,
    levels: false,
    ..ALL
};

/// Writes the lines of a text of two paragraphs, and checks the output.
pub fn try_text(alloc: Global) -> Result<(), Wrong> {
    let mut engine = engine(alloc)?;
    let answer = try_text_by(alloc, &mut engine);
    let_go(engine);
    answer
}

fn try_text_by(alloc: Global, engine: &mut Engine) -> Result<(), Wrong> {
    let mut page = Printed::new();
    if is_refused(write_text(alloc, engine, &mut page)) {
        if !page.is_one_of(&[b"", b"a\n"]) {
            return Err("written in part");
        }
        page = Printed::new();
        if write_text(alloc, engine, &mut page).is_err() {
            return Err("refused twice");
        }
    }
    if !page.is_one_of(&[b"a\nb\n"]) {
        return Err("another text");
    }
    Ok(())
}

fn is_refused(answer: Result<(), RunFault>) -> bool {
    answer == Err(RunFault::Memory)
}

fn write_text(alloc: Global, engine: &mut Engine, page: &mut Printed) -> Result<(), RunFault> {
    let mut reader = FromRead::new(b"a\nb".as_slice());
    let mut writer = ToWrite::new(Writer { page });
    run_text(alloc, &mut reader, &mut writer, engine, 80, &LINES)
}

const SCRIPT: &[u8] = b"insert 4 x\\ny\ndelete 2 4\nwidth 1\nshow\n";

// The output of the script.
const ANSWERS: &[u8] = b"@ 1 1 2\n@ 0 3 1\n@ 0 2 6\na\nb\ny\nd\ne\nf\n";

// The output before each script line that may allocate.
const UNFINISHED: [&[u8]; 3] = [b"", b"@ 1 1 2\n", b"@ 1 1 2\n@ 0 3 1\n"];

/// Executes the script.
pub fn try_script<S: ParagraphStore<Kept> + Drop>(alloc: Global) -> Result<(), Wrong> {
    let mut page = Printed::new();
    if is_refused(execute::<S>(alloc, &mut page)?) {
        if !page.is_one_of(&UNFINISHED) {
            return Err("answered in part");
        }
        page = Printed::new();
        if execute::<S>(alloc, &mut page)?.is_err() {
            return Err("refused twice");
        }
    }
    if !page.is_one_of(&[ANSWERS]) {
        return Err("other answers");
    }
    Ok(())
}

fn execute<S: ParagraphStore<Kept> + Drop>(
    alloc: Global,
    page: &mut Printed,
) -> Result<Result<(), RunFault>, Wrong> {
    let session: Session<S> = open(alloc)?;
    Ok(execute_in(alloc, session, page))
}

fn execute_in<S: ParagraphStore<Kept> + Drop>(
    alloc: Global,
    session: Session<S>,
    page: &mut Printed,
) -> Result<(), RunFault> {
    let mut session = session;
    let mut reader = FromRead::new(SCRIPT);
    let mut writer = ToWrite::new(Writer { page });
    let options = ScriptOptions {
        print: LINES,
        queries: false,
    };
    run_script_in(alloc, &mut reader, &mut writer, &mut session, &options)
}
