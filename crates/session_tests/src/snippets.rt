//! The examples in the crate documentation of `device`, `lines` and `session`. `tests/docs/run` checks that
//! this file contains them.
use crate::files::{FILES, engine};
use device::{ToWrite, write_all};
use lines::{Engine, Laid, Options, PARAGRAPH_LIMIT};
use session::{Caret, EditFault, Kept, Session};
use std::alloc::Global;
use std::process::Abort;
use std::test::Fail;
use store::TreeStore;

fn write(rt: &impl Abort, room: &mut [u8]) {
    let mut sink = ToWrite::new(room); // four bytes
    assert!(rt; write_all(&mut sink, b"abc") == Ok(()));
    assert!(rt; write_all(&mut sink, b"de") == Err(1)); // one byte was written
}

#[test]
fn write_past_the_end_of_a_sink_returns_the_bytes_taken(rt: HostRuntime) {
    write(&rt, &mut [0; 4]);
}

fn lay_out(engine: &mut Engine, alloc: Global, text: Vec<char>) -> Result<Laid, Fail> {
    if text.is_empty() || text.len() > PARAGRAPH_LIMIT || engine.first_cut(&text).is_some() {
        return Err(Fail::new("no paragraph"));
    }
    match engine.lay_out(alloc, text, 8) {
        Ok(laid) => Ok(laid),
        Err((_, fault)) => Err(Fail::from(fault)),
    }
}

fn show(rt: &impl Abort, laid: &Laid) {
    assert!(rt; laid.line_starts() == [0, 4].as_slice());
    if let Some(line) = laid.line(1) {
        assert!(rt; line.levels() == [0, 1, 1, 1, 1, 0].as_slice());
        assert!(rt; line.chars() == ['(', 'ם', 'ו', 'ל', 'ש', ')'].as_slice());
    }
}

fn lay_out_text(rt: &impl Abort, alloc: Global, engine: &mut Engine) -> Result<(), Fail> {
    let text: Vec<char> = "abc (שלום)".chars().collect(alloc)?;
    let laid = lay_out(engine, alloc, text)?;
    show(rt, &laid);
    Ok(())
}

#[test]
fn hebrew_in_brackets_is_shown_reversed_on_its_own_line(rt: HostRuntime) -> Result<(), Fail> {
    let mut engine = engine(rt.alloc(), &FILES, Options::default())?;
    let result = lay_out_text(&rt, rt.alloc(), &mut engine);
    drop(engine);
    result
}

fn edit(rt: &impl Abort, session: &mut Session<TreeStore<Kept>>) -> Result<(), EditFault> {
    let damage = session.insert(4, "שלום")?; // after "abc\n"
    assert!(rt; damage.first_line == 0 && damage.old_lines == 1 && damage.new_lines == 2);
    session.set_width(2)?;
    assert!(rt; session.line_count() == 4 && session.line_start(3) == Some(6));
    let caret = Caret {
        line: 2,
        column: 1,
        level: 1,
    };
    assert!(rt; session.caret(5) == Some(caret));
    Ok(())
}

fn edit_text(rt: &impl Abort, alloc: Global) -> Result<(), Fail> {
    let engine = engine(alloc, &FILES, Options::default())?;
    let mut session = match Session::open(alloc, engine, "abc\n", 80) {
        Ok(session) => session,
        Err((engine, fault)) => {
            drop(engine);
            return Err(Fail::from(fault));
        }
    };
    let result = edit(rt, &mut session);
    drop(session);
    Ok(result?)
}

#[test]
fn damage_lines_and_carets_follow_each_edit(rt: HostRuntime) -> Result<(), Fail> {
    edit_text(&rt, rt.alloc())
}
