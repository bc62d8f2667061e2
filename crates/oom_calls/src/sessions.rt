//! Calls to a session. Each call is made in its own session, which is compared with an unchanged session.
use crate::Wrong;
use crate::page::{Printed, Writer};
use crate::tables::{engine, let_go};
use device::ToWrite;
use lines::{Engine, Laid, Print, VisualLine};
use session::{Damage, Edit, EditFault, Kept, Session};
use std::alloc::Global;
use store::ParagraphStore;

/// The text with which the sessions are opened.
pub const TEXT: &str = "ab\ncd\nef";

// An edit; the first line, the old lines and the new lines of its damage; and how much the edit may add to
// the counters.
struct Row {
    edit: Edit<'static>,
    lines: [usize; 3],
    most: [u64; 2],
}

const ROWS: [Row; 3] = [
    Row {
        edit: Edit::Insert(4, "x\ny"),
        lines: [1, 1, 2],
        most: [6, 6],
    },
    Row {
        edit: Edit::Delete(2, 4),
        lines: [0, 3, 1],
        most: [4, 4],
    },
    Row {
        edit: Edit::SetWidth(1),
        lines: [0, 3, 6],
        most: [0, 8],
    },
];

/// Opens a session. After an allocation failure, tries again with the engine that was returned.
pub fn open<S: ParagraphStore<Kept> + Drop>(alloc: Global) -> Result<Session<S>, Wrong> {
    open_by(alloc, engine(alloc)?)
}

fn open_by<S: ParagraphStore<Kept> + Drop>(
    alloc: Global,
    engine: Engine,
) -> Result<Session<S>, Wrong> {
    match Session::open(alloc, engine, TEXT, 80) {
        Ok(session) => Ok(session),
        Err((engine, fault)) => open_again(alloc, engine, fault),
    }
}

fn open_again<S: ParagraphStore<Kept> + Drop>(
    alloc: Global,
    engine: Engine,
    fault: EditFault,
) -> Result<Session<S>, Wrong> {
    if let Err(wrong) = check_refusal(&engine, fault) {
        let_go(engine);
        return Err(wrong);
    }
    match Session::open(alloc, engine, TEXT, 80) {
        Ok(session) => Ok(session),
        Err((engine, _)) => {
            let_go(engine);
            Err("not opened by the engine that came back")
        }
    }
}

fn check_refusal(engine: &Engine, fault: EditFault) -> Result<(), Wrong> {
    if fault != EditFault::NoMemory {
        return Err("not opened");
    }
    if engine.analysed() > 8 || engine.filled() > 8 {
        return Err("counted more than the text");
    }
    Ok(())
}

/// Executes each edit in its own session, and checks that a failed edit changes nothing. The comparison
/// allocates nothing, and is also made before each edit.
pub fn try_calls<S: ParagraphStore<Kept> + Drop>(alloc: Global) -> Result<(), Wrong> {
    let untouched: Session<S> = open(alloc)?;
    let answer = try_edits(alloc, &untouched);
    close(untouched);
    answer
}

// Drops a session. No other function drops a session, just as only `let_go` drops an engine.
fn close<S: ParagraphStore<Kept> + Drop>(_session: Session<S>) {}

// Each function here owns at most one session, since each value that is dropped when a call fails makes the
// proof longer.
fn try_edits<S: ParagraphStore<Kept> + Drop>(
    alloc: Global,
    untouched: &Session<S>,
) -> Result<(), Wrong> {
    for row in &ROWS {
        try_edit(alloc, untouched, row)?;
    }
    Ok(())
}

fn try_edit<S: ParagraphStore<Kept> + Drop>(
    alloc: Global,
    untouched: &Session<S>,
    row: &Row,
) -> Result<(), Wrong> {
    let mut session: Session<S> = open(alloc)?;
    let answer = try_edit_in(&mut session, untouched, row);
    close(session);
    answer
}

fn try_edit_in<S: ParagraphStore<Kept>>(
    session: &mut Session<S>,
    untouched: &Session<S>,
    row: &Row,
) -> Result<(), Wrong> {
    if !is_same(session, untouched) {
        return Err("two sessions on one text differ");
    }
    let damage = make_twice(session, untouched, row)?;
    if [damage.first_line, damage.old_lines, damage.new_lines] != row.lines {
        return Err("another damage");
    }
    Ok(())
}

// Returns the damage of an edit, or fails if the edit was refused.
fn made(answer: Result<Damage, EditFault>) -> Result<Damage, Wrong> {
    match answer {
        Ok(damage) => Ok(damage),
        Err(_) => Err("refused twice"),
    }
}

// Executes an edit. After an allocation failure, checks that the session is unchanged, and tries again.
fn make_twice<S: ParagraphStore<Kept>>(
    session: &mut Session<S>,
    untouched: &Session<S>,
    row: &Row,
) -> Result<Damage, Wrong> {
    let before = [session.analysed(), session.filled()];
    let result = make(session, row.edit);
    if result == Err(EditFault::NoMemory) {
        check_unchanged(session, untouched, before, row.most)?;
        return made(make(session, row.edit));
    }
    made(result)
}

fn check_unchanged<S: ParagraphStore<Kept>>(
    session: &Session<S>,
    untouched: &Session<S>,
    before: [u64; 2],
    most: [u64; 2],
) -> Result<(), Wrong> {
    if !is_same(session, untouched) {
        return Err("changed by a refused call");
    }
    if session.analysed().saturating_sub(before[0]) > most[0]
        || session.filled().saturating_sub(before[1]) > most[1]
    {
        return Err("counted more than the change could raise");
    }
    Ok(())
}

fn make<S: ParagraphStore<Kept>>(
    session: &mut Session<S>,
    edit: Edit<'_>,
) -> Result<Damage, EditFault> {
    match edit {
        Edit::Insert(pos, text) => session.insert(pos, text),
        Edit::Delete(pos, count) => session.delete(pos, count),
        Edit::SetWidth(width) => session.set_width(width),
    }
}

// Returns whether both sessions are equal, apart from their counters.
fn is_same<S: ParagraphStore<Kept>>(left: &Session<S>, right: &Session<S>) -> bool {
    let mut same = left.char_count() == right.char_count()
        && left.paragraph_count() == right.paragraph_count()
        && left.line_count() == right.line_count()
        && left.width() == right.width();
    for index in 0..=right.paragraph_count() {
        same &= is_same_paragraph(left.paragraph(index), right.paragraph(index));
    }
    for n in 0..=right.line_count() {
        same &= is_same_line(left.line(n), right.line(n));
    }
    same && is_same_page(left, right)
}

fn is_same_paragraph(left: Option<&Laid>, right: Option<&Laid>) -> bool {
    match (left, right) {
        (Some(left), Some(right)) => is_same_laid(left, right),
        (None, None) => true,
        _ => false,
    }
}

// Returns whether two layouts are equal. `&` is used since it has fewer paths to prove than `&&`.
fn is_same_laid(left: &Laid, right: &Laid) -> bool {
    (left.text() == right.text())
        & (left.base() == right.base())
        & (left.levels() == right.levels())
        & (left.marks() == right.marks())
        & (left.line_starts() == right.line_starts())
}

fn is_same_line(left: Option<VisualLine<'_>>, right: Option<VisualLine<'_>>) -> bool {
    match (left, right) {
        (Some(left), Some(right)) => is_same_visual(&left, &right),
        (None, None) => true,
        _ => false,
    }
}

fn is_same_visual(left: &VisualLine<'_>, right: &VisualLine<'_>) -> bool {
    (left.is_first() == right.is_first())
        & (left.base() == right.base())
        & (left.chars() == right.chars())
        & (left.levels() == right.levels())
        & (left.ltov() == right.ltov())
        & (left.vtol() == right.vtol())
        & (left.columns() == right.columns())
}

/// The options that print everything about a line.
pub const ALL: Print = Print {
    novisual: false,
    basedir: true,
    ltov: true,
    vtol: true,
    levels: true,
    nopad: false,
    nomirror: false,
};

fn is_same_page<S: ParagraphStore<Kept>>(left: &Session<S>, right: &Session<S>) -> bool {
    let (mut left_page, mut right_page) = (Printed::new(), Printed::new());
    let left_result = print(left, &mut left_page);
    let right_result = print(right, &mut right_page);
    left_result && right_result && left_page.bytes() == right_page.bytes()
}

// Prints a session, and returns whether everything was written.
fn print<S: ParagraphStore<Kept>>(session: &Session<S>, page: &mut Printed) -> bool {
    session
        .print(&mut ToWrite::new(Writer { page }), &ALL)
        .is_ok()
}
