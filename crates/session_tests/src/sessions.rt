//! Worked examples of sessions, and long lists of edits whose results are compared with new sessions, over
//! both stores. The tests also pass if any one allocation fails: the edit then changes nothing and is
//! retried. The exception is `run`, which is not retried.
mod edges;
mod hits;
mod measured;
mod measured_random;
mod parts;
mod places;
mod random;
mod refusals;
mod rows;

use crate::files::{FILES, engine};
use device::ToWrite;
use lines::{Engine, Laid, Options, Print, VisualLine};
use session::{Damage, Edit, EditFault, Kept, Session};
use std::alloc::{AllocError, Global};
use std::io;
use std::io::Write;
use std::process::Abort;
use std::test::Fail;
use store::{ParagraphStore, TreeStore, VecStore};

// Opens a session on a text. After an allocation failure, tries again with the engine that was returned.
fn session<S: ParagraphStore<Kept> + Drop>(
    alloc: Global,
    text: &str,
    width: u16,
) -> Result<Session<S>, Fail> {
    let engine = engine(alloc, &FILES, Options::default())?;
    let opened = match Session::open(alloc, engine, text, width) {
        Err((engine, EditFault::NoMemory)) => Session::open(alloc, engine, text, width),
        opened => opened,
    };
    Ok(without_engine(opened)?)
}

// Returns the opened session, or drops the engine and returns the error.
fn without_engine<S: ParagraphStore<Kept> + Drop>(
    opened: Result<Session<S>, (Engine, EditFault)>,
) -> Result<Session<S>, EditFault> {
    match opened {
        Ok(session) => Ok(session),
        Err((engine, fault)) => {
            drop(engine);
            Err(fault)
        }
    }
}

fn make<S: ParagraphStore<Kept>>(
    edited: &mut Session<S>,
    edit: Edit<'_>,
) -> Result<Damage, EditFault> {
    match edit {
        Edit::Insert(pos, text) => edited.insert(pos, text),
        Edit::Delete(pos, count) => edited.delete(pos, count),
        Edit::SetWidth(width) => edited.set_width(width),
    }
}

// Executes an edit, and tries again after an allocation failure.
fn make_surely<S: ParagraphStore<Kept>>(
    edited: &mut Session<S>,
    edit: Edit<'_>,
) -> Result<Damage, EditFault> {
    match make(edited, edit) {
        Err(EditFault::NoMemory) => make(edited, edit),
        result => result,
    }
}

// Executes edits in order, up to the first that is refused. Tries each again after an allocation failure.
fn make_each<S: ParagraphStore<Kept>>(
    edited: &mut Session<S>,
    edits: &[Edit<'_>],
) -> Result<(), EditFault> {
    for edit in edits {
        make_surely(edited, *edit)?;
    }
    Ok(())
}

// Executes an edit, and asserts that it raises the counters by at most these numbers. Tries again after an
// allocation failure.
fn make_within<S: ParagraphStore<Kept>>(
    rt: &impl Abort,
    edited: &mut Session<S>,
    edit: Edit<'_>,
    [analysed, filled]: [u64; 2],
) -> Result<Damage, EditFault> {
    let before = (edited.analysed(), edited.filled(), edited.written());
    let result = make(edited, edit);
    assert!(rt; edited.analysed().saturating_sub(before.0) <= analysed);
    assert!(rt; edited.filled().saturating_sub(before.1) <= filled);
    assert!(rt; edited.written().saturating_sub(before.2) <= filled);
    match result {
        Err(EditFault::NoMemory) => make(edited, edit),
        result => result,
    }
}

fn same_paragraph(left: Option<&Laid>, right: Option<&Laid>) -> bool {
    match (left, right) {
        (Some(left), Some(right)) => {
            (left.text() == right.text())
                & (left.base() == right.base())
                & (left.levels() == right.levels())
                & (left.marks() == right.marks())
                & (left.line_starts() == right.line_starts())
        }
        _ => false,
    }
}

fn same_line(left: Option<VisualLine<'_>>, right: Option<VisualLine<'_>>) -> bool {
    match (left, right) {
        (Some(left), Some(right)) => {
            (left.is_first() == right.is_first())
                & (left.base() == right.base())
                & (left.chars() == right.chars())
                & (left.levels() == right.levels())
                & (left.ltov() == right.ltov())
                & (left.vtol() == right.vtol())
                & (left.columns() == right.columns())
        }
        _ => false,
    }
}

// Returns whether `count` paragraphs of two sessions, from these indices on, are equal.
fn same_paragraphs<S: ParagraphStore<Kept>, T: ParagraphStore<Kept>>(
    left: &Session<S>,
    right: &Session<T>,
    (first, second): (usize, usize),
    count: usize,
) -> bool {
    let mut all = true;
    for i in 0..count {
        all &= same_paragraph(
            left.paragraph(first.wrapping_add(i)),
            right.paragraph(second.wrapping_add(i)),
        );
    }
    all
}

// Returns whether `count` lines of two sessions, from these indices on, are equal.
fn same_lines<S: ParagraphStore<Kept>, T: ParagraphStore<Kept>>(
    left: &Session<S>,
    right: &Session<T>,
    (first, second): (usize, usize),
    count: usize,
) -> bool {
    let mut all = true;
    for n in 0..count {
        all &= same_line(
            left.line(first.wrapping_add(n)),
            right.line(second.wrapping_add(n)),
        );
    }
    all
}

// The options that print everything about a line.
const ALL: Print = Print {
    novisual: false,
    basedir: true,
    ltov: true,
    vtol: true,
    levels: true,
    nopad: false,
    nomirror: false,
};

// A writer that fills a slice, and counts the bytes written.
#[derive(Drop)]
struct Taker<'a> {
    room: &'a mut [u8],
    taken: &'a mut usize,
}

impl Write for Taker<'_> {
    fn write(&mut self, buf: &[u8]) -> io::Result<usize> {
        let len = self.room.write(buf)?;
        *self.taken = self.taken.saturating_add(len);
        Ok(len)
    }

    fn flush(&mut self) -> io::Result<()> {
        Ok(())
    }
}

// The size of the buffer for one printed text.
const PAGE: usize = 131_072;

// Allocates a buffer of `count` bytes for printed texts, and tries again after an allocation failure.
fn pages(alloc: Global, count: usize) -> Result<Vec<u8>, AllocError> {
    match vec![in alloc; 0; count] {
        Ok(bytes) => Ok(bytes),
        Err(_) => vec![in alloc; 0; count],
    }
}

// Returns what a session prints, or `None` if the buffer is too small.
fn print<'a, S: ParagraphStore<Kept>>(
    session: &Session<S>,
    room: &'a mut [u8],
    form: &Print,
) -> Option<&'a [u8]> {
    let mut taken = 0;
    let mut writer = ToWrite::new(Taker {
        room,
        taken: &mut taken,
    });
    let result = session.print(&mut writer, form);
    drop(writer);
    match result {
        Ok(()) => room.get(..taken),
        Err(_) => None,
    }
}

// Prints each session into one half of the buffer. Returns whether both outputs fit and are equal.
fn same_page<S: ParagraphStore<Kept>, T: ParagraphStore<Kept>>(
    left: &Session<S>,
    right: &Session<T>,
    room: &mut [u8],
) -> bool {
    let (front, rest) = room.split_at_mut(room.len() / 2);
    match (print(left, front, &ALL), print(right, rest, &ALL)) {
        (Some(left), Some(right)) => left == right,
        _ => false,
    }
}

// Returns whether the sessions have the same contents and print the same output.
fn same<S: ParagraphStore<Kept>, T: ParagraphStore<Kept>>(
    left: &Session<S>,
    right: &Session<T>,
    room: &mut [u8],
) -> bool {
    (left.char_count() == right.char_count())
        & (left.width() == right.width())
        & (left.paragraph_count() == right.paragraph_count())
        & (left.line_count() == right.line_count())
        & same_paragraphs(left, right, (0, 0), left.paragraph_count())
        & same_lines(left, right, (0, 0), left.line_count())
        & left.paragraph(left.paragraph_count()).is_none()
        & left.line(left.line_count()).is_none()
        & same_page(left, right, room)
}

// Replaces the whole text of a session, and sets its width.
fn renew<S: ParagraphStore<Kept>>(
    session: &mut Session<S>,
    text: &str,
    width: u16,
) -> Result<(), EditFault> {
    let count = session.char_count();
    make_each(
        session,
        &[
            Edit::Delete(0, count),
            Edit::SetWidth(width),
            Edit::Insert(0, text),
        ],
    )
}

// A session that is edited, another session, whose whole text is replaced at once, and a buffer for the
// output of both.
#[derive(Drop)]
struct Pair<S: ParagraphStore<Kept>, T: ParagraphStore<Kept>> {
    edited: Session<S>,
    anew: Session<T>,
    room: Vec<u8>,
}

impl<S: ParagraphStore<Kept> + Drop, T: ParagraphStore<Kept> + Drop> Pair<S, T> {
    fn new(alloc: Global) -> Result<Pair<S, T>, Fail> {
        Pair::beside(alloc, session(alloc, "", 20)?)
    }

    fn beside(alloc: Global, anew: Session<T>) -> Result<Pair<S, T>, Fail> {
        match session(alloc, "", 20) {
            Ok(edited) => Ok(Pair::with_room(alloc, edited, anew)?),
            Err(fail) => {
                drop(anew);
                Err(fail)
            }
        }
    }

    fn with_room(
        alloc: Global,
        edited: Session<S>,
        anew: Session<T>,
    ) -> Result<Pair<S, T>, AllocError> {
        match pages(alloc, 2 * PAGE) {
            Ok(room) => Ok(Pair { edited, anew, room }),
            Err(error) => {
                drop(edited);
                drop(anew);
                Err(error)
            }
        }
    }

    // Replaces the whole text of the other session by `text`, and returns whether both sessions are equal.
    fn is_same(&mut self, text: &str) -> Result<bool, EditFault> {
        renew(&mut self.anew, text, self.edited.width())?;
        Ok(same(&self.edited, &self.anew, &mut self.room))
    }

    // Returns whether the session equals one that is opened on `text`.
    fn is_opened(&mut self, alloc: Global, text: &str) -> Result<bool, Fail> {
        let opened: Session<T> = session(alloc, text, self.edited.width())?;
        let is_same = same(&self.edited, &opened, &mut self.room);
        drop(opened);
        Ok(is_same)
    }

    // Replaces the whole text of the other session by `text`, and asserts that both sessions are equal.
    fn check_same(&mut self, rt: &impl Abort, text: &str) -> Result<(), EditFault> {
        let is_same = self.is_same(text)?;
        assert!(rt; is_same, "{text:?}");
        Ok(())
    }

    // Runs one kind of check.
    fn check(&mut self, rt: &impl Abort, alloc: Global, what: Check) -> Result<(), Fail> {
        match what {
            Check::Rows => Ok(rows::check_rows(rt, self, &rows::ROWS)?),
            Check::Steps => Ok(rows::check_all_steps(rt, self)?),
            Check::Widths => Ok(rows::check_widths(rt, self)?),
            Check::Run => Ok(rows::check_run(rt, self, &rows::EDITS)?),
            Check::Hits => Ok(hits::check_hits(rt, self, &hits::ROWS)?),
            Check::Edges => Ok(edges::check_edges(rt, &mut self.edited)?),
            Check::Parts => Ok(parts::check_parts(rt, self)?),
            Check::Replaced => Ok(parts::check_replaced(rt, self)?),
            Check::Places => Ok(places::check_rows(rt, self, &places::ROWS)?),
            Check::Refusals => Ok(refusals::check_refused(rt, self)?),
            Check::Random(seed) => random::check_edits(rt, alloc, self, seed),
        }
    }
}

// The kinds of checks that a pair runs.
#[derive(Clone, Copy)]
enum Check {
    Rows,
    Steps,
    Widths,
    Run,
    Hits,
    Edges,
    Parts,
    Replaced,
    Places,
    Refusals,
    Random(u64),
}

// No other function makes or drops a pair, to keep proofs fast.
fn check_over<S: ParagraphStore<Kept> + Drop, T: ParagraphStore<Kept> + Drop>(
    rt: &impl Abort,
    alloc: Global,
    what: Check,
) -> Result<(), Fail> {
    let mut pair: Pair<S, T> = Pair::new(alloc)?;
    let result = pair.check(rt, alloc, what);
    drop(pair);
    result
}

// Runs a kind of check on an edited session over a tree and another session over a list.
fn check_in_tree(rt: &impl Abort, alloc: Global, what: Check) -> Result<(), Fail> {
    check_over::<TreeStore<Kept>, VecStore<Kept>>(rt, alloc, what)
}
