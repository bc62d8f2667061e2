//! Tests of edits that are refused, and of texts and widths for which no session opens.
use super::{Check, Pair, check_in_tree, make, make_each, renew, session, without_engine};
use crate::files::{FILES, engine};
use lines::{Engine, Options};
use session::{Edit, EditFault, Kept, Session};
use std::alloc::{AllocError, Global};
use std::process::Abort;
use std::test::Fail;
use store::{ParagraphStore, VecStore};

static REFUSED: [(Edit<'_>, EditFault); 7] = [
    (Edit::Delete(6, 0), EditFault::OutOfRange),
    (Edit::Delete(3, 3), EditFault::OutOfRange),
    (Edit::Delete(0, 6), EditFault::OutOfRange),
    (Edit::Delete(1, usize::MAX), EditFault::OutOfRange),
    (Edit::Delete(usize::MAX, 1), EditFault::OutOfRange),
    (Edit::Insert(6, "x"), EditFault::OutOfRange),
    (Edit::SetWidth(0), EditFault::WidthOutOfRange),
];

// Returns whether each edit is refused with the error in its row.
fn refuses<S: ParagraphStore<Kept>>(
    edited: &mut Session<S>,
    rows: &[(Edit<'_>, EditFault)],
) -> bool {
    let mut all_right = true;
    for (edit, fault) in rows {
        all_right &= make(edited, *edit) == Err(*fault);
    }
    all_right
}

// Checks that a session refuses each edit, and that it is unchanged afterwards.
pub(super) fn check_refused<S: ParagraphStore<Kept> + Drop, T: ParagraphStore<Kept> + Drop>(
    rt: &impl Abort,
    pair: &mut Pair<S, T>,
) -> Result<(), EditFault> {
    renew(&mut pair.edited, "ab\ncd", 7)?;
    let before = [pair.edited.analysed(), pair.edited.filled()];
    let are_refused = refuses(&mut pair.edited, &REFUSED);
    let after = [pair.edited.analysed(), pair.edited.filled()];
    assert!(rt; are_refused & (after == before));
    pair.check_same(rt, "ab\ncd")
}

#[test]
fn refused_edits_leave_the_session_unchanged(rt: HostRuntime) -> Result<(), Fail> {
    check_in_tree(&rt, rt.alloc(), Check::Refusals)
}

fn letters(alloc: Global, count: usize) -> Result<Vec<u8>, AllocError> {
    vec![in alloc; b'a'; count]
}

fn str_of(bytes: &[u8]) -> &str {
    std::str::from_utf8(bytes).unwrap_or("")
}

// Returns the error from opening a session on a text, or `None` if it opens.
fn fault_of(alloc: Global, text: &str, width: u16) -> Result<Option<EditFault>, Fail> {
    let engine = engine(alloc, &FILES, Options::default())?;
    let opened: Result<Session<VecStore<Kept>>, (Engine, EditFault)> = Session::open(
        alloc, engine, text, width,
    );
    Ok(without_engine(opened).err())
}

// Checks the error from opening a session on a text of `count` letters.
fn check_open(
    rt: &impl Abort,
    alloc: Global,
    count: usize,
    width: u16,
    fault: EditFault,
) -> Result<(), Fail> {
    let Ok(text) = letters(alloc, count) else {
        return Ok(());
    };
    let found = fault_of(alloc, str_of(&text), width);
    drop(text);
    let is_right = found? == Some(fault);
    assert!(rt; is_right, "{count} letters");
    Ok(())
}

#[test]
fn open_refuses_a_width_of_zero_and_text_that_is_too_long(rt: HostRuntime) -> Result<(), Fail> {
    let alloc = rt.alloc();
    check_open(&rt, alloc, 16_777_217, 0, EditFault::WidthOutOfRange)?;
    check_open(&rt, alloc, 16_777_217, 80, EditFault::TextTooLong)?;
    check_open(&rt, alloc, 16_777_216, 80, EditFault::ParagraphTooLong)?;
    check_open(&rt, alloc, 1_048_577, 80, EditFault::ParagraphTooLong)
}

// Returns whether an insert that makes a paragraph too long is refused, and a paragraph of the maximum length
// accepts no more characters.
fn is_full<S: ParagraphStore<Kept>>(
    edited: &mut Session<S>,
    long: &str,
) -> Result<bool, EditFault> {
    let edit = Edit::Insert(1, long);
    let is_refused = refuses(edited, &[(edit, EditFault::ParagraphTooLong)]);
    let is_untouched = edited.analysed() == 5;
    make_each(edited, &[Edit::Insert(0, "\n"), Edit::Delete(1, 5), edit])?;
    let is_long = edited.char_count() == 1_048_577;
    let more = [(Edit::Insert(2, "a"), EditFault::ParagraphTooLong)];
    Ok(is_refused & is_untouched & is_long & refuses(edited, &more))
}

// Returns whether `is_full` holds in a session of two short paragraphs, or `true` if an allocation fails.
fn becomes_full<S: ParagraphStore<Kept>>(
    alloc: Global,
    edited: &mut Session<S>,
) -> Result<bool, EditFault> {
    let Ok(long) = letters(alloc, 1_048_576) else {
        return Ok(true);
    };
    let result = if edited.analysed() == 5 {
        is_full(edited, str_of(&long))
    } else {
        Ok(true)
    };
    drop(long);
    result
}

#[test]
fn insert_that_makes_a_paragraph_too_long_is_refused(rt: HostRuntime) -> Result<(), Fail> {
    let mut edited: Session<VecStore<Kept>> = session(rt.alloc(), "ab\ncd", 80)?;
    let result = becomes_full(rt.alloc(), &mut edited);
    drop(edited);
    assert!(rt; result?);
    Ok(())
}
