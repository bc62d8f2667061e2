//! Tests of printing some lines, reading the characters of a range, and replacing a range.
use super::{Check, Pair, Taker, check_in_tree, renew};
use device::ToWrite;
use lines::Print;
use session::{EditFault, Kept, RangeFault, Session};
use std::process::Abort;
use std::test::Fail;
use store::ParagraphStore;

const TEXT: &str = "abc def\n\u{5d0}\u{5d1}\nx";

// The options that print visual lines, and the base direction after the first line of each paragraph.
const SHOWN: Print = Print {
    novisual: false,
    basedir: true,
    ltov: false,
    vtol: false,
    levels: false,
    nopad: false,
    nomirror: false,
};

// The first line and the number of lines; the output for these lines, if they exist.
type Lines<'a> = (usize, usize, Option<&'a str>);

pub(super) static LINES: [Lines<'_>; 8] = [
    (0, 0, Some("")),
    (0, 1, Some("abc\nLTR\n")),
    (1, 1, Some("def\n")),
    (1, 2, Some("def\n  \u{5d1}\u{5d0}\nRTL\n")),
    (0, 4, Some("abc\nLTR\ndef\n  \u{5d1}\u{5d0}\nRTL\nx\nLTR\n")),
    (4, 0, Some("")),
    (3, 2, None),
    (5, 0, None),
];

// Prints `count` lines from `first` on into `room`. Returns the bytes, `None` if the range is past the end,
// or `fault` if a write fails.
fn print_lines<'a, S: ParagraphStore<Kept>>(
    session: &Session<S>,
    room: &'a mut [u8],
    first: usize,
    count: usize,
) -> Option<&'a [u8]> {
    let mut taken = 0;
    let mut writer = ToWrite::new(Taker {
        room,
        taken: &mut taken,
    });
    let result = session.print_lines(&mut writer, first, count, &SHOWN);
    drop(writer);
    match result {
        Ok(()) => room.get(..taken),
        Err(RangeFault::OutOfRange) => None,
        Err(RangeFault::Write(_)) => Some(b"fault"),
    }
}

fn are_lines<S: ParagraphStore<Kept>>(
    session: &Session<S>,
    room: &mut [u8],
    row: &Lines<'_>,
) -> bool {
    let (first, count, wanted) = *row;
    match (print_lines(session, room, first, count), wanted) {
        (Some(bytes), Some(wanted)) => bytes == wanted.as_bytes(),
        (None, None) => true,
        _ => false,
    }
}

// A position and a count; the characters of this range, up to the end of the paragraph that contains the
// position, if the range exists.
type Part<'a> = (usize, usize, Option<&'a [char]>);

pub(super) static PARTS: [Part<'_>; 7] = [
    (0, 3, Some(&['a', 'b', 'c'])),
    (5, 6, Some(&['e', 'f', '\n'])),
    (8, 2, Some(&['\u{5d0}', '\u{5d1}'])),
    (11, 1, Some(&['x'])),
    (12, 0, Some(&[])),
    (11, 2, None),
    (13, 0, None),
];

fn is_part<S: ParagraphStore<Kept>>(session: &Session<S>, row: &Part<'_>) -> bool {
    let (pos, count, wanted) = *row;
    session.text(pos, count) == wanted
}

// A replacement in the lines `ab`, `cd` and `ef`: a position, a count and the new text; the first line, the
// old lines and the new lines of the damage, or why the edit is refused; and the text after the edit.
type Replaced<'a> = (
    usize,
    usize,
    &'a str,
    Result<[usize; 3], EditFault>,
    &'a str,
);

pub(super) static REPLACED: [Replaced<'_>; 5] = [
    (1, 3, "x\ny", Ok([0, 2, 2]), "ax\nyd\nef"),
    (4, 0, "", Ok([1, 1, 1]), "ab\ncd\nef"),
    (4, 1, "\u{5d0}", Ok([1, 1, 1]), "ab\nc\u{5d0}\nef"),
    (0, 8, "", Ok([0, 3, 0]), ""),
    (7, 2, "x", Err(EditFault::OutOfRange), "ab\ncd\nef"),
];

// Replaces characters, and tries again after an allocation failure.
fn replace_surely<S: ParagraphStore<Kept>>(
    session: &mut Session<S>,
    pos: usize,
    count: usize,
    piece: &str,
) -> Result<[usize; 3], EditFault> {
    let result = match session.replace(pos, count, piece) {
        Err(EditFault::NoMemory) => session.replace(pos, count, piece),
        result => result,
    };
    match result {
        Ok(damage) => Ok([damage.first_line, damage.old_lines, damage.new_lines]),
        Err(fault) => Err(fault),
    }
}

fn is_replaced<S: ParagraphStore<Kept> + Drop, T: ParagraphStore<Kept> + Drop>(
    pair: &mut Pair<S, T>,
    row: &Replaced<'_>,
) -> Result<bool, EditFault> {
    let (pos, count, piece, wanted, after) = *row;
    renew(&mut pair.edited, "ab\ncd\nef", 80)?;
    let answer = replace_surely(&mut pair.edited, pos, count, piece);
    Ok((answer == wanted) & pair.is_same(after)?)
}

// Checks each example.
pub(super) fn check_replaced<S: ParagraphStore<Kept> + Drop, T: ParagraphStore<Kept> + Drop>(
    rt: &impl Abort,
    pair: &mut Pair<S, T>,
) -> Result<(), EditFault> {
    for row in &REPLACED {
        let is_right = is_replaced(pair, row)?;
        assert!(rt; is_right, "{} {} {:?}", row.0, row.1, row.2);
    }
    Ok(())
}

// Checks each example over both stores.
pub(super) fn check_parts<S: ParagraphStore<Kept> + Drop, T: ParagraphStore<Kept> + Drop>(
    rt: &impl Abort,
    pair: &mut Pair<S, T>,
) -> Result<(), EditFault> {
    renew(&mut pair.edited, TEXT, 4)?;
    renew(&mut pair.anew, TEXT, 4)?;
    for row in &LINES {
        let is_right = are_lines(&pair.edited, &mut pair.room, row)
            & are_lines(&pair.anew, &mut pair.room, row);
        assert!(rt; is_right, "{} {}", row.0, row.1);
    }
    for row in &PARTS {
        let is_right = is_part(&pair.edited, row) & is_part(&pair.anew, row);
        assert!(rt; is_right, "{} {}", row.0, row.1);
    }
    Ok(())
}

#[test]
fn ranges_give_their_lines_and_text_if_they_exist(rt: HostRuntime) -> Result<(), Fail> {
    check_in_tree(&rt, rt.alloc(), Check::Parts)
}

#[test]
fn replace_changes_a_range_and_returns_its_damage(rt: HostRuntime) -> Result<(), Fail> {
    check_in_tree(&rt, rt.alloc(), Check::Replaced)
}
