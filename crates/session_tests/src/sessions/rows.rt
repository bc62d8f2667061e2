//! Worked examples of edits, one by one and in sequence.
use super::{Check, Pair, check_in_tree, make_surely, make_within, print, renew};
use lines::Print;
use session::{Damage, Edit, EditFault, Kept, Session};
use std::process::Abort;
use std::test::Fail;
use store::ParagraphStore;

// A text, its width, an edit, its damage, by how much it may raise the counters, and the text after it.
type Row<'a> = (&'a str, u16, Edit<'a>, [usize; 6], [u64; 2], &'a str);

// Returns whether an edit returns the expected result and changes the text to the expected text.
fn is_row<S: ParagraphStore<Kept> + Drop, T: ParagraphStore<Kept> + Drop>(
    rt: &impl Abort,
    pair: &mut Pair<S, T>,
    row: &Row<'_>,
) -> Result<bool, EditFault> {
    let (text, width, edit, numbers, most, after) = *row;
    renew(&mut pair.edited, text, width)?;
    let damage = make_within(rt, &mut pair.edited, edit, most)?;
    Ok(are_numbers(damage, numbers) & pair.is_same(after)?)
}

fn are_numbers(damage: Damage, numbers: [usize; 6]) -> bool {
    numbers
        == [
            damage.first_line,
            damage.old_lines,
            damage.new_lines,
            damage.first_par,
            damage.old_pars,
            damage.new_pars,
        ]
}

const HEBREW: &str = "\u{5d0}\nab";

pub(super) static ROWS: [Row<'_>; 20] = [
    (
        "a\r",
        80,
        Edit::Insert(2, "\n"),
        [0, 1, 1, 0, 1, 1],
        [3, 3],
        "a\r\n",
    ),
    (
        "a\n",
        80,
        Edit::Insert(1, "\r"),
        [0, 1, 1, 0, 1, 1],
        [3, 3],
        "a\r\n",
    ),
    (
        "a\r\nb",
        80,
        Edit::Insert(2, "x"),
        [0, 1, 2, 0, 1, 2],
        [4, 4],
        "a\rx\nb",
    ),
    (
        "ab\ncd\nef",
        80,
        Edit::Insert(3, "x"),
        [0, 2, 2, 0, 2, 2],
        [7, 7],
        "ab\nxcd\nef",
    ),
    (
        "ab\ncd\nef",
        80,
        Edit::Insert(4, "x"),
        [1, 1, 1, 1, 1, 1],
        [4, 4],
        "ab\ncxd\nef",
    ),
    (
        "ab\ncd\nef",
        80,
        Edit::Delete(2, 4),
        [0, 3, 1, 0, 3, 1],
        [4, 4],
        "abef",
    ),
    (
        HEBREW,
        80,
        Edit::Delete(1, 1),
        [0, 2, 1, 0, 2, 1],
        [3, 3],
        "\u{5d0}ab",
    ),
    (
        "ab\n\u{5d0}\u{5d1}",
        80,
        Edit::Delete(2, 1),
        [0, 2, 1, 0, 2, 1],
        [4, 4],
        "ab\u{5d0}\u{5d1}",
    ),
    (
        "ab\ncd",
        80,
        Edit::Insert(0, "\u{5d0}"),
        [0, 1, 1, 0, 1, 1],
        [4, 4],
        "\u{5d0}ab\ncd",
    ),
    (
        "abc",
        80,
        Edit::Delete(0, 3),
        [0, 1, 0, 0, 1, 0],
        [0, 0],
        "",
    ),
    ("", 80, Edit::Insert(0, ""), [0, 0, 0, 0, 0, 0], [0, 0], ""),
    (
        "",
        80,
        Edit::Insert(0, "x"),
        [0, 0, 1, 0, 0, 1],
        [1, 1],
        "x",
    ),
    (
        "abc",
        80,
        Edit::Insert(0, ""),
        [0, 1, 1, 0, 1, 1],
        [3, 3],
        "abc",
    ),
    (
        "abc def\nghi jkl\nx",
        3,
        Edit::Insert(9, "y"),
        [2, 2, 3, 1, 1, 1],
        [9, 9],
        "abc def\ngyhi jkl\nx",
    ),
    (
        "abc def\nghi jkl\nx",
        3,
        Edit::Delete(7, 1),
        [0, 4, 4, 0, 2, 1],
        [15, 15],
        "abc defghi jkl\nx",
    ),
    (
        "abc def ghi",
        80,
        Edit::SetWidth(3),
        [0, 1, 3, 0, 1, 1],
        [0, 11],
        "abc def ghi",
    ),
    (
        "abc def ghi",
        3,
        Edit::SetWidth(3),
        [0, 3, 3, 0, 1, 1],
        [0, 11],
        "abc def ghi",
    ),
    // The first of these rows keeps a line that just fits. The others make the width one column smaller, and
    // then restore it.
    (
        "ab cd \nef",
        80,
        Edit::SetWidth(5),
        [0, 2, 2, 0, 2, 2],
        [0, 0],
        "ab cd \nef",
    ),
    (
        "ab cd \nef",
        5,
        Edit::SetWidth(4),
        [0, 2, 3, 0, 2, 2],
        [0, 7],
        "ab cd \nef",
    ),
    (
        "ab cd \nef",
        4,
        Edit::SetWidth(5),
        [0, 3, 2, 0, 2, 2],
        [0, 7],
        "ab cd \nef",
    ),
];

pub(super) fn check_rows<S: ParagraphStore<Kept> + Drop, T: ParagraphStore<Kept> + Drop>(
    rt: &impl Abort,
    pair: &mut Pair<S, T>,
    rows: &[Row<'_>],
) -> Result<(), EditFault> {
    for row in rows {
        let is_right = is_row(rt, pair, row)?;
        assert!(rt; is_right, "{:?}", row.0);
    }
    Ok(())
}

#[test]
fn each_edit_returns_its_damage_and_changes_the_text(rt: HostRuntime) -> Result<(), Fail> {
    check_in_tree(&rt, rt.alloc(), Check::Rows)
}

// An edit, the lines of its damage, and the output after the edit.
type Step<'a> = (Edit<'a>, Result<[usize; 3], EditFault>, &'a str);

// The options that print visual lines, with their levels (`LEVELS`) or without (`SHOWN`).
const LEVELS: Print = Print {
    novisual: false,
    basedir: false,
    ltov: false,
    vtol: false,
    levels: true,
    nopad: false,
    nomirror: false,
};

const SHOWN: Print = Print {
    levels: false,
    ..LEVELS
};

// Returns whether the step's edit returns the expected result and the session then prints the step's text.
fn is_step<S: ParagraphStore<Kept>>(
    rt: &impl Abort,
    edited: &mut Session<S>,
    room: &mut [u8],
    form: &Print,
    step: &Step<'_>,
) -> bool {
    let (edit, answer, page) = *step;
    let most = edited.char_count() as u64;
    let bounds = match edit {
        Edit::SetWidth(_) => [0, most],
        _ => [most.wrapping_add(1); 2],
    };
    let lines = match make_within(rt, edited, edit, bounds) {
        Ok(damage) => Ok([damage.first_line, damage.old_lines, damage.new_lines]),
        Err(fault) => Err(fault),
    };
    (lines == answer) & (print(edited, room, form) == Some(page.as_bytes()))
}

// Executes the edits in a session on a text, and checks each step.
fn check_steps<S: ParagraphStore<Kept> + Drop, T: ParagraphStore<Kept> + Drop>(
    rt: &impl Abort,
    pair: &mut Pair<S, T>,
    text: &str,
    form: &Print,
    steps: &[Step<'_>],
) -> Result<(), EditFault> {
    renew(&mut pair.edited, text, 80)?;
    for step in steps {
        let is_right = is_step(rt, &mut pair.edited, &mut pair.room, form, step);
        assert!(rt; is_right, "{:?}", step.2);
    }
    Ok(())
}

static REFUSED_AND_EMPTIED: [Step<'_>; 3] = [
    (
        Edit::Delete(5, 10),
        Err(EditFault::OutOfRange),
        "abcdefgh\n",
    ),
    (Edit::Delete(0, 8), Ok([0, 1, 0]), ""),
    (Edit::Insert(0, "x"), Ok([0, 0, 1]), "x\n"),
];

static JOINED: [Step<'_>; 1] = [(
    Edit::Delete(2, 1),
    Ok([0, 2, 1]),
    "ab\u{5d1}\u{5d0}\n0 0 1 1\n",
)];

static THERE_AND_BACK: [Step<'_>; 3] = [
    (Edit::SetWidth(3), Ok([0, 1, 3]), "abc\ndef\nghi\n"),
    (Edit::SetWidth(80), Ok([0, 3, 1]), "abc def ghi\n"),
    (
        Edit::SetWidth(0),
        Err(EditFault::WidthOutOfRange),
        "abc def ghi\n",
    ),
];

pub(super) fn check_all_steps<S: ParagraphStore<Kept> + Drop, T: ParagraphStore<Kept> + Drop>(
    rt: &impl Abort,
    pair: &mut Pair<S, T>,
) -> Result<(), EditFault> {
    check_steps(rt, pair, "abcdefgh", &SHOWN, &REFUSED_AND_EMPTIED)?;
    check_steps(rt, pair, "ab\n\u{5d0}\u{5d1}", &LEVELS, &JOINED)?;
    check_steps(rt, pair, "abc def ghi", &SHOWN, &THERE_AND_BACK)
}

#[test]
fn printed_lines_are_right_after_each_edit_in_sequence(rt: HostRuntime) -> Result<(), Fail> {
    check_in_tree(&rt, rt.alloc(), Check::Steps)
}

pub(super) fn check_widths<S: ParagraphStore<Kept> + Drop, T: ParagraphStore<Kept> + Drop>(
    rt: &impl Abort,
    pair: &mut Pair<S, T>,
) -> Result<(), EditFault> {
    let text = "abc def ghi\n\u{5d0}\u{5d1} (1) x";
    renew(&mut pair.edited, text, 80)?;
    let analysed = pair.edited.analysed();
    for width in [3, 1, 65_535, 80] {
        make_surely(&mut pair.edited, Edit::SetWidth(width))?;
        pair.check_same(rt, text)?;
    }
    assert!(rt; pair.edited.analysed() == analysed);
    Ok(())
}

#[test]
fn changes_of_width_equal_a_fresh_layout_without_analysis(rt: HostRuntime) -> Result<(), Fail> {
    check_in_tree(&rt, rt.alloc(), Check::Widths)
}

pub(super) static EDITS: [Edit<'_>; 6] = [
    Edit::Insert(3, "\u{5d0}"),
    Edit::Delete(5, 10),
    Edit::SetWidth(2),
    Edit::SetWidth(0),
    Edit::Delete(0, 3),
    Edit::Insert(3, "\ne"),
];

// Calls `run`. Does not try again after an allocation failure, so that the tests detect a mutant that reports
// one although no allocation failed.
fn run<S: ParagraphStore<Kept>>(
    edited: &mut Session<S>,
    edits: &[Edit<'_>],
) -> Result<(), EditFault> {
    renew(edited, "ab\ncd", 80)?;
    match edited.run(edits) {
        Ok(_) => Ok(()),
        Err(_) => Err(EditFault::NoMemory),
    }
}

pub(super) fn check_run<S: ParagraphStore<Kept> + Drop, T: ParagraphStore<Kept> + Drop>(
    rt: &impl Abort,
    pair: &mut Pair<S, T>,
    edits: &[Edit<'_>],
) -> Result<(), EditFault> {
    run(&mut pair.edited, edits)?;
    assert!(rt; pair.edited.width() == 2);
    pair.check_same(rt, "\u{5d0}cd\ne")
}

#[test]
fn run_makes_all_edits_but_the_refused_ones(rt: HostRuntime) -> Result<(), Fail> {
    check_in_tree(&rt, rt.alloc(), Check::Run)
}
