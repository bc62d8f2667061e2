//! Tests of the two edges of a position, of steps from edge to edge, and of the edges at columns and at the
//! ends of lines.
use super::{Check, Pair, check_in_tree, renew};
use session::{Direction, Edge, EditFault, Kept, LineEdges, Session, Side};
use std::alloc::AllocError;
use std::process::Abort;
use std::test::Fail;
use store::ParagraphStore;

// An edge: its position and its side.
type Row = (usize, Side);

fn edge_of((pos, side): Row) -> Edge {
    Edge { pos, side }
}

// Input: a text, a width and an edge. Expected: the line, column and level of the caret at the edge.
type CaretRow<'a> = (&'a str, u16, Row, Option<(usize, usize, u8)>);

const MIXED: &str = "abc \u{5d0}\u{5d1}\u{5d2} def";

// An emoji cluster of a man, a joiner and a woman, after RLO. The cluster is right-to-left only because of
// RLO, since emoji have class L in the test tables.
const FAMILY: &str = "\u{202e}\u{1f468}\u{200d}\u{1f469}";

static CARETS: [CaretRow<'_>; 15] = [
    (MIXED, 80, (4, Side::Before), Some((0, 7, 1))),
    (MIXED, 80, (4, Side::After), Some((0, 4, 0))),
    (MIXED, 80, (7, Side::Before), Some((0, 7, 0))),
    (MIXED, 80, (7, Side::After), Some((0, 4, 1))),
    (MIXED, 80, (0, Side::After), None),
    (MIXED, 80, (11, Side::After), Some((0, 11, 0))),
    (MIXED, 80, (11, Side::Before), Some((0, 11, 0))),
    (MIXED, 80, (12, Side::After), None),
    ("abcd", 2, (2, Side::After), Some((0, 2, 0))),
    ("abcd", 2, (2, Side::Before), Some((1, 0, 0))),
    ("ab  \n", 80, (3, Side::After), Some((0, 2, 0))),
    ("ab\n", 80, (3, Side::After), Some((0, 2, 0))),
    ("ab\n", 80, (3, Side::Before), Some((1, 0, 0))),
    (FAMILY, 80, (4, Side::After), Some((0, 0, 1))),
    (FAMILY, 80, (2, Side::After), Some((0, 2, 1))),
];

// A text, its width, an edge and a direction; the edge after the step.
type StepRow<'a> = (&'a str, u16, Row, Direction, Option<Row>);

static STEPS: [StepRow<'_>; 24] = [
    (
        MIXED,
        80,
        (3, Side::Before),
        Direction::Right,
        Some((4, Side::After)),
    ),
    (
        MIXED,
        80,
        (4, Side::After),
        Direction::Right,
        Some((6, Side::Before)),
    ),
    (
        MIXED,
        80,
        (6, Side::Before),
        Direction::Right,
        Some((5, Side::Before)),
    ),
    (
        MIXED,
        80,
        (5, Side::Before),
        Direction::Right,
        Some((4, Side::Before)),
    ),
    (
        MIXED,
        80,
        (4, Side::Before),
        Direction::Right,
        Some((8, Side::After)),
    ),
    (
        MIXED,
        80,
        (8, Side::After),
        Direction::Left,
        Some((7, Side::Before)),
    ),
    (
        MIXED,
        80,
        (7, Side::Before),
        Direction::Left,
        Some((5, Side::After)),
    ),
    (
        MIXED,
        80,
        (5, Side::After),
        Direction::Left,
        Some((6, Side::After)),
    ),
    (
        MIXED,
        80,
        (6, Side::After),
        Direction::Left,
        Some((7, Side::After)),
    ),
    (
        MIXED,
        80,
        (7, Side::After),
        Direction::Left,
        Some((3, Side::Before)),
    ),
    (MIXED, 80, (0, Side::Before), Direction::Left, None),
    (MIXED, 80, (11, Side::After), Direction::Right, None),
    (MIXED, 80, (0, Side::After), Direction::Right, None),
    (
        "\u{4e2d}b",
        80,
        (0, Side::Before),
        Direction::Right,
        Some((1, Side::After)),
    ),
    (
        "e\u{301}x",
        80,
        (0, Side::Before),
        Direction::Right,
        Some((2, Side::After)),
    ),
    (
        "e\u{301}x",
        80,
        (2, Side::Before),
        Direction::Left,
        Some((0, Side::Before)),
    ),
    (
        FAMILY,
        80,
        (1, Side::Before),
        Direction::Left,
        Some((4, Side::After)),
    ),
    (
        FAMILY,
        80,
        (4, Side::After),
        Direction::Right,
        Some((1, Side::Before)),
    ),
    (
        "abcd",
        2,
        (1, Side::Before),
        Direction::Right,
        Some((2, Side::After)),
    ),
    ("abcd", 2, (2, Side::After), Direction::Right, None),
    (
        "abcd",
        2,
        (2, Side::After),
        Direction::Left,
        Some((1, Side::Before)),
    ),
    (
        "ab  ",
        80,
        (1, Side::Before),
        Direction::Right,
        Some((2, Side::After)),
    ),
    ("\u{200f}", 80, (0, Side::Before), Direction::Left, None),
    ("ab\n", 80, (3, Side::Before), Direction::Left, None),
];

// A text, its width, a line and a column; the edge at the column.
type ColumnRow<'a> = (&'a str, u16, [usize; 2], Option<Row>);

static COLUMNS: [ColumnRow<'_>; 13] = [
    (MIXED, 80, [0, 0], Some((0, Side::Before))),
    (MIXED, 80, [0, 4], Some((7, Side::After))),
    (MIXED, 80, [0, 6], Some((5, Side::After))),
    (MIXED, 80, [0, 7], Some((7, Side::Before))),
    (MIXED, 80, [0, usize::MAX], Some((11, Side::After))),
    (MIXED, 80, [1, 0], None),
    ("\u{5d0}\u{5d1}", 80, [0, 9], Some((0, Side::Before))),
    ("\u{4e2d}b", 80, [0, 1], Some((0, Side::Before))),
    ("\u{200f}", 80, [0, 3], Some((0, Side::Before))),
    ("", 80, [0, 3], Some((0, Side::Before))),
    ("a\n", 80, [1, 0], Some((2, Side::Before))),
    ("a\n", 80, [2, 0], None),
    ("a\n\nb", 80, [1, 5], Some((2, Side::Before))),
];

// A text, its width and a line; the first and the last edge of the line.
type EndsRow<'a> = (&'a str, u16, usize, Option<(Row, Row)>);

static ENDS: [EndsRow<'_>; 11] = [
    ("ab", 80, 0, Some(((0, Side::Before), (2, Side::Before)))),
    ("ab  ", 80, 0, Some(((0, Side::Before), (4, Side::Before)))),
    ("ab\n", 80, 0, Some(((0, Side::Before), (2, Side::Before)))),
    ("ab\n", 80, 1, Some(((3, Side::Before), (3, Side::Before)))),
    ("ab\n", 80, 2, None),
    (
        "ab \r\nc",
        80,
        0,
        Some(((0, Side::Before), (3, Side::Before))),
    ),
    (
        "ab\u{2028}c",
        80,
        0,
        Some(((0, Side::Before), (2, Side::Before))),
    ),
    ("abcd", 2, 0, Some(((0, Side::Before), (2, Side::After)))),
    ("abcd", 2, 1, Some(((2, Side::Before), (4, Side::Before)))),
    ("ab cd", 2, 0, Some(((0, Side::Before), (2, Side::Before)))),
    ("", 80, 0, Some(((0, Side::Before), (0, Side::Before)))),
];

// Returns whether the caret at an edge is the expected one. Calls that allocate are tried again after an
// allocation failure, here and below.
fn is_caret<S: ParagraphStore<Kept>>(
    session: &Session<S>,
    edge: Edge,
    wanted: Option<(usize, usize, u8)>,
) -> Result<bool, AllocError> {
    let caret = match session.edge_caret(edge) {
        Ok(caret) => caret,
        Err(_) => session.edge_caret(edge)?,
    };
    match (caret, wanted) {
        (Some(caret), Some((line, column, level))) => {
            Ok((caret.line == line) & (caret.column == column) & (caret.level == level))
        }
        (None, None) => Ok(true),
        _ => Ok(false),
    }
}

fn step<S: ParagraphStore<Kept>>(
    session: &Session<S>,
    edge: Edge,
    direction: Direction,
) -> Result<Option<Edge>, AllocError> {
    match session.step(edge, direction) {
        Ok(next) => Ok(next),
        Err(_) => session.step(edge, direction),
    }
}

fn edge_at<S: ParagraphStore<Kept>>(
    session: &Session<S>,
    [n, column]: [usize; 2],
) -> Result<Option<Edge>, AllocError> {
    match session.edge_at(n, column) {
        Ok(edge) => Ok(edge),
        Err(_) => session.edge_at(n, column),
    }
}

fn are_ends(found: Option<LineEdges>, wanted: Option<(Row, Row)>) -> bool {
    match (found, wanted) {
        (Some(edges), Some((first, last))) => (edges.first == edge_of(first))
            & (edges.last == edge_of(last)),
        (None, None) => true,
        _ => false,
    }
}

// Checks each example.
pub(super) fn check_edges<S: ParagraphStore<Kept>>(
    rt: &impl Abort,
    session: &mut Session<S>,
) -> Result<(), EditFault> {
    for (text, width, edge, wanted) in &CARETS {
        renew(session, text, *width)?;
        let is_right = is_caret(session, edge_of(*edge), *wanted) == Ok(true);
        assert!(rt; is_right, "{:?} {:?}", text, edge);
    }
    for (text, width, edge, direction, wanted) in &STEPS {
        renew(session, text, *width)?;
        let is_right = step(session, edge_of(*edge), *direction) == Ok(wanted.map(edge_of));
        assert!(rt; is_right, "{:?} {:?} {:?}", text, edge, direction);
    }
    for (text, width, place, wanted) in &COLUMNS {
        renew(session, text, *width)?;
        let is_right = edge_at(session, *place) == Ok(wanted.map(edge_of));
        assert!(rt; is_right, "{:?} {:?}", text, place);
    }
    for (text, width, n, wanted) in &ENDS {
        renew(session, text, *width)?;
        assert!(rt;
            are_ends(session.line_edges(*n), *wanted),
            "{:?} {}",
            text,
            n
        );
    }
    Ok(())
}

#[test]
fn edges_and_steps_are_as_listed(rt: HostRuntime) -> Result<(), Fail> {
    check_in_tree(&rt, rt.alloc(), Check::Edges)
}
