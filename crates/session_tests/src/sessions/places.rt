//! Tests of where lines and paragraphs start, and of the line that each character is on.
use super::{Check, Pair, check_in_tree, renew};
use session::{EditFault, Kept, Place, Session};
use std::process::Abort;
use std::test::Fail;
use store::ParagraphStore;

// A text, its width, where its lines start, and the paragraph, the line and the offset of each position.
type Row<'a> = (&'a str, u16, &'a [usize], &'a [[usize; 3]]);

// Returns whether the lines of a session start at exactly these positions.
fn begin_at<S: ParagraphStore<Kept>>(session: &Session<S>, starts: &[usize]) -> bool {
    let mut all = session.line_start(starts.len()).is_none();
    for n in 0..starts.len() {
        all &= session.line_start(n) == Some(starts[n]);
    }
    all
}

fn is_place(place: Option<Place>, [paragraph, line, offset]: [usize; 3]) -> bool {
    place
        == Some(Place {
            paragraph,
            line,
            offset,
        })
}

// Returns whether the positions have these places, and no further position has a place.
fn stand_at<S: ParagraphStore<Kept>>(session: &Session<S>, places: &[[usize; 3]]) -> bool {
    let mut all = session.place(places.len()).is_none();
    for pos in 0..places.len() {
        all &= is_place(session.place(pos), places[pos]);
    }
    all
}

// Returns whether each paragraph's start has offset 0 in the paragraph's first line, and no further paragraph
// has a start or a first line.
fn paragraphs_begin<S: ParagraphStore<Kept>>(session: &Session<S>) -> bool {
    let count = session.paragraph_count();
    let mut all = session.paragraph_start(count).is_none();
    all &= session.paragraph_first_line(count).is_none();
    for paragraph in 0..count {
        all &= match (
            session.paragraph_start(paragraph),
            session.paragraph_first_line(paragraph),
        ) {
            (Some(start), Some(line)) => is_place(session.place(start), [paragraph, line, 0]),
            _ => false,
        };
    }
    all
}

fn is_row<S: ParagraphStore<Kept>>(
    session: &mut Session<S>,
    row: &Row<'_>,
) -> Result<bool, EditFault> {
    let (text, width, starts, places) = *row;
    renew(session, text, width)?;
    Ok(begin_at(session, starts) & stand_at(session, places) & paragraphs_begin(session))
}

pub(super) static ROWS: [Row<'_>; 6] = [
    (
        "ab\ncd",
        80,
        &[0, 3],
        &[
            [0, 0, 0],
            [0, 0, 1],
            [0, 0, 2],
            [1, 1, 0],
            [1, 1, 1],
            [1, 1, 2],
        ],
    ),
    (
        "ab\n",
        80,
        &[0],
        &[[0, 0, 0], [0, 0, 1], [0, 0, 2], [1, 1, 0]],
    ),
    ("", 80, &[], &[[0, 0, 0]]),
    (
        "ab cd",
        2,
        &[0, 3],
        &[
            [0, 0, 0],
            [0, 0, 1],
            [0, 0, 2],
            [0, 1, 0],
            [0, 1, 1],
            [0, 1, 2],
        ],
    ),
    (
        "a\r\nb",
        80,
        &[0, 3],
        &[[0, 0, 0], [0, 0, 1], [0, 0, 2], [1, 1, 0], [1, 1, 1]],
    ),
    (
        "\u{5d0}\n\na\r",
        80,
        &[0, 2, 3],
        &[
            [0, 0, 0],
            [0, 0, 1],
            [1, 1, 0],
            [2, 2, 0],
            [2, 2, 1],
            [3, 3, 0],
        ],
    ),
];

// Checks each example over both stores.
pub(super) fn check_rows<S: ParagraphStore<Kept> + Drop, T: ParagraphStore<Kept> + Drop>(
    rt: &impl Abort,
    pair: &mut Pair<S, T>,
    rows: &[Row<'_>],
) -> Result<(), EditFault> {
    for row in rows {
        let is_right = is_row(&mut pair.edited, row)? & is_row(&mut pair.anew, row)?;
        assert!(rt; is_right, "{:?}", row.0);
    }
    Ok(())
}

#[test]
fn positions_have_their_paragraph_line_and_offset(rt: HostRuntime) -> Result<(), Fail> {
    check_in_tree(&rt, rt.alloc(), Check::Places)
}
