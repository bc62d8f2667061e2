//! Tests of hits, carets, the columns of lines, grapheme clusters, words, and reasons.
use super::{Check, Pair, check_in_tree, renew};
use breaks::LineRule;
use session::{Caret, CharReasons, Cluster, EditFault, Hit, Kept, Session, Word};
use std::alloc::AllocError;
use std::process::Abort;
use std::test::Fail;
use store::ParagraphStore;

// A text, a line and a column; the position of the hit, and whether it is trailing.
type Row<'a> = (&'a str, [usize; 2], Option<(usize, bool)>);

const MIXED: &str = "abc \u{5d0}\u{5d1}\u{5d2}\n";

const WIDE: &str = "\u{4e2d}b";

const RIGHT_TO_LEFT: &str = "\u{5d0}\u{5d1} a";

pub(super) static ROWS: [Row<'_>; 16] = [
    (MIXED, [0, 0], Some((0, false))),
    (MIXED, [0, 4], Some((6, false))),
    (MIXED, [0, 6], Some((4, false))),
    (MIXED, [0, 9], Some((4, false))),
    (MIXED, [1, 0], None),
    ("ab", [0, 1], Some((1, false))),
    ("ab", [0, 5], Some((1, true))),
    (WIDE, [0, 0], Some((0, false))),
    (WIDE, [0, 1], Some((0, false))),
    (WIDE, [0, 2], Some((1, false))),
    (RIGHT_TO_LEFT, [0, 0], Some((3, false))),
    (RIGHT_TO_LEFT, [0, 3], Some((0, false))),
    (RIGHT_TO_LEFT, [0, 4], Some((0, false))),
    ("x\n\ny", [1, 3], Some((2, false))),
    ("x\n\ny", [2, 0], Some((3, false))),
    ("", [0, 0], None),
];

fn is_hit(hit: Option<Hit>, wanted: Option<(usize, bool)>) -> bool {
    match (hit, wanted) {
        (Some(hit), Some((pos, trailing))) => (hit.pos == pos) & (hit.trailing == trailing),
        (None, None) => true,
        _ => false,
    }
}

fn is_row<S: ParagraphStore<Kept>>(
    session: &mut Session<S>,
    row: &Row<'_>,
) -> Result<bool, EditFault> {
    let (text, [line, column], wanted) = *row;
    renew(session, text, 80)?;
    Ok(is_hit(session.hit(line, column), wanted))
}

// A text, its width and a position; the line, the column and the level of the caret there.
type CaretRow<'a> = (&'a str, u16, usize, Option<(usize, usize, u8)>);

static CARETS: [CaretRow<'_>; 17] = [
    (MIXED, 80, 0, Some((0, 0, 0))),
    (MIXED, 80, 3, Some((0, 3, 0))),
    (MIXED, 80, 4, Some((0, 7, 1))),
    (MIXED, 80, 6, Some((0, 5, 1))),
    (MIXED, 80, 7, Some((0, 7, 0))),
    (MIXED, 80, 8, Some((1, 0, 0))),
    (MIXED, 80, 9, None),
    (RIGHT_TO_LEFT, 80, 0, Some((0, 4, 1))),
    (RIGHT_TO_LEFT, 80, 3, Some((0, 0, 2))),
    (RIGHT_TO_LEFT, 80, 4, Some((0, 0, 1))),
    (WIDE, 80, 1, Some((0, 2, 0))),
    (WIDE, 80, 2, Some((0, 3, 0))),
    ("e\u{301}x", 80, 1, Some((0, 1, 0))),
    ("ab  ", 80, 3, Some((0, 2, 0))),
    ("ab cd", 2, 2, Some((0, 2, 0))),
    ("ab cd", 2, 3, Some((1, 0, 0))),
    ("", 80, 0, Some((0, 0, 0))),
];

fn is_caret(caret: Option<Caret>, wanted: Option<(usize, usize, u8)>) -> bool {
    match (caret, wanted) {
        (Some(caret), Some((line, column, level))) => {
            (caret.line == line) & (caret.column == column) & (caret.level == level)
        }
        (None, None) => true,
        _ => false,
    }
}

fn is_caret_row<S: ParagraphStore<Kept>>(
    session: &mut Session<S>,
    row: &CaretRow<'_>,
) -> Result<bool, EditFault> {
    let (text, width, pos, wanted) = *row;
    renew(session, text, width)?;
    Ok(is_caret(session.caret(pos), wanted))
}

fn check_carets<S: ParagraphStore<Kept> + Drop, T: ParagraphStore<Kept> + Drop>(
    rt: &impl Abort,
    pair: &mut Pair<S, T>,
) -> Result<(), EditFault> {
    for row in &CARETS {
        let is_right = is_caret_row(&mut pair.edited, row)? & is_caret_row(&mut pair.anew, row)?;
        assert!(rt; is_right, "{:?} {}", row.0, row.2);
    }
    Ok(())
}

// Replaces the text. Returns whether its only line has this padding, whether `columns_left` returns these
// values for visual positions 0, 1 and 9, and whether `covering` is right at both ends of the line.
fn has_columns<S: ParagraphStore<Kept>>(
    session: &mut Session<S>,
    text: &str,
    left: [usize; 3],
    padding: u32,
) -> Result<bool, EditFault> {
    renew(session, text, 80)?;
    match session.line(0) {
        Some(line) => Ok(
            (line.columns_left(0) == left[0])
                & (line.columns_left(1) == left[1])
                & (line.columns_left(9) == left[2])
                & (line.covering(left[2]).is_none())
                & (line.covering(0) == Some(0))
                & (line.padding(80) == padding),
        ),
        None => Ok(false),
    }
}

// A text and a position; the start and the end of the cluster there.
type ClusterRow<'a> = (&'a str, usize, Option<(usize, usize)>);

// A woman, a joiner and a man form one cluster. A letter and its mark also form a cluster, and so do CR and
// LF.
static CLUSTERS: [ClusterRow<'_>; 17] = [
    ("a\u{1f469}\u{200d}\u{1f468}b", 0, Some((0, 1))),
    ("a\u{1f469}\u{200d}\u{1f468}b", 1, Some((1, 4))),
    ("a\u{1f469}\u{200d}\u{1f468}b", 3, Some((1, 4))),
    ("a\u{1f469}\u{200d}\u{1f468}b", 4, Some((4, 5))),
    ("x\ne\u{301}\ny", 3, Some((2, 4))),
    ("x\r\ny", 2, Some((1, 3))),
    ("x\r\ny", 3, Some((3, 4))),
    ("x\r\ny", 4, None),
    ("ab\r\n", 3, Some((2, 4))),
    (
        "abc\u{1f469}\u{200d}\u{1f468}\u{200d}\u{1f467}de",
        5,
        Some((3, 8)),
    ),
    ("a\u{1f1e9}\u{1f1ea}\u{1f1eb}\u{1f1f7}", 3, Some((3, 5))),
    ("ab\u{915}\u{94d}\u{937}c", 4, Some((2, 5))),
    ("a \u{915}\u{94d}\u{200d}\u{937}\u{937}", 5, Some((2, 6))),
    ("a\u{a9}\u{200d}\u{1f469}", 3, Some((1, 4))),
    ("\u{1f44d}\u{1f3fd}\u{1f44d}\u{1f3fd}", 2, Some((2, 4))),
    ("ab\u{d55c}\u{ae00}", 3, Some((3, 4))),
    ("ab\u{d558}\u{11ab}c", 3, Some((2, 4))),
];

// Returns the cluster at a position, and tries again after an allocation failure.
fn cluster<S: ParagraphStore<Kept>>(
    session: &Session<S>,
    pos: usize,
) -> Result<Option<Cluster>, AllocError> {
    match session.cluster(pos) {
        Ok(cluster) => Ok(cluster),
        Err(_) => session.cluster(pos),
    }
}

fn is_cluster<S: ParagraphStore<Kept>>(
    session: &mut Session<S>,
    row: &ClusterRow<'_>,
) -> Result<bool, EditFault> {
    let (text, pos, wanted) = *row;
    renew(session, text, 80)?;
    match (cluster(session, pos), wanted) {
        (Ok(Some(cluster)), Some((start, end))) => {
            Ok((cluster.start == start) & (cluster.end == end))
        }
        (Ok(None), None) => Ok(true),
        _ => Ok(false),
    }
}

// A text and a position; the start and the end of the word there, and whether it has an alphabetic or
// numeric character.
type WordRow<'a> = (&'a str, usize, Option<(usize, usize, bool)>);

static WORDS: [WordRow<'_>; 8] = [
    ("don't go", 0, Some((0, 5, true))),
    ("don't go", 4, Some((0, 5, true))),
    ("don't go", 5, Some((5, 6, false))),
    ("don't go", 7, Some((6, 8, true))),
    ("don't go", 8, None),
    ("a\n12.5", 1, Some((1, 2, false))),
    ("a\n12.5", 3, Some((2, 6, true))),
    ("\u{5e9}\u{5dc}!", 2, Some((2, 3, false))),
];

// Returns the word at a position, and tries again after an allocation failure.
fn word<S: ParagraphStore<Kept>>(
    session: &Session<S>,
    pos: usize,
) -> Result<Option<Word>, AllocError> {
    match session.word(pos) {
        Ok(word) => Ok(word),
        Err(_) => session.word(pos),
    }
}

fn is_word<S: ParagraphStore<Kept>>(
    session: &mut Session<S>,
    row: &WordRow<'_>,
) -> Result<bool, EditFault> {
    let (text, pos, wanted) = *row;
    renew(session, text, 80)?;
    match (word(session, pos), wanted) {
        (Ok(Some(word)), Some((start, end, has_letter))) => Ok(
            (word.start == start) & (word.end == end) & (word.has_letter == has_letter),
        ),
        (Ok(None), None) => Ok(true),
        _ => Ok(false),
    }
}

// A text and a position; where the paragraph starts, the level, the bracket's partner in the paragraph, and
// the rule that decides the break mark.
type ReasonRow<'a> = (&'a str, usize, Option<(usize, u8, Option<usize>, LineRule)>);

static REASONS: [ReasonRow<'_>; 4] = [
    ("b\na(\u{5d0})", 1, Some((0, 0, None, LineRule::LB3))),
    ("b\na(\u{5d0})", 3, Some((2, 0, Some(3), LineRule::LB14))),
    ("b\na(\u{5d0})", 4, Some((2, 1, None, LineRule::LB13))),
    ("b\na(\u{5d0})", 6, None),
];

// Returns the reasons for a character, and tries again after an allocation failure.
fn reasons<S: ParagraphStore<Kept>>(
    session: &Session<S>,
    pos: usize,
) -> Result<Option<CharReasons>, AllocError> {
    match session.reasons(pos) {
        Ok(reasons) => Ok(reasons),
        Err(_) => session.reasons(pos),
    }
}

// Returns the position of a bracket's partner, or `None` if there is none.
fn partner(reasons: &CharReasons) -> Option<usize> {
    reasons.level.resolved?.step.bracket.partner
}

fn is_reason<S: ParagraphStore<Kept>>(
    session: &mut Session<S>,
    row: &ReasonRow<'_>,
) -> Result<bool, EditFault> {
    let (text, pos, wanted) = *row;
    renew(session, text, 80)?;
    match (reasons(session, pos), wanted) {
        (Ok(Some(reasons)), Some((start, level, wanted_partner, rule))) => {
            Ok(
                (reasons.paragraph_start == start)
                    & (reasons.level.level == level)
                    & (partner(&reasons) == wanted_partner)
                    & (reasons.mark.rule == rule),
            )
        }
        (Ok(None), None) => Ok(true),
        _ => Ok(false),
    }
}

// Checks each example over both stores.
pub(super) fn check_hits<S: ParagraphStore<Kept> + Drop, T: ParagraphStore<Kept> + Drop>(
    rt: &impl Abort,
    pair: &mut Pair<S, T>,
    rows: &[Row<'_>],
) -> Result<(), EditFault> {
    for row in rows {
        let is_right = is_row(&mut pair.edited, row)? & is_row(&mut pair.anew, row)?;
        assert!(rt; is_right, "{:?}", row.0);
    }
    let are_right = has_columns(&mut pair.edited, WIDE, [0, 2, 3], 0)?
        & has_columns(&mut pair.edited, RIGHT_TO_LEFT, [0, 1, 4], 76)?;
    assert!(rt; are_right);
    for row in &CLUSTERS {
        let is_right = is_cluster(&mut pair.edited, row)? & is_cluster(&mut pair.anew, row)?;
        assert!(rt; is_right, "{:?}", row.0);
    }
    for row in &WORDS {
        let is_right = is_word(&mut pair.edited, row)? & is_word(&mut pair.anew, row)?;
        assert!(rt; is_right, "{:?}", row.0);
    }
    for row in &REASONS {
        let is_right = is_reason(&mut pair.edited, row)? & is_reason(&mut pair.anew, row)?;
        assert!(rt; is_right, "{:?}", row.0);
    }
    check_carets(rt, pair)
}

#[test]
fn hits_columns_clusters_words_reasons_and_carets_are_as_listed(
    rt: HostRuntime,
) -> Result<(), Fail> {
    check_in_tree(&rt, rt.alloc(), Check::Hits)
}
