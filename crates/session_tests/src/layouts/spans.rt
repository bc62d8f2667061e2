//! Tests of the columns that ranges cover, and of level runs.
use super::lay_out;
use crate::files;
use crate::files::FILES;
use bidi::Base;
use lines::{Engine, Options, Run, Span, VisualLine};
use std::alloc::Global;
use std::process::Abort;
use std::test::Fail;
use ucd::TableFault;

fn engine(alloc: Global, reordernsm: bool) -> Result<Engine, TableFault> {
    let options = Options {
        base: Base::WeakLtr,
        reordernsm,
        ..Options::default()
    };
    files::engine(alloc, &FILES, options)
}

// A paragraph, a width, a line, the start and end of a range in the line, and the columns that the range
// covers.
type SpanRow<'a> = (&'a str, u16, [usize; 3], &'a [(usize, usize)]);

const MIXED: &str = "abc \u{5d0}\u{5d1}\u{5d2} def";

// In the last row but one, the range of a space and a letter covers one interval: the nonspacing mark that is
// visually between them has no columns. In the last row, the range of a nonspacing mark covers no interval.
static SPANS: [SpanRow<'_>; 15] = [
    (MIXED, 80, [0, 2, 6], &[(2, 4), (5, 7)]),
    (MIXED, 80, [0, 3, 5], &[(3, 4), (6, 7)]),
    (MIXED, 80, [0, 0, 11], &[(0, 11)]),
    (MIXED, 80, [0, 6, usize::MAX], &[(4, 5), (7, 11)]),
    (MIXED, 80, [0, 5, 5], &[]),
    (MIXED, 80, [0, 11, 20], &[]),
    ("\u{4e2d}b\u{4e2d}", 80, [0, 0, 1], &[(0, 2)]),
    ("\u{4e2d}b\u{4e2d}", 80, [0, 1, 3], &[(2, 5)]),
    ("\u{5d0}\u{5d1} a", 80, [0, 0, 1], &[(3, 4)]),
    ("\u{5d0}\u{5d1} a", 80, [0, 1, 4], &[(0, 3)]),
    ("ab cd", 2, [1, 0, 1], &[(0, 1)]),
    ("ab  ", 80, [0, 1, 4], &[(1, 2)]),
    ("e\u{301}x", 80, [0, 0, 3], &[(0, 2)]),
    ("a \u{5d0}\u{300}", 80, [0, 1, 3], &[(1, 3)]),
    ("e\u{301}x", 80, [0, 1, 2], &[]),
];

// Returns whether a range of a line covers these columns.
fn covers(line: &VisualLine<'_>, start: usize, end: usize, wanted: &[(usize, usize)]) -> bool {
    let mut spans = line.spans(start, end);
    let mut is_right = true;
    for (left, right) in wanted {
        let span = Span {
            left: *left,
            right: *right,
        };
        is_right &= spans.next() == Some(span);
    }
    is_right & spans.next().is_none()
}

fn is_span_row(alloc: Global, engine: &mut Engine, row: &SpanRow<'_>) -> Result<bool, Fail> {
    let (text, width, [n, start, end], wanted) = *row;
    let laid = lay_out(alloc, engine, text, width)?;
    match laid.line(n) {
        Some(line) => Ok(covers(&line, start, end, wanted)),
        None => Ok(false),
    }
}

fn check_spans(rt: &impl Abort, alloc: Global, engine: &mut Engine) -> Result<(), Fail> {
    for row in &SPANS {
        let is_right = is_span_row(alloc, engine, row)?;
        assert!(rt; is_right, "{:?}", row.0);
    }
    Ok(())
}

#[test]
fn ranges_cover_maximal_intervals_of_columns(rt: HostRuntime) -> Result<(), Fail> {
    let mut engine = engine(rt.alloc(), false)?;
    let result = check_spans(&rt, rt.alloc(), &mut engine);
    drop(engine);
    result
}

// A paragraph, and the start, length and level of each run of its only line.
type RunRow<'a> = (&'a str, &'a [(usize, usize, u8)]);

// In the last row, L1 resets the level of the tab.
static RUNS: [RunRow<'_>; 7] = [
    (MIXED, &[(0, 4, 0), (4, 3, 1), (7, 4, 0)]),
    ("\u{5d0}\u{5d1} a", &[(3, 1, 2), (0, 3, 1)]),
    (
        "a \u{5d0}\u{5d1} 12 \u{5d2}\u{5d3} b",
        &[(0, 2, 0), (7, 3, 1), (5, 2, 2), (2, 3, 1), (10, 2, 0)],
    ),
    ("\u{5d0} ", &[(0, 1, 1)]),
    (" ", &[]),
    ("a\u{5d0}\u{300}\u{5d1}", &[(0, 1, 0), (1, 3, 1)]),
    (
        "a \u{5d0}\t\u{5d1}",
        &[(0, 2, 0), (2, 1, 1), (3, 1, 0), (4, 1, 1)],
    ),
];

// Returns whether a line has these runs.
fn has_runs(line: &VisualLine<'_>, wanted: &[(usize, usize, u8)]) -> bool {
    let mut runs = line.runs();
    let mut is_right = true;
    for (start, len, level) in wanted {
        let run = Run {
            start: *start,
            len: *len,
            level: *level,
        };
        is_right &= runs.next() == Some(run);
    }
    is_right & runs.next().is_none()
}

fn is_run_row(alloc: Global, engine: &mut Engine, row: &RunRow<'_>) -> Result<bool, Fail> {
    let (text, wanted) = *row;
    let laid = lay_out(alloc, engine, text, 80)?;
    match laid.line(0) {
        Some(line) => Ok(has_runs(&line, wanted)),
        None => Ok(false),
    }
}

fn check_runs(rt: &impl Abort, alloc: Global, engine: &mut Engine) -> Result<(), Fail> {
    for row in &RUNS {
        let is_right = is_run_row(alloc, engine, row)?;
        assert!(rt; is_right, "{:?}", row.0);
    }
    Ok(())
}

fn check_runs_by(rt: &impl Abort, alloc: Global, reordernsm: bool) -> Result<(), Fail> {
    let mut engine = engine(alloc, reordernsm)?;
    let result = check_runs(rt, alloc, &mut engine);
    drop(engine);
    result
}

#[test]
fn runs_are_in_visual_order_by_levels_after_l1(rt: HostRuntime) -> Result<(), Fail> {
    check_runs_by(&rt, rt.alloc(), false)
}

#[test]
fn runs_are_the_same_with_marks_in_reading_order(rt: HostRuntime) -> Result<(), Fail> {
    check_runs_by(&rt, rt.alloc(), true)
}
