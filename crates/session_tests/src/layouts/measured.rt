//! Tests of measured paragraphs, whose characters have advances in place of columns.
ghost use Rattle.std.specs.Prelude.{IfOk, IfSome};
ghost use Rattle.lines.specs.Engine.{rules_of, SameRules};
ghost use Rattle.lines.specs.Layouts.{AreLinesOf, IsLaidOut, with_advances};

use super::printed::{PLAIN, is_written};
use super::reflow;
use crate::files::{FILES, engine};
use bidi::Base;
use lines::{Engine, Fill, Laid, Options, PARAGRAPH_LIMIT, VisualLine, advances_fit};
use std::alloc::Global;
use std::test::Fail;

const NO_TAB_STOPS: Options = Options {
    base: Base::WeakLtr,
    nobreak: false,
    reordernsm: false,
    whole_numbers: false,
    reorder_clusters: false,
    show_spaces: false,
    tab_width: 0,
};

const TAB_STOPS: Options = Options {
    tab_width: 8,
    ..NO_TAB_STOPS
};

const SPACES: Options = Options {
    show_spaces: true,
    ..NO_TAB_STOPS
};

// A paragraph, its advances, a width, and where its lines start. For each line, the row also has the left
// edge of each visual position and, last, the right edge of the line.
struct Row {
    text: &'static str,
    advances: &'static [u32],
    width: u32,
    starts: &'static [u32],
    edges: &'static [&'static [usize]],
}

// A line ends at the last break opportunity at which it fits. The first character of a ligature has the
// ligature's advance, and its other characters have advance 0. If the ligature is wider than the width, the
// line ends after its first character. A tab is as wide as its advance.
static ROWS: [Row; 8] = [
    Row {
        text: "a b",
        advances: &[10, 10, 10],
        width: 20,
        starts: &[0, 2],
        edges: &[&[0, 10], &[0, 10]],
    },
    Row {
        text: "a b",
        advances: &[10, 10, 10],
        width: 30,
        starts: &[0],
        edges: &[&[0, 10, 20, 30]],
    },
    Row {
        text: "\u{4E00}\u{4E00}\u{4E00}",
        advances: &[10, 10, 10],
        width: 20,
        starts: &[0, 2],
        edges: &[&[0, 10, 20], &[0, 10]],
    },
    Row {
        text: "abc",
        advances: &[0, 0, 0],
        width: 1,
        starts: &[0],
        edges: &[&[0, 0, 0, 0]],
    },
    Row {
        text: "ffi x",
        advances: &[30, 0, 0, 5, 10],
        width: 30,
        starts: &[0, 4],
        edges: &[&[0, 30, 30, 30], &[0, 10]],
    },
    Row {
        text: "ffi x",
        advances: &[30, 0, 0, 5, 10],
        width: 29,
        starts: &[0, 1],
        edges: &[&[0, 30], &[0, 0, 0, 5, 15]],
    },
    Row {
        text: "a\tb",
        advances: &[10, 0, 10],
        width: 20,
        starts: &[0],
        edges: &[&[0, 10, 10, 20]],
    },
    Row {
        text: "a\tb",
        advances: &[10, 7, 10],
        width: 26,
        starts: &[0, 2],
        edges: &[&[0, 10, 17], &[0, 10]],
    },
];

// Widths and advances that need more than 16 bits, up to the maximum sum of advances.
static WIDE: [Row; 4] = [
    Row {
        text: "a b",
        advances: &[70_000, 1, 70_000],
        width: 140_001,
        starts: &[0],
        edges: &[&[0, 70_000, 70_001, 140_001]],
    },
    Row {
        text: "a b",
        advances: &[70_000, 1, 70_000],
        width: 140_000,
        starts: &[0, 2],
        edges: &[&[0, 70_000], &[0, 70_000]],
    },
    Row {
        text: "abc",
        advances: &[4_294_967_293, 1, 1],
        width: u32::MAX,
        starts: &[0],
        edges: &[&[0, 4_294_967_293, 4_294_967_294, 4_294_967_295]],
    },
    Row {
        text: "abc",
        advances: &[4_294_967_293, 1, 1],
        width: 4_294_967_294,
        starts: &[0, 2],
        edges: &[&[0, 4_294_967_293, 4_294_967_294], &[0, 1]],
    },
];

// With tab stops, a tab moves to the next multiple of its own advance, counted from the start of its line. A
// tab of advance 0 has no width.
static TABS: [Row; 7] = [
    Row {
        text: "a\tb",
        advances: &[10, 16, 10],
        width: 26,
        starts: &[0],
        edges: &[&[0, 10, 16, 26]],
    },
    Row {
        text: "a\tb",
        advances: &[10, 16, 10],
        width: 25,
        starts: &[0, 2],
        edges: &[&[0, 10, 16], &[0, 10]],
    },
    Row {
        text: "a\tb",
        advances: &[16, 16, 1],
        width: 33,
        starts: &[0],
        edges: &[&[0, 16, 32, 33]],
    },
    Row {
        text: "\t\ta",
        advances: &[6, 10, 1],
        width: 11,
        starts: &[0],
        edges: &[&[0, 6, 10, 11]],
    },
    Row {
        text: "a\tb",
        advances: &[10, 0, 10],
        width: 20,
        starts: &[0],
        edges: &[&[0, 10, 10, 20]],
    },
    Row {
        text: "ab\tc",
        advances: &[10, 10, 16, 1],
        width: 19,
        starts: &[0, 1],
        edges: &[&[0, 10], &[0, 10, 16, 17]],
    },
    Row {
        text: "\u{5D0}\t\u{5D1}",
        advances: &[10, 16, 20],
        width: 36,
        starts: &[0],
        edges: &[&[0, 20, 26, 36]],
    },
];

// Spaces at the end of a line are shown if they fit.
static SPACE_ROWS: [Row; 3] = [
    Row {
        text: "a b",
        advances: &[10, 5, 10],
        width: 15,
        starts: &[0, 2],
        edges: &[&[0, 10, 15], &[0, 10]],
    },
    Row {
        text: "a b",
        advances: &[10, 5, 10],
        width: 14,
        starts: &[0, 2],
        edges: &[&[0, 10], &[0, 10]],
    },
    Row {
        text: "a  b",
        advances: &[10, 5, 6, 10],
        width: 20,
        starts: &[0, 3],
        edges: &[&[0, 10, 15], &[0, 10]],
    },
];

// Lays out a measured text. Returns `None` after an allocation failure, and if the text is not one paragraph,
// the advances do not fit the text, or the width is 0.
fn lay_out_once(
    alloc: Global,
    engine: &mut Engine,
    text: &str,
    advances: &[u32],
    width: u32,
) -> Option<Laid>
    ensures laid { IfSome result (λ laid.
        IsLaidOut (with_advances (rules_of engine.new) laid.advances) laid) }
    ensures rules { SameRules engine.old engine.new }
{
    let text: Vec<char> = text.chars().collect(alloc).ok()?;
    let advances = Vec::from_slice(alloc, advances).ok()?;
    let is_long = text.len() > PARAGRAPH_LIMIT || text.len() != advances.len();
    if text.is_empty() || is_long || engine.first_cut(&text).is_some() || width == 0 {
        return None;
    }
    if !advances_fit(&advances) {
        return None;
    }
    engine.lay_out_measured(alloc, text, advances, width).ok()
}

// Does the same as `lay_out_once`, and tries again after an allocation failure.
fn lay_out(
    alloc: Global,
    engine: &mut Engine,
    text: &str,
    advances: &[u32],
    width: u32,
) -> Result<Laid, Fail>
    ensures laid { IfOk result (λ laid.
        IsLaidOut (with_advances (rules_of engine.new) laid.advances) laid) }
    ensures rules { SameRules engine.old engine.new }
{
    if let Some(laid) = lay_out_once(alloc, engine, text, advances, width) {
        return Ok(laid);
    }
    match lay_out_once(alloc, engine, text, advances, width) {
        Some(laid) => Ok(laid),
        None => Err(Fail::new("no measured paragraph")),
    }
}

// Returns whether these are the left edges of a line's characters, followed by the right edge of the line.
fn has_edges(line: &VisualLine<'_>, edges: &[usize]) -> bool {
    let mut all_right = line.vtol().len() + 1 == edges.len();
    for (place, left) in edges.iter().enumerate() {
        all_right &= line.columns_left(place) == *left;
    }
    all_right & (edges.last().copied() == Some(line.columns() as usize))
}

// Returns whether a paragraph has the lines, edges and advances of its row.
fn is_right(laid: &Laid, row: &Row) -> bool {
    let mut all_right = laid.line_starts() == row.starts && laid.line(row.edges.len()).is_none();
    for (n, edges) in row.edges.iter().enumerate() {
        match laid.line(n) {
            Some(line) => all_right &= has_edges(&line, edges),
            None => all_right = false,
        }
    }
    all_right & (laid.advances() == Some(row.advances))
}

fn is_laid_out(alloc: Global, engine: &mut Engine, row: &Row) -> Result<bool, Fail> {
    let laid = lay_out(alloc, engine, row.text, row.advances, row.width)?;
    Ok(is_right(&laid, row))
}

fn lay_out_each(alloc: Global, engine: &mut Engine, rows: &[Row]) -> Result<bool, Fail> {
    let mut all_right = true;
    for row in rows {
        all_right &= is_laid_out(alloc, engine, row)?;
    }
    Ok(all_right)
}

// Returns whether each paragraph has the lines that its row lists.
fn all_laid_out(alloc: Global, options: Options, rows: &[Row]) -> Result<bool, Fail> {
    let mut engine = engine(alloc, &FILES, options)?;
    let result = lay_out_each(alloc, &mut engine, rows);
    drop(engine);
    result
}

#[test]
fn measured_lines_are_filled_by_advances(rt: HostRuntime) -> Result<(), Fail> {
    assert!(rt; all_laid_out(rt.alloc(), NO_TAB_STOPS, &ROWS)?);
    Ok(())
}

#[test]
fn measured_lines_may_be_as_wide_as_a_u32_counts(rt: HostRuntime) -> Result<(), Fail> {
    assert!(rt; all_laid_out(rt.alloc(), NO_TAB_STOPS, &WIDE)?);
    Ok(())
}

#[test]
fn measured_tab_moves_to_the_next_multiple_of_its_advance(rt: HostRuntime) -> Result<(), Fail> {
    assert!(rt; all_laid_out(rt.alloc(), TAB_STOPS, &TABS)?);
    Ok(())
}

#[test]
fn measured_spaces_are_shown_as_far_as_they_fit(rt: HostRuntime) -> Result<(), Fail> {
    assert!(rt; all_laid_out(rt.alloc(), SPACES, &SPACE_ROWS)?);
    Ok(())
}

// Lays out a paragraph at width 1, and exchanges its lines for those at the row's width. Returns whether the
// new lines are the row's.
fn is_refilled(alloc: Global, engine: &mut Engine, row: &Row) -> Result<bool, Fail> {
    let mut laid = lay_out(alloc, engine, row.text, row.advances, 1)?;
    let result = exchanges(alloc, engine, &mut laid, row);
    drop(laid);
    result
}

// Exchanges the layout's lines for those at the row's width, and returns whether these are right.
fn exchanges(alloc: Global, engine: &mut Engine, laid: &mut Laid, row: &Row) -> Result<bool, Fail>
    requires laid { IsLaidOut (with_advances (rules_of engine.old) laid.old.advances) laid.old }
{
    let mut fill = refill(alloc, engine, laid, row.width)?;
    laid.exchange(&mut fill);
    Ok(is_right(laid, row))
}

// Finds the lines at a width, and tries again after an allocation failure. Fails if the width is 0.
fn refill(alloc: Global, engine: &mut Engine, laid: &Laid, width: u32) -> Result<Fill, Fail>
    requires { IsLaidOut (with_advances (rules_of engine.old) laid.now.advances) laid.now }
    ensures { IfOk result (AreLinesOf (with_advances (rules_of engine.old) laid.now.advances) laid.now.text) }
{
    if width == 0 {
        return Err(Fail::new("width 0"));
    }
    match engine.refill(alloc, laid, width) {
        Ok(fill) => Ok(fill),
        Err(_) => Ok(engine.refill(alloc, laid, width)?),
    }
}

// Lays out a paragraph at width 1, and overwrites its lines with those at the row's width. Returns whether
// the new lines are the row's. Fails if the row's width is 0.
fn is_reflowed(alloc: Global, engine: &mut Engine, row: &Row) -> Result<bool, Fail> {
    if row.width == 0 {
        return Err(Fail::new("width 0"));
    }
    let mut laid = lay_out(alloc, engine, row.text, row.advances, 1)?;
    let result = reflow(alloc, engine, &mut laid, row.width);
    let is_right = is_right(&laid, row);
    drop(laid);
    result?;
    Ok(is_right)
}

fn change_each(alloc: Global, engine: &mut Engine, rows: &[Row]) -> Result<bool, Fail> {
    let mut all_right = true;
    for row in rows {
        all_right &= is_refilled(alloc, engine, row)?;
        all_right &= is_reflowed(alloc, engine, row)?;
    }
    Ok(all_right)
}

// Returns whether each paragraph has the lines of its row after its width is changed from 1 to the row's.
fn all_changed(alloc: Global, options: Options, rows: &[Row]) -> Result<bool, Fail> {
    let mut engine = engine(alloc, &FILES, options)?;
    let result = change_each(alloc, &mut engine, rows);
    drop(engine);
    result
}

#[test]
fn measured_lines_at_another_width_are_those_of_a_fresh_layout(
    rt: HostRuntime,
) -> Result<(), Fail> {
    assert!(rt; all_changed(rt.alloc(), NO_TAB_STOPS, &ROWS)?);
    assert!(rt; all_changed(rt.alloc(), NO_TAB_STOPS, &WIDE)?);
    Ok(())
}

#[test]
fn measured_tabs_have_their_widths_on_the_lines_at_another_width(
    rt: HostRuntime,
) -> Result<(), Fail> {
    assert!(rt; all_changed(rt.alloc(), TAB_STOPS, &TABS)?);
    assert!(rt; all_changed(rt.alloc(), SPACES, &SPACE_ROWS)?);
    Ok(())
}

// A paragraph, the columns of its characters, and a width.
type ColumnRow = (&'static str, &'static [u32], u16);

// Tab stops are every 8 columns.
static COLUMNS: [ColumnRow; 7] = [
    ("abc   def", &[1, 1, 1, 1, 1, 1, 1, 1, 1], 3),
    ("ab cd ef", &[1, 1, 1, 1, 1, 1, 1, 1], 5),
    ("e\u{300}e\u{300}e", &[1, 0, 1, 0, 1], 1),
    ("\u{4E00}\u{4E00}\u{4E00}", &[2, 2, 2], 5),
    ("\u{5D0}1 (\u{5D1}", &[1, 1, 1, 1, 1], 2),
    ("a\tb\t\tc", &[1, 8, 1, 8, 8, 1], 9),
    ("abcdefghijklmnop qrstuvwxyz", &[1; 27], 20),
];

// Returns whether a measured line equals a line that is not measured.
fn is_same_line(measured: &VisualLine<'_>, line: &VisualLine<'_>) -> bool {
    (measured.len() == line.len())
        & (measured.chars() == line.chars())
        & (measured.levels() == line.levels())
        & (measured.ltov() == line.ltov())
        & (measured.columns() == line.columns())
        & (measured.columns_left(2) == line.columns_left(2))
}

fn are_same(measured: &Laid, laid: &Laid) -> bool {
    let mut all_right = measured.line_starts() == laid.line_starts() && laid.advances().is_none();
    for n in 0..laid.line_count() {
        match (measured.line(n), laid.line(n)) {
            (Some(first), Some(second)) => all_right &= is_same_line(&first, &second),
            _ => all_right = false,
        }
    }
    all_right
}

fn is_as_by_columns(alloc: Global, engine: &mut Engine, row: &ColumnRow) -> Result<bool, Fail> {
    let (text, _, width) = *row;
    let laid = super::lay_out(alloc, engine, text, width)?;
    let result = is_same_as(alloc, engine, row, &laid);
    drop(laid);
    result
}

fn is_same_as(
    alloc: Global,
    engine: &mut Engine,
    row: &ColumnRow,
    laid: &Laid,
) -> Result<bool, Fail> {
    let (text, advances, width) = *row;
    let measured = lay_out(alloc, engine, text, advances, u32::from(width))?;
    Ok(are_same(&measured, laid))
}

fn compare_each(alloc: Global, engine: &mut Engine, rows: &[ColumnRow]) -> Result<bool, Fail> {
    let mut all_right = true;
    for row in rows {
        all_right &= is_as_by_columns(alloc, engine, row)?;
    }
    Ok(all_right)
}

#[test]
fn advances_that_are_columns_give_the_same_lines(rt: HostRuntime) -> Result<(), Fail> {
    let mut engine = engine(rt.alloc(), &FILES, TAB_STOPS)?;
    let result = compare_each(rt.alloc(), &mut engine, &COLUMNS);
    drop(engine);
    assert!(rt; result?);
    Ok(())
}

fn writes(alloc: Global, engine: &mut Engine) -> Result<bool, Fail> {
    let laid = lay_out(alloc, engine, "\u{5D0}\t\u{5D1}", &[10, 16, 20], 80)?;
    Ok(is_written(&laid, 80, &PLAIN, "\u{5D1}\t\u{5D0}\n".as_bytes()))
}

#[test]
fn measured_line_is_printed_without_padding_and_with_its_tabs(rt: HostRuntime) -> Result<(), Fail> {
    let mut engine = engine(rt.alloc(), &FILES, TAB_STOPS)?;
    let result = writes(rt.alloc(), &mut engine);
    drop(engine);
    assert!(rt; result?);
    Ok(())
}

#[test]
fn advances_fit_up_to_a_sum_of_2_to_the_32(rt: HostRuntime) {
    assert!(rt; advances_fit(&[]));
    assert!(rt; advances_fit(&[u32::MAX]));
    assert!(rt; advances_fit(&[u32::MAX - 1, 1]));
    assert!(rt; !advances_fit(&[u32::MAX, 1]));
    assert!(rt; !advances_fit(&[1 << 31, 1 << 31]));
}
