//! Tests that, at odd levels, nonspacing marks come after their bases with the option `reordernsm`, and
//! before them without it.
use super::lay_out;
use super::printed::{ALL, PLAIN, UNMIRRORED, are_printed};
use crate::files::{FILES, engine};
use bidi::Base;
use lines::{Engine, Laid, Options, Print};
use std::alloc::Global;
use std::test::Fail;
use ucd::UcdFiles;

const READ: Options = Options {
    base: Base::WeakLtr,
    nobreak: false,
    reordernsm: true,
    whole_numbers: false,
    reorder_clusters: false,
    show_spaces: false,
    tab_width: 0,
};

const REVERSED: Options = Options {
    reordernsm: false,
    ..READ
};

// Files in which Hebrew points have class NSM.
const POINTS: UcdFiles<'_> = UcdFiles {
    bidi_class: b"05B0..05BD;NSM\n05D0..05EA;R\n",
    ..FILES
};

// A text of one line, its characters in visual order, and both position maps.
type Row = (
    &'static str,
    &'static [char],
    &'static [u32],
    &'static [u32],
);

// Texts, and their visual order with the option. The last two have a nonspacing mark at a different level
// from its base, and a nonspacing mark after a space at the end of the line.
static READ_ROWS: [Row; 7] = [
    (
        "\u{5D0}\u{300}\u{5D1}",
        &['\u{5D1}', '\u{5D0}', '\u{300}'],
        &[1, 2, 0],
        &[2, 0, 1],
    ),
    (
        "\u{5D0}\u{300}\u{301}",
        &['\u{5D0}', '\u{300}', '\u{301}'],
        &[0, 1, 2],
        &[0, 1, 2],
    ),
    (
        "\u{5D0}1\u{300}",
        &['1', '\u{300}', '\u{5D0}'],
        &[2, 0, 1],
        &[1, 2, 0],
    ),
    (
        "\u{300}\u{301}\u{5D0}\u{300} ",
        &['\u{5D0}', '\u{300}', '\u{301}', '\u{300}'],
        &[3, 2, 0, 1],
        &[2, 3, 1, 0],
    ),
    (
        "a \u{5D0}\u{300}",
        &['a', ' ', '\u{5D0}', '\u{300}'],
        &[0, 1, 2, 3],
        &[0, 1, 2, 3],
    ),
    (
        "\u{5D0}\u{2066}\u{300}\u{2069}",
        &['\u{2069}', '\u{300}', '\u{2066}', '\u{5D0}'],
        &[3, 2, 1, 0],
        &[3, 2, 1, 0],
    ),
    (
        "\u{5D0} \u{300}",
        &[' ', '\u{300}', '\u{5D0}'],
        &[2, 0, 1],
        &[1, 2, 0],
    ),
];

// The texts above whose visual order is different without the option, and their order without it.
static REVERSED_ROWS: [Row; 5] = [
    (
        "\u{5D0}\u{300}\u{5D1}",
        &['\u{5D1}', '\u{300}', '\u{5D0}'],
        &[2, 1, 0],
        &[2, 1, 0],
    ),
    (
        "\u{5D0}\u{300}\u{301}",
        &['\u{301}', '\u{300}', '\u{5D0}'],
        &[2, 1, 0],
        &[2, 1, 0],
    ),
    (
        "\u{300}\u{301}\u{5D0}\u{300} ",
        &['\u{300}', '\u{5D0}', '\u{301}', '\u{300}'],
        &[3, 2, 1, 0],
        &[3, 2, 1, 0],
    ),
    (
        "a \u{5D0}\u{300}",
        &['a', ' ', '\u{300}', '\u{5D0}'],
        &[0, 1, 3, 2],
        &[0, 1, 3, 2],
    ),
    (
        "\u{5D0} \u{300}",
        &['\u{300}', ' ', '\u{5D0}'],
        &[2, 1, 0],
        &[2, 1, 0],
    ),
];

// At an even level, a nonspacing mark is after its base with or without the option.
static RTL_ROWS: [Row; 1] = [("a\u{300}", &['a', '\u{300}'], &[0, 1], &[0, 1])];

static POINT_ROWS: [Row; 1] = [(
    "\u{5D0}\u{5B8}\u{5E9}",
    &['\u{5E9}', '\u{5D0}', '\u{5B8}'],
    &[1, 2, 0],
    &[2, 0, 1],
)];

// A paragraph, a width, the print options, and the printed bytes.
static PRINTED: [(&str, u16, Print, &str); 3] = [
    (
        "\u{5D0}\u{300}(\u{5D1}",
        4,
        ALL,
        " \u{5D1})\u{5D0}\u{300}\nRTL\n2 3 1 0\n3 2 0 1\n1 1 1 1\n",
    ),
    (
        "\u{5D0}\u{300}(\u{5D1}",
        3,
        UNMIRRORED,
        "\u{5D1}(\u{5D0}\u{300}\n",
    ),
    ("ab", 3, PLAIN, "ab\n"),
];

fn is_ordered(laid: &Laid, row: &Row) -> bool {
    match laid.line(0) {
        Some(line) => line.chars() == row.1 && line.ltov() == row.2 && line.vtol() == row.3,
        None => false,
    }
}

fn orders(alloc: Global, engine: &mut Engine, row: &Row) -> Result<bool, Fail> {
    let laid = lay_out(alloc, engine, row.0, 80)?;
    Ok(laid.line_count() == 1 && is_ordered(&laid, row))
}

fn order_each(alloc: Global, engine: &mut Engine, rows: &[Row]) -> Result<bool, Fail> {
    let mut all_right = true;
    for row in rows {
        all_right &= orders(alloc, engine, row)?;
    }
    Ok(all_right)
}

// Returns whether an engine with these files and options gives each text the order in its row.
fn all_ordered(
    alloc: Global,
    files: &UcdFiles<'_>,
    options: Options,
    rows: &[Row],
) -> Result<bool, Fail> {
    let mut engine = engine(alloc, files, options)?;
    let result = order_each(alloc, &mut engine, rows);
    drop(engine);
    result
}

#[test]
fn reordernsm_puts_marks_after_their_bases(rt: HostRuntime) -> Result<(), Fail> {
    assert!(rt; all_ordered(rt.alloc(), &FILES, READ, &READ_ROWS)?);
    Ok(())
}

#[test]
fn marks_are_in_front_of_their_bases_without_reordernsm(rt: HostRuntime) -> Result<(), Fail> {
    assert!(rt; all_ordered(rt.alloc(), &FILES, REVERSED, &REVERSED_ROWS)?);
    Ok(())
}

#[test]
fn marks_at_an_even_level_are_after_their_bases(rt: HostRuntime) -> Result<(), Fail> {
    let options = Options {
        base: Base::Rtl,
        ..READ
    };
    assert!(rt; all_ordered(rt.alloc(), &FILES, options, &RTL_ROWS)?);
    Ok(())
}

#[test]
fn reordernsm_puts_hebrew_points_after_their_letters(rt: HostRuntime) -> Result<(), Fail> {
    assert!(rt; all_ordered(rt.alloc(), &POINTS, READ, &POINT_ROWS)?);
    Ok(())
}

#[test]
fn marks_are_printed_after_their_bases_with_reordernsm(rt: HostRuntime) -> Result<(), Fail> {
    let mut engine = engine(rt.alloc(), &FILES, READ)?;
    let result = are_printed(rt.alloc(), &mut engine, &PRINTED);
    drop(engine);
    assert!(rt; result?);
    Ok(())
}
