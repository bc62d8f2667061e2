//! Tests lookups in the seven files and in copies of tables, and the faults of malformed files. The tests
//! must also pass if any one allocation fails.
use crate::files::{FILES, read};
use std::alloc::{AllocError, Global};
use std::process::Abort;
use std::test::Fail;
use ucd::{BidiClass as Bidi, Cause, LineClass as Line, Properties, TableFault, Tables, UcdFiles};

const EMPTY: UcdFiles<'_> = UcdFiles {
    bidi_class: b"",
    bidi_brackets: b"",
    bidi_mirroring: b"",
    line_break: b"",
    general_category: b"",
    east_asian_width: b"",
    emoji_data: b"",
};

// A character and its two classes; for a bracket, the other bracket of its pair and whether it is the opening
// one; its mirror; whether it is wide, a mark or a future pictograph; and its number for line breaking.
type Row = (
    char,
    Bidi,
    Line,
    Option<(char, bool)>,
    Option<char>,
    [bool; 3],
    usize,
);

const NONE: [bool; 3] = [false, false, false];

const WIDE: [bool; 3] = [true, false, false];

static ROWS: [Row; 16] = [
    (
        '(',
        Bidi::ON,
        Line::OP,
        Some((')', true)),
        Some(')'),
        NONE,
        160,
    ),
    (
        ')',
        Bidi::ON,
        Line::CP,
        Some(('(', false)),
        Some('('),
        NONE,
        128,
    ),
    // A character that has a mirror but is not a bracket, and a bracket without a mirror.
    ('<', Bidi::ON, Line::XX, None, Some('>'), NONE, 336),
    (
        '\u{2329}',
        Bidi::ON,
        Line::XX,
        Some(('\u{232A}', true)),
        None,
        NONE,
        336,
    ),
    (
        '\u{3009}',
        Bidi::ON,
        Line::CL,
        Some(('\u{3008}', false)),
        Some('\u{3008}'),
        WIDE,
        124,
    ),
    ('a', Bidi::L, Line::AL, None, None, NONE, 224),
    ('\u{5D0}', Bidi::R, Line::HL, None, None, NONE, 272),
    (
        '\u{300}',
        Bidi::NSM,
        Line::CM,
        None,
        None,
        [false, true, false],
        10,
    ),
    (
        '\u{A9}',
        Bidi::L,
        Line::XX,
        None,
        None,
        [false, false, true],
        337,
    ),
    // A character that emoji-data.txt lists only with other properties.
    ('\u{1F1E6}', Bidi::L, Line::RI, None, None, NONE, 312),
    // A range over many pages, and the characters next to it.
    ('\u{4DFF}', Bidi::L, Line::XX, None, None, NONE, 336),
    ('\u{4E00}', Bidi::L, Line::ID, None, None, WIDE, 284),
    ('\u{9FFF}', Bidi::L, Line::ID, None, None, WIDE, 284),
    ('\u{A000}', Bidi::L, Line::XX, None, None, NONE, 336),
    // The first and the last character.
    ('\0', Bidi::L, Line::XX, None, None, NONE, 336),
    ('\u{10FFFF}', Bidi::L, Line::XX, None, None, NONE, 336),
];

// Looks up the properties of a character, with one call for each, and its line breaking number.
fn looked_up(tables: &Tables, c: char) -> Row {
    let pair = match tables.bracket(c) {
        Some(bracket) => Some((bracket.pair, bracket.opens)),
        None => None,
    };
    let are = [
        tables.is_wide(c),
        tables.is_mark(c),
        tables.is_future_pictograph(c),
    ];
    let index = tables.properties(c).line_index();
    (
        c,
        tables.bidi_class(c),
        tables.line_class(c),
        pair,
        tables.mirror(c),
        are,
        index,
    )
}

// Returns whether a character has the properties of its row.
fn are_of(properties: Properties, row: &Row) -> bool {
    let are = [
        properties.is_wide(),
        properties.is_mark(),
        properties.is_future_pictograph(),
    ];
    properties.bidi_class() == row.1
        && properties.line_class() == row.2
        && properties.has_bracket() == row.3.is_some()
        && properties.has_mirror() == row.4.is_some()
        && are == row.5
}

fn check_rows(rt: &impl Abort, tables: &Tables, rows: &[Row]) {
    for row in rows {
        let is_right = looked_up(tables, row.0) == *row && are_of(tables.properties(row.0), row);
        assert!(rt; is_right, "at {}", row.0 as u32);
    }
}

#[test]
fn characters_have_their_listed_properties(rt: HostRuntime) -> Result<(), Fail> {
    let tables = read(rt.alloc(), &FILES)?;
    check_rows(&rt, &tables, &ROWS);
    Ok(())
}

#[test]
fn names_give_their_classes_and_other_names_none(rt: HostRuntime) {
    assert!(rt; Bidi::from_name(b"NSM") == Some(Bidi::NSM));
    assert!(rt; Line::from_name(b"B2") == Some(Line::B2));
    assert!(rt; Line::from_name(b"NSM") == None);
}

// Returns seven files, only one of which has lines.
fn only(file: usize, lines: &[u8]) -> UcdFiles<'_> {
    let mut files = EMPTY;
    match file {
        1 => files.bidi_class = lines,
        2 => files.bidi_brackets = lines,
        3 => files.bidi_mirroring = lines,
        4 => files.line_break = lines,
        5 => files.general_category = lines,
        6 => files.east_asian_width = lines,
        _ => files.emoji_data = lines,
    }
    files
}

// The first of 200 characters, each of which has a line. 100 of them are in one page, and 100 in the next.
const FIRST: u32 = 0x3F9C;

const NAMES: [(&str, Bidi); 3] = [("R", Bidi::R), ("AL", Bidi::AL), ("EN", Bidi::EN)];

fn numbered_lines(alloc: Global, is_reversed: bool) -> Result<String, AllocError> {
    let mut text = String::new(alloc);
    for n in 0..200 {
        let place = if is_reversed { 199 - n } else { n };
        let (point, name) = (FIRST + place, NAMES[place as usize % 3].0);
        let line = format!(in alloc; "{point:04X};{name}\n")?;
        text.push_str(line.as_str())?;
    }
    Ok(text)
}

fn are_numbered(tables: &Tables) -> bool {
    let mut all_right = true;
    for place in 0..200 {
        let c = char::from_u32(FIRST + place).unwrap_or('\0');
        all_right &= tables.bidi_class(c) == NAMES[place as usize % 3].1;
    }
    all_right
        & (tables.bidi_class('\u{3F9B}') == Bidi::L)
        & (tables.bidi_class('\u{4064}') == Bidi::L)
}

fn name_numbered(alloc: Global, lines: &[u8]) -> Result<bool, TableFault> {
    let tables = read(alloc, &only(1, lines))?;
    Ok(are_numbered(&tables))
}

fn check_order(rt: &impl Abort, alloc: Global, is_reversed: bool) -> Result<(), Fail> {
    let text = match numbered_lines(alloc, is_reversed) {
        Err(_) => numbered_lines(alloc, is_reversed)?,
        Ok(text) => text,
    };
    let result = name_numbered(alloc, text.as_bytes());
    drop(text);
    assert!(rt; result?);
    Ok(())
}

// The order of the lines makes no difference.
#[test]
fn order_of_lines_makes_no_difference(rt: HostRuntime) -> Result<(), Fail> {
    check_order(&rt, rt.alloc(), false)?;
    check_order(&rt, rt.alloc(), true)
}

// Returns whether the tables have these classes.
fn has_classes(
    alloc: Global,
    files: &UcdFiles<'_>,
    classes: &[(char, Bidi)],
) -> Result<bool, TableFault> {
    let tables = read(alloc, files)?;
    Ok(are_classes(&tables, classes))
}

fn are_classes(tables: &Tables, classes: &[(char, Bidi)]) -> bool {
    let mut all_right = true;
    for (c, class) in classes {
        all_right &= tables.bidi_class(*c) == *class;
    }
    all_right
}

static ENDS: [(char, Bidi); 8] = [
    ('\0', Bidi::ON),
    ('\u{1}', Bidi::L),
    ('\u{D7FE}', Bidi::L),
    ('\u{D7FF}', Bidi::R),
    ('\u{E000}', Bidi::R),
    ('\u{E001}', Bidi::L),
    ('\u{10FFFE}', Bidi::L),
    ('\u{10FFFF}', Bidi::AL),
];

// The first and the last character, and a range over the surrogates, which are not characters.
#[test]
fn lines_reach_both_ends_and_across_the_surrogates(rt: HostRuntime) -> Result<(), Fail> {
    let lines = b"10FFFF;AL\nD7FF..E000;R\nD800..DFFF;EN\n0000;ON";
    assert!(rt; has_classes(rt.alloc(), &only(1, lines), &ENDS)?);
    Ok(())
}

// A range that ends after the surrogates, a surrogate, and a last line that ends with U+000D and has no
// U+000A.
const FILES_OF_CLASSES: UcdFiles<'_> = UcdFiles {
    bidi_class: b"D800..E000;R\nD800;L\n0041;AL\r",
    ..FILES
};

static CLASSES: [(char, Bidi); 4] = [
    ('\u{E000}', Bidi::R),
    ('\u{D7FF}', Bidi::L),
    ('\u{E001}', Bidi::L),
    ('A', Bidi::AL),
];

#[test]
fn surrogates_are_ignored_and_so_is_a_last_carriage_return(rt: HostRuntime) -> Result<(), Fail> {
    assert!(rt; has_classes(rt.alloc(), &FILES_OF_CLASSES, &CLASSES)?);
    Ok(())
}

// Files in which letters, the last character and a paired bracket have class B, unlike in Unicode's files.
const FILES_OF_SEPARATORS: UcdFiles<'_> = UcdFiles {
    bidi_class: b"000A;B\n0028;B\n0041;B\n05D0;B\n2028;B\n10FFFF;B",
    ..FILES
};

static SEPARATORS: [(char, Bidi); 8] = [
    ('\n', Bidi::B),
    ('(', Bidi::B),
    ('A', Bidi::B),
    ('\u{5D0}', Bidi::B),
    ('\u{2028}', Bidi::B),
    ('\u{10FFFF}', Bidi::B),
    ('B', Bidi::L),
    ('\u{2029}', Bidi::L),
];

// Returns whether a copy of the tables gives the characters of all rows the same properties, and has the
// usual separators exactly if the tables have them.
fn copy_is_alike(tables: &Tables, copy: &Tables) -> bool {
    let mut all_right = tables.has_usual_separators() == copy.has_usual_separators();
    for row in &ROWS {
        all_right &= looked_up(tables, row.0) == looked_up(copy, row.0);
    }
    all_right
}

#[test]
fn tables_with_unusual_separators_are_copied(rt: HostRuntime) -> Result<(), Fail> {
    let tables = read(rt.alloc(), &FILES_OF_SEPARATORS)?;
    assert!(rt; !tables.has_usual_separators());
    let copy = tables.copy(rt.alloc())?;
    assert!(rt; copy_is_alike(&tables, &copy));
    drop(tables);
    assert!(rt; are_classes(&copy, &SEPARATORS));
    Ok(())
}

#[test]
fn tables_with_usual_separators_are_copied(rt: HostRuntime) -> Result<(), Fail> {
    let tables = read(rt.alloc(), &FILES)?;
    assert!(rt; tables.has_usual_separators());
    let copy = tables.copy(rt.alloc())?;
    assert!(rt; copy_is_alike(&tables, &copy));
    Ok(())
}

// Files in which some of the separators have class B, and U+001E and `A` have other classes than in Unicode's
// files.
const FILES_OF_LINES: UcdFiles<'_> = UcdFiles {
    bidi_class: b"000A;B\n000B;S\n000C;WS\n000D;B\n001C..001D;B\n001E;WS\n0041;B\n0085;B\n2029;B",
    ..FILES
};

static PARAGRAPH_ENDS: [(char, Bidi); 11] = [
    ('\n', Bidi::B),
    ('\u{B}', Bidi::S),
    ('\u{C}', Bidi::WS),
    ('\r', Bidi::B),
    ('\u{1B}', Bidi::L),
    ('\u{1C}', Bidi::B),
    ('\u{1D}', Bidi::B),
    ('\u{1E}', Bidi::WS),
    ('A', Bidi::B),
    ('\u{85}', Bidi::B),
    ('\u{2029}', Bidi::B),
];

static LINE_ENDS: [(char, Bidi); 11] = [
    ('\n', Bidi::B),
    ('\u{B}', Bidi::S),
    ('\u{C}', Bidi::WS),
    ('\r', Bidi::B),
    ('\u{1B}', Bidi::L),
    ('\u{1C}', Bidi::S),
    ('\u{1D}', Bidi::S),
    ('\u{1E}', Bidi::WS),
    ('A', Bidi::B),
    ('\u{85}', Bidi::S),
    ('\u{2029}', Bidi::S),
];

// Returns whether a lookup of a text finds these classes.
fn finds_classes(tables: &Tables, rows: &[(char, Bidi); 11]) -> bool {
    let mut text = ['\0'; 11];
    for k in 0..11 {
        text[k] = rows[k].0;
    }
    let mut found = [tables.properties('\0'); 11];
    tables.look_up(&text, &mut found);
    let mut all_right = true;
    for k in 0..11 {
        all_right &= found[k].bidi_class() == rows[k].1;
    }
    all_right
}

#[test]
fn line_separators_change_rare_separators(rt: HostRuntime) -> Result<(), Fail> {
    let tables = read(rt.alloc(), &FILES_OF_LINES)?;
    assert!(rt; finds_classes(&tables, &PARAGRAPH_ENDS));
    let separated = tables.with_line_separators(rt.alloc())?;
    assert!(rt; finds_classes(&separated, &LINE_ENDS));
    let copy = separated.copy(rt.alloc())?;
    assert!(rt; finds_classes(&copy, &LINE_ENDS));
    assert!(rt; finds_classes(&tables, &PARAGRAPH_ENDS));
    Ok(())
}

#[test]
fn line_separators_change_nothing_else(rt: HostRuntime) -> Result<(), Fail> {
    let tables = read(rt.alloc(), &FILES)?;
    let separated = tables.with_line_separators(rt.alloc())?;
    assert!(rt; copy_is_alike(&tables, &separated));
    let again = separated.with_line_separators(rt.alloc())?;
    assert!(rt; copy_is_alike(&separated, &again));
    Ok(())
}

// A file, its lines, the faulty line and the cause.
static FAULTS: [(usize, &[u8], usize, Cause); 14] = [
    (1, b"0041;\xC3\x89", 1, Cause::NotAscii),
    (2, b"0028..0029; 0029; o", 1, Cause::CodePoint),
    (2, b"0028; 0029; x", 1, Cause::Value),
    (2, b"0028; 0029", 1, Cause::FieldCount),
    (3, b"0028; D800", 1, Cause::Value),
    (4, b"0041;A", 1, Cause::Value),
    (5, b"0041..0030;Q", 1, Cause::Reversed),
    (6, b"0041;N;x", 1, Cause::FieldCount),
    (7, b"0042..0041;Emoji", 1, Cause::Reversed),
    (7, b"41;Emoji", 1, Cause::CodePoint),
    // Ranges across a page boundary that overlap in the last character of one range and the first character
    // of the other.
    (1, b"00F0..0110;R\n\n0110..0120;L", 3, Cause::NamedBefore),
    (1, b"0101..0120;R\n00F0..0101;L", 2, Cause::NamedBefore),
    (4, b"10FFFF;AL\n0000..10FFFF;AL", 2, Cause::NamedBefore),
    (3, b"0028; 0029\n0028; 0029", 2, Cause::NamedBefore),
];

// Returns the fault with which files are refused, or `None` if they are accepted.
fn fault_of(alloc: Global, files: &UcdFiles<'_>) -> Option<TableFault> {
    read(alloc, files).err()
}

fn check_faults(rt: &impl Abort, alloc: Global, rows: &[(usize, &[u8], usize, Cause)]) {
    for (file, lines, line, cause) in rows {
        let fault = TableFault {
            file: *file,
            line: *line,
            cause: *cause,
        };
        let is_right = fault_of(alloc, &only(*file, lines)) == Some(fault);
        assert!(rt; is_right, "{lines:?}");
    }
}

#[test]
fn faulty_lines_are_refused_with_their_cause(rt: HostRuntime) {
    check_faults(&rt, rt.alloc(), &FAULTS);
}

// File 1 is faulty in line 2, and file 2 is faulty in line 1.
#[test]
fn first_faulty_line_of_the_first_faulty_file_is_reported(rt: HostRuntime) {
    let files = UcdFiles {
        bidi_class: b"0041;L\n0041;R",
        bidi_brackets: b"0028; 0029",
        ..EMPTY
    };
    let fault = TableFault {
        file: 1,
        line: 2,
        cause: Cause::NamedBefore,
    };
    assert!(rt; fault_of(rt.alloc(), &files) == Some(fault));
}

// Returns whether these lines make U+00A9 a future pictograph.
fn names_pictograph(alloc: Global, lines: &[u8]) -> Result<bool, TableFault> {
    let tables = read(alloc, &only(7, lines))?;
    Ok(tables.is_future_pictograph('\u{A9}'))
}

// Lines of Extended_Pictographic must not name a character twice. Lines of other properties may, since they
// are ignored.
#[test]
fn only_extended_pictographic_is_refused_when_repeated(rt: HostRuntime) -> Result<(), Fail> {
    let lines = b"00A9;Emoji\n00A9;Emoji\n00A9;Extended_Pictographic";
    assert!(rt; names_pictograph(rt.alloc(), lines)?);
    let lines = b"00A9;Extended_Pictographic\n00A9;Extended_Pictographic";
    let fault = TableFault {
        file: 7,
        line: 2,
        cause: Cause::NamedBefore,
    };
    assert!(rt; fault_of(rt.alloc(), &only(7, lines)) == Some(fault));
    Ok(())
}
