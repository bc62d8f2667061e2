//! Tests joining types and presentation forms that are read from small files, and the faults of malformed
//! files. The tests must also pass if any one allocation fails.
use crate::files;
use joining::LetterForms;
use std::alloc::Global;
use std::process::Abort;
use std::test::Fail;
use ucd::{Cause, Form, JoiningFiles, JoiningTables, JoiningType, TableFault, Tables};

const SHAPING: &[u8] = b"\
# A comment with letters such as \xD8\xA8\n\
0622; ALEF WITH MADDA ABOVE; R; ALEF\n\
0627;ALEF;R;ALEF\n\
0628; BEH; D; BEH # a comment\n\
\n\
0640 ;\tTATWEEL; C; No_Joining_Group\r\n\
200D; ZERO WIDTH JOINER; C; No_Joining_Group\n\
0600; ARABIC NUMBER SIGN; U; No_Joining_Group\n\
1807; MONGOLIAN SIBE SYLLABLE BOUNDARY MARKER; D; No_Joining_Group\n\
A872; PHAGS-PA SUPERFIXED LETTER RA; L; No_Joining_Group\n\
180F; MONGOLIAN FREE VARIATION SELECTOR FOUR; T; No_Joining_Group\n\
1E943; ADLAM CAPITAL LETTER GA; D; No_Joining_Group\n\
06BA; NOON GHUNNA; D; NOON";

const DATA: &[u8] = b"\
0300;COMBINING GRAVE ACCENT;Mn;230;NSM;;;;;N;NON-SPACING GRAVE;;;;\n\
0488;COMBINING CYRILLIC HUNDRED THOUSANDS SIGN;Me;0;NSM;;;;;N;;;;;\n\
0600;ARABIC NUMBER SIGN;Cf;0;AN;;;;;N;;;;;\n\
0628;ARABIC LETTER BEH;Lo;0;AL;;;;;N;ARABIC LETTER BAA;;;;\n\
0903;DEVANAGARI SIGN VISARGA;Mc;0;L;;;;;N;;;;;\n\
200D;ZERO WIDTH JOINER;Cf;0;BN;;;;;N;;;;;\n\
3400;<CJK Ideograph Extension A, First>;Lo;0;L;;;;;N;;;;;\n\
4DBF;<CJK Ideograph Extension A, Last>;Lo;0;L;;;;;N;;;;;\n\
AC00;<Marks, First>;Mn;0;L;;;;;N;;;;;\n\
D7A3;<Marks, Last>;Mn;0;L;;;;;N;;;;;\n\
D800;<Non Private Use High Surrogate, First>;Cs;0;L;;;;;N;;;;;\n\
DB7F;<Non Private Use High Surrogate, Last>;Cs;0;L;;;;;N;;;;;\n\
FB9E;ARABIC LETTER NOON GHUNNA ISOLATED FORM;Lo;0;AL;<isolated> 06BA;;;;N;;;;;\n\
FB9F;ARABIC LETTER NOON GHUNNA FINAL FORM;Lo;0;AL;<final> 06BA;;;;N;;;;;\n\
FC00;ARABIC LIGATURE;Lo;0;AL;<isolated> 0626 062C;;;;N;;;;;\n\
FD3C;ARABIC LIGATURE ALEF WITH FATHATAN FINAL FORM;Lo;0;AL;<final> 0627 064B;;;;N;;;;;\n\
FE8D;ARABIC LETTER ALEF ISOLATED FORM;Lo;0;AL;<isolated> 0627;;;;N;;;;;\n\
FE8E;ARABIC LETTER ALEF FINAL FORM;Lo;0;AL;<final> 0627;;;;N;;;;;\n\
FE8F;ARABIC LETTER BEH ISOLATED FORM;Lo;0;AL;<isolated> 0628;;;;N;;;;;\n\
FE90;ARABIC LETTER BEH FINAL FORM;Lo;0;AL;<final> 0628;;;;N;;;;;\n\
FE91;ARABIC LETTER BEH INITIAL FORM;Lo;0;AL;<initial> 0628;;;;N;;;;;\n\
FE92;ARABIC LETTER BEH MEDIAL FORM;Lo;0;AL;<medial> 0628;;;;N;;;;;\n\
FF01;FULLWIDTH EXCLAMATION MARK;Po;0;ON;<wide> 0021;;;;N;;;;;\n\
F900;CJK COMPATIBILITY IDEOGRAPH-F900;Lo;0;L;8C48;;;;N;;;;;\n";

const FILES: JoiningFiles<'_> = JoiningFiles {
    arabic_shaping: SHAPING,
    unicode_data: DATA,
};

// Reads the tables, and tries again after an allocation failure.
fn read(alloc: Global, files: &JoiningFiles<'_>) -> Result<JoiningTables, TableFault> {
    let tables = JoiningTables::read(alloc, files);
    if is_refused(&tables) {
        drop(tables);
        return JoiningTables::read(alloc, files);
    }
    tables
}

fn is_refused(tables: &Result<JoiningTables, TableFault>) -> bool {
    match tables {
        Ok(_) => false,
        Err(fault) => fault.cause == Cause::Memory,
    }
}

static TYPES: [(char, JoiningType); 20] = [
    ('\u{627}', JoiningType::RightJoining),
    ('\u{628}', JoiningType::DualJoining),
    ('\u{640}', JoiningType::JoinCausing),
    ('\u{A872}', JoiningType::LeftJoining),
    ('\u{180F}', JoiningType::Transparent),
    ('\u{1E943}', JoiningType::DualJoining),
    // Format characters that ArabicShaping.txt lists have its types.
    ('\u{200D}', JoiningType::JoinCausing),
    ('\u{600}', JoiningType::NonJoining),
    // Marks that it does not list.
    ('\u{300}', JoiningType::Transparent),
    ('\u{488}', JoiningType::Transparent),
    ('\u{903}', JoiningType::NonJoining),
    // A range, and the characters next to it.
    ('\u{ABFF}', JoiningType::NonJoining),
    ('\u{AC00}', JoiningType::Transparent),
    ('\u{C000}', JoiningType::Transparent),
    ('\u{D7A3}', JoiningType::Transparent),
    ('\u{D7A4}', JoiningType::NonJoining),
    ('\u{4000}', JoiningType::NonJoining),
    // Characters that no file lists, of which two are the first and the last.
    ('a', JoiningType::NonJoining),
    ('\0', JoiningType::NonJoining),
    ('\u{10FFFF}', JoiningType::NonJoining),
];

#[test]
fn joining_types_are_those_of_both_files(rt: HostRuntime) -> Result<(), Fail> {
    let tables = read(rt.alloc(), &FILES)?;
    for (c, joining) in &TYPES {
        assert!(rt; tables.joining_type(*c) == *joining, "at {}", *c as u32);
    }
    assert!(rt; joining::joining_type(&tables, '\u{628}') == joining::JoiningType::DualJoining);
    assert!(rt; joining::joining_type(&tables, '\u{300}') == joining::JoiningType::Transparent);
    Ok(())
}

// Returns the same tables with joining tables, and tries again after an allocation failure.
fn with_joining(
    alloc: Global,
    tables: &Tables,
    files: &JoiningFiles<'_>,
) -> Result<Tables, TableFault> {
    let joining = read(alloc, files)?;
    if let Ok(joined) = tables.with_joining(alloc, joining) {
        return Ok(joined);
    }
    let joining = read(alloc, files)?;
    match tables.with_joining(alloc, joining) {
        Ok(joined) => Ok(joined),
        Err(_) => Err(TableFault {
            file: 0,
            line: 0,
            cause: Cause::Memory,
        }),
    }
}

// Returns whether tables have joining tables in which U+0628 has this type and this final form.
fn has_beh(tables: &Tables, joining: JoiningType, form: Option<char>) -> bool {
    let Some(found) = tables.joining() else {
        return false;
    };
    found.joining_type('\u{628}') == joining
        && found.presentation_form('\u{628}', Form::Final) == form
}

#[test]
fn copies_keep_joining_tables(rt: HostRuntime) -> Result<(), Fail> {
    let tables = files::read(rt.alloc(), &files::FILES)?;
    assert!(rt; tables.joining().is_none());
    let joined = with_joining(rt.alloc(), &tables, &FILES)?;
    let copy = joined.copy(rt.alloc())?;
    let separated = joined.with_line_separators(rt.alloc())?;
    let separated_copy = separated.copy(rt.alloc())?;
    drop(joined);
    assert!(rt; tables.joining().is_none());
    for same in [&copy, &separated, &separated_copy] {
        assert!(rt; has_beh(same, JoiningType::DualJoining, Some('\u{FE90}')));
        assert!(rt; same.bidi_class('(') == tables.bidi_class('('));
    }
    Ok(())
}

#[test]
fn joining_tables_can_be_replaced(rt: HostRuntime) -> Result<(), Fail> {
    let tables = files::read(rt.alloc(), &files::FILES)?;
    let joined = with_joining(rt.alloc(), &tables, &FILES)?;
    let only_types = JoiningFiles {
        arabic_shaping: b"0628; BEH; R; BEH",
        unicode_data: b"",
    };
    let replaced = with_joining(rt.alloc(), &joined, &only_types)?;
    assert!(rt; has_beh(&replaced, JoiningType::RightJoining, None));
    assert!(rt; has_beh(&joined, JoiningType::DualJoining, Some('\u{FE90}')));
    Ok(())
}

// A letter and its isolated, final, initial and medial form.
type Row = (char, Option<char>, Option<char>, Option<char>, Option<char>);

static FORMS: [Row; 6] = [
    (
        '\u{628}',
        Some('\u{FE8F}'),
        Some('\u{FE90}'),
        Some('\u{FE91}'),
        Some('\u{FE92}'),
    ),
    ('\u{627}', Some('\u{FE8D}'), Some('\u{FE8E}'), None, None),
    ('\u{6BA}', Some('\u{FB9E}'), Some('\u{FB9F}'), None, None),
    // The first letter of a decomposition of two, a decomposition with another tag, and one without a tag.
    ('\u{626}', None, None, None, None),
    ('!', None, None, None, None),
    ('\u{8C48}', None, None, None, None),
];

// Returns the forms of a letter, with one call for each.
fn forms_of(tables: &JoiningTables, letter: char) -> Row {
    (
        letter,
        tables.presentation_form(letter, Form::Isolated),
        tables.presentation_form(letter, Form::Final),
        tables.presentation_form(letter, Form::Initial),
        tables.presentation_form(letter, Form::Medial),
    )
}

// Returns the forms of a letter that joining takes.
fn forms_for_joining(tables: &JoiningTables, letter: char) -> Row {
    let forms = tables.forms_of(letter);
    (
        letter,
        forms.isolated_form,
        forms.final_form,
        forms.initial_form,
        forms.medial_form,
    )
}

#[test]
fn presentation_forms_are_those_of_decompositions(rt: HostRuntime) -> Result<(), Fail> {
    let tables = read(rt.alloc(), &FILES)?;
    for row in &FORMS {
        let is_right = forms_of(&tables, row.0) == *row
            && forms_for_joining(&tables, row.0) == *row;
        assert!(rt; is_right, "at {}", row.0 as u32);
    }
    Ok(())
}

// Lines of ArabicShaping.txt, the faulty line and the cause.
static SHAPING_FAULTS: [(&[u8], usize, Cause); 6] = [
    (b"0628; B\xC3\x89H; D; BEH", 1, Cause::NotAscii),
    (b"\n0628; BEH; D", 2, Cause::FieldCount),
    (b"0628; BEH; D; BEH; BEH", 1, Cause::FieldCount),
    (b"0628..0629; BEH; D; BEH", 1, Cause::CodePoint),
    (b"0628; BEH; X; BEH", 1, Cause::Value),
    (
        b"0628; BEH; D; BEH\n0629; TEH MARBUTA; R; TEH MARBUTA\n0628; BEH; D; BEH",
        3,
        Cause::NamedBefore,
    ),
];

// Lines of UnicodeData.txt, the faulty line and the cause.
static DATA_FAULTS: [(&[u8], usize, Cause); 13] = [
    (b"0041;\xC3\x89;Lu;0;L;;;;;N;;;;;", 1, Cause::NotAscii),
    (b"0041;A;Lu;0;L;;;;;N;;;;", 1, Cause::FieldCount),
    (b"0041;A;Lu;0;L;;;;;N;;;;;;", 1, Cause::FieldCount),
    (b"110000;A;Lu;0;L;;;;;N;;;;;", 1, Cause::CodePoint),
    // A range that only ends, one that only begins, and ranges that end before they begin or with their first
    // code point.
    (b"0041;<A, Last>;Lu;0;L;;;;;N;;;;;", 1, Cause::Value),
    (
        b"0041;<A, First>;Lu;0;L;;;;;N;;;;;\n0042;B;Lu;0;L;;;;;N;;;;;",
        2,
        Cause::Value,
    ),
    (
        b"0041;<A, First>;Lu;0;L;;;;;N;;;;;\n0040;<A, Last>;Lu;0;L;;;;;N;;;;;",
        2,
        Cause::Reversed,
    ),
    (
        b"0041;<A, First>;Lu;0;L;;;;;N;;;;;\n0041;<A, Last>;Lu;0;L;;;;;N;;;;;",
        2,
        Cause::Reversed,
    ),
    (
        b"0041;<A, First>;Lu;0;L;;;;;N;;;;;\n0050;<A, Last>;Lu;0;L;;;;;N;;;;;\n0060;<A, Last>;Lu;0;L;;;;;N;;;;;",
        3,
        Cause::Value,
    ),
    // The same code point, also within a range, and the same form of a letter.
    (
        b"0041;A;Lu;0;L;;;;;N;;;;;\n0041;A;Lu;0;L;;;;;N;;;;;",
        2,
        Cause::NamedBefore,
    ),
    (
        b"0045;E;Lu;0;L;;;;;N;;;;;\n0041;<A, First>;Lu;0;L;;;;;N;;;;;\n0050;<A, Last>;Lu;0;L;;;;;N;;;;;",
        3,
        Cause::NamedBefore,
    ),
    (
        b"FE90;A;Lo;0;AL;<final> 0628;;;;N;;;;;\nFE91;B;Lo;0;AL;<initial> 0628;;;;N;;;;;\nFE92;C;Lo;0;AL;<final> 0628;;;;N;;;;;",
        3,
        Cause::NamedBefore,
    ),
    // A blank line is between the two lines of a range.
    (
        b"0041;<A, First>;Lu;0;L;;;;;N;;;;;\n\n0050;<A, Last>;Lu;0;L;;;;;N;;;;;",
        3,
        Cause::Value,
    ),
];

// Returns the fault with which files are refused, or `None` if they are accepted.
fn fault_of(alloc: Global, files: &JoiningFiles<'_>) -> Option<TableFault> {
    read(alloc, files).err()
}

#[test]
fn faulty_lines_of_arabic_shaping_are_refused_with_their_cause(rt: HostRuntime) {
    for (lines, line, cause) in &SHAPING_FAULTS {
        let files = JoiningFiles {
            arabic_shaping: lines,
            ..FILES
        };
        let fault = TableFault {
            file: 8,
            line: *line,
            cause: *cause,
        };
        assert!(rt; fault_of(rt.alloc(), &files) == Some(fault), "{lines:?}");
    }
}

#[test]
fn faulty_lines_of_unicode_data_are_refused_with_their_cause(rt: HostRuntime) {
    for (lines, line, cause) in &DATA_FAULTS {
        let files = JoiningFiles {
            unicode_data: lines,
            ..FILES
        };
        let fault = TableFault {
            file: 9,
            line: *line,
            cause: *cause,
        };
        assert!(rt; fault_of(rt.alloc(), &files) == Some(fault), "{lines:?}");
    }
}

// Both files are faulty.
#[test]
fn arabic_shaping_is_read_first(rt: HostRuntime) {
    let files = JoiningFiles {
        arabic_shaping: b"\n\n0628; BEH; X; BEH",
        unicode_data: b"0041",
    };
    let fault = TableFault {
        file: 8,
        line: 3,
        cause: Cause::Value,
    };
    assert!(rt; fault_of(rt.alloc(), &files) == Some(fault));
}
