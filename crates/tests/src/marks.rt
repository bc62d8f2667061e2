//! Tests the break marks of worked examples, and compares the break marks of lists of characters with the
//! reference implementation. The tests must also pass if any one allocation fails.
ghost use Rattle.std.specs.Prelude.{◌≡◌, map, OnOk};
ghost use Rattle.ucd.specs.Properties.{properties_of};

use crate::files::{FILES, read};
use breaks::{Mark, marks, marks_into};
use reference::marks::reference_marks;
use std::alloc::{AllocError, Global};
use std::process::Abort;
use std::test::Fail;
use ucd::{LineClass, Properties, Tables, UcdFiles};

// Returns the marks of a text, and tries again after an allocation failure.
fn marks_of(
    alloc: Global,
    tables: &Tables,
    text: &[char],
    whole_numbers: bool,
) -> Result<Vec<Mark>, AllocError> {
    match marks(alloc, tables, text, whole_numbers) {
        Ok(marks) => Ok(marks),
        Err(_) => marks(alloc, tables, text, whole_numbers),
    }
}

// Returns whether the marks are those that these symbols stand for in the annex.
fn are_signs(marks: &[Mark], signs: &str) -> bool {
    let mut all_right = marks.len() == signs.chars().count();
    for (mark, sign) in marks.iter().zip(signs.chars()) {
        let is = match mark {
            Mark::Never => '×',
            Mark::May => '÷',
            Mark::Must => '!',
        };
        all_right &= is == sign;
    }
    all_right
}

fn has_marks(
    alloc: Global,
    tables: &Tables,
    text: &[char],
    whole_numbers: bool,
    signs: &str,
) -> Result<bool, AllocError> {
    let marks = marks_of(alloc, tables, text, whole_numbers)?;
    Ok(are_signs(&marks, signs))
}

// Texts, and their marks, which are the same with and without whole numbers.
static ROWS: [(&str, &str); 15] = [
    ("", ""),
    ("a b", "×÷!"),
    ("a-b", "×÷!"),
    ("\u{5D0}-\u{5D1}", "××!"),
    ("a(b", "××!"),
    ("a\u{3008}", "÷!"),
    ("a\u{200B} b", "××÷!"),
    ("\" (", "××!"),
    ("\u{2014} \u{2014}", "××!"),
    ("a\u{200D}\u{4E00}", "××!"),
    ("a\r\n", "××!"),
    ("a\u{2028}b", "×!!"),
    ("\u{1F1E6}\u{1F1E6}\u{1F1E6}a\u{1F1E6}\u{1F1E6}", "×÷÷÷×!"),
    (
        "\u{1F1E6}\u{1F1E6}\u{300}\u{1F1E6}\u{1F1E6}\u{1F1E6}",
        "××÷×÷!",
    ),
    ("a \u{300}b", "×÷×!"),
];

// Texts, and their marks with `whole_numbers` off and on.
static NUMBERS: [(&str, &str, &str); 23] = [
    ("$(1", "××!", "××!"),
    ("$(a", "××!", "÷×!"),
    ("$(", "×!", "÷!"),
    ("$\u{3008}1", "××!", "××!"),
    ("$\u{3008}a", "××!", "÷×!"),
    ("$\u{300}(\u{300}\u{200D}1", "×××××!", "×××××!"),
    ("$(\u{300}a", "×××!", "÷××!"),
    ("$(\u{300}", "××!", "÷×!"),
    ("$\u{200D}(a", "×××!", "×××!"),
    ("%( 1", "×××!", "÷××!"),
    ("a}%", "××!", "×÷!"),
    ("1}%", "××!", "××!"),
    ("1\u{300},\u{300})\u{300}$", "××××××!", "××××××!"),
    ("1))%", "×××!", "××÷!"),
    ("1/%", "×÷!", "××!"),
    ("a,1", "××!", "×÷!"),
    ("0,1", "××!", "××!"),
    ("1/2", "××!", "××!"),
    ("1 /2", "×××!", "××÷!"),
    ("$-1", "××!", "××!"),
    ("$1,234.56", "××××××××!", "××××××××!"),
    ("(12.5%)", "××××××!", "××××××!"),
    ("%(1.)$1", "××××××!", "××××××!"),
];

// Texts with a degree sign or a euro sign, and their marks without and with whole numbers. A line may end
// after a space inside what would otherwise be a number, but not after a no-break space.
static SIGNS: [(&str, &str, &str); 3] = [
    ("-5\u{B0}", "××!", "××!"),
    ("\u{20AC}\u{A0}30", "×××!", "×××!"),
    ("\u{20AC} 30", "×÷×!", "×÷×!"),
];

// The marks of U+00A9 and a modifier, if U+00A9 is unassigned and if it is assigned.
static PICTOGRAPHS: [(&[u8], &str); 2] = [(b"", "×!"), (b"00A9;So", "÷!")];

// Checks the marks of a text without and with whole numbers.
fn check(
    rt: &impl Abort,
    alloc: Global,
    tables: &Tables,
    text: &str,
    [want, want_whole]: [&str; 2],
) -> Result<(), AllocError> {
    let chars: Vec<char> = text.chars().collect(alloc)?;
    let has = has_marks(alloc, tables, &chars, false, want);
    let has_whole = has_marks(alloc, tables, &chars, true, want_whole);
    drop(chars);
    let are_right = has? & has_whole?;
    assert!(rt; are_right, "{text:?}");
    Ok(())
}

fn check_each(
    rt: &impl Abort,
    alloc: Global,
    tables: &Tables,
    rows: &[(&str, &str)],
) -> Result<(), AllocError> {
    for (text, want) in rows {
        check(rt, alloc, tables, text, [want, want])?;
    }
    Ok(())
}

fn check_numbers(
    rt: &impl Abort,
    alloc: Global,
    tables: &Tables,
    rows: &[(&str, &str, &str)],
) -> Result<(), AllocError> {
    for (text, want, want_whole) in rows {
        check(rt, alloc, tables, text, [want, want_whole])?;
    }
    Ok(())
}

#[test]
fn texts_have_their_break_marks(rt: HostRuntime) -> Result<(), Fail> {
    let tables = read(rt.alloc(), &FILES)?;
    let result = check_each(&rt, rt.alloc(), &tables, &ROWS);
    drop(tables);
    Ok(result?)
}

fn check_numbers_by(
    rt: &impl Abort,
    alloc: Global,
    files: &UcdFiles<'_>,
    rows: &[(&str, &str, &str)],
) -> Result<(), Fail> {
    let tables = read(alloc, files)?;
    let result = check_numbers(rt, alloc, &tables, rows);
    drop(tables);
    Ok(result?)
}

#[test]
fn numbers_have_their_marks_with_and_without_whole_numbers(rt: HostRuntime) -> Result<(), Fail> {
    check_numbers_by(&rt, rt.alloc(), &FILES, &NUMBERS)
}

#[test]
fn signs_stay_with_numbers_except_across_a_space(rt: HostRuntime) -> Result<(), Fail> {
    let files = UcdFiles {
        line_break: b"0020;SP\n002D;HY\n0030..0039;NU\n00A0;GL\n00B0;PO\n20AC;PR",
        ..FILES
    };
    check_numbers_by(&rt, rt.alloc(), &files, &SIGNS)
}

fn check_pictograph(
    rt: &impl Abort,
    alloc: Global,
    categories: &[u8],
    want: &str,
) -> Result<(), Fail> {
    let files = UcdFiles {
        line_break: b"1F3FB;EM",
        general_category: categories,
        ..FILES
    };
    let tables = read(alloc, &files)?;
    let result = check(rt, alloc, &tables, "\u{A9}\u{1F3FB}", [want, want]);
    drop(tables);
    Ok(result?)
}

// No break is allowed between an unassigned pictograph and a modifier.
#[test]
fn modifier_stays_with_an_unassigned_pictograph_only(rt: HostRuntime) -> Result<(), Fail> {
    for (categories, want) in &PICTOGRAPHS {
        check_pictograph(&rt, rt.alloc(), categories, want)?;
    }
    Ok(())
}

// Lists that are reused from text to text.
#[derive(Drop)]
struct Kept {
    text: Vec<char>,
    properties: Vec<Properties>,
    classes: Vec<LineClass>,
    expected: Vec<Mark>,
    marks: Vec<Mark>,
}

impl Kept {
    fn new(alloc: Global) -> Kept {
        Kept {
            text: Vec::new(alloc),
            properties: Vec::new(alloc),
            classes: Vec::new(alloc),
            expected: Vec::new(alloc),
            marks: Vec::new(alloc),
        }
    }
}

fn read_all(
    tables: &Tables,
    text: &[char],
    properties: &mut Vec<Properties>,
) -> Result<(), AllocError>
    ensures { OnOk result (properties.new.items ≡ map (properties_of tables.now) text.now) }
{
    properties.clear();
    for c in text {
        properties.push(tables.properties(*c))?;
    }
    Ok(())
}

// Returns whether the marks of the text equal those of the reference implementation, both without and with
// whole numbers.
fn agrees(tables: &Tables, kept: &mut Kept) -> Result<bool, AllocError> {
    read_all(tables, &kept.text, &mut kept.properties)?;
    Ok(agrees_where(tables, false, kept)? && agrees_where(tables, true, kept)?)
}

fn agrees_where(tables: &Tables, whole_numbers: bool, kept: &mut Kept) -> Result<bool, AllocError>
    requires { kept.old.properties.items ≡ map (properties_of tables.now) kept.old.text.items }
    ensures { OnOk result (kept.new.properties.items ≡ map (properties_of tables.now) kept.new.text.items) }
{
    reference_marks(
        tables,
        &kept.text,
        whole_numbers,
        &mut kept.classes,
        &mut kept.expected,
    )?;
    marks_into(
        tables,
        &kept.text,
        &kept.properties,
        whole_numbers,
        &mut kept.marks,
    )?;
    Ok(kept.marks.as_slice() == kept.expected.as_slice())
}

// Two characters of each line breaking class, from U+0100 (BK) on. Some characters are wide, combining marks
// or unassigned pictographs.
const CLASS_FILES: UcdFiles<'_> = UcdFiles {
    line_break: b"0100..0101;BK\n0102..0103;CM\n0104..0105;CR\n0106..0107;GL\n0108..0109;LF\n\
        010A..010B;NL\n010C..010D;SP\n010E..010F;WJ\n0110..0111;ZW\n0112..0113;ZWJ\n\
        0114..0115;B2\n0116..0117;BA\n0118..0119;BB\n011A..011B;CB\n011C..011D;HY\n\
        011E..011F;CL\n0120..0121;CP\n0122..0123;EX\n0124..0125;IN\n0126..0127;NS\n\
        0128..0129;OP\n012A..012B;QU\n012C..012D;IS\n012E..012F;NU\n0130..0131;PO\n\
        0132..0133;PR\n0134..0135;SY\n0136..0137;AI\n0138..0139;AL\n013A..013B;CJ\n\
        013C..013D;EB\n013E..013F;EM\n0140..0141;H2\n0142..0143;H3\n0144..0145;HL\n\
        0146..0147;ID\n0148..0149;JL\n014A..014B;JT\n014C..014D;JV\n014E..014F;RI\n\
        0150..0151;SA\n0152..0153;SG\n0154..0155;XX\n",
    east_asian_width: b"0129;W\n0121;W\n0147;W\n012B;W\n011F;W\n0103;W\n010D;W\n0139;W\n012F;W\n",
    general_category: b"0151;Mn\n0102;Mn\n0121;Mc\n0146;So\n013B;Mn\n",
    emoji_data: b"0147;Extended_Pictographic\n0155;Extended_Pictographic\n0103;Extended_Pictographic\n\
        010D;Extended_Pictographic\n011B;Extended_Pictographic\n013D;Extended_Pictographic\n\
        0129;Extended_Pictographic\n0113;Extended_Pictographic\n0133;Extended_Pictographic\n\
        014F;Extended_Pictographic\n012B;Extended_Pictographic\n0139;Extended_Pictographic\n\
        0101;Extended_Pictographic\n",
    ..FILES
};

static LETTERS: [char; 12] = [
    'a', '\u{5D0}', '\u{627}', '1', '\u{660}', '+', ',', '$', '\u{300}', '(', ')', ' ',
];

// Returns whether the marks of a list of `length` letters equal those of the reference implementation. The
// last digits of `number`, in base `letters.len()`, are the letters' indices.
fn agrees_on(
    tables: &Tables,
    letters: &[char],
    length: usize,
    number: u64,
    kept: &mut Kept,
) -> Result<bool, AllocError> {
    kept.text.clear();
    let count = (letters.len() as u64).max(1);
    let mut rest = number;
    for _ in 0..length {
        let letter = letters.get((rest % count) as usize);
        kept.text.push(letter.copied().unwrap_or('a'))?;
        rest /= count;
    }
    agrees(tables, kept)
}

fn check_list(
    rt: &impl Abort,
    tables: &Tables,
    letters: &[char],
    length: usize,
    number: u64,
    kept: &mut Kept,
) -> Result<(), AllocError> {
    let agrees = match agrees_on(tables, letters, length, number, kept) {
        Ok(agrees) => agrees,
        Err(_) => agrees_on(tables, letters, length, number, kept)?,
    };
    assert!(rt; agrees, "list {number} of {length}");
    Ok(())
}

// Checks the first `numbers` lists of `length` characters.
fn check_lists(
    rt: &impl Abort,
    alloc: Global,
    tables: &Tables,
    letters: &[char],
    length: usize,
    numbers: u64,
) -> Result<(), AllocError> {
    let mut kept = Kept::new(alloc);
    for number in 0..numbers {
        check_list(rt, tables, letters, length, number, &mut kept)?;
    }
    Ok(())
}

// A length, and the number of lists of that length.
static LISTS: [(usize, u64); 4] = [(1, 12), (2, 144), (3, 1_728), (4, 20_736)];

fn check_letters(rt: &impl Abort, alloc: Global, tables: &Tables) -> Result<(), AllocError> {
    for (length, numbers) in &LISTS {
        check_lists(rt, alloc, tables, &LETTERS, *length, *numbers)?;
    }
    Ok(())
}

// Checks every list of 1 to 4 letters.
#[test]
fn walk_finds_the_marks_of_letters(rt: HostRuntime) -> Result<(), Fail> {
    let tables = read(rt.alloc(), &FILES)?;
    let result = check_letters(&rt, rt.alloc(), &tables);
    drop(tables);
    Ok(result?)
}

fn class_letters(alloc: Global) -> Result<Vec<char>, AllocError> {
    (0x100..0x156).filter_map(char::from_u32).collect(alloc)
}

// Checks 10,000 pseudorandom lists of 10 characters.
fn check_random(
    rt: &impl Abort,
    alloc: Global,
    tables: &Tables,
    letters: &[char],
) -> Result<(), AllocError> {
    let mut kept = Kept::new(alloc);
    let mut number: u64 = 1;
    for _ in 0..10_000 {
        number = number
            .wrapping_mul(6_364_136_223_846_793_005)
            .wrapping_add(1);
        check_list(rt, tables, letters, 10, number >> 1, &mut kept)?;
    }
    Ok(())
}

fn check_classes(rt: &impl Abort, alloc: Global, tables: &Tables) -> Result<(), AllocError> {
    let letters = match class_letters(alloc) {
        Ok(letters) => letters,
        Err(_) => class_letters(alloc)?,
    };
    let result = check_lists_of(rt, alloc, tables, &letters);
    drop(letters);
    result
}

fn check_lists_of(
    rt: &impl Abort,
    alloc: Global,
    tables: &Tables,
    letters: &[char],
) -> Result<(), AllocError> {
    check_lists(rt, alloc, tables, letters, 1, 86)?;
    check_lists(rt, alloc, tables, letters, 2, 7_396)?;
    check_random(rt, alloc, tables, letters)
}

// Checks every list of 1 or 2 characters of all classes, and pseudorandom lists of 10.
#[test]
fn walk_finds_the_marks_of_classes(rt: HostRuntime) -> Result<(), Fail> {
    let tables = read(rt.alloc(), &CLASS_FILES)?;
    let result = check_classes(&rt, rt.alloc(), &tables);
    drop(tables);
    Ok(result?)
}
