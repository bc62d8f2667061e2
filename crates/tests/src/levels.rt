//! Tests the levels of worked examples, and compares the levels of short lists with the reference
//! implementation.
ghost use Rattle.std.specs.Prelude.{◌≡◌, map, IfOk};
ghost use Rattle.ucd.specs.Properties.{properties_of};

use crate::files::{FILES, read};
use bidi::{
    Base, BracketType, Resolver, base_level, base_level_by, base_level_of, resolve, resolve_by,
};
use reference::levels::reference_levels;
use std::alloc::{AllocError, Global};
use std::test::Fail;
use ucd::{BidiClass, Properties, Tables};

// A character of each class that the weak and neutral rules distinguish, and two brackets.
const CHARACTERS: [char; 12] = [
    'a', '\u{5D0}', '\u{627}', '1', '\u{660}', '+', ',', '$', '\u{300}', '(', ')', ' ',
];

const BASES: [Base; 4] = [Base::Rtl, Base::Ltr, Base::WeakRtl, Base::WeakLtr];

// Replaces `text` with `len` characters: the last digits of `number` in base 12 are their indices.
fn put_list(text: &mut Vec<char>, len: usize, number: usize) -> Result<(), AllocError> {
    text.clear();
    let mut left = number;
    for _ in 0..len {
        text.push(CHARACTERS[left % 12])?;
        left /= 12;
    }
    Ok(())
}

/// Returns the properties of a text's characters.
pub fn properties_of(
    alloc: Global,
    tables: &Tables,
    text: &[char],
) -> Result<Vec<Properties>, AllocError>
    ensures { IfOk result (λ properties. properties.items ≡ map (properties_of tables.now) text.now) }
{
    text.iter().map(|c| tables.properties(*c)).collect(alloc)
}

// Replaces `levels` with the levels of a list. Returns whether `base_level` and `base_level_by` return the
// same base level as the resolver.
fn put_levels(
    alloc: Global,
    resolver: &mut Resolver,
    tables: &Tables,
    text: &[char],
    base: Base,
    levels: &mut Vec<u8>,
) -> Result<bool, AllocError> {
    let properties = properties_of(alloc, tables, text)?;
    let level = resolver.resolve(tables, text, &properties, base, levels)?;
    Ok(level == base_level(tables, text, base) && level == base_level_by(&properties, base))
}

fn classes_of(alloc: Global, tables: &Tables, text: &[char]) -> Result<Vec<BidiClass>, AllocError> {
    text.iter().map(|c| tables.bidi_class(*c)).collect(alloc)
}

// Returns the bracket type of a character.
fn bracket_type(tables: &Tables, character: char) -> BracketType {
    match tables.bracket(character) {
        Some(bracket) => {
            if bracket.opens {
                BracketType::Opening(u32::from(bracket.pair))
            } else {
                BracketType::Closing(u32::from(character))
            }
        }
        None => BracketType::Other,
    }
}

fn brackets_of(
    alloc: Global,
    tables: &Tables,
    text: &[char],
) -> Result<Vec<BracketType>, AllocError> {
    text.iter().map(|c| bracket_type(tables, *c)).collect(alloc)
}

// Replaces `levels` with the levels for classes and bracket types, and returns whether `base_level_of`
// returns the same base level. Returns `false` if the two lists differ in length.
fn put_levels_of(
    resolver: &mut Resolver,
    classes: &[BidiClass],
    brackets: &[BracketType],
    base: Base,
    levels: &mut Vec<u8>,
) -> Result<bool, AllocError> {
    if classes.len() != brackets.len() {
        return Ok(false);
    }
    let level = resolver.resolve_by(classes, brackets, base, levels)?;
    Ok(level == base_level_of(classes, base))
}

// Replaces `levels` with the levels for the classes and bracket types of a text, and returns whether
// `base_level_of` returns the same base level.
fn put_levels_by(
    alloc: Global,
    resolver: &mut Resolver,
    tables: &Tables,
    text: &[char],
    base: Base,
    levels: &mut Vec<u8>,
) -> Result<bool, AllocError> {
    let classes = classes_of(alloc, tables, text)?;
    let brackets = brackets_of(alloc, tables, text)?;
    put_levels_of(resolver, &classes, &brackets, base, levels)
}

// Returns whether the levels from an index on are the expected ones.
fn are_from(levels: &[u8], place: usize, wanted: &[u8]) -> bool {
    match levels.get(place..) {
        Some(after) => after == wanted,
        None => false,
    }
}

// Returns whether a resolver finds these levels from an index on, given the characters of a list.
fn is_found_of_text(
    alloc: Global,
    resolver: &mut Resolver,
    tables: &Tables,
    text: &[char],
    base: Base,
    place: usize,
    wanted: &[u8],
) -> Result<bool, AllocError> {
    let mut levels = Vec::new(alloc);
    let is_base = put_levels(alloc, resolver, tables, text, base, &mut levels)?;
    Ok(is_base && are_from(&levels, place, wanted))
}

// Returns whether a resolver finds these levels from an index on, given the classes and bracket types of a
// list.
fn is_found_by(
    alloc: Global,
    resolver: &mut Resolver,
    tables: &Tables,
    text: &[char],
    base: Base,
    place: usize,
    wanted: &[u8],
) -> Result<bool, AllocError> {
    let mut levels = Vec::new(alloc);
    let is_base = put_levels_by(alloc, resolver, tables, text, base, &mut levels)?;
    Ok(is_base && are_from(&levels, place, wanted))
}

// Returns whether a resolver finds these levels from an index on, both from the characters of a list and from
// their classes and bracket types.
fn is_found(
    alloc: Global,
    resolver: &mut Resolver,
    tables: &Tables,
    text: &[char],
    base: Base,
    place: usize,
    wanted: &[u8],
) -> Result<bool, AllocError> {
    let by_text = is_found_of_text(alloc, resolver, tables, text, base, place, wanted)?;
    let by_lists = is_found_by(alloc, resolver, tables, text, base, place, wanted)?;
    Ok(by_text & by_lists)
}

// Returns the list with an unmatched PDF before it. X9 removes the PDF, so the levels after it are those of
// the list alone. But the PDF makes the resolver apply the full rules, instead of the fast path for a
// paragraph that is a single sequence.
fn after_pdf(alloc: Global, text: &[char]) -> Result<Vec<char>, AllocError> {
    let mut longer = Vec::new(alloc);
    longer.push('\u{202C}')?;
    longer.extend_from_slice(text)?;
    Ok(longer)
}

fn is_found_after_pdf(
    alloc: Global,
    resolver: &mut Resolver,
    tables: &Tables,
    text: &[char],
    base: Base,
    wanted: &[u8],
) -> Result<bool, AllocError> {
    let longer = after_pdf(alloc, text)?;
    is_found(alloc, resolver, tables, &longer, base, 1, wanted)
}

// Returns whether a resolver finds the levels of the reference implementation, with and without a PDF before
// the list.
fn is_same(
    alloc: Global,
    resolver: &mut Resolver,
    tables: &Tables,
    text: &[char],
    base: Base,
) -> Result<bool, AllocError> {
    let wanted = reference_levels(alloc, tables, text, base)?;
    if !is_found(alloc, resolver, tables, text, base, 0, &wanted)? {
        return Ok(false);
    }
    is_found_after_pdf(alloc, resolver, tables, text, base, &wanted)
}

// Returns whether a resolver finds the levels of the reference implementation for the first `lists` lists of
// `len` characters, with and without a PDF before each list.
fn are_same(
    alloc: Global,
    resolver: &mut Resolver,
    tables: &Tables,
    len: usize,
    lists: usize,
) -> Result<bool, AllocError> {
    let mut text = Vec::new(alloc);
    for number in 0..lists {
        put_list(&mut text, len, number)?;
        for base in &BASES {
            if !is_same(alloc, resolver, tables, &text, *base)? {
                return Ok(false);
            }
        }
    }
    Ok(true)
}

// A length, and the number of lists of that length.
static LISTS: [(usize, usize); 4] = [(1, 12), (2, 144), (3, 1_728), (4, 20_736)];

// Returns whether a resolver finds the levels of the reference implementation for all lists of 1 to 4
// characters.
fn all_are_same(alloc: Global, tables: &Tables) -> Result<bool, AllocError> {
    let mut resolver = Resolver::new(alloc);
    let result = all_are_same_by(alloc, &mut resolver, tables);
    drop(resolver);
    result
}

fn all_are_same_by(
    alloc: Global,
    resolver: &mut Resolver,
    tables: &Tables,
) -> Result<bool, AllocError> {
    for (len, lists) in &LISTS {
        if !are_same(alloc, resolver, tables, *len, *lists)? {
            return Ok(false);
        }
    }
    Ok(true)
}

#[test]
fn walks_find_what_passes_find(rt: HostRuntime) -> Result<(), Fail> {
    let tables = read(rt.alloc(), &FILES)?;
    let result = all_are_same(rt.alloc(), &tables);
    drop(tables);
    assert!(rt; result?);
    Ok(())
}

// A text, and the levels of its characters, each as a digit.
struct Row {
    text: &'static str,
    levels: &'static str,
}

// Paragraphs, some of which are a single sequence. Long and short paragraphs alternate.
static ROWS: [Row; 6] = [
    Row {
        text: "a\u{202B}b\u{202C}c",
        levels: "00220",
    },
    Row {
        text: "\u{5D0}1",
        levels: "12",
    },
    Row {
        text: "a\u{2067}b\u{2069}c",
        levels: "00200",
    },
    Row {
        text: "a1",
        levels: "00",
    },
    Row {
        text: "a\u{2068}\u{5D0}\u{2069}",
        levels: "0010",
    },
    Row {
        text: "\u{5D0}(a)",
        levels: "1121",
    },
];

fn are_digits(levels: &[u8], digits: &[u8]) -> bool {
    let mut all_right = levels.len() == digits.len();
    for (level, digit) in levels.iter().zip(digits) {
        all_right &= level.wrapping_add(b'0') == *digit;
    }
    all_right
}

// Returns whether a resolver finds these levels of a text.
fn finds(
    alloc: Global,
    resolver: &mut Resolver,
    tables: &Tables,
    text: &[char],
    digits: &str,
) -> Result<bool, AllocError> {
    let mut levels = Vec::new(alloc);
    let is_base = put_levels(alloc, resolver, tables, text, Base::WeakLtr, &mut levels)?;
    Ok(is_base && are_digits(&levels, digits.as_bytes()))
}

// Returns whether a resolver finds these levels of a text, given its classes and bracket types.
fn finds_by(
    alloc: Global,
    resolver: &mut Resolver,
    tables: &Tables,
    text: &[char],
    digits: &str,
) -> Result<bool, AllocError> {
    let mut levels = Vec::new(alloc);
    let is_base = put_levels_by(alloc, resolver, tables, text, Base::WeakLtr, &mut levels)?;
    Ok(is_base && are_digits(&levels, digits.as_bytes()))
}

// Returns whether `resolve` finds these levels of a text.
fn resolves_to(
    alloc: Global,
    tables: &Tables,
    text: &[char],
    base: Base,
    digits: &str,
) -> Result<bool, AllocError> {
    let levels = resolve(alloc, tables, text, base)?;
    Ok(are_digits(&levels, digits.as_bytes()))
}

fn has_levels(
    alloc: Global,
    resolver: &mut Resolver,
    tables: &Tables,
    row: &Row,
) -> Result<bool, AllocError> {
    let text: Vec<char> = row.text.chars().collect(alloc)?;
    let is_found = finds(alloc, resolver, tables, &text, row.levels);
    let is_found_by = finds_by(alloc, resolver, tables, &text, row.levels);
    let is_once = resolves_to(alloc, tables, &text, Base::WeakLtr, row.levels);
    drop(text);
    Ok(is_found? & is_found_by? & is_once?)
}

fn have_levels(
    alloc: Global,
    resolver: &mut Resolver,
    tables: &Tables,
    rows: &[Row],
) -> Result<bool, AllocError> {
    for row in rows {
        if !has_levels(alloc, resolver, tables, row)? {
            return Ok(false);
        }
    }
    Ok(true)
}

// Returns whether one resolver finds the levels of each example.
fn are_found(alloc: Global, tables: &Tables, rows: &[Row]) -> Result<bool, AllocError> {
    let mut resolver = Resolver::new(alloc);
    let result = have_levels(alloc, &mut resolver, tables, rows);
    drop(resolver);
    result
}

#[test]
fn a_resolver_serves_again(rt: HostRuntime) -> Result<(), Fail> {
    let tables = read(rt.alloc(), &FILES)?;
    let result = are_found(rt.alloc(), &tables, &ROWS);
    drop(tables);
    assert!(rt; result?);
    Ok(())
}

// Paragraphs that end with a separator. No line shows the separator's level, since separators are in the
// tail.
static SEPARATED: [(&[char], Base, &str); 3] = [
    (&['\u{5D0}', '\n'], Base::WeakLtr, "11"),
    (&['\u{202E}', 'a', '\n'], Base::WeakLtr, "010"),
    (&['\u{2067}', 'a', '\n'], Base::WeakRtl, "141"),
];

fn all_resolve(
    alloc: Global,
    tables: &Tables,
    rows: &[(&[char], Base, &str)],
) -> Result<bool, AllocError> {
    for (text, base, digits) in rows {
        if !resolves_to(alloc, tables, text, *base, digits)? {
            return Ok(false);
        }
    }
    Ok(true)
}

#[test]
fn separators_have_the_base_level(rt: HostRuntime) -> Result<(), Fail> {
    let tables = read(rt.alloc(), &FILES)?;
    let result = all_resolve(rt.alloc(), &tables, &SEPARATED);
    drop(tables);
    assert!(rt; result?);
    Ok(())
}

// A paragraph, given by its classes and bracket types, and the levels of its characters, each as a digit.
struct ListRow {
    classes: &'static [BidiClass],
    brackets: &'static [BracketType],
    base: Base,
    levels: &'static str,
}

const INNER: &[BidiClass] = &[
    BidiClass::R,
    BidiClass::L,
    BidiClass::ON,
    BidiClass::L,
    BidiClass::ON,
];

// In the first two rows, the third character opens a pair that the last character closes. The brackets have
// the caller's numbers or code points. The next two rows have brackets with different numbers, and a closing
// bracket before an opening one. The other rows have a pair around an isolate with a closing bracket,
// brackets that are not ON, and lists without brackets.
static LIST_ROWS: [ListRow; 8] = [
    ListRow {
        classes: INNER,
        brackets: &[
            BracketType::Other,
            BracketType::Other,
            BracketType::Opening(7),
            BracketType::Other,
            BracketType::Closing(7),
        ],
        base: Base::WeakLtr,
        levels: "12222",
    },
    ListRow {
        classes: INNER,
        brackets: &[
            BracketType::Other,
            BracketType::Other,
            BracketType::Opening(0x232A),
            BracketType::Other,
            BracketType::Closing(0x3009),
        ],
        base: Base::WeakLtr,
        levels: "12222",
    },
    ListRow {
        classes: INNER,
        brackets: &[
            BracketType::Other,
            BracketType::Other,
            BracketType::Opening(7),
            BracketType::Other,
            BracketType::Closing(8),
        ],
        base: Base::WeakLtr,
        levels: "12221",
    },
    ListRow {
        classes: INNER,
        brackets: &[
            BracketType::Other,
            BracketType::Other,
            BracketType::Closing(7),
            BracketType::Other,
            BracketType::Opening(7),
        ],
        base: Base::WeakLtr,
        levels: "12221",
    },
    ListRow {
        classes: &[
            BidiClass::ON,
            BidiClass::RLI,
            BidiClass::L,
            BidiClass::ON,
            BidiClass::PDI,
            BidiClass::R,
            BidiClass::ON,
        ],
        brackets: &[
            BracketType::Opening(41),
            BracketType::Other,
            BracketType::Other,
            BracketType::Closing(41),
            BracketType::Other,
            BracketType::Other,
            BracketType::Closing(41),
        ],
        base: Base::Ltr,
        levels: "0021010",
    },
    ListRow {
        classes: &[BidiClass::R, BidiClass::L, BidiClass::R],
        brackets: &[
            BracketType::Other,
            BracketType::Opening(41),
            BracketType::Closing(41),
        ],
        base: Base::WeakLtr,
        levels: "121",
    },
    ListRow {
        classes: &[BidiClass::L, BidiClass::EN, BidiClass::WS],
        brackets: &[BracketType::Other, BracketType::Other, BracketType::Other],
        base: Base::WeakRtl,
        levels: "000",
    },
    ListRow {
        classes: &[],
        brackets: &[],
        base: Base::Rtl,
        levels: "",
    },
];

// Returns whether a new resolver finds the levels of an example.
fn are_of_row(alloc: Global, row: &ListRow) -> Result<bool, AllocError> {
    if row.classes.len() != row.brackets.len() {
        return Ok(false);
    }
    let levels = resolve_by(alloc, row.classes, row.brackets, row.base)?;
    Ok(are_digits(&levels, row.levels.as_bytes()))
}

fn are_of_rows(alloc: Global, rows: &[ListRow]) -> Result<bool, AllocError> {
    for row in rows {
        if !are_of_row(alloc, row)? {
            return Ok(false);
        }
    }
    Ok(true)
}

#[test]
fn levels_follow_from_classes_and_bracket_types(rt: HostRuntime) -> Result<(), Fail> {
    let result = are_of_rows(rt.alloc(), &LIST_ROWS);
    assert!(rt; result?);
    Ok(())
}
