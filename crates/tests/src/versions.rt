//! Tests tables of Unicode 17.0, and how tables of 15.0 differ from them. The tests must also pass if any one
//! allocation fails.
use std::alloc::Global;
use std::test::Fail;
use ucd::{
    BidiClass as Bidi, Cause, ImageFault, LineClass as Line, LineDetail as Detail, TableFault,
    Tables, UcdFiles, Version,
};

// U+FEFF has no detail, since its category is Pi but its class is not QU. U+25CD has none either, although it
// has the class and the category of U+25CC.
const FILES: UcdFiles<'_> = UcdFiles {
    bidi_class: b"05D0;L",
    bidi_brackets: b"",
    bidi_mirroring: b"",
    line_break: b"0022;QU\n00AB;QU\n00BB;QU\n25CC..25CD;AL\nFEFF;WJ",
    general_category: b"0022;Po\n00AB;Pi\n00BB;Pf\n25CC..25CD;So\nFEFF;Pi",
    east_asian_width: b"",
    emoji_data: b"",
};

const FILES_OF_17: UcdFiles<'_> = UcdFiles {
    line_break: b"1B05;AK",
    ..FILES
};

// Reads tables, and tries again after an allocation failure.
fn read_as(alloc: Global, version: Version, files: &UcdFiles<'_>) -> Result<Tables, TableFault> {
    match Tables::read_as(alloc, version, files) {
        Err(fault) if fault.cause == Cause::Memory => Tables::read_as(alloc, version, files),
        result => result,
    }
}

static DETAILS: [(char, Detail); 6] = [
    ('"', Detail::Plain),
    ('\u{AB}', Detail::Initial),
    ('\u{BB}', Detail::Final),
    ('\u{25CC}', Detail::DottedCircle),
    ('\u{25CD}', Detail::Plain),
    ('\u{FEFF}', Detail::Plain),
];

fn are_details(tables: &Tables) -> bool {
    let mut all_right = true;
    for (c, detail) in &DETAILS {
        all_right &= tables.line_detail(*c) == *detail;
        all_right &= tables.properties(*c).line_detail() == *detail;
    }
    all_right
}

fn are_plain(tables: &Tables) -> bool {
    let mut all_right = true;
    for (c, _) in &DETAILS {
        all_right &= tables.line_detail(*c) == Detail::Plain;
    }
    all_right
}

#[test]
fn quotation_marks_and_the_dotted_circle_have_details_in_17(rt: HostRuntime) -> Result<(), Fail> {
    let tables = read_as(rt.alloc(), Version::V17_0, &FILES)?;
    assert!(rt; are_details(&tables) & (tables.version() == Version::V17_0));
    Ok(())
}

#[test]
fn no_character_has_a_detail_in_15(rt: HostRuntime) -> Result<(), Fail> {
    let tables = read_as(rt.alloc(), Version::V15_0, &FILES)?;
    assert!(rt; are_plain(&tables) & (tables.version() == Version::V15_0));
    Ok(())
}

static DEFAULTS: [(char, Bidi, Bidi); 6] = [
    ('\u{58F}', Bidi::L, Bidi::L),
    ('\u{5D0}', Bidi::L, Bidi::L),
    ('\u{5FF}', Bidi::L, Bidi::R),
    ('\u{600}', Bidi::L, Bidi::AL),
    ('\u{20CF}', Bidi::L, Bidi::ET),
    ('\u{1EF00}', Bidi::L, Bidi::R),
];

fn are_defaults(old: &Tables, new: &Tables) -> bool {
    let mut all_right = true;
    for (c, in_old, in_new) in &DEFAULTS {
        all_right &= old.bidi_class(*c) == *in_old;
        all_right &= new.bidi_class(*c) == *in_new;
    }
    all_right
}

#[test]
fn unlisted_letters_are_right_to_left_in_17(rt: HostRuntime) -> Result<(), Fail> {
    let old = read_as(rt.alloc(), Version::V15_0, &FILES)?;
    let new = read_as(rt.alloc(), Version::V17_0, &FILES)?;
    assert!(rt; are_defaults(&old, &new));
    Ok(())
}

#[test]
fn classes_of_17_are_refused_in_15(rt: HostRuntime) -> Result<(), Fail> {
    let fault = TableFault {
        file: 4,
        line: 1,
        cause: Cause::Value,
    };
    assert!(rt; read_as(rt.alloc(), Version::V15_0, &FILES_OF_17).err() == Some(fault));
    let tables = read_as(rt.alloc(), Version::V17_0, &FILES_OF_17)?;
    assert!(rt; tables.line_class('\u{1B05}') == Line::AK);
    Ok(())
}

// Encodes tables as an image, and returns the tables decoded from it. Tries each step again after an
// allocation failure.
fn through_image(alloc: Global, tables: &Tables) -> Result<Tables, ImageFault> {
    let image = match tables.to_image(alloc) {
        Ok(image) => image,
        Err(_) => match tables.to_image(alloc) {
            Ok(image) => image,
            Err(_) => return Err(ImageFault::Memory),
        },
    };
    match Tables::from_image(alloc, &image) {
        Err(ImageFault::Memory) => Tables::from_image(alloc, &image),
        result => result,
    }
}

#[test]
fn images_keep_version_and_details(rt: HostRuntime) -> Result<(), Fail> {
    let tables = read_as(rt.alloc(), Version::V17_0, &FILES)?;
    let again = through_image(rt.alloc(), &tables)?;
    assert!(rt; are_details(&again) & (again.version() == Version::V17_0));
    Ok(())
}
