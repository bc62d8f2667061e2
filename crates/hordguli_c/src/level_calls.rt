//! Functions on characters, without a session: levels and break marks of a paragraph, and properties.
ghost use Rattle.std.specs.Prelude.{◌≡◌, ◌<◌, length, map, unwrap_or, All, IfOk, OnErr};
ghost use Rattle.std.specs.Char.{IsScalar};
ghost use Rattle.ucd.specs.Tables.{mirror_of};
ghost use Rattle.lines.specs.CharInfos.{columns_of};
ghost use Rattle.hordguli_c.specs.Calls.{Asks, AsksBy};
ghost use Rattle.hordguli_c.specs.Levels.{levels_by, PutsBase, PutsLevels, PutsMarks};
ghost use Rattle.hordguli_c.specs.Levels.{bidi_number, bracket_kind, character_out, flags_of};
ghost use Rattle.hordguli_c.specs.Levels.{line_number, pair_of, PutsProperties};
ghost use Rattle.hordguli_c.specs.Options.{direction_of, tables_by, tailoring_of};
ghost use Rattle.hordguli_c.specs.Statuses.{Returns};

use crate::arrays::{are_characters, characters_of, put_levels, put_marks};
use crate::calls::with_object;
use crate::options::{direction_of, separates_lines, tailoring_of};
use crate::status::{Status, number_of};
use crate::tables_handle::TablesHandle;
use bidi::{Base, base_level, resolve};
use breaks::marks;
use std::alloc::{AllocError, Global};
use ucd::{BidiClass, Bracket, LineClass, Tables};
use unicode_width::UnicodeWidthChar;

fn find_base(
    alloc: Global,
    tables: &Tables,
    base: Base,
    characters: &[u32],
    level: &mut u32,
) -> Status
    ensures { PutsBase base characters.now result tables.now level.old level.new }
{
    match characters_of(alloc, characters) {
        Ok(text) => {
            *level = u32::from(base_level(tables, &text, base));
            Status::Ok
        }
        Err(status) => status,
    }
}

/// Stores the base level of a paragraph.
#[unsafe(no_mangle)]
pub extern "C" fn hordguli_core_base(
    alloc: Global,
    tables: &mut TablesHandle,
    direction: u32,
    characters: &[u32],
    level: &mut u32,
) -> u32
    ensures unchanged { tables.new.held ≡ tables.old.held }
    ensures base { Returns (λ status.
        AsksBy (λ base. PutsBase base characters.now) (direction_of direction) status
        (tables_by direction tables.old.held) level.old level.new) result }
{
    let Some(base) = direction_of(direction) else {
        return number_of(Status::UnknownOption);
    };
    let separates = separates_lines(direction);
    with_object!(
        tables,
        alloc,
        object,
        find_base(alloc, object.tables_if(separates), base, characters, level)
    )
}

#[tactic(auto, unfolding(crate::specs::Levels::levels_by))]
fn levels_by(
    alloc: Global,
    tables: &Tables,
    base: Base,
    text: &[char],
) -> Result<Vec<u8>, AllocError>
    ensures levels { IfOk result (λ levels. levels.items ≡ levels_by tables.now base text.now) }
    ensures len { IfOk result (λ levels. length levels.items ≡ length text.now) }
    ensures memory { OnErr result (0 < length text.now) }
{
    resolve(alloc, tables, text, base)
}

fn find_levels(
    alloc: Global,
    tables: &Tables,
    base: Base,
    characters: &[u32],
    levels: &mut [u8],
) -> Status
    ensures { PutsLevels base characters.now result tables.now levels.old levels.new }
{
    if levels.len() < characters.len() {
        return Status::NoRoom;
    }
    let text = match characters_of(alloc, characters) {
        Ok(text) => text,
        Err(status) => return status,
    };
    match levels_by(alloc, tables, base, &text) {
        Ok(found) => {
            put_levels(&found, levels);
            Status::Ok
        }
        Err(_) => Status::NoMemory,
    }
}

/// Stores the level that each character of a paragraph has before L1.
#[unsafe(no_mangle)]
pub extern "C" fn hordguli_core_levels(
    alloc: Global,
    tables: &mut TablesHandle,
    direction: u32,
    characters: &[u32],
    levels: &mut [u8],
) -> u32
    ensures unchanged { tables.new.held ≡ tables.old.held }
    ensures levels { Returns (λ status.
        AsksBy (λ base. PutsLevels base characters.now) (direction_of direction) status
        (tables_by direction tables.old.held) levels.old levels.new) result }
{
    let Some(base) = direction_of(direction) else {
        return number_of(Status::UnknownOption);
    };
    let separates = separates_lines(direction);
    with_object!(
        tables,
        alloc,
        object,
        find_levels(alloc, object.tables_if(separates), base, characters, levels)
    )
}

fn find_marks(
    alloc: Global,
    tables: &Tables,
    whole_numbers: bool,
    characters: &[u32],
    array: &mut [u8],
) -> Status
    ensures { PutsMarks whole_numbers characters.now result tables.now array.old array.new }
{
    if array.len() < characters.len() {
        return Status::NoRoom;
    }
    let text = match characters_of(alloc, characters) {
        Ok(text) => text,
        Err(status) => return status,
    };
    match marks(alloc, tables, &text, whole_numbers) {
        Ok(found) => {
            put_marks(&found, array);
            Status::Ok
        }
        Err(_) => Status::NoMemory,
    }
}

/// Stores the break mark after each character of a paragraph.
#[unsafe(no_mangle)]
pub extern "C" fn hordguli_core_marks(
    alloc: Global,
    tables: &mut TablesHandle,
    options: u32,
    characters: &[u32],
    marks: &mut [u8],
) -> u32
    ensures unchanged { tables.new.held ≡ tables.old.held }
    ensures marks { Returns (λ status.
        AsksBy (λ whole_numbers. PutsMarks whole_numbers characters.now) (tailoring_of options)
        status (tables_by options tables.old.held) marks.old marks.new) result }
{
    let Some(whole_numbers) = tailoring_of(options) else {
        return number_of(Status::UnknownOption);
    };
    let separates = separates_lines(options);
    with_object!(
        tables,
        alloc,
        object,
        find_marks(
            alloc,
            object.tables_if(separates),
            whole_numbers,
            characters,
            marks
        )
    )
}

/// The properties of a character (`hordguli_character` in C).
#[repr(C)]
#[derive(Clone, Copy)]
pub struct CharacterOut {
    pub mirror: u32,
    pub pair: u32,
    pub flags: u32,
    pub bidi_class: u8,
    pub line_class: u8,
    pub columns: u8,
    pub bracket: u8,
}

/// Returns the number that represents a bidi class in C.
#[tactic(auto, unfolding(crate::specs::Levels::bidi_number))]
pub fn bidi_number(class: BidiClass) -> u8
    ensures { result ≡ bidi_number class }
{
    class as u8
}

/// Returns the number that represents a line breaking class in C.
#[tactic(auto, unfolding(crate::specs::Levels::line_number))]
pub fn line_number(class: LineClass) -> u8
    ensures { result ≡ line_number class }
{
    class as u8
}

fn columns_of(c: char) -> u8
    ensures { result ≡ columns_of c }
{
    match c.width() {
        Some(width) => width as u8,
        None => 0,
    }
}

fn bracket_kind(bracket: Option<Bracket>) -> u8
    ensures { result ≡ bracket_kind bracket }
{
    match bracket {
        Some(bracket) => { if bracket.opens { 1 } else { 2 } }
        None => 0,
    }
}

fn pair_of(bracket: Option<Bracket>) -> u32
    ensures { result ≡ pair_of bracket }
{
    match bracket {
        Some(bracket) => u32::from(bracket.pair),
        None => 0,
    }
}

fn flags_of(is_mark: bool, is_wide: bool) -> u32
    ensures { result ≡ flags_of is_mark is_wide }
{
    (if is_mark { 1 } else { 0 }) + (if is_wide { 2 } else { 0 })
}

fn mirror_number(tables: &Tables, c: char) -> u32
    ensures { result ≡ unwrap_or (mirror_of tables.now c) 0 }
{
    match tables.mirror(c) {
        Some(mirror) => u32::from(mirror),
        None => 0,
    }
}

fn character_out(tables: &Tables, c: char) -> CharacterOut
    ensures { result ≡ character_out tables.now c }
{
    let properties = tables.properties(c);
    let bracket = tables.bracket(c);
    CharacterOut {
        mirror: mirror_number(tables, c),
        pair: pair_of(bracket),
        flags: flags_of(properties.is_mark(), properties.is_wide()),
        bidi_class: bidi_number(properties.bidi_class()),
        line_class: line_number(properties.line_class()),
        columns: columns_of(c),
        bracket: bracket_kind(bracket),
    }
}

fn put_each_record(tables: &Tables, characters: &[u32], records: &mut [CharacterOut])
    requires len { length records.old ≡ length characters.now }
    requires characters { All IsScalar characters.now }
    ensures { records.new ≡ map (character_out tables.now) characters.now }
{
    for k in 0..characters.len() {
        if let Some(c) = char::from_u32(characters[k]) {
            records[k] = character_out(tables, c);
        }
    }
}

fn put_properties(tables: &Tables, characters: &[u32], records: &mut [CharacterOut]) -> Status
    ensures { PutsProperties characters.now result tables.now records.old records.new }
{
    if records.len() < characters.len() {
        return Status::NoRoom;
    }
    if !are_characters(characters) {
        return Status::NotACharacter;
    }
    put_each_record(tables, characters, &mut records[..characters.len()]);
    Status::Ok
}

/// Stores the properties of each character.
#[unsafe(no_mangle)]
pub extern "C" fn hordguli_core_properties(
    alloc: Global,
    tables: &mut TablesHandle,
    characters: &[u32],
    records: &mut [CharacterOut],
) -> u32
    ensures unchanged { tables.new.held ≡ tables.old.held }
    ensures properties { Returns (λ status. Asks (PutsProperties characters.now) status
        tables.old.held records.old records.new) result }
{
    with_object!(
        tables,
        alloc,
        object,
        put_properties(object.tables(), characters, records)
    )
}
