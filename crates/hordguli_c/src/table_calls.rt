//! Functions that open and close a handle of tables.
ghost use Rattle.std.specs.Prelude.{◌≡◌, IfErr, IfOk, None};
ghost use Rattle.ucd.specs.Imaged.{IsImageOf};
ghost use Rattle.ucd.specs.Images.{IsImageFault, version_number};
ghost use Rattle.ucd.specs.declared.tables.UcdFiles.{UcdFiles};
ghost use Rattle.hordguli_c.specs.Calls.{Asks};
ghost use Rattle.hordguli_c.specs.Statuses.{Returns};
ghost use Rattle.hordguli_c.specs.Tables.{cause_number, fault_out, ReadsTables, ReadsTablesBy};
ghost use Rattle.hordguli_c.specs.Tables.{TellsFault, TellsVersion, version_of};
ghost use Rattle.hordguli_c.specs.Tables.{image_cause_number, OpensImage, TellsImageFault};

use crate::calls::with_object;
use crate::status::{Status, number_of};
use crate::tables_handle::TablesHandle;
use crate::tables_object::TablesObject;
use std::alloc::{AllocError, Global};
use ucd::{Cause, FILE_NAMES, ImageFault, TableFault, Tables, UcdFiles, Version};

/// The first malformed line, or the first fault of an image (`hordguli_table_fault` in C).
#[repr(C)]
#[derive(Clone, Copy)]
pub struct TableFaultOut {
    pub file: usize,
    pub line: usize,
    pub cause: usize,
}

// The versions of Unicode in include/hordguli.h. The numbers are the same as in images.
const UNICODE_15_0: u32 = 0x000F_0000;

const UNICODE_17_0: u32 = 0x0011_0000;

fn version_of(number: u32) -> Option<Version>
    ensures { result ≡ version_of number }
{
    match number {
        UNICODE_15_0 => Some(Version::V15_0),
        UNICODE_17_0 => Some(Version::V17_0),
        _ => None,
    }
}

fn version_number(version: Version) -> u32
    ensures { result ≡ version_number version }
{
    match version {
        Version::V15_0 => UNICODE_15_0,
        Version::V17_0 => UNICODE_17_0,
    }
}

fn cause_number(cause: Cause) -> usize
    ensures { result ≡ cause_number cause }
{
    match cause {
        Cause::NotAscii => 1,
        Cause::CodePoint => 2,
        Cause::Reversed => 3,
        Cause::FieldCount => 4,
        Cause::Value => 5,
        Cause::NamedBefore => 6,
        Cause::Memory => 7,
    }
}

// Returns the status for a `TableFault`, and stores the fault unless an allocation failed.
fn tell(fault: TableFault, out: &mut TableFaultOut) -> Status
    ensures { TellsFault fault.cause fault result out.old out.new }
{
    if fault.cause == Cause::Memory {
        return Status::NoMemory;
    }
    *out = TableFaultOut {
        file: fault.file.saturating_sub(1),
        line: fault.line,
        cause: cause_number(fault.cause),
    };
    Status::TableFault
}

fn image_cause_number(fault: ImageFault) -> usize
    ensures { result ≡ image_cause_number fault }
{
    match fault {
        ImageFault::Truncated => 8,
        ImageFault::Magic => 9,
        ImageFault::Format => 10,
        ImageFault::Version => 11,
        ImageFault::Excess => 12,
        ImageFault::Checksum => 13,
        ImageFault::PageNumber => 14,
        ImageFault::Entry => 15,
        ImageFault::Bracket => 16,
        ImageFault::Mirror => 17,
        ImageFault::Flags => 18,
        ImageFault::Memory => 7,
    }
}

// Returns the status for an `ImageFault`, and stores the fault unless an allocation failed.
fn tell_image_fault(fault: ImageFault, out: &mut TableFaultOut) -> Status
    ensures { TellsImageFault fault result out.old out.new }
{
    if fault == ImageFault::Memory {
        return Status::NoMemory;
    }
    *out = TableFaultOut {
        file: FILE_NAMES.len(),
        line: 0,
        cause: image_cause_number(fault),
    };
    Status::TableFault
}

// Allocates a handle's object, which owns these tables.
fn boxed(alloc: Global, tables: Tables) -> Result<Box<TablesObject>, AllocError>
    ensures { IfOk result (λ object. object.value ≡ tables) }
{
    Ok(Box::new(alloc, TablesObject::new(alloc, tables)?)?)
}

fn read_into(
    alloc: Global,
    tables: &mut TablesHandle,
    version: Version,
    files: &UcdFiles<'_>,
    fault: &mut TableFaultOut,
) -> Status
    ensures { ReadsTables version files.now result tables.old.held tables.new.held fault.old
        fault.new }
{
    if let Some(object) = tables.swap(alloc, None) {
        tables.swap(alloc, Some(object));
        return Status::AlreadyOpen;
    }
    match Tables::read_as(alloc, version, files) {
        Ok(read) => match boxed(alloc, read) {
            Ok(object) => {
                tables.swap(alloc, Some(object));
                Status::Ok
            }
            Err(_) => Status::NoMemory,
        },
        Err(refused) => tell(refused, fault),
    }
}

/// Opens tables of a Unicode version from the contents of its files, each of which is passed as a slice.
#[unsafe(no_mangle)]
pub extern "C" fn hordguli_core_tables_read_version(
    alloc: Global,
    tables: &mut TablesHandle,
    version: u32,
    bidi_class: &[u8],
    bidi_brackets: &[u8],
    bidi_mirroring: &[u8],
    line_break: &[u8],
    general_category: &[u8],
    east_asian_width: &[u8],
    emoji_data: &[u8],
    fault: &mut TableFaultOut,
) -> u32
    ensures { Returns (λ status. ReadsTablesBy (version_of version) (record {
      bidi_class = bidi_class.entry;
      bidi_brackets = bidi_brackets.entry;
      bidi_mirroring = bidi_mirroring.entry;
      line_break = line_break.entry;
      general_category = general_category.entry;
      east_asian_width = east_asian_width.entry;
      emoji_data = emoji_data.entry;
    }) status tables.old.held tables.new.held fault.old fault.new) result }
{
    let Some(version) = version_of(version) else {
        return number_of(Status::UnknownOption);
    };
    let files = UcdFiles {
        bidi_class,
        bidi_brackets,
        bidi_mirroring,
        line_break,
        general_category,
        east_asian_width,
        emoji_data,
    };
    number_of(read_into(alloc, tables, version, &files, fault))
}

// Decodes an image, and allocates a handle's object, which owns the decoded tables.
fn decoded(alloc: Global, image: &[u8]) -> Result<Box<TablesObject>, ImageFault>
    ensures ok { IfOk result (λ object. IsImageOf image.now object.value) }
    ensures err { IfErr result (IsImageFault image.now) }
{
    let tables = Tables::from_image(alloc, image)?;
    match boxed(alloc, tables) {
        Ok(object) => Ok(object),
        Err(_) => Err(ImageFault::Memory),
    }
}

/// Opens tables from a compiled image.
#[unsafe(no_mangle)]
pub extern "C" fn hordguli_core_tables_open_image(
    alloc: Global,
    tables: &mut TablesHandle,
    image: &[u8],
    fault: &mut TableFaultOut,
) -> u32
    ensures { Returns (λ status. OpensImage image.now status tables.old.held tables.new.held
        fault.old fault.new) result }
{
    if let Some(object) = tables.swap(alloc, None) {
        tables.swap(alloc, Some(object));
        return number_of(Status::AlreadyOpen);
    }
    match decoded(alloc, image) {
        Ok(object) => {
            tables.swap(alloc, Some(object));
            number_of(Status::Ok)
        }
        Err(refused) => number_of(tell_image_fault(refused, fault)),
    }
}

fn tell_version(tables: &Tables, version: &mut u32) -> Status
    ensures { TellsVersion result tables.now version.old version.new }
{
    *version = version_number(tables.version());
    Status::Ok
}

/// Stores the number of the tables' version.
#[unsafe(no_mangle)]
pub extern "C" fn hordguli_core_tables_version(
    alloc: Global,
    tables: &mut TablesHandle,
    version: &mut u32,
) -> u32
    ensures unchanged { tables.new.held ≡ tables.old.held }
    ensures version { Returns (λ status. Asks TellsVersion status tables.old.held version.old
        version.new) result }
{
    with_object!(
        tables,
        alloc,
        object,
        tell_version(object.tables(), version)
    )
}

/// Closes a handle of tables. Frees the tables once no open session uses them.
#[unsafe(no_mangle)]
pub extern "C" fn hordguli_core_tables_close(alloc: Global, tables: &mut TablesHandle)
    ensures { tables.new.held ≡ None }
{
    tables.swap(alloc, None);
}
