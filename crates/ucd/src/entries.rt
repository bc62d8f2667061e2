//! Parses the files into entries, before the entries are stored in pages.
ghost use Rattle.std.specs.Prelude.{IfOk, IfErr};
ghost use Rattle.ucd.specs.Grammar.{lines_of};
ghost use Rattle.ucd.specs.Files.{HoldsFile};
ghost use Rattle.ucd.specs.BidiClasses.{bidi_class_form};
ghost use Rattle.ucd.specs.Brackets.{bracket_form, mirror_form};
ghost use Rattle.ucd.specs.Categories.{category_form};
ghost use Rattle.ucd.specs.Emoji.{emoji_form};
ghost use Rattle.ucd.specs.Versions.{line_class_form};
ghost use Rattle.ucd.specs.Widths.{width_form};
ghost use Rattle.ucd.specs.Tables.{IsBidiFaultOf, IsBreakFaultAs, IsFaultIn, IsFaultAs};

use crate::bidi_class::BidiClass;
use crate::bracket::{Bracket, Mirror};
use crate::category::Category;
use crate::emoji::Pictograph;
use crate::fault::TableFault;
use crate::file::{FileFault, read_file};
use crate::grammar::Property;
use crate::line_class::LineClass;
use crate::range_table::RangeTable;
use crate::rising::RisingEntries;
use crate::tables::UcdFiles;
use crate::version::Version;
use crate::width::Width;
use std::alloc::Global;

// Parses one file. Fails with its first fault, or if memory runs out. `number` is the file's number in
// `FILE_NAMES`, starting at 1.
fn read_table<V: Property>(
    alloc: Global,
    version: Version,
    number: usize,
    file: &[u8],
) -> Result<RisingEntries<V>, TableFault>
    ensures ok { IfOk result (HoldsFile (V.form version) (lines_of file.now)) }
    ensures err { IfErr result (IsFaultIn number (V.form version) (lines_of file.now)) }
{
    match RisingEntries::of_file(alloc, version, file) {
        Some(entries) => Ok(entries),
        None => Err(fault_of::<V>(alloc, version, number, file)),
    }
}

// Returns the first fault of a file that could not be parsed, or an allocation failure if no line is faulty.
fn fault_of<V: Property>(alloc: Global, version: Version, number: usize, file: &[u8]) -> TableFault
    ensures { IsFaultIn number (V.form version) (lines_of file.now) result }
{
    let Ok(table) = RangeTable::new(alloc) else {
        return TableFault::memory();
    };
    let read: Result<RangeTable<V>, FileFault> = read_file(version, table, file);
    match read {
        Ok(_) => TableFault::memory(),
        Err(fault) => TableFault::in_file(number, fault),
    }
}

/// The entries of the files for bidirectional text.
#[derive(Drop)]
pub struct BidiEntries {
    pub(crate) classes: RisingEntries<BidiClass>,
    pub(crate) brackets: RisingEntries<Bracket>,
    pub(crate) mirrors: RisingEntries<Mirror>,
}

/// The entries of the files for line breaking.
#[derive(Drop)]
pub struct BreakEntries {
    pub(crate) classes: RisingEntries<LineClass>,
    pub(crate) categories: RisingEntries<Category>,
    pub(crate) widths: RisingEntries<Width>,
    pub(crate) pictographs: RisingEntries<Pictograph>,
}

// Parses the three files for bidirectional text.
fn read_bidi(
    alloc: Global,
    version: Version,
    files: &UcdFiles<'_>,
) -> Result<BidiEntries, TableFault>
    ensures classes { IfOk result (λ e.
        HoldsFile bidi_class_form (lines_of files.now.bidi_class.now) e.classes) }
    ensures brackets { IfOk result (λ e.
        HoldsFile bracket_form (lines_of files.now.bidi_brackets.now) e.brackets) }
    ensures mirrors { IfOk result (λ e.
        HoldsFile mirror_form (lines_of files.now.bidi_mirroring.now) e.mirrors) }
    ensures err { IfErr result (IsBidiFaultOf files.now) }
{
    Ok(BidiEntries {
        classes: read_table(alloc, version, 1, files.bidi_class)?,
        brackets: read_table(alloc, version, 2, files.bidi_brackets)?,
        mirrors: read_table(alloc, version, 3, files.bidi_mirroring)?,
    })
}

// Parses the four files for line breaking.
fn read_breaks(
    alloc: Global,
    version: Version,
    files: &UcdFiles<'_>,
) -> Result<BreakEntries, TableFault>
    ensures classes { IfOk result (λ e.
        HoldsFile (line_class_form version) (lines_of files.now.line_break.now) e.classes) }
    ensures categories { IfOk result (λ e.
        HoldsFile category_form (lines_of files.now.general_category.now) e.categories) }
    ensures widths { IfOk result (λ e.
        HoldsFile width_form (lines_of files.now.east_asian_width.now) e.widths) }
    ensures pictographs { IfOk result (λ e.
        HoldsFile emoji_form (lines_of files.now.emoji_data.now) e.pictographs) }
    ensures err { IfErr result (IsBreakFaultAs version files.now) }
{
    Ok(BreakEntries {
        classes: read_table(alloc, version, 4, files.line_break)?,
        categories: read_table(alloc, version, 5, files.general_category)?,
        widths: read_table(alloc, version, 6, files.east_asian_width)?,
        pictographs: read_table(alloc, version, 7, files.emoji_data)?,
    })
}

/// The entries of all files.
#[derive(Drop)]
pub struct Entries {
    pub(crate) bidi: BidiEntries,
    pub(crate) breaks: BreakEntries,
}

/// Drops the entries. Without this function, callers would have to list everything that is dropped.
pub fn drop_entries(_entries: Entries) {}

impl Entries {
    /// Parses the files.
    pub fn read(
        alloc: Global,
        version: Version,
        files: &UcdFiles<'_>,
    ) -> Result<Entries, TableFault>
        ensures bidi_classes { IfOk result (λ e.
            HoldsFile bidi_class_form (lines_of files.now.bidi_class.now) e.bidi.classes) }
        ensures brackets { IfOk result (λ e.
            HoldsFile bracket_form (lines_of files.now.bidi_brackets.now) e.bidi.brackets) }
        ensures mirrors { IfOk result (λ e.
            HoldsFile mirror_form (lines_of files.now.bidi_mirroring.now) e.bidi.mirrors) }
        ensures line_classes { IfOk result (λ e.
            HoldsFile (line_class_form version) (lines_of files.now.line_break.now) e.breaks.classes) }
        ensures categories { IfOk result (λ e.
            HoldsFile category_form (lines_of files.now.general_category.now) e.breaks.categories) }
        ensures widths { IfOk result (λ e.
            HoldsFile width_form (lines_of files.now.east_asian_width.now) e.breaks.widths) }
        ensures pictographs { IfOk result (λ e.
            HoldsFile emoji_form (lines_of files.now.emoji_data.now) e.breaks.pictographs) }
        ensures err { IfErr result (IsFaultAs version files.now) }
    {
        let bidi = read_bidi(alloc, version, files)?;
        let breaks = read_breaks(alloc, version, files)?;
        Ok(Entries { bidi, breaks })
    }
}
