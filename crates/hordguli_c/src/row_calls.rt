//! Functions that apply L1 to L4 to a row that the caller has chosen, given its levels from the paragraph.
ghost use Rattle.std.specs.Prelude.{◌≡◌, ◌<◌, ◌≤◌, ℕ, List, Option, length, true, All};
ghost use Rattle.std.specs.Prelude.{IfErr, IfOk, IsFalse, IsTrue, OnErr, OnOk};
ghost use Rattle.std.specs.Char.{IsScalar};
ghost use Rattle.std.specs.List.{slice_range};
ghost use Rattle.ucd.specs.Within.{AreWithin};
ghost use Rattle.ucd.specs.declared.tables.Tables.{Tables};
ghost use Rattle.lines.specs.Reordering.{ends_by};
ghost use Rattle.lines.specs.ShownParts.{shown};
ghost use Rattle.lines.specs.Visual.{line_between};
ghost use Rattle.lines.specs.declared.char_info.CharInfo.{CharInfo};
ghost use Rattle.lines.specs.declared.options.Options.{Options};
ghost use Rattle.reorder.specs.Mirroring.{mirrored, visual_chars};
ghost use Rattle.hordguli_c.specs.Arrays.{has_room, put_if};
ghost use Rattle.hordguli_c.specs.Calls.{Asks, AsksBy};
ghost use Rattle.hordguli_c.specs.Options.{has_bit, row_options_of, tables_by};
ghost use Rattle.hordguli_c.specs.Rows.{row_fits, row_in, row_in_line, row_levels, row_ltov, row_of};
ghost use Rattle.hordguli_c.specs.Rows.{row_put, row_vtol};
ghost use Rattle.hordguli_c.specs.Rows.{IsLaid, IsRow, IsSized, PutsRow, PutsRowRuns, RowNot};
ghost use Rattle.hordguli_c.specs.Statuses.{Returns};

use crate::arrays::{are_characters, collect_characters, has_room, put_levels_if, put_places_if};
use crate::calls::with_object;
use crate::options::{has_bit, row_options_of, separates_lines};
use crate::runs::{RunOut, put_runs};
use crate::status::{Status, number_of};
use crate::tables_handle::TablesHandle;
use lines::{Options, cluster_ends};
use reorder::{ClusterClasses, reset_levels, visual_order};
use std::alloc::{AllocError, Global};
use ucd::{Tables, TextClasses};

/// States, as a theorem, that a line of a paragraph equals the row that its characters and levels form. All
/// characters of the line must be shown. With `reorder_clusters`, the line's clusters must be those that its
/// characters form as a text of their own. Costs nothing at run time.
pub fn row_is_line()
    ensures { (tables : Tables) (options : Options) (margin : Option ℕ) (base : ℕ) (text levels : List ℕ)
        (infos : List CharInfo) (start stop : ℕ)
        → slice_range (ends_by options text) start stop ≡ ends_by options (slice_range text start stop)
        → length (shown margin (slice_range infos start stop)) ≡ length (slice_range text start stop)
        → length (slice_range levels start stop) ≡ length (slice_range text start stop)
        → row_in_line (line_between tables options margin base text levels infos start stop)
        ≡ row_of tables options base (slice_range text start stop) (slice_range levels start stop) }
{}

// The highest level that a character can have (UAX #9, BD2, I1 and I2).
const MOST_LEVEL: u8 = 126;

// A row: its text, its levels after L1, and the position maps.
struct LaidRow {
    text: Vec<char>,
    levels: Vec<u8>,
    ltov: Vec<u32>,
    vtol: Vec<u32>,
}

impl Drop for LaidRow {
    fn drop(self) {
        let LaidRow {
            text: _,
            levels: _,
            ltov: _,
            vtol: _,
        } = self;
    }
}

// Returns whether no level is above `MOST_LEVEL`.
fn are_levels(levels: &[u8]) -> bool
    ensures yes { IsTrue result → All (λ level. level ≤ 126) levels.now }
    ensures no { IsFalse result → ¬ All (λ level. level ≤ 126) levels.now }
{
    for k in 0..levels.len() {
        if levels[k] > MOST_LEVEL {
            return false;
        }
    }
    true
}

fn is_row(base: u32, characters: &[u32], levels: &[u8]) -> bool
    ensures yes { IsTrue result → IsRow base characters.now levels.now }
    ensures no { IsFalse result → ¬ IsRow base characters.now levels.now }
{
    base <= 1
        && levels.len() == characters.len()
        && characters.len() <= u32::MAX as usize
        && are_levels(levels)
}

// Converts the code points of a row to characters. Fails with the first of `NotACharacter` and `OutOfRange`
// that applies, or with `NoMemory`.
fn row_text(
    alloc: Global,
    base: u32,
    characters: &[u32],
    levels: &[u8],
) -> Result<Vec<char>, Status>
    ensures ok { IfOk result (λ text. All IsScalar characters.now × IsRow base characters.now levels.now
        × (text.items ≡ characters.now)) }
    ensures err { IfErr result (RowNot base characters.now levels.now) }
{
    if !are_characters(characters) {
        return Err(Status::NotACharacter);
    }
    if !is_row(base, characters, levels) {
        return Err(Status::OutOfRange);
    }
    match collect_characters(alloc, characters) {
        Ok(text) => Ok(text),
        Err(_) => Err(Status::NoMemory),
    }
}

// Returns the levels of a row after L1, given those before L1.
#[tactic(auto, unfolding(crate::specs::Rows::row_levels))]
fn levels_after_l1(
    alloc: Global,
    tables: &Tables,
    base: u8,
    text: &[char],
    levels: &[u8],
) -> Result<Vec<u8>, AllocError>
    requires { length levels.now ≡ length text.now }
    ensures levels { IfOk result (λ list. list.items ≡ row_levels tables.now base text.now levels.now) }
    ensures len { IfOk result (λ list. length list.items ≡ length text.now) }
    ensures memory { OnErr result (0 < length text.now) }
{
    let mut list = Vec::new(alloc);
    list.extend_from_slice(levels)?;
    reset_levels(&TextClasses { tables, text }, base, &mut list);
    Ok(list)
}

fn zeros(alloc: Global, len: usize) -> Result<Vec<u32>, AllocError>
    ensures len { IfOk result (λ list. length list.items ≡ len) }
    ensures memory { OnErr result (0 < len) }
{
    let mut list = Vec::new(alloc);
    list.resize(len, 0)?;
    Ok(list)
}

// Writes the position maps of a row, given its levels after L1.
fn order_row(
    alloc: Global,
    tables: &Tables,
    options: Options,
    text: &[char],
    levels: &[u8],
    vtol: &mut [u32],
    ltov: &mut [u32],
) -> Result<(), AllocError>
    requires len { length levels.now ≡ length text.now }
    requires few { length text.now ≤ u32.MAX }
    requires vtol { length vtol.old ≡ length text.now }
    requires ltov { length ltov.old ≡ length text.now }
    ensures vtol { OnOk result (vtol.new ≡ row_vtol tables.now options text.now levels.now) }
    ensures ltov { OnOk result (ltov.new ≡ row_ltov tables.now options text.now levels.now) }
    ensures within { OnOk result (AreWithin (length text.now) vtol.new) }
    ensures memory { OnErr result (0 < length text.now) }
{
    if options.reorder_clusters {
        let ends = cluster_ends(alloc, text)?;
        let classes = ClusterClasses {
            ends: &ends,
            levels,
        };
        visual_order(&classes, levels, true, vtol, ltov);
    } else {
        let classes = TextClasses { tables, text };
        visual_order(&classes, levels, options.reordernsm, vtol, ltov);
    }
    Ok(())
}

// Lays out a row whose levels are in range.
fn laid_row(
    alloc: Global,
    tables: &Tables,
    options: Options,
    base: u8,
    text: Vec<char>,
    levels: &[u8],
) -> Result<LaidRow, AllocError>
    requires len { length levels.now ≡ length text.items }
    requires few { length text.items ≤ u32.MAX }
    ensures ok { IfOk result (IsLaid tables.now options base text.items levels.now) }
    ensures memory { OnErr result (0 < length text.items) }
{
    let own = levels_after_l1(alloc, tables, base, &text, levels)?;
    let mut ltov = zeros(alloc, text.len())?;
    let mut vtol = zeros(alloc, text.len())?;
    order_row(alloc, tables, options, &text, &own, &mut vtol, &mut ltov)?;
    Ok(LaidRow {
        text,
        levels: own,
        ltov,
        vtol,
    })
}

fn find_row(
    alloc: Global,
    tables: &Tables,
    options: Options,
    base: u32,
    characters: &[u32],
    levels: &[u8],
) -> Result<LaidRow, Status>
    ensures valid { IfOk result (λ row. All IsScalar characters.now × IsRow base characters.now levels.now) }
    ensures ok { IfOk result (IsLaid tables.now options base characters.now levels.now) }
    ensures err { IfErr result (RowNot base characters.now levels.now) }
{
    let text = match row_text(alloc, base, characters, levels) {
        Ok(text) => text,
        Err(status) => return Err(status),
    };
    match laid_row(alloc, tables, options, base as u8, text, levels) {
        Ok(row) => Ok(row),
        Err(_) => Err(Status::NoMemory),
    }
}

// Returns the character that is shown for `c` at a level (L4).
fn mirrored(tables: &Tables, level: u8, c: char) -> u32
    ensures { result ≡ mirrored tables.now level c }
{
    if level % 2 == 1 {
        u32::from(tables.mirror(c).unwrap_or(c))
    } else {
        u32::from(c)
    }
}

fn put_each_shown(tables: &Tables, text: &[char], levels: &[u8], vtol: &[u32], array: &mut [u32])
    requires levels { length levels.now ≡ length text.now }
    requires within { AreWithin (length text.now) vtol.now }
    requires array { length array.old ≡ length vtol.now }
    ensures { array.new ≡ visual_chars tables.now levels.now text.now vtol.now }
{
    for (at, place) in vtol.iter().enumerate() {
        let place = *place as usize;
        array[at] = mirrored(tables, levels[place], text[place]);
    }
}

// Copies the characters of a row to the front of an array, in visual order and mirrored where L4 requires it,
// if the array is `wanted`.
fn put_shown_if(wanted: bool, tables: &Tables, row: &LaidRow, array: &mut [u32])
    requires levels { length row.now.levels.items ≡ length row.now.text.items }
    requires within { AreWithin (length row.now.text.items) row.now.vtol.items }
    requires room { has_room wanted (length row.now.vtol.items) (length array.old) ≡ true }
    ensures { array.new ≡ put_if wanted
        (visual_chars tables.now row.now.levels.items row.now.text.items row.now.vtol.items) array.old }
{
    if wanted {
        let len = row.vtol.len();
        put_each_shown(tables, &row.text, &row.levels, &row.vtol, &mut array[..len]);
    }
}

// Returns whether `len` elements fit in all arrays that `wanted` selects.
fn row_fits(
    len: usize,
    wanted: u32,
    visual: &[u32],
    levels: &[u8],
    ltov: &[u32],
    vtol: &[u32],
) -> bool
    ensures { result ≡ row_fits wanted len (record {
      visual = visual.now;
      levels = levels.now;
      ltov = ltov.now;
      vtol = vtol.now;
    }) }
{
    has_room(has_bit(wanted, 1), len, visual.len())
        && has_room(has_bit(wanted, 2), len, levels.len())
        && has_room(has_bit(wanted, 4), len, ltov.len())
        && has_room(has_bit(wanted, 8), len, vtol.len())
}

fn put_row(
    tables: &Tables,
    row: &LaidRow,
    wanted: u32,
    visual: &mut [u32],
    levels: &mut [u8],
    ltov: &mut [u32],
    vtol: &mut [u32],
)
    requires len { IsSized row.now }
    requires fits { row_fits wanted (length row.now.text.items) (record {
      visual = visual.old;
      levels = levels.old;
      ltov = ltov.old;
      vtol = vtol.old;
    }) ≡ true }
    ensures { record {
      visual = visual.new;
      levels = levels.new;
      ltov = ltov.new;
      vtol = vtol.new;
    } ≡ row_put wanted (row_in tables.now row.now) (record {
      visual = visual.old;
      levels = levels.old;
      ltov = ltov.old;
      vtol = vtol.old;
    }) }
{
    put_shown_if(has_bit(wanted, 1), tables, row, visual);
    put_levels_if(has_bit(wanted, 2), &row.levels, levels);
    put_places_if(has_bit(wanted, 4), &row.ltov, ltov);
    put_places_if(has_bit(wanted, 8), &row.vtol, vtol);
}

fn show_row(
    alloc: Global,
    tables: &Tables,
    options: Options,
    base: u32,
    characters: &[u32],
    levels: &[u8],
    wanted: u32,
    visual: &mut [u32],
    row_levels: &mut [u8],
    ltov: &mut [u32],
    vtol: &mut [u32],
) -> Status
    ensures { PutsRow wanted base characters.now levels.now options result tables.now (record {
      visual = visual.old;
      levels = row_levels.old;
      ltov = ltov.old;
      vtol = vtol.old;
    }) (record {
      visual = visual.new;
      levels = row_levels.new;
      ltov = ltov.new;
      vtol = vtol.new;
    }) }
{
    if !row_fits(characters.len(), wanted, visual, row_levels, ltov, vtol) {
        return Status::NoRoom;
    }
    match find_row(alloc, tables, options, base, characters, levels) {
        Ok(row) => {
            put_row(tables, &row, wanted, visual, row_levels, ltov, vtol);
            Status::Ok
        }
        Err(status) => status,
    }
}

/// Stores the visual order of a row, in the arrays that `wanted` selects.
#[unsafe(no_mangle)]
pub extern "C" fn hordguli_core_row(
    alloc: Global,
    tables: &mut TablesHandle,
    options: u32,
    base: u32,
    characters: &[u32],
    levels: &[u8],
    wanted: u32,
    visual: &mut [u32],
    row_levels: &mut [u8],
    ltov: &mut [u32],
    vtol: &mut [u32],
) -> u32
    ensures unchanged { tables.new.held ≡ tables.old.held }
    ensures row { Returns (λ status.
        AsksBy (PutsRow wanted base characters.now levels.now) (row_options_of options) status
        (tables_by options tables.old.held) (record {
          visual = visual.old;
          levels = row_levels.old;
          ltov = ltov.old;
          vtol = vtol.old;
        }) (record {
          visual = visual.new;
          levels = row_levels.new;
          ltov = ltov.new;
          vtol = vtol.new;
        })) result }
{
    let separates = separates_lines(options);
    let Some(options) = row_options_of(options) else {
        return number_of(Status::UnknownOption);
    };
    with_object!(
        tables,
        alloc,
        object,
        show_row(
            alloc,
            object.tables_if(separates),
            options,
            base,
            characters,
            levels,
            wanted,
            visual,
            row_levels,
            ltov,
            vtol
        )
    )
}

fn find_row_runs(
    alloc: Global,
    tables: &Tables,
    base: u32,
    characters: &[u32],
    levels: &[u8],
    array: &mut [RunOut],
    count: &mut usize,
) -> Status
    ensures { PutsRowRuns base characters.now levels.now result tables.now
        (array.old, count.old) (array.new, count.new) }
{
    let text = match row_text(alloc, base, characters, levels) {
        Ok(text) => text,
        Err(status) => return status,
    };
    match levels_after_l1(alloc, tables, base as u8, &text, levels) {
        Ok(own) => put_runs(&own, array, count),
        Err(_) => Status::NoMemory,
    }
}

/// Stores the directional runs of a row, from left to right.
#[unsafe(no_mangle)]
pub extern "C" fn hordguli_core_row_runs(
    alloc: Global,
    tables: &mut TablesHandle,
    base: u32,
    characters: &[u32],
    levels: &[u8],
    array: &mut [RunOut],
    count: &mut usize,
) -> u32
    ensures unchanged { tables.new.held ≡ tables.old.held }
    ensures runs { Returns (λ status.
        Asks (PutsRowRuns base characters.now levels.now) status tables.old.held
        (array.old, count.old) (array.new, count.new)) result }
{
    with_object!(
        tables,
        alloc,
        object,
        find_row_runs(
            alloc,
            object.tables(),
            base,
            characters,
            levels,
            array,
            count
        )
    )
}
