//! Engines with the test tables.
use lines::{Engine, Options};
use std::alloc::Global;
use ucd::{Cause, TableFault, Tables, UcdFiles};

/// The seven table files, with the lines of `test_tables`.
pub const FILES: UcdFiles<'_> = UcdFiles {
    bidi_class: test_tables::BIDI_CLASS,
    bidi_brackets: test_tables::BIDI_BRACKETS,
    bidi_mirroring: test_tables::BIDI_MIRRORING,
    line_break: test_tables::LINE_BREAK,
    general_category: test_tables::GENERAL_CATEGORY,
    east_asian_width: test_tables::EAST_ASIAN_WIDTH,
    emoji_data: test_tables::EMOJI_DATA,
};

// Reads the tables, and tries again after an allocation failure.
fn read(alloc: Global, files: &UcdFiles<'_>) -> Result<Tables, TableFault> {
    let tables = Tables::read(alloc, files);
    if is_refused(&tables) {
        drop(tables);
        return Tables::read(alloc, files);
    }
    tables
}

fn is_refused(tables: &Result<Tables, TableFault>) -> bool {
    match tables {
        Ok(_) => false,
        Err(fault) => fault.cause == Cause::Memory,
    }
}

/// Makes an engine with tables read from the given files, and with the given options.
pub fn engine(alloc: Global, files: &UcdFiles<'_>, options: Options) -> Result<Engine, TableFault> {
    Ok(Engine::new(read(alloc, files)?, options))
}
