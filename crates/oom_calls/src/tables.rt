//! Reads the table files. An allocation failure must not be reported as a faulty line.
use crate::Wrong;
use lines::{Engine, Options};
use std::alloc::Global;
use ucd::{Cause, TableFault, Tables, UcdFiles};

/// The test tables.
pub const FILES: UcdFiles<'_> = UcdFiles {
    bidi_class: test_tables::BIDI_CLASS,
    bidi_brackets: test_tables::BIDI_BRACKETS,
    bidi_mirroring: test_tables::BIDI_MIRRORING,
    line_break: test_tables::LINE_BREAK,
    general_category: test_tables::GENERAL_CATEGORY,
    east_asian_width: test_tables::EAST_ASIAN_WIDTH,
    emoji_data: test_tables::EMOJI_DATA,
};

const MEMORY: TableFault = TableFault {
    file: 0,
    line: 0,
    cause: Cause::Memory,
};

// Reads the files, and tries again after an allocation failure.
fn read(alloc: Global) -> Result<Tables, Wrong> {
    match read_once(alloc) {
        Ok(tables) => Ok(tables),
        Err(fault) => read_again(alloc, fault),
    }
}

fn read_again(alloc: Global, fault: TableFault) -> Result<Tables, Wrong> {
    if fault != MEMORY {
        return Err("a fault in good files");
    }
    match read_once(alloc) {
        Ok(tables) => Ok(tables),
        Err(_) => Err("refused twice"),
    }
}

fn read_once(alloc: Global) -> Result<Tables, TableFault> {
    Tables::read(alloc, &FILES)
}

/// Reads the files.
pub fn try_read(alloc: Global) -> Result<(), Wrong> {
    read(alloc)?;
    Ok(())
}

/// Reads the files, and makes an engine.
pub fn engine(alloc: Global) -> Result<Engine, Wrong> {
    Ok(Engine::new(read(alloc)?, Options::default()))
}

/// Drops an engine. No other function drops an engine, since every proof that drops all lists of an engine is
/// slow.
pub fn let_go(_engine: Engine) {}
