//! The entries of a file in ascending order.
//!
//! The lines of most files are in ascending order, or form a few ascending runs. So the entries of all lines
//! are collected, sorted and compared with their neighbours. This method needs no flag for each code point,
//! but cannot report the first faulty line.
ghost use Rattle.std.specs.Prelude.{◌≡◌, List, ◌++◌, false, IsTrue, OnOk, IfOk, IfSome, IsOk};
ghost use Rattle.ucd.specs.declared.grammar.Entry.{Entry};
ghost use Rattle.ucd.specs.Entries.{AreApart};
ghost use Rattle.ucd.specs.Files.{HoldsFile};
ghost use Rattle.ucd.specs.Grammar.{lines_of, reading_of};
ghost use Rattle.ucd.specs.Rising.{AreRisingFrom, if_any, characters_of, entries_by, entries_in, AreRead};

use crate::fault::Cause;
use crate::grammar::{Entry, Property, cut, read_line};
use crate::range_table::{FIRST_SURROGATE, LAST_CHARACTER, LAST_SURROGATE};
use crate::version::Version;
use std::alloc::{AllocError, Global};
use std::marker::Model;

/// Entries in ascending order. No two of them have a character in common.
#[derive(Drop)]
pub struct RisingEntries<V> {
    entries: Vec<Entry<V>>,
}

impl<V> Model for RisingEntries<V> {
    ghost Value = { List (Entry V) };

    ghost view = { λ e. e.entries.items };

    ghost invariant = { λ e. AreRisingFrom 0 e.entries.items };
}

impl<V: Copy> RisingEntries<V> {
    pub fn as_slice(&self) -> &[Entry<V>]
        ensures entries { result.now ≡ self.now }
        ensures rising { AreRisingFrom 0 result.now }
        ensures apart { AreApart result.now }
    {
        &self.entries
    }
}

impl<V: Property> RisingEntries<V> {
    /// Parses a file. Returns `None` if a line is faulty or memory runs out.
    pub fn of_file(alloc: Global, version: Version, file: &[u8]) -> Option<RisingEntries<V>>
        ensures { IfSome result (HoldsFile (V.form version) (lines_of file.now)) }
    {
        let Ok(mut entries) = collect(alloc, version, file) else {
            return None;
        };
        // In most files, the lines form a few ascending runs, which a stable sort merges quickly.
        if entries.sort_by_key(|entry| entry.first).is_err() {
            return None;
        }
        if !are_rising(&entries) {
            return None;
        }
        Some(RisingEntries { entries })
    }
}

// Returns whether each entry has a valid range that starts after the end of the entry before it.
fn are_rising<V: Copy>(entries: &[Entry<V>]) -> bool
    ensures yes { IsTrue result → AreRisingFrom 0 entries.now }
    ensures no { result ≡ false → ¬ (AreRisingFrom 0 entries.now) }
{
    let mut low = 0;
    for entry in entries {
        if entry.first < low || entry.last < entry.first || entry.last > LAST_CHARACTER {
            return false;
        }
        low = entry.last + 1;
    }
    true
}

// Returns the entries of all lines, in the order of the lines. Fails if a line does not conform to the
// grammar, or if memory runs out. Does not check whether lines list the same character.
fn collect<V: Property>(
    alloc: Global,
    version: Version,
    file: &[u8],
) -> Result<Vec<Entry<V>>, Cause>
    ensures entries { IfOk result
        (λ entries. entries.items ≡ entries_in (V.form version) (lines_of file.now)) }
    ensures read { IsOk result → AreRead (V.form version) (lines_of file.now) }
{
    let mut entries = Vec::new(alloc);
    let mut rest = Some(file);
    while let Some(text) = rest {
        let (line, after) = cut(text, b'\n');
        collect_line(version, &mut entries, line)?;
        rest = after;
    }
    Ok(entries)
}

// Parses one line, and appends its entry, without surrogates, if it has one.
fn collect_line<V: Property>(
    version: Version,
    entries: &mut Vec<Entry<V>>,
    line: &[u8],
) -> Result<(), Cause>
    ensures entries { OnOk result (entries.new.items
        ≡ entries.old.items ++ entries_by (reading_of (V.form version) line.now)) }
    ensures read { OnOk result (IsOk (reading_of (V.form version) line.now)) }
{
    let Some(entry) = read_line::<V>(version, line)? else {
        return Ok(());
    };
    match push_characters(entries, entry) {
        Ok(()) => Ok(()),
        Err(_) => Err(Cause::Memory),
    }
}

// Appends the parts of an entry below and above the surrogates, except for empty parts.
fn push_characters<V: Copy>(entries: &mut Vec<Entry<V>>, entry: Entry<V>) -> Result<(), AllocError>
    ensures { OnOk result (entries.new.items ≡ entries.old.items ++ characters_of entry) }
{
    let below = Entry {
        last: entry.last.min(FIRST_SURROGATE - 1),
        ..entry
    };
    let above = Entry {
        first: entry.first.max(LAST_SURROGATE + 1),
        ..entry
    };
    push_if_any(entries, below)?;
    push_if_any(entries, above)
}

// Appends an entry. An entry that ends before it begins is not appended.
fn push_if_any<V: Copy>(entries: &mut Vec<Entry<V>>, entry: Entry<V>) -> Result<(), AllocError>
    ensures { OnOk result (entries.new.items ≡ entries.old.items ++ if_any entry) }
{
    if entry.last < entry.first {
        return Ok(());
    }
    match entries.push(entry) {
        Ok(()) => Ok(()),
        Err(_) => Err(AllocError),
    }
}
