//! Parses a table file line by line.
ghost use Rattle.std.specs.Prelude.{◌≡◌, [], IfOk, IfErr, OnOk};
ghost use Rattle.ucd.specs.Grammar.{lines_of};
ghost use Rattle.ucd.specs.Files.{AddsLine, IsLineCause, HoldsFile, IsFaultInFile};

use crate::fault::Cause;
use crate::grammar::{Property, cut, read_line};
use crate::range_table::RangeTable;
use crate::version::Version;

/// A faulty line and its cause, or the line at which memory ran out. Lines are numbered from 1.
#[derive(Clone, Copy)]
pub struct FileFault {
    pub line: usize,
    pub cause: Cause,
}

// Parses one line, and adds its entry if it has one. Fails with the cause if the line is faulty, or with
// `Memory`.
fn add_line<V: Property>(
    version: Version,
    table: &mut RangeTable<V>,
    line: &[u8],
) -> Result<(), Cause>
    ensures ok { OnOk result (AddsLine (V.form version) table.old table.new line.now) }
    ensures err { IfErr result (IsLineCause (V.form version) table.old line.now) }
{
    match read_line::<V>(version, line)? {
        None => Ok(()),
        Some(entry) => table.add(entry),
    }
}

/// Adds the entries of a file to an empty table. Fails at the first faulty line, or if memory runs out.
pub fn read_file<V: Property>(
    version: Version,
    table: RangeTable<V>,
    file: &[u8],
) -> Result<RangeTable<V>, FileFault>
    requires { table ≡ [] }
    ensures ok { IfOk result (HoldsFile (V.form version) (lines_of file.now)) }
    ensures err { IfErr result (IsFaultInFile (V.form version) (lines_of file.now)) }
{
    let mut table = table;
    let mut line = 0;
    let mut rest = Some(file);
    while let Some(text) = rest {
        let (front, after) = cut(text, b'\n');
        line += 1;
        if let Err(cause) = add_line(version, &mut table, front) {
            return Err(FileFault { line, cause });
        }
        rest = after;
    }
    Ok(table)
}
