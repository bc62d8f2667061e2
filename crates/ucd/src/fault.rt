//! Errors in table files.
ghost use Rattle.std.specs.Prelude.{◌≡◌, ◌<◌};
ghost use Rattle.ucd.specs.FileNames.{file_name};

use crate::file::FileFault;
use std::fmt;
use thiserror::Error;

/// The names of the table files, in the order in which they are read.
pub const FILE_NAMES: [&str; 7] = [
    "DerivedBidiClass.txt",
    "BidiBrackets.txt",
    "BidiMirroring.txt",
    "LineBreak.txt",
    "DerivedGeneralCategory.txt",
    "EastAsianWidth.txt",
    "emoji-data.txt",
];

/// The names of the files for cursive joining, in the order in which they are read.
pub const JOINING_FILE_NAMES: [&str; 2] = ["ArabicShaping.txt", "UnicodeData.txt"];

/// Returns the name of the file with this index in `FILE_NAMES`.
pub fn file_name(index: usize) -> &'static str
    requires { index < 7 }
    ensures { result.now ≡ file_name index }
{
    FILE_NAMES[index]
}

/// What is wrong with a line. If several causes apply, the first in this order is reported: `NotAscii`,
/// `FieldCount`, `CodePoint`, `Reversed`, `Value`, `NamedBefore`.
#[derive(Clone, Copy, Debug, PartialEq, Eq)]
pub enum Cause {
    /// The line has a byte above 0x7F before any `#`.
    NotAscii = 1,
    /// The first field is neither a code point nor, in a file with ranges, a range.
    CodePoint = 2,
    /// The end of a range is less than its start.
    Reversed = 3,
    /// The line has too many or too few fields.
    FieldCount = 4,
    /// The file does not allow this value.
    Value = 5,
    /// An earlier line of the file already assigns a value to one of the line's characters.
    NamedBefore = 6,
    /// Memory ran out, and no line is at fault.
    Memory = 7,
}

/// The first faulty line, in file order and then line order, or an allocation failure. For a faulty line,
/// `Display` writes the file's name, the line's number and the number of the cause.
#[derive(Clone, Copy, Debug, PartialEq, Eq, Error)]
#[error("{}", Message(.file, .line, .cause))]
pub struct TableFault {
    /// The file's number in `FILE_NAMES`, starting at 1, or 0 if memory ran out. The files in
    /// `JOINING_FILE_NAMES` have the numbers 8 and 9.
    pub file: usize,
    /// The line's number, starting at 1, or 0 if memory ran out.
    pub line: usize,
    pub cause: Cause,
}

impl TableFault {
    ghost use Rattle.ucd.specs.Tables.{fault_in};

    // Returns the fault for an allocation failure, which names no file.
    pub(crate) fn memory() -> TableFault
        ensures { result ≡ record { file = 0; line = 0; cause = Cause.Memory } }
    {
        TableFault {
            file: 0,
            line: 0,
            cause: Cause::Memory,
        }
    }

    // Returns the fault for a faulty line of a file, or for an allocation failure, which names no file.
    pub(crate) fn in_file(file: usize, fault: FileFault) -> TableFault
        ensures { result ≡ fault_in file fault }
    {
        if fault.cause == Cause::Memory {
            return TableFault::memory();
        }
        TableFault {
            file,
            line: fault.line,
            cause: fault.cause,
        }
    }
}

// The message for a fault: its file, line and cause, or that memory ran out.
#[derive(Clone, Copy)]
struct Message<'a>(&'a usize, &'a usize, &'a Cause);

impl fmt::Display for Message<'_> {
    fn fmt<W: fmt::Write>(&self, f: &mut fmt::Formatter<W>) -> fmt::Result {
        let Message(file, line, cause) = self;
        if **cause == Cause::Memory {
            return f.write_str("out of memory");
        }
        let index = file.saturating_sub(1);
        let other = JOINING_FILE_NAMES
            .get(index.saturating_sub(FILE_NAMES.len()))
            .copied();
        let name = FILE_NAMES.get(index).copied().or(other).unwrap_or("");
        write!(f, "{name}:{line}: cause {}", **cause as u8)
    }
}
