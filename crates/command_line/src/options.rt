//! The settings of the command, and why its arguments are refused.
ghost use Rattle.std.specs.Prelude.{◌≡◌};

use clap::error::ErrorKind;
use lines::{Options, Print};
use thiserror::Error;
use ucd::Version;

/// The settings that the arguments specify.
#[derive(Debug, Drop)]
pub struct Settings<'a> {
    /// The folder of the table files.
    pub ucd: &'a str,
    /// The Unicode version of the tables.
    pub unicode: Version,
    /// The width of lines in columns, from 1 to 65,535.
    pub width: u16,
    /// The layout options.
    pub options: Options,
    /// Whether only LF, CR and CRLF end paragraphs.
    pub line_separators: bool,
    /// What to print for each line.
    pub print: Print,
    /// The edit script, if there is one.
    pub script: Option<&'a str>,
    /// Whether the script may contain queries.
    pub queries: bool,
    /// The files of the texts, in order. If there are none, the text is read from standard input.
    pub files: Vec<&'a str>,
}

/// Why the arguments are refused.
#[derive(Debug, Drop, Error)]
pub enum LineFault {
    /// `clap` refuses the arguments, or the arguments request help or the version. The fault is displayed as
    /// the message of the `clap` error.
    #[error("{0}")]
    Words(clap::Error),
    #[error("fribidi: more than one base direction")]
    Directions,
    #[error("fribidi: --unicode takes 15.0 or 17.0")]
    Unicode,
    #[error("fribidi: --script takes one file")]
    ScriptFiles,
    #[error("fribidi: --queries needs --script")]
    Queries,
    #[error("fribidi: out of memory")]
    NoMemory,
}

impl LineFault {
    ghost use Rattle.command_line.specs.Status.{lacks_folder, status_of_line};

    /// Returns the exit status: 0 for help and the version, 1 for out of memory, and otherwise 2.
    pub fn status(&self) -> u8
        ensures { result ≡ status_of_line self.now }
    {
        match self {
            LineFault::Words(error) => { if error.use_stderr() { 2 } else { 0 } }
            LineFault::NoMemory => 1,
            LineFault::Directions => 2,
            LineFault::Unicode => 2,
            LineFault::ScriptFiles => 2,
            LineFault::Queries => 2,
        }
    }

    /// Returns whether the arguments are refused because they name no folder of table files, the only
    /// required argument.
    pub fn lacks_folder(&self) -> bool
        ensures { result ≡ lacks_folder self.now }
    {
        match self {
            LineFault::Words(error) => error.kind() == ErrorKind::MissingRequiredArgument,
            _ => false,
        }
    }
}
