//! Why the command ends early.

use terminal_options::OptionFault;
use thiserror::Error;
use ucd::{ImageFault, TableFault};

/// Why the command ends. Displayed as the message for standard error or, for help and the version, as the
/// text for standard output.
#[derive(Debug, Drop, Error)]
pub(crate) enum End {
    #[error("{0}")]
    Options(OptionFault),
    #[error("hordguli: an argument is not UTF-8")]
    Arguments,
    #[error("hordguli: HORDGULI_OPTIONS is not UTF-8")]
    Environment,
    #[error("hordguli: --prefix: {0}")]
    Pattern(regex::Error),
    /// No table files are installed where the program looks for them.
    #[error("hordguli: cannot find the Unicode table files; name their folder with --ucd")]
    NoTables,
    /// The table file with this name cannot be read.
    #[error("hordguli: cannot read {0}")]
    TableFile(&'static str),
    #[error("hordguli: {0}")]
    Table(TableFault),
    #[error("hordguli: cannot use tables.image: {0}")]
    TableImage(ImageFault),
    /// Standard output is a pipe whose reader is gone, which is not an error.
    #[error("")]
    Closed,
    /// An error that has already been reported.
    #[error("")]
    Reported,
    #[error("hordguli: out of memory")]
    Memory,
}
