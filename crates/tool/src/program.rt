//! Why the program ends early: the message and the exit status.
ghost use Rattle.std.specs.Prelude.{◌≡◌};

use command_line::LineFault;
use text_run::RunFault;
use thiserror::Error;
use ucd::{ImageFault, TableFault};

/// Why the program ends early. `Display` writes the message for standard error or, for help and the version,
/// the text for standard output.
#[derive(Debug, Drop, Error)]
pub enum ProgramFault {
    #[error("{0}")]
    Line(LineFault),
    /// A table file cannot be read. The field is the file's name.
    #[error("fribidi: cannot read {0}")]
    TableFile(&'static str),
    #[error("fribidi: {0}")]
    Table(TableFault),
    /// The image of the installed tables is damaged, or has another format or Unicode version.
    #[error("fribidi: cannot use tables.image: {0}")]
    TableImage(ImageFault),
    #[error("fribidi: {0}")]
    Run(RunFault),
}

impl ProgramFault {
    ghost use Rattle.tool.specs.Program.{status_of};

    /// Returns the exit status: for a `LineFault`, its own status, and otherwise 1.
    pub fn status(&self) -> u8
        ensures { result ≡ status_of self.now }
    {
        match self {
            ProgramFault::Line(fault) => fault.status(),
            _ => 1,
        }
    }
}
