//! Why options are refused.

use thiserror::Error;

/// Why the options are refused.
#[derive(Debug, Drop, Error)]
pub enum OptionFault {
    /// `clap` refuses the words, or the words request help or the version. The fault is displayed as the
    /// message of the `clap` error.
    #[error("{0}")]
    Words(clap::Error),
    /// The option belongs to the strict command.
    #[error("hordguli: --{0} is an option of hordguli-fribidi")]
    Profile(&'static str),
    #[error("hordguli: --width takes a number from 1 to 65535, auto or none")]
    Width,
    #[error("hordguli: --tabs takes a number from 1 to 255, or none")]
    Tabs,
    #[error("hordguli: --marks takes clusters, after or logical")]
    Marks,
    #[error("hordguli: --direction takes auto, rtl-auto, ltr, rtl or file")]
    Direction,
    #[error("hordguli: --escapes takes keep, strip or text")]
    Escapes,
    #[error("hordguli: --unicode takes 15.0 or 17.0")]
    Unicode,
    #[error("hordguli: --quotes and --prefix exclude each other")]
    Prefixes,
    #[error("hordguli: out of memory")]
    NoMemory,
}

impl OptionFault {
    ghost use Rattle.std.specs.Prelude.{◌≡◌};
    ghost use Rattle.terminal_options.specs.Status.{status_of};

    /// Returns the exit status: 0 for help and the version, 1 for out of memory, and otherwise 2.
    pub fn status(&self) -> u8
        ensures { result ≡ status_of self.now }
    {
        match self {
            OptionFault::Words(error) => { if error.use_stderr() { 2 } else { 0 } }
            OptionFault::NoMemory => 1,
            _ => 2,
        }
    }
}
