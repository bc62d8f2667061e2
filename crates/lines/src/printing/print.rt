//! What to print for each line of a paragraph, and how printing can fail.
ghost use Rattle.std.specs.Prelude.{◌≡◌, false};

use crate::printing::bytes::WriteFault;
use thiserror::Error;

/// What to print for each line. By default, no field is set, and the visual line is printed, padded and
/// mirrored.
#[derive(Clone, Copy, Debug, PartialEq, Eq)]
pub struct Print {
    /// Omits the line in visual order.
    pub novisual: bool,
    /// Prints `LTR` or `RTL` after the first line of each paragraph.
    pub basedir: bool,
    /// Prints the visual position of each logical position.
    pub ltov: bool,
    /// Prints the logical position of each visual position.
    pub vtol: bool,
    /// Prints the level of each character.
    pub levels: bool,
    /// Prints no spaces to the left of lines of right-to-left paragraphs.
    pub nopad: bool,
    /// Prints characters at odd levels unchanged, not mirrored.
    pub nomirror: bool,
}

impl Default for Print {
    ghost is_default = { λ print. print ≡ record {
      novisual = false;
      basedir = false;
      ltov = false;
      vtol = false;
      levels = false;
      nopad = false;
      nomirror = false;
    } };

    fn default() -> Print {
        Print {
            novisual: false,
            basedir: false,
            ltov: false,
            vtol: false,
            levels: false,
            nopad: false,
            nomirror: false,
        }
    }
}

impl Print {
    ghost use Rattle.lines.specs.Asked.{asks_places};
    ghost use Rattle.lines.specs.Printing.{skips_lines};

    /// Returns whether at most the base direction is printed, which does not depend on the lines.
    pub fn skips_lines(&self) -> bool
        ensures { result ≡ skips_lines self.now }
    {
        self.novisual && !self.ltov && !self.vtol && !self.levels
    }

    // Returns whether printing needs the position maps: to print them, to find unmirrored characters, or to
    // find tabs.
    pub(crate) fn asks_places(&self, tab_width: u8) -> bool
        ensures { result ≡ asks_places tab_width self.now }
    {
        self.ltov || self.vtol || (!self.novisual && (self.nomirror || tab_width > 0))
    }
}

/// Why printing the lines of a paragraph failed.
#[derive(Clone, Copy, Debug, PartialEq, Eq, Error)]
pub enum PrintFault {
    /// An allocation failed, and nothing was written.
    #[error("out of memory")]
    Memory,
    /// The sink failed.
    #[error("{0}")]
    Write(WriteFault),
}
