//! How the lines of a paragraph are written.
ghost use Rattle.std.specs.Prelude.{◌≡◌, false};
ghost use Rattle.lines.specs.Visual.{is_measured};

use crate::numbers::Part;
use lines::{Print, VisualLine};

/// The width, the print options and the prefix of a paragraph's lines.
#[derive(Clone, Copy)]
pub(crate) struct LineForm<'a> {
    pub(crate) width: u32,
    pub(crate) print: Print,
    pub(crate) prefix: Option<&'a PrefixLine<'a>>,
}

/// The line of the prefix, with its shown characters and their styles.
#[derive(Clone, Copy)]
pub(crate) struct PrefixLine<'a> {
    pub(crate) line: &'a VisualLine<'a>,
    pub(crate) part: Part<'a>,
    /// Whether the prefix is on all lines, and not only on the first.
    pub(crate) repeats: bool,
    ghost text: { part.characters.now ≡ line.now.text },
    ghost plain: { is_measured line.now ≡ false },
}
