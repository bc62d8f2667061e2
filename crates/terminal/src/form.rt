//! Options for how a text is written.
ghost use Rattle.std.specs.Prelude.{◌≡◌, ◌<◌};

use lines::Print;
use regex::Regex;

/// How control sequences, overstrikes and other controls are treated.
#[derive(Clone, Copy, Debug, PartialEq, Eq)]
pub enum Escapes {
    /// Control sequences become styles in the output, or are dropped.
    Keep,
    /// Like `Keep`, but the output has no styles.
    Strip,
    /// Sequences and overstrikes are shown as text. Each control that the other modes drop is replaced by its
    /// picture, such as U+241B for ESC.
    Text,
}

/// What counts as a prefix at the start of a paragraph. The text after the prefix is laid out as a separate
/// paragraph, at the remaining width. Tab stops are counted from the start of that text.
#[derive(Clone, Copy, Debug)]
pub enum Prefix<'a> {
    /// There are no prefixes.
    None,
    /// The quote marks of an email: the longest match of `(> ?)+`. The marks are repeated on each line, in
    /// the direction of the text after them: to the right of right-to-left lines.
    Quotes,
    /// The match of a pattern at the start of a paragraph without its separator. The match is left-to-right
    /// and to the left of all lines. Lines after the first are indented by as many spaces as the match has
    /// columns. A match that starts later is ignored. Begin the pattern with `\A` to avoid the search for a
    /// later match.
    Pattern(&'a Regex),
}

impl<'a> Prefix<'a> {
    ghost use Rattle.terminal.specs.Prefixes.{repeats};

    /// Returns whether the prefix is on all lines, and not only on the first.
    pub(crate) fn repeats(&self) -> bool
        ensures { result ≡ repeats self.now }
    {
        match self {
            Prefix::None | Prefix::Quotes => true,
            Prefix::Pattern(_) => false,
        }
    }
}

/// The options for writing a text.
#[derive(Clone, Copy, Debug)]
pub struct Form<'a> {
    /// The width in columns, or 0 for no limit: then lines end at mandatory breaks only, and have no padding.
    pub width: u16,
    /// Writes no spaces to the left of lines of right-to-left paragraphs.
    pub nopad: bool,
    /// Writes characters at odd levels unchanged, not mirrored.
    pub nomirror: bool,
    /// Writes `LTR` or `RTL` after the first line of each paragraph.
    pub basedir: bool,
    pub escapes: Escapes,
    /// Stops at the first invalid UTF-8, and at a paragraph over `PARAGRAPH_LIMIT`. Writes a paragraph only
    /// once something follows it, or at the end of the text.
    pub strict: bool,
    /// What counts as a prefix. A prefix that is not narrower than the width is laid out as text.
    pub prefix: Prefix<'a>,
}

impl<'a> Form<'a> {
    ghost use Rattle.terminal.specs.Forms.{print_of, width_of};

    /// Returns the width of lines in columns, or `u32::MAX` if there is no limit.
    pub(crate) fn columns(&self) -> u32
        ensures width { result ≡ width_of self.now }
        ensures some { 0 < result }
    {
        if self.width == 0 {
            u32::MAX
        } else {
            u32::from(self.width)
        }
    }

    /// Returns the options with which the crate `lines` prints the lines.
    pub(crate) fn print(&self) -> Print
        ensures { result ≡ print_of self.now }
    {
        Print {
            novisual: false,
            basedir: self.basedir,
            ltov: false,
            vtol: false,
            levels: false,
            nopad: self.nopad || self.width == 0,
            nomirror: self.nomirror,
        }
    }
}
