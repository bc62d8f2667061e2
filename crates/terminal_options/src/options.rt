//! The settings that the options specify.

use crate::choices::{Direction, Marks, Prefix, Width};
use terminal::Escapes;
use ucd::Version;

/// The settings that the options specify.
#[derive(Debug, Drop)]
pub struct Settings<'a> {
    /// The folder of the table files, if one is given.
    pub ucd: Option<&'a str>,
    /// The Unicode version of the tables.
    pub unicode: Version,
    pub width: Width,
    /// The number of columns from one tab stop to the next, or 0 if tabs have no width.
    pub tab_width: u8,
    pub marks: Marks,
    pub direction: Direction,
    pub escapes: Escapes,
    pub prefix: Prefix<'a>,
    /// Lines are not broken inside numbers.
    pub whole_numbers: bool,
    /// Spaces at the end of lines are shown.
    pub show_spaces: bool,
    /// Only LF, CR and CRLF end paragraphs.
    pub line_separators: bool,
    /// Characters at odd levels are not mirrored.
    pub nomirror: bool,
    /// The base direction is printed after the first line of each paragraph.
    pub basedir: bool,
    /// Lines of right-to-left paragraphs are not padded.
    pub nopad: bool,
    /// Invalid UTF-8 and paragraphs that are too long are refused.
    pub strict: bool,
    /// The files, in order. If there are none, standard input is read.
    pub files: Vec<&'a str>,
}
