//! Types for the values of options.

/// The width of lines.
#[derive(Clone, Copy, Debug, PartialEq, Eq)]
pub enum Width {
    /// A number of columns, from 1 to 65,535.
    Columns(u16),
    /// The width of the terminal.
    Auto,
    /// Lines end at mandatory breaks only.
    Unlimited,
}

/// The order of the characters of a grapheme cluster in right-to-left text.
#[derive(Clone, Copy, Debug, PartialEq, Eq)]
pub enum Marks {
    /// The characters of a grapheme cluster keep their logical order.
    Clusters,
    /// Nonspacing marks follow their base.
    After,
    /// Each character is reordered by itself.
    Logical,
}

/// The base direction of paragraphs.
#[derive(Clone, Copy, Debug, PartialEq, Eq)]
pub enum Direction {
    /// The direction of the first strong character, or else left-to-right.
    Auto,
    /// The direction of the first strong character, or else right-to-left.
    RtlAuto,
    Ltr,
    Rtl,
    /// The direction of the file's first paragraph with a strong character, or else left-to-right.
    File,
}

/// What counts as a prefix of a paragraph.
#[derive(Clone, Copy, Debug)]
pub enum Prefix<'a> {
    Absent,
    /// The quote marks at the paragraph's start.
    Quotes,
    /// The match of a regular expression at the paragraph's start.
    Pattern(&'a str),
}
