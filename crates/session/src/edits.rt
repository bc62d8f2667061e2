//! Edits of a text, their damage, and their errors.
use thiserror::Error;

/// The maximum number of characters in a text.
pub const TEXT_LIMIT: usize = 16_777_216;

// Proves that the constant, which contracts use, equals the number in the documentation.
const _: () = prove!(TEXT_LIMIT == 16_777_216);

/// An edit of a text, or a change of the width at which it is laid out. Positions count characters (Unicode
/// scalar values).
#[derive(Clone, Copy, Debug)]
pub enum Edit<'a> {
    /// Inserts text before the character at a position, or at the end.
    Insert(usize, &'a str),
    /// Deletes characters. The fields are the position of the first character and the number of characters.
    Delete(usize, usize),
    /// Sets the width, in columns, and rewraps every paragraph.
    SetWidth(u16),
}

/// A range of a text: `count` characters, starting at `pos`.
#[derive(Clone, Copy, Debug)]
pub struct TextRange {
    pub pos: usize,
    pub count: usize,
}

/// What an edit replaced. Starting at line `first_line`, `new_lines` lines replace `old_lines` lines.
/// Starting at paragraph `first_par`, `new_pars` paragraphs replace `old_pars` paragraphs. Lines and
/// paragraphs are numbered from 0.
#[derive(Clone, Copy, Debug, PartialEq, Eq)]
pub struct Damage {
    pub first_line: usize,
    pub old_lines: usize,
    pub new_lines: usize,
    pub first_par: usize,
    pub old_pars: usize,
    pub new_pars: usize,
}

/// Which lines a call changed. Starting at line `first_line`, `new_lines` lines replace `old_lines` lines.
/// All other lines are the same as before, in the sense of `VisualLine::is_same`.
#[derive(Clone, Copy, Debug, PartialEq, Eq)]
pub struct ChangedLines {
    pub first_line: usize,
    pub old_lines: usize,
    pub new_lines: usize,
}

/// The maximum width of a measured session, in the caller's unit.
pub const MEASURED_WIDTH_LIMIT: u32 = 2_147_483_647;

// Proves that the constant equals the number in the documentation and in the contracts.
const _: () = prove!(MEASURED_WIDTH_LIMIT == 2_147_483_647);

/// Why a call for measured text failed. The causes are listed in the order in which they are tested.
#[derive(Clone, Copy, Debug, PartialEq, Eq, Error)]
pub enum AdvanceFault {
    /// The session is not measured.
    #[error("not measured")]
    NotMeasured,
    /// The range reaches past the end of the text.
    #[error("out of range")]
    OutOfRange,
    /// The width is 0, or more than 2,147,483,647.
    #[error("width out of range")]
    WidthOutOfRange,
    /// The advances of a paragraph would add up to more than 4,294,967,295.
    #[error("paragraph too long")]
    ParagraphTooLong,
    /// An allocation failed, and no other cause applies.
    #[error("out of memory")]
    NoMemory,
}

/// Why an edit failed. The causes are listed in the order in which they are tested.
#[derive(Clone, Copy, Debug, PartialEq, Eq, Error)]
pub enum EditFault {
    /// The edit reaches past the end of the text.
    #[error("out of range")]
    OutOfRange,
    /// The width is 0.
    #[error("width out of range")]
    WidthOutOfRange,
    /// The new text would have more than 16,777,216 characters.
    #[error("text too long")]
    TextTooLong,
    /// A paragraph of the new text would have more than 1,048,576 characters, or, if the text is measured,
    /// advances that add up to more than 4,294,967,295.
    #[error("paragraph too long")]
    ParagraphTooLong,
    /// An allocation failed, and no other cause applies.
    #[error("out of memory")]
    NoMemory,
}
