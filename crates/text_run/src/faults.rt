//! The errors that end a run early.
use thiserror::Error;

/// Why the run of a text or of a script ended early. The function's contract says which bytes were written
/// before the error.
#[derive(Clone, Copy, Debug, PartialEq, Eq, Error)]
pub enum RunFault {
    /// The source failed.
    #[error("cannot read")]
    Read,
    /// The sink failed after this call had written this number of bytes.
    #[error("cannot write after {0} bytes")]
    Write(u64),
    /// The input is invalid UTF-8 from this byte on, counted from 0.
    #[error("not UTF-8 at byte {0}")]
    NotUtf8(u64),
    /// A paragraph has more than 1,048,576 characters.
    #[error("paragraph too long")]
    ParagraphTooLong,
    /// The script line with this number, counted from 1, is not valid.
    #[error("bad script line {0}")]
    BadLine(u64),
    /// An allocation failed.
    #[error("out of memory")]
    Memory,
    /// The text of a session has more than 16,777,216 characters.
    #[error("text too long")]
    TextTooLong,
}
