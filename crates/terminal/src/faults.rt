//! The errors that end a run early.

/// Why a run ended early. The contract of `run` says which bytes were written before the error.
#[derive(Clone, Copy, Debug, PartialEq, Eq)]
pub enum Fault {
    /// The source failed.
    Read,
    /// The sink failed after `run` had written this number of bytes.
    Write(u64),
    /// The input is invalid UTF-8 from this byte on, counted from 0.
    NotUtf8(u64),
    /// A paragraph, with its sequences, has more than 1,048,576 characters.
    ParagraphTooLong,
    /// An allocation failed.
    Memory,
}
