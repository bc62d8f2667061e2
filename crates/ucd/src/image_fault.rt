//! Errors in an image of the tables.
use thiserror::Error;

/// What is wrong with an image. The first fault in this order is reported, but `Truncated` comes after
/// `Version` if the image has a whole header.
#[derive(Clone, Copy, Debug, PartialEq, Eq, Error)]
pub enum ImageFault {
    /// The image is shorter than a header, or shorter than the counts in its header require.
    #[error("the image is truncated")]
    Truncated,
    /// The image does not begin with `hordguli-ucd`.
    #[error("not an image of tables")]
    Magic,
    /// The image has an unsupported version of the format.
    #[error("the image has another format")]
    Format,
    /// The version of Unicode is neither 15.0 nor 17.0.
    #[error("the image is of another version of Unicode")]
    Version,
    /// The image is longer than its counts require.
    #[error("the image is too long")]
    Excess,
    /// The checksum does not match the bytes before it.
    #[error("the checksum of the image is wrong")]
    Checksum,
    /// A block has a page number that does not belong to a page in the image.
    #[error("a page number of the image is out of range")]
    PageNumber,
    /// A bidi class is out of range, a line breaking class or detail does not exist in the version, or a mark
    /// is a future pictograph.
    #[error("the image has invalid properties")]
    Entry,
    /// The code points of the brackets are out of range or not in ascending order, or the other bracket of a
    /// pair is not a character.
    #[error("the image has an invalid bracket")]
    Bracket,
    /// The code points of the mirrors are out of range or not in ascending order, or a mirror is not a
    /// character.
    #[error("the image has an invalid mirror")]
    Mirror,
    /// The properties of a code point say that it is a bracket or has a mirror, but the image stores none, or
    /// vice versa.
    #[error("the brackets or mirrors of the image do not agree with its properties")]
    Flags,
    /// Memory ran out.
    #[error("out of memory")]
    Memory,
}
