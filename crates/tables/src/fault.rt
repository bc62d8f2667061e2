//! Errors that occur when the tables of a folder are read.
use thiserror::Error;
use ucd::{ImageFault, TableFault};

/// An error that occurred when tables were read.
#[derive(Clone, Copy, Debug, PartialEq, Eq, Error)]
pub enum FolderFault {
    /// The file with this name cannot be read.
    #[error("cannot read {0}")]
    Unread(&'static str),
    /// A file is malformed, or memory ran out while it was parsed.
    #[error("{0}")]
    Table(TableFault),
    /// The image is damaged, or has another format or Unicode version.
    #[error("cannot use tables.image: {0}")]
    Image(ImageFault),
    /// Memory ran out while the files or the image were read, or while the image was decoded.
    #[error("out of memory")]
    Memory,
}
