//! Reads table files of the Unicode Character Database, and looks up the properties of characters.
//!
//! Each line of a file is checked against the file's grammar. The lines may be in any order. An error reports
//! the file, the line and the cause. The properties of each code point are stored in 16 bits, in pages, so a
//! lookup needs two reads. Two of these bits say whether a character is a bracket and whether it has a
//! mirror. The bracket's pair and the mirror are stored in maps.
//!
//! `Tables` are made from the contents of the seven files in `FILE_NAMES`, which are passed as `UcdFiles`.
//! For example:
//!
//! ```rust
//! let tables = Tables::read(alloc, files)?;
//! assert!(rt; tables.bidi_class('א') == BidiClass::R);
//! assert!(rt; tables.mirror('(') == Some(')'));
//! let space = tables.properties(' '); // all properties, by one lookup
//! assert!(rt; space.line_class() == LineClass::SP && !space.is_wide());
//! ```
#![tactic(auto)]

mod bidi_class;
mod bracket;
mod category;
mod claims;
mod classes;
mod default_classes;
mod digits;
mod distinct_pages;
mod dotted_circle;
mod emoji;
mod entries;
mod fault;
mod file;
mod form;
mod forms;
mod grammar;
mod image;
mod image_bytes;
mod image_fault;
mod image_frame;
mod image_pages;
mod image_parts;
mod image_points;
mod image_write;
mod joining_file;
mod joining_line;
mod joining_pages;
mod joining_tables;
mod joining_type;
mod line_class;
mod line_detail;
mod paged;
mod pages;
mod plain;
mod points;
mod properties;
mod range_table;
mod rising;
mod runs;
mod tables;
mod version;
mod width;

pub use bidi_class::BidiClass;
pub use bracket::Bracket;
pub use classes::{Classes, KnownClasses, ListedClasses, TextClasses};
pub use fault::{Cause, FILE_NAMES, JOINING_FILE_NAMES, TableFault, file_name};
pub use form::Form;
pub use image_fault::ImageFault;
pub use joining_tables::{JoiningFiles, JoiningTables};
pub use joining_type::JoiningType;
pub use line_class::LineClass;
pub use line_detail::LineDetail;
pub use properties::{LINE_INDEX_COUNT, Properties};
pub use tables::{Tables, UcdFiles};
pub use version::{UNICODE_VERSION, Version};
