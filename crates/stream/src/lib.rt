//! Chunked input and output: reads bytes from a source, decodes them, encodes characters, and collects bytes
//! before they are written.
//!
//! `front` takes bytes that may end inside a character. It returns the text of the whole characters, and
//! whether the rest is invalid:
//!
//! ```rust
//! let (text, is_bad) = front(b"ab\xd7");
//! assert!(rt; text == "ab" && !is_bad);
//! ```
#![tactic(auto)]

mod encoding;
mod packing;
mod page;
mod reading;
mod short;
mod utf8;

pub use encoding::{encode, encode_at};
pub use page::Page;
pub use reading::{CHUNK, read_to, zeroed};
pub use utf8::{front, push_characters};
