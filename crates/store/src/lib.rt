//! Stores of paragraphs: lists of items with the sums of their characters, lines, UTF-8 bytes and UTF-16 code
//! units.
//!
//! A `ParagraphStore` holds items that are `Measured`. `replace` replaces a range of items. `find_char`,
//! `find_line`, `find_byte` and `find_utf16` find the item that contains a character, a line, a byte or a
//! code unit. `find_item` returns the sums of the items before an index. A `VecStore` is a list. A
//! `TreeStore` is a balanced tree, in which the number of items that a search visits is logarithmic in the
//! number of all items.
//!
//! ```rust
//! let paragraphs = vec![in alloc; Paragraph(5, 1), Paragraph(90, 2)]?;
//! let mut store = TreeStore::new(alloc);
//! match store.replace(0..0, paragraphs) {
//!     Ok(_) => find(rt, &store),
//!     Err((_, fault)) => return Err(fault),
//! }
//! ```
//!
//! ```rust
//! assert!(rt; store.total_chars() == 95 && store.total_lines() == 3);
//! let found = store.find_line(2);
//! assert!(rt; found.index == 1 && found.rest == 1 && found.chars_before == 5);
//! ```
#![tactic(auto)]

mod found;
mod joining;
mod measured;
mod paragraph_store;
mod search;
mod subtree;
mod sums;
mod swapping;
mod tree_store;
mod vec_store;

pub use found::Found;
pub use measured::{Exchange, Exchanger, Measured};
pub use paragraph_store::ParagraphStore;
pub use tree_store::TreeStore;
pub use vec_store::VecStore;
