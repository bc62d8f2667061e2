//! The input of a program: its arguments, the folder of installed table files, and its texts.
//!
//! The crate `fribidi` reads edit scripts itself.
#![tactic(auto)]

mod args;
mod installed;
mod texts;

pub use args::{arguments, as_texts, with_folder};
pub use installed::installed_folder;
pub use texts::{read_text, write_texts};
