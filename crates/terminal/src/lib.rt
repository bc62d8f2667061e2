//! Lays out what a terminal shows for a text, and adds the lines to a page, with each character in its style.
//!
//! `push_text` takes characters with their control sequences. To show control sequences as text, replace each
//! character by its `picture` first.
#![tactic(auto)]

mod block;
mod decoder;
mod decoding;
mod direction;
mod ends;
mod faults;
mod form;
mod input;
mod known_ends;
mod laws;
mod line;
mod line_form;
mod numbers;
mod output;
mod paragraph;
mod passed;
mod pieces;
mod prefix;
mod start;
mod text;
mod whole;

pub use direction::{FIRST_CHARACTERS, known_direction, whole_direction};
pub use faults::Fault;
pub use form::{Escapes, Form, Prefix};
pub use input::run;
pub use laws::{pages_end_in_newlines, prints_plain_lines, prints_without_prefix};
pub use start::{Start, read_start};
pub use text::{picture, push_text};
pub use whole::shows_whole;
