//! Finds what a terminal shows for a text: the characters that remain after control sequences, overstrikes
//! and dropped controls are removed, each with a style.
//!
//! A `Scanner` collects the characters of a paragraph. `push_between` writes the sequences that change one
//! style to the next:
//!
//! ```rust
//! let mut scanner = Scanner::new(rt.alloc());
//! scanner.push_text(&['a', '\u{1b}', '[', '1', 'm', 'b'])?;
//! assert!(rt; scanner.text.characters.as_slice() == ['a', 'b'].as_slice());
//! assert!(rt; scanner.text.runs.len() == 1); // b is bold
//! ```
#![tactic(auto)]

mod characters;
mod known;
mod laws;
mod lengths;
mod links;
mod look;
mod output;
mod overstrikes;
mod parts;
mod same_look;
mod scanner;
mod sgr;
mod style;

pub use known::{Progress, is_sequence_known};
pub use laws::{
    shows_itself, shows_no_controls, shows_pieces, shows_plain_text, shows_the_same,
    writes_plain_text,
};
pub use lengths::{LONGEST_STRING, sequence_len};
pub use links::MAX_LINKS_LEN;
pub use look::{Blink, Color, Look, PLAIN, Underline};
pub use output::push_between;
pub use scanner::Scanner;
pub use style::{Link, NO_LINK, StyleRef, StyleRun, StyledText};
