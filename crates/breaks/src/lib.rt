//! The Unicode Line Breaking Algorithm (UAX #14), which finds where in a paragraph a line may, must or must
//! not end.
//!
//! `marks` returns the break mark after each character. `marks_into` writes the same marks to a reused list.
//! `reasons` returns the rule that decides each mark.
//! The crate `lines` finds where lines end at a given width.
//!
//! ```rust
//! let text: Vec<char> = "to go".chars().collect(alloc)?;
//! let marks = marks(alloc, tables, &text, false)?;
//! let wanted = [Mark::Never, Mark::Never, Mark::May, Mark::Never, Mark::Must];
//! assert!(rt; marks.as_slice() == wanted.as_slice());
//! ```
#![tactic(auto)]

mod bases;
mod before;
mod characters;
mod conditions;
mod doubling;
mod entries;
mod entries_17;
mod line_rule;
mod line_rules;
mod mark;
mod ordinary_17;
mod questions;
mod reason;
mod rules;
mod symbol;
mod symbol_17;
mod table;
mod table_17;
mod walk;
mod walk_17;

pub use doubling::{are_of_one_kind, mark_if_doubled};
pub use line_rule::LineRule;
pub use mark::{
    Mark, doubling_keeps_marks, marks, marks_are_as_many, marks_into, numbers_are_whole,
    paragraphs_end_at_must,
};
pub use reason::{Reason, reasons};
