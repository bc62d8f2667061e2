//! The Unicode Bidirectional Algorithm (UAX #9): paragraph boundaries, base levels, and the levels of
//! characters.
//!
//! `first_cut` finds the end of a text's first paragraph. `base_level` and `resolve` return the base level
//! and the levels of one paragraph. A `Resolver` finds the same levels from properties that have already been
//! looked up, and reuses its lists. The rules for lines (L1 to L4) are in the crate `reorder`.
//!
//! ```rust
//! let text: Vec<char> = "(שלום) ok".chars().collect(alloc)?;
//! let levels = resolve(alloc, tables, &text, Base::WeakLtr)?;
//! assert!(rt; levels.as_slice() == [1, 1, 1, 1, 1, 1, 1, 2, 2].as_slice());
//! ```
#![tactic(auto)]

mod base;
mod bracket_steps;
mod bracket_type;
mod brackets;
mod classes;
mod cuts;
mod doubling;
mod explicit;
mod explicit_steps;
mod fill;
mod isolates;
mod level_reason;
mod levels;
mod neutral;
mod neutral_steps;
mod neutral_table;
mod paragraph_reasons;
mod resolver;
mod sequence_levels;
mod sequence_reasons;
mod sequence_starts;
mod sequence_steps;
mod sequences;
mod text_cuts;
mod weak;
mod weak_steps;
mod weak_table;

pub use base::{
    Base, base_level, base_level_by, base_level_in_text, base_level_of, first_strong_level,
};
pub use bracket_steps::{BracketCase, BracketStep};
pub use bracket_type::BracketType;
pub use cuts::{first_cut, is_cut, paragraphs_are_pieces};
pub use doubling::doubling_keeps_levels;
pub use explicit_steps::ExplicitStep;
pub use level_reason::{LevelReason, SequenceReason, level_reasons};
pub use neutral_steps::{NeutralRule, NeutralStep};
pub use paragraph_reasons::{ParagraphReasons, reasons};
pub use resolver::{Resolver, resolve, resolve_by};
pub use sequence_reasons::SequenceReasons;
pub use sequence_steps::SequenceStep;
pub use text_cuts::first_cut_in_text;
