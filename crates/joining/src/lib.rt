//! Cursive joining (the Unicode Standard, section 9.2, rules R1 to R7 and L1 to L3): which characters join,
//! the forms of letters, and the ligatures of lam and alef.
//!
//! ```rust
//! let lam = Joiner {
//!     joining: JoiningType::for_char('ل'),
//!     level: Some(1),
//! };
//! let alef = Joiner {
//!     joining: JoiningType::for_char('ا'),
//!     level: Some(1),
//! };
//! let text = ListedJoiners {
//!     joiners: &[lam, alef],
//! };
//! assert!(rt; next_joined(&text, Agreement::All, 0) == Some(1));
//! ```
//!
//! The property Joining_Type comes from the kit's crate `ucd_bidi`, or with presentation forms from Unicode's
//! files, as `ucd::JoiningTables`.
#![tactic(auto)]

mod changes;
mod joiner;
mod joins;
mod ligature;
mod pairs;
mod presentation;
mod shaping;
mod tables;

pub use changes::{hidden_lams_have_ligatures, only_letters_with_forms_change};
pub use joiner::{Agreement, Joiner, Joiners, ListedJoiners};
pub use joins::next_joined;
pub use ligature::lam_alef;
pub use pairs::{
    joins_are_mutual, only_joining_types_join, slices_join_alike,
    transparent_characters_change_nothing,
};
pub use presentation::{Letter, LetterForms, ListedForms, PresentationForms};
pub use shaping::join_letters;
pub use tables::joining_type;
pub use ucd::Form;
pub use ucd_bidi::JoiningType;
