//! The order of a line's characters on a screen (UAX #9, section 3.4, L1 to L4).
//!
//! A caller that breaks lines itself copies a line's levels from those of the paragraph (`bidi::resolve`).
//! The following calls reset some of the levels (L1), find the visual order (L2, L3), and mirror characters
//! (L4):
//!
//! ```rust
//! let line = TextClasses { tables, text };
//! reset_levels(&line, 0, &mut levels);
//! visual_order(&line, &levels, false, &mut vtol, &mut ltov);
//! visual_chars(tables, text, &properties, &levels, &vtol, &mut chars);
//! assert!(rt; levels == [1, 1, 1, 0] && vtol == [2, 1, 0, 3]);
//! assert!(rt; chars == ['(', 'ב', ')', ' ']);
//! ```
//!
//! `level_runs` returns the level runs of a line from left to right, for a caller that shapes text.
//!
//! No function of this crate allocates. Arrays of positions have at most `u32::MAX` items. `reorder_in_place`
//! has no such limit.
#![tactic(auto)]

mod clusters;
mod in_place;
mod mirror;
mod order;
mod runs;
mod spaces;

pub use clusters::{ClusterClasses, clusters_stand_together, single_characters_stay};
pub use in_place::{highest_and_lowest_odd, reorder_in_place};
pub use mirror::{show_places, visual_chars, visual_runs};
pub use order::{
    groups_stand_together, identity, level_run_len, maps_are_inverse, order_runs, others_stay,
    visual_order, visual_places,
};
pub use runs::{Run, Runs, level_runs};
pub use spaces::reset_levels;
