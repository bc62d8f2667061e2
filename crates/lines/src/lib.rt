//! Lines of a paragraph: where each line starts at a given width, and how it is shown.
//!
//! An `Engine` holds the tables and the options, and lays out one paragraph at a time:
//!
//! ```rust
//! if text.is_empty() || text.len() > PARAGRAPH_LIMIT || engine.first_cut(&text).is_some() {
//!     return Err(Fail::new("no paragraph"));
//! }
//! match engine.lay_out(alloc, text, 8) {
//!     Ok(laid) => Ok(laid),
//!     Err((_, fault)) => Err(Fail::from(fault)),
//! }
//! ```
//!
//! A `Laid` is the layout of a paragraph. The lines borrow from the layout:
//!
//! ```rust
//! assert!(rt; laid.line_starts() == [0, 4].as_slice());
//! if let Some(line) = laid.line(1) {
//!     assert!(rt; line.levels() == [0, 1, 1, 1, 1, 0].as_slice());
//!     assert!(rt; line.chars() == ['(', 'ם', 'ו', 'ל', 'ש', ')'].as_slice());
//! }
//! ```
//!
//! An engine also writes a paragraph's lines without keeping them (`write_paragraph`), or only the base
//! direction of a paragraph of UTF-8 text (`write_base_direction`). With `extents` and `reflow`, it changes
//! the width of a layout in place. For a text of many paragraphs, see the crate `session`.
#![tactic(auto)]

mod buffers;
mod changed;
mod char_info;
mod clusters;
mod column_cache;
mod counting;
mod counts;
mod engine;
mod extents;
mod fill;
mod filling;
mod laid;
mod laws;
mod layout;
mod line_classes;
mod matching;
mod one_line;
mod options;
mod paragraph;
mod printing;
mod properties;
mod reflow;
mod reserve;
mod same_kind;
mod separators;
mod showing;
mod shown_parts;
mod sizes;
mod spans;
mod splicing;
mod visual_line;
mod whole;
mod widths;
mod windows;
mod workspace;

pub use clusters::{cluster_begin, cluster_end, cluster_ends};
pub use counting::char_count;
pub use engine::{Engine, PARAGRAPH_LIMIT};
pub use extents::Extents;
pub use fill::Fill;
pub use laid::Laid;
pub use laws::{
    clusters_adjoin, earlier_lines_stay, later_lines_follow, line_starts_are_spliced,
    lines_are_few, lines_are_ordered, lines_are_spliced, lines_have_all_characters,
    paragraphs_print_their_lines, runs_adjoin, runs_have_all_columns, tabs_end_at_stops,
};
pub use matching::SharedLines;
pub use options::Options;
pub use printing::bytes::{WriteFault, write_chars};
pub use printing::print::{Print, PrintFault};
pub use reflow::ReflowScratch;
pub use reorder::{Run, Runs};
pub use same_kind::Replacement;
pub use sizes::advances_fit;
pub use spans::{Span, Spans};
pub use visual_line::VisualLine;
