//! Sessions: an editable text with the layout of each of its paragraphs. After every edit, the layouts are
//! the same as new layouts of the current text.
//!
//! A `Session` is opened with an engine, a text and a width. Each edit returns its `Damage`: which lines were
//! replaced, and by how many new ones. Positions count characters. Lines and columns are numbered from 0.
//!
//! ```rust
//! let damage = session.insert(4, "שלום")?; // after "abc\n"
//! assert!(rt; damage.first_line == 0 && damage.old_lines == 1 && damage.new_lines == 2);
//! session.set_width(2)?;
//! assert!(rt; session.line_count() == 4 && session.line_start(3) == Some(6));
//! let caret = Caret {
//!     line: 2,
//!     column: 1,
//!     level: 1,
//! };
//! assert!(rt; session.caret(5) == Some(caret));
//! ```
//!
//! `line` borrows a line, `print` and `print_lines` write lines, and `place` and `line_start` locate lines.
//! `paragraph_start` and `paragraph_first_line` locate paragraphs. `text` returns part of the text, and
//! `write_text` writes a part as UTF-8. A refused edit changes nothing.
#![tactic(auto)]

mod borders;
mod carets;
mod changed;
mod clusters;
mod edges;
mod edits;
mod hits;
mod joined;
mod kept;
mod laws;
mod measuring;
mod offsets;
mod opening;
mod places;
mod printing;
mod reading;
mod reasons;
mod refusals;
mod replace;
mod room;
mod scan;
mod session;
mod units;
mod width;
mod words;

pub use carets::Caret;
pub use clusters::Cluster;
pub use edges::{Direction, Edge, LineEdges, Side};
pub use edits::{
    AdvanceFault, ChangedLines, Damage, Edit, EditFault, MEASURED_WIDTH_LIMIT, TEXT_LIMIT,
};
pub use hits::Hit;
pub use kept::Kept;
pub use laws::{
    measured_edits_are_drawn_at_once, steps_lead_to_boundaries, texts_are_laid_out_in_parts,
};
pub use places::Place;
pub use printing::RangeFault;
pub use reasons::CharReasons;
pub use refusals::opening_refusal;
pub use session::Session;
pub use words::Word;
