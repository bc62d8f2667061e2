//! Runs a text: reads its bytes, and writes the lines of its paragraphs.
//!
//! `run_text` reads any source in chunks. Before it reads more, it writes the lines of each paragraph whose
//! end is known. A `RunFault` says why a run ended early, and the contract says what had been written by
//! then. The program runs each of its texts this way:
//!
//! ```rust
//! let mut reader = FromRead::new(text);
//! run_text(
//!     rt.alloc(),
//!     &mut reader,
//!     output,
//!     engine,
//!     settings.width,
//!     &settings.print,
//! )
//! ```
#![tactic(auto)]

mod faults;
mod page;
mod paragraphs;
mod text;

pub use faults::RunFault;
pub use paragraphs::push_page;
pub use text::run_text;
