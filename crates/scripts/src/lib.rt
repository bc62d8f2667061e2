//! The scripts of a text (UAX #24): the script of each character, and the runs of characters with the same
//! script. Characters whose Script property is Common or Inherited take the script of another character.
//!
//! ```rust
//! let scripts = resolve(alloc, tables, &['a', '(', 'א', ')', '.'])?;
//! let runs = script_runs(alloc, &scripts)?;
//! assert!(rt; runs.len() == 3 && runs[1].start == 2 && runs[1].len == 1);
//! assert!(rt; iso_code(runs[1].script) == u32::from_be_bytes(*b"Hebr"));
//! ```
//!
//! The property Script comes from the kit's crate `ucd_script`. Brackets come from the tables.
#![tactic(auto)]

mod codes;
mod resolving;
mod runs;

pub use codes::iso_code;
pub use resolving::resolve;
pub use runs::{ScriptRun, script_runs};
pub use ucd_script::Script;
