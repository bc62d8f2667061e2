//! The command's arguments, parsed with `clap`: the settings, and why arguments are refused.
//!
//! `settings` reads the settings in two steps, `parse` and `settings_of`, which can also be called
//! separately. A `LineFault` has an exit status, and is displayed as its message. A request for help or for
//! the version is also a fault. The program calls `settings` like this:
//!
//! ```rust
//! match settings(rt.alloc(), words) {
//!     Ok(settings) => run_settings(rt, &settings),
//!     Err(fault) if fault.lacks_folder() => run_installed(rt, words, fault),
//!     Err(fault) => Err(ProgramFault::Line(fault)),
//! }
//! ```
#![tactic(auto)]

mod options;
mod version;
mod words;

pub use options::{LineFault, Settings};
pub use version::{UNICODE_VERSIONS, VERSION};
pub use words::{parse, settings, settings_of};
