//! The command: its arguments, how a text is printed, how an edit script is run, and why the program ends.
//!
//! `settings` reads the arguments, and `run_text` prints a text. `open_text` opens a session on the bytes of
//! a text, and `run_script` executes a script in it. `run_script_in` does the same in a borrowed session, and
//! its `ScriptOptions` say whether lines may be queries. The program calls `run_script_in` like this:
//!
//! ```rust
//! let mut session = session;
//! let mut reader = FromRead::new(script);
//! run_script_in(alloc, &mut reader, output, &mut session, options).map_err(ProgramFault::Run)
//! ```
#![tactic(auto)]

mod answers;
mod listings;
mod program;
mod queries;
mod reasons;
mod script;
mod start;

pub use command_line::{LineFault, Settings, settings};
pub use program::ProgramFault;
pub use script::{LINE_LIMIT, ScriptOptions, run_script, run_script_in};
pub use script_commands::Query;
pub use start::open_text;
pub use text_run::{RunFault, run_text};
