//! The options of the command `hordguli`, parsed with `clap`: the settings, and why options are refused.
//!
//! Options come from the environment variable `HORDGULI_OPTIONS` and from the arguments, which override it.
//! `settings` reads both. An `OptionFault` has an exit status, and is displayed as its message.
#![tactic(auto)]

mod choices;
mod command;
mod fault;
mod given;
mod options;
mod reading;
mod values;

pub use choices::{Direction, Marks, Prefix, Width};
pub use fault::OptionFault;
pub use options::Settings;
pub use reading::settings;
