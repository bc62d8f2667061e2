//! The commands of edit scripts.
//!
//! `read_command` parses a line of a script into a `Command`. The crate `tool` executes it.
#![tactic(auto)]

mod commands;

pub use commands::{Command, Query, read_command};
