//! Tests of the paths, types and results of the public calls of `tool`, and of all error messages.
#![tactic(auto)]

#[cfg(test)]
mod messages;
#[cfg(test)]
mod surface;
