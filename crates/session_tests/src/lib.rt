//! Tests of layouts and of sessions, through public calls.
#![tactic(auto)]

#[cfg(test)]
mod files;
#[cfg(test)]
mod layouts;
#[cfg(test)]
mod sessions;
#[cfg(test)]
mod snippets;
#[cfg(test)]
mod surface;
