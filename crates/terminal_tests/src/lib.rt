//! Tests of the output for a terminal, through public calls.
#![tactic(auto)]

#[cfg(test)]
mod prefixes;
#[cfg(test)]
mod runs;
#[cfg(test)]
mod starts;
#[cfg(test)]
mod texts;
