//! Tests of tables, levels, joins, scripts, marks, stores, streams and terminal output, through public calls.
#![tactic(auto)]

#[cfg(test)]
mod files;
#[cfg(test)]
mod joining_tables;
#[cfg(test)]
mod joins;
#[cfg(test)]
mod level_reasons;
#[cfg(test)]
mod levels;
#[cfg(test)]
mod listed_reasons;
#[cfg(test)]
mod marks;
#[cfg(test)]
mod reasons;
#[cfg(test)]
mod script_runs;
#[cfg(test)]
mod snippets;
#[cfg(test)]
mod stores;
#[cfg(test)]
mod streams;
#[cfg(test)]
mod surface;
#[cfg(test)]
mod tables;
#[cfg(test)]
mod terminal;
#[cfg(test)]
mod versions;
