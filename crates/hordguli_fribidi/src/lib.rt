//! FriBidi's functions on types, levels and lines, according to UAX #9. The entry points in
//! c/fribidi/fribidi.c call these functions.
#![tactic(auto)]

mod characters;
mod joins;
mod levels;
mod line;
mod shapes;
mod types;
