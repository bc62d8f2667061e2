//! Reference implementations of `bidi`'s levels and `breaks`'s break marks, which tests compare with the fast
//! implementations. Each rule of the annexes is a pass over a list, or is checked at each position. The
//! functions have no contracts.
#![tactic(auto)]

pub mod levels;
pub mod marks;
