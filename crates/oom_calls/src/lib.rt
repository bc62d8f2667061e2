//! Makes every library call that can run out of memory. A failed call must change nothing, or return the
//! values passed to it. The call is then repeated. The program `oom_driver` runs these tests.
#![tactic(auto)]

mod page;
pub mod paragraphs;
pub mod sessions;
pub mod stores;
pub mod tables;

pub use page::{Printed, Writer};

/// A message that states why a result is wrong.
pub type Wrong = &'static str;
