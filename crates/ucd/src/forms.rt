//! The forms of letters, by the number of the form and letter.
ghost use Rattle.std.specs.Prelude.{◌≡◌, ◌<◌, ◌≤◌, ℕ, ◌⊎◌, None};
ghost use Rattle.std.specs.BTreeMap.{get};
ghost use Rattle.std.specs.Ordering.{nat_cmp};

use std::alloc::Global;
use std::collections::BTreeMap;

/// The code point that is each form of each letter, by the number of the form and letter. Numbers below
/// `low` or from `high` on have no forms, so most characters need no search.
#[derive(Debug, Drop)]
pub struct Forms {
    pub(crate) map: BTreeMap<u32, u32>,
    pub(crate) low: u32,
    pub(crate) high: u32,
    ghost bounded: { (key : ℕ) → (key < low) ⊎ (high ≤ key) → get nat_cmp map key ≡ None },
}

impl Forms {
    /// Creates a map without forms.
    pub fn new(alloc: Global) -> Forms
        ensures { (key : ℕ) → get nat_cmp result.map key ≡ None }
    {
        Forms {
            map: BTreeMap::new(alloc),
            low: u32::MAX,
            high: 0,
        }
    }

    /// Returns the code point that is a form of a letter, given the number of the form and letter.
    pub fn get(&self, key: u32) -> Option<u32>
        ensures { result ≡ get nat_cmp self.now.map key }
    {
        if key < self.low || key >= self.high {
            return None;
        }
        self.map.get(&key).copied()
    }
}
