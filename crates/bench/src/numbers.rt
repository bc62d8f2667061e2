//! Pseudorandom numbers, which are the same in each run.

/// A generator with a fixed seed.
#[derive(Clone, Copy)]
pub struct Numbers(u64);

impl Numbers {
    pub fn new() -> Numbers {
        Numbers(15)
    }

    /// Returns the next number.
    pub fn next(&mut self) -> u64 {
        self.0 = self
            .0
            .wrapping_mul(6_364_136_223_846_793_005)
            .wrapping_add(1_442_695_040_888_963_407);
        self.0
    }
}
