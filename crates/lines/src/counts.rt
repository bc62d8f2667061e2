//! Work counters. Each function that does counted work raises the counter itself, so work done twice is
//! counted twice.
ghost use Rattle.std.specs.Prelude.{◌≡◌, ◌≤◌, ℕ};
ghost use Rattle.lines.specs.Engine.{counted};

use std::marker::Model;
use ucd::Tables;

/// A number of characters, saturating at 2^64−1. A count is neither `Copy` nor `Drop`. It can only be added
/// to another count, or dropped together with the tables used for the counted work.
#[derive(Debug)]
pub(crate) struct Count {
    value: u64,
}

impl Model for Count {
    ghost use Rattle.std.specs.Prelude.{ℕ};

    ghost Value = { ℕ };

    ghost view = { λ c. c.value };
}

impl Count {
    ghost use Rattle.lines.specs.Engine.{counted};

    pub(crate) fn zero() -> Count
        ensures { result ≡ 0 }
    {
        Count { value: 0 }
    }

    pub(crate) fn get(&self) -> u64
        ensures { result ≡ self.now }
    {
        self.value
    }

    /// Increases the count by `len`.
    pub(crate) fn raise(&mut self, len: usize)
        ensures counts { self.new ≡ counted self.old len }
        ensures least { self.old ≤ self.new }
    {
        self.value = self.value.saturating_add(len as u64);
    }

    /// Adds another count.
    pub(crate) fn add(&mut self, other: Count)
        ensures counts { self.new ≡ counted self.old other }
        ensures least { self.old ≤ self.new }
    {
        let Count { value } = other;
        self.value = self.value.saturating_add(value);
    }
}

/// Proof that `len` characters were counted as filled into lines. It is not `Copy`, so filling the same
/// characters twice requires two proofs.
#[derive(Drop)]
pub(crate) struct Counted {
    len: usize,
}

impl Model for Counted {
    ghost use Rattle.std.specs.Prelude.{ℕ};

    ghost Value = { ℕ };

    ghost view = { λ c. c.len };
}

/// How many characters were analysed, how many were filled into lines, and how many had their lines written.
pub(crate) struct Counts {
    pub(crate) analysed: Count,
    pub(crate) filled: Count,
    pub(crate) written: Count,
}

impl Counts {
    ghost use Rattle.lines.specs.Engine.{counted};

    pub(crate) fn zero() -> Counts
        ensures { result ≡ record { analysed = 0; filled = 0; written = 0 } }
    {
        Counts {
            analysed: Count::zero(),
            filled: Count::zero(),
            written: Count::zero(),
        }
    }

    /// Counts `len` characters as filled, and returns the proof that filling them requires.
    pub(crate) fn take_filled(&mut self, len: usize) -> Counted
        ensures counted { result ≡ len }
        ensures analysed { self.new.analysed ≡ self.old.analysed }
        ensures filled { self.new.filled ≡ counted self.old.filled len }
        ensures written { self.new.written ≡ self.old.written }
        ensures least { self.old.filled ≤ self.new.filled }
    {
        self.filled.raise(len);
        Counted { len }
    }

    /// Counts `len` characters as analysed and filled. Called if an allocation fails before this work begins.
    pub(crate) fn count_refused(&mut self, len: usize)
        ensures analysed { self.new.analysed ≡ counted self.old.analysed len }
        ensures filled { self.new.filled ≡ counted self.old.filled len }
        ensures written { self.new.written ≡ self.old.written }
        ensures least_analysed { self.old.analysed ≤ self.new.analysed }
        ensures least_filled { self.old.filled ≤ self.new.filled }
    {
        self.analysed.raise(len);
        self.filled.raise(len);
    }

    /// Drops the counts together with the tables used for the work. There is no other way to drop a count.
    pub(crate) fn end(self, _tables: Tables) {
        let Counts {
            analysed: Count { value: _ },
            filled: Count { value: _ },
            written: Count { value: _ },
        } = self;
    }
}
