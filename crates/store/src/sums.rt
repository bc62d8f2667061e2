//! The sums of items, in each unit.
ghost use Rattle.std.specs.Prelude.{◌≡◌, ◌+◌, ◌-◌, ◌^◌, ◌<◌, ◌≤◌};
ghost use Rattle.store.specs.Sums.{measure, part};
ghost use Rattle.store.specs.declared.sums.Unit.{Unit as Counted};

use crate::measured::Measured;

// The unit in which a search counts.
#[derive(Clone, Copy)]
pub(crate) enum Unit {
    Char,
    Line,
    Byte,
    Utf16,
}

impl Unit {
    /// Returns the size of an item in this unit.
    pub(crate) fn size_of<P: Measured>(self, item: &P) -> usize
        ensures { result ≡ measure P.Measured self item.now }
    {
        match self {
            Unit::Char => item.chars(),
            Unit::Line => item.lines(),
            Unit::Byte => item.bytes(),
            Unit::Utf16 => item.utf16(),
        }
    }
}

/// The total size of some items, in each unit.
#[derive(Clone, Copy, Debug)]
pub(crate) struct Sums {
    pub(crate) chars: usize,
    pub(crate) lines: usize,
    pub(crate) bytes: usize,
    pub(crate) utf16: usize,
}

impl Sums {
    /// Returns the sums of an empty list of items.
    pub(crate) fn none() -> Sums
        ensures { (unit : Counted) → part result unit ≡ 0 }
    {
        Sums {
            chars: 0,
            lines: 0,
            bytes: 0,
            utf16: 0,
        }
    }

    /// Returns the size of one item in each unit.
    pub(crate) fn of<P: Measured>(item: &P) -> Sums
        ensures { (unit : Counted) → part result unit ≡ measure P.Measured unit item.now }
    {
        Sums {
            chars: item.chars(),
            lines: item.lines(),
            bytes: item.bytes(),
            utf16: item.utf16(),
        }
    }

    /// States, as a theorem, that each of the sums fits in a `usize`.
    pub(crate) fn fits(self)
        ensures { (unit : Counted) → part self unit < 2 ^ 64 }
    {
        let (_chars, _lines) = (self.total(Unit::Char), self.total(Unit::Line));
        let (_bytes, _utf16) = (self.total(Unit::Byte), self.total(Unit::Utf16));
    }

    /// Returns the sum in one unit.
    pub(crate) fn total(self, unit: Unit) -> usize
        ensures { result ≡ part self unit }
    {
        match unit {
            Unit::Char => self.chars,
            Unit::Line => self.lines,
            Unit::Byte => self.bytes,
            Unit::Utf16 => self.utf16,
        }
    }

    /// Adds the sums of more items.
    pub(crate) fn plus(self, more: Sums) -> Sums
        requires { (unit : Counted) → part self unit + part more unit < 2 ^ 64 }
        ensures { (unit : Counted) → part result unit ≡ part self unit + part more unit }
    {
        Sums {
            chars: self.chars + more.chars,
            lines: self.lines + more.lines,
            bytes: self.bytes + more.bytes,
            utf16: self.utf16 + more.utf16,
        }
    }

    /// Subtracts the sums of some of the items.
    pub(crate) fn minus(self, some: Sums) -> Sums
        requires { (unit : Counted) → part some unit ≤ part self unit }
        ensures { (unit : Counted) → part result unit ≡ part self unit - part some unit }
    {
        Sums {
            chars: self.chars - some.chars,
            lines: self.lines - some.lines,
            bytes: self.bytes - some.bytes,
            utf16: self.utf16 - some.utf16,
        }
    }
}
