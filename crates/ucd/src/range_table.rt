//! The entries of a file, in the order of its lines, and the code points that they cover.
ghost use Rattle.std.specs.Prelude.{◌≡◌, ◌<◌, ◌≤◌, nat_le, nat_lt, ◌&&◌, if◌then◌else◌, IsTrue};
ghost use Rattle.std.specs.Prelude.{ℕ, List, [], true, false, length, slice_index_or};
ghost use Rattle.std.specs.Prelude.{IfOk, IfErr, OnOk, OnErr, ◌⊎◌, IsErrOf};
ghost use Rattle.ucd.specs.declared.grammar.Entry.{Entry};
ghost use Rattle.ucd.specs.Entries.{AddsBoth, AddsEntry, AddsCharacters, AreApart, AreNamed};
ghost use Rattle.ucd.specs.Entries.{IsFree, IsMet, IsTaken, NamesSome};

use crate::fault::Cause;
use crate::grammar::Entry;
use std::alloc::{AllocError, Global};
use std::marker::Model;

/// The number of code points.
pub const CODE_POINTS: usize = 0x110000;

/// The entries of a file. No two entries have a character in common. A flag for each code point says whether
/// an entry covers it, so the cost of adding a line does not depend on the order of the lines.
#[derive(Drop)]
pub struct RangeTable<V> {
    entries: Vec<Entry<V>>,
    named: Vec<bool>,
}

impl<V> Model for RangeTable<V> {
    ghost Value = { List (Entry V) };

    ghost view = { λ t. t.entries.items };

    ghost invariant = { λ t. AreApart t.entries.items × AreNamed t.entries.items t.named.items };
}

// Returns `len` flags, none of which is set.
fn nothing_named(alloc: Global, len: usize) -> Result<Vec<bool>, AllocError>
    ensures len { IfOk result (λ named. length named.items ≡ len) }
    ensures each { IfOk result (λ named. (c : ℕ) → slice_index_or named.items c false ≡ false) }
{
    vec![in alloc; false; len]
}

// Returns whether the flag of any code point in `first..end` is set.
fn has_named(named: &[bool], first: usize, end: usize) -> bool
    requires { (first ≤ end) × (end ≤ length named.now) }
    ensures some { IsTrue result
        → (c : ℕ) × (first ≤ c) × (c < end) × (slice_index_or named.now c false ≡ true) }
    ensures none { result ≡ false
        → (c : ℕ) → first ≤ c → c < end → slice_index_or named.now c false ≡ false }
{
    let mut any = false;
    for c in first..end {
        if named[c] {
            any = true;
        }
    }
    any
}

// Sets the flags of the code points in `first..end`.
fn name_all(named: &mut [bool], first: usize, end: usize)
    requires { (first ≤ end) × (end ≤ length named.old) }
    ensures { (c : ℕ) → slice_index_or named.new c false
        ≡ (if nat_le first c && nat_lt c end then true else slice_index_or named.old c false) }
{
    for c in first..end {
        named[c] = true;
    }
}

impl<V: Copy> RangeTable<V> {
    /// Creates a table without entries.
    pub fn new(alloc: Global) -> Result<Self, AllocError>
        ensures { IfOk result (λ table. table ≡ []) }
    {
        let named = nothing_named(alloc, CODE_POINTS)?;
        Ok(RangeTable {
            entries: Vec::new(alloc),
            named,
        })
    }

    // Returns whether any of the entry's code points already has a value. An entry that ends before it begins
    // has no code points.
    fn meets(&self, entry: Entry<V>) -> bool
        requires { entry.last < 1114112 }
        ensures some { IsTrue result → IsMet self.now entry }
        ensures none { result ≡ false → IsFree self.now entry }
    {
        let first = entry.first as usize;
        entry.first <= entry.last && has_named(&self.named, first, entry.last as usize + 1)
    }

    // Adds an entry whose code points have no values yet. An entry that ends before it begins is not added.
    fn insert(&mut self, entry: Entry<V>) -> Result<(), AllocError>
        requires within { entry.last < 1114112 }
        requires free { IsFree self.old entry }
        ensures ok { OnOk result (AddsEntry self.old self.new entry) }
        ensures memory { OnErr result (entry.first ≤ entry.last) }
    {
        if entry.last < entry.first {
            return Ok(());
        }
        let first = entry.first as usize;
        let end = entry.last as usize + 1;
        match self.entries.push(entry) {
            Ok(()) => {
                name_all(&mut self.named, first, end);
                Ok(())
            }
            Err(_) => Err(AllocError),
        }
    }

    // Adds two entries whose code points have no values yet: one below the surrogates and one above them.
    fn insert_both(&mut self, below: Entry<V>, above: Entry<V>) -> Result<(), AllocError>
        requires below { (below.last < 55296) × IsFree self.old below }
        requires above { (55296 ≤ above.first) × (above.last < 1114112) × IsFree self.old above }
        ensures ok { OnOk result (AddsBoth self.old self.new below above) }
        ensures memory { OnErr result ((below.first ≤ below.last) ⊎ (above.first ≤ above.last)) }
    {
        self.insert(below)?;
        self.insert(above)
    }

    /// Assigns the entry's value to each character from its first code point to its last, skipping
    /// surrogates. Fails with `NamedBefore` if one of these characters already has a value, and otherwise
    /// with `Memory` if memory runs out. After an error, the table must not be used.
    pub fn add(&mut self, entry: Entry<V>) -> Result<(), Cause>
        ensures ok { OnOk result (AddsCharacters self.old self.new entry) }
        ensures taken { IsErrOf result Cause.NamedBefore → IsTaken self.old entry }
        ensures memory { IsErrOf result Cause.Memory → (¬ (IsTaken self.old entry)) × NamesSome entry }
        ensures only { IfErr result (λ why. (why ≡ Cause.NamedBefore) ⊎ (why ≡ Cause.Memory)) }
    {
        let below = Entry {
            last: entry.last.min(FIRST_SURROGATE - 1),
            ..entry
        };
        let above = Entry {
            first: entry.first.max(LAST_SURROGATE + 1),
            last: entry.last.min(LAST_CHARACTER),
            ..entry
        };
        if self.meets(below) {
            return Err(Cause::NamedBefore);
        }
        if self.meets(above) {
            return Err(Cause::NamedBefore);
        }
        match self.insert_both(below, above) {
            Ok(()) => Ok(()),
            Err(_) => Err(Cause::Memory),
        }
    }
}

pub(crate) const FIRST_SURROGATE: u32 = 0xD800;

pub(crate) const LAST_SURROGATE: u32 = 0xDFFF;

pub(crate) const LAST_CHARACTER: u32 = 0x10FFFF;
