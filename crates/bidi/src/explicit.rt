//! Finds explicit levels and types (UAX #9, X1 to X9) in one pass, using a stack of the open embeddings,
//! overrides and isolates.
ghost use Rattle.std.specs.Prelude.{◌≡◌, ◌≤◌, ◌∷◌, [], ◌++◌, OnOk, unwrap_or, if◌then◌else◌};
ghost use Rattle.ucd.specs.Classes.{is_pdi, is_separator};
ghost use Rattle.bidi.specs.Explicit.{level_above, override_of, close_embedding, close_isolate, open_after};
ghost use Rattle.bidi.specs.Openers.{Holds, IsDepth, IsInnermost, Follows, AreOpeners, ClosesIsolate};
ghost use Rattle.bidi.specs.Retained.{IsRetained};

use crate::classes::{is_initiator, is_pdi, is_removed};
use arrayvec::ArrayVec;
use std::alloc::{AllocError, Global};
use ucd::BidiClass;

/// The maximum explicit level (BD2).
const MAX_DEPTH: u8 = 125;

/// The capacity of the stack of X1: `MAX_DEPTH` + 2 entries.
const MAX_ENTRIES: usize = 127;

/// The class, explicit level and explicit type of each character that X9 keeps in a paragraph, in text order.
/// The lists are reused for each paragraph.
#[derive(Drop)]
pub(crate) struct Retained {
    pub classes: Vec<BidiClass>,
    pub levels: Vec<u8>,
    pub types: Vec<BidiClass>,
}

impl Retained {
    pub fn new(alloc: Global) -> Retained {
        Retained {
            classes: Vec::new(alloc),
            levels: Vec::new(alloc),
            types: Vec::new(alloc),
        }
    }

    // Clears the lists, and reserves capacity for `len` characters.
    fn clear(&mut self, len: usize) -> Result<(), AllocError>
        ensures classes { OnOk result (self.new.classes.items ≡ []) }
        ensures levels { OnOk result (self.new.levels.items ≡ []) }
        ensures types { OnOk result (self.new.types.items ≡ []) }
    {
        self.classes.clear();
        self.levels.clear();
        self.types.clear();
        self.classes.reserve(len)?;
        self.levels.reserve(len)?;
        self.types.reserve(len)
    }

    fn push(&mut self, class: BidiClass, level: u8, explicit: BidiClass) -> Result<(), AllocError>
        ensures classes { OnOk result (self.new.classes.items ≡ self.old.classes.items ++ class ∷ []) }
        ensures levels { OnOk result (self.new.levels.items ≡ self.old.levels.items ++ level ∷ []) }
        ensures types { OnOk result (self.new.types.items ≡ self.old.types.items ++ explicit ∷ []) }
    {
        self.classes.push(class)?;
        self.levels.push(level)?;
        self.types.push(explicit)?;
        Ok(())
    }
}

// The state inside an embedding, override or isolate: its level, the type that an override assigns, and
// whether it is an isolate.
#[derive(Clone, Copy, Default, PartialEq, Eq)]
pub(crate) struct Status {
    pub level: u8,
    pub overriding: Option<BidiClass>,
    is_isolate: bool,
}

// The open embeddings, overrides and isolates. The stack holds the paragraph's status, and above it one
// status for each open embedding, override and isolate that did not overflow. The overflow counts are those
// of X2 to X5c: embeddings inside an isolate that overflowed are not counted.
#[derive(Drop)]
pub(crate) struct Openers {
    statuses: ArrayVec<Status, MAX_ENTRIES>,
    isolates: usize,
    overflowed_isolates: usize,
    overflowed_embeddings: usize,
}

impl Openers {
    pub fn new(base: u8) -> Openers
        ensures { Holds base result [] }
    {
        let mut statuses = ArrayVec::new();
        statuses.push(Status {
            level: base,
            overriding: None,
            is_isolate: false,
        });
        Openers {
            statuses,
            isolates: 0,
            overflowed_isolates: 0,
            overflowed_embeddings: 0,
        }
    }

    // Returns the state inside the innermost open embedding, override or isolate that did not overflow, or
    // the paragraph's state if there is none.
    pub fn status(&self) -> Status
        requires { AreOpeners self.now }
        ensures { IsInnermost self.now result }
    {
        let statuses = self.statuses.as_slice();
        statuses[statuses.len() - 1]
    }

    // Returns the number of open embeddings, overrides and isolates that did not overflow.
    pub fn depth(&self) -> usize
        requires { AreOpeners self.now }
        ensures { IsDepth self.now result }
    {
        self.statuses.len() - 1
    }

    // Opens an embedding, an override or an isolate. If it overflows, changes only the overflow counts.
    fn open(&mut self, opener: BidiClass)
        requires { AreOpeners self.old }
        ensures { Follows self.old self.new (λ chain. opener ∷ chain) }
    {
        let level = level_above(opener, self.status().level);
        let is_isolate = is_initiator(opener);
        if level <= MAX_DEPTH && self.overflowed_isolates == 0 && self.overflowed_embeddings == 0 {
            self.statuses.push(Status {
                level,
                overriding: override_of(opener),
                is_isolate,
            });
            if is_isolate {
                self.isolates += 1;
            }
        } else if is_isolate {
            self.overflowed_isolates += 1;
        } else if self.overflowed_isolates == 0 {
            self.overflowed_embeddings += 1;
        }
    }

    // Closes the innermost embedding or override, unless an isolate inside it is open (X7).
    fn close_embedding(&mut self)
        requires { AreOpeners self.old }
        ensures { Follows self.old self.new close_embedding }
    {
        if self.overflowed_isolates > 0 {
            return;
        }
        if self.overflowed_embeddings > 0 {
            self.overflowed_embeddings -= 1;
        } else if self.statuses.len() > 1 && !self.status().is_isolate {
            self.statuses.pop();
        }
    }

    // Closes the innermost isolate, if there is one, and everything that is open inside it (X6a).
    fn close_isolate(&mut self)
        requires { AreOpeners self.old }
        ensures { Follows self.old self.new close_isolate }
    {
        if self.overflowed_isolates > 0 {
            self.overflowed_isolates -= 1;
        } else if self.isolates > 0 {
            self.overflowed_embeddings = 0;
            self.isolates -= 1;
            pop_isolate(&mut self.statuses);
        }
    }

    // Closes the innermost isolate if the character is a PDI. The state of the PDI itself is read afterwards,
    // because the PDI is outside the isolate.
    pub fn reach(&mut self, class: BidiClass)
        requires { AreOpeners self.old }
        ensures { Follows self.old self.new (λ chain. if is_pdi class then close_isolate chain else chain) }
    {
        if is_pdi(class) {
            self.close_isolate();
        }
    }

    // Updates the state for a character that opens an embedding, override or isolate, or closes an embedding
    // or override. The character's own state is read before this call, because an isolate initiator is
    // outside its isolate.
    pub fn pass(&mut self, class: BidiClass)
        requires { AreOpeners self.old }
        ensures { Follows self.old self.new
            (λ chain. if is_pdi class then chain else open_after chain class) }
    {
        match class {
            BidiClass::RLE
            | BidiClass::LRE
            | BidiClass::RLO
            | BidiClass::LRO
            | BidiClass::RLI
            | BidiClass::LRI => self.open(class),
            BidiClass::PDF => self.close_embedding(),
            _ => {}
        }
    }
}

// Removes the innermost isolate and everything above it from the stack.
fn pop_isolate(statuses: &mut ArrayVec<Status, MAX_ENTRIES>)
    ensures { ClosesIsolate statuses.old.items statuses.new.items }
{
    while let Some(status) = statuses.pop() {
        if status.is_isolate {
            return;
        }
    }
}

// Returns the lowest level above `level` that is odd for a right-to-left opener, or even for a left-to-right
// one (X2 to X5b).
fn level_above(opener: BidiClass, level: u8) -> u8
    requires { level ≤ 125 }
    ensures { result ≡ level_above opener level }
{
    match opener {
        BidiClass::RLE | BidiClass::RLO | BidiClass::RLI => level + 1 + level % 2,
        _ => level + 2 - level % 2,
    }
}

// Returns the type that an override assigns to the characters inside it (X4 and X5), or `None` for other
// openers.
fn override_of(opener: BidiClass) -> Option<BidiClass>
    ensures { result ≡ override_of opener }
{
    match opener {
        BidiClass::RLO => Some(BidiClass::R),
        BidiClass::LRO => Some(BidiClass::L),
        _ => None,
    }
}

// Appends to `retained` the class, explicit level and explicit type of a character that X9 keeps.
fn push_character(
    retained: &mut Retained,
    status: Status,
    class: BidiClass,
    base: u8,
) -> Result<(), AllocError>
    ensures classes { OnOk result (retained.new.classes.items ≡ retained.old.classes.items ++ class ∷ []) }
    ensures levels { OnOk result (retained.new.levels.items
        ≡ retained.old.levels.items ++ (if is_separator class then base else status.level) ∷ []) }
    ensures types { OnOk result (retained.new.types.items
        ≡ retained.old.types.items
        ++ (if is_separator class then class else unwrap_or status.overriding class) ∷ []) }
{
    match class {
        BidiClass::B => retained.push(class, base, class),
        _ => retained.push(class, status.level, status.overriding.unwrap_or(class)),
    }
}

/// Replaces the contents of `retained` with the class, level and type of each character that X9 keeps in a
/// paragraph. In `classes`, each FSI must already be replaced by LRI or RLI.
pub(crate) fn explicit(
    classes: &[BidiClass],
    base: u8,
    retained: &mut Retained,
) -> Result<(), AllocError>
    requires { base ≤ 1 }
    ensures { OnOk result (IsRetained classes.now base retained.new) }
{
    retained.clear(classes.len())?;
    let mut openers = Openers::new(base);
    for class in classes {
        let class = *class;
        openers.reach(class);
        if !is_removed(class) {
            push_character(retained, openers.status(), class, base)?;
        }
        openers.pass(class);
    }
    Ok(())
}
