//! Applies the weak rules (UAX #9, W1 to W7) in one pass over the types of one isolating run sequence.
ghost use Rattle.std.specs.Prelude.{◌≡◌, ◌≢◌, ℕ, ◌-◌, ◌<◌, ◌≤◌, ◌++◌, true, not, if◌then◌else◌};
ghost use Rattle.std.specs.Prelude.{length, take, drop, replicate, slice_index_or};
ghost use Rattle.std.specs.List.{list_all};
ghost use Rattle.ucd.specs.declared.bidi_class.BidiClass.{BidiClass};
ghost use Rattle.bidi.specs.Waiting.{mark_type};
ghost use Rattle.ucd.specs.Classes.{is_nonspacing_mark, is_strong};
ghost use Rattle.bidi.specs.Weak.{is_left, mark_after, w3_type, weak};
ghost use Rattle.bidi.specs.WeakState.{IsState, Reads};
ghost use Rattle.bidi.specs.WeakTable.{is_side, is_simple, strong_after, strong_at};
ghost use Rattle.bidi.specs.declared.weak_table.TheConstants.{COMPLETES};

use crate::fill::fill;
use crate::weak_table::{COMPLETES, KEEPS, LEFT, PARTS, RIGHT, ROW_LEN, next, value};
use ucd::BidiClass;

// The state of the pass after the types read so far.
#[derive(Clone, Copy)]
struct State {
    // The last type that was not NSM.
    before: BidiClass,
    // The start of the state's row in the tables.
    row: usize,
    // The start of the pending types, if any are pending.
    start: usize,
}

// The number of types that are tested together.
const GROUP: usize = 8;

/// Applies W1 to W7 in one pass. A separator, or a run of terminators, is pending while a later type may
/// still turn it into a number. Pending types are set to ON. Groups of types that no rule but W3 can change
/// are read without the tables, so that the next type need not wait for a table entry.
#[inline(never)] // so that the loop has all registers
pub(crate) fn resolve_weak(types: &mut [BidiClass], sos: BidiClass)
    requires side { is_side sos ≡ true }
    ensures { types.new ≡ weak sos types.old }
{
    let mut state = State {
        before: sos,
        row: if is_left(sos) { LEFT } else { RIGHT },
        start: 0,
    };
    let mut at = 0;
    while at < types.len() {
        if at + GROUP <= types.len() && are_simple(&types[at..at + GROUP]) {
            state = read_simple(types, at, at + GROUP, state);
            at += GROUP;
        } else {
            let end = types.len().min(at + GROUP);
            state = read_each(types, at, end, state);
            at = end;
        }
    }
}

// Applies the rules to the types in `begin..end`, given the state before them. Returns the state after them.
fn read_each(types: &mut [BidiClass], begin: usize, end: usize, state: State) -> State
    requires state { IsState state.row state.start begin }
    requires order { begin ≤ end }
    requires within { end ≤ length types.old }
    ensures state { IsState result.row result.start end }
    ensures read { Reads types.old state begin types.new result end }
{
    let mut before = state.before;
    let mut row = state.row;
    let mut start = state.start;
    let mut at = begin;
    while at < end {
        let class = types[at];
        let marked = mark_type(&mut before, class);
        let next = next(row, marked);
        let value = value(row, marked);
        if next % PARTS != KEEPS {
            start = act(types, start, at, next % PARTS, value);
        }
        types[at] = value;
        row = (next / PARTS) as usize;
        at += 1;
    }
    State { before, row, start }
}

// Does the same as `read_each` for types that no rule but W3 can change, without the tables.
#[inline(always)] // so that the loop over a group knows its length
fn read_simple(types: &mut [BidiClass], begin: usize, end: usize, state: State) -> State
    requires state { IsState state.row state.start begin }
    requires order { begin < end }
    requires within { end ≤ length types.old }
    requires simple { (k : ℕ) (d : BidiClass) → begin ≤ k → k < end
        → is_simple (slice_index_or types.old k d) ≡ true }
    ensures state { IsState result.row result.start end }
    ensures read { Reads types.old state begin types.new result end }
{
    let mut before = state.before;
    // The number of the row without a run.
    let mut strong = state.row / ROW_LEN % 3;
    let mut at = begin;
    while at < end {
        let class = types[at];
        before = class;
        strong = strong_after(strong, class);
        types[at] = w3_type(class);
        at += 1;
    }
    State {
        before,
        row: strong * ROW_LEN,
        start: state.start,
    }
}

// Returns whether no rule but W3 can change any of the types. The loop has no branches, so the compiler can
// test several types at a time.
#[inline(always)]
fn are_simple(types: &[BidiClass]) -> bool
    ensures { result ≡ list_all is_simple types.now }
{
    let mut all = true;
    for class in types {
        all &= is_simple(*class);
    }
    all
}

// Returns whether no rule but W3 can change a type. Compares numbers instead of using `match`, to keep the
// loop of `are_simple` free of branches.
fn is_simple(class: BidiClass) -> bool
    ensures { result ≡ is_simple class }
{
    ((class as u8) < BidiClass::EN as u8) | (class as u8 > BidiClass::NSM as u8)
}

// Returns the number of the row for the next state, after a type that no rule but W3 can change.
fn strong_after(strong: usize, class: BidiClass) -> usize
    requires { strong < 3 }
    ensures bounded { result < 3 }
    ensures strong { strong_at result ≡ strong_after (strong_at strong) class }
{
    if is_strong(class) {
        class as usize
    } else {
        strong
    }
}

pub(crate) fn is_strong(class: BidiClass) -> bool
    ensures { result ≡ is_strong class }
{
    matches!(class, BidiClass::L | BidiClass::R | BidiClass::AL)
}

pub(crate) fn w3_type(class: BidiClass) -> BidiClass
    ensures { result ≡ w3_type class }
{
    match class {
        BidiClass::AL => BidiClass::R,
        _ => class,
    }
}

// If `done` is `COMPLETES`, writes `value` to the pending types and returns `start`. Otherwise, returns `at`,
// where new pending types start.
#[inline(never)]
fn act(types: &mut [BidiClass], start: usize, at: usize, done: u16, value: BidiClass) -> usize
    requires order { done ≡ COMPLETES → start ≤ at }
    requires within { at ≤ length types.old }
    ensures front { done ≡ COMPLETES
        → take at types.new ≡ take start types.old ++ replicate (at - start) value }
    ensures rest { done ≡ COMPLETES → drop at types.new ≡ drop at types.old }
    ensures kept { done ≢ COMPLETES → types.new ≡ types.old }
    ensures begins { done ≢ COMPLETES → result ≡ at }
{
    if done == COMPLETES {
        fill(types, start, at, value);
        return start;
    }
    at
}

// Applies W1: NSM gets the type of the character before it. `before` is the last type that was not NSM; sets
// it to `class` unless `class` is NSM.
pub(crate) fn mark_type(before: &mut BidiClass, class: BidiClass) -> BidiClass
    ensures marked { result ≡ mark_type before.old class }
    ensures before { before.new ≡ (if not (is_nonspacing_mark class) then class else before.old) }
{
    match class {
        BidiClass::NSM => mark_after(*before),
        _ => {
            *before = class;
            class
        }
    }
}

pub(crate) fn is_left(class: BidiClass) -> bool
    ensures { result ≡ is_left class }
{
    matches!(class, BidiClass::L)
}

// Returns the type of a nonspacing mark after a given type (W1). These are rare, so a separate function keeps
// their code out of the loop.
#[cold]
#[inline(never)]
fn mark_after(before: BidiClass) -> BidiClass
    ensures { result ≡ mark_after before }
{
    match before {
        BidiClass::LRI | BidiClass::RLI | BidiClass::FSI | BidiClass::PDI => BidiClass::ON,
        _ => before,
    }
}
