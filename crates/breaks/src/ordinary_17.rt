//! The walk over ordinary characters, which are neither a ZWJ nor a future pictograph, with the rules of
//! Unicode 17.0. The table alone decides nearly all marks between them, so the width of a base (LB19a) is
//! looked up only for an outcome that depends on it.
ghost use Rattle.std.specs.Prelude.{◌≡◌, ◌<◌, ◌≤◌, Some};
ghost use Rattle.breaks.specs.Walk17.{Stands17, decided_17, full_walk, is_ordinary_17};
ghost use Rattle.breaks.specs.Walk17.{begins_wide, begins_wide_if_any, ordinary_bits};
ghost use Rattle.breaks.specs.declared.table_17.TheConstants.{DECIDED_COUNT, LAST_ROW, OUTCOME_COUNT};

use crate::rules::Walk;
use crate::symbol_17::{JOINER, symbol_17};
use crate::table_17::{
    FINAL, FINAL_UNLESS, INITIAL, LB19A, MAY, MUST, NEVER, START, STAYS, UNLESS, next_row, outcome,
};
use crate::walk_17::{Rules17, is_wide};
use ucd::Properties;

/// The state of the walk over ordinary characters. `Walk17` is the state of the walk over any characters.
#[derive(Clone, Copy)]
pub struct OrdinaryWalk17 {
    // The start of the state's row in the table.
    row: usize,
    // LB19a: the first character of the last base.
    last: Properties,
    // LB19a: the first character of the base before the last one.
    before: Option<Properties>,
}

impl Walk<Rules17> for OrdinaryWalk17 {
    ghost stands = { λ _ walk. Stands17 (full_walk walk) };

    ghost within = { λ walk. walk.row ≤ LAST_ROW };

    ghost accepts = { is_ordinary_17 };

    fn accepts(one: Properties) -> bool {
        (symbol_17(one) != JOINER) & !one.is_future_pictograph()
    }

    fn start(first: Properties) -> OrdinaryWalk17 {
        OrdinaryWalk17 {
            row: next_row(START, symbol_17(first)),
            last: first,
            before: None,
        }
    }

    fn pass(&mut self, next: Properties) -> u8 {
        let symbol = symbol_17(next);
        let outcome = outcome(self.row, symbol);
        self.row = next_row(self.row, symbol);
        // Most outcomes are marks, so marks are tested first.
        if NEVER <= outcome && outcome <= MUST {
            return self.begin(outcome, next);
        }
        if outcome == STAYS {
            return NEVER;
        }
        self.begin(outcome, next)
    }
}

impl OrdinaryWalk17 {
    // Records `next` as the first character of the last base. Returns the mark before this base, or the
    // question that decides the mark.
    #[inline(always)] // so that the loop keeps the state in registers
    fn begin(&mut self, outcome: u8, next: Properties) -> u8
        requires { outcome < OUTCOME_COUNT }
        ensures row { self.new.row ≡ self.old.row }
        ensures last { self.new.last ≡ next }
        ensures before { self.new.before ≡ Some self.old.last }
        ensures decided { result
            ≡ decided_17 outcome (ordinary_bits self.old.last self.old.before) (begins_wide next) }
        ensures below { result < DECIDED_COUNT }
    {
        let before = self.before;
        let last = self.last;
        self.before = Some(last);
        self.last = next;
        decided(outcome, before, last, next)
    }
}

// Returns the mark or question that results from an outcome, given the first characters of the last two bases
// and of the next one.
#[inline(always)] // so that the loop keeps the state in registers
fn decided(outcome: u8, before: Option<Properties>, last: Properties, next: Properties) -> u8
    requires { outcome < OUTCOME_COUNT }
    ensures decided { result ≡ decided_17 outcome (ordinary_bits last before) (begins_wide next) }
    ensures below { result < DECIDED_COUNT }
{
    if outcome < UNLESS {
        return outcome;
    }
    let is_last_wide = begins_wide(last);
    let is_between = begins_wide_if_any(before) & begins_wide(next);
    let (is_open, open) = match outcome {
        UNLESS => (true, MAY),
        INITIAL => (is_last_wide, LB19A),
        FINAL | FINAL_UNLESS => (is_between, MAY),
        _ => (is_between & is_last_wide, LB19A),
    };
    if is_open { open } else { NEVER }
}

fn begins_wide_if_any(first: Option<Properties>) -> bool
    ensures { result ≡ begins_wide_if_any first }
{
    match first {
        Some(first) => begins_wide(first),
        None => false,
    }
}

// Returns whether a base that begins with this character is wide.
fn begins_wide(first: Properties) -> bool
    ensures { result ≡ begins_wide first }
{
    is_wide(symbol_17(first), first)
}
