//! The walk over the characters of a paragraph, with the rules of Unicode 17.0.
ghost use Rattle.std.specs.Prelude.{◌≡◌, ◌<◌, ◌≤◌, false, nat_le, true};
ghost use Rattle.ucd.specs.declared.version.Version.TheVariants.{V17_0};
ghost use Rattle.breaks.specs.Bases.{alone, is_east_asian};
ghost use Rattle.breaks.specs.Symbols.{character_by, shown_17, as_read_17};
ghost use Rattle.breaks.specs.declared.symbol_17.TheConstants.{SYMBOL_COUNT};
ghost use Rattle.breaks.specs.declared.table_17.TheConstants.{DECIDED_COUNT, LAST_ROW, LB15B};
ghost use Rattle.breaks.specs.declared.table_17.TheConstants.{OUTCOME_COUNT};
ghost use Rattle.breaks.specs.Walk17.{Stands17, bits_in, decided_17, decided_narrow};
ghost use Rattle.breaks.specs.Walk17.{narrow_walk, is_narrow_17, mark_of_17};

use crate::mark::Mark;
use crate::questions::{answer, mark_17};
use crate::rules::{Rules, Walk};
use crate::symbol_17::{ATTACHED, JOINER, symbol_17};
use crate::table_17::{
    FINAL, FINAL_INITIAL, FINAL_UNLESS, INITIAL, LB15B, LB15C, LB19A, LB25, LB25_IS, LB28A, MAY,
    MUST, NEVER, START, STAYS, UNLESS, next_row, outcome,
};
use ucd::Properties;

/// The rules of Unicode 17.0.
#[derive(Clone, Copy)]
pub struct Rules17;

impl Rules for Rules17 {
    ghost version = { V17_0 };

    // The rules of 17.0 are the same with and without whole numbers.
    ghost whole_numbers = { λ _. false };

    ghost outcome_count = { DECIDED_COUNT };

    ghost is_question = { λ _ outcome. nat_le LB15B outcome };

    ghost mark_of = { λ _. mark_of_17 };

    fn mark(self, outcome: u8) -> Option<Mark> {
        if outcome < LB15B {
            Some(mark_17(outcome))
        } else {
            None
        }
    }

    fn answer(self, question: u8, next: Properties) -> u8 {
        answer(question, next)
    }

    fn answer_at_end(self, question: u8) -> Mark {
        mark_17(question)
    }
}

/// The state of the walk over any characters.
#[derive(Clone, Copy)]
pub struct Walk17 {
    // The start of the state's row in the table.
    row: usize,
    // LB8a: whether the last character is a ZWJ.
    is_joined: bool,
    // LB30b: whether the last base is a future pictograph.
    is_pictograph: bool,
    // LB19a: whether the last base is wide.
    is_wide: bool,
    // LB19a: whether the base before the last one is wide.
    was_wide: bool,
}

impl Walk<Rules17> for Walk17 {
    ghost stands = { λ _. Stands17 };

    ghost within = { λ walk. walk.row ≤ LAST_ROW };

    ghost accepts = { λ _. true };

    fn accepts(_one: Properties) -> bool {
        true
    }

    fn start(first: Properties) -> Walk17 {
        let symbol = symbol_17(first);
        Walk17 {
            row: next_row(START, symbol),
            is_joined: symbol == JOINER,
            is_pictograph: first.is_future_pictograph(),
            is_wide: is_wide(symbol, first),
            was_wide: false,
        }
    }

    fn pass(&mut self, next: Properties) -> u8 {
        let symbol = symbol_17(next);
        let outcome = outcome(self.row, symbol);
        let row = next_row(self.row, symbol);
        let is_joined = symbol == JOINER;
        if outcome == STAYS {
            self.row = row;
            self.is_joined = is_joined;
            return NEVER;
        }
        let next_is_wide = is_wide(symbol, next);
        let decided = self.decide(outcome, next_is_wide);
        *self = Walk17 {
            row,
            is_joined,
            is_pictograph: next.is_future_pictograph(),
            is_wide: next_is_wide,
            was_wide: self.is_wide,
        };
        decided
    }
}

impl Walk17 {
    // Returns the mark or question that results from an outcome, given whether the next base is wide. After a
    // ZWJ, this is `NEVER` (LB8a).
    fn decide(&self, outcome: u8, next_is_wide: bool) -> u8
        requires { outcome < OUTCOME_COUNT }
        ensures decided { result ≡ decided_17 outcome (bits_in self.now) next_is_wide }
        ensures below { result < DECIDED_COUNT }
    {
        if self.is_joined {
            return NEVER;
        }
        if outcome < UNLESS {
            return outcome;
        }
        let is_between = self.was_wide & next_is_wide;
        let (is_open, open) = match outcome {
            UNLESS => (!self.is_pictograph, MAY),
            INITIAL => (self.is_wide, LB19A),
            FINAL => (is_between, MAY),
            FINAL_UNLESS => (is_between & !self.is_pictograph, MAY),
            _ => (is_between & self.is_wide, LB19A),
        };
        if is_open { open } else { NEVER }
    }
}

/// The state of the walk over narrow characters, which are neither wide nor a ZWJ nor a future pictograph.
/// Between such characters, the table alone determines the outcome.
#[derive(Clone, Copy)]
pub struct NarrowWalk17 {
    row: usize,
}

impl Walk<Rules17> for NarrowWalk17 {
    ghost stands = { λ _ walk. Stands17 (narrow_walk walk.row) };

    ghost within = { λ walk. walk.row ≤ LAST_ROW };

    ghost accepts = { is_narrow_17 };

    fn accepts(one: Properties) -> bool {
        (symbol_17(one) != JOINER) & (!one.is_future_pictograph() & !one.is_wide())
    }

    fn start(first: Properties) -> NarrowWalk17 {
        NarrowWalk17 {
            row: next_row(START, symbol_17(first)),
        }
    }

    fn pass(&mut self, next: Properties) -> u8 {
        let symbol = symbol_17(next);
        let row = self.row;
        self.row = next_row(row, symbol);
        decided_narrow(outcome(row, symbol))
    }
}

// Returns the mark or question that results from an outcome between narrow characters.
fn decided_narrow(outcome: u8) -> u8
    requires { outcome < OUTCOME_COUNT }
    ensures decided { result ≡ decided_narrow outcome }
    ensures below { result < DECIDED_COUNT }
{
    NARROW[outcome as usize]
}

// The mark or question for each outcome if all bits of the walk are false.
static NARROW: [u8; 15] = [
    NEVER, NEVER, MAY, MUST, LB15B, LB15C, LB19A, LB25, LB25_IS, LB28A, MAY, NEVER, NEVER, NEVER,
    NEVER,
];

/// Returns whether a base that begins with this character is wide. A CM or ZWJ that begins a base is an AL
/// that is not wide (LB10).
pub fn is_wide(symbol: u8, first: Properties) -> bool
    requires below { symbol < SYMBOL_COUNT }
    requires shown { shown_17 symbol ≡ as_read_17 (character_by V17_0 first) }
    ensures { result ≡ is_east_asian (alone (character_by V17_0 first)) }
{
    first.is_wide() & (symbol < ATTACHED)
}
