//! The walk over the characters of a paragraph, with the rules of Unicode 15.0.
ghost use Rattle.std.specs.Prelude.{◌≡◌, ◌<◌, ◌≤◌, ◌==◌, ◌&&◌, true, if◌then◌else◌};
ghost use Rattle.ucd.specs.declared.version.Version.TheVariants.{V15_0};
ghost use Rattle.breaks.specs.declared.table.TheConstants.{LAST_ROW, WAITS};
ghost use Rattle.breaks.specs.Walk.{Stands, decided_at, full_walk, is_ordinary, mark_given};

use crate::mark::Mark;
use crate::rules::{Rules, Walk};
use crate::symbol::{ATTACHED, DIGIT, JOINER, symbol_of};
use crate::table::{MAY, NEVER, START, STAYS, UNLESS, WAITS, next_row, outcome};
use ucd::Properties;

/// The rules of Unicode 15.0.
#[derive(Clone, Copy)]
pub struct Rules15 {
    /// Whether LB25 is applied to whole numbers.
    pub whole_numbers: bool,
}

impl Rules for Rules15 {
    ghost version = { V15_0 };

    ghost whole_numbers = { λ rules. rules.whole_numbers };

    ghost outcome_count = { 8 };

    ghost is_question = { λ rules outcome. (outcome == WAITS) && rules.whole_numbers };

    ghost mark_of = { λ rules. mark_given rules.whole_numbers };

    fn mark(self, outcome: u8) -> Option<Mark> {
        if !self.whole_numbers {
            Some(MARKS[outcome as usize])
        } else if outcome != WAITS {
            Some(WHOLE_MARKS[outcome as usize])
        } else {
            None
        }
    }

    fn answer(self, question: u8, next: Properties) -> u8 {
        let symbol = symbol_of(next);
        if symbol >= ATTACHED {
            question
        } else if symbol == DIGIT {
            NEVER
        } else {
            MAY
        }
    }

    fn answer_at_end(self, _question: u8) -> Mark {
        Mark::May
    }
}

/// The state of the walk over any characters.
#[derive(Clone, Copy)]
pub struct Walk15 {
    // The start of the state's row in the table.
    row: usize,
    // LB8a: whether the last character is a ZWJ.
    is_joined: bool,
    // LB30b: whether the last base is a future pictograph.
    is_pictograph: bool,
}

impl Walk<Rules15> for Walk15 {
    ghost stands = { λ rules. Stands rules.whole_numbers };

    ghost within = { λ walk. walk.row ≤ LAST_ROW };

    ghost accepts = { λ _. true };

    fn accepts(_one: Properties) -> bool {
        true
    }

    fn start(first: Properties) -> Walk15 {
        let symbol = symbol_of(first);
        Walk15 {
            row: next_row(START, symbol),
            is_joined: symbol == JOINER,
            is_pictograph: first.is_future_pictograph(),
        }
    }

    fn pass(&mut self, next: Properties) -> u8 {
        let symbol = symbol_of(next);
        let outcome = outcome(self.row, symbol);
        let decided = decide(outcome, self.is_joined, self.is_pictograph);
        self.row = next_row(self.row, symbol);
        self.is_joined = symbol == JOINER;
        let is_pictograph = next.is_future_pictograph();
        self.is_pictograph = is_now_pictograph(outcome, self.is_pictograph, is_pictograph);
        decided
    }
}

/// The state of the walk over ordinary characters, which are neither a ZWJ nor a future pictograph. Between
/// such characters, the table alone determines the outcome.
#[derive(Clone, Copy)]
pub struct OrdinaryWalk15 {
    row: usize,
}

impl Walk<Rules15> for OrdinaryWalk15 {
    ghost stands = { λ rules walk. Stands rules.whole_numbers (full_walk walk.row) };

    ghost within = { λ walk. walk.row ≤ LAST_ROW };

    ghost accepts = { is_ordinary };

    fn accepts(one: Properties) -> bool {
        (symbol_of(one) != JOINER) & !one.is_future_pictograph()
    }

    fn start(first: Properties) -> OrdinaryWalk15 {
        OrdinaryWalk15 {
            row: next_row(START, symbol_of(first)),
        }
    }

    fn pass(&mut self, next: Properties) -> u8 {
        let symbol = symbol_of(next);
        let row = self.row;
        self.row = next_row(row, symbol);
        outcome(row, symbol)
    }
}

// Returns whether, once the next character has been read, the last base is a future pictograph. An attached
// character does not change that.
fn is_now_pictograph(outcome: u8, before: bool, next: bool) -> bool
    ensures { result ≡ (if outcome == STAYS then before else next) }
{
    if outcome == STAYS { before } else { next }
}

// Applies LB8a and LB30b to an outcome. Returns `NEVER` if the last character is a ZWJ, or if the outcome is
// `UNLESS` and the last base is a future pictograph. Otherwise, returns the outcome itself.
fn decide(outcome: u8, is_joined: bool, is_pictograph: bool) -> u8
    requires { outcome < 8 }
    ensures decided { result ≡ decided_at outcome is_joined is_pictograph }
    ensures below { result < 8 }
{
    if is_joined || (outcome == UNLESS && is_pictograph) {
        NEVER
    } else {
        outcome
    }
}

// The mark for each outcome if LB25 is applied to pairs of bases.
static MARKS: [Mark; 8] = [
    Mark::Never,
    Mark::Never,
    Mark::May,
    Mark::May,
    Mark::Must,
    Mark::Never,
    Mark::May,
    Mark::Never,
];

// The mark for each outcome if LB25 is applied to whole numbers. The last outcome, `WAITS`, has this mark if
// the base after the next one is not NU.
static WHOLE_MARKS: [Mark; 8] = [
    Mark::Never,
    Mark::Never,
    Mark::May,
    Mark::May,
    Mark::Must,
    Mark::May,
    Mark::Never,
    Mark::May,
];
