//! The rules for break marks (UAX #14, LB4 to LB31), as a table in the order of the annex.

use crate::marks::before::Before;
use crate::marks::character::Character;
use crate::marks::classes::*;
use breaks::Mark;
use ucd::LineClass;

/// A condition on the bases before a position.
#[derive(Clone, Copy)]
pub enum Left {
    Any,
    /// The last base has one of the classes.
    Is(Classes),
    /// The last base has one of the classes, and is not wide.
    IsNarrow(Classes),
    /// The last base has none of the classes.
    IsNot(Classes),
    /// The base before the last one has one of the first classes, and the last base has one of the second
    /// classes.
    IsPair(Classes, Classes),
    /// The last base that is not a space has one of the classes.
    IsSpaced(Classes),
    /// The character directly before the position is a ZWJ.
    EndsInZwj,
    /// The run of RI directly before the position has an odd length.
    IsOddRun,
    /// The last base is Extended_Pictographic and unassigned.
    IsFuturePictograph,
}

/// A condition on the base after a position.
#[derive(Clone, Copy)]
pub enum Right {
    Any,
    /// The base has one of the classes.
    Is(Classes),
    /// The base has one of the classes, and is not wide.
    IsNarrow(Classes),
}

/// A rule, and its mark if both conditions hold.
#[derive(Clone, Copy)]
pub struct Rule(pub Left, pub Right, pub Mark);

impl Left {
    fn holds(&self, before: &Before) -> bool {
        match *self {
            Left::Any => true,
            Left::Is(classes) => has(classes, before.class),
            Left::IsNarrow(classes) => has(classes, before.class) && !before.is_wide,
            Left::IsNot(classes) => !has(classes, before.class),
            Left::IsPair(firsts, classes) => match before.second {
                Some(second) => has(firsts, second) && has(classes, before.class),
                None => false,
            },
            Left::IsSpaced(classes) => match before.unspaced {
                Some(unspaced) => has(classes, unspaced),
                None => false,
            },
            Left::EndsInZwj => before.end == LineClass::ZWJ,
            Left::IsOddRun => before.is_odd_run,
            Left::IsFuturePictograph => before.is_future_pictograph,
        }
    }
}

impl Right {
    fn holds(&self, after: &Character) -> bool {
        match *self {
            Right::Any => true,
            Right::Is(classes) => has(classes, after.base_class()),
            Right::IsNarrow(classes) => { has(classes, after.base_class()) && !after.is_wide }
        }
    }
}

// Returns the mark of the first rule whose conditions hold, or `None` if there is none.
fn first_mark(rules: &[Rule], before: &Before, after: &Character) -> Option<Mark> {
    for Rule(left, right, mark) in rules {
        if left.holds(before) && right.holds(after) {
            return Some(*mark);
        }
    }
    None
}

/// The form of LB25: the rule for pairs of bases, or the rule for whole numbers. For whole numbers, there
/// are two variants: the position is inside or outside a number.
#[derive(Clone, Copy)]
pub enum Numbers {
    Pairs,
    Inside,
    Outside,
}

/// Returns the mark of the position between the bases `before` and the base that begins with `after`. This is
/// the mark of the first rule that applies, or of LB31 if none does.
pub fn mark_between(before: &Before, after: &Character, numbers: Numbers) -> Mark {
    if let Some(mark) = first_mark(&RULES_BEFORE_NUMBERS, before, after) {
        return mark;
    }
    let in_number = match numbers {
        Numbers::Pairs => first_mark(&RULES_OF_NUMBERS, before, after),
        Numbers::Inside => Some(Mark::Never),
        Numbers::Outside => None,
    };
    if let Some(mark) = in_number {
        return mark;
    }
    first_mark(&RULES_AFTER_NUMBERS, before, after).unwrap_or(Mark::May)
}

const LETTERS: Classes = AL | HL;

const SYLLABLES: Classes = JL | JV | JT | H2 | H3;

const RULES_BEFORE_NUMBERS: [Rule; 32] = [
    // LB4
    Rule(Left::Is(BK), Right::Any, Mark::Must),
    // LB5
    Rule(Left::Is(CR), Right::Is(LF), Mark::Never),
    Rule(Left::Is(CR | LF | NL), Right::Any, Mark::Must),
    // LB6
    Rule(Left::Any, Right::Is(BK | CR | LF | NL), Mark::Never),
    // LB7
    Rule(Left::Any, Right::Is(SP | ZW), Mark::Never),
    // LB8
    Rule(Left::IsSpaced(ZW), Right::Any, Mark::May),
    // LB8a
    Rule(Left::EndsInZwj, Right::Any, Mark::Never),
    // LB11
    Rule(Left::Any, Right::Is(WJ), Mark::Never),
    Rule(Left::Is(WJ), Right::Any, Mark::Never),
    // LB12
    Rule(Left::Is(GL), Right::Any, Mark::Never),
    // LB12a
    Rule(Left::IsNot(SP | BA | HY), Right::Is(GL), Mark::Never),
    // LB13
    Rule(Left::Any, Right::Is(CL | CP | EX | IS | SY), Mark::Never),
    // LB14
    Rule(Left::IsSpaced(OP), Right::Any, Mark::Never),
    // LB15
    Rule(Left::IsSpaced(QU), Right::Is(OP), Mark::Never),
    // LB16
    Rule(Left::IsSpaced(CL | CP), Right::Is(NS), Mark::Never),
    // LB17
    Rule(Left::IsSpaced(B2), Right::Is(B2), Mark::Never),
    // LB18
    Rule(Left::Is(SP), Right::Any, Mark::May),
    // LB19
    Rule(Left::Any, Right::Is(QU), Mark::Never),
    Rule(Left::Is(QU), Right::Any, Mark::Never),
    // LB20
    Rule(Left::Any, Right::Is(CB), Mark::May),
    Rule(Left::Is(CB), Right::Any, Mark::May),
    // LB21
    Rule(Left::Any, Right::Is(BA | HY | NS), Mark::Never),
    Rule(Left::Is(BB), Right::Any, Mark::Never),
    // LB21a
    Rule(Left::IsPair(HL, HY | BA), Right::Any, Mark::Never),
    // LB21b
    Rule(Left::Is(SY), Right::Is(HL), Mark::Never),
    // LB22
    Rule(Left::Any, Right::Is(IN), Mark::Never),
    // LB23
    Rule(Left::Is(LETTERS), Right::Is(NU), Mark::Never),
    Rule(Left::Is(NU), Right::Is(LETTERS), Mark::Never),
    // LB23a
    Rule(Left::Is(PR), Right::Is(ID | EB | EM), Mark::Never),
    Rule(Left::Is(ID | EB | EM), Right::Is(PO), Mark::Never),
    // LB24
    Rule(Left::Is(PR | PO), Right::Is(LETTERS), Mark::Never),
    Rule(Left::Is(LETTERS), Right::Is(PR | PO), Mark::Never),
];

// LB25
const RULES_OF_NUMBERS: [Rule; 3] = [
    Rule(Left::Is(CL | CP | NU), Right::Is(PO | PR), Mark::Never),
    Rule(Left::Is(PO | PR), Right::Is(OP | NU), Mark::Never),
    Rule(Left::Is(HY | IS | NU | SY), Right::Is(NU), Mark::Never),
];

const RULES_AFTER_NUMBERS: [Rule; 12] = [
    // LB26
    Rule(Left::Is(JL), Right::Is(JL | JV | H2 | H3), Mark::Never),
    Rule(Left::Is(JV | H2), Right::Is(JV | JT), Mark::Never),
    Rule(Left::Is(JT | H3), Right::Is(JT), Mark::Never),
    // LB27
    Rule(Left::Is(SYLLABLES), Right::Is(PO), Mark::Never),
    Rule(Left::Is(PR), Right::Is(SYLLABLES), Mark::Never),
    // LB28
    Rule(Left::Is(LETTERS), Right::Is(LETTERS), Mark::Never),
    // LB29
    Rule(Left::Is(IS), Right::Is(LETTERS), Mark::Never),
    // LB30
    Rule(Left::Is(AL | HL | NU), Right::IsNarrow(OP), Mark::Never),
    Rule(Left::IsNarrow(CP), Right::Is(AL | HL | NU), Mark::Never),
    // LB30a
    Rule(Left::IsOddRun, Right::Is(RI), Mark::Never),
    // LB30b
    Rule(Left::Is(EB), Right::Is(EM), Mark::Never),
    Rule(Left::IsFuturePictograph, Right::Is(EM), Mark::Never),
];
