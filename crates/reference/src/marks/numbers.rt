//! Whole numbers (UAX #14, LB25 with a regular expression for numbers). Each base is tried as the start of a
//! number.

use crate::marks::classes::{CL, CP, HY, IS, NU, OP, PO, PR, SY, has};
use ucd::LineClass;

// How far a list of classes matches `(PR | PO)? (OP | HY)? NU (NU | SY | IS)* (CL | CP)? (PR | PO)?`.
#[derive(Clone, Copy)]
enum NumberPart {
    Start,
    Affix,
    Opening,
    Digits,
    Closing,
    End,
}

/// Returns whether a number contains both the base at an index and the base before it.
pub fn is_in_number(classes: &[LineClass], place: usize) -> bool {
    for start in 0..place {
        if begins_number(classes, start, place) {
            return true;
        }
    }
    false
}

// Returns whether some number that begins with the base at `start` contains the base at `place`.
fn begins_number(classes: &[LineClass], start: usize, place: usize) -> bool {
    let mut at = NumberPart::Start;
    for i in start..classes.len() {
        let Some(next) = part_after(at, classes[i]) else {
            return false;
        };
        if i >= place && is_number(next) {
            return true;
        }
        at = next;
    }
    false
}

fn part_after(at: NumberPart, class: LineClass) -> Option<NumberPart> {
    match at {
        NumberPart::Start if has(PR | PO, class) => Some(NumberPart::Affix),
        NumberPart::Start | NumberPart::Affix if has(OP | HY, class) => Some(NumberPart::Opening),
        NumberPart::Start | NumberPart::Affix | NumberPart::Opening if has(NU, class) => Some(
            NumberPart::Digits,
        ),
        NumberPart::Digits if has(NU | SY | IS, class) => Some(NumberPart::Digits),
        NumberPart::Digits if has(CL | CP, class) => Some(NumberPart::Closing),
        NumberPart::Digits | NumberPart::Closing if has(PR | PO, class) => Some(NumberPart::End),
        _ => None,
    }
}

fn is_number(at: NumberPart) -> bool {
    match at {
        NumberPart::Start | NumberPart::Affix | NumberPart::Opening => false,
        NumberPart::Digits | NumberPart::Closing | NumberPart::End => true,
    }
}
