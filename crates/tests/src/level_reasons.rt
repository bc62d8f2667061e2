//! Tests how the algorithm arrives at the levels of worked examples. The tests must also pass if any one
//! allocation fails.
use crate::files::{FILES, read};
use bidi::{Base, BracketCase, BracketStep, NeutralRule, ParagraphReasons, SequenceStep, reasons};
use std::alloc::{AllocError, Global};
use std::process::Abort;
use std::test::Fail;
use ucd::{BidiClass, Tables};

// Returns the reasons for the levels of a text, and tries again after an allocation failure.
fn reasons_of(
    alloc: Global,
    tables: &Tables,
    text: &[char],
) -> Result<ParagraphReasons, AllocError> {
    match reasons(alloc, tables, text, Base::WeakLtr) {
        Ok(reasons) => Ok(reasons),
        Err(_) => reasons(alloc, tables, text, Base::WeakLtr),
    }
}

// R, a space, and a pair of brackets around L, before a digit.
const TEXT: [char; 6] = ['\u{5D0}', ' ', '(', 'a', ')', '1'];

const LEVELS: [u8; 6] = [1, 1, 1, 2, 1, 2];

// N1: the space is between R and the bracket, which N0 has made R.
fn is_space_by_n1(step: &SequenceStep) -> bool {
    step.neutral.rule == Some(NeutralRule::N1)
        && step.neutral.left == Some(0)
        && step.neutral.right == Some(2)
}

// W7: the digit follows L.
fn is_digit_by_w7(step: &SequenceStep) -> bool {
    step.w6 == BidiClass::EN && step.w7 == BidiClass::L && step.level == 2
}

fn are_steps(steps: &[SequenceStep]) -> bool {
    let [first, space, opening, letter, closing, digit] = steps else {
        return false;
    };
    let are_brackets = opening.w7 == BidiClass::ON
        && opening.n0 == BidiClass::R
        && closing.n0 == BidiClass::R;
    first.w1 == BidiClass::R
        && is_space_by_n1(space)
        && are_brackets
        && letter.level == 2
        && is_digit_by_w7(digit)
}

// Returns whether there is exactly one sequence, at level 1 and with the steps that `are_steps` checks.
fn have_steps(reasons: &ParagraphReasons) -> bool {
    let [sequence] = reasons.sequences.as_slice() else {
        return false;
    };
    sequence.level == 1
        && sequence.sos == BidiClass::R
        && sequence.eos == BidiClass::R
        && are_steps(&sequence.steps)
}

fn check(rt: &impl Abort, alloc: Global, tables: &Tables) -> Result<(), AllocError> {
    let reasons = reasons_of(alloc, tables, &TEXT)?;
    let are_right = reasons.levels.as_slice() == LEVELS.as_slice() && have_steps(&reasons);
    drop(reasons);
    assert!(rt; are_right);
    Ok(())
}

#[test]
fn space_takes_the_direction_of_a_bracket_that_n0_has_set(rt: HostRuntime) -> Result<(), Fail> {
    let tables = read(rt.alloc(), &FILES)?;
    let result = check(&rt, rt.alloc(), &tables);
    drop(tables);
    Ok(result?)
}

// An override in an isolate: the letter gets the type L and the override's level.
const OVERRIDDEN: [char; 5] = ['a', '\u{2067}', '\u{202D}', '\u{5D0}', '\u{2069}'];

fn is_overridden(reasons: &ParagraphReasons) -> bool {
    let [_, initiator, _, letter, closing] = reasons.explicit.as_slice() else {
        return false;
    };
    let [_, matching, ..] = reasons.matches.as_slice() else {
        return false;
    };
    letter.class == BidiClass::L
        && letter.overriding == Some(BidiClass::L)
        && letter.level == 2
        && initiator.level == 0
        && closing.level == 0
        && *matching == 4
}

fn check_override(rt: &impl Abort, alloc: Global, tables: &Tables) -> Result<(), AllocError> {
    let reasons = reasons_of(alloc, tables, &OVERRIDDEN)?;
    let are_right = is_overridden(&reasons) && reasons.kept.len() == 4;
    drop(reasons);
    assert!(rt; are_right);
    Ok(())
}

#[test]
fn override_in_an_isolate_changes_the_class_of_a_letter(rt: HostRuntime) -> Result<(), Fail> {
    let tables = read(rt.alloc(), &FILES)?;
    let result = check_override(&rt, rt.alloc(), &tables);
    drop(tables);
    Ok(result?)
}

// What N0 does with a character that is not a bracket.
const NO_BRACKET: BracketStep = BracketStep {
    case: None,
    partner: None,
    inside: None,
};

// What N0 does with a bracket of a pair whose direction depends on the strong type at `inside`.
fn paired(case: BracketCase, partner: usize, inside: usize) -> BracketStep {
    BracketStep {
        case: Some(case),
        partner: Some(partner),
        inside: Some(inside),
    }
}

// What N0 does with a bracket of a pair without a strong type inside.
fn empty_pair(partner: usize) -> BracketStep {
    BracketStep {
        case: Some(BracketCase::D),
        partner: Some(partner),
        inside: None,
    }
}

fn unpaired(case: BracketCase) -> BracketStep {
    BracketStep {
        case: Some(case),
        partner: None,
        inside: None,
    }
}

// What N0 does with a nonspacing mark that gets its type from the bracket at an index.
fn mark_of(bracket: usize) -> BracketStep {
    BracketStep {
        case: None,
        partner: Some(bracket),
        inside: None,
    }
}

// Returns whether N0 takes the expected steps for the characters of a sequence.
fn are_brackets(steps: &[SequenceStep], expected: &[BracketStep]) -> bool {
    if steps.len() != expected.len() {
        return false;
    }
    for k in 0..steps.len() {
        if steps[k].bracket != expected[k] {
            return false;
        }
    }
    true
}

// Returns whether the sequence with this number exists, and N0 takes the expected steps for its characters.
fn have_brackets(reasons: &ParagraphReasons, sequence: usize, expected: &[BracketStep]) -> bool {
    match reasons.sequences.get(sequence) {
        Some(sequence) => are_brackets(&sequence.steps, expected),
        None => false,
    }
}

fn check_brackets(
    rt: &impl Abort,
    tables: &Tables,
    alloc: Global,
    text: &[char],
    sequence: usize,
    expected: &[BracketStep],
) -> Result<(), AllocError> {
    let reasons = reasons_of(alloc, tables, text)?;
    let are_right = have_brackets(&reasons, sequence, expected);
    drop(reasons);
    assert!(rt; are_right);
    Ok(())
}

// Checks what N0 does with the characters of one sequence of a text.
fn expect_brackets(
    rt: &impl Abort,
    alloc: Global,
    text: &[char],
    sequence: usize,
    expected: &[BracketStep],
) -> Result<(), Fail> {
    let tables = read(alloc, &FILES)?;
    let result = check_brackets(rt, &tables, alloc, text, sequence, expected);
    drop(tables);
    Ok(result?)
}

#[test]
fn pair_with_the_embedding_direction_inside_is_case_b(rt: HostRuntime) -> Result<(), Fail> {
    let text = ['a', '(', '\u{5D0}', 'b', ')'];
    let expected = [
        NO_BRACKET,
        paired(BracketCase::B, 4, 3),
        NO_BRACKET,
        NO_BRACKET,
        paired(BracketCase::B, 1, 3),
    ];
    expect_brackets(&rt, rt.alloc(), &text, 0, &expected)
}

#[test]
fn pair_after_the_opposite_direction_is_case_c1(rt: HostRuntime) -> Result<(), Fail> {
    let text = ['a', '\u{5D0}', '(', ' ', '1', '\u{5D1}', ')'];
    let expected = [
        NO_BRACKET,
        NO_BRACKET,
        paired(BracketCase::C1, 6, 4),
        NO_BRACKET,
        NO_BRACKET,
        NO_BRACKET,
        paired(BracketCase::C1, 2, 4),
    ];
    expect_brackets(&rt, rt.alloc(), &text, 0, &expected)
}

#[test]
fn pair_after_the_embedding_direction_is_case_c2(rt: HostRuntime) -> Result<(), Fail> {
    let text = ['a', '(', '\u{5D0}', ')'];
    let expected = [
        NO_BRACKET,
        paired(BracketCase::C2, 3, 2),
        NO_BRACKET,
        paired(BracketCase::C2, 1, 2),
    ];
    expect_brackets(&rt, rt.alloc(), &text, 0, &expected)
}

// The last letter makes the outer pair R, so the context before the inner pair is R.
#[test]
fn earlier_pair_is_the_context_of_a_later_one(rt: HostRuntime) -> Result<(), Fail> {
    let text = ['\u{5D0}', 'a', '(', '[', 'a', ']', '\u{5D1}', ')'];
    let expected = [
        NO_BRACKET,
        NO_BRACKET,
        paired(BracketCase::B, 7, 6),
        paired(BracketCase::C2, 5, 4),
        NO_BRACKET,
        paired(BracketCase::C2, 3, 4),
        NO_BRACKET,
        paired(BracketCase::B, 2, 6),
    ];
    expect_brackets(&rt, rt.alloc(), &text, 0, &expected)
}

#[test]
fn pair_without_a_strong_type_inside_is_case_d(rt: HostRuntime) -> Result<(), Fail> {
    let text = ['a', '(', ' ', ')', '\u{300}'];
    let expected = [
        NO_BRACKET,
        empty_pair(3),
        NO_BRACKET,
        empty_pair(1),
        NO_BRACKET,
    ];
    expect_brackets(&rt, rt.alloc(), &text, 0, &expected)
}

#[test]
fn brackets_in_an_override_are_not_other_neutrals(rt: HostRuntime) -> Result<(), Fail> {
    let text = ['a', '\u{202E}', '(', 'b', ')', '\u{202C}'];
    let expected = [
        unpaired(BracketCase::NotOther),
        NO_BRACKET,
        unpaired(BracketCase::NotOther),
    ];
    expect_brackets(&rt, rt.alloc(), &text, 1, &expected)
}

#[test]
fn brackets_without_partners_have_no_match(rt: HostRuntime) -> Result<(), Fail> {
    let text = [')', '(', '[', 'a', ')', ']', '('];
    let expected = [
        unpaired(BracketCase::NoMatch),
        paired(BracketCase::B, 4, 3),
        unpaired(BracketCase::NoMatch),
        NO_BRACKET,
        paired(BracketCase::B, 1, 3),
        unpaired(BracketCase::NoMatch),
        unpaired(BracketCase::NoMatch),
    ];
    expect_brackets(&rt, rt.alloc(), &text, 0, &expected)
}

#[test]
fn sixty_three_opening_brackets_are_within_the_limit(rt: HostRuntime) -> Result<(), Fail> {
    let text = ['('; 63];
    let expected = [unpaired(BracketCase::NoMatch); 63];
    expect_brackets(&rt, rt.alloc(), &text, 0, &expected)
}

#[test]
fn sixty_fourth_opening_bracket_is_past_the_limit(rt: HostRuntime) -> Result<(), Fail> {
    let text = ['('; 64];
    let expected = [unpaired(BracketCase::PastLimit); 64];
    expect_brackets(&rt, rt.alloc(), &text, 0, &expected)
}

// The first two brackets form a pair, and the third has no match. Pairing stops at the last of the 64 opening
// brackets after these, so the opening brackets and the closing bracket at the end are past the limit.
#[test]
fn only_waiting_brackets_are_past_the_limit(rt: HostRuntime) -> Result<(), Fail> {
    let mut text = ['('; 68];
    text[1] = ')';
    text[2] = ']';
    text[67] = ')';
    let mut expected = [unpaired(BracketCase::PastLimit); 68];
    expected[0] = empty_pair(1);
    expected[1] = empty_pair(0);
    expected[2] = unpaired(BracketCase::NoMatch);
    expect_brackets(&rt, rt.alloc(), &text, 0, &expected)
}

#[test]
fn marks_have_the_bracket_before_them_as_partner(rt: HostRuntime) -> Result<(), Fail> {
    let text = [
        'a', '(', '\u{300}', 'b', '\u{300}', ')', '\u{301}', '\u{302}', 'c',
    ];
    let expected = [
        NO_BRACKET,
        paired(BracketCase::B, 5, 3),
        mark_of(1),
        NO_BRACKET,
        NO_BRACKET,
        paired(BracketCase::B, 1, 3),
        mark_of(5),
        mark_of(5),
        NO_BRACKET,
    ];
    expect_brackets(&rt, rt.alloc(), &text, 0, &expected)
}

#[test]
fn canonical_equivalents_are_partners(rt: HostRuntime) -> Result<(), Fail> {
    let text = ['\u{2329}', 'a', '\u{3009}', '\u{3008}', 'a', '\u{232A}'];
    let expected = [
        paired(BracketCase::B, 2, 1),
        NO_BRACKET,
        paired(BracketCase::B, 0, 1),
        paired(BracketCase::B, 5, 4),
        NO_BRACKET,
        paired(BracketCase::B, 3, 4),
    ];
    expect_brackets(&rt, rt.alloc(), &text, 0, &expected)
}

// A pair around an isolate whose brackets belong to another sequence.
const AROUND_ISOLATE: [char; 9] = [
    'a', '(', '\u{2067}', ')', '\u{5D0}', '(', '\u{2069}', 'b', ')',
];

#[test]
fn pair_skips_the_brackets_of_an_isolate(rt: HostRuntime) -> Result<(), Fail> {
    let expected = [
        NO_BRACKET,
        paired(BracketCase::B, 5, 4),
        NO_BRACKET,
        NO_BRACKET,
        NO_BRACKET,
        paired(BracketCase::B, 1, 4),
    ];
    expect_brackets(&rt, rt.alloc(), &AROUND_ISOLATE, 0, &expected)
}

#[test]
fn brackets_of_an_isolate_match_none_outside(rt: HostRuntime) -> Result<(), Fail> {
    let expected = [
        unpaired(BracketCase::NoMatch),
        NO_BRACKET,
        unpaired(BracketCase::NoMatch),
    ];
    expect_brackets(&rt, rt.alloc(), &AROUND_ISOLATE, 1, &expected)
}
