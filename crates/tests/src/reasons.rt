//! Tests which rules decide the break marks of worked examples. The tests must also pass if any one
//! allocation fails.
use crate::files::{FILES, read};
use breaks::{LineRule, Reason, reasons};
use std::alloc::{AllocError, Global};
use std::process::Abort;
use std::test::Fail;
use ucd::{LineClass, Tables};

// Returns the reasons for the marks of a text, and tries again after an allocation failure.
fn reasons_of(
    alloc: Global,
    tables: &Tables,
    text: &[char],
    whole_numbers: bool,
) -> Result<Vec<Reason>, AllocError> {
    match reasons(alloc, tables, text, whole_numbers) {
        Ok(reasons) => Ok(reasons),
        Err(_) => reasons(alloc, tables, text, whole_numbers),
    }
}

// Returns whether the reasons name exactly these rules, in this order.
fn have_rules(reasons: &[Reason], rules: &[LineRule]) -> bool {
    let mut all_right = reasons.len() == rules.len();
    for (reason, rule) in reasons.iter().zip(rules.iter()) {
        all_right &= reason.rule == *rule;
    }
    all_right
}

// Asserts that these rules decide the marks of a text.
fn check_in(
    rt: &impl Abort,
    alloc: Global,
    tables: &Tables,
    text: &str,
    whole_numbers: bool,
    rules: &[LineRule],
) -> Result<(), AllocError> {
    let chars: Vec<char> = text.chars().collect(alloc)?;
    let found = reasons_of(alloc, tables, &chars, whole_numbers);
    drop(chars);
    let are_right = have_rules(&found?, rules);
    assert!(rt; are_right, "{text:?}");
    Ok(())
}

fn check(
    rt: &impl Abort,
    alloc: Global,
    text: &str,
    whole_numbers: bool,
    rules: &[LineRule],
) -> Result<(), Fail> {
    let tables = read(alloc, &FILES)?;
    let result = check_in(rt, alloc, &tables, text, whole_numbers, rules);
    drop(tables);
    Ok(result?)
}

#[test]
fn space_belongs_to_the_line_before_it(rt: HostRuntime) -> Result<(), Fail> {
    let rules = [LineRule::LB7, LineRule::LB18, LineRule::LB3];
    check(&rt, rt.alloc(), "a b", false, &rules)
}

#[test]
fn parenthesis_is_decided_by_two_rules(rt: HostRuntime) -> Result<(), Fail> {
    let rules = [LineRule::LB30, LineRule::LB14, LineRule::LB3];
    check(&rt, rt.alloc(), "a(b", false, &rules)
}

#[test]
fn hyphen_after_hebrew_is_lb21a(rt: HostRuntime) -> Result<(), Fail> {
    let rules = [LineRule::LB21, LineRule::LB21a, LineRule::LB3];
    check(&rt, rt.alloc(), "\u{5D0}-\u{5D1}", false, &rules)
}

#[test]
fn mark_and_joiner_are_inside_their_base(rt: HostRuntime) -> Result<(), Fail> {
    let rules = [LineRule::LB9, LineRule::LB9, LineRule::LB8a, LineRule::LB3];
    check(&rt, rt.alloc(), "a\u{300}\u{200D}\u{4E00}", false, &rules)
}

#[test]
fn spaces_are_passed_over_after_zero_width_space(rt: HostRuntime) -> Result<(), Fail> {
    let rules = [LineRule::LB7, LineRule::LB7, LineRule::LB8, LineRule::LB3];
    check(&rt, rt.alloc(), "a\u{200B} b", false, &rules)
}

#[test]
fn second_regional_indicator_ends_a_flag(rt: HostRuntime) -> Result<(), Fail> {
    let rules = [LineRule::LB30a, LineRule::LB31, LineRule::LB3];
    let text = "\u{1F1E6}\u{1F1E6}\u{1F1E6}";
    check(&rt, rt.alloc(), text, false, &rules)
}

#[test]
fn slash_in_a_whole_number_is_lb25(rt: HostRuntime) -> Result<(), Fail> {
    let rules = [LineRule::LB13, LineRule::LB25, LineRule::LB3];
    check(&rt, rt.alloc(), "1/2", false, &rules)?;
    check(&rt, rt.alloc(), "1/%", true, &rules)
}

#[test]
fn percent_after_a_slash_is_lb31_without_whole_numbers(rt: HostRuntime) -> Result<(), Fail> {
    let rules = [LineRule::LB13, LineRule::LB31, LineRule::LB3];
    check(&rt, rt.alloc(), "1/%", false, &rules)
}

// Returns whether a reason has these values for the last base, the last base that is not a space, and the
// classes before and after the position.
fn has_parts(
    reason: &Reason,
    base: usize,
    behind_spaces: Option<usize>,
    class_before: LineClass,
    class_after: Option<LineClass>,
) -> bool {
    let same_base = reason.base == base && reason.behind_spaces == behind_spaces;
    let same_before = reason.class_before == class_before;
    let same_after = match (reason.class_after, class_after) {
        (Some(found), Some(wanted)) => found == wanted,
        (None, None) => true,
        _ => false,
    };
    same_base && same_before && same_after
}

fn have_parts(reasons: &[Reason]) -> bool {
    let [inside, letter, space, last] = reasons else {
        return false;
    };
    has_parts(inside, 0, Some(0), LineClass::AL, Some(LineClass::CM))
        && has_parts(letter, 0, Some(0), LineClass::AL, Some(LineClass::SP))
        && has_parts(space, 2, Some(0), LineClass::SP, Some(LineClass::HL))
        && has_parts(last, 3, Some(3), LineClass::HL, None)
}

fn check_parts(rt: &impl Abort, alloc: Global, tables: &Tables) -> Result<(), AllocError> {
    let text = ['a', '\u{300}', ' ', '\u{5D0}'];
    let found = reasons_of(alloc, tables, &text, false)?;
    let are_right = have_parts(&found);
    drop(found);
    assert!(rt; are_right);
    Ok(())
}

#[test]
fn reason_names_the_bases_on_both_sides(rt: HostRuntime) -> Result<(), Fail> {
    let tables = read(rt.alloc(), &FILES)?;
    let result = check_parts(&rt, rt.alloc(), &tables);
    drop(tables);
    Ok(result?)
}
