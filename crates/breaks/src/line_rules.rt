//! Finds the first rule that applies at a position, given the bases before and after it, the nearest first.
//! Most functions try the rows of specs/Rules.antt that their contracts name, and return `None` if none
//! applies.
ghost use Rattle.std.specs.Prelude.{◌≡◌, ◌++◌, false, map, unwrap_or, Bool};
ghost use Rattle.ucd.specs.declared.version.Version.TheVariants.{V15_0, V17_0};
ghost use Rattle.breaks.specs.Reasons.{first_row, names_LB12a_to_LB14, names_LB15, names_LB16_to_LB18};
ghost use Rattle.breaks.specs.Reasons.{names_LB19};
ghost use Rattle.breaks.specs.Reasons.{names_LB20, names_LB20a, names_LB21_and_LB21a, names_LB21b_to_LB24};
ghost use Rattle.breaks.specs.Reasons.{names_LB26_to_LB28, names_LB28a, names_LB29_to_LB30b};
ghost use Rattle.breaks.specs.Reasons.{names_LB3_to_LB12};
ghost use Rattle.breaks.specs.Reasons.{first_by, names, names_before_numbers, names_of_numbers};
ghost use Rattle.breaks.specs.Rules as rows;
ghost use Rattle.breaks.specs.Seen.{base_in};
ghost use Rattle.breaks.specs.declared.line_rule.LineRule.TheVariants.{LB31};

use crate::bases::BaseCharacter;
use crate::before::Before;
use crate::conditions::{
    begins_quotation, ends_in_zwj, ends_quotation, is, is_aksara, is_aksara_before_vf,
    is_edge_or_not_east_asian, is_first_hyphen, is_future_pictograph, is_narrow, is_not,
    is_not_east_asian, is_opened_fraction, is_opened_number, is_pair, is_quote_but,
    is_virama_after_aksara, rest,
};
use crate::line_rule::LineRule;
use ucd::{LineClass, LineDetail, Version};

// Tries LB3 to LB12.
fn lb3_to_lb12(before: &Before<'_, '_>, after: &[BaseCharacter<'_>]) -> Option<LineRule>
    ensures { result ≡ first_row names_LB3_to_LB12 rows.LB3_to_LB12 before.now (map base_in after.now) }
{
    if after.is_empty() {
        return Some(LineRule::LB3);
    }
    if is(&[LineClass::BK], before.bases) {
        return Some(LineRule::LB4);
    }
    if is(&[LineClass::CR], before.bases) && is(&[LineClass::LF], after) {
        return Some(LineRule::LB5);
    }
    if is(&[LineClass::CR, LineClass::LF, LineClass::NL], before.bases) {
        return Some(LineRule::LB5);
    }
    if is(
        &[LineClass::BK, LineClass::CR, LineClass::LF, LineClass::NL],
        after,
    ) {
        return Some(LineRule::LB6);
    }
    if is(&[LineClass::SP, LineClass::ZW], after) {
        return Some(LineRule::LB7);
    }
    if before.is_spaced(&[LineClass::ZW]) {
        return Some(LineRule::LB8);
    }
    if ends_in_zwj(before.bases) {
        return Some(LineRule::LB8a);
    }
    if is(&[LineClass::WJ], after) {
        return Some(LineRule::LB11);
    }
    if is(&[LineClass::WJ], before.bases) {
        return Some(LineRule::LB11);
    }
    if is(&[LineClass::GL], before.bases) {
        return Some(LineRule::LB12);
    }
    None
}

// Tries LB12a to LB14 of 15.0.
fn lb12a_to_lb14(before: &Before<'_, '_>, after: &[BaseCharacter<'_>]) -> Option<LineRule>
    ensures { result ≡ first_row names_LB12a_to_LB14 (rows.LB12a V15_0 ++ (rows.LB13 V15_0 ++ rows.LB14))
        before.now (map base_in after.now) }
{
    if is_not(&[LineClass::SP, LineClass::BA, LineClass::HY], before.bases)
        && is(&[LineClass::GL], after)
    {
        return Some(LineRule::LB12a);
    }
    if is(
        &[
            LineClass::CL,
            LineClass::CP,
            LineClass::EX,
            LineClass::IS,
            LineClass::SY,
        ],
        after,
    ) {
        return Some(LineRule::LB13);
    }
    if before.is_spaced(&[LineClass::OP]) {
        return Some(LineRule::LB14);
    }
    None
}

// Tries LB12a to LB14 of 17.0.
fn lb12a_to_lb14_17(before: &Before<'_, '_>, after: &[BaseCharacter<'_>]) -> Option<LineRule>
    ensures { result ≡ first_row names_LB12a_to_LB14 (rows.LB12a V17_0 ++ (rows.LB13 V17_0 ++ rows.LB14))
        before.now (map base_in after.now) }
{
    if is_not(
        &[LineClass::SP, LineClass::BA, LineClass::HY, LineClass::HH],
        before.bases,
    ) && is(&[LineClass::GL], after)
    {
        return Some(LineRule::LB12a);
    }
    if is(
        &[LineClass::CL, LineClass::CP, LineClass::EX, LineClass::SY],
        after,
    ) {
        return Some(LineRule::LB13);
    }
    if before.is_spaced(&[LineClass::OP]) {
        return Some(LineRule::LB14);
    }
    None
}

// Tries LB15 of 15.0.
fn lb15(before: &Before<'_, '_>, after: &[BaseCharacter<'_>]) -> Option<LineRule>
    ensures { result ≡ first_row (names_LB15 V15_0) (rows.LB15 V15_0) before.now (map base_in after.now) }
{
    if before.is_spaced(&[LineClass::QU]) && is(&[LineClass::OP], after) {
        return Some(LineRule::LB15);
    }
    None
}

// Tries LB15a to LB15d of 17.0.
fn lb15_17(before: &Before<'_, '_>, after: &[BaseCharacter<'_>]) -> Option<LineRule>
    ensures { result ≡ first_row (names_LB15 V17_0) (rows.LB15 V17_0) before.now (map base_in after.now) }
{
    if begins_quotation(before.without_spaces()) {
        return Some(LineRule::LB15a);
    }
    if ends_quotation(after) {
        return Some(LineRule::LB15b);
    }
    if is(&[LineClass::SP], before.bases)
        && is(&[LineClass::IS], after)
        && is(&[LineClass::NU], rest(after))
    {
        return Some(LineRule::LB15c);
    }
    if is(&[LineClass::IS], after) {
        return Some(LineRule::LB15d);
    }
    None
}

// Tries LB16 to LB18.
fn lb16_to_lb18(before: &Before<'_, '_>, after: &[BaseCharacter<'_>]) -> Option<LineRule>
    ensures { result ≡ first_row names_LB16_to_LB18 rows.LB16_to_LB18 before.now (map base_in after.now) }
{
    if before.is_spaced(&[LineClass::CL, LineClass::CP]) && is(&[LineClass::NS], after) {
        return Some(LineRule::LB16);
    }
    if before.is_spaced(&[LineClass::B2]) && is(&[LineClass::B2], after) {
        return Some(LineRule::LB17);
    }
    if is(&[LineClass::SP], before.bases) {
        return Some(LineRule::LB18);
    }
    None
}

// Tries LB19 of 15.0.
fn lb19(before: &Before<'_, '_>, after: &[BaseCharacter<'_>]) -> Option<LineRule>
    ensures { result ≡ first_row (names_LB19 V15_0) (rows.LB19 V15_0) before.now (map base_in after.now) }
{
    if is(&[LineClass::QU], after) || is(&[LineClass::QU], before.bases) {
        return Some(LineRule::LB19);
    }
    None
}

// Tries LB19 and LB19a of 17.0.
fn lb19_17(before: &Before<'_, '_>, after: &[BaseCharacter<'_>]) -> Option<LineRule>
    ensures { result ≡ first_row (names_LB19 V17_0) (rows.LB19 V17_0) before.now (map base_in after.now) }
{
    if is_quote_but(LineDetail::Initial, after) || is_quote_but(LineDetail::Final, before.bases) {
        return Some(LineRule::LB19);
    }
    if is_not_east_asian(before.bases) && is(&[LineClass::QU], after) {
        return Some(LineRule::LB19a);
    }
    if is(&[LineClass::QU], after) && is_edge_or_not_east_asian(rest(after)) {
        return Some(LineRule::LB19a);
    }
    if is(&[LineClass::QU], before.bases) && is_not_east_asian(after) {
        return Some(LineRule::LB19a);
    }
    if is(&[LineClass::QU], before.bases) && is_edge_or_not_east_asian(rest(before.bases)) {
        return Some(LineRule::LB19a);
    }
    None
}

// Tries LB20.
fn lb20(before: &Before<'_, '_>, after: &[BaseCharacter<'_>]) -> Option<LineRule>
    ensures { result ≡ first_row names_LB20 rows.LB20 before.now (map base_in after.now) }
{
    if is(&[LineClass::CB], after) || is(&[LineClass::CB], before.bases) {
        return Some(LineRule::LB20);
    }
    None
}

// Tries LB21 and LB21a of 15.0, which has no LB20a.
fn lb21_and_lb21a(before: &Before<'_, '_>, after: &[BaseCharacter<'_>]) -> Option<LineRule>
    ensures { result ≡ first_row (names_LB20a V15_0 ++ names_LB21_and_LB21a)
        (rows.LB20a V15_0 ++ (rows.LB21 V15_0 ++ rows.LB21a V15_0))
        before.now (map base_in after.now) }
{
    if is(&[LineClass::BA, LineClass::HY, LineClass::NS], after) {
        return Some(LineRule::LB21);
    }
    if is(&[LineClass::BB], before.bases) {
        return Some(LineRule::LB21);
    }
    if is_pair(
        &[LineClass::HL],
        &[LineClass::BA, LineClass::HY],
        before.bases,
    ) {
        return Some(LineRule::LB21a);
    }
    None
}

// Tries LB20a to LB21a of 17.0.
fn lb20a_to_lb21a_17(before: &Before<'_, '_>, after: &[BaseCharacter<'_>]) -> Option<LineRule>
    ensures { result ≡ first_row (names_LB20a V17_0 ++ names_LB21_and_LB21a)
        (rows.LB20a V17_0 ++ (rows.LB21 V17_0 ++ rows.LB21a V17_0))
        before.now (map base_in after.now) }
{
    if is_first_hyphen(before.bases) && is(&[LineClass::AL, LineClass::HL], after) {
        return Some(LineRule::LB20a);
    }
    if is(
        &[LineClass::BA, LineClass::HY, LineClass::NS, LineClass::HH],
        after,
    ) {
        return Some(LineRule::LB21);
    }
    if is(&[LineClass::BB], before.bases) {
        return Some(LineRule::LB21);
    }
    if is_pair(
        &[LineClass::HL],
        &[LineClass::HY, LineClass::HH],
        before.bases,
    ) && is_not(&[LineClass::HL], after)
    {
        return Some(LineRule::LB21a);
    }
    None
}

// Tries LB21b to LB24.
fn lb21b_to_lb24(before: &Before<'_, '_>, after: &[BaseCharacter<'_>]) -> Option<LineRule>
    ensures { result ≡ first_row names_LB21b_to_LB24 rows.LB21b_to_LB24 before.now (map base_in after.now) }
{
    if is(&[LineClass::SY], before.bases) && is(&[LineClass::HL], after) {
        return Some(LineRule::LB21b);
    }
    if is(&[LineClass::IN], after) {
        return Some(LineRule::LB22);
    }
    if is(&[LineClass::AL, LineClass::HL], before.bases) && is(&[LineClass::NU], after) {
        return Some(LineRule::LB23);
    }
    if is(&[LineClass::NU], before.bases) && is(&[LineClass::AL, LineClass::HL], after) {
        return Some(LineRule::LB23);
    }
    if is(&[LineClass::PR], before.bases)
        && is(&[LineClass::EB, LineClass::EM, LineClass::ID], after)
    {
        return Some(LineRule::LB23a);
    }
    if is(&[LineClass::EB, LineClass::EM, LineClass::ID], before.bases)
        && is(&[LineClass::PO], after)
    {
        return Some(LineRule::LB23a);
    }
    if is(&[LineClass::PO, LineClass::PR], before.bases)
        && is(&[LineClass::AL, LineClass::HL], after)
    {
        return Some(LineRule::LB24);
    }
    if is(&[LineClass::AL, LineClass::HL], before.bases)
        && is(&[LineClass::PO, LineClass::PR], after)
    {
        return Some(LineRule::LB24);
    }
    None
}

// Tries LB25 of 15.0, on pairs of bases.
#[tactic(auto, unfolding(crate::specs::Rules::rows_of_numbers))]
fn lb25(before: &Before<'_, '_>, after: &[BaseCharacter<'_>]) -> Option<LineRule>
    ensures { result ≡ first_row (names_of_numbers V15_0 false) (rows.rows_of_numbers V15_0)
        before.now (map base_in after.now) }
{
    if is(&[LineClass::CL, LineClass::CP, LineClass::NU], before.bases)
        && is(&[LineClass::PO, LineClass::PR], after)
    {
        return Some(LineRule::LB25);
    }
    if is(&[LineClass::PO, LineClass::PR], before.bases)
        && is(&[LineClass::OP, LineClass::NU], after)
    {
        return Some(LineRule::LB25);
    }
    if is(
        &[LineClass::HY, LineClass::IS, LineClass::NU, LineClass::SY],
        before.bases,
    ) && is(&[LineClass::NU], after)
    {
        return Some(LineRule::LB25);
    }
    None
}

// Tries LB25 of 17.0.
#[tactic(auto, unfolding(crate::specs::Rules::rows_of_numbers))]
fn lb25_17(before: &Before<'_, '_>, after: &[BaseCharacter<'_>]) -> Option<LineRule>
    ensures { result ≡ first_row (names_of_numbers V17_0 false) (rows.rows_of_numbers V17_0)
        before.now (map base_in after.now) }
{
    let is_affix_before = is(&[LineClass::PO, LineClass::PR], before.bases);
    if before.ends_in_closed_number() && is(&[LineClass::PO, LineClass::PR], after) {
        return Some(LineRule::LB25);
    }
    if before.ends_in_number() && is(&[LineClass::NU, LineClass::PO, LineClass::PR], after) {
        return Some(LineRule::LB25);
    }
    if is_affix_before && is_opened_number(after) {
        return Some(LineRule::LB25);
    }
    if is_affix_before && is_opened_fraction(after) {
        return Some(LineRule::LB25);
    }
    if is(
        &[LineClass::HY, LineClass::IS, LineClass::PO, LineClass::PR],
        before.bases,
    ) && is(&[LineClass::NU], after)
    {
        return Some(LineRule::LB25);
    }
    None
}

// Tries LB26 to LB28.
fn lb26_to_lb28(before: &Before<'_, '_>, after: &[BaseCharacter<'_>]) -> Option<LineRule>
    ensures { result ≡ first_row names_LB26_to_LB28 rows.LB26_to_LB28 before.now (map base_in after.now) }
{
    if is(&[LineClass::JL], before.bases)
        && is(
            &[LineClass::H2, LineClass::H3, LineClass::JL, LineClass::JV],
            after,
        )
    {
        return Some(LineRule::LB26);
    }
    if is(&[LineClass::H2, LineClass::JV], before.bases)
        && is(&[LineClass::JT, LineClass::JV], after)
    {
        return Some(LineRule::LB26);
    }
    if is(&[LineClass::H3, LineClass::JT], before.bases) && is(&[LineClass::JT], after) {
        return Some(LineRule::LB26);
    }
    if is(
        &[
            LineClass::H2,
            LineClass::H3,
            LineClass::JL,
            LineClass::JT,
            LineClass::JV,
        ],
        before.bases,
    ) && is(&[LineClass::PO], after)
    {
        return Some(LineRule::LB27);
    }
    if is(&[LineClass::PR], before.bases)
        && is(
            &[
                LineClass::H2,
                LineClass::H3,
                LineClass::JL,
                LineClass::JT,
                LineClass::JV,
            ],
            after,
        )
    {
        return Some(LineRule::LB27);
    }
    if is(&[LineClass::AL, LineClass::HL], before.bases)
        && is(&[LineClass::AL, LineClass::HL], after)
    {
        return Some(LineRule::LB28);
    }
    None
}

// Tries LB28a of 17.0.
fn lb28a(before: &Before<'_, '_>, after: &[BaseCharacter<'_>]) -> Option<LineRule>
    ensures { result ≡ first_row (names_LB28a V17_0) (rows.LB28a V17_0) before.now (map base_in after.now) }
{
    if is(&[LineClass::AP], before.bases) && is_aksara(&[LineClass::AK, LineClass::AS], after) {
        return Some(LineRule::LB28a);
    }
    if is_aksara(&[LineClass::AK, LineClass::AS], before.bases)
        && is(&[LineClass::VF, LineClass::VI], after)
    {
        return Some(LineRule::LB28a);
    }
    if is_virama_after_aksara(before.bases) && is_aksara(&[LineClass::AK], after) {
        return Some(LineRule::LB28a);
    }
    if is_aksara(&[LineClass::AK, LineClass::AS], before.bases) && is_aksara_before_vf(after) {
        return Some(LineRule::LB28a);
    }
    None
}

// Tries LB29 to LB30b.
fn lb29_to_lb30b(before: &Before<'_, '_>, after: &[BaseCharacter<'_>]) -> Option<LineRule>
    ensures { result ≡ first_row names_LB29_to_LB30b rows.LB29_to_LB30b before.now (map base_in after.now) }
{
    if is(&[LineClass::IS], before.bases) && is(&[LineClass::AL, LineClass::HL], after) {
        return Some(LineRule::LB29);
    }
    if is(&[LineClass::NU, LineClass::AL, LineClass::HL], before.bases)
        && is_narrow(&[LineClass::OP], after)
    {
        return Some(LineRule::LB30);
    }
    if is_narrow(&[LineClass::CP], before.bases)
        && is(&[LineClass::NU, LineClass::AL, LineClass::HL], after)
    {
        return Some(LineRule::LB30);
    }
    if before.ends_in_odd_run() && is(&[LineClass::RI], after) {
        return Some(LineRule::LB30a);
    }
    if is(&[LineClass::EB], before.bases) && is(&[LineClass::EM], after) {
        return Some(LineRule::LB30b);
    }
    if is_future_pictograph(before.bases) && is(&[LineClass::EM], after) {
        return Some(LineRule::LB30b);
    }
    None
}

// Tries the rules of 15.0 before LB25.
fn before_numbers(before: &Before<'_, '_>, after: &[BaseCharacter<'_>]) -> Option<LineRule>
    ensures { result ≡ first_row (names_before_numbers V15_0) (rows.rows_before_numbers V15_0)
        before.now (map base_in after.now) }
{
    lb3_to_lb12(before, after)
        .or(lb12a_to_lb14(before, after))
        .or(lb15(before, after))
        .or(lb16_to_lb18(before, after))
        .or(lb19(before, after))
        .or(lb20(before, after))
        .or(lb21_and_lb21a(before, after))
        .or(lb21b_to_lb24(before, after))
}

// Tries the rules of 17.0 before LB25.
fn before_numbers_17(before: &Before<'_, '_>, after: &[BaseCharacter<'_>]) -> Option<LineRule>
    ensures { result ≡ first_row (names_before_numbers V17_0) (rows.rows_before_numbers V17_0)
        before.now (map base_in after.now) }
{
    lb3_to_lb12(before, after)
        .or(lb12a_to_lb14_17(before, after))
        .or(lb15_17(before, after))
        .or(lb16_to_lb18(before, after))
        .or(lb19_17(before, after))
        .or(lb20(before, after))
        .or(lb20a_to_lb21a_17(before, after))
        .or(lb21b_to_lb24(before, after))
}

// Tries LB25 of 15.0, for whole numbers or for pairs of bases.
fn numbers(
    whole_numbers: bool,
    before: &Before<'_, '_>,
    after: &[BaseCharacter<'_>],
) -> Option<LineRule>
    ensures { result ≡ first_by (names_of_numbers V15_0 whole_numbers) (rows.numbers V15_0 whole_numbers)
        before.now (map base_in after.now) }
{
    if !whole_numbers {
        return lb25(before, after);
    }
    if before.is_in_number(after) {
        return Some(LineRule::LB25);
    }
    None
}

// Tries the rules of 15.0.
fn rule_15(
    whole_numbers: bool,
    before: &Before<'_, '_>,
    after: &[BaseCharacter<'_>],
) -> Option<LineRule>
    ensures { result ≡ first_by (names V15_0 whole_numbers) (rows.rules V15_0 whole_numbers)
        before.now (map base_in after.now) }
{
    before_numbers(before, after)
        .or(numbers(whole_numbers, before, after))
        .or(lb26_to_lb28(before, after))
        .or(lb29_to_lb30b(before, after))
}

// Tries the rules of 17.0.
fn rule_17(before: &Before<'_, '_>, after: &[BaseCharacter<'_>]) -> Option<LineRule>
    ensures { (whole_numbers : Bool) → result ≡ first_by (names V17_0 whole_numbers)
        (rows.rules V17_0 whole_numbers) before.now (map base_in after.now) }
{
    before_numbers_17(before, after)
        .or(lb25_17(before, after))
        .or(lb26_to_lb28(before, after))
        .or(lb28a(before, after))
        .or(lb29_to_lb30b(before, after))
}

/// Returns the first rule that applies at the position between two lists of bases.
pub fn rule_between(
    version: Version,
    whole_numbers: bool,
    before: &Before<'_, '_>,
    after: &[BaseCharacter<'_>],
) -> LineRule
    ensures { result ≡ unwrap_or (first_by (names version whole_numbers) (rows.rules version whole_numbers)
        before.now (map base_in after.now)) LB31 }
{
    match version {
        Version::V15_0 => rule_15(whole_numbers, before, after).unwrap_or(LineRule::LB31),
        Version::V17_0 => rule_17(before, after).unwrap_or(LineRule::LB31),
    }
}
