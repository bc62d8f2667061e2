//! Functions that report which rules determine the levels and break marks of a paragraph.
ghost use Rattle.std.specs.Prelude.{◌≡◌, ◌<◌, ◌≤◌, length, map, IfOk, OnErr};
ghost use Rattle.hordguli_c.specs.Arrays.{put};
ghost use Rattle.hordguli_c.specs.Calls.{AsksBy};
ghost use Rattle.hordguli_c.specs.Options.{direction_of, tables_by, tailoring_of};
ghost use Rattle.hordguli_c.specs.Reasons.{break_reason_out, break_reasons, class_number};
ghost use Rattle.hordguli_c.specs.Reasons.{case_number, classes_after, direction_number, kept_out};
ghost use Rattle.hordguli_c.specs.Reasons.{level_reasons};
ghost use Rattle.hordguli_c.specs.Reasons.{neutral_number, position_number, reason_out, removed_out};
ghost use Rattle.hordguli_c.specs.Reasons.{rule_letter, rule_number, PutsBreakReasons, PutsReasons};
ghost use Rattle.hordguli_c.specs.Statuses.{Returns};

use crate::arrays::{characters_of, mark_number};
use crate::calls::with_object;
use crate::level_calls::{bidi_number, line_number};
use crate::options::{direction_of, separates_lines, tailoring_of};
use crate::status::{Status, number_of};
use crate::tables_handle::TablesHandle;
use bidi::{Base, BracketCase, LevelReason, NeutralRule, SequenceReason};
use breaks::{LineRule, Reason, reasons};
use std::alloc::{AllocError, Global};
use ucd::{BidiClass, LineClass, Tables};

// The number that is stored for a position that does not exist.
const NO_POSITION: usize = 0xFFFF_FFFF;

// The number that is stored for a class that does not exist.
const NO_CLASS: u8 = 0xFF;

/// How the rules determine the level of a character (`hordguli_reason` in C).
#[repr(C)]
#[derive(Clone, Copy)]
pub struct ReasonOut {
    pub opener: u32,
    pub matching: u32,
    pub sequence: u32,
    pub partner: u32,
    pub inside: u32,
    pub left: u32,
    pub right: u32,
    pub class_after: [u8; 11],
    pub override_class: u8,
    pub embedding_level: u8,
    pub level: u8,
    pub sos: u8,
    pub eos: u8,
    pub bracket_case: u8,
    pub neutral: u8,
}

/// Which rule determines a break mark (`hordguli_break_reason` in C).
#[repr(C)]
#[derive(Clone, Copy)]
pub struct BreakReasonOut {
    pub base: u32,
    pub behind_spaces: u32,
    pub rule: u8,
    pub letter: u8,
    pub class_before: u8,
    pub class_after: u8,
    pub mark: u8,
}

fn position_number(position: Option<usize>) -> u32
    ensures { result ≡ position_number position }
{
    match position {
        Some(k) => k.min(NO_POSITION) as u32,
        None => NO_POSITION as u32,
    }
}

#[tactic(auto, unfolding(crate::specs::Reasons::rule_number))]
fn rule_number(rule: LineRule) -> u8
    ensures { result ≡ rule_number rule }
{
    match rule {
        LineRule::LB3 => 3,
        LineRule::LB4 => 4,
        LineRule::LB5 => 5,
        LineRule::LB6 => 6,
        LineRule::LB7 => 7,
        LineRule::LB8 | LineRule::LB8a => 8,
        LineRule::LB9 => 9,
        LineRule::LB11 => 11,
        LineRule::LB12 | LineRule::LB12a => 12,
        LineRule::LB13 => 13,
        LineRule::LB14 => 14,
        LineRule::LB15 | LineRule::LB15a | LineRule::LB15b | LineRule::LB15c | LineRule::LB15d =>
            15,
        LineRule::LB16 => 16,
        LineRule::LB17 => 17,
        LineRule::LB18 => 18,
        LineRule::LB19 | LineRule::LB19a => 19,
        LineRule::LB20 | LineRule::LB20a => 20,
        LineRule::LB21 | LineRule::LB21a | LineRule::LB21b => 21,
        LineRule::LB22 => 22,
        LineRule::LB23 | LineRule::LB23a => 23,
        LineRule::LB24 => 24,
        LineRule::LB25 => 25,
        LineRule::LB26 => 26,
        LineRule::LB27 => 27,
        LineRule::LB28 | LineRule::LB28a => 28,
        LineRule::LB29 => 29,
        LineRule::LB30 | LineRule::LB30a | LineRule::LB30b => 30,
        LineRule::LB31 => 31,
    }
}

#[tactic(auto, unfolding(crate::specs::Reasons::rule_letter))]
fn rule_letter(rule: LineRule) -> u8
    ensures { result ≡ rule_letter rule }
{
    match rule {
        LineRule::LB8a
        | LineRule::LB12a
        | LineRule::LB15a
        | LineRule::LB19a
        | LineRule::LB20a
        | LineRule::LB21a
        | LineRule::LB23a
        | LineRule::LB28a
        | LineRule::LB30a => b'a',
        LineRule::LB15b | LineRule::LB21b | LineRule::LB30b => b'b',
        LineRule::LB15c => b'c',
        LineRule::LB15d => b'd',
        _ => 0,
    }
}

fn class_number(class: Option<LineClass>) -> u8
    ensures { result ≡ class_number class }
{
    match class {
        Some(class) => line_number(class),
        None => NO_CLASS,
    }
}

fn break_reason_out(reason: &Reason) -> BreakReasonOut
    ensures { result ≡ break_reason_out reason.now }
{
    BreakReasonOut {
        base: position_number(Some(reason.base)),
        behind_spaces: position_number(reason.behind_spaces),
        rule: rule_number(reason.rule),
        letter: rule_letter(reason.rule),
        class_before: line_number(reason.class_before),
        class_after: class_number(reason.class_after),
        mark: mark_number(reason.mark),
    }
}

fn put_each_break_reason(reasons: &[Reason], records: &mut [BreakReasonOut])
    requires { length records.old ≡ length reasons.now }
    ensures { records.new ≡ map break_reason_out reasons.now }
{
    for k in 0..reasons.len() {
        records[k] = break_reason_out(&reasons[k]);
    }
}

#[tactic(auto, unfolding(crate::specs::Reasons::break_reasons))]
fn break_reasons(
    alloc: Global,
    tables: &Tables,
    whole_numbers: bool,
    text: &[char],
) -> Result<Vec<Reason>, AllocError>
    ensures reasons { IfOk result (λ list. map break_reason_out list.items
        ≡ break_reasons tables.now whole_numbers text.now) }
    ensures len { IfOk result (λ list. length list.items ≡ length text.now) }
    ensures memory { OnErr result (0 < length text.now) }
{
    reasons(alloc, tables, text, whole_numbers)
}

fn find_break_reasons(
    alloc: Global,
    tables: &Tables,
    whole_numbers: bool,
    characters: &[u32],
    records: &mut [BreakReasonOut],
) -> Status
    ensures { PutsBreakReasons whole_numbers characters.now result tables.now records.old records.new }
{
    if records.len() < characters.len() {
        return Status::NoRoom;
    }
    if characters.len() >= NO_POSITION {
        return Status::OutOfRange;
    }
    let text = match characters_of(alloc, characters) {
        Ok(text) => text,
        Err(status) => return status,
    };
    match break_reasons(alloc, tables, whole_numbers, &text) {
        Ok(found) => {
            put_each_break_reason(&found, &mut records[..found.len()]);
            Status::Ok
        }
        Err(_) => Status::NoMemory,
    }
}

/// Stores which rule determines the break mark after each character of a paragraph.
#[unsafe(no_mangle)]
pub extern "C" fn hordguli_core_break_reasons(
    alloc: Global,
    tables: &mut TablesHandle,
    options: u32,
    characters: &[u32],
    records: &mut [BreakReasonOut],
) -> u32
    ensures unchanged { tables.new.held ≡ tables.old.held }
    ensures reasons { Returns (λ status.
        AsksBy (λ whole_numbers. PutsBreakReasons whole_numbers characters.now) (tailoring_of options)
        status (tables_by options tables.old.held) records.old records.new) result }
{
    let Some(whole_numbers) = tailoring_of(options) else {
        return number_of(Status::UnknownOption);
    };
    let separates = separates_lines(options);
    with_object!(
        tables,
        alloc,
        object,
        find_break_reasons(
            alloc,
            object.tables_if(separates),
            whole_numbers,
            characters,
            records
        )
    )
}

fn direction_number(class: Option<BidiClass>) -> u8
    ensures { result ≡ direction_number class }
{
    match class {
        Some(class) => bidi_number(class),
        None => NO_CLASS,
    }
}

fn case_number(case: Option<BracketCase>) -> u8
    ensures { result ≡ case_number case }
{
    match case {
        None => 0,
        Some(BracketCase::B) => 1,
        Some(BracketCase::C1) => 2,
        Some(BracketCase::C2) => 3,
        Some(BracketCase::D) => 4,
        Some(BracketCase::NotOther) => 5,
        Some(BracketCase::NoMatch) => 6,
        Some(BracketCase::PastLimit) => 7,
    }
}

fn neutral_number(rule: Option<NeutralRule>) -> u8
    ensures { result ≡ neutral_number rule }
{
    match rule {
        None => 0,
        Some(NeutralRule::N1) => 1,
        Some(NeutralRule::N2) => 2,
    }
}

fn classes_after(reason: &LevelReason, found: &SequenceReason) -> [u8; 11]
    ensures { result ≡ classes_after reason.now found.now }
{
    [
        bidi_number(reason.class),
        bidi_number(reason.explicit.class),
        bidi_number(found.step.w1),
        bidi_number(found.step.w2),
        bidi_number(found.step.w3),
        bidi_number(found.step.w4),
        bidi_number(found.step.w5),
        bidi_number(found.step.w6),
        bidi_number(found.step.w7),
        bidi_number(found.step.n0),
        bidi_number(found.step.neutral.class),
    ]
}

fn kept_out(reason: &LevelReason, found: &SequenceReason) -> ReasonOut
    ensures { result ≡ kept_out reason.now found.now }
{
    ReasonOut {
        opener: position_number(reason.explicit.opener),
        matching: position_number(reason.matching),
        sequence: position_number(Some(found.sequence)),
        partner: position_number(found.step.bracket.partner),
        inside: position_number(found.step.bracket.inside),
        left: position_number(found.step.neutral.left),
        right: position_number(found.step.neutral.right),
        class_after: classes_after(reason, found),
        override_class: direction_number(reason.explicit.overriding),
        embedding_level: reason.explicit.level,
        level: reason.level,
        sos: bidi_number(found.sos),
        eos: bidi_number(found.eos),
        bracket_case: case_number(found.step.bracket.case),
        neutral: neutral_number(found.step.neutral.rule),
    }
}

fn removed_out(reason: &LevelReason) -> ReasonOut
    ensures { result ≡ removed_out reason.now }
{
    ReasonOut {
        opener: position_number(reason.explicit.opener),
        matching: position_number(reason.matching),
        sequence: position_number(None),
        partner: position_number(None),
        inside: position_number(None),
        left: position_number(reason.level_from),
        right: position_number(None),
        class_after: [
            bidi_number(reason.class),
            NO_CLASS,
            NO_CLASS,
            NO_CLASS,
            NO_CLASS,
            NO_CLASS,
            NO_CLASS,
            NO_CLASS,
            NO_CLASS,
            NO_CLASS,
            NO_CLASS,
        ],
        override_class: direction_number(reason.explicit.overriding),
        embedding_level: reason.explicit.level,
        level: reason.level,
        sos: NO_CLASS,
        eos: NO_CLASS,
        bracket_case: 0,
        neutral: 0,
    }
}

fn reason_out(reason: &LevelReason) -> ReasonOut
    ensures { result ≡ reason_out reason.now }
{
    match &reason.resolved {
        Some(found) => kept_out(reason, found),
        None => removed_out(reason),
    }
}

fn put_each_reason(reasons: &[LevelReason], records: &mut [ReasonOut])
    requires { length records.old ≡ length reasons.now }
    ensures { records.new ≡ map reason_out reasons.now }
{
    for k in 0..reasons.len() {
        records[k] = reason_out(&reasons[k]);
    }
}

#[tactic(auto, unfolding(crate::specs::Reasons::level_reasons))]
fn level_reasons(
    alloc: Global,
    tables: &Tables,
    base: Base,
    text: &[char],
) -> Result<Vec<LevelReason>, AllocError>
    ensures reasons { IfOk result (λ list. map reason_out list.items
        ≡ level_reasons tables.now base text.now) }
    ensures len { IfOk result (λ list. length list.items ≡ length text.now) }
    ensures memory { OnErr result (0 < length text.now) }
{
    bidi::level_reasons(alloc, tables, text, base)
}

fn find_reasons(
    alloc: Global,
    tables: &Tables,
    base: Base,
    characters: &[u32],
    records: &mut [ReasonOut],
) -> Status
    ensures { PutsReasons base characters.now result tables.now records.old records.new }
{
    if records.len() < characters.len() {
        return Status::NoRoom;
    }
    if characters.len() >= NO_POSITION {
        return Status::OutOfRange;
    }
    let text = match characters_of(alloc, characters) {
        Ok(text) => text,
        Err(status) => return status,
    };
    match level_reasons(alloc, tables, base, &text) {
        Ok(found) => {
            put_each_reason(&found, &mut records[..found.len()]);
            Status::Ok
        }
        Err(_) => Status::NoMemory,
    }
}

/// Stores how the rules determine the level of each character of a paragraph.
#[unsafe(no_mangle)]
pub extern "C" fn hordguli_core_reasons(
    alloc: Global,
    tables: &mut TablesHandle,
    direction: u32,
    characters: &[u32],
    records: &mut [ReasonOut],
) -> u32
    ensures unchanged { tables.new.held ≡ tables.old.held }
    ensures reasons { Returns (λ status.
        AsksBy (λ base. PutsReasons base characters.now) (direction_of direction) status
        (tables_by direction tables.old.held) records.old records.new) result }
{
    let Some(base) = direction_of(direction) else {
        return number_of(Status::UnknownOption);
    };
    let separates = separates_lines(direction);
    with_object!(
        tables,
        alloc,
        object,
        find_reasons(
            alloc,
            object.tables_if(separates),
            base,
            characters,
            records
        )
    )
}
