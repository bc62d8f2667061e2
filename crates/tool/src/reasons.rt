//! The reply to `why`: how the algorithms arrive at the level and the break mark of a character.
ghost use Rattle.std.specs.Prelude.{◌≡◌, ◌++◌, codes, IfOk, OnOk};
ghost use Rattle.std.specs.Fmt.{decimal};
ghost use Rattle.ucd.specs.BidiClasses.{name_of};
ghost use Rattle.breaks.specs.LineRules.{name_of as rule_name};
ghost use Rattle.tool.specs.Reasons.{bidi_text, break_text, case_text, explicit_text, kept_text};
ghost use Rattle.tool.specs.Reasons.{level_text, line_text, mark_text, neutral_text, pair};
ghost use Rattle.tool.specs.Reasons.{position_text, positions_text, reasons_text, removed_text};
ghost use Rattle.tool.specs.Reasons.{resolved_text, types_text, weak_text};

use bidi::{BracketCase, LevelReason, NeutralRule, SequenceReason};
use breaks::{LineRule, Mark, Reason};
use itoa::Buffer;
use session::CharReasons;
use std::alloc::{AllocError, Global};
use ucd::{BidiClass, LineClass};

// The value that is printed for a missing class, case, rule or position.
const NONE: &str = "none";

fn bidi_text(class: Option<BidiClass>) -> &'static str
    ensures { result.now ≡ bidi_text class }
{
    match class {
        Some(class) => class.name(),
        None => NONE,
    }
}

fn line_text(class: Option<LineClass>) -> &'static str
    ensures { result.now ≡ line_text class }
{
    match class {
        Some(class) => class.name(),
        None => NONE,
    }
}

fn case_text(case: Option<BracketCase>) -> &'static str
    ensures { result.now ≡ case_text case }
{
    match case {
        Some(BracketCase::B) => "B",
        Some(BracketCase::C1) => "C1",
        Some(BracketCase::C2) => "C2",
        Some(BracketCase::D) => "D",
        Some(BracketCase::NotOther) => "not_other",
        Some(BracketCase::NoMatch) => "no_match",
        Some(BracketCase::PastLimit) => "past_limit",
        None => NONE,
    }
}

fn neutral_text(rule: Option<NeutralRule>) -> &'static str
    ensures { result.now ≡ neutral_text rule }
{
    match rule {
        Some(NeutralRule::N1) => "N1",
        Some(NeutralRule::N2) => "N2",
        None => NONE,
    }
}

fn mark_text(mark: Mark) -> &'static str
    ensures { result.now ≡ mark_text mark }
{
    match mark {
        Mark::Never => "never",
        Mark::May => "may",
        Mark::Must => "must",
    }
}

fn push(line: &mut Vec<u8>, text: &str) -> Result<(), AllocError>
    ensures { OnOk result (line.new.items ≡ line.old.items ++ text.now) }
{
    line.extend_from_slice(text.as_bytes())
}

// Appends a name and a value, with a space before each.
fn push_pair(line: &mut Vec<u8>, name: &str, value: &str) -> Result<(), AllocError>
    ensures { OnOk result (line.new.items ≡ line.old.items ++ pair name.now value.now) }
{
    push(line, " ")?;
    push(line, name)?;
    push(line, " ")?;
    push(line, value)
}

fn push_number(line: &mut Vec<u8>, name: &str, number: usize) -> Result<(), AllocError>
    ensures { OnOk result (line.new.items ≡ line.old.items ++ pair name.now (decimal number)) }
{
    let mut buffer = Buffer::new();
    push_pair(line, name, buffer.format(number))
}

// Appends a name and a position in the text, given the start of a paragraph and a position in the paragraph.
// For a missing position, appends `none`.
fn push_position(
    line: &mut Vec<u8>,
    name: &str,
    start: usize,
    position: Option<usize>,
) -> Result<(), AllocError>
    ensures { OnOk result (line.new.items
        ≡ line.old.items ++ pair name.now (position_text start position)) }
{
    match position {
        Some(k) => push_number(line, name, start.saturating_add(k)),
        None => push_pair(line, name, NONE),
    }
}

fn push_class(line: &mut Vec<u8>, name: &str, class: BidiClass) -> Result<(), AllocError>
    ensures { OnOk result (line.new.items ≡ line.old.items ++ pair name.now (name_of class)) }
{
    push_pair(line, name, class.name())
}

fn push_level_number(line: &mut Vec<u8>, name: &str, level: u8) -> Result<(), AllocError>
    ensures { OnOk result (line.new.items ≡ line.old.items ++ pair name.now (decimal level)) }
{
    push_number(line, name, level as usize)
}

fn push_bidi(line: &mut Vec<u8>, name: &str, class: Option<BidiClass>) -> Result<(), AllocError>
    ensures { OnOk result (line.new.items ≡ line.old.items ++ pair name.now (bidi_text class)) }
{
    push_pair(line, name, bidi_text(class))
}

fn push_line(line: &mut Vec<u8>, name: &str, class: Option<LineClass>) -> Result<(), AllocError>
    ensures { OnOk result (line.new.items ≡ line.old.items ++ pair name.now (line_text class)) }
{
    push_pair(line, name, line_text(class))
}

fn push_case(line: &mut Vec<u8>, case: Option<BracketCase>) -> Result<(), AllocError>
    ensures { OnOk result (line.new.items
        ≡ line.old.items ++ pair (codes "bracket_case") (case_text case)) }
{
    push_pair(line, "bracket_case", case_text(case))
}

fn push_neutral(line: &mut Vec<u8>, rule: Option<NeutralRule>) -> Result<(), AllocError>
    ensures { OnOk result (line.new.items ≡ line.old.items ++ pair (codes "neutral") (neutral_text rule)) }
{
    push_pair(line, "neutral", neutral_text(rule))
}

fn push_rule(line: &mut Vec<u8>, rule: LineRule) -> Result<(), AllocError>
    ensures { OnOk result (line.new.items ≡ line.old.items ++ pair (codes "rule") (rule_name rule)) }
{
    push_pair(line, "rule", rule.name())
}

fn push_mark(line: &mut Vec<u8>, mark: Mark) -> Result<(), AllocError>
    ensures { OnOk result (line.new.items ≡ line.old.items ++ pair (codes "mark") (mark_text mark)) }
{
    push_pair(line, "mark", mark_text(mark))
}

// Appends the type after each of W1 to W7.
fn push_weak(line: &mut Vec<u8>, found: &SequenceReason) -> Result<(), AllocError>
    ensures { OnOk result (line.new.items ≡ line.old.items ++ weak_text found.now) }
{
    push_class(line, "W1", found.step.w1)?;
    push_class(line, "W2", found.step.w2)?;
    push_class(line, "W3", found.step.w3)?;
    push_class(line, "W4", found.step.w4)?;
    push_class(line, "W5", found.step.w5)?;
    push_class(line, "W6", found.step.w6)?;
    push_class(line, "W7", found.step.w7)
}

// Appends the class of a character that X9 keeps, and its type after each rule.
fn push_types(
    line: &mut Vec<u8>,
    reason: &LevelReason,
    found: &SequenceReason,
) -> Result<(), AllocError>
    ensures { OnOk result (line.new.items ≡ line.old.items ++ types_text reason.now found.now) }
{
    push_class(line, "class", reason.class)?;
    push_class(line, "X", reason.explicit.class)?;
    push_weak(line, found)?;
    push_class(line, "N0", found.step.n0)?;
    push_class(line, "N2", found.step.neutral.class)
}

// Appends the positions that the rules found for a character that X9 keeps.
fn push_positions(
    line: &mut Vec<u8>,
    start: usize,
    reason: &LevelReason,
    found: &SequenceReason,
) -> Result<(), AllocError>
    ensures { OnOk result (line.new.items
        ≡ line.old.items ++ positions_text start reason.now found.now) }
{
    push_position(line, "opener", start, reason.explicit.opener)?;
    push_position(line, "matching", start, reason.matching)?;
    push_position(line, "sequence", start, Some(found.sequence))?;
    push_position(line, "partner", start, found.step.bracket.partner)?;
    push_position(line, "inside", start, found.step.bracket.inside)?;
    push_position(line, "left", start, found.step.neutral.left)?;
    push_position(line, "right", start, found.step.neutral.right)
}

// Appends the override class, the embedding level and the level.
fn push_explicit(line: &mut Vec<u8>, reason: &LevelReason) -> Result<(), AllocError>
    ensures { OnOk result (line.new.items ≡ line.old.items ++ explicit_text reason.now) }
{
    push_bidi(line, "override_class", reason.explicit.overriding)?;
    push_level_number(line, "embedding_level", reason.explicit.level)?;
    push_level_number(line, "level", reason.level)?;
    Ok(())
}

// Appends the sequence's sos and eos, the case of N0, and which of N1 and N2 applies.
fn push_resolved(line: &mut Vec<u8>, found: &SequenceReason) -> Result<(), AllocError>
    ensures { OnOk result (line.new.items ≡ line.old.items ++ resolved_text found.now) }
{
    push_class(line, "sos", found.sos)?;
    push_class(line, "eos", found.eos)?;
    push_case(line, found.step.bracket.case)?;
    push_neutral(line, found.step.neutral.rule)
}

// Appends the reason for the level of a character that X9 keeps.
fn push_kept(
    line: &mut Vec<u8>,
    start: usize,
    reason: &LevelReason,
    found: &SequenceReason,
) -> Result<(), AllocError>
    ensures { OnOk result (line.new.items ≡ line.old.items ++ kept_text start reason.now found.now) }
{
    push_types(line, reason, found)?;
    push_positions(line, start, reason, found)?;
    push_explicit(line, reason)?;
    push_resolved(line, found)
}

// Appends the reason for the level of a character that X9 removes.
fn push_removed(line: &mut Vec<u8>, start: usize, reason: &LevelReason) -> Result<(), AllocError>
    ensures { OnOk result (line.new.items ≡ line.old.items ++ removed_text start reason.now) }
{
    push_class(line, "class", reason.class)?;
    push(
        line,
        " X none W1 none W2 none W3 none W4 none W5 none W6 none W7 none N0 none N2 none",
    )?;
    push_position(line, "opener", start, reason.explicit.opener)?;
    push_position(line, "matching", start, reason.matching)?;
    push(line, " sequence none partner none inside none")?;
    push_position(line, "left", start, reason.level_from)?;
    push(line, " right none")?;
    push_explicit(line, reason)?;
    push(line, " sos none eos none bracket_case none neutral none")?;
    Ok(())
}

fn push_level(line: &mut Vec<u8>, start: usize, reason: &LevelReason) -> Result<(), AllocError>
    ensures { OnOk result (line.new.items
        ≡ line.old.items ++ level_text start reason.now reason.now.resolved) }
{
    match &reason.resolved {
        Some(found) => push_kept(line, start, reason, found),
        None => push_removed(line, start, reason),
    }
}

fn push_break(line: &mut Vec<u8>, start: usize, reason: &Reason) -> Result<(), AllocError>
    ensures { OnOk result (line.new.items ≡ line.old.items ++ break_text start reason.now) }
{
    push_rule(line, reason.rule)?;
    push_position(line, "base", start, Some(reason.base))?;
    push_position(line, "behind_spaces", start, reason.behind_spaces)?;
    push_line(line, "class_before", Some(reason.class_before))?;
    push_line(line, "class_after", reason.class_after)?;
    push_mark(line, reason.mark)
}

/// Returns the reply to `why`, given the reasons for a character's level and break mark.
pub fn reasons_line(alloc: Global, reasons: &CharReasons) -> Result<Vec<u8>, AllocError>
    ensures { IfOk result (λ line. line.items ≡ reasons_text reasons.now) }
{
    let mut line = Vec::new(alloc);
    push(&mut line, "=")?;
    push_level(&mut line, reasons.paragraph_start, &reasons.level)?;
    push_break(&mut line, reasons.paragraph_start, &reasons.mark)?;
    push(&mut line, "\n")?;
    Ok(line)
}
