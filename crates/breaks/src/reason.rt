//! The rule that decides each break mark.
ghost use Rattle.std.specs.Prelude.{◌≡◌, ◌<◌, [], ◌∷◌, ◌++◌, length, map, reverse, IfOk, OnErr, OnOk};
ghost use Rattle.breaks.specs.Bases.{class_of};
ghost use Rattle.breaks.specs.Reasons.{base_reasons, chars_in, names, next_class, reasons_after};
ghost use Rattle.breaks.specs.Reasons.{reasons_inside, reasons_of};
ghost use Rattle.breaks.specs.Marks.{marks_after, marks_of};
ghost use Rattle.breaks.specs.Rules.{mark_by, rules};
ghost use Rattle.breaks.specs.Seen.{base_in, rest};

use crate::bases::{BaseCharacter, bases, characters};
use crate::before::Before;
use crate::line_rule::LineRule;
use crate::line_rules::rule_between;
use crate::mark::{Mark, marks};
use std::alloc::{AllocError, Global};
use ucd::{LineClass, Tables, Version};

/// The reason for the mark after a character.
#[derive(Clone, Copy)]
pub struct Reason {
    /// The first rule that applies, which decides the mark.
    pub rule: LineRule,
    /// Where the base that contains the character starts.
    pub base: usize,
    /// Where the last base that is not a space starts, among the bases up to and including this one, or
    /// `None` if there is none. UAX #14 writes such a base as a class followed by `SP*`.
    pub behind_spaces: Option<usize>,
    /// The class of the base that contains the character, after LB1 and LB10.
    pub class_before: LineClass,
    /// The class after the position: the class of the next base or, inside a base, of the next character.
    /// `None` at the end of the paragraph.
    pub class_after: Option<LineClass>,
    /// The mark.
    pub mark: Mark,
}

// A Unicode version, and whether its rules apply LB25 to whole numbers or to pairs of bases.
#[derive(Clone, Copy)]
struct Edition {
    version: Version,
    whole_numbers: bool,
}

// Returns the class of the nearest base, or `None` if there are no bases.
fn next_class(bases: &[BaseCharacter<'_>]) -> Option<LineClass>
    ensures { result ≡ next_class (map base_in bases.now) }
{
    match bases.first() {
        Some(base) => Some(base.class()),
        None => None,
    }
}

// Appends the reasons for the marks inside a base. `start` is where the base starts, and `behind_spaces` is
// where the nearest base that is not a space starts.
fn push_inside(
    list: &mut Vec<Reason>,
    base: &BaseCharacter<'_>,
    start: usize,
    behind_spaces: Option<usize>,
) -> Result<(), AllocError>
    ensures { OnOk result (list.new.items ≡ list.old.items ++ reasons_inside start
        (class_of (base_in base.now)) behind_spaces (base_in base.now).first (base_in base.now).attached) }
{
    let class_before = base.class();
    let mut before = base.first;
    for k in 0..base.attached.len() {
        let next = base.attached[k];
        let rule = if before.class == LineClass::ZWJ {
            LineRule::LB8a
        } else {
            LineRule::LB9
        };
        list.push(Reason {
            rule,
            base: start,
            behind_spaces,
            class_before,
            class_after: Some(next.class),
            mark: Mark::Never,
        })?;
        before = next;
    }
    Ok(())
}

// Appends the reasons for the marks after the characters of a base. `before` holds the bases up to and
// including this one, and `mark` is the mark after this base.
fn push_base(
    list: &mut Vec<Reason>,
    edition: Edition,
    base: &BaseCharacter<'_>,
    before: &Before<'_, '_>,
    after: &[BaseCharacter<'_>],
    mark: Mark,
) -> Result<(), AllocError>
    requires before { before.now ≡ base_in base.now ∷ rest before.now }
    requires start { length list.old.items ≡ chars_in (rest before.now) }
    requires mark { mark ≡ mark_by (rules edition.version edition.whole_numbers) before.now
        (map base_in after.now) }
    ensures { OnOk result (list.new.items ≡ list.old.items ++ base_reasons
        (names edition.version edition.whole_numbers) (rules edition.version edition.whole_numbers)
        (base_in base.now) (rest before.now) (map base_in after.now)) }
{
    let start = list.len();
    let behind_spaces = before.behind_spaces();
    push_inside(list, base, start, behind_spaces)?;
    list.push(Reason {
        rule: rule_between(edition.version, edition.whole_numbers, before, after),
        base: start,
        behind_spaces,
        class_before: base.class(),
        class_after: next_class(after),
        mark,
    })?;
    Ok(())
}

// Returns the reasons for the marks after all characters, given the bases in both orders and the marks.
fn reasons_by<'a>(
    alloc: Global,
    edition: Edition,
    bases: &[BaseCharacter<'a>],
    reversed: &[BaseCharacter<'a>],
    marks: &[Mark],
) -> Result<Vec<Reason>, AllocError>
    requires reversed { reversed.now ≡ reverse bases.now }
    requires marks { marks.now ≡ marks_after (rules edition.version edition.whole_numbers) []
        (map base_in bases.now) }
    ensures { IfOk result (λ list. list.items ≡ reasons_after (names edition.version edition.whole_numbers)
        (rules edition.version edition.whole_numbers) [] (map base_in bases.now)) }
{
    let mut list = Vec::with_capacity(alloc, marks.len())?;
    let mut before = Before::none(&reversed[..0]);
    for k in 0..bases.len() {
        let base = bases[k];
        let start = list.len();
        let (_, nearest) = reversed.split_at(bases.len() - k - 1);
        before = before.next(&base, nearest, start);
        let mark = marks[start + base.attached.len()];
        let (_, after) = bases.split_at(k + 1);
        push_base(&mut list, edition, &base, &before, after, mark)?;
    }
    Ok(list)
}

/// Returns the reason for the break mark after each character of a paragraph: the rule that decides it, and
/// the bases around it. The marks are those that `marks` returns. Needs time proportional to the length of
/// the paragraph.
pub fn reasons(
    alloc: Global,
    tables: &Tables,
    text: &[char],
    whole_numbers: bool,
) -> Result<Vec<Reason>, AllocError>
    ensures reasons { IfOk result (λ list. list.items ≡ reasons_of tables.now whole_numbers text.now) }
    ensures marks { IfOk result (λ list. map (λ reason. reason.mark) list.items
        ≡ marks_of tables.now whole_numbers text.now) }
    ensures len { IfOk result (λ list. length list.items ≡ length text.now) }
    ensures memory { OnErr result (0 < length text.now) }
{
    if text.is_empty() {
        return Ok(Vec::new(alloc));
    }
    let edition = Edition {
        version: tables.version(),
        whole_numbers,
    };
    let characters = characters(alloc, tables, text)?;
    let bases = bases(alloc, &characters)?;
    let mut reversed = Vec::from_slice(alloc, &bases)?;
    reversed.reverse();
    let marks = marks(alloc, tables, text, whole_numbers)?;
    let list = reasons_by(alloc, edition, &bases, &reversed, &marks)?;
    Ok(list)
}
