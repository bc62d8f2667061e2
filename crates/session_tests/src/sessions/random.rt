//! Makes edits at random positions, over both stores. Each result is compared with a session whose whole text
//! is replaced at once, and some results with a session that is opened on the text.
use super::{Check, Pair, check_in_tree, check_over, make_within, same_lines, same_paragraphs};
use session::{Damage, Edit, EditFault, Kept, Session};
use std::alloc::{AllocError, Global};
use std::process::Abort;
use std::test::Fail;
use store::{ParagraphStore, VecStore};

// Pseudorandom numbers from a fixed seed.
#[derive(Clone, Copy)]
pub(super) struct Numbers(u64);

impl Numbers {
    pub(super) fn from_seed(seed: u64) -> Numbers {
        Numbers(seed)
    }

    pub(super) fn below(&mut self, bound: usize) -> usize {
        self.0 = self
            .0
            .wrapping_mul(6_364_136_223_846_793_005)
            .wrapping_add(1_442_695_040_888_963_407);
        let wide = (self.0 >> 33) as usize;
        if bound == 0 { 0 } else { wide % bound }
    }
}

// Letters, digits, spaces, separators, marks, brackets and isolates.
const CHARACTERS: &str = "abcde fg\u{5d0}\u{5d1}\u{5d2}\u{627}12\u{660}  \n\r\u{2029}\u{300}()[],\
    \u{2066}\u{2067}\u{2068}\u{2069}\u{2069}";

pub(super) fn random_piece(alloc: Global, numbers: &mut Numbers) -> Result<String, AllocError> {
    let mut piece = String::new(alloc);
    for _ in 0..numbers.below(41) {
        let c = CHARACTERS.chars().nth(numbers.below(33)).unwrap_or('\r');
        piece.push(c)?;
    }
    Ok(piece)
}

fn random_edit<'a>(numbers: &mut Numbers, len: usize, piece: &'a str) -> Edit<'a> {
    let pos = numbers.below(len.wrapping_add(2));
    match numbers.below(8) {
        0 => Edit::SetWidth(u16::try_from(numbers.below(91)).unwrap_or(0)),
        1..=3 => Edit::Insert(pos, piece),
        _ => Edit::Delete(pos, numbers.below(36)),
    }
}

// Returns the position, the number of deleted characters and the inserted text of an edit.
fn parts(edit: Edit<'_>) -> (usize, usize, &str) {
    match edit {
        Edit::Insert(pos, piece) => (pos, 0, piece),
        Edit::Delete(pos, count) => (pos, count, ""),
        Edit::SetWidth(_) => (0, 0, ""),
    }
}

// Returns the error with which a session on `text` must refuse an edit, or `None` if it must accept it.
fn refusal(text: &str, edit: Edit<'_>) -> Option<EditFault> {
    let (pos, count, _) = parts(edit);
    match edit {
        Edit::SetWidth(0) => Some(EditFault::WidthOutOfRange),
        _ if pos.wrapping_add(count) > text.chars().count() => Some(EditFault::OutOfRange),
        _ => None,
    }
}

// Returns the text after an edit.
fn text_after(alloc: Global, text: &str, edit: Edit<'_>) -> Result<String, AllocError> {
    let (pos, count, piece) = parts(edit);
    let mut new = String::new(alloc);
    push_part(&mut new, text, 0, pos)?;
    new.push_str(piece)?;
    push_part(&mut new, text, pos.wrapping_add(count), usize::MAX)?;
    Ok(new)
}

// Appends up to `count` characters of `text`, starting at index `start`.
fn push_part(new: &mut String, text: &str, start: usize, count: usize) -> Result<(), AllocError> {
    for c in text.chars().skip(start).take(count) {
        new.push(c)?;
    }
    Ok(())
}

// Returns the damage of an edit of the range from `pos` to `end`, and the total length of the paragraphs that
// the edit touches. In the damage, the numbers of new lines and paragraphs are 0. The edit touches the
// paragraphs whose spans overlap or adjoin the range.
fn touched<T: ParagraphStore<Kept>>(old: &Session<T>, pos: usize, end: usize) -> (Damage, usize) {
    let (mut first_line, mut old_lines, mut first_par, mut old_pars) = (0, 0, 0, 0);
    let (mut start, mut chars) = (0usize, 0usize);
    for i in 0..old.paragraph_count() {
        let (len, lines) = match old.paragraph(i) {
            Some(laid) => (laid.text().len(), laid.line_count()),
            None => (0, 0),
        };
        if start.wrapping_add(len) < pos {
            first_par = i + 1;
            first_line = lines.wrapping_add(first_line);
        } else if start <= end {
            old_pars = 1usize.wrapping_add(old_pars);
            old_lines = lines.wrapping_add(old_lines);
            chars = len.wrapping_add(chars);
        }
        start = start.wrapping_add(len);
    }
    let damage = Damage {
        first_line,
        old_lines,
        new_lines: 0,
        first_par,
        old_pars,
        new_pars: 0,
    };
    (damage, chars)
}

fn touched_by<T: ParagraphStore<Kept>>(old: &Session<T>, edit: Edit<'_>) -> (Damage, usize) {
    let (pos, count, _) = parts(edit);
    match edit {
        Edit::SetWidth(_) => touched(old, 0, usize::MAX),
        _ => touched(old, pos, pos.wrapping_add(count)),
    }
}

// Returns by how much an edit may raise each counter.
fn bounds<T: ParagraphStore<Kept>>(old: &Session<T>, edit: Edit<'_>) -> [u64; 2] {
    let (_, count, piece) = parts(edit);
    let (_, chars) = touched_by(old, edit);
    let fresh = chars
        .wrapping_sub(count)
        .wrapping_add(piece.chars().count()) as u64;
    match edit {
        Edit::SetWidth(_) => [0, fresh],
        _ => [fresh, fresh],
    }
}

// Returns the damage that an edit must report, given the sessions before and after it.
fn damage_of<S: ParagraphStore<Kept>, T: ParagraphStore<Kept>>(
    old: &Session<T>,
    new: &Session<S>,
    edit: Edit<'_>,
) -> Damage {
    let (damage, _) = touched_by(old, edit);
    Damage {
        new_lines: new
            .line_count()
            .wrapping_add(damage.old_lines)
            .wrapping_sub(old.line_count()),
        new_pars: new
            .paragraph_count()
            .wrapping_add(damage.old_pars)
            .wrapping_sub(old.paragraph_count()),
        ..damage
    }
}

// Returns whether all lines and paragraphs outside the damage are unchanged.
fn stays<S: ParagraphStore<Kept>, T: ParagraphStore<Kept>>(
    old: &Session<T>,
    new: &Session<S>,
    damage: Damage,
) -> bool {
    let after = (
        damage.first_line.wrapping_add(damage.old_lines),
        damage.first_line.wrapping_add(damage.new_lines),
    );
    let rest = old.line_count().wrapping_sub(after.0);
    let after_pars = (
        damage.first_par.wrapping_add(damage.old_pars),
        damage.first_par.wrapping_add(damage.new_pars),
    );
    let rest_pars = old.paragraph_count().wrapping_sub(after_pars.0);
    same_lines(old, new, (0, 0), damage.first_line)
        && same_lines(old, new, after, rest)
        && same_paragraphs(old, new, (0, 0), damage.first_par)
        && same_paragraphs(old, new, after_pars, rest_pars)
}

// Returns whether the result of an edit is right, given a session on the text before the edit.
fn is_right<S: ParagraphStore<Kept>, T: ParagraphStore<Kept>>(
    edited: &Session<S>,
    old: &Session<T>,
    edit: Edit<'_>,
    answer: Result<Damage, EditFault>,
    refusal: Option<EditFault>,
) -> bool {
    match answer {
        Ok(damage) => {
            refusal.is_none()
                && damage == damage_of(old, edited, edit)
                && stays(old, edited, damage)
        }
        Err(fault) => Some(fault) == refusal,
    }
}

// Executes an edit in a session on `text`, checks the result, and updates `text`.
fn check_edit<S: ParagraphStore<Kept> + Drop, T: ParagraphStore<Kept> + Drop>(
    rt: &impl Abort,
    alloc: Global,
    pair: &mut Pair<S, T>,
    text: &mut String,
    edit: Edit<'_>,
) -> Result<(), Fail> {
    let refusal = refusal(text.as_str(), edit);
    let most = if refusal.is_none() {
        bounds(&pair.anew, edit)
    } else {
        [0, 0]
    };
    let answer = make_within(rt, &mut pair.edited, edit, most);
    assert!(rt;
        is_right(&pair.edited, &pair.anew, edit, answer, refusal),
        "{edit:?}"
    );
    if refusal.is_none() {
        advance(alloc, text, edit)?;
    }
    Ok(pair.check_same(rt, text.as_str())?)
}

// Replaces the text with the text after the edit.
fn advance(alloc: Global, text: &mut String, edit: Edit<'_>) -> Result<(), AllocError> {
    *text = match text_after(alloc, text.as_str(), edit) {
        Ok(new) => new,
        Err(_) => text_after(alloc, text.as_str(), edit)?,
    };
    Ok(())
}

// Executes the next random edit in a session on `text`.
fn check_next<S: ParagraphStore<Kept> + Drop, T: ParagraphStore<Kept> + Drop>(
    rt: &impl Abort,
    alloc: Global,
    pair: &mut Pair<S, T>,
    numbers: &mut Numbers,
    text: &mut String,
) -> Result<(), Fail> {
    let piece = match random_piece(alloc, numbers) {
        Ok(piece) => piece,
        Err(_) => random_piece(alloc, numbers)?,
    };
    let edit = random_edit(numbers, pair.edited.char_count(), piece.as_str());
    let result = check_edit(rt, alloc, pair, text, edit);
    drop(piece);
    result
}

fn check_each<S: ParagraphStore<Kept> + Drop, T: ParagraphStore<Kept> + Drop>(
    rt: &impl Abort,
    alloc: Global,
    pair: &mut Pair<S, T>,
    numbers: &mut Numbers,
    text: &mut String,
) -> Result<(), Fail> {
    for turn in 0..2_000 {
        check_next(rt, alloc, pair, numbers, text)?;
        if turn % 500 == 0 {
            let is_opened = pair.is_opened(alloc, text.as_str())?;
            assert!(rt; is_opened, "turn {turn}");
        }
    }
    Ok(())
}

pub(super) fn check_edits<S: ParagraphStore<Kept> + Drop, T: ParagraphStore<Kept> + Drop>(
    rt: &impl Abort,
    alloc: Global,
    pair: &mut Pair<S, T>,
    seed: u64,
) -> Result<(), Fail> {
    let mut text = String::new(alloc);
    let result = check_each(rt, alloc, pair, &mut Numbers::from_seed(seed), &mut text);
    drop(text);
    result
}

#[test]
fn random_edits_in_a_tree_equal_a_fresh_layout(rt: HostRuntime) -> Result<(), Fail> {
    check_in_tree(&rt, rt.alloc(), Check::Random(15))
}

#[test]
fn random_edits_in_a_list_equal_a_fresh_layout(rt: HostRuntime) -> Result<(), Fail> {
    check_over::<VecStore<Kept>, VecStore<Kept>>(&rt, rt.alloc(), Check::Random(16))
}
