//! Lays out the paragraphs of a text given in three parts: the text before an edit, the inserted text, and
//! the text after the edit.
ghost use Rattle.std.specs.Prelude.{◌≡◌, ◌+◌, ◌-◌, ◌^◌, ◌<◌, ◌≤◌, ◌∷◌, ◌++◌, true, false, not};
ghost use Rattle.std.specs.Prelude.{length, List, [], ℕ};
ghost use Rattle.std.specs.Prelude.{nat_le, replicate, sum, None, Option, Some, IfOk, IfErr, IsErrOf};
ghost use Rattle.std.specs.Str.{chars};
ghost use Rattle.lines.specs.Engine.{rules_of, LaysOutAtMost, SameRules};
ghost use Rattle.lines.specs.Layouts.{cut_by, layout_of, visuals, with_advances, HaveRoom, IsParagraph};
ghost use Rattle.lines.specs.Matching.{ShareEnds};
ghost use Rattle.lines.specs.Measures.{given_if};
ghost use Rattle.lines.specs.SameKind.{IsEdited};
ghost use Rattle.lines.specs.declared.engine.TheConstants.{PARAGRAPH_LIMIT};
ghost use Rattle.session.specs.Sessions.{IsCountedFor};
ghost use Rattle.session.specs.Edits.{is_within_limit, paragraphs_refusal, room_refusal};
ghost use Rattle.bidi.specs.Cuts.{paragraphs};
ghost use Rattle.session.specs.Joined.{joined_advances, joined_text, AreShared, BecomesBy, IsShared};
ghost use Rattle.session.specs.Kept.{back_advances, front_advances, layouts_of, AreForEach};
ghost use Rattle.session.specs.Sessions.{IsAnswerFor};
ghost use Rattle.session.specs.declared.edits.EditFault.TheVariants.{NoMemory};

use crate::edits::EditFault;
use crate::kept::Kept;
use crate::room::has_room;
use crate::scan::Scan;
use bidi::paragraphs_are_pieces;
use lines::{Engine, PARAGRAPH_LIMIT, Replacement, SharedLines};
use std::alloc::{AllocError, Global};
use stream::push_characters;

// Returns an upper bound on the number of characters in the three parts. Counts the bytes of the inserted
// text instead of its characters.
fn len_at_most(front: &[char], piece: &str, back: &[char]) -> usize
    ensures { result ≡ length front.now + length piece.now + length back.now }
{
    front.len() + piece.len() + back.len()
}

// Returns whether a text is too long for a paragraph.
fn is_long(text: &str) -> bool
    ensures { result ≡ not (nat_le (length (chars text.now)) PARAGRAPH_LIMIT) }
{
    text.chars().count() > PARAGRAPH_LIMIT
}

/// Returns whether any paragraph of a text is too long. Decodes paragraphs until at most `PARAGRAPH_LIMIT`
/// bytes are left. Allocates nothing.
pub fn has_long_in_text(engine: &Engine, text: &str) -> bool
    ensures { result ≡ not (is_within_limit (cut_by (rules_of engine.now)) (chars text.now)) }
{
    paragraphs_are_pieces();
    let mut rest = text;
    while rest.len() > PARAGRAPH_LIMIT {
        let Some(end) = engine.first_cut_in_text(&[], rest) else {
            return is_long(rest);
        };
        let (first, after) = rest.split_at(end);
        if is_long(first) {
            return true;
        }
        rest = after;
    }
    false
}

/// Returns whether any paragraph of the joined text is too long. Allocates nothing.
pub fn has_long(engine: &Engine, front: &[char], piece: &str, back: &[char]) -> bool
    ensures { result ≡ not (is_within_limit (cut_by (rules_of engine.now))
        (front.now ++ (chars piece.now ++ back.now))) }
{
    paragraphs_are_pieces();
    // Fast path: no paragraph is longer than the whole text.
    if len_at_most(front, piece, back) <= PARAGRAPH_LIMIT {
        return false;
    }
    let mut scan = Scan::new();
    scan.take_all(engine, front);
    scan.take_text(engine, piece);
    scan.take_all(engine, back);
    scan.is_long()
}

// Returns whether all three parts are empty.
fn are_empty(front: &[char], piece: &str, back: &[char]) -> bool
    ensures none { result ≡ true → length (front.now ++ (chars piece.now ++ back.now)) ≡ 0 }
    ensures some { result ≡ false → 0 < length (front.now ++ (chars piece.now ++ back.now)) }
{
    if !front.is_empty() {
        return false;
    }
    if !back.is_empty() {
        return false;
    }
    piece.is_empty()
}

/// How the paragraphs of a session are laid out: whether the text is measured, and the width of the lines.
#[derive(Clone, Copy, Debug)]
pub struct Form {
    pub is_measured: bool,
    pub width: u32,
}

/// Part of a paragraph. If the text is measured, there is one advance for each character. Otherwise,
/// `advances` is empty.
#[derive(Clone, Copy, Debug)]
pub struct Part<'a> {
    pub text: &'a [char],
    pub advances: &'a [u32],
}

// Joins the three parts into one text. Allocates at most once.
fn joined(
    alloc: Global,
    engine: &mut Engine,
    front: &[char],
    piece: &str,
    back: &[char],
) -> Result<Vec<char>, AllocError>
    ensures text { IfOk result (λ text. text.items ≡ front.now ++ (chars piece.now ++ back.now)) }
    ensures engine { engine.new ≡ engine.old }
{
    let len = len_at_most(front, piece, back);
    let mut text = engine.take_text(alloc, len);
    text.reserve_exact(len)?;
    text.extend_from_slice(front)?;
    push_characters(piece, &mut text)?;
    text.extend_from_slice(back)?;
    Ok(text)
}

// Returns the advances of a measured text of `len` characters: those before the edit, a 0 for each inserted
// character, and those after the edit.
#[inline(never)] // so that edits of other texts do not clear its frame
fn measured_advances(
    alloc: Global,
    front: &[u32],
    len: usize,
    back: &[u32],
) -> Result<Vec<u32>, AllocError>
    requires { length front.now + length back.now ≤ len }
    ensures { IfOk result (λ list. list.items
        ≡ front.now ++ (replicate (len - length front.now - length back.now) 0 ++ back.now)) }
{
    let mut list = Vec::with_capacity(alloc, len)?;
    list.extend_from_slice(front)?;
    list.resize(len - back.len(), 0)?;
    list.extend_from_slice(back)?;
    Ok(list)
}

// Like `measured_advances`, but returns an empty list if the text is not measured.
fn joined_advances(
    alloc: Global,
    is_measured: bool,
    front: &[u32],
    len: usize,
    back: &[u32],
) -> Result<Vec<u32>, AllocError>
    requires { is_measured ≡ true → length front.now + length back.now ≤ len }
    ensures { IfOk result (λ list. given_if is_measured list.items ≡ given_if is_measured
        (front.now ++ (replicate (len - length front.now - length back.now) 0 ++ back.now))) }
{
    if is_measured {
        measured_advances(alloc, front, len, back)
    } else {
        Ok(Vec::new(alloc))
    }
}

/// Copies one paragraph and lays it out.
pub fn lay_out_one(
    alloc: Global,
    engine: &mut Engine,
    part: &Part<'_>,
    form: Form,
) -> Result<Kept, AllocError>
    requires paragraph { IsParagraph (rules_of engine.old) part.now.text.now }
    requires width { 0 < form.width }
    requires each { AreForEach (given_if form.is_measured part.now.advances.now) part.now.text.now }
    requires room { HaveRoom (given_if form.is_measured part.now.advances.now) }
    ensures ok { IfOk result (λ kept. kept ≡ layout_of (with_advances (rules_of engine.old)
        (given_if form.is_measured part.now.advances.now)) form.width part.now.text.now) }
    ensures rules { SameRules engine.old engine.new }
    ensures counts { LaysOutAtMost (length part.now.text.now) engine.old engine.new }
{
    let text = Vec::from_slice(alloc, part.text)?;
    let advances = Vec::from_slice(alloc, part.advances)?;
    lay_out_owned(alloc, engine, text, advances, form)
}

// Lays out one measured paragraph.
#[inline(never)] // so that other paragraphs do not clear its frame
fn lay_out_measured(
    alloc: Global,
    engine: &mut Engine,
    text: Vec<char>,
    advances: Vec<u32>,
    width: u32,
) -> Result<Kept, AllocError>
    requires paragraph { IsParagraph (rules_of engine.old) text.items }
    requires width { 0 < width }
    requires len { length advances.items ≡ length text.items }
    requires room { sum advances.items < 2 ^ 32 }
    ensures ok { IfOk result (λ kept. kept
        ≡ layout_of (with_advances (rules_of engine.old) (Some advances.items)) width text.items) }
    ensures rules { SameRules engine.old engine.new }
    ensures counts { LaysOutAtMost (length text.items) engine.old engine.new }
{
    let laid = engine.lay_out_measured(alloc, text, advances, width)?;
    Kept::new(alloc, laid)
}

/// Lays out one paragraph, whose text and advances move into the layout.
pub fn lay_out_owned(
    alloc: Global,
    engine: &mut Engine,
    text: Vec<char>,
    advances: Vec<u32>,
    form: Form,
) -> Result<Kept, AllocError>
    requires paragraph { IsParagraph (rules_of engine.old) text.items }
    requires width { 0 < form.width }
    requires each { AreForEach (given_if form.is_measured advances.items) text.items }
    requires room { HaveRoom (given_if form.is_measured advances.items) }
    ensures ok { IfOk result (λ kept. kept ≡ layout_of (with_advances (rules_of engine.old)
        (given_if form.is_measured advances.items)) form.width text.items) }
    ensures rules { SameRules engine.old engine.new }
    ensures counts { LaysOutAtMost (length text.items) engine.old engine.new }
{
    if form.is_measured {
        return lay_out_measured(alloc, engine, text, advances, form.width);
    }
    match engine.lay_out(alloc, text, form.width) {
        Ok(laid) => Kept::new(alloc, laid),
        Err((_, error)) => Err(error),
    }
}

/// A laid-out paragraph, and which of its characters an edit replaces.
#[derive(Clone, Copy, Debug)]
pub struct Edited<'a> {
    pub kept: &'a Kept,
    pub edit: Replacement,
}

/// The paragraphs that an edit makes. If it makes one of a laid-out one, `shared` are lines that are known to
/// be the same in both.
#[derive(Drop)]
pub struct Relaid {
    pub kept: Vec<Kept>,
    pub shared: SharedLines,
}

// Lays out one paragraph that an edit has made of a laid-out one. Its text and advances move into the layout.
// Stores in `shared` which lines are known to be those of the laid-out paragraph.
fn lay_out_edited(
    alloc: Global,
    engine: &mut Engine,
    shared: &mut SharedLines,
    edited: Edited<'_>,
    text: Vec<char>,
    advances: Vec<u32>,
    form: Form,
) -> Result<Kept, AllocError>
    requires edited { BecomesBy (rules_of engine.old) form.width (Some edited) text.items }
    requires paragraph { IsParagraph (rules_of engine.old) text.items }
    requires width { 0 < form.width }
    requires each { AreForEach (given_if form.is_measured advances.items) text.items }
    requires room { HaveRoom (given_if form.is_measured advances.items) }
    ensures ok { IfOk result (λ kept. kept ≡ layout_of (with_advances (rules_of engine.old)
        (given_if form.is_measured advances.items)) form.width text.items) }
    ensures shared { IfOk result (λ kept. ShareEnds (visuals edited.entry.kept.now) (visuals kept)
        shared.new.front shared.new.back) }
    ensures rules { SameRules engine.old engine.new }
    ensures counts { LaysOutAtMost (length text.items) engine.old engine.new }
{
    let Edited { kept: old, edit } = edited;
    let (laid, width) = (old.laid(), form.width);
    let done = if form.is_measured {
        engine.lay_out_measured_edited(alloc, laid, edit, text, advances, width)?
    } else {
        engine.lay_out_edited(alloc, laid, edit, text, width)?
    };
    *shared = done.1;
    Kept::of_edited(alloc, done.0, old, edit)
}

// Lays out one paragraph, with `lay_out_edited` if an edit has made it of a laid-out one.
fn lay_out_single(
    alloc: Global,
    engine: &mut Engine,
    shared: &mut SharedLines,
    edited: Option<Edited<'_>>,
    text: Vec<char>,
    advances: Vec<u32>,
    form: Form,
) -> Result<Kept, AllocError>
    requires edited { BecomesBy (rules_of engine.old) form.width edited text.items }
    requires paragraph { IsParagraph (rules_of engine.old) text.items }
    requires width { 0 < form.width }
    requires each { AreForEach (given_if form.is_measured advances.items) text.items }
    requires room { HaveRoom (given_if form.is_measured advances.items) }
    ensures ok { IfOk result (λ kept. kept ≡ layout_of (with_advances (rules_of engine.old)
        (given_if form.is_measured advances.items)) form.width text.items) }
    ensures shared { IfOk result (λ kept. IsShared edited.entry kept shared.new) }
    ensures rules { SameRules engine.old engine.new }
    ensures counts { LaysOutAtMost (length text.items) engine.old engine.new }
{
    match edited {
        Some(edited) => lay_out_edited(alloc, engine, shared, edited, text, advances, form),
        None => {
            *shared = SharedLines::NONE;
            lay_out_owned(alloc, engine, text, advances, form)
        }
    }
}

// Frees the unused capacity of a list if this capacity exceeds 16 items plus an eighth of the length.
fn trim(list: Vec<char>) -> Vec<char>
    ensures { result.items ≡ list.items }
{
    let mut list = list;
    if list.capacity() - list.len() > list.len() / 8 + 16 {
        list.shrink_to_fit();
    }
    list
}

// Returns whether the text that an edit has made of a paragraph is one paragraph. Tests only the characters
// next to the edited ones, and those.
fn is_still_one(engine: &Engine, edited: &Edited<'_>, text: &[char]) -> bool
    requires some { 0 < length text.now }
    requires paragraph { IsParagraph (rules_of engine.now) edited.now.kept.now.text }
    requires edit { IsEdited edited.now.kept.now.text text.now edited.now.edit }
    ensures { result ≡ true → paragraphs (cut_by (rules_of engine.now)) text.now ≡ text.now ∷ [] }
{
    // By this theorem, whether there is a boundary depends only on the two characters next to it.
    paragraphs_are_pieces();
    let edit = edited.edit;
    let end = edit.at + edit.inserted;
    let around = &text[edit.at.saturating_sub(1)..text.len().min(end + 1)];
    match engine.first_cut(around) {
        Some(_) => false,
        None => true,
    }
}

// Returns whether a text is one paragraph. If an edit has made it of a single paragraph, `edited` is that
// paragraph.
fn is_one(engine: &Engine, edited: &Option<Edited<'_>>, width: u32, text: &[char]) -> bool
    requires some { 0 < length text.now }
    requires edited { BecomesBy (rules_of engine.now) width edited.now text.now }
    ensures { result ≡ true → paragraphs (cut_by (rules_of engine.now)) text.now ≡ text.now ∷ [] }
{
    if let Some(edited) = edited {
        if is_still_one(engine, edited, text) {
            return true;
        }
    }
    match engine.first_cut(text) {
        Some(_) => false,
        None => true,
    }
}

// Lays out each paragraph of a nonempty text once. A text that is a single paragraph moves into the layout.
// If an edit has made the text of a single paragraph, `edited` is that paragraph.
fn lay_out(
    alloc: Global,
    engine: &mut Engine,
    edited: Option<Edited<'_>>,
    text: Vec<char>,
    advances: Vec<u32>,
    form: Form,
) -> Result<Relaid, AllocError>
    requires some { 0 < length text.items }
    requires edited { BecomesBy (rules_of engine.old) form.width edited text.items }
    requires within { is_within_limit (cut_by (rules_of engine.old)) text.items ≡ true }
    requires width { 0 < form.width }
    requires each { AreForEach (given_if form.is_measured advances.items) text.items }
    requires room { room_refusal (given_if form.is_measured advances.items)
        (paragraphs (cut_by (rules_of engine.old)) text.items) ≡ None }
    ensures ok { IfOk result (λ done. done.kept.items ≡ layouts_of (with_advances (rules_of engine.old)
        (given_if form.is_measured advances.items)) form.width text.items) }
    ensures shared { IfOk result (λ done. AreShared edited.entry done.kept.items done.shared) }
    ensures rules { SameRules engine.old engine.new }
    ensures counts { LaysOutAtMost (length text.items) engine.old engine.new }
{
    if !is_one(engine, &edited, form.width, &text) {
        let part = Part {
            text: &text,
            advances: &advances,
        };
        let kept = lay_out_each(alloc, engine, &part, form)?;
        let shared = SharedLines::NONE;
        return Ok(Relaid { kept, shared });
    }
    let mut kept = Vec::with_capacity(alloc, 1)?;
    let (text, mut shared) = (trim(text), SharedLines::NONE);
    let one = lay_out_single(alloc, engine, &mut shared, edited, text, advances, form)?;
    kept.push(one)?;
    Ok(Relaid { kept, shared })
}

// Splits the advances of a measured text after those of its first `len` characters. If the text is not
// measured, callers do not use the result.
fn split_advances(is_measured: bool, advances: &[u32], len: usize) -> (&[u32], &[u32])
    requires { is_measured ≡ true → len ≤ length advances.now }
    ensures front { given_if is_measured result.0.now
        ≡ front_advances len (given_if is_measured advances.now) }
    ensures back { given_if is_measured result.1.now
        ≡ back_advances len (given_if is_measured advances.now) }
{
    if is_measured {
        advances.split_at(len)
    } else {
        (advances, advances)
    }
}

// Copies each paragraph of a text and lays it out.
fn lay_out_each(
    alloc: Global,
    engine: &mut Engine,
    whole: &Part<'_>,
    form: Form,
) -> Result<Vec<Kept>, AllocError>
    requires within { is_within_limit (cut_by (rules_of engine.old)) whole.now.text.now ≡ true }
    requires width { 0 < form.width }
    requires each { AreForEach (given_if form.is_measured whole.now.advances.now) whole.now.text.now }
    requires room { room_refusal (given_if form.is_measured whole.now.advances.now)
        (paragraphs (cut_by (rules_of engine.old)) whole.now.text.now) ≡ None }
    ensures ok { IfOk result (λ kept. kept.items ≡ layouts_of (with_advances (rules_of engine.old)
        (given_if form.is_measured whole.now.advances.now)) form.width whole.now.text.now) }
    ensures rules { SameRules engine.old engine.new }
    ensures counts { LaysOutAtMost (length whole.now.text.now) engine.old engine.new }
{
    // By this theorem, the text between two boundaries is one paragraph.
    paragraphs_are_pieces();
    let mut kept = Vec::new(alloc);
    let mut rest = whole.text;
    let mut advances = whole.advances;
    while let Some(end) = engine.first_cut(rest) {
        let (first, after) = rest.split_at(end);
        let (own, others) = split_advances(form.is_measured, advances, end);
        let part = Part {
            text: first,
            advances: own,
        };
        kept.push(lay_out_one(alloc, engine, &part, form)?)?;
        rest = after;
        advances = others;
    }
    if !rest.is_empty() {
        let part = Part {
            text: rest,
            advances,
        };
        kept.push(lay_out_one(alloc, engine, &part, form)?)?;
    }
    Ok(kept)
}

// Joins the three parts of a nonempty text, and lays out its paragraphs.
fn lay_out_parts(
    alloc: Global,
    engine: &mut Engine,
    edited: Option<Edited<'_>>,
    front: &Part<'_>,
    piece: &str,
    back: &Part<'_>,
    form: Form,
) -> Result<Relaid, AllocError>
    requires some { 0 < length (joined_text front.now piece.now back.now) }
    requires edited { BecomesBy (rules_of engine.old) form.width edited
        (joined_text front.now piece.now back.now) }
    requires width { 0 < form.width }
    requires front { AreForEach (given_if form.is_measured front.now.advances.now) front.now.text.now }
    requires back { AreForEach (given_if form.is_measured back.now.advances.now) back.now.text.now }
    requires allowed { paragraphs_refusal (cut_by (rules_of engine.old))
        (joined_advances form.is_measured front.now piece.now back.now)
        (joined_text front.now piece.now back.now) ≡ None }
    ensures ok { IfOk result (λ done. done.kept.items ≡ layouts_of (with_advances (rules_of engine.old)
        (joined_advances form.is_measured front.now piece.now back.now)) form.width
        (joined_text front.now piece.now back.now)) }
    ensures shared { IfOk result (λ done. AreShared edited.entry done.kept.items done.shared) }
    ensures rules { SameRules engine.old engine.new }
    ensures counts { LaysOutAtMost (length (joined_text front.now piece.now back.now))
        engine.old engine.new }
{
    let text = joined(alloc, engine, front.text, piece, back.text)?;
    let (is_measured, len) = (form.is_measured, text.len());
    let advances = joined_advances(alloc, is_measured, front.advances, len, back.advances)?;
    lay_out(alloc, engine, edited, text, advances, form)
}

/// Lays out the paragraphs of the joined text, in which inserted characters have advance 0. Fails with
/// `ParagraphTooLong`, without allocating, if a paragraph is too long or the sum of its advances is too
/// large. Fails with `NoMemory` if an allocation fails. If an edit has made the text of a single paragraph,
/// `edited` is that paragraph.
pub fn lay_out_joined(
    alloc: Global,
    engine: &mut Engine,
    edited: Option<Edited<'_>>,
    front: &Part<'_>,
    piece: &str,
    back: &Part<'_>,
    form: Form,
) -> Result<Relaid, EditFault>
    requires edited { BecomesBy (rules_of engine.old) form.width edited
        (joined_text front.now piece.now back.now) }
    requires width { 0 < form.width }
    requires front { AreForEach (given_if form.is_measured front.now.advances.now) front.now.text.now }
    requires back { AreForEach (given_if form.is_measured back.now.advances.now) back.now.text.now }
    ensures allowed { IfOk result (λ done. paragraphs_refusal (cut_by (rules_of engine.old))
        (joined_advances form.is_measured front.now piece.now back.now)
        (joined_text front.now piece.now back.now) ≡ None) }
    ensures ok { IfOk result (λ done. done.kept.items ≡ layouts_of (with_advances (rules_of engine.old)
        (joined_advances form.is_measured front.now piece.now back.now)) form.width
        (joined_text front.now piece.now back.now)) }
    ensures shared { IfOk result (λ done. AreShared edited.entry done.kept.items done.shared) }
    ensures err { IfErr result (IsAnswerFor (paragraphs_refusal (cut_by (rules_of engine.old))
        (joined_advances form.is_measured front.now piece.now back.now)
        (joined_text front.now piece.now back.now))) }
    ensures memory { IsErrOf result NoMemory → 0 < length (joined_text front.now piece.now back.now) }
    ensures rules { SameRules engine.old engine.new }
    ensures counts { LaysOutAtMost (length (joined_text front.now piece.now back.now))
        engine.old engine.new }
    ensures refused { IfErr result (λ fault. IsCountedFor fault (LaysOutAtMost
        (length (joined_text front.now piece.now back.now))) engine.old engine.new) }
{
    if has_long(engine, front.text, piece, back.text) {
        return Err(EditFault::ParagraphTooLong);
    }
    if form.is_measured && !has_room(engine, front, piece, back) {
        return Err(EditFault::ParagraphTooLong);
    }
    if are_empty(front.text, piece, back.text) {
        return Ok(Relaid {
            kept: Vec::new(alloc),
            shared: SharedLines::NONE,
        });
    }
    match lay_out_parts(alloc, engine, edited, front, piece, back, form) {
        Ok(done) => Ok(done),
        Err(_) => Err(EditFault::NoMemory),
    }
}
