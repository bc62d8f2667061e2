//! Lays out the paragraphs of a text that a session is opened on. Each paragraph is decoded on its own, and
//! the layouts are put into the store in batches. So besides the store, opening needs little memory.
ghost use Rattle.std.specs.Prelude.{◌≡◌, ◌<◌, ◌∷◌, ◌++◌, ℕ, [], true, length, nat_lt};
ghost use Rattle.std.specs.Prelude.{List, IfOk, IsUtf8, OnOk};
ghost use Rattle.std.specs.Str.{chars};
ghost use Rattle.bidi.specs.Cuts.{paragraphs};
ghost use Rattle.lines.specs.Engine.{rules_of, LaysOutAtMost, SameRules};
ghost use Rattle.lines.specs.Layouts.{cut_by, layout_of, with_advances, IsParagraph};
ghost use Rattle.lines.specs.Measures.{given_if};
ghost use Rattle.session.specs.Edits.{is_within_limit};
ghost use Rattle.session.specs.Kept.{first_advances, layouts_of, TotalsFit};
ghost use Rattle.session.specs.Offsets.{length_in};
ghost use Rattle.session.specs.declared.edits.TheConstants.{TEXT_LIMIT};
ghost use Rattle.session.specs.declared.offsets.Encoding.TheVariants.{Utf8};

use crate::edits::TEXT_LIMIT;
use crate::joined::{Form, Part, lay_out_one, lay_out_owned};
use crate::kept::Kept;
use bidi::paragraphs_are_pieces;
use lines::Engine;
use std::alloc::{AllocError, Global};
use store::ParagraphStore;
use stream::push_characters;

// The number of layouts that are put into the store at a time.
const BATCH: usize = 1_024;

/// Returns whether a text has too many characters.
pub fn is_too_long(text: &str) -> bool
    ensures { result ≡ nat_lt TEXT_LIMIT (length (chars text.now)) }
{
    // Fast path: a text has at most as many characters as bytes.
    if text.len() <= TEXT_LIMIT {
        return false;
    }
    text.chars().count() > TEXT_LIMIT
}

// Replaces the characters of a list with those of a text.
fn decoded(list: Vec<char>, text: &str) -> Result<Vec<char>, AllocError>
    ensures { IfOk result (λ list. list.items ≡ chars text.now) }
{
    let mut list = list;
    list.clear();
    push_characters(text, &mut list)?;
    Ok(list)
}

// Splits a text after its first paragraph.
fn split_first<'a>(engine: &Engine, text: &'a str) -> (&'a str, &'a str)
    requires { 0 < length text.now }
    ensures text { IsUtf8 result.0.now × IsUtf8 result.1.now }
    ensures shorter { length result.1.now < length text.now }
    ensures paragraphs { paragraphs (cut_by (rules_of engine.now)) (chars text.now)
        ≡ chars result.0.now ∷ paragraphs (cut_by (rules_of engine.now)) (chars result.1.now) }
{
    match engine.first_cut_in_text(&[], text) {
        Some(end) => text.split_at(end),
        None => (text, ""),
    }
}

// Copies a list if much of its capacity is unused. Shrinking the list in place would split its memory block,
// so the next list of that capacity could not reuse the block. A short text of two bytes a character is not
// copied.
fn fitted(alloc: Global, list: Vec<char>) -> Result<Vec<char>, AllocError>
    ensures { IfOk result (λ fitted. fitted.items ≡ list.items) }
{
    if list.capacity() - list.len() > list.len() / 8 + 32 {
        return Vec::from_slice(alloc, &list);
    }
    Ok(list)
}

// Returns whether a text is one paragraph.
fn is_one(engine: &Engine, text: &str) -> bool
    ensures { result ≡ true
        → paragraphs (cut_by (rules_of engine.now)) (chars text.now) ≡ chars text.now ∷ [] }
{
    if text.is_empty() {
        return false;
    }
    match engine.first_cut_in_text(&[], text) {
        Some(_) => false,
        None => true,
    }
}

// Appends layouts to a store.
fn append<S: ParagraphStore<Kept>>(store: &mut S, new: Vec<Kept>) -> Result<(), AllocError>
    requires { TotalsFit (S.items store.old ++ new.items) }
    ensures { OnOk result (S.items store.new ≡ S.items store.old ++ new.items) }
{
    let count = store.count();
    match store.replace(count..count, new) {
        Ok(_) => Ok(()),
        Err((_, error)) => Err(error),
    }
}

// Appends one layout to a store.
fn push<S: ParagraphStore<Kept>>(store: &mut S, kept: Kept) -> Result<(), AllocError>
    requires { TotalsFit (S.items store.old ++ kept ∷ []) }
    ensures { OnOk result (S.items store.new ≡ S.items store.old ++ kept ∷ []) }
{
    match store.push(kept) {
        Ok(()) => Ok(()),
        Err((_, error)) => Err(error),
    }
}

// If there are enough layouts for a batch, appends all of them to a store and returns an empty list.
// Otherwise, returns the layouts.
fn append_batch<S: ParagraphStore<Kept>>(
    alloc: Global,
    store: &mut S,
    new: Vec<Kept>,
) -> Result<Vec<Kept>, AllocError>
    requires { TotalsFit (S.items store.old ++ new.items) }
    ensures { IfOk result (λ left. S.items store.new ++ left.items ≡ S.items store.old ++ new.items) }
{
    if new.len() < BATCH {
        return Ok(new);
    }
    append(store, new)?;
    Ok(Vec::new(alloc))
}

// Replaces the contents of a list with the advances of a new paragraph: `len` zeros. Does nothing if the
// paragraph is not measured.
fn zeros(list: Vec<u32>, is_measured: bool, len: usize) -> Result<Vec<u32>, AllocError>
    ensures { IfOk result (λ list. given_if is_measured list.items ≡ first_advances is_measured len) }
{
    let mut list = list;
    if is_measured {
        list.clear();
        list.resize(len, 0)?;
    }
    Ok(list)
}

// Lays out a new paragraph. If it is measured, `advances` must hold a 0 for each of its characters.
fn lay_out_new(
    alloc: Global,
    engine: &mut Engine,
    text: &[char],
    advances: &[u32],
    form: Form,
) -> Result<Kept, AllocError>
    requires paragraph { IsParagraph (rules_of engine.old) text.now }
    requires width { 0 < form.width }
    requires zeros { given_if form.is_measured advances.now
        ≡ first_advances form.is_measured (length text.now) }
    ensures ok { IfOk result (λ kept. kept ≡ layout_of (with_advances (rules_of engine.old)
        (first_advances form.is_measured (length text.now))) form.width text.now) }
    ensures rules { SameRules engine.old engine.new }
    ensures counts { LaysOutAtMost (length text.now) engine.old engine.new }
{
    let part = Part { text, advances };
    lay_out_one(alloc, engine, &part, form)
}

// Like `lay_out_new`, but moves the characters and the advances into the layout. `bytes` is the length of the
// text in UTF-8.
fn lay_out_moved(
    alloc: Global,
    engine: &mut Engine,
    text: Vec<char>,
    bytes: usize,
    advances: Vec<u32>,
    form: Form,
) -> Result<Kept, AllocError>
    requires paragraph { IsParagraph (rules_of engine.old) text.items }
    requires width { 0 < form.width }
    requires bytes { bytes ≡ length_in Utf8 text.items }
    requires zeros { given_if form.is_measured advances.items
        ≡ first_advances form.is_measured (length text.items) }
    ensures ok { IfOk result (λ kept. kept ≡ layout_of (with_advances (rules_of engine.old)
        (first_advances form.is_measured (length text.items))) form.width text.items) }
    ensures rules { SameRules engine.old engine.new }
    ensures counts { LaysOutAtMost (length text.items) engine.old engine.new }
{
    if form.is_measured {
        return lay_out_owned(alloc, engine, text, advances, form);
    }
    let laid = engine.lay_out_boxed(alloc, text, form.width)?;
    Ok(Kept::of_box(laid, bytes))
}

// Lays out a text that is one paragraph, and appends its layout to a store. If the text is measured, all
// advances are 0. The characters move into the layout.
fn append_one<S: ParagraphStore<Kept>>(
    alloc: Global,
    engine: &mut Engine,
    store: &mut S,
    text: &str,
    form: Form,
) -> Result<(), AllocError>
    requires paragraph { IsParagraph (rules_of engine.old) (chars text.now) }
    requires width { 0 < form.width }
    requires fit { TotalsFit (S.items store.old ++ layout_of (with_advances (rules_of engine.old)
        (first_advances form.is_measured (length (chars text.now)))) form.width (chars text.now) ∷ []) }
    ensures ok { OnOk result (S.items store.new ≡ S.items store.old
        ++ layout_of (with_advances (rules_of engine.old)
        (first_advances form.is_measured (length (chars text.now)))) form.width (chars text.now) ∷ []) }
    ensures rules { SameRules engine.old engine.new }
    ensures counts { LaysOutAtMost (length (chars text.now)) engine.old engine.new }
{
    let list = decoded(Vec::new(alloc), text)?;
    let characters = fitted(alloc, list)?;
    let advances = zeros(Vec::new(alloc), form.is_measured, characters.len())?;
    let kept = lay_out_moved(alloc, engine, characters, text.len(), advances, form)?;
    push(store, kept)
}

/// Lays out each paragraph of a text once, and appends the layouts to a store. Every paragraph must be within
/// the length limit. If the text is measured, all advances are 0.
pub fn append_all<S: ParagraphStore<Kept>>(
    alloc: Global,
    engine: &mut Engine,
    store: &mut S,
    text: &str,
    form: Form,
) -> Result<(), AllocError>
    requires within { is_within_limit (cut_by (rules_of engine.old)) (chars text.now) ≡ true }
    requires width { 0 < form.width }
    requires fit { TotalsFit (S.items store.old ++ layouts_of (with_advances (rules_of engine.old)
        (first_advances form.is_measured (length (chars text.now)))) form.width (chars text.now)) }
    ensures ok { OnOk result (S.items store.new ≡ S.items store.old
        ++ layouts_of (with_advances (rules_of engine.old)
        (first_advances form.is_measured (length (chars text.now)))) form.width (chars text.now)) }
    ensures rules { SameRules engine.old engine.new }
    ensures counts { LaysOutAtMost (length (chars text.now)) engine.old engine.new }
{
    // By this theorem, the text between two boundaries is one paragraph.
    paragraphs_are_pieces();
    if is_one(engine, text) {
        return append_one(alloc, engine, store, text, form);
    }
    let mut new = Vec::new(alloc);
    let mut list = Vec::new(alloc);
    let mut advances = Vec::new(alloc);
    let mut rest = text;
    while !rest.is_empty() {
        let (first, after) = split_first(engine, rest);
        list = decoded(list, first)?;
        advances = zeros(advances, form.is_measured, list.len())?;
        new.push(lay_out_new(alloc, engine, &list, &advances, form)?)?;
        new = append_batch(alloc, store, new)?;
        rest = after;
    }
    append(store, new)
}
