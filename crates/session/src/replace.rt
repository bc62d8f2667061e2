//! Edits the text in a store. Everything that can fail happens before the store is changed.
ghost use Rattle.std.specs.Prelude.{◌≡◌, ◌+◌, ◌-◌, ◌^◌, ◌<◌, ◌≤◌, List, ℕ, length, sum_by};
ghost use Rattle.std.specs.Prelude.{option_map, IfOk, IfErr, IfSome, IsErrOf, OnOk, OnErr};
ghost use Rattle.std.specs.List.{splice};
ghost use Rattle.std.specs.Str.{chars};
ghost use Rattle.session.specs.Changes.{AreFound, AreKnown};
ghost use Rattle.session.specs.Sessions.{state_of, Edits, EditsNot, IsWholeLayout};
ghost use Rattle.session.specs.Edits.{replacing};
ghost use Rattle.session.specs.Kept.{text_of};
ghost use Rattle.session.specs.Offsets.{length_in};
ghost use Rattle.session.specs.declared.offsets.Encoding.TheVariants.{Utf8, Utf16};
ghost use Rattle.session.specs.Borders.{damage_between, IsBorder, IsTouchedAlone};
ghost use Rattle.session.specs.declared.edits.EditFault.TheVariants.{NoMemory};

use crate::borders::{Border, back_part, front_border, front_part, last_touched};
use crate::changed::{same_ends, without_same};
use crate::edits::{ChangedLines, Damage, EditFault, TEXT_LIMIT, TextRange};
use crate::joined::{Edited, Form, Relaid, lay_out_joined};
use crate::kept::Kept;
use bidi::paragraphs_are_pieces;
use lines::{Engine, Replacement, SharedLines, lines_are_few};
use std::alloc::Global;
use store::ParagraphStore;

// Moves the lists of the last replaced paragraph into the engine, which reuses them.
fn recycle(engine: &mut Engine, old: Vec<Kept>)
    ensures { engine.new ≡ engine.old }
{
    let mut old = old;
    if let Some(kept) = old.pop() {
        engine.recycle(kept.into_laid());
    }
}

/// Replaces the paragraphs between two borders, and stores in `changed` which lines this changed. If one
/// paragraph replaces one other, `shared` are lines that are known to be the same. Returns the damage. If an
/// allocation fails, changes nothing and fails with `NoMemory`.
pub fn put<S: ParagraphStore<Kept>>(
    engine: &mut Engine,
    store: &mut S,
    changed: &mut ChangedLines,
    front: Border,
    back: Border,
    new: Vec<Kept>,
    shared: SharedLines,
) -> Result<Damage, EditFault>
    requires front { IsBorder (S.items store.old) front }
    requires back { IsBorder (S.items store.old) back }
    requires order { front.index ≤ back.index }
    requires chars_fit { sum_by (λ l. length l.text)
        (splice (S.items store.old) front.index back.index new.items) < 2 ^ 64 }
    requires lines_fit { sum_by (λ l. length l.lines)
        (splice (S.items store.old) front.index back.index new.items) < 2 ^ 64 }
    requires bytes_fit { sum_by (λ l. length_in Utf8 l.text)
        (splice (S.items store.old) front.index back.index new.items) < 2 ^ 64 }
    requires utf16_fit { sum_by (λ l. length_in Utf16 l.text)
        (splice (S.items store.old) front.index back.index new.items) < 2 ^ 64 }
    requires shared { AreKnown (S.items store.old) front.index back.index new.items shared }
    ensures ok { OnOk result
        (S.items store.new ≡ splice (S.items store.old) front.index back.index new.items) }
    ensures damage { IfOk result (λ damage. damage ≡ damage_between front back new.items) }
    ensures changed { IfOk result (λ damage.
        AreFound (S.items store.old) (S.items store.new) damage changed.new) }
    ensures err { OnErr result (S.items store.new ≡ S.items store.old) }
    ensures kept { OnErr result (changed.new ≡ changed.old) }
    ensures fault { IfErr result (λ fault. fault ≡ NoMemory) }
    ensures memory { OnErr result (0 < back.index - front.index + length new.items) }
    ensures engine { engine.new ≡ engine.old }
{
    let old_lines = back.lines - front.lines;
    let (first, end) = (front.index, back.index);
    let same = same_ends(store, first, end, old_lines, &new, shared);
    let (total, new_pars) = (store.total_lines(), new.len());
    match store.replace(front.index..back.index, new) {
        Ok(old) => recycle(engine, old),
        Err(_) => return Err(EditFault::NoMemory),
    }
    let damage = Damage {
        first_line: front.lines,
        old_lines,
        new_lines: store.total_lines() - (total - old_lines),
        first_par: front.index,
        old_pars: back.index - front.index,
        new_pars,
    };
    *changed = without_same(damage, same.start, same.end);
    Ok(damage)
}

// Returns the paragraph that an edit touches if it is the only one, and otherwise `None`. The edit replaces
// the characters of a range with `inserted` characters. `first` is the first touched paragraph, and `front`
// and `back` are the borders around the touched paragraphs.
fn edited_paragraph(
    first: Option<&Kept>,
    front: Border,
    back: Border,
    range: TextRange,
    inserted: usize,
) -> Option<Edited<'_>>
    requires { front.chars ≤ range.pos }
    ensures { IfSome result
        (IsTouchedAlone (option_map (λ kept. kept.now) first.entry) front back range inserted) }
{
    if back.index <= front.index || back.index - front.index > 1 {
        return None;
    }
    let kept = first?;
    Some(Edited {
        kept,
        edit: Replacement {
            at: range.pos - front.chars,
            removed: range.count,
            inserted,
        },
    })
}

/// Replaces the characters of a range with `piece`. Fails with the first of `OutOfRange`, `TextTooLong` and
/// `ParagraphTooLong` that applies, or with `NoMemory` if an allocation fails.
pub fn replace<S: ParagraphStore<Kept>>(
    alloc: Global,
    engine: &mut Engine,
    store: &mut S,
    changed: &mut ChangedLines,
    form: Form,
    range: TextRange,
    piece: &str,
) -> Result<Damage, EditFault>
    requires { IsWholeLayout (state_of engine.old form.width form.is_measured (S.items store.old)) }
    ensures ok { IfOk result (Edits (replacing range.pos range.count (chars piece.now))
        (state_of engine.old form.width form.is_measured (S.items store.old))
        (state_of engine.new form.width form.is_measured (S.items store.new))) }
    ensures err { IfErr result (EditsNot (replacing range.pos range.count (chars piece.now))
        (state_of engine.old form.width form.is_measured (S.items store.old))
        (state_of engine.new form.width form.is_measured (S.items store.new))) }
    ensures changed { IfOk result (λ damage.
        AreFound (S.items store.old) (S.items store.new) damage changed.new) }
    ensures kept { OnErr result (changed.new ≡ changed.old) }
    ensures memory { IsErrOf result NoMemory
        → 0 < length (text_of (S.items store.old)) + length (chars piece.now) }
{
    let TextRange { pos, count } = range;
    let len = store.total_chars();
    if pos > len || count > len - pos {
        return Err(EditFault::OutOfRange);
    }
    let (end, inserted) = (pos + count, piece.chars().count());
    if len - count + inserted > TEXT_LIMIT {
        return Err(EditFault::TextTooLong);
    }
    // By these theorems, the paragraphs that the edit does not touch stay the same, and the sum of lines does
    // not overflow.
    paragraphs_are_pieces();
    lines_are_few();
    let front = front_border(store, pos);
    let first = store.get(front.index);
    let last = last_touched(store, front, first, end);
    let (back, before, after) = (
        last.end,
        front_part(first, front, pos),
        back_part(last, end),
    );
    let edited = edited_paragraph(first, front, back, range, inserted);
    let Relaid { kept, shared } = match lay_out_joined(
        alloc, engine, edited, &before, piece, &after, form,
    ) {
        Ok(done) => done,
        Err(fault) => return Err(fault),
    };
    put(engine, store, changed, front, back, kept, shared)
}
