//! Finds the paragraphs of a store that an edit touches, using the store's sums.
ghost use Rattle.std.specs.Prelude.{◌≡◌, ◌+◌, ◌-◌, ◌≤◌, List, [], ℕ, Some, length, take, drop};
ghost use Rattle.std.specs.Prelude.{option_map, slice_get, slice_index_or, unwrap_or};
ghost use Rattle.lines.specs.Layouts.{Layout};
ghost use Rattle.session.specs.Borders.{IsBackBorder, IsBorder, IsFrontBorder};
ghost use Rattle.session.specs.Kept.{advance_lists, pars_of, text_of};

use crate::joined::Part;
use crate::kept::Kept;
use store::{Measured, ParagraphStore};

/// The start of a paragraph or the end of the text: how many paragraphs, characters and lines come before it.
#[derive(Clone, Copy, Debug)]
pub struct Border {
    pub index: usize,
    pub chars: usize,
    pub lines: usize,
}

/// Returns the start of the first paragraph that is touched by an edit starting at `pos`.
pub fn front_border<S: ParagraphStore<Kept>>(store: &S, pos: usize) -> Border
    requires { pos ≤ length (text_of (S.items store.now)) }
    ensures { IsFrontBorder (S.items store.now) pos result }
{
    if pos == 0 {
        return Border {
            index: 0,
            chars: 0,
            lines: 0,
        };
    }
    let found = store.find_char(pos - 1);
    Border {
        index: found.index,
        chars: pos - 1 - found.rest,
        lines: found.lines_before,
    }
}

/// The end of the last paragraph that an edit touches, and this paragraph, or `None` if there is none.
#[derive(Clone, Copy, Debug)]
pub struct LastTouched<'a> {
    pub end: Border,
    pub kept: Option<&'a Kept>,
}

// Returns the end of the paragraph that starts at a border.
fn end_of<S: ParagraphStore<Kept>>(store: &S, start: Border, kept: &Kept) -> Border
    requires start { IsBorder (S.items store.now) start }
    requires kept { Some kept.now ≡ slice_get (S.items store.now) start.index }
    ensures end { IsBorder (S.items store.now) result }
    ensures index { result.index ≡ start.index + 1 }
{
    // The contracts of these calls bound the sums.
    let (_count, _chars, _lines) = (store.count(), store.total_chars(), store.total_lines());
    Border {
        index: start.index + 1,
        chars: start.chars + kept.chars(),
        lines: start.lines + kept.lines(),
    }
}

// Searches for the last paragraph that is touched by an edit ending at `to`.
fn find_last_touched<S: ParagraphStore<Kept>>(store: &S, to: usize) -> LastTouched<'_>
    requires { to ≤ length (text_of (S.items store.now)) }
    ensures end { IsBackBorder (S.items store.now) to result.end }
    ensures kept { option_map (λ kept. kept.now) result.kept
        ≡ slice_get (S.items store.now) (result.end.index - 1) }
{
    // The contracts of these calls bound the sums.
    let (count, chars, lines) = (store.count(), store.total_chars(), store.total_lines());
    if to == chars {
        return LastTouched {
            end: Border {
                index: count,
                chars,
                lines,
            },
            kept: store.get(count.saturating_sub(1)),
        };
    }
    let found = store.find_char(to);
    match store.get(found.index) {
        Some(kept) => LastTouched {
            end: Border {
                index: found.index + 1,
                chars: to - found.rest + kept.chars(),
                lines: found.lines_before + kept.lines(),
            },
            kept: Some(kept),
        },
        None => unreachable!(),
    }
}

/// Returns the last paragraph that is touched by an edit ending at `to`, given the first touched paragraph.
pub fn last_touched<'a, S: ParagraphStore<Kept>>(
    store: &'a S,
    front: Border,
    first: Option<&'a Kept>,
    to: usize,
) -> LastTouched<'a>
    requires front { IsBorder (S.items store.now) front }
    requires first { option_map (λ kept. kept.now) first ≡ slice_get (S.items store.now) front.index }
    requires to { to ≤ length (text_of (S.items store.now)) }
    ensures end { IsBackBorder (S.items store.now) to result.end }
    ensures kept { option_map (λ kept. kept.now) result.kept
        ≡ slice_get (S.items store.now) (result.end.index - 1) }
{
    // Fast path: if the edit ends in the first paragraph that it touches or in the next one, no search is
    // needed.
    let Some(kept) = first else {
        return find_last_touched(store, to);
    };
    if to < front.chars {
        return find_last_touched(store, to);
    }
    let end = end_of(store, front, kept);
    if to < end.chars {
        return LastTouched { end, kept: first };
    }
    let second = store.get(end.index);
    let Some(kept) = second else {
        return LastTouched { end, kept: first };
    };
    let end = end_of(store, end, kept);
    if to < end.chars {
        return LastTouched { end, kept: second };
    }
    find_last_touched(store, to)
}

/// Returns the first `to` items, or all if there are fewer.
pub fn front<T: Copy>(items: &[T], to: usize) -> &[T]
    ensures { result.now ≡ take to items.now }
{
    &items[..to.min(items.len())]
}

/// Returns the items from an index on, or none if the index is past the end.
pub fn back<T: Copy>(items: &[T], from: usize) -> &[T]
    ensures { result.now ≡ drop from items.now }
{
    &items[from.min(items.len())..]
}

// Returns the advances of a paragraph, or an empty slice if it is not measured.
fn advances_of(kept: &Kept) -> &[u32]
    ensures { result.now ≡ unwrap_or kept.now.advances [] }
{
    match kept.laid().advances() {
        Some(advances) => advances,
        None => &[],
    }
}

/// Returns the characters before `pos` in the paragraph that starts at a border, with their advances. Without
/// a paragraph, the part is empty.
pub fn front_part(first: Option<&Kept>, border: Border, pos: usize) -> Part<'_>
    ensures text { (kept : List Layout)
        → option_map (λ kept. kept.now) first.entry ≡ slice_get kept border.index
        → result.text.now ≡ take (pos - border.chars) (slice_index_or (pars_of kept) border.index []) }
    ensures advances { (kept : List Layout)
        → option_map (λ kept. kept.now) first.entry ≡ slice_get kept border.index
        → result.advances.now
        ≡ take (pos - border.chars) (slice_index_or (advance_lists kept) border.index []) }
{
    match first {
        Some(kept) => {
            let len = pos.saturating_sub(border.chars);
            Part {
                text: front(kept.laid().text(), len),
                advances: front(advances_of(kept), len),
            }
        }
        None => Part {
            text: &[],
            advances: &[],
        },
    }
}

/// Returns the characters at and after `from` in the last touched paragraph, with their advances. Without a
/// paragraph, the part is empty.
pub fn back_part(last: LastTouched<'_>, from: usize) -> Part<'_>
    ensures text { (kept : List Layout)
        → option_map (λ kept. kept.now) last.entry.kept ≡ slice_get kept (last.entry.end.index - 1)
        → (text : List ℕ) → text ≡ slice_index_or (pars_of kept) (last.entry.end.index - 1) []
        → result.text.now ≡ drop (length text - (last.entry.end.chars - from)) text }
    ensures advances { (kept : List Layout)
        → option_map (λ kept. kept.now) last.entry.kept ≡ slice_get kept (last.entry.end.index - 1)
        → (list : List ℕ) → list ≡ slice_index_or (advance_lists kept) (last.entry.end.index - 1) []
        → result.advances.now ≡ drop (length list - (last.entry.end.chars - from)) list }
{
    match last.kept {
        Some(kept) => {
            let len = last.end.chars.saturating_sub(from);
            let (text, advances) = (kept.laid().text(), advances_of(kept));
            Part {
                text: back(text, text.len().saturating_sub(len)),
                advances: back(advances, advances.len().saturating_sub(len)),
            }
        }
        None => Part {
            text: &[],
            advances: &[],
        },
    }
}
