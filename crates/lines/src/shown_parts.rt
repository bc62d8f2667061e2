//! How much of each line is shown: all but its tail, or also the spaces of the tail that end within a margin.
ghost use Rattle.std.specs.Prelude.{◌≡◌, ◌^◌, ◌<◌, ◌≤◌, ℕ, Some, OnOk};
ghost use Rattle.std.specs.Prelude.{◌++◌, List, Option, length, take, slice_index};
ghost use Rattle.lines.specs.CharInfos.{sized};
ghost use Rattle.lines.specs.Extents.{in_pairs, shown_between, shown_from};
ghost use Rattle.lines.specs.Filling.{before_tail, columns, text_len};
ghost use Rattle.lines.specs.Kept.{AreStarts};
ghost use Rattle.lines.specs.ShownParts.{shown};
ghost use Rattle.lines.specs.Visual.{end_of};
ghost use Rattle.lines.specs.declared.engine.TheConstants.{PARAGRAPH_LIMIT};

use crate::char_info::{CharInfo, GROUP};
use crate::extents::end_of;
use crate::fill::Shown;
use crate::reserve::reserve;
use crate::sizes::Sizes;
use std::alloc::AllocError;

/// Appends the length and the columns of each line's shown part to `items`, which holds the starts of the
/// lines. The shown part is the line without its tail, plus the spaces of the tail that end within the
/// margin.
pub(crate) fn fill_shown<S: Sizes>(
    infos: &[CharInfo],
    sizes: S,
    margin: Option<u32>,
    items: &mut Vec<u32>,
) -> Result<(), AllocError>
    requires len { length infos.now ≤ PARAGRAPH_LIMIT }
    requires room { (k : ℕ) → k ≤ length infos.now → S.most sizes k < 2 ^ 32 }
    requires starts { AreStarts (length infos.now) items.old.items }
    ensures { OnOk result (items.new.items ≡ items.old.items
        ++ in_pairs (shown_from margin (length infos.now) (sized (S.given sizes) infos.now)
        items.old.items)) }
{
    let count = items.len();
    reserve(items, count.saturating_mul(3))?;
    let mut k = 0;
    while k < count {
        let shown = shown_at(infos, sizes, margin, &items[..count], k);
        items.push(shown.len)?;
        items.push(shown.columns)?;
        k += 1;
    }
    Ok(())
}

// Returns how much of line `k` is shown, given where each line starts.
fn shown_at<S: Sizes>(
    infos: &[CharInfo],
    sizes: S,
    margin: Option<u32>,
    starts: &[u32],
    k: usize,
) -> Shown
    requires len { length infos.now ≤ PARAGRAPH_LIMIT }
    requires room { (k : ℕ) → k ≤ length infos.now → S.most sizes k < 2 ^ 32 }
    requires starts { AreStarts (length infos.now) starts.now }
    requires k { k < length starts.now }
    ensures { result ≡ shown_between margin (sized (S.given sizes) infos.now) (slice_index starts.now k)
        (end_of (length infos.now) starts.now k) }
{
    let start = starts[k] as usize;
    let end = end_of(starts, k, infos.len());
    shown_of(&infos[start..end], sizes.from(start), margin)
}

// Returns how much of a line is shown: the characters before the tail and, if there is a margin, the spaces
// that follow them and end within it.
fn shown_of<S: Sizes>(line: &[CharInfo], sizes: S, margin: Option<u32>) -> Shown
    requires len { length line.now ≤ PARAGRAPH_LIMIT }
    requires room { (k : ℕ) → k ≤ length line.now → S.most sizes k < 2 ^ 32 }
    ensures len { result.len ≡ length (shown margin (sized (S.given sizes) line.now)) }
    ensures columns { result.columns ≡ columns (shown margin (sized (S.given sizes) line.now)) }
    ensures within { result.len ≤ length line.now }
{
    let len = text_len(line);
    let text = Shown {
        len: len as u32,
        columns: columns(line, sizes, len),
    };
    match margin {
        Some(margin) => with_spaces(line, sizes, text, margin),
        None => text,
    }
}

// Returns how much of a line is shown: the characters before the tail, given as `text`, and the spaces that
// follow them and end within the margin.
fn with_spaces<S: Sizes>(line: &[CharInfo], sizes: S, text: Shown, margin: u32) -> Shown
    requires limit { length line.now ≤ PARAGRAPH_LIMIT }
    requires room { (k : ℕ) → k ≤ length line.now → S.most sizes k < 2 ^ 32 }
    requires len { text.len ≡ text_len (sized (S.given sizes) line.now) }
    requires columns { text.columns ≡ columns (before_tail (sized (S.given sizes) line.now)) }
    requires few { text.columns ≤ S.most sizes text.len }
    ensures len { result.len ≡ length (shown (Some margin) (sized (S.given sizes) line.now)) }
    ensures columns { result.columns ≡ columns (shown (Some margin) (sized (S.given sizes) line.now)) }
    ensures within { result.len ≤ length line.now }
{
    let mut len = text.len as usize;
    let mut columns = text.columns;
    while len < line.len() {
        let info = line[len];
        let size = sizes.size(line, len);
        if !info.is_space_within(size, columns, margin) {
            break;
        }
        columns = info.advance(size, columns as usize) as u32;
        len += 1;
    }
    Shown {
        len: len as u32,
        columns,
    }
}

// Returns the number of characters before the tail.
fn text_len(line: &[CharInfo]) -> usize
    ensures len { (advances : Option (List ℕ)) → result ≡ text_len (sized advances line.now) }
    ensures within { result ≤ length line.now }
{
    let mut len = line.len();
    while len > 0 && line[len - 1].trailing.may_trail() {
        len -= 1;
    }
    len
}

// Returns the width of the first `len` characters of a line.
fn columns<S: Sizes>(line: &[CharInfo], sizes: S, len: usize) -> u32
    requires limit { length line.now ≤ PARAGRAPH_LIMIT }
    requires room { (k : ℕ) → k ≤ length line.now → S.most sizes k < 2 ^ 32 }
    requires within { len ≤ length line.now }
    ensures sum { result ≡ columns (take len (sized (S.given sizes) line.now)) }
    ensures most { result ≤ S.most sizes len }
{
    let mut columns = 0;
    let mut k = 0;
    while k + GROUP <= len {
        let Some(group) = sizes.group(line, k) else {
            break;
        };
        if group.has_tab {
            break;
        }
        columns += group.columns;
        k += GROUP;
    }
    columns_after(line, sizes, len, k, columns)
}

// Implements `columns`, given the width of the first `known` characters.
fn columns_after<S: Sizes>(
    line: &[CharInfo],
    sizes: S,
    len: usize,
    known: usize,
    before: u32,
) -> u32
    requires limit { length line.now ≤ PARAGRAPH_LIMIT }
    requires room { (k : ℕ) → k ≤ length line.now → S.most sizes k < 2 ^ 32 }
    requires within { (known ≤ len) × (len ≤ length line.now) }
    requires sum { before ≡ columns (take known (sized (S.given sizes) line.now)) }
    requires most { before ≤ S.most sizes known }
    ensures sum { result ≡ columns (take len (sized (S.given sizes) line.now)) }
    ensures most { result ≤ S.most sizes len }
{
    let mut columns = before;
    let mut k = known;
    while k < len {
        columns = line[k].advance(sizes.size(line, k), columns as usize) as u32;
        k += 1;
    }
    columns
}
