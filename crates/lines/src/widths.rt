//! The widths of characters and of tabs in a line, and tests for text whose characters all have one column.
ghost use Rattle.std.specs.Prelude.{◌≡◌, ◌+◌, ◌*◌, ◌%◌, ◌^◌, ◌<◌, ◌≤◌, ℕ, None, Some, length, option_map};
ghost use Rattle.std.specs.Prelude.{slice_index, sum, take, IfSome};
ghost use Rattle.std.specs.List.{list_all};
ghost use Rattle.lines.specs.CharInfos.{columns_of};
ghost use Rattle.lines.specs.Clusters.{lies_in};
ghost use Rattle.lines.specs.KnownWidths.{is_common, is_printable};
ghost use Rattle.lines.specs.Measures.{known_or};
ghost use Rattle.lines.specs.Tabs.{is_tab, to_stop};
ghost use Rattle.lines.specs.Widths.{widths_of};
ghost use Rattle.lines.specs.declared.engine.TheConstants.{PARAGRAPH_LIMIT};

use unicode_width::UnicodeWidthChar;

/// Returns the width of a character in columns, or 0 if the crate `unicode_width` has no width for it.
pub(crate) fn columns(c: char) -> u8
    ensures value { result ≡ columns_of c }
    ensures few { result ≤ 3 }
{
    // Most characters are ASCII, for which one test is enough.
    let code = c as u32;
    if code >= 0x20 && code < 0x7f {
        return 1;
    }
    match c.width() {
        Some(width) => width as u8,
        None => 0,
    }
}

/// Replaces `widths` with the widths of the characters of a measured line.
pub(crate) fn put_widths(text: &[char], tab_width: u8, advances: &[u32], widths: &mut [u32])
    requires limit { length text.now ≤ PARAGRAPH_LIMIT }
    requires advances { length advances.now ≡ length text.now }
    requires widths { length widths.old ≡ length text.now }
    ensures { widths.new ≡ widths_of tab_width (Some advances.now) text.now }
{
    let mut column = 0;
    let mut k = 0;
    while k < text.len() {
        let size = advances[k] as usize;
        let end = if is_tab(tab_width, text[k]) {
            next_stop(column, size)
        } else {
            column + size
        };
        widths[k] = (end - column) as u32;
        column = end;
        k += 1;
    }
}

/// Returns the width of the character at index `k` of a line. `known` holds the widths of a measured line.
/// For a tab of a line that is not measured, reads back to the previous tab or to the start of the line.
pub(crate) fn width_at(text: &[char], tab_width: u8, known: Option<&[u32]>, k: usize) -> usize
    requires within { k < length text.now }
    requires known { IfSome known (λ list. length list.now ≡ length text.now) }
    ensures value { result ≡ slice_index
        (known_or (option_map (λ list. list.now) known.entry) (widths_of tab_width None text.now)) k }
    ensures few { result < 2 ^ 32 }
{
    match known {
        Some(widths) => widths[k] as usize,
        None => columns_at(text, tab_width, k),
    }
}

// Implements `width_at` for a line that is not measured.
fn columns_at(text: &[char], tab_width: u8, k: usize) -> usize
    requires { k < length text.now }
    ensures value { result ≡ slice_index (widths_of tab_width None text.now) k }
    ensures few { result ≤ 255 }
{
    let c = text[k];
    if !is_tab(tab_width, c) {
        return columns(c) as usize;
    }
    let tab_width = tab_width as usize;
    tab_width - since_stop(text, k) % tab_width
}

/// Returns whether a character moves to a tab stop.
pub(crate) fn is_tab(tab_width: u8, c: char) -> bool
    ensures { result ≡ is_tab tab_width c }
{
    tab_width > 0 && c == '\t'
}

// Returns the total columns of the characters between the last tab before index `k` and `k`, or of all
// characters before `k` if there is no such tab. In both cases, the first of these characters starts at a tab
// stop.
fn since_stop(text: &[char], k: usize) -> usize
    requires { k ≤ length text.now }
    ensures { (tab_width : ℕ) → 0 < tab_width
        → result % tab_width ≡ sum (take k (widths_of tab_width None text.now)) % tab_width }
{
    let mut sum = 0;
    let mut start = k;
    while start > 0 && text[start - 1] != '\t' {
        start -= 1;
        sum += columns(text[start]) as usize;
    }
    sum
}

/// Returns the next tab stop after a column, or the column itself if there are no tab stops.
pub(crate) fn next_stop(column: usize, tab_width: usize) -> usize
    requires columns { column < 2 ^ 60 }
    requires width { tab_width < 2 ^ 32 }
    ensures stop { result ≡ column + to_stop tab_width column }
    ensures most { result ≤ column + tab_width }
{
    if tab_width == 0 {
        column
    } else {
        column + (tab_width - column % tab_width)
    }
}

// The loops of these two functions have no branches, so the compiler can test several characters at a time.

/// Returns whether all characters are printable ASCII.
pub(crate) fn are_printable(text: &[char]) -> bool
    ensures { result ≡ list_all is_printable text.now }
{
    let mut all = true;
    for c in text {
        all &= is_within(*c, ' ', '~');
    }
    all
}

/// Returns whether all characters are printable ASCII, or Latin, Greek, Cyrillic, Hebrew or Arabic letters,
/// or code points between these. All these characters have one column.
pub(crate) fn are_common(text: &[char]) -> bool
    ensures { result ≡ list_all is_common text.now }
{
    let mut all = true;
    for c in text {
        all &= is_within(*c, ' ', '~')
            | (is_within(*c, '\u{AE}', '\u{2FF}')
                | (is_within(*c, '\u{370}', '\u{482}')
                    | (is_within(*c, '\u{5D0}', '\u{5EA}') | is_within(*c, '\u{620}', '\u{64A}'))));
    }
    all
}

fn is_within(c: char, first: char, last: char) -> bool
    ensures { result ≡ lies_in first last c }
{
    (first <= c) & (c <= last)
}
