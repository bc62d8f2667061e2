//! Numbers for the styles of characters: 0 is the default style, and n is the style of the n-th run of a
//! text.
ghost use Rattle.std.specs.Prelude.{◌≡◌, ◌≤◌, ◌<◌, ℕ, drop, length, map, slice_index, slice_range, All, OnOk};
ghost use Rattle.sequences.specs.StyleRefs.{style_by};
ghost use Rattle.sequences.specs.Styled.{DEFAULT};
ghost use Rattle.sequences.specs.StyledTexts.{style_at, styled_of};
ghost use Rattle.terminal.specs.Numbers.{numbered};
ghost use Rattle.terminal.specs.Paragraphs.{styles_of};

use sequences::{PLAIN, StyleRef, StyledText};
use std::alloc::AllocError;

/// Characters in logical order with the numbers of their styles, and the text that has these styles.
#[derive(Clone, Copy)]
pub(crate) struct Part<'a> {
    pub(crate) characters: &'a [char],
    pub(crate) numbers: &'a [usize],
    pub(crate) text: &'a StyledText,
    ghost known: { All (λ n. n ≤ length text.now.runs.items) numbers.now },
    ghost long: { length characters.now ≤ length numbers.now },
}

impl<'a> Part<'a> {
    ghost use Rattle.terminal.specs.Parts.{styles_in};
    ghost use Rattle.terminal.specs.Prefixes.{or_one};

    /// Returns the characters in a range. The style numbers may continue past the range.
    pub(crate) fn range(&self, start: usize, end: usize) -> Part<'a>
        requires { (start ≤ end) × (end ≤ length self.now.characters.now) }
        ensures characters { result.characters.now ≡ slice_range self.now.characters.now start end }
        ensures numbers { result.numbers.now ≡ drop start self.now.numbers.now }
        ensures text { result.text.now ≡ self.now.text.now }
    {
        Part {
            characters: &self.characters[start..end],
            numbers: &self.numbers[start..],
            text: self.text,
        }
    }

    /// Returns the characters in a range, with exactly their style numbers.
    pub(crate) fn paragraph(&self, start: usize, end: usize) -> Part<'a>
        requires within { (start ≤ end) × (end ≤ length self.now.characters.now) }
        requires len { length self.now.numbers.now ≡ length self.now.characters.now }
        ensures characters { result.characters.now ≡ slice_range self.now.characters.now start end }
        ensures numbers { result.numbers.now ≡ slice_range self.now.numbers.now start end }
        ensures len { length result.numbers.now ≡ length result.characters.now }
        ensures text { result.text.now ≡ self.now.text.now }
    {
        Part {
            characters: &self.characters[start..end],
            numbers: &self.numbers[start..end],
            text: self.text,
        }
    }

    /// Returns the characters from an index on, or a newline if there are none.
    pub(crate) fn after(&self, start: usize) -> Part<'a>
        requires within { start ≤ length self.now.characters.now }
        requires len { length self.now.numbers.now ≡ length self.now.characters.now }
        ensures characters { result.characters.now ≡ or_one 10 (drop start self.now.characters.now) }
        ensures styles { styles_in result ≡ or_one DEFAULT (drop start (styles_in self.now)) }
        ensures text { result.text.now ≡ self.now.text.now }
    {
        let end = self.characters.len();
        if start < end {
            return self.paragraph(start, end);
        }
        Part {
            characters: NEWLINE,
            numbers: DEFAULT_NUMBER,
            text: self.text,
        }
    }
}

// The text that is laid out after a prefix if the paragraph consists of the prefix only.
const NEWLINE: &[char] = &['\n'];

const DEFAULT_NUMBER: &[usize] = &[0];

/// Returns the style with this number.
pub(crate) fn style_numbered(text: &StyledText, number: usize) -> StyleRef<'_>
    requires { number ≤ length text.now.runs.items }
    ensures { style_by result ≡ numbered text.now.links.items text.now.runs.items number }
{
    if number == 0 {
        StyleRef {
            look: PLAIN,
            link: &[],
        }
    } else {
        text.run_style(number - 1)
    }
}

// Sets all numbers in a range to one number.
fn put_number(numbers: &mut [usize], start: usize, end: usize, number: usize)
    requires { (start ≤ end) × (end ≤ length numbers.old) }
    ensures inside { (k : ℕ) → start ≤ k → k < end → slice_index numbers.new k ≡ number }
    ensures before { (k : ℕ) → k < start → slice_index numbers.new k ≡ slice_index numbers.old k }
    ensures after { (k : ℕ) → end ≤ k → slice_index numbers.new k ≡ slice_index numbers.old k }
{
    for k in start..end {
        numbers[k] = number;
    }
}

// Replaces the numbers of a text's characters, all of which are 0, with their style numbers. A character has
// the style of the last run that starts at or before it, so the runs are processed from the last to the
// first.
fn put_numbers(text: &StyledText, numbers: &mut [usize])
    requires len { length numbers.old ≡ length text.now.characters.items }
    requires zero { (k : ℕ) → slice_index numbers.old k ≡ 0 }
    ensures styles { (k : ℕ) → k < length text.now.characters.items
        → numbered text.now.links.items text.now.runs.items (slice_index numbers.new k)
        ≡ style_at text.now.links.items DEFAULT text.now.runs.items k }
    ensures known { (k : ℕ) → slice_index numbers.new k ≤ length text.now.runs.items }
{
    let mut end = text.characters.len();
    let mut left = text.runs.len();
    while left > 0 {
        let start = text.runs[left - 1].start;
        if start < end {
            put_number(numbers, start, end, left);
            end = start;
        }
        left -= 1;
    }
}

/// Replaces the numbers with the style numbers of a text's characters.
pub(crate) fn number_styles(text: &StyledText, numbers: &mut Vec<usize>) -> Result<(), AllocError>
    ensures styles { OnOk result (map (numbered text.now.links.items text.now.runs.items) numbers.new.items
        ≡ styles_of (styled_of text.now)) }
    ensures len { OnOk result (length numbers.new.items ≡ length text.now.characters.items) }
    ensures known { OnOk result (All (λ n. n ≤ length text.now.runs.items) numbers.new.items) }
{
    numbers.clear();
    numbers.resize(text.characters.len(), 0)?;
    put_numbers(text, numbers);
    Ok(())
}
