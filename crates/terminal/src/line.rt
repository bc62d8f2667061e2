//! Writes lines with styles.
ghost use Rattle.std.specs.Prelude.{◌≡◌, ◌≤◌, ◌<◌, ◌++◌, ◌∷◌, [], ℕ, false, length, min, replicate};
ghost use Rattle.std.specs.Prelude.{slice_index, IfOk, IfSome, OnOk, Some, ◌==◌, if◌then◌else◌};
ghost use Rattle.lines.specs.Bytes.{ordered_chars, padding};
ghost use Rattle.lines.specs.Visual.{is_measured};
ghost use Rattle.sequences.specs.Output.{between};
ghost use Rattle.sequences.specs.Styled.{DEFAULT};
ghost use Rattle.terminal.specs.Appending.{prefix_in, prefix_of, Appends};
ghost use Rattle.terminal.specs.Lines.{in_style, line_cells, line_chars, shown_line, style_on};
ghost use Rattle.terminal.specs.Lines.{styled_line, with_prefix};
ghost use Rattle.terminal.specs.Numbers.{numbered};
ghost use Rattle.terminal.specs.Parts.{styles_in};

use crate::line_form::{LineForm, PrefixLine};
use crate::numbers::{Part, style_numbered};
use lines::{Print, VisualLine};
use sequences::{StyledText, push_between};
use std::alloc::AllocError;

// Appends the sequences that switch from the style with the number `before` to the style with `number`.
fn push_change(
    text: &StyledText,
    before: usize,
    number: usize,
    out: &mut Vec<char>,
) -> Result<(), AllocError>
    requires before { before ≤ length text.now.runs.items }
    requires number { number ≤ length text.now.runs.items }
    ensures { OnOk result (out.new.items ≡ out.old.items
        ++ between (numbered text.now.links.items text.now.runs.items before)
        (numbered text.now.links.items text.now.runs.items number)) }
{
    if before == number {
        return Ok(());
    }
    push_between(
        &style_numbered(text, before),
        &style_numbered(text, number),
        out,
    )
}

// Appends a character or, if `spaces` is not 0, that number of spaces instead.
fn push_cells(spaces: usize, c: char, out: &mut Vec<char>) -> Result<(), AllocError>
    ensures text { OnOk result (out.new.items
        ≡ out.old.items ++ (if spaces == 0 then c ∷ [] else replicate spaces 32)) }
    ensures some { 0 < length (if spaces == 0 then c ∷ [] else replicate spaces 32) }
{
    if spaces == 0 {
        out.push(c)?;
        return Ok(());
    }
    push_spaces(spaces, out)
}

fn push_spaces(count: usize, out: &mut Vec<char>) -> Result<(), AllocError>
    ensures { OnOk result (out.new.items ≡ out.old.items ++ replicate count 32) }
{
    for _ in 0..count {
        out.push(' ')?;
    }
    Ok(())
}

// Returns the character at an index of a text, or U+0000 past the end.
fn char_at(text: &[char], at: usize) -> char
    ensures { result ≡ slice_index text.now at }
{
    if at < text.len() { text[at] } else { '\0' }
}

// Returns how many spaces replace the tab at a visual position of a line, or 0 if the character there is not
// a tab.
fn spaces_at(line: &VisualLine<'_>, text: &[char], place: usize) -> usize
    requires text { text.now ≡ line.now.text }
    requires plain { is_measured line.now ≡ false }
    requires place { place < length line.now.vtol }
    ensures { (c : ℕ) → line_cells line.now c (slice_index line.now.vtol place)
        ≡ (if result == 0 then c ∷ [] else replicate result 32) }
{
    if char_at(text, line.vtol()[place] as usize) == '\t' {
        line.columns_at(place)
    } else {
        0
    }
}

// Returns how many visual positions a line has.
fn ordered_len(line: &VisualLine<'_>, print: &Print) -> usize
    ensures { result ≡ min (length (ordered_chars print.now line.now)) (length line.now.vtol) }
{
    if print.nomirror {
        line.vtol().len()
    } else {
        line.chars().len().min(line.vtol().len())
    }
}

// Returns the character at a visual position of a line, mirrored unless `print.nomirror` is set.
fn ordered_at(line: &VisualLine<'_>, text: &[char], print: &Print, place: usize) -> char
    requires text { text.now ≡ line.now.text }
    requires place { place < length line.now.vtol }
    requires within { place < length (ordered_chars print.now line.now) }
    ensures { result ≡ slice_index (ordered_chars print.now line.now) place }
{
    if print.nomirror {
        char_at(text, line.vtol()[place] as usize)
    } else {
        line.chars()[place]
    }
}

// Returns the number of the style at a visual position of a line.
fn number_at(line: &VisualLine<'_>, part: &Part<'_>, place: usize) -> usize
    requires place { place < length line.now.vtol }
    ensures style { numbered part.now.text.now.links.items part.now.text.now.runs.items result
        ≡ style_on (styles_in part.now) (slice_index line.now.vtol place) }
    ensures within { result ≤ length part.now.text.now.runs.items }
{
    let k = line.vtol()[place] as usize;
    if k < part.numbers.len() {
        part.numbers[k]
    } else {
        0
    }
}

// Appends the character at a visual position of a line, and returns the number of its style. `before` is the
// style number of the character before it.
fn push_place(
    line: &VisualLine<'_>,
    part: &Part<'_>,
    print: &Print,
    place: usize,
    before: usize,
    out: &mut Vec<char>,
) -> Result<usize, AllocError>
    requires text { part.now.characters.now ≡ line.now.text }
    requires plain { is_measured line.now ≡ false }
    requires place { place < length line.now.vtol }
    requires within { place < length (ordered_chars print.now line.now) }
    requires before { before ≤ length part.now.text.now.runs.items }
    ensures style { IfOk result
        (λ number. numbered part.now.text.now.links.items part.now.text.now.runs.items number
        ≡ style_on (styles_in part.now) (slice_index line.now.vtol place)) }
    ensures number { IfOk result (λ number. number ≤ length part.now.text.now.runs.items) }
    ensures text { IfOk result (λ number. out.new.items ≡ out.old.items
        ++ (between (numbered part.now.text.now.links.items part.now.text.now.runs.items before)
        (numbered part.now.text.now.links.items part.now.text.now.runs.items number)
        ++ line_cells line.now (slice_index (ordered_chars print.now line.now) place)
        (slice_index line.now.vtol place))) }
    ensures some { OnOk result (0 < length (line_cells line.now (slice_index
        (ordered_chars print.now line.now) place)
        (slice_index line.now.vtol place))) }
{
    let number = number_at(line, part, place);
    push_change(part.text, before, number, out)?;
    let spaces = spaces_at(line, part.characters, place);
    push_cells(spaces, ordered_at(line, part.characters, print, place), out)?;
    Ok(number)
}

// Appends the characters of a line in visual order with their styles, given the number of the style before
// them. Returns the number of the last style.
fn push_chars(
    line: &VisualLine<'_>,
    part: &Part<'_>,
    print: &Print,
    before: usize,
    out: &mut Vec<char>,
) -> Result<usize, AllocError>
    requires text { part.now.characters.now ≡ line.now.text }
    requires plain { is_measured line.now ≡ false }
    requires before { before ≤ length part.now.text.now.runs.items }
    ensures number { IfOk result (λ number. number ≤ length part.now.text.now.runs.items) }
    ensures text { IfOk result (λ number. Appends out.old.items out.new.items
        (numbered part.now.text.now.links.items part.now.text.now.runs.items before)
        (numbered part.now.text.now.links.items part.now.text.now.runs.items number)
        (line_chars print.now line.now (styles_in part.now))) }
{
    let mut last = before;
    for place in 0..ordered_len(line, print) {
        last = push_place(line, part, print, place, last, out)?;
    }
    Ok(last)
}

// Appends spaces in the default style, given the number of the style before them. Returns the number of the
// last style.
fn push_blanks(
    text: &StyledText,
    count: usize,
    before: usize,
    out: &mut Vec<char>,
) -> Result<usize, AllocError>
    requires before { before ≤ length text.now.runs.items }
    ensures number { IfOk result (λ number. number ≤ length text.now.runs.items) }
    ensures text { IfOk result (λ number. Appends out.old.items out.new.items
        (numbered text.now.links.items text.now.runs.items before)
        (numbered text.now.links.items text.now.runs.items number)
        (in_style DEFAULT (replicate count 32))) }
{
    if count == 0 {
        return Ok(before);
    }
    push_change(text, before, 0, out)?;
    push_spaces(count, out)?;
    Ok(0)
}

// Returns how many spaces pad a line on its left.
fn padding_len(line: &VisualLine<'_>, width: u32, print: &Print) -> usize
    requires { is_measured line.now ≡ false }
    ensures { replicate result 32 ≡ padding width print.now line.now }
{
    if print.nopad {
        0
    } else {
        line.padding(width) as usize
    }
}

// Appends the padding and the characters of a line, given the number of the style before them. Returns the
// number of the last style.
fn push_shown(
    line: &VisualLine<'_>,
    part: &Part<'_>,
    form: &LineForm<'_>,
    before: usize,
    out: &mut Vec<char>,
) -> Result<usize, AllocError>
    requires text { part.now.characters.now ≡ line.now.text }
    requires plain { is_measured line.now ≡ false }
    requires before { before ≤ length part.now.text.now.runs.items }
    ensures number { IfOk result (λ number. number ≤ length part.now.text.now.runs.items) }
    ensures text { IfOk result (λ number. Appends out.old.items out.new.items
        (numbered part.now.text.now.links.items part.now.text.now.runs.items before)
        (numbered part.now.text.now.links.items part.now.text.now.runs.items number)
        (shown_line form.now.width form.now.print line.now (styles_in part.now))) }
{
    let spaces = padding_len(line, form.width, &form.print);
    let padded = push_blanks(part.text, spaces, before, out)?;
    push_chars(line, part, &form.print, padded, out)
}

// Appends what is printed for a prefix on a line, given the number of the style before it. Returns the number
// of the last style.
fn push_prefix(
    prefix: &PrefixLine<'_>,
    is_first: bool,
    print: &Print,
    before: usize,
    out: &mut Vec<char>,
) -> Result<usize, AllocError>
    requires { before ≤ length prefix.now.part.text.now.runs.items }
    ensures number { IfOk result (λ number. number ≤ length prefix.now.part.text.now.runs.items) }
    ensures text { IfOk result (λ number. Appends out.old.items out.new.items
        (numbered prefix.now.part.text.now.links.items prefix.now.part.text.now.runs.items before)
        (numbered prefix.now.part.text.now.links.items prefix.now.part.text.now.runs.items number)
        (if is_first then (prefix_in print.now prefix.now).first
        else (prefix_in print.now prefix.now).others)) }
{
    if is_first || prefix.repeats {
        push_chars(prefix.line, &prefix.part, print, before, out)
    } else {
        push_blanks(
            prefix.part.text,
            prefix.line.columns() as usize,
            before,
            out,
        )
    }
}

// Appends a line with its prefix, which is on the right if it is right-to-left, and otherwise on the left.
// Returns the number of the last style.
fn push_prefixed(
    line: &VisualLine<'_>,
    part: &Part<'_>,
    form: &LineForm<'_>,
    prefix: &PrefixLine<'_>,
    out: &mut Vec<char>,
) -> Result<usize, AllocError>
    requires text { part.now.characters.now ≡ line.now.text }
    requires plain { is_measured line.now ≡ false }
    requires same { prefix.now.part.text.now ≡ part.now.text.now }
    ensures number { IfOk result (λ number. number ≤ length part.now.text.now.runs.items) }
    ensures text { IfOk result (λ number. Appends out.old.items out.new.items DEFAULT
        (numbered part.now.text.now.links.items part.now.text.now.runs.items number)
        (with_prefix (Some (prefix_in form.now.print prefix.now)) line.now
        (shown_line form.now.width form.now.print line.now (styles_in part.now)))) }
{
    if prefix.line.base() % 2 == 1 {
        let last = push_shown(line, part, form, 0, out)?;
        push_prefix(prefix, line.is_first(), &form.print, last, out)
    } else {
        let last = push_prefix(prefix, line.is_first(), &form.print, 0, out)?;
        push_shown(line, part, form, last, out)
    }
}

// Appends a line, with the prefix of the form if there is one. Returns the number of the last style.
fn push_all(
    line: &VisualLine<'_>,
    part: &Part<'_>,
    form: &LineForm<'_>,
    out: &mut Vec<char>,
) -> Result<usize, AllocError>
    requires text { part.now.characters.now ≡ line.now.text }
    requires plain { is_measured line.now ≡ false }
    requires same { IfSome form.now.prefix (λ prefix. prefix.now.part.text.now ≡ part.now.text.now) }
    ensures number { IfOk result (λ number. number ≤ length part.now.text.now.runs.items) }
    ensures text { IfOk result (λ number. Appends out.old.items out.new.items DEFAULT
        (numbered part.now.text.now.links.items part.now.text.now.runs.items number)
        (with_prefix (prefix_of form.now) line.now
        (shown_line form.now.width form.now.print line.now (styles_in part.now)))) }
{
    match form.prefix {
        Some(prefix) => push_prefixed(line, part, form, prefix, out),
        None => push_shown(line, part, form, 0, out),
    }
}

/// Appends a line with its prefix and styles, and a newline in the default style. `part` must hold the line's
/// shown characters.
pub(crate) fn push_line(
    line: &VisualLine<'_>,
    part: &Part<'_>,
    form: &LineForm<'_>,
    out: &mut Vec<char>,
) -> Result<(), AllocError>
    requires text { part.now.characters.now ≡ line.now.text }
    requires plain { is_measured line.now ≡ false }
    requires same { IfSome form.now.prefix (λ prefix. prefix.now.part.text.now ≡ part.now.text.now) }
    ensures { OnOk result (out.new.items ≡ out.old.items
        ++ styled_line (prefix_of form.now) form.now.width form.now.print line.now (styles_in part.now)) }
{
    let last = push_all(line, part, form, out)?;
    push_change(part.text, last, 0, out)?;
    out.push('\n')?;
    Ok(())
}
