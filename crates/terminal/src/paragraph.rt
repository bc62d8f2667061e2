//! Writes paragraphs with styles.
ghost use Rattle.std.specs.Prelude.{◌≡◌, ◌≤◌, ◌<◌, ◌-◌, ◌++◌, ◌↔◌, ◌&&◌, [], ℕ, None, Some};
ghost use Rattle.std.specs.Prelude.{encode_utf8_all, length, slice_get, slice_index, EachIndex, IfOk};
ghost use Rattle.std.specs.Prelude.{IfSome, IsTrue, OnOk, if◌then◌else◌};
ghost use Rattle.lines.specs.Bytes.{direction_line};
ghost use Rattle.lines.specs.Engine.{rules_of, SameRules};
ghost use Rattle.lines.specs.Layouts.{AreWithin, IsParagraph, layout_of};
ghost use Rattle.lines.specs.Visual.{Line};
ghost use Rattle.sequences.specs.Styled.{DEFAULT};
ghost use Rattle.terminal.specs.Appending.{prefix_in, prefix_of};
ghost use Rattle.terminal.specs.Forms.{print_of, width_of};
ghost use Rattle.terminal.specs.Lines.{in_style};
ghost use Rattle.terminal.specs.Paragraphs.{styled_bytes, styled_layout, styled_nth, styled_paragraph};
ghost use Rattle.terminal.specs.Parts.{styles_in};
ghost use Rattle.terminal.specs.Prefixes.{formed_bytes, prefixed_bytes, printed_bytes};

use crate::form::Form;
use crate::line::push_line;
use crate::line_form::{LineForm, PrefixLine};
use crate::numbers::Part;
use crate::prefix::{lay_out_prefix, narrow_line, prefix_base, prefix_len};
use bidi::paragraphs_are_pieces;
use lines::{Engine, Laid, Options, Print, VisualLine, write_chars};
use std::alloc::{AllocError, Global};
use stream::Page;

// Appends the base direction of a paragraph if it is printed after this line.
fn push_direction(
    line: &VisualLine<'_>,
    print: &Print,
    out: &mut Vec<char>,
) -> Result<(), AllocError>
    ensures { OnOk result (out.new.items ≡ out.old.items
        ++ (if print.now.basedir && line.now.is_first then direction_line line.now.base else [])) }
{
    if !(print.basedir && line.is_first()) {
        return Ok(());
    }
    if line.base() % 2 == 1 {
        out.extend_from_slice(&['R', 'T', 'L', '\n'])
    } else {
        out.extend_from_slice(&['L', 'T', 'R', '\n'])
    }
}

// Appends the n-th line of a layout, given the styles of the paragraph's characters.
fn push_nth(
    laid: &Laid,
    n: usize,
    part: &Part<'_>,
    form: &LineForm<'_>,
    out: &mut Vec<char>,
) -> Result<(), AllocError>
    requires n { n < length laid.now.lines }
    requires text { part.now.characters.now ≡ laid.now.text }
    requires plain { laid.now.advances ≡ None }
    requires within { AreWithin (length laid.now.text) laid.now.lines }
    requires same { IfSome form.now.prefix (λ prefix. prefix.now.part.text.now ≡ part.now.text.now) }
    ensures { (line : Line) → slice_get laid.now.lines n ≡ Some line → OnOk result (out.new.items
        ≡ out.old.items ++ styled_nth (prefix_of form.now) form.now.width form.now.print laid.now
        (styles_in part.now) (n, line)) }
{
    let Some(line) = laid.line(n) else {
        unreachable!()
    };
    let start = laid.line_starts()[n] as usize;
    let shown = part.range(start, start + line.levels().len());
    push_line(&line, &shown, form, out)?;
    push_direction(&line, &form.print, out)
}

// Appends the lines of a layout, given the styles of the paragraph's characters.
fn push_layout(
    laid: &Laid,
    part: &Part<'_>,
    form: &LineForm<'_>,
    out: &mut Vec<char>,
) -> Result<(), AllocError>
    requires text { part.now.characters.now ≡ laid.now.text }
    requires plain { laid.now.advances ≡ None }
    requires within { AreWithin (length laid.now.text) laid.now.lines }
    requires same { IfSome form.now.prefix (λ prefix. prefix.now.part.text.now ≡ part.now.text.now) }
    ensures { OnOk result (out.new.items ≡ out.old.items
        ++ styled_layout (prefix_of form.now) form.now.width form.now.print laid.now (styles_in part.now)) }
{
    for n in 0..laid.line_count() {
        push_nth(laid, n, part, form, out)?;
    }
    Ok(())
}

// Adds characters to a page as UTF-8.
fn push_characters(characters: &[char], page: &mut Page) -> Result<(), AllocError>
    ensures { OnOk result (page.new.bytes.items ≡ page.old.bytes.items ++ encode_utf8_all characters.now) }
{
    match write_chars(page, 0, characters) {
        Ok(_) => Ok(()),
        Err(_) => Err(AllocError),
    }
}

// Adds the lines of one paragraph in which all characters have the default style.
fn push_plain(
    alloc: Global,
    page: &mut Page,
    engine: &mut Engine,
    form: &Form<'_>,
    paragraph: &[char],
) -> Result<(), AllocError>
    requires paragraph { IsParagraph (rules_of engine.old) paragraph.now }
    ensures ok { OnOk result (page.new.bytes.items ≡ page.old.bytes.items
        ++ styled_paragraph (rules_of engine.old) (width_of form.now) (print_of form.now)
        (in_style DEFAULT paragraph.now)) }
    ensures rules { SameRules engine.old engine.new }
{
    let print = form.print();
    match engine.write_paragraph(alloc, paragraph, form.columns(), &print, page) {
        Ok(()) => Ok(()),
        Err(_) => Err(AllocError),
    }
}

/// Lays out one paragraph.
pub(crate) fn lay_out(
    alloc: Global,
    engine: &mut Engine,
    width: u32,
    paragraph: &[char],
) -> Result<Laid, AllocError>
    requires paragraph { IsParagraph (rules_of engine.old) paragraph.now }
    requires width { 0 < width }
    ensures laid { IfOk result (λ laid. laid ≡ layout_of (rules_of engine.old) width paragraph.now) }
    ensures plain { IfOk result (λ laid. laid.advances ≡ None) }
    ensures within { IfOk result (λ laid. AreWithin (length laid.text) laid.lines) }
    ensures rules { SameRules engine.old engine.new }
{
    let characters = Vec::from_slice(alloc, paragraph)?;
    match engine.lay_out(alloc, characters, width) {
        Ok(laid) => Ok(laid),
        Err(_) => Err(AllocError),
    }
}

// Adds the lines of one paragraph, given the styles of its characters.
fn push_styled(
    alloc: Global,
    page: &mut Page,
    engine: &mut Engine,
    form: &LineForm<'_>,
    part: &Part<'_>,
    out: &mut Vec<char>,
) -> Result<(), AllocError>
    requires paragraph { IsParagraph (rules_of engine.old) part.now.characters.now }
    requires width { 0 < form.now.width }
    requires same { IfSome form.now.prefix (λ prefix. prefix.now.part.text.now ≡ part.now.text.now) }
    ensures ok { OnOk result (page.new.bytes.items ≡ page.old.bytes.items
        ++ styled_bytes (prefix_of form.now) (rules_of engine.old) form.now.width form.now.print
        part.now.characters.now (styles_in part.now)) }
    ensures rules { SameRules engine.old engine.new }
{
    let laid = lay_out(alloc, engine, form.width, part.characters)?;
    out.clear();
    push_layout(&laid, part, form, out)?;
    push_characters(out, page)
}

// Returns whether all characters have the default style.
fn is_plain(part: &Part<'_>) -> bool
    ensures { IsTrue result ↔ EachIndex part.now.numbers.now (λ k. slice_index part.now.numbers.now k ≡ 0) }
{
    // Fast path: without runs, all numbers are 0.
    if part.text.runs.is_empty() {
        return true;
    }
    part.numbers.iter().all(|number| *number == 0)
}

// Adds the lines of one paragraph without a prefix.
fn push_whole(
    alloc: Global,
    page: &mut Page,
    engine: &mut Engine,
    form: &Form<'_>,
    part: &Part<'_>,
    out: &mut Vec<char>,
) -> Result<(), AllocError>
    requires paragraph { IsParagraph (rules_of engine.old) part.now.characters.now }
    requires len { length part.now.numbers.now ≡ length part.now.characters.now }
    ensures ok { OnOk result (page.new.bytes.items ≡ page.old.bytes.items
        ++ styled_bytes None (rules_of engine.old) (width_of form.now) (print_of form.now)
        part.now.characters.now (styles_in part.now)) }
    ensures rules { SameRules engine.old engine.new }
{
    // Fast path: without styles, the lines are written without being kept.
    if is_plain(part) {
        return push_plain(alloc, page, engine, form, part.characters);
    }
    let lines = LineForm {
        width: form.columns(),
        print: form.print(),
        prefix: None,
    };
    push_styled(alloc, page, engine, &lines, part, out)
}

// Adds the lines of the text after a prefix, each of them with the prefix.
fn push_after(
    alloc: Global,
    page: &mut Page,
    engine: &mut Engine,
    form: &Form<'_>,
    prefix: &PrefixLine<'_>,
    rest: &Part<'_>,
    out: &mut Vec<char>,
) -> Result<(), AllocError>
    requires paragraph { IsParagraph (rules_of engine.old) rest.now.characters.now }
    requires narrow { prefix.now.line.now.columns < width_of form.now }
    requires same { prefix.now.part.text.now ≡ rest.now.text.now }
    ensures ok { OnOk result (page.new.bytes.items ≡ page.old.bytes.items
        ++ styled_bytes (Some (prefix_in (print_of form.now) prefix.now)) (rules_of engine.old)
        (width_of form.now - prefix.now.line.now.columns) (print_of form.now) rest.now.characters.now
        (styles_in rest.now)) }
    ensures rules { SameRules engine.old engine.new }
{
    let lines = LineForm {
        width: form.columns() - prefix.line.columns(),
        print: form.print(),
        prefix: Some(prefix),
    };
    push_styled(alloc, page, engine, &lines, rest, out)
}

// Adds the lines of one paragraph. Treats its first `len` characters as its prefix, unless they are not
// narrower than the width.
fn push_split(
    alloc: Global,
    page: &mut Page,
    engine: &mut Engine,
    form: &Form<'_>,
    part: &Part<'_>,
    len: usize,
    out: &mut Vec<char>,
) -> Result<(), AllocError>
    requires paragraph { IsParagraph (rules_of engine.old) part.now.characters.now }
    requires len { length part.now.numbers.now ≡ length part.now.characters.now }
    requires some { 0 < len }
    requires within { len ≤ length part.now.characters.now }
    ensures ok { OnOk result (page.new.bytes.items ≡ page.old.bytes.items
        ++ prefixed_bytes (rules_of engine.old) form.now part.now.characters.now (styles_in part.now) len) }
    ensures rules { SameRules engine.old engine.new }
{
    paragraphs_are_pieces();
    let own = part.paragraph(0, len);
    let rest = part.after(len);
    let base = prefix_base(engine, &form.prefix, rest.characters);
    let laid = lay_out_prefix(alloc, engine, base, own.characters)?;
    match narrow_line(&laid, form.columns()) {
        Some(line) => {
            let prefix = PrefixLine {
                line: &line,
                part: own.range(0, line.levels().len()),
                repeats: form.prefix.repeats(),
            };
            push_after(alloc, page, engine, form, &prefix, &rest, out)
        }
        None => push_whole(alloc, page, engine, form, part, out),
    }
}

// Adds the lines of one paragraph, with its prefix if it has one, by the engine's current rules.
fn push_formed(
    alloc: Global,
    page: &mut Page,
    engine: &mut Engine,
    form: &Form<'_>,
    part: &Part<'_>,
    out: &mut Vec<char>,
) -> Result<(), AllocError>
    requires paragraph { IsParagraph (rules_of engine.old) part.now.characters.now }
    requires len { length part.now.numbers.now ≡ length part.now.characters.now }
    ensures ok { OnOk result (page.new.bytes.items ≡ page.old.bytes.items
        ++ formed_bytes (rules_of engine.old) form.now part.now.characters.now (styles_in part.now)) }
    ensures rules { SameRules engine.old engine.new }
{
    let len = prefix_len(alloc, engine, &form.prefix, part.characters)?;
    if len == 0 {
        return push_whole(alloc, page, engine, form, part, out);
    }
    push_split(alloc, page, engine, form, part, len, out)
}

/// Adds the lines of one paragraph, given the styles of its characters.
pub(crate) fn push_paragraph(
    alloc: Global,
    page: &mut Page,
    engine: &mut Engine,
    form: &Form<'_>,
    part: &Part<'_>,
    out: &mut Vec<char>,
) -> Result<(), AllocError>
    requires paragraph { IsParagraph (rules_of engine.old) part.now.characters.now }
    requires len { length part.now.numbers.now ≡ length part.now.characters.now }
    ensures ok { OnOk result (page.new.bytes.items ≡ page.old.bytes.items
        ++ printed_bytes (rules_of engine.old) form.now part.now.characters.now (styles_in part.now)) }
    ensures rules { SameRules engine.old engine.new }
{
    if form.width > 0 {
        return push_formed(alloc, page, engine, form, part, out);
    }
    let options = engine.options();
    engine.set_options(Options {
        nobreak: true,
        ..options
    });
    let result = push_formed(alloc, page, engine, form, part, out);
    engine.set_options(options);
    result
}
