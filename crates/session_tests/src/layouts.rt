//! Worked examples of layouts. The tests must also pass if any single allocation outside `refill` fails.
ghost use Rattle.std.specs.Prelude.{◌≡◌, ◌<◌, IfOk, OnOk};
ghost use Rattle.lines.specs.Engine.{rules_of, SameRules};
ghost use Rattle.lines.specs.Extents.{extents_of};
ghost use Rattle.lines.specs.Layouts.{AreLinesOf, IsLaidOut, with_advances};

mod measured;
mod orders;
mod printed;
mod spans;
mod written;

use crate::files;
use crate::files::FILES;
use bidi::Base;
use breaks::Mark;
use lines::{Engine, Extents, Fill, Laid, Options, PARAGRAPH_LIMIT, ReflowScratch, VisualLine};
use std::alloc::Global;
use std::process::Abort;
use std::test::Fail;
use ucd::TableFault;

fn engine(alloc: Global, nobreak: bool) -> Result<Engine, TableFault> {
    let options = Options {
        base: Base::WeakLtr,
        nobreak,
        ..Options::default()
    };
    files::engine(alloc, &FILES, options)
}

// Lays out a text. Fails if the text is not one paragraph, or if the width is 0.
fn lay_out(alloc: Global, engine: &mut Engine, text: &str, width: u16) -> Result<Laid, Fail>
    ensures laid { IfOk result (IsLaidOut (rules_of engine.new)) }
    ensures rules { SameRules engine.old engine.new }
{
    let text: Vec<char> = text.chars().collect(alloc)?;
    lay_out_characters(alloc, engine, text, width)
}

fn lay_out_characters(
    alloc: Global,
    engine: &mut Engine,
    text: Vec<char>,
    width: u16,
) -> Result<Laid, Fail>
    ensures laid { IfOk result (IsLaidOut (rules_of engine.new)) }
    ensures rules { SameRules engine.old engine.new }
{
    let is_long = text.len() > PARAGRAPH_LIMIT;
    if text.is_empty() || is_long || engine.first_cut(&text).is_some() || width == 0 {
        return Err(Fail::new("no paragraph"));
    }
    match engine.lay_out(alloc, text, u32::from(width)) {
        Ok(laid) => Ok(laid),
        // After an allocation failure, the engine returns the text for another attempt.
        Err((text, _)) => match engine.lay_out(alloc, text, u32::from(width)) {
            Ok(laid) => Ok(laid),
            Err((_, error)) => Err(Fail::from(error)),
        },
    }
}

// A paragraph, a width, and where the paragraph's lines start.
static STARTS: [(&str, u16, &[u32]); 13] = [
    ("abcdefgh", 3, &[0, 3, 6]),
    ("abc   def", 3, &[0, 6]),
    ("ab cd ef", 5, &[0, 6]),
    ("ab cd ef", 4, &[0, 3, 6]),
    ("ab cd ef", 1, &[0, 1, 3, 4, 6, 7]),
    ("   a", 1, &[0, 3]),
    ("a \u{300}b", 1, &[0, 2]),
    ("a\u{2028}b", 80, &[0, 2]),
    ("\u{4E00}\u{4E00}", 1, &[0, 1]),
    ("e\u{300}e\u{300}e", 1, &[0, 2, 4]),
    ("a\r\n", 1, &[0]),
    ("\n", 1, &[0]),
    ("ab cd\u{2028}e", 1, &[0, 1, 3, 4, 6]),
];

// A paragraph, a width, and where the paragraph's lines start if lines end at mandatory breaks only.
static STARTS_AT_MANDATORY_BREAKS: [(&str, u16, &[u32]); 5] = [
    ("abcdefgh", 3, &[0]),
    ("ab cd ef", 1, &[0]),
    ("a\u{2028}b", 80, &[0, 2]),
    ("a\r\n", 1, &[0]),
    ("ab cd\u{2028}e", 1, &[0, 6]),
];

// Returns whether a paragraph's lines start at these positions.
fn starts_at(laid: &Laid, starts: &[u32]) -> bool {
    laid.line_count() == starts.len() && laid.line_starts() == starts
}

fn starts(
    alloc: Global,
    engine: &mut Engine,
    text: &str,
    width: u16,
    wanted: &[u32],
) -> Result<bool, Fail> {
    let laid = lay_out(alloc, engine, text, width)?;
    Ok(starts_at(&laid, wanted))
}

// Returns whether the lines of each paragraph start at the listed positions.
fn all_start(
    alloc: Global,
    engine: &mut Engine,
    rows: &[(&str, u16, &[u32])],
) -> Result<bool, Fail> {
    let mut all_right = true;
    for (text, width, wanted) in rows {
        all_right &= starts(alloc, engine, text, *width, wanted)?;
    }
    Ok(all_right)
}

// Returns whether the lines of each paragraph start at the listed positions, for an engine with or without
// the option `nobreak`.
fn all_start_by(alloc: Global, nobreak: bool, rows: &[(&str, u16, &[u32])]) -> Result<bool, Fail> {
    let mut engine = engine(alloc, nobreak)?;
    let result = all_start(alloc, &mut engine, rows);
    drop(engine);
    result
}

#[test]
fn lines_end_at_breaks_or_when_the_width_is_full(rt: HostRuntime) -> Result<(), Fail> {
    assert!(rt; all_start_by(rt.alloc(), false, &STARTS)?);
    Ok(())
}

#[test]
fn nobreak_ends_lines_at_mandatory_breaks_only(rt: HostRuntime) -> Result<(), Fail> {
    assert!(rt; all_start_by(rt.alloc(), true, &STARTS_AT_MANDATORY_BREAKS)?);
    Ok(())
}

// Lays out a paragraph of `len` letters at a width of 1.
fn lay_out_letters(alloc: Global, engine: &mut Engine, len: usize) -> Result<Laid, Fail> {
    let text = vec![in alloc; 'a'; len]?;
    lay_out_characters(alloc, engine, text, 1)
}

// Returns whether the number of line starts and the last of them are right for a paragraph of the maximum
// length with one character per line.
fn has_a_line_for_each(starts: &[u32]) -> bool {
    starts.len() == PARAGRAPH_LIMIT && starts.last().copied() == Some(1_048_575)
}

fn gives_a_line_to_each(alloc: Global, engine: &mut Engine) -> Result<bool, Fail> {
    let laid = lay_out_letters(alloc, engine, PARAGRAPH_LIMIT)?;
    Ok(has_a_line_for_each(laid.line_starts()))
}

#[test]
fn longest_paragraph_at_width_one_has_a_line_per_letter(rt: HostRuntime) -> Result<(), Fail> {
    let mut engine = engine(rt.alloc(), false)?;
    let result = gives_a_line_to_each(rt.alloc(), &mut engine);
    drop(engine);
    assert!(rt; result?);
    Ok(())
}

// Finds the lines of a paragraph at another width. Does not try again after an allocation failure, so that
// the tests detect a mutant that reports one although no allocation failed.
fn refill(alloc: Global, engine: &mut Engine, laid: &Laid, width: u16) -> Result<Fill, Fail>
    requires laid { IsLaidOut (rules_of engine.old) laid.now }
    requires width { 0 < width }
    ensures { IfOk result (AreLinesOf (rules_of engine.old) laid.now.text) }
{
    Ok(engine.refill(alloc, laid, u32::from(width))?)
}

// Returns whether the engine has counted these numbers of analysed and filled characters, and as many written
// characters as filled ones.
fn counts(engine: &Engine, analysed: u64, filled: u64) -> bool {
    engine.analysed() == analysed && engine.filled() == filled && engine.written() == filled
}

// Exchanges a paragraph's lines for those at another width, and back. Returns whether the lines are right
// before and after each exchange, and the counters after each.
fn exchanges(
    alloc: Global,
    engine: &mut Engine,
    laid: &mut Laid,
    width: u16,
    starts: &[u32],
    others: &[u32],
) -> Result<bool, Fail>
    requires laid { IsLaidOut (rules_of engine.old) laid.old }
    requires width { 0 < width }
{
    let mut fill = refill(alloc, engine, laid, width)?;
    let is_first = starts_at(laid, starts);
    laid.exchange(&mut fill);
    let is_other = starts_at(laid, others) & counts(engine, 8, 16);
    laid.exchange(&mut fill);
    Ok(is_first & is_other & starts_at(laid, starts) & counts(engine, 8, 16))
}

fn fills_twice(alloc: Global, engine: &mut Engine) -> Result<bool, Fail> {
    let mut laid = lay_out(alloc, engine, "abcdefgh", 3)?;
    let is_counted = counts(engine, 8, 8);
    let result = exchanges(alloc, engine, &mut laid, 4, &[0, 3, 6], &[0, 4]);
    drop(laid);
    Ok(is_counted & result?)
}

#[test]
fn lines_at_another_width_are_exchanged_and_exchanged_back(rt: HostRuntime) -> Result<(), Fail> {
    let mut engine = engine(rt.alloc(), false)?;
    let result = fills_twice(rt.alloc(), &mut engine);
    drop(engine);
    assert!(rt; result?);
    Ok(())
}

// Finds the extents of a paragraph's lines at another width, and tries again after an allocation failure.
fn extents(alloc: Global, engine: &mut Engine, laid: &Laid, width: u32) -> Result<Extents, Fail>
    requires laid { IsLaidOut (with_advances (rules_of engine.old) laid.now.advances) laid.now }
    requires width { 0 < width }
    ensures extents { IfOk result (λ extents. extents
        ≡ extents_of (with_advances (rules_of engine.old) laid.now.advances) width laid.now.text) }
    ensures rules { SameRules engine.old engine.new }
{
    match engine.extents(alloc, laid, width) {
        Ok(extents) => Ok(extents),
        Err(_) => Ok(engine.extents(alloc, laid, width)?),
    }
}

// Allocates scratch space for `len` characters, and tries again after an allocation failure.
fn scratch(alloc: Global, engine: &Engine, len: usize) -> Result<ReflowScratch, Fail>
    ensures { IfOk result (λ scratch. scratch.len ≡ len) }
{
    match engine.reflow_scratch(alloc, len) {
        Ok(scratch) => Ok(scratch),
        Err(_) => Ok(engine.reflow_scratch(alloc, len)?),
    }
}

// Overwrites a paragraph's lines with those at another width.
fn reflow(alloc: Global, engine: &mut Engine, laid: &mut Laid, width: u32) -> Result<(), Fail>
    requires laid { IsLaidOut (with_advances (rules_of engine.old) laid.old.advances) laid.old }
    requires width { 0 < width }
    ensures laid { OnOk result
        (IsLaidOut (with_advances (rules_of engine.new) laid.new.advances) laid.new) }
    ensures rules { SameRules engine.old engine.new }
{
    let mut extents = extents(alloc, engine, laid, width)?;
    let mut scratch = scratch(alloc, engine, laid.text().len())?;
    engine.reflow(laid, &mut extents, &mut scratch);
    engine.take_back(scratch);
    Ok(())
}

// Overwrites the paragraph's lines with those at three widths in turn, and returns whether all are right.
fn reflows(alloc: Global, engine: &mut Engine, laid: &mut Laid) -> Result<bool, Fail>
    requires laid { IsLaidOut (with_advances (rules_of engine.old) laid.old.advances) laid.old }
{
    reflow(alloc, engine, laid, 2)?;
    let is_first = starts_at(laid, &[0, 3]) & shows_lines(laid, &SHOWN);
    reflow(alloc, engine, laid, 1)?;
    let is_second = starts_at(laid, &[0, 1, 3, 4]);
    reflow(alloc, engine, laid, 2)?;
    Ok(is_first & is_second & counts(engine, 5, 20) & shows_lines(laid, &SHOWN))
}

fn reflows_paragraph(alloc: Global, engine: &mut Engine) -> Result<bool, Fail> {
    let mut laid = lay_out(alloc, engine, "\u{5D0}1 (\u{5D1}", 80)?;
    let is_laid_out = counts(engine, 5, 5) & starts_at(&laid, &[0]);
    let result = reflows(alloc, engine, &mut laid);
    drop(laid);
    Ok(is_laid_out & result?)
}

#[test]
fn reflow_gives_the_lines_at_each_width(rt: HostRuntime) -> Result<(), Fail> {
    let mut engine = engine(rt.alloc(), false)?;
    let result = reflows_paragraph(rt.alloc(), &mut engine);
    drop(engine);
    assert!(rt; result?);
    Ok(())
}

// Returns whether a paragraph has this text and base level.
fn is_of(laid: &Laid, text: &[char], base: u8) -> bool {
    laid.text() == text && laid.base() == base
}

// Returns whether the characters of a paragraph have these levels, and these marks after them.
fn has(laid: &Laid, levels: &[u8], marks: &[Mark]) -> bool {
    laid.levels() == levels && laid.marks() == marks
}

#[test]
fn engine_cuts_after_a_newline_and_not_before_it(rt: HostRuntime) -> Result<(), Fail> {
    let engine = engine(rt.alloc(), false)?;
    let are_right = [engine.is_cut('\n', 'a'), !engine.is_cut('a', '\n')];
    drop(engine);
    assert!(rt; are_right == [true, true]);
    Ok(())
}

const MARKS: [Mark; 4] = [Mark::Never, Mark::Never, Mark::May, Mark::Must];

fn has_parts(alloc: Global, engine: &mut Engine) -> Result<bool, Fail> {
    let laid = lay_out(alloc, engine, "\u{5D0}- a", 3)?;
    Ok(is_of(&laid, &['\u{5D0}', '-', ' ', 'a'], 1) & has(&laid, &[1, 1, 1, 2], &MARKS))
}

#[test]
fn layout_has_its_text_base_levels_and_marks(rt: HostRuntime) -> Result<(), Fail> {
    let mut engine = engine(rt.alloc(), false)?;
    let result = has_parts(rt.alloc(), &mut engine);
    drop(engine);
    assert!(rt; result?);
    Ok(())
}

// A line: its length, and the characters, the levels and both position maps of its shown part.
struct Row {
    len: usize,
    chars: &'static [char],
    levels: &'static [u8],
    ltov: &'static [u32],
    vtol: &'static [u32],
}

// The lines of U+05D0, `1`, a space, `(` and U+05D1 at a width of 2. The first line ends with a space, which
// is not shown. The bracket on the second line is mirrored.
static SHOWN: [Row; 2] = [
    Row {
        len: 3,
        chars: &['1', '\u{5D0}'],
        levels: &[1, 2],
        ltov: &[1, 0],
        vtol: &[1, 0],
    },
    Row {
        len: 2,
        chars: &['\u{5D1}', ')'],
        levels: &[1, 1],
        ltov: &[1, 0],
        vtol: &[1, 0],
    },
];

fn is_shown(line: &VisualLine<'_>, row: &Row) -> bool {
    (line.len() == row.len)
        & (line.chars() == row.chars)
        & (line.levels() == row.levels)
        & (line.ltov() == row.ltov)
        & (line.vtol() == row.vtol)
        & (line.columns() as usize == row.chars.len())
}

// Returns whether a paragraph has exactly these lines.
fn shows_lines(laid: &Laid, rows: &[Row]) -> bool {
    let mut all_right = laid.line(rows.len()).is_none();
    for (n, row) in rows.iter().enumerate() {
        match laid.line(n) {
            Some(line) => {
                all_right &= is_shown(&line, row);
                all_right &= line.is_first() == (n == 0) && line.base() == laid.base();
            }
            None => all_right = false,
        }
    }
    all_right
}

fn shows_paragraph(alloc: Global, engine: &mut Engine) -> Result<bool, Fail> {
    let laid = lay_out(alloc, engine, "\u{5D0}1 (\u{5D1}", 2)?;
    Ok(shows_lines(&laid, &SHOWN))
}

#[test]
fn lines_are_shown_mirrored_and_without_their_last_space(rt: HostRuntime) -> Result<(), Fail> {
    let mut engine = engine(rt.alloc(), false)?;
    let result = shows_paragraph(rt.alloc(), &mut engine);
    drop(engine);
    assert!(rt; result?);
    Ok(())
}
