//! Handles the paragraphs of a text that has not been read to its end. Paragraphs that end at a paragraph
//! boundary are laid out, and the rest of the text is kept.
ghost use Rattle.std.specs.Prelude.{◌≡◌, ◌+◌, ◌++◌, ◌<◌, ◌≤◌, ℕ, ⊤, false, true, length};
ghost use Rattle.std.specs.Prelude.{vec_len, vec_capacity};
ghost use Rattle.std.specs.Prelude.{None, Some, IfSome, OnErr, OnOk, MatchOption, if◌then◌else◌};
ghost use Rattle.std.specs.Str.{chars};
ghost use Rattle.bidi.specs.Cuts.{paragraphs, SplitsAt};
ghost use Rattle.lines.specs.Engine.{rules_of, Prints, SameRules};
ghost use Rattle.lines.specs.Layouts.{cut_by, IsParagraph};
ghost use Rattle.lines.specs.Pages.{page, paragraph_bytes};
ghost use Rattle.text_run.specs.Counts.{PrintsAtMost};
ghost use Rattle.text_run.specs.Pages.{prints_some};
ghost use Rattle.text_run.specs.Streaming.{IsEnded, IsFaultAhead, IsOpen, Pushed, StartsLong};
ghost use Rattle.text_run.specs.TextRun.{are_within};

use crate::faults::RunFault;
use crate::page::{counts_fit, prints_some, push_base_direction, push_paragraph};
use bidi::paragraphs_are_pieces;
use lines::{Engine, PARAGRAPH_LIMIT, Print};
use std::alloc::{AllocError, Global};
use stream::{Page, push_characters};

// What the characters after a text show about its first paragraph.
#[derive(Clone, Copy, Debug, PartialEq, Eq)]
enum Ahead {
    // The paragraph is too long.
    TooLong,
    // The paragraph ends.
    Ended,
    // The paragraph may continue.
    Open,
}

/// Returns the fault in the first paragraph of `text` followed by `more`, or `None` if these characters show
/// no fault. Allocates nothing.
///
/// `text` must have no paragraph boundary. `text` and `more` must each have at most `PARAGRAPH_LIMIT`
/// characters. `is_bad` says whether the bytes after `more`, at `place` in the input, are invalid UTF-8.
///
/// - `ParagraphTooLong`: with the characters of `more`, the first paragraph is too long.
/// - `NotUtf8(place)`: the paragraph does not end within `more`, and `is_bad` is true.
pub fn fault_ahead(
    engine: &Engine,
    text: &[char],
    more: &str,
    is_bad: bool,
    place: u64,
) -> Option<RunFault>
    requires uncut { SplitsAt (cut_by (rules_of engine.now)) text.now None }
    requires short { length text.now ≤ PARAGRAPH_LIMIT }
    requires few { length (chars more.now) ≤ PARAGRAPH_LIMIT }
    ensures some { IfSome result (λ fault.
        IsFaultAhead (cut_by (rules_of engine.now)) (text.now ++ chars more.now) is_bad place fault) }
    ensures within { result ≡ None
        → are_within (paragraphs (cut_by (rules_of engine.now)) (text.now ++ chars more.now)) ≡ true }
    ensures ended { result ≡ None → is_bad ≡ true
        → 1 < length (paragraphs (cut_by (rules_of engine.now)) (text.now ++ chars more.now)) }
{
    paragraphs_are_pieces();
    // Fast path: the bytes are nearly always UTF-8, and `text` and `more` together are nearly always short.
    if !is_bad && text.len() + more.len() <= PARAGRAPH_LIMIT {
        return None;
    }
    match look_ahead(engine, text, more) {
        Ahead::TooLong => Some(RunFault::ParagraphTooLong),
        Ahead::Ended => None,
        Ahead::Open => bad_at(is_bad, place),
    }
}

/// Returns `NotUtf8(place)` if `is_bad` says that the bytes at `place` in the input are not UTF-8, and `None`
/// otherwise.
pub fn bad_at(is_bad: bool, place: u64) -> Option<RunFault>
    ensures { result ≡ (if is_bad then Some (RunFault.NotUtf8 place) else None) }
{
    if is_bad {
        Some(RunFault::NotUtf8(place))
    } else {
        None
    }
}

// Returns what `more` shows about the paragraph of `text`, which has no paragraph boundary. `text` and `more`
// must each have at most `PARAGRAPH_LIMIT` characters.
fn look_ahead(engine: &Engine, text: &[char], more: &str) -> Ahead
    requires uncut { SplitsAt (cut_by (rules_of engine.now)) text.now None }
    requires short { length text.now ≤ PARAGRAPH_LIMIT }
    requires few { length (chars more.now) ≤ PARAGRAPH_LIMIT }
    ensures long { result ≡ Ahead.TooLong
        → StartsLong (cut_by (rules_of engine.now)) (text.now ++ chars more.now) }
    ensures ended { result ≡ Ahead.Ended
        → IsEnded (cut_by (rules_of engine.now)) (text.now ++ chars more.now) }
    ensures open { result ≡ Ahead.Open
        → IsOpen (cut_by (rules_of engine.now)) (text.now ++ chars more.now) }
{
    paragraphs_are_pieces();
    let mut len = text.len();
    let mut last = text.last().copied();
    for c in more.chars() {
        if is_cut_after(engine, last, c) {
            return Ahead::Ended;
        }
        if len == PARAGRAPH_LIMIT {
            return Ahead::TooLong;
        }
        len += 1;
        last = Some(c);
    }
    Ahead::Open
}

// Returns whether there is a paragraph boundary between `last` and `c`. Returns `false` if `last` is `None`.
fn is_cut_after(engine: &Engine, last: Option<char>, c: char) -> bool
    ensures cut { result ≡ true
        → (a : ℕ) × (last ≡ Some a) × (cut_by (rules_of engine.now) a c ≡ true) }
    ensures none { result ≡ false
        → MatchOption last ⊤ (λ a. cut_by (rules_of engine.now) a c ≡ false) }
{
    match last {
        Some(last) => engine.is_cut(last, c),
        None => false,
    }
}

/// Adds to a page the lines of the paragraphs that end at a paragraph boundary in the characters of `held`
/// followed by `text`. Keeps the rest of these characters in `held`.
///
/// The characters in `held` must contain no paragraph boundary, and no paragraph may be too long. Allocates
/// only if `text` is not empty. If nothing is printed, allocates before counting any characters.
pub fn push_text(
    alloc: Global,
    page: &mut Page,
    engine: &mut Engine,
    width: u16,
    print: &Print,
    held: &mut Vec<char>,
    text: &str,
) -> Result<(), AllocError>
    requires width { 0 < width }
    requires within { are_within (paragraphs (cut_by (rules_of engine.old))
        (held.old.items ++ chars text.now)) ≡ true }
    requires uncut { SplitsAt (cut_by (rules_of engine.old)) held.old.items None }
    ensures pushed { OnOk result (Pushed (rules_of engine.old) width print.now
        (held.old.items ++ chars text.now) held.new.items
        page.old.bytes.items page.new.bytes.items engine.old engine.new) }
    ensures memory { OnErr result (0 < length text.now) }
    ensures some { OnErr result (prints_some print.now ≡ false → engine.new ≡ engine.old) }
    ensures full { OnErr result (prints_some print.now ≡ false
        → vec_capacity held.old < vec_len held.old + length text.now) }
    ensures at_most { PrintsAtMost (length (held.old.items ++ chars text.now)) print.now
        engine.old engine.new }
    ensures rules { SameRules engine.old engine.new }
{
    if prints_some(print) {
        return push_ended(alloc, page, engine, width, print, held, text);
    }
    held.reserve(text.len())?;
    push_ended(alloc, page, engine, width, print, held, text)
}

// Implements `push_text`. If nothing is printed, `held` already has capacity for all characters.
fn push_ended(
    alloc: Global,
    page: &mut Page,
    engine: &mut Engine,
    width: u16,
    print: &Print,
    held: &mut Vec<char>,
    text: &str,
) -> Result<(), AllocError>
    requires width { 0 < width }
    requires within { are_within (paragraphs (cut_by (rules_of engine.old))
        (held.old.items ++ chars text.now)) ≡ true }
    requires uncut { SplitsAt (cut_by (rules_of engine.old)) held.old.items None }
    requires room { prints_some print.now ≡ false
        → vec_len held.old + length text.now ≤ vec_capacity held.old }
    ensures pushed { OnOk result (Pushed (rules_of engine.old) width print.now
        (held.old.items ++ chars text.now) held.new.items
        page.old.bytes.items page.new.bytes.items engine.old engine.new) }
    ensures memory { OnErr result (0 < length text.now) }
    ensures some { OnErr result (prints_some print.now ≡ true) }
    ensures at_most { PrintsAtMost (length (held.old.items ++ chars text.now)) print.now
        engine.old engine.new }
    ensures rules { SameRules engine.old engine.new }
{
    paragraphs_are_pieces();
    counts_fit(engine);
    let mut rest = text;
    while let Some(end) = engine.first_cut_in_text(held, rest) {
        let (front, after) = rest.split_at(end);
        push_first(alloc, page, engine, width, print, held, front)?;
        held.clear();
        rest = after;
    }
    push_characters(rest, held)
}

// Adds the lines of the paragraph that consists of the characters in `held` and then `front`. May add the
// characters of `front` to `held`. If nothing is printed, `held` already has capacity for them.
fn push_first(
    alloc: Global,
    page: &mut Page,
    engine: &mut Engine,
    width: u16,
    print: &Print,
    held: &mut Vec<char>,
    front: &str,
) -> Result<(), AllocError>
    requires paragraph { IsParagraph (rules_of engine.old) (held.old.items ++ chars front.now) }
    requires width { 0 < width }
    requires room { prints_some print.now ≡ false
        → vec_len held.old + length front.now ≤ vec_capacity held.old }
    ensures ok { OnOk result (page.new.bytes.items ≡ page.old.bytes.items
        ++ paragraph_bytes (rules_of engine.old) width print.now (held.old.items ++ chars front.now)) }
    ensures some { OnErr result (prints_some print.now ≡ true) }
    ensures counts { OnOk result (Prints (length (held.old.items ++ chars front.now)) print.now
        engine.old engine.new) }
    ensures at_most { PrintsAtMost (length (held.old.items ++ chars front.now)) print.now
        engine.old engine.new }
    ensures capacity { vec_capacity held.old ≤ vec_capacity held.new }
    ensures rules { SameRules engine.old engine.new }
{
    // Fast path: if `held` is empty, the whole paragraph is in `front`. Only its first characters decide the
    // direction, so the other characters are not decoded.
    if held.is_empty() && print.skips_lines() {
        return push_base_direction(page, engine, print, front);
    }
    push_characters(front, held)?;
    push_paragraph(alloc, page, engine, width, print, held)
}

/// Adds the lines of all paragraphs of a text to a page. No paragraph may be too long. Uses `held` as a
/// buffer. Allocates only if `held`, the page or a buffer of the engine has to grow.
pub fn push_page(
    alloc: Global,
    lines: &mut Page,
    engine: &mut Engine,
    width: u16,
    print: &Print,
    held: &mut Vec<char>,
    text: &str,
) -> Result<(), AllocError>
    requires width { 0 < width }
    requires within { are_within (paragraphs (cut_by (rules_of engine.old)) (chars text.now)) ≡ true }
    ensures ok { OnOk result (lines.new.bytes.items ≡ lines.old.bytes.items
        ++ page (rules_of engine.old) width print.now
        (paragraphs (cut_by (rules_of engine.old)) (chars text.now))) }
    ensures memory { OnErr result (0 < length text.now) }
    ensures rules { SameRules engine.old engine.new }
{
    held.clear();
    push_text(alloc, lines, engine, width, print, held, text)?;
    if held.is_empty() {
        return Ok(());
    }
    push_paragraph(alloc, lines, engine, width, print, held)?;
    Ok(())
}
