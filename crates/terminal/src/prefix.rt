//! Prefixes of paragraphs.
ghost use Rattle.std.specs.Prelude.{◌≡◌, ◌≤◌, None, false, encode_utf8_all, length, string_bytes, IfOk};
ghost use Rattle.regex.specs.Strings.{match_haystack, match_span, regex_pattern};
ghost use Rattle.lines.specs.Engine.{rules_of, SameRules};
ghost use Rattle.lines.specs.Layouts.{base_of, IsParagraph, visuals};
ghost use Rattle.terminal.specs.Prefixes.{match_len, narrow_line, prefix_base, prefix_layout};
ghost use Rattle.terminal.specs.Prefixes.{prefix_len, prefix_options, quote_from, quoted};
ghost use Rattle.terminal.specs.Prefixes.{span_len, without_separator};

use crate::form::Prefix;
use crate::paragraph::lay_out;
use bidi::Base;
use lines::{Engine, Laid, Options, VisualLine, char_count};
use regex::{Match, Regex};
use std::alloc::{AllocError, Global};

// Returns whether a space may follow a character of a quote, or `None` if the character is not part of the
// quote. `spaced` is whether this character itself may be a space.
fn quoted(spaced: bool, c: char) -> Option<bool>
    ensures { result ≡ quoted spaced c }
{
    if c == '>' {
        Some(true)
    } else if spaced && c == ' ' {
        Some(false)
    } else {
        None
    }
}

// Returns the length of the longest match of `(> ?)+` at the start of a text.
fn quote_len(text: &[char]) -> usize
    ensures value { result ≡ quote_from false text.now }
    ensures within { result ≤ length text.now }
{
    let mut spaced = false;
    for k in 0..text.len() {
        match quoted(spaced, text[k]) {
            Some(next) => spaced = next,
            None => return k,
        }
    }
    text.len()
}

// Returns a paragraph without its separator.
fn without_separator<'a>(engine: &Engine, text: &'a [char]) -> &'a [char]
    ensures value { result.now ≡ without_separator (rules_of engine.now).tables text.now }
{
    let len = text.len();
    if len == 0 {
        return text;
    }
    let separator = engine.separator_len(text[len.saturating_sub(2)], text[len - 1]);
    &text[..len.saturating_sub(separator)]
}

// Returns characters as UTF-8.
fn encoded(alloc: Global, text: &[char]) -> Result<String, AllocError>
    ensures { IfOk result (λ string. string_bytes string ≡ encode_utf8_all text.now) }
{
    let mut string = String::new(alloc);
    for c in text {
        string.push(*c)?;
    }
    Ok(string)
}

// Returns the number of characters of a match, or 0 if the match does not begin at the start of the text.
fn span_len(found: &Match<'_>) -> usize
    ensures { result ≡ span_len (match_haystack found.now) (match_span found.now) }
{
    if found.start() == 0 {
        char_count(found.as_str())
    } else {
        0
    }
}

// Returns the number of characters that a pattern matches at the start of a text, or 0 if it does not match
// there. Needs time linear in the length of the text.
fn match_len(alloc: Global, regex: &Regex, text: &[char]) -> Result<usize, AllocError>
    ensures { IfOk result (λ len. len ≡ match_len (regex_pattern regex.now) text.now) }
{
    let string = encoded(alloc, text)?;
    let mut matcher = regex.matcher(alloc)?;
    match matcher.find(string.as_str()) {
        Some(found) => Ok(span_len(&found)),
        None => Ok(0),
    }
}

/// Returns the length of the prefix that a paragraph begins with, or 0 if there is none.
pub(crate) fn prefix_len(
    alloc: Global,
    engine: &Engine,
    prefix: &Prefix<'_>,
    text: &[char],
) -> Result<usize, AllocError>
    ensures value { IfOk result (λ len.
        len ≡ prefix_len (rules_of engine.now).tables prefix.now text.now) }
    ensures within { IfOk result (λ len. len ≤ length text.now) }
{
    match prefix {
        Prefix::None => Ok(0),
        Prefix::Quotes => Ok(quote_len(text)),
        Prefix::Pattern(regex) => {
            let len = match_len(alloc, *regex, without_separator(engine, text))?;
            Ok(text.len().min(len))
        }
    }
}

/// Returns the base level of a prefix, given the text after it.
pub(crate) fn prefix_base(engine: &mut Engine, prefix: &Prefix<'_>, rest: &[char]) -> u8
    ensures base { result ≡ prefix_base prefix.now (base_of (rules_of engine.old) rest.now) }
    ensures rules { SameRules engine.old engine.new }
{
    match prefix {
        Prefix::None | Prefix::Quotes => engine.find_base(rest),
        Prefix::Pattern(_) => 0,
    }
}

// Returns the options for a prefix in the direction of a base level.
fn prefix_options(options: Options, base: u8) -> Options
    ensures { result ≡ prefix_options options base }
{
    Options {
        base: if base % 2 == 1 { Base::Rtl } else { Base::Ltr },
        nobreak: true,
        show_spaces: true,
        ..options
    }
}

/// Lays out a prefix as a separate line, in the direction of a base level.
pub(crate) fn lay_out_prefix(
    alloc: Global,
    engine: &mut Engine,
    base: u8,
    text: &[char],
) -> Result<Laid, AllocError>
    requires { IsParagraph (rules_of engine.old) text.now }
    ensures laid { IfOk result (λ laid. laid ≡ prefix_layout (rules_of engine.old) base text.now) }
    ensures plain { IfOk result (λ laid. laid.advances ≡ None) }
    ensures rules { SameRules engine.old engine.new }
{
    let own = engine.options();
    engine.set_options(prefix_options(own, base));
    let laid = lay_out(alloc, engine, u32::MAX, text);
    engine.set_options(own);
    laid
}

/// Returns the only line of a layout, or `None` if there are several or it is not narrower than the width.
pub(crate) fn narrow_line(laid: &Laid, width: u32) -> Option<VisualLine<'_>>
    ensures { result ≡ narrow_line width (visuals laid.now) }
{
    if laid.line_count() != 1 {
        return None;
    }
    let line = laid.line(0)?;
    if line.columns() < width {
        Some(line)
    } else {
        None
    }
}
