//! Adds the lines of what a text shows.
ghost use Rattle.std.specs.Prelude.{◌≡◌, ◌≤◌, ◌<◌, ◌++◌, length, OnOk};
ghost use Rattle.lines.specs.Engine.{rules_of, SameRules};
ghost use Rattle.sequences.specs.Styled.{START};
ghost use Rattle.terminal.specs.Texts.{picture, text_page};

use crate::block::{Buffers, push_block};
use crate::ends::{block_len, is_dropped};
use crate::form::Form;
use lines::Engine;
use sequences::Scanner;
use std::alloc::{AllocError, Global};
use stream::Page;

/// Returns what is shown for a character if sequences are shown as text. For a control that is otherwise
/// dropped, this is its picture, U+2400 to U+241F or U+2421, or U+FFFD for a C1 control. Other characters are
/// shown unchanged.
pub fn picture(c: char) -> char
    ensures { result ≡ picture c }
{
    if !is_dropped(c) {
        c
    } else if c == '\u{7f}' {
        '\u{2421}'
    } else if c < ' ' {
        char::from_u32(0x2400 + c as u32).unwrap_or('\u{fffd}')
    } else {
        '\u{fffd}'
    }
}

/// Adds the lines of what a text shows to a page. The text begins in the default style. A paragraph over
/// `PARAGRAPH_LIMIT` is laid out in pieces of this length, in the direction of the first one. After a failed
/// allocation, some lines may be missing.
pub fn push_text(
    alloc: Global,
    page: &mut Page,
    engine: &mut Engine,
    form: &Form<'_>,
    text: &[char],
) -> Result<(), AllocError>
    ensures ok { OnOk result (page.new.bytes.items ≡ page.old.bytes.items
        ++ text_page (rules_of engine.old) form.now START text.now) }
    ensures rules { SameRules engine.old engine.new }
{
    let mut scanner = Scanner::new(alloc);
    let mut buffers = Buffers::new(alloc);
    let mut rest = text;
    while !rest.is_empty() {
        let (block, after) = rest.split_at(block_len(engine, rest));
        push_block(alloc, page, engine, form, &mut scanner, block, &mut buffers)?;
        rest = after;
    }
    Ok(())
}
