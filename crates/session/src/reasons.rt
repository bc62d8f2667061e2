//! Finds how the algorithms arrive at the level and the break mark of a character.
ghost use Rattle.std.specs.Prelude.{◌≡◌, ◌<◌, All, is_none, length, nat_le, IfOk, OnErr, Some};
ghost use Rattle.lines.specs.Engine.{rules_of};
ghost use Rattle.session.specs.Kept.{text_of};
ghost use Rattle.session.specs.Places.{IsLined};
ghost use Rattle.session.specs.Reasons.{reasons_at, reasons_in};

use crate::kept::Kept;
use bidi::LevelReason;
use breaks::Reason;
use lines::Engine;
use std::alloc::{AllocError, Global};
use store::ParagraphStore;

/// How the algorithms arrive at the level and the break mark of a character.
#[derive(Clone, Copy)]
pub struct CharReasons {
    /// The position at which the character's paragraph starts.
    pub paragraph_start: usize,
    /// The reason for the level (UAX #9). Its positions are counted from the start of the paragraph.
    pub level: LevelReason,
    /// The reason for the break mark after the character (UAX #14). Its positions are also counted from the
    /// start of the paragraph.
    pub mark: Reason,
}

// Returns the reasons for character `k` of a paragraph that starts at `start`.
fn reasons_in(
    engine: &Engine,
    alloc: Global,
    start: usize,
    text: &[char],
    k: usize,
) -> Result<CharReasons, AllocError>
    requires { k < length text.now }
    ensures { IfOk result (λ reasons. Some reasons ≡ reasons_in (rules_of engine.now) start text.now k) }
{
    let levels = engine.level_reasons(alloc, text)?;
    let marks = engine.break_reasons(alloc, text)?;
    Ok(CharReasons {
        paragraph_start: start,
        level: levels[k],
        mark: marks[k],
    })
}

/// Returns the reasons for the character at a position, or `None` past the last character.
pub fn reasons_of<S: ParagraphStore<Kept>>(
    store: &S,
    engine: &Engine,
    alloc: Global,
    pos: usize,
) -> Result<Option<CharReasons>, AllocError>
    requires { All IsLined (S.items store.now) }
    ensures ok { IfOk result (λ reasons. reasons
        ≡ reasons_at (rules_of engine.now) (S.items store.now) pos) }
    ensures none { IfOk result (λ reasons. is_none reasons
        ≡ nat_le (length (text_of (S.items store.now))) pos) }
    ensures memory { OnErr result (pos < length (text_of (S.items store.now))) }
{
    // The contract of `total_chars` bounds the number of characters.
    let len = store.total_chars();
    if pos >= len {
        return Ok(None);
    }
    let found = store.find_char(pos);
    match store.get(found.index) {
        Some(kept) => {
            let (text, start) = (kept.laid().text(), pos - found.rest);
            let reasons = reasons_in(engine, alloc, start, text, found.rest)?;
            Ok(Some(reasons))
        }
        None => unreachable!(),
    }
}
