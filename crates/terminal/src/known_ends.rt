//! Finds the ends of blocks that are known before a text is complete.
ghost use Rattle.std.specs.Prelude.{◌≡◌, ◌+◌, ◌≤◌, ℕ, false, true, drop, length, IfErr, IfOk};
ghost use Rattle.lines.specs.Engine.{rules_of};
ghost use Rattle.lines.specs.Layouts.{cut_by};
ghost use Rattle.terminal.specs.Ends.{knows_next, AreNoEnds, IsFirst, IsOpen};
ghost use Rattle.terminal.specs.Passed.{HasPassed};
ghost use Rattle.terminal.specs.Texts.{ends_block};

use crate::ends::is_apart;
use crate::passed::{Passed, known_next};
use lines::Engine;

/// The first end of a block in a text, if it is known.
#[derive(Clone, Copy)]
pub(crate) enum FirstEnd {
    /// The block has this number of characters.
    At(usize),
    /// The end is not known. No block ends before this index, which is the length of the text or the index of
    /// a CR. The second field is how far the text after the CR was scanned.
    After(usize, Passed),
}

// Returns whether a block ends after a character, given the text after it. If that depends on what follows
// the text, returns how far the text has been scanned by now.
fn ends_known(engine: &Engine, c: char, text: &[char], passed: Passed) -> Result<bool, Passed>
    requires { HasPassed passed text.now }
    ensures ends { IfOk result (λ ends. ends ≡ ends_block (cut_by (rules_of engine.now)) c text.now) }
    ensures known { IfOk result (λ ends. c ≡ 0x0D → knows_next text.now ≡ true) }
    ensures unknown { IfErr result (λ now. (c ≡ 0x0D) × (knows_next text.now ≡ false)) }
    ensures passed { IfErr result (λ now. HasPassed now text.now) }
{
    if !is_apart(c) {
        return Ok(false);
    }
    // The next character matters only after CR.
    if c == '\r' {
        match known_next(text, passed) {
            Ok(next) => Ok(engine.is_cut(c, next)),
            Err(passed) => Err(passed),
        }
    } else {
        Ok(engine.is_cut(c, '\0'))
    }
}

// Does the same as `first_end`, one character at a time.
fn search_end(engine: &Engine, text: &[char], from: usize, passed: Passed) -> FirstEnd
    requires within { from ≤ length text.now }
    requires none { AreNoEnds (cut_by (rules_of engine.now)) from text.now }
    requires passed { HasPassed passed (drop (from + 1) text.now) }
    ensures at { (n : ℕ) → result ≡ FirstEnd.At n → IsFirst (cut_by (rules_of engine.now)) n text.now }
    ensures open { (n : ℕ) (now : Passed) → result ≡ FirstEnd.After n now
        → IsOpen (cut_by (rules_of engine.now)) n text.now }
    ensures passed { (n : ℕ) (now : Passed) → result ≡ FirstEnd.After n now
        → HasPassed now (drop (n + 1) text.now) }
{
    let mut passed = passed;
    for k in from..text.len() {
        let (front, rest) = text.split_at(k + 1);
        match ends_known(engine, front[k], rest, passed) {
            Ok(true) => return FirstEnd::At(k + 1),
            Ok(false) => passed = Passed::nothing(),
            Err(passed) => return FirstEnd::After(k, passed),
        }
    }
    FirstEnd::After(text.len(), Passed::nothing())
}

// Returns the index of the first character at or after `from` that is followed by a paragraph boundary, or
// the index of the last character if there is none. No block ends before this index, whatever follows the
// text.
fn skip_uncut(engine: &Engine, text: &[char], from: usize) -> usize
    requires within { from ≤ length text.now }
    requires none { AreNoEnds (cut_by (rules_of engine.now)) from text.now }
    ensures within { (from ≤ result) × (result ≤ length text.now) }
    ensures none { AreNoEnds (cut_by (rules_of engine.now)) result text.now }
{
    let (_, rest) = text.split_at(from);
    match engine.first_cut(rest) {
        Some(n) => from + (n - 1),
        None => from + rest.len().saturating_sub(1),
    }
}

/// Finds the first end of a block in a text. It must be known that no block ends before `from`, whatever
/// follows the text. `passed` is how far the text after the character at `from` was scanned.
pub(crate) fn first_end(engine: &Engine, text: &[char], from: usize, passed: Passed) -> FirstEnd
    requires within { from ≤ length text.now }
    requires none { AreNoEnds (cut_by (rules_of engine.now)) from text.now }
    requires passed { HasPassed passed (drop (from + 1) text.now) }
    ensures at { (n : ℕ) → result ≡ FirstEnd.At n → IsFirst (cut_by (rules_of engine.now)) n text.now }
    ensures open { (n : ℕ) (now : Passed) → result ≡ FirstEnd.After n now
        → IsOpen (cut_by (rules_of engine.now)) n text.now }
    ensures passed { (n : ℕ) (now : Passed) → result ≡ FirstEnd.After n now
        → HasPassed now (drop (n + 1) text.now) }
{
    // Fast path: `first_cut` tests many characters together.
    let start = skip_uncut(engine, text, from);
    if start > from {
        return search_end(engine, text, start, Passed::nothing());
    }
    search_end(engine, text, from, passed)
}
