//! Finds where the blocks of a text end.
ghost use Rattle.std.specs.Prelude.{◌≡◌, ◌≤◌, ◌<◌, ◌∷◌, None, true, drop, length, slice_index, take};
ghost use Rattle.std.specs.Prelude.{IfSome};
ghost use Rattle.lines.specs.Engine.{rules_of};
ghost use Rattle.lines.specs.Layouts.{cut_by};
ghost use Rattle.sequences.specs.Characters.{is_dropped};
ghost use Rattle.sequences.specs.Known.{knows_sequence};
ghost use Rattle.terminal.specs.Ends.{knows_next};
ghost use Rattle.terminal.specs.Passed.{Skips};
ghost use Rattle.terminal.specs.Texts.{blocks, ends_block, is_apart, next_character};

use lines::Engine;
use sequences::sequence_len;

/// Returns whether a character is a control other than U+0009 to U+000D, U+001C to U+001E and U+0085.
pub(crate) fn is_dropped(c: char) -> bool
    ensures { result ≡ is_dropped c }
{
    (c < ' ' || ('\u{7f}' <= c && c < '\u{a0}'))
        && !(('\u{9}' <= c && c <= '\u{d}') || ('\u{1c}' <= c && c <= '\u{1e}') || c == '\u{85}')
}

/// Returns whether a character cannot be in a sequence or an overstrike, and is not dropped.
pub(crate) fn is_apart(c: char) -> bool
    ensures { result ≡ is_apart c }
{
    ('\u{9}' <= c && c <= '\u{d}')
        || ('\u{1c}' <= c && c <= '\u{1e}')
        || c == '\u{85}'
        || c == '\u{2028}'
        || c == '\u{2029}'
}

/// Returns the length of the sequence or dropped control at the start of a text, or `None` if there is
/// neither.
pub(crate) fn skipped_len(text: &[char]) -> Option<usize>
    requires { 0 < length text.now }
    ensures within { IfSome result (λ n. (0 < n) × (n ≤ length text.now)) }
    ensures some { IfSome result (λ n. next_character text.now ≡ next_character (drop n text.now)) }
    ensures none { result ≡ None → next_character text.now ≡ slice_index text.now 0 }
    ensures skips { IfSome result (λ n. knows_sequence text.now ≡ true → Skips n text.now) }
    ensures alone { result ≡ None → knows_next text.now ≡ true }
{
    if let Some(len) = sequence_len(text) {
        Some(len)
    } else if is_dropped(text[0]) {
        Some(1)
    } else {
        None
    }
}

// Returns the first character of a text that is neither in a sequence nor dropped, or U+0000 if there is
// none.
fn next_character(text: &[char]) -> char
    ensures { result ≡ next_character text.now }
{
    let mut at = 0;
    while at < text.len() {
        match skipped_len(text.split_at(at).1) {
            Some(len) => at += len,
            None => return text[at],
        }
    }
    '\0'
}

// Returns whether a block ends after a character, given the text after it.
fn ends_block(engine: &Engine, c: char, text: &[char]) -> bool
    ensures { result ≡ ends_block (cut_by (rules_of engine.now)) c text.now }
{
    if !is_apart(c) {
        return false;
    }
    // The next character matters only after CR.
    if c == '\r' {
        return engine.is_cut(c, next_character(text));
    }
    engine.is_cut(c, '\0')
}

/// Returns the length of the first block of a text.
pub(crate) fn block_len(engine: &Engine, text: &[char]) -> usize
    requires { 0 < length text.now }
    ensures within { (0 < result) × (result ≤ length text.now) }
    ensures block { blocks (cut_by (rules_of engine.now)) text.now
        ≡ take result text.now ∷ blocks (cut_by (rules_of engine.now)) (drop result text.now) }
{
    for k in 0..text.len() {
        let (front, rest) = text.split_at(k + 1);
        if ends_block(engine, front[k], rest) {
            return k + 1;
        }
    }
    text.len()
}
