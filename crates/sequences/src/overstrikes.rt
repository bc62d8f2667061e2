//! Characters that are struck over each other by BS.
ghost use Rattle.std.specs.Prelude.{◌≡◌, ◌<◌, ◌≤◌, ◌+◌, ◌*◌, ◌∷◌, [], length, fold, MatchOption};
ghost use Rattle.sequences.specs.Overstrikes.{after_backspaces, is_underlined_only, strike, strikes, struck};
ghost use Rattle.sequences.specs.Overstrikes.{struck_look};

use crate::characters::is_inline;
use crate::look::{Look, Underline};

pub(crate) const BS: char = '\u{8}';

const LOW_LINE: char = '_';

/// What is shown at a position: a character, and the attributes that overstrikes add to it.
#[derive(Clone, Copy)]
pub(crate) struct Struck {
    pub shown: char,
    pub bold: bool,
    pub underlined: bool,
}

// Returns what is shown at a position after one more character is struck there.
fn strike(after_underline: bool, at: Struck, c: char) -> Struck
    ensures { result ≡ strike after_underline at c }
{
    let plain = Struck {
        shown: c,
        bold: false,
        underlined: false,
    };
    if c == at.shown {
        if c != LOW_LINE {
            Struck { bold: true, ..at }
        } else if at.bold || at.underlined {
            Struck {
                bold: true,
                underlined: true,
                ..at
            }
        } else {
            Struck {
                bold: !after_underline,
                underlined: after_underline,
                ..at
            }
        }
    } else if c == LOW_LINE {
        Struck {
            underlined: true,
            ..at
        }
    } else if at.shown == LOW_LINE {
        Struck {
            underlined: true,
            ..plain
        }
    } else {
        plain
    }
}

// Returns the character that follows a BS at the start of a text, and the text after it. Returns `None` if
// the text does not begin with a BS and a character that overstrikes may contain.
fn after_backspace(text: &[char]) -> Option<(char, &[char])>
    ensures { MatchOption result (after_backspaces text.now ≡ []) (λ found.
        (after_backspaces text.now ≡ found.0 ∷ after_backspaces found.1.now)
        × (length found.1.now + 2 ≤ length text.now)) }
{
    match text {
        [b, c, rest @ ..] if *b == BS && is_inline(*c) => Some((*c, rest)),
        _ => None,
    }
}

/// Strikes over `first` the characters that follow it, each after a BS. Returns the result and the number of
/// these characters. `text` is the text after `first`.
pub(crate) fn struck_first(after_underline: bool, first: char, text: &[char]) -> (Struck, usize)
    ensures struck { result.0 ≡ struck after_underline first text.now }
    ensures count { result.1 ≡ length (strikes first text.now) }
    ensures within { 2 * result.1 ≤ length text.now }
{
    let at = Struck {
        shown: first,
        bold: false,
        underlined: false,
    };
    if is_inline(first) {
        strike_all(after_underline, at, text)
    } else {
        (at, 0)
    }
}

// Implements `struck_first` for a character that can be struck over.
fn strike_all(after_underline: bool, first: Struck, text: &[char]) -> (Struck, usize)
    ensures struck { result.0 ≡ fold (strike after_underline) first (after_backspaces text.now) }
    ensures count { result.1 ≡ length (after_backspaces text.now) }
    ensures within { 2 * result.1 ≤ length text.now }
{
    let mut at = first;
    let mut count = 0;
    let mut rest = text;
    while let Some((c, more)) = after_backspace(rest) {
        at = strike(after_underline, at, c);
        count += 1;
        rest = more;
    }
    (at, count)
}

// Returns whether attributes include an underline but not bold.
pub(crate) fn is_underlined_only(look: Look) -> bool
    ensures { result ≡ is_underlined_only look }
{
    look.underline.is_some() && !look.bold
}

// Returns the attributes at a position: those that SGR has set, changed by the overstrikes there.
pub(crate) fn struck_look(look: Look, at: Struck) -> Look
    ensures { result ≡ struck_look look at }
{
    Look {
        bold: look.bold || at.bold,
        underline: if at.underlined {
            Some(Underline::Single)
        } else {
            look.underline
        },
        ..look
    }
}
