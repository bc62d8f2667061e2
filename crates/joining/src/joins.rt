//! Finds the character that a character joins.
ghost use Rattle.std.specs.Prelude.{◌≡◌, ◌<◌, length, IfSome};
ghost use Rattle.joining.specs.Joins.{agrees, level_after, next_joined};

use crate::joiner::{Agreement, Joiner, Joiners};

// Returns whether a character may follow characters of a level: it has the same level, or one of the two is
// `None`.
pub(crate) fn agrees(level: Option<u8>, next: Option<u8>) -> bool
    ensures { result ≡ agrees level next }
{
    match level {
        None => true,
        Some(level) => match next {
            None => true,
            Some(next) => level == next,
        },
    }
}

// Returns the level of the characters up to and including one that agrees with those before it.
pub(crate) fn level_after(by: Agreement, level: Option<u8>, next: Option<u8>) -> Option<u8>
    ensures { result ≡ level_after by level next }
{
    match by {
        Agreement::WithFirst => level,
        Agreement::All => match level {
            None => next,
            Some(level) => Some(level),
        },
    }
}

/// Returns the index of the character after `at` that joins the character at `at`, or `None` if there is
/// none. Needs time proportional to the number of transparent characters between them.
pub fn next_joined<J: Joiners>(text: &J, by: Agreement, at: usize) -> Option<usize>
    requires { at < length (J.all text.now) }
    ensures joined { result ≡ next_joined by (J.all text.now) at }
    ensures within { IfSome result (λ b. (at < b) × (b < length (J.all text.now))) }
{
    let len = text.len();
    let first = text.joiner_at(at);
    if !first.joins_after() {
        return None;
    }
    let mut level = first.level;
    for k in at + 1..len {
        let next = text.joiner_at(k);
        if !agrees(level, next.level) {
            return None;
        }
        if !next.is_transparent() {
            return if next.joins_before() { Some(k) } else { None };
        }
        level = level_after(by, level, next.level);
    }
    None
}
