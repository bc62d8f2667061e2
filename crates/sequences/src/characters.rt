//! Characters that have a meaning to a terminal.
ghost use Rattle.std.specs.Prelude.{◌≡◌, ◌≤◌, ℕ, length, slice_index};
ghost use Rattle.std.specs.List.{prefix_len};
ghost use Rattle.sequences.specs.Characters.{ends_piece, is_c1_introducer, is_control, is_dropped, is_inline};
ghost use Rattle.sequences.specs.Characters.{is_kept_control};
ghost use Rattle.sequences.specs.Classes.{is_in};

/// Classes of characters. `prefix_len` counts how many characters of a class a text begins with.
#[derive(Clone, Copy)]
pub(crate) enum Class {
    Parameter,
    Intermediate,
    Inline,
    Sgr,
    Remaining,
}

fn is_control(c: char) -> bool
    ensures { result ≡ is_control c }
{
    c < ' ' || ('\u{7f}' <= c && c < '\u{a0}')
}

fn is_kept_control(c: char) -> bool
    ensures { result ≡ is_kept_control c }
{
    ('\u{9}' <= c && c <= '\u{d}') || ('\u{1c}' <= c && c <= '\u{1e}') || c == '\u{85}'
}

// Returns whether a character is a control that is dropped.
pub(crate) fn is_dropped(c: char) -> bool
    ensures { result ≡ is_dropped c }
{
    is_control(c) && !is_kept_control(c)
}

// Returns whether strings and overstrikes may contain a character.
pub(crate) fn is_inline(c: char) -> bool
    ensures { result ≡ is_inline c }
{
    !(is_control(c) || c == '\u{2028}' || c == '\u{2029}')
}

// Returns whether a text can be split after a character, since the character is neither dropped nor allowed
// in a string.
pub(crate) fn ends_piece(c: char) -> bool
    ensures { result ≡ ends_piece c }
{
    !(is_dropped(c) || is_inline(c))
}

pub(crate) fn is_c1_introducer(c: char) -> bool
    ensures { result ≡ is_c1_introducer c }
{
    '\u{80}' <= c && c < '\u{a0}' && c != '\u{85}'
}

#[inline(always)] // so that each loop over a class tests for this class alone
pub(crate) fn is_in(class: Class, c: char) -> bool
    ensures { result ≡ is_in class c }
{
    match class {
        Class::Parameter => '0' <= c && c <= '?',
        Class::Intermediate => ' ' <= c && c <= '/',
        Class::Inline => is_inline(c),
        Class::Sgr => '0' <= c && c <= ';',
        Class::Remaining => !is_dropped(c),
    }
}

// Returns the length of the longest prefix of a text whose characters are all in a class.
#[inline(always)]
pub(crate) fn prefix_len(class: Class, text: &[char]) -> usize
    ensures len { result ≡ prefix_len (is_in class) text.now }
    ensures within { result ≤ length text.now }
{
    let mut len = 0;
    while len < text.len() && is_in(class, text[len]) {
        len += 1;
    }
    len
}

// Returns the character at an index of a text, or U+0000 past the end.
pub(crate) fn char_at(text: &[char], at: usize) -> char
    ensures { result ≡ slice_index text.now at }
{
    if at < text.len() { text[at] } else { '\0' }
}
