//! Replaces the letters of a line by their presentation forms and ligatures.
ghost use Rattle.std.specs.Prelude.{◌≡◌, ◌<◌, ◌≤◌, ◌&&◌, ℕ, true, false, if◌then◌else◌};
ghost use Rattle.std.specs.Prelude.{length, slice_index, slice_index_or, Some, None};
ghost use Rattle.joining.specs.Joiners.{is_transparent, joiner_at};
ghost use Rattle.joining.specs.Joins.{next_joined};
ghost use Rattle.joining.specs.Shaping.{hidden_characters, is_right_joining, ligature_of, ligature_with};
ghost use Rattle.joining.specs.Shaping.{shown, shown_characters};
ghost use Rattle.joining.specs.declared.joiner.Agreement.TheVariants.{All};

use crate::joiner::{Agreement, Joiner, Joiners};
use crate::joins::{agrees, level_after};
use crate::ligature::lam_alef;
use crate::presentation::{LetterForms, presentation_form};
use ucd_bidi::JoiningType;

// The index of the first character after another that is not transparent, and whether the two join. If there
// is no such character, the index is the number of characters.
#[derive(Clone, Copy)]
struct Next {
    at: usize,
    joined: bool,
}

// Finds the first character after the one at `at` that is not transparent.
fn find_next<J: Joiners>(text: &J, at: usize) -> Next
    requires { at < length (J.all text.now) }
    ensures after { at < result.at }
    ensures within { result.at ≤ length (J.all text.now) }
    ensures between { (m : ℕ) → at < m → m < result.at
        → is_transparent (joiner_at (J.all text.now) m) ≡ true }
    ensures stops { result.at < length (J.all text.now)
        → is_transparent (joiner_at (J.all text.now) result.at) ≡ false }
    ensures found { result.joined ≡ true → result.at < length (J.all text.now) }
    ensures joined { (if result.joined then Some result.at else None)
        ≡ next_joined All (J.all text.now) at }
{
    let len = text.len();
    let first = text.joiner_at(at);
    let mut level = first.level;
    let mut may_join = first.joins_after();
    for k in at + 1..len {
        let next = text.joiner_at(k);
        may_join &= agrees(level, next.level);
        if !next.is_transparent() {
            let joined = may_join && next.joins_before();
            return Next { at: k, joined };
        }
        level = level_after(Agreement::All, level, next.level);
    }
    Next {
        at: len,
        joined: false,
    }
}

// Returns whether a joining type joins only to the right.
fn is_right_joining(joining: JoiningType) -> bool
    ensures { result ≡ is_right_joining joining }
{
    match joining {
        JoiningType::RightJoining => true,
        _ => false,
    }
}

// Returns the ligature of two presentation forms.
fn ligature_of(lam: Option<char>, alef: Option<char>) -> Option<char>
    ensures { result ≡ ligature_of lam alef }
{
    match (lam, alef) {
        (Some(lam), Some(alef)) => match lam_alef(u32::from(lam), u32::from(alef)) {
            Some(ligature) => char::from_u32(ligature),
            None => None,
        },
        _ => None,
    }
}

// Returns the ligature of a character, given its presentation form, and the character `c` that it joins.
fn ligature_with<F: LetterForms>(
    forms: &F,
    first: Joiner,
    form: Option<char>,
    next: Joiner,
    c: char,
) -> Option<char>
    ensures { result ≡ ligature_with first form next (F.forms forms.now c) }
{
    if first.is_rtl() && is_right_joining(next.joining) {
        ligature_of(form, forms.forms_of(c).final_form)
    } else {
        None
    }
}

// Returns the ligature of the character at `at`, given its presentation form, with the next character, if
// they join.
fn ligature_to<J: Joiners, F: LetterForms>(
    text: &J,
    forms: &F,
    characters: &[char],
    at: usize,
    form: Option<char>,
    next: Next,
) -> Option<char>
    requires at { at < length (J.all text.now) }
    requires text { length (J.all text.now) ≡ length characters.now }
    requires found { next.joined ≡ true → next.at < length (J.all text.now) }
    ensures { result ≡ (if next.joined then ligature_with (joiner_at (J.all text.now) at) form
        (joiner_at (J.all text.now) next.at) (F.forms forms.now (slice_index characters.now next.at))
        else None) }
{
    if next.joined {
        let first = text.joiner_at(at);
        ligature_with(
            forms,
            first,
            form,
            text.joiner_at(next.at),
            characters[next.at],
        )
    } else {
        None
    }
}

// Returns what is shown of a character, given its presentation form, and its ligatures with the characters
// before and after it.
fn shown(c: char, form: Option<char>, before: Option<char>, after: Option<char>) -> char
    ensures { result ≡ shown c form before after }
{
    if after.is_some() {
        '\u{FEFF}'
    } else {
        before.or(form).unwrap_or(c)
    }
}

fn clear(hidden: &mut [bool])
    ensures len { length hidden.new ≡ length hidden.old }
    ensures none { (k : ℕ) → slice_index_or hidden.new k false ≡ false }
{
    for k in 0..hidden.len() {
        hidden[k] = false;
    }
}

/// Replaces the characters of a line by those that it shows. Letters become their presentation forms. At odd
/// levels, a lam and an alef that it joins become a ligature, in place of the alef, and U+FEFF, in place of
/// the lam. Stores in `hidden` which characters are such lams, which show nothing.
///
/// Needs time proportional to the length of the line, and allocates nothing.
pub fn join_letters<J: Joiners, F: LetterForms>(
    text: &J,
    forms: &F,
    characters: &mut [char],
    hidden: &mut [bool],
)
    requires text { length (J.all text.now) ≡ length characters.old }
    requires hidden { length hidden.old ≡ length characters.old }
    ensures characters { characters.new
        ≡ shown_characters (F.forms forms.now) (J.all text.now) characters.old }
    ensures hidden { hidden.new
        ≡ hidden_characters (F.forms forms.now) (J.all text.now) characters.old }
{
    clear(hidden);
    let mut at = 0;
    let mut joins_before = false;
    let mut before = None;
    while at < characters.len() {
        let next = find_next(text, at);
        let joiner = text.joiner_at(at);
        let c = characters[at];
        let form = presentation_form(forms, c, joiner, joins_before, next.joined);
        let after = ligature_to(text, forms, characters, at, form, next);
        characters[at] = shown(c, form, before, after);
        hidden[at] = after.is_some();
        at = next.at;
        joins_before = next.joined;
        before = after;
    }
}
