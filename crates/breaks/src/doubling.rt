//! Characters that can be doubled: a character of the same kind can be inserted next to them, and no other
//! break mark changes.
ghost use Rattle.std.specs.Prelude.{◌≡◌, true};
ghost use Rattle.breaks.specs.Bases.{character};
ghost use Rattle.breaks.specs.Doubling.{can_be_doubled, mark_between, mark_if_doubled};
ghost use Rattle.breaks.specs.Seen.{character_in};

use crate::bases::{Character, is_one_of, look_up};
use crate::mark::Mark;
use ucd::{LineClass, LineDetail, Tables};

/// Returns the break mark between two characters of the same kind as `c`, or `None` if such a character
/// cannot be doubled (see `doubling_keeps_marks`).
pub fn mark_if_doubled(tables: &Tables, c: char) -> Option<Mark>
    ensures { result ≡ mark_if_doubled (character tables.now c) }
{
    let character = look_up(tables, c);
    if can_be_doubled(character) {
        Some(mark_between(character.class))
    } else {
        None
    }
}

/// Returns whether two characters are of the same kind: the rules read the same properties of both.
pub fn are_of_one_kind(tables: &Tables, c: char, d: char) -> bool
    ensures yes { result ≡ true → character tables.now d ≡ character tables.now c }
    ensures no { character tables.now d ≡ character tables.now c → result ≡ true }
{
    look_up(tables, c) == look_up(tables, d)
}

// Returns whether a character can be doubled.
fn can_be_doubled(c: Character) -> bool
    ensures { result ≡ can_be_doubled (character_in c) }
{
    const CLASSES: [LineClass; 5] = [
        LineClass::SP,
        LineClass::NU,
        LineClass::AL,
        LineClass::HL,
        LineClass::ID,
    ];
    is_one_of(&CLASSES, c.class) && c.detail != LineDetail::DottedCircle
}

// Returns the break mark between two characters of this class.
fn mark_between(class: LineClass) -> Mark
    ensures { result ≡ mark_between class }
{
    match class {
        LineClass::ID => Mark::May,
        _ => Mark::Never,
    }
}
