//! Break marks (UAX #14): at each position, the rules are checked one after another, in the order of the
//! annex.
mod before;
mod character;
mod classes;
mod numbers;
mod rules;

use crate::marks::before::Before;
use crate::marks::character::Character;
use crate::marks::numbers::is_in_number;
use crate::marks::rules::Numbers;
use breaks::Mark;
use std::alloc::AllocError;
use ucd::{LineClass, Tables};

/// Replaces the contents of `marks` with the mark of the position after each character of a text. Uses
/// `classes` as scratch space for the classes of the bases.
pub fn reference_marks(
    tables: &Tables,
    text: &[char],
    whole_numbers: bool,
    classes: &mut Vec<LineClass>,
    marks: &mut Vec<Mark>,
) -> Result<(), AllocError> {
    marks.clear();
    classes.clear();
    let Some((first, rest)) = text.split_first() else {
        return Ok(());
    };
    let first = Character::of(tables, *first);
    list_classes(tables, &first, rest, classes)?;
    let mut before = Before::start(&first);
    let mut base: usize = 1;
    for c in rest {
        let next = Character::of(tables, *c);
        let begins = !before.keeps(&next);
        let numbers = if !whole_numbers {
            Numbers::Pairs
        } else if begins && is_in_number(classes, base) {
            Numbers::Inside
        } else {
            Numbers::Outside
        };
        marks.push(before.pass(&next, numbers))?;
        if begins {
            base = base.saturating_add(1);
        }
    }
    marks.push(Mark::Must)?;
    Ok(())
}

// Appends the class of each base to `classes`.
fn list_classes(
    tables: &Tables,
    first: &Character,
    rest: &[char],
    classes: &mut Vec<LineClass>,
) -> Result<(), AllocError> {
    classes.push(first.base_class())?;
    let mut before = Before::start(first);
    for c in rest {
        let next = Character::of(tables, *c);
        if !before.keeps(&next) {
            classes.push(next.base_class())?;
        }
        before.pass(&next, Numbers::Pairs);
    }
    Ok(())
}
