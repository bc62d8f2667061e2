//! What the rules need to know about the bases before a position, updated in one pass over the characters. So
//! the rules never look back, however long the run of spaces or RI before a position is.

use crate::marks::character::Character;
use crate::marks::classes::{BK, CM, CR, LF, NL, SP, ZW, ZWJ, has};
use crate::marks::rules::{Numbers, mark_between};
use breaks::Mark;
use ucd::LineClass;

/// What the rules need to know about the bases before a position.
#[derive(Clone, Copy, Debug)]
pub struct Before {
    /// The class of the last base.
    pub class: LineClass,
    /// Whether the last base is wide.
    pub is_wide: bool,
    /// Whether the last base is Extended_Pictographic and unassigned.
    pub is_future_pictograph: bool,
    /// The class of the last character, which is directly before the position.
    pub end: LineClass,
    /// The class of the base before the last base.
    pub second: Option<LineClass>,
    /// The class of the last base that is not a space.
    pub unspaced: Option<LineClass>,
    /// Whether the bases end in an odd number of RI.
    pub is_odd_run: bool,
}

impl Before {
    /// Returns the state after the first character of a text.
    pub fn start(first: &Character) -> Before {
        Before::begun(first, None, None, false)
    }

    /// Returns the mark of the position before the next character, and moves past that character.
    pub fn pass(&mut self, next: &Character, numbers: Numbers) -> Mark {
        if self.keeps(next) {
            self.end = next.class;
            return Mark::Never;
        }
        let mark = mark_between(self, next, numbers);
        *self = Before::begun(next, Some(self.class), self.unspaced, self.is_odd_run);
        mark
    }

    /// LB9: returns whether the character joins the last base.
    pub fn keeps(&self, next: &Character) -> bool {
        has(CM | ZWJ, next.class) && !has(BK | CR | LF | NL | SP | ZW, self.end)
    }

    // Returns the state after the first character of a base, given the parts of the earlier state that are
    // kept.
    fn begun(
        first: &Character,
        second: Option<LineClass>,
        unspaced: Option<LineClass>,
        is_odd_run: bool,
    ) -> Before {
        let class = first.base_class();
        Before {
            class,
            is_wide: first.is_wide,
            is_future_pictograph: first.is_future_pictograph,
            end: first.class,
            second,
            unspaced: if class == LineClass::SP {
                unspaced
            } else {
                Some(class)
            },
            is_odd_run: class == LineClass::RI && !is_odd_run,
        }
    }
}
