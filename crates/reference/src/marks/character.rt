//! The properties of a character that line breaking needs (UAX #14, LB1, LB9 and LB10).
use ucd::{LineClass, Tables};

/// The properties of a character that the rules need. The class is the class after LB1.
#[derive(Clone, Copy, Debug)]
pub struct Character {
    pub class: LineClass,
    pub is_wide: bool,
    pub is_future_pictograph: bool,
}

impl Character {
    /// Looks a character up in tables.
    pub fn of(tables: &Tables, c: char) -> Character {
        Character {
            class: resolved(tables.line_class(c), tables.is_mark(c)),
            is_wide: tables.is_wide(c),
            is_future_pictograph: tables.is_future_pictograph(c),
        }
    }

    /// Returns the class of a base that begins with the character. LB10: a CM or ZWJ that joins no base is
    /// AL.
    pub fn base_class(&self) -> LineClass {
        match self.class {
            LineClass::CM | LineClass::ZWJ => LineClass::AL,
            class => class,
        }
    }
}

// LB1: returns the class that replaces AI, SG, XX, SA or CJ. Other classes are unchanged.
fn resolved(class: LineClass, is_mark: bool) -> LineClass {
    match class {
        LineClass::AI | LineClass::SG | LineClass::XX => LineClass::AL,
        LineClass::SA if is_mark => LineClass::CM,
        LineClass::SA => LineClass::AL,
        LineClass::CJ => LineClass::NS,
        _ => class,
    }
}
