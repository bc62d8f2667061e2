//! The base level of a paragraph (UAX #9, P2, P3 and HL1).
ghost use Rattle.std.specs.Prelude.{◌≡◌, ◌+◌, ◌-◌, ◌<◌, map, if◌then◌else◌};
ghost use Rattle.std.specs.Str.{chars};
ghost use Rattle.ucd.specs.Tables.{class_of};
ghost use Rattle.bidi.specs.Base.{base_level_of, first_strong_level, strong_level};
ghost use Rattle.ucd.specs.Classes.{class_in, is_initiator, is_pdi, is_strong};

use ucd::{BidiClass, Classes, KnownClasses, ListedClasses, Properties, Tables, TextClasses};

/// How the base level of a paragraph is determined.
#[derive(Clone, Copy, Debug, PartialEq, Eq)]
pub enum Base {
    /// Always level 1.
    Rtl,
    /// Always level 0.
    Ltr,
    /// The level of the first strong character, or level 1 if there is none.
    WeakRtl,
    /// The level of the first strong character, or level 0 if there is none.
    WeakLtr,
}

impl Default for Base {
    ghost use Rattle.bidi.specs.declared.base.Base.TheVariants.{WeakLtr};

    // The command-line programs have the same default.
    ghost is_default = { λ base. base ≡ WeakLtr };

    fn default() -> Base {
        Base::WeakLtr
    }
}

/// Returns the base level of one paragraph, 0 or 1.
pub fn base_level(tables: &Tables, text: &[char], base: Base) -> u8
    ensures { result ≡ base_level_of (map (class_of tables.now) text.now) base }
{
    base_level_in(&TextClasses { tables, text }, base)
}

/// Returns the base level of one paragraph of UTF-8 text, 0 or 1. Decodes only the characters up to the one
/// that decides the level, and none if `base` is `Rtl` or `Ltr`.
pub fn base_level_in_text(tables: &Tables, text: &str, base: Base) -> u8
    ensures { result ≡ base_level_of (map (class_of tables.now) (chars text.now)) base }
{
    match base {
        Base::Rtl => 1,
        Base::Ltr => 0,
        Base::WeakRtl => first_strong_level_in_text(tables, text).unwrap_or(1),
        Base::WeakLtr => first_strong_level_in_text(tables, text).unwrap_or(0),
    }
}

/// Returns the base level of one paragraph, 0 or 1, given the properties of its characters.
pub fn base_level_by(properties: &[Properties], base: Base) -> u8
    ensures { result ≡ base_level_of (map class_in properties.now) base }
{
    base_level_in(&KnownClasses { properties }, base)
}

/// Returns the base level of one paragraph, 0 or 1, given the classes of its characters.
pub fn base_level_of(classes: &[BidiClass], base: Base) -> u8
    ensures { result ≡ base_level_of classes.now base }
{
    base_level_in(&ListedClasses { classes }, base)
}

fn base_level_in<C: Classes>(classes: &C, base: Base) -> u8
    ensures { result ≡ base_level_of (C.all classes.now) base }
{
    match base {
        Base::Rtl => 1,
        Base::Ltr => 0,
        Base::WeakRtl => first_strong_level(classes).unwrap_or(1),
        Base::WeakLtr => first_strong_level(classes).unwrap_or(0),
    }
}

/// Returns the level of the first strong character outside all isolates (P2 and P3), or `None` if there is
/// none.
pub fn first_strong_level<C: Classes>(classes: &C) -> Option<u8>
    ensures { result ≡ first_strong_level (C.all classes.now) }
{
    // The number of open isolates. If it is 0, the character is outside all isolates.
    let mut depth = 0;
    for k in 0..classes.len() {
        let class = classes.class_at(k);
        let level = strong_level(class);
        if depth == 0 && level.is_some() {
            return level;
        }
        depth = depth_after(class, depth);
    }
    None
}

// Implements `first_strong_level` for UTF-8 text.
fn first_strong_level_in_text(tables: &Tables, text: &str) -> Option<u8>
    ensures { result ≡ first_strong_level (map (class_of tables.now) (chars text.now)) }
{
    let mut depth = 0;
    for c in text.chars() {
        let class = tables.bidi_class(c);
        let level = strong_level(class);
        if depth == 0 && level.is_some() {
            return level;
        }
        depth = depth_after(class, depth);
    }
    None
}

/// Returns the level of a strong class, or `None` for any other class.
pub(crate) fn strong_level(class: BidiClass) -> Option<u8>
    ensures { result ≡ (if is_strong class then Some (strong_level class) else None) }
{
    match class {
        BidiClass::L => Some(0),
        BidiClass::R | BidiClass::AL => Some(1),
        _ => None,
    }
}

// Returns the number of open isolates after a character of this class, given the number before it. A PDI
// closes one isolate, if any is open.
fn depth_after(class: BidiClass, depth: usize) -> usize
    requires { depth < usize.MAX }
    ensures { result ≡ (if is_initiator class then depth + 1 else
        (if is_pdi class then depth - 1 else depth)) }
{
    match class {
        BidiClass::LRI | BidiClass::RLI | BidiClass::FSI => depth + 1,
        BidiClass::PDI => depth.saturating_sub(1),
        _ => depth,
    }
}
