//! The levels of adjacent characters of the same kind.
ghost use Rattle.bidi.specs.Doubling.{DoublingKeepsLevels};

/// States, as a theorem, that a character inserted directly next to a character of the same class gets the
/// same level, and changes no other level. This holds for characters of the classes L, R, AL, EN, ET, AN, S,
/// WS and ON that are not brackets. Costs nothing at run time.
pub fn doubling_keeps_levels()
    ensures { DoublingKeepsLevels }
{}
