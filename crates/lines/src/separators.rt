//! The characters that end lines and paragraphs.
ghost use Rattle.std.specs.Prelude.{◌≡◌};
ghost use Rattle.lines.specs.Separators.{ends_line};

use ucd::{BidiClass, LineClass, Tables};

/// Returns whether a character ends its paragraph (bidi class B) or its line (line class BK, CR, LF or NL).
pub fn ends_line(tables: &Tables, c: char) -> bool
    ensures { result ≡ ends_line tables.now c }
{
    let properties = tables.properties(c);
    if properties.bidi_class() == BidiClass::B {
        return true;
    }
    matches!(
        properties.line_class(),
        LineClass::BK | LineClass::CR | LineClass::LF | LineClass::NL
    )
}
