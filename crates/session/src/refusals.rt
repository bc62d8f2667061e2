//! Why a session cannot be opened on a text.
ghost use Rattle.std.specs.Prelude.{◌≡◌};
ghost use Rattle.std.specs.Str.{chars};
ghost use Rattle.lines.specs.Engine.{rules_of};
ghost use Rattle.lines.specs.Layouts.{cut_by};
ghost use Rattle.session.specs.Sessions.{opening_refusal};

use crate::edits::EditFault;
use crate::joined::has_long_in_text;
use crate::opening::is_too_long;
use lines::Engine;

/// Returns why a session cannot be opened on a text at a width, or `None` if only an allocation can fail.
/// Allocates nothing.
pub fn opening_refusal(engine: &Engine, text: &str, width: u16) -> Option<EditFault>
    ensures { result ≡ opening_refusal (cut_by (rules_of engine.now)) (chars text.now) width }
{
    if width == 0 {
        return Some(EditFault::WidthOutOfRange);
    }
    if is_too_long(text) {
        return Some(EditFault::TextTooLong);
    }
    if has_long_in_text(engine, text) {
        return Some(EditFault::ParagraphTooLong);
    }
    None
}
