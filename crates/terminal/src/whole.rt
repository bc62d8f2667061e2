//! A theorem about what blocks show. Calls of this function cost nothing at run time.
ghost use Rattle.terminal.specs.Whole.{ShowsWhole};

use bidi::paragraphs_are_pieces;

/// States, as a theorem, that the paragraphs whose lines are written are those of the characters that the
/// text shows as a whole.
pub fn shows_whole()
    ensures { ShowsWhole }
{
    paragraphs_are_pieces();
}
