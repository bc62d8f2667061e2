//! Theorems about what texts show. Calls of these functions cost nothing at run time.
ghost use Rattle.sequences.specs.Laws.{ShowsItself, ShowsNoControls, ShowsPieces, ShowsPlainText};
ghost use Rattle.sequences.specs.Laws.{ShowsTheSame};
ghost use Rattle.sequences.specs.Laws.{WritesPlainText};

/// States, as a theorem, that no text shows a control of a kind that is dropped.
pub fn shows_no_controls()
    ensures { ShowsNoControls }
{}

/// States, as a theorem, that a text without controls of a kind that is dropped is shown unchanged, in the
/// style in which it begins.
pub fn shows_plain_text()
    ensures { ShowsPlainText }
{}

/// States, as a theorem, that the characters that a text shows do not depend on the style in which it begins.
pub fn shows_the_same()
    ensures { ShowsTheSame }
{}

/// States, as a theorem, that scanning is idempotent: the characters that a text shows are themselves shown
/// unchanged.
pub fn shows_itself()
    ensures { ShowsItself }
{}

/// States, as a theorem, that a text shows what its pieces show, in order. Each piece ends with a control
/// that remains, with U+2028 or with U+2029. No sequence and no overstrike spans such a character.
pub fn shows_pieces()
    ensures { ShowsPieces }
{}

/// States, as a theorem, that a line in the default style is written without sequences.
pub fn writes_plain_text()
    ensures { WritesPlainText }
{}
