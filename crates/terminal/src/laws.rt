//! Theorems about the printed lines. Calls of these functions cost nothing at run time.
ghost use Rattle.terminal.specs.Newlines.{PagesEndInNewlines};
ghost use Rattle.terminal.specs.Plain.{PrintsPlainLines, PrintsWithoutPrefix};

/// States, as a theorem, that a paragraph whose characters all have the default style is printed as the crate
/// `lines` prints it, under any rules and at any width.
pub fn prints_plain_lines()
    ensures { PrintsPlainLines }
{}

/// States, as a theorem, that a paragraph without a prefix is printed as a whole, at the full width.
pub fn prints_without_prefix()
    ensures { PrintsWithoutPrefix }
{}

/// States, as a theorem, that the lines of an input that shows something end in a newline. `run` leaves out
/// at most this newline.
pub fn pages_end_in_newlines()
    ensures { PagesEndInNewlines }
{}
