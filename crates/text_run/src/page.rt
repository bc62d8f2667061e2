//! Adds the lines of a paragraph to a page.
ghost use Rattle.std.specs.Prelude.{◌≡◌, ◌++◌, ◌<◌, ℕ, true, length, OnErr, OnOk};
ghost use Rattle.std.specs.Str.{chars};
ghost use Rattle.lines.specs.Engine.{rules_of, Prints, SameRules};
ghost use Rattle.lines.specs.Layouts.{IsParagraph};
ghost use Rattle.lines.specs.Pages.{paragraph_bytes};
ghost use Rattle.lines.specs.Printing.{skips_lines};
ghost use Rattle.lines.specs.declared.printing.print.Print.{Print};
ghost use Rattle.text_run.specs.Counts.{PrintsAtMost};
ghost use Rattle.text_run.specs.Pages.{prints_some};

use lines::{Engine, Print};
use std::alloc::{AllocError, Global};
use stream::Page;

/// Adds the lines of one paragraph to a page. Allocates nothing if the options print no part of a paragraph.
pub fn push_paragraph(
    alloc: Global,
    page: &mut Page,
    engine: &mut Engine,
    width: u16,
    print: &Print,
    paragraph: &[char],
) -> Result<(), AllocError>
    requires paragraph { IsParagraph (rules_of engine.old) paragraph.now }
    requires width { 0 < width }
    ensures ok { OnOk result (page.new.bytes.items ≡ page.old.bytes.items
        ++ paragraph_bytes (rules_of engine.old) width print.now paragraph.now) }
    ensures memory { OnErr result (prints_some print.now ≡ true) }
    ensures counts { OnOk result (Prints (length paragraph.now) print.now engine.old engine.new) }
    ensures at_most { PrintsAtMost (length paragraph.now) print.now engine.old engine.new }
    ensures rules { SameRules engine.old engine.new }
{
    match engine.write_paragraph(alloc, paragraph, width as u32, print, page) {
        Ok(()) => Ok(()),
        Err(_) => Err(AllocError),
    }
}

/// Adds the base direction of one paragraph of UTF-8 text to a page, if `print.basedir` is set.
/// `print.skips_lines()` must be true. Decodes only the characters up to the one that decides the direction.
/// Allocates nothing if `print.basedir` is false.
pub fn push_base_direction(
    page: &mut Page,
    engine: &mut Engine,
    print: &Print,
    paragraph: &str,
) -> Result<(), AllocError>
    requires paragraph { IsParagraph (rules_of engine.old) (chars paragraph.now) }
    requires skips { skips_lines print.now ≡ true }
    ensures ok { (width : ℕ) → OnOk result (page.new.bytes.items ≡ page.old.bytes.items
        ++ paragraph_bytes (rules_of engine.old) width print.now (chars paragraph.now)) }
    ensures memory { OnErr result (prints_some print.now ≡ true) }
    ensures counts { Prints (length (chars paragraph.now)) print.now engine.old engine.new }
    ensures at_most { PrintsAtMost (length (chars paragraph.now)) print.now engine.old engine.new }
    ensures rules { SameRules engine.old engine.new }
{
    match engine.write_base_direction(paragraph, print, page) {
        Ok(()) => Ok(()),
        Err(_) => Err(AllocError),
    }
}

/// Returns whether the options print any part of a paragraph.
pub fn prints_some(print: &Print) -> bool
    ensures { result ≡ prints_some print.now }
{
    print.basedir || !print.novisual || print.ltov || print.vtol || print.levels
}

/// States, as a theorem, that printing 0 characters leaves an engine's counters unchanged. This holds because
/// the counters are 64-bit numbers.
pub fn counts_fit(engine: &Engine)
    ensures { (print : Print) → Prints 0 print engine.now engine.now }
{
    engine.analysed();
    engine.filled();
    engine.written();
}
