//! Finds the character after a CR in a text that is read in chunks.
ghost use Rattle.std.specs.Prelude.{◌≡◌, ◌+◌, List, ℕ, false, true, IfErr, IfOk};
ghost use Rattle.sequences.specs.declared.known.Progress.TheVariants.{Start};
ghost use Rattle.terminal.specs.Ends.{knows_next};
ghost use Rattle.terminal.specs.Passed.{HasPassed};
ghost use Rattle.terminal.specs.Texts.{next_character};

use crate::ends::skipped_len;
use sequences::Progress;

/// How far the text after a CR was scanned for the next character, which is not known yet.
#[derive(Clone, Copy)]
pub(crate) struct Passed {
    // The start of the first part whose end is not known. All parts before it are sequences and dropped
    // controls.
    start: usize,
    // The number of characters of this part that were scanned, and the state of the scan after them.
    scanned: usize,
    progress: Progress,
}

impl Passed {
    /// Returns the state of a scan that has not started.
    pub(crate) fn nothing() -> Passed
        ensures { (text : List ℕ) → HasPassed result text }
    {
        Passed::at(0)
    }

    // Returns the state of a scan that has just reached the part at `start`.
    fn at(start: usize) -> Passed
        ensures start { result.start ≡ start }
        ensures scanned { result.scanned ≡ 0 }
        ensures progress { result.progress ≡ Start }
    {
        Passed {
            start,
            scanned: 0,
            progress: Progress::Start,
        }
    }
}

/// Returns the first character of a text that is neither in a sequence nor dropped. If it depends on what
/// follows the text, returns how far the text has been scanned by now. Scans no character twice.
pub(crate) fn known_next(text: &[char], passed: Passed) -> Result<char, Passed>
    requires { HasPassed passed text.now }
    ensures next { IfOk result (λ c. c ≡ next_character text.now) }
    ensures known { IfOk result (λ c. knows_next text.now ≡ true) }
    ensures unknown { IfErr result (λ now. knows_next text.now ≡ false) }
    ensures passed { IfErr result (λ now. HasPassed now text.now) }
{
    let mut passed = passed;
    while passed.start < text.len() {
        let (_, part) = text.split_at(passed.start);
        let (_, new) = part.split_at(passed.scanned);
        let progress = passed.progress.scan(new);
        if !progress.is_known() {
            return Err(Passed {
                start: passed.start,
                scanned: part.len(),
                progress,
            });
        }
        match skipped_len(part) {
            None => return Ok(part[0]),
            Some(len) => passed = Passed::at(passed.start + len),
        }
    }
    Err(passed)
}
