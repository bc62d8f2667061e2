//! Checks whether a text has a paragraph that is too long, in one pass and without allocating.
ghost use Rattle.std.specs.Prelude.{◌≡◌, ℕ, Bool, List, [], ◌∷◌, ◌++◌};
ghost use Rattle.std.specs.Str.{chars};
ghost use Rattle.lines.specs.Engine.{rules_of};
ghost use Rattle.lines.specs.Layouts.{cut_by};

use lines::{Engine, PARAGRAPH_LIMIT};

/// What a scan knows about the characters read so far.
#[derive(Clone, Copy, Debug)]
pub struct Scan {
    last: Option<char>,
    // The length of the last paragraph, or the limit if it is longer.
    len: usize,
    is_long: bool,
}

impl Scan {
    ghost use Rattle.session.specs.Scans.{HasScanned, is_long_scan};

    /// Returns the state before any character is read.
    pub fn new() -> Scan
        ensures { (is_cut : ℕ → ℕ → Bool) → HasScanned is_cut [] result }
    {
        Scan {
            last: None,
            len: 0,
            is_long: false,
        }
    }

    /// Reads one more character.
    pub fn take(&mut self, engine: &Engine, c: char)
        ensures { (text : List ℕ) → HasScanned (cut_by (rules_of engine.now)) text self.old
            → HasScanned (cut_by (rules_of engine.now)) (text ++ c ∷ []) self.new }
    {
        let starts_paragraph = self.last.is_some_and(|last| engine.is_cut(last, c));
        if starts_paragraph {
            self.len = 0;
        }
        if self.len < PARAGRAPH_LIMIT {
            self.len += 1;
        } else {
            self.is_long = true;
        }
        self.last = Some(c);
    }

    /// Reads more characters.
    pub fn take_all(&mut self, engine: &Engine, part: &[char])
        ensures { (text : List ℕ) → HasScanned (cut_by (rules_of engine.now)) text self.old
            → HasScanned (cut_by (rules_of engine.now)) (text ++ part.now) self.new }
    {
        for c in part {
            self.take(engine, *c);
        }
    }

    /// Reads the characters of a string.
    pub fn take_text(&mut self, engine: &Engine, part: &str)
        ensures { (text : List ℕ) → HasScanned (cut_by (rules_of engine.now)) text self.old
            → HasScanned (cut_by (rules_of engine.now)) (text ++ chars part.now) self.new }
    {
        for c in part.chars() {
            self.take(engine, c);
        }
    }

    /// Returns whether any paragraph read so far is too long.
    pub fn is_long(&self) -> bool
        ensures { result ≡ is_long_scan self.now }
    {
        self.is_long
    }
}
