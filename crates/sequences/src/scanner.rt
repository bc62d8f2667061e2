//! Finds the characters that a text shows, with their styles.
ghost use Rattle.std.specs.Prelude.{◌≡◌, ◌+◌, ◌<◌, ◌≤◌, ◌∷◌, [], None, Some, length, drop, MatchOption};
ghost use Rattle.std.specs.Prelude.{not, true, take};
ghost use Rattle.std.specs.List.{list_all};
ghost use Rattle.sequences.specs.Characters.{is_dropped};
ghost use Rattle.sequences.specs.Overstrikes.{after_backspaces};
ghost use Rattle.sequences.specs.Parameters.{sgr};
ghost use Rattle.sequences.specs.Parts.{parameters_after};
ghost use Rattle.sequences.specs.Sequences.{after_escape};

use crate::characters::{Class, char_at, is_dropped, prefix_len};
use crate::lengths::{LONGEST_STRING, sequence_len, string_end};
use crate::links::{MAX_LINKS_LEN, osc_link};
use crate::look::{Look, PLAIN};
use crate::overstrikes::{BS, is_underlined_only, struck_first, struck_look};
use crate::sgr::applied;
use crate::style::{Link, NO_LINK, StyledText};
use std::alloc::{AllocError, Global};

/// Collects the characters that texts show, with their styles. Each text begins in the style in which the
/// text before it ended.
#[derive(Debug, Drop)]
pub struct Scanner {
    /// The characters of the paragraph so far.
    pub text: StyledText,
    look: Look,
    link: Link,
    after_underline: bool,
    ghost linked: { link.start + link.len ≤ length text.links.items },
}

impl Scanner {
    ghost use Rattle.std.specs.Prelude.{◌*◌, ◌++◌, suc, map, IfOk, OnOk};
    ghost use Rattle.sequences.specs.PlainRuns.{plain_pen};
    ghost use Rattle.sequences.specs.Scanners.{pen_of};
    ghost use Rattle.sequences.specs.Styled.{DEFAULT, START, after_character, after_first_part};
    ghost use Rattle.sequences.specs.Styled.{after_sequence, first_shown};
    ghost use Rattle.sequences.specs.Styled.{more_len, next_paragraph, pen_at_end, struck_style, styled};
    ghost use Rattle.sequences.specs.Styled.{with_link, with_osc, with_sgr};
    ghost use Rattle.sequences.specs.Overstrikes.{strikes, struck};
    ghost use Rattle.sequences.specs.StyledTexts.{styled_of};

    /// Creates a scanner in the default style, without characters. Allocates nothing.
    pub fn new(alloc: Global) -> Scanner
        ensures text { styled_of result.text ≡ [] }
        ensures pen { pen_of result ≡ START }
    {
        Scanner {
            text: StyledText::new(alloc),
            look: PLAIN,
            link: NO_LINK,
            after_underline: false,
        }
    }

    /// Removes all characters. The next text continues in the same style.
    pub fn start_paragraph(&mut self)
        ensures text { styled_of self.new.text ≡ [] }
        ensures pen { pen_of self.new ≡ next_paragraph (pen_of self.old) }
    {
        self.link = self.text.clear(self.link);
    }

    // Sets the link of the text that follows. Sets no link if the links of the paragraph would exceed
    // `MAX_LINKS_LEN`.
    fn set_link(&mut self, link: &[char]) -> Result<(), AllocError>
        ensures text { styled_of self.new.text ≡ styled_of self.old.text }
        ensures pen { OnOk result (pen_of self.new ≡ with_link (pen_of self.old) (Some link.now)) }
    {
        if self.text.links.len() + link.len() <= MAX_LINKS_LEN {
            self.link = self.text.add_link(link)?;
        } else {
            self.link = NO_LINK;
        }
        Ok(())
    }

    // Applies a control sequence if it is SGR. `sequence` begins with the last character of its introducer.
    fn apply_sgr(&mut self, sequence: &[char])
        requires { 0 < length sequence.now }
        ensures text { styled_of self.new.text ≡ styled_of self.old.text }
        ensures pen { pen_of self.new ≡ with_sgr (pen_of self.old) (sgr (drop 1 sequence.now)) }
    {
        if let Some(parameters) = sgr_parameters(sequence) {
            self.look = applied(self.look, parameters);
        }
    }

    // Applies an OSC string if it sets a link, given the text after its introducer.
    fn apply_osc(&mut self, text: &[char]) -> Result<(), AllocError>
        ensures text { styled_of self.new.text ≡ styled_of self.old.text }
        ensures pen { OnOk result (pen_of self.new ≡ with_osc (pen_of self.old) text.now) }
    {
        let len = string_end(text);
        if len > LONGEST_STRING {
            return Ok(());
        }
        match osc_link(&text[..len]) {
            Some(link) => self.set_link(link),
            None => Ok(()),
        }
    }

    // Applies the sequence that a text begins with. Only SGR and OSC 8 have an effect.
    fn apply_sequence(&mut self, text: &[char]) -> Result<(), AllocError>
        ensures text { styled_of self.new.text ≡ styled_of self.old.text }
        ensures pen { OnOk result (pen_of self.new
            ≡ after_sequence (pen_of self.old) (after_escape text.now)) }
    {
        let Some((code, sequence)) = after_escape(text) else {
            return Ok(());
        };
        if code == 0x5b {
            self.apply_sgr(sequence);
            Ok(())
        } else if code == 0x5d {
            self.apply_osc(&sequence[1..])
        } else {
            Ok(())
        }
    }

    // Appends `first` with the characters struck over it. Returns the number of characters of `rest` that
    // belong to the overstrikes.
    fn push_struck(&mut self, first: char, rest: &[char]) -> Result<usize, AllocError>
        ensures len { IfOk result (λ len. len ≡ 2 * length (strikes first rest.now)) }
        ensures within { IfOk result (λ len. len ≤ length rest.now) }
        ensures text { OnOk result (styled_of self.new.text ≡ styled_of self.old.text
            ++ (
              (struck (pen_of self.old).after_underline first rest.now).shown,
              struck_style
                  (pen_of self.old) first rest.now,
            ) ∷ []) }
        ensures pen { OnOk result (pen_of self.new ≡ after_character (pen_of self.old) first rest.now) }
    {
        let (at, count) = struck_first(self.after_underline, first, rest);
        let look = struck_look(self.look, at);
        self.text.push(at.shown, look, self.link)?;
        self.after_underline = is_underlined_only(look);
        Ok(2 * count)
    }

    // Processes the first part of a text: a sequence, a dropped control, or a character with the characters
    // struck over it. Returns the length of the part. `text` consists of `first` and `rest`.
    fn pass(&mut self, first: char, rest: &[char], text: &[char]) -> Result<usize, AllocError>
        requires { text.now ≡ first ∷ rest.now }
        ensures len { IfOk result (λ len. len ≡ suc (more_len first rest.now)) }
        ensures within { IfOk result (λ len. len ≤ length text.now) }
        ensures text { OnOk result (styled_of self.new.text
            ≡ styled_of self.old.text ++ first_shown (pen_of self.old) first rest.now) }
        ensures pen { OnOk result (pen_of self.new ≡ after_first_part (pen_of self.old) first rest.now) }
    {
        if let Some(len) = sequence_len(text) {
            self.apply_sequence(text)?;
            Ok(len)
        } else if is_dropped(first) {
            Ok(1)
        } else {
            let len = self.push_struck(first, rest)?;
            Ok(len + 1)
        }
    }

    // Appends characters without overstrikes, in the current style.
    fn push_plain(&mut self, run: &[char]) -> Result<(), AllocError>
        requires { 0 < length run.now }
        ensures text { OnOk result (styled_of self.new.text
            ≡ styled_of self.old.text ++ map (λ c. (c, (pen_of self.old).style)) run.now) }
        ensures pen { OnOk result (pen_of self.new ≡ plain_pen (pen_of self.old) run.now) }
    {
        self.text.push_all(run, self.look, self.link)?;
        self.after_underline = is_underlined_only(self.look);
        Ok(())
    }

    // Processes one or more characters at the start of a text, and returns their number.
    fn advance(&mut self, text: &[char]) -> Result<usize, AllocError>
        requires { 0 < length text.now }
        ensures some { IfOk result (λ len. 0 < len) }
        ensures within { IfOk result (λ len. len ≤ length text.now) }
        ensures text { IfOk result (λ len. styled_of self.new.text
            ++ styled (pen_of self.new) (drop len text.now)
            ≡ styled_of self.old.text ++ styled (pen_of self.old) text.now) }
        ensures pen { IfOk result (λ len. pen_at_end (pen_of self.new) (drop len text.now)
            ≡ pen_at_end (pen_of self.old) text.now) }
    {
        // Fast path: most texts have few sequences.
        let len = plain_len(text);
        if len > 0 {
            self.push_plain(text.split_at(len).0)?;
            return Ok(len);
        }
        match text.split_first() {
            Some((first, rest)) => {
                let len = self.pass(*first, rest, text)?;
                Ok(len)
            }
            None => unreachable!(),
        }
    }

    /// Appends the characters that a text shows. After a failed allocation, some of them may be missing.
    pub fn push_text(&mut self, text: &[char]) -> Result<(), AllocError>
        ensures text { OnOk result (styled_of self.new.text
            ≡ styled_of self.old.text ++ styled (pen_of self.old) text.now) }
        ensures pen { OnOk result (pen_of self.new ≡ pen_at_end (pen_of self.old) text.now) }
    {
        let mut at = 0;
        while at < text.len() {
            at += self.advance(text.split_at(at).1)?;
        }
        Ok(())
    }
}

// Returns the code that follows ESC at the start of a text, and the text from the last character of the
// introducer on. A C1 control is read as its ESC form. Returns `None` for an empty text and for ESC alone.
fn after_escape(text: &[char]) -> Option<(u32, &[char])>
    ensures { MatchOption result (after_escape text.now ≡ []) (λ found.
        (after_escape text.now ≡ found.0 ∷ drop 1 found.1.now) × (0 < length found.1.now)) }
{
    let (first, rest) = text.split_first()?;
    if *first == '\u{1b}' {
        let (second, _) = rest.split_first()?;
        Some((*second as u32, rest))
    } else {
        Some(((*first as u32).saturating_sub(0x40), text))
    }
}

// Returns the parameters of a control sequence with the character before them, or `None` if it is not SGR.
// `sequence` begins with the last character of its introducer.
fn sgr_parameters(sequence: &[char]) -> Option<&[char]>
    requires { 0 < length sequence.now }
    ensures { MatchOption result (sgr (drop 1 sequence.now) ≡ None)
        (λ found. sgr (drop 1 sequence.now) ≡ Some (parameters_after found.now)) }
{
    let (_, text) = sequence.split_at(1);
    let len = prefix_len(Class::Sgr, text);
    if char_at(text, len) == 'm' {
        Some(sequence.split_at(len + 1).0)
    } else {
        None
    }
}

// Returns the length of a prefix that contains no dropped controls, and that no overstrike follows. A longer
// one may exist.
fn plain_len(text: &[char]) -> usize
    ensures within { result ≤ length text.now }
    ensures kept { list_all (λ c. not (is_dropped c)) (take result text.now) ≡ true }
    ensures alone { 0 < result → after_backspaces (drop result text.now) ≡ [] }
{
    let len = prefix_len(Class::Remaining, text);
    if len > 0 && char_at(text, len) == BS {
        len - 1
    } else {
        len
    }
}
