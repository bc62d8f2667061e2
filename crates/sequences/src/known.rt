//! Whether more text can change where a sequence ends.
ghost use Rattle.std.specs.Prelude.{◌≡◌};
ghost use Rattle.sequences.specs.Known.{knows_sequence};
ghost use Rattle.sequences.specs.Progress.{advanced, after_all, after_code, after_intermediate, after_long};
ghost use Rattle.sequences.specs.Progress.{after_parameter, after_start, after_string, is_known};
ghost use Rattle.sequences.specs.Progress.{after_long_escape};

use crate::characters::{Class, ends_piece, is_c1_introducer, is_in, is_inline};
use crate::lengths::{ESC, LONGEST_STRING, is_intermediate, opens_string};

/// The state of a search for the end of the sequence that a text begins with.
#[derive(Clone, Copy)]
pub enum Progress {
    /// There are no characters yet.
    Start,
    /// The only character is ESC.
    Escape,
    /// The last character introduces a control sequence or is a parameter character of one.
    Parameters,
    /// The last character is an intermediate character of a control sequence or an escape sequence.
    Intermediates,
    /// The characters so far are in a string. The first field is true for OSC, and the second field is the
    /// number of characters of the string so far.
    InString(bool, usize),
    /// The last character is an ESC after a string.
    AfterString,
    /// The last character is in a string that is too long. The field is true for OSC.
    InLong(bool),
    /// The last character is an ESC in a string that is too long. The field is true for OSC.
    AfterLong(bool),
    /// The end of the sequence is known, or there is no sequence. More characters cannot change this.
    Known,
}

impl Progress {
    /// Returns the state after some more characters.
    pub fn scan(self, text: &[char]) -> Progress
        ensures { result ≡ after_all self text.now }
    {
        let mut progress = self;
        let mut at = 0;
        while at < text.len() && !progress.is_known() {
            progress = progress.advance(text[at]);
            at += 1;
        }
        progress
    }

    /// Returns whether it is known where the sequence ends, or that there is none.
    pub fn is_known(self) -> bool
        ensures { result ≡ is_known self }
    {
        match self {
            Progress::Known => true,
            _ => false,
        }
    }

    fn advance(self, c: char) -> Progress
        ensures { result ≡ advanced self c }
    {
        match self {
            Progress::Start => after_start(c),
            Progress::Escape => after_code(c as u32),
            Progress::Parameters => after_parameter(c),
            Progress::Intermediates => after_intermediate(c),
            Progress::InString(is_osc, len) => after_string(is_osc, len, c),
            Progress::AfterString => Progress::Known,
            Progress::InLong(is_osc) => after_long(is_osc, c),
            Progress::AfterLong(is_osc) => after_long_escape(is_osc, c),
            Progress::Known => Progress::Known,
        }
    }
}

/// Returns whether no appended text can change the result of `sequence_len`.
pub fn is_sequence_known(text: &[char]) -> bool
    ensures { result ≡ knows_sequence text.now }
{
    Progress::Start.scan(text).is_known()
}

fn after_start(c: char) -> Progress
    ensures { result ≡ after_start c }
{
    if c == ESC {
        Progress::Escape
    } else if is_c1_introducer(c) {
        after_code(c as u32 - 0x40)
    } else {
        Progress::Known
    }
}

// Returns the state after ESC and this character.
fn after_code(code: u32) -> Progress
    ensures { result ≡ after_code code }
{
    if code == 0x5b {
        Progress::Parameters
    } else if opens_string(code) {
        Progress::InString(code == 0x5d, 0)
    } else if is_intermediate(code) {
        Progress::Intermediates
    } else {
        Progress::Known
    }
}

fn after_parameter(c: char) -> Progress
    ensures { result ≡ after_parameter c }
{
    if is_in(Class::Parameter, c) {
        Progress::Parameters
    } else {
        after_intermediate(c)
    }
}

fn after_intermediate(c: char) -> Progress
    ensures { result ≡ after_intermediate c }
{
    if is_in(Class::Intermediate, c) {
        Progress::Intermediates
    } else {
        Progress::Known
    }
}

// Returns the state after `len` characters of a string and one more character.
fn after_string(is_osc: bool, len: usize, c: char) -> Progress
    ensures { result ≡ after_string is_osc len c }
{
    if !is_inline(c) {
        if c == ESC {
            Progress::AfterString
        } else {
            Progress::Known
        }
    } else if len < LONGEST_STRING {
        Progress::InString(is_osc, len + 1)
    } else {
        Progress::InLong(is_osc)
    }
}

fn after_long(is_osc: bool, c: char) -> Progress
    ensures { result ≡ after_long is_osc c }
{
    if c == ESC {
        Progress::AfterLong(is_osc)
    } else if ends_piece(c) || c == '\u{9c}' || (is_osc && c == '\u{7}') {
        Progress::Known
    } else {
        Progress::InLong(is_osc)
    }
}

fn after_long_escape(is_osc: bool, c: char) -> Progress
    ensures { result ≡ after_long_escape is_osc c }
{
    if c == '\\' {
        Progress::Known
    } else {
        after_long(is_osc, c)
    }
}
