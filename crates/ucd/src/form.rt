//! The forms of letters, and how UnicodeData.txt expresses them.
ghost use Rattle.std.specs.Prelude.{◌≡◌, ◌<◌, codes};
ghost use Rattle.ucd.specs.Forms.{form_by, form_number, form_key, form_tagged, form_in};
ghost use Rattle.ucd.specs.Grammar.{is_delimiter};

use crate::grammar::{code_point, cut_near};

/// The form of a letter, by the sides on which it joins.
#[derive(Clone, Copy, Debug, PartialEq, Eq)]
pub enum Form {
    Isolated,
    Final,
    Initial,
    Medial,
}

impl Form {
    /// Returns the form of a letter that joins on the given sides. Letters are written right to left, so one
    /// that joins only on its right is the last.
    pub fn by_sides(right: bool, left: bool) -> Form
        ensures { result ≡ form_by right left }
    {
        if right {
            if left { Form::Medial } else { Form::Final }
        } else if left {
            Form::Initial
        } else {
            Form::Isolated
        }
    }

    // Returns a number that differs for each form.
    fn number(self) -> u32
        ensures { result ≡ form_number self }
    {
        match self {
            Form::Isolated => 0,
            Form::Final => 1,
            Form::Initial => 2,
            Form::Medial => 3,
        }
    }

    // Returns the form that the tag of a decomposition names. Returns `None` for any other tag.
    fn from_tag(tag: &[u8]) -> Option<Form>
        ensures { result ≡ form_tagged tag.now }
    {
        match tag {
            b"<isolated>" => Some(Form::Isolated),
            b"<final>" => Some(Form::Final),
            b"<initial>" => Some(Form::Initial),
            b"<medial>" => Some(Form::Medial),
            _ => None,
        }
    }

    // Returns the form and the letter of which a decomposition is, such as `<final> 0628`. Returns `None` if
    // the decomposition has another tag or more than one code point.
    pub(crate) fn of_letter(decomposition: &[u8]) -> Option<(Form, u32)>
        ensures { result ≡ form_in decomposition.now }
    {
        let (tag, rest) = cut_near(decomposition, b' ');
        let form = Form::from_tag(tag)?;
        let letter = code_point(rest?)?;
        Some((form, letter))
    }

    // Returns a number that differs for each form of each letter.
    pub(crate) fn key(self, letter: u32) -> u32
        requires { letter < 1114112 }
        ensures { result ≡ form_key self letter }
    {
        4 * letter + self.number()
    }
}
