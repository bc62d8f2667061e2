//! The presentation forms of letters.
ghost use Rattle.std.specs.Prelude.{◌≡◌, ◌<◌, ◌==◌, ℕ, position, IfSome};
ghost use Rattle.joining.specs.Presentation.{form_of, forms_in, in_form, is_letter, presentation_form};
ghost use Rattle.joining.specs.declared.presentation.PresentationForms.{PresentationForms};

use crate::joiner::Joiner;
use ucd::Form;
use ucd_bidi::JoiningType;

/// The presentation forms of a letter. A form that the letter lacks is `None`.
#[derive(Clone, Copy)]
pub struct PresentationForms {
    pub isolated_form: Option<char>,
    pub final_form: Option<char>,
    pub initial_form: Option<char>,
    pub medial_form: Option<char>,
}

impl PresentationForms {
    /// Returns a form of the letter, or `None` if the letter lacks it.
    pub fn in_form(self, form: Form) -> Option<char>
        ensures { result ≡ in_form self form }
    {
        match form {
            Form::Isolated => self.isolated_form,
            Form::Final => self.final_form,
            Form::Initial => self.initial_form,
            Form::Medial => self.medial_form,
        }
    }
}

/// The presentation forms of all letters.
pub trait LetterForms {
    ghost forms: { Self → ℕ → PresentationForms };

    /// Returns the presentation forms of a character.
    fn forms_of(&self, c: char) -> PresentationForms
        ensures { result ≡ forms self.now c };
}

/// A letter and its presentation forms.
#[derive(Clone, Copy)]
pub struct Letter {
    pub letter: char,
    pub forms: PresentationForms,
}

/// A list of letters. Other characters have no forms.
#[derive(Clone, Copy)]
pub struct ListedForms<'a> {
    pub letters: &'a [Letter],
}

impl LetterForms for ListedForms<'_> {
    ghost forms = { λ s. forms_in s.letters.now };

    fn forms_of(&self, c: char) -> PresentationForms {
        for listed in self.letters {
            if listed.letter == c {
                return listed.forms;
            }
        }
        PresentationForms {
            isolated_form: None,
            final_form: None,
            initial_form: None,
            medial_form: None,
        }
    }
}

// Returns whether a joining type is that of letters with presentation forms.
fn is_letter(joining: JoiningType) -> bool
    ensures { result ≡ is_letter joining }
{
    match joining {
        JoiningType::RightJoining | JoiningType::DualJoining => true,
        JoiningType::LeftJoining
        | JoiningType::Transparent
        | JoiningType::NonJoining
        | JoiningType::JoinCausing => false,
    }
}

// Returns the form of a character, given whether it joins one before it and one after it.
fn form_of(c: Joiner, before: bool, after: bool) -> Form
    ensures { result ≡ form_of c.level before after }
{
    if c.is_rtl() {
        Form::by_sides(before, after)
    } else {
        Form::by_sides(after, before)
    }
}

// Returns the presentation form of a character, given whether it joins one before it and one after it.
// Returns `None` if it has none.
pub(crate) fn presentation_form<F: LetterForms>(
    forms: &F,
    c: char,
    joiner: Joiner,
    before: bool,
    after: bool,
) -> Option<char>
    ensures { result ≡ presentation_form (F.forms forms.now c) joiner before after }
{
    if is_letter(joiner.joining) {
        forms.forms_of(c).in_form(form_of(joiner, before, after))
    } else {
        None
    }
}
