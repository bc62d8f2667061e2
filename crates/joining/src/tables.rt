//! The joining types and presentation forms of tables that are read from Unicode's files.
ghost use Rattle.std.specs.Prelude.{◌≡◌};
ghost use Rattle.joining.specs.Tabled.{forms_of, kit_type, type_of};

use crate::presentation::{LetterForms, PresentationForms};
use ucd::{Form, JoiningTables};
use ucd_bidi::JoiningType;

// Returns the joining type of the same name.
fn kit_type(joining: ucd::JoiningType) -> JoiningType
    ensures { result ≡ kit_type joining }
{
    match joining {
        ucd::JoiningType::RightJoining => JoiningType::RightJoining,
        ucd::JoiningType::LeftJoining => JoiningType::LeftJoining,
        ucd::JoiningType::DualJoining => JoiningType::DualJoining,
        ucd::JoiningType::JoinCausing => JoiningType::JoinCausing,
        ucd::JoiningType::NonJoining => JoiningType::NonJoining,
        ucd::JoiningType::Transparent => JoiningType::Transparent,
    }
}

/// Returns the joining type of a character by tables, for `Joiner`.
pub fn joining_type(tables: &JoiningTables, c: char) -> JoiningType
    ensures { result ≡ type_of tables.now c }
{
    kit_type(tables.joining_type(c))
}

impl LetterForms for JoiningTables {
    ghost forms = { forms_of };

    fn forms_of(&self, c: char) -> PresentationForms {
        PresentationForms {
            isolated_form: self.presentation_form(c, Form::Isolated),
            final_form: self.presentation_form(c, Form::Final),
            initial_form: self.presentation_form(c, Form::Initial),
            medial_form: self.presentation_form(c, Form::Medial),
        }
    }
}
