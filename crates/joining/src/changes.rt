//! Theorems about what joining changes in a line.
ghost use Rattle.joining.specs.Changes.{HiddenLamsHaveLigatures, OnlyLettersWithFormsChange};

/// States, as a theorem, that joining changes only letters of joining types R and D that have presentation
/// forms. Costs nothing at run time.
pub fn only_letters_with_forms_change()
    ensures { OnlyLettersWithFormsChange }
{}

/// States, as a theorem, that each character that shows nothing joins one that shows the ligature of the two.
/// Costs nothing at run time.
pub fn hidden_lams_have_ligatures()
    ensures { HiddenLamsHaveLigatures }
{}
