//! Traits for the rules of a Unicode version, and for the walk over a paragraph's characters that applies
//! them.
ghost use Rattle.std.specs.Prelude.{◌≡◌, ◌<◌, ℕ, Bool, true, List, [], ◌∷◌, MatchOption};
ghost use Rattle.ucd.specs.declared.properties.Properties.{Properties};
ghost use Rattle.ucd.specs.declared.version.Version.{Version};
ghost use Rattle.breaks.specs.Bases.{BaseCharacter, Character, alone};
ghost use Rattle.breaks.specs.Passes.{Passes, bases_after};
ghost use Rattle.breaks.specs.Rules.{rules as all_rules};
ghost use Rattle.breaks.specs.Symbols.{character_by};
ghost use Rattle.breaks.specs.declared.mark.Mark.{Mark};

use crate::mark::Mark;
use ucd::Properties;

/// The line breaking rules of a Unicode version. The outcome before a character is a mark, or a question
/// about the bases after that character.
pub trait Rules: Copy {
    ghost version: { Version };

    // Whether a rule for whole numbers replaces LB25 of Unicode 15.0.
    ghost whole_numbers: { Self → Bool };

    // The number of outcomes.
    ghost outcome_count: { ℕ };

    ghost is_question: { Self → ℕ → Bool };

    // The mark of an outcome, given the bases after the next one.
    ghost mark_of: { Self → ℕ → List BaseCharacter → Mark };

    /// Returns the mark of an outcome, or `None` for a question.
    fn mark(self, outcome: u8) -> Option<Mark>
        requires { outcome < outcome_count }
        ensures cases { MatchOption result (is_question self outcome ≡ true)
            (λ mark. (rest : List BaseCharacter) → mark ≡ mark_of self outcome rest) };

    /// Returns the answer to a question, given the next unread character: a mark, or a question about the
    /// bases after that character.
    fn answer(self, question: u8, next: Properties) -> u8
        requires below { question < outcome_count }
        requires question { is_question self question ≡ true }
        ensures said { (text : List Character)
            → mark_of self question (bases_after (character_by version next ∷ text))
            ≡ mark_of self result (bases_after text) }
        ensures below { result < outcome_count };

    /// Returns the answer to a question at the end of a text.
    fn answer_at_end(self, question: u8) -> Mark
        requires below { question < outcome_count }
        requires question { is_question self question ≡ true }
        ensures { result ≡ mark_of self question [] };
}

/// The state of the walk: what the rules need to know about the bases before a position.
pub trait Walk<R: Rules>: Copy {
    // Whether the state belongs to a position, given the last base before it and the other bases, the nearest
    // first.
    ghost stands: { R → Self → BaseCharacter → List BaseCharacter → Type 0 };

    // Whether the state has a row in the table.
    ghost within: { Self → Type 0 };

    // Whether the walk can pass a character.
    ghost accepts: { Properties → Bool };

    /// Returns whether the walk can pass a character.
    fn accepts(one: Properties) -> bool
        ensures { result ≡ accepts one };

    /// Returns the state after the first character of a text.
    fn start(first: Properties) -> Self
        requires { accepts first ≡ true }
        ensures stands { (rules : R) → stands rules result (alone (character_by R.version first)) [] }
        ensures within { within result };

    /// Returns the outcome before the next character, and moves past that character.
    fn pass(&mut self, next: Properties) -> u8
        requires row { within self.old }
        requires next { accepts next ≡ true }
        ensures passes { (rules : R) (last : BaseCharacter) (others : List BaseCharacter)
            → stands rules self.old last others
            → Passes (all_rules R.version (R.whole_numbers rules)) (R.mark_of rules result)
            (stands rules self.new) last others (character_by R.version next) }
        ensures within { within self.new }
        ensures below { result < R.outcome_count };
}
