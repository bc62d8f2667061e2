//! Answers questions about the bases after the next one (Unicode 17.0): the questions of LB15b, LB15c, LB19a,
//! LB25 and LB28a.
ghost use Rattle.std.specs.Prelude.{◌≡◌, ◌<◌, ◌≤◌, [], ◌∷◌, List, slice_index};
ghost use Rattle.ucd.specs.declared.version.Version.TheVariants.{V17_0};
ghost use Rattle.breaks.specs.Bases.{BaseCharacter, Character};
ghost use Rattle.breaks.specs.Symbols.{character_by};
ghost use Rattle.breaks.specs.Passes.{bases_after};
ghost use Rattle.breaks.specs.Walk17.{by_width, mark_of_17};
ghost use Rattle.breaks.specs.declared.table_17.TheConstants.{ANSWER_COUNT, DECIDED_COUNT, LB15B};

use crate::entries_17::ANSWERS;
use crate::mark::Mark;
use crate::symbol_17::{ATTACHED, SYMBOL_COUNT, symbol_17};
use crate::table_17::{LB15B, LB19A, MAY, NEVER};
use ucd::Properties;

/// Returns the answer to a question, given the next character: a mark, or a question about the characters
/// after it.
pub fn answer(question: u8, next: Properties) -> u8
    requires { (LB15B ≤ question) × (question < DECIDED_COUNT) }
    ensures said { (text : List Character)
        → mark_of_17 question (bases_after (character_by V17_0 next ∷ text))
        ≡ mark_of_17 result (bases_after text) }
    ensures below { result < DECIDED_COUNT }
{
    let symbol = symbol_17(next);
    if symbol >= ATTACHED {
        return question;
    }
    by_width(
        answer_at((question - LB15B) as usize * SYMBOL_COUNT + symbol as usize),
        next.is_wide(),
    )
}

// Returns an answer from the table, with `LB19A` replaced by `MAY` if the base is wide, and otherwise by
// `NEVER`.
fn by_width(answer: u8, is_wide: bool) -> u8
    ensures { result ≡ by_width answer is_wide }
{
    if answer != LB19A {
        answer
    } else if is_wide {
        MAY
    } else {
        NEVER
    }
}

fn answer_at(place: usize) -> u8
    requires { place < ANSWER_COUNT }
    ensures { result ≡ slice_index ANSWERS place }
{
    ANSWERS[place]
}

/// Returns the mark of an outcome. For a question, this is the answer at the end of a text.
pub fn mark_17(decided: u8) -> Mark
    requires { decided < DECIDED_COUNT }
    ensures end { result ≡ mark_of_17 decided [] }
    ensures anywhere { decided < LB15B → (rest : List BaseCharacter) → result ≡ mark_of_17 decided rest }
{
    MARKS[decided as usize]
}

// The mark for each outcome, if there is no base after the next one.
static MARKS: [Mark; 10] = [
    Mark::Never,
    Mark::Never,
    Mark::May,
    Mark::Must,
    Mark::Never,
    Mark::Never,
    Mark::Never,
    Mark::May,
    Mark::May,
    Mark::May,
];
