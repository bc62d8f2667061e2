//! The break table of Unicode 17.0. For each state and each symbol of the next character, the table has the
//! outcome before that character and the next state. It implements LB4 to LB31, except for the parts that the
//! walk decides: LB8a, the width of bases in LB19a, and LB30b for future pictographs. The entries are in
//! entries_17.rt.
ghost use Rattle.std.specs.Prelude.{◌≡◌, ◌<◌, ◌≤◌, ◌+◌, slice_index};
ghost use Rattle.breaks.specs.declared.table_17.TheConstants.{ENTRY_COUNT, OUTCOME_COUNT};

use crate::entries_17::{NEXT_ROWS, OUTCOMES};
use crate::symbol_17::SYMBOL_COUNT;

/// The states, one for each row: the class of the last base, and what the rules need to know about the bases
/// before it.
#[derive(Clone, Copy)]
pub enum State {
    BK,
    CR,
    /// LF or NL.
    LF,
    ZW,
    /// Spaces that are not after one of the bases in the next five states.
    SP,
    /// Spaces after ZW.
    SpaceAfterZW,
    /// Spaces after OP.
    SpaceAfterOP,
    /// Spaces after a quotation mark to which LB15a applies.
    SpaceAfterInitial,
    /// Spaces after CL or CP.
    SpaceAfterCL,
    /// Spaces after B2.
    SpaceAfterB2,
    WJ,
    GL,
    /// CL, or a wide CP.
    CL,
    /// A CP that is not wide.
    CP,
    IS,
    SY,
    OP,
    /// A QU of neither category Pi nor Pf, or a QU of category Pi to which LB15a does not apply.
    QU,
    /// LB15a: a QU of category Pi after one of the bases that the rule names.
    InitialQU,
    /// A QU of category Pf.
    FinalQU,
    B2,
    CB,
    /// BA, or an HH that belongs to none of the later states for HH.
    BA,
    /// An HY that belongs to none of the later states for HY.
    HY,
    /// LB20a: HY at the start of a word.
    WordHY,
    /// LB20a: HH at the start of a word.
    WordHH,
    /// LB21a: HY after HL.
    HebrewHY,
    /// LB21a: HH after HL.
    HebrewHH,
    BB,
    NU,
    /// AL, or a CM or ZWJ that joins no character.
    AL,
    HL,
    PR,
    PO,
    /// ID or EM.
    ID,
    EB,
    JL,
    /// JV or H2.
    JV,
    /// JT or H3.
    JT,
    /// An odd number of RI.
    RI,
    /// EX, IN, NS, VF, a VI that does not belong to `AksaraVI`, or an even number of RI.
    Other,
    /// IS after a number, as in `NU (SY | IS)*`. The number may continue after the IS.
    NumberIS,
    /// SY after a number. The number may continue after the SY.
    NumberSY,
    /// CL or a wide CP after a number.
    NumberCL,
    /// A CP that is not wide, after a number.
    NumberCP,
    /// U+25CC as AL.
    DottedCircle,
    AP,
    /// AK or AS.
    AK,
    /// LB28a: VI after AK, AS or U+25CC.
    AksaraVI,
}

/// LB9: the next character joins the last base.
pub const STAYS: u8 = 0;

/// No line ends before the next character.
pub const NEVER: u8 = 1;

/// A line may end before the next character.
pub const MAY: u8 = 2;

/// A line must end before the next character.
pub const MUST: u8 = 3;

/// LB15b: no line ends before the next character if the base after the next one is one of those that the rule
/// lists, or if there is none.
pub const LB15B: u8 = 4;

/// LB15c: a line may end before the next character only if the base after the next one is NU.
pub const LB15C: u8 = 5;

/// LB19a: no line ends before the next character if the base after the next one is not wide, or if there is
/// none.
pub const LB19A: u8 = 6;

/// LB25 before OP: no line ends before the OP if the bases after the next one are `NU` or `IS NU`.
pub const LB25: u8 = 7;

/// LB25 before OP IS: no line ends before the OP if the base after the IS is NU.
pub const LB25_IS: u8 = 8;

/// LB28a: no line ends before the next character if the base after the next one is VF.
pub const LB28A: u8 = 9;

/// The number of questions.
pub const QUESTION_COUNT: usize = (LB28A - LB15B) as usize + 1;

/// The number of answers in the table of answers.
pub const ANSWER_COUNT: usize = QUESTION_COUNT * SYMBOL_COUNT;

/// The number of outcomes that the walk can decide on: marks and questions.
pub const DECIDED_COUNT: u8 = 10;

/// LB30b: `MAY`, or `NEVER` after a future pictograph.
pub const UNLESS: u8 = 10;

/// LB19a before a QU of category Pi: `LB19A` after a wide base, and otherwise `NEVER`.
pub const INITIAL: u8 = 11;

/// LB19a after a QU of category Pf: `MAY` if the bases before and after the QU are wide, and otherwise
/// `NEVER`.
pub const FINAL: u8 = 12;

/// The same as `FINAL`, except that it is also `NEVER` after a future pictograph (LB30b).
pub const FINAL_UNLESS: u8 = 13;

/// LB19a between a QU of category Pf and one of category Pi: `LB19A` if both and the base before them are
/// wide, and otherwise `NEVER`.
pub const FINAL_INITIAL: u8 = 14;

/// The number of outcomes.
pub const OUTCOME_COUNT: u8 = 15;

/// The number of states, which is also the number of rows.
pub const STATE_COUNT: usize = State::AksaraVI as usize + 1;

/// The number of entries.
pub const ENTRY_COUNT: usize = STATE_COUNT * SYMBOL_COUNT;

/// The start of the last state's row.
pub const LAST_ROW: usize = ENTRY_COUNT - SYMBOL_COUNT;

/// The number of entries in a row, in the type of the entries of `NEXT_ROWS`.
pub const ROW: u32 = SYMBOL_COUNT as u32;

/// The start of the row for the start of a text. This is the row of BK, because a line also begins after BK.
pub const START: usize = 0;

/// Returns the start of the next row.
pub fn next_row(row: usize, symbol: u8) -> usize
    requires { row + symbol < ENTRY_COUNT }
    ensures { result ≡ slice_index NEXT_ROWS (row + symbol) }
{
    NEXT_ROWS[symbol as usize..][row] as usize
}

/// Returns the outcome before a character with this symbol.
pub fn outcome(row: usize, symbol: u8) -> u8
    requires { row + symbol < ENTRY_COUNT }
    ensures outcome { result ≡ slice_index OUTCOMES (row + symbol) }
    ensures below { result < OUTCOME_COUNT }
{
    OUTCOMES[row + symbol as usize]
}
