//! The break table. For each state and each symbol of the next character, the table has the outcome before
//! that character and the next state. It implements LB4 to LB31, except for two rules that the walk decides
//! with one bit each: LB8a, and LB30b for future pictographs. The entries are in entries.rt. Next states and
//! outcomes are in separate arrays, because the walk needs only the next state to read the next entry.
ghost use Rattle.std.specs.Prelude.{◌≡◌, ◌<◌, ◌≤◌, ◌+◌, slice_index};
ghost use Rattle.breaks.specs.declared.table.TheConstants.{ENTRY_COUNT};

use crate::entries::{NEXT_ROWS, OUTCOMES};
use crate::symbol::SYMBOL_COUNT;

/// The states, one for each row: the class of the last base, and what the rules need to know about the bases
/// before it.
#[derive(Clone, Copy)]
pub enum State {
    BK,
    CR,
    /// LF or NL.
    LF,
    ZW,
    /// Spaces that are not after one of the classes in the next five states.
    SP,
    /// Spaces after ZW.
    SpaceAfterZW,
    /// Spaces after OP.
    SpaceAfterOP,
    /// Spaces after QU.
    SpaceAfterQU,
    /// Spaces after CL or CP.
    SpaceAfterCL,
    /// Spaces after B2.
    SpaceAfterB2,
    WJ,
    GL,
    /// CL, or a wide CP.
    CL,
    /// A CP that is not wide.
    CP,
    IS,
    SY,
    OP,
    QU,
    B2,
    CB,
    BA,
    HY,
    /// BA after HL.
    HebrewBA,
    /// HY after HL.
    HebrewHY,
    BB,
    NU,
    /// AL, or a CM or ZWJ that joins no character.
    AL,
    HL,
    PR,
    PO,
    /// ID or EM.
    ID,
    EB,
    JL,
    /// JV or H2.
    JV,
    /// JT or H3.
    JT,
    /// An odd number of RI.
    RI,
    /// EX, IN, NS or an even number of RI.
    Other,
    /// IS after a number, as in `NU (NU | SY | IS)*`. The number may continue after the IS.
    NumberIS,
    /// SY after a number. The number may continue after the SY.
    NumberSY,
    /// CL or a wide CP after a number.
    NumberCL,
    /// A CP that is not wide, after a number.
    NumberCP,
}

/// LB9: the next character joins the last base.
pub const STAYS: u8 = 0;

/// No line ends before the next character.
pub const NEVER: u8 = 1;

/// A line may end before the next character if the last base is not a future pictograph.
pub const UNLESS: u8 = 2;

/// A line may end before the next character.
pub const MAY: u8 = 3;

/// A line must end before the next character.
pub const MUST: u8 = 4;

/// LB25 for two bases: no line ends between them, but with whole numbers a line may end there.
pub const PAIR: u8 = 5;

/// Inside a number, at a position that LB25 for two bases does not cover: a line may end there, but not with
/// whole numbers.
pub const INSIDE: u8 = 6;

/// LB25 for two bases: no line ends between them. With whole numbers, a line may end there if the base after
/// the next one is not NU.
pub const WAITS: u8 = 7;

/// The number of states, which is also the number of rows.
pub const STATE_COUNT: usize = State::NumberCP as usize + 1;

/// The number of entries.
pub const ENTRY_COUNT: usize = STATE_COUNT * SYMBOL_COUNT;

/// The start of the last state's row.
pub const LAST_ROW: usize = ENTRY_COUNT - SYMBOL_COUNT;

/// The number of entries in a row, in the type of the entries of `NEXT_ROWS`.
pub const ROW: u32 = SYMBOL_COUNT as u32;

/// The start of the row for the start of a text. This is the row of BK, because a line also begins after BK.
pub const START: usize = 0;

/// Returns the start of the next row. The slice does not depend on the row, so each step of the walk waits
/// for only one load.
pub fn next_row(row: usize, symbol: u8) -> usize
    requires { row + symbol < ENTRY_COUNT }
    ensures { result ≡ slice_index NEXT_ROWS (row + symbol) }
{
    NEXT_ROWS[symbol as usize..][row] as usize
}

/// Returns the outcome before a character with this symbol.
pub fn outcome(row: usize, symbol: u8) -> u8
    requires { row + symbol < ENTRY_COUNT }
    ensures outcome { result ≡ slice_index OUTCOMES (row + symbol) }
    ensures below { result < 8 }
{
    OUTCOMES[row + symbol as usize]
}
