//! The tables for the pass that applies the weak rules (UAX #9, W1 to W7). Each table has a row of 32 entries
//! for each state, with one entry for each bidi class. The state is what the rules need to know about the
//! types before an index: the last strong type, and which run ends at the index. Each entry is proved
//! correct.
ghost use Rattle.std.specs.Prelude.{◌≡◌, ◌+◌, ◌≤◌, slice_index, slice_index_or};
ghost use Rattle.ucd.specs.Answers.{bidi_tag};
ghost use Rattle.ucd.specs.declared.bidi_class.BidiClass.TheVariants.{ON};
ghost use Rattle.bidi.specs.declared.weak_table.TheConstants.{LAST_ROW, NEXT, VALUES};

use ucd::BidiClass;

/// The run that ends before an index.
#[derive(Clone, Copy)]
pub enum Row {
    /// No run that affects how W4 to W7 change later types.
    Nothing,
    /// A European number.
    European,
    /// An Arabic number.
    Arabic,
    /// European terminators after a European number. These terminators have become numbers (W5).
    EuropeanTerminators,
    /// A separator after a European number, pending until the next type is read.
    EuropeanSeparator,
    /// A common separator after an Arabic number, pending until the next type is read.
    ArabicSeparator,
    /// A run of European terminators, pending until the type after the run is read.
    Terminators,
}

/// The type changes no pending type.
pub const KEEPS: u16 = 0;

/// The type begins a run of pending types, which later types may join.
pub const BEGINS: u16 = 1;

/// The type turns the pending types into numbers (W4 and W5).
pub const COMPLETES: u16 = 2;

/// The number by which an entry of `NEXT` is divided to decode it. The quotient is the index at which the
/// next state's row starts, and the remainder is what the type does to pending types.
pub const PARTS: u16 = 4;

/// The number of states: one for each run and each of the strong types L, R and AL.
pub const STATE_COUNT: usize = 21;

/// The number of entries in a row. There are fewer classes, so the last entries are not used.
pub const ROW_LEN: usize = 32;

/// The number of entries in the rows of a run, which has one row for each strong type. The states without a
/// run come first.
pub const RUN_LEN: usize = 3 * ROW_LEN;

/// The index at which the last state's row starts.
pub const LAST_ROW: usize = (STATE_COUNT - 1) * ROW_LEN;

/// The index at which the row for the last strong type L, without a run, starts.
pub const LEFT: usize = 0;

/// The index at which the row for the last strong type R, without a run, starts.
pub const RIGHT: usize = ROW_LEN;

// The summands of an entry of `NEXT` that select the next state: its last strong type, and its run.
const L: u16 = 0;

const R: u16 = ROW_LEN as u16 * PARTS;

const AL: u16 = 2 * R;

const RUN: u16 = 3 * R;

// Short names for use in the rows below.
const K: u16 = KEEPS;

const B: u16 = BEGINS;

const C: u16 = COMPLETES;

// The rows of `NEXT`: the state's run and strong type; then, for EN, ES, ET, AN and CS, the next run and what
// the type does to pending types.
macro_rules! next_rows {
    ($(
        $Row:ident $strong:ident:
        $EN:ident $at_EN:ident $ES:ident $at_ES:ident $ET:ident $at_ET:ident $AN:ident $at_AN:ident
        $CS:ident $at_CS:ident;
    )*) => {
        [$(
            L, R, AL,
            RUN * Row::$EN as u16 + $strong + $at_EN,
            RUN * Row::$ES as u16 + $strong + $at_ES,
            RUN * Row::$ET as u16 + $strong + $at_ET,
            RUN * Row::$AN as u16 + $strong + $at_AN,
            RUN * Row::$CS as u16 + $strong + $at_CS,
            $strong, $strong, $strong, $strong, $strong, $strong, $strong, $strong, $strong, $strong,
            $strong, $strong, $strong, $strong, $strong,
            L, L, L, L, L, L, L, L, L,
        )*]
    };
}

// The rows of `VALUES`: the state's run and strong type; then the types to write for EN and ET.
macro_rules! value_rows {
    ($($Row:ident $strong:ident: $EN:ident $ET:ident;)*) => {
        [$(
            BidiClass::L, BidiClass::R, BidiClass::R, BidiClass::$EN, BidiClass::ON, BidiClass::$ET,
            BidiClass::AN, BidiClass::ON, BidiClass::NSM, BidiClass::BN, BidiClass::B, BidiClass::S,
            BidiClass::WS, BidiClass::ON, BidiClass::LRE, BidiClass::LRO, BidiClass::RLE, BidiClass::RLO,
            BidiClass::PDF, BidiClass::LRI, BidiClass::RLI, BidiClass::FSI, BidiClass::PDI, BidiClass::L,
            BidiClass::L, BidiClass::L, BidiClass::L, BidiClass::L, BidiClass::L, BidiClass::L,
            BidiClass::L, BidiClass::L,
        )*]
    };
}

/// For each state and class: the next state, and what the class does to pending types.
pub static NEXT: [u16; STATE_COUNT * ROW_LEN] = next_rows! {
    Nothing L: European K Nothing K Terminators B Arabic K Nothing K;
    Nothing R: European K Nothing K Terminators B Arabic K Nothing K;
    Nothing AL: Arabic K Nothing K Terminators B Arabic K Nothing K;
    European L: European K EuropeanSeparator B EuropeanTerminators K Arabic K EuropeanSeparator B;
    European R: European K EuropeanSeparator B EuropeanTerminators K Arabic K EuropeanSeparator B;
    European AL: Arabic K EuropeanSeparator B EuropeanTerminators K Arabic K EuropeanSeparator B;
    Arabic L: European K Nothing K Terminators B Arabic K ArabicSeparator B;
    Arabic R: European K Nothing K Terminators B Arabic K ArabicSeparator B;
    Arabic AL: Arabic K Nothing K Terminators B Arabic K ArabicSeparator B;
    EuropeanTerminators L: European K Nothing K EuropeanTerminators K Arabic K Nothing K;
    EuropeanTerminators R: European K Nothing K EuropeanTerminators K Arabic K Nothing K;
    EuropeanTerminators AL: Arabic K Nothing K EuropeanTerminators K Arabic K Nothing K;
    EuropeanSeparator L: European C Nothing K Terminators B Arabic K Nothing K;
    EuropeanSeparator R: European C Nothing K Terminators B Arabic K Nothing K;
    EuropeanSeparator AL: Arabic K Nothing K Terminators B Arabic K Nothing K;
    ArabicSeparator L: European K Nothing K Terminators B Arabic C Nothing K;
    ArabicSeparator R: European K Nothing K Terminators B Arabic C Nothing K;
    ArabicSeparator AL: Arabic C Nothing K Terminators B Arabic C Nothing K;
    Terminators L: European C Nothing K Terminators K Arabic K Nothing K;
    Terminators R: European C Nothing K Terminators K Arabic K Nothing K;
    Terminators AL: Arabic K Nothing K Terminators K Arabic K Nothing K;
};

/// For each state and class: the type to write, or ON if the type is pending.
pub static VALUES: [BidiClass; STATE_COUNT * ROW_LEN] = value_rows! {
    Nothing L: L ON;
    Nothing R: EN ON;
    Nothing AL: AN ON;
    European L: L L;
    European R: EN EN;
    European AL: AN EN;
    Arabic L: L ON;
    Arabic R: EN ON;
    Arabic AL: AN ON;
    EuropeanTerminators L: L L;
    EuropeanTerminators R: EN EN;
    EuropeanTerminators AL: AN EN;
    EuropeanSeparator L: L ON;
    EuropeanSeparator R: EN ON;
    EuropeanSeparator AL: AN ON;
    ArabicSeparator L: L ON;
    ArabicSeparator R: EN ON;
    ArabicSeparator AL: AN ON;
    Terminators L: L ON;
    Terminators R: EN ON;
    Terminators AL: AN ON;
};

/// Returns the entry of `NEXT` for a class in the row that starts at `row`.
pub fn next(row: usize, class: BidiClass) -> u16
    requires { row ≤ LAST_ROW }
    ensures { result ≡ slice_index NEXT (row + bidi_tag class) }
{
    NEXT[row + class as usize]
}

/// Returns the entry of `VALUES` for a class in the row that starts at `row`.
pub fn value(row: usize, class: BidiClass) -> BidiClass
    requires { row ≤ LAST_ROW }
    ensures { result ≡ slice_index_or VALUES (row + bidi_tag class) ON }
{
    VALUES[row + class as usize]
}
