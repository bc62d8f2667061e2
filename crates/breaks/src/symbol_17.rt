//! The symbol of a character for the rules of Unicode 17.0: its class after LB1 and, for LB30, whether a
//! parenthesis is wide. Quotation marks of the general categories Pi and Pf (LB15a, LB15b, LB19) and U+25CC
//! (LB28a) have separate symbols.
ghost use Rattle.std.specs.Prelude.{◌≡◌, ◌<◌, slice_index};
ghost use Rattle.ucd.specs.declared.properties.TheConstants.{LINE_INDEX_COUNT};
ghost use Rattle.ucd.specs.declared.version.Version.TheVariants.{V17_0};
ghost use Rattle.breaks.specs.Symbols.{character_by, shown_17, as_read_17};
ghost use Rattle.breaks.specs.declared.symbol_17.TheConstants.{SYMBOL_COUNT};

use ucd::{LINE_INDEX_COUNT, Properties};

// The symbols, one for each column of the table.
#[derive(Clone, Copy)]
enum Symbol {
    BK,
    CR,
    LF,
    NL,
    SP,
    ZW,
    WJ,
    GL,
    CL,
    CP,
    /// A wide CP.
    WideCP,
    EX,
    IS,
    SY,
    OP,
    /// A wide OP.
    WideOP,
    /// A QU whose category is neither Pi nor Pf.
    QU,
    B2,
    CB,
    BA,
    HY,
    NS,
    BB,
    IN,
    NU,
    AL,
    HL,
    PR,
    PO,
    ID,
    EB,
    EM,
    JL,
    JV,
    JT,
    H2,
    H3,
    RI,
    /// A QU of category Pi.
    InitialQU,
    /// A QU of category Pf.
    FinalQU,
    /// U+25CC as AL.
    DottedCircle,
    HH,
    AK,
    AP,
    AS,
    VF,
    VI,
    CM,
    ZWJ,
}

/// The number of symbols.
pub const SYMBOL_COUNT: usize = Symbol::ZWJ as usize + 1;

/// The symbol number of ZWJ.
pub const JOINER: u8 = Symbol::ZWJ as u8;

/// The lower of the symbol numbers of CM and ZWJ, the last two symbols. They join the character before them
/// (LB9).
pub const ATTACHED: u8 = Symbol::CM as u8;

/// Returns the symbol number of a character with these properties.
pub fn symbol_17(properties: Properties) -> u8
    ensures shown { shown_17 result ≡ as_read_17 (character_by V17_0 properties) }
    ensures below { result < SYMBOL_COUNT }
{
    symbol_at(properties.line_index())
}

fn symbol_at(index: usize) -> u8
    requires { index < LINE_INDEX_COUNT }
    ensures { result ≡ slice_index SYMBOLS index }
{
    SYMBOLS[index]
}

// The four symbols for each class, with or without a detail: those of a narrow character, a narrow mark, a
// wide character and a wide mark. Each symbol occurs twice, because a future pictograph has the same symbol
// as other characters of its class.
macro_rules! symbols {
    ($($narrow:ident $narrow_mark:ident $wide:ident $wide_mark:ident;)*) => {
        [$(
            Symbol::$narrow as u8,
            Symbol::$narrow as u8,
            Symbol::$narrow_mark as u8,
            Symbol::$narrow_mark as u8,
            Symbol::$wide as u8,
            Symbol::$wide as u8,
            Symbol::$wide_mark as u8,
            Symbol::$wide_mark as u8,
        )*]
    };
}

// The symbol for each value of `Properties::line_index`. The classes come first, in the order of `LineClass`,
// then the classes with a detail, and then the 8 unused numbers.
static SYMBOLS: [u8; LINE_INDEX_COUNT] = symbols! {
    BK BK BK BK; CM CM CM CM; CR CR CR CR; GL GL GL GL; LF LF LF LF; NL NL NL NL; SP SP SP SP;
    WJ WJ WJ WJ; ZW ZW ZW ZW; ZWJ ZWJ ZWJ ZWJ; B2 B2 B2 B2; BA BA BA BA; BB BB BB BB; CB CB CB CB;
    HY HY HY HY; CL CL CL CL;
    CP CP WideCP WideCP;
    EX EX EX EX; IN IN IN IN; NS NS NS NS;
    OP OP WideOP WideOP;
    QU QU QU QU; IS IS IS IS; NU NU NU NU; PO PO PO PO; PR PR PR PR; SY SY SY SY; AL AL AL AL;
    AL AL AL AL; NS NS NS NS; EB EB EB EB; EM EM EM EM; H2 H2 H2 H2; H3 H3 H3 H3; HL HL HL HL;
    ID ID ID ID; JL JL JL JL; JT JT JT JT; JV JV JV JV; RI RI RI RI;
    AL CM AL CM;
    AL AL AL AL; AL AL AL AL;
    AK AK AK AK; AP AP AP AP; AS AS AS AS; HH HH HH HH; VF VF VF VF; VI VI VI VI;
    InitialQU InitialQU InitialQU InitialQU;
    FinalQU FinalQU FinalQU FinalQU;
    DottedCircle DottedCircle DottedCircle DottedCircle;
    DottedCircle DottedCircle DottedCircle DottedCircle;
    DottedCircle DottedCircle DottedCircle DottedCircle;
    DottedCircle DottedCircle DottedCircle DottedCircle;
    DottedCircle CM DottedCircle CM;
    AL AL AL AL; AL AL AL AL; AL AL AL AL; AL AL AL AL; AL AL AL AL; AL AL AL AL; AL AL AL AL;
    AL AL AL AL;
};
