//! The line breaking classes (UAX #14, section 5.1, table 1), and how LineBreak.txt names them.
ghost use Rattle.std.specs.Prelude.{◌≡◌, ◌<◌, IfSome, Some, codes, find, slice_index_or};
ghost use Rattle.std.specs.Str.{bytes_eq};
ghost use Rattle.ucd.specs.LineClasses.{name_of, class_named, class_named_15};
ghost use Rattle.ucd.specs.LineNumbers.{numbered_classes};
ghost use Rattle.ucd.specs.declared.line_class.LineClass.TheVariants.{BK};
ghost use Rattle.ucd.specs.declared.line_class.TheConstants.{LINE_NUMBER_COUNT};
ghost use Rattle.ucd.specs.Puts.{put_line_class};
ghost use Rattle.ucd.specs.Versions.{line_class_form, line_class_in};

use crate::grammar::{Layer, Property};
use crate::properties::Properties;
use crate::version::Version;
use std::fmt;

/// A line breaking class. The variants have the short names of the Unicode Character Database. The last six
/// are not in Unicode 15.0.
#[derive(Clone, Copy, PartialEq, Eq)]
pub enum LineClass {
    BK,
    CM,
    CR,
    GL,
    LF,
    NL,
    SP,
    WJ,
    ZW,
    ZWJ,
    B2,
    BA,
    BB,
    CB,
    HY,
    CL,
    CP,
    EX,
    IN,
    NS,
    OP,
    QU,
    IS,
    NU,
    PO,
    PR,
    SY,
    AI,
    AL,
    CJ,
    EB,
    EM,
    H2,
    H3,
    HL,
    ID,
    JL,
    JT,
    JV,
    RI,
    SA,
    SG,
    XX,
    AK,
    AP,
    AS,
    HH,
    VF,
    VI,
}

/// The number of classes.
pub(crate) const LINE_CLASS_COUNT: usize = 49;

/// The number of classes of Unicode 15.0. These classes come first in the enum.
pub(crate) const LINE_CLASS_COUNT_15: usize = 43;

/// How many line-breaking numbers exist. Each encodes a class and a detail (specs/LineNumbers.antt).
pub(crate) const LINE_NUMBER_COUNT: usize = 56;

// The classes in the order of the enum. The lists of variants and of names are generated from this list.
macro_rules! classes {
    ($list:ident) => {
        $list! {
            BK CM CR GL LF NL SP WJ ZW ZWJ B2 BA BB CB HY CL CP EX IN NS OP QU IS NU PO PR SY AI AL CJ EB
            EM H2 H3 HL ID JL JT JV RI SA SG XX AK AP AS HH VF VI
        }
    };
}

// The classes of Unicode 15.0.
macro_rules! classes_15 {
    ($list:ident) => {
        $list! {
            BK CM CR GL LF NL SP WJ ZW ZWJ B2 BA BB CB HY CL CP EX IN NS OP QU IS NU PO PR SY AI AL CJ EB
            EM H2 H3 HL ID JL JT JV RI SA SG XX
        }
    };
}

// The class that each line-breaking number encodes.
macro_rules! numbered {
    ($list:ident) => {
        $list! {
            BK CM CR GL LF NL SP WJ ZW ZWJ B2 BA BB CB HY CL CP EX IN NS OP QU IS NU PO PR SY AI AL CJ EB
            EM H2 H3 HL ID JL JT JV RI SA SG XX AK AP AS HH VF VI QU QU AL AI SG XX SA
        }
    };
}

macro_rules! values {
    ($($class:ident)*) => { [$(LineClass::$class,)*] };
}

macro_rules! names {
    ($($class:ident)*) => { [$(stringify!($class),)*] };
}

static ALL: [LineClass; LINE_CLASS_COUNT] = classes!(values);

static ALL_15: [LineClass; LINE_CLASS_COUNT_15] = classes_15!(values);

static NUMBERED: [LineClass; LINE_NUMBER_COUNT] = numbered!(values);

// The short name of each class.
static NAMES: [&str; LINE_CLASS_COUNT] = classes!(names);

impl LineClass {
    /// Returns the class with this short name, or `None` if there is none.
    pub fn from_name(name: &[u8]) -> Option<LineClass>
        ensures { result ≡ class_named name.now }
    {
        if let Some(class) = frequent(name) {
            return Some(class);
        }
        named(&ALL, name)
    }

    /// Returns the class of Unicode 15.0 with this short name, or `None` if there is none.
    pub(crate) fn from_name_15(name: &[u8]) -> Option<LineClass>
        ensures { result ≡ class_named_15 name.now }
    {
        if let Some(class) = frequent(name) {
            return Some(class);
        }
        named(&ALL_15, name)
    }

    /// Returns the class that a line-breaking number encodes.
    pub(crate) fn in_number(number: usize) -> LineClass
        requires { number < LINE_NUMBER_COUNT }
        ensures { result ≡ slice_index_or numbered_classes number BK }
    {
        NUMBERED[number]
    }

    // Returns this class if it exists in the version, and XX otherwise. A file of the version assigns only
    // classes that exist in the version.
    fn in_version(self, version: Version) -> LineClass
        ensures { result ≡ line_class_in version self }
    {
        match version {
            Version::V15_0 if self as usize >= LINE_CLASS_COUNT_15 => LineClass::XX,
            _ => self,
        }
    }

    /// Returns the short name.
    pub fn name(self) -> &'static str
        ensures { result.now ≡ name_of self }
    {
        NAMES[self as usize]
    }
}

// Returns the first of these classes that has this short name, or `None` if none does.
fn named(classes: &[LineClass], name: &[u8]) -> Option<LineClass>
    ensures { result ≡ find (λ c. bytes_eq (name_of c) name.now) classes.now }
{
    classes
        .iter()
        .copied()
        .find(|class| class.name().as_bytes() == name)
}

// Looks up the few names that most lines of LineBreak.txt have. Returns `None` for other names.
fn frequent(name: &[u8]) -> Option<LineClass>
    ensures all { IfSome result (λ class. Some class ≡ class_named name.now) }
    ensures first { IfSome result (λ class. Some class ≡ class_named_15 name.now) }
{
    match name {
        b"AI" => Some(LineClass::AI),
        b"AL" => Some(LineClass::AL),
        b"BA" => Some(LineClass::BA),
        b"CL" => Some(LineClass::CL),
        b"CM" => Some(LineClass::CM),
        b"EB" => Some(LineClass::EB),
        b"H2" => Some(LineClass::H2),
        b"H3" => Some(LineClass::H3),
        b"ID" => Some(LineClass::ID),
        b"NU" => Some(LineClass::NU),
        b"OP" => Some(LineClass::OP),
        b"SA" => Some(LineClass::SA),
        _ => None,
    }
}

impl fmt::Debug for LineClass {
    fn fmt<W: fmt::Write>(&self, f: &mut fmt::Formatter<W>) -> fmt::Result {
        f.write_str(NAMES[*self as usize])
    }
}

impl Property for LineClass {
    ghost form = { line_class_form };

    fn has_ranges(_version: Version) -> bool {
        true
    }

    fn has_third(_version: Version) -> bool {
        false
    }

    fn read_value(version: Version, second: &[u8], _third: &[u8]) -> Option<Option<LineClass>> {
        match version {
            Version::V15_0 => LineClass::from_name_15(second).map(Some),
            Version::V17_0 => LineClass::from_name(second).map(Some),
        }
    }
}

impl Layer for LineClass {
    ghost put = { put_line_class };

    fn put(self, version: Version, properties: Properties) -> Properties {
        properties.with_line_class(self.in_version(version))
    }
}
