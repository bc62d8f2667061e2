//! The bidi classes (UAX #9, section 3.2, table 4).
ghost use Rattle.std.specs.Prelude.{◌≡◌, ◌<◌, IfSome, codes, slice_index_or};
ghost use Rattle.ucd.specs.BidiClasses.{name_of, class_named, all_classes, bidi_class_form};
ghost use Rattle.ucd.specs.declared.bidi_class.BidiClass.TheVariants.{L};
ghost use Rattle.ucd.specs.declared.bidi_class.TheConstants.{BIDI_CLASS_COUNT};
ghost use Rattle.ucd.specs.Puts.{put_bidi_class};

use crate::grammar::{Layer, Property};
use crate::properties::Properties;
use crate::version::Version;
use std::fmt;

/// A bidi class. The variants have the short names of the Unicode Character Database.
#[derive(Clone, Copy, PartialEq, Eq)]
pub enum BidiClass {
    L,
    R,
    AL,
    EN,
    ES,
    ET,
    AN,
    CS,
    NSM,
    BN,
    B,
    S,
    WS,
    ON,
    LRE,
    LRO,
    RLE,
    RLO,
    PDF,
    LRI,
    RLI,
    FSI,
    PDI,
}

/// The number of classes.
pub(crate) const BIDI_CLASS_COUNT: usize = 23;

// The classes in the order of the enum. The lists of variants and of names are generated from this list.
macro_rules! classes {
    ($list:ident) => {
        $list! {
            L R AL EN ES ET AN CS NSM BN B S WS ON LRE LRO RLE RLO PDF LRI RLI FSI PDI
        }
    };
}

macro_rules! values {
    ($($class:ident)*) => { [$(BidiClass::$class,)*] };
}

macro_rules! names {
    ($($class:ident)*) => { [$(stringify!($class),)*] };
}

static ALL: [BidiClass; BIDI_CLASS_COUNT] = classes!(values);

// The short name of each class.
static NAMES: [&str; BIDI_CLASS_COUNT] = classes!(names);

impl BidiClass {
    /// Returns the class with this short name, or `None` if there is none.
    pub fn from_name(name: &[u8]) -> Option<BidiClass>
        ensures { result ≡ class_named name.now }
    {
        if let Some(class) = frequent(name) {
            return Some(class);
        }
        ALL.iter()
            .copied()
            .find(|class| class.name().as_bytes() == name)
    }

    /// Returns the class at an index in the order of the enum.
    pub(crate) fn at(place: usize) -> BidiClass
        requires { place < BIDI_CLASS_COUNT }
        ensures { result ≡ slice_index_or all_classes place L }
    {
        // The compiler turns this `match` into a copy of the number. A table would cost a load for each
        // character.
        match place {
            0 => BidiClass::L,
            1 => BidiClass::R,
            2 => BidiClass::AL,
            3 => BidiClass::EN,
            4 => BidiClass::ES,
            5 => BidiClass::ET,
            6 => BidiClass::AN,
            7 => BidiClass::CS,
            8 => BidiClass::NSM,
            9 => BidiClass::BN,
            10 => BidiClass::B,
            11 => BidiClass::S,
            12 => BidiClass::WS,
            13 => BidiClass::ON,
            14 => BidiClass::LRE,
            15 => BidiClass::LRO,
            16 => BidiClass::RLE,
            17 => BidiClass::RLO,
            18 => BidiClass::PDF,
            19 => BidiClass::LRI,
            20 => BidiClass::RLI,
            21 => BidiClass::FSI,
            _ => BidiClass::PDI,
        }
    }

    /// Returns the short name.
    pub fn name(self) -> &'static str
        ensures { result.now ≡ name_of self }
    {
        NAMES[self as usize]
    }
}

// Looks up the few names that most lines of DerivedBidiClass.txt have. Returns `None` for other names.
fn frequent(name: &[u8]) -> Option<BidiClass>
    ensures { IfSome result (λ class. name.now ≡ name_of class) }
{
    match name {
        b"L" => Some(BidiClass::L),
        b"R" => Some(BidiClass::R),
        b"AL" => Some(BidiClass::AL),
        b"ON" => Some(BidiClass::ON),
        b"NSM" => Some(BidiClass::NSM),
        _ => None,
    }
}

impl fmt::Debug for BidiClass {
    fn fmt<W: fmt::Write>(&self, f: &mut fmt::Formatter<W>) -> fmt::Result {
        f.write_str(NAMES[*self as usize])
    }
}

impl Property for BidiClass {
    ghost form = { λ _. bidi_class_form };

    fn has_ranges(_version: Version) -> bool {
        true
    }

    fn has_third(_version: Version) -> bool {
        false
    }

    fn read_value(_version: Version, second: &[u8], _third: &[u8]) -> Option<Option<BidiClass>> {
        BidiClass::from_name(second).map(Some)
    }
}

impl Layer for BidiClass {
    ghost put = { λ _. put_bidi_class };

    fn put(self, _version: Version, properties: Properties) -> Properties {
        properties.with_bidi_class(self)
    }
}
