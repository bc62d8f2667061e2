//! Brackets and mirrors (UAX #9, BD14 to BD16 and L4), and how BidiBrackets.txt and BidiMirroring.txt express
//! them.
ghost use Rattle.std.specs.Prelude.{◌≡◌};
ghost use Rattle.ucd.specs.Brackets.{character_of, opens_of, bracket_form, mirror_form};
ghost use Rattle.ucd.specs.Images.{bracket_in, mirror_in};
ghost use Rattle.ucd.specs.Puts.{put_bracket, put_mirror};

use crate::grammar::{Layer, Property, code_point};
use crate::image_points::Point;
use crate::properties::Properties;
use crate::version::Version;

/// A bracket: the other bracket of its pair, and whether it is an opening bracket (UAX #9, BD14 and BD15).
#[derive(Clone, Copy, Debug, PartialEq, Eq)]
pub struct Bracket {
    pub pair: char,
    pub opens: bool,
}

/// The mirror of a character (UAX #9, L4).
#[derive(Clone, Copy, Debug)]
pub struct Mirror(pub char);

// Parses a character written as 4 to 6 hexadecimal digits. Returns `None` for anything else.
fn character(digits: &[u8]) -> Option<char>
    ensures { result ≡ character_of digits.now }
{
    char::from_u32(code_point(digits)?)
}

// Parses a bracket type. Returns `true` for `o` (opening), `false` for `c` (closing), and `None` for any
// other.
fn opens(kind: &[u8]) -> Option<bool>
    ensures { result ≡ opens_of kind.now }
{
    match kind {
        b"o" => Some(true),
        b"c" => Some(false),
        _ => None,
    }
}

impl Property for Bracket {
    ghost form = { λ _. bracket_form };

    fn has_ranges(_version: Version) -> bool {
        false
    }

    fn has_third(_version: Version) -> bool {
        true
    }

    fn read_value(_version: Version, second: &[u8], third: &[u8]) -> Option<Option<Bracket>> {
        let pair = character(second)?;
        let opens = opens(third)?;
        Some(Some(Bracket { pair, opens }))
    }
}

impl Layer for Bracket {
    ghost put = { λ _. put_bracket };

    fn put(self, _version: Version, properties: Properties) -> Properties {
        properties.with_bracket()
    }
}

impl Property for Mirror {
    ghost form = { λ _. mirror_form };

    fn has_ranges(_version: Version) -> bool {
        false
    }

    fn has_third(_version: Version) -> bool {
        false
    }

    fn read_value(_version: Version, second: &[u8], _third: &[u8]) -> Option<Option<Mirror>> {
        let mirror = character(second)?;
        Some(Some(Mirror(mirror)))
    }
}

impl Layer for Mirror {
    ghost put = { λ _. put_mirror };

    fn put(self, _version: Version, properties: Properties) -> Properties {
        properties.with_mirror()
    }
}

impl Point for Bracket {
    ghost decode = { bracket_in };

    ghost flag = { λ a. a.has_bracket };

    fn from_number(number: u32) -> Option<Bracket> {
        let pair = char::from_u32(number / 2)?;
        let opens = number % 2 == 1;
        Some(Bracket { pair, opens })
    }

    fn number(self) -> u32 {
        2 * u32::from(self.pair) + u32::from(self.opens)
    }

    fn is_flagged(properties: Properties) -> bool {
        properties.has_bracket()
    }
}

impl Point for Mirror {
    ghost decode = { mirror_in };

    ghost flag = { λ a. a.has_mirror };

    fn from_number(number: u32) -> Option<Mirror> {
        let mirror = char::from_u32(number)?;
        Some(Mirror(mirror))
    }

    fn number(self) -> u32 {
        u32::from(self.0)
    }

    fn is_flagged(properties: Properties) -> bool {
        properties.has_mirror()
    }
}
