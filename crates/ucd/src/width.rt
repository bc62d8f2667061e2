//! The East Asian widths that line breaking needs (UAX #11), and how EastAsianWidth.txt expresses them.
ghost use Rattle.std.specs.Prelude.{◌≡◌, codes};
ghost use Rattle.ucd.specs.Widths.{width_named, width_form};
ghost use Rattle.ucd.specs.Puts.{put_width};

use crate::grammar::{Layer, Property};
use crate::properties::Properties;
use crate::version::Version;

/// An East Asian width: F, W or H, or any other.
#[derive(Clone, Copy)]
pub enum Width {
    Wide,
    Other,
}

fn width_named(name: &[u8]) -> Width
    ensures { result ≡ width_named name.now }
{
    match name {
        b"F" | b"W" | b"H" => Width::Wide,
        _ => Width::Other,
    }
}

impl Property for Width {
    ghost form = { λ _. width_form };

    fn has_ranges(_version: Version) -> bool {
        true
    }

    fn has_third(_version: Version) -> bool {
        false
    }

    fn read_value(_version: Version, second: &[u8], _third: &[u8]) -> Option<Option<Width>> {
        Some(Some(width_named(second)))
    }
}

impl Layer for Width {
    ghost put = { λ _. put_width };

    fn put(self, _version: Version, properties: Properties) -> Properties {
        match self {
            Width::Wide => properties.with_wide(),
            Width::Other => properties,
        }
    }
}
