//! U+25CC DOTTED CIRCLE, which has its own `LineDetail` in Unicode 17.0.
ghost use Rattle.std.specs.Prelude.{◌≡◌};
ghost use Rattle.ucd.specs.Defaults.{circle_entries};
ghost use Rattle.ucd.specs.Puts.{put_circle};
ghost use Rattle.ucd.specs.Rising.{AreRisingFrom};

use crate::grammar::{Entry, Layer};
use crate::properties::Properties;
use crate::version::Version;

/// The value of an entry that marks its code point as the dotted circle.
#[derive(Clone, Copy)]
pub struct Circle;

static NONE: [Entry<Circle>; 0] = [];

static CIRCLES: [Entry<Circle>; 1] = [Entry {
    first: 0x25CC,
    last: 0x25CC,
    value: Circle,
}];

/// Returns the code points that are marked as the dotted circle in a version.
pub fn circles(version: Version) -> &'static [Entry<Circle>]
    ensures entries { result.now ≡ circle_entries version }
    ensures rising { AreRisingFrom 0 result.now }
{
    match version {
        Version::V15_0 => &NONE,
        Version::V17_0 => &CIRCLES,
    }
}

impl Layer for Circle {
    ghost put = { λ _. put_circle };

    fn put(self, _version: Version, properties: Properties) -> Properties {
        properties.with_circle()
    }
}
