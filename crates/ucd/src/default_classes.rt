//! The bidi classes of code points that no line of DerivedBidiClass.txt lists.
ghost use Rattle.std.specs.Prelude.{◌≡◌};
ghost use Rattle.ucd.specs.Defaults.{default_entries};
ghost use Rattle.ucd.specs.Rising.{AreRisingFrom};

use crate::bidi_class::BidiClass;
use crate::grammar::Entry;
use crate::version::Version;

static NONE: [Entry<BidiClass>; 0] = [];

// The `@missing` lines of the file of Unicode 17.0, except the first one, which assigns L to all other code
// points.
#[rattlefmt::skip]
static MISSING_17: [Entry<BidiClass>; 23] = [
    Entry { first: 0x0590, last: 0x05FF, value: BidiClass::R },
    Entry { first: 0x0600, last: 0x07BF, value: BidiClass::AL },
    Entry { first: 0x07C0, last: 0x085F, value: BidiClass::R },
    Entry { first: 0x0860, last: 0x08FF, value: BidiClass::AL },
    Entry { first: 0x20A0, last: 0x20CF, value: BidiClass::ET },
    Entry { first: 0xFB1D, last: 0xFB4F, value: BidiClass::R },
    Entry { first: 0xFB50, last: 0xFDCF, value: BidiClass::AL },
    Entry { first: 0xFDF0, last: 0xFDFF, value: BidiClass::AL },
    Entry { first: 0xFE70, last: 0xFEFF, value: BidiClass::AL },
    Entry { first: 0x10800, last: 0x10CFF, value: BidiClass::R },
    Entry { first: 0x10D00, last: 0x10D3F, value: BidiClass::AL },
    Entry { first: 0x10D40, last: 0x10EBF, value: BidiClass::R },
    Entry { first: 0x10EC0, last: 0x10EFF, value: BidiClass::AL },
    Entry { first: 0x10F00, last: 0x10F2F, value: BidiClass::R },
    Entry { first: 0x10F30, last: 0x10F6F, value: BidiClass::AL },
    Entry { first: 0x10F70, last: 0x10FFF, value: BidiClass::R },
    Entry { first: 0x1E800, last: 0x1EC6F, value: BidiClass::R },
    Entry { first: 0x1EC70, last: 0x1ECBF, value: BidiClass::AL },
    Entry { first: 0x1ECC0, last: 0x1ECFF, value: BidiClass::R },
    Entry { first: 0x1ED00, last: 0x1ED4F, value: BidiClass::AL },
    Entry { first: 0x1ED50, last: 0x1EDFF, value: BidiClass::R },
    Entry { first: 0x1EE00, last: 0x1EEFF, value: BidiClass::AL },
    Entry { first: 0x1EF00, last: 0x1EFFF, value: BidiClass::R },
];

/// Returns the ranges of code points whose default class is not `L`, each with its default class.
#[tactic(auto, unfolding(crate::specs::Defaults::missing_17))]
pub fn default_classes(version: Version) -> &'static [Entry<BidiClass>]
    ensures entries { result.now ≡ default_entries version }
    ensures rising { AreRisingFrom 0 result.now }
{
    match version {
        Version::V15_0 => &NONE,
        Version::V17_0 => &MISSING_17,
    }
}
