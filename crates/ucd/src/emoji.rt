//! Pictographs (UTS #51, section 1.4.1), and how emoji-data.txt expresses them.
ghost use Rattle.std.specs.Prelude.{◌≡◌, codes};
ghost use Rattle.ucd.specs.Emoji.{emoji_form};
ghost use Rattle.ucd.specs.Puts.{put_pictograph};

use crate::grammar::{Layer, Property};
use crate::properties::Properties;
use crate::version::Version;

/// The property Extended_Pictographic, the only one read from emoji-data.txt.
#[derive(Clone, Copy)]
pub struct Pictograph;

impl Property for Pictograph {
    ghost form = { λ _. emoji_form };

    fn has_ranges(_version: Version) -> bool {
        true
    }

    fn has_third(_version: Version) -> bool {
        false
    }

    fn read_value(_version: Version, second: &[u8], _third: &[u8]) -> Option<Option<Pictograph>> {
        if b"Extended_Pictographic".as_slice() == second {
            Some(Some(Pictograph))
        } else {
            Some(None)
        }
    }
}

impl Layer for Pictograph {
    ghost put = { λ _. put_pictograph };

    fn put(self, _version: Version, properties: Properties) -> Properties {
        properties.with_future_pictograph()
    }
}
