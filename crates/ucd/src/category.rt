//! The general categories that line breaking needs (UAX #44, section 5.7.1), and how
//! DerivedGeneralCategory.txt expresses them.
ghost use Rattle.std.specs.Prelude.{◌≡◌, codes};
ghost use Rattle.ucd.specs.Categories.{category_named, category_form};
ghost use Rattle.ucd.specs.Puts.{put_category};

use crate::grammar::{Layer, Property};
use crate::properties::Properties;
use crate::version::Version;

/// A general category: Mn or Mc, Cn, Pi, Pf, or any other.
#[derive(Clone, Copy)]
pub enum Category {
    Mark,
    Unassigned,
    InitialQuote,
    FinalQuote,
    Other,
}

fn category_named(name: &[u8]) -> Category
    ensures { result ≡ category_named name.now }
{
    match name {
        b"Mn" | b"Mc" => Category::Mark,
        b"Cn" => Category::Unassigned,
        b"Pi" => Category::InitialQuote,
        b"Pf" => Category::FinalQuote,
        _ => Category::Other,
    }
}

impl Property for Category {
    ghost form = { λ _. category_form };

    fn has_ranges(_version: Version) -> bool {
        true
    }

    fn has_third(_version: Version) -> bool {
        false
    }

    fn read_value(_version: Version, second: &[u8], _third: &[u8]) -> Option<Option<Category>> {
        Some(Some(category_named(second)))
    }
}

impl Layer for Category {
    ghost put = { put_category };

    fn put(self, version: Version, properties: Properties) -> Properties {
        match self {
            Category::Mark => properties.with_mark(),
            Category::Unassigned => properties,
            Category::InitialQuote => match version {
                Version::V15_0 => properties.with_assignment(),
                Version::V17_0 => properties.with_assignment().with_initial_quote(),
            },
            Category::FinalQuote => match version {
                Version::V15_0 => properties.with_assignment(),
                Version::V17_0 => properties.with_assignment().with_final_quote(),
            },
            Category::Other => properties.with_assignment(),
        }
    }
}
