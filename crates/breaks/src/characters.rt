//! The characters of a paragraph, as the walk reads them. Their properties are already known, or are looked
//! up whenever a character is read.
ghost use Rattle.std.specs.Prelude.{◌≡◌, ◌<◌, ◌∷◌, List, MatchOption, length, map, slice_index_or};
ghost use Rattle.ucd.specs.Properties.{properties_of};
ghost use Rattle.ucd.specs.declared.properties.Properties.{Properties};

use ucd::{Properties, Tables};

pub trait Characters: Copy {
    /// Whether the properties are known, so that it is cheap to read a character again.
    const ARE_KNOWN: bool;

    ghost all: { Self → List Properties };

    /// Returns the properties of the first character, and the characters after it, or `None` if there are
    /// none.
    fn split_first(&self) -> Option<(Properties, Self)>
        ensures cases { MatchOption result (length (all self.now) ≡ 0)
            (λ p. all self.now ≡ p.0 ∷ all p.1) };

    fn len(&self) -> usize
        ensures { result ≡ length (all self.now) };

    fn get(&self, i: usize) -> Properties
        requires { i < length (all self.now) }
        ensures { result ≡ slice_index_or (all self.now) i result };
}

/// Characters whose properties are known.
#[derive(Clone, Copy)]
pub struct Known<'a> {
    pub properties: &'a [Properties],
}

impl Characters for Known<'_> {
    const ARE_KNOWN: bool = true;

    ghost all = { λ s. s.properties.now };

    fn split_first(&self) -> Option<(Properties, Self)> {
        match self.properties.split_first() {
            Some((first, rest)) => Some((*first, Known { properties: rest })),
            None => None,
        }
    }

    fn len(&self) -> usize {
        self.properties.len()
    }

    fn get(&self, i: usize) -> Properties {
        self.properties[i]
    }
}

/// Characters whose properties are looked up when they are read.
#[derive(Clone, Copy)]
pub struct LookedUp<'a> {
    pub tables: &'a Tables,
    pub text: &'a [char],
}

impl Characters for LookedUp<'_> {
    const ARE_KNOWN: bool = false;

    ghost all = { λ s. map (properties_of s.tables.now) s.text.now };

    fn split_first(&self) -> Option<(Properties, Self)> {
        match self.text.split_first() {
            Some((first, rest)) => Some((
                self.tables.properties(*first),
                LookedUp {
                    tables: self.tables,
                    text: rest,
                },
            )),
            None => None,
        }
    }

    fn len(&self) -> usize {
        self.text.len()
    }

    fn get(&self, i: usize) -> Properties {
        self.tables.properties(self.text[i])
    }
}
