//! Sources of bidi classes: a text and tables, properties, or a list of classes.
ghost use Rattle.std.specs.Prelude.{◌≡◌, ◌<◌, List, length, map};
ghost use Rattle.ucd.specs.Classes.{class_at, class_in};
ghost use Rattle.ucd.specs.Tables.{class_of};
ghost use Rattle.ucd.specs.declared.bidi_class.BidiClass.{BidiClass};

use crate::bidi_class::BidiClass;
use crate::properties::Properties;
use crate::tables::Tables;

/// The bidi classes of a list of characters.
pub trait Classes {
    ghost all: { Self → List BidiClass };

    /// Returns the number of characters.
    fn len(&self) -> usize
        ensures { result ≡ length (all self.now) };

    /// Returns the class of the character at an index.
    fn class_at(&self, k: usize) -> BidiClass
        requires { k < length (all self.now) }
        ensures { result ≡ class_at (all self.now) k };
}

/// Classes that are looked up in tables when they are read.
#[derive(Clone, Copy)]
pub struct TextClasses<'a> {
    pub tables: &'a Tables,
    pub text: &'a [char],
}

impl Classes for TextClasses<'_> {
    ghost all = { λ s. map (class_of s.tables.now) s.text.now };

    fn len(&self) -> usize {
        self.text.len()
    }

    fn class_at(&self, k: usize) -> BidiClass {
        self.tables.bidi_class(self.text[k])
    }
}

/// Classes in properties that have already been looked up.
#[derive(Clone, Copy)]
pub struct KnownClasses<'a> {
    pub properties: &'a [Properties],
}

impl Classes for KnownClasses<'_> {
    ghost all = { λ s. map class_in s.properties.now };

    fn len(&self) -> usize {
        self.properties.len()
    }

    fn class_at(&self, k: usize) -> BidiClass {
        self.properties[k].bidi_class()
    }
}

/// A list of classes.
#[derive(Clone, Copy)]
pub struct ListedClasses<'a> {
    pub classes: &'a [BidiClass],
}

impl Classes for ListedClasses<'_> {
    ghost all = { λ s. s.classes.now };

    fn len(&self) -> usize {
        self.classes.len()
    }

    fn class_at(&self, k: usize) -> BidiClass {
        self.classes[k]
    }
}
