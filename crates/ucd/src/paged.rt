//! Lookup tables for the properties of all characters.
ghost use Rattle.std.specs.Prelude.{◌≡◌, ◌≢◌, ◌<◌, ℕ, length, map, true, false, IfOk, IfErr};
ghost use Rattle.ucd.specs.Separators.{may_separate};
ghost use Rattle.ucd.specs.declared.bidi_class.BidiClass.TheVariants.{B};
ghost use Rattle.ucd.specs.Tables.{class_of, bracket_of, mirror_of};

use crate::bracket::{Bracket, Mirror};
use crate::entries::Entries;
use crate::image::{check_flags, decode_brackets, decode_mirrors, decode_pages};
use crate::image_fault::ImageFault;
use crate::image_frame::{check_frame, image_version};
use crate::image_parts::point_bytes;
use crate::image_write::{joined, page_bytes};
use crate::pages::{Pages, entry_of, pages_of};
use crate::points::points_of;
use crate::properties::Properties;
use crate::version::Version;
use std::alloc::{AllocError, Global};
use std::collections::BTreeMap;
use std::marker::Model;

// The number of characters that are looked up at a time. The compiler unrolls a loop of fixed length.
const GROUP: usize = 8;

/// The properties of each character, in pages, and maps of the brackets and mirrors.
#[derive(Debug)]
pub struct PagedTables {
    version: Version,
    pages: Pages,
    brackets: BTreeMap<u32, Bracket>,
    mirrors: BTreeMap<u32, Mirror>,
}

impl Drop for PagedTables {
    fn drop(self) {
        let PagedTables {
            version: _,
            pages: _,
            brackets: _,
            mirrors: _,
        } = self;
    }
}

impl Model for PagedTables {
    ghost use Rattle.ucd.specs.Contents.{TableContents};
    ghost use Rattle.ucd.specs.Paged.{contents_in, AreSound};

    ghost Value = { TableContents };

    ghost view = { λ t.
        contents_in t.version t.pages.index.items t.pages.entries.items t.brackets t.mirrors };

    ghost invariant = { λ t.
        AreSound t.version t.pages.index.items t.pages.entries.items t.brackets t.mirrors };
}

impl PagedTables {
    ghost use Rattle.ucd.specs.Agreeing.{SayAlike};
    ghost use Rattle.ucd.specs.Imaged.{IsImageOf, AreImagePagesDistinct};
    ghost use Rattle.ucd.specs.Images.{IsImageFault};
    ghost use Rattle.ucd.specs.LineSeparators.{contents_if, with_line_separators};
    ghost use Rattle.ucd.specs.Properties.{properties_of};
    ghost use Rattle.ucd.specs.Versions.{IsOfVersion};
    ghost use Rattle.ucd.specs.Said.{contents_of, AreKnown};

    /// Stores the entries of the files in pages and maps.
    pub fn of(alloc: Global, version: Version, entries: &Entries) -> Result<PagedTables, AllocError>
        requires { AreKnown version entries.now }
        ensures version { IfOk result (λ tables. tables.version ≡ version) }
        ensures say { IfOk result (λ tables. SayAlike tables (contents_of version entries.now)) }
    {
        let pages = pages_of(alloc, version, entries)?;
        let brackets = points_of(alloc, entries.bidi.brackets.as_slice())?;
        let mirrors = points_of(alloc, entries.bidi.mirrors.as_slice())?;
        Ok(PagedTables {
            version,
            pages,
            brackets,
            mirrors,
        })
    }

    /// Decodes an image. The parts of the image are checked in the order that `ImageFault` documents.
    /// Allocates nothing before the frame, the page numbers and the entries have been checked.
    pub fn from_image(alloc: Global, bytes: &[u8]) -> Result<PagedTables, ImageFault>
        ensures ok { IfOk result (IsImageOf bytes.now) }
        ensures err { IfErr result (IsImageFault bytes.now) }
    {
        check_frame(bytes)?;
        let pages = decode_pages(alloc, bytes)?;
        let brackets = decode_brackets(alloc, bytes)?;
        let mirrors = decode_mirrors(alloc, bytes)?;
        check_flags(&pages, &brackets, &mirrors, bytes)?;
        Ok(PagedTables {
            version: image_version(bytes),
            pages: pages.into_pages(),
            brackets,
            mirrors,
        })
    }

    /// Encodes the tables as an image, in which no two pages are equal. If `separates` is set, only LF and CR
    /// end paragraphs in the image.
    pub fn to_image(&self, alloc: Global, separates: bool) -> Result<Vec<u8>, AllocError>
        ensures image { IfOk result (λ image. IsImageOf image.items (contents_if separates self.now)) }
        ensures distinct { IfOk result (λ image. AreImagePagesDistinct image.items) }
    {
        let pages = page_bytes(alloc, &self.pages, separates)?;
        let brackets = point_bytes(alloc, &self.brackets)?;
        let mirrors = point_bytes(alloc, &self.mirrors)?;
        let image = joined(
            alloc,
            self.version,
            &pages.index,
            &pages.entries,
            &brackets,
            &mirrors,
        )?;
        Ok(image)
    }

    /// Returns the version of Unicode.
    pub fn version(&self) -> Version
        ensures { result ≡ self.now.version }
    {
        self.version
    }

    /// States, as a theorem, that the line breaking class and the detail of each character exist in the
    /// tables' version.
    pub fn properties_fit_version(&self)
        ensures { (c : ℕ) → c < 1114112 → IsOfVersion self.now.version (properties_of self.now c) }
    {
        let _version = self.version;
    }

    /// Returns whether each character of class B is U+0085, U+2029 or below U+0020.
    pub fn has_usual_separators(&self) -> bool
        ensures yes { result ≡ true
            → (c : ℕ) → c < 1114112 → may_separate c ≡ false → class_of self.now c ≢ B }
        ensures no { result ≡ false
            → ¬ ((c : ℕ) → c < 1114112 → may_separate c ≡ false → class_of self.now c ≢ B) }
    {
        self.pages.has_usual_separators
    }

    /// Returns the bracket data of the character, if it is a bracket.
    pub fn bracket(&self, c: char) -> Option<Bracket>
        ensures { result ≡ bracket_of self.now c }
    {
        if self.pages.get(c).has_bracket() {
            self.brackets.get(&u32::from(c)).copied()
        } else {
            None
        }
    }

    /// Returns the mirror of the character, if it has one.
    pub fn mirror(&self, c: char) -> Option<char>
        ensures { result ≡ mirror_of self.now c }
    {
        if self.pages.get(c).has_mirror() {
            match self.mirrors.get(&u32::from(c)).copied() {
                Some(mirror) => Some(mirror.0),
                None => None,
            }
        } else {
            None
        }
    }

    /// Returns all properties of the character, except the other bracket of its pair and its mirror.
    pub fn properties(&self, c: char) -> Properties
        ensures { result ≡ properties_of self.now c }
    {
        self.pages.get(c)
    }

    /// Overwrites `properties` with the properties of each character of a text.
    pub fn look_up(&self, text: &[char], properties: &mut [Properties])
        requires { length properties.old ≡ length text.now }
        ensures { properties.new ≡ map (properties_of self.now) text.now }
    {
        // Borrowing the lists once keeps their addresses in registers. Otherwise, the compiler would have to
        // assume that each write may change them.
        let index = self.pages.index.as_slice();
        let entries = self.pages.entries.as_slice();
        let mut k = 0;
        'groups: while k + GROUP <= text.len() {
            'group: for done in 0..GROUP {
                properties[k] = entry_of(index, entries, text[k]);
                k += 1;
            }
        }
        'rest: while k < text.len() {
            properties[k] = entry_of(index, entries, text[k]);
            k += 1;
        }
    }

    /// Like `look_up`, but with the bidi classes of tables in which only LF and CR end paragraphs.
    pub fn look_up_for_lines(&self, text: &[char], properties: &mut [Properties])
        requires { length properties.old ≡ length text.now }
        ensures { properties.new ≡ map (properties_of (with_line_separators self.now)) text.now }
    {
        let index = self.pages.index.as_slice();
        let entries = self.pages.entries.as_slice();
        for k in 0..text.len() {
            let c = text[k];
            properties[k] = entry_of(index, entries, c).for_lines(u32::from(c));
        }
    }
}
