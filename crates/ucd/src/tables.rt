//! The tables, which are read from the files or decoded from an image.
ghost use Rattle.std.specs.Prelude.{◌≡◌, ◌≢◌, ◌<◌, ℕ, length, map, true, false, IfOk, IfErr};
ghost use Rattle.std.specs.Prelude.{None, Some};
ghost use Rattle.std.specs.Option.{option_map};
ghost use Rattle.ucd.specs.Separators.{may_separate};
ghost use Rattle.ucd.specs.declared.bidi_class.BidiClass.TheVariants.{B};
ghost use Rattle.ucd.specs.Tables.{AreTablesOf, IsFaultOf, AreTablesAs, IsFaultAs};
ghost use Rattle.ucd.specs.Tables.{class_of, bracket_of, mirror_of, line_class_of, line_detail_of};
ghost use Rattle.ucd.specs.Answers.{line_tag};
ghost use Rattle.ucd.specs.declared.line_class.TheConstants.{LINE_CLASS_COUNT_15};
ghost use Rattle.ucd.specs.declared.line_detail.LineDetail.TheVariants.{Plain};
ghost use Rattle.ucd.specs.declared.version.Version.TheVariants.{V15_0};
ghost use Rattle.ucd.specs.Tables.{is_wide_in, is_mark_in, is_future_pictograph_in};

use crate::bidi_class::BidiClass;
use crate::bracket::Bracket;
use crate::entries::{Entries, drop_entries};
use crate::fault::TableFault;
use crate::image_fault::ImageFault;
use crate::joining_tables::JoiningTables;
use crate::line_class::LineClass;
use crate::line_detail::LineDetail;
use crate::paged::PagedTables;
use crate::properties::Properties;
use crate::version::Version;
use std::alloc::{AllocError, Global};
use std::marker::Model;
use std::sync::Arc;

/// The contents of the table files, in the order of `FILE_NAMES`.
#[derive(Clone, Copy, Debug)]
pub struct UcdFiles<'a> {
    pub bidi_class: &'a [u8],
    pub bidi_brackets: &'a [u8],
    pub bidi_mirroring: &'a [u8],
    pub line_break: &'a [u8],
    pub general_category: &'a [u8],
    pub east_asian_width: &'a [u8],
    pub emoji_data: &'a [u8],
}

/// The properties of each character: bidi class, bracket, mirror, line breaking class, width and category.
/// Tables may also have joining tables (`with_joining`). Copies share one block of memory, and a second one
/// for joining tables. The last owner frees both.
#[derive(Debug, Drop)]
pub struct Tables {
    shared: Arc<PagedTables>,
    // Whether only LF and CR end paragraphs.
    separates_lines: bool,
    joining: Option<Arc<JoiningTables>>,
}

impl Model for Tables {
    ghost use Rattle.std.specs.Arc.{arc_value};
    ghost use Rattle.std.specs.Option.{option_map};
    ghost use Rattle.ucd.specs.Contents.{TableContents, joined};
    ghost use Rattle.ucd.specs.LineSeparators.{contents_if};

    ghost Value = { TableContents };

    ghost view = { λ t.
        joined (option_map arc_value t.joining) (contents_if t.separates_lines (arc_value t.shared)) };
}

impl Tables {
    ghost use Rattle.std.specs.Arc.{arc_value};
    ghost use Rattle.ucd.specs.Agreeing.{SayAlike};
    ghost use Rattle.ucd.specs.Contents.{joined};
    ghost use Rattle.ucd.specs.Imaged.{IsImageOf, AreImagePagesDistinct};
    ghost use Rattle.ucd.specs.Images.{IsImageFault};
    ghost use Rattle.ucd.specs.LineSeparators.{with_line_separators};
    ghost use Rattle.ucd.specs.LineTables.{SeparatesLines};
    ghost use Rattle.ucd.specs.Properties.{properties_of};
    ghost use Rattle.ucd.specs.Said.{contents_of, AreKnown};

    /// Reads tables of Unicode 15.0 from the files. Fails at the first faulty line, in file order and then
    /// line order, with the first cause that applies (docs/reference.md).
    pub fn read(alloc: Global, files: &UcdFiles<'_>) -> Result<Tables, TableFault>
        ensures ok { IfOk result (AreTablesOf files.now) }
        ensures no_joining { IfOk result (λ tables. tables.joining ≡ None) }
        ensures err { IfErr result (IsFaultOf files.now) }
    {
        Tables::read_as(alloc, Version::V15_0, files)
    }

    /// Reads tables of a version from its files, like `read`. In tables of 17.0, characters that the first
    /// file does not list have the bidi classes from its `@missing` lines.
    pub fn read_as(
        alloc: Global,
        version: Version,
        files: &UcdFiles<'_>,
    ) -> Result<Tables, TableFault>
        ensures ok { IfOk result (AreTablesAs version files.now) }
        ensures no_joining { IfOk result (λ tables. tables.joining ≡ None) }
        ensures err { IfErr result (IsFaultAs version files.now) }
    {
        let entries = Entries::read(alloc, version, files)?;
        let tables = Tables::of(alloc, version, &entries);
        drop_entries(entries);
        match tables {
            Ok(tables) => Ok(tables),
            Err(_) => Err(TableFault::memory()),
        }
    }

    /// Decodes a compiled image of tables, as returned by `to_image`. Fails with the first fault of the image
    /// (docs/reference.md), or if memory runs out. Allocates nothing before the faults up to `Entry` have
    /// been ruled out. Needs time linear in the length of the image, apart from a logarithmic factor for
    /// brackets and mirrors.
    pub fn from_image(alloc: Global, bytes: &[u8]) -> Result<Tables, ImageFault>
        ensures ok { IfOk result (IsImageOf bytes.now) }
        ensures no_joining { IfOk result (λ tables. tables.joining ≡ None) }
        ensures err { IfErr result (IsImageFault bytes.now) }
    {
        let paged = PagedTables::from_image(alloc, bytes)?;
        match Arc::new(alloc, paged) {
            Ok(shared) => Ok(Tables::in_shared(shared)),
            Err(_) => Err(ImageFault::Memory),
        }
    }

    /// Encodes the tables as an image (docs/reference.md), which `from_image` decodes. No two pages of the
    /// image are equal. Joining tables are not stored. Allocates 2.3 MB, and frees all but the image.
    pub fn to_image(&self, alloc: Global) -> Result<Vec<u8>, AllocError>
        ensures image { IfOk result (λ image. IsImageOf image.items self.now) }
        ensures distinct { IfOk result (λ image. AreImagePagesDistinct image.items) }
    {
        self.shared.to_image(alloc, self.separates_lines)
    }

    // Stores the entries of the files in pages and maps.
    fn of(alloc: Global, version: Version, entries: &Entries) -> Result<Tables, AllocError>
        requires { AreKnown version entries.now }
        ensures version { IfOk result (λ tables. tables.version ≡ version) }
        ensures say { IfOk result (λ tables. SayAlike tables (contents_of version entries.now)) }
        ensures no_joining { IfOk result (λ tables. tables.joining ≡ None) }
    {
        let shared = Arc::new(alloc, PagedTables::of(alloc, version, entries)?)?;
        Ok(Tables::in_shared(shared))
    }

    // Wraps tables that are in a shared block of memory.
    fn in_shared(shared: Arc<PagedTables>) -> Tables
        ensures { result ≡ joined None (arc_value shared) }
    {
        Tables {
            shared,
            separates_lines: false,
            joining: None,
        }
    }

    // Returns the joining tables for another owner, if there are any.
    fn share_joining(&self) -> Result<Option<Arc<JoiningTables>>, AllocError>
        ensures { IfOk result (λ joining. option_map arc_value joining ≡ self.now.joining) }
    {
        match &self.joining {
            Some(joining) => Ok(Some(Arc::try_clone(joining)?)),
            None => Ok(None),
        }
    }

    /// Returns the same tables for another owner. Nothing is copied: both owners share the blocks of memory,
    /// by atomic reference counts. `alloc` is not used. Fails only if there are already 2^63 owners.
    pub fn copy(&self, _alloc: Global) -> Result<Tables, AllocError>
        ensures { IfOk result (λ tables. tables ≡ self.now) }
    {
        let shared = Arc::try_clone(&self.shared)?;
        let joining = self.share_joining()?;
        Ok(Tables {
            shared,
            separates_lines: self.separates_lines,
            joining,
        })
    }

    /// Returns tables in which only LF and CR end paragraphs: U+001C to U+001E, U+0085 and U+2029 have bidi
    /// class S (segment separator) if they had B. Everything else is unchanged, including the line breaking
    /// classes, so U+0085 and U+2029 still end lines. Nothing is copied, as in `copy`. `alloc` is not used.
    /// Fails only if the tables already have 2^63 owners.
    pub fn with_line_separators(&self, _alloc: Global) -> Result<Tables, AllocError>
        ensures tables { IfOk result (λ tables. tables ≡ with_line_separators self.now) }
        ensures separates { IfOk result (SeparatesLines self.now) }
    {
        let shared = Arc::try_clone(&self.shared)?;
        let joining = self.share_joining()?;
        Ok(Tables {
            shared,
            separates_lines: true,
            joining,
        })
    }

    /// Returns the same tables with joining types and presentation forms, which replace those of `self`. The
    /// other tables are shared, as in `copy`. Allocates one small block. Fails if memory runs out, or if the
    /// tables already have 2^63 owners.
    pub fn with_joining(&self, alloc: Global, joining: JoiningTables) -> Result<Tables, AllocError>
        ensures { IfOk result (λ tables. tables ≡ record self.now { joining = Some joining }) }
    {
        let shared = Arc::try_clone(&self.shared)?;
        let joining = Arc::new(alloc, joining)?;
        Ok(Tables {
            shared,
            separates_lines: self.separates_lines,
            joining: Some(joining),
        })
    }

    /// Returns the joining types and presentation forms, if the tables have them.
    pub fn joining(&self) -> Option<&JoiningTables>
        ensures { option_map (λ t. t.now) result ≡ self.now.joining }
    {
        self.joining.as_deref()
    }

    /// Returns the version of Unicode.
    pub fn version(&self) -> Version
        ensures { result ≡ self.now.version }
    {
        self.shared.version()
    }

    /// States, as a theorem, that tables of Unicode 15.0 assign no line breaking class or detail of a later
    /// version.
    pub fn classes_fit_version(&self)
        ensures { self.now.version ≡ V15_0 → (c : ℕ) → c < 1114112
            → (line_tag (line_class_of self.now c) < LINE_CLASS_COUNT_15)
            × (line_detail_of self.now c ≡ Plain) }
    {
        self.shared.properties_fit_version();
    }

    /// Returns the bidi class. If no line lists the character, the class is `L` or, in tables of Unicode
    /// 17.0, the class from an `@missing` line of the file.
    pub fn bidi_class(&self, c: char) -> BidiClass
        ensures { result ≡ class_of self.now c }
    {
        self.properties(c).bidi_class()
    }

    /// Returns whether each character of class B is U+0085, U+2029 or below U+0020, as in Unicode's files.
    pub fn has_usual_separators(&self) -> bool
        ensures yes { result ≡ true
            → (c : ℕ) → c < 1114112 → may_separate c ≡ false → class_of self.now c ≢ B }
        ensures no { result ≡ false
            → ¬ ((c : ℕ) → c < 1114112 → may_separate c ≡ false → class_of self.now c ≢ B) }
    {
        self.shared.has_usual_separators()
    }

    /// Returns the bracket data of the character, if it is a bracket.
    pub fn bracket(&self, c: char) -> Option<Bracket>
        ensures { result ≡ bracket_of self.now c }
    {
        self.shared.bracket(c)
    }

    /// Returns the mirror of the character, if it has one.
    pub fn mirror(&self, c: char) -> Option<char>
        ensures { result ≡ mirror_of self.now c }
    {
        self.shared.mirror(c)
    }

    /// Returns the line breaking class, which is `XX` if no line lists the character.
    pub fn line_class(&self, c: char) -> LineClass
        ensures { result ≡ line_class_of self.now c }
    {
        self.properties(c).line_class()
    }

    /// Returns what the line breaking rules of Unicode 17.0 need to know besides the line breaking class.
    /// Always returns `Plain` for tables of Unicode 15.0.
    pub fn line_detail(&self, c: char) -> LineDetail
        ensures { result ≡ line_detail_of self.now c }
    {
        self.properties(c).line_detail()
    }

    /// Returns whether the East Asian width is F, W or H.
    pub fn is_wide(&self, c: char) -> bool
        ensures { result ≡ is_wide_in self.now c }
    {
        self.properties(c).is_wide()
    }

    /// Returns whether the general category is Mn or Mc.
    pub fn is_mark(&self, c: char) -> bool
        ensures { result ≡ is_mark_in self.now c }
    {
        self.properties(c).is_mark()
    }

    /// Returns whether the character is Extended_Pictographic and unassigned (category Cn). A character that
    /// no line lists has category Cn.
    pub fn is_future_pictograph(&self, c: char) -> bool
        ensures { result ≡ is_future_pictograph_in self.now c }
    {
        self.properties(c).is_future_pictograph()
    }

    /// Returns all properties of the character in one lookup, except its mirror and the other bracket of its
    /// pair.
    pub fn properties(&self, c: char) -> Properties
        ensures { result ≡ properties_of self.now c }
    {
        self.shared
            .properties(c)
            .for_lines_if(self.separates_lines, u32::from(c))
    }

    /// Overwrites `properties` with the properties of each character of a text. Faster than a separate call
    /// for each character.
    pub fn look_up(&self, text: &[char], properties: &mut [Properties])
        requires { length properties.old ≡ length text.now }
        ensures { properties.new ≡ map (properties_of self.now) text.now }
    {
        if self.separates_lines {
            self.shared.look_up_for_lines(text, properties);
        } else {
            self.shared.look_up(text, properties);
        }
    }
}
