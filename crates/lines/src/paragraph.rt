//! What is known about a paragraph, or about one of its lines, before its lines are reordered.
ghost use Rattle.std.specs.Prelude.{◌≡◌};

use crate::fill::Shown;
use crate::options::Options;
use breaks::Mark;
use ucd::{BidiClass, Properties, Tables};

/// The tables and the options of a layout.
#[derive(Clone, Copy)]
pub(crate) struct LentRules<'a> {
    pub(crate) tables: &'a Tables,
    pub(crate) options: Options,
}

impl LentRules<'_> {
    ghost use Rattle.lines.specs.Tabs.{tab_width_in};

    /// Returns the distance between tab stops. Returns 0 if tabs have no columns, because there are no tab
    /// stops or U+0009 does not have bidi class S.
    pub(crate) fn tab_width(&self) -> u8
        ensures { result ≡ tab_width_in self.now.tables.now self.now.options }
    {
        let width = self.options.tab_width;
        if width == 0 || self.tables.properties('\t').bidi_class() == BidiClass::S {
            return width;
        }
        0
    }
}

/// The characters of a paragraph or of a line, with their properties and the base level. If lines are ordered
/// by clusters, `ends` says whether a grapheme cluster ends after each character. Otherwise, `ends` is empty.
#[derive(Clone, Copy)]
pub(crate) struct Text<'a> {
    pub(crate) rules: LentRules<'a>,
    pub(crate) characters: &'a [char],
    pub(crate) properties: &'a [Properties],
    pub(crate) ends: &'a [bool],
    pub(crate) base: u8,
}

/// A paragraph and the data that filling needs: the level of each character before L1, the break mark after
/// each character, and the advances if the paragraph is measured.
#[derive(Clone, Copy)]
pub(crate) struct Paragraph<'a> {
    pub(crate) text: Text<'a>,
    pub(crate) advances: Option<&'a [u32]>,
    pub(crate) levels: &'a [u8],
    pub(crate) marks: &'a [Mark],
}

/// The characters of a line, which are those of its paragraph from `start` up to `end`, and how much of the
/// line is shown.
#[derive(Clone, Copy)]
pub(crate) struct LineSlice<'a> {
    pub(crate) start: usize,
    pub(crate) end: usize,
    pub(crate) text: Text<'a>,
    pub(crate) shown: Shown,
}

/// A line in logical order, with the level of each character before L1, and how much of the line is shown.
#[derive(Clone, Copy)]
pub(crate) struct LogicalLine<'a> {
    pub(crate) text: Text<'a>,
    pub(crate) levels: &'a [u8],
    pub(crate) shown: Shown,
    pub(crate) is_first: bool,
}
