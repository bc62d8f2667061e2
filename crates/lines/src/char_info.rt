//! What filling needs to know about each character of a paragraph.
ghost use Rattle.std.specs.Prelude.{◌≡◌, ◌<◌, ◌≤◌, ℕ, false, Bool, length, map};
ghost use Rattle.std.specs.Prelude.{slice_index, take, None, OnOk};
ghost use Rattle.ucd.specs.Properties.{properties_of};
ghost use Rattle.ucd.specs.declared.tables.Tables.{Tables};
ghost use Rattle.breaks.specs.Bases.{resolved};
ghost use Rattle.breaks.specs.Marks.{marks_of};
ghost use Rattle.lines.specs.Bare.{with_ends};
ghost use Rattle.lines.specs.BareInfos.{bare_infos};
ghost use Rattle.lines.specs.Clusters.{cluster_ends};
ghost use Rattle.lines.specs.CharInfos.{columns_of, info, infos_of, trailing_by};
ghost use Rattle.lines.specs.Filling.{is_must};
ghost use Rattle.lines.specs.Paragraphs.{IsLookedUp};
ghost use Rattle.lines.specs.Tabs.{is_tab, tab_width_in};

use crate::column_cache::ColumnCache;
use crate::paragraph::Text;
use crate::reserve::grow;
use crate::widths::{are_common, are_printable, is_tab, next_stop};
use breaks::{Mark, marks_are_as_many};
use std::alloc::{AllocError, Global};
use ucd::{LineClass, Properties, Tables};

/// The role of a character in the tail of a line. The tail consists of the spaces and separators at the end
/// of the line.
#[derive(Clone, Copy, Debug, PartialEq, Eq)]
pub enum Trailing {
    /// The character is never in a tail.
    No,
    /// A space (line breaking class SP).
    Space,
    /// A separator (line breaking class BK, CR, LF or NL).
    Separator,
    /// The character is a tab that moves to a tab stop, and is never in a tail.
    Tab,
}

/// What filling needs to know about a character.
#[derive(Clone, Copy, Debug)]
pub struct CharInfo {
    /// The width of the character in columns, or for a tab, the distance between tab stops.
    pub columns: u8,
    /// The role of the character in a tail.
    pub trailing: Trailing,
    /// The break mark after the character.
    pub mark: Mark,
    /// Whether a grapheme cluster ends after the character.
    pub ends_cluster: bool,
}

// A placeholder that fills a new list before each item is overwritten.
const NOTHING: CharInfo = CharInfo {
    columns: 0,
    trailing: Trailing::No,
    mark: Mark::Never,
    ends_cluster: false,
};

impl CharInfo {
    ghost use Rattle.std.specs.Prelude.{ℕ, ◌+◌, ◌^◌, ◌<◌, ◌≤◌, ◌&&◌, nat_le};
    ghost use Rattle.lines.specs.CharInfos.{advance, is_space};

    /// Returns the info for a character that is `columns` wide and has these properties. `ends_cluster` is
    /// `false`.
    pub(crate) fn of(
        columns: u8,
        properties: Properties,
        c: char,
        mark: Mark,
        tab_width: u8,
    ) -> CharInfo
        requires { columns ≡ columns_of c }
        ensures { (t : Tables) → properties ≡ properties_of t c → result ≡ info t tab_width c mark false }
    {
        if is_tab(tab_width, c) {
            return CharInfo {
                columns: tab_width,
                trailing: Trailing::Tab,
                mark,
                ends_cluster: false,
            };
        }
        CharInfo::of_other(columns, properties, mark)
    }

    // Implements `of` for a character that does not move to a tab stop.
    fn of_other(columns: u8, properties: Properties, mark: Mark) -> CharInfo
        ensures { (t : Tables) (tab_width c : ℕ) → columns ≡ columns_of c → properties ≡ properties_of t c
            → is_tab tab_width c ≡ false → result ≡ info t tab_width c mark false }
    {
        CharInfo {
            columns,
            trailing: trailing_of(properties.line_class()),
            mark,
            ends_cluster: false,
        }
    }

    /// Returns the width of a line up to and including the character. `size` is the character's size, and
    /// `before` is the width of the line before the character.
    pub(crate) fn advance(self, size: u32, before: usize) -> usize
        requires { before < 2 ^ 60 }
        ensures columns { result ≡ advance before (record self { columns = size }) }
        ensures most { result ≤ before + size }
    {
        if self.trailing.moves() {
            return next_stop(before, size as usize);
        }
        before + size as usize
    }

    /// Returns whether the character is a space that ends within the margin. `size` and `before` are as in
    /// `advance`.
    pub(crate) fn is_space_within(self, size: u32, before: u32, margin: u32) -> bool
        ensures { result ≡ (is_space self.trailing
            && nat_le (advance before (record self { columns = size })) margin) }
    {
        self.trailing.is_space() && self.advance(size, before as usize) <= margin as usize
    }
}

/// Returns the role in a tail of characters with this line breaking class.
pub(crate) fn trailing_of(class: LineClass) -> Trailing
    ensures { (is_mark : Bool) → result ≡ trailing_by (resolved class is_mark) }
{
    match class {
        LineClass::SP => Trailing::Space,
        LineClass::BK => Trailing::Separator,
        LineClass::CR => Trailing::Separator,
        LineClass::LF => Trailing::Separator,
        LineClass::NL => Trailing::Separator,
        _ => Trailing::No,
    }
}

impl Trailing {
    ghost use Rattle.lines.specs.CharInfos.{is_space, may_trail, moves};

    /// Returns whether characters with this role may be in a tail.
    pub(crate) fn may_trail(self) -> bool
        ensures { result ≡ may_trail self }
    {
        matches!(self, Trailing::Space | Trailing::Separator)
    }

    /// Returns whether a character with this role moves to a tab stop.
    pub(crate) fn moves(self) -> bool
        ensures { result ≡ moves self }
    {
        self == Trailing::Tab
    }

    /// Returns whether characters with this role are spaces.
    pub(crate) fn is_space(self) -> bool
        ensures { result ≡ is_space self }
    {
        self == Trailing::Space
    }
}

/// Returns whether a line must end after a character with this break mark.
pub(crate) fn is_must(mark: Mark) -> bool
    ensures { result ≡ is_must mark }
{
    mark == Mark::Must
}

/// The total columns of consecutive characters, and whether they contain a tab or a mandatory break.
#[derive(Clone, Copy)]
pub(crate) struct Sum {
    /// The total columns of the characters, if none of them is a tab that moves to a tab stop.
    pub(crate) columns: u32,
    pub(crate) has_tab: bool,
    /// Whether a line must end after one of the characters.
    pub(crate) has_must: bool,
}

impl Sum {
    ghost use Rattle.std.specs.Prelude.{ℕ, ◌+◌, ◌*◌, ◌≤◌, false, fold};
    ghost use Rattle.std.specs.List.{list_any};
    ghost use Rattle.lines.specs.CharInfos.{advance, moves};
    ghost use Rattle.lines.specs.Filling.{is_must};
    ghost use Rattle.lines.specs.declared.engine.TheConstants.{PARAGRAPH_LIMIT};

    /// Returns the total columns of consecutive characters, and whether they contain a tab or a mandatory
    /// break.
    pub(crate) fn of(piece: &[CharInfo]) -> Sum
        requires { length piece.now ≤ PARAGRAPH_LIMIT }
        ensures columns { result.has_tab ≡ false
            → (before : ℕ) → fold advance before piece.now ≡ before + result.columns }
        ensures most { result.columns ≤ 255 * length piece.now }
        ensures tab { result.has_tab ≡ list_any (λ p. moves p.trailing) piece.now }
        ensures must { result.has_must ≡ list_any (λ p. is_must p.mark) piece.now }
    {
        // The loop has no branches, so the compiler can add up several characters at a time.
        let mut columns = 0;
        let mut has_tab = false;
        let mut has_must = false;
        for info in piece {
            columns += u32::from(info.columns);
            has_tab |= info.trailing.moves();
            has_must |= is_must(info.mark);
        }
        Sum {
            columns,
            has_tab,
            has_must,
        }
    }
}

/// Buffers that are reused for each paragraph: the `CharInfo` of each character, and a cache of columns.
#[derive(Drop)]
pub(crate) struct InfoBuffers {
    pub(crate) infos: Vec<CharInfo>,
    pub(crate) cache: ColumnCache,
}

impl InfoBuffers {
    /// Creates empty buffers. Allocates nothing.
    pub(crate) fn new(alloc: Global) -> InfoBuffers {
        InfoBuffers {
            infos: Vec::new(alloc),
            cache: ColumnCache::new(alloc),
        }
    }

    /// Writes the info for each character of a paragraph to the front of `infos`. Each `ends_cluster` is
    /// `false`.
    pub(crate) fn fill(&mut self, text: &Text<'_>, marks: &[Mark]) -> Result<(), AllocError>
        requires text { IsLookedUp text.now }
        requires marks { marks.now ≡ marks_of text.now.rules.tables.now
            text.now.rules.options.whole_numbers text.now.characters.now }
        ensures infos { OnOk result (with_ends
            (take (length text.now.characters.now) self.new.infos.items)
            (cluster_ends text.now.characters.now)
            ≡ infos_of text.now.rules.tables.now text.now.rules.options None text.now.characters.now) }
        ensures len { OnOk result (length text.now.characters.now ≤ length self.new.infos.items) }
    {
        marks_are_as_many(
            text.rules.tables,
            text.characters,
            text.rules.options.whole_numbers,
        );
        self.fill_with(text, marks)
    }

    /// Writes the info for each character of a text with these break marks to the front of `infos`. Each
    /// `ends_cluster` is `false`.
    pub(crate) fn fill_with(&mut self, text: &Text<'_>, marks: &[Mark]) -> Result<(), AllocError>
        requires text { IsLookedUp text.now }
        requires marks { length marks.now ≡ length text.now.characters.now }
        ensures infos { OnOk result (take (length text.now.characters.now) self.new.infos.items
            ≡ bare_infos text.now.rules.tables.now
            (tab_width_in text.now.rules.tables.now text.now.rules.options)
            text.now.characters.now marks.now) }
        ensures len { OnOk result (length text.now.characters.now ≤ length self.new.infos.items) }
    {
        let (tables, characters) = (text.rules.tables, text.characters);
        grow(&mut self.infos, characters.len(), NOTHING)?;
        self.cache.prepare()?;
        let tab_width = text.rules.tab_width();
        put_front(
            tables,
            characters,
            text.properties,
            marks,
            tab_width,
            &mut self.cache,
            &mut self.infos,
        );
        Ok(())
    }
}

// Writes the info for each character to the front of `infos`. Each `ends_cluster` is `false`.
fn put_front(
    tables: &Tables,
    text: &[char],
    properties: &[Properties],
    marks: &[Mark],
    tab_width: u8,
    cache: &mut ColumnCache,
    infos: &mut [CharInfo],
)
    requires marks { length marks.now ≡ length text.now }
    requires properties { properties.now ≡ map (properties_of tables.now) text.now }
    requires len { length text.now ≤ length infos.old }
    ensures { take (length text.now) infos.new ≡ bare_infos tables.now tab_width text.now marks.now }
{
    let front = &mut infos[..text.len()];
    put_infos(tables, text, properties, marks, tab_width, cache, front);
}

// Overwrites `infos` with the info for each character. Each `ends_cluster` is `false`.
fn put_infos(
    tables: &Tables,
    text: &[char],
    properties: &[Properties],
    marks: &[Mark],
    tab_width: u8,
    cache: &mut ColumnCache,
    infos: &mut [CharInfo],
)
    requires marks { length marks.now ≡ length text.now }
    requires properties { properties.now ≡ map (properties_of tables.now) text.now }
    requires len { length infos.old ≡ length text.now }
    ensures { infos.new ≡ bare_infos tables.now tab_width text.now marks.now }
{
    if tab_width == 0 {
        return put_without_tabs(tables, text, properties, marks, cache, infos);
    }
    let mut k = 0;
    while k < text.len() {
        let c = text[k];
        infos[k] = CharInfo::of(cache.columns(c), properties[k], c, marks[k], tab_width);
        k += 1;
    }
}

/// The number of characters in a group. A group is tested, or its columns are added up, in one step.
pub(crate) const GROUP: usize = 8;

// Implements `put_infos` if there are no tab stops.
fn put_without_tabs(
    tables: &Tables,
    text: &[char],
    properties: &[Properties],
    marks: &[Mark],
    cache: &mut ColumnCache,
    infos: &mut [CharInfo],
)
    requires marks { length marks.now ≡ length text.now }
    requires properties { properties.now ≡ map (properties_of tables.now) text.now }
    requires len { length infos.old ≡ length text.now }
    ensures { infos.new ≡ bare_infos tables.now 0 text.now marks.now }
{
    let mut k = 0;
    while k + GROUP <= text.len() {
        let end = k + GROUP;
        put_group(
            tables,
            &text[k..end],
            &properties[k..end],
            &marks[k..end],
            cache,
            &mut infos[k..end],
        );
        k = end;
    }
    put_each(
        tables,
        &text[k..],
        &properties[k..],
        &marks[k..],
        cache,
        &mut infos[k..],
    );
}

fn put_group(
    tables: &Tables,
    text: &[char],
    properties: &[Properties],
    marks: &[Mark],
    cache: &mut ColumnCache,
    infos: &mut [CharInfo],
)
    requires marks { length marks.now ≡ length text.now }
    requires properties { properties.now ≡ map (properties_of tables.now) text.now }
    requires len { length infos.old ≡ length text.now }
    ensures { infos.new ≡ bare_infos tables.now 0 text.now marks.now }
{
    if are_printable(text) || are_common(text) {
        put_narrow(tables, text, properties, marks, infos);
    } else {
        put_each(tables, text, properties, marks, cache, infos);
    }
}

fn put_each(
    _tables: &Tables,
    text: &[char],
    properties: &[Properties],
    marks: &[Mark],
    cache: &mut ColumnCache,
    infos: &mut [CharInfo],
)
    requires marks { length marks.now ≡ length text.now }
    requires properties { properties.now ≡ map (properties_of _tables.now) text.now }
    requires len { length infos.old ≡ length text.now }
    ensures { infos.new ≡ bare_infos _tables.now 0 text.now marks.now }
{
    let mut k = 0;
    while k < text.len() {
        // Look up the columns first, so that fewer values must be kept during the lookup.
        let columns = cache.columns(text[k]);
        infos[k] = CharInfo::of_other(columns, properties[k], marks[k]);
        k += 1;
    }
}

// Implements `put_each` for characters that have one column.
fn put_narrow(
    _tables: &Tables,
    _text: &[char],
    properties: &[Properties],
    marks: &[Mark],
    infos: &mut [CharInfo],
)
    requires narrow { (k : ℕ) → k < length _text.now → 1 ≡ columns_of (slice_index _text.now k) }
    requires marks { length marks.now ≡ length _text.now }
    requires properties { properties.now ≡ map (properties_of _tables.now) _text.now }
    requires len { length infos.old ≡ length _text.now }
    ensures { infos.new ≡ bare_infos _tables.now 0 _text.now marks.now }
{
    let mut k = 0;
    while k < properties.len() {
        infos[k] = CharInfo::of_other(1, properties[k], marks[k]);
        k += 1;
    }
}
