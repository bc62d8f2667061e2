//! A resolver, which finds the levels of paragraphs before L1 (UAX #9, X1 to I2) and reuses its lists.
ghost use Rattle.std.specs.Prelude.{◌≡◌, ℕ, ◌<◌, ◌≤◌, map, length, replicate, IfOk, List, OnErr, OnOk};
ghost use Rattle.std.specs.Prelude.{vec_capacity};
ghost use Rattle.std.specs.Prelude.{Option, true, false, slice_index_or, take};
ghost use Rattle.std.specs.List.{list_all, list_any};
ghost use Rattle.ucd.specs.Properties.{properties_of};
ghost use Rattle.ucd.specs.Tables.{class_of, bracket_of};
ghost use Rattle.ucd.specs.declared.bracket.Bracket.{Bracket};
ghost use Rattle.ucd.specs.declared.properties.Properties.{Properties};
ghost use Rattle.bidi.specs.declared.bracket_type.BracketType.TheVariants.{Other};
ghost use Rattle.bidi.specs.Base.{base_level_of};
ghost use Rattle.bidi.specs.BracketTypes.{bracket_types, is_bracket, type_by};
ghost use Rattle.bidi.specs.KnownBrackets.{AreKnown};
ghost use Rattle.ucd.specs.Classes.{class_in};
ghost use Rattle.bidi.specs.Levels.{levels_of, paragraph_levels};
ghost use Rattle.bidi.specs.Paragraphs.{AreFor, OfAllTexts};
ghost use Rattle.bidi.specs.Plain.{has_bracket_in, is_flat, is_flat_at, is_flat_rtl, is_plain};

use crate::base::{Base, base_level_by, base_level_of};
use crate::bracket_type::{BracketType, bracket_type, is_bracket, next_bracket};
use crate::fill::lengthen;
use crate::levels::{Classified, Work, resolve_classes, resolve_plain};
use crate::sequence_levels::Brackets;
use std::alloc::{AllocError, Global};
use std::fmt;
use std::fmt::{Debug, Formatter};
use ucd::{BidiClass, Properties, Tables};

// The loops over classes below have no branches, so the compiler can test many characters at a time. For the
// same reason, the next three functions use comparisons instead of a `match`.

// The number of properties that the compiler tests at a time. After the whole groups, the last `GROUP`
// properties are read, some of them again, so that no shorter group is left.
const GROUP: usize = 16;

// Returns whether a character of this class is kept by X9, and neither opens nor closes an embedding,
// override or isolate.
fn is_plain(class: BidiClass) -> bool
    ensures { result ≡ is_plain class }
{
    (class as u8 <= BidiClass::ON as u8) & (class as u8 != BidiClass::BN as u8)
}

// Returns whether a class is flat: if all classes of a paragraph are flat and its base level is 0, all levels
// are 0.
fn is_flat(class: BidiClass) -> bool
    ensures { result ≡ is_flat class }
{
    let number = class as u8;
    (number <= BidiClass::ON as u8)
        & ((number != BidiClass::R as u8)
            & ((number != BidiClass::AL as u8) & (number != BidiClass::AN as u8)))
}

// Returns whether a class is flat in a right-to-left paragraph: if all classes are and the base level is 1,
// all levels are 1.
fn is_flat_rtl(class: BidiClass) -> bool
    ensures { result ≡ is_flat_rtl class }
{
    let number = class as u8;
    (number <= BidiClass::ON as u8)
        & ((number != BidiClass::L as u8)
            & ((number != BidiClass::EN as u8) & (number != BidiClass::AN as u8)))
}

// Returns whether a class is flat in a paragraph with this base level, 0 or 1.
#[inline(always)] // so that a loop tests the base level once
fn is_flat_at(class: BidiClass, base: u8) -> bool
    ensures { result ≡ is_flat_at base class }
{
    if base == 0 {
        is_flat(class)
    } else {
        is_flat_rtl(class)
    }
}

fn are_plain(classes: &[BidiClass]) -> bool
    ensures { result ≡ list_all is_plain classes.now }
{
    let mut all = true;
    for class in classes {
        all &= is_plain(*class);
    }
    all
}

// Returns whether all classes are flat, so that all levels equal the base level.
fn are_flat(classes: &[BidiClass], base: u8) -> bool
    requires { base ≤ 1 }
    ensures { result ≡ list_all (is_flat_at base) classes.now }
{
    let mut flat = true;
    for class in classes {
        flat &= is_flat_at(*class, base);
    }
    flat
}

// Returns whether the classes in the properties are all flat, so that all levels equal the base level. Reads
// whole groups, and then the last `GROUP` properties.
fn are_flat_by(properties: &[Properties], base: u8) -> bool
    requires { base ≤ 1 }
    ensures { result ≡ list_all (λ one. is_flat_at base (class_in one)) properties.now }
{
    let len = properties.len();
    if len < GROUP {
        return are_each_flat(properties, base);
    }
    are_each_flat(&properties[..len - len % GROUP], base)
        && are_each_flat(&properties[len - GROUP..], base)
}

// Does the same as `are_flat_by`.
#[inline(always)] // so that the loop knows that it reads whole groups
fn are_each_flat(properties: &[Properties], base: u8) -> bool
    requires { base ≤ 1 }
    ensures { result ≡ list_all (λ one. is_flat_at base (class_in one)) properties.now }
{
    let mut flat = true;
    for at in 0..properties.len() {
        flat &= is_flat_at(properties[at].bidi_class(), base);
    }
    flat
}

fn has_brackets(brackets: &[BracketType]) -> bool
    ensures { result ≡ list_any is_bracket brackets.now }
{
    let mut any = false;
    for bracket in brackets {
        any |= is_bracket(*bracket);
    }
    any
}

// The facts that decide which rules a paragraph needs.
#[derive(Clone, Copy)]
struct Summary {
    // Whether no character is an opener or a closer, and X9 removes no character.
    is_plain: bool,
    has_brackets: bool,
}

// Writes the classes in `properties` to the front of `classes`, and returns a summary of the properties.
fn fill_classes(
    properties: &[Properties],
    classes: &mut Vec<BidiClass>,
) -> Result<Summary, AllocError>
    ensures enough { OnOk result (length properties.now ≤ length classes.new.items) }
    ensures classes { OnOk result
        (take (length properties.now) classes.new.items ≡ map class_in properties.now) }
    ensures plain { IfOk result (λ summary.
        summary.is_plain ≡ list_all is_plain (map class_in properties.now)) }
    ensures brackets { IfOk result (λ summary.
        summary.has_brackets ≡ list_any has_bracket_in properties.now) }
{
    // All items that are used are overwritten below, so their values do not matter.
    lengthen(classes, properties.len(), BidiClass::L)?;
    Ok(put_front(properties, classes))
}

// Overwrites the front of `classes` with the classes in `properties`, and returns a summary of the
// properties.
fn put_front(properties: &[Properties], classes: &mut [BidiClass]) -> Summary
    requires { length properties.now ≤ length classes.old }
    ensures classes { take (length properties.now) classes.new ≡ map class_in properties.now }
    ensures plain { result.is_plain ≡ list_all is_plain (map class_in properties.now) }
    ensures brackets { result.has_brackets ≡ list_any has_bracket_in properties.now }
{
    put_classes(properties, &mut classes[..properties.len()])
}

// Overwrites `classes` with the classes in `properties`, and returns a summary of the properties. Reads whole
// groups, and then the last `GROUP` properties.
fn put_classes(properties: &[Properties], classes: &mut [BidiClass]) -> Summary
    requires { length classes.old ≡ length properties.now }
    ensures classes { classes.new ≡ map class_in properties.now }
    ensures plain { result.is_plain ≡ list_all is_plain (map class_in properties.now) }
    ensures brackets { result.has_brackets ≡ list_any has_bracket_in properties.now }
{
    let len = properties.len();
    if len < GROUP {
        return put_each(properties, classes);
    }
    let whole = len - len % GROUP;
    let first = put_each(&properties[..whole], &mut classes[..whole]);
    let last = put_last(&properties[len - GROUP..], &mut classes[len - GROUP..]);
    Summary {
        is_plain: first.is_plain & last.is_plain,
        has_brackets: first.has_brackets | last.has_brackets,
    }
}

// Does the same as `put_classes`, for the last group.
fn put_last(properties: &[Properties], classes: &mut [BidiClass]) -> Summary
    requires { length classes.old ≡ length properties.now }
    ensures classes { classes.new ≡ map class_in properties.now }
    ensures plain { result.is_plain ≡ list_all is_plain (map class_in properties.now) }
    ensures brackets { result.has_brackets ≡ list_any has_bracket_in properties.now }
{
    put_each(properties, classes)
}

// Does the same as `put_classes`.
#[inline(never)] // otherwise, the compiler unrolls the loop for the last group, and does not vectorize it
fn put_each(properties: &[Properties], classes: &mut [BidiClass]) -> Summary
    requires { length classes.old ≡ length properties.now }
    ensures classes { classes.new ≡ map class_in properties.now }
    ensures plain { result.is_plain ≡ list_all is_plain (map class_in properties.now) }
    ensures brackets { result.has_brackets ≡ list_any has_bracket_in properties.now }
{
    let mut all_plain = true;
    let mut no_bracket = true;
    for at in 0..properties.len() {
        let one = properties[at];
        let class = one.bidi_class();
        classes[at] = class;
        all_plain &= is_plain(class);
        no_bracket &= !one.has_bracket();
    }
    Summary {
        is_plain: all_plain,
        has_brackets: !no_bracket,
    }
}

// Replaces the contents of `brackets` with the bracket types of a text.
fn fill_brackets(
    tables: &Tables,
    text: &[char],
    properties: &[Properties],
    brackets: &mut Vec<BracketType>,
) -> Result<(), AllocError>
    requires { properties.now ≡ map (properties_of tables.now) text.now }
    ensures { OnOk result (brackets.new.items ≡ bracket_types (bracket_of tables.now) text.now) }
{
    brackets.clear();
    brackets.resize(text.len(), BracketType::Other)?;
    put_brackets(tables, text, properties, brackets);
    Ok(())
}

// Sets the bracket types of the characters that are brackets. Only these characters are looked up in the
// tables.
fn put_brackets(
    tables: &Tables,
    text: &[char],
    properties: &[Properties],
    brackets: &mut [BracketType],
)
    requires properties { properties.now ≡ map (properties_of tables.now) text.now }
    requires others { brackets.old ≡ replicate (length text.now) Other }
    ensures { brackets.new ≡ bracket_types (bracket_of tables.now) text.now }
{
    let mut known = Known::new(tables);
    let mut at = next_bracket(properties, 0);
    while at < text.len() {
        brackets[at] = known.look_up(tables, text[at]);
        at = next_bracket(properties, at + 1);
    }
}

// A cache of the bracket types of two characters. `first` is the character that was last looked up in the
// tables. Most texts use only one kind of bracket.
#[derive(Clone, Copy)]
struct Known {
    first: char,
    first_type: BracketType,
    second: char,
    second_type: BracketType,
}

impl Known {
    fn new(tables: &Tables) -> Known
        ensures { AreKnown tables.now result }
    {
        let other = bracket_type(tables, '\0');
        Known {
            first: '\0',
            first_type: other,
            second: '\0',
            second_type: other,
        }
    }

    fn look_up(&mut self, tables: &Tables, character: char) -> BracketType
        requires { AreKnown tables.now self.old }
        ensures found { result ≡ type_by (bracket_of tables.now character) character }
        ensures known { AreKnown tables.now self.new }
    {
        if character == self.first {
            return self.first_type;
        }
        if character == self.second {
            return self.second_type;
        }
        let found = bracket_type(tables, character);
        self.second = self.first;
        self.second_type = self.first_type;
        self.first = character;
        self.first_type = found;
        found
    }
}

// If `has_any` is true, replaces the contents of `brackets` with the bracket types of a text.
fn fill_any_brackets(
    tables: &Tables,
    text: &[char],
    properties: &[Properties],
    has_any: bool,
    brackets: &mut Vec<BracketType>,
) -> Result<(), AllocError>
    requires { properties.now ≡ map (properties_of tables.now) text.now }
    ensures { OnOk result (has_any ≡ true
        → brackets.new.items ≡ bracket_types (bracket_of tables.now) text.now) }
{
    if !has_any {
        return Ok(());
    }
    fill_brackets(tables, text, properties, brackets)
}

// Replaces the contents of `levels` with `len` copies of the base level.
fn put_base(levels: &mut Vec<u8>, len: usize, base: u8) -> Result<(), AllocError>
    ensures ok { OnOk result (levels.new.items ≡ replicate len base) }
    ensures full { OnErr result (vec_capacity levels.old < len) }
{
    levels.clear();
    levels.resize(len, base)?;
    Ok(())
}

/// Finds the levels of paragraphs, and keeps its lists from one paragraph to the next. Does not allocate for
/// a paragraph if the lists have enough capacity.
pub struct Resolver {
    classes: Vec<BidiClass>,
    brackets: Vec<BracketType>,
    acting: Vec<BidiClass>,
    work: Work,
}

impl Debug for Resolver {
    fn fmt<W: fmt::Write>(&self, f: &mut Formatter<W>) -> fmt::Result {
        f.debug_struct("Resolver").finish_non_exhaustive()
    }
}

impl Drop for Resolver {
    fn drop(self) {
        let Resolver {
            classes: _,
            brackets: _,
            acting: _,
            work: _,
        } = self;
    }
}

impl Resolver {
    /// Creates a resolver with empty lists. Does not allocate.
    pub fn new(alloc: Global) -> Resolver {
        Resolver {
            classes: Vec::new(alloc),
            brackets: Vec::new(alloc),
            acting: Vec::new(alloc),
            work: Work::new(alloc),
        }
    }

    /// Returns the base level of one paragraph, 0 or 1. Replaces the contents of `levels` with the level of
    /// each character, from 0 to 126, before L1 is applied. `properties` must be the properties of the text's
    /// characters. The text need not be a single paragraph: any list of characters is allowed. After an
    /// allocation failure, the resolver can be used again, and the contents of `levels` are unspecified.
    pub fn resolve(
        &mut self,
        tables: &Tables,
        text: &[char],
        properties: &[Properties],
        base: Base,
        levels: &mut Vec<u8>,
    ) -> Result<u8, AllocError>
        requires { properties.now ≡ map (properties_of tables.now) text.now }
        ensures level { IfOk result (λ level. level
            ≡ base_level_of (map (class_of tables.now) text.now) base) }
        ensures levels { OnOk result (levels.new.items ≡ levels_of tables.now text.now base) }
        ensures len { OnOk result (length levels.new.items ≡ length text.now) }
        ensures memory { OnErr result (0 < length text.now) }
    {
        let level = base_level_by(properties, base);
        if text.is_empty() {
            levels.clear();
            return Ok(level);
        }
        if are_flat_by(properties, level) {
            put_base(levels, properties.len(), level)?;
        } else {
            self.resolve_raised(tables, text, properties, level, levels)?;
        }
        Ok(level)
    }

    // Finds the levels of a paragraph with a given base level, without the fast path for paragraphs in which
    // all levels are equal.
    fn resolve_raised(
        &mut self,
        tables: &Tables,
        text: &[char],
        properties: &[Properties],
        base: u8,
        levels: &mut Vec<u8>,
    ) -> Result<(), AllocError>
        requires properties { properties.now ≡ map (properties_of tables.now) text.now }
        requires low { base ≤ 1 }
        ensures { OnOk result (levels.new.items
            ≡ paragraph_levels (bracket_of tables.now) text.now (map class_in properties.now) base) }
    {
        let summary = fill_classes(properties, &mut self.classes)?;
        let has_any = summary.has_brackets;
        fill_any_brackets(tables, text, properties, has_any, &mut self.brackets)?;
        let paragraph = Classified {
            brackets: Brackets {
                types: &self.brackets,
                has_any,
            },
            classes: &self.classes[..properties.len()],
            base,
        };
        resolve_classified(
            &paragraph,
            summary.is_plain,
            &mut self.acting,
            &mut self.work,
            levels,
        )
    }

    /// Returns the base level of one paragraph, 0 or 1. Replaces the contents of `levels` with the level of
    /// each character, from 0 to 126, before L1 is applied. Besides `base`, the levels depend only on the
    /// classes and bracket types: any text and tables with the same classes and bracket types have the same
    /// levels. `classes` may be any list: it need not come from a paragraph. After an allocation failure, the
    /// resolver can be used again, and the contents of `levels` are unspecified.
    pub fn resolve_by(
        &mut self,
        classes: &[BidiClass],
        brackets: &[BracketType],
        base: Base,
        levels: &mut Vec<u8>,
    ) -> Result<u8, AllocError>
        requires { length brackets.now ≡ length classes.now }
        ensures level { IfOk result (λ level. level ≡ base_level_of classes.now base) }
        ensures levels { OnOk result ((look : ℕ → Option Bracket) (text : List ℕ)
            → brackets.now ≡ bracket_types look text
            → levels.new.items ≡ paragraph_levels look text classes.now (base_level_of classes.now base)) }
        ensures len { OnOk result (length levels.new.items ≡ length classes.now) }
        ensures memory { OnErr result (0 < length classes.now) }
    {
        let level = base_level_of(classes, base);
        if classes.is_empty() {
            levels.clear();
            return Ok(level);
        }
        if are_flat(classes, level) {
            put_base(levels, classes.len(), level)?;
            return Ok(level);
        }
        let paragraph = Classified {
            brackets: Brackets {
                types: brackets,
                has_any: has_brackets(brackets),
            },
            classes,
            base: level,
        };
        let all_plain = are_plain(classes);
        resolve_classified(
            &paragraph,
            all_plain,
            &mut self.acting,
            &mut self.work,
            levels,
        )?;
        Ok(level)
    }
}

// Finds the levels of a paragraph with a given base level. `all_plain` must be true if the paragraph has no
// openers, no closers and no characters that X9 removes, and false otherwise.
fn resolve_classified(
    paragraph: &Classified<'_>,
    all_plain: bool,
    acting: &mut Vec<BidiClass>,
    work: &mut Work,
    levels: &mut Vec<u8>,
) -> Result<(), AllocError>
    requires plain { all_plain ≡ list_all is_plain paragraph.now.classes.now }
    requires low { paragraph.now.base ≤ 1 }
    requires brackets { AreFor paragraph.now.brackets (length paragraph.now.classes.now) }
    ensures { OnOk result (OfAllTexts paragraph.now.brackets (length paragraph.now.classes.now) (λ look text.
        levels.new.items ≡ paragraph_levels look text paragraph.now.classes.now paragraph.now.base)) }
{
    if all_plain {
        resolve_plain(paragraph, work, levels)
    } else {
        resolve_classes(paragraph, acting, work, levels)
    }
}

/// Returns the properties of each character of a text.
pub(crate) fn properties_of(
    alloc: Global,
    tables: &Tables,
    text: &[char],
) -> Result<Vec<Properties>, AllocError>
    ensures { IfOk result (λ properties. properties.items ≡ map (properties_of tables.now) text.now) }
{
    // All items are overwritten below, so their values do not matter.
    let mut properties = vec![in alloc; tables.properties('\0'); text.len()]?;
    tables.look_up(text, &mut properties);
    Ok(properties)
}

/// Returns the level, from 0 to 126, of each character of one paragraph before L1 (UAX #9, X1 to I2). The
/// text need not be a single paragraph: any list of characters is allowed.
pub fn resolve(
    alloc: Global,
    tables: &Tables,
    text: &[char],
    base: Base,
) -> Result<Vec<u8>, AllocError>
    ensures levels { IfOk result (λ levels. levels.items ≡ levels_of tables.now text.now base) }
    ensures len { IfOk result (λ levels. length levels.items ≡ length text.now) }
    ensures memory { OnErr result (0 < length text.now) }
{
    let mut levels = Vec::new(alloc);
    if text.is_empty() {
        return Ok(levels);
    }
    let properties = properties_of(alloc, tables, text)?;
    Resolver::new(alloc).resolve(tables, text, &properties, base, &mut levels)?;
    Ok(levels)
}

/// Returns the level, from 0 to 126, of each character of one paragraph before L1 (UAX #9, X1 to I2), given
/// the classes and bracket types of its characters. For the same `base`, any text and tables with these
/// classes and bracket types have these levels. `classes` may be any list: it need not come from a paragraph.
pub fn resolve_by(
    alloc: Global,
    classes: &[BidiClass],
    brackets: &[BracketType],
    base: Base,
) -> Result<Vec<u8>, AllocError>
    requires { length brackets.now ≡ length classes.now }
    ensures levels { IfOk result (λ levels. (look : ℕ → Option Bracket) (text : List ℕ)
        → brackets.now ≡ bracket_types look text
        → levels.items ≡ paragraph_levels look text classes.now (base_level_of classes.now base)) }
    ensures len { IfOk result (λ levels. length levels.items ≡ length classes.now) }
    ensures memory { OnErr result (0 < length classes.now) }
{
    let mut levels = Vec::new(alloc);
    Resolver::new(alloc).resolve_by(classes, brackets, base, &mut levels)?;
    Ok(levels)
}
