//! The bases of a paragraph: its characters, each with the combining marks and ZWJs that join it (UAX #14,
//! LB1, LB9 and LB10).
ghost use Rattle.std.specs.Prelude.{◌≡◌, ◌<◌, ◌≤◌, ◌∷◌, length, map, drop, IfOk};
ghost use Rattle.breaks.specs.Bases.{bases_of, character, class_of, known, known_detail, resolved};
ghost use Rattle.breaks.specs.Bases.{end_of, is_east_asian, stays_with};
ghost use Rattle.breaks.specs.Classes.{is_same};
ghost use Rattle.breaks.specs.Rules.{is_dotted_circle};
ghost use Rattle.ucd.specs.declared.line_class.LineClass.TheVariants.{ZWJ};
ghost use Rattle.breaks.specs.Classes.{is_one_of};
ghost use Rattle.breaks.specs.Seen.{attached_len, base_in, character_in};

use std::alloc::{AllocError, Global};
use ucd::{LineClass, LineDetail, Properties, Tables, Version};

/// What the rules need to know about a character, including its class after LB1.
#[derive(Clone, Copy, PartialEq)]
pub struct Character {
    pub class: LineClass,
    pub detail: LineDetail,
    pub is_wide: bool,
    pub is_future_pictograph: bool,
}

/// A base: a character, and the combining marks and ZWJs that join it.
#[derive(Clone, Copy)]
pub struct BaseCharacter<'a> {
    pub first: Character,
    pub attached: &'a [Character],
}

/// Returns whether a class is in a list.
pub fn is_one_of(classes: &[LineClass], class: LineClass) -> bool
    ensures { result ≡ is_one_of classes.now class }
{
    classes.contains(&class)
}

// Returns the class that LB1 assigns to a character, given the character's class in the tables.
fn resolved(class: LineClass, is_mark: bool) -> LineClass
    ensures { result ≡ resolved class is_mark }
{
    match class {
        LineClass::AI => LineClass::AL,
        LineClass::SG => LineClass::AL,
        LineClass::XX => LineClass::AL,
        LineClass::SA => {
            if is_mark {
                LineClass::CM
            } else {
                LineClass::AL
            }
        }
        LineClass::CJ => LineClass::NS,
        class => class,
    }
}

// Returns the class itself if it exists in the version, or else XX.
fn known(version: Version, class: LineClass) -> LineClass
    ensures { result ≡ known version class }
{
    match version {
        Version::V17_0 => class,
        Version::V15_0 => match class {
            LineClass::AK => LineClass::XX,
            LineClass::AP => LineClass::XX,
            LineClass::AS => LineClass::XX,
            LineClass::HH => LineClass::XX,
            LineClass::VF => LineClass::XX,
            LineClass::VI => LineClass::XX,
            class => class,
        },
    }
}

fn known_detail(version: Version, detail: LineDetail) -> LineDetail
    ensures { result ≡ known_detail version detail }
{
    match version {
        Version::V17_0 => detail,
        Version::V15_0 => LineDetail::Plain,
    }
}

/// Looks up what the rules need to know about a character.
pub fn look_up(tables: &Tables, c: char) -> Character
    ensures { character_in result ≡ character tables.now c }
{
    let version = tables.version();
    let properties = tables.properties(c);
    Character {
        class: resolved(
            known(version, properties.line_class()),
            properties.is_mark(),
        ),
        detail: known_detail(version, properties.line_detail()),
        is_wide: properties.is_wide(),
        is_future_pictograph: properties.is_future_pictograph(),
    }
}

/// Looks up what the rules need to know about the characters of a paragraph.
pub fn characters(
    alloc: Global,
    tables: &Tables,
    text: &[char],
) -> Result<Vec<Character>, AllocError>
    ensures { IfOk result (λ list. map character_in list.items ≡ map (character tables.now) text.now) }
{
    let mut list = Vec::with_capacity(alloc, text.len())?;
    for k in 0..text.len() {
        list.push(look_up(tables, text[k]))?;
    }
    Ok(list)
}

// LB9: returns whether a character joins the one before it.
fn stays_with(before: Character, c: Character) -> bool
    ensures { result ≡ stays_with (character_in before) (character_in c) }
{
    is_one_of(&[LineClass::CM, LineClass::ZWJ], c.class)
        && !is_one_of(
            &[
                LineClass::BK,
                LineClass::CR,
                LineClass::LF,
                LineClass::NL,
                LineClass::SP,
                LineClass::ZW,
            ],
            before.class,
        )
}

// Returns how many characters at the start of `rest` belong to the base of `first`, the character before
// `rest`.
fn attached_len(first: Character, rest: &[Character]) -> usize
    ensures len { result ≡ attached_len (character_in first) (map character_in rest.now) }
    ensures within { result ≤ length rest.now }
{
    let mut before = first;
    for k in 0..rest.len() {
        if !stays_with(before, rest[k]) {
            return k;
        }
        before = rest[k];
    }
    rest.len()
}

/// Returns the bases of a paragraph.
pub fn bases(alloc: Global, characters: &[Character]) -> Result<Vec<BaseCharacter<'_>>, AllocError>
    ensures { IfOk result (λ list. map base_in list.items ≡ bases_of (map character_in characters.now)) }
{
    let mut list = Vec::new(alloc);
    let mut left = characters;
    while let Some((first, rest)) = left.split_first() {
        let (attached, others) = rest.split_at(attached_len(*first, rest));
        list.push(BaseCharacter {
            first: *first,
            attached,
        })?;
        left = others;
    }
    Ok(list)
}

impl BaseCharacter<'_> {
    /// Returns the class of the base: that of its first character, or AL for a CM or ZWJ (LB10).
    pub fn class(&self) -> LineClass
        ensures { result ≡ class_of (base_in self.now) }
    {
        match self.first.class {
            LineClass::CM => LineClass::AL,
            LineClass::ZWJ => LineClass::AL,
            class => class,
        }
    }
    /// Returns whether the base has East Asian width F, W or H. A CM or ZWJ that LB10 treats as AL does not
    /// count as wide.
    pub fn is_east_asian(&self) -> bool
        ensures { result ≡ is_east_asian (base_in self.now) }
    {
        self.first.is_wide && !is_one_of(&[LineClass::CM, LineClass::ZWJ], self.first.class)
    }

    /// LB28a: returns whether the base is U+25CC with class AL.
    pub fn is_dotted_circle(&self) -> bool
        ensures { result ≡ is_dotted_circle (base_in self.now) }
    {
        self.first.class == LineClass::AL && self.first.detail == LineDetail::DottedCircle
    }

    /// LB8a: returns whether the last character of the base is a ZWJ.
    pub fn ends_in_zwj(&self) -> bool
        ensures { result ≡ is_same (end_of (base_in self.now)).class ZWJ }
    {
        match self.attached.last() {
            Some(last) => last.class == LineClass::ZWJ,
            None => self.first.class == LineClass::ZWJ,
        }
    }
}
