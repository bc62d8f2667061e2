//! Finds the joining types of characters, and joins characters in the C caller's arrays.
ghost use Rattle.std.specs.Prelude.{◌≡◌, ◌<◌, ◌≤◌, ◌&&◌, ◌==◌, List, length, map, slice_index};
ghost use Rattle.std.specs.Prelude.{if◌then◌else◌};
ghost use Rattle.joining.specs.Joiners.{joiner_at};
ghost use Rattle.joining.specs.declared.joiner.Joiner.{Joiner};
ghost use Rattle.ucd.specs.Classes.{is_removed};
ghost use Rattle.ucd_bidi.specs.JoiningType.{joining_type};
ghost use Rattle.hordguli_fribidi.specs.Joining.{has_forms, is_scalar, is_skipped, joined, joined_if};
ghost use Rattle.hordguli_fribidi.specs.Joining.{joined_of};
ghost use Rattle.hordguli_fribidi.specs.Joining.{joiners, joining_at, joining_types_if};
ghost use Rattle.hordguli_fribidi.specs.Joining.{kept_if, level_of, property_of};
ghost use Rattle.hordguli_fribidi.specs.Joining.{side_after, side_before, sides_from, sides_past, type_of};
ghost use Rattle.hordguli_fribidi.specs.Joining.{without};
ghost use Rattle.hordguli_fribidi.specs.Types.{class_of};

use crate::characters::hordguli_fribidi_core_type;
use crate::types::class_of;
use joining::{Agreement, Joiner, Joiners, JoiningType, next_joined};
use ucd::BidiClass;

// Returns FriBidi's number of a joining type.
fn property_of(joining: JoiningType) -> u8
    ensures { result ≡ property_of joining }
{
    match joining {
        JoiningType::NonJoining => 0,
        JoiningType::RightJoining => 5,
        JoiningType::DualJoining => 7,
        JoiningType::JoinCausing => 3,
        JoiningType::LeftJoining => 6,
        JoiningType::Transparent => 12,
    }
}

// Returns the number of the joining type of a code point, which is 0 if it is not a character.
fn property_at(c: u32) -> u8
    ensures { result ≡ (if is_scalar c then property_of (joining_type c) else 0) }
{
    match char::from_u32(c) {
        Some(c) => property_of(JoiningType::for_char(c)),
        None => 0,
    }
}

/// Returns the joining type of a code point.
#[unsafe(no_mangle)]
#[tactic(auto, unfolding(crate::specs::Joining::joining_at))]
pub extern "C" fn hordguli_fribidi_core_joining_type(
    c: u32,
    index: &[u8; 4352],
    pages: &[u32; 65_536],
) -> u8
    ensures { result ≡ joining_at index.now pages.now c }
{
    if c < 160 && hordguli_fribidi_core_type(c, index, pages) == 1_050_656 {
        16
    } else {
        property_at(c)
    }
}

/// Writes the joining type of each code point of a string to an array, or changes nothing if the lengths
/// differ.
#[unsafe(no_mangle)]
pub extern "C" fn hordguli_fribidi_core_joining_types(
    index: &[u8; 4352],
    pages: &[u32; 65_536],
    characters: &[u32],
    joining: &mut [u8],
)
    ensures { joining.new ≡ joining_types_if index.now pages.now characters.now joining.old }
{
    if joining.len() == characters.len() {
        put_joining_types(index, pages, characters, joining);
    }
}

fn put_joining_types(
    index: &[u8; 4352],
    pages: &[u32; 65_536],
    characters: &[u32],
    joining: &mut [u8],
)
    requires { length joining.old ≡ length characters.now }
    ensures { joining.new ≡ map (joining_at index.now pages.now) characters.now }
{
    for at in 0..characters.len() {
        joining[at] = hordguli_fribidi_core_joining_type(characters[at], index, pages);
    }
}

// Returns whether joining skips a character: whether it is transparent or ignored.
fn is_skipped(property: u8) -> bool
    ensures { result ≡ is_skipped property }
{
    property & 24 != 0
}

fn type_of(property: u8) -> JoiningType
    ensures { result ≡ type_of property }
{
    if is_skipped(property) {
        return JoiningType::Transparent;
    }
    match property & 3 {
        0 => JoiningType::NonJoining,
        1 => JoiningType::RightJoining,
        2 => JoiningType::LeftJoining,
        _ => JoiningType::DualJoining,
    }
}

// Returns whether X9 removes the characters of a type.
fn is_removed(number: u32) -> bool
    ensures { result ≡ is_removed (class_of number) }
{
    matches!(
        class_of(number),
        BidiClass::RLE
            | BidiClass::LRE
            | BidiClass::RLO
            | BidiClass::LRO
            | BidiClass::PDF
            | BidiClass::BN
    )
}

// Returns the level that counts for joining, if any.
fn level_of(number: u32, level: u8, property: u8) -> Option<u8>
    ensures { result ≡ level_of number level property }
{
    if is_removed(number) || property & 24 == 16 || level == 255 {
        None
    } else {
        Some(level)
    }
}

// The characters of a paragraph, by their types, levels and properties.
#[derive(Clone, Copy)]
struct Paragraph<'a> {
    types: &'a [u32],
    levels: &'a [u8],
    properties: &'a [u8],
}

impl Joiners for Paragraph<'_> {
    ghost all = { λ s. joiners s.types.now s.levels.now s.properties.now };

    #[tactic(auto, using(crate::proofs::JoinerLemmas::joiners_len))]
    fn len(&self) -> usize {
        self.types
            .len()
            .min(self.levels.len())
            .min(self.properties.len())
    }

    #[tactic(auto, using(crate::proofs::JoinerLemmas::joiners_len, crate::proofs::JoinerLemmas::joiner_is))]
    fn joiner_at(&self, k: usize) -> Joiner {
        let property = self.properties[k];
        Joiner {
            joining: type_of(property),
            level: level_of(self.types[k], self.levels[k], property),
        }
    }
}

// Returns the mask of the side on which the character after another is.
fn side_after(c: Joiner) -> u8
    ensures { result ≡ side_after c.level }
{
    if c.is_rtl() { 2 } else { 1 }
}

// Returns the mask of the side on which the character before another is.
fn side_before(c: Joiner) -> u8
    ensures { result ≡ side_before c.level }
{
    if c.is_rtl() { 1 } else { 2 }
}

// Returns the sides at which the join of the first character with one after it is, or 0 if it joins none.
#[tactic(auto, unfolding(crate::specs::Joining::sides_from))]
fn sides_from(text: &Paragraph) -> u8
    requires { 0 < length (joiners text.now.types.now text.now.levels.now text.now.properties.now) }
    ensures { result ≡ sides_from (joiners text.now.types.now text.now.levels.now
        text.now.properties.now) }
{
    match next_joined(text, Agreement::WithFirst, 0) {
        Some(at) => side_after(text.joiner_at(0)) | side_before(text.joiner_at(at)),
        None => 0,
    }
}

fn without(side: u8, property: u8) -> u8
    ensures { result ≡ without side property }
{
    if side == 1 {
        property & 254
    } else {
        property & 253
    }
}

fn kept_if(joined: bool, side: u8, property: u8) -> u8
    ensures { result ≡ kept_if joined side property }
{
    if joined {
        property
    } else {
        without(side, property)
    }
}

// Returns a property after joining.
fn joined(c: Joiner, before: u8, after: u8, property: u8) -> u8
    ensures { result ≡ joined c before after property }
{
    if c.is_transparent() {
        return property | before;
    }
    if property & 4 == 0 {
        return property;
    }
    let kept = kept_if(after != 0, side_after(c), property);
    kept_if(before != 0, side_before(c), kept)
}

// Returns the property of the first character after joining, and the sides of the join over the boundary
// after it, given those over the boundary before it.
#[tactic(auto, using(crate::proofs::JoinerLemmas::joiners_len))]
fn join_first(text: &Paragraph, before: u8) -> (u8, u8)
    requires { 0 < length (joiners text.now.types.now text.now.levels.now text.now.properties.now) }
    ensures property { let all = joiners text.now.types.now text.now.levels.now text.now.properties.now in
        result.0 ≡ joined (joiner_at all 0) before (sides_past all before)
        (slice_index text.now.properties.now 0) }
    ensures after { result.1 ≡ sides_past (joiners text.now.types.now text.now.levels.now
        text.now.properties.now) before }
{
    let first = text.joiner_at(0);
    let after = if first.is_transparent() {
        before
    } else {
        sides_from(text)
    };
    (joined(first, before, after, text.properties[0]), after)
}

fn put_joins(types: &[u32], levels: &[u8], properties: &mut [u8])
    requires types { length types.now ≡ length properties.old }
    requires levels { length levels.now ≡ length properties.old }
    ensures { properties.new ≡ joined_of types.now levels.now properties.old }
{
    let mut before = 0;
    for k in 0..properties.len() {
        let text = Paragraph {
            types: &types[k..],
            levels: &levels[k..],
            properties: &properties[k..],
        };
        let (property, after) = join_first(&text, before);
        properties[k] = property;
        before = after;
    }
}

/// Joins the characters of a paragraph, given the joining type of each, which becomes its property. Changes
/// nothing if lengths differ.
#[unsafe(no_mangle)]
pub extern "C" fn hordguli_fribidi_core_join(types: &[u32], levels: &[u8], properties: &mut [u8])
    ensures { properties.new ≡ joined_if types.now levels.now properties.old }
{
    if types.len() == properties.len() && levels.len() == properties.len() {
        put_joins(types, levels, properties);
    }
}
