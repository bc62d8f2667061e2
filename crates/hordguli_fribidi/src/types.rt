//! FriBidi's numbers for classes, directions and brackets.
ghost use Rattle.std.specs.Prelude.{◌≡◌, map};
ghost use Rattle.bidi.specs.BracketTypes.{type_by};
ghost use Rattle.hordguli_fribidi.specs.Types.{base_of, bracket_by, class_of, direction_of, name_index};

use bidi::{Base, BracketType};
use ucd::{BidiClass, Classes};

/// Returns the class that a FriBidi number denotes, or ON if no class has this number.
#[tactic(auto, unfolding(crate::specs::Types::class_of))]
#[inline(always)]
pub fn class_of(number: u32) -> BidiClass
    ensures { result ≡ class_of number }
{
    match number {
        272 => BidiClass::L,
        273 => BidiClass::R,
        275 => BidiClass::AL,
        544 => BidiClass::EN,
        66_592 => BidiClass::ES,
        132_128 => BidiClass::ET,
        546 => BidiClass::AN,
        263_200 => BidiClass::CS,
        524_320 => BidiClass::NSM,
        1_050_656 => BidiClass::BN,
        2_107_456 => BidiClass::B,
        4_204_608 => BidiClass::S,
        8_390_720 => BidiClass::WS,
        4_112 => BidiClass::LRE,
        20_496 => BidiClass::LRO,
        4_113 => BidiClass::RLE,
        20_497 => BidiClass::RLO,
        4_128 => BidiClass::PDF,
        32_832 => BidiClass::LRI,
        32_833 => BidiClass::RLI,
        33_587_264 => BidiClass::FSI,
        32_864 => BidiClass::PDI,
        _ => BidiClass::ON,
    }
}

/// A list of classes, each represented by its FriBidi number.
#[derive(Clone, Copy)]
pub struct TypeClasses<'a> {
    pub types: &'a [u32],
}

impl Classes for TypeClasses<'_> {
    ghost all = { λ s. map class_of s.types.now };

    fn len(&self) -> usize {
        self.types.len()
    }

    fn class_at(&self, k: usize) -> BidiClass {
        class_of(self.types[k])
    }
}

/// Returns the index of a FriBidi type among the types that have names, or 26 if it has no name.
#[unsafe(no_mangle)]
#[tactic(auto, unfolding(crate::specs::Types::name_index))]
pub extern "C" fn hordguli_fribidi_core_name(number: u32) -> u32
    ensures { result ≡ name_index number }
{
    match number {
        272 => 0,
        273 => 1,
        275 => 2,
        544 => 3,
        66_592 => 4,
        132_128 => 5,
        546 => 6,
        263_200 => 7,
        524_320 => 8,
        1_050_656 => 9,
        2_107_456 => 10,
        4_204_608 => 11,
        8_390_720 => 12,
        64 => 13,
        4_112 => 14,
        20_496 => 15,
        4_113 => 16,
        20_497 => 17,
        4_128 => 18,
        32_832 => 19,
        32_833 => 20,
        33_587_264 => 21,
        32_864 => 22,
        32 => 23,
        33 => 24,
        128 => 25,
        _ => 26,
    }
}

/// Returns the base direction that a FriBidi number denotes.
pub fn base_of(number: u32) -> Base
    ensures { result ≡ base_of number }
{
    if number == 272 {
        Base::Ltr
    } else if number == 273 {
        Base::Rtl
    } else if number == 33 {
        Base::WeakRtl
    } else {
        Base::WeakLtr
    }
}

/// Returns the FriBidi number for the direction of a base level.
pub fn direction_of(level: u8) -> u32
    ensures { result ≡ direction_of level }
{
    if level == 0 { 272 } else { 273 }
}

/// Returns the bracket type that a FriBidi number denotes.
pub fn bracket_of(number: u32) -> BracketType
    ensures { result ≡ type_by (bracket_by number) number }
{
    if number == 0 {
        BracketType::Other
    } else if number >= 2_147_483_648 {
        BracketType::Opening(number - 2_147_483_648)
    } else {
        BracketType::Closing(number)
    }
}
