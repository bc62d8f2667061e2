//! Finds the levels and the direction of a paragraph, given the numbers of its types and brackets.
ghost use Rattle.std.specs.Prelude.{◌≡◌, ◌≢◌, ◌+◌, ◌-◌, ◌<◌, suc, if◌then◌else◌, length, map, replicate};
ghost use Rattle.std.specs.Prelude.{IfOk, OnErr, OnOk};
ghost use Rattle.bidi.specs.BracketTypes.{bracket_types};
ghost use Rattle.bidi.specs.declared.bracket_type.BracketType.TheVariants.{Other};
ghost use Rattle.reorder.specs.Order.{highest};
ghost use Rattle.reorder.specs.Spaces.{line_levels};
ghost use Rattle.hordguli_fribidi.specs.Levels.{base_in, brackets_of, direction_in, levels_before, AreLevels};
ghost use Rattle.hordguli_fribidi.specs.Types.{bracket_by, class_of};

use crate::types::{TypeClasses, base_of, bracket_of, class_of, direction_of};
use bidi::{BracketType, Resolver, first_strong_level};
use reorder::{highest_and_lowest_odd, reset_levels};
use std::alloc::{AllocError, Global};
use ucd::BidiClass;

fn classes_of(alloc: Global, types: &[u32]) -> Result<Vec<BidiClass>, AllocError>
    ensures classes { IfOk result (λ classes. classes.items ≡ map class_of types.now) }
    ensures memory { OnErr result (0 < length types.now) }
{
    if types.is_empty() {
        return Ok(Vec::new(alloc));
    }
    types.iter().map(|number| class_of(*number)).collect(alloc)
}

fn brackets_by(alloc: Global, numbers: &[u32]) -> Result<Vec<BracketType>, AllocError>
    ensures brackets { IfOk result (λ brackets. brackets.items ≡ bracket_types bracket_by numbers.now) }
    ensures memory { OnErr result (0 < length numbers.now) }
{
    if numbers.is_empty() {
        return Ok(Vec::new(alloc));
    }
    numbers
        .iter()
        .map(|number| bracket_of(*number))
        .collect(alloc)
}

fn no_brackets(alloc: Global, len: usize) -> Result<Vec<BracketType>, AllocError>
    ensures brackets { IfOk result (λ brackets. brackets.items ≡ replicate len Other) }
    ensures memory { OnErr result (0 < len) }
{
    let mut brackets = Vec::new(alloc);
    brackets.resize(len, BracketType::Other)?;
    Ok(brackets)
}

// Returns the bracket types of a paragraph of `len` characters. If `numbers` has another length, no character
// is a bracket.
#[tactic(auto, using(crate::proofs::BracketLemmas::none_are))]
fn brackets_of(alloc: Global, len: usize, numbers: &[u32]) -> Result<Vec<BracketType>, AllocError>
    ensures brackets { IfOk result (λ brackets. brackets.items
        ≡ bracket_types bracket_by (brackets_of len numbers.now)) }
    ensures len { IfOk result (λ brackets. length brackets.items ≡ len) }
    ensures memory { OnErr result (0 < len) }
{
    if numbers.len() == len {
        brackets_by(alloc, numbers)
    } else {
        no_brackets(alloc, len)
    }
}

// Returns the base level of a paragraph, and replaces the contents of `levels` with the paragraph's levels
// before L1.
fn find_levels(
    alloc: Global,
    types: &[u32],
    brackets: &[u32],
    asked: u32,
    levels: &mut Vec<u8>,
) -> Result<u8, AllocError>
    ensures base { IfOk result (λ base. base ≡ base_in types.now asked) }
    ensures levels { OnOk result (levels.new.items ≡ levels_before types.now brackets.now asked) }
    ensures len { OnOk result (length levels.new.items ≡ length types.now) }
    ensures memory { OnErr result (0 < length types.now) }
{
    let classes = classes_of(alloc, types)?;
    let brackets = brackets_of(alloc, types.len(), brackets)?;
    let base = base_of(asked);
    let level = Resolver::new(alloc).resolve_by(&classes, &brackets, base, levels)?;
    Ok(level)
}

// Returns one more than the highest level.
fn answer(levels: &[u8]) -> u32
    ensures { result ≡ suc (highest levels.now) }
{
    let (highest, _lowest_odd) = highest_and_lowest_odd(levels);
    u32::from(highest) + 1
}

// Writes the levels after L1 to an array, given those before L1, with the paragraph as one line.
fn put_levels(types: &[u32], base: u8, found: &[u8], levels: &mut [u8])
    requires types { length types.now ≡ length levels.old }
    requires found { length found.now ≡ length levels.old }
    ensures { levels.new ≡ line_levels base (map class_of types.now) found.now }
{
    levels.copy_from_slice(found);
    reset_levels(&TypeClasses { types }, base, levels);
}

/// Writes the levels of a paragraph after L1, and its direction. Returns one more than its highest level
/// before L1.
///
/// Returns 0 and changes nothing if `levels` and `types` differ in length or an allocation fails. Allocates
/// nothing for an empty paragraph.
#[unsafe(no_mangle)]
pub extern "C" fn hordguli_fribidi_core_levels(
    alloc: Global,
    types: &[u32],
    brackets: &[u32],
    direction: &mut u32,
    levels: &mut [u8],
) -> u32
    ensures none { result ≡ 0 → (direction.new ≡ direction.old) × (levels.new ≡ levels.old) }
    ensures differ { length levels.old ≢ length types.now → result ≡ 0 }
    ensures memory { length levels.old ≡ length types.now → result ≡ 0 → 0 < length types.now }
    ensures some { result ≢ 0
        → AreLevels types.now brackets.now direction.old result direction.new levels.new }
{
    if levels.len() != types.len() {
        return 0;
    }
    let mut found = Vec::new(alloc);
    match find_levels(alloc, types, brackets, *direction, &mut found) {
        Ok(base) => {
            put_levels(types, base, &found, levels);
            *direction = direction_of(base);
            answer(&found)
        }
        Err(_) => 0,
    }
}

/// Returns the direction of the first strong character outside all isolates, or ON if there is none.
#[unsafe(no_mangle)]
pub extern "C" fn hordguli_fribidi_core_direction(types: &[u32]) -> u32
    ensures { result ≡ direction_in types.now }
{
    match first_strong_level(&TypeClasses { types }) {
        Some(level) => direction_of(level),
        None => 64,
    }
}
