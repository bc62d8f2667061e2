//! The types of one isolating run sequence after each weak rule (UAX #9, W1 to W7), for callers that show how
//! the algorithm arrives at a level. The fast pass for all rules is in `weak`.
ghost use Rattle.std.specs.Prelude.{◌≡◌, ◌∷◌, ◌&&◌, ◌||◌, [], not, if◌then◌else◌, IfOk};
ghost use Rattle.ucd.specs.declared.bidi_class.BidiClass.TheVariants.{EN, ET, L, ON};
ghost use Rattle.bidi.specs.Neighbours.{nearest};
ghost use Rattle.bidi.specs.Waiting.{digit_type};
ghost use Rattle.bidi.specs.Weak.{is_arabic, is_left, is_number, is_terminator, w1, w2, w3};
ghost use Rattle.bidi.specs.Weak.{w4, w4_at, w5, w6};
ghost use Rattle.bidi.specs.Weak.{w6_type, w7};

use crate::weak::{is_left, is_strong, mark_type, w3_type};
use std::alloc::{AllocError, Global};
use ucd::BidiClass;

fn is_arabic(class: BidiClass) -> bool
    ensures { result ≡ is_arabic class }
{
    matches!(class, BidiClass::AL)
}

fn is_number(class: BidiClass) -> bool
    ensures { result ≡ is_number class }
{
    matches!(class, BidiClass::EN)
}

fn is_terminator(class: BidiClass) -> bool
    ensures { result ≡ is_terminator class }
{
    matches!(class, BidiClass::ET)
}

// Applies W2 to a type, given the nearest strong type before it.
fn digit_type(strong: BidiClass, class: BidiClass) -> BidiClass
    ensures { result ≡ digit_type strong class }
{
    if is_number(class) && is_arabic(strong) {
        BidiClass::AN
    } else {
        class
    }
}

// Applies W4 to a type, given the type before it and the types after it.
fn separator_type(before: BidiClass, class: BidiClass, after: &[BidiClass]) -> BidiClass
    ensures { result ≡ w4_at (before ∷ []) class after.now }
{
    let [next, ..] = after else { return class };
    match (before, class, *next) {
        (BidiClass::EN, BidiClass::ES, BidiClass::EN) => BidiClass::EN,
        (BidiClass::EN, BidiClass::CS, BidiClass::EN) => BidiClass::EN,
        (BidiClass::AN, BidiClass::CS, BidiClass::AN) => BidiClass::AN,
        _ => class,
    }
}

// Returns the first type that is not ET, or ON if there is none.
fn nearest_other(types: &[BidiClass]) -> BidiClass
    ensures { result ≡ nearest (λ type. not (is_terminator type)) ON types.now }
{
    for k in 0..types.len() {
        if !is_terminator(types[k]) {
            return types[k];
        }
    }
    BidiClass::ON
}

// Applies W5 to a type, given the nearest types before and after it that are not ET.
fn terminator_type(before: BidiClass, class: BidiClass, next: BidiClass) -> BidiClass
    ensures { result ≡ (if is_terminator class then (if is_number before || is_number next then EN
        else ET) else class) }
{
    if is_terminator(class) && (is_number(before) || is_number(next)) {
        BidiClass::EN
    } else {
        class
    }
}

fn w6_type(class: BidiClass) -> BidiClass
    ensures { result ≡ w6_type class }
{
    match class {
        BidiClass::ES => BidiClass::ON,
        BidiClass::ET => BidiClass::ON,
        BidiClass::CS => BidiClass::ON,
        class => class,
    }
}

// Applies W7 to a type, given the nearest strong type before it.
fn left_type(strong: BidiClass, class: BidiClass) -> BidiClass
    ensures { result ≡ (if is_number class && is_left strong then L else class) }
{
    if is_number(class) && is_left(strong) {
        BidiClass::L
    } else {
        class
    }
}

/// Applies W1 to the explicit types.
pub fn w1(alloc: Global, sos: BidiClass, types: &[BidiClass]) -> Result<Vec<BidiClass>, AllocError>
    ensures { IfOk result (λ list. list.items ≡ w1 sos types.now) }
{
    let mut list = Vec::with_capacity(alloc, types.len())?;
    let mut before = sos;
    for k in 0..types.len() {
        list.push(mark_type(&mut before, types[k]))?;
    }
    Ok(list)
}

/// Applies W2 to the types after W1.
pub fn w2(alloc: Global, sos: BidiClass, types: &[BidiClass]) -> Result<Vec<BidiClass>, AllocError>
    ensures { IfOk result (λ list. list.items ≡ w2 sos types.now) }
{
    let mut list = Vec::with_capacity(alloc, types.len())?;
    let mut strong = sos;
    for k in 0..types.len() {
        let class = types[k];
        list.push(digit_type(strong, class))?;
        if is_strong(class) {
            strong = class;
        }
    }
    Ok(list)
}

/// Applies W3 to the types after W2.
pub fn w3(alloc: Global, types: &[BidiClass]) -> Result<Vec<BidiClass>, AllocError>
    ensures { IfOk result (λ list. list.items ≡ w3 types.now) }
{
    let mut list = Vec::with_capacity(alloc, types.len())?;
    for k in 0..types.len() {
        list.push(w3_type(types[k]))?;
    }
    Ok(list)
}

/// Applies W4 to the types after W3.
pub fn w4(alloc: Global, types: &[BidiClass]) -> Result<Vec<BidiClass>, AllocError>
    ensures { IfOk result (λ list. list.items ≡ w4 types.now) }
{
    let mut list = Vec::with_capacity(alloc, types.len())?;
    let mut before = BidiClass::ON;
    for k in 0..types.len() {
        let class = types[k];
        list.push(separator_type(before, class, &types[k + 1..]))?;
        before = class;
    }
    Ok(list)
}

/// Applies W5 to the types after W4.
pub fn w5(alloc: Global, types: &[BidiClass]) -> Result<Vec<BidiClass>, AllocError>
    ensures { IfOk result (λ list. list.items ≡ w5 types.now) }
{
    let mut list = Vec::with_capacity(alloc, types.len())?;
    let mut before = BidiClass::ON;
    let mut next = nearest_other(types);
    for k in 0..types.len() {
        let class = types[k];
        list.push(terminator_type(before, class, next))?;
        if !is_terminator(class) {
            before = class;
            next = nearest_other(&types[k + 1..]);
        }
    }
    Ok(list)
}

/// Applies W6 to the types after W5.
pub fn w6(alloc: Global, types: &[BidiClass]) -> Result<Vec<BidiClass>, AllocError>
    ensures { IfOk result (λ list. list.items ≡ w6 types.now) }
{
    let mut list = Vec::with_capacity(alloc, types.len())?;
    for k in 0..types.len() {
        list.push(w6_type(types[k]))?;
    }
    Ok(list)
}

/// Applies W7 to the types after W6.
pub fn w7(alloc: Global, sos: BidiClass, types: &[BidiClass]) -> Result<Vec<BidiClass>, AllocError>
    ensures { IfOk result (λ list. list.items ≡ w7 sos types.now) }
{
    let mut list = Vec::with_capacity(alloc, types.len())?;
    let mut strong = sos;
    for k in 0..types.len() {
        let class = types[k];
        list.push(left_type(strong, class))?;
        if is_strong(class) {
            strong = class;
        }
    }
    Ok(list)
}
