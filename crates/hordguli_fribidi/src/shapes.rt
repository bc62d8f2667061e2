//! Replaces code points in the C caller's arrays: by presentation forms, ligatures and mirrors.
ghost use Rattle.std.specs.Prelude.{◌≡◌, ◌<◌, ◌+◌, ◌%◌, ◌==◌, length, position, slice_index, IfSome};
ghost use Rattle.std.specs.Prelude.{if◌then◌else◌};
ghost use Rattle.hordguli_fribidi.specs.Points.{number_at};
ghost use Rattle.hordguli_fribidi.specs.Shapes.{place_of_form};
ghost use Rattle.hordguli_fribidi.specs.Shapes.{are_even, form_of, formed_if, ligated, ligated_of};
ghost use Rattle.hordguli_fribidi.specs.Shapes.{ligature_at, ligature_of, marked, marked_of};
ghost use Rattle.hordguli_fribidi.specs.Shapes.{console_marked_of, console_of, listed, made_of};
ghost use Rattle.hordguli_fribidi.specs.Shapes.{mirror_of, mirrored_if, next_of};

use crate::characters::hordguli_fribidi_core_number;
use joining::{Form, lam_alef};

// Returns the place of a form among the four of a code point.
fn place_of_form(form: Form) -> usize
    ensures place { result ≡ place_of_form form }
    ensures within { result < 4 }
{
    match form {
        Form::Isolated => 0,
        Form::Final => 1,
        Form::Initial => 2,
        Form::Medial => 3,
    }
}

// Returns the form of a code point, given its property.
fn form_of(forms: &[u16; 1024], property: u8, c: u32) -> u32
    ensures { result ≡ form_of forms.now property c }
{
    if property & 4 != 0 && c >= 0x600 && c < 0x700 {
        let form = Form::by_sides(property & 1 != 0, property & 2 != 0);
        u32::from(forms[(c as usize - 0x600) * 4 + place_of_form(form)])
    } else {
        c
    }
}

fn put_forms(forms: &[u16; 1024], properties: &[u8], string: &mut [u32])
    requires { length properties.now ≡ length string.old }
    ensures { string.new ≡ formed_if forms.now properties.now string.old }
{
    for k in 0..string.len() {
        string[k] = form_of(forms, properties[k], string[k]);
    }
}

/// Replaces the code points that have forms by these, given the properties after joining. Changes nothing if
/// the lengths differ.
#[unsafe(no_mangle)]
pub extern "C" fn hordguli_fribidi_core_forms(
    forms: &[u16; 1024],
    properties: &[u8],
    string: &mut [u32],
)
    ensures { string.new ≡ formed_if forms.now properties.now string.old }
{
    if properties.len() == string.len() {
        put_forms(forms, properties, string);
    }
}

// Returns the ligature of two code points with the given levels, or 0 if there is none.
fn ligature_of(level: u8, other: u8, lam: u32, alef: u32) -> u32
    ensures { result ≡ ligature_of level other lam alef }
{
    if level % 2 == 1 && level == other {
        lam_alef(lam, alef).unwrap_or(0)
    } else {
        0
    }
}

// Returns the ligature of the code points at `k` and after it, or 0 if there is none.
#[tactic(auto, unfolding(crate::specs::Shapes::ligature_at))]
fn ligature_at(levels: &[u8], string: &[u32], k: usize) -> u32
    requires levels { length levels.now ≡ length string.now }
    requires within { k < length string.now }
    ensures { result ≡ ligature_at levels.now string.now k }
{
    if string.len() - k > 1 {
        ligature_of(levels[k], levels[k + 1], string[k], string[k + 1])
    } else {
        0
    }
}

// Returns what replaces a code point, given its ligatures with the code points before and after it.
fn ligated(before: u32, at: u32, c: u32) -> u32
    ensures { result ≡ ligated before at c }
{
    if at != 0 {
        0xFEFF
    } else if before != 0 {
        before
    } else {
        c
    }
}

fn marked(at: u32, property: u8) -> u8
    ensures { result ≡ marked at property }
{
    if at == 0 { property } else { property | 32 }
}

fn put_ligatures(levels: &[u8], properties: &mut [u8], string: &mut [u32])
    requires levels { length levels.now ≡ length string.old }
    requires properties { length properties.old ≡ length string.old }
    ensures properties { properties.new ≡ marked_of levels.now string.old properties.old }
    ensures string { string.new ≡ ligated_of levels.now string.old }
{
    let mut before = 0;
    for k in 0..string.len() {
        let at = ligature_at(levels, string, k);
        string[k] = ligated(before, at, string[k]);
        properties[k] = marked(at, properties[k]);
        before = at;
    }
}

/// Replaces the forms of a lam and an alef by U+FEFF and their ligature, if the two are adjacent at the same
/// odd level, and marks the property of the lam. Changes nothing if lengths differ.
#[unsafe(no_mangle)]
pub extern "C" fn hordguli_fribidi_core_ligatures(
    levels: &[u8],
    properties: &mut [u8],
    string: &mut [u32],
)
    ensures properties { properties.new ≡ (if are_even levels.now string.old properties.old
        then marked_of levels.now string.old properties.old else properties.old) }
    ensures string { string.new ≡ (if are_even levels.now string.old properties.old
        then ligated_of levels.now string.old else string.old) }
{
    if levels.len() == string.len() && properties.len() == string.len() {
        put_ligatures(levels, properties, string);
    }
}

// Returns the index of a pair in a list.
fn place_of(pairs: &[u32; 64], both: u32) -> Option<usize>
    ensures place { result ≡ position (λ pair. pair == both) pairs.now }
    ensures within { IfSome result (λ k. k < 64) }
{
    pairs.iter().position(|pair| *pair == both)
}

// Returns the ligature of two code points in a list, or 0 if it has none.
fn listed(pairs: &[u32; 64], ligatures: &[u32; 64], first: u32, second: u32) -> u32
    ensures { result ≡ listed pairs.now ligatures.now first second }
{
    if first < 65_536 && second < 65_536 {
        match place_of(pairs, first * 65_536 + second) {
            Some(k) => ligatures[k],
            None => 0,
        }
    } else {
        0
    }
}

// Returns the ligature of `first`, in place of the code point at `k`, with the one after it, or 0 if there is
// none.
#[tactic(auto, unfolding(crate::specs::Shapes::made_of))]
fn made_of(
    pairs: &[u32; 64],
    ligatures: &[u32; 64],
    levels: &[u8],
    string: &[u32],
    k: usize,
    first: u32,
) -> u32
    requires levels { length levels.now ≡ length string.now }
    requires within { k < length string.now }
    ensures { result ≡ made_of pairs.now ligatures.now levels.now string.now k first }
{
    if string.len() - k > 1 && levels[k] % 2 == 1 && levels[k] == levels[k + 1] {
        listed(pairs, ligatures, first, string[k + 1])
    } else {
        0
    }
}

// Returns the code point after the one at `k`, or 0 if there is none.
fn code_after(string: &[u32], k: usize) -> u32
    requires { k < length string.now }
    ensures { result ≡ slice_index string.now (k + 1) }
{
    if string.len() - k > 1 {
        string[k + 1]
    } else {
        0
    }
}

fn next_of(made: u32, c: u32) -> u32
    ensures { result ≡ next_of made c }
{
    if made == 0 { c } else { made }
}

fn shown(made: u32, first: u32) -> u32
    ensures { result ≡ (if made == 0 then first else 0xFEFF) }
{
    if made == 0 { first } else { 0xFEFF }
}

fn put_console(
    pairs: &[u32; 64],
    ligatures: &[u32; 64],
    levels: &[u8],
    properties: &mut [u8],
    string: &mut [u32],
)
    requires levels { length levels.now ≡ length string.old }
    requires properties { length properties.old ≡ length string.old }
    ensures properties { properties.new
        ≡ console_marked_of pairs.now ligatures.now levels.now string.old properties.old }
    ensures string { string.new ≡ console_of pairs.now ligatures.now levels.now string.old }
{
    let mut first = if string.is_empty() { 0 } else { string[0] };
    for k in 0..string.len() {
        let made = made_of(pairs, ligatures, levels, string, k, first);
        let next = next_of(made, code_after(string, k));
        string[k] = shown(made, first);
        properties[k] = marked(made, properties[k]);
        first = next;
    }
}

/// Replaces pairs of code points in a list by U+FEFF and their ligature, if the two are adjacent at the same
/// odd level, and marks the property of the first. Each ligature may form another with the code point after
/// it. Changes nothing if lengths differ.
#[unsafe(no_mangle)]
pub extern "C" fn hordguli_fribidi_core_console(
    pairs: &[u32; 64],
    ligatures: &[u32; 64],
    levels: &[u8],
    properties: &mut [u8],
    string: &mut [u32],
)
    ensures properties { properties.new ≡ (if are_even levels.now string.old properties.old
        then console_marked_of pairs.now ligatures.now levels.now string.old properties.old
        else properties.old) }
    ensures string { string.new ≡ (if are_even levels.now string.old properties.old
        then console_of pairs.now ligatures.now levels.now string.old else string.old) }
{
    if levels.len() == string.len() && properties.len() == string.len() {
        put_console(pairs, ligatures, levels, properties, string);
    }
}

// Returns the mirror of a code point, or the code point itself if it has none.
fn mirror_of(c: u32, index: &[u8; 4352], pages: &[u16; 4096], numbers: &[u32; 512]) -> u32
    ensures { result ≡ mirror_of index.now pages.now numbers.now c }
{
    let mirror = hordguli_fribidi_core_number(c, index, pages, numbers);
    if mirror == 0 { c } else { mirror }
}

// Returns the mirror of a code point at an odd level, and the code point itself at an even level.
fn mirrored(level: u8, c: u32, index: &[u8; 4352], pages: &[u16; 4096], numbers: &[u32; 512]) -> u32
    ensures { result ≡ (if level % 2 == 1 then mirror_of index.now pages.now numbers.now c else c) }
{
    if level % 2 == 1 {
        mirror_of(c, index, pages, numbers)
    } else {
        c
    }
}

fn put_mirrors(
    index: &[u8; 4352],
    pages: &[u16; 4096],
    numbers: &[u32; 512],
    levels: &[u8],
    string: &mut [u32],
)
    requires { length levels.now ≡ length string.old }
    ensures { string.new ≡ mirrored_if index.now pages.now numbers.now levels.now string.old }
{
    for k in 0..string.len() {
        string[k] = mirrored(levels[k], string[k], index, pages, numbers);
    }
}

/// Replaces the code points at odd levels by their mirrors (L4). Changes nothing if the lengths differ.
#[unsafe(no_mangle)]
pub extern "C" fn hordguli_fribidi_core_mirrors(
    index: &[u8; 4352],
    pages: &[u16; 4096],
    numbers: &[u32; 512],
    levels: &[u8],
    string: &mut [u32],
)
    ensures { string.new ≡ mirrored_if index.now pages.now numbers.now levels.now string.old }
{
    if levels.len() == string.len() {
        put_mirrors(index, pages, numbers, levels, string);
    }
}
