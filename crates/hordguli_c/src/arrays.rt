//! Reads and writes arrays of C callers.
ghost use Rattle.std.specs.Prelude.{◌≡◌, ◌<◌, ◌≤◌, All, length, map, true};
ghost use Rattle.std.specs.Prelude.{IfErr, IfOk, IsFalse, IsTrue, OnErr};
ghost use Rattle.std.specs.Char.{IsScalar};
ghost use Rattle.hordguli_c.specs.Arrays.{has_room, put, put_if, PutsItems};
ghost use Rattle.hordguli_c.specs.Lines.{columns_in};
ghost use Rattle.hordguli_c.specs.Levels.{CharactersNot, mark_number};

use crate::status::{Status, number_of};
use breaks::Mark;
use lines::VisualLine;
use std::alloc::{AllocError, Global};

/// Returns whether all numbers are Unicode scalar values.
pub fn are_characters(numbers: &[u32]) -> bool
    ensures yes { IsTrue result → All IsScalar numbers.now }
    ensures no { IsFalse result → ¬ All IsScalar numbers.now }
{
    for k in 0..numbers.len() {
        if char::from_u32(numbers[k]).is_none() {
            return false;
        }
    }
    true
}

/// Converts numbers, all of which must be Unicode scalar values, to characters.
pub fn collect_characters(alloc: Global, numbers: &[u32]) -> Result<Vec<char>, AllocError>
    requires { All IsScalar numbers.now }
    ensures text { IfOk result (λ text. text.items ≡ numbers.now) }
    ensures memory { OnErr result (0 < length numbers.now) }
{
    let mut text = Vec::new(alloc);
    text.reserve(numbers.len())?;
    for k in 0..numbers.len() {
        if let Some(c) = char::from_u32(numbers[k]) {
            text.push(c)?;
        }
    }
    Ok(text)
}

/// Converts numbers to characters. Fails with `NotACharacter` if a number is not a Unicode scalar value.
/// Otherwise, fails with `NoMemory` if an allocation fails.
pub fn characters_of(alloc: Global, numbers: &[u32]) -> Result<Vec<char>, Status>
    ensures ok { IfOk result (λ text. All IsScalar numbers.now × (text.items ≡ numbers.now)) }
    ensures err { IfErr result (CharactersNot numbers.now) }
{
    if !are_characters(numbers) {
        return Err(Status::NotACharacter);
    }
    match collect_characters(alloc, numbers) {
        Ok(text) => Ok(text),
        Err(_) => Err(Status::NoMemory),
    }
}

/// Copies a list to the front of an array.
pub fn put_levels(list: &[u8], array: &mut [u8])
    requires { length list.now ≤ length array.old }
    ensures { array.new ≡ put list.now array.old }
{
    array[..list.len()].copy_from_slice(list);
}

/// Returns the number that represents a break mark in C.
pub fn mark_number(mark: Mark) -> u8
    ensures { result ≡ mark_number mark }
{
    match mark {
        Mark::Never => 0,
        Mark::May => 1,
        Mark::Must => 2,
    }
}

fn put_each_mark(marks: &[Mark], array: &mut [u8])
    requires { length array.old ≡ length marks.now }
    ensures { array.new ≡ map mark_number marks.now }
{
    for at in 0..marks.len() {
        array[at] = mark_number(marks[at]);
    }
}

/// Writes the number that represents each break mark to the front of an array.
pub fn put_marks(marks: &[Mark], array: &mut [u8])
    requires { length marks.now ≤ length array.old }
    ensures { array.new ≡ put (map mark_number marks.now) array.old }
{
    put_each_mark(marks, &mut array[..marks.len()]);
}

/// Returns true if `len` elements fit in an array of `room` elements, or if the array is not `wanted`: its
/// pointer is NULL.
pub fn has_room(wanted: bool, len: usize, room: usize) -> bool
    ensures { result ≡ has_room wanted len room }
{
    !wanted || len <= room
}

/// Copies levels to the front of an array, if the array is `wanted`.
pub fn put_levels_if(wanted: bool, list: &[u8], array: &mut [u8])
    requires { has_room wanted (length list.now) (length array.old) ≡ true }
    ensures { array.new ≡ put_if wanted list.now array.old }
{
    if wanted {
        put_levels(list, array);
    }
}

/// Writes the number that represents each break mark to the front of an array, if the array is `wanted`.
pub fn put_marks_if(wanted: bool, marks: &[Mark], array: &mut [u8])
    requires { has_room wanted (length marks.now) (length array.old) ≡ true }
    ensures { array.new ≡ put_if wanted (map mark_number marks.now) array.old }
{
    if wanted {
        put_marks(marks, array);
    }
}

fn put_places(list: &[u32], array: &mut [u32])
    requires { length list.now ≤ length array.old }
    ensures { array.new ≡ put list.now array.old }
{
    array[..list.len()].copy_from_slice(list);
}

/// Copies positions in a line to the front of an array, if the array is `wanted`.
pub fn put_places_if(wanted: bool, list: &[u32], array: &mut [u32])
    requires { has_room wanted (length list.now) (length array.old) ≡ true }
    ensures { array.new ≡ put_if wanted list.now array.old }
{
    if wanted {
        put_places(list, array);
    }
}

/// Copies characters to an array of the same length.
pub fn put_each_character(list: &[char], array: &mut [u32])
    requires { length array.old ≡ length list.now }
    ensures { array.new ≡ list.now }
{
    for at in 0..list.len() {
        array[at] = u32::from(list[at]);
    }
}

fn put_characters(list: &[char], array: &mut [u32])
    requires { length list.now ≤ length array.old }
    ensures { array.new ≡ put list.now array.old }
{
    put_each_character(list, &mut array[..list.len()]);
}

/// Copies characters to the front of an array, if the array is `wanted`.
pub fn put_characters_if(wanted: bool, list: &[char], array: &mut [u32])
    requires { has_room wanted (length list.now) (length array.old) ≡ true }
    ensures { array.new ≡ put_if wanted list.now array.old }
{
    if wanted {
        put_characters(list, array);
    }
}

fn put_each_columns(line: &VisualLine<'_>, array: &mut [usize])
    requires { length array.old ≡ length line.now.vtol }
    ensures { array.new ≡ columns_in line.now }
{
    for at in 0..array.len() {
        array[at] = line.columns_at(at);
    }
}

fn put_columns(line: &VisualLine<'_>, array: &mut [usize])
    requires { length line.now.vtol ≤ length array.old }
    ensures { array.new ≡ put (columns_in line.now) array.old }
{
    put_each_columns(line, &mut array[..line.vtol().len()]);
}

/// Writes the width in columns of the character at each visual position to the front of an array, if the
/// array is `wanted`.
pub fn put_columns_if(wanted: bool, line: &VisualLine<'_>, array: &mut [usize])
    requires { has_room wanted (length line.now.vtol) (length array.old) ≡ true }
    ensures { array.new ≡ put_if wanted (columns_in line.now) array.old }
{
    if wanted {
        put_columns(line, array);
    }
}

/// Stores the number of bytes, and copies them to an array or, if they do not fit, returns `NoRoom`.
pub fn put_bytes(bytes: &[u8], array: &mut [u8], len: &mut usize) -> Status
    ensures { PutsItems bytes.now result (array.old, len.old) (array.new, len.new) }
{
    *len = bytes.len();
    if array.len() < bytes.len() {
        return Status::NoRoom;
    }
    array[..bytes.len()].copy_from_slice(bytes);
    Status::Ok
}

/// Stores the number of positions, and copies them to an array or, if they do not fit, returns `NoRoom`.
pub fn put_ends(ends: &[usize], array: &mut [usize], count: &mut usize) -> Status
    ensures { PutsItems ends.now result (array.old, count.old) (array.new, count.new) }
{
    *count = ends.len();
    if array.len() < ends.len() {
        return Status::NoRoom;
    }
    array[..ends.len()].copy_from_slice(ends);
    Status::Ok
}
