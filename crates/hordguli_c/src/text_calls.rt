//! Functions on whole texts, without a session.
ghost use Rattle.std.specs.Prelude.{◌≡◌, length, true};
ghost use Rattle.std.specs.Str.{chars};
ghost use Rattle.std.specs.Str.Lossy.{utf8_valid_len};
ghost use Rattle.hordguli_c.specs.Arrays.{has_room, put_if};
ghost use Rattle.hordguli_c.specs.Calls.{OfText};
ghost use Rattle.hordguli_c.specs.Options.{page_form_of, tables_by};
ghost use Rattle.hordguli_c.specs.Statuses.{Returns};
ghost use Rattle.hordguli_c.specs.Texts.{char_offsets, Decodes, PrintsText, PutsDecoded};
ghost use Rattle.hordguli_c.specs.declared.status.Status.TheVariants.{Ok};

use crate::arrays::has_room;
use crate::calls::with_object;
use crate::options::{has_bit, page_form_of, separates_lines};
use crate::status::{Status, number_of};
use crate::tables_handle::TablesHandle;
use crate::utf8::text_of;
use lines::char_count;
use simdutf8::compat::from_utf8;
use std::alloc::Global;

/// Copies the printed lines of a text as UTF-8 to an array if they fit. Stores the number of bytes in either
/// case.
#[unsafe(no_mangle)]
pub extern "C" fn hordguli_core_layout(
    alloc: Global,
    tables: &mut TablesHandle,
    options: u32,
    width: u16,
    print: u32,
    text: &[u8],
    array: &mut [u8],
    len: &mut usize,
) -> u32
    ensures unchanged { tables.new.held ≡ tables.old.held }
    ensures lines { Returns (λ status. PrintsText (page_form_of options width print) text.now status
        (tables_by options tables.old.held) (array.old, len.old) (array.new, len.new)) result }
{
    let Some(form) = page_form_of(options, width, print) else {
        return number_of(Status::UnknownOption);
    };
    let Some(text) = text_of(text) else {
        return number_of(Status::NotUtf8);
    };
    let separates = separates_lines(options);
    with_object!(
        tables,
        alloc,
        mut object,
        object.put_page(alloc, separates, &form, text, array, len)
    )
}

/// Stores the number of characters in UTF-8 text.
#[unsafe(no_mangle)]
pub extern "C" fn hordguli_core_count_utf8(bytes: &[u8], count: &mut usize) -> u32
    ensures { Returns (λ status. OfText bytes.now status (count.new ≡ count.old)
        (λ text. (status ≡ Ok) × (count.new ≡ length text))) result }
{
    match text_of(bytes) {
        Some(text) => {
            *count = char_count(text);
            number_of(Status::Ok)
        }
        None => number_of(Status::NotUtf8),
    }
}

fn valid_len(bytes: &[u8]) -> usize
    ensures { result ≡ utf8_valid_len bytes.now }
{
    let Err(error) = from_utf8(bytes) else {
        return bytes.len();
    };
    error.valid_up_to()
}

/// Stores the length in bytes of the longest prefix that is valid UTF-8.
#[unsafe(no_mangle)]
pub extern "C" fn hordguli_core_valid_utf8(bytes: &[u8], valid: &mut usize) -> u32
    ensures status { Returns (λ status. status ≡ Ok) result }
    ensures valid { valid.new ≡ utf8_valid_len bytes.now }
{
    *valid = valid_len(bytes);
    number_of(Status::Ok)
}

// Copies the characters of a text to an array of the same length.
fn put_each_decoded(text: &str, array: &mut [u32])
    requires { length array.old ≡ length (chars text.now) }
    ensures { array.new ≡ chars text.now }
{
    let mut k = 0;
    for c in text.chars() {
        array[k] = u32::from(c);
        k += 1;
    }
}

// Copies the characters of a text to the front of an array, if the array is `wanted`.
fn put_decoded_if(wanted: bool, text: &str, len: usize, array: &mut [u32])
    requires len { len ≡ length (chars text.now) }
    requires room { has_room wanted len (length array.old) ≡ true }
    ensures { array.new ≡ put_if wanted (chars text.now) array.old }
{
    if wanted {
        put_each_decoded(text, &mut array[..len]);
    }
}

// Writes the offset of each character of a text to an array that has one element for each character.
fn put_each_offset(text: &str, array: &mut [usize])
    requires { length array.old ≡ length (chars text.now) }
    ensures { array.new ≡ char_offsets (chars text.now) }
{
    // No offset exceeds the number of bytes, which is bounded as the length of a slice. So `offset` does not
    // overflow.
    let _bytes = text.len();
    let mut k = 0;
    let mut offset = 0;
    for c in text.chars() {
        array[k] = offset;
        offset += c.len_utf8();
        k += 1;
    }
}

// Writes the offset of each character of a text to the front of an array, if the array is `wanted`.
fn put_offsets_if(wanted: bool, text: &str, len: usize, array: &mut [usize])
    requires len { len ≡ length (chars text.now) }
    requires room { has_room wanted len (length array.old) ≡ true }
    ensures { array.new ≡ put_if wanted (char_offsets (chars text.now)) array.old }
{
    if wanted {
        put_each_offset(text, &mut array[..len]);
    }
}

fn put_decoded(
    text: &str,
    wanted: u32,
    characters: &mut [u32],
    offsets: &mut [usize],
    count: &mut usize,
) -> Status
    ensures { PutsDecoded wanted (chars text.now) result
        (count.old, record { characters = characters.old; offsets = offsets.old })
        (count.new, record { characters = characters.new; offsets = offsets.new }) }
{
    let len = char_count(text);
    let (wants_characters, wants_offsets) = (has_bit(wanted, 1), has_bit(wanted, 2));
    *count = len;
    if !has_room(wants_characters, len, characters.len()) {
        return Status::NoRoom;
    }
    if !has_room(wants_offsets, len, offsets.len()) {
        return Status::NoRoom;
    }
    put_decoded_if(wants_characters, text, len, characters);
    put_offsets_if(wants_offsets, text, len, offsets);
    Status::Ok
}

/// Stores the number of characters in UTF-8 text, and writes the arrays that `wanted` selects.
#[unsafe(no_mangle)]
pub extern "C" fn hordguli_core_decode(
    bytes: &[u8],
    wanted: u32,
    characters: &mut [u32],
    offsets: &mut [usize],
    count: &mut usize,
) -> u32
    ensures { Returns (λ status. Decodes wanted bytes.now status
        (count.old, record { characters = characters.old; offsets = offsets.old })
        (count.new, record { characters = characters.new; offsets = offsets.new })) result }
{
    match text_of(bytes) {
        Some(text) => number_of(put_decoded(text, wanted, characters, offsets, count)),
        None => number_of(Status::NotUtf8),
    }
}
