//! Tests of the search for a direction. Each row is an input, its direction, and how much of the input is
//! read to find the direction.
use crate::texts::engine;
use bidi::Base;
use device::FromRead;
use lines::Engine;
use std::alloc::Global;
use std::io;
use std::io::{ErrorKind, Read};
use std::test::Fail;
use terminal::{Escapes, FIRST_CHARACTERS, Start, known_direction, read_start, whole_direction};

// A reader that returns one byte for each call. After the last byte, the next call fails or reports the end.
#[derive(Drop)]
struct Bytes<'a> {
    rest: &'a [u8],
    fails: bool,
}

impl<'a> Read for Bytes<'a> {
    fn read(&mut self, buffer: &mut [u8]) -> io::Result<usize> {
        if self.rest.is_empty() && self.fails {
            return Err(ErrorKind::Other.into());
        }
        if self.rest.is_empty() || buffer.is_empty() {
            return Ok(0);
        }
        buffer[0] = self.rest[0];
        self.rest = &self.rest[1..];
        Ok(1)
    }
}

fn start_of(alloc: Global, engine: &mut Engine, bytes: &[u8], fails: bool) -> Result<Start, Fail> {
    let mut reader = FromRead::new(Bytes { rest: bytes, fails });
    Ok(read_start(alloc, &mut reader, engine, Escapes::Keep)?)
}

// Returns whether the direction is found after this number of bytes.
fn is_found_after(
    alloc: Global,
    engine: &mut Engine,
    bytes: &[u8],
    len: usize,
    base: Base,
) -> Result<bool, Fail> {
    let start = start_of(alloc, engine, bytes, false)?;
    Ok(start.base == base && !start.is_whole && start.bytes.len() == len)
}

// Returns whether this direction is found after the last byte, both if the reader then reports the end and if
// it fails.
fn is_found_at_end(
    alloc: Global,
    engine: &mut Engine,
    bytes: &[u8],
    base: Base,
) -> Result<bool, Fail> {
    let start = start_of(alloc, engine, bytes, false)?;
    let failed = start_of(alloc, engine, bytes, true)?;
    let is_all = start.bytes.as_slice() == bytes && failed.bytes.as_slice() == bytes;
    let is_base = start.base == base && failed.base == base;
    Ok(is_all && is_base && start.is_whole && !failed.is_whole)
}

#[test]
fn direction_is_found_when_a_strong_paragraph_ends(rt: HostRuntime) -> Result<(), Fail> {
    let mut engine = engine(rt.alloc(), 0)?;
    for (text, len, base) in [
        ("ab\nc", 3, Base::Ltr),
        ("אב\nc", 5, Base::Rtl),
        ("12\nא!\nab\n", 7, Base::Rtl),
        ("\n\n\nא\n\n", 6, Base::Rtl),
        // The characters of an isolate do not count.
        ("\u{2067}a\u{2069}\nא\nb", 11, Base::Rtl),
        // After CR, the next character outside escape sequences must be read too.
        ("א\r\u{1b}[ma\nb", 7, Base::Rtl),
        ("א\r\n", 4, Base::Rtl),
        ("1\r\u{1b}]0;ab\u{7}\r\na\nb", 13, Base::Ltr),
        // The character after the backspace replaces the first character.
        ("א\u{8}a\nב\n", 5, Base::Ltr),
        ("\u{feff}א\nb", 6, Base::Rtl),
    ] {
        assert!(rt; is_found_after(rt.alloc(), &mut engine, text.as_bytes(), len, base)?);
    }
    Ok(())
}

#[test]
fn direction_is_found_at_the_end_or_at_a_failure(rt: HostRuntime) -> Result<(), Fail> {
    let mut engine = engine(rt.alloc(), 0)?;
    for (bytes, base) in [
        (b"".as_slice(), Base::Ltr),
        (b"12\n3".as_slice(), Base::Ltr),
        (b"\xd7\x90".as_slice(), Base::Rtl),
        (b"12\n\xd7\x90\r".as_slice(), Base::Rtl),
        // The bytes of an incomplete character are decoded as U+FFFD.
        (b"12\n\xd7".as_slice(), Base::Ltr),
        (b"\x1b]0;\xd7\x90".as_slice(), Base::Rtl),
    ] {
        assert!(rt; is_found_at_end(rt.alloc(), &mut engine, bytes, base)?);
    }
    Ok(())
}

// Returns `count` digits, followed by a text.
fn after_digits(alloc: Global, count: usize, text: &str) -> Result<Vec<u8>, Fail> {
    let mut bytes = Vec::new(alloc);
    for _ in 0..count {
        bytes.push(b'1')?;
    }
    bytes.extend_from_slice(text.as_bytes())?;
    Ok(bytes)
}

#[test]
fn only_the_first_characters_count(rt: HostRuntime) -> Result<(), Fail> {
    let mut engine = engine(rt.alloc(), 0)?;
    for (count, len, base) in [
        (FIRST_CHARACTERS - 1, FIRST_CHARACTERS + 1, Base::Rtl),
        (FIRST_CHARACTERS, FIRST_CHARACTERS, Base::Ltr),
    ] {
        let bytes = after_digits(rt.alloc(), count, "א\nab\n")?;
        assert!(rt; is_found_after(rt.alloc(), &mut engine, &bytes, len, base)?);
    }
    Ok(())
}

// Returns whether `whole_direction` finds this direction, and `known_direction` finds the same
// direction if `is_known` is true, and otherwise none.
fn is_direction(
    alloc: Global,
    engine: &mut Engine,
    text: &str,
    base: Base,
    is_known: bool,
) -> Result<bool, Fail> {
    let bytes = text.as_bytes();
    let whole = whole_direction(alloc, engine, Escapes::Keep, bytes)?;
    let known = known_direction(alloc, engine, Escapes::Keep, bytes)?;
    Ok(whole == base && known == if is_known { Some(base) } else { None })
}

#[test]
fn direction_of_bytes_is_known_when_a_strong_paragraph_ends(rt: HostRuntime) -> Result<(), Fail> {
    let mut engine = engine(rt.alloc(), 0)?;
    for (text, base, is_known) in [
        ("", Base::Ltr, false),
        ("12\nא", Base::Rtl, false),
        ("12\nא\n", Base::Rtl, true),
        ("א\r", Base::Rtl, false),
        ("א\ra", Base::Rtl, true),
    ] {
        assert!(rt; is_direction(rt.alloc(), &mut engine, text, base, is_known)?);
    }
    Ok(())
}
