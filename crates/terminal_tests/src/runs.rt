//! Tests of runs. Each row is an input, its output, and how the run ends.
use crate::texts::{engine, form};
use device::{FromRead, ToWrite};
use lines::Engine;
use std::alloc::Global;
use std::io;
use std::io::{ErrorKind, Read};
use std::test::Fail;
use stream::Page;
use terminal::{Escapes, Fault, Form, run};

// A reader that always fails.
#[derive(Drop)]
struct Broken;

impl Read for Broken {
    fn read(&mut self, _buffer: &mut [u8]) -> io::Result<usize> {
        Err(ErrorKind::Other.into())
    }
}

// Returns whether an input that is read in two chunks is written as expected.
fn are_written_as(
    alloc: Global,
    engine: &mut Engine,
    form: &Form,
    is_last: bool,
    first: &[u8],
    second: &[u8],
    expected: &str,
) -> Result<bool, Fail> {
    if form.width == 0 {
        return Err(Fail::new("no width"));
    }
    let mut reader = FromRead::new(first.chain(second));
    let mut page = Page::new(alloc);
    let result = run(alloc, &mut reader, &mut page, engine, form, is_last);
    Ok(result == Ok(false) && page.bytes() == expected.as_bytes())
}

// Returns whether an input is written as expected, wherever the first chunk ends.
fn is_output(
    alloc: Global,
    engine: &mut Engine,
    form: &Form,
    is_last: bool,
    bytes: &[u8],
    expected: &str,
) -> Result<bool, Fail> {
    for k in 0..bytes.len() + 1 {
        let (first, second) = bytes.split_at(k);
        if !are_written_as(alloc, engine, form, is_last, first, second, expected)? {
            return Ok(false);
        }
    }
    Ok(true)
}

// Does the same as `is_output`, for an input that is not the last one.
fn is_written_as(
    alloc: Global,
    engine: &mut Engine,
    form: &Form,
    bytes: &[u8],
    expected: &str,
) -> Result<bool, Fail> {
    is_output(alloc, engine, form, false, bytes, expected)
}

#[test]
fn last_newline_is_left_out_where_the_text_has_none(rt: HostRuntime) -> Result<(), Fail> {
    let mut engine = engine(rt.alloc(), 0)?;
    let form = form(20, Escapes::Keep);
    for (bytes, expected) in [
        (b"a".as_slice(), "a"),
        (b"a\nb".as_slice(), "a\nb"),
        (b"a\n\x1b[31mb".as_slice(), "a\n\x1b[31mb\x1b[m"),
        (b"a\x1b[m".as_slice(), "a"),
        (b"a\xe2\x82".as_slice(), "a\u{fffd}"),
        (b"a\x1b[31".as_slice(), "a[31"),
    ] {
        assert!(rt; is_output(rt.alloc(), &mut engine, &form, true, bytes, expected)?);
    }
    Ok(())
}

#[test]
fn last_newline_is_written_after_all_that_end_a_line(rt: HostRuntime) -> Result<(), Fail> {
    let mut engine = engine(rt.alloc(), 0)?;
    let form = form(20, Escapes::Keep);
    for (bytes, expected) in [
        (b"a\n".as_slice(), "a\n"),
        (b"a\n\n".as_slice(), "a\n\n"),
        (b"a\r".as_slice(), "a\n"),
        (b"a\r\n".as_slice(), "a\n"),
        (b"a\x0b".as_slice(), "a\n"),
        (b"a\x0c".as_slice(), "a\n"),
        (b"a\xc2\x85".as_slice(), "a\n"),
        (b"a\xe2\x80\xa8".as_slice(), "a\n"),
        (b"a\xe2\x80\xa9".as_slice(), "a\n"),
        // Sequences and dropped controls after the last separator add nothing to the output.
        (b"a\n\x1b[31m".as_slice(), "a\n"),
        (b"a\n\x07".as_slice(), "a\n"),
        (b"a\x0b\x1b[31m".as_slice(), "a\n"),
        (b"".as_slice(), ""),
        (b"\x1b[31m".as_slice(), ""),
    ] {
        assert!(rt; is_output(rt.alloc(), &mut engine, &form, true, bytes, expected)?);
    }
    Ok(())
}

#[test]
fn newline_after_an_input_that_others_follow_is_written(rt: HostRuntime) -> Result<(), Fail> {
    let mut engine = engine(rt.alloc(), 0)?;
    let form = form(20, Escapes::Keep);
    for (bytes, expected) in [
        (b"a".as_slice(), "a\n"),
        (b"a\n".as_slice(), "a\n"),
        (b"".as_slice(), ""),
    ] {
        assert!(rt; is_output(rt.alloc(), &mut engine, &form, false, bytes, expected)?);
    }
    Ok(())
}

#[test]
fn invalid_bytes_are_replaced_wherever_a_chunk_ends(rt: HostRuntime) -> Result<(), Fail> {
    let mut engine = engine(rt.alloc(), 0)?;
    let form = form(20, Escapes::Keep);
    for (bytes, expected) in [
        (b"a\xffb\n".as_slice(), "a\u{fffd}b\n"),
        (b"\xe2\x82\xac\n".as_slice(), "\u{20ac}\n"),
        (b"\xe2\x82a\n".as_slice(), "\u{fffd}a\n"),
        (b"\xe2a\x82\n".as_slice(), "\u{fffd}a\u{fffd}\n"),
        (b"\xf0\x9f\x98\n".as_slice(), "\u{fffd}\n"),
        (b"\xf0\x9f\x98\x80\n".as_slice(), "\u{1f600}\n"),
        (b"\xc0\xaf\n".as_slice(), "\u{fffd}\u{fffd}\n"),
        (b"\xed\xa0\x80\n".as_slice(), "\u{fffd}\u{fffd}\u{fffd}\n"),
        (
            b"\xf4\x90\x80\x80\n".as_slice(),
            "\u{fffd}\u{fffd}\u{fffd}\u{fffd}\n",
        ),
        (b"a\xe2\x82".as_slice(), "a\u{fffd}\n"),
        (b"\xf0\x9f\x98".as_slice(), "\u{fffd}\n"),
        (
            b"\xd7\x90\xff\xd7\x91\n".as_slice(),
            "\u{5d1}\u{fffd}\u{5d0}\n",
        ),
    ] {
        assert!(rt; is_written_as(rt.alloc(), &mut engine, &form, bytes, expected)?);
    }
    Ok(())
}

#[test]
fn only_an_initial_byte_order_mark_is_dropped(rt: HostRuntime) -> Result<(), Fail> {
    let mut engine = engine(rt.alloc(), 0)?;
    let form = form(20, Escapes::Keep);
    for (bytes, expected) in [
        (b"\xef\xbb\xbfa\n".as_slice(), "a\n"),
        (b"\xef\xbb\xbf".as_slice(), ""),
        (b"".as_slice(), ""),
        (b"\xef\xbb\xbf\xef\xbb\xbfa\n".as_slice(), "\u{feff}a\n"),
        (b"a\n\xef\xbb\xbfb\n".as_slice(), "a\n\u{feff}b\n"),
        (b"\xef\xbba\n".as_slice(), "\u{fffd}a\n"),
    ] {
        assert!(rt; is_written_as(rt.alloc(), &mut engine, &form, bytes, expected)?);
    }
    Ok(())
}

#[test]
fn separators_and_sequences_are_read_across_chunks(rt: HostRuntime) -> Result<(), Fail> {
    let mut engine = engine(rt.alloc(), 0)?;
    let form = form(20, Escapes::Keep);
    for (bytes, expected) in [
        (b"a\r\nb".as_slice(), "a\nb\n"),
        (b"a\rb".as_slice(), "a\nb\n"),
        (b"\r\r\n\n".as_slice(), "\n\n\n"),
        (b"a\r\x1b[31m\nb".as_slice(), "a\n\x1b[31mb\x1b[m\n"),
        (b"a\r\x1b[31mb".as_slice(), "a\n\x1b[31mb\x1b[m\n"),
        (b"a\r\x1b]0;t\x1b\\\nb".as_slice(), "a\nb\n"),
        (b"a\r\x1b]0;t\x07\nb".as_slice(), "a\nb\n"),
        (b"a\r\x1b[3\nb".as_slice(), "a\n[3\nb\n"),
        (
            b"\x1b[1ma\nb\x1b[m\nc".as_slice(),
            "\x1b[1ma\x1b[m\n\x1b[1mb\x1b[m\nc\n",
        ),
        (
            b"a\x08a_\x08b\n".as_slice(),
            "\x1b[1ma\x1b[m\x1b[4mb\x1b[m\n",
        ),
    ] {
        assert!(rt; is_written_as(rt.alloc(), &mut engine, &form, bytes, expected)?);
    }
    Ok(())
}

#[test]
fn modes_strip_styles_or_show_controls(rt: HostRuntime) -> Result<(), Fail> {
    let mut engine = engine(rt.alloc(), 0)?;
    let text = b"a\x1b[1mb_\x08c\x7f\xc2\x9c\n".as_slice();
    for (escapes, expected) in [
        (Escapes::Keep, "a\u{1b}[1mb\u{1b}[m\u{1b}[1;4mc\u{1b}[m\n"),
        (Escapes::Strip, "abc\n"),
        (Escapes::Text, "a\u{241b}[1mb_\u{2408}c\u{2421}\u{fffd}\n"),
    ] {
        let form = form(20, escapes);
        assert!(rt; is_written_as(rt.alloc(), &mut engine, &form, text, expected)?);
    }
    Ok(())
}

// Returns whether the lines written before a failed read are as expected.
fn is_written_before_failure(
    alloc: Global,
    engine: &mut Engine,
    form: &Form,
    bytes: &[u8],
    expected: &str,
) -> Result<bool, Fail> {
    if form.width == 0 {
        return Err(Fail::new("no width"));
    }
    let mut reader = FromRead::new(bytes.chain(Broken));
    let mut page = Page::new(alloc);
    let result = run(alloc, &mut reader, &mut page, engine, form, false);
    Ok(result == Err(Fault::Read) && page.bytes() == expected.as_bytes())
}

#[test]
fn paragraphs_that_have_ended_are_written_before_the_next_read(
    rt: HostRuntime,
) -> Result<(), Fail> {
    let mut engine = engine(rt.alloc(), 0)?;
    let form = form(20, Escapes::Keep);
    for (bytes, expected) in [
        (b"".as_slice(), ""),
        (b"a\nb\nc".as_slice(), "a\nb\n"),
        (b"a\nb\n".as_slice(), "a\nb\n"),
        (b"a\r".as_slice(), ""),
        (b"a\rb".as_slice(), "a\n"),
        (b"a\r\n".as_slice(), "a\n"),
        (b"a\r\x1b[31m".as_slice(), ""),
        (b"a\r\x1b[31mb".as_slice(), "a\n"),
        (b"a\r\x1b]0;t\x1b\\".as_slice(), ""),
        (b"a\r\x1b]0;t\x1b\\\n".as_slice(), "a\n"),
        (b"a\n\xe2\x82".as_slice(), "a\n"),
    ] {
        assert!(rt; is_written_before_failure(rt.alloc(), &mut engine, &form, bytes, expected)?);
    }
    Ok(())
}

#[test]
fn a_full_sink_ends_the_run(rt: HostRuntime) -> Result<(), Fail> {
    let mut engine = engine(rt.alloc(), 0)?;
    let form = Form {
        width: 20,
        ..form(20, Escapes::Keep)
    };
    let mut room = [0; 3];
    let mut reader = FromRead::new(b"a\nb\nc\n".as_slice());
    let mut writer = ToWrite::new(room.as_mut_slice());
    let result = run(
        rt.alloc(),
        &mut reader,
        &mut writer,
        &mut engine,
        &form,
        false,
    );
    assert!(rt; result == Err(Fault::Write(3)));
    assert!(rt; room.as_slice() == b"a\nb".as_slice());
    Ok(())
}

// Appends a byte `count` times.
fn push_times(byte: u8, count: usize, bytes: &mut Vec<u8>) -> Result<(), Fail> {
    for _ in 0..count {
        bytes.push(byte)?;
    }
    Ok(())
}

// Lays out a text without a width. Returns whether it is laid out in pieces, and the output after `at` bytes
// is as expected.
fn ends_in_pieces(
    rt: &HostRuntime,
    bytes: &[u8],
    at: usize,
    expected: &[u8],
) -> Result<bool, Fail> {
    let mut engine = engine(rt.alloc(), 0)?;
    let form = form(0, Escapes::Keep);
    let mut reader = FromRead::new(bytes);
    let mut page = Page::new(rt.alloc());
    let result = run(rt.alloc(), &mut reader, &mut page, &mut engine, &form, true);
    let written = page.bytes();
    if result != Ok(true) || written.len() < at {
        return Ok(false);
    }
    let (_, end) = written.split_at(at);
    Ok(end == expected)
}

#[test]
fn a_paragraph_over_the_limit_is_laid_out_in_pieces(rt: HostRuntime) -> Result<(), Fail> {
    let mut bytes = Vec::new(rt.alloc());
    push_times(b'a', 1_048_576, &mut bytes)?;
    bytes.extend_from_slice(b"b\nc\n")?;
    assert!(rt; ends_in_pieces(&rt, &bytes, 1_048_575, b"a\nb\nc\n".as_slice())?);
    Ok(())
}

#[test]
fn later_pieces_have_the_direction_of_the_first(rt: HostRuntime) -> Result<(), Fail> {
    let mut bytes = Vec::new(rt.alloc());
    bytes.extend_from_slice("\u{5d0}".as_bytes())?;
    push_times(b'-', 1_048_575, &mut bytes)?;
    bytes.extend_from_slice(b"b!\nc\n")?;
    assert!(rt; ends_in_pieces(&rt, &bytes, 1_048_577, b"\n!b\nc\n".as_slice())?);
    Ok(())
}

#[test]
fn a_paragraph_of_the_limit_is_one(rt: HostRuntime) -> Result<(), Fail> {
    let mut engine = engine(rt.alloc(), 0)?;
    let form = form(0, Escapes::Keep);
    let mut bytes = Vec::new(rt.alloc());
    push_times(b'a', 1_048_575, &mut bytes)?;
    bytes.extend_from_slice(b"\nc\n")?;
    let mut reader = FromRead::new(bytes.as_slice());
    let mut page = Page::new(rt.alloc());
    let result = run(rt.alloc(), &mut reader, &mut page, &mut engine, &form, true);
    assert!(rt; result == Ok(false) && page.bytes() == bytes.as_slice());
    Ok(())
}

#[test]
fn a_paragraph_over_the_limit_ends_a_strict_run(rt: HostRuntime) -> Result<(), Fail> {
    let mut engine = engine(rt.alloc(), 0)?;
    let form = Form {
        strict: true,
        ..form(20, Escapes::Keep)
    };
    let mut bytes = Vec::from_slice(rt.alloc(), b"a\n")?;
    push_times(b'b', 1_048_577, &mut bytes)?;
    let mut reader = FromRead::new(bytes.as_slice());
    let mut page = Page::new(rt.alloc());
    let result = run(
        rt.alloc(),
        &mut reader,
        &mut page,
        &mut engine,
        &form,
        false,
    );
    assert!(rt; result == Err(Fault::ParagraphTooLong) && page.bytes() == b"a\n".as_slice());
    Ok(())
}

#[test]
fn input_that_is_all_invalid_is_read_to_its_end(rt: HostRuntime) -> Result<(), Fail> {
    let mut engine = engine(rt.alloc(), 0)?;
    let form = Form {
        width: 20,
        ..form(20, Escapes::Keep)
    };
    let mut bytes = Vec::new(rt.alloc());
    push_times(0xff, 200_000, &mut bytes)?;
    let mut reader = FromRead::new(bytes.as_slice());
    let mut page = Page::new(rt.alloc());
    let result = run(
        rt.alloc(),
        &mut reader,
        &mut page,
        &mut engine,
        &form,
        false,
    );
    assert!(rt; result == Ok(false) && page.bytes().len() == 200_000 * 3 + 10_000);
    Ok(())
}

// Returns whether a strict run ends with a fault after writing the expected lines, wherever the first chunk
// ends.
fn ends_with(
    alloc: Global,
    engine: &mut Engine,
    bytes: &[u8],
    expected: &str,
    fault: Fault,
) -> Result<bool, Fail> {
    let form = Form {
        strict: true,
        ..form(20, Escapes::Keep)
    };
    for k in 0..bytes.len() + 1 {
        let (first, second) = bytes.split_at(k);
        let mut reader = FromRead::new(first.chain(second));
        let mut page = Page::new(alloc);
        let result = run(alloc, &mut reader, &mut page, engine, &form, true);
        if result != Err(fault) || page.bytes() != expected.as_bytes() {
            return Ok(false);
        }
    }
    Ok(true)
}

#[test]
fn strict_run_ends_where_the_input_is_not_utf8(rt: HostRuntime) -> Result<(), Fail> {
    let mut engine = engine(rt.alloc(), 0)?;
    for (bytes, expected, at) in [
        (b"a\nb\n\xffc\n".as_slice(), "a\n", 4),
        (b"a\nb\xff".as_slice(), "a\n", 3),
        (b"\xffa\n".as_slice(), "", 0),
        (b"a\n\n\xff".as_slice(), "a\n", 3),
        (b"a\nb\xe2\x82c".as_slice(), "a\n", 3),
        // The input ends inside a character.
        (b"a\nb\n\xe2\x82".as_slice(), "a\n", 4),
        (b"a\r\nb\xf0\x9f\x98".as_slice(), "a\n", 4),
        (b"\xef\xbb\xbfa\nb\xff".as_slice(), "a\n", 6),
    ] {
        let fault = Fault::NotUtf8(at);
        assert!(rt; ends_with(rt.alloc(), &mut engine, bytes, expected, fault)?);
    }
    Ok(())
}

#[test]
fn strict_run_of_valid_text_writes_all(rt: HostRuntime) -> Result<(), Fail> {
    let mut engine = engine(rt.alloc(), 0)?;
    let form = Form {
        strict: true,
        ..form(20, Escapes::Keep)
    };
    for (bytes, expected) in [
        (b"a\nb".as_slice(), "a\nb"),
        (b"a\n\x1b[31mb\n".as_slice(), "a\n\x1b[31mb\x1b[m\n"),
        (b"\xe2\x82\xac\r\n".as_slice(), "\u{20ac}\n"),
        (b"".as_slice(), ""),
    ] {
        assert!(rt; is_output(rt.alloc(), &mut engine, &form, true, bytes, expected)?);
    }
    Ok(())
}
