//! Tests the public calls of `stream`, including the example in its first lines.
use device::{FromRead, write_all};
use std::test::Fail;
use stream::{CHUNK, Page, front, push_characters, read_to, zeroed};

#[test]
fn front_ends_before_a_character_that_is_cut(rt: HostRuntime) {
    let (text, is_bad) = front(b"ab\xd7");
    assert!(rt; text == "ab" && !is_bad);
}

#[test]
fn front_ends_before_a_byte_that_begins_no_character(rt: HostRuntime) {
    let (text, is_bad) = front(b"ab\xffc");
    assert!(rt; text == "ab" && is_bad);
}

#[test]
fn characters_are_appended_to_a_list(rt: HostRuntime) -> Result<(), Fail> {
    let mut list: Vec<char> = Vec::new(rt.alloc());
    push_characters("x", &mut list)?;
    push_characters("אa", &mut list)?;
    assert!(rt; list.as_slice() == ['x', 'א', 'a'].as_slice());
    Ok(())
}

#[test]
fn bytes_are_read_from_an_index_on(rt: HostRuntime) {
    let mut buffer: [u8; 4] = [b'-'; 4];
    let mut source = FromRead::new(b"abc".as_slice());
    let read = read_to(&mut source, &mut buffer, 2);
    assert!(rt; read == Ok(2) && buffer == *b"--ab");
}

#[test]
fn a_chunk_is_64_kib_of_zeros(rt: HostRuntime) -> Result<(), Fail> {
    let buffer = zeroed(rt.alloc(), CHUNK)?;
    assert!(rt; buffer.len() == 65_536 && buffer[0] == 0 && buffer[65_535] == 0);
    Ok(())
}

#[test]
fn a_page_collects_what_is_written_until_it_is_cleared(rt: HostRuntime) {
    let mut page = Page::new(rt.alloc());
    let written = write_all(&mut page, b"ab");
    let is_collected = written.is_ok() && page.bytes() == b"ab".as_slice();
    page.clear();
    assert!(rt; is_collected && page.bytes().is_empty());
}
