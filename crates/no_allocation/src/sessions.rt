//! Calls to a session, and edits that it refuses.
use crate::layouts::{ALL, of_bytes, of_laid, of_line};
use crate::texts::{mixed, mixed_place};
use device::ToWrite;
use oom_calls::sessions::open;
use oom_calls::{Printed, Writer, Wrong};
use session::{Damage, EditFault, Kept, Session};
use std::alloc::Global;
use store::ParagraphStore;

/// Returns a digest of the calls' results. The results are the same in each round.
pub fn digest<S: ParagraphStore<Kept> + Drop>(alloc: Global, rounds: u32) -> Result<u64, Wrong> {
    let long = letters(alloc, 16_777_217)?;
    let mut session: Session<S> = open(alloc)?;
    let mut sum = 0;
    for _ in 0..rounds {
        sum = mixed(of_session(&session), of_refusals(&mut session, &long));
    }
    Ok(sum)
}

// Returns a text of this many letters.
fn letters(alloc: Global, count: usize) -> Result<String, Wrong> {
    let mut text = String::new(alloc);
    for _ in 0..count {
        if text.push('a').is_err() {
            return Err("no text");
        }
    }
    Ok(text)
}

fn of_refusals<S: ParagraphStore<Kept>>(session: &mut Session<S>, long: &str) -> u64 {
    let mut sum = of_answer(session.insert(99, "x"));
    sum = mixed(sum, of_answer(session.delete(0, 99)));
    sum = mixed(sum, of_answer(session.replace(0, 99, "x")));
    sum = mixed(sum, of_answer(session.set_width(0)));
    sum = mixed(sum, of_answer(session.insert(0, long)));
    if let Some(paragraph) = long.get(..1_048_577) {
        sum = mixed(sum, of_answer(session.insert(0, paragraph)));
    }
    sum
}

fn of_answer(answer: Result<Damage, EditFault>) -> u64 {
    match answer {
        Ok(_) => 0,
        Err(EditFault::OutOfRange) => 1,
        Err(EditFault::WidthOutOfRange) => 2,
        Err(EditFault::TextTooLong) => 3,
        Err(EditFault::ParagraphTooLong) => 4,
        Err(EditFault::NoMemory) => 5,
    }
}

fn of_session<S: ParagraphStore<Kept>>(session: &Session<S>) -> u64 {
    let mut sum = mixed(session.line_count() as u64, session.char_count() as u64);
    sum = mixed(sum, session.paragraph_count() as u64);
    sum = mixed(sum, u64::from(session.width()));
    sum = mixed(sum, session.analysed());
    sum = mixed(sum, session.filled());
    sum = mixed(sum, session.written());
    for n in 0..4 {
        sum = mixed(sum, of_number(session, n));
    }
    for pos in 0..10 {
        sum = mixed(sum, of_position(session, pos));
    }
    mixed(sum, printed(session))
}

// Returns a digest of line `n` and of paragraph `n`.
fn of_number<S: ParagraphStore<Kept>>(session: &Session<S>, n: usize) -> u64 {
    let mut sum = mixed_place(0, session.line_start(n));
    sum = mixed_place(sum, session.paragraph_start(n));
    sum = mixed_place(sum, session.paragraph_first_line(n));
    sum = match session.line(n) {
        Some(line) => mixed(sum, of_line(&line)),
        None => mixed(sum, 0),
    };
    match session.paragraph(n) {
        Some(laid) => mixed(sum, of_laid(laid)),
        None => mixed(sum, 0),
    }
}

fn of_position<S: ParagraphStore<Kept>>(session: &Session<S>, pos: usize) -> u64 {
    let mut sum = match session.place(pos) {
        Some(place) => mixed(place.line as u64, place.offset as u64),
        None => 0,
    };
    sum = match session.caret(pos) {
        Some(caret) => mixed(sum, caret.column as u64),
        None => mixed(sum, 0),
    };
    sum = match session.hit(1, pos) {
        Some(hit) => mixed(sum, hit.pos as u64),
        None => mixed(sum, 0),
    };
    sum = match session.text(pos, 1) {
        Some(text) => mixed(sum, text.len() as u64),
        None => mixed(sum, 0),
    };
    sum = mixed_place(sum, session.utf8_len(pos, 1));
    mixed(sum, of_offset(session, pos))
}

// Converts `offset` from a position to offsets, and from an offset to positions. Returns a digest of both.
fn of_offset<S: ParagraphStore<Kept>>(session: &Session<S>, offset: usize) -> u64 {
    let mut sum = mixed_place(0, session.byte_of(offset));
    sum = mixed_place(sum, session.utf16_of(offset));
    sum = mixed(sum, of_found(session.position_of_byte(offset)));
    mixed(sum, of_found(session.position_of_utf16(offset)))
}

fn of_found(found: Option<(usize, usize)>) -> u64 {
    match found {
        Some((pos, rest)) => mixed(pos as u64, rest as u64),
        None => 0,
    }
}

fn printed<S: ParagraphStore<Kept>>(session: &Session<S>) -> u64 {
    let mut page = Printed::new();
    let mut writer = ToWrite::new(Writer { page: &mut page });
    let is_written = session.print(&mut writer, &ALL).is_ok();
    of_bytes(&page, is_written)
}
