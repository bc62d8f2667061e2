//! Reads the characters of a text, one paragraph at a time or as UTF-8.
ghost use Rattle.std.specs.Prelude.{◌≡◌, ◌+◌, ◌<◌, ◌≤◌, All, length, option_map};
ghost use Rattle.std.specs.Prelude.{IfOk, IfErr, IfSome};
ghost use Rattle.lines.specs.Writing.{PassedOn, StoppedIn};
ghost use Rattle.session.specs.Kept.{text_of};
ghost use Rattle.session.specs.Places.{IsLined};
ghost use Rattle.session.specs.Reading.{text_part, utf8_len, utf8_part};

use crate::borders::{back, front};
use crate::kept::Kept;
use crate::offsets::{Encoding, offset_of};
use device::Sink;
use lines::{WriteFault, write_chars};
use store::ParagraphStore;

/// Returns the characters from `pos` to the end of their paragraph, but at most `count`. Returns `None` if
/// `pos + count` is past the end.
pub fn text_part<S: ParagraphStore<Kept>>(store: &S, pos: usize, count: usize) -> Option<&[char]>
    requires { All IsLined (S.items store.now) }
    ensures part { option_map (λ part. part.now) result ≡ text_part (S.items store.now) pos count }
    ensures some { 0 < count → IfSome result (λ part. 0 < length part.now) }
{
    let len = store.total_chars();
    if pos > len || count > len - pos {
        return None;
    }
    if count == 0 {
        return Some(&[]);
    }
    let found = store.find_char(pos);
    match store.get(found.index) {
        Some(kept) => Some(front(back(kept.laid().text(), found.rest), count)),
        None => unreachable!(),
    }
}

/// Returns the length in UTF-8 bytes of the `count` characters starting at `pos`. Returns `None` if the range
/// reaches past the end.
pub fn utf8_len<S: ParagraphStore<Kept>>(store: &S, pos: usize, count: usize) -> Option<usize>
    ensures { result ≡ utf8_len (S.items store.now) pos count }
{
    let len = store.total_chars();
    if pos > len || count > len - pos {
        return None;
    }
    let Some(start) = offset_of(store, pos, Encoding::Utf8) else {
        unreachable!()
    };
    let Some(end) = offset_of(store, pos + count, Encoding::Utf8) else {
        unreachable!()
    };
    Some(end - start)
}

/// Writes `count` characters, starting at `pos`, as UTF-8. `before` is the number of bytes already written,
/// and the returned byte count includes it. Stops at the first failed write.
pub fn write_text<S: ParagraphStore<Kept>, W: Sink>(
    store: &S,
    pos: usize,
    count: usize,
    writer: &mut W,
    before: u64,
) -> Result<u64, WriteFault>
    requires lined { All IsLined (S.items store.now) }
    requires within { pos + count ≤ length (text_of (S.items store.now)) }
    requires before { before ≤ (W.state writer.old).passed }
    ensures ok { IfOk result (λ n. PassedOn (utf8_part (S.items store.now) pos count) before
        (W.state writer.old) (W.state writer.new) n) }
    ensures err { IfErr result (λ fault. StoppedIn (utf8_part (S.items store.now) pos count) before
        (W.state writer.old) (W.state writer.new) fault.written) }
    ensures counted { IfOk result (λ n. n ≤ (W.state writer.new).passed) }
{
    // The contract of `total_chars` bounds the number of characters.
    let _chars = store.total_chars();
    let end = pos + count;
    let (mut at, mut written) = (pos, before);
    while at < end {
        let Some(part) = text_part(store, at, end - at) else {
            unreachable!()
        };
        written = write_chars(writer, written, part)?;
        at += part.len();
    }
    Ok(written)
}
