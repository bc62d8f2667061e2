//! Decodes a source that is read in chunks.
ghost use Rattle.std.specs.Prelude.{◌≡◌, ◌+◌, ◌-◌, ◌^◌, ◌++◌, ◌<◌, ◌≤◌, [], ◌∷◌, drop, length, map, take};
ghost use Rattle.std.specs.Prelude.{◌&&◌, ◌||◌, OnErr, OnOk, IfOk, false, if◌then◌else◌, nat_lt, vec_len};
ghost use Rattle.device.specs.Device.{Fails};
ghost use Rattle.stream.specs.declared.reading.TheConstants.{CHUNK};
ghost use Rattle.stream.specs.Utf8.{is_bad};
ghost use Rattle.terminal.specs.Decoding.{good_part, pictures, IsRead, Takes};
ghost use Rattle.terminal.specs.Texts.{picture, without_mark};

use crate::decoding::decode;
use crate::form::Escapes;
use crate::text::picture;
use device::Source;
use std::alloc::{AllocError, Global};
use std::io::ErrorKind;
use stream::{CHUNK, read_to, zeroed};

/// Reads a source in chunks, and decodes them.
pub(crate) struct Decoder {
    // The chunk read last. The first `waiting` bytes of the chunk are the beginning of a character.
    chunk: Vec<u8>,
    waiting: usize,
    // The number of bytes of the input that were decoded: all those before the waiting bytes.
    pub(crate) decoded: u64,
    // Whether a character has been decoded. The first character is dropped if it is U+FEFF.
    started: bool,
}

impl Drop for Decoder {
    fn drop(self) {
        let Decoder {
            chunk: _,
            waiting: _,
            decoded: _,
            started: _,
        } = self;
    }
}

impl Decoder {
    /// Creates a decoder for the start of an input. Allocates a chunk.
    pub(crate) fn new(alloc: Global) -> Result<Decoder, AllocError>
        ensures room { IfOk result (λ decoder. vec_len decoder.chunk ≡ CHUNK) }
        ensures waiting { IfOk result (λ decoder. decoder.waiting ≡ 0) }
        ensures decoded { IfOk result (λ decoder. decoder.decoded ≡ 0) }
        ensures started { IfOk result (λ decoder. decoder.started ≡ false) }
    {
        Ok(Decoder {
            chunk: zeroed(alloc, CHUNK)?,
            waiting: 0,
            decoded: 0,
            started: false,
        })
    }

    /// Reads bytes into the chunk, after the waiting bytes. Returns the number of bytes read, or the error of
    /// the source.
    pub(crate) fn read<R: Source>(&mut self, reader: &mut R) -> Result<usize, ErrorKind>
        requires { self.old.waiting < vec_len self.old.chunk }
        ensures ok { IfOk result (λ n.
            IsRead n self.old self.new (R.state reader.old) (R.state reader.new)) }
        ensures err { OnErr result (Fails (R.state reader.old) (R.state reader.new)) }
        ensures waiting { self.new.waiting ≡ self.old.waiting }
    {
        read_to(reader, &mut self.chunk, self.waiting)
    }

    /// Adds to a list the `len` bytes that were read last.
    pub(crate) fn push_read(&self, len: usize, bytes: &mut Vec<u8>) -> Result<(), AllocError>
        requires { self.now.waiting + len ≤ vec_len self.now.chunk }
        ensures { OnOk result (bytes.new.items ≡ bytes.old.items
            ++ drop self.now.waiting (take (self.now.waiting + len) self.now.chunk.items)) }
    {
        bytes.extend_from_slice(&self.chunk[self.waiting..self.waiting + len])
    }

    /// Decodes the waiting bytes and `len` more bytes, and adds their characters to a text. If `strict`,
    /// stops at the first invalid UTF-8 and drops the rest. Returns whether it stopped. After a failed
    /// allocation, some characters may be missing.
    pub(crate) fn decode(
        &mut self,
        strict: bool,
        escapes: Escapes,
        len: usize,
        text: &mut Vec<char>,
    ) -> Result<bool, AllocError>
        requires room { self.old.waiting + len ≤ vec_len self.old.chunk }
        requires counted { self.old.decoded + (self.old.waiting + len) ≤ 2 ^ 64 - 1 }
        ensures bad { IfOk result (λ stops. stops ≡ (strict
            && is_bad (take (self.old.waiting + len) self.old.chunk.items))) }
        ensures takes { OnOk result (Takes strict escapes
            (good_part strict (take (self.old.waiting + len) self.old.chunk.items))
            self.old self.new text.old.items text.new.items) }
    {
        let filled = self.waiting + len;
        let from = text.len();
        let (n, stops) = decode(&self.chunk[..filled], strict, text)?;
        self.started = start(self.started, text, from);
        show_pictures(escapes, text, from);
        self.keep_bytes(n, end_of(stops, n, filled));
        Ok(stops)
    }

    /// Returns whether `strict` is true and the input has ended inside a character.
    pub(crate) fn is_cut_short(&self, strict: bool) -> bool
        ensures { result ≡ (strict && nat_lt 0 self.now.waiting) }
    {
        strict && self.waiting > 0
    }

    /// Adds U+FFFD to a text if the input has ended inside a character.
    pub(crate) fn finish(&self, text: &mut Vec<char>) -> Result<(), AllocError>
        ensures { OnOk result (text.new.items ≡ text.old.items
            ++ (if nat_lt 0 self.now.waiting then 0xFFFD ∷ [] else [])) }
    {
        push_end(self.waiting, text)
    }

    // Moves the bytes in `start..end`, which are an incomplete character, to the front of the chunk.
    fn keep_bytes(&mut self, start: usize, end: usize)
        requires within { (start ≤ end) × (end ≤ vec_len self.old.chunk) }
        requires counted { self.old.decoded + start ≤ 2 ^ 64 - 1 }
        ensures bytes { take self.new.waiting self.new.chunk.items
            ≡ drop start (take end self.old.chunk.items) }
        ensures room { vec_len self.new.chunk ≡ vec_len self.old.chunk }
        ensures waiting { self.new.waiting ≡ end - start }
        ensures decoded { self.new.decoded ≡ self.old.decoded + start }
        ensures started { self.new.started ≡ self.old.started }
    {
        self.chunk.copy_within(start..end, 0);
        self.waiting = end - start;
        self.decoded += start as u64;
    }
}

// Returns how many of `filled` bytes are not dropped: only the decoded ones if decoding stopped, and
// otherwise all.
fn end_of(stops: bool, decoded: usize, filled: usize) -> usize
    ensures { result ≡ (if stops then decoded else filled) }
{
    if stops { decoded } else { filled }
}

/// Adds U+FFFD to a text unless `waiting`, the byte count of an incomplete character at the end of an input,
/// is 0.
pub(crate) fn push_end(waiting: usize, text: &mut Vec<char>) -> Result<(), AllocError>
    ensures { OnOk result (text.new.items ≡ text.old.items
        ++ (if nat_lt 0 waiting then 0xFFFD ∷ [] else [])) }
{
    if waiting > 0 {
        text.push('\u{fffd}')?;
    }
    Ok(())
}

/// Removes the character at an index of a text if it is U+FEFF, unless characters were decoded before.
/// Returns whether any characters have been decoded by now.
pub(crate) fn start(started: bool, text: &mut Vec<char>, at: usize) -> bool
    requires { at ≤ vec_len text.old }
    ensures text { text.new.items ≡ take at text.old.items
        ++ (if started then drop at text.old.items else without_mark (drop at text.old.items)) }
    ensures started { result ≡ (started || nat_lt at (vec_len text.old)) }
{
    if started {
        return true;
    }
    if at == text.len() {
        return false;
    }
    drop_mark(text, at);
    true
}

// Removes the character at an index of a text if it is U+FEFF.
fn drop_mark(text: &mut Vec<char>, at: usize)
    requires { at < vec_len text.old }
    ensures { text.new.items ≡ take at text.old.items ++ without_mark (drop at text.old.items) }
{
    if text[at] == '\u{feff}' {
        let _mark = text.remove(at);
    }
}

/// Replaces the characters from an index on with the characters that a mode shows for them.
pub(crate) fn show_pictures(escapes: Escapes, text: &mut [char], from: usize)
    requires { from ≤ length text.old }
    ensures { text.new ≡ take from text.old ++ pictures escapes (drop from text.old) }
{
    match escapes {
        Escapes::Keep | Escapes::Strip => (),
        Escapes::Text => {
            let (_, rest) = text.split_at_mut(from);
            put_pictures(rest);
        }
    }
}

fn put_pictures(text: &mut [char])
    ensures { text.new ≡ map picture text.old }
{
    for k in 0..text.len() {
        text[k] = picture(text[k]);
    }
}
