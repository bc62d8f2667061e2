//! Reads the start of a text, until the text's direction is known.
ghost use Rattle.std.specs.Prelude.{◌≡◌, ◌+◌, ◌-◌, ◌^◌, ◌≤◌, ◌<◌, ◌++◌, [], None, false, drop, length};
ghost use Rattle.std.specs.Prelude.{take, vec_len};
ghost use Rattle.std.specs.Prelude.{IfOk, Ok, OnOk};
ghost use Rattle.device.specs.Device.{Device};
ghost use Rattle.lines.specs.Engine.{rules_of, SameRules};
ghost use Rattle.lines.specs.Layouts.{Rules};
ghost use Rattle.stream.specs.declared.reading.TheConstants.{CHUNK};
ghost use Rattle.terminal.specs.Directions.{base_by, shown_level};
ghost use Rattle.terminal.specs.RunState.{last_characters};
ghost use Rattle.terminal.specs.Searches.{text_direction, Advances, Continues, HasSearched, Searches};
ghost use Rattle.terminal.specs.Starts.{IsStart};
ghost use Rattle.terminal.specs.declared.direction.TheConstants.{FIRST_CHARACTERS};

use crate::decoder::Decoder;
use crate::direction::{FIRST_CHARACTERS, Searched, known_base, whole_base};
use crate::form::Escapes;
use bidi::Base;
use device::Source;
use lines::Engine;
use std::alloc::{AllocError, Global};

/// The first bytes of a text, and the text's base direction.
#[derive(Drop)]
pub struct Start {
    pub bytes: Vec<u8>,
    pub base: Base,
    /// Whether the text has no more bytes.
    pub is_whole: bool,
}

/// What a search for the direction keeps between two reads.
struct Search {
    decoder: Decoder,
    // The bytes that were read, and the first characters decoded from them: at most `FIRST_CHARACTERS`.
    bytes: Vec<u8>,
    text: Vec<char>,
    // How far the characters were searched.
    searched: Searched,
}

impl Drop for Search {
    fn drop(self) {
        let Search {
            decoder: _,
            bytes: _,
            text: _,
            searched: _,
        } = self;
    }
}

impl Search {
    fn new(alloc: Global) -> Result<Search, AllocError>
        ensures room { IfOk result (λ search. vec_len search.decoder.chunk ≡ CHUNK) }
        ensures waiting { IfOk result (λ search. search.decoder.waiting ≡ 0) }
        ensures decoded { IfOk result (λ search. search.decoder.decoded ≡ 0) }
        ensures started { IfOk result (λ search. search.decoder.started ≡ false) }
        ensures bytes { IfOk result (λ search. search.bytes.items ≡ []) }
        ensures text { IfOk result (λ search. search.text.items ≡ []) }
        ensures searched { IfOk result (λ search. (rules : Rules)
            → HasSearched rules search.searched search.text.items) }
    {
        Ok(Search {
            decoder: Decoder::new(alloc)?,
            bytes: Vec::new(alloc),
            text: Vec::new(alloc),
            searched: Searched::nothing(),
        })
    }

    // Decodes the waiting bytes and the `len` bytes that were read last. Returns the direction, or `None` if
    // it depends on what follows.
    fn advance(
        &mut self,
        alloc: Global,
        engine: &mut Engine,
        escapes: Escapes,
        len: usize,
    ) -> Result<Option<Base>, AllocError>
        requires room { self.old.decoder.waiting + len ≤ vec_len self.old.decoder.chunk }
        requires counted { self.old.decoder.decoded + (self.old.decoder.waiting + len) ≤ 2 ^ 64 - 1 }
        requires few { length self.old.text.items < FIRST_CHARACTERS }
        requires searched { HasSearched (rules_of engine.old) self.old.searched self.old.text.items }
        ensures bytes { OnOk result (self.new.bytes.items ≡ self.old.bytes.items
            ++ drop self.old.decoder.waiting
            (take (self.old.decoder.waiting + len) self.old.decoder.chunk.items)) }
        ensures advances { IfOk result (λ found. Advances (rules_of engine.old) escapes
            (take (self.old.decoder.waiting + len) self.old.decoder.chunk.items) self.old self.new found) }
        ensures rules { SameRules engine.old engine.new }
    {
        self.decoder.push_read(len, &mut self.bytes)?;
        let _stops = self.decoder.decode(false, escapes, len, &mut self.text)?;
        self.text.truncate(FIRST_CHARACTERS);
        match known_base(alloc, engine, &self.text, self.searched)? {
            Ok(base) => Ok(Some(base)),
            Err(searched) => {
                self.searched = searched;
                Ok(None)
            }
        }
    }

    // Returns the direction of an input that has ended.
    fn finish(&mut self, alloc: Global, engine: &mut Engine) -> Result<Base, AllocError>
        requires few { length self.old.text.items < FIRST_CHARACTERS }
        requires searched { HasSearched (rules_of engine.old) self.old.searched self.old.text.items }
        ensures base { IfOk result (λ base. base ≡ text_direction (rules_of engine.old)
            (self.old.text.items ++ last_characters self.old.decoder.waiting)) }
        ensures bytes { self.new.bytes ≡ self.old.bytes }
        ensures rules { SameRules engine.old engine.new }
    {
        self.decoder.finish(&mut self.text)?;
        self.text.truncate(FIRST_CHARACTERS);
        whole_base(alloc, engine, &self.text, self.searched)
    }

    // Reads a chunk. Returns the direction and whether the text has ended, or `None` if the direction is not
    // known yet.
    fn step<R: Source>(
        &mut self,
        alloc: Global,
        reader: &mut R,
        engine: &mut Engine,
        escapes: Escapes,
    ) -> Result<Option<(Base, bool)>, AllocError>
        requires searches { (start : Device)
            × Searches (rules_of engine.old) escapes start (R.state reader.old) self.old }
        ensures continues { IfOk result (λ found. (start : Device)
            → Searches (rules_of engine.old) escapes start (R.state reader.old) self.old
            → Continues (rules_of engine.old) escapes start (R.state reader.new) self.new found) }
        ensures rises { result ≡ Ok None → (R.state reader.old).passed < (R.state reader.new).passed }
        ensures counted { result ≡ Ok None → (R.state reader.new).passed ≤ 2 ^ 64 - 1 }
        ensures rules { SameRules engine.old engine.new }
    {
        let len = match self.decoder.read(reader) {
            Ok(len) => len,
            Err(_) => {
                let base = self.finish(alloc, engine)?;
                return Ok(Some((base, false)));
            }
        };
        if len == 0 {
            let base = self.finish(alloc, engine)?;
            return Ok(Some((base, true)));
        }
        match self.advance(alloc, engine, escapes, len)? {
            Some(base) => Ok(Some((base, false))),
            None => Ok(None),
        }
    }

    fn into_start(self, base: Base, is_whole: bool) -> Start
        ensures bytes { result.bytes ≡ self.bytes }
        ensures base { result.base ≡ base }
        ensures whole { result.is_whole ≡ is_whole }
    {
        let Search {
            decoder: _,
            bytes,
            text: _,
            searched: _,
        } = self;
        Start {
            bytes,
            base,
            is_whole,
        }
    }
}

/// Reads a text until its base direction is known, as `whole_direction` defines it. That is when a paragraph
/// with a strong character has ended, 65,536 characters have been read, or the text has ended. If the source
/// fails first, returns the direction of the text read so far. Decodes the bytes as `run` does if the form is
/// not strict.
///
/// Needs time in proportion to the number of bytes, however few each read returns.
pub fn read_start<R: Source>(
    alloc: Global,
    reader: &mut R,
    engine: &mut Engine,
    escapes: Escapes,
) -> Result<Start, AllocError>
    ensures start { IfOk result (λ start. IsStart (rules_of engine.old) escapes
        start.bytes.items start.base start.is_whole (R.state reader.old) (R.state reader.new)) }
    ensures rules { SameRules engine.old engine.new }
{
    let mut search = Search::new(alloc)?;
    loop {
        if let Some((base, is_whole)) = search.step(alloc, reader, engine, escapes)? {
            return Ok(search.into_start(base, is_whole));
        }
    }
}
