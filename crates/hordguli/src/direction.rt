//! Finds the direction of a text before it is shown.

use crate::end::End;
use device::FromRead;
use lines::{Engine, Options};
use std::io::Read;
use terminal::{Escapes, Start, read_start};

/// Reads a text until its direction is known, and sets this direction as the base direction of all paragraphs
/// laid out later. After an error, uses the direction of the text that was read before the error.
pub(crate) fn set_direction<R: Read>(
    rt: &HostRuntime,
    engine: &mut Engine,
    escapes: Escapes,
    input: &mut R,
) -> Result<Start, End> {
    let mut reader = FromRead::new(&mut *input);
    let Ok(start) = read_start(rt.alloc(), &mut reader, engine, escapes) else {
        return Err(End::Memory);
    };
    let options = engine.options();
    engine.set_options(Options {
        base: start.base,
        ..options
    });
    Ok(start)
}
