//! Reads a source in chunks.
ghost use Rattle.std.specs.Prelude.{◌≡◌, ◌<◌, length, replicate, vec_len, IfOk, OnErr};
ghost use Rattle.device.specs.Device.{Fails};
ghost use Rattle.stream.specs.Reading.{IsReadTo};

use device::Source;
use std::alloc::{AllocError, Global};
use std::io::ErrorKind;

/// The size of a chunk in bytes: the maximum number of bytes requested from a source at a time.
pub const CHUNK: usize = 65_536;

// Contracts refer to the constant by name, so this checks that it has the value that the documentation
// states.
const _: () = prove!(CHUNK == 65_536);

/// Allocates a buffer of `len` zeros.
pub fn zeroed(alloc: Global, len: usize) -> Result<Vec<u8>, AllocError>
    ensures len { IfOk result (λ buffer. vec_len buffer ≡ len) }
    ensures zeros { IfOk result (λ buffer. buffer.items ≡ replicate len 0) }
{
    vec![in alloc; 0; len]
}

/// Reads bytes into a buffer, starting at index `place`, and returns their number. Calls the source once, and
/// returns its error if it fails.
pub fn read_to<R: Source>(
    reader: &mut R,
    buffer: &mut [u8],
    place: usize,
) -> Result<usize, ErrorKind>
    requires { place < length buffer.old }
    ensures ok { IfOk result (λ n.
        IsReadTo place n buffer.old buffer.new (R.state reader.old) (R.state reader.new)) }
    ensures err { OnErr result (Fails (R.state reader.old) (R.state reader.new)) }
    ensures len { length buffer.new ≡ length buffer.old }
{
    let (_, after) = buffer.split_at_mut(place);
    match reader.read(after) {
        Ok(n) => Ok(n),
        Err(error) => Err(error),
    }
}
