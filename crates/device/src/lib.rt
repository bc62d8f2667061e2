//! Sources and sinks of bytes. Each source or sink counts the bytes transferred and the calls that failed, so
//! a contract can say that an error is returned only if a call failed.
//!
//! A `Source` is read from and a `Sink` is written to. `FromRead` and `ToWrite` wrap std's readers and
//! writers. `write_all` writes all bytes, or returns how many were written before a failure:
//!
//! ```rust
//! let mut sink = ToWrite::new(room); // four bytes
//! assert!(rt; write_all(&mut sink, b"abc") == Ok(()));
//! assert!(rt; write_all(&mut sink, b"de") == Err(1)); // one byte was written
//! ```
#![tactic(auto)]

ghost use Rattle.std.specs.Prelude.{◌≡◌, ◌-◌, ◌^◌, ◌<◌, ◌≤◌, length, min, IfOk};
ghost use Rattle.device.specs.Device.{Reads, Writes};

mod from_read;
mod to_write;
mod writing;

pub use from_read::FromRead;
use std::io::ErrorKind;
pub use to_write::ToWrite;
pub use writing::write_all;

/// A source of bytes.
pub trait Source {
    ghost use Rattle.device.specs.Device.{Device};

    ghost state: { Self → Device };

    /// Reads bytes into the front of `buffer`, which must not be empty, and returns their number. A result of
    /// 0 means that the source has ended. If the read fails, no byte is consumed, and the failure is counted.
    fn read(&mut self, buffer: &mut [u8]) -> Result<usize, ErrorKind>
        requires { 0 < length buffer.old }
        ensures bound { IfOk result (λ n. n ≤ length buffer.new) }
        ensures reads { Reads (state self.old) (state self.new) result buffer.new };
}

/// A sink of bytes.
pub trait Sink {
    ghost use Rattle.device.specs.Device.{Device};

    ghost state: { Self → Device };

    /// Writes bytes from the front of `bytes`, which must not be empty, and returns their number. If the
    /// write fails, no byte is written, and the failure is counted. A call that returns 0 also counts as a
    /// failure.
    fn write(&mut self, bytes: &[u8]) -> Result<usize, ErrorKind>
        requires { 0 < length bytes.now }
        ensures bound { IfOk result (λ n. n ≤ length bytes.now) }
        ensures writes { Writes (state self.old) (state self.new) result bytes.now };
}

// Returns how many of `len` bytes can still be transferred without exceeding the maximum count.
fn countable(passed: u64, len: usize) -> usize
    ensures { result ≡ min len (2 ^ 64 - 1 - passed) }
{
    let room = u64::MAX - passed;
    if room < len as u64 {
        room as usize
    } else {
        len
    }
}
