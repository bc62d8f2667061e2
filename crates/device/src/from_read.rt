//! A source that wraps a reader of std.
ghost use Rattle.std.specs.Prelude.{◌≡◌};

use crate::{Source, countable};
use std::io;
use std::io::ErrorKind;

/// A source that wraps a reader of std. `read` returns the byte count that the reader returns, and fails once
/// 2^64 - 1 bytes have been read.
#[derive(Drop)]
pub struct FromRead<R> {
    inner: R,
    passed: u64,
    failures: u64,
    failed_at: u64,
}

impl<R: io::Read> FromRead<R> {
    ghost use Rattle.device.specs.Device.{Fails, fresh_device};
    ghost use Rattle.device.specs.Wrapped.{source_state};

    pub fn new(inner: R) -> FromRead<R>
        ensures { source_state R.remaining result ≡ fresh_device (R.remaining inner) }
    {
        FromRead {
            inner,
            passed: 0,
            failures: 0,
            failed_at: 0,
        }
    }

    // Records a failed call, and how many bytes had been read before it.
    fn count_failure(&mut self)
        ensures { Fails (source_state R.remaining self.old) (source_state R.remaining self.new) }
    {
        self.failures = self.failures.saturating_add(1);
        self.failed_at = self.passed;
    }
}

impl<R: io::Read> Source for FromRead<R> {
    ghost use Rattle.device.specs.Wrapped.{source_state};

    ghost state = { source_state R.remaining };

    fn read(&mut self, buffer: &mut [u8]) -> Result<usize, ErrorKind> {
        let len = countable(self.passed, buffer.len());
        if len == 0 {
            self.count_failure();
            return Err(ErrorKind::QuotaExceeded);
        }
        match self.inner.read(&mut buffer[..len]) {
            Ok(n) => {
                self.passed += n as u64;
                Ok(n)
            }
            Err(error) => {
                self.count_failure();
                Err(error.kind())
            }
        }
    }
}
