//! A sink that wraps a writer of std.
ghost use Rattle.std.specs.Prelude.{◌≡◌};

use crate::{Sink, countable};
use std::io;
use std::io::ErrorKind;

/// A sink that wraps a writer of std. `write` returns the byte count that the writer returns, and fails once
/// 2^64 - 1 bytes have been written.
#[derive(Drop)]
pub struct ToWrite<W> {
    inner: W,
    passed: u64,
    failures: u64,
    failed_at: u64,
}

impl<W: io::Write> ToWrite<W> {
    ghost use Rattle.device.specs.Device.{Fails, fresh_device};
    ghost use Rattle.device.specs.Wrapped.{sink_state};

    pub fn new(inner: W) -> ToWrite<W>
        ensures { sink_state W.contents result ≡ fresh_device (W.contents inner) }
    {
        ToWrite {
            inner,
            passed: 0,
            failures: 0,
            failed_at: 0,
        }
    }

    // Records a failed call, and how many bytes had been written before it.
    fn count_failure(&mut self)
        ensures { Fails (sink_state W.contents self.old) (sink_state W.contents self.new) }
    {
        self.failures = self.failures.saturating_add(1);
        self.failed_at = self.passed;
    }
}

impl<W: io::Write> Sink for ToWrite<W> {
    ghost use Rattle.device.specs.Wrapped.{sink_state};

    ghost state = { sink_state W.contents };

    fn write(&mut self, bytes: &[u8]) -> Result<usize, ErrorKind> {
        let len = countable(self.passed, bytes.len());
        if len == 0 {
            self.count_failure();
            return Err(ErrorKind::QuotaExceeded);
        }
        match self.inner.write(&bytes[..len]) {
            Ok(0) => {
                self.count_failure();
                Ok(0)
            }
            Ok(n) => {
                self.passed += n as u64;
                Ok(n)
            }
            Err(error) => {
                self.count_failure();
                Err(error.kind())
            }
        }
    }
}
