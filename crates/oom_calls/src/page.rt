//! A buffer that is written to without allocating.
use std::io;
use std::io::Write;

// The capacity of a buffer. All outputs of these tests are shorter.
const ROOM: usize = 512;

/// A buffer, and how many bytes were written to it.
#[derive(Clone, Copy)]
pub struct Printed {
    room: [u8; ROOM],
    len: usize,
}

impl Printed {
    /// Makes an empty buffer.
    pub fn new() -> Printed {
        Printed {
            room: [0; ROOM],
            len: 0,
        }
    }

    pub fn bytes(&self) -> &[u8] {
        self.room.get(..self.len).unwrap_or(&[])
    }

    /// Returns whether the bytes are one of these outputs.
    pub fn is_one_of(&self, pages: &[&[u8]]) -> bool {
        let mut found = false;
        for bytes in pages {
            found |= self.bytes() == *bytes;
        }
        found
    }
}

/// Writes as many bytes to a buffer as fit, and none if it is full.
#[derive(Drop)]
pub struct Writer<'a> {
    pub page: &'a mut Printed,
}

impl Write for Writer<'_> {
    fn write(&mut self, buf: &[u8]) -> io::Result<usize> {
        let written = self.page.len;
        let Some(rest) = self.page.room.get_mut(written..) else {
            return Ok(0);
        };
        let len = rest.len().min(buf.len());
        rest[..len].copy_from_slice(&buf[..len]);
        self.page.len = written.saturating_add(len);
        Ok(len)
    }

    fn flush(&mut self) -> io::Result<()> {
        Ok(())
    }
}
