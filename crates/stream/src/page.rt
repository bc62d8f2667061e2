//! A sink that collects bytes in memory.
ghost use Rattle.std.specs.Prelude.{◌≡◌, ◌<◌, ◌++◌, [], length, OnErr, OnOk};

use device::Sink;
use std::alloc::{AllocError, Global};
use std::io::ErrorKind;

/// Bytes that are collected before they are written, so that the writer receives large chunks or nothing at
/// all. As a sink, a page fails only if an allocation fails.
#[derive(Debug, Drop)]
pub struct Page {
    pub bytes: Vec<u8>,
    // The capacity that the first write reserves. The value is 0 after that write.
    room: usize,
    failures: u64,
    failed_at: u64,
}

impl Page {
    /// Creates an empty page. Allocates nothing.
    pub fn new(alloc: Global) -> Page
        ensures { result.bytes.items ≡ [] }
    {
        Page::with_room(alloc, 0)
    }

    /// Creates an empty page whose first write reserves at least `room` bytes. Allocates nothing.
    pub fn with_room(alloc: Global, room: usize) -> Page
        ensures { result.bytes.items ≡ [] }
    {
        Page {
            bytes: Vec::new(alloc),
            room,
            failures: 0,
            failed_at: 0,
        }
    }

    /// Removes all bytes, and keeps the capacity.
    pub fn clear(&mut self)
        ensures { self.new.bytes.items ≡ [] }
    {
        self.bytes.clear();
    }

    /// Returns the bytes.
    pub fn bytes(&self) -> &[u8]
        ensures { result.now ≡ self.now.bytes.items }
    {
        &self.bytes
    }
}

// Appends bytes to a list. Reserves capacity with `reserve_first` before the first bytes.
fn append(bytes: &[u8], room: &mut usize, list: &mut Vec<u8>) -> Result<(), AllocError>
    ensures ok { OnOk result (list.new.items ≡ list.old.items ++ bytes.now) }
    ensures err { OnErr result (list.new.items ≡ list.old.items) }
    ensures memory { OnErr result (0 < length bytes.now) }
{
    if *room > 0 {
        reserve_first(bytes.len(), room, list)?;
    }
    list.extend_from_slice(bytes)
}

// Prepares a list for its first `len` bytes: reserves `room` bytes if `len` is less than `room`, and then
// sets `room` to 0. Does nothing if `len` is 0.
#[inline(never)] // so that later bytes are appended by short code
fn reserve_first(len: usize, room: &mut usize, list: &mut Vec<u8>) -> Result<(), AllocError>
    ensures items { list.new.items ≡ list.old.items }
    ensures memory { OnErr result (0 < len) }
{
    if len == 0 {
        return Ok(());
    }
    if len < *room {
        list.reserve_exact(*room)?;
    }
    *room = 0;
    Ok(())
}

impl Sink for Page {
    ghost use Rattle.stream.specs.Pages.{page_state};

    ghost state = { page_state };

    fn write(&mut self, bytes: &[u8]) -> Result<usize, ErrorKind> {
        match append(bytes, &mut self.room, &mut self.bytes) {
            Ok(()) => Ok(bytes.len()),
            Err(_) => {
                self.failures = self.failures.saturating_add(1);
                self.failed_at = self.bytes.len() as u64;
                Err(ErrorKind::OutOfMemory)
            }
        }
    }
}
