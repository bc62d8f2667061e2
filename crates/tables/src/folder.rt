//! Folders of tables.
ghost use Rattle.std.specs.Prelude.{◌≡◌, ℕ, List, ◌<◌, IfOk, IfErr, MatchOption, ⊤};
ghost use Rattle.ucd.specs.FileNames.{file_name};
ghost use Rattle.tables.specs.Folders.{any_bytes, any_image, image_name, may_fail, IsUnread};

use crate::fault::FolderFault;
use std::alloc::Global;
use std::fs::File;
use std::io;
use std::io::{ErrorKind, Read};
use ucd::file_name;

/// The name of the compiled image in a folder of installed tables.
pub const IMAGE_NAME: &str = "tables.image";

/// A folder of tables. The contracts of the functions that read a folder state which files the tables come
/// from.
pub trait TableFolder {
    // The file with this index in `FILE_NAMES` has these bytes.
    ghost has_file: { Self → ℕ → List ℕ → Type 0 };

    // The file with this index cannot be read.
    ghost cannot_read: { Self → ℕ → Type 0 };

    // The image has these bytes, does not exist, or cannot be read.
    ghost has_image: { Self → List ℕ → Type 0 };

    ghost has_no_image: { Self → Type 0 };

    ghost cannot_read_image: { Self → Type 0 };

    /// Reads the file with this index in `FILE_NAMES`. Fails if the file cannot be read or memory runs out.
    fn file(&self, alloc: Global, index: usize) -> Result<Vec<u8>, FolderFault>
        requires { index < 7 }
        ensures ok { IfOk result (λ bytes. has_file self.now index bytes.items) }
        ensures err { IfErr result (IsUnread (cannot_read self.now index) (file_name index)) };

    /// Reads the image, or returns `None` if there is none. Fails if the image cannot be read or memory runs
    /// out.
    fn image(&self, alloc: Global) -> Result<Option<Vec<u8>>, FolderFault>
        ensures ok { IfOk result (λ image. MatchOption image (has_no_image self.now)
            (λ bytes. has_image self.now bytes.items)) }
        ensures err { IfErr result (IsUnread (cannot_read_image self.now) image_name) };
}

/// A folder in the file system.
#[derive(Drop)]
pub struct DiskFolder<'a> {
    rt: &'a HostRuntime,
    path: &'a str,
}

impl<'a> DiskFolder<'a> {
    /// Returns the folder at a path.
    pub fn new(rt: &'a HostRuntime, path: &'a str) -> DiskFolder<'a> {
        DiskFolder { rt, path }
    }

    fn read(&self, alloc: Global, name: &str) -> io::Result<Vec<u8>> {
        let folder = self.path;
        let path = format!(in alloc; "{folder}/{name}")?;
        let mut file = File::open(self.rt, path.as_str())?;
        let mut bytes = Vec::with_capacity(alloc, capacity_for(&file)?)?;
        file.read_to_end(&mut bytes)?;
        Ok(bytes)
    }
}

// No contract covers the contents of the file system, so these methods are trusted to read the files that
// they name.
impl TableFolder for DiskFolder<'_> {
    ghost has_file = { λ _ index bytes. any_bytes index bytes };

    ghost cannot_read = { λ _ index. may_fail index };

    ghost has_image = { λ _ bytes. any_image bytes };

    ghost has_no_image = { λ _. ⊤ };

    ghost cannot_read_image = { λ _. ⊤ };

    fn file(&self, alloc: Global, index: usize) -> Result<Vec<u8>, FolderFault> {
        let name = file_name(index);
        match self.read(alloc, name) {
            Ok(bytes) => Ok(bytes),
            Err(error) => Err(unread(error.kind(), name)),
        }
    }

    fn image(&self, alloc: Global) -> Result<Option<Vec<u8>>, FolderFault> {
        match self.read(alloc, IMAGE_NAME) {
            Ok(bytes) => Ok(Some(bytes)),
            Err(error) if error.kind() == ErrorKind::NotFound => Ok(None),
            Err(error) => Err(unread(error.kind(), IMAGE_NAME)),
        }
    }
}

// Returns the size of a file plus 1. With this capacity, the vector need not grow for the last read, which
// finds the end of the file. Not inlined, since reading the metadata needs 4 KB of stack.
#[inline(never)]
fn capacity_for(file: &File) -> io::Result<usize> {
    Ok((file.metadata()?.len() as usize).saturating_add(1))
}

fn unread(kind: ErrorKind, name: &'static str) -> FolderFault
    ensures { IsUnread ⊤ name.now result }
{
    if kind == ErrorKind::OutOfMemory {
        FolderFault::Memory
    } else {
        FolderFault::Unread(name)
    }
}
