//! Reads the tables of a program from a folder: from seven files, or from a compiled image.
//!
//! Functions that take no version read tables of Unicode 15.0, except `of_image`, which accepts any version.
#![tactic(auto)]

ghost use Rattle.std.specs.Prelude.{◌≡◌, ℕ, List, IfOk, IfErr, ⊤};
ghost use Rattle.ucd.specs.Imaged.{IsImageOf};
ghost use Rattle.ucd.specs.Images.{IsImageFault};
ghost use Rattle.ucd.specs.Tables.{AreTablesAs};
ghost use Rattle.tables.specs.Folders.{any_bytes, any_image, may_fail, AreFromFiles, AreFromFilesAs};
ghost use Rattle.tables.specs.Folders.{AreInstalled, AreInstalledAs, IsFaultFor, IsFileFault};
ghost use Rattle.tables.specs.Folders.{IsFileFaultAs, IsInstalledFault, IsInstalledFaultAs, IsUnusable};
ghost use Rattle.tables.specs.Folders.{IsUnusableAs};

mod fault;
mod folder;

pub use fault::FolderFault;
pub use folder::{DiskFolder, IMAGE_NAME, TableFolder};
use std::alloc::Global;
use ucd::{ImageFault, Tables, UcdFiles, Version};

/// Reads the tables from the seven files of a folder, as `from_files` does.
pub fn in_folder(rt: &HostRuntime, folder: &str) -> Result<Tables, FolderFault>
    ensures ok { IfOk result (AreFromFiles any_bytes may_fail) }
    ensures err { IfErr result (IsFileFault any_bytes may_fail) }
{
    in_folder_as(rt, Version::V15_0, folder)
}

/// Reads tables of the given version from the seven files of a folder, as `from_files_as` does.
pub fn in_folder_as(rt: &HostRuntime, version: Version, folder: &str) -> Result<Tables, FolderFault>
    ensures ok { IfOk result (AreFromFilesAs any_bytes may_fail version) }
    ensures err { IfErr result (IsFileFaultAs any_bytes may_fail version) }
{
    from_files_as(rt.alloc(), version, &DiskFolder::new(rt, folder))
}

/// Reads the tables of an installed folder, as `from_installed` does.
pub fn installed(rt: &HostRuntime, folder: &str) -> Result<Tables, FolderFault>
    ensures ok { IfOk result (AreInstalled any_bytes may_fail any_image ⊤ ⊤) }
    ensures err { IfErr result (IsInstalledFault any_bytes may_fail any_image ⊤ ⊤) }
{
    installed_as(rt, Version::V15_0, folder)
}

/// Reads tables of the given version from an installed folder, as `from_installed_as` does.
pub fn installed_as(rt: &HostRuntime, version: Version, folder: &str) -> Result<Tables, FolderFault>
    ensures ok { IfOk result (AreInstalledAs any_bytes may_fail any_image ⊤ ⊤ version) }
    ensures err { IfErr result (IsInstalledFaultAs any_bytes may_fail any_image ⊤ ⊤ version) }
{
    from_installed_as(rt.alloc(), version, &DiskFolder::new(rt, folder))
}

/// Reads the tables from the seven files, and never from an image. Reads all files before parsing the first
/// one.
pub fn from_files<F: TableFolder>(alloc: Global, folder: &F) -> Result<Tables, FolderFault>
    ensures ok { IfOk result (AreFromFiles (F.has_file folder.now) (F.cannot_read folder.now)) }
    ensures err { IfErr result (IsFileFault (F.has_file folder.now) (F.cannot_read folder.now)) }
{
    from_files_as(alloc, Version::V15_0, folder)
}

/// Reads tables of the given version from the seven files, as `from_files` does.
pub fn from_files_as<F: TableFolder>(
    alloc: Global,
    version: Version,
    folder: &F,
) -> Result<Tables, FolderFault>
    ensures ok { IfOk result (AreFromFilesAs (F.has_file folder.now) (F.cannot_read folder.now) version) }
    ensures err { IfErr result (IsFileFaultAs (F.has_file folder.now) (F.cannot_read folder.now) version) }
{
    let bidi_class = folder.file(alloc, 0)?;
    let bidi_brackets = folder.file(alloc, 1)?;
    let bidi_mirroring = folder.file(alloc, 2)?;
    let line_break = folder.file(alloc, 3)?;
    let general_category = folder.file(alloc, 4)?;
    let east_asian_width = folder.file(alloc, 5)?;
    let emoji_data = folder.file(alloc, 6)?;
    of_files(
        alloc,
        version,
        &UcdFiles {
            bidi_class: &bidi_class,
            bidi_brackets: &bidi_brackets,
            bidi_mirroring: &bidi_mirroring,
            line_break: &line_break,
            general_category: &general_category,
            east_asian_width: &east_asian_width,
            emoji_data: &emoji_data,
        },
    )
}

/// Reads the tables from the image, or from the seven files if there is no image. If the image cannot be read
/// or used, fails without reading the files.
pub fn from_installed<F: TableFolder>(alloc: Global, folder: &F) -> Result<Tables, FolderFault>
    ensures ok { IfOk result (AreInstalled (F.has_file folder.now) (F.cannot_read folder.now)
        (F.has_image folder.now) (F.has_no_image folder.now) (F.cannot_read_image folder.now)) }
    ensures err { IfErr result (IsInstalledFault (F.has_file folder.now) (F.cannot_read folder.now)
        (F.has_image folder.now) (F.has_no_image folder.now) (F.cannot_read_image folder.now)) }
{
    from_installed_as(alloc, Version::V15_0, folder)
}

/// Reads tables of the given version, as `from_installed` does. Fails with `Image(Version)` if the image is
/// of another version.
pub fn from_installed_as<F: TableFolder>(
    alloc: Global,
    version: Version,
    folder: &F,
) -> Result<Tables, FolderFault>
    ensures ok { IfOk result (AreInstalledAs (F.has_file folder.now) (F.cannot_read folder.now)
        (F.has_image folder.now) (F.has_no_image folder.now) (F.cannot_read_image folder.now) version) }
    ensures err { IfErr result (IsInstalledFaultAs (F.has_file folder.now) (F.cannot_read folder.now)
        (F.has_image folder.now) (F.has_no_image folder.now) (F.cannot_read_image folder.now) version) }
{
    match folder.image(alloc)? {
        Some(bytes) => of_image_as(alloc, version, &bytes),
        None => from_files_as(alloc, version, folder),
    }
}

/// Decodes an image of the given version. Fails with `Image(Version)` if the image is of another version.
pub fn of_image_as(alloc: Global, version: Version, bytes: &[u8]) -> Result<Tables, FolderFault>
    ensures ok { IfOk result (IsImageOf bytes.now) }
    ensures version { IfOk result (λ tables. tables.version ≡ version) }
    ensures err { IfErr result (IsUnusableAs version bytes.now) }
{
    let tables = of_image(alloc, bytes)?;
    if tables.version() == version {
        Ok(tables)
    } else {
        Err(FolderFault::Image(ImageFault::Version))
    }
}

/// Decodes an image of any version. Fails with the first fault of the image, or if memory runs out.
pub fn of_image(alloc: Global, bytes: &[u8]) -> Result<Tables, FolderFault>
    ensures ok { IfOk result (IsImageOf bytes.now) }
    ensures err { IfErr result (IsUnusable bytes.now) }
{
    match Tables::from_image(alloc, bytes) {
        Ok(tables) => Ok(tables),
        Err(fault) => Err(image_fault(fault)),
    }
}

fn image_fault(fault: ImageFault) -> FolderFault
    ensures { (bytes : List ℕ) → IsImageFault bytes fault → IsUnusable bytes result }
{
    match fault {
        ImageFault::Memory => FolderFault::Memory,
        _ => FolderFault::Image(fault),
    }
}

// Parses the contents of the files. Fails with `Table`.
fn of_files(alloc: Global, version: Version, files: &UcdFiles<'_>) -> Result<Tables, FolderFault>
    ensures ok { IfOk result (AreTablesAs version files.now) }
    ensures err { IfErr result (IsFaultFor version files.now) }
{
    match Tables::read_as(alloc, version, files) {
        Ok(tables) => Ok(tables),
        Err(fault) => Err(FolderFault::Table(fault)),
    }
}
