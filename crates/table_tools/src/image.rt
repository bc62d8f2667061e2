//! Compiled images of the table files.

use anyhow::{Result, bail};
use std::alloc::Global;
use std::fs;
use tables::in_folder_as;
use ucd::Version;

/// Compiles the table files of the given version in a folder, and writes the image to a file.
pub fn write_image(rt: &HostRuntime, version: Version, folder: &str, file: &str) -> Result<()> {
    let image = in_folder_as(rt, version, folder)?.to_image(rt.alloc())?;
    if fs::write(rt, file, image).is_err() {
        bail!("cannot write {file}");
    }
    Ok(())
}
