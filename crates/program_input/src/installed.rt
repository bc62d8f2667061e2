//! The folder of the installed table files.
use std::alloc::AllocError;
use std::env::VarError;
use std::io::ErrorKind;
use std::path::{Path, PathBuf};
use std::{env, io};
use ucd::Version;

// The usual folders of a version's table files, which a program searches if it cannot determine its own path.
fn usual_folders(version: Version) -> [&'static str; 2] {
    match version {
        Version::V15_0 => ["/usr/local/share/hordguli/ucd", "/usr/share/hordguli/ucd"],
        Version::V17_0 => [
            "/usr/local/share/hordguli/ucd-17.0",
            "/usr/share/hordguli/ucd-17.0",
        ],
    }
}

/// Returns the folder of a version's installed table files, or `None` if there is none. The folder is at
/// `path`, relative to the program's folder. If `/proc` is not mounted, the program's path is not known. Then
/// this function looks for the program by the name with which it was started. If this fails, it looks for the
/// folder below `/usr/local/share` and `/usr/share`.
pub fn installed_folder(
    rt: &HostRuntime,
    path: &str,
    version: Version,
) -> Result<Option<PathBuf>, AllocError> {
    match env::current_exe(rt) {
        Ok(program) => folder_beside(rt, path, program.as_path()),
        Err(error) if error.kind() == ErrorKind::OutOfMemory => Err(AllocError),
        Err(_) => folder_without_proc(rt, path, version),
    }
}

fn folder_beside(
    rt: &HostRuntime,
    path: &str,
    program: Path<'_>,
) -> Result<Option<PathBuf>, AllocError> {
    let Some(beside) = program.parent() else {
        return Ok(None);
    };
    let folder = beside.join(rt.alloc(), path)?;
    if folder.is_dir(rt) {
        Ok(Some(folder))
    } else {
        Ok(None)
    }
}

fn folder_without_proc(
    rt: &HostRuntime,
    path: &str,
    version: Version,
) -> Result<Option<PathBuf>, AllocError> {
    match folder_by_arguments(rt, path)? {
        Some(folder) => Ok(Some(folder)),
        None => usual_folder(rt, version),
    }
}

fn folder_by_arguments(rt: &HostRuntime, path: &str) -> Result<Option<PathBuf>, AllocError> {
    let mut words = match env::args(rt) {
        Ok(words) => words,
        Err(error) => return none_or_memory(&error),
    };
    match words.next() {
        Some(name) if name.contains('/') => folder_beside_link(rt, path, Path::new(&name)),
        Some(name) => folder_by_search(rt, path, &name),
        None => Ok(None),
    }
}

// Searches the folders of `PATH` for the program, as the shell that started it did. Returns the folder of the
// tables, or `None` if there is none. An empty part of `PATH` is the current folder, as in POSIX.
fn folder_by_search(
    rt: &HostRuntime,
    path: &str,
    name: &str,
) -> Result<Option<PathBuf>, AllocError> {
    let folders = match env::var(rt, "PATH") {
        Ok(folders) => folders,
        Err(VarError::OutOfMemory) => return Err(AllocError),
        Err(_) => return Ok(None),
    };
    for folder in env::split_paths(&folders) {
        let program = folder.join(rt.alloc(), name)?;
        if let Some(found) = folder_beside_link(rt, path, program.as_path())? {
            return Ok(Some(found));
        }
    }
    Ok(None)
}

// Returns the folder of the tables, or `None` if there is none, given a path of the program that may be a
// symbolic link.
fn folder_beside_link(
    rt: &HostRuntime,
    path: &str,
    program: Path<'_>,
) -> Result<Option<PathBuf>, AllocError> {
    match program.canonicalize(rt) {
        Ok(program) => folder_beside(rt, path, program.as_path()),
        Err(error) => none_or_memory(&error),
    }
}

fn none_or_memory(error: &io::Error) -> Result<Option<PathBuf>, AllocError> {
    if error.kind() == ErrorKind::OutOfMemory {
        Err(AllocError)
    } else {
        Ok(None)
    }
}

fn usual_folder(rt: &HostRuntime, version: Version) -> Result<Option<PathBuf>, AllocError> {
    for folder in usual_folders(version) {
        let folder = Path::new(folder);
        if folder.is_dir(rt) {
            return Ok(Some(folder.to_path_buf(rt.alloc())?));
        }
    }
    Ok(None)
}
