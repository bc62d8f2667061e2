//! The arguments of the program.
use std::alloc::{AllocError, Global};
use std::{env, io};

/// Returns the arguments after the program's name. Fails if one of them is not UTF-8.
pub fn arguments(rt: &HostRuntime) -> io::Result<Vec<String>> {
    let mut words = env::args(rt)?;
    let _ = words.next();
    Ok(words.collect(rt.alloc())?)
}

/// Returns the arguments as string slices.
pub fn as_texts<'a>(alloc: Global, words: &'a [String]) -> Result<Vec<&'a str>, AllocError> {
    words.iter().map(|word| word.as_str()).collect(alloc)
}

/// Returns the arguments, preceded by `--ucd` and the folder.
pub fn with_folder<'a>(
    alloc: Global,
    folder: &'a str,
    words: &[&'a str],
) -> Result<Vec<&'a str>, AllocError> {
    let mut all = vec![in alloc; "--ucd", folder]?;
    all.extend_from_slice(words)?;
    Ok(all)
}
