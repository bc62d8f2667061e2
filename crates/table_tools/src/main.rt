//! Tools for the seven table files in a folder.
//!
//! - `table_tools image FOLDER FILE [VERSION]` writes a compiled image of the files in FOLDER to FILE. The
//!   installed command reads such an image, and the C library contains one for each version.
//! - `table_tools properties FOLDER [VERSION]` prints the properties of characters. `tests/fribidi/run`
//!   compares the tables of FriBidi's interface with this output.
//! - `table_tools joining FOLDER` prints the joining types and presentation forms in ArabicShaping.txt and
//!   UnicodeData.txt. `tests/ucd/joining` compares them with its own reading.
//! - `table_tools join FOLDER` joins the letters of lines by these two files. Each line of standard input has
//!   characters in logical order, for example `644:1 627:1`: the code point of each in hexadecimal, and its
//!   level before L1, or `-` if X9 removes the character. For each line, prints the code points that it
//!   shows. `tests/joining/run` compares them with those of other programs.
//!
//! VERSION is the Unicode version of the files, `15.0` (the default) or `17.0`.
#![tactic(auto)]

mod image;
mod joined_lines;
mod joining_properties;
mod properties;

use anyhow::{Result, bail};
use image::write_image;
use joined_lines::print_joined_lines;
use joining_properties::print_joining;
use properties::print_properties;
use std::env;
use ucd::Version;

const USAGE: &str =
    "table_tools image FOLDER FILE [VERSION], properties FOLDER [VERSION], joining FOLDER, join FOLDER";

fn main(rt: HostRuntime) -> Result<()> {
    let words: Vec<String> = env::args(&rt)?.collect(rt.alloc())?;
    run(&rt, &words)
}

fn run(rt: &HostRuntime, words: &[String]) -> Result<()> {
    if let [_, tool, folder, file] = words {
        if tool.as_str() == "image" {
            return write_image(rt, Version::V15_0, folder.as_str(), file.as_str());
        }
        if tool.as_str() == "properties" {
            return print_properties(rt, version_named(file.as_str())?, folder.as_str());
        }
    }
    if let [_, tool, folder, file, version] = words {
        if tool.as_str() == "image" {
            let version = version_named(version.as_str())?;
            return write_image(rt, version, folder.as_str(), file.as_str());
        }
    }
    if let [_, tool, folder] = words {
        if tool.as_str() == "joining" {
            return print_joining(rt, folder.as_str());
        }
        if tool.as_str() == "join" {
            return print_joined_lines(rt, folder.as_str());
        }
        if tool.as_str() == "properties" {
            return print_properties(rt, Version::V15_0, folder.as_str());
        }
    }
    bail!("usage: {USAGE}")
}

// Returns the version with this name, or an error if the name is unknown.
fn version_named(name: &str) -> Result<Version> {
    match name {
        "15.0" => Ok(Version::V15_0),
        "17.0" => Ok(Version::V17_0),
        _ => bail!("unknown version {name}"),
    }
}
