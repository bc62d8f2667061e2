//! The joining types and presentation forms in ArabicShaping.txt and UnicodeData.txt.

use anyhow::{Result, bail};
use std::alloc::Global;
use std::io::{BufWriter, Write};
use std::{fs, io};
use ucd::{Form, JoiningFiles, JoiningTables, JoiningType};

/// Prints the joining types and presentation forms of characters, from the files in a folder. Each line has
/// the joining type of a character if that is not U, or one of its forms.
pub fn print_joining(rt: &HostRuntime, folder: &str) -> Result<()> {
    let tables = read_tables(rt, folder)?;
    write_buffered(rt, &tables)
}

/// Reads the tables from the files in a folder.
pub fn read_tables(rt: &HostRuntime, folder: &str) -> Result<JoiningTables> {
    let arabic_shaping = read_file(rt, folder, "ArabicShaping.txt")?;
    let unicode_data = read_file(rt, folder, "UnicodeData.txt")?;
    let files = JoiningFiles {
        arabic_shaping: &arabic_shaping,
        unicode_data: &unicode_data,
    };
    Ok(JoiningTables::read(rt.alloc(), &files)?)
}

fn read_file(rt: &HostRuntime, folder: &str, name: &str) -> Result<Vec<u8>> {
    let path = format!(in rt.alloc(); "{folder}/{name}")?;
    match fs::read(rt, path.as_str()) {
        Ok(bytes) => Ok(bytes),
        Err(_) => bail!("cannot read {path}"),
    }
}

fn write_buffered(rt: &HostRuntime, tables: &JoiningTables) -> Result<()> {
    let mut output = BufWriter::new(rt.alloc(), io::writer(rt))?;
    write_all(tables, &mut output)
}

fn write_all<W: Write>(tables: &JoiningTables, output: &mut W) -> Result<()> {
    for number in 0..1_114_112_u32 {
        if let Some(c) = char::from_u32(number) {
            write_character(tables, c, output)?;
        }
    }
    Ok(output.flush()?)
}

fn write_character<W: Write>(tables: &JoiningTables, c: char, output: &mut W) -> Result<()> {
    let joining = tables.joining_type(c);
    if joining != JoiningType::NonJoining {
        writeln!(output, "{:x} type {}", c as u32, name_of(joining))?;
    }
    for form in [Form::Isolated, Form::Final, Form::Initial, Form::Medial] {
        if let Some(shown) = tables.presentation_form(c, form) {
            writeln!(output, "{:x} {:?} {:x}", c as u32, form, shown as u32)?;
        }
    }
    Ok(())
}

// Returns the name of a joining type in ArabicShaping.txt.
fn name_of(joining: JoiningType) -> &'static str {
    match joining {
        JoiningType::RightJoining => "R",
        JoiningType::LeftJoining => "L",
        JoiningType::DualJoining => "D",
        JoiningType::JoinCausing => "C",
        JoiningType::NonJoining => "U",
        JoiningType::Transparent => "T",
    }
}
