//! Lines with their letters joined.

use crate::joining_properties::read_tables;
use anyhow::{Result, bail};
use joining::{Joiner, ListedJoiners, join_letters, joining_type};
use std::alloc::Global;
use std::io;
use std::io::{BufRead, BufReader, BufWriter, Write};
use ucd::JoiningTables;

// A character of a line, and its level before L1, which is `None` if X9 removes the character.
#[derive(Clone, Copy)]
struct Given {
    character: char,
    level: Option<u8>,
}

/// Joins the letters of lines, by the files in a folder. Each line of standard input has characters in
/// logical order, for example `644:1 200f:- 627:1`: the code point of each in hexadecimal, and its level, or
/// `-` if X9 removes the character. For each line, prints the code points that it shows.
pub fn print_joined_lines(rt: &HostRuntime, folder: &str) -> Result<()> {
    let tables = read_tables(rt, folder)?;
    write_lines(rt, &tables)
}

fn write_lines(rt: &HostRuntime, tables: &JoiningTables) -> Result<()> {
    let mut output = BufWriter::new(rt.alloc(), io::writer(rt))?;
    for line in BufReader::new(rt.alloc(), rt.reader())?.lines(rt.alloc()) {
        let given = parse_line(rt.alloc(), line?.as_str())?;
        let shown = joined(rt.alloc(), tables, &given)?;
        write_code_points(&shown, &mut output)?;
    }
    Ok(output.flush()?)
}

fn parse_line(alloc: Global, line: &str) -> Result<Vec<Given>> {
    let mut given = Vec::new(alloc);
    for word in line.split_whitespace() {
        given.push(parse_word(word)?)?;
    }
    Ok(given)
}

fn parse_word(word: &str) -> Result<Given> {
    let Some((code, level)) = word.split_once(':') else {
        bail!("'{word}' is not CODE:LEVEL");
    };
    Ok(Given {
        character: parse_character(code)?,
        level: parse_level(level)?,
    })
}

fn parse_character(word: &str) -> Result<char> {
    let character = match u32::from_str_radix(word, 16) {
        Ok(code) => char::from_u32(code),
        Err(_) => None,
    };
    match character {
        Some(character) => Ok(character),
        None => bail!("'{word}' is not a character's code point in hexadecimal"),
    }
}

fn parse_level(word: &str) -> Result<Option<u8>> {
    if word == "-" {
        return Ok(None);
    }
    match u8::from_str_radix(word, 10) {
        Ok(level) => Ok(Some(level)),
        Err(_) => bail!("'{word}' is neither a level from 0 to 255 nor -"),
    }
}

fn joined(alloc: Global, tables: &JoiningTables, given: &[Given]) -> Result<Vec<char>> {
    let joiners: Vec<Joiner> = given
        .iter()
        .map(|one| joiner_of(tables, one))
        .collect(alloc)?;
    let mut characters: Vec<char> = given.iter().map(|one| one.character).collect(alloc)?;
    let mut hidden = vec![in alloc; false; given.len()]?;
    let text = ListedJoiners { joiners: &joiners };
    join_letters(&text, tables, &mut characters, &mut hidden);
    Ok(characters)
}

fn joiner_of(tables: &JoiningTables, given: &Given) -> Joiner {
    Joiner {
        joining: joining_type(tables, given.character),
        level: given.level,
    }
}

fn write_code_points<W: Write>(characters: &[char], output: &mut W) -> Result<()> {
    let mut separator = "";
    for c in characters {
        write!(output, "{separator}{:x}", *c as u32)?;
        separator = " ";
    }
    Ok(writeln!(output)?)
}
