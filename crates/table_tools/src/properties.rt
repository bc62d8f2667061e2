//! The properties of characters in the table files.

use anyhow::Result;
use std::alloc::Global;
use std::io;
use std::io::{BufWriter, Write};
use tables::in_folder_as;
use ucd::{BidiClass, LineDetail, Tables, Version};

/// Prints the properties of characters, from the table files of the given version in a folder. Each line has
/// one property of a character: its bidi class if that is not L, the other bracket of its pair and whether it
/// opens the pair, its mirror, or, if it has a detail, its line breaking class and the detail.
pub fn print_properties(rt: &HostRuntime, version: Version, folder: &str) -> Result<()> {
    let tables = in_folder_as(rt, version, folder)?;
    write_buffered(rt, &tables)
}

fn write_buffered(rt: &HostRuntime, tables: &Tables) -> Result<()> {
    let mut output = BufWriter::new(rt.alloc(), io::writer(rt))?;
    write_all(tables, &mut output)
}

fn write_all<W: Write>(tables: &Tables, output: &mut W) -> Result<()> {
    for number in 0..1_114_112_u32 {
        if let Some(c) = char::from_u32(number) {
            write_properties(tables, c, output)?;
        }
    }
    Ok(output.flush()?)
}

fn write_properties<W: Write>(tables: &Tables, c: char, output: &mut W) -> Result<()> {
    let class = tables.bidi_class(c);
    if class != BidiClass::L {
        writeln!(output, "{:x} class {}", c as u32, name_of(class))?;
    }
    if let Some(bracket) = tables.bracket(c) {
        writeln!(
            output,
            "{:x} bracket {:x} {}",
            c as u32, bracket.pair as u32, bracket.opens
        )?;
    }
    if let Some(mirror) = tables.mirror(c) {
        writeln!(output, "{:x} mirror {:x}", c as u32, mirror as u32)?;
    }
    let detail = tables.line_detail(c);
    if detail != LineDetail::Plain {
        let class = tables.line_class(c);
        writeln!(output, "{:x} line {:?} {:?}", c as u32, class, detail)?;
    }
    Ok(())
}

// Returns FriBidi's name for a class.
fn name_of(class: BidiClass) -> &'static str {
    match class {
        BidiClass::L => "LTR",
        BidiClass::R => "RTL",
        BidiClass::AL => "AL",
        BidiClass::EN => "EN",
        BidiClass::ES => "ES",
        BidiClass::ET => "ET",
        BidiClass::AN => "AN",
        BidiClass::CS => "CS",
        BidiClass::NSM => "NSM",
        BidiClass::BN => "BN",
        BidiClass::B => "BS",
        BidiClass::S => "SS",
        BidiClass::WS => "WS",
        BidiClass::ON => "ON",
        BidiClass::LRE => "LRE",
        BidiClass::LRO => "LRO",
        BidiClass::RLE => "RLE",
        BidiClass::RLO => "RLO",
        BidiClass::PDF => "PDF",
        BidiClass::LRI => "LRI",
        BidiClass::RLI => "RLI",
        BidiClass::FSI => "FSI",
        BidiClass::PDI => "PDI",
    }
}
