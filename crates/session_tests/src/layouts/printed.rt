//! Tests that a paragraph is printed as the same bytes in three ways: each line by itself, the whole layout,
//! and the text without a layout.
use super::{engine, lay_out};
use device::ToWrite;
use lines::{Engine, Laid, PARAGRAPH_LIMIT, Print, PrintFault, WriteFault};
use std::alloc::Global;
use std::test::Fail;

pub(super) const PLAIN: Print = Print {
    novisual: false,
    basedir: false,
    ltov: false,
    vtol: false,
    levels: false,
    nopad: false,
    nomirror: false,
};

pub(super) const ALL: Print = Print {
    basedir: true,
    ltov: true,
    vtol: true,
    levels: true,
    ..PLAIN
};

pub(super) const UNMIRRORED: Print = Print {
    nomirror: true,
    nopad: true,
    ..PLAIN
};

pub(super) const LEVELS: Print = Print {
    novisual: true,
    levels: true,
    ..PLAIN
};

const NOTHING: Print = Print {
    novisual: true,
    ..PLAIN
};

const DIRECTION: Print = Print {
    basedir: true,
    ..NOTHING
};

// A paragraph, a width, the print options, and the printed bytes. In some rows, the engine reuses the
// lists of the longer paragraph before.
static ROWS: [(&str, u16, Print, &str); 10] = [
    ("abcdefgh ij kl", 3, PLAIN, "abc\ndef\ngh\nij\nkl\n"),
    (
        "\u{5D0}1 (\u{5D1}",
        2,
        ALL,
        "1\u{5D0}\nRTL\n1 0\n1 0\n1 2\n\u{5D1})\n1 0\n1 0\n1 1\n",
    ),
    ("\u{5D0}1 (\u{5D1}", 2, UNMIRRORED, "1\u{5D0}\n\u{5D1}(\n"),
    ("\u{5D0}1 (\u{5D1}", 2, LEVELS, "1 2\n1 1\n"),
    ("\u{5D0}1 (\u{5D1}", 2, DIRECTION, "RTL\n"),
    ("\u{5D0}1 (\u{5D1}", 2, NOTHING, ""),
    ("\u{627} 12", 6, PLAIN, "  12 \u{627}\n"),
    ("a\u{2028}b", 80, ALL, "a\nLTR\n0\n0\n0\nb\n0\n0\n0\n"),
    ("\n", 1, ALL, "\nLTR\n\n\n\n"),
    ("\n", 1, DIRECTION, "LTR\n"),
];

// Returns whether these bytes were written, and nothing after them.
fn holds(taken: &[u8], bytes: &[u8]) -> bool {
    if bytes.len() > taken.len() {
        return false;
    }
    let (front, rest) = taken.split_at(bytes.len());
    front == bytes && rest.iter().all(|b| *b == b'?')
}

fn write_lines(laid: &Laid, width: u16, print: &Print, taken: &mut [u8]) -> bool {
    let mut writer = ToWrite::new(taken);
    let mut all_right = true;
    for n in 0..laid.line_count() {
        match laid.line(n) {
            Some(line) => all_right &= line.write(&mut writer, u32::from(width), print).is_ok(),
            None => all_right = false,
        }
    }
    all_right
}

fn write_laid(laid: &Laid, width: u16, print: &Print, taken: &mut [u8]) -> bool {
    let mut writer = ToWrite::new(taken);
    laid.write(&mut writer, u32::from(width), print).is_ok()
}

fn write_paragraph(
    alloc: Global,
    engine: &mut Engine,
    text: &[char],
    width: u16,
    print: &Print,
    taken: &mut [u8],
) -> Result<(), PrintFault> {
    let is_long = text.len() > PARAGRAPH_LIMIT;
    if text.is_empty() || is_long || engine.first_cut(text).is_some() || width == 0 {
        return Err(PrintFault::Memory);
    }
    let mut writer = ToWrite::new(taken);
    match engine.write_paragraph(alloc, text, u32::from(width), print, &mut writer) {
        // Nothing was written before the allocation failure, so this can be tried again.
        Err(PrintFault::Memory) => engine.write_paragraph(
            alloc,
            text,
            u32::from(width),
            print,
            &mut writer,
        ),
        result => result,
    }
}

// Returns whether a layout's lines are written as these bytes, both line by line and all at once.
pub(super) fn is_written(laid: &Laid, width: u16, print: &Print, bytes: &[u8]) -> bool {
    let mut by_lines = [b'?'; 64];
    let mut at_once = [b'?'; 64];
    write_lines(laid, width, print, &mut by_lines)
        && write_laid(laid, width, print, &mut at_once)
        && holds(&by_lines, bytes)
        && holds(&at_once, bytes)
}

// Writes a paragraph to a buffer of `room` bytes. Returns whether the buffer has as many of the expected
// bytes as fit, and the call fails exactly if not all of them fit.
fn fills(
    alloc: Global,
    engine: &mut Engine,
    text: &[char],
    width: u16,
    print: &Print,
    bytes: &[u8],
    room: usize,
) -> bool {
    let mut taken = [b'?'; 64];
    let room = room.min(64);
    let result = write_paragraph(alloc, engine, text, width, print, &mut taken[..room]);
    let wanted = if room < bytes.len() {
        Err(PrintFault::Write(WriteFault {
            written: room as u64,
        }))
    } else {
        Ok(())
    };
    result == wanted && holds(&taken, &bytes[..room.min(bytes.len())])
}

// Returns whether `fills` holds for a buffer that is larger than the output, for one of the same size, and
// for one of half the size.
fn fills_each(
    alloc: Global,
    engine: &mut Engine,
    text: &[char],
    width: u16,
    print: &Print,
    bytes: &[u8],
) -> bool {
    let mut all_right = true;
    for room in [64, bytes.len(), bytes.len() / 2] {
        all_right &= fills(alloc, engine, text, width, print, bytes, room);
    }
    all_right
}

fn is_printed(
    alloc: Global,
    engine: &mut Engine,
    text: &str,
    width: u16,
    print: &Print,
    bytes: &[u8],
) -> Result<bool, Fail> {
    let laid = lay_out(alloc, engine, text, width)?;
    let are_written = is_written(&laid, width, print, bytes);
    let are_filled = fills_each(alloc, engine, laid.text(), width, print, bytes);
    drop(laid);
    Ok(are_written & are_filled)
}

pub(super) fn are_printed(
    alloc: Global,
    engine: &mut Engine,
    rows: &[(&str, u16, Print, &str)],
) -> Result<bool, Fail> {
    let mut all_right = true;
    for (text, width, print, bytes) in rows {
        all_right &= is_printed(alloc, engine, text, *width, print, bytes.as_bytes())?;
    }
    Ok(all_right)
}

#[test]
fn each_way_of_printing_gives_the_same_bytes(rt: HostRuntime) -> Result<(), Fail> {
    let mut engine = engine(rt.alloc(), false)?;
    let result = are_printed(rt.alloc(), &mut engine, &ROWS);
    drop(engine);
    assert!(rt; result?);
    Ok(())
}
