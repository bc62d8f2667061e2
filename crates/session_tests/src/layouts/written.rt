//! Tests which bytes of a line are written, both to a writer that accepts all of them and to one that fails.
use super::printed::{ALL, LEVELS, PLAIN, UNMIRRORED};
use super::{engine, lay_out};
use device::ToWrite;
use lines::{Engine, Laid, Print, VisualLine, WriteFault};
use std::alloc::Global;
use std::test::Fail;

// Returns whether exactly these bytes are written to a buffer that is large enough, and writing to a smaller
// buffer fails once it is full.
fn writes(line: &VisualLine<'_>, width: u32, print: &Print, bytes: &[u8]) -> bool {
    let mut all_right = bytes.len() <= 64;
    for room in 0..65usize {
        let mut taken = [b'?'; 64];
        let mut writer = ToWrite::new(&mut taken[..room]);
        let result = line.write(&mut writer, width, print);
        drop(writer);
        let len = room.min(bytes.len());
        let (front, rest) = taken.split_at(len);
        let wanted = if room < bytes.len() {
            Err(WriteFault {
                written: room as u64,
            })
        } else {
            Ok(())
        };
        all_right &= result == wanted && front == &bytes[..len] && rest.iter().all(|b| *b == b'?');
    }
    all_right
}

// A width, the print options, and the bytes of the line.
static ROWS: [(u32, Print, &str); 5] = [
    (4, PLAIN, "12)\u{5D0}\n"),
    (7, PLAIN, "   12)\u{5D0}\n"),
    (6, ALL, "  12)\u{5D0}\nRTL\n3 2 0 1\n2 3 1 0\n1 1 2 2\n"),
    (9, UNMIRRORED, "12(\u{5D0}\n"),
    (80, LEVELS, "1 1 2 2\n"),
];

fn writes_all(laid: &Laid, rows: &[(u32, Print, &str)]) -> bool {
    let Some(line) = laid.line(0) else {
        return false;
    };
    let mut all_right = true;
    for (width, print, bytes) in rows {
        all_right &= writes(&line, *width, print, bytes.as_bytes());
    }
    all_right
}

fn writes_rows(alloc: Global, engine: &mut Engine) -> Result<bool, Fail> {
    let laid = lay_out(alloc, engine, "\u{5D0}(12", 80)?;
    Ok(writes_all(&laid, &ROWS))
}

// A line of a right-to-left letter, a bracket and two digits.
#[test]
fn line_is_written_whole_or_up_to_the_writers_failure(rt: HostRuntime) -> Result<(), Fail> {
    let mut engine = engine(rt.alloc(), false)?;
    let result = writes_rows(rt.alloc(), &mut engine);
    drop(engine);
    assert!(rt; result?);
    Ok(())
}
