//! Parses ArabicShaping.txt or UnicodeData.txt line by line.
ghost use Rattle.std.specs.Prelude.{◌≡◌, IfOk, IfErr, OnOk, IsOk};
ghost use Rattle.ucd.specs.Grammar.{lines_of};
ghost use Rattle.ucd.specs.JoiningFiles.{Adds, Holds, IsFaultIn, IsLineCause, file_number, readings};
ghost use Rattle.ucd.specs.JoiningLines.{before_next, claim_in};

use crate::claims::Claims;
use crate::fault::{Cause, TableFault};
use crate::file::FileFault;
use crate::grammar::cut;
use crate::joining_line::{JoiningFile, read_line};
use std::alloc::Global;

impl JoiningFile {
    // Returns the number of the file in a fault.
    fn number(self) -> usize
        ensures { result ≡ file_number self }
    {
        match self {
            JoiningFile::ArabicShaping => 8,
            JoiningFile::UnicodeData => 9,
        }
    }
}

// Parses one line, and adds what it says. Returns the code point of the line if it begins a range. `before`
// is that of the line before it. Fails with the cause if the line is faulty, or with `Memory`.
fn add_line(
    file: JoiningFile,
    before: Option<u32>,
    claims: &mut Claims,
    line: &[u8],
) -> Result<Option<u32>, Cause>
    ensures next { IfOk result (λ next. next ≡ before_next (claim_in file before line.now)) }
    ensures read { IsOk result → IsOk (claim_in file before line.now) }
    ensures adds { OnOk result (Adds claims.old claims.new (claim_in file before line.now)) }
    ensures err { IfErr result (IsLineCause (claim_in file before line.now) claims.old) }
{
    let Some(claim) = read_line(file, before, line)? else {
        return Ok(None);
    };
    claims.add(claim)?;
    if claim.begins {
        Ok(Some(claim.last))
    } else {
        Ok(None)
    }
}

/// Parses a file. Fails at the first faulty line, or if memory runs out.
pub fn read_claims(alloc: Global, file: JoiningFile, text: &[u8]) -> Result<Claims, TableFault>
    ensures ok { IfOk result (Holds (readings file (lines_of text.now))) }
    ensures err { IfErr result (IsFaultIn (file_number file) (readings file (lines_of text.now))) }
{
    let Ok(mut claims) = Claims::new(alloc) else {
        return Err(TableFault::memory());
    };
    let mut line = 0;
    let mut before = None;
    let mut rest = Some(text);
    while let Some(left) = rest {
        let (front, after) = cut(left, b'\n');
        line += 1;
        match add_line(file, before, &mut claims, front) {
            Ok(next) => before = next,
            Err(cause) => {
                return Err(TableFault::in_file(file.number(), FileFault { line, cause }));
            }
        }
        rest = after;
    }
    Ok(claims)
}
