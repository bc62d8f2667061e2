//! Worked examples of characters' scripts, and of script runs.
use crate::files::{FILES, read};
use scripts::{Script, ScriptRun, iso_code, resolve, script_runs};
use std::alloc::{AllocError, Global};
use std::process::Abort;
use std::test::Fail;
use ucd::Tables;

// Texts, and the script of each character by the last letter of its code: Latn, Hebr, Arab, Tibt, Zyyy, Zzzz.
static ROWS: [(&str, &str); 16] = [
    ("", ""),
    ("abc, \u{5D0}.", "nnnnnrr"),
    ("12 + 3", "yyyyyy"),
    ("1 \u{5D0}", "rrr"),
    ("(\u{5D0}) a", "rrrrn"),
    ("a (\u{5D0}) 1", "nnnrnnn"),
    ("a(\u{5D0}[\u{628}]\u{628})", "nnrrbrbn"),
    ("a[\u{5D0}(\u{628}]c", "nnrrbnn"),
    ("a)\u{5D0})", "nnrr"),
    ("a(\u{5D0}))", "nnrnn"),
    ("a(\u{5D0}]\u{628})", "nnrrbn"),
    ("\u{300}a\u{300}\u{5D0}\u{300}", "nnnrr"),
    ("\u{300}1", "yy"),
    ("a\u{F3A}\u{5D0}\u{F3B}\u{300}", "ntrtt"),
    ("\u{E000} \u{378}a", "zzzn"),
    ("(a\u{5D0})", "nnrn"),
];

// 62 and 63 brackets inside a bracket of another script.
static NESTED: [(&str, &str); 2] = [
    (
        "a(\u{5D0}[[[[[[[[[[[[[[[[[[[[[[[[[[[[[[[[[[[[[[[[[[[[[[[[[[[[[[[[[[[[[[)",
        "nnrrrrrrrrrrrrrrrrrrrrrrrrrrrrrrrrrrrrrrrrrrrrrrrrrrrrrrrrrrrrrrrn",
    ),
    (
        "a(\u{5D0}[[[[[[[[[[[[[[[[[[[[[[[[[[[[[[[[[[[[[[[[[[[[[[[[[[[[[[[[[[[[[[[)",
        "nnrrrrrrrrrrrrrrrrrrrrrrrrrrrrrrrrrrrrrrrrrrrrrrrrrrrrrrrrrrrrrrrrr",
    ),
];

// Returns whether the codes end in these letters.
fn are_scripts(scripts: &[Script], letters: &str) -> bool {
    let mut all_right = scripts.len() == letters.chars().count();
    for (script, letter) in scripts.iter().zip(letters.chars()) {
        all_right &= iso_code(*script) % 256 == u32::from(letter);
    }
    all_right
}

// Returns whether the runs follow one another, up to the end of a text, and the script of each run differs
// from the script of the run before it.
fn are_runs(runs: &[ScriptRun], len: usize) -> bool {
    let mut all_right = true;
    let mut start = 0_usize;
    let mut last = None;
    for run in runs {
        let code = Some(iso_code(run.script));
        all_right &= run.start == start && run.len > 0 && code != last;
        start = start.wrapping_add(run.len);
        last = code;
    }
    all_right && start == len
}

fn has_scripts(
    alloc: Global,
    tables: &Tables,
    text: &[char],
    letters: &str,
) -> Result<bool, AllocError> {
    let found: Vec<Script> = resolve(alloc, tables, text)?;
    let runs: Vec<ScriptRun> = script_runs(alloc, &found)?;
    Ok(are_scripts(&found, letters) & are_runs(&runs, text.len()))
}

fn check_each(
    rt: &impl Abort,
    alloc: Global,
    tables: &Tables,
    rows: &[(&str, &str)],
) -> Result<(), AllocError> {
    for (text, letters) in rows {
        let chars: Vec<char> = text.chars().collect(alloc)?;
        let has = has_scripts(alloc, tables, &chars, letters);
        drop(chars);
        let are_right = has?;
        assert!(rt; are_right, "{text:?}");
    }
    Ok(())
}

fn find_runs(rt: &impl Abort, alloc: Global, tables: &Tables) -> Result<(), AllocError> {
    let scripts = resolve(alloc, tables, &['a', '(', 'א', ')', '.'])?;
    let runs = script_runs(alloc, &scripts)?;
    assert!(rt; runs.len() == 3 && runs[1].start == 2 && runs[1].len == 1);
    assert!(rt; iso_code(runs[1].script) == u32::from_be_bytes(*b"Hebr"));
    Ok(())
}

#[test]
fn hebrew_in_brackets_is_a_run(rt: HostRuntime) -> Result<(), Fail> {
    let tables = read(rt.alloc(), &FILES)?;
    let result = find_runs(&rt, rt.alloc(), &tables);
    drop(tables);
    Ok(result?)
}

#[test]
fn texts_have_their_scripts(rt: HostRuntime) -> Result<(), Fail> {
    let tables = read(rt.alloc(), &FILES)?;
    let result = check_each(&rt, rt.alloc(), &tables, &ROWS);
    drop(tables);
    Ok(result?)
}

#[test]
fn innermost_63_brackets_are_matched(rt: HostRuntime) -> Result<(), Fail> {
    let tables = read(rt.alloc(), &FILES)?;
    let result = check_each(&rt, rt.alloc(), &tables, &NESTED);
    drop(tables);
    Ok(result?)
}
