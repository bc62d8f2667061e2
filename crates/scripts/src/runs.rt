//! Finds the script runs of a text.
ghost use Rattle.std.specs.Prelude.{◌≡◌, ◌<◌, length, drop, IfOk, OnErr};
ghost use Rattle.std.specs.List.{prefix_len};
ghost use Rattle.ucd_script.specs.Script.{script_eq};
ghost use Rattle.scripts.specs.Runs.{begins_run, run_from, runs_of, script_at};

use crate::resolving::is_same;
use std::alloc::{AllocError, Global};
use ucd_script::Script;

/// A script run: the `len` characters from position `start` on, all of one script.
#[derive(Clone, Copy)]
pub struct ScriptRun {
    pub start: usize,
    pub len: usize,
    pub script: Script,
}

// Returns whether a run begins at a position.
fn begins_run(scripts: &[Script], k: usize) -> bool
    requires { k < length scripts.now }
    ensures { result ≡ begins_run scripts.now k }
{
    k == 0 || !is_same(scripts[k], scripts[k - 1])
}

// Returns how many consecutive characters, from a position on, have the same script.
fn run_len(scripts: &[Script], start: usize) -> usize
    requires { start < length scripts.now }
    ensures { result ≡ prefix_len (script_eq (script_at scripts.now start)) (drop start scripts.now) }
{
    let script = scripts[start];
    let mut end = start;
    while end < scripts.len() && is_same(script, scripts[end]) {
        end += 1;
    }
    end - start
}

fn run_from(scripts: &[Script], start: usize) -> ScriptRun
    requires { start < length scripts.now }
    ensures { result ≡ run_from scripts.now start }
{
    ScriptRun {
        start,
        len: run_len(scripts, start),
        script: scripts[start],
    }
}

/// Returns the script runs of a text, in the order of the text, given the script of each character. Each run
/// is as long as possible. Needs time proportional to the number of characters.
pub fn script_runs(alloc: Global, scripts: &[Script]) -> Result<Vec<ScriptRun>, AllocError>
    ensures runs { IfOk result (λ runs. runs.items ≡ runs_of scripts.now) }
    ensures memory { OnErr result (0 < length scripts.now) }
{
    let mut runs = Vec::new(alloc);
    for k in 0..scripts.len() {
        if begins_run(scripts, k) {
            runs.push(run_from(scripts, k))?;
        }
    }
    Ok(runs)
}
