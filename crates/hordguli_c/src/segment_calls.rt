//! Functions on the characters of a text, without a session: the ends of grapheme clusters, and script runs.
ghost use Rattle.std.specs.Prelude.{◌≡◌, ◌<◌, length, map, IfOk, OnErr};
ghost use Rattle.lines.specs.Clusters.{ends_in};
ghost use Rattle.hordguli_c.specs.Arrays.{PutsItems};
ghost use Rattle.hordguli_c.specs.Calls.{Asks};
ghost use Rattle.hordguli_c.specs.Segments.{clusters_of, script_run_out, script_runs_of};
ghost use Rattle.hordguli_c.specs.Segments.{PutsScriptRuns, PutsTextClusters};
ghost use Rattle.hordguli_c.specs.Statuses.{Returns};

use crate::arrays::{characters_of, put_ends};
use crate::calls::with_object;
use crate::status::{Status, number_of};
use crate::tables_handle::TablesHandle;
use lines::cluster_ends;
use scripts::{ScriptRun, iso_code, resolve, script_runs};
use std::alloc::{AllocError, Global};
use ucd::Tables;

// Returns where segments end, given for each character whether a segment ends after it. The last segment ends
// at the end of the text.
fn collect_ends(alloc: Global, ends: &[bool]) -> Result<Vec<usize>, AllocError>
    ensures ends { IfOk result (λ found. found.items ≡ ends_in ends.now 0 (length ends.now)) }
    ensures memory { OnErr result (0 < length ends.now) }
{
    let len = ends.len();
    let mut found = Vec::new(alloc);
    for k in 1..len + 1 {
        if k == len || ends[k - 1] {
            found.push(k)?;
        }
    }
    Ok(found)
}

// Returns the ends of a text's grapheme clusters.
#[tactic(auto, unfolding(crate::specs::Segments::clusters_of))]
fn clusters_of(alloc: Global, text: &[char]) -> Result<Vec<usize>, AllocError>
    ensures ends { IfOk result (λ found. found.items ≡ clusters_of text.now) }
    ensures memory { OnErr result (0 < length text.now) }
{
    let ends = cluster_ends(alloc, text)?;
    collect_ends(alloc, &ends)
}

fn find_clusters(
    alloc: Global,
    characters: &[u32],
    array: &mut [usize],
    count: &mut usize,
) -> Status
    ensures { PutsTextClusters characters.now result (array.old, count.old) (array.new, count.new) }
{
    let text = match characters_of(alloc, characters) {
        Ok(text) => text,
        Err(status) => return status,
    };
    match clusters_of(alloc, &text) {
        Ok(ends) => put_ends(&ends, array, count),
        Err(_) => Status::NoMemory,
    }
}

/// Stores the ends of a text's grapheme clusters.
#[unsafe(no_mangle)]
pub extern "C" fn hordguli_core_clusters(
    alloc: Global,
    characters: &[u32],
    array: &mut [usize],
    count: &mut usize,
) -> u32
    ensures { Returns (λ status. PutsTextClusters characters.now status
        (array.old, count.old) (array.new, count.new)) result }
{
    number_of(find_clusters(alloc, characters, array, count))
}

/// A script run (`hordguli_script_run` in C).
#[repr(C)]
#[derive(Clone, Copy)]
pub struct ScriptRunOut {
    pub start: usize,
    pub length: usize,
    pub script: u32,
    pub zero: u32,
}

fn script_run_out(run: ScriptRun) -> ScriptRunOut
    ensures { result ≡ script_run_out run }
{
    ScriptRunOut {
        start: run.start,
        length: run.len,
        script: iso_code(run.script),
        zero: 0,
    }
}

// Returns the script runs of a text.
#[tactic(auto, unfolding(crate::specs::Segments::script_runs_of))]
fn script_runs_of(
    alloc: Global,
    tables: &Tables,
    text: &[char],
) -> Result<Vec<ScriptRun>, AllocError>
    ensures runs { IfOk result (λ runs. runs.items ≡ script_runs_of tables.now text.now) }
    ensures memory { OnErr result (0 < length text.now) }
{
    let scripts = resolve(alloc, tables, text)?;
    script_runs(alloc, &scripts)
}

fn put_each_script_run(runs: &[ScriptRun], array: &mut [ScriptRunOut])
    requires { length array.old ≡ length runs.now }
    ensures { array.new ≡ map script_run_out runs.now }
{
    for k in 0..runs.len() {
        array[k] = script_run_out(runs[k]);
    }
}

// Stores the number of runs, and copies them to an array or, if they do not fit, returns `NoRoom`.
fn put_script_runs(runs: &[ScriptRun], array: &mut [ScriptRunOut], count: &mut usize) -> Status
    ensures { PutsItems (map script_run_out runs.now) result
        (array.old, count.old) (array.new, count.new) }
{
    *count = runs.len();
    if array.len() < runs.len() {
        return Status::NoRoom;
    }
    put_each_script_run(runs, &mut array[..runs.len()]);
    Status::Ok
}

fn find_script_runs(
    alloc: Global,
    tables: &Tables,
    characters: &[u32],
    array: &mut [ScriptRunOut],
    count: &mut usize,
) -> Status
    ensures { PutsScriptRuns characters.now result tables.now
        (array.old, count.old) (array.new, count.new) }
{
    let text = match characters_of(alloc, characters) {
        Ok(text) => text,
        Err(status) => return status,
    };
    match script_runs_of(alloc, tables, &text) {
        Ok(runs) => put_script_runs(&runs, array, count),
        Err(_) => Status::NoMemory,
    }
}

/// Stores the script runs of a text.
#[unsafe(no_mangle)]
pub extern "C" fn hordguli_core_script_runs(
    alloc: Global,
    tables: &mut TablesHandle,
    characters: &[u32],
    array: &mut [ScriptRunOut],
    count: &mut usize,
) -> u32
    ensures unchanged { tables.new.held ≡ tables.old.held }
    ensures runs { Returns (λ status. Asks (PutsScriptRuns characters.now) status tables.old.held
        (array.old, count.old) (array.new, count.new)) result }
{
    with_object!(
        tables,
        alloc,
        object,
        find_script_runs(alloc, object.tables(), characters, array, count)
    )
}
