//! Directional runs in the form in which they are stored.
ghost use Rattle.std.specs.Prelude.{◌≡◌, ◌≤◌, length};
ghost use Rattle.hordguli_c.specs.Arrays.{put, PutsItems};
ghost use Rattle.hordguli_c.specs.Runs.{runs_out};

use crate::status::Status;
use reorder::level_runs;

/// A directional run (`hordguli_run` in C).
#[repr(C)]
#[derive(Clone, Copy)]
pub struct RunOut {
    pub start: usize,
    pub length: usize,
    pub level: u32,
    pub zero: u32,
}

// Returns how many runs these levels after L1 form.
fn run_count(levels: &[u8]) -> usize
    ensures { result ≡ length (runs_out levels.now) }
{
    // There are at most as many runs as levels, and the length of a slice is bounded. So `count` does not
    // overflow.
    let _len = levels.len();
    let mut count = 0;
    for _run in level_runs(levels) {
        count += 1;
    }
    count
}

// Copies the runs that these levels after L1 form to the front of an array.
fn put_each_run(levels: &[u8], array: &mut [RunOut])
    requires { length (runs_out levels.now) ≤ length array.old }
    ensures { array.new ≡ put (runs_out levels.now) array.old }
{
    let mut k = 0;
    for run in level_runs(levels) {
        array[k] = RunOut {
            start: run.start,
            length: run.len,
            level: u32::from(run.level),
            zero: 0,
        };
        k += 1;
    }
}

/// Stores how many runs these levels after L1 form, and copies the runs to an array or, if they do not fit,
/// returns `NoRoom`.
pub fn put_runs(levels: &[u8], array: &mut [RunOut], count: &mut usize) -> Status
    ensures { PutsItems (runs_out levels.now) result (array.old, count.old) (array.new, count.new) }
{
    *count = run_count(levels);
    if array.len() < *count {
        return Status::NoRoom;
    }
    put_each_run(levels, array);
    Status::Ok
}
