//! Calls that look up characters, and find paragraph boundaries and base levels.
use bidi::{Base, base_level, first_cut, is_cut};
use lines::{Engine, Options};
use oom_calls::Wrong;
use oom_calls::tables::FILES;
use std::alloc::Global;
use ucd::Tables;

const TEXT: [char; 8] = ['a', 'א', '(', '\u{300}', ' ', '\n', '1', '\u{4e00}'];

/// Returns a digest of the calls' results. The results are the same in each round.
pub fn digest(alloc: Global, rounds: u32) -> Result<u64, Wrong> {
    let Ok(tables) = Tables::read(alloc, &FILES) else {
        return Err("no tables");
    };
    let mut sum = 0;
    for _ in 0..rounds {
        sum = of_tables(&tables);
    }
    let engine = Engine::new(tables, Options::default());
    let mut of_engine_sum = 0;
    for _ in 0..rounds {
        of_engine_sum = of_engine(&engine);
    }
    oom_calls::tables::let_go(engine);
    Ok(mixed(sum, of_engine_sum))
}

/// Adds a number to a digest.
pub fn mixed(sum: u64, number: u64) -> u64 {
    sum.wrapping_mul(31).wrapping_add(number)
}

/// Adds a Boolean to a digest.
pub fn mixed_flag(sum: u64, flag: bool) -> u64 {
    mixed(sum, u64::from(flag))
}

/// Adds an optional position to a digest.
pub fn mixed_place(sum: u64, place: Option<usize>) -> u64 {
    match place {
        Some(place) => mixed(sum, (place as u64).wrapping_add(1)),
        None => mixed(sum, 0),
    }
}

fn of_tables(tables: &Tables) -> u64 {
    let mut sum = 0;
    for c in &TEXT {
        sum = mixed(sum, of_character(tables, *c));
    }
    sum = mixed_flag(sum, is_cut(tables, '\n', 'a'));
    sum = mixed_place(sum, first_cut(tables, &TEXT));
    for base in [Base::Rtl, Base::Ltr, Base::WeakRtl, Base::WeakLtr] {
        sum = mixed(sum, u64::from(base_level(tables, &TEXT, base)));
    }
    sum
}

fn of_character(tables: &Tables, c: char) -> u64 {
    let mut sum = mixed(0, tables.bidi_class(c) as u64);
    sum = mixed(sum, tables.line_class(c) as u64);
    sum = match tables.bracket(c) {
        Some(bracket) => mixed_flag(mixed(sum, bracket.pair as u64), bracket.opens),
        None => mixed(sum, 0),
    };
    sum = match tables.mirror(c) {
        Some(mirror) => mixed(sum, mirror as u64),
        None => mixed(sum, 0),
    };
    sum = mixed_flag(sum, tables.is_wide(c));
    sum = mixed_flag(sum, tables.is_mark(c));
    mixed_flag(sum, tables.is_future_pictograph(c))
}

fn of_engine(engine: &Engine) -> u64 {
    let mut sum = mixed_flag(0, engine.is_cut('\n', 'a'));
    sum = mixed_place(sum, engine.first_cut(&TEXT));
    sum = mixed(sum, u64::from(engine.empty_base()));
    sum = mixed(sum, engine.analysed());
    sum = mixed(sum, engine.filled());
    mixed(sum, engine.written())
}
