//! Calls that read the items of a store or exchange their parts.
ghost use Rattle.std.specs.Prelude.{◌≡◌, ◌-◌, ◌^◌, ◌<◌, sum_by};

use crate::texts::mixed;
use oom_calls::Wrong;
use std::alloc::Global;
use store::{Exchange, Measured, ParagraphStore};

/// An item of three ASCII characters and some lines. The part of an item is its number of lines.
#[derive(Drop)]
pub struct Item {
    lines: usize,
}

impl Measured for Item {
    ghost chars = { λ item. 3 };

    ghost lines = { λ item. item.lines };

    ghost bytes = { λ item. 3 };

    ghost utf16 = { λ item. 3 };

    fn chars(&self) -> usize {
        3
    }

    fn lines(&self) -> usize {
        self.lines
    }

    fn bytes(&self) -> usize {
        3
    }

    fn utf16(&self) -> usize {
        3
    }
}

impl Exchange for Item {
    type Part = usize;

    ghost use Rattle.std.specs.Prelude.{refl};

    ghost fits = { λ item part. Unit {0} };

    ghost exchanged = { λ item part. record item { lines = part } };

    ghost handed_out = { λ item part. item.lines };

    fn exchange(&mut self, part: &mut usize) {
        std::mem::swap(&mut self.lines, part);
    }

    ghost keeps_chars = { λ item part fits. refl };

    ghost keeps_bytes = { λ item part fits. refl };

    ghost keeps_utf16 = { λ item part fits. refl };
}

/// Returns a digest of the calls' results. The results are the same in each round.
pub fn digest<S: ParagraphStore<Item> + Drop>(alloc: Global, rounds: u32) -> Result<u64, Wrong> {
    let mut store = S::new(alloc);
    let Ok(items) = vec![in alloc; Item { lines: 1 }, Item { lines: 2 }, Item { lines: 3 }] else {
        return Err("no items");
    };
    if store.replace(0..0, items).is_err() {
        return Err("not put in");
    }
    let Ok(mut parts) = vec![in alloc; 4, 5, 6] else {
        return Err("no parts");
    };
    let mut sum = 0;
    for _ in 0..rounds {
        exchange(&mut store, &mut parts);
        exchange(&mut store, &mut parts);
        sum = mixed(of_store(&store), S::new(alloc).count() as u64);
    }
    Ok(sum)
}

// Returns the sum of the lines, saturating at 2^64−1.
fn sum(parts: &[usize]) -> usize
    ensures { result < 2 ^ 64 - 1 → result ≡ sum_by (λ lines. lines) parts.now }
{
    let mut sum: usize = 0;
    for lines in parts {
        sum = sum.saturating_add(*lines);
    }
    sum
}

// Exchanges the number of lines of each item for its part.
fn exchange<S: ParagraphStore<Item>>(store: &mut S, parts: &mut Vec<usize>) {
    if parts.len() == store.count() && sum(parts) < 1_000_000 {
        store.exchange_all(parts);
    }
}

fn of_store<S: ParagraphStore<Item>>(store: &S) -> u64 {
    let mut sum = mixed(store.count() as u64, store.total_chars() as u64);
    sum = mixed(sum, store.total_lines() as u64);
    for index in 0..4 {
        sum = match store.get(index) {
            Some(item) => mixed(sum, item.lines() as u64),
            None => mixed(sum, 0),
        };
    }
    for pos in 0..store.total_chars() {
        let found = store.find_char(pos);
        sum = mixed(mixed(sum, found.index as u64), found.rest as u64);
    }
    for n in 0..store.total_lines() {
        let found = store.find_line(n);
        sum = mixed(mixed(sum, found.index as u64), found.lines_before as u64);
    }
    sum
}
