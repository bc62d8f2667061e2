//! Measures the times to make a store of paragraphs, to replace a paragraph at a pseudorandom index, and to
//! search for a character.
ghost use Rattle.std.specs.Prelude.{◌^◌, ◌<◌, if◌then◌else◌};

use crate::edits::StoreKind;
use crate::numbers::Numbers;
use crate::rows::{show_numbers, since};
use anyhow::{Result, bail};
use std::alloc::{AllocError, Global};
use std::ops::Range;
use std::time::Instant;
use store::{Measured, ParagraphStore, TreeStore, VecStore};

// A padded item of a store: a paragraph of one ASCII character and one line, or an empty one without lines.
#[derive(Clone, Copy)]
struct Small {
    has_text: bool,
    _room: [u64; 4],
}

impl Measured for Small {
    ghost chars = { λ item. (if item.has_text then 1 else 0) };

    ghost lines = { λ item. (if item.has_text then 1 else 0) };

    ghost bytes = { λ item. (if item.has_text then 1 else 0) };

    ghost utf16 = { λ item. (if item.has_text then 1 else 0) };

    fn chars(&self) -> usize {
        if self.has_text { 1 } else { 0 }
    }

    fn lines(&self) -> usize {
        if self.has_text { 1 } else { 0 }
    }

    fn bytes(&self) -> usize {
        if self.has_text { 1 } else { 0 }
    }

    fn utf16(&self) -> usize {
        if self.has_text { 1 } else { 0 }
    }
}

// The maximum number of paragraphs in a store.
const LIMIT: usize = 1 << 40;

/// Makes a store of `count` paragraphs, as a list or as a tree, by one replacement in an empty store. Then
/// replaces one paragraph and searches for a character, `times` times each. Prints the time to make the store
/// and the average times of a replacement and of a search, all in nanoseconds, and the average number of
/// nodes that a search visits.
pub fn run(rt: &HostRuntime, kind: StoreKind, count: usize, times: usize) -> Result<()> {
    match kind {
        StoreKind::List => measure(rt, &mut VecStore::new(rt.alloc()), count, times),
        StoreKind::Tree => measure(rt, &mut TreeStore::new(rt.alloc()), count, times),
    }
}

fn measure<S: ParagraphStore<Small>>(
    rt: &HostRuntime,
    store: &mut S,
    count: usize,
    times: usize,
) -> Result<()> {
    let mut numbers = Numbers::new();
    let per = times.max(1) as u64;
    let making = time_to_make(rt, store, count)?;
    let replacing = time_to_replace(rt, store, &mut numbers, times)?;
    let start = Instant::now(rt)?;
    let visits = search_some(store, &mut numbers, times);
    let searching = since(rt, start)?;
    show_numbers(
        rt,
        &[making, replacing / per, searching / per, visits / per],
    )
}

fn time_to_make<S: ParagraphStore<Small>>(
    rt: &HostRuntime,
    store: &mut S,
    count: usize,
) -> Result<u64> {
    let new_items = paragraphs(rt.alloc(), count)?;
    time_to_fill(rt, store, new_items)
}

fn time_to_fill<S: ParagraphStore<Small>>(
    rt: &HostRuntime,
    store: &mut S,
    new_items: Vec<Small>,
) -> Result<u64> {
    let start = Instant::now(rt)?;
    replace(store, 0..0, new_items)?;
    since(rt, start)
}

fn time_to_replace<S: ParagraphStore<Small>>(
    rt: &HostRuntime,
    store: &mut S,
    numbers: &mut Numbers,
    times: usize,
) -> Result<u64> {
    let start = Instant::now(rt)?;
    replace_some(rt.alloc(), store, numbers, times)?;
    since(rt, start)
}

fn replace_some<S: ParagraphStore<Small>>(
    alloc: Global,
    store: &mut S,
    numbers: &mut Numbers,
    times: usize,
) -> Result<()> {
    for _ in 0..times {
        let place = place(numbers, store.count());
        replace(store, place..place + 1, paragraphs(alloc, 1)?)?;
    }
    Ok(())
}

// Searches for characters at pseudorandom positions. Returns how many nodes these searches visit.
fn search_some<S: ParagraphStore<Small>>(store: &S, numbers: &mut Numbers, times: usize) -> u64 {
    let mut visits: u64 = 0;
    for _ in 0..times {
        let total = store.total_chars();
        let pos = place(numbers, total);
        if pos < total {
            visits = visits.wrapping_add(store.find_char(pos).visits as u64);
        }
    }
    visits
}

// Returns a pseudorandom index below `count`, or 0 if `count` is 0.
fn place(numbers: &mut Numbers, count: usize) -> usize
    ensures { result < 2 ^ 63 }
{
    (numbers.next() >> 20) as usize % count.max(1)
}

fn paragraphs(alloc: Global, count: usize) -> Result<Vec<Small>, AllocError> {
    let mut items = Vec::with_capacity(alloc, count)?;
    for _ in 0..count {
        items.push(Small {
            has_text: true,
            _room: [0; 4],
        })?;
    }
    Ok(items)
}

fn replace<S: ParagraphStore<Small>>(
    store: &mut S,
    range: Range<usize>,
    new_items: Vec<Small>,
) -> Result<()> {
    if range.start > range.end || range.end > store.count() {
        bail!("no such paragraph");
    }
    if store.count() > LIMIT || new_items.len() > LIMIT {
        bail!("too many paragraphs");
    }
    match store.replace(range, new_items) {
        Ok(_) => Ok(()),
        Err(_) => bail!("out of memory"),
    }
}
