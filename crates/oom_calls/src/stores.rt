//! Replaces items of a store.
ghost use Rattle.std.specs.Prelude.{◌^◌, ◌<◌};

use crate::Wrong;
use std::alloc::{AllocError, Global};
use std::ops::Range;
use store::{Measured, ParagraphStore};

// An item with one ASCII character and one line, identified by its name.
#[derive(Clone, Copy, Debug, PartialEq, Eq)]
pub struct Item {
    name: u8,
}

impl Measured for Item {
    ghost chars = { λ _. 1 };

    ghost lines = { λ _. 1 };

    ghost bytes = { λ _. 1 };

    ghost utf16 = { λ _. 1 };

    fn chars(&self) -> usize {
        1
    }

    fn lines(&self) -> usize {
        1
    }

    fn bytes(&self) -> usize {
        1
    }

    fn utf16(&self) -> usize {
        1
    }
}

// The maximum number of items in a store.
const LIMIT: usize = 100;

// A replacement: its range, the names of the new items, the names of all items in the store before the
// replacement, and the names of the replaced items.
struct Replacement {
    start: usize,
    end: usize,
    names: &'static [u8],
    held: &'static [u8],
    taken: &'static [u8],
}

const REPLACEMENTS: [Replacement; 2] = [
    Replacement {
        start: 0,
        end: 0,
        names: &[1, 2, 3, 4, 5, 6, 7, 8],
        held: &[],
        taken: &[],
    },
    Replacement {
        start: 2,
        end: 5,
        names: &[11, 12],
        held: &[1, 2, 3, 4, 5, 6, 7, 8],
        taken: &[3, 4, 5],
    },
];

const AFTER: [u8; 7] = [1, 2, 11, 12, 6, 7, 8];

/// Fills an empty store with eight items, and replaces three of them with two new items.
pub fn try_replace<S: ParagraphStore<Item>>(store: &mut S, alloc: Global) -> Result<(), Wrong> {
    for replacement in &REPLACEMENTS {
        try_one(store, alloc, replacement)?;
    }
    if !holds(store, &AFTER) {
        return Err("other items");
    }
    Ok(())
}

fn try_one<S: ParagraphStore<Item>>(
    store: &mut S,
    alloc: Global,
    replacement: &Replacement,
) -> Result<(), Wrong> {
    let old = replace_twice(store, alloc, replacement)?;
    if !has_names(&old, replacement.taken) {
        return Err("other items taken out");
    }
    Ok(())
}

// Replaces items, and tries again after an allocation failure.
fn replace_twice<S: ParagraphStore<Item>>(
    store: &mut S,
    alloc: Global,
    replacement: &Replacement,
) -> Result<Vec<Item>, Wrong> {
    let new_items = items(alloc, replacement.names)?;
    match replace(store, replacement.start..replacement.end, new_items)? {
        Ok(old) => Ok(old),
        Err(new_items) => replace_again(store, replacement, new_items),
    }
}

// Replaces items again after a failure. First checks that the new items were returned in order, and that the
// store is unchanged.
fn replace_again<S: ParagraphStore<Item>>(
    store: &mut S,
    replacement: &Replacement,
    new_items: Vec<Item>,
) -> Result<Vec<Item>, Wrong> {
    check_refusal(store, replacement, &new_items)?;
    match replace(store, replacement.start..replacement.end, new_items)? {
        Ok(old) => Ok(old),
        Err(_) => Err("refused twice"),
    }
}

fn check_refusal<S: ParagraphStore<Item>>(
    store: &S,
    replacement: &Replacement,
    new_items: &[Item],
) -> Result<(), Wrong> {
    if !has_names(new_items, replacement.names) {
        return Err("other items came back");
    }
    if !holds(store, replacement.held) {
        return Err("changed by a refused call");
    }
    Ok(())
}

// Makes items with these names, and tries again after an allocation failure.
fn items(alloc: Global, names: &[u8]) -> Result<Vec<Item>, Wrong> {
    if let Ok(items) = named(alloc, names) {
        return Ok(items);
    }
    match named(alloc, names) {
        Ok(items) => Ok(items),
        Err(_) => Err("refused twice"),
    }
}

fn named(alloc: Global, names: &[u8]) -> Result<Vec<Item>, AllocError> {
    names.iter().map(|name| Item { name: *name }).collect(alloc)
}

fn has_names(items: &[Item], names: &[u8]) -> bool {
    items.iter().map(|item| item.name).eq(names.iter().copied())
}

fn holds<S: ParagraphStore<Item>>(store: &S, names: &[u8]) -> bool {
    let mut same = store.count() == names.len()
        && store.total_chars() == names.len()
        && store.total_lines() == names.len();
    for (index, name) in names.iter().enumerate() {
        same &= match store.get(index) {
            Some(item) => item.name == *name,
            None => false,
        };
    }
    same
}

// Replaces items. Returns the old items, or the new items after an allocation failure.
fn replace<S: ParagraphStore<Item>>(
    store: &mut S,
    range: Range<usize>,
    new_items: Vec<Item>,
) -> Result<Result<Vec<Item>, Vec<Item>>, Wrong> {
    if range.start > range.end || range.end > store.count() {
        return Err("no such items");
    }
    if store.count() > LIMIT || new_items.len() > LIMIT {
        return Err("too many items");
    }
    match store.replace(range, new_items) {
        Ok(old) => Ok(Ok(old)),
        Err((new_items, _)) => Ok(Err(new_items)),
    }
}
