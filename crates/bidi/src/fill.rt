//! Fills a range of a slice with a value, and extends lists that are reused.
ghost use Rattle.std.specs.Prelude.{◌≡◌, ◌-◌, ◌≤◌, ◌++◌, length, take, drop, replicate, OnOk};

use std::alloc::AllocError;

/// Sets each item in `start..end` to a value.
pub(crate) fn fill<T: Copy>(items: &mut [T], start: usize, end: usize, value: T)
    requires order { start ≤ end }
    requires within { end ≤ length items.old }
    ensures front { take end items.new ≡ take start items.old ++ replicate (end - start) value }
    ensures rest { drop end items.new ≡ drop end items.old }
{
    if start < end {
        // Most ranges have one item, which is set without a call.
        items[start] = value;
        fill_more(items, start + 1, end, value);
    }
}

fn fill_more<T: Copy>(items: &mut [T], start: usize, end: usize, value: T)
    requires order { start ≤ end }
    requires within { end ≤ length items.old }
    ensures front { take end items.new ≡ take start items.old ++ replicate (end - start) value }
    ensures rest { drop end items.new ≡ drop end items.old }
{
    for at in start..end {
        items[at] = value;
    }
}

/// Appends items to a reused list until it has at least `len` items. Never shortens the list: if it did so
/// for a short paragraph, it would have to fill the list again for a longer one.
pub(crate) fn lengthen<T: Copy>(items: &mut Vec<T>, len: usize, value: T) -> Result<(), AllocError>
    ensures { OnOk result (len ≤ length items.new.items) }
{
    if items.len() < len {
        items.resize(len, value)?;
    }
    Ok(())
}
