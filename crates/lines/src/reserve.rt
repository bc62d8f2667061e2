//! Allocation for reused lists.
ghost use Rattle.std.specs.Prelude.{◌≡◌, ◌≤◌, length, max, OnOk};

use std::alloc::AllocError;

/// Ensures that the capacity of a list is at least `len`, and exactly `len` if the list is new.
pub fn reserve<T>(list: &mut Vec<T>, len: usize) -> Result<(), AllocError>
    ensures { list.new.items ≡ list.old.items }
{
    list.reserve_exact(len.saturating_sub(list.len()))
}

/// Ensures that the length of a list is at least `len`, by appending copies of `item`.
pub fn grow<T: Copy>(list: &mut Vec<T>, len: usize, item: T) -> Result<(), AllocError>
    ensures least { OnOk result (len ≤ length list.new.items) }
    ensures most { OnOk result (length list.new.items ≡ max (length list.old.items) len) }
{
    if list.len() < len {
        reserve(list, len)?;
        list.resize(len, item)?;
    }
    Ok(())
}
