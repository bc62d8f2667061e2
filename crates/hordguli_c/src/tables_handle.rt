//! The C handle of tables: null, or the address of tables on the heap.
ghost use Rattle.std.specs.Prelude.{◌≡◌, None, Option, Some};
ghost use Rattle.hordguli_c.specs.Held.{box_held, raw_held};
ghost use Rattle.hordguli_c.specs.TablesHeld.{Value, object_at};

use crate::raw_box::RawBox;
use crate::tables_object::TablesObject;
use std::alloc::Global;
use std::marker::Model;
use std::mem::replace;
use std::ptr::null_mut;

/// A handle of tables. Only `of_raw` and `into_raw` use its pointer, and `empty` makes a handle without an
/// object.
#[repr(C)]
pub struct TablesHandle {
    at: *mut u8,
    pub ghost held: { Option Value },
}

impl Model for TablesHandle {
    ghost also_owns = { λ h. object_at h.at h.held };
}

// C code may move a handle to another thread.
unsafe impl Send for TablesHandle {}

impl TablesHandle {
    fn empty() -> TablesHandle
        ensures { result.held ≡ None }
    {
        TablesHandle { at: null_mut() }
    }

    fn of_raw(raw: RawBox<TablesObject, Global>) -> TablesHandle
        ensures { result.held ≡ Some raw.value }
    {
        let RawBox { at, alloc: _ } = raw;
        TablesHandle { at: at.cast() }
    }

    fn into_raw(self, alloc: Global) -> Option<RawBox<TablesObject, Global>>
        ensures { raw_held result ≡ self.held }
    {
        let TablesHandle { at } = self;
        if at.is_null() {
            None
        } else {
            Some(RawBox {
                at: at.cast(),
                alloc,
            })
        }
    }

    /// Stores an object or `None`, and returns the previous object, or `None` if there was none.
    pub fn swap(
        &mut self,
        alloc: Global,
        object: Option<Box<TablesObject>>,
    ) -> Option<Box<TablesObject>>
        ensures put { self.new.held ≡ box_held object }
        ensures value { self.old.held ≡ box_held result }
    {
        let handle = match object {
            Some(object) => TablesHandle::of_raw(RawBox::of(object)),
            None => TablesHandle::empty(),
        };
        match replace(self, handle).into_raw(alloc) {
            Some(raw) => Some(raw.into_box()),
            None => None,
        }
    }
}
