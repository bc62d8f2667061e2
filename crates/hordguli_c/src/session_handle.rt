//! The C handle of a session: null, or the address of a session on the heap.
ghost use Rattle.std.specs.Prelude.{◌≡◌, None, Option, Some};
ghost use Rattle.hordguli_c.specs.Held.{box_held, raw_held};
ghost use Rattle.hordguli_c.specs.SessionHeld.{Value, object_at};

use crate::raw_box::RawBox;
use session::{Kept, Session};
use std::alloc::Global;
use std::marker::Model;
use std::mem::replace;
use std::ptr::null_mut;
use store::TreeStore;

/// The type of session whose address a handle holds.
pub type SessionObject = Session<TreeStore<Kept>>;

/// A handle of a session. Only `of_raw` and `into_raw` use its pointer, and `empty` makes a handle without an
/// object.
#[repr(C)]
pub struct SessionHandle {
    at: *mut u8,
    pub ghost held: { Option Value },
}

impl Model for SessionHandle {
    ghost also_owns = { λ h. object_at h.at h.held };
}

impl SessionHandle {
    fn empty() -> SessionHandle
        ensures { result.held ≡ None }
    {
        SessionHandle { at: null_mut() }
    }

    fn of_raw(raw: RawBox<SessionObject, Global>) -> SessionHandle
        ensures { result.held ≡ Some raw.value }
    {
        let RawBox { at, alloc: _ } = raw;
        SessionHandle { at: at.cast() }
    }

    fn into_raw(self, alloc: Global) -> Option<RawBox<SessionObject, Global>>
        ensures { raw_held result ≡ self.held }
    {
        let SessionHandle { at } = self;
        if at.is_null() {
            None
        } else {
            Some(RawBox {
                at: at.cast(),
                alloc,
            })
        }
    }

    /// Stores an object or `None`, and returns the previous object, or `None` if there was none.
    pub fn swap(
        &mut self,
        alloc: Global,
        object: Option<Box<SessionObject>>,
    ) -> Option<Box<SessionObject>>
        ensures put { self.new.held ≡ box_held object }
        ensures value { self.old.held ≡ box_held result }
    {
        let handle = match object {
            Some(object) => SessionHandle::of_raw(RawBox::of(object)),
            None => SessionHandle::empty(),
        };
        match replace(self, handle).into_raw(alloc) {
            Some(raw) => Some(raw.into_box()),
            None => None,
        }
    }
}
