//! A box, taken apart into its raw pointer and its allocator.
ghost use Rattle.std.specs.Prelude.{◌≡◌};
ghost use Rattle.std.specs.Box.Ownership.{box_owns};

use std::alloc::Allocator;
use std::marker::Model;

pub struct RawBox<T, A: Allocator> {
    pub at: *mut T,
    pub alloc: A,
    pub ghost value: { T },
}

impl<T, A: Allocator> Model for RawBox<T, A> {
    ghost also_owns = { λ l. box_owns (A.dealloc_token l.alloc) T.row l.at l.value };
}

impl<T, A: Allocator> RawBox<T, A> {
    pub fn of(b: Box<T, A>) -> RawBox<T, A>
    where
        T: Drop,
        ensures { result.value ≡ b.value }
    {
        let (at, alloc) = Box::into_raw_with_allocator(b);
        RawBox { at, alloc }
    }

    pub fn into_box(self) -> Box<T, A>
        ensures { result.value ≡ self.value }
    {
        let RawBox { at, alloc } = self;
        unsafe { Box::from_raw(alloc, at) }
    }
}
