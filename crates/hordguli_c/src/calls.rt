//! A macro for functions that use the object of a handle.

/// Takes the object out of a handle, makes a call with the object, and puts the object back. Returns the
/// number of the call's status, or the number of `Closed` if the handle has no object.
macro_rules! with_object {
    ($handle:ident, $alloc:ident, mut $object:ident, $call:expr) => {
        match $handle.swap($alloc, None) {
            Some(mut $object) => {
                let status = $call;
                $handle.swap($alloc, Some($object));
                number_of(status)
            }
            None => number_of(Status::Closed),
        }
    };
    ($handle:ident, $alloc:ident, $object:ident, $call:expr) => {
        match $handle.swap($alloc, None) {
            Some($object) => {
                let status = $call;
                $handle.swap($alloc, Some($object));
                number_of(status)
            }
            None => number_of(Status::Closed),
        }
    };
}

pub(crate) use with_object;
