//! A box or none, as a pointer that may be null.
ghost use Rattle.std.specs.Prelude.{◌≡◌, Option, Some, None, option_map};
ghost use Rattle.std.specs.Coded.{coded_option};
ghost use Rattle.c_handles.specs.Handle.{handle_owns};

use crate::raw_box::RawBox;
use std::alloc::Global;
use std::marker::Model;

/// A pointer that owns a box, or is null and owns nothing. It is not `Drop`, so the check refuses a function that
/// forgets one.
pub struct Owned<T> {
    pub(crate) at: *mut T,
    pub ghost value: { Option T } by { coded_option T.code },
}

impl<T> Model for Owned<T> {
    ghost also_owns = { λ s. handle_owns T.row s.at s.value };
}

impl<T> Owned<T> {
    /// The null pointer.
    #[inline(always)]
    pub(crate) fn none() -> Owned<T>
        ensures { result.value ≡ None }
    {
        Owned {
            at: std::ptr::null_mut(),
        }
    }

    /// The pointer of a box.
    #[inline(always)]
    pub(crate) fn of(made: RawBox<T, Global>) -> Owned<T>
        ensures { result.value ≡ Some made.value }
    {
        let RawBox { at, alloc: _ } = made;
        Owned { at }
    }

    /// The box behind the pointer, if it isn't null.
    #[inline(always)]
    pub(crate) fn into_raw_box(self, alloc: Global) -> Option<RawBox<T, Global>>
        ensures { self.value ≡ option_map (λ l. l.value) result }
    {
        let Owned { at } = self;
        if at.is_null() {
            None
        } else {
            Some(RawBox { at, alloc })
        }
    }
}

impl<T: Drop> Owned<T> {
    /// The box, if there is one.
    #[inline(always)]
    pub(crate) fn into_box(self, alloc: Global) -> Option<Box<T>>
        ensures { self.value ≡ option_map (λ b. b.value) result }
    {
        match self.into_raw_box(alloc) {
            Some(raw_box) => Some(raw_box.into_box()),
            None => None,
        }
    }
}
