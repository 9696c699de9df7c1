//! The object behind a pointer: looked at, put in, taken out.
ghost use Rattle.std.specs.Prelude.{◌≡◌, Some, None, IsSome, is_some, option_map};
ghost use Rattle.std.specs.Borrow.{sem, Lends, LendsIf};
ghost use Rattle.c_handles.specs.Calls.{Fills, IsMadeBy, IsRefusedBy, IsRefusedWith};
ghost use Rattle.c_handles.specs.contracts.owned.Owned.{the_row};

use crate::owned::Owned;
use crate::raw_box::RawBox;
use c_objects::status::{INVALID_ARGUMENT, OK, OUT_OF_MEMORY, status_of};
use sketch_base::Error;
use std::alloc::Global;

impl<T> Owned<T> {
    /// Whether there is an object.
    #[inline(always)]
    pub(crate) fn is_filled(&mut self) -> bool
        ensures filled { result ≡ is_some self.old.value }
        ensures unchanged { self.new ≡ self.old }
    {
        !self.at.is_null()
    }

    #[inline(always)]
    fn object(&mut self) -> &mut T
        requires { IsSome self.old.value }
        ensures* writes_back { sem 𝓛 (Lends (the_row T.row) T.row self.entry result (λ w. record { at = self.old.at; value = Some w })) }
        ensures value { Some result.now ≡ self.old.value }
    {
        let at = self.at;
        unsafe { &mut *at }
    }

    /// The object, if there is one.
    #[inline(always)]
    pub fn get(&mut self) -> Option<&mut T>
        ensures* writes_back { sem 𝓛 (LendsIf (the_row T.row) T.row self.entry result (λ w. record { at = self.old.at; value = Some w }) self.old) }
        ensures value { option_map (λ r. r.now) result ≡ self.old.value }
    {
        if self.is_filled() {
            Some(self.object())
        } else {
            None
        }
    }
}

impl<T: Drop> Owned<T> {
    /// Frees the object, if there is one.
    pub fn free(&mut self, alloc: Global)
        ensures { self.new.value ≡ None }
    {
        let _ = std::mem::replace(self, Owned::none()).into_box(alloc);
    }

    /// Puts a new object in, and returns the status: `OK`; `INVALID_ARGUMENT` if there is an object already; the
    /// status in `made` if making the object was refused; `OUT_OF_MEMORY` if memory for it is refused. If refused,
    /// nothing has changed.
    pub fn put_or(&mut self, alloc: Global, made: Result<T, u32>) -> u32
        ensures { Fills (IsMadeBy made) (IsRefusedBy made) self.old.value result self.new.value }
    {
        if self.is_filled() {
            return INVALID_ARGUMENT;
        }
        match made {
            Ok(value) => match Box::new(alloc, value) {
                Ok(boxed) => {
                    let _ = std::mem::replace(self, Owned::of(RawBox::of(boxed))).into_box(alloc);
                    OK
                }
                Err(_) => OUT_OF_MEMORY,
            },
            Err(status) => status,
        }
    }

    /// As `put_or`, for a refusal that is an error.
    pub fn put(&mut self, alloc: Global, made: Result<T, Error>) -> u32
        ensures { Fills (IsMadeBy made) (IsRefusedWith made) self.old.value result self.new.value }
    {
        match made {
            Ok(value) => self.put_or(alloc, Ok(value)),
            Err(error) => self.put_or(alloc, Err(status_of(error.kind()))),
        }
    }
}
