//! The object of a handle that is read.
ghost use Rattle.std.specs.Prelude.{◌≡◌, ℕ, Option, Some, IsSome, is_some, option_map};
ghost use Rattle.std.specs.Coded.{coded_option};
ghost use Rattle.c_handles.specs.Handle.{reader_owns, reader_lends};
ghost use base.Fml.{Share};
ghost use base.SetCodes.{coded_share};

use std::marker::Model;

/// A pointer to an object that is lent by `&`, or null. Others may have a pointer to the same object.
pub struct Reader<T> {
    pub(crate) at: *const T,
    pub ghost loan: { ℕ },
    pub ghost share: { Share } by { coded_share },
    pub ghost value: { Option T } by { coded_option T.code },
}

impl<T> Model for Reader<T> {
    ghost also_owns = { λ r. reader_owns T.row r.at r.loan r.share r.value };

    ghost also_shares = { λ r _ κ. reader_lends T.row r.at r.loan r.value κ };
}

impl<T> Reader<T> {
    /// Whether there is an object.
    #[inline(always)]
    fn is_filled(&self) -> bool
        ensures { result ≡ is_some self.now.value }
    {
        !self.at.is_null()
    }

    #[inline(always)]
    fn object(&self) -> &T
        requires { IsSome self.now.value }
        ensures { Some result.now ≡ self.now.value }
    {
        unsafe { &*self.at }
    }

    /// The object, if there is one.
    #[inline(always)]
    pub fn get(&self) -> Option<&T>
        ensures { option_map (λ r. r.now) result ≡ self.now.value }
    {
        if self.is_filled() {
            Some(self.object())
        } else {
            None
        }
    }
}
