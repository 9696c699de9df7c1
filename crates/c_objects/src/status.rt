//! Statuses: 0 if a call did what it promises, and otherwise the reason why it did not. The header of C has their
//! numbers and these comments (`bindings/c/make_calls.py`).
ghost use Rattle.std.specs.Prelude.{◌≡◌, ◌≢◌, ◌≤◌};
ghost use Rattle.c_objects.specs.Status.{status_of};

use sketch_base::ErrorKind;

/// The call did what it promises.
pub const OK: u32 = 0;

/// A null pointer, a handle without an object or one that has one already, a number out of range, a sketch of another
/// seed.
pub const INVALID_ARGUMENT: u32 = 1;

/// The bytes begin with no sketch of this seed.
pub const INVALID_DATA: u32 = 2;

/// The memory that the call requested was refused.
pub const OUT_OF_MEMORY: u32 = 3;

/// A sum would be 2^64 or more.
pub const POLICY: u32 = 4;

/// Memory or a sum was refused in an earlier merge; the union refuses all sketches until it is reset.
pub const FAILED: u32 = 5;

/// The buffer is too small; `*length` is the room that is needed.
pub const TOO_SMALL: u32 = 6;

/// The status of a kind of error, from 1 to 5.
pub fn status_of(kind: ErrorKind) -> u32
    ensures status { result ≡ status_of kind }
    ensures refused { result ≢ 0 }
    ensures high { result ≤ 5 }
{
    match kind {
        ErrorKind::InvalidArgument => INVALID_ARGUMENT,
        ErrorKind::InvalidData => INVALID_DATA,
        ErrorKind::OutOfMemory => OUT_OF_MEMORY,
        ErrorKind::Policy => POLICY,
        ErrorKind::Failed => FAILED,
    }
}
