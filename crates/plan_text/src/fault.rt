//! Why a text has no command.
ghost use Rattle.std.specs.Prelude.{◌≡◌};
ghost use Rattle.plan_text.specs.declared.fault.ReadError.TheVariants.{Memory};

use std::alloc::{AllocError, AllocFailed};

/// Why a text has no command. Lines are numbered from 1.
#[derive(Clone, Copy)]
pub enum Fault {
    /// The number of the first line that is not as wanted; if a line is missing, one past the last line.
    Syntax(u64),
    /// The number of a line that begins a node of one level too many.
    Limit(u64),
    /// Memory was refused.
    Memory,
}

/// Why reading stopped, with the text from the line where it stopped.
#[derive(Drop)]
pub enum ReadError<'a> {
    Memory,
    Syntax(&'a [u8]),
    Limit(&'a [u8]),
}

impl From<AllocError> for ReadError<'_> {
    ghost from_gives = { λ _ e. e ≡ Memory };

    fn from(_e: AllocError) -> Self {
        ReadError::Memory
    }
}

impl<T: Drop> From<AllocFailed<T>> for ReadError<'_> {
    ghost from_gives = { λ _ e. e ≡ Memory };

    fn from(_e: AllocFailed<T>) -> Self {
        ReadError::Memory
    }
}
