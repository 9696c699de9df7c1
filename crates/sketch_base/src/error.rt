//! The error of every layer of sketches.
ghost use Rattle.std.specs.Prelude.{◌≡◌};
ghost use Rattle.sketch_base.specs.declared.error.ErrorKind.TheVariants.{OutOfMemory};

use std::alloc::{AllocError, AllocFailed};
use std::fmt;
use std::marker::Model;

/// Why a call was refused. Each call documents what holds after a refusal.
#[derive(Debug, Clone, Copy, PartialEq, Eq)]
pub enum ErrorKind {
    /// An argument is outside its range, or belongs to another seed.
    InvalidArgument,
    /// Bytes that were read are not valid at their position, or end too early.
    InvalidData,
    /// The memory that the call requested was refused.
    OutOfMemory,
    /// A policy on summaries refused its arguments.
    Policy,
    /// An earlier refusal left the object half changed; it refuses until it is reset.
    Failed,
}

/// A refusal. It carries only its kind, and contracts see it as its kind.
#[derive(Debug, Drop)]
pub struct Error {
    kind: ErrorKind,
}

impl Model for Error {
    ghost use Rattle.sketch_base.specs.declared.error.ErrorKind.{ErrorKind};

    ghost Value = { ErrorKind };

    ghost view = { λ e. e.kind };

    ghost inverse = { λ kind. record { kind = kind } };
}

impl Error {
    /// The error of this kind.
    pub fn new(kind: ErrorKind) -> Self
        ensures { result ≡ kind }
    {
        Error { kind }
    }

    /// The kind that the error was made with.
    pub fn kind(&self) -> ErrorKind
        ensures { result ≡ self.now }
    {
        self.kind
    }
}

impl fmt::Display for Error {
    ghost use Rattle.std.specs.Prelude.{Some};
    ghost use Rattle.sketch_base.specs.Error.{error_text};

    ghost output = { λ e. Some (error_text e) };

    fn fmt<W: fmt::Write>(&self, f: &mut fmt::Formatter<W>) -> fmt::Result {
        match self.kind {
            ErrorKind::InvalidArgument => {
                f.write_str("an argument is outside its range or belongs to another seed")
            }
            ErrorKind::InvalidData => {
                f.write_str("the bytes are not valid there, or end too early")
            }
            ErrorKind::OutOfMemory => f.write_str("a request for memory was refused"),
            ErrorKind::Policy => f.write_str("a policy on summaries refused its arguments"),
            ErrorKind::Failed => {
                f.write_str("an earlier refusal left it half changed; it refuses until it is reset")
            }
        }
    }
}

impl std::error::Error for Error {}

impl From<AllocError> for Error {
    ghost from_gives = { λ _ e. e ≡ OutOfMemory };

    fn from(_e: AllocError) -> Error {
        Error::new(ErrorKind::OutOfMemory)
    }
}

impl<T: Drop> From<AllocFailed<T>> for Error {
    ghost from_gives = { λ _ e. e ≡ OutOfMemory };

    fn from(_e: AllocFailed<T>) -> Error {
        Error::new(ErrorKind::OutOfMemory)
    }
}
