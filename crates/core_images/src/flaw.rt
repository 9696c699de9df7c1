//! Why bytes are not an image.
ghost use Rattle.std.specs.Prelude.{◌≡◌};
ghost use Rattle.core_images.specs.Head.{named};

use sketch_base::{Error, ErrorKind};

/// Why bytes don't begin with an image that a reader of one family and seed reads: the first reason that applies, in
/// this order.
#[derive(Clone, Copy, Debug, PartialEq, Eq)]
pub enum Flaw {
    /// There are fewer than eight bytes.
    Short,
    /// The image is of this family, and not of the reader's.
    Family(u8),
    /// The image is of this version, which the family's reader doesn't read.
    Version(u8),
    /// The image is flagged as one of numbers with the highest byte first. Readers ignore this flag: it is the flaw of
    /// bytes only if they have one of those below.
    BigEndian,
    /// The preamble hasn't 1 to 3 longs, or the image is of a sketch type that isn't read.
    Malformed,
    /// The image is longer than the bytes, or they end within its preamble.
    Cut,
    /// The image has another seed hash, and isn't that of an empty sketch; or the reader's seed hash is 0, under which
    /// no image is read.
    Seed,
    /// Theta is 0 or greater than `MAX_THETA`.
    Theta,
    /// Hashes repeat, don't ascend though they are flagged so, are 0 or aren't below theta, or the bytes after a hash
    /// spell no summary.
    Damaged,
    /// Bytes follow the image, for a caller that reads one image alone. Readers of this crate ignore them.
    Longer,
}

/// Why an image was not read.
#[derive(Clone, Copy, Debug, PartialEq, Eq)]
pub enum ReadError {
    /// The bytes are no image, for this reason.
    Flawed(Flaw),
    /// Memory was refused. It says nothing of the bytes.
    OutOfMemory,
}

impl From<ReadError> for Error {
    ghost use Rattle.core_images.specs.Read.{kind_of};

    ghost from_gives = { λ reason e. e ≡ kind_of reason };

    fn from(reason: ReadError) -> Error {
        match reason {
            ReadError::Flawed(_) => Error::new(ErrorKind::InvalidData),
            ReadError::OutOfMemory => Error::new(ErrorKind::OutOfMemory),
        }
    }
}

/// The flaw that is reported for this one, if bytes are flagged as an image of numbers with the highest byte first.
pub(crate) fn named(big_endian: bool, flaw: Flaw) -> Flaw
    ensures { result ≡ named big_endian flaw }
{
    match flaw {
        Flaw::Short => Flaw::Short,
        Flaw::Family(family) => Flaw::Family(family),
        Flaw::Version(version) => Flaw::Version(version),
        later => { if big_endian { Flaw::BigEndian } else { later } }
    }
}
