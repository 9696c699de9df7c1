//! A reader of a text, whose lines may be passed on as others.
ghost use Rattle.std.specs.Prelude.{◌≡◌};
ghost use Rattle.std.specs.Io.{ReadsAtMost};
ghost use Rattle.std.specs.Io.KnownBytes.{ReadConsumes};
ghost use Rattle.keys_fields.specs.Mapping.{fields_remaining, left_out_of};

use crate::mapped::Mapped;
use keys_sketches::TextReader;
use std::io;
use std::io::Read;

/// A reader of a text: of all its bytes, or of the lines that its lines are passed on as.
///
/// ```
/// let mut reader = Fields::Mapped(Mapped::new(alloc, file, layout)?.choosing(chosen));
/// ```
#[derive(Drop)]
pub enum Fields<R> {
    /// All bytes are passed on.
    Whole(R),
    /// Each line is passed on as another.
    Mapped(Mapped<R>),
}

impl<R: Read> Fields<R> {
    /// How many lines are left out so far, since they add no number; 2^64 - 1 if there are more.
    pub fn left_out(&self) -> u64
        ensures { result ≡ left_out_of self.now }
    {
        match self {
            Fields::Whole(_) => 0,
            Fields::Mapped(mapped) => mapped.left_out(),
        }
    }
}

impl<R: Read> Read for Fields<R> {
    ghost remaining = { fields_remaining R.remaining };

    /// A failed or interrupted read of the text is returned, and loses no byte. A line that can't be passed on is an
    /// error, `InvalidData`. The lines in front of it are still passed on; then each read fails.
    fn read(&mut self, buf: &mut [u8]) -> io::Result<usize>
        ensures bound { ReadsAtMost result buf.new }
        ensures bytes { ReadConsumes (fields_remaining R.remaining self.old) (fields_remaining R.remaining self.new)
            result buf.new }
    {
        match self {
            Fields::Whole(inner) => inner.read(buf),
            Fields::Mapped(mapped) => mapped.read(buf),
        }
    }
}

impl<R: TextReader> TextReader for Fields<R> {
    ghost use Rattle.std.specs.Prelude.{true};

    ghost may_fail = { true };

    /// True, since a line may not be passed on.
    fn may_fail() -> bool {
        true
    }
}
