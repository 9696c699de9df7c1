//! A reader of a part.
ghost use Rattle.std.specs.Prelude.{◌≡◌, ℕ, List, ◌-◌, Some, drop};
ghost use Rattle.std.specs.Io.{ReadsAtMost};
ghost use Rattle.std.specs.Io.KnownBytes.{ReadConsumes};
ghost use Rattle.keys_parts.specs.Parts.{part_within};
ghost use Rattle.keys_parts.specs.Stages.{part_remaining};

use crate::places::Places;
use crate::stage::Stage;
use keys_sketches::TextReader;
use std::io;
use std::io::{ErrorKind, Read};

/// A reader of the lines of a text that begin in a range of its places, over a reader of the text. It keeps no byte:
/// a read of it is one read of the other, except that the text before the first line is read past.
///
/// ```
/// let mut reader = Part::new(file, places);
/// ```
#[derive(Drop)]
pub struct Part<R> {
    inner: R,
    stage: Stage,
}

impl<R: Read> Part<R> {
    /// The lines that begin in these places. The reader stands at `places.start()`.
    pub fn new(inner: R, places: Places) -> Part<R>
        ensures { (text : List ℕ)
            → R.remaining inner ≡ Some (drop (places.from - 1) text)
            → part_remaining R.remaining result ≡ Some (part_within places text) }
    {
        let stage = if places.to <= places.from {
            Stage::Ended
        } else if places.from == 0 {
            Stage::Passing(places.to - 1)
        } else {
            Stage::Skipping(places.to - places.from)
        };
        Part { inner, stage }
    }

    /// All that the reader has left.
    pub fn whole(inner: R) -> Part<R>
        ensures { (text : List ℕ)
            → R.remaining inner ≡ Some text
            → part_remaining R.remaining result ≡ Some text }
    {
        Part {
            inner,
            stage: Stage::Whole,
        }
    }
}

impl<R: Read> Read for Part<R> {
    ghost remaining = { part_remaining R.remaining };

    /// A failed or interrupted read of the text is returned, and loses no byte.
    fn read(&mut self, buf: &mut [u8]) -> io::Result<usize>
        ensures bound { ReadsAtMost result buf.new }
        ensures bytes { ReadConsumes (part_remaining R.remaining self.old) (part_remaining R.remaining self.new)
            result buf.new }
    {
        for _ in 0..u64::MAX {
            if self.stage.is_ended() || buf.is_empty() {
                return Ok(0);
            }
            let length = self.inner.read(buf)?;
            if length == 0 {
                return Ok(0);
            }
            let (stage, count) = self.stage.after(&mut buf[..length]);
            self.stage = stage;
            if 0 < count {
                return Ok(count);
            }
        }
        Err(io::Error::from(ErrorKind::Interrupted))
    }
}

impl<R: TextReader> TextReader for Part<R> {
    ghost may_fail = { R.may_fail };

    fn may_fail() -> bool
        ensures { result ≡ R.may_fail }
    {
        R::may_fail()
    }
}
