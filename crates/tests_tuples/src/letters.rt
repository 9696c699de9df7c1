//! A summary of variable width.

use sketch_base::{Error, ErrorKind, SketchBytes, SketchSlice};
use std::alloc::{Allocator, Global};
use std::marker::Model;
use std::test::Fail;
use tuple_sketches::{CompactTupleSketch, TupleSummaryValue};

/// Up to 255 bytes. Its value in contracts is the bytes.
#[derive(Drop)]
struct Letters {
    bytes: Vec<u8>,
}

impl Model for Letters {
    ghost use Rattle.std.specs.Prelude.{ℕ, List, ◌<◌, length};

    ghost Value = { List ℕ };

    ghost view = { λ s. s.bytes.items };

    ghost invariant = { λ s. length s.bytes.items < 256 };
}

/// One byte with the number of bytes, then the bytes.
impl TupleSummaryValue<Global> for Letters {
    ghost use Rattle.std.specs.Prelude.{◌∷◌, ◌<◌, length};
    ghost use Rattle.tests_tuples.specs.Letters.{SpellsLetters, one_letters, letters_written};

    ghost spells = { SpellsLetters };

    ghost is_value = { λ x. length x < 256 };

    ghost text = { λ x. length x ∷ x };

    fn serialize_size(&self) -> usize {
        1 + self.bytes.len()
    }

    fn serialize_value<B: Allocator>(&self, bytes: &mut SketchBytes<B>) -> Result<(), Error> {
        bytes.write_u8(self.bytes.len() as u8)?;
        bytes.write(&self.bytes)
    }

    fn deserialize_value(alloc: &Global, slice: &mut SketchSlice<'_>) -> Result<Self, Error> {
        let count = slice.read_u8()?;
        let mut bytes = Vec::new(*alloc);
        bytes.resize(count as usize, 0)?;
        slice.read_exact(&mut bytes)?;
        Ok(Letters { bytes })
    }

    ghost one_spelling = { one_letters };

    ghost text_spells = { letters_written };
}

// One key with two letters.
const TWO_LETTERS: &[u8] = &[
    1, 3, 9, 1, 0, 0x1a, 0xcc, 0x93, 5, 0, 0, 0, 0, 0, 0, 0, 2, b'a', b'b',
];

// The hash and the letters of the first entry of an image, or why the bytes are refused.
fn first_of(alloc: Global, bytes: &[u8]) -> Result<Result<(u64, Vec<u8>), ErrorKind>, Error> {
    let sketch = match CompactTupleSketch::<Letters>::deserialize(alloc, bytes) {
        Ok(sketch) => sketch,
        Err(refused) => return Ok(Err(refused.kind())),
    };
    let mut letters = Vec::new(alloc);
    let mut hash = 0;
    if let Some(entry) = sketch.iter().next() {
        hash = entry.hash();
        letters.extend_from_slice(&entry.summary().bytes)?;
    }
    Ok(Ok((hash, letters)))
}

#[test]
fn reads_summaries_of_any_width(rt: HostRuntime) -> Result<(), Fail> {
    let letters = Vec::from_clones(rt.alloc(), b"ab")?;
    assert_eq!(rt; first_of(rt.alloc(), TWO_LETTERS)?, Ok((5, letters)));
    let refused = Err(ErrorKind::InvalidData);
    assert_eq!(rt; first_of(rt.alloc(), &TWO_LETTERS[..18])?, refused);
    Ok(())
}

// The image of the sketch that is read from an image.
fn written_again(alloc: Global, image: &[u8]) -> Result<Vec<u8>, Error> {
    let sketch = CompactTupleSketch::<Letters>::deserialize(alloc, image)?;
    sketch.serialize()
}

#[test]
fn writes_summaries_of_any_width(rt: HostRuntime) -> Result<(), Fail> {
    let written = written_again(rt.alloc(), TWO_LETTERS)?;
    assert_eq!(rt; written.as_slice(), TWO_LETTERS);
    Ok(())
}
