//! Texts that come in pieces, whose lines update a sketch.
ghost use Rattle.c_objects.specs.Texts.{IsNewText, UpdatesText, EndsText};
ghost use Rattle.keys_sketches.specs.declared.pieces.OpenText.{OpenText};

use crate::status::{INVALID_ARGUMENT, OK, OUT_OF_MEMORY};
use crate::theta::SeededSketch;
use keys_lines::{Hashing, Key};
use keys_sketches::OpenText;

/// A text of which no byte has come, whose lines are hashed under this seed.
pub fn new_text(seed: u64) -> OpenText
    ensures { IsNewText seed result }
{
    OpenText::new(Hashing {
        key: Key::Line,
        seed,
    })
}

/// Updates a sketch with the lines that end in the next piece of a text. Refused with `INVALID_ARGUMENT` if the text
/// is of another seed; then nothing has changed. Refused with `OUT_OF_MEMORY`; then exactly some first lines of the
/// piece have been inserted, perhaps none, and the text is as before the piece.
pub fn update_text(theta: &mut SeededSketch, text: &mut OpenText, piece: &[u8]) -> u32
    ensures { UpdatesText piece.now text.old theta.old result text.new theta.new }
{
    if text.hashing().seed != theta.seed {
        return INVALID_ARGUMENT;
    }
    match text.add(&mut theta.sketch, piece) {
        Ok(()) => OK,
        Err(_) => OUT_OF_MEMORY,
    }
}

/// Ends a text: updates the sketch with a last line that no LF ends, if it has a byte. Refused with
/// `INVALID_ARGUMENT` if the text is of another seed, and with `OUT_OF_MEMORY`; then nothing has changed.
pub fn end_text(theta: &mut SeededSketch, text: &mut OpenText) -> u32
    ensures { EndsText text.old theta.old result text.new theta.new }
{
    if text.hashing().seed != theta.seed {
        return INVALID_ARGUMENT;
    }
    match text.end(&mut theta.sketch) {
        Ok(()) => OK,
        Err(_) => OUT_OF_MEMORY,
    }
}
