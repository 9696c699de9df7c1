//! Texts that come in pieces.
ghost use Rattle.std.specs.Prelude.{◌≡◌, ℕ, List, ◌++◌, None, true, OnOk, OnErr};
ghost use Rattle.core_laws.specs.Refusal.{Refuses};
ghost use Rattle.keys_lines.specs.Lines.{lines_of};
ghost use Rattle.keys_lines.specs.declared.key.Hashing.{Hashing};
ghost use Rattle.keys_sketches.specs.Keys.{LineState, line_state, with_lines};
ghost use Rattle.keys_sketches.specs.Pieces.{HasInserted, IsAtStart, StopsInPiece};

use crate::sketching::{take_block, take_last};
use keys_lines::{Hashing, OpenLine};
use sketch_base::Error;
use std::alloc::Allocator;
use theta_sketches::ThetaSketch;

/// A text that comes in pieces, which may be cut anywhere. Its lines are inserted into a sketch as they end. It keeps
/// the state of the open line's hash, and no byte.
///
/// ```
/// let mut text = OpenText::new(Hashing { key: Key::Line, seed: 9001 });
/// text.add(&mut sketch, b"an")?;
/// text.add(&mut sketch, b"na\nbo")?;
/// text.end(&mut sketch)?;
/// ```
#[derive(Clone, Copy)]
pub struct OpenText {
    hashing: Hashing,
    last: OpenLine,
}

impl OpenText {
    /// A text of which no byte has come, whose lines are hashed in this way.
    pub fn new(hashing: Hashing) -> OpenText
        ensures { IsAtStart hashing result }
    {
        OpenText {
            hashing,
            last: OpenLine::new(hashing),
        }
    }

    /// How its lines are hashed.
    pub fn hashing(&self) -> Hashing
        ensures { result ≡ self.now.hashing }
    {
        self.hashing
    }

    /// Inserts the lines that end in the next piece of the text. The seed of `hashing` should be the sketch's, which
    /// is not checked.
    ///
    /// Refused only with `OutOfMemory`; then the text is as before the piece, and exactly some first lines of the
    /// piece are inserted, perhaps none. The same call may be repeated: a line that was inserted before changes
    /// nothing.
    pub fn add<A: Allocator + Clone>(
        &mut self,
        sketch: &mut ThetaSketch<A>,
        piece: &[u8],
    ) -> Result<(), Error>
        ensures inserted { OnOk result ((start : LineState) (text : List ℕ)
            → HasInserted start text (line_state sketch.old) self.old
            → HasInserted start (text ++ piece.now) (line_state sketch.new) self.new) }
        ensures hashing { self.new.hashing ≡ self.old.hashing }
        ensures err { OnErr result (self.new ≡ self.old) }
        ensures stopped { OnErr result
            (StopsInPiece piece.now (line_state sketch.old) (line_state sketch.new) self.old) }
        ensures refused { Refuses result None true }
    {
        let mut last = self.last;
        take_block(sketch, self.hashing, &mut last, piece)?;
        self.last = last;
        Ok(())
    }

    /// Ends the text: inserts a last line without an LF, if it has a byte. Then all lines of the text are inserted,
    /// and another text may begin.
    ///
    /// Refused only with `OutOfMemory`; then nothing has changed.
    pub fn end<A: Allocator + Clone>(&mut self, sketch: &mut ThetaSketch<A>) -> Result<(), Error>
        ensures inserted { OnOk result ((start : LineState) (text : List ℕ)
            → HasInserted start text (line_state sketch.old) self.old
            → line_state sketch.new ≡ with_lines self.old.hashing start (lines_of text)) }
        ensures again { OnOk result (IsAtStart self.old.hashing self.new) }
        ensures err { OnErr result (self.new ≡ self.old) }
        ensures same { OnErr result (line_state sketch.new ≡ line_state sketch.old) }
        ensures refused { Refuses result None true }
    {
        take_last(sketch, &self.last)?;
        *self = OpenText::new(self.hashing);
        Ok(())
    }
}
