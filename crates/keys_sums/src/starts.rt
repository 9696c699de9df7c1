//! How a text starts.
ghost use Rattle.std.specs.Prelude.{◌≡◌, ℕ, List, []};
ghost use Rattle.keys_lines.specs.declared.key.Key.{Key};
ghost use Rattle.keys_sums.specs.Parts.{bytes_of, IsOpenPart, IsStart};

use crate::parts::{Collected, OpenPart};

/// The most bytes that are kept of a text.
pub const START: usize = 65;

/// How a text starts: its first 65 bytes, or all if it has fewer.
#[derive(Clone, Copy, Debug)]
pub struct ValueStart {
    kept: [u8; START],
    count: usize,
}

impl ValueStart {
    /// The bytes.
    pub fn as_bytes(&self) -> &[u8]
        ensures { result.now ≡ bytes_of self.now }
    {
        &self.kept[..self.count.min(START)]
    }
}

impl Collected for ValueStart {
    ghost use Rattle.keys_sums.specs.Parts.{IsStart};

    ghost is_of = { IsStart };

    fn nothing() -> ValueStart {
        ValueStart {
            kept: [0; START],
            count: 0,
        }
    }

    fn with(self, byte: u8) -> ValueStart {
        if self.count >= START {
            return self;
        }
        let mut kept = self.kept;
        kept[self.count] = byte;
        ValueStart {
            kept,
            count: self.count + 1,
        }
    }
}

impl OpenPart<ValueStart> {
    /// Begins a line without bytes yet.
    pub(crate) fn clear(&mut self)
        ensures { (key : Key) → IsOpenPart IsStart key [] self.new }
    {
        self.collected.count = 0;
        self.passed = 0;
    }
}
