//! A part of a line that is read in pieces, of which something is collected.
ghost use Rattle.std.specs.Prelude.{◌≡◌, ◌++◌, ◌∷◌, ℕ, List, []};
ghost use Rattle.keys_lines.specs.Keys.{key_of};
ghost use Rattle.keys_lines.specs.declared.key.Key.{Key};
ghost use Rattle.keys_lines.specs.declared.key.Key.TheVariants.{Field};
ghost use Rattle.keys_sums.specs.Parts.{IsOpenPart};

use keys_lines::Key;

/// What is collected of bytes, one after another.
pub(crate) trait Collected: Copy {
    ghost use Rattle.std.specs.Prelude.{◌++◌, ◌∷◌, ℕ, List, []};

    /// It is collected of these bytes.
    ghost is_of: { List ℕ → Self → Type 0 };

    /// What is collected of no byte.
    fn nothing() -> Self
        ensures { is_of [] result };

    /// What is collected of the bytes so far and one more.
    fn with(self, byte: u8) -> Self
        ensures { (bytes : List ℕ) → is_of bytes self → is_of (bytes ++ byte ∷ []) result };
}

/// What is collected of a part of a line, of which some bytes are read, and the number of separators so far. These are
/// counted up to one more than the separators before the part.
#[derive(Clone, Copy)]
pub(crate) struct OpenPart<C> {
    pub(crate) collected: C,
    pub(crate) passed: u64,
}

impl<C: Collected> OpenPart<C> {
    /// The state for a line without bytes yet.
    pub(crate) fn new() -> OpenPart<C>
        ensures { (key : Key) → IsOpenPart C.is_of key [] result }
    {
        OpenPart {
            collected: C::nothing(),
            passed: 0,
        }
    }

    /// What is collected after a separator: that of the first field is forgotten, if the part is another one.
    fn collected_after(self, before: u32) -> C
        ensures { (separator : ℕ) (front : List ℕ)
            → IsOpenPart C.is_of (Field before separator) front self
            → C.is_of (key_of (Field before separator) (front ++ separator ∷ [])) result }
    {
        if self.passed == 0 && before != 0 {
            C::nothing()
        } else {
            self.collected
        }
    }

    /// The state after a separator.
    fn pass(self, before: u32) -> OpenPart<C>
        ensures { (separator : ℕ) (front : List ℕ)
            → IsOpenPart C.is_of (Field before separator) front self
            → IsOpenPart C.is_of (Field before separator) (front ++ separator ∷ []) result }
    {
        let passed = if self.passed <= before as u64 {
            self.passed + 1
        } else {
            self.passed
        };
        OpenPart {
            collected: self.collected_after(before),
            passed,
        }
    }

    /// The state after a byte of a field. It belongs to the part if there was no separator yet, or as many as there are
    /// before the part's field.
    fn put(self, before: u32, separator: u8, byte: u8) -> OpenPart<C>
        ensures { (front : List ℕ)
            → IsOpenPart C.is_of (Field before separator) front self
            → IsOpenPart C.is_of (Field before separator) (front ++ byte ∷ []) result }
    {
        if byte == separator {
            return self.pass(before);
        }
        if self.passed == 0 || self.passed == before as u64 {
            OpenPart {
                collected: self.collected.with(byte),
                passed: self.passed,
            }
        } else {
            self
        }
    }

    /// The state after a byte of a line.
    fn with(self, key: Key, byte: u8) -> OpenPart<C>
        ensures { (front : List ℕ)
            → IsOpenPart C.is_of key front self
            → IsOpenPart C.is_of key (front ++ byte ∷ []) result }
    {
        match key {
            Key::Line => OpenPart {
                collected: self.collected.with(byte),
                passed: self.passed,
            },
            Key::Field(before, separator) => self.put(before, separator, byte),
        }
    }

    /// The state after bytes of a line.
    pub(crate) fn with_bytes(self, key: Key, bytes: &[u8]) -> OpenPart<C>
        ensures { (front : List ℕ)
            → IsOpenPart C.is_of key front self
            → IsOpenPart C.is_of key (front ++ bytes.now) result }
    {
        let mut state = self;
        let mut rest = bytes;
        while let Some((byte, others)) = rest.split_first() {
            state = state.with(key, *byte);
            rest = others;
        }
        state
    }
}
