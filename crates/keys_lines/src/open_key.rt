//! The key of a line that has begun.
ghost use Rattle.std.specs.Prelude.{◌≡◌, ℕ, List, [], ◌++◌, ◌∷◌};
ghost use Rattle.sketch_base.specs.MurmurState.{HasWritten};
ghost use Rattle.keys_lines.specs.Keys.{line_hash, key_of};
ghost use Rattle.keys_lines.specs.Lines.{Lacks};
ghost use Rattle.keys_lines.specs.Open.{IsOpenKey};
ghost use Rattle.keys_lines.specs.declared.key.Hashing.{Hashing};
ghost use Rattle.keys_lines.specs.declared.key.Key.TheVariants.{Line, Field};

use crate::cut::cut_at;
use crate::key::{Hashing, Key};
use sketch_base::MurmurHash3X64128;
use std::hash::Hasher;

/// The hasher of a line's key so far, and the number of separators so far. It is counted up to one more than the
/// separators before the key's field.
#[derive(Clone, Copy)]
pub(crate) struct OpenKey {
    hasher: MurmurHash3X64128,
    passed: u64,
}

impl OpenKey {
    /// The state for a line without bytes yet, under this seed.
    pub(crate) fn new(seed: u64) -> OpenKey
        ensures line { IsOpenKey seed Line [] result }
        ensures field { (before separator : ℕ) → IsOpenKey seed (Field before separator) [] result }
    {
        OpenKey {
            hasher: MurmurHash3X64128::with_seed(seed),
            passed: 0,
        }
    }

    /// Adds bytes of one field. They belong to the key if there was no separator yet, or as many as there are before
    /// the key's field.
    fn put(&mut self, before: u32, separator: u8, piece: &[u8])
        requires { Lacks separator piece.now }
        ensures { (seed : ℕ) (front : List ℕ)
            → IsOpenKey seed (Field before separator) front self.old
            → IsOpenKey seed (Field before separator) (front ++ piece.now) self.new }
    {
        if self.passed == 0 || self.passed == before as u64 {
            self.hasher.write(piece);
        }
    }

    /// Forgets the first field at the first separator, if the key is another field.
    fn forget(&mut self, seed: u64, before: u32, separator: u8)
        ensures hashed { (front : List ℕ)
            → IsOpenKey seed (Field before separator) front self.old
            → HasWritten seed (key_of (Field before separator) (front ++ separator ∷ [])) self.new.hasher }
        ensures passed { self.new.passed ≡ self.old.passed }
    {
        if self.passed == 0 && before != 0 {
            self.hasher = MurmurHash3X64128::with_seed(seed);
        }
    }

    /// Adds a separator.
    fn pass(&mut self, seed: u64, before: u32, separator: u8)
        ensures { (front : List ℕ)
            → IsOpenKey seed (Field before separator) front self.old
            → IsOpenKey seed (Field before separator) (front ++ separator ∷ []) self.new }
    {
        self.forget(seed, before, separator);
        if self.passed <= before as u64 {
            self.passed += 1;
        }
    }

    /// Adds bytes of a line whose key is a field.
    fn extend_field(&mut self, seed: u64, before: u32, separator: u8, bytes: &[u8])
        ensures { (front : List ℕ)
            → IsOpenKey seed (Field before separator) front self.old
            → IsOpenKey seed (Field before separator) (front ++ bytes.now) self.new }
    {
        let mut rest = bytes;
        while let Some((piece, others)) = cut_at(rest, separator) {
            self.put(before, separator, piece);
            self.pass(seed, before, separator);
            rest = others;
        }
        self.put(before, separator, rest);
    }

    /// Adds bytes of a line.
    #[inline(always)]
    pub(crate) fn extend(&mut self, hashing: Hashing, bytes: &[u8])
        ensures { (front : List ℕ)
            → IsOpenKey hashing.seed hashing.key front self.old
            → IsOpenKey hashing.seed hashing.key (front ++ bytes.now) self.new }
    {
        match hashing.key {
            Key::Line => self.hasher.write(bytes),
            Key::Field(before, separator) => {
                self.extend_field(hashing.seed, before, separator, bytes);
            }
        }
    }

    /// The hash of the key of the bytes so far.
    #[inline(always)]
    pub(crate) fn hash(&self) -> u64
        ensures { (hashing : Hashing) (front : List ℕ)
            → IsOpenKey hashing.seed hashing.key front self.now
            → result ≡ line_hash hashing front }
    {
        self.hasher.finish() >> 1
    }
}
