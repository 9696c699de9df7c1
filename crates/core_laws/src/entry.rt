//! The entries of sketches.
ghost use Rattle.std.specs.Prelude.{◌≡◌, ℕ};

/// An entry of a sketch: a type with a hash. In every entry that a table or a compact state holds, its hash is from 1
/// to `MAX_THETA` - 1.
pub trait SketchEntry: Sized {
    /// Its hash, by which a map orders its entries.
    ghost key: { Self → ℕ };

    /// Its hash, of 63 bits.
    fn hash(&self) -> u64
        ensures { result ≡ key self.now };
}
