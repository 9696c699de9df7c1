//! Keys of lines, and how they are hashed.
ghost use Rattle.std.specs.Prelude.{◌≡◌, ◌-◌, ◌<◌};
ghost use Rattle.keys_lines.specs.declared.key.Key.TheVariants.{Field};

/// Which part of a line is its key.
///
/// ```
/// let user = Key::field(2, b'\t');
/// ```
#[derive(Clone, Copy, Debug, PartialEq, Eq)]
pub enum Key {
    /// The whole line.
    Line,
    /// The field after this many others, where this byte separates fields. A line without the separator is its own
    /// key, and the key of a line with fewer fields is empty, as `cut -f` writes them.
    Field(u32, u8),
}

impl Key {
    /// The field of this number, the first being 1.
    pub fn field(number: u32, separator: u8) -> Key
        requires { 0 < number }
        ensures { result ≡ Field (number - 1) separator }
    {
        Key::Field(number - 1, separator)
    }
}

/// How a line is hashed: which part of it is its key, and the seed.
///
/// ```
/// let whole_lines = Hashing { key: Key::Line, seed: 9001 };
/// ```
#[derive(Clone, Copy, Debug, PartialEq, Eq)]
pub struct Hashing {
    /// Which part of a line is hashed.
    pub key: Key,
    /// The seed of the hash.
    pub seed: u64,
}
