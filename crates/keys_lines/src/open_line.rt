//! A line that has begun and whose end is not read yet.
ghost use Rattle.std.specs.Prelude.{◌≡◌, ℕ, List, [], ◌++◌, ◌==◌, not, length};
ghost use Rattle.keys_lines.specs.Keys.{line_hash};
ghost use Rattle.keys_lines.specs.Open.{IsOpen};
ghost use Rattle.keys_lines.specs.declared.key.Hashing.{Hashing};

use crate::key::Hashing;
use crate::open_key::OpenKey;

/// A line that has begun. It keeps the state of its key's hash, and no byte.
///
/// ```
/// let mut line = OpenLine::new(Hashing { key: Key::Line, seed: 9001 });
/// line.extend(b"an");
/// line.extend(b"na");
/// let hash = line.hash();
/// ```
#[derive(Clone, Copy)]
pub struct OpenLine {
    hashing: Hashing,
    open_key: OpenKey,
    begun: bool,
}

impl OpenLine {
    /// A line without bytes yet, to be hashed in this way.
    pub fn new(hashing: Hashing) -> OpenLine
        ensures { IsOpen hashing [] result }
    {
        OpenLine {
            hashing,
            open_key: OpenKey::new(hashing.seed),
            begun: false,
        }
    }

    /// Appends bytes, none of which is an LF.
    pub fn extend(&mut self, bytes: &[u8])
        ensures { (hashing : Hashing) (front : List ℕ)
            → IsOpen hashing front self.old
            → IsOpen hashing (front ++ bytes.now) self.new }
    {
        if !bytes.is_empty() {
            self.open_key.extend(self.hashing, bytes);
            self.begun = true;
        }
    }

    /// Whether it has a byte.
    pub fn is_begun(&self) -> bool
        ensures { (hashing : Hashing) (front : List ℕ)
            → IsOpen hashing front self.now
            → result ≡ not (length front == 0) }
    {
        self.begun
    }

    /// The hash of its key, of 63 bits.
    pub fn hash(&self) -> u64
        ensures { (hashing : Hashing) (front : List ℕ)
            → IsOpen hashing front self.now
            → result ≡ line_hash hashing front }
    {
        self.open_key.hash()
    }
}

/// The hash of a line's key, of 63 bits.
#[inline(always)]
pub fn line_hash(hashing: Hashing, line: &[u8]) -> u64
    ensures { result ≡ line_hash hashing line.now }
{
    let mut open_key = OpenKey::new(hashing.seed);
    open_key.extend(hashing, line);
    open_key.hash()
}
