//! Ranges of the places of a text's bytes.
ghost use Rattle.std.specs.Prelude.{◌≡◌, ◌+◌, ◌-◌, ◌<◌, ◌≤◌};
ghost use Rattle.keys_parts.specs.Parts.{bound, places_of};

/// A range of the places of a text's bytes, which are counted from 0. A line is in it if its first byte is.
#[derive(Clone, Copy, Debug, PartialEq, Eq)]
pub struct Places {
    /// The first place.
    pub from: u64,
    /// The place after the last one.
    pub to: u64,
}

/// Where so many of `parts` equal ranges of a text of `size` bytes end.
fn bound(size: u64, parts: u32, count: u32) -> u64
    requires some { 0 < parts }
    requires within { count ≤ parts }
    ensures { result ≡ bound size parts count }
{
    (size as u128 * count as u128 / parts as u128) as u64
}

impl Places {
    /// The range of one of `parts` parts of a text of `size` bytes, the first of which has the index 1. The ranges of
    /// parts that follow one another are adjacent, and their sizes differ by at most one byte.
    pub fn of_part(size: u64, index: u32, parts: u32) -> Places
        requires counted { 0 < index }
        requires within { index ≤ parts }
        ensures { result ≡ places_of size parts (index - 1) }
    {
        Places {
            from: bound(size, parts, index - 1),
            to: bound(size, parts, index),
        }
    }

    /// The place at which a reader for `Part::new` stands: one before the first, whose byte is an LF if a line begins
    /// at the first; 0 if there is none before.
    pub fn start(self) -> u64
        ensures { result ≡ self.from - 1 }
    {
        self.from.saturating_sub(1)
    }
}
