//! Laws of images, over the definitions alone.
ghost use Rattle.std.specs.Prelude.{◌≡◌, ℕ, List, ◌<◌, ◌^◌, ◌++◌};
ghost use Rattle.std.specs.List.{AllByRecursion};
ghost use Rattle.core_compact.specs.CompactState.{Compact, IsCompact};
ghost use Rattle.core_images.specs.Read.{ReadsFlagged, ReadsCurrent};
ghost use Rattle.core_images.specs.Write.{written_image};

use crate::entry::ImageEntry;
use std::alloc::Allocator;

/// Bytes are read as at most one state.
pub fn one_flagged_reading<X: ImageEntry<A>, A: Allocator>()
    ensures { (bytes : List ℕ) (longs h : ℕ) (r s : Compact X)
        → ReadsFlagged X.key X.spells bytes longs h r
        → ReadsFlagged X.key X.spells bytes longs h s
        → r ≡ s }
{}

/// The image of a state is read as that state, whatever bytes follow it, if the state keeps the laws of compact
/// states and its entries are values.
pub fn read_as_written<X: ImageEntry<A>, A: Allocator>()
    ensures { (s : Compact X) (family kind : ℕ) (rest : List ℕ)
        → IsCompact X.key s
        → AllByRecursion X.is_value s.entries
        → s.seed_hash < 2 ^ 16
        → ReadsCurrent X.key X.spells family kind (written_image X.text family kind s ++ rest) s.seed_hash s }
{}
