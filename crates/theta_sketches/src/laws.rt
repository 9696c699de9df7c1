//! Laws of the definitions alone.
ghost use Rattle.std.specs.Prelude.{◌≡◌, ℕ, List, ◌<◌, ◌≤◌, ◌^◌, ◌++◌};
ghost use Rattle.core_compact.specs.CompactState.{Compact, IsCompact};
ghost use Rattle.core_laws.specs.Entries.{hash_key};
ghost use Rattle.theta_sketches.specs.Image.{Reads, written};
ghost use Rattle.theta_sketches.specs.Streams.{Sketch, has, set_of, IsPartOf, IsSampleOf};

/// Bytes are read as at most one sketch.
pub fn one_reading()
    ensures { (bytes : List ℕ) (h : ℕ) (r s : Compact ℕ) → Reads bytes h r → Reads bytes h s → r ≡ s }
{}

/// The image of a sketch is read as that sketch, whatever bytes follow it, if the sketch keeps the laws of compact
/// sketches and its seed hash is from 1 to 65535.
pub fn read_again()
    ensures { (s : Compact ℕ) (rest : List ℕ)
        → IsCompact hash_key s
        → 0 < s.seed_hash
        → s.seed_hash < 2 ^ 16
        → Reads (written s ++ rest) s.seed_hash s }
{}

/// Streams that have the same hashes have one set, whatever their order and however often a hash occurs.
pub fn same_sets()
    ensures { (hashes others : List ℕ) → ((h : ℕ) → has hashes h ≡ has others h) → set_of hashes ≡ set_of others }
{}

/// A part of a stream samples it, and a part for some k is one for fewer.
pub fn parts_of_streams()
    ensures sample { (k start : ℕ) (value : Sketch ℕ) (hashes : List ℕ)
        → IsPartOf k start value hashes
        → IsSampleOf value hashes }
    ensures fewer { (k more start : ℕ) (value : Sketch ℕ) (hashes : List ℕ)
        → k ≤ more
        → IsPartOf more start value hashes →
        IsPartOf k start value hashes }
{}
