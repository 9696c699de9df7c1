//! How operators combine entries.
ghost use Rattle.std.specs.Prelude.{◌≡◌, Bool, true, MatchResult};
ghost use Rattle.core_laws.specs.Refusal.{Refuses, policy_refusal};
ghost use Rattle.core_laws.specs.Entries.{KeepsKey};

use core_laws::SketchEntry;
use sketch_base::Error;

/// How a union combines two entries of one hash.
pub trait UnionMergePolicy<E: SketchEntry> {
    /// The result of merging an incoming entry into an entry.
    ghost merges: { Self → E → E → E };

    /// Whether it refuses, with `Policy`, to merge an incoming entry into an entry.
    ghost refuses: { Self → E → E → Bool };

    /// Merges an incoming entry into an entry of the same hash, and keeps the hash. A refusal, of kind `Policy` or
    /// `OutOfMemory`, leaves the entry unchanged.
    fn merge(&self, entry: &mut E, incoming: &E) -> Result<(), Error>
        ensures merged { MatchResult result (λ _. entry.new ≡ merges self.now entry.old incoming.now) (λ _.
            entry.new ≡ entry.old) }
        ensures refused { Refuses result (policy_refusal (refuses self.now entry.old incoming.now)) true };

    /// Merging entries of one hash makes an entry of this hash.
    ghost keeps_hash: { (p : Self) → KeepsKey E.key (merges p) };
}

/// How an intersection combines two entries of one hash.
pub trait IntersectionMergePolicy<E: SketchEntry> {
    /// The result of merging an incoming entry into an entry.
    ghost merges: { Self → E → E → E };

    /// Whether it refuses, with `Policy`, to merge an incoming entry into an entry.
    ghost refuses: { Self → E → E → Bool };

    /// Merges an incoming entry into an entry of the same hash, and keeps the hash. A refusal, of kind `Policy` or
    /// `OutOfMemory`, leaves the entry unchanged.
    fn merge(&self, entry: &mut E, incoming: &E) -> Result<(), Error>
        ensures merged { MatchResult result (λ _. entry.new ≡ merges self.now entry.old incoming.now) (λ _.
            entry.new ≡ entry.old) }
        ensures refused { Refuses result (policy_refusal (refuses self.now entry.old incoming.now)) true };

    /// Merging entries of one hash makes an entry of this hash.
    ghost keeps_hash: { (p : Self) → KeepsKey E.key (merges p) };
}
