//! What C does with objects of several kinds, each as one trait: its ghost members say what the call means for the
//! kind.
ghost use Rattle.std.specs.Prelude.{◌≡◌, true, IfOk, OnOk, IfErr};
ghost use Rattle.c_objects.specs.Bounds.{is_state, wide};

use crate::bounds::Wide;
use crate::flaws::Finding;
use crate::state::State;
use std::alloc::Global;

/// An object that has a state.
pub trait HasState {
    ghost use Rattle.c_objects.specs.declared.state.State.{State};

    /// Its state.
    ghost shown: { Self → State };

    /// The state of the object.
    fn state(&self) -> State
        ensures state { result ≡ shown self.now }
        ensures usable { is_state result.retained result.theta ≡ true };
}

/// A sketch that has sums.
pub trait HasTotal {
    ghost use Rattle.std.specs.Prelude.{ℕ};

    /// The sum of its sums.
    ghost total_sum: { Self → ℕ };

    /// The sum of all sums of the sketch, below 2^96.
    fn total(&self) -> Wide
        ensures { result ≡ wide (total_sum self.now) };
}

/// An object that can be written as an image.
pub trait HasImage {
    ghost use Rattle.std.specs.Prelude.{ℕ, List};

    /// Whether bytes are its image, and whether a status is that of a refusal.
    ghost is_image: { Self → List ℕ → Type 0 };

    ghost no_image: { Self → ℕ → Type 0 };

    /// The image of the object, or the status of the refusal. The image is ordered, except that of a compact sketch
    /// that isn't ordered.
    fn image(&self) -> Result<Vec<u8>, u32>
        ensures image { IfOk result (λ v. is_image self.now v.items) }
        ensures refused { IfErr result (no_image self.now) };
}

/// An object that has a compact sketch: its compact form, or its value.
pub trait HasCompact {
    /// The compact sketch.
    type Compact: Drop;

    ghost use Rattle.std.specs.Prelude.{ℕ, Bool};

    /// Whether a sketch is its compact one, ordered or not, and whether a status is that of a refusal.
    ghost is_compact: { (ordered : Bool) → Self → Self.Compact → Type 0 };

    ghost no_compact: { Self → ℕ → Type 0 };

    /// The compact sketch of the object, ordered if asked for, or the status of the refusal. Memory to keep the sketch
    /// may still be refused, so status 3 is among those of this call even if it succeeds (clause `room`).
    fn compact(&self, ordered: bool) -> Result<Self::Compact, u32>
        ensures made { IfOk result (is_compact ordered self.now) }
        ensures refused { IfErr result (no_compact self.now) }
        ensures room { OnOk result (no_compact self.now 3) };
}

/// An object that can be copied.
pub trait CanCopy: Drop {
    /// Whether another one is a copy of it.
    ghost is_copy: { Self → Self → Type 0 };

    /// A copy of the object, or status 3 if memory was refused.
    fn copy(&self) -> Result<Self, u32>
        ensures copied { IfOk result (is_copy self.now) }
        ensures refused { IfErr result (λ status. status ≡ 3) };
}

/// A sketch that can be subtracted from another.
pub trait HasDifference: Drop {
    /// The compact sketch that is the difference.
    type Difference: Drop;

    ghost use Rattle.std.specs.Prelude.{ℕ, Bool};

    /// Whether a sketch is the difference of two, ordered or not, whether those two are of a seed as far as a
    /// difference checks that, and whether a status is that of a refusal.
    ghost is_difference: { (ordered : Bool) → Self → Self → Self.Difference → Type 0 };

    ghost are_of_seed: { ℕ → Self → Self → Type 0 };

    ghost no_difference: { ℕ → Self → Self → ℕ → Type 0 };

    /// The entries of this sketch whose hashes the other lacks, ordered if asked for, or the status of the refusal.
    /// Memory to keep the sketch may still be refused (clause `room`).
    fn difference(
        &self,
        alloc: Global,
        seed: u64,
        other: &Self,
        ordered: bool,
    ) -> Result<Self::Difference, u32>
        ensures made { IfOk result (is_difference ordered self.now other.now) }
        ensures accepted { OnOk result (are_of_seed seed self.now other.now) }
        ensures refused { IfErr result (no_difference seed self.now other.now) }
        ensures room { OnOk result (no_difference seed self.now other.now 3) };
}

/// A sketch that can be cut to its nominal entries.
pub trait CanTrim {
    ghost use Rattle.std.specs.Prelude.{ℕ};

    /// The sketch before, the status and the sketch after.
    ghost trims: { Self → ℕ → Self → Type 0 };

    /// Cuts the sketch to its nominal entries, and returns the status.
    fn trim(&mut self) -> u32
        ensures { trims self.old result self.new };
}

/// An object that can be made empty again.
pub trait CanReset {
    ghost use Rattle.std.specs.Prelude.{ℕ};

    /// The object before, the status and the object after.
    ghost resets: { Self → ℕ → Self → Type 0 };

    /// Makes the object empty again, as when it was new, and returns the status.
    fn reset(&mut self) -> u32
        ensures { resets self.old result self.new };
}

/// An operator that accepts sketches of a kind.
pub trait Accepts<S> {
    ghost use Rattle.std.specs.Prelude.{ℕ};

    /// The sketch, the operator before, the status and the operator after.
    ghost adds: { S → Self → ℕ → Self → Type 0 };

    /// Adds a sketch to the operator's inputs, and returns the status.
    fn add(&mut self, sketch: &S) -> u32
        ensures { adds sketch.now self.old result self.new };
}

/// An operator that accepts images of sketches.
pub trait AcceptsImages {
    ghost use Rattle.std.specs.Prelude.{ℕ, List};

    /// The image, the operator before, the status and the operator after.
    ghost adds_image: { List ℕ → Self → ℕ → Self → Type 0 };

    /// Adds the sketch that bytes begin with, read under the operator's seed, and returns the status.
    fn add_image(&mut self, alloc: Global, image: &[u8]) -> u32
        ensures { adds_image image.now self.old result self.new };
}

/// A sketch that can be read from an image.
pub trait FromImage: Drop {
    ghost use Rattle.std.specs.Prelude.{ℕ, List};

    /// Whether it is what bytes begin with, read under a seed, and whether a status is that of a refusal.
    ghost is_read: { List ℕ → ℕ → Self → Type 0 };

    ghost is_unread: { List ℕ → ℕ → ℕ → Type 0 };

    /// The sketch that bytes begin with, read under a seed, or the status of the refusal: 2 if the bytes are read as
    /// no sketch, 3 if memory was refused. Memory to keep the sketch may still be refused (clause `room`).
    fn read(alloc: Global, image: &[u8], seed: u64) -> Result<Self, u32>
        ensures read { IfOk result (is_read image.now seed) }
        ensures refused { IfErr result (is_unread image.now seed) }
        ensures room { OnOk result (is_unread image.now seed 3) };

    ghost use Rattle.c_objects.specs.declared.flaws.Finding.{Finding};

    /// Whether it is what bytes are, all of them, whether a status is that of a refusal, and what is found in other
    /// bytes.
    ghost is_whole: { List ℕ → ℕ → Self → Type 0 };

    ghost not_whole: { List ℕ → ℕ → ℕ → Type 0 };

    ghost is_finding: { List ℕ → ℕ → Finding → Type 0 };

    /// The sketch that bytes are, all of them, read under a seed, or the status of the refusal: 2 if the bytes are read
    /// as no sketch or others follow it, 3 if memory was refused. Memory to keep the sketch may still be refused
    /// (clause `room`).
    fn read_whole(alloc: Global, image: &[u8], seed: u64) -> Result<Self, u32>
        ensures read { IfOk result (is_whole image.now seed) }
        ensures refused { IfErr result (not_whole image.now seed) }
        ensures room { OnOk result (not_whole image.now seed 3) };

    /// Why bytes are not one image alone, by their preamble.
    fn finding(image: &[u8], seed: u64) -> Finding
        ensures { is_finding image.now seed result };
}

/// A compact sketch, which has a seed hash and may be ordered.
pub trait HasForm {
    ghost use Rattle.std.specs.Prelude.{ℕ, Bool};

    /// The hash of its seed, and whether its hashes are known to ascend.
    ghost seed_hash_of: { Self → ℕ };

    ghost is_in_order: { Self → Bool };

    /// The hash of its seed, of 16 bits.
    fn seed_hash(&self) -> u16
        ensures { result ≡ seed_hash_of self.now };

    /// Whether its hashes are known to ascend.
    fn is_ordered(&self) -> bool
        ensures { result ≡ is_in_order self.now };
}

/// An object whose entries take memory.
pub trait HasSize {
    /// Bytes taken by its entries, or by all slots of its table. No clause says how many.
    fn estimated_size(&self) -> u64;
}
