//! Images of sketches of sums, written and read.
ghost use Rattle.std.specs.Prelude.{◌≡◌, ◌<◌, ℕ, true, None, IfOk, IfErr};
ghost use Rattle.sketch_base.specs.Seed.{seed_hash};
ghost use Rattle.core_images.specs.Read.{IsRefused};
ghost use Rattle.core_laws.specs.Refusal.{Refuses};
ghost use Rattle.keys_sums.specs.Images.{AreReadableSums, ReadsSums, written_sums};

use sketch_base::Error;
use std::alloc::Allocator;
use tuple_sketches::CompactTupleSketch;
use tuple_sketches::laws::read_again;

/// The image of a sketch of sums, in the DataSketches format of family 9, with eight bytes per sum. If the sketch's
/// seed hash isn't 0, `read_sums` reads it again under the sketch's seed. Refused only with `OutOfMemory`.
pub fn sums_image<A: Allocator + Clone + Drop>(
    sketch: &CompactTupleSketch<u64, A>,
) -> Result<Vec<u8, A>, Error>
    ensures written { IfOk result (λ v. v.items ≡ written_sums sketch.now) }
    ensures reads { (seed : ℕ)
        → sketch.now.seed_hash ≡ seed_hash seed
        → 0 < seed_hash seed
        → IfOk result (λ v. ReadsSums v.items (seed_hash seed) sketch.now) }
    ensures refused { Refuses result None true }
{
    read_again::<u64, A>();
    sketch.serialize()
}

/// The sketch of sums in an image. Bytes behind the image are ignored. Refused with `InvalidData` only if the seed
/// hash is 0 or the bytes aren't an image of a tuple sketch of this seed with eight bytes per summary, and with
/// `OutOfMemory`.
pub fn read_sums<A: Allocator + Clone + Drop>(
    alloc: A,
    seed: u64,
    image: &[u8],
) -> Result<CompactTupleSketch<u64, A>, Error>
    ensures reads { IfOk result (λ s. ReadsSums image.now (seed_hash seed) s) }
    ensures refused { IfErr result (λ e. IsRefused e (AreReadableSums image.now (seed_hash seed))) }
{
    CompactTupleSketch::deserialize_with_seed(alloc, image, seed)
}
