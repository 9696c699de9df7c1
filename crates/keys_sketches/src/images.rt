//! Sketches read from images, and the results of operators on them.
ghost use Rattle.std.specs.Prelude.{◌≡◌, ◌<◌, ℕ, true, None, IfOk, IfErr};
ghost use Rattle.sketch_base.specs.Seed.{seed_hash};
ghost use Rattle.core_compact.specs.CompactState.{compact_value};
ghost use Rattle.core_laws.specs.Entries.{hash_key, first_hash};
ghost use Rattle.core_laws.specs.Operators.{meet, minus};
ghost use Rattle.core_laws.specs.Refusal.{Refuses};
ghost use Rattle.core_laws.specs.Values.{Empty};
ghost use Rattle.core_laws.specs.declared.TheConstants.{MAX_THETA};
ghost use Rattle.core_operators.specs.Intersection.{seed_refusal};
ghost use Rattle.core_operators.specs.Union.{empty_union};
ghost use Rattle.theta_sketches.specs.Image.{Reads, IsReadable, written};
ghost use Rattle.core_laws.specs.Settings.{settings_refusal};
ghost use Rattle.keys_sketches.specs.Keys.{sketch_of_value};
ghost use Rattle.keys_sketches.specs.Shards.{values_of_sketches};
ghost use Rattle.keys_sketches.specs.Meeting.{result_or_empty, refusal_of_intersection, refusal_of_difference};
ghost use Rattle.core_images.specs.Read.{IsRefused};

use crate::sketching::{new_sketch, trim_and_compact};
use core_laws::MIN_LG_K;
use sketch_base::Error;
use std::alloc::Allocator;
use theta_sketches::laws::read_again;
use theta_sketches::{
    CompactThetaSketch, ThetaANotB, ThetaIntersection, ThetaUnion, ThetaUnionBuilder,
};

/// The sketch of an image. Refused with `InvalidData` only if the seed hash is 0 or the bytes aren't an image of a
/// theta sketch of this seed, and with `OutOfMemory`.
pub fn read_image<A: Allocator + Clone + Drop>(
    alloc: A,
    seed: u64,
    image: &[u8],
) -> Result<CompactThetaSketch<A>, Error>
    ensures reads { IfOk result (λ s. Reads image.now (seed_hash seed) s) }
    ensures refused { IfErr result (λ e. IsRefused e (IsReadable image.now (seed_hash seed))) }
{
    CompactThetaSketch::deserialize_with_seed(alloc, image, seed)
}

/// The image of a sketch. If the sketch's seed hash isn't 0, `read_image` reads it again under the sketch's seed.
/// Refused only with `OutOfMemory`.
pub fn image_of<A: Allocator + Clone + Drop>(
    sketch: &CompactThetaSketch<A>,
) -> Result<Vec<u8, A>, Error>
    ensures written { IfOk result (λ v. v.items ≡ written sketch.now) }
    ensures reads { (seed : ℕ)
        → sketch.now.seed_hash ≡ seed_hash seed
        → 0 < seed_hash seed
        → IfOk result (λ v. Reads v.items (seed_hash seed) sketch.now) }
    ensures refused { Refuses result None true }
{
    read_again();
    sketch.serialize()
}

/// A new union of 2^`lg_k` nominal entries, of sketches of this seed.
pub(crate) fn new_union<A: Allocator + Drop>(
    alloc: A,
    seed: u64,
    lg_k: u8,
) -> Result<ThetaUnion<A>, Error>
    ensures made { IfOk result (λ u. u ≡ empty_union lg_k MAX_THETA (seed_hash seed) u.policy) }
    ensures refused { Refuses result (settings_refusal lg_k MAX_THETA seed) true }
{
    ThetaUnionBuilder::default()
        .lg_k(lg_k)
        .seed(seed)
        .build(alloc)
}

/// The ordered sketch of no lines.
fn empty_sketch<A: Allocator + Clone + Drop>(
    alloc: A,
    seed: u64,
) -> Result<CompactThetaSketch<A>, Error>
    ensures empty { IfOk result (λ s. s ≡ sketch_of_value seed Empty) }
    ensures refused { seed_refusal seed ≡ None → Refuses result None true }
{
    let mut sketch = new_sketch(alloc, seed, MIN_LG_K)?;
    trim_and_compact(&mut sketch)
}

/// The result of an intersection of sketches of this seed, ordered; before its first sketch, the sketch of no lines.
fn sketch_of<A: Allocator + Clone + Drop>(
    alloc: A,
    seed: u64,
    intersection: &ThetaIntersection<A>,
) -> Result<CompactThetaSketch<A>, Error>
    ensures value { intersection.now.seed_hash ≡ seed_hash seed
        → IfOk result (λ s. s ≡ sketch_of_value seed (result_or_empty intersection.now.result)) }
    ensures refused { seed_refusal seed ≡ None → Refuses result None true }
{
    match intersection.to_sketch(true)? {
        Some(sketch) => Ok(sketch),
        None => empty_sketch(alloc, seed),
    }
}

/// The intersection of all sketches, ordered; of no sketches, the sketch of no lines. Refused with `InvalidArgument`
/// for a seed whose seed hash is 0, and for a sketch of another seed, unless it or the intersection of those before
/// it is empty; and with `OutOfMemory`.
pub fn intersection<A: Allocator + Clone + Drop>(
    alloc: A,
    seed: u64,
    sketches: &[CompactThetaSketch<A>],
) -> Result<CompactThetaSketch<A>, Error>
    ensures intersection { IfOk result (λ s.
        s ≡ sketch_of_value seed (meet hash_key first_hash (values_of_sketches sketches.now))) }
    ensures refused { Refuses result (refusal_of_intersection seed sketches.now) true }
{
    let mut so_far = ThetaIntersection::with_seed(alloc.clone()?, seed)?;
    for sketch in sketches {
        so_far.update(sketch.as_view())?;
    }
    sketch_of(alloc, seed, &so_far)
}

/// The difference of two sketches, ordered. Refused with `InvalidArgument` for a seed whose seed hash is 0, and if
/// the first sketch isn't empty and it, or a second that isn't empty, is of another seed; and with `OutOfMemory`.
pub fn difference<A: Allocator + Clone + Drop>(
    alloc: A,
    seed: u64,
    first: &CompactThetaSketch<A>,
    second: &CompactThetaSketch<A>,
) -> Result<CompactThetaSketch<A>, Error>
    ensures difference { first.now.seed_hash ≡ seed_hash seed
        → IfOk result (λ s.
        s
        ≡ sketch_of_value seed (
        minus hash_key hash_key (compact_value hash_key first.now) (compact_value hash_key second.now))) }
    ensures refused { Refuses result (refusal_of_difference seed first.now second.now) true }
{
    let operator = ThetaANotB::with_seed(seed)?;
    operator.compute(alloc, first.as_view(), second.as_view(), true)
}
