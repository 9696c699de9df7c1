//! Images of theta sketches that are read whatever their seed is: under the seed hash that they have.
ghost use Rattle.std.specs.Prelude.{◌≡◌, ◌≢◌, IfOk, IfErr};
ghost use Rattle.sketch_base.specs.Seed.{seed_hash};
ghost use Rattle.core_images.specs.Read.{IsRefused};
ghost use Rattle.distinct_inputs.specs.AnySeed.{asked_hash, reader_hash, IsImageOf, IsOfSomeSeed};

use core_images::{Flaw, Head, layout_of, read_after_preamble, reader_seed_hash, theta_head};
use sketch_base::Error;
use std::alloc::Global;
use theta_sketches::CompactThetaSketch;

/// The seed hash that an image with this head asks for, or `seed_hash` if it asks for none.
fn asked_hash(head: Result<Head, Flaw>, seed_hash: u16) -> u16
    ensures { result ≡ asked_hash seed_hash head }
{
    match head {
        Ok(it) => it.seed_hash.unwrap_or(seed_hash),
        Err(_) => seed_hash,
    }
}

/// The seed hash of a reader of these bytes: of images of whatever seed, or of this seed hash alone.
pub fn reader_hash(any_seed: bool, seed_hash: u16, bytes: &[u8]) -> u16
    ensures { result ≡ reader_hash any_seed seed_hash bytes.now }
{
    if any_seed {
        asked_hash(theta_head(bytes), seed_hash)
    } else {
        seed_hash
    }
}

/// The sketch in an image, whatever the seed of its hashes is. An image that asks for no seed hash, as that of an empty
/// sketch, is read under this seed. Refused with `InvalidData` only if the bytes are the image of no sketch of any seed,
/// and with `OutOfMemory`.
pub fn read_any_seed(alloc: Global, seed: u64, image: &[u8]) -> Result<CompactThetaSketch, Error>
    requires seeded { seed_hash seed ≢ 0 }
    ensures reads { IfOk result (IsImageOf image.now) }
    ensures refused { IfErr result (λ e. IsRefused e (IsOfSomeSeed image.now)) }
{
    let head = theta_head(image);
    let hash = asked_hash(head, reader_seed_hash(seed));
    let layout = layout_of(hash, image.len(), head);
    match read_after_preamble(alloc, image, layout, hash) {
        Ok(state) => Ok(CompactThetaSketch::of_state(state)),
        Err(error) => Err(Error::from(error)),
    }
}
