//! Operations on images alone.
ghost use Rattle.std.specs.Prelude.{true, IfOk, IfErr};
ghost use Rattle.c_objects.specs.Buffer.{Writes};
ghost use Rattle.c_objects.specs.Images.{IsRefusalOfEither, IsIntersectionOf, IsIntersectionRefusal};
ghost use Rattle.c_objects.specs.Status.{IsMemoryRefusal};
ghost use Rattle.c_objects.specs.Thetas.{IsCompactImage, IsReadFrom};

use crate::buffer::put_made;
use crate::compact::CompactSketch;
use crate::objects::{FromImage, HasImage};
use sketch_base::Error;
use std::alloc::Global;
use theta_sketches::ThetaIntersection;

/// The sketches that two images begin with, or the status of the first refusal.
pub fn read_both(
    alloc: Global,
    first: &[u8],
    second: &[u8],
    seed: u64,
) -> Result<(CompactSketch, CompactSketch), u32>
    ensures first { IfOk result (λ both. IsReadFrom first.now seed both.0) }
    ensures second { IfOk result (λ both. IsReadFrom second.now seed both.1) }
    ensures refused { IfErr result (λ status. IsRefusalOfEither seed first.now second.now status) }
{
    let a = match CompactSketch::read(alloc, first, seed) {
        Ok(sketch) => sketch,
        Err(status) => return Err(status),
    };
    match CompactSketch::read(alloc, second, seed) {
        Ok(b) => Ok((a, b)),
        Err(status) => Err(status),
    }
}

/// The hashes that two sketches have in common. Refused with `InvalidArgument` only for a seed whose seed hash is 0
/// or a sketch of another seed that isn't empty, and with `OutOfMemory`.
pub fn intersection_of(
    alloc: Global,
    seed: u64,
    first: &CompactSketch,
    second: &CompactSketch,
) -> Result<CompactSketch, Error>
    ensures made { IfOk result (λ s. IsIntersectionOf seed first.now second.now s) }
    ensures refused { IfErr result (IsIntersectionRefusal seed first.now second.now) }
{
    let mut intersection = ThetaIntersection::with_seed(alloc, seed)?;
    intersection.update(first.sketch.as_view())?;
    intersection.update(second.sketch.as_view())?;
    match intersection.to_sketch(true)? {
        Some(sketch) => Ok(CompactSketch { sketch }),
        None => unreachable!(),
    }
}

/// Writes the image of a sketch to a buffer.
pub fn put_image(sketch: &CompactSketch, out: &mut [u8], length: &mut u64) -> u32
    ensures { Writes (IsCompactImage sketch.now) IsMemoryRefusal out.old length.old result out.new length.new }
{
    put_made(sketch.image(), out, length)
}
