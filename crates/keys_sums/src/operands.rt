//! The sketches of sums in images, one for each image.
ghost use Rattle.std.specs.Prelude.{◌≡◌, ◌++◌, ◌∷◌, [], None, true, IfOk, IfErr, IfSome, OnOk};
ghost use Rattle.std.specs.List.{AllByRecursion};
ghost use Rattle.sketch_base.specs.Seed.{seed_hash};
ghost use Rattle.core_laws.specs.Refusal.{Refuses};
ghost use Rattle.keys_sums.specs.Images.{AreReadSums, ReadsSums};
ghost use Rattle.keys_sums.specs.Operands.{IsReadSumsError};
ghost use Rattle.keys_sketches.specs.Refusals.{FailsIf};
ghost use Rattle.keys_sums.specs.Unions.{AreNoSums, HasNoSums};

use crate::images::read_sums;
use keys_sketches::{ReadError, Sources, TextReader, read_failure};
use sketch_base::Error;
use std::alloc::{AllocError, Allocator};
use tuple_sketches::CompactTupleSketch;

/// The sketch of sums in the image in a reader.
fn sums_in<A: Allocator + Clone + Drop, R: TextReader>(
    alloc: A,
    seed: u64,
    reader: &mut R,
) -> Result<CompactTupleSketch<u64, A>, ReadError>
    ensures reads { IfSome (R.remaining reader.old) (λ image. IfOk result (λ s. ReadsSums image (seed_hash seed) s)) }
    ensures seeded { IfOk result (λ s. s.seed_hash ≡ seed_hash seed) }
    ensures refused { IfErr result (IsReadSumsError (IfSome (R.remaining reader.old) (AreNoSums seed))) }
    ensures fallible { IfErr result (FailsIf R.may_fail) }
{
    let mut image = Vec::new(alloc.clone()?);
    if let Err(error) = reader.read_to_end(&mut image) {
        return Err(read_failure(R::may_fail(), error));
    }
    let sketch = read_sums(alloc, seed, image.as_slice())?;
    Ok(sketch)
}

/// Appends a sketch.
fn add<A: Allocator + Clone + Drop>(
    sketches: &mut Vec<CompactTupleSketch<u64, A>, A>,
    sketch: CompactTupleSketch<u64, A>,
) -> Result<(), Error>
    ensures added { OnOk result (sketches.new.items ≡ sketches.old.items ++ sketch ∷ []) }
    ensures refused { Refuses result None true }
{
    sketches.push(sketch)?;
    Ok(())
}

/// The sketches of sums in images of this seed, one for each image, each with its own reader. Refused with
/// `InvalidData` only if some source is no image of sums of this seed, and with `OutOfMemory`. If a source fails, or
/// can't be opened, its error is returned: only if sources may fail, so never for images in memory.
pub fn all_sums<A: Allocator + Clone + Drop, S: Sources>(
    alloc: A,
    seed: u64,
    images: &mut S,
) -> Result<Vec<CompactTupleSketch<u64, A>, A>, ReadError>
    ensures read { IfSome (S.texts images.old) (λ all. IfOk result (λ v. AreReadSums seed all v.items)) }
    ensures seeded { IfOk result (λ v. AllByRecursion (λ s. s.seed_hash ≡ seed_hash seed) v.items) }
    ensures refused { IfErr result (IsReadSumsError (IfSome (S.texts images.old) (HasNoSums seed))) }
    ensures fallible { IfErr result (FailsIf S.may_fail) }
{
    let mut sketches = Vec::new(alloc.clone()?);
    for _ in 0..u64::MAX {
        match images.next_source() {
            Ok(Some(mut source)) => {
                let sketch = sums_in(alloc.clone()?, seed, &mut source)?;
                add(&mut sketches, sketch)?;
            }
            Ok(None) => return Ok(sketches),
            Err(error) => return Err(read_failure(S::may_fail(), error)),
        }
    }
    Err(ReadError::Refused(Error::from(AllocError)))
}
