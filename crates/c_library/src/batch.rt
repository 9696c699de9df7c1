//! Batches: theta sketches that are merged into a union together.
ghost use Rattle.std.specs.Prelude.{◌≡◌, None};
ghost use Rattle.c_handles.specs.Calls.{OnObject, OnObjectWith, Fills};
ghost use Rattle.c_objects.specs.Batch.{IsNewBatch, AddsSketch, AddsCompact, AddsImage, EmptiesBatch};
ghost use Rattle.c_objects.specs.Status.{IsMemoryRefusal};
ghost use Rattle.c_objects.specs.Union.{AddsBatch};

use c_handles::handles::{BatchHandle, UnionHandle};
use c_handles::readers::{BatchReader, CompactReader, ThetaReader};
use c_objects::batch::new_batch;
use std::alloc::Global;

/// Makes a batch without sketches and puts it into a handle. Images will be read under this seed.
///
/// Refused with `INVALID_ARGUMENT` if the handle has a batch already, and with `OUT_OF_MEMORY`; then the handle is as
/// before.
#[unsafe(no_mangle)]
pub extern "C" fn kcp_batch_new(alloc: Global, batch: &mut BatchHandle, seed: u64) -> u32
    ensures { Fills (IsNewBatch seed) IsMemoryRefusal batch.old.value result batch.new.value }
{
    batch.owned().put_or(alloc, Ok(new_batch(alloc, seed)))
}

/// Frees the batch of a handle, with its sketches. A handle without one stays as it is.
#[unsafe(no_mangle)]
pub extern "C" fn kcp_batch_free(alloc: Global, batch: &mut BatchHandle)
    ensures { batch.new.value ≡ None }
{
    batch.owned().free(alloc);
}

/// Puts a copy of a sketch that takes updates into a batch, its ordered compact form. The sketch doesn't change, and
/// later updates don't change the copy. Its seed is checked when the batch is merged.
///
/// Refused with `INVALID_ARGUMENT` if a handle has no object, and with `OUT_OF_MEMORY`; then the batch has the same
/// sketches as before.
#[unsafe(no_mangle)]
pub extern "C" fn kcp_batch_add(batch: &mut BatchHandle, sketch: &mut ThetaReader) -> u32
    ensures { OnObjectWith AddsSketch sketch.old.value batch.old.value result batch.new.value }
{
    batch.owned().add(sketch.reader())
}

/// Puts a copy of a compact sketch into a batch, as `kcp_batch_add` does.
#[unsafe(no_mangle)]
pub extern "C" fn kcp_batch_add_compact(batch: &mut BatchHandle, sketch: &mut CompactReader) -> u32
    ensures { OnObjectWith AddsCompact sketch.old.value batch.old.value result batch.new.value }
{
    batch.owned().add(sketch.reader())
}

/// Puts the sketch that the bytes begin with into a batch, read under the batch's seed.
///
/// Refused with `INVALID_DATA` if the bytes begin with no sketch of this seed, and otherwise as `kcp_batch_add` is;
/// then the batch has the same sketches as before.
#[unsafe(no_mangle)]
pub extern "C" fn kcp_batch_add_image(alloc: Global, batch: &mut BatchHandle, image: &[u8]) -> u32
    ensures { OnObject (AddsImage image.now) batch.old.value result batch.new.value }
{
    batch.owned().add_image(alloc, image)
}

/// Takes all sketches out of a batch. Refused with `INVALID_ARGUMENT` if the handle has no batch.
#[unsafe(no_mangle)]
pub extern "C" fn kcp_batch_reset(batch: &mut BatchHandle) -> u32
    ensures { OnObject EmptiesBatch batch.old.value result batch.new.value }
{
    batch.owned().reset()
}

/// Merges all sketches of a batch into a union, which then has the value of one `kcp_union_add` after another. The
/// batch doesn't change. Empty sketches change nothing, and their seeds are not checked.
///
/// Refused with `INVALID_ARGUMENT` if a handle has no object or a sketch is of another seed, and with `FAILED` if the
/// union has failed, whatever the sketches; then none is merged and nothing has changed. Refused with
/// `OUT_OF_MEMORY`: if memory runs out in the merge, the union has failed until it is reset; if it runs out before,
/// none is merged and nothing has changed.
#[unsafe(no_mangle)]
pub extern "C" fn kcp_union_add_batch(union: &mut UnionHandle, batch: &mut BatchReader) -> u32
    ensures { OnObjectWith AddsBatch batch.old.value union.old.value result union.new.value }
{
    union.owned().add(batch.reader())
}
