//! Compact theta sketches, which are immutable.
ghost use Rattle.std.specs.Prelude.{◌≡◌, true, None, option_map};
ghost use Rattle.c_objects.specs.Bounds.{is_state};
ghost use Rattle.c_objects.specs.Buffer.{WritesOf};
ghost use Rattle.c_objects.specs.Flaws.{FindsIf, IsThetaFinding};
ghost use Rattle.c_handles.specs.Calls.{Fills, FillsFrom, WritesValue, WritesSome};
ghost use Rattle.c_objects.specs.Settings.{order_number};
ghost use Rattle.c_objects.specs.Status.{IsMemoryRefusal};
ghost use Rattle.c_objects.specs.Thetas.{compact_state, CopiesHashes, IsCompactImage, IsCopy, IsReadFrom};
ghost use Rattle.c_objects.specs.Thetas.{IsReadRefusal, IsWhole, IsWholeRefusal};
ghost use Rattle.c_objects.specs.Tuples.{IsFormOf, IsFormRefusal, IsTuplePreamble};

use c_handles::handles::CompactHandle;
use c_handles::readers::CompactReader;
use c_objects::compact::put_hashes_of;
use c_objects::flaws::Finding;
use c_objects::state::State;
use c_objects::status::INVALID_ARGUMENT;
use c_objects::tuples::{of_hashes, put_tuple_preamble};
use std::alloc::Global;

/// Reads the sketch that the bytes begin with, under this seed; bytes after it are ignored. Serial versions 1, 2 and
/// 3 are read.
///
/// Refused with `INVALID_DATA` if the bytes begin with no sketch of this seed, and with `OUT_OF_MEMORY`.
#[unsafe(no_mangle)]
pub extern "C" fn kcp_compact_read(
    alloc: Global,
    sketch: &mut CompactHandle,
    image: &[u8],
    seed: u64,
) -> u32
    ensures { Fills (IsReadFrom image.now seed) (IsReadRefusal image.now seed) sketch.old.value result
        sketch.new.value }
{
    sketch.owned().read(alloc, image, seed)
}

/// Reads the sketch that the bytes are, all of them, under this seed.
///
/// Refused with `INVALID_DATA` if the bytes are no sketch of this seed, or others follow it; then why is written to
/// `*found`, as `kcp_image_flaw` does. Refused with `OUT_OF_MEMORY`.
#[unsafe(no_mangle)]
pub extern "C" fn kcp_compact_read_whole(
    alloc: Global,
    sketch: &mut CompactHandle,
    image: &[u8],
    seed: u64,
    found: &mut Finding,
) -> u32
    ensures read { Fills (IsWhole image.now seed) (IsWholeRefusal image.now seed) sketch.old.value result
        sketch.new.value }
    ensures found { FindsIf (IsThetaFinding image.now seed) found.old result found.new }
{
    sketch.owned().read_whole(alloc, image, seed, found)
}

/// Makes the sketch of a state, as `kcp_compact_state` writes it, and of hashes in their order, which `kcp_compact_hashes`
/// writes; `ordered` is what `kcp_compact_is_ordered` writes.
///
/// Refused with `INVALID_DATA` if no sketch of this seed has them: a hash is 0, repeated, or not below theta, they don't
/// ascend though `ordered` is 1, they are not as many as the state retains, or a number is out of range. Refused with
/// `OUT_OF_MEMORY`.
#[unsafe(no_mangle)]
pub extern "C" fn kcp_compact_of_hashes(
    alloc: Global,
    sketch: &mut CompactHandle,
    state: &State,
    ordered: u32,
    hashes: &[u64],
    seed: u64,
) -> u32
    ensures { Fills (IsFormOf state.now ordered hashes.now seed) (IsFormRefusal state.now ordered hashes.now seed)
        sketch.old.value result sketch.new.value }
{
    sketch
        .owned()
        .put_or(alloc, of_hashes(alloc, state, ordered, hashes, seed))
}

/// Frees the sketch of a handle, if it has one.
#[unsafe(no_mangle)]
pub extern "C" fn kcp_compact_free(alloc: Global, sketch: &mut CompactHandle)
    ensures { sketch.new.value ≡ None }
{
    sketch.owned().free(alloc);
}

/// Copies a sketch into another handle. Refused with `OUT_OF_MEMORY`.
#[unsafe(no_mangle)]
pub extern "C" fn kcp_compact_clone(
    alloc: Global,
    sketch: &mut CompactReader,
    out: &mut CompactHandle,
) -> u32
    ensures { FillsFrom IsCopy (λ _. IsMemoryRefusal) sketch.old.value out.old.value result out.new.value }
{
    sketch.reader().copy(alloc, out.owned())
}

/// Writes the sketch's state, as `kcp_theta_state` does.
#[unsafe(no_mangle)]
pub extern "C" fn kcp_compact_state(sketch: &mut CompactReader, out: &mut State) -> u32
    ensures state { WritesValue (option_map compact_state sketch.old.value) out.old result out.new }
    ensures usable { result ≡ 0 → is_state out.new.retained out.new.theta ≡ true }
{
    sketch.reader().state(out)
}

/// Writes the sketch's image, in the DataSketches format. Refused with `OUT_OF_MEMORY`.
#[unsafe(no_mangle)]
pub extern "C" fn kcp_compact_image(
    sketch: &mut CompactReader,
    out: &mut [u8],
    length: &mut u64,
) -> u32
    ensures { WritesOf IsCompactImage (λ _. IsMemoryRefusal) sketch.old.value out.old length.old result
        out.new length.new }
{
    sketch.reader().image(out, length)
}

/// Writes the preamble of the image of a tuple sketch with the sketch's hashes, of 8, 16 or 24 bytes. The entries follow
/// it in the order of the hashes: each is a hash of eight bytes, the lowest first, and then a summary of your own.
#[unsafe(no_mangle)]
pub extern "C" fn kcp_compact_tuple_preamble(
    sketch: &mut CompactReader,
    out: &mut [u8],
    length: &mut u64,
) -> u32
    ensures { WritesOf IsTuplePreamble (λ _ _. ⊥) sketch.old.value out.old length.old result out.new length.new }
{
    match sketch.reader().get() {
        Some(object) => put_tuple_preamble(object, out, length),
        None => INVALID_ARGUMENT,
    }
}

/// Writes the sketch's hashes, in the order of its image, as `kcp_theta_hashes` does.
#[unsafe(no_mangle)]
pub extern "C" fn kcp_compact_hashes(
    sketch: &mut CompactReader,
    hashes: &mut [u64],
    count: &mut u64,
) -> u32
    ensures { CopiesHashes sketch.old.value hashes.old count.old result hashes.new count.new }
{
    match sketch.reader().get() {
        Some(object) => put_hashes_of(object, hashes, count),
        None => INVALID_ARGUMENT,
    }
}

/// Writes the hash of the sketch's seed, of 16 bits, as `kcp_seed_hash` does.
#[unsafe(no_mangle)]
pub extern "C" fn kcp_compact_seed_hash(sketch: &mut CompactReader, out: &mut u32) -> u32
    ensures { WritesValue (option_map (λ s. s.sketch.seed_hash) sketch.old.value) out.old result out.new }
{
    sketch.reader().seed_hash(out)
}

/// Writes 1 if the sketch is ordered: its hashes ascend; otherwise 0, and they are in any order.
#[unsafe(no_mangle)]
pub extern "C" fn kcp_compact_is_ordered(sketch: &mut CompactReader, out: &mut u32) -> u32
    ensures { WritesValue (option_map (λ s. order_number s.sketch.ordered) sketch.old.value) out.old result out.new }
{
    sketch.reader().is_ordered(out)
}

/// Writes how many bytes the sketch's hashes take, 8 for each.
#[unsafe(no_mangle)]
pub extern "C" fn kcp_compact_estimated_size(sketch: &mut CompactReader, bytes: &mut u64) -> u32
    ensures { WritesSome sketch.old.value bytes.old result bytes.new }
{
    sketch.reader().estimated_size(bytes)
}
