//! Operations on images alone.
ghost use Rattle.std.specs.Prelude.{◌≡◌, true};
ghost use Rattle.c_objects.specs.Bounds.{is_state};
ghost use Rattle.c_objects.specs.Images.{WritesIntersection, WritesDifference};
ghost use Rattle.c_objects.specs.Thetas.{ReadsImageState};

use c_objects::compact::CompactSketch;
use c_objects::images::{intersection_of, put_image, read_both};
use c_objects::objects::{FromImage, HasDifference, HasState};
use c_objects::state::State;
use c_objects::status::{OK, OUT_OF_MEMORY};
use std::alloc::Global;

/// Writes the state of the sketch that the bytes begin with, read under this seed. Refused with `INVALID_DATA` if the
/// bytes begin with no sketch of this seed, and with `OUT_OF_MEMORY`.
#[unsafe(no_mangle)]
pub extern "C" fn kcp_image_state(alloc: Global, image: &[u8], seed: u64, out: &mut State) -> u32
    ensures state { ReadsImageState image.now seed out.old result out.new }
    ensures usable { result ≡ 0 → is_state out.new.retained out.new.theta ≡ true }
{
    match CompactSketch::read(alloc, image, seed) {
        Ok(sketch) => {
            *out = sketch.state();
            OK
        }
        Err(status) => status,
    }
}

/// Writes the image of the intersection of the sketches that two images begin with, read under this seed. Refused as
/// `kcp_image_state` is.
#[unsafe(no_mangle)]
pub extern "C" fn kcp_images_intersect(
    alloc: Global,
    first: &[u8],
    second: &[u8],
    seed: u64,
    out: &mut [u8],
    length: &mut u64,
) -> u32
    ensures { WritesIntersection seed first.now second.now out.old length.old result out.new length.new }
{
    match read_both(alloc, first, second, seed) {
        Ok((a, b)) => match intersection_of(alloc, seed, &a, &b) {
            Ok(sketch) => put_image(&sketch, out, length),
            Err(_) => OUT_OF_MEMORY,
        },
        Err(status) => status,
    }
}

/// Writes the image of their difference, which has the hashes of the first that the second lacks. Refused as
/// `kcp_image_state` is.
#[unsafe(no_mangle)]
pub extern "C" fn kcp_images_difference(
    alloc: Global,
    first: &[u8],
    second: &[u8],
    seed: u64,
    out: &mut [u8],
    length: &mut u64,
) -> u32
    ensures { WritesDifference seed first.now second.now out.old length.old result out.new length.new }
{
    match read_both(alloc, first, second, seed) {
        Ok((a, b)) => match a.difference(alloc, seed, &b, true) {
            Ok(sketch) => put_image(&sketch, out, length),
            // Both are of this seed, so only memory is refused.
            Err(_) => OUT_OF_MEMORY,
        },
        Err(status) => status,
    }
}
