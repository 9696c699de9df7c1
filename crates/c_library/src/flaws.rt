//! Why bytes are not read as an image, and what the preamble of one says.
ghost use Rattle.c_objects.specs.Flaws.{FindsIf, WritesThetaFlaw, WritesSumsFlaw};
ghost use Rattle.c_objects.specs.Tuples.{IsTupleFinding, WritesTupleHead};

use c_objects::flaws::{Finding, put_flaw, put_sums_flaw};
use c_objects::state::State;
use c_objects::tuples::put_tuple_head;

/// Writes why the bytes are not one image of a theta sketch of this seed, and how long the image is that they begin.
/// Call it for bytes that a call refused with `INVALID_DATA`, or to learn whether bytes follow an image that was read:
/// it reads the preamble alone, and so finds no flaw in the hashes. Refused with `INVALID_ARGUMENT` if the hash of the
/// seed is 0.
#[unsafe(no_mangle)]
pub extern "C" fn kcp_image_flaw(image: &[u8], seed: u64, out: &mut Finding) -> u32
    ensures { WritesThetaFlaw image.now seed out.old result out.new }
{
    put_flaw(image, seed, out)
}

/// Writes the same of bytes that are not one image of a tuple sketch of sums.
#[unsafe(no_mangle)]
pub extern "C" fn kcp_sums_image_flaw(image: &[u8], seed: u64, out: &mut Finding) -> u32
    ensures { WritesSumsFlaw image.now seed out.old result out.new }
{
    put_sums_flaw(image, seed, out)
}

/// Writes what the preamble of the image of a tuple sketch says, whose summaries may have any length: the state of the
/// sketch; 1 to `*ordered` if its hashes ascend, else 0; and at which byte its first entry begins. The bytes have at least
/// eight for each entry, those of its hash.
///
/// Refused with `INVALID_DATA` if the preamble is not that of a tuple sketch of this seed, or the bytes are too few; then
/// why is written to `*found`, as `kcp_image_flaw` does, with the least length that the image may have.
#[unsafe(no_mangle)]
pub extern "C" fn kcp_tuple_head(
    image: &[u8],
    seed: u64,
    state: &mut State,
    ordered: &mut u32,
    start: &mut u64,
    found: &mut Finding,
) -> u32
    ensures head { WritesTupleHead image.now seed state.old ordered.old start.old result state.new ordered.new
        start.new }
    ensures found { FindsIf (IsTupleFinding image.now seed) found.old result found.new }
{
    put_tuple_head(image, seed, state, ordered, start, found)
}
