//! The hashes of bytes and numbers, as sketches keep them.
ghost use Rattle.std.specs.Prelude.{◌≡◌};
ghost use Rattle.std.specs.Int.{w64, to_le_bytes};
ghost use Rattle.sketch_base.specs.Seed.{hash_of};
ghost use Rattle.c_objects.specs.Settings.{WritesSeedHash};

use c_objects::hashes::{hash_of_bytes, hash_of_number};
use c_objects::settings::put_seed_hash;

/// Writes the hash of bytes under a seed, which the update calls insert, of 63 bits: the first half of MurmurHash3
/// x64 128 without its lowest bit.
#[unsafe(no_mangle)]
pub extern "C" fn kcp_hash_bytes(seed: u64, bytes: &[u8]) -> u64
    ensures { result ≡ hash_of seed bytes.now }
{
    hash_of_bytes(seed, bytes)
}

/// Writes the hash of a number's eight bytes under a seed, the lowest byte first, likewise.
#[unsafe(no_mangle)]
pub extern "C" fn kcp_hash_u64(seed: u64, number: u64) -> u64
    ensures { result ≡ hash_of seed (to_le_bytes w64 number) }
{
    hash_of_number(seed, number)
}

/// Writes the seed hash of a seed, from 1 to 65535, which images carry in place of the seed. Refused with
/// `INVALID_ARGUMENT` if it is 0; no sketch has such a seed.
#[unsafe(no_mangle)]
pub extern "C" fn kcp_seed_hash(seed: u64, out: &mut u32) -> u32
    ensures { WritesSeedHash seed out.old result out.new }
{
    put_seed_hash(seed, out)
}
