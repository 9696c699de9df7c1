//! The hashes of bytes and numbers, as sketches keep them.
ghost use Rattle.std.specs.Prelude.{◌≡◌};
ghost use Rattle.std.specs.Int.{w64, to_le_bytes};
ghost use Rattle.sketch_base.specs.Seed.{hash_of};

use sketch_base::MurmurHash3X64128;
use std::hash::Hasher;

/// The hash of bytes under a seed, of 63 bits: the first half of MurmurHash3 x64 128 without its lowest bit.
#[tactic(auto, unfolding(sketch_base::specs::Seed::hash_of))]
#[inline(always)]
pub fn hash_of_bytes(seed: u64, bytes: &[u8]) -> u64
    ensures { result ≡ hash_of seed bytes.now }
{
    let mut hasher = MurmurHash3X64128::with_seed(seed);
    hasher.write(bytes);
    hasher.finish() >> 1
}

/// The hash of a number's eight bytes, the lowest first, of 63 bits.
#[inline(always)]
pub fn hash_of_number(seed: u64, number: u64) -> u64
    ensures { result ≡ hash_of seed (to_le_bytes w64 number) }
{
    let mut hasher = MurmurHash3X64128::with_seed(seed);
    hasher.write_u64(number);
    hasher.finish() >> 1
}
