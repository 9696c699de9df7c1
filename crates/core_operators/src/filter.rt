//! A filter of hashes: which hashes an ascending list surely lacks.
ghost use Rattle.std.specs.Prelude.{◌≡◌, ℕ, ◌/◌, ◌<◌, ◌^◌, true, None, length, IfOk};
ghost use Rattle.core_laws.specs.Refusal.{Refuses};
ghost use Rattle.core_operators.specs.Filter.{is_set, is_admitted, AdmitsBelow};

use core_laws::SketchEntry;
use sketch_base::Error;
use std::alloc::Allocator;

/// A filter has about 8 to 16 ranges of hashes per entry: this is the least.
const RANGES: u64 = 8;

/// From this number of hashes on, dropping some by a filter is quicker than sorting them all.
const MANY: usize = 1024;

/// A filter is made only of a list that has at most about this many times as many entries as there are hashes to
/// sort.
const MUCH_LONGER: usize = 2;

/// A bit for each of equal ranges of hashes. If it isn't set, a list has no hash in this range.
#[derive(Drop)]
pub(crate) struct HashFilter<A: Allocator> {
    /// The bits, from the lowest of the first word on. All bits after them are 0.
    words: Vec<u64, A>,
    /// A range has 2^shift hashes, so the bit of a hash is its leading bits.
    shift: u32,
}

/// Whether it pays to drop some of `count` hashes, by a filter of a list of `other_count` entries, before they are
/// sorted.
pub(crate) fn is_filtered(count: usize, other_count: usize) -> bool {
    count >= MANY && other_count / MUCH_LONGER <= count
}

/// The shift of a filter of `count` hashes below theta.
fn shift_for(theta: u64, count: usize) -> u32
    ensures { result < 64 }
{
    let spread = theta / RANGES / (count as u64).max(1);
    spread.max(1).ilog2()
}

/// Sets a bit.
#[inline(always)]
fn set_bit(words: &mut [u64], place: u64)
    requires inside { place / 64 < length words.old }
    ensures set { is_set words.new place ≡ true }
    ensures kept { (other : ℕ) → is_set words.old other ≡ true → is_set words.new other ≡ true }
    ensures room { length words.new ≡ length words.old }
{
    words[(place / 64) as usize] |= 1u64 << (place % 64);
}

impl<A: Allocator> HashFilter<A> {
    /// A filter that admits the hash of each entry below theta, and few others. Refused with `OutOfMemory` alone.
    pub(crate) fn of<E: SketchEntry>(alloc: A, entries: &[E], theta: u64) -> Result<Self, Error>
        ensures admits { IfOk result (λ f. AdmitsBelow E.key entries.now theta f.words.items f.shift) }
        ensures small { IfOk result (λ f. f.shift < 64) }
        ensures refused { Refuses result None true }
    {
        let shift = shift_for(theta, entries.len());
        let count = (theta >> shift) / 64 + 1;
        let mut words = Vec::new(alloc);
        words.resize(count as usize, 0u64)?;
        for entry in entries {
            let hash = entry.hash();
            if hash < theta {
                set_bit(&mut words, hash >> shift);
            }
        }
        Ok(HashFilter { words, shift })
    }

    /// Whether it admits a hash: if not, no entry that it was made of has this hash.
    #[inline(always)]
    pub(crate) fn admits(&self, hash: u64) -> bool
        requires { self.now.shift < 64 }
        ensures { result ≡ is_admitted self.now.words.items self.now.shift hash }
    {
        let place = hash >> self.shift;
        match self.words.get((place / 64) as usize) {
            Some(word) => (*word >> (place % 64)) % 2 == 1,
            None => false,
        }
    }
}
