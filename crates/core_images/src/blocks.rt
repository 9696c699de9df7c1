//! Writes and reads many entries of one size at a time.
ghost use Rattle.std.specs.Prelude.{◌≡◌, ◌<◌, ◌≤◌, ◌^◌, ◌/◌, ◌++◌, ◌&&◌, ℕ, List, length, map, take, None, true};
ghost use Rattle.std.specs.Prelude.{IfOk, IfErr, OnOk};
ghost use Rattle.std.specs.List.{AllByRecursion, flat_map};
ghost use Rattle.std.specs.Simd.{first_chunks};
ghost use Rattle.core_images.specs.Check.{ascends_from};
ghost use Rattle.core_images.specs.Entry.{Holds};
ghost use Rattle.core_images.specs.Read.{IsRefused};
ghost use Rattle.core_laws.specs.Refusal.{Refuses};

use core_laws::{MAX_THETA, SketchEntry};
use sketch_base::{Error, ErrorKind, SketchBytes};
use std::alloc::Allocator;

/// How many entries are appended at once: their bytes fit a near cache.
const BLOCK: usize = 256;

/// An entry that images spell by N bytes.
pub(crate) trait FixedEntry<const N: usize> {
    /// Which bytes spell which entry.
    ghost spells: { List ℕ → Self → Type 0 };
    /// Which entries can be written.
    ghost is_value: { Self → Type 0 };
    /// The bytes written of an entry.
    ghost text: { Self → List ℕ };
    /// The entry that N bytes spell.
    ghost entry_of: { List ℕ → Self };

    /// The bytes written of the entry.
    fn to_text(&self) -> [u8; N]
        ensures text { result ≡ text self.now }
        ensures value { is_value self.now };

    /// The entry that these bytes spell.
    fn of_text(spelling: &[u8; N]) -> Self
        ensures { result ≡ entry_of spelling.now };

    /// Any N bytes spell the entry that is read of them.
    ghost spelled: { (a : List ℕ) → length a ≡ N → spells a (entry_of a) };

    /// A spelling has at least N bytes.
    ghost is_long: { (a : List ℕ) (x : Self) → spells a x → N ≤ length a };
}

/// Writes the bytes of each entry into the first texts, in their order.
fn spell_block<E: FixedEntry<N>, const N: usize>(texts: &mut [[u8; N]; BLOCK], block: &[E])
    requires few { length block.now ≤ 256 }
    requires small { N < 2 ^ 16 }
    ensures texts { take (length block.now) texts.new ≡ map E.text block.now }
    ensures values { AllByRecursion E.is_value block.now }
{
    // Both bounds are the same: with the lesser of them the compiler tests neither access again.
    let count = block.len().min(BLOCK);
    for at in 0..count {
        texts[at] = block[at].to_text();
    }
}

/// Appends the bytes of each entry, in their order.
pub(crate) fn write_in_blocks<E: FixedEntry<N>, const N: usize, A: Allocator>(
    entries: &[E],
    bytes: &mut SketchBytes<A>,
) -> Result<(), Error>
    requires { N < 2 ^ 16 }
    ensures ok { OnOk result (bytes.new.bytes ≡ bytes.old.bytes ++ flat_map E.text entries.now) }
    ensures values { OnOk result (AllByRecursion E.is_value entries.now) }
    ensures refused { Refuses result None true }
{
    // One array for all blocks: it isn't cleared again, and nothing returns it, which would copy it.
    let mut texts = [[0u8; N]; BLOCK];
    let mut rest = entries;
    while !rest.is_empty() {
        let (block, others) = rest.split_at(rest.len().min(BLOCK));
        spell_block(&mut texts, block);
        let (written, _) = texts.split_at(block.len());
        bytes.write(written.as_flattened())?;
        rest = others;
    }
    Ok(())
}

/// The texts of the first `count` entries. Refused with `InvalidData` only if the bytes have fewer.
fn counted_texts<E: FixedEntry<N>, const N: usize>(
    bytes: &[u8],
    count: u32,
) -> Result<&[[u8; N]], Error>
    requires some { 0 < N }
    ensures ok { IfOk result (λ texts. texts.now ≡ take count (first_chunks N (length bytes.now / N) bytes.now)) }
    ensures enough { OnOk result (count ≤ length bytes.now / N) }
    ensures refused { IfErr result (λ e. IsRefused e ((xs : List E) × Holds E.spells bytes.now count xs)) }
{
    let (texts, _) = bytes.as_chunks::<N>();
    if texts.len() < count as usize {
        return Err(Error::new(ErrorKind::InvalidData));
    }
    let (counted, _) = texts.split_at(count as usize);
    Ok(counted)
}

/// Reads `count` entries from the front of the bytes. It never allocates more than the bytes could fill.
pub(crate) fn read_in_blocks<E: FixedEntry<N> + Drop, const N: usize, A: Allocator + Drop>(
    alloc: A,
    bytes: &[u8],
    count: u32,
) -> Result<Vec<E, A>, Error>
    requires some { 0 < N }
    requires small { N < 2 ^ 16 }
    ensures ok { IfOk result (λ v. Holds E.spells bytes.now count v.items) }
    ensures refused { IfErr result (λ e. IsRefused e ((xs : List E) × Holds E.spells bytes.now count xs)) }
{
    let counted = counted_texts::<E, N>(bytes, count)?;
    let found = counted.iter().map(
        |text| -> E
            ensures { result ≡ E.entry_of text.now }
        { E::of_text(text) },
    );
    let mut entries = Vec::with_capacity(alloc, count as usize)?;
    entries.extend(found)?;
    Ok(entries)
}

/// A quick test whether the hash of each text is above the one before it, and the first above `before`; and the last
/// hash. If it is false, the hashes may still ascend, since it is false if one of them has 64 bits. The difference of
/// two numbers of 63 bits has its highest bit set only if it is negative, so vector code subtracts, which takes fewer
/// steps than a comparison.
fn subtract_block<E: FixedEntry<N> + SketchEntry + Drop, const N: usize>(
    before: u64,
    block: &[[u8; N]],
) -> (bool, u64)
    ensures { result.0 ≡ true
        → (others : List ℕ)
        → ascends_from result.1 others
        ≡ ascends_from before (map (λ text. E.key (E.entry_of text)) block.now ++ others) }
{
    let mut last = before;
    let mut differences = u64::MAX;
    let mut hashes = before;
    for text in block {
        let hash = E::of_text(text).hash();
        differences = differences & last.wrapping_sub(hash);
        hashes = hashes | hash;
        last = hash;
    }
    ((differences > MAX_THETA) & (hashes <= MAX_THETA), last)
}

/// Whether the hash of each text is above the one before it, and the first above `before`; and the last hash.
fn compare_block<E: FixedEntry<N> + SketchEntry + Drop, const N: usize>(
    before: u64,
    block: &[[u8; N]],
) -> (bool, u64)
    ensures { (others : List ℕ)
        → (result.0 && ascends_from result.1 others)
        ≡ ascends_from before (map (λ text. E.key (E.entry_of text)) block.now ++ others) }
{
    let (ascending, end) = subtract_block::<E, N>(before, block);
    if ascending {
        return (true, end);
    }
    let mut last = before;
    let mut ascends = true;
    for text in block {
        let hash = E::of_text(text).hash();
        ascends = ascends & (last < hash);
        last = hash;
    }
    (ascends, last)
}

/// Reads as `read_in_blocks` does, and returns whether the hashes ascend from above 0. It compares the hashes of a
/// block just before it copies them, while they are in a near cache.
pub(crate) fn read_and_compare_in_blocks<E, const N: usize, A>(
    alloc: A,
    bytes: &[u8],
    count: u32,
) -> Result<(Vec<E, A>, bool), Error>
where
    E: FixedEntry<N> + SketchEntry + Drop,
    A: Allocator + Drop,
    requires some { 0 < N }
    requires small { N < 2 ^ 16 }
    ensures ok { IfOk result (λ r. Holds E.spells bytes.now count r.0.items) }
    ensures ascends { IfOk result (λ r. r.1 ≡ ascends_from 0 (map E.key r.0.items)) }
    ensures refused { IfErr result (λ e. IsRefused e ((xs : List E) × Holds E.spells bytes.now count xs)) }
{
    let mut rest = counted_texts::<E, N>(bytes, count)?;
    let mut entries = Vec::with_capacity(alloc, count as usize)?;
    let mut last = 0;
    let mut ascends = true;
    while !rest.is_empty() {
        let (block, others) = rest.split_at(rest.len().min(BLOCK));
        let (above, end) = compare_block::<E, N>(last, block);
        ascends = ascends & above;
        last = end;
        let found = block.iter().map(
            |text| -> E
                ensures { result ≡ E.entry_of text.now }
            { E::of_text(text) },
        );
        entries.extend(found)?;
        rest = others;
    }
    Ok((entries, ascends))
}
