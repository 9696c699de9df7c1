//! Writing images.
ghost use Rattle.std.specs.Prelude.{◌≡◌, ◌≤◌, ◌<◌, ◌^◌, None, true, take, if◌then◌else◌, IfOk, OnOk};
ghost use Rattle.std.specs.List.{AllByRecursion};
ghost use Rattle.core_compact.specs.CompactState.{IsCompact};
ghost use Rattle.core_images.specs.Write.{written_image, written_preamble, longs_of};
ghost use Rattle.core_laws.specs.Refusal.{Refuses};

use crate::entry::ImageEntry;
use core_compact::CompactSketchState;
use core_laws::{MAX_THETA, SketchEntry};
use sketch_base::{Error, Family, SketchBytes};
use std::alloc::Allocator;

/// How many preamble longs the image of a state has, from 1 to 3.
fn longs_of<E: SketchEntry, B: Allocator>(state: &CompactSketchState<E, B>) -> u8
    ensures { result ≡ (if state.now.empty then 1 else longs_of state.now) }
{
    if state.is_empty() {
        1
    } else if state.theta() < MAX_THETA {
        3
    } else if state.retained_entries().len() == 1 {
        1
    } else {
        2
    }
}

/// The flags in the image of a state.
fn flags_of<E: SketchEntry, B: Allocator>(state: &CompactSketchState<E, B>) -> u8
    ensures { result ≡ (if state.now.empty then 0x1e else (if state.now.ordered then 0x1a else 0x0a)) }
{
    if state.is_empty() {
        0x1e
    } else if state.is_ordered() {
        0x1a
    } else {
        0x0a
    }
}

/// The seed hash in the image of a state, which is 0 if that is empty.
fn written_seed_hash<E: SketchEntry, B: Allocator>(state: &CompactSketchState<E, B>) -> u16
    ensures value { result ≡ (if state.now.empty then 0 else state.now.seed_hash) }
    ensures short { state.now.seed_hash < 2 ^ 16 }
{
    let seed_hash = state.seed_hash();
    if state.is_empty() { 0 } else { seed_hash }
}

/// The preamble of the image of a state, of this family and with `kind` in byte 3, and behind it bytes of no meaning;
/// and how many bytes it has: 8, 16 or 24.
pub fn image_preamble<E: SketchEntry, B: Allocator>(
    state: &CompactSketchState<E, B>,
    family: Family,
    kind: u8,
) -> ([u8; 24], usize)
    ensures within { result.1 ≤ 24 }
    ensures preamble { take result.1 result.0 ≡ written_preamble family.id kind state.now }
    ensures sound { IsCompact E.key state.now }
    ensures short { state.now.seed_hash < 2 ^ 16 }
{
    let longs = longs_of(state);
    let flags = flags_of(state);
    let h = u16::to_le_bytes(written_seed_hash(state));
    let c = u32::to_le_bytes(state.retained_entries().len() as u32);
    let t = u64::to_le_bytes(state.theta());
    let bytes = [
        longs, 3, family.id, kind, 0, flags, h[0], h[1], c[0], c[1], c[2], c[3], 0, 0, 0, 0, t[0],
        t[1], t[2], t[3], t[4], t[5], t[6], t[7],
    ];
    (bytes, 8 * longs as usize)
}

/// Returns the image of a state, in memory of `alloc`: version 3 of this family, with `kind` in byte 3, where a
/// family may store its kind of sketch. Refused with `OutOfMemory` alone. If it isn't refused, every entry is a
/// value, so that the image is read as the state.
pub fn write_image<E: ImageEntry<A>, A: Allocator + Drop, B: Allocator>(
    alloc: A,
    state: &CompactSketchState<E, B>,
    family: Family,
    kind: u8,
) -> Result<Vec<u8, A>, Error>
    ensures ok { IfOk result (λ v. v.items ≡ written_image E.text family.id kind state.now) }
    ensures values { OnOk result (AllByRecursion E.is_value state.now.entries) }
    ensures refused { Refuses result None true }
    ensures sound { IsCompact E.key state.now }
    ensures short { state.now.seed_hash < 2 ^ 16 }
{
    let capacity = 24 + 8 * state.retained_entries().len();
    write_image_with_capacity(alloc, state, family, kind, capacity)
}

/// As `write_image`, but begins with memory for `capacity` bytes: a caller that knows the size of the image avoids
/// growing.
pub fn write_image_with_capacity<E: ImageEntry<A>, A: Allocator + Drop, B: Allocator>(
    alloc: A,
    state: &CompactSketchState<E, B>,
    family: Family,
    kind: u8,
    capacity: usize,
) -> Result<Vec<u8, A>, Error>
    ensures ok { IfOk result (λ v. v.items ≡ written_image E.text family.id kind state.now) }
    ensures values { OnOk result (AllByRecursion E.is_value state.now.entries) }
    ensures refused { Refuses result None true }
    ensures sound { IsCompact E.key state.now }
    ensures short { state.now.seed_hash < 2 ^ 16 }
{
    let (preamble, length) = image_preamble(state, family, kind);
    let mut bytes = SketchBytes::with_capacity(alloc, capacity)?;
    bytes.write(&preamble[..length])?;
    E::write_each(state.retained_entries(), &mut bytes)?;
    Ok(bytes.into_bytes())
}
