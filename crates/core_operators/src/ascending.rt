//! The entries and the hashes of a sketch below a theta, in ascending order.
ghost use Rattle.std.specs.Prelude.{◌≡◌, ◌<◌, ◌≤◌, ◌∷◌, [], ◌++◌, if◌then◌else◌, true, None, map, take, length};
ghost use Rattle.std.specs.Prelude.{IfOk, OnOk};
ghost use Rattle.core_laws.specs.Maps.{IsAscending, below, map_of};
ghost use Rattle.core_laws.specs.Entries.{hash_key, ClonesEqual};
ghost use Rattle.core_laws.specs.Refusal.{Refuses};
ghost use Rattle.core_laws.specs.Shown.{IsShown};
ghost use Rattle.core_operators.specs.Filter.{admitted, IsNarrowed};

use crate::filter::{HashFilter, is_filtered};
use crate::iter::EntryIter;
use crate::merge::is_past;
use crate::scan::{BLOCK, number_if, push_clones};
use crate::view::{EntrySketch, KeySketch};
use core_laws::SketchEntry;
use core_slots::{SlotEntry, ThetaEntry};
use core_table::sorted_by_hash;
use sketch_base::Error;
use std::alloc::{AllocError, Allocator};

/// Clones of the entries below theta that an iterator has left, in its order. The vector has room for `room` entries
/// from the start. If the entries ascend, it stops at the first that is not below theta.
fn entries_below<E: SlotEntry + Clone, A: Allocator>(
    alloc: A,
    items: EntryIter<'_, E>,
    theta: u64,
    ascending: bool,
    room: usize,
) -> Result<Vec<E, A>, Error>
    requires clones_equal { ClonesEqual E.is_clone }
    requires in_order { ascending ≡ true → IsAscending E.key items.rest }
    ensures ok { IfOk result (λ v. v.items ≡ below E.key items.entry.rest theta) }
    ensures refused { Refuses result None true }
{
    let mut entries = Vec::with_capacity(alloc, room)?;
    for entry in items {
        let hash = entry.hash();
        if is_past(ascending, hash, theta) {
            break;
        }
        if hash >= theta {
            continue;
        }
        entries.push(entry.clone()?)?;
    }
    Ok(entries)
}

/// Clones of the entries of a sketch below theta, in ascending order. They are sorted if the sketch isn't known to be
/// ordered. The vector has room for `room` entries from the start. Refused with `OutOfMemory` alone.
pub(crate) fn ascending_entries<S: EntrySketch, A: Allocator>(
    alloc: A,
    sketch: S,
    theta: u64,
    ordered: bool,
    room: usize,
) -> Result<Vec<S::Entry, A>, Error>
where
    S::Entry: Clone,
    requires clones_equal { ClonesEqual S.Entry.is_clone }
    requires in_order { (S.shown sketch).ordered ≡ ordered }
    ensures ok { IfOk result (λ v. v.items ≡ below S.Entry.key (map_of S.Entry.key (S.listing sketch)) theta) }
    ensures listed { map S.Entry.key (S.listing sketch) ≡ (S.shown sketch).hashes }
    ensures sound { IsShown (S.shown sketch) }
    ensures refused { Refuses result None true }
{
    let items = sketch.entries();
    let entries = entries_below(alloc, items, theta, ordered, room)?;
    if ordered {
        return Ok(entries);
    }
    Ok(sorted_by_hash(entries))
}

/// Takes the next entries of an iterator, and writes those that a filter admits to `found` after its first `count`,
/// in their order, until `found` is full or no entry is left. Returns how many `found` has then. Which hashes are
/// admitted is as good as random, so the loop has no branch on it.
#[inline(always)]
fn gather<'a, E: SlotEntry, A: Allocator>(
    items: &mut EntryIter<'a, E>,
    filter: &HashFilter<A>,
    found: &mut [&'a E; BLOCK],
    count: usize,
) -> usize
    requires small { filter.now.shift < 64 }
    requires room { count < 64 }
    ensures gathered { let among = admitted E.key filter.now.words.items filter.now.shift in
        map (λ x. x.now) (take result found.new) ++ among items.new.rest
        ≡ map (λ x. x.now) (take count found.old) ++ among items.old.rest }
    ensures limited { result ≤ 64 }
    ensures room { length found.new ≡ 64 }
    ensures fewer { length items.new.rest ≤ length items.old.rest }
{
    let mut gathered = count;
    while gathered < BLOCK {
        let Some(entry) = items.next() else {
            break;
        };
        found[gathered] = entry;
        gathered += number_if(filter.admits(entry.hash()));
    }
    gathered
}

/// Clones of the entries that a filter admits of those that an iterator has left, in its order. The vector has room
/// for `room` entries from the start.
fn entries_admitted<E: SlotEntry + Clone, A: Allocator, B: Allocator>(
    alloc: A,
    items: EntryIter<'_, E>,
    filter: &HashFilter<B>,
    room: usize,
) -> Result<Vec<E, A>, Error>
    requires clones_equal { ClonesEqual E.is_clone }
    requires small { filter.now.shift < 64 }
    ensures ok { IfOk result (λ v. v.items ≡ admitted E.key filter.now.words.items filter.now.shift items.entry.rest) }
    ensures refused { Refuses result None true }
{
    let mut entries = Vec::with_capacity(alloc, room)?;
    let mut left = items;
    while let Some(first) = left.next() {
        let mut found = [first; BLOCK];
        let count = number_if(filter.admits(first.hash()));
        let gathered = gather(&mut left, filter, &mut found, count);
        push_clones(&mut entries, &found[..gathered])?;
    }
    Ok(entries)
}

/// Clones of the entries of a sketch below theta, in ascending order. They are sorted if the sketch isn't known to be
/// ordered; if a filter makes that quicker, most entries whose hashes `others` lack below theta are dropped before.
/// The vector has room for `room` entries from the start. Refused with `OutOfMemory` alone.
pub(crate) fn narrowed_entries<S: EntrySketch, F: SketchEntry, A: Allocator + Clone>(
    alloc: A,
    sketch: S,
    others: &[F],
    theta: u64,
    ordered: bool,
    room: usize,
) -> Result<Vec<S::Entry, A>, Error>
where
    S::Entry: Clone,
    requires clones_equal { ClonesEqual S.Entry.is_clone }
    requires in_order { (S.shown sketch).ordered ≡ ordered }
    ensures ok { IfOk result (λ v. IsNarrowed S.Entry.key F.key others.now theta (S.listing sketch) v.items) }
    ensures listed { map S.Entry.key (S.listing sketch) ≡ (S.shown sketch).hashes }
    ensures sound { IsShown (S.shown sketch) }
    ensures refused { Refuses result None true }
{
    let items = sketch.entries();
    if ordered || !is_filtered(room, others.len()) {
        return ascending_entries(alloc, sketch, theta, ordered, room);
    }
    let filter = HashFilter::of(alloc.clone()?, others, theta)?;
    let entries = entries_admitted(alloc, items, &filter, room)?;
    Ok(sorted_by_hash(entries))
}

/// The hashes below theta that an iterator has left, in its order. The vector has room for `room` hashes from the
/// start. If the hashes ascend, it stops at the first that is not below theta.
fn hashes_below<T: KeySketch, A: Allocator>(
    alloc: A,
    hashes: T::Hashes,
    theta: u64,
    ascending: bool,
    room: usize,
) -> Result<Vec<ThetaEntry, A>, Error>
    requires in_order { ascending ≡ true → IsAscending hash_key (T.rest hashes) }
    ensures ok { IfOk result (λ v. v.items ≡ below hash_key (T.rest hashes) theta) }
    ensures refused { Refuses result None true }
{
    let mut keys = Vec::with_capacity(alloc, room)?;
    for hash in hashes {
        if is_past(ascending, hash, theta) {
            break;
        }
        if hash >= theta {
            continue;
        }
        keys.push(ThetaEntry::of_hash(hash))?;
    }
    Ok(keys)
}

/// The hashes of a sketch below theta, in ascending order. They are sorted if the sketch isn't known to be ordered.
/// The vector has room for `room` hashes from the start. Refused with `OutOfMemory` alone.
pub(crate) fn ascending_hashes<T: KeySketch, A: Allocator>(
    alloc: A,
    sketch: T,
    theta: u64,
    ordered: bool,
    room: usize,
) -> Result<Vec<ThetaEntry, A>, Error>
    requires { (T.shown sketch).ordered ≡ ordered }
    ensures ok { IfOk result (λ v. v.items ≡ map_of hash_key (below hash_key (T.shown sketch).hashes theta)) }
    ensures refused { Refuses result None true }
{
    let hashes = sketch.hashes();
    let keys = hashes_below::<T, A>(alloc, hashes, theta, ordered, room)?;
    if ordered {
        return Ok(keys);
    }
    Ok(sorted_by_hash(keys))
}

/// Appends hashes.
#[inline(always)]
fn push_hashes<A: Allocator>(
    keys: &mut Vec<ThetaEntry, A>,
    found: &[ThetaEntry],
) -> Result<(), AllocError>
    ensures { OnOk result (keys.new.items ≡ keys.old.items ++ found.now) }
{
    for key in found {
        keys.push(*key)?;
    }
    Ok(())
}

/// Writes a hash to `found` after its first `count`, and returns their number, which counts this hash only if it is
/// admitted. If `found` is full then, all are appended to `keys`, and the number is 0. There is no branch on whether
/// it is admitted.
#[inline(always)]
fn put_hash<A: Allocator>(
    keys: &mut Vec<ThetaEntry, A>,
    found: &mut [ThetaEntry; BLOCK],
    count: usize,
    hash: u64,
    is_admitted: bool,
) -> Result<usize, AllocError>
    requires room { count < 64 }
    ensures put { IfOk result (λ n. keys.new.items ++ take n found.new
        ≡ (keys.old.items ++ take count found.old) ++ (if is_admitted then hash ∷ [] else [])) }
    ensures limited { IfOk result (λ n. n < 64) }
    ensures whole { length found.new ≡ 64 }
{
    found[count] = ThetaEntry::of_hash(hash);
    let next = count + number_if(is_admitted);
    if next < BLOCK {
        return Ok(next);
    }
    push_hashes(keys, &found[..])?;
    Ok(0)
}

/// The hashes that a filter admits of those that an iterator has left, in its order. The vector has room for `room`
/// hashes from the start.
fn hashes_admitted<T: KeySketch, A: Allocator, B: Allocator>(
    alloc: A,
    hashes: T::Hashes,
    filter: &HashFilter<B>,
    room: usize,
) -> Result<Vec<ThetaEntry, A>, Error>
    requires small { filter.now.shift < 64 }
    ensures ok { IfOk result (λ v.
        v.items ≡ admitted hash_key filter.now.words.items filter.now.shift (T.rest hashes)) }
    ensures refused { Refuses result None true }
{
    let mut keys = Vec::with_capacity(alloc, room)?;
    let mut found = [ThetaEntry::of_hash(0); BLOCK];
    let mut count = 0usize;
    for hash in hashes {
        let is_admitted = filter.admits(hash);
        count = put_hash(&mut keys, &mut found, count, hash, is_admitted)?;
    }
    push_hashes(&mut keys, &found[..count])?;
    Ok(keys)
}

/// The hashes of a sketch below theta, in ascending order. They are sorted if the sketch isn't known to be ordered;
/// if a filter makes that quicker, most hashes that `others` lack below theta are dropped before. The vector has room
/// for `room` hashes from the start. Refused with `OutOfMemory` alone.
pub(crate) fn narrowed_hashes<T: KeySketch, F: SketchEntry, A: Allocator + Clone>(
    alloc: A,
    sketch: T,
    others: &[F],
    theta: u64,
    ordered: bool,
    room: usize,
) -> Result<Vec<ThetaEntry, A>, Error>
    requires { (T.shown sketch).ordered ≡ ordered }
    ensures ok { IfOk result (λ v. IsNarrowed hash_key F.key others.now theta (T.shown sketch).hashes v.items) }
    ensures refused { Refuses result None true }
{
    if ordered || !is_filtered(room, others.len()) {
        return ascending_hashes(alloc, sketch, theta, ordered, room);
    }
    let filter = HashFilter::of(alloc.clone()?, others, theta)?;
    let hashes = sketch.hashes();
    let keys = hashes_admitted::<T, A, A>(alloc, hashes, &filter, room)?;
    Ok(sorted_by_hash(keys))
}
