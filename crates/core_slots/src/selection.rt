//! The hash of a rank among those in slots.
//!
//! Hashes are spread evenly below the theta of a table, so arithmetic predicts roughly where the hash of a rank is.
//! One pass gathers the hashes within a narrow window around that prediction, and counts those below it, without a
//! branch on any of them.
//!
//! Hashes inserted from ascending lists are spread differently, so a window may miss the rank. Its counts then show
//! on which side the hash is, and among how many, and the next window is aimed there. After a few misses a last pass
//! gathers all hashes; the result is the same.
ghost use Rattle.std.specs.Prelude.{◌≡◌, ◌+◌, ◌-◌, ◌<◌, ◌≤◌, ◌^◌, [], ◌∷◌, ◌++◌, length, map, take, IfOk, OnOk};
ghost use Rattle.core_laws.specs.Entries.{hash_key};
ghost use Rattle.core_laws.specs.Maps.{IsApart, rank};
ghost use Rattle.core_slots.specs.SlotLayout.{filled, greatest_word, entries_in};
ghost use Rattle.core_slots.specs.Rank.{HasRank, within};

use crate::slot_entry::SlotEntry;
use crate::slots::{hash_in, hash_or_zero};
use core_laws::MAX_THETA;
use std::alloc::{AllocError, Allocator};

/// How many windows are searched before all hashes are gathered.
const TRIES: usize = 4;

/// How far a window extends below the expected hash, in units of the span divided by twice the square root of the
/// number of its hashes: about the standard deviation of that hash. Ascending lists insert their smaller hashes
/// first, so the hash of a rank may well be further down than among evenly spread hashes.
const FAR_DOWN: u64 = 8;

/// If the hashes end below this, many lists were inserted, and a window extends half as far down.
const END_OF_MANY: u64 = MAX_THETA / 16;

/// How far a window extends up, in the same unit.
const FAR_UP: u64 = 3;

/// How many slots are sampled to estimate the greatest hash.
const SAMPLE: usize = 1024;

/// Where the hash of a rank is searched for: at least `low` and below `high`. It is a hint, and no proof rests on it.
#[derive(Clone, Copy)]
struct Span {
    low: u64,
    high: u64,
    /// How many hashes are less than `low`.
    rank_from: usize,
    /// How many hashes are less than `high`.
    rank_to: usize,
}

/// The bounds of a window around the expected hash of a rank among the hashes of a span, if they are spread evenly
/// there.
fn expected_bounds(span: Span, rank: usize) -> (u64, u64)
    ensures ordered { result.0 ≤ result.1 }
    ensures far { result.1 < greatest_word }
{
    let width = span.high.saturating_sub(span.low);
    let number = span.rank_to.saturating_sub(span.rank_from) as u64;
    let smaller = rank.saturating_sub(span.rank_from) as u64;
    let step = width / number.saturating_add(1);
    let far = step.saturating_mul(smaller.saturating_add(1));
    let middle = span.low.saturating_add(far);
    let unit = width / number.isqrt().saturating_mul(2).max(1);
    let down = if span.high < END_OF_MANY {
        FAR_DOWN / 2
    } else {
        FAR_DOWN
    };
    let low = middle.saturating_sub(unit.saturating_mul(down));
    let high = middle.saturating_add(FAR_UP.saturating_mul(unit));
    (low.min(u64::MAX - 1), high.min(u64::MAX - 1))
}

/// The rest of a span after a window from `low` to `high` missed the rank: `below` hashes are less than `low`, and
/// `between` are in the window.
fn narrowed(span: Span, low: u64, high: u64, below: usize, between: usize, rank: usize) -> Span {
    if below > rank {
        Span {
            high: low,
            rank_to: below,
            ..span
        }
    } else {
        Span {
            low: high.saturating_add(1),
            rank_from: below.saturating_add(between),
            ..span
        }
    }
}

/// One more than the greatest hash in the slots and `also`, if there is one.
fn end_of_hashes<E: SlotEntry>(also: Option<u64>, slots: &[E::Slot]) -> u64 {
    let mut greatest = also.unwrap_or(0);
    for slot in slots {
        greatest = greatest.max(hash_or_zero::<E>(slot));
    }
    greatest.saturating_add(1)
}

/// Roughly where the hashes in the slots end: at theta, or, if none was dropped yet, a little above the greatest of a
/// few.
fn expected_end<E: SlotEntry>(slots: &[E::Slot], theta: u64) -> u64 {
    if theta < MAX_THETA {
        return theta;
    }
    let sample = slots.len().min(SAMPLE);
    let end = end_of_hashes::<E>(None, &slots[..sample]);
    end.saturating_add(end / SAMPLE as u64)
}

/// The least number of hashes to have room for, unless there are fewer slots.
const LEAST_ROOM: usize = 1024;

/// How many slots are read in one block.
const BLOCK: usize = 64;

/// How many hashes of a window to have room for, with `count` hashes in `size` slots: twice the expected number, but
/// at least `LEAST_ROOM`, and a block of slots; at most `size` + 1.
fn window_room(count: usize, size: usize) -> usize
    ensures { result ≤ size + 1 }
{
    let twice = ((FAR_DOWN + FAR_UP) as usize).saturating_mul(count.isqrt());
    twice
        .max(LEAST_ROOM)
        .saturating_add(BLOCK)
        .min(size.saturating_add(1))
}

/// A hash, if it is from `low` to `high`.
fn kept_within(hash: u64, low: u64, high: u64) -> Option<u64>
    ensures { filled (result ∷ []) ≡ within low high (hash ∷ []) }
{
    (low <= hash && hash <= high).then_some(hash)
}

/// 1 for a hash that is less than `low`, otherwise 0.
#[inline(always)]
fn number_less(hash: u64, low: u64) -> usize
    ensures number { result ≡ rank hash_key (hash ∷ []) low }
    ensures small { result ≤ 1 }
{
    (hash < low) as usize
}

/// 1 for a hash from `low` to `high`, otherwise 0. It is one comparison.
#[inline(always)]
fn number_within(hash: u64, low: u64, high: u64) -> usize
    requires { low ≤ high }
    ensures number { result ≡ length (within low high (hash ∷ [])) }
    ensures small { result ≤ 1 }
{
    // A hash less than `low` wraps above `high - low`.
    (hash.wrapping_sub(low) <= high - low) as usize
}

/// Gathers the hashes from `low` to `high` in a few slots at the front of `found`. Returns how many it gathered, and
/// how many hashes are less than `low`. No branch depends on a hash.
fn gather_few<E: SlotEntry>(
    found: &mut [u64],
    slots: &[E::Slot],
    low: u64,
    high: u64,
) -> (usize, usize)
    requires ordered { low ≤ high }
    requires far { high < greatest_word }
    requires room { length slots.now ≤ length found.old }
    ensures size { length found.new ≡ length found.old }
    ensures limited { result.0 ≤ length slots.now }
    ensures gathered { take result.0 found.new ≡ within low high (map E.key (entries_in E.content slots.now)) }
    ensures below { result.1 ≡ rank hash_key (map E.key (entries_in E.content slots.now)) low }
{
    let mut count = 0;
    let mut less = 0;
    for at in 0..slots.len() {
        let hash = E::hash_or_greatest(&slots[at]);
        found[count] = hash;
        count += number_within(hash, low, high);
        less += number_less(hash, low);
    }
    (count, less)
}

/// Makes a list at least `least` long, with zeros at its end.
fn lengthen<A: Allocator>(list: &mut Vec<u64, A>, least: usize) -> Result<(), AllocError>
    ensures long { OnOk result (least ≤ length list.new.items) }
    ensures front { OnOk result (take (length list.old.items) list.new.items ≡ list.old.items) }
{
    if list.len() < least {
        list.resize(least, 0)?;
    }
    Ok(())
}

/// Gathers the hashes from `low` to `high` in the slots and `also`, if there is one, and returns how many are less
/// than `low`. It has room for `room` hashes before it requests memory again.
fn gather_window<E: SlotEntry, A: Allocator>(
    hashes: &mut Vec<u64, A>,
    room: usize,
    also: Option<u64>,
    slots: &[E::Slot],
    low: u64,
    high: u64,
) -> Result<usize, AllocError>
    requires ordered { low ≤ high }
    requires far { high < greatest_word }
    requires none { hashes.old.items ≡ [] }
    requires fits { length (filled (also ∷ []) ++ map E.key (entries_in E.content slots.now)) < 2 ^ 64 }
    ensures gathered { OnOk result
        (hashes.new.items ≡ within low high (filled (also ∷ []) ++ map E.key (entries_in E.content slots.now))) }
    ensures below { IfOk result (λ n.
        n ≡ rank hash_key (filled (also ∷ []) ++ map E.key (entries_in E.content slots.now)) low) }
{
    if let Some(hash) = also {
        if let Some(first) = kept_within(hash, low, high) {
            hashes.push(first)?;
        }
    }
    let mut count = hashes.len();
    let mut less = 0usize;
    lengthen(hashes, room)?;
    let mut left = slots;
    while !left.is_empty() {
        let (block, behind) = left.split_at(left.len().min(BLOCK));
        lengthen(hashes, count + block.len())?;
        let (kept, smaller) = gather_few::<E>(&mut hashes[count..], block, low, high);
        count += kept;
        less += smaller;
        left = behind;
    }
    hashes.truncate(count);
    match also {
        None => Ok(less),
        Some(hash) => Ok(less + number_less(hash, low)),
    }
}

/// Gathers all hashes: `also`, if there is one, and those in the slots.
fn gather_all<E: SlotEntry, A: Allocator>(
    hashes: &mut Vec<u64, A>,
    also: Option<u64>,
    slots: &[E::Slot],
) -> Result<(), AllocError>
    requires { hashes.old.items ≡ [] }
    ensures { OnOk result (hashes.new.items ≡ filled (also ∷ []) ++ map E.key (entries_in E.content slots.now)) }
{
    if let Some(first) = also {
        hashes.push(first)?;
    }
    for slot in slots {
        if let Some(hash) = hash_in::<E>(slot) {
            hashes.push(hash)?;
        }
    }
    Ok(())
}

/// The hash with exactly `rank` smaller ones among these.
fn nth_hash<A: Allocator + Drop>(hashes: &mut Vec<u64, A>, rank: usize) -> u64
    requires apart { IsApart hash_key hashes.old.items }
    requires inside { rank < length hashes.old.items }
    ensures ranked { HasRank hashes.old.items rank result }
{
    let (_, hash, _) = hashes.select_nth_unstable(rank);
    *hash
}

/// The hash with exactly `rank` smaller ones among those in the slots and `also`, if there is one. There are `count`
/// of them, all distinct.
///
/// If they are spread evenly below `theta`, which may be any 64 bits, it requests memory for few of them, and
/// otherwise for up to one more than there are slots; the result is the same. It fails only if that memory runs out.
/// It frees the memory before it returns.
pub fn hash_of_rank<E: SlotEntry, A: Allocator + Drop>(
    alloc: A,
    also: Option<u64>,
    slots: &[E::Slot],
    count: usize,
    rank: usize,
    theta: u64,
) -> Result<u64, AllocError>
    requires apart { IsApart hash_key (filled (also ∷ []) ++ map E.key (entries_in E.content slots.now)) }
    requires counted { count ≡ length (filled (also ∷ []) ++ map E.key (entries_in E.content slots.now)) }
    requires inside { rank < count }
    ensures ranked { IfOk result (HasRank (filled (also ∷ []) ++ map E.key (entries_in E.content slots.now)) rank) }
{
    let mut span = Span {
        low: 0,
        high: expected_end::<E>(slots, theta),
        rank_from: 0,
        rank_to: count,
    };
    let room = window_room(count, slots.len());
    let mut hashes = Vec::with_capacity(alloc, room)?;
    for _ in 0..TRIES {
        let (low, high) = expected_bounds(span, rank);
        let below = gather_window::<E, A>(&mut hashes, room, also, slots, low, high)?;
        if below <= rank && rank - below < hashes.len() {
            return Ok(nth_hash(&mut hashes, rank - below));
        }
        span = narrowed(span, low, high, below, hashes.len(), rank);
        // All hashes are below the window, so theta is far above the greatest of them.
        if below == count {
            span.high = end_of_hashes::<E>(also, slots);
        }
        hashes.clear();
    }
    gather_all::<E, A>(&mut hashes, also, slots)?;
    Ok(nth_hash(&mut hashes, rank))
}
