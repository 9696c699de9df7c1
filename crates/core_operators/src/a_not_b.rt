//! Differences: the entries of one sketch whose hashes another lacks.
ghost use Rattle.std.specs.Prelude.{◌≡◌, ◌+◌, ◌<◌, ◌≤◌, ◌==◌, ◌&&◌, ◌||◌, ◌++◌, if◌then◌else◌, true, false, None};
ghost use Rattle.std.specs.Prelude.{length, map, IfOk};
ghost use Rattle.std.specs.Option.{ForSome};
ghost use Rattle.core_compact.specs.CompactState.{IsCompactOf, shown_of, is_answer_ordered};
ghost use Rattle.core_laws.specs.Maps.{IsAscending, below, map_of};
ghost use Rattle.core_operators.specs.ANotB.{difference_refusal, IsDifference};
ghost use Rattle.core_laws.specs.Entries.{hash_key, ClonesEqual};
ghost use Rattle.core_laws.specs.Operators.{lacking};
ghost use Rattle.core_laws.specs.Refusal.{Refuses};
ghost use Rattle.core_laws.specs.Shown.{IsShown};

use crate::ascending::{ascending_entries, narrowed_hashes};
use crate::scan::ascending_difference;
use crate::share::cloned_entries;
use crate::view::{EntrySketch, KeySketch, ThetaFamilySketchMetadata};
use core_compact::{CompactSketchState, is_answer_ordered};
use core_laws::{MAX_THETA, SketchEntry};
use core_slots::{Count, SlotEntry, ThetaEntry};
use core_table::sorted_by_hash;
use sketch_base::{Error, ErrorKind};
use std::alloc::{AllocError, Allocator};

/// Returns the entries of `a` whose hashes `b` lacks, below the lesser theta, in memory of `alloc` or a clone of it.
///
/// If `a` is empty, the result is an empty state with the seed hash of `a`, and no seed is checked. If `b` is empty,
/// the result has the value of `a`, and the seed of `b` is not checked. If neither is empty, no entry is left and the
/// lesser theta is `MAX_THETA`, the result is empty. The result is ordered if `ordered` is true or `a` is ordered, if
/// it is empty, or if it has one entry at the greatest theta.
///
/// An input that isn't known to be ordered is copied and sorted. If `b` is such an input, with 1024 hashes or more
/// and at least about half as many as `a`, most of its hashes that `a` lacks are dropped before the sort, by a test
/// of one bit each. Then both are read side by side: whatever the hashes are, this compares at most as many pairs of
/// hashes as both have.
///
/// Refused with `InvalidArgument` if `a` isn't empty and it, or a `b` that isn't empty, has another seed hash than
/// `seed_hash`, and with `OutOfMemory`. The inputs don't change.
pub fn compute<S: EntrySketch, T: KeySketch, A: Allocator + Clone>(
    alloc: A,
    seed_hash: u16,
    a: S,
    b: T,
    ordered: bool,
) -> Result<CompactSketchState<S::Entry, A>, Error>
where
    S::Entry: Clone,
    requires clones_equal { ClonesEqual S.Entry.is_clone }
    ensures ok { IfOk result (IsDifference S.Entry.key (S.shown a) (S.listing a) (T.shown b) ordered) }
    ensures refused { Refuses result (difference_refusal seed_hash (S.shown a) (T.shown b)) true }
{
    subtract::<S, T, ThetaEntry, A>(alloc, seed_hash, a, b, None, ordered)
}

/// The same difference for a `b` whose entries can be read, not only its hashes. If `b` is compact and ordered, it is
/// faster than `compute`: it reads the entries of `b` as they are, and copies no hashes.
pub fn compute_with_entries<S: EntrySketch, T: EntrySketch, A: Allocator + Clone>(
    alloc: A,
    seed_hash: u16,
    a: S,
    b: T,
    ordered: bool,
) -> Result<CompactSketchState<S::Entry, A>, Error>
where
    S::Entry: Clone,
    requires clones_equal { ClonesEqual S.Entry.is_clone }
    ensures ok { IfOk result (IsDifference S.Entry.key (S.shown a) (S.listing a) (T.shown b) ordered) }
    ensures refused { Refuses result (difference_refusal seed_hash (S.shown a) (T.shown b)) true }
{
    let others = b.entries();
    subtract::<S, T, T::Entry, A>(alloc, seed_hash, a, b, others.as_slice(), ordered)
}

/// The difference of two sketches. `others` are the entries of `b` in the order of its hashes, if they are in a
/// slice.
fn subtract<S: EntrySketch, T: KeySketch, F: SketchEntry, A: Allocator + Clone>(
    alloc: A,
    seed_hash: u16,
    a: S,
    b: T,
    others: Option<&[F]>,
    ordered: bool,
) -> Result<CompactSketchState<S::Entry, A>, Error>
where
    S::Entry: Clone,
    requires clones_equal { ClonesEqual S.Entry.is_clone }
    requires others { ForSome others (λ entries. map F.key entries.now ≡ (T.shown b).hashes) }
    ensures ok { IfOk result (IsDifference S.Entry.key (S.shown a) (S.listing a) (T.shown b) ordered) }
    ensures refused { Refuses result (difference_refusal seed_hash (S.shown a) (T.shown b)) true }
{
    match a.metadata() {
        ThetaFamilySketchMetadata::Empty { seed_hash: own } => {
            Ok(CompactSketchState::empty(alloc, own))
        }
        ThetaFamilySketchMetadata::NonEmpty {
            seed_hash: own,
            theta,
            ordered: in_order,
            ..
        } => {
            if own != seed_hash {
                return Err(Error::new(ErrorKind::InvalidArgument));
            }
            difference(alloc, seed_hash, a, theta, in_order, b, others, ordered)
        }
    }
}

/// The difference of `a`, which isn't empty and has this seed hash, theta and order, and any `b`.
fn difference<S: EntrySketch, T: KeySketch, F: SketchEntry, A: Allocator + Clone>(
    alloc: A,
    seed_hash: u16,
    a: S,
    a_theta: u64,
    a_ordered: bool,
    b: T,
    others: Option<&[F]>,
    requested: bool,
) -> Result<CompactSketchState<S::Entry, A>, Error>
where
    S::Entry: Clone,
    requires clones_equal { ClonesEqual S.Entry.is_clone }
    requires sound { IsShown (S.shown a) }
    requires nonempty { (S.shown a).empty ≡ false }
    requires of_seed { (S.shown a).seed_hash ≡ seed_hash }
    requires of_theta { (S.shown a).theta ≡ a_theta }
    requires in_order { (S.shown a).ordered ≡ a_ordered }
    requires others { ForSome others (λ entries. map F.key entries.now ≡ (T.shown b).hashes) }
    ensures ok { IfOk result (IsDifference S.Entry.key (S.shown a) (S.listing a) (T.shown b) requested) }
    ensures refused { Refuses result (difference_refusal seed_hash (S.shown a) (T.shown b)) true }
{
    match b.metadata() {
        ThetaFamilySketchMetadata::Empty { .. } => {
            let items = a.entries();
            let kept = cloned_entries(alloc, items)?;
            Ok(state_of(kept, a_theta, seed_hash, requested, a_ordered))
        }
        ThetaFamilySketchMetadata::NonEmpty {
            seed_hash: other,
            theta: b_theta,
            ordered: b_ordered,
            num_retained: b_count,
        } => {
            if other != seed_hash {
                return Err(Error::new(ErrorKind::InvalidArgument));
            }
            let theta = a_theta.min(b_theta);
            let spare = alloc.clone()?;
            let mut compared = Count::new();
            let kept = kept_entries(
                alloc,
                a,
                a_ordered,
                b,
                b_ordered,
                b_count,
                others,
                theta,
                &mut compared,
            )?;
            if is_empty_result(kept.len(), theta) {
                return Ok(CompactSketchState::empty(spare, seed_hash));
            }
            Ok(state_of(kept, theta, seed_hash, false, requested || a_ordered))
        }
    }
}

/// Whether `count` entries at `theta` make an empty sketch: there are none, and theta is the greatest.
fn is_empty_result(count: usize, theta: u64) -> bool
    ensures { result ≡ (count == 0 && theta == MAX_THETA) }
{
    count == 0 && theta == MAX_THETA
}

/// Clones of the entries of `a` below theta whose hashes `b` lacks, in ascending order. If `a` isn't known to be
/// ordered, clones of its entries below theta are sorted first. `b` has `b_count` hashes, and `others` are its
/// entries in their order, if they are in a slice.
///
/// Counts each comparison of two hashes in `compared`, but those of the sorts: at most as many as both sketches have.
fn kept_entries<S: EntrySketch, T: KeySketch, F: SketchEntry, A: Allocator + Clone>(
    alloc: A,
    a: S,
    a_ordered: bool,
    b: T,
    b_ordered: bool,
    b_count: usize,
    others: Option<&[F]>,
    theta: u64,
    compared: &mut Count,
) -> Result<Vec<S::Entry, A>, Error>
where
    S::Entry: Clone,
    requires clones_equal { ClonesEqual S.Entry.is_clone }
    requires a_in_order { (S.shown a).ordered ≡ a_ordered }
    requires b_in_order { (T.shown b).ordered ≡ b_ordered }
    requires b_sound { IsShown (T.shown b) }
    requires others { ForSome others (λ entries. map F.key entries.now ≡ (T.shown b).hashes) }
    ensures listed { map S.Entry.key (S.listing a) ≡ (S.shown a).hashes }
    ensures ok { IfOk result (λ v.
        v.items
        ≡ lacking S.Entry.key hash_key (below S.Entry.key (map_of S.Entry.key (S.listing a)) theta)
        (T.shown b).hashes) }
    ensures refused { Refuses result None true }
    ensures grows { compared.old ≤ compared.new }
    ensures compared { compared.new ≤ compared.old + length (S.listing a) + length (T.shown b).hashes }
{
    let list = a.entries();
    if a_ordered {
        if let Some(entries) = list.as_slice() {
            return lacking_hashes(
                alloc, entries, b, b_ordered, b_count, others, theta, compared,
            );
        }
    }
    let entries = ascending_entries(alloc.clone()?, a, theta, a_ordered, 0)?;
    lacking_hashes(
        alloc, &entries, b, b_ordered, b_count, others, theta, compared,
    )
}

/// Clones of ascending entries below theta whose hashes `b` lacks. If `b` is known to be ordered and its entries
/// `others` are in a slice, they are read as they are. Otherwise a copy of its hashes below theta is read; if `b`
/// isn't known to be ordered, it is sorted, and hashes that the entries surely lack are dropped before.
///
/// Counts each comparison of two hashes in `compared`, but those of the sort: at most as many as there are entries
/// and hashes. Tests of a filter's bits don't count.
fn lacking_hashes<E: SlotEntry + Clone, T: KeySketch, F: SketchEntry, A: Allocator + Clone>(
    alloc: A,
    entries: &[E],
    b: T,
    b_ordered: bool,
    b_count: usize,
    others: Option<&[F]>,
    theta: u64,
    compared: &mut Count,
) -> Result<Vec<E, A>, Error>
    requires clones_equal { ClonesEqual E.is_clone }
    requires ascending { IsAscending E.key entries.now }
    requires b_in_order { (T.shown b).ordered ≡ b_ordered }
    requires b_sound { IsShown (T.shown b) }
    requires others { ForSome others (λ entries. map F.key entries.now ≡ (T.shown b).hashes) }
    ensures ok { IfOk result (λ v.
        v.items ≡ lacking E.key hash_key (below E.key entries.now theta) (T.shown b).hashes) }
    ensures refused { Refuses result None true }
    ensures grows { compared.old ≤ compared.new }
    ensures compared { compared.new ≤ compared.old + length entries.now + length (T.shown b).hashes }
{
    if b_ordered {
        if let Some(hashes) = others {
            return ascending_difference(alloc, entries, hashes, theta, compared);
        }
    }
    let keys = narrowed_hashes(alloc.clone()?, b, entries, theta, b_ordered, b_count)?;
    ascending_difference(alloc, entries, &keys, theta, compared)
}

/// A state of these entries. They are sorted if `requested` is true and they aren't known to ascend.
pub(crate) fn state_of<E: SketchEntry + Drop, A: Allocator>(
    entries: Vec<E, A>,
    theta: u64,
    seed_hash: u16,
    requested: bool,
    ascending: bool,
) -> CompactSketchState<E, A>
    requires { IsShown (
        shown_of E.key (
        record
        { empty = false; entries = entries.items; theta = theta; seed_hash = seed_hash; ordered = ascending })) }
    ensures { IsCompactOf E.key (record { entries = map_of E.key entries.items; theta = theta }) seed_hash
        (requested || ascending) result }
{
    if requested && !ascending {
        return CompactSketchState::non_empty(sorted_by_hash(entries), theta, seed_hash, true);
    }
    let ordered = is_answer_ordered(ascending, entries.len(), theta);
    CompactSketchState::non_empty(entries, theta, seed_hash, ordered)
}
