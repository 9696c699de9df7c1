//! Merging the entries of a sketch into a table.
ghost use Rattle.std.specs.Prelude.{◌≡◌, ◌^◌, ◌*◌, ◌/◌, ◌⊎◌, if◌then◌else◌, None, Some, [], ◌∷◌, true, length, map};
ghost use Rattle.std.specs.Prelude.{MatchOption, IfOk, OnOk, OnErr, IfErr, IfSome, IsSome, IsTrue, ◌↔◌, ◌<◌, ◌≤◌};
ghost use Rattle.std.specs.Prelude.{min};
ghost use Rattle.sketch_base.specs.declared.error.ErrorKind.TheVariants.{OutOfMemory};
ghost use Rattle.core_laws.specs.Insertion.{upsert_refusal};
ghost use Rattle.core_table.specs.HashTable.{after_insertion};
ghost use Rattle.core_laws.specs.Step.{merge_step};
ghost use Rattle.core_laws.specs.Maps.{IsApart, IsAscending, entry_at};
ghost use Rattle.core_laws.specs.Places.{IsAt};
ghost use Rattle.core_laws.specs.Folds.{never};
ghost use Rattle.core_operators.specs.Iter.{still_read};
ghost use Rattle.core_laws.specs.Entries.{ClonesEqual};
ghost use Rattle.core_operators.specs.Union.{HasMerged, IsMergeRefusal, at_or_above};

use crate::iter::EntryIter;
use crate::union_table::UnionTable;
use crate::view::EntrySketch;
use core_laws::{MIN_LG_K, SketchEntry};
use core_policies::UnionMergePolicy;
use core_slots::{SlotEntry, UpsertStep};
use sketch_base::Error;
use std::alloc::{AllocError, Allocator};

/// The step that merges an incoming entry: it combines it with the retained entry of its hash, or clones it if there
/// is none.
pub(crate) struct MergeStep<'a, E: SketchEntry + Clone, P> {
    policy: &'a P,
    incoming: &'a E,
    ghost clones_equal: { ClonesEqual E.is_clone },
}

impl<'a, E: SketchEntry + Clone, P> Clone for MergeStep<'a, E, P> {
    fn clone(&self) -> Result<Self, AllocError> {
        Ok(*self)
    }
}

impl<'a, E: SketchEntry + Clone, P> Copy for MergeStep<'a, E, P> {}

impl<'a, E: SketchEntry + Clone, P: UnionMergePolicy<E>> UpsertStep<E> for MergeStep<'a, E, P> {
    ghost means = { λ step. merge_step (P.merges step.policy.now) (P.refuses step.policy.now) step.incoming.now };

    fn existing(self, entry: &mut E) -> Result<(), Error> {
        self.policy.merge(entry, self.incoming)
    }

    fn absent(self) -> Result<Option<E>, Error> {
        Ok(Some(self.incoming.clone()?))
    }
}

/// Whether merging stops at a hash: the hashes ascend, and this one is not below theta.
pub(crate) fn is_past(ordered: bool, hash: u64, theta: u64) -> bool
    ensures { IsTrue result ↔ ((ordered ≡ true) × (theta ≤ hash)) }
{
    ordered && hash >= theta
}

/// The next entry to merge. If the order isn't known, entries that are not below theta are skipped.
#[inline(always)]
fn next_entry<'a, E: SlotEntry>(
    entries: &mut EntryIter<'a, E>,
    ordered: bool,
    theta: u64,
) -> Option<&'a E>
    ensures { let unread = still_read E.key ordered theta entries.old.rest in
        MatchOption result (unread ≡ []) (λ x. unread ≡ x.now ∷ entries.new.rest) }
{
    if !ordered {
        entries.pass_to_below(theta);
    }
    entries.next()
}

/// Whether a hash is not below one of two thetas. The thetas are compared one by one: the second is the table's, and
/// an insertion that compares it again then reuses the result.
#[inline(always)]
fn is_past_either(hash: u64, theta: u64, own_theta: u64) -> bool
    ensures { IsTrue result ↔ (min theta own_theta ≤ hash) }
{
    hash >= theta || hash >= own_theta
}

/// Merges an entry into the table of a union, and returns whether it did. It doesn't, and nothing changes, if the
/// slot of its hash isn't near, or if the entries are in lists.
#[inline(always)]
fn merge_one<E: SlotEntry + Clone, P: UnionMergePolicy<E>, A: Allocator + Clone>(
    table: &mut UnionTable<E, A>,
    hash: u64,
    entry: &E,
    policy: &P,
) -> Result<bool, Error>
    requires clones_equal { ClonesEqual E.is_clone }
    requires hash_is { hash ≡ E.key entry.now }
    requires of_sketch { MIN_LG_K ≤ table.old.map.lg_nom }
    ensures after { IfOk result (λ done.
        let step = merge_step (P.merges policy.now) (P.refuses policy.now) entry.now in
        table.new.map ≡ if done then after_insertion E.key hash step table.old.map else table.old.map) }
    ensures allowed { IfOk result (λ done.
        let step = merge_step (P.merges policy.now) (P.refuses policy.now) entry.now in
        done ≡ true → upsert_refusal E.key hash step table.old.map.kept ≡ None) }
    ensures err { OnErr result (table.new.map ≡ table.old.map) }
    ensures refused { IfErr result (λ kind.
        let step = merge_step (P.merges policy.now) (P.refuses policy.now) entry.now in
        (upsert_refusal E.key hash step table.old.map.kept ≡ Some kind) ⊎ (kind ≡ OutOfMemory)) }
{
    let merging = MergeStep {
        policy,
        incoming: entry,
    };
    table.upsert_near(hash, merging)
}

/// Merges ascending entries into the table of a union, in their order. It stops at the first that is not below theta
/// or that the table screens; the policy never sees those. It is a loop of its own because each entry then takes half
/// as many instructions as in a loop that also walks over slots or tests the order.
#[inline(never)]
fn merge_ascending<E: SlotEntry + Clone, P: UnionMergePolicy<E>, A: Allocator + Clone>(
    table: &mut UnionTable<E, A>,
    entries: &[E],
    policy: &P,
    theta: u64,
) -> Result<(), Error>
    requires clones_equal { ClonesEqual E.is_clone }
    requires ascending { IsAscending E.key entries.now }
    requires of_sketch { MIN_LG_K ≤ table.old.map.lg_nom }
    ensures after { OnOk result
        (HasMerged E.key (P.merges policy.now) (P.refuses policy.now) entries.now theta table.old.map
        table.new.map) }
    ensures made_with { table.new.map ≡ record table.old.map { kept = table.new.map.kept } }
    ensures refused { IfErr result
        (IsMergeRefusal E.key (P.refuses policy.now) table.old.map.kept.entries theta entries.now) }
{
    let mut left = entries;
    while let Some((first, others)) = left.split_first() {
        let key = first.hash();
        if is_past_either(key, theta, table.retention_theta()) {
            break;
        }
        if !merge_one(table, key, first, policy)? {
            return table.merge_listed(left, policy, true, 0, theta);
        }
        left = others;
    }
    Ok(())
}

/// The entries that are left, if they ascend and are in a slice.
#[inline(always)]
fn ascending_slice<'a, E: SlotEntry>(entries: &EntryIter<'a, E>, ordered: bool) -> Option<&'a [E]>
    ensures left { IfSome result (λ s. s.now ≡ entries.now.rest) }
    ensures ascending { IsSome result → ordered ≡ true }
{
    if ordered { entries.as_slice() } else { None }
}

/// The entries from the hash `from` on, of entries that ascend.
#[inline(always)]
fn entries_from<'a, E: SlotEntry>(entries: &'a [E], from: u64) -> &'a [E]
    requires ascending { IsAscending E.key entries.now }
    ensures { result.now ≡ at_or_above E.key entries.entry.now from }
{
    let mut left = entries;
    while let Some((first, others)) = left.split_first() {
        if first.hash() >= from {
            break;
        }
        left = others;
    }
    left
}

/// Clones of an entry and of those that an iterator has left, in their order.
fn clones_of<E: SlotEntry + Clone, A: Allocator>(
    alloc: A,
    first: &E,
    entries: EntryIter<'_, E>,
) -> Result<Vec<E, A>, AllocError>
    requires clones_equal { ClonesEqual E.is_clone }
    ensures { IfOk result (λ v. v.items ≡ first.now ∷ entries.entry.rest) }
{
    let mut clones = Vec::new(alloc);
    clones.push(first.clone()?)?;
    for entry in entries {
        clones.push(entry.clone()?)?;
    }
    Ok(clones)
}

/// Merges the entries of a sketch whose hashes are from `from` to below theta into the table of a union, in their
/// order; the policy never sees the others. If they ascend, it stops at the first that is not below theta or that the
/// table screens.
pub(crate) fn merge_entries<S: EntrySketch, P: UnionMergePolicy<S::Entry>, A: Allocator + Clone>(
    table: &mut UnionTable<S::Entry, A>,
    sketch: S,
    policy: &P,
    ordered: bool,
    from: u64,
    theta: u64,
) -> Result<(), Error>
where
    S::Entry: Clone,
    requires clones_equal { ClonesEqual S.Entry.is_clone }
    requires in_order { ordered ≡ (S.shown sketch).ordered }
    requires of_sketch { MIN_LG_K ≤ table.old.map.lg_nom }
    ensures listed { map S.Entry.key (S.listing sketch) ≡ (S.shown sketch).hashes }
    ensures after { OnOk result (
        HasMerged S.Entry.key (P.merges policy.now) (P.refuses policy.now)
        (at_or_above S.Entry.key (S.listing sketch) from) theta table.old.map table.new.map) }
    ensures made_with { table.new.map ≡ record table.old.map { kept = table.new.map.kept } }
    ensures refused { IfErr result (
        IsMergeRefusal S.Entry.key (P.refuses policy.now) table.old.map.kept.entries theta
        (at_or_above S.Entry.key (S.listing sketch) from)) }
{
    let mut entries = sketch.entries();
    if let Some(ascending) = ascending_slice(&entries, ordered) {
        return merge_ascending(table, entries_from(ascending, from), policy, theta);
    }
    let mut lesser = theta.min(table.retention_theta());
    while let Some(entry) = next_entry(&mut entries, ordered, lesser) {
        let hash = entry.hash();
        if is_past(ordered, hash, lesser) {
            break;
        }
        if hash < from || hash >= theta {
            continue;
        }
        if !merge_one(table, hash, entry, policy)? {
            let rest = clones_of(table.allocator().clone()?, entry, entries)?;
            return table.merge_listed(&rest, policy, ordered, from, theta);
        }
        lesser = theta.min(table.retention_theta());
    }
    Ok(())
}
