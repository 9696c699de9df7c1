//! The entries that two ascending lists share, and those that a list shares with a sketch.
ghost use Rattle.std.specs.Prelude.{◌≡◌, ◌==◌, ◌+◌, ◌<◌, ◌≤◌, ◌^◌, [], ◌∷◌, ◌++◌, None, true, if◌then◌else◌, map};
ghost use Rattle.std.specs.Prelude.{length, IfOk, IfErr, OnOk};
ghost use Rattle.std.specs.Option.{option_map_or, option_copied};
ghost use Rattle.core_laws.specs.Maps.{IsAscending, map_of};
ghost use Rattle.core_laws.specs.Refusal.{Refuses};
ghost use Rattle.core_laws.specs.Shown.{IsShown};
ghost use Rattle.core_laws.specs.Entries.{ClonesEqual};
ghost use Rattle.core_operators.specs.Union.{IsMergeRefusal};
ghost use Rattle.core_operators.specs.Intersection.{AreSharedFolds, IsSharedFold, IsSharedPair, IsPairRefusal};
ghost use Rattle.core_operators.specs.Intersection.{IsFoundRefusal};
ghost use Rattle.core_operators.specs.Search.{AreFewLookUps, is_much_longer};

use crate::ascending::narrowed_entries;
use crate::iter::EntryIter;
use crate::scan::number_if;
use crate::search::{found_by_halves, is_much_longer};
use crate::view::EntrySketch;
use core_laws::SketchEntry;
use core_policies::IntersectionMergePolicy;
use core_slots::{Count, SlotEntry};
use sketch_base::Error;
use std::alloc::{AllocError, Allocator};

/// Clones of the entries that an iterator has left, in its order. Refused with `OutOfMemory` alone.
pub(crate) fn cloned_entries<E: SlotEntry + Clone, A: Allocator>(
    alloc: A,
    items: EntryIter<'_, E>,
) -> Result<Vec<E, A>, Error>
    requires clones_equal { ClonesEqual E.is_clone }
    ensures all { IfOk result (λ v. v.items ≡ items.entry.rest) }
    ensures refused { Refuses result None true }
{
    let mut entries = Vec::new(alloc);
    for entry in items {
        entries.push(entry.clone()?)?;
    }
    Ok(entries)
}

/// Combines two entries of one hash by the policy, the retained one first; `None` if `same_hash` is false.
fn shared_entry<E: SketchEntry + Clone, P: IntersectionMergePolicy<E>>(
    existing: &E,
    incoming: &E,
    policy: &P,
    same_hash: bool,
) -> Result<Option<E>, Error>
    requires clones_equal { ClonesEqual E.is_clone }
    ensures combined { IfOk result (λ o.
        IsSharedFold E.key (P.merges policy.now) (P.refuses policy.now) existing.now incoming.now same_hash o) }
    ensures refused { IfErr result (IsPairRefusal (P.refuses policy.now) existing.now incoming.now same_hash) }
{
    if !same_hash {
        return Ok(None);
    }
    let mut merged = existing.clone()?;
    policy.merge(&mut merged, incoming)?;
    Ok(Some(merged))
}

/// Combines an entry with one of its hash by the policy, if one was found. The entry is the incoming one if `arrives`
/// is true; otherwise it is the retained one.
fn shared_pair<E: SketchEntry + Clone, P: IntersectionMergePolicy<E>>(
    entry: &E,
    found: Option<&E>,
    arrives: bool,
    policy: &P,
) -> Result<Option<E>, Error>
    requires clones_equal { ClonesEqual E.is_clone }
    ensures combined { IfOk result (λ o.
        IsSharedPair E.key (P.merges policy.now) (P.refuses policy.now) arrives entry.now (option_copied found.entry) o) }
    ensures refused { IfErr result (
        IsFoundRefusal (P.refuses policy.now) arrives entry.now (option_copied found.entry)) }
{
    match found {
        None => Ok(None),
        Some(other) => {
            if arrives {
                return shared_entry(other, entry, policy, true);
            }
            shared_entry(entry, other, policy, true)
        }
    }
}

/// Appends an entry, if there is one.
fn push_found<E: Drop, A: Allocator>(
    entries: &mut Vec<E, A>,
    found: Option<E>,
) -> Result<(), AllocError>
    ensures { OnOk result
        (entries.new.items ≡ option_map_or (λ x. entries.old.items ++ x ∷ []) found entries.old.items) }
{
    match found {
        None => Ok(()),
        Some(entry) => {
            entries.push(entry)?;
            Ok(())
        }
    }
}

/// The entries that two ascending lists share below theta, in one pass over both: each entry of `content`, combined
/// by the policy with the one of `arriving`. Refused with `OutOfMemory`, or with `Policy` if the policy refuses.
///
/// Counts each comparison of two hashes in `compared`: at least one for each shared entry, and at most as many as
/// both lists have entries.
fn shared_in_pass<E: SketchEntry + Clone + Drop, P: IntersectionMergePolicy<E>, A: Allocator>(
    alloc: A,
    content: &[E],
    arriving: &[E],
    policy: &P,
    theta: u64,
    compared: &mut Count,
) -> Result<Vec<E, A>, Error>
    requires clones_equal { ClonesEqual E.is_clone }
    requires ascending { IsAscending E.key content.now }
    requires arriving_ascend { IsAscending E.key arriving.now }
    ensures all { IfOk result (λ v.
        AreSharedFolds E.key (P.merges policy.now) (P.refuses policy.now) content.now theta arriving.now v.items) }
    ensures refused { IfErr result (IsMergeRefusal E.key (P.refuses policy.now) content.now theta arriving.now) }
    ensures compares { IfOk result (λ v. compared.old + length v.items ≤ compared.new) }
    ensures compared { compared.new ≤ compared.old + length content.now + length arriving.now }
{
    let mut entries = Vec::new(alloc);
    let mut left = content;
    let mut arriving_left = arriving;
    while let Some(incoming) = arriving_left.first() {
        let Some(existing) = left.first() else {
            break;
        };
        let hash = incoming.hash();
        let known = existing.hash();
        if hash >= theta {
            break;
        }
        compared.tick();
        let found = shared_entry(existing, incoming, policy, hash == known)?;
        push_found(&mut entries, found)?;
        left = &left[number_if(known <= hash)..];
        arriving_left = &arriving_left[number_if(hash <= known)..];
    }
    Ok(entries)
}

/// The entries that two ascending lists share below theta, by a binary search in `long` for each entry of `short`. If
/// `arrives` is true, the entries of `short` are the incoming ones; otherwise those of `long` are. The policy and the
/// refusals are as in `shared_in_pass`.
///
/// Counts each comparison of two hashes in `compared`: at most k for each entry of `short`, if `long` has fewer than
/// 2^k.
fn shared_by_halves<E: SketchEntry + Clone + Drop, P: IntersectionMergePolicy<E>, A: Allocator>(
    alloc: A,
    short: &[E],
    long: &[E],
    arrives: bool,
    policy: &P,
    theta: u64,
    compared: &mut Count,
) -> Result<Vec<E, A>, Error>
    requires clones_equal { ClonesEqual E.is_clone }
    requires ascending { IsAscending E.key short.now }
    requires long_ascends { IsAscending E.key long.now }
    ensures all { IfOk result (λ v.
        AreSharedFolds E.key (P.merges policy.now) (P.refuses policy.now)
        (if arrives then long.now else short.now) theta (if arrives then short.now else long.now) v.items) }
    ensures refused { IfErr result (
        IsMergeRefusal E.key (P.refuses policy.now)
        (if arrives then long.now else short.now) theta (if arrives then short.now else long.now)) }
    ensures compares { IfOk result (λ v. compared.old + length v.items ≤ compared.new) }
    ensures compared { AreFewLookUps compared.old compared.new (length short.now) (length long.now) }
{
    let mut entries = Vec::new(alloc);
    for entry in short {
        let hash = entry.hash();
        if hash >= theta {
            break;
        }
        let other = found_by_halves(long, hash, compared);
        let found = shared_pair(entry, other, arrives, policy)?;
        push_found(&mut entries, found)?;
    }
    Ok(entries)
}

/// The entries that two ascending lists share below theta: each entry of `content`, combined by the policy with the
/// one of `arriving`. If one list is much longer, the entries of the other are looked up in it. Refused with
/// `OutOfMemory`, or with `Policy` if the policy refuses.
///
/// Counts each comparison of two hashes in `compared`: at least one for each shared entry, and at most as many as
/// both lists have entries. If one list is much longer and has fewer than 2^k entries, at most k for each of the
/// other.
fn shared_entries<E: SketchEntry + Clone + Drop, P: IntersectionMergePolicy<E>, A: Allocator>(
    alloc: A,
    content: &[E],
    arriving: &[E],
    policy: &P,
    theta: u64,
    compared: &mut Count,
) -> Result<Vec<E, A>, Error>
    requires clones_equal { ClonesEqual E.is_clone }
    requires ascending { IsAscending E.key content.now }
    requires arriving_ascend { IsAscending E.key arriving.now }
    ensures all { IfOk result (λ v.
        AreSharedFolds E.key (P.merges policy.now) (P.refuses policy.now) content.now theta arriving.now v.items) }
    ensures refused { IfErr result (IsMergeRefusal E.key (P.refuses policy.now) content.now theta arriving.now) }
    ensures compares { IfOk result (λ v. compared.old + length v.items ≤ compared.new) }
    ensures compared { compared.new ≤ compared.old + length content.now + length arriving.now }
    ensures longer { is_much_longer (length content.now) (length arriving.now) ≡ true
        → AreFewLookUps compared.old compared.new (length arriving.now) (length content.now) }
    ensures shorter { is_much_longer (length arriving.now) (length content.now) ≡ true
        → AreFewLookUps compared.old compared.new (length content.now) (length arriving.now) }
{
    if is_much_longer(content.len(), arriving.len()) {
        return shared_by_halves(alloc, arriving, content, true, policy, theta, compared);
    }
    if is_much_longer(arriving.len(), content.len()) {
        return shared_by_halves(alloc, content, arriving, false, policy, theta, compared);
    }
    shared_in_pass(alloc, content, arriving, policy, theta, compared)
}

/// The entries that an ascending list and a sketch share below theta, combined by the policy, in ascending order. If
/// the sketch isn't known to be ordered, clones of its entries below theta are sorted first, but for entries whose
/// hashes the list surely lacks. It has `count` entries.
///
/// Counts each comparison of two hashes in `compared`, but those of the sort: at least one for each shared entry, and
/// at most as many as both have entries. Tests of a filter's bits don't count.
pub(crate) fn shared_with<
    S: EntrySketch,
    P: IntersectionMergePolicy<S::Entry>,
    A: Allocator + Clone,
>(
    content: &Vec<S::Entry, A>,
    sketch: S,
    policy: &P,
    ordered: bool,
    theta: u64,
    count: usize,
    compared: &mut Count,
) -> Result<Vec<S::Entry, A>, Error>
where
    S::Entry: Clone,
    requires clones_equal { ClonesEqual S.Entry.is_clone }
    requires in_order { (S.shown sketch).ordered ≡ ordered }
    requires ascending { IsAscending S.Entry.key content.now.items }
    ensures all { IfOk result (λ v.
        AreSharedFolds S.Entry.key (P.merges policy.now) (P.refuses policy.now) content.now.items theta
        (map_of S.Entry.key (S.listing sketch)) v.items) }
    ensures listed { map S.Entry.key (S.listing sketch) ≡ (S.shown sketch).hashes }
    ensures sound { IsShown (S.shown sketch) }
    ensures refused { IfErr result
        (IsMergeRefusal S.Entry.key (P.refuses policy.now) content.now.items theta (S.listing sketch)) }
    ensures compares { IfOk result (λ v. compared.old + length v.items ≤ compared.new) }
    ensures compared { compared.new ≤ compared.old + length content.now.items + length (S.listing sketch) }
{
    let list = sketch.entries();
    if ordered {
        if let Some(arriving) = list.as_slice() {
            let alloc = content.allocator().clone()?;
            return shared_entries(alloc, content, arriving, policy, theta, compared);
        }
    }
    let spare = content.allocator().clone()?;
    let arriving = narrowed_entries(spare, sketch, content, theta, ordered, count)?;
    let alloc = content.allocator().clone()?;
    shared_entries(alloc, content, &arriving, policy, theta, compared)
}
