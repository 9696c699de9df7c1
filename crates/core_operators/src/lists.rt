//! The entries of a union in two ascending lists.
ghost use Rattle.std.specs.Prelude.{◌≡◌, ◌^◌, ◌*◌, ◌+◌, ◌/◌, ◌⊎◌, ◌++◌, [], None, Some, true, length, IfOk, OnOk, OnErr, IfErr};
ghost use Rattle.std.specs.Prelude.{◌<◌, ◌≤◌};
ghost use Rattle.std.specs.List.{AllByRecursion};
ghost use Rattle.std.specs.List.Sorted.{IsPermutation, IsNonDecreasingBy};
ghost use Rattle.sketch_base.specs.declared.error.ErrorKind.TheVariants.{OutOfMemory};
ghost use Rattle.core_laws.specs.Cuts.{cut, none_below, IsRetained};
ghost use Rattle.core_laws.specs.Entries.{ClonesEqual};
ghost use Rattle.core_laws.specs.Insertion.{rebuilt, upsert_refusal};
ghost use Rattle.core_laws.specs.Maps.{IsAscending, IsApart, entry_at, map_of, with_entry};
ghost use Rattle.core_laws.specs.Places.{IsAt, IsGapFor};
ghost use Rattle.core_laws.specs.Step.{merge_step};
ghost use Rattle.core_table.specs.HashTable.{after_insertion, trimmed_table};
ghost use Rattle.core_operators.specs.Lists.{AreLists, in_lists, with_lists};
ghost use Rattle.core_operators.specs.Union.{HasMerged, IsMergeRefusal, at_or_above};

use crate::merge::is_past;
use crate::scan::push_below;
use core_compact::sort_by_hash;
use core_laws::{MIN_LG_K, SketchEntry};
use core_policies::UnionMergePolicy;
use core_slots::SlotEntry;
use core_table::{SketchHashTable, sorted_by_hash};
use sketch_base::Error;
use std::alloc::{AllocError, Allocator};

/// Two ascending lists of entries. No hash is in both.
///
/// An entry is sought in both by halves. A new one is put among the added ones, which are few, so few entries move.
#[derive(Drop)]
pub(crate) struct Lists<E, A: Allocator> {
    /// Most of the entries.
    pub(crate) held: Vec<E, A>,
    /// Those that came since these were last gathered.
    pub(crate) added: Vec<E, A>,
}

/// Entries and the theta that they are below.
#[derive(Drop)]
pub(crate) struct CutEntries<E, A: Allocator> {
    pub(crate) entries: Vec<E, A>,
    pub(crate) theta: u64,
}

/// The nominal entries k, for their binary logarithm.
pub(crate) fn nominal_size(lg_nom: u8) -> usize
    requires { lg_nom ≤ 32 }
    ensures power { result ≡ 2 ^ lg_nom }
    ensures small { result ≤ 2 ^ 32 }
{
    1usize << lg_nom
}

/// The most entries that there may be for 2^`lg_nom` nominal ones: fifteen eighths of these.
fn most_entries(lg_nom: u8) -> usize
    requires low { MIN_LG_K ≤ lg_nom }
    requires high { lg_nom ≤ 32 }
    ensures { result ≡ 15 * 2 ^ lg_nom / 8 }
{
    (1usize << lg_nom) / 8 * 15
}

/// How many added entries are gathered, for 2^`lg_nom` nominal ones: about eight times the square root of these. So
/// an insertion moves few entries, and a pass over all entries is shared by many insertions.
fn most_added(lg_nom: u8) -> usize
    requires { lg_nom ≤ 32 }
{
    8usize << (lg_nom / 2)
}

/// The place of a hash in ascending entries, or where it would be inserted.
fn place_of<E: SketchEntry>(entries: &[E], hash: u64) -> Result<usize, usize>
    requires { IsAscending E.key entries.now }
    ensures found { IfOk result (IsAt E.key entries.now hash) }
    ensures absent { IfErr result (IsGapFor E.key entries.now hash) }
{
    entries.binary_search_by_key(&hash, |entry| entry.hash())
}

/// Keeps the k entries of least hash if there are more, and returns the theta above them.
fn cut_entries<E: SketchEntry + Drop, A: Allocator>(
    entries: &mut Vec<E, A>,
    theta: u64,
    nominal: usize,
) -> u64
    requires ascending { IsAscending E.key entries.old.items }
    requires below_theta { AllByRecursion (λ x. E.key x < theta) entries.old.items }
    ensures { record { entries = entries.new.items; theta = result } ≡ cut E.key nominal entries.old.items theta }
{
    if entries.len() <= nominal {
        return theta;
    }
    let cut_theta = entries[nominal].hash();
    entries.truncate(nominal);
    cut_theta
}

/// Puts entries that are two ascending lists, one after the other, into ascending order. Std's stable sort does so in
/// one pass, for which it requests memory. If this is refused, the call is too, but the entries are sorted.
fn sort_two_runs<E: SketchEntry + Drop, A: Allocator>(
    entries: &mut Vec<E, A>,
) -> Result<(), AllocError>
    ensures permutation { IsPermutation entries.old.items entries.new.items }
    ensures ascending { IsNonDecreasingBy E.key entries.new.items }
{
    let sorted = entries.sort_by_key(|entry| entry.hash());
    if sorted.is_err() {
        sort_by_hash(entries);
    }
    sorted
}

/// Makes one list of both. If memory is refused, the lists are as they were, or one list all the same.
fn gather<E: SlotEntry + Drop, A: Allocator>(lists: &mut Lists<E, A>) -> Result<(), AllocError>
    requires { IsApart E.key (lists.old.held.items ++ lists.old.added.items) }
    ensures held { OnOk result (lists.new.held.items ≡ map_of E.key (lists.old.held.items ++ lists.old.added.items)) }
    ensures added { OnOk result (lists.new.added.items ≡ []) }
    ensures err { OnErr result (
        ((lists.new.held.items ≡ lists.old.held.items) × (lists.new.added.items ≡ lists.old.added.items))
        ⊎ ((lists.new.held.items ≡ map_of E.key (lists.old.held.items ++ lists.old.added.items))
        × (lists.new.added.items ≡ []))) }
{
    lists.held.append(&mut lists.added)?;
    sort_two_runs(&mut lists.held)
}

/// Clones of the entries below theta, cut to the `nominal` ones of least hash, and the theta of the cut.
pub(crate) fn cut_clones<E: SlotEntry + Clone, A: Allocator + Clone>(
    lists: &Lists<E, A>,
    theta: u64,
    nominal: usize,
) -> Result<CutEntries<E, A>, AllocError>
    requires clones_equal { ClonesEqual E.is_clone }
    requires ascending { IsAscending E.key lists.now.held.items }
    requires added_ascending { IsAscending E.key lists.now.added.items }
    requires apart { IsApart E.key (lists.now.held.items ++ lists.now.added.items) }
    ensures { IfOk result (λ c.
        record { entries = c.entries.items; theta = c.theta }
        ≡ cut E.key nominal (map_of E.key (lists.now.held.items ++ lists.now.added.items)) theta) }
{
    let room = lists.held.len().saturating_add(lists.added.len());
    let mut entries = Vec::with_capacity(lists.held.allocator().clone()?, room)?;
    push_below(&mut entries, &lists.held, theta)?;
    push_below(&mut entries, &lists.added, theta)?;
    let mut sorted = sorted_by_hash(entries);
    let cut_theta = cut_entries(&mut sorted, theta, nominal);
    Ok(CutEntries {
        entries: sorted,
        theta: cut_theta,
    })
}

/// Puts a new entry at its place among the added ones; if these are many, all are gathered first. If there are then
/// more than fifteen eighths of k, they are cut to the k of least hash, and theta falls. Refused with `OutOfMemory`
/// alone.
fn put_entry<E: SlotEntry + Drop, A: Allocator + Clone>(
    table: &mut SketchHashTable<E, A>,
    lists: &mut Lists<E, A>,
    at: usize,
    entry: E,
) -> Result<(), Error>
    requires lists { AreLists E.key table.old.map lists.old.held.items lists.old.added.items }
    requires gap { IsGapFor E.key lists.old.added.items (E.key entry) at }
    requires absent { entry_at E.key lists.old.held.items (E.key entry) ≡ None }
    requires nonzero { 0 < E.key entry }
    requires small { E.key entry < table.old.map.kept.theta }
    ensures lists { AreLists E.key table.new.map lists.new.held.items lists.new.added.items }
    ensures after { OnOk result (
        in_lists E.key lists.new.held.items lists.new.added.items table.new.map.kept.theta
        ≡ rebuilt E.key (2 ^ table.old.map.lg_nom)
        (with_entry E.key (map_of E.key (lists.old.held.items ++ lists.old.added.items)) entry)
        table.old.map.kept.theta) }
    ensures made_with { table.new.map ≡ record table.old.map { kept = none_below table.new.map.kept.theta } }
    ensures refused { IfErr result (λ kind. kind ≡ OutOfMemory) }
{
    let own = table.retention_theta();
    let lg_nom = table.lg_nom_size();
    let full = lists.held.len() + lists.added.len() == most_entries(lg_nom);
    if !full && lists.added.len() < most_added(lg_nom) {
        lists.added.insert(at, entry)?;
        return Ok(());
    }
    gather(lists)?;
    let Err(place) = place_of(&lists.held, entry.hash()) else {
        return Ok(());
    };
    lists.held.insert(place, entry)?;
    if !full {
        return Ok(());
    }
    let theta = cut_entries(&mut lists.held, own, nominal_size(lg_nom));
    table.set_retention_theta(theta);
    Ok(())
}

/// Merges an entry: into the one of its hash, if there is one, or as a new one. An entry that isn't below theta
/// changes nothing.
fn merge_into<E: SlotEntry + Clone, P: UnionMergePolicy<E>, A: Allocator + Clone>(
    table: &mut SketchHashTable<E, A>,
    lists: &mut Lists<E, A>,
    hash: u64,
    entry: &E,
    policy: &P,
) -> Result<(), Error>
    requires clones_equal { ClonesEqual E.is_clone }
    requires hash_is { hash ≡ E.key entry.now }
    requires lists { AreLists E.key table.old.map lists.old.held.items lists.old.added.items }
    ensures lists { AreLists E.key table.new.map lists.new.held.items lists.new.added.items }
    ensures after { OnOk result (
        let step = merge_step (P.merges policy.now) (P.refuses policy.now) entry.now in
        with_lists E.key lists.new.held.items lists.new.added.items table.new.map
        ≡ after_insertion E.key hash step
        (with_lists E.key lists.old.held.items lists.old.added.items table.old.map)) }
    ensures allowed { OnOk result (
        let step = merge_step (P.merges policy.now) (P.refuses policy.now) entry.now in
        upsert_refusal E.key hash step
        (in_lists E.key lists.old.held.items lists.old.added.items table.old.map.kept.theta)
        ≡ None) }
    ensures made_with { table.new.map ≡ record table.old.map { kept = none_below table.new.map.kept.theta } }
    ensures refused { IfErr result (λ kind.
        let step = merge_step (P.merges policy.now) (P.refuses policy.now) entry.now in
        (upsert_refusal E.key hash step
        (in_lists E.key lists.old.held.items lists.old.added.items table.old.map.kept.theta)
        ≡ Some kind)
        ⊎ (kind ≡ OutOfMemory)) }
{
    if hash == 0 || hash >= table.retention_theta() {
        return Ok(());
    }
    match place_of(&lists.held, hash) {
        Ok(at) => {
            policy.merge(&mut lists.held[at], entry)?;
            return Ok(());
        }
        Err(_) => {}
    }
    match place_of(&lists.added, hash) {
        Ok(at) => {
            policy.merge(&mut lists.added[at], entry)?;
            Ok(())
        }
        Err(at) => put_entry(table, lists, at, entry.clone()?),
    }
}

/// Merges the entries from the hash `from` to below theta, in their order; if they ascend, it stops at the first that
/// isn't below both thetas. For k nominal entries and n in the lists each merged entry takes O(log n) comparisons, and
/// O(√k) entries move, however their hashes were chosen.
#[inline(never)]
pub(crate) fn merge_into_lists<E: SlotEntry + Clone, P: UnionMergePolicy<E>, A: Allocator + Clone>(
    table: &mut SketchHashTable<E, A>,
    lists: &mut Lists<E, A>,
    entries: &[E],
    policy: &P,
    ordered: bool,
    from: u64,
    theta: u64,
) -> Result<(), Error>
    requires clones_equal { ClonesEqual E.is_clone }
    requires apart { IsApart E.key entries.now }
    requires in_order { ordered ≡ true → IsAscending E.key (at_or_above E.key entries.now from) }
    requires lists { AreLists E.key table.old.map lists.old.held.items lists.old.added.items }
    ensures lists { AreLists E.key table.new.map lists.new.held.items lists.new.added.items }
    ensures after { OnOk result (
        HasMerged E.key (P.merges policy.now) (P.refuses policy.now)
        (at_or_above E.key entries.now from) theta
        (with_lists E.key lists.old.held.items lists.old.added.items table.old.map)
        (with_lists E.key lists.new.held.items lists.new.added.items table.new.map)) }
    ensures made_with { table.new.map ≡ record table.old.map { kept = table.new.map.kept } }
    ensures refused { IfErr result (
        IsMergeRefusal E.key (P.refuses policy.now)
        (map_of E.key (lists.old.held.items ++ lists.old.added.items)) theta
        (at_or_above E.key entries.now from)) }
{
    let mut left = entries;
    while let Some((first, others)) = left.split_first() {
        let hash = first.hash();
        if is_past(ordered, hash, theta.min(table.retention_theta())) {
            break;
        }
        if hash >= from && hash < theta {
            merge_into(table, lists, hash, first, policy)?;
        }
        left = others;
    }
    Ok(())
}

/// If there are more than the k nominal entries, lowers theta to the (k+1)th smallest hash and keeps the k entries
/// below it. Refused with `OutOfMemory` alone.
pub(crate) fn trim_lists<E: SlotEntry + Drop, A: Allocator + Clone>(
    table: &mut SketchHashTable<E, A>,
    lists: &mut Lists<E, A>,
) -> Result<(), Error>
    requires lists { AreLists E.key table.old.map lists.old.held.items lists.old.added.items }
    ensures lists { AreLists E.key table.new.map lists.new.held.items lists.new.added.items }
    ensures after { OnOk result (
        with_lists E.key lists.new.held.items lists.new.added.items table.new.map
        ≡ trimmed_table E.key (with_lists E.key lists.old.held.items lists.old.added.items table.old.map)) }
    ensures err { OnErr result (
        with_lists E.key lists.new.held.items lists.new.added.items table.new.map
        ≡ with_lists E.key lists.old.held.items lists.old.added.items table.old.map) }
    ensures refused { IfErr result (λ kind. kind ≡ OutOfMemory) }
{
    gather(lists)?;
    let own = table.retention_theta();
    let theta = cut_entries(&mut lists.held, own, nominal_size(table.lg_nom_size()));
    table.set_retention_theta(theta);
    Ok(())
}

/// Takes the entries of a table into lists. Refused with `OutOfMemory` alone; then the table is unchanged.
pub(crate) fn list_entries<E: SlotEntry + Clone, A: Allocator + Clone>(
    table: &mut SketchHashTable<E, A>,
) -> Result<Lists<E, A>, Error>
    requires clones_equal { ClonesEqual E.is_clone }
    requires of_sketch { MIN_LG_K ≤ table.old.map.lg_nom }
    ensures lists { IfOk result (λ l. AreLists E.key table.new.map l.held.items l.added.items) }
    ensures after { IfOk result (λ l. with_lists E.key l.held.items l.added.items table.new.map ≡ table.old.map) }
    ensures err { OnErr result (table.new.map ≡ table.old.map) }
    ensures refused { IfErr result (λ kind. kind ≡ OutOfMemory) }
{
    let held = table.sorted_entries()?;
    let added = Vec::new(table.allocator().clone()?);
    let theta = table.retention_theta();
    table.reset();
    table.set_retention_theta(theta);
    Ok(Lists { held, added })
}
