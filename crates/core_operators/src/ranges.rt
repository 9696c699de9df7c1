//! Merging the entries of many sketches into a table, one range of hashes after another.
//!
//! Of many sketches whose hashes ascend, only those with the least hashes belong to a union. So the least hashes of
//! all are merged first, up to a bound below which the nominal entries are expected. If these are found, the rest of
//! each sketch is never read.
ghost use Rattle.std.specs.Prelude.{◌≡◌, ◌<◌, ◌≤◌, ◌^◌, if◌then◌else◌, None, Some, true, false, IfOk, IfErr, OnOk};
ghost use Rattle.std.specs.Prelude.{flat_map, map, min};
ghost use Rattle.std.specs.List.{AllByRecursion};
ghost use Rattle.sketch_base.specs.declared.error.ErrorKind.TheVariants.{InvalidArgument};
ghost use Rattle.core_laws.specs.Entries.{ClonesEqual};
ghost use Rattle.core_laws.specs.Refusal.{Refuses};
ghost use Rattle.core_operators.specs.Union.{IsInput, all_empty, least_theta, share_seed, at_or_above, HasMerged};
ghost use Rattle.core_operators.specs.Union.{HasMergedAll, IsRangeRefusal, IsAllRefusal};

use crate::merge::merge_entries;
use crate::union_table::UnionTable;
use crate::view::{EntrySketch, ThetaFamilySketchMetadata};
use core_laws::{MAX_THETA, MIN_LG_K};
use core_policies::UnionMergePolicy;
use sketch_base::{Error, ErrorKind};
use std::alloc::Allocator;

/// What is known of many sketches before they are merged.
#[derive(Clone, Copy)]
pub(crate) struct Inputs {
    /// Whether all are empty.
    pub(crate) empty: bool,
    /// The least theta of all, `MAX_THETA` if there are none.
    pub(crate) theta: u64,
    /// Whether the hashes of all are known to ascend.
    pub(crate) ordered: bool,
}

/// Reads the metadata of sketches. Refused with `InvalidArgument` if one that isn't empty has another seed.
pub(crate) fn inputs_of<S: EntrySketch>(sketches: &[S], seed_hash: u16) -> Result<Inputs, Error>
    ensures empty { IfOk result (λ c. c.empty ≡ all_empty S.shown sketches.now) }
    ensures theta { IfOk result (λ c. c.theta ≡ least_theta S.shown sketches.now) }
    ensures inputs { OnOk result (AllByRecursion (λ s. IsInput S.Entry.key (S.shown s) (S.listing s)) sketches.now) }
    ensures refused { Refuses result
        (if share_seed S.shown seed_hash sketches.now then None else Some InvalidArgument) false }
{
    let mut inputs = Inputs {
        empty: true,
        theta: MAX_THETA,
        ordered: true,
    };
    for sketch in sketches {
        match (*sketch).metadata() {
            ThetaFamilySketchMetadata::Empty { .. } => {}
            ThetaFamilySketchMetadata::NonEmpty {
                seed_hash: own,
                theta,
                ordered,
                ..
            } => {
                if own != seed_hash {
                    return Err(Error::new(ErrorKind::InvalidArgument));
                }
                inputs.empty = false;
                inputs.theta = inputs.theta.min(theta);
                inputs.ordered &= ordered;
            }
        }
    }
    Ok(inputs)
}

/// How many of `count` hashes, spread evenly below `own_theta`, are expected below theta; 0 if theta is below 2^32.
fn share_below(count: usize, own_theta: u64, theta: u64) -> u64 {
    (count as u64).saturating_mul(theta >> 32) / (own_theta >> 32).max(1)
}

/// How many entries a table and sketches are expected to have below theta.
fn expected_below<S: EntrySketch, A: Allocator>(
    table: &UnionTable<S::Entry, A>,
    sketches: &[S],
    theta: u64,
) -> u64 {
    let mut expected = share_below(table.num_retained(), table.retention_theta(), theta);
    for sketch in sketches {
        if let ThetaFamilySketchMetadata::NonEmpty {
            theta: own,
            num_retained,
            ..
        } = (*sketch).metadata()
        {
            expected = expected.saturating_add(share_below(num_retained, own, theta));
        }
    }
    expected
}

/// A bound, from 1 to theta, below which `wanted` hashes are expected, if `count` hashes are below `bound`.
fn bound_of(wanted: u64, count: u64, bound: u64, theta: u64) -> u64
    requires low { 0 < theta }
    ensures low { 0 < result }
    ensures high { result ≤ theta }
{
    (bound / count.max(1))
        .saturating_mul(wanted)
        .clamp(1, theta)
}

/// The end of the range of hashes that begins at `from`, if `count` entries are below `from`. The range is at least
/// `steps` times `from` / 2 long, so that there are few ranges, however the hashes are spread.
fn next_bound(wanted: u64, count: u64, from: u64, theta: u64, steps: u64) -> u64
    requires low { 0 < from }
    requires high { from ≤ theta }
    ensures more { from < theta → from < result }
    ensures high { result ≤ theta }
{
    let step = (from / 2).saturating_mul(steps).saturating_add(1);
    let least = from.saturating_add(step).min(theta);
    bound_of(wanted, count, from, theta).max(least)
}

/// How many entries the first range should have in a union of 2^`lg_k` nominal entries: a quarter more than these, so
/// that it seldom has too few.
fn wanted_of(lg_k: u8) -> u64 {
    let nominal = 1u64.wrapping_shl(lg_k as u32);
    nominal.saturating_add(nominal / 4)
}

/// Merges the entries of sketches whose hashes are from `from` to below `to` into the table of a union, one sketch
/// after another.
fn merge_range<S: EntrySketch, P: UnionMergePolicy<S::Entry>, A: Allocator + Clone>(
    table: &mut UnionTable<S::Entry, A>,
    sketches: &[S],
    policy: &P,
    from: u64,
    to: u64,
) -> Result<(), Error>
where
    S::Entry: Clone,
    requires clones_equal { ClonesEqual S.Entry.is_clone }
    requires of_sketch { MIN_LG_K ≤ table.old.map.lg_nom }
    ensures after { OnOk result (
        HasMerged S.Entry.key (P.merges policy.now) (P.refuses policy.now)
        (at_or_above S.Entry.key (flat_map S.listing sketches.now) from) to table.old.map table.new.map) }
    ensures made_with { table.new.map ≡ record table.old.map { kept = table.new.map.kept } }
    ensures refused { IfErr result (
        IsRangeRefusal S.Entry.key (P.merges policy.now) (P.refuses policy.now) table.old.map from to
        S.listing sketches.now) }
{
    for sketch in sketches {
        match (*sketch).metadata() {
            ThetaFamilySketchMetadata::Empty { .. } => {}
            ThetaFamilySketchMetadata::NonEmpty { ordered, .. } => {
                merge_entries(table, *sketch, policy, ordered, from, to)?;
            }
        }
    }
    Ok(())
}

/// Merges the entries of sketches below theta into the table of a union. If all sketches are ordered, it does so
/// range by range, until the table's theta is in the ranges that were merged.
pub(crate) fn merge_all<S: EntrySketch, P: UnionMergePolicy<S::Entry>, A: Allocator + Clone>(
    table: &mut UnionTable<S::Entry, A>,
    sketches: &[S],
    policy: &P,
    theta: u64,
    ordered: bool,
) -> Result<(), Error>
where
    S::Entry: Clone,
    requires clones_equal { ClonesEqual S.Entry.is_clone }
    requires of_sketch { MIN_LG_K ≤ table.old.map.lg_nom }
    requires inputs { AllByRecursion (λ s. IsInput S.Entry.key (S.shown s) (S.listing s)) sketches.now }
    requires low { 0 < theta }
    requires high { theta ≤ table.old.map.kept.theta }
    ensures whole { OnOk result (
        HasMergedAll S.Entry.key (P.merges policy.now) (P.refuses policy.now) (flat_map S.listing sketches.now)
        theta table.old.map table.new.map) }
    ensures made_with { table.new.map ≡ record table.old.map { kept = table.new.map.kept } }
    ensures refused { IfErr result (
        IsAllRefusal S.Entry.key (P.merges policy.now) (P.refuses policy.now) table.old.map.kept.entries theta
        S.listing sketches.now) }
{
    // By its contract the table's entries keep the laws of a sketch value.
    let own = table.retention_theta();
    let wanted = wanted_of(table.lg_nom_size());
    let held = table.num_retained();
    let mut to = theta;
    if ordered {
        to = bound_of(wanted, expected_below(table, sketches, theta), theta, theta);
    }
    let mut from = 0u64;
    let mut steps = 1u64;
    while from < theta.min(table.retention_theta()) {
        merge_range(table, sketches, policy, from, to)?;
        if to < theta {
            table.trim()?;
        }
        from = to;
        let found = table.num_retained().saturating_sub(held) as u64;
        let count = share_below(held, own, from).saturating_add(found);
        to = next_bound(wanted, count, from, theta, steps);
        steps = steps.saturating_mul(2);
    }
    Ok(())
}
