//! The table of a union.
ghost use Rattle.std.specs.Prelude.{◌≡◌, ◌^◌, ◌⊎◌, ◌<◌, ◌≤◌, if◌then◌else◌, None, Some, true, false, length, IfOk, OnOk, OnErr, IfErr};
ghost use Rattle.std.specs.Prelude.{IsTrue};
ghost use Rattle.std.specs.Option.{ForSome};
ghost use Rattle.sketch_base.specs.declared.error.ErrorKind.TheVariants.{OutOfMemory};
ghost use Rattle.core_compact.specs.CompactState.{IsCompactOf};
ghost use Rattle.core_laws.specs.Cuts.{cut};
ghost use Rattle.core_laws.specs.Entries.{ClonesEqual};
ghost use Rattle.core_laws.specs.Insertion.{upsert_refusal};
ghost use Rattle.core_laws.specs.Maps.{IsApart, IsAscending};
ghost use Rattle.core_laws.specs.Refusal.{Refuses};
ghost use Rattle.core_laws.specs.Settings.{settings_refusal};
ghost use Rattle.core_table.specs.HashTable.{IsTable, empty_table, after_reset, after_insertion, trimmed_table};
ghost use Rattle.core_table.specs.HashTable.{cut_table, may_insert};
ghost use Rattle.core_operators.specs.Union.{HasMerged, IsMergeRefusal, at_or_above};

use crate::a_not_b::state_of;
use crate::lists::{Lists, cut_clones, list_entries, merge_into_lists, nominal_size, trim_lists};
use core_compact::CompactSketchState;
use core_laws::{MAX_LG_K, MIN_LG_K};
use core_policies::UnionMergePolicy;
use core_slots::{SlotEntry, UpsertStep};
use core_table::{ResizeFactor, SketchHashTable};
use sketch_base::Error;
use std::alloc::{Allocator, Global};
use std::marker::Model;

/// The entries of a union. Contracts see them as those of a `SketchHashTable`.
///
/// They are in the slots of a table until a search there isn't near, which shows that many hashes share a path. From
/// then on, until it is reset, they are in ascending lists, and no slot is searched: so no sequence of inputs makes
/// it slow.
#[derive(Drop)]
pub(crate) struct UnionTable<E: SlotEntry, A: Allocator = Global> {
    // Without entries if there are lists. Its theta and settings hold in any case.
    slots: SketchHashTable<E, A>,
    lists: Option<Lists<E, A>>,
}

impl<E: SlotEntry, A: Allocator> Model for UnionTable<E, A> {
    ghost use Rattle.std.specs.Prelude.{IfSome, is_some};
    ghost use Rattle.std.specs.Option.{option_map_or};
    ghost use Rattle.core_operators.specs.Lists.{Listable, AreLists, with_lists};

    ghost Value = { Listable E };

    ghost view = { λ t. record {
      map = option_map_or (λ l. with_lists E.key l.held.items l.added.items t.slots.map) t.lists t.slots.map;
      listed = is_some t.lists;
    } };

    ghost invariant = { λ t. IfSome t.lists (λ l. AreLists E.key t.slots.map l.held.items l.added.items) };
}

impl<E: SlotEntry, A: Allocator> UnionTable<E, A> {
    /// An empty table, as `SketchHashTable::new` makes it.
    pub(crate) fn new(
        alloc: A,
        lg_nom_size: u8,
        resize_factor: ResizeFactor,
        starting_theta: u64,
        seed: u64,
    ) -> Result<Self, Error>
    where
        A: Drop,
        ensures made { IfOk result (λ t. t.map ≡ empty_table lg_nom_size starting_theta seed) }
        ensures refused { Refuses result (settings_refusal lg_nom_size starting_theta seed) true }
    {
        let slots = SketchHashTable::new(alloc, lg_nom_size, resize_factor, starting_theta, seed)?;
        Ok(UnionTable { slots, lists: None })
    }

    /// How many entries it retains.
    pub(crate) fn num_retained(&self) -> usize {
        match &self.lists {
            None => self.slots.num_retained(),
            Some(lists) => lists.held.len().saturating_add(lists.added.len()),
        }
    }

    /// The theta that all retained hashes are below, from 1 to `MAX_THETA`.
    #[inline(always)]
    pub(crate) fn retention_theta(&self) -> u64
        ensures theta { result ≡ self.now.map.kept.theta }
        ensures sound { IsTable E.key self.now.map }
    {
        self.slots.retention_theta()
    }

    /// The binary logarithm of its nominal entries.
    pub(crate) fn lg_nom_size(&self) -> u8
        ensures { result ≡ self.now.map.lg_nom }
    {
        self.slots.lg_nom_size()
    }

    /// The hash of its seed.
    pub(crate) fn seed_hash(&self) -> u16
        ensures { result ≡ self.now.map.seed_hash }
    {
        self.slots.seed_hash()
    }

    /// The allocator of its entries.
    pub(crate) fn allocator(&self) -> &A {
        self.slots.allocator()
    }

    /// Bytes taken by its slots, including free ones, and by its lists.
    pub(crate) fn estimated_size(&self) -> usize {
        let slots = self.slots.estimated_size();
        match &self.lists {
            None => slots,
            Some(lists) => slots
                .saturating_add(size_of_val(lists.held.as_slice()))
                .saturating_add(size_of_val(lists.added.as_slice())),
        }
    }
}

impl<E: SlotEntry + Drop, A: Allocator + Drop> UnionTable<E, A> {
    /// Removes all entries, and restores the starting theta and the starting number of slots. It allocates nothing.
    pub(crate) fn reset(&mut self)
        requires of_sketch { MIN_LG_K ≤ self.old.map.lg_nom }
        ensures after { self.new.map ≡ after_reset self.old.map }
        ensures in_slots { self.new.listed ≡ false }
    {
        self.slots.reset();
        self.lists = None;
    }
}

impl<E: SlotEntry + Clone, A: Allocator + Clone> UnionTable<E, A> {
    /// Inserts a hash as `SketchHashTable::upsert_near` does, and returns whether it did. It doesn't, and nothing
    /// changes, if its slot isn't near, or if the entries are in lists.
    #[inline(always)]
    pub(crate) fn upsert_near<S: UpsertStep<E> + Drop>(
        &mut self,
        hash: u64,
        step: S,
    ) -> Result<bool, Error>
        requires keeps_hash { (x : E) → E.key x ≡ hash → E.key ((S.means step).writes x) ≡ hash }
        requires makes_hash { ForSome (S.means step).makes (λ x. E.key x ≡ hash) }
        requires room { IsTrue (may_insert E.key hash self.old.map) }
        ensures after { IfOk result (λ done.
            self.new.map ≡ if done then after_insertion E.key hash (S.means step) self.old.map else self.old.map) }
        ensures allowed { IfOk result (λ done.
            done ≡ true → upsert_refusal E.key hash (S.means step) self.old.map.kept ≡ None) }
        ensures err { OnErr result (self.new.map ≡ self.old.map) }
        ensures refused { IfErr result (λ kind.
            (upsert_refusal E.key hash (S.means step) self.old.map.kept ≡ Some kind) ⊎ (kind ≡ OutOfMemory)) }
        ensures listed { self.new.listed ≡ self.old.listed }
        ensures unsearched { self.old.listed ≡ true → IfOk result (λ done. done ≡ false) }
    {
        if self.lists.is_some() {
            return Ok(false);
        }
        self.slots.upsert_near(hash, step)
    }

    /// Merges the entries from the hash `from` to below theta, in their order, after taking those of the slots into
    /// lists, if there are none yet. `ordered` is whether the entries are known to ascend.
    pub(crate) fn merge_listed<P: UnionMergePolicy<E>>(
        &mut self,
        entries: &[E],
        policy: &P,
        ordered: bool,
        from: u64,
        theta: u64,
    ) -> Result<(), Error>
        requires clones_equal { ClonesEqual E.is_clone }
        requires apart { IsApart E.key entries.now }
        requires in_order { ordered ≡ true → IsAscending E.key (at_or_above E.key entries.now from) }
        requires of_sketch { MIN_LG_K ≤ self.old.map.lg_nom }
        ensures after { OnOk result (
            HasMerged E.key (P.merges policy.now) (P.refuses policy.now)
            (at_or_above E.key entries.now from) theta self.old.map self.new.map) }
        ensures made_with { self.new.map ≡ record self.old.map { kept = self.new.map.kept } }
        ensures refused { IfErr result (
            IsMergeRefusal E.key (P.refuses policy.now) self.old.map.kept.entries theta
            (at_or_above E.key entries.now from)) }
        ensures listed { OnOk result (self.new.listed ≡ true) }
    {
        let mut lists = match self.lists.take() {
            Some(lists) => lists,
            None => list_entries(&mut self.slots)?,
        };
        let merged = merge_into_lists(
            &mut self.slots,
            &mut lists,
            entries,
            policy,
            ordered,
            from,
            theta,
        );
        self.lists = Some(lists);
        merged
    }

    /// If more than the k nominal entries are retained, lowers theta to the (k+1)th smallest hash and keeps the k
    /// entries below it. Refused with `OutOfMemory` alone.
    pub(crate) fn trim(&mut self) -> Result<(), Error>
        ensures after { OnOk result (self.new.map ≡ trimmed_table E.key self.old.map) }
        ensures err { OnErr result (self.new.map ≡ self.old.map) }
        ensures refused { Refuses result None true }
    {
        let Some(mut lists) = self.lists.take() else {
            return self.slots.trim();
        };
        let trimmed = trim_lists(&mut self.slots, &mut lists);
        self.lists = Some(lists);
        trimmed
    }

    /// The retained entries below `theta`, from 1 to the table's theta, cut to its nominal entries, as the state of a
    /// sketch that is not empty. It is ordered if `ordered`, or if it has one entry and the greatest theta. The table
    /// is unchanged. Refused with `OutOfMemory` alone.
    pub(crate) fn to_cut_state(
        &self,
        theta: u64,
        ordered: bool,
    ) -> Result<CompactSketchState<E, A>, Error>
        requires clones_equal { ClonesEqual E.is_clone }
        requires small { self.now.map.lg_nom ≤ MAX_LG_K }
        requires low { 0 < theta }
        requires high { theta ≤ self.now.map.kept.theta }
        ensures ok { IfOk result (
            IsCompactOf E.key (cut E.key (2 ^ self.now.map.lg_nom) self.now.map.kept.entries theta)
            self.now.map.seed_hash ordered) }
        ensures refused { Refuses result None true }
    {
        let Some(lists) = &self.lists else {
            return self.slots.to_cut_state(theta, ordered);
        };
        let cut = cut_clones(lists, theta, nominal_size(self.slots.lg_nom_size()))?;
        Ok(state_of(
            cut.entries,
            cut.theta,
            self.slots.seed_hash(),
            false,
            ordered,
        ))
    }

    /// A table of 2^`lg_nom_size` nominal entries, from 2^4 to its own number, with the settings of this one. It
    /// retains the entries of this one below `theta`, from 1 to this table's theta, cut to 2^`lg_nom_size`. This
    /// table is unchanged. Refused with `OutOfMemory` alone.
    pub(crate) fn to_smaller_table(&self, lg_nom_size: u8, theta: u64) -> Result<Self, Error>
        requires clones_equal { ClonesEqual E.is_clone }
        requires of_sketch { MIN_LG_K ≤ lg_nom_size }
        requires small { lg_nom_size ≤ MAX_LG_K }
        requires fewer { lg_nom_size ≤ self.now.map.lg_nom }
        requires low { 0 < theta }
        requires high { theta ≤ self.now.map.kept.theta }
        ensures made { IfOk result (λ t. t.map ≡ cut_table E.key lg_nom_size theta self.now.map) }
        ensures refused { Refuses result None true }
    {
        let mut slots = self.slots.to_smaller_table(lg_nom_size, theta)?;
        let Some(lists) = &self.lists else {
            return Ok(UnionTable { slots, lists: None });
        };
        let cut = cut_clones(lists, theta, nominal_size(lg_nom_size))?;
        slots.set_retention_theta(cut.theta);
        let added = Vec::new(lists.added.allocator().clone()?);
        Ok(UnionTable {
            slots,
            lists: Some(Lists {
                held: cut.entries,
                added,
            }),
        })
    }
}
