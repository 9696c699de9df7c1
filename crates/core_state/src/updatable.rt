//! The state of a sketch that takes updates, of either family.
ghost use Rattle.std.specs.Prelude.{◌≡◌, ◌<◌, ◌≤◌, ◌==◌, ◌&&◌, ◌^◌, true, false, not, nat_lt, None, length, IfOk, OnOk};
ghost use Rattle.std.specs.Prelude.{OnErr};
ghost use Rattle.std.specs.List.{concat};
ghost use Rattle.std.specs.Option.{ForSome};
ghost use Rattle.sketch_base.specs.Seed.{hash_of};
ghost use Rattle.core_compact.specs.CompactState.{IsAnswer};
ghost use Rattle.core_laws.specs.Entries.{hash_key, hash_step, ClonesEqual};
ghost use Rattle.core_laws.specs.Refusal.{Refuses};
ghost use Rattle.core_laws.specs.Maps.{IsListing};
ghost use Rattle.core_laws.specs.Settings.{settings_refusal};
ghost use Rattle.core_table.specs.HashTable.{empty_table, after_reset, after_hashes, after_insertion, after_hash};
ghost use Rattle.core_table.specs.HashTable.{trimmed_table};
ghost use Rattle.core_laws.specs.Insertion.{upsert_allocates, RefusesUpsert};
ghost use Rattle.core_state.specs.Updatable.{IsUpdatable, sketch_value, sketch_shows, StopsUpdates};
ghost use Rattle.core_laws.specs.Values.{theta_of, count_of, fraction_of};
ghost use Rattle.core_laws.specs.Shown.{IsShown, shown_value};
ghost use Rattle.estimates.specs.Fraction.{decimal_of};
ghost use Rattle.estimates.specs.declared.fraction.TheConstants.{MAX_PLACES};

use crate::settings::Settings;
use core_compact::CompactSketchState;
use core_laws::MAX_THETA;
use core_operators::EntryIter;
use core_slots::{SlotEntry, ThetaEntry, UpsertStep};
use core_table::SketchHashTable;
use estimates::{Decimal, MAX_PLACES, count_fraction, estimate_decimal};
use sketch_base::Error;
use std::alloc::{Allocator, Global};
use std::hash::Hash;
use std::marker::Model;

/// A table of entries, and whether it is empty: no update was accepted yet. Until then its value is Empty.
#[derive(Drop)]
pub struct UpdatableState<E: SlotEntry, A: Allocator = Global> {
    table: SketchHashTable<E, A>,
    empty: bool,
}

impl<E: SlotEntry, A: Allocator> Model for UpdatableState<E, A> {
    ghost use Rattle.core_state.specs.Updatable.{Updatable, IsUpdatable};

    ghost Value = { Updatable E };

    ghost view = { λ s. record { empty = s.empty; map = s.table.map; sequence = s.table.sequence } };

    ghost invariant = { λ s. IsUpdatable (record { empty = s.empty; map = s.table.map; sequence = s.table.sequence }) };
}

impl<E: SlotEntry, A: Allocator> UpdatableState<E, A> {
    /// An empty state with these settings, in memory of `alloc`. Refused with `InvalidArgument` if a setting is out
    /// of range or the seed hash is 0, and with `OutOfMemory`.
    pub fn new(alloc: A, settings: Settings) -> Result<Self, Error>
    where
        A: Drop,
        ensures empty { IfOk result (λ s. s.empty ≡ true) }
        ensures made { IfOk result (λ s. s.map ≡ empty_table settings.lg_k settings.starting_theta settings.seed) }
        ensures refused { Refuses result (settings_refusal settings.lg_k settings.starting_theta settings.seed) true }
    {
        let table = SketchHashTable::new(
            alloc,
            settings.lg_k(),
            settings.resize_factor(),
            settings.starting_theta(),
            settings.seed(),
        )?;
        Ok(UpdatableState { table, empty: true })
    }

    /// Whether no update was accepted since it was created or last reset.
    pub fn is_empty(&self) -> bool
        ensures { result ≡ self.now.empty }
    {
        self.empty
    }

    /// Whether its estimate may be inexact: it is not empty, and its theta is below `MAX_THETA`.
    pub fn is_estimation_mode(&self) -> bool
        ensures { result ≡ (not self.now.empty && nat_lt self.now.map.kept.theta MAX_THETA) }
    {
        !self.empty && self.table.retention_theta() < MAX_THETA
    }

    /// The theta of its value, from 1 to `MAX_THETA`. It is `MAX_THETA` if the state is empty.
    pub fn theta64(&self) -> u64
        ensures { result ≡ theta_of (sketch_value self.now) }
    {
        if self.empty {
            MAX_THETA
        } else {
            self.table.retention_theta()
        }
    }

    /// How many entries it retains, fewer than 2^32.
    pub fn num_retained(&self) -> usize
        ensures count { result ≡ count_of (sketch_value self.now) }
        ensures listed { result ≡ length self.now.sequence }
        ensures sound { IsShown (sketch_shows E.key self.now) }
    {
        self.table.num_retained()
    }

    /// Called for its clauses alone, where nothing else that is called states them: what holds of every state.
    pub(crate) fn laws(&self)
        ensures limited { length self.now.map.kept.entries < 2 ^ 32 }
        ensures value { shown_value E.key (sketch_shows E.key self.now) self.now.sequence ≡ sketch_value self.now }
    {
        self.table.num_retained();
    }

    /// The estimated number of distinct values seen, as a fraction: the retained entries times `MAX_THETA`, over
    /// theta, not reduced; 0 over 1 if it is empty.
    pub fn estimate_fraction(&self) -> (u128, u128)
        ensures fraction { result ≡ fraction_of (sketch_value self.now) }
        ensures limited { result.0 < 2 ^ 95 }
        ensures sound { IsShown (sketch_shows E.key self.now) }
    {
        count_fraction(
            self.empty,
            self.num_retained(),
            self.table.retention_theta(),
        )
    }

    /// The estimate as a decimal number with `places` decimals, from 0 to 19, rounded down; 0 if it is empty.
    pub fn estimate_decimal(&self, places: u32) -> Decimal
        requires limited { places ≤ MAX_PLACES }
        ensures { result ≡ decimal_of (fraction_of (sketch_value self.now)) places }
    {
        estimate_decimal(self.estimate_fraction(), places)
    }

    /// The binary logarithm of its nominal entries, from 4 to 26.
    pub fn lg_k(&self) -> u8
        ensures { result ≡ self.now.map.lg_nom }
    {
        self.table.lg_nom_size()
    }

    /// The hash of its seed.
    pub fn seed_hash(&self) -> u16
        ensures { result ≡ self.now.map.seed_hash }
    {
        self.table.seed_hash()
    }

    /// The hash of a value under its seed, of 63 bits.
    pub fn hash<T: Hash + Drop>(&self, value: T) -> u64
        ensures { result ≡ hash_of self.now.map.seed (concat (T.hash_input value)) }
    {
        self.table.hash(value)
    }

    /// Its entries, each once, in an unspecified order.
    pub fn entries(&self) -> EntryIter<'_, E>
        ensures listed { result ≡ record { rest = self.now.sequence; counted = false } }
        ensures each_once { IsListing E.key self.now.map.kept.entries self.now.sequence }
        ensures sound { IsShown (sketch_shows E.key self.now) }
    {
        EntryIter::of_table(&self.table)
    }

    /// Bytes taken by the slots of its table, including free ones.
    pub fn estimated_size(&self) -> usize {
        self.table.estimated_size()
    }
}

impl<E: SlotEntry + Drop, A: Allocator> UpdatableState<E, A> {
    /// Makes it empty again, with its starting theta. It allocates nothing.
    pub fn reset(&mut self)
        ensures empty { self.new.empty ≡ true }
        ensures map { self.new.map ≡ after_reset self.old.map }
    {
        self.table.reset();
        self.empty = true;
    }
}

impl<E: SlotEntry + Drop, A: Allocator + Clone> UpdatableState<E, A> {
    /// Applies a step to the entry of a hash: the step changes the retained entry, or may create one. A hash that is
    /// 0 or at least theta is not retained, but the state becomes nonempty.
    ///
    /// Refused with the step's error, or with `OutOfMemory`; then nothing has changed, emptiness included.
    #[inline(always)]
    pub fn upsert<S: UpsertStep<E> + Drop>(&mut self, hash: u64, step: S) -> Result<(), Error>
        requires keeps_hash { (x : E) → E.key x ≡ hash → E.key ((S.means step).writes x) ≡ hash }
        requires makes_hash { ForSome (S.means step).makes (λ x. E.key x ≡ hash) }
        ensures nonempty { OnOk result (self.new.empty ≡ false) }
        ensures after { OnOk result (self.new.map ≡ after_insertion E.key hash (S.means step) self.old.map) }
        ensures err_empty { OnErr result (self.new.empty ≡ self.old.empty) }
        ensures err { OnErr result (self.new.map ≡ self.old.map) }
        ensures refused { RefusesUpsert result E.key hash (S.means step) self.old.map.kept }
    {
        self.table.upsert_entry(hash, step)?;
        self.empty = false;
        Ok(())
    }

    /// If more than k entries are retained, where k is 2^`lg_k`, lowers theta to the (k+1)th smallest hash and keeps
    /// the k entries below it.
    ///
    /// Refused with `OutOfMemory` alone, and only if more than k are retained; then nothing has changed.
    pub fn trim(&mut self) -> Result<(), Error>
        ensures same_emptiness { self.new.empty ≡ self.old.empty }
        ensures after { OnOk result (self.new.map ≡ trimmed_table E.key self.old.map) }
        ensures err { OnErr result (self.new.map ≡ self.old.map) }
        ensures refused { Refuses result None (nat_lt (2 ^ self.old.map.lg_nom) (length self.old.map.kept.entries)) }
    {
        self.table.trim()?;
        Ok(())
    }
}

impl<E: SlotEntry + Clone, A: Allocator + Clone> UpdatableState<E, A> {
    /// A copy of the state: with the same entries, theta and settings, but perhaps in another order. Refused with
    /// `OutOfMemory` alone.
    pub fn clone(&self) -> Result<Self, Error>
        requires clones_equal { ClonesEqual E.is_clone }
        ensures empty { IfOk result (λ s. s.empty ≡ self.now.empty) }
        ensures copied { IfOk result (λ s. s.map ≡ self.now.map) }
        ensures refused { Refuses result None true }
    {
        let empty = self.empty;
        let table = self.table.clone()?;
        Ok(UpdatableState { table, empty })
    }

    /// Its compact form, with the same value, untrimmed. The result is ordered if `ordered` is true, if it is empty,
    /// or if it has one entry at the greatest theta. Refused with `OutOfMemory` alone.
    pub fn compact(&self, ordered: bool) -> Result<CompactSketchState<E, A>, Error>
        requires clones_equal { ClonesEqual E.is_clone }
        ensures ok { IfOk result (IsAnswer E.key (sketch_value self.now) self.now.map.seed_hash ordered) }
        ensures refused { Refuses result None true }
    {
        self.laws();
        let state = if self.empty {
            CompactSketchState::empty(self.table.allocator().clone()?, self.seed_hash())
        } else {
            self.table.to_non_empty_compact_state(ordered)?
        };
        Ok(state)
    }
}

impl<A: Allocator + Clone> UpdatableState<ThetaEntry, A> {
    /// Inserts a hash, which is its own entry. A hash that is 0 or at least theta is not retained, but the state
    /// becomes nonempty.
    ///
    /// Refused with `OutOfMemory` alone, and only for a new hash below theta; then nothing has changed, emptiness
    /// included.
    #[inline(always)]
    pub fn insert_hash(&mut self, hash: u64) -> Result<(), Error>
        ensures nonempty { OnOk result (self.new.empty ≡ false) }
        ensures after { OnOk result (self.new.map ≡ after_hash hash self.old.map) }
        ensures err_empty { OnErr result (self.new.empty ≡ self.old.empty) }
        ensures err { OnErr result (self.new.map ≡ self.old.map) }
        ensures refused { Refuses result None (upsert_allocates hash_key hash (hash_step hash) self.old.map.kept) }
    {
        self.table.try_insert_hash(hash)?;
        self.empty = false;
        Ok(())
    }

    /// Inserts hashes in their order, each as `insert_hash` does; the slots of up to 256 of them are read side by
    /// side. Afterwards the state is nonempty, unless it was empty and there were no hashes.
    ///
    /// Refused with `OutOfMemory` alone, and only at a new hash below theta; then exactly the hashes before it have
    /// been inserted, and the same call may be repeated.
    pub fn insert_hashes(&mut self, hashes: &[u64]) -> Result<(), Error>
        ensures after { OnOk result (self.new.map ≡ after_hashes hashes.now self.old.map) }
        ensures empty { OnOk result (self.new.empty ≡ (self.old.empty && length hashes.now == 0)) }
        ensures err { OnErr result (StopsUpdates hashes.now self.old self.new) }
        ensures refused { Refuses result None true }
    {
        let Some((first, others)) = hashes.split_first() else {
            return Ok(());
        };
        // The first is inserted alone: after it the state is nonempty, even if a later one is refused.
        self.insert_hash(*first)?;
        self.table.insert_hashes(others)
    }
}
