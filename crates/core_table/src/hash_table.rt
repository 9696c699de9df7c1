//! The table of retained entries.
ghost use Rattle.std.specs.Prelude.{◌≡◌, ◌==◌, ◌⊎◌, ◌&&◌, if◌then◌else◌, ◌+◌, ◌-◌, ◌*◌, ◌/◌, ◌<◌, ◌≤◌, ◌^◌, []};
ghost use Rattle.std.specs.Prelude.{not, true, false, None, is_none, nat_lt, length, take, Some, IfOk, IfErr, IsOk};
ghost use Rattle.std.specs.Prelude.{OnOk, OnErr, IsTrue};
ghost use Rattle.std.specs.List.{AllByRecursion, concat};
ghost use Rattle.std.specs.Option.{ForSome, option_copied};
ghost use Rattle.sketch_base.specs.Seed.{hash_of};
ghost use Rattle.core_compact.specs.CompactState.{IsCompactOf};
ghost use Rattle.core_laws.specs.Maps.{entry_at, map_of, IsListing};
ghost use Rattle.core_laws.specs.Cuts.{cut, none_below};
ghost use Rattle.core_laws.specs.Entries.{hash_key, ClonesEqual};
ghost use Rattle.core_laws.specs.Refusal.{Refuses};
ghost use Rattle.core_laws.specs.Settings.{settings_refusal};
ghost use Rattle.core_table.specs.HashTable.{Table, IsTable, IsSized, IsSeedHash, empty_table, set_table};
ghost use Rattle.core_table.specs.HashTable.{after_reset, after_hashes, lg_size_for, whole_log, has_room};
ghost use Rattle.core_table.specs.HashTable.{may_insert, threshold, sub_multiple, slots_of_operator, nothing_done};
ghost use Rattle.core_table.specs.HashTable.{ticked, key_hash, after_insertion, trimmed_table, cut_table};
ghost use Rattle.core_table.specs.HashTable.{StopsAtMemory, counts_after, lg_cur_after, counts_after_trim};
ghost use Rattle.core_table.specs.HashTable.{Inserts, InsertsHash, Works};
ghost use Rattle.core_table.specs.ResizeFactor.{lg_of};
ghost use Rattle.core_slots.specs.SlotLayout.{filled, slot, is_other, IsOnPath, IsLaidOut, entries_in, slot_map};
ghost use Rattle.core_slots.specs.Placing.{LooksForEach, LooksAtPlaced};
ghost use Rattle.core_slots.specs.Entry.{tuple_key, entry_step};
ghost use Rattle.core_table.specs.declared.hash_table.TheConstants.{BLOCK};
ghost use Rattle.core_laws.specs.Insertion.{IsRedundant, Drops, is_screened, upsert_refusal};
ghost use Rattle.core_slots.specs.declared.slots.TheConstants.{NEAR};
ghost use Rattle.core_table.specs.Filling.{IsFill};
ghost use Rattle.sketch_base.specs.declared.error.ErrorKind.TheVariants.{OutOfMemory};

use crate::answering::{cut_theta, entries_below, sorted_by_hash, state_below};
use crate::clearing::{clear_slots, operator_slots};
use crate::insertion::{
    Counts, Sizes, cut_slots, nominal_size, nothing, put_entry, size_for, starting_size,
    threshold_of, write_at,
};
use crate::iter::SketchHashTableIter;
use crate::resize_factor::ResizeFactor;
use core_compact::CompactSketchState;
use core_laws::{MAX_LG_K, MAX_THETA, MIN_LG_K, MIN_LG_SLOTS};
use core_slots::{
    Count, EntryStep, Place, PutStep, SlotEntry, ThetaEntry, TupleEntry, UpsertStep, drop_retained,
    free_slots, seek, seek_near, settle_all,
};
use sketch_base::{Error, ErrorKind, MurmurHash3X64128, compute_seed_hash};
use std::alloc::{AllocError, Allocator, Global};
use std::hash::{Hash, Hasher};
use std::marker::{Model, PhantomData};

/// The entries of a sketch below its theta. Contracts see them as a map, ascending by hash, and the theta.
///
/// Let k be its nominal entries, a power of 2. If k is at least 8, an insertion that brings the retained entries
/// above 15k/8 lowers theta to the (k+1)th smallest hash, and exactly the k entries below it stay.
///
/// It stores its entries by open addressing in at most 2k slots. Only contracts see the counts of its work; those of
/// `insert_hashes` say only that the count of looks doesn't decrease.
#[derive(Drop)]
pub struct SketchHashTable<E: SlotEntry, A: Allocator = Global> {
    lg_cur_size: u8,
    lg_nom_size: u8,
    resize_factor: ResizeFactor,
    has_slots: bool,
    // How many entries the slots may have before they grow or are rebuilt: `threshold_of` their sizes, stored since
    // each insertion needs it. 0 without slots.
    threshold: usize,
    starting_theta: u64,
    seed: u64,
    seed_hash: u16,
    theta: u64,
    count: usize,
    slots: Vec<E::Slot, A>,
    counts: Counts,
    // No bytes: it names the entries, since the type of a slot doesn't show their lifetimes.
    of: PhantomData<E>,
}

impl<E: SlotEntry, A: Allocator> Model for SketchHashTable<E, A> {
    ghost use Rattle.std.specs.Prelude.{true, map};
    ghost use Rattle.core_slots.specs.SlotLayout.{entries_in, slot_map};
    ghost use Rattle.core_table.specs.ResizeFactor.{lg_of};
    ghost use Rattle.core_table.specs.HashTable.{Table, IsProbing};

    ghost Value = { Table E };

    ghost view = { λ t. record {
      map = record {
        kept = record { entries = slot_map E.key E.content t.slots.items; theta = t.theta };
        lg_nom = t.lg_nom_size;
        has_slots = t.has_slots;
        start = t.starting_theta;
        seed = t.seed;
        seed_hash = t.seed_hash;
      };
      sequence = entries_in E.content t.slots.items;
      layout = record {
        lg_cur = t.lg_cur_size;
        grow = lg_of t.resize_factor;
        slots = map E.content t.slots.items;
      };
      counts = t.counts;
    } };

    ghost invariant = { λ t. IsProbing E.key
        (record {
          kept = record { entries = slot_map E.key E.content t.slots.items; theta = t.theta };
          lg_nom = t.lg_nom_size;
          has_slots = t.has_slots;
          start = t.starting_theta;
          seed = t.seed;
          seed_hash = t.seed_hash;
        })
        t.lg_cur_size (lg_of t.resize_factor) t.threshold t.count (map E.content t.slots.items) t.counts };
}

impl<E: SlotEntry, A: Allocator> SketchHashTable<E, A> {
    /// An empty table of 2^`lg_nom_size` nominal entries, with `lg_nom_size` from 4 to 26, and a starting theta from
    /// 1 to `MAX_THETA`.
    ///
    /// Refused with `InvalidArgument` outside these ranges and for a seed whose seed hash is 0; with `OutOfMemory` if
    /// memory runs out. The resize factor, by which the slots grow, has no effect on the retained entries and theta.
    pub fn new(
        alloc: A,
        lg_nom_size: u8,
        resize_factor: ResizeFactor,
        starting_theta: u64,
        seed: u64,
    ) -> Result<Self, Error>
    where
        A: Drop,
        ensures made { IfOk result (λ t. t.map ≡ empty_table lg_nom_size starting_theta seed) }
        ensures refused { Refuses result (settings_refusal lg_nom_size starting_theta seed) true }
        ensures sized { IfOk result (λ t.
            t.layout.lg_cur ≡ sub_multiple (lg_nom_size + 1) MIN_LG_SLOTS (lg_of resize_factor)) }
        ensures grows { IfOk result (λ t. t.layout.grow ≡ lg_of resize_factor) }
        ensures nothing_done { IfOk result (λ t. t.counts ≡ nothing_done) }
    {
        let size_fits = MIN_LG_K <= lg_nom_size && lg_nom_size <= MAX_LG_K;
        if !size_fits || starting_theta == 0 || starting_theta > MAX_THETA {
            return Err(Error::new(ErrorKind::InvalidArgument));
        }
        let seed_hash = compute_seed_hash(seed, ErrorKind::InvalidArgument)?;
        let lg_cur_size = starting_size(lg_nom_size, resize_factor.lg_value());
        let slots = free_slots::<E, A>(alloc, lg_cur_size)?;
        Ok(SketchHashTable {
            lg_cur_size,
            lg_nom_size,
            resize_factor,
            has_slots: true,
            threshold: threshold_of(lg_cur_size, lg_nom_size),
            starting_theta,
            seed,
            seed_hash,
            theta: starting_theta,
            count: 0,
            slots,
            counts: nothing(),
            of: PhantomData,
        })
    }

    /// An empty table of an operator. It retains hashes below `retention_theta`, from 1 to `MAX_THETA`. It has
    /// 2^`lg_cur_size` slots, at most 2^33, for 2^`lg_nom_size` nominal entries, half as many; or no slots and one
    /// nominal entry if both logarithms are 0. Its starting theta is `MAX_THETA`, and `seed_hash` is the hash of
    /// `seed`, which is not 0.
    ///
    /// Refused with `OutOfMemory` alone, and never without slots.
    pub fn for_set_operation(
        alloc: A,
        lg_cur_size: u8,
        lg_nom_size: u8,
        retention_theta: u64,
        seed: u64,
        seed_hash: u16,
    ) -> Result<Self, Error>
    where
        A: Drop,
        requires sized { IsSized lg_cur_size lg_nom_size }
        requires size_high { lg_cur_size ≤ 33 }
        requires theta_low { 0 < retention_theta }
        requires theta_high { retention_theta ≤ MAX_THETA }
        requires of_seed { IsSeedHash seed seed_hash }
        ensures made { IfOk result (λ t.
            t.map ≡ set_table lg_nom_size (not (lg_cur_size == 0)) retention_theta seed seed_hash) }
        ensures refused { Refuses result None (not (lg_cur_size == 0)) }
        ensures slots { IfOk result (λ t. length t.layout.slots ≡ slots_of_operator lg_cur_size) }
        ensures nothing_done { IfOk result (λ t. t.counts ≡ nothing_done) }
        ensures size { IfOk result (λ t. t.layout.lg_cur ≡ lg_cur_size) }
        ensures fixed { IfOk result (λ t. t.layout.grow ≡ 0) }
    {
        let slots = operator_slots::<E, A>(alloc, lg_cur_size)?;
        Ok(SketchHashTable {
            lg_cur_size,
            lg_nom_size,
            resize_factor: ResizeFactor::X1,
            has_slots: lg_cur_size != 0,
            threshold: threshold_of(lg_cur_size, lg_nom_size),
            starting_theta: MAX_THETA,
            seed,
            seed_hash,
            theta: retention_theta,
            count: 0,
            slots,
            counts: nothing(),
            of: PhantomData,
        })
    }

    /// The binary logarithm of a number of slots of which `count` entries are at most fifteen sixteenths, so that
    /// they are rebuilt only beyond `count` entries. From 1, for no entry or one, to 65.
    pub fn lg_size_from_count_for_rebuild(count: usize) -> u8
        ensures { result ≡ lg_size_for count }
    {
        let lg = whole_log(count);
        let filled = (FILLED_SIXTEENTHS << (lg + 1)) / 16;
        if count as u128 > filled {
            lg + 2
        } else {
            lg + 1
        }
    }

    /// How many entries its slots may have before they grow or are rebuilt: half of the slots while they can grow,
    /// then fifteen sixteenths, which is 15k/8 in a table of `new`; 0 without slots.
    pub fn capacity_threshold(&self) -> usize
        ensures threshold { self.now.map.has_slots ≡ true
            → result ≡ threshold self.now.layout.lg_cur self.now.map.lg_nom }
        ensures none { self.now.map.has_slots ≡ false → result ≡ 0 }
        ensures laid_out { self.now.map.has_slots ≡ true
            → IsLaidOut E.key self.now.layout.lg_cur self.now.layout.slots }
        ensures limited { self.now.map.has_slots ≡ true
            → length self.now.map.kept.entries ≤ threshold self.now.layout.lg_cur self.now.map.lg_nom }
        ensures slots { self.now.map.has_slots ≡ true → self.now.layout.lg_cur ≤ self.now.map.lg_nom + 1 }
        ensures rebuilds { 7 * 2 ^ self.now.map.lg_nom * self.now.counts.rebuilds ≤ 8 * self.now.counts.inserted }
        ensures placed { self.now.counts.trims ≡ 0 → self.now.counts.placed ≤ 3 * self.now.counts.inserted }
        ensures listed { self.now.sequence ≡ filled self.now.layout.slots }
        ensures content { self.now.map.kept.entries ≡ map_of E.key (filled self.now.layout.slots) }
        ensures free { self.now.map.has_slots ≡ true → length self.now.map.kept.entries < length self.now.layout.slots }
        ensures slotless { self.now.map.has_slots ≡ false → self.now.layout.slots ≡ [] }
    {
        self.threshold
    }

    /// How many entries it retains; each of their hashes is below its theta.
    pub fn num_retained(&self) -> usize
        ensures count { result ≡ length self.now.map.kept.entries }
        ensures each_once { IsListing E.key self.now.map.kept.entries self.now.sequence }
        ensures sound { IsTable E.key self.now.map }
    {
        self.count
    }

    /// The theta that all retained hashes are below, from 1 to `MAX_THETA`.
    pub fn retention_theta(&self) -> u64
        ensures theta { result ≡ self.now.map.kept.theta }
        ensures sound { IsTable E.key self.now.map }
    {
        self.theta
    }

    /// Whether there is room for one more entry: always in a table of 16 slots or more, which is rebuilt before it is
    /// full; in a table with fewer slots, while two of them are free; never without slots.
    #[inline(always)]
    pub fn has_room(&self) -> bool
        ensures { result ≡ has_room self.now.map }
    {
        if self.lg_nom_size >= ALWAYS_ROOM_LG_NOM {
            return true;
        }
        let count = self.num_retained();
        self.has_slots && count < 2 * nominal_size(self.lg_nom_size) - 1
    }

    /// Sets the theta that retained hashes are below, from 1 to `MAX_THETA`. It must be above every retained hash.
    pub fn set_retention_theta(&mut self, retention_theta: u64)
        requires low { 0 < retention_theta }
        requires high { retention_theta ≤ MAX_THETA }
        requires above { AllByRecursion (λ x. E.key x < retention_theta) self.old.map.kept.entries }
        ensures after { self.new.map
            ≡ record self.old.map { kept = record self.old.map.kept { theta = retention_theta } } }
        ensures layout { self.new.layout ≡ self.old.layout }
        ensures counts { self.new.counts ≡ self.old.counts }
    {
        self.theta = retention_theta;
    }

    /// The binary logarithm of its nominal entries.
    pub fn lg_nom_size(&self) -> u8
        ensures { result ≡ self.now.map.lg_nom }
    {
        self.lg_nom_size
    }

    /// The seed that it was made with.
    pub fn seed(&self) -> u64
        ensures { result ≡ self.now.map.seed }
    {
        self.seed
    }

    /// The hash of its seed.
    pub fn seed_hash(&self) -> u16
        ensures { result ≡ self.now.map.seed_hash }
    {
        self.seed_hash
    }

    /// The retained entry of a hash.
    pub fn entry(&self, hash: u64) -> Option<&E>
        ensures { option_copied result ≡ entry_at E.key self.now.map.kept.entries hash }
    {
        let has_slots = self.has_slots;
        if !has_slots {
            return None;
        }
        let mut looks = Count::new();
        let place = seek::<E>(&self.slots, self.lg_cur_size, hash, &mut looks);
        E::in_slot(&self.slots[place.at])
    }

    /// The hash of a value under the table's seed: the first half of MurmurHash3 x64 128 over the bytes that the
    /// value writes, shifted right by one, so of 63 bits.
    pub fn hash<T: Hash + Drop>(&self, value: T) -> u64
        ensures { result ≡ hash_of self.now.map.seed (concat (T.hash_input value)) }
    {
        let mut hasher = MurmurHash3X64128::with_seed(self.seed);
        value.hash(&mut hasher);
        hasher.finish() >> 1
    }

    /// The allocator of its slots.
    pub fn allocator(&self) -> &A {
        self.slots.allocator()
    }

    /// Bytes taken by its slots, including free ones.
    pub fn estimated_size(&self) -> usize {
        size_of_val(self.slots.as_slice())
    }

    /// Each retained entry once, in an unspecified order.
    pub fn iter_entries(&self) -> SketchHashTableIter<'_, E>
        ensures listed { result ≡ self.now.sequence }
        ensures each_once { IsListing E.key self.now.map.kept.entries self.now.sequence }
        ensures fits { length self.now.sequence < 2 ^ 64 }
        ensures sound { IsTable E.key self.now.map }
    {
        SketchHashTableIter::over(&self.slots)
    }
}

impl<E: SlotEntry, A: Allocator> SketchHashTable<E, A> {
    /// Removes all entries and restores the starting theta and the starting number of slots. It allocates nothing.
    /// The table must be one of a sketch, whose nominal logarithm is at least 4.
    pub fn reset(&mut self)
        requires of_sketch { MIN_LG_K ≤ self.old.map.lg_nom }
        ensures after { self.new.map ≡ after_reset self.old.map }
        ensures size { self.new.layout.lg_cur
            ≡ sub_multiple (self.old.map.lg_nom + 1) MIN_LG_SLOTS self.old.layout.grow }
        ensures grows { self.new.layout.grow ≡ self.old.layout.grow }
        ensures nothing_done { self.new.counts ≡ nothing_done }
    {
        let lg_cur_size = starting_size(self.lg_nom_size, self.resize_factor.lg_value());
        clear_slots::<E, A>(&mut self.slots, nominal_size(lg_cur_size));
        self.lg_cur_size = lg_cur_size;
        self.threshold = threshold_of(lg_cur_size, self.lg_nom_size);
        self.theta = self.starting_theta;
        self.count = 0;
        self.counts = nothing();
    }

    /// Removes all entries, and keeps its theta and its slots. It allocates nothing.
    pub fn clear(&mut self)
        ensures after { self.new.map ≡ record self.old.map { kept = none_below self.old.map.kept.theta } }
        ensures size { length self.new.layout.slots ≡ length self.old.layout.slots }
        ensures layout { (self.new.layout.lg_cur ≡ self.old.layout.lg_cur)
            × (self.new.layout.grow ≡ self.old.layout.grow) }
        ensures counts { self.new.counts ≡ self.old.counts }
    {
        let size = self.slots.len();
        clear_slots::<E, A>(&mut self.slots, size);
        self.count = 0;
    }
}

impl<E: SlotEntry + Drop, A: Allocator + Clone> SketchHashTable<E, A> {
    /// Inserts a hash: the step writes the entry that has it, or else makes one. Returns whether it made an entry.
    ///
    /// A hash that is 0 or at least theta is screened: no step is called, nothing changes and the result is false.
    /// Any other hash must be retained already, or there must be room for one more entry. Refused with the step's
    /// error, or with `OutOfMemory`; then nothing has changed.
    ///
    /// Below `capacity_threshold` an insertion is refused memory only if its step may allocate.
    #[inline(always)]
    pub fn upsert_entry<S: UpsertStep<E> + Drop>(
        &mut self,
        hash: u64,
        step: S,
    ) -> Result<bool, Error>
        requires keeps_hash { (x : E) → E.key x ≡ hash → E.key ((S.means step).writes x) ≡ hash }
        requires makes_hash { ForSome (S.means step).makes (λ x. E.key x ≡ hash) }
        requires room { IsTrue (may_insert E.key hash self.old.map) }
        ensures inserts { Inserts E.key hash (S.means step) self.old result self.new }
        ensures seldom { (self.new.counts.rebuilds ≡ self.old.counts.rebuilds)
            ⊎ (7 * 2 ^ self.old.map.lg_nom < 8 * (self.old.counts.fresh + 1)) }
        ensures works { Works hash self.old result self.new }
    {
        // After many insertions most hashes are at least theta, so this is checked first.
        if hash >= self.theta || hash == 0 {
            return Ok(false);
        }
        let place = seek::<E>(&self.slots, self.lg_cur_size, hash, &mut self.counts.looks);
        self.upsert_at(hash, place, step)
    }

    /// Does what `upsert_entry` does, at the place where a search for the hash ended, which isn't screened. It counts
    /// the looks of growth or a rebuild alone.
    #[inline(always)]
    fn upsert_at<S: UpsertStep<E> + Drop>(
        &mut self,
        hash: u64,
        place: Place,
        step: S,
    ) -> Result<bool, Error>
        requires keeps_hash { (x : E) → E.key x ≡ hash → E.key ((S.means step).writes x) ≡ hash }
        requires makes_hash { ForSome (S.means step).makes (λ x. E.key x ≡ hash) }
        requires room { IsTrue (may_insert E.key hash self.old.map) }
        requires passes { is_screened hash self.old.map.kept.theta ≡ false }
        requires inside { place.at < length self.old.layout.slots }
        requires on_path { IsOnPath E.key self.old.layout.lg_cur self.old.layout.slots hash place.at }
        requires ends { is_other E.key hash (slot self.old.layout.slots place.at) ≡ false }
        requires is_free { place.is_free ≡ is_none (slot self.old.layout.slots place.at) }
        ensures inserts { Inserts E.key hash (S.means step) self.old result self.new }
        ensures ticked { IfOk result (λ created.
            self.new.counts ≡ record (counts_after self.old created) { looks = self.new.counts.looks }) }
        ensures unticked { OnErr result (self.new.counts ≡ record self.old.counts { looks = self.new.counts.looks }) }
        ensures sized { IfOk result (λ created. self.new.layout.lg_cur ≡ lg_cur_after self.old created) }
        ensures grows { self.new.layout.grow ≡ self.old.layout.grow }
        ensures seldom { (self.new.counts.rebuilds ≡ self.old.counts.rebuilds)
            ⊎ (7 * 2 ^ self.old.map.lg_nom < 8 * (self.old.counts.fresh + 1)) }
        ensures looks { LooksAtPlaced (self.new.counts.placed - self.old.counts.placed) self.old.counts.looks
            self.new.counts.looks }
        ensures looked { LooksForEach (self.new.counts.placed - self.old.counts.placed) self.old.counts.looks
            self.new.counts.looks }
        ensures layout_err { OnErr result (self.new.layout ≡ self.old.layout) }
    {
        if !place.is_free {
            write_at::<E, S>(&mut self.slots, place.at, step)?;
            return Ok(false);
        }
        match step.absent()? {
            None => Ok(false),
            Some(entry) => {
                let settled = put_entry::<E, A>(
                    &mut self.slots,
                    Sizes {
                        lg_cur: self.lg_cur_size,
                        lg_nom: self.lg_nom_size,
                        grow: self.resize_factor.lg_value(),
                        most: self.threshold,
                        count: self.count,
                        theta: self.theta,
                    },
                    place.at,
                    entry,
                    &mut self.counts,
                )?;
                self.lg_cur_size = settled.lg_cur;
                self.threshold = settled.most;
                self.theta = settled.theta;
                self.count = settled.count;
                Ok(true)
            }
        }
    }

    /// Does what `upsert_entry` does, if the search for the hash ends within `NEAR` looks at slots, and returns
    /// whether it did. Otherwise nothing changes. Refused as `upsert_entry` is.
    #[inline(always)]
    pub fn upsert_near<S: UpsertStep<E> + Drop>(
        &mut self,
        hash: u64,
        step: S,
    ) -> Result<bool, Error>
        requires keeps_hash { (x : E) → E.key x ≡ hash → E.key ((S.means step).writes x) ≡ hash }
        requires makes_hash { ForSome (S.means step).makes (λ x. E.key x ≡ hash) }
        requires room { IsTrue (may_insert E.key hash self.old.map) }
        ensures after { IfOk result (λ done.
            self.new.map ≡ if done then after_insertion E.key hash (S.means step) self.old.map else self.old.map) }
        ensures allowed { IfOk result (λ done.
            done ≡ true → upsert_refusal E.key hash (S.means step) self.old.map.kept ≡ None) }
        ensures err { OnErr result (self.new.map ≡ self.old.map) }
        ensures refused { IfErr result (λ kind.
            (upsert_refusal E.key hash (S.means step) self.old.map.kept ≡ Some kind) ⊎ (kind ≡ OutOfMemory)) }
        ensures grows { self.new.layout.grow ≡ self.old.layout.grow }
        ensures far { IfOk result (λ done. done ≡ false → self.new.counts.looks ≡ self.old.counts.looks + NEAR) }
        ensures near { let placed = self.new.counts.placed - self.old.counts.placed in
            2 * self.new.counts.looks ≤ 2 * (self.old.counts.looks + NEAR) + placed * (placed + 1) }
    {
        // After many insertions most hashes are at least theta, so this is checked first.
        if self.theta <= hash || hash == 0 {
            return Ok(true);
        }
        let found = seek_near::<E>(&self.slots, self.lg_cur_size, hash, &mut self.counts.looks);
        let Some(place) = found else {
            return Ok(false);
        };
        self.upsert_at(hash, place, step)?;
        Ok(true)
    }

    /// If more than the k nominal entries are retained, lowers theta to the (k+1)th smallest hash and keeps the k
    /// entries below it.
    ///
    /// Refused with `OutOfMemory` alone, and only if more than k are retained; then nothing has changed.
    pub fn trim(&mut self) -> Result<(), Error>
        ensures after { OnOk result (self.new.map ≡ trimmed_table E.key self.old.map) }
        ensures err { OnErr result (self.new.map ≡ self.old.map) }
        ensures refused { Refuses result None (nat_lt (2 ^ self.old.map.lg_nom) (length self.old.map.kept.entries)) }
        ensures ticked { OnOk result (self.new.counts ≡ counts_after_trim self.old) }
        ensures sized { self.new.layout.lg_cur ≡ self.old.layout.lg_cur }
        ensures grows { self.new.layout.grow ≡ self.old.layout.grow }
        ensures looks_kept { self.old.counts.looks ≤ self.new.counts.looks }
        ensures counts_err { OnErr result (self.new.counts ≡ self.old.counts) }
        ensures layout_err { OnErr result (self.new.layout ≡ self.old.layout) }
    {
        let nominal = nominal_size(self.lg_nom_size);
        let has_slots = self.has_slots;
        if !has_slots || self.count <= nominal {
            return Ok(());
        }
        let old_theta = self.theta;
        let theta = cut_slots::<E, A>(
            &mut self.slots,
            self.lg_cur_size,
            self.count,
            nominal,
            old_theta,
            &mut self.counts.placed,
        )?;
        self.theta = theta;
        self.count = nominal;
        self.counts.trims.tick();
        Ok(())
    }
}

impl<E: SlotEntry + Clone, A: Allocator + Clone> SketchHashTable<E, A> {
    /// The retained entries as the state of a sketch that is not empty. It is ordered if `ordered`, or if it has one
    /// entry and the greatest theta. Its memory is from a clone of the table's allocator. Refused with `OutOfMemory`
    /// alone.
    pub fn to_non_empty_compact_state(
        &self,
        ordered: bool,
    ) -> Result<CompactSketchState<E, A>, Error>
        requires clones_equal { ClonesEqual E.is_clone }
        requires count_fits { length self.now.map.kept.entries < 2 ^ 32 }
        ensures ok { IfOk result (IsCompactOf E.key self.now.map.kept self.now.map.seed_hash ordered) }
        ensures refused { Refuses result None true }
    {
        let seed_hash = self.seed_hash;
        let alloc = self.slots.allocator().clone()?;
        let state = state_below::<E, A>(
            alloc,
            &self.slots,
            self.theta,
            self.count,
            seed_hash,
            ordered,
        )?;
        Ok(state)
    }

    /// The retained entries below `theta`, from 1 to the table's theta, cut to its nominal entries, as the state of a
    /// sketch that is not empty. It is ordered if `ordered`, or if it has one entry and the greatest theta. The table
    /// is unchanged. Its memory is from clones of the table's allocator. Refused with `OutOfMemory` alone.
    pub fn to_cut_state(&self, theta: u64, ordered: bool) -> Result<CompactSketchState<E, A>, Error>
        requires clones_equal { ClonesEqual E.is_clone }
        requires small { self.now.map.lg_nom ≤ MAX_LG_K }
        requires low { 0 < theta }
        requires high { theta ≤ self.now.map.kept.theta }
        ensures ok { IfOk result (
            IsCompactOf E.key (cut E.key (2 ^ self.now.map.lg_nom) self.now.map.kept.entries theta)
            self.now.map.seed_hash ordered) }
        ensures refused { Refuses result None true }
    {
        let nominal = nominal_size(self.lg_nom_size);
        let spare = self.slots.allocator().clone()?;
        let own = self.theta;
        let lesser = cut_theta::<E, A>(spare, &self.slots, self.count, nominal, own, theta)?;
        let seed_hash = self.seed_hash;
        let alloc = self.slots.allocator().clone()?;
        let state = state_below::<E, A>(
            alloc,
            &self.slots,
            lesser,
            self.count.min(nominal),
            seed_hash,
            ordered,
        )?;
        Ok(state)
    }
}

impl<E: SlotEntry + Clone, A: Allocator + Clone> SketchHashTable<E, A> {
    /// A table of 2^`lg_nom_size` nominal entries, from 2^4 to its own number, with the resize factor, starting theta
    /// and seed of this one. It retains the entries of this one below `theta`, from 1 to this table's theta, cut to
    /// 2^`lg_nom_size`. This table is unchanged. The memory is from clones of its allocator. Refused with
    /// `OutOfMemory` alone.
    pub fn to_smaller_table(&self, lg_nom_size: u8, theta: u64) -> Result<Self, Error>
        requires clones_equal { ClonesEqual E.is_clone }
        requires of_sketch { MIN_LG_K ≤ lg_nom_size }
        requires small { lg_nom_size ≤ MAX_LG_K }
        requires fewer { lg_nom_size ≤ self.now.map.lg_nom }
        requires low { 0 < theta }
        requires high { theta ≤ self.now.map.kept.theta }
        ensures made { IfOk result (λ t. t.map ≡ cut_table E.key lg_nom_size theta self.now.map) }
        ensures grows { IfOk result (λ t. t.layout.grow ≡ self.now.layout.grow) }
        ensures refused { Refuses result None true }
    {
        let fewer = nominal_size(lg_nom_size);
        let spare = self.slots.allocator().clone()?;
        let before = self.theta;
        let lesser = cut_theta::<E, A>(spare, &self.slots, self.count, fewer, before, theta)?;
        let aside = self.slots.allocator().clone()?;
        let room = self.count.min(fewer);
        let kept = entries_below::<E, A>(aside, &self.slots, lesser, room)?;
        let alloc = self.slots.allocator().clone()?;
        let grow = self.resize_factor;
        let start = self.starting_theta;
        let seed = self.seed;
        let mut smaller = SketchHashTable::new(alloc, lg_nom_size, grow, start, seed)?;
        smaller.set_retention_theta(lesser);
        smaller.refill(kept)?;
        Ok(smaller)
    }
}

impl<E: SlotEntry + Clone, A: Allocator + Clone> SketchHashTable<E, A> {
    /// A copy of the table of a sketch, whose nominal logarithm is from 4 to 26: with the same entries, theta and
    /// settings, but perhaps in another order. The memory is from clones of its allocator. Refused with `OutOfMemory`
    /// alone.
    pub fn clone(&self) -> Result<Self, Error>
        requires clones_equal { ClonesEqual E.is_clone }
        requires of_sketch { MIN_LG_K ≤ self.now.map.lg_nom }
        requires small { self.now.map.lg_nom ≤ MAX_LG_K }
        ensures copied { IfOk result (λ t. t.map ≡ self.now.map) }
        ensures grows { IfOk result (λ t. t.layout.grow ≡ self.now.layout.grow) }
        ensures refused { Refuses result None true }
    {
        let aside = self.slots.allocator().clone()?;
        let entries = entries_below::<E, A>(aside, &self.slots, self.theta, self.count)?;
        let alloc = self.slots.allocator().clone()?;
        let grow = self.resize_factor;
        let start = self.starting_theta;
        let seed = self.seed;
        let mut copy = SketchHashTable::new(alloc, self.lg_nom_size, grow, start, seed)?;
        copy.set_retention_theta(self.theta);
        copy.refill(entries)?;
        Ok(copy)
    }
}

impl<E: SlotEntry + Clone, A: Allocator + Clone> SketchHashTable<E, A> {
    /// Clones of its entries, in ascending order. Refused with `OutOfMemory` alone.
    pub fn sorted_entries(&self) -> Result<Vec<E, A>, Error>
        requires clones_equal { ClonesEqual E.is_clone }
        ensures listed { IfOk result (λ v. v.items ≡ self.now.map.kept.entries) }
        ensures refused { Refuses result None true }
    {
        let alloc = self.slots.allocator().clone()?;
        let entries = entries_below::<E, A>(alloc, &self.slots, self.theta, self.count)?;
        Ok(sorted_by_hash(entries))
    }
}

/// Slots that hold these entries, in their order. Counts each entry as inserted.
fn slots_holding<E: SlotEntry + Drop, A: Allocator>(
    alloc: A,
    entries: Vec<E, A>,
    counts: &mut Counts,
) -> Result<Vec<E::Slot, A>, AllocError>
    requires nonzero { AllByRecursion (λ x. 0 < E.key x) entries.items }
    ensures held { IfOk result (λ slots. entries_in E.content slots.items ≡ entries.items) }
    ensures ticked { IfOk result (λ slots. let count = length entries.items in
        counts.new
        ≡ record counts.old { inserted = counts.old.inserted + count; fresh = counts.old.fresh + count }) }
{
    let mut slots = Vec::with_capacity(alloc, entries.len())?;
    for entry in entries {
        slots.push(entry.into_slot())?;
        counts.inserted.tick();
        counts.fresh.tick();
    }
    Ok(slots)
}

impl<E: SlotEntry + Drop, A: Allocator + Clone> SketchHashTable<E, A> {
    /// Replaces its entries by others, whose hashes are distinct, from 1 to below its theta, and at most 15k/8. There
    /// must be at least 8 nominal entries, as in every table of `new`. The slots are laid out at once, and the counts
    /// of its work begin anew. Refused with `OutOfMemory` alone; then nothing has changed.
    pub fn refill(&mut self, entries: Vec<E, A>) -> Result<(), Error>
        requires of_sketch { 3 ≤ self.old.map.lg_nom }
        requires fill { IsFill E.key (15 * 2 ^ self.old.map.lg_nom / 8) self.old.map.kept.theta entries.items }
        ensures after { OnOk result (
            self.new.map
            ≡ record self.old.map
            { kept = record { entries = map_of E.key entries.items; theta = self.old.map.kept.theta } }) }
        ensures err { OnErr result (self.new.map ≡ self.old.map) }
        ensures grows { self.new.layout.grow ≡ self.old.layout.grow }
        ensures refused { Refuses result None true }
    {
        let count = entries.len();
        let lg = size_for(
            self.lg_cur_size,
            self.lg_nom_size,
            self.resize_factor.lg_value(),
            count,
        );
        let mut counts = nothing();
        let aside = self.slots.allocator().clone()?;
        let mut left = slots_holding::<E, A>(aside, entries, &mut counts)?;
        let alloc = self.slots.allocator().clone()?;
        let mut slots = free_slots::<E, A>(alloc, lg)?;
        // They are not counted as placed: no insertion moves them.
        let mut placed = Count::new();
        settle_all::<E, A>(&mut left, &mut slots, lg, &mut placed, &mut counts.looks);
        self.lg_cur_size = lg;
        self.threshold = threshold_of(lg, self.lg_nom_size);
        self.count = count;
        self.slots = slots;
        self.counts = counts;
        Ok(())
    }
}

/// The table of a theta sketch, whose entries are hashes alone.
pub type ThetaHashTable<A = Global> = SketchHashTable<ThetaEntry, A>;

impl<A: Allocator + Clone> SketchHashTable<ThetaEntry, A> {
    /// Inserts the hash of a value, and returns whether it is new and below theta. For such a hash the caller must
    /// know that there is room (`has_room`), as there always is in a table of `new`. Refused as `try_insert_hash` is.
    #[inline(always)]
    pub fn try_insert<T: Hash + Drop>(&mut self, value: T) -> Result<bool, Error>
        requires room { let h = key_hash self.old.map (T.hash_input value) in
            IsTrue (may_insert hash_key h self.old.map) }
        ensures inserts { InsertsHash (key_hash self.old.map (T.hash_input value)) self.old result self.new }
        ensures works { Works (key_hash self.old.map (T.hash_input value)) self.old result self.new }
    {
        let hash = self.hash(value);
        self.try_insert_hash(hash)
    }

    /// Inserts a hash, and returns whether it is new and below theta. For such a hash the caller must know that there
    /// is room (`has_room`), as there always is in a table of `new`.
    ///
    /// Refused with `OutOfMemory` alone, and only if the hash is new and below theta; then nothing has changed.
    #[inline(always)]
    pub fn try_insert_hash(&mut self, hash: u64) -> Result<bool, Error>
        requires room { IsTrue (may_insert hash_key hash self.old.map) }
        ensures inserts { InsertsHash hash self.old result self.new }
        ensures works { Works hash self.old result self.new }
    {
        self.upsert_entry(hash, PutStep::new(ThetaEntry::of_hash(hash)))
    }

    /// Inserts hashes in their order, each as `try_insert_hash` does. There must be at least 8 nominal entries, as in
    /// every table of `new`.
    ///
    /// In a table of at least 2^17 slots it looks at those of up to 256 hashes side by side, so that the waits for
    /// memory overlap: if most hashes are retained, this takes half the time. Those looks aren't counted. If most
    /// hashes of a block are new, the next seven blocks are inserted without it.
    ///
    /// Refused with `OutOfMemory` alone, and only at a new hash below theta; then exactly the hashes before that one
    /// have been inserted, and the same call may be made again.
    pub fn insert_hashes(&mut self, hashes: &[u64]) -> Result<(), Error>
        requires room { 3 ≤ self.old.map.lg_nom }
        ensures after { OnOk result (self.new.map ≡ after_hashes hashes.now self.old.map) }
        ensures err { OnErr result (StopsAtMemory hashes.now self.old.map self.new.map) }
        ensures refused { Refuses result None true }
        ensures looks_kept { self.old.counts.looks ≤ self.new.counts.looks }
    {
        let mut rest = hashes;
        let mut plain = 0u8;
        while !rest.is_empty() {
            let (block, others) = rest.split_at(rest.len().min(BLOCK));
            plain = self.insert_block(block, plain)?;
            rest = others;
        }
        Ok(())
    }

    /// Inserts a block of hashes in their order: one by one if `plain` isn't 0, or if a cache of the processor holds
    /// the slots, so that there are no waits that could overlap. Returns how many blocks from the next one on are
    /// best inserted one by one.
    fn insert_block(&mut self, hashes: &[u64], plain: u8) -> Result<u8, Error>
        requires room { 3 ≤ self.old.map.lg_nom }
        requires limited { length hashes.now ≤ BLOCK }
        ensures after { OnOk result (self.new.map ≡ after_hashes hashes.now self.old.map) }
        ensures err { OnErr result (StopsAtMemory hashes.now self.old.map self.new.map) }
        ensures refused { Refuses result None true }
        ensures looks_kept { self.old.counts.looks ≤ self.new.counts.looks }
    {
        if plain == 0 && self.lg_cur_size >= LG_MANY_SLOTS {
            return self.insert_unfound(hashes);
        }
        self.insert_each(hashes)?;
        Ok(plain.saturating_sub(1))
    }

    /// Inserts a block of hashes in their order, after dropping those that are screened or found at once. Returns how
    /// many blocks from the next one on are best inserted one by one: some if most of these hashes were new.
    fn insert_unfound(&mut self, hashes: &[u64]) -> Result<u8, Error>
        requires room { 3 ≤ self.old.map.lg_nom }
        requires limited { length hashes.now ≤ BLOCK }
        ensures after { OnOk result (self.new.map ≡ after_hashes hashes.now self.old.map) }
        ensures err { OnErr result (StopsAtMemory hashes.now self.old.map self.new.map) }
        ensures refused { Refuses result None true }
        ensures looks_kept { self.old.counts.looks ≤ self.new.counts.looks }
    {
        let mut block = [0u64; BLOCK];
        let left = self.copy_unfound(hashes, &mut block);
        self.insert_each(&block[..left])?;
        Ok(if left > hashes.len() / 2 {
            PLAIN_BLOCKS
        } else {
            0
        })
    }

    /// Copies into `block` the hashes that are neither screened nor found at once, in their order, and returns how
    /// many they are.
    fn copy_unfound(&self, hashes: &[u64], block: &mut [u64]) -> usize
        requires room { 3 ≤ self.now.map.lg_nom }
        requires limited { length hashes.now ≤ length block.old }
        ensures left { Drops (IsRedundant hash_key self.now.map.kept) hashes.now (take result block.new) }
        ensures limited { result ≤ length block.old }
        ensures sound { IsTable hash_key self.now.map }
    {
        let front = &mut block[..hashes.len()];
        front.copy_from_slice(hashes);
        drop_retained::<ThetaEntry>(&self.slots, self.lg_cur_size, self.theta, front)
    }

    /// Inserts hashes one by one.
    fn insert_each(&mut self, hashes: &[u64]) -> Result<(), Error>
        requires room { 3 ≤ self.old.map.lg_nom }
        ensures after { OnOk result (self.new.map ≡ after_hashes hashes.now self.old.map) }
        ensures err { OnErr result (StopsAtMemory hashes.now self.old.map self.new.map) }
        ensures refused { Refuses result None true }
        ensures looks_kept { self.old.counts.looks ≤ self.new.counts.looks }
    {
        for hash in hashes {
            self.try_insert_hash(*hash)?;
        }
        Ok(())
    }
}

/// The table of a tuple sketch, whose entries are hashes with their summaries.
pub type TupleHashTable<S, A = Global> = SketchHashTable<TupleEntry<S>, A>;

impl<S: Drop, A: Allocator> SketchHashTable<TupleEntry<S>, A> {
    /// Each retained entry once, in an unspecified order: what `iter_entries` returns.
    pub fn iter(&self) -> SketchHashTableIter<'_, TupleEntry<S>>
        ensures listed { result ≡ self.now.sequence }
        ensures each_once { IsListing tuple_key self.now.map.kept.entries self.now.sequence }
        ensures fits { length self.now.sequence < 2 ^ 64 }
        ensures sound { IsTable tuple_key self.now.map }
    {
        self.iter_entries()
    }
}

impl<S: Drop, A: Allocator + Clone> SketchHashTable<TupleEntry<S>, A> {
    /// Inserts the hash of a key: the step writes the existing summary, or else makes one. Returns whether it made an
    /// entry. For a hash that isn't screened the caller must know that it is retained, or that there is room
    /// (`has_room`), as there always is in a table of `new`. Refused as `try_insert_hash` is.
    #[inline(always)]
    pub fn try_insert<T: Hash + Drop, U: UpsertStep<S> + Drop>(
        &mut self,
        key: T,
        step: U,
    ) -> Result<bool, Error>
        requires room { let h = key_hash self.old.map (T.hash_input key) in
            IsTrue (may_insert tuple_key h self.old.map) }
        ensures inserts { let h = key_hash self.old.map (T.hash_input key) in
            Inserts tuple_key h (entry_step h (U.means step)) self.old result self.new }
        ensures works { Works (key_hash self.old.map (T.hash_input key)) self.old result self.new }
    {
        let hash = self.hash(key);
        self.try_insert_hash(hash, step)
    }

    /// Inserts a hash: the step writes the existing summary, or else makes one. Returns whether it made an entry.
    ///
    /// A hash that is 0 or at least theta is screened: no step is called, nothing changes and the result is false.
    /// For any other hash the caller must know that it is retained, or that there is room (`has_room`), as there
    /// always is in a table of `new`. Refused with the step's error, or with `OutOfMemory`; then nothing has changed.
    #[inline(always)]
    pub fn try_insert_hash<U: UpsertStep<S> + Drop>(
        &mut self,
        hash: u64,
        step: U,
    ) -> Result<bool, Error>
        requires room { IsTrue (may_insert tuple_key hash self.old.map) }
        ensures inserts { Inserts tuple_key hash (entry_step hash (U.means step)) self.old result self.new }
        ensures works { Works hash self.old result self.new }
    {
        self.upsert_entry(hash, EntryStep::new(hash, step))
    }
}

/// The nominal logarithm from which a table is rebuilt before its slots are full.
const ALWAYS_ROOM_LG_NOM: u8 = 3;

/// At most this many hashes are looked up together.
const BLOCK: usize = 256;

/// From this logarithm of the number of slots on (2^17 take a MiB) hashes are looked up together.
const LG_MANY_SLOTS: u8 = 17;

/// How many blocks are inserted one by one after a block of which most hashes were new.
const PLAIN_BLOCKS: u8 = 7;

/// How many sixteenths of its slots a table fills before it is rebuilt.
const FILLED_SIXTEENTHS: u128 = 15;

/// The binary logarithm of a number, rounded down, and 0 for 0.
fn whole_log(n: usize) -> u8
    ensures log { result ≡ whole_log n }
    ensures small { result ≤ 63 }
{
    if n == 0 { 0 } else { n.ilog2() as u8 }
}
