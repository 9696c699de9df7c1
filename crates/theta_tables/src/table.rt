//! The contract of a table, whatever it keeps its entries in.
ghost use Rattle.std.specs.Prelude.{◌≡◌, ◌≤◌, ◌^◌, None, nat_lt, length, IfOk, OnOk, OnErr, IsTrue};
ghost use Rattle.std.specs.Option.{ForSome, option_copied};
ghost use Rattle.core_laws.specs.Maps.{entry_at};
ghost use Rattle.core_laws.specs.Cuts.{cut};
ghost use Rattle.core_laws.specs.Insertion.{after_upsert, creates, upsert_refusal, upsert_allocates};
ghost use Rattle.core_laws.specs.Refusal.{Refuses};
ghost use Rattle.core_table.specs.HashTable.{MapTable, IsTable, after_reset, has_room, may_insert};

use core_laws::{MIN_LG_K, SketchEntry};
use core_slots::{SlotEntry, UpsertStep};
use core_table::SketchHashTable;
use sketch_base::Error;
use std::alloc::Allocator;

/// A table of the entries that a sketch retains below its theta. Contracts see it as a map, ascending by hash, and
/// the theta.
///
/// With k the nominal entries, 2 to the power of its nominal logarithm and at least 8, an insertion that brings the
/// retained entries above 15k/8 lowers theta to the (k+1)th smallest hash, and exactly the k entries below it stay.
pub trait ThetaTable<E: SketchEntry> {
    /// What it retains, and what it was made with.
    ghost map: { Self → MapTable E };

    /// Inserts a hash: the step writes the entry that has it, or else makes one. Returns whether it made an entry.
    ///
    /// A hash that is 0 or at least theta is screened: no step is called, nothing changes and the result is false.
    /// Any other hash must be retained already, or there must be room for one more entry. Refused with the step's
    /// error, or with `OutOfMemory`; then nothing has changed.
    fn upsert_entry<S: UpsertStep<E> + Drop>(&mut self, hash: u64, step: S) -> Result<bool, Error>
        requires keeps_hash { (x : E) → E.key x ≡ hash → E.key ((S.means step).writes x) ≡ hash }
        requires makes_hash { ForSome (S.means step).makes (λ x. E.key x ≡ hash) }
        requires room { IsTrue (may_insert E.key hash (map self.old)) }
        ensures ok { IfOk result (λ created. created ≡ creates E.key hash (S.means step) (map self.old).kept) }
        ensures after { OnOk result (
            map self.new
            ≡ record (map self.old)
            { kept = after_upsert E.key (2 ^ (map self.old).lg_nom) hash (S.means step) (map self.old).kept }) }
        ensures err { OnErr result (map self.new ≡ map self.old) }
        ensures refused { Refuses result (upsert_refusal E.key hash (S.means step) (map self.old).kept)
            (upsert_allocates E.key hash (S.means step) (map self.old).kept) };

    /// The retained entry of a hash.
    fn entry(&self, hash: u64) -> Option<&E>
        ensures { option_copied result ≡ entry_at E.key (map self.now).kept.entries hash };

    /// If more than k entries are retained, lowers theta to the (k+1)th smallest hash and keeps the k below it.
    ///
    /// Refused with `OutOfMemory` alone, and only if more than k are retained; then nothing has changed.
    fn trim(&mut self) -> Result<(), Error>
        ensures after { OnOk result (
            map self.new
            ≡ record (map self.old)
            { kept = cut E.key (2 ^ (map self.old).lg_nom) (map self.old).kept.entries (map self.old).kept.theta }) }
        ensures err { OnErr result (map self.new ≡ map self.old) }
        ensures refused { Refuses result None
            (nat_lt (2 ^ (map self.old).lg_nom) (length (map self.old).kept.entries)) };

    /// Removes all entries and restores the starting theta. It takes no memory. The table must be one of a sketch,
    /// whose nominal logarithm is at least 4.
    fn reset(&mut self)
        requires of_sketch { MIN_LG_K ≤ (map self.old).lg_nom }
        ensures { map self.new ≡ after_reset (map self.old) };

    /// How many entries it retains.
    fn num_retained(&self) -> usize
        ensures { result ≡ length (map self.now).kept.entries };

    /// The theta that all retained hashes are below, from 1 to `MAX_THETA`.
    fn retention_theta(&self) -> u64
        ensures theta { result ≡ (map self.now).kept.theta }
        ensures sound { IsTable E.key (map self.now) };

    /// Whether there is room for one more entry: always if its nominal logarithm is 3 or more.
    fn has_room(&self) -> bool
        ensures { result ≡ has_room (map self.now) };

    /// The binary logarithm of its nominal entries.
    fn lg_nom_size(&self) -> u8
        ensures { result ≡ (map self.now).lg_nom };
}

impl<E: SlotEntry + Drop, A: Allocator + Clone> ThetaTable<E> for SketchHashTable<E, A> {
    ghost map = { λ t. t.map };

    #[inline(always)]
    fn upsert_entry<S: UpsertStep<E> + Drop>(&mut self, hash: u64, step: S) -> Result<bool, Error> {
        self.upsert_entry(hash, step)
    }

    fn entry(&self, hash: u64) -> Option<&E> {
        self.entry(hash)
    }

    fn trim(&mut self) -> Result<(), Error> {
        self.trim()
    }

    fn reset(&mut self) {
        self.reset();
    }

    fn num_retained(&self) -> usize {
        self.num_retained()
    }

    fn retention_theta(&self) -> u64 {
        self.retention_theta()
    }

    fn has_room(&self) -> bool {
        self.has_room()
    }

    fn lg_nom_size(&self) -> u8 {
        self.lg_nom_size()
    }
}
