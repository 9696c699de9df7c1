//! The table that keeps its entries in a list.
ghost use Rattle.std.specs.Prelude.{◌≡◌, ◌+◌, ◌-◌, ◌*◌, ◌/◌, ◌<◌, ◌≤◌, ◌^◌, false, IfOk, IfErr, OnErr};
ghost use Rattle.std.specs.List.{AllByRecursion};
ghost use Rattle.core_laws.specs.Maps.{IsAscending, with_entry};
ghost use Rattle.core_laws.specs.Cuts.{cut, IsRetained};
ghost use Rattle.core_laws.specs.Insertion.{rebuilt};
ghost use Rattle.core_laws.specs.Places.{IsAt, IsGapFor};
ghost use Rattle.core_laws.specs.Refusal.{Refuses};
ghost use Rattle.core_laws.specs.Settings.{settings_refusal};
ghost use Rattle.core_table.specs.HashTable.{MapTable, empty_table};

use crate::table::ThetaTable;
use core_laws::{MAX_LG_K, MAX_THETA, MIN_LG_K, SketchEntry};
use core_slots::UpsertStep;
use core_table::ResizeFactor;
use sketch_base::{Error, ErrorKind, compute_seed_hash};
use std::alloc::{AllocError, Allocator, Global};
use std::marker::Model;

/// The entries of a sketch below its theta, in a list that ascends by hash. Contracts see the same of it as of the
/// table in slots.
///
/// A search halves the list, and an insertion moves the entries behind it. It serves for comparison.
#[derive(Drop)]
pub struct PlainTable<E: SketchEntry, A: Allocator = Global> {
    lg_nom_size: u8,
    starting_theta: u64,
    seed: u64,
    seed_hash: u16,
    theta: u64,
    entries: Vec<E, A>,
}

impl<E: SketchEntry, A: Allocator> Model for PlainTable<E, A> {
    ghost use Rattle.std.specs.Prelude.{true};
    ghost use Rattle.core_table.specs.HashTable.{MapTable};
    ghost use Rattle.theta_tables.specs.PlainTable.{IsPlain};

    ghost Value = { MapTable E };

    ghost view = { λ t. record {
      kept = record { entries = t.entries.items; theta = t.theta };
      lg_nom = t.lg_nom_size;
      has_slots = true;
      start = t.starting_theta;
      seed = t.seed;
      seed_hash = t.seed_hash;
    } };

    ghost invariant = { λ t. IsPlain E.key
        (record {
          kept = record { entries = t.entries.items; theta = t.theta };
          lg_nom = t.lg_nom_size;
          has_slots = true;
          start = t.starting_theta;
          seed = t.seed;
          seed_hash = t.seed_hash;
        }) };
}

impl<E: SketchEntry, A: Allocator> PlainTable<E, A> {
    /// An empty table of 2^`lg_nom_size` nominal entries, with `lg_nom_size` from 4 to 26, and a starting theta from
    /// 1 to `MAX_THETA`.
    ///
    /// Refused with `InvalidArgument` outside these ranges, and for a seed whose seed hash is 0. It takes no memory.
    /// The resize factor has no effect: a list has no slots to grow.
    pub fn new(
        alloc: A,
        lg_nom_size: u8,
        _resize_factor: ResizeFactor,
        starting_theta: u64,
        seed: u64,
    ) -> Result<Self, Error>
    where
        A: Drop,
        ensures made { IfOk result (λ t. t ≡ empty_table lg_nom_size starting_theta seed) }
        ensures refused { Refuses result (settings_refusal lg_nom_size starting_theta seed) false }
    {
        let size_fits = MIN_LG_K <= lg_nom_size && lg_nom_size <= MAX_LG_K;
        if !size_fits || starting_theta == 0 || starting_theta > MAX_THETA {
            return Err(Error::new(ErrorKind::InvalidArgument));
        }
        let seed_hash = compute_seed_hash(seed, ErrorKind::InvalidArgument)?;
        Ok(PlainTable {
            lg_nom_size,
            starting_theta,
            seed,
            seed_hash,
            theta: starting_theta,
            entries: Vec::new(alloc),
        })
    }

    /// The retained entries, ascending by hash.
    pub fn entries(&self) -> &[E]
        ensures { result.now ≡ self.now.kept.entries }
    {
        self.entries.as_slice()
    }

    /// The seed that it was made with.
    pub fn seed(&self) -> u64
        ensures { result ≡ self.now.seed }
    {
        self.seed
    }

    /// The hash of its seed.
    pub fn seed_hash(&self) -> u16
        ensures { result ≡ self.now.seed_hash }
    {
        self.seed_hash
    }
}

impl<E: SketchEntry + Drop, A: Allocator> ThetaTable<E> for PlainTable<E, A> {
    ghost map = { λ t. t };

    fn upsert_entry<S: UpsertStep<E> + Drop>(&mut self, hash: u64, step: S) -> Result<bool, Error> {
        if hash == 0 || hash >= self.theta {
            return Ok(false);
        }
        match place_of(&self.entries, hash) {
            Ok(at) => {
                step.existing(&mut self.entries[at])?;
                Ok(false)
            }
            Err(at) => match step.absent()? {
                None => Ok(false),
                Some(entry) => {
                    let nominal = nominal_size(self.lg_nom_size);
                    self.theta = put_entry(&mut self.entries, self.theta, nominal, at, entry)?;
                    Ok(true)
                }
            },
        }
    }

    fn entry(&self, hash: u64) -> Option<&E> {
        match place_of(&self.entries, hash) {
            Ok(at) => Some(&self.entries[at]),
            Err(_) => None,
        }
    }

    fn trim(&mut self) -> Result<(), Error> {
        let nominal = nominal_size(self.lg_nom_size);
        self.theta = cut_entries(&mut self.entries, self.theta, nominal);
        Ok(())
    }

    fn reset(&mut self) {
        self.entries.clear();
        self.theta = self.starting_theta;
    }

    fn num_retained(&self) -> usize {
        self.entries.len()
    }

    fn retention_theta(&self) -> u64 {
        self.theta
    }

    fn has_room(&self) -> bool {
        // The table is one of a sketch, so this always holds.
        self.lg_nom_size >= MIN_LG_K
    }

    fn lg_nom_size(&self) -> u8 {
        self.lg_nom_size
    }
}

/// The position of a hash in ascending entries, or where it would be inserted.
fn place_of<E: SketchEntry>(entries: &[E], hash: u64) -> Result<usize, usize>
    requires { IsAscending E.key entries.now }
    ensures found { IfOk result (IsAt E.key entries.now hash) }
    ensures absent { IfErr result (IsGapFor E.key entries.now hash) }
{
    entries.binary_search_by_key(&hash, |entry| entry.hash())
}

/// Keeps the k entries of least hash if there are more, and returns the theta above them.
fn cut_entries<E: SketchEntry + Drop, A: Allocator>(
    entries: &mut Vec<E, A>,
    theta: u64,
    nominal: usize,
) -> u64
    requires ascending { IsAscending E.key entries.old.items }
    requires below_theta { AllByRecursion (λ x. E.key x < theta) entries.old.items }
    ensures { record { entries = entries.new.items; theta = result } ≡ cut E.key nominal entries.old.items theta }
{
    if entries.len() <= nominal {
        return theta;
    }
    let cut_theta = entries[nominal].hash();
    entries.truncate(nominal);
    cut_theta
}

/// Inserts an entry at its position, and cuts if the entries are then more than fifteen eighths of k. Returns the new
/// theta.
fn put_entry<E: SketchEntry + Drop, A: Allocator>(
    entries: &mut Vec<E, A>,
    theta: u64,
    nominal: usize,
    at: usize,
    entry: E,
) -> Result<u64, AllocError>
    requires retained { IsRetained E.key (record { entries = entries.old.items; theta = theta }) }
    requires gap { IsGapFor E.key entries.old.items (E.key entry) at }
    requires nonzero { 0 < E.key entry }
    requires small { E.key entry < theta }
    requires nominal_high { nominal ≤ 2 ^ 32 }
    ensures ok { IfOk result (λ new_theta.
        record { entries = entries.new.items; theta = new_theta }
        ≡ rebuilt E.key nominal (with_entry E.key entries.old.items entry) theta) }
    ensures err { OnErr result (entries.new.items ≡ entries.old.items) }
{
    entries.insert(at, entry)?;
    if nominal >= 8 && entries.len() > 15 * nominal / 8 {
        Ok(cut_entries(entries, theta, nominal))
    } else {
        Ok(theta)
    }
}

/// The nominal entries k, for their binary logarithm.
fn nominal_size(lg_nom_size: u8) -> usize
    requires { lg_nom_size ≤ 32 }
    ensures power { result ≡ 2 ^ lg_nom_size }
    ensures small { result ≤ 2 ^ 32 }
{
    1usize << lg_nom_size
}
