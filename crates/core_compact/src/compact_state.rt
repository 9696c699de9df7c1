//! Compact states: the entries of a sketch that no longer changes.
ghost use Rattle.std.specs.Prelude.{◌≡◌, ◌==◌, ◌&&◌, ◌<◌, ◌≤◌, length, nat_lt, not, false, true, None, map, IfOk};
ghost use Rattle.core_compact.specs.CompactState.{Compact, IsCompact, empty_compact, is_answer_ordered, shown_of};
ghost use Rattle.core_compact.specs.Mapped.{MakesInTurn, MayReach};
ghost use Rattle.core_laws.specs.Refusal.{Refuses};
ghost use Rattle.core_laws.specs.Shown.{IsShown};
ghost use Rattle.core_laws.specs.Entries.{ClonesEqual};

use core_laws::{MAX_THETA, SketchEntry};
use sketch_base::Error;
use std::alloc::{AllocError, Allocator, Global};
use std::marker::Model;

/// The entries of a sketch in a list, with its theta. Contracts see it as a record of these.
///
/// An empty state has no entries, the greatest theta, and is ordered.
#[derive(Drop)]
pub struct CompactSketchState<E: SketchEntry, A: Allocator = Global> {
    empty: bool,
    entries: Vec<E, A>,
    theta: u64,
    seed_hash: u16,
    ordered: bool,
}

impl<E: SketchEntry, A: Allocator> Model for CompactSketchState<E, A> {
    ghost use Rattle.core_compact.specs.CompactState.{Compact, IsCompact};

    ghost Value = { Compact E };

    ghost view = { λ s.
        record {
          empty = s.empty;
          entries = s.entries.items;
          theta = s.theta;
          seed_hash = s.seed_hash;
          ordered = s.ordered;
        } };

    ghost invariant = { λ s. IsCompact E.key
        (record {
          empty = s.empty;
          entries = s.entries.items;
          theta = s.theta;
          seed_hash = s.seed_hash;
          ordered = s.ordered;
        }) };
}

impl<E: SketchEntry, A: Allocator> CompactSketchState<E, A> {
    /// The state of an empty sketch with this seed hash.
    pub fn empty(alloc: A, seed_hash: u16) -> Self
        ensures { result ≡ empty_compact seed_hash }
    {
        CompactSketchState {
            empty: true,
            entries: Vec::new(alloc),
            theta: MAX_THETA,
            seed_hash,
            ordered: true,
        }
    }

    /// The state of a sketch that is not empty, though it may have no entries: fewer than 2^32 of them, with distinct
    /// hashes from 1 to below theta, ascending if it is ordered.
    pub fn non_empty(entries: Vec<E, A>, theta: u64, seed_hash: u16, ordered: bool) -> Self
        requires { IsShown (
            shown_of E.key (
            record
            { empty = false; entries = entries.items; theta = theta; seed_hash = seed_hash; ordered = ordered })) }
        ensures { result
            ≡ record {
              empty = false;
              entries = entries.items;
              theta = theta;
              seed_hash = seed_hash;
              ordered = ordered;
            } }
    {
        CompactSketchState {
            empty: false,
            entries,
            theta,
            seed_hash,
            ordered,
        }
    }

    /// Its entries, in their order: ascending by hash if it is ordered.
    pub fn retained_entries(&self) -> &[E]
        ensures all { result.now ≡ self.now.entries }
        ensures sound { IsCompact E.key self.now }
    {
        &self.entries
    }

    /// The allocator of the memory that its entries are in.
    pub fn allocator(&self) -> &A {
        self.entries.allocator()
    }

    /// For how many entries its memory has room: at least as many as it has.
    pub fn retained_entries_capacity(&self) -> usize
        ensures { length self.now.entries ≤ result }
    {
        self.entries.capacity()
    }

    /// Its theta, from 1 to `MAX_THETA`; an empty state has `MAX_THETA`.
    pub fn theta(&self) -> u64
        ensures { result ≡ self.now.theta }
    {
        self.theta
    }

    /// Whether it is the state of an empty sketch: no update was accepted, or an operator returned an empty result.
    pub fn is_empty(&self) -> bool
        ensures { result ≡ self.now.empty }
    {
        self.empty
    }

    /// Whether its estimate may be inexact: it is not empty, and its theta is below `MAX_THETA`.
    pub fn is_estimation_mode(&self) -> bool
        ensures { result ≡ (not self.now.empty && nat_lt self.now.theta MAX_THETA) }
    {
        !self.empty && self.theta < MAX_THETA
    }

    /// The hash of its seed.
    pub fn seed_hash(&self) -> u16
        ensures { result ≡ self.now.seed_hash }
    {
        self.seed_hash
    }

    /// Whether its entries are known to ascend by hash.
    pub fn is_ordered(&self) -> bool
        ensures { result ≡ self.now.ordered }
    {
        self.ordered
    }
}

impl<E: SketchEntry + Drop, A: Allocator + Clone> CompactSketchState<E, A> {
    /// The state with each entry replaced by the result of `f`, in memory of a clone of its allocator.
    ///
    /// `f` is called once for each entry, in their order, and may change what it captures. Whatever earlier calls
    /// have changed, it must be callable at the next entry, and must return an entry of the same hash.
    ///
    /// Refused with `OutOfMemory` alone; then the entries are dropped.
    pub fn map_retained_entries<F: SketchEntry + Drop, G: FnMut(E) -> F + Drop>(
        self,
        f: G,
    ) -> Result<CompactSketchState<F, A>, Error>
        requires callable { (g : G) (x : E) → MayReach G.step f self.entries g x → G.pre g x }
        requires keeps_hash { (g : G) (x : E) (y : F) (next : G)
            → MayReach G.step f self.entries g x
            → G.step g x y next
            → F.key y ≡ E.key x }
        ensures entries { IfOk result (λ s. (last : G) × MakesInTurn G.step f self.entries s.entries last) }
        ensures same { IfOk result (λ s.
            s
            ≡ record
            { empty = self.empty; entries = s.entries; theta = self.theta; seed_hash = self.seed_hash; ordered = self.ordered }) }
        ensures refused { Refuses result None true }
    {
        let alloc = self.entries.allocator().clone()?;
        let CompactSketchState {
            empty,
            entries,
            theta,
            seed_hash,
            ordered,
        } = self;
        let entries = images(alloc, entries, f)?;
        Ok(CompactSketchState {
            empty,
            entries,
            theta,
            seed_hash,
            ordered,
        })
    }
}

/// Whether a result of `count` entries below `theta` is ordered: if `requested`, or if it has one entry and the
/// greatest theta.
pub fn is_answer_ordered(requested: bool, count: usize, theta: u64) -> bool
    ensures { result ≡ is_answer_ordered requested count theta }
{
    requested || count == 1 && theta == MAX_THETA
}

/// The results of a closure, called once for each entry, in their order.
fn images<E: SketchEntry + Drop, F: SketchEntry + Drop, G: FnMut(E) -> F + Drop, A: Allocator>(
    alloc: A,
    entries: Vec<E, A>,
    mut f: G,
) -> Result<Vec<F, A>, AllocError>
    requires callable { (g : G) (x : E) → MayReach G.step f entries.items g x → G.pre g x }
    requires keeps_hash { (g : G) (x : E) (y : F) (next : G)
        → MayReach G.step f entries.items g x
        → G.step g x y next
        → F.key y ≡ E.key x }
    ensures images { IfOk result (λ ys. (last : G) × MakesInTurn G.step f entries.items ys.items last) }
    ensures hashes { IfOk result (λ ys. map F.key ys.items ≡ map E.key entries.items) }
{
    let mut images = Vec::new(alloc);
    for entry in entries {
        images.push(f(entry))?;
    }
    Ok(images)
}

impl<E: SketchEntry + Clone, A: Allocator + Clone> CompactSketchState<E, A> {
    /// A copy of the state, in memory of a clone of its allocator. Refused with `OutOfMemory` alone.
    pub fn clone(&self) -> Result<Self, Error>
        requires clones_equal { ClonesEqual E.is_clone }
        ensures ok { IfOk result (λ s. s ≡ self.now) }
        ensures refused { Refuses result None true }
    {
        let alloc = self.entries.allocator().clone()?;
        Ok(CompactSketchState {
            empty: self.empty,
            entries: Vec::from_clones(alloc, &self.entries)?,
            theta: self.theta,
            seed_hash: self.seed_hash,
            ordered: self.ordered,
        })
    }
}
