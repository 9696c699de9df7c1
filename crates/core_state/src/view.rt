//! Read-only views of sketches, of either family.
ghost use Rattle.std.specs.Prelude.{◌≡◌, ⊤, length};
ghost use Rattle.core_compact.specs.CompactState.{shown_of};
ghost use Rattle.core_slots.specs.Entry.{tuple_key};
ghost use Rattle.core_laws.specs.Entries.{hash_key};
ghost use Rattle.core_state.specs.Updatable.{sketch_shows, sketch_value};
ghost use Rattle.core_laws.specs.Shown.{IsShown, shown_value};
ghost use Rattle.core_state.specs.View.{shows, sequence, lending, hashes_listed};
ghost use Rattle.core_operators.specs.View.{metadata_of};

use crate::iter::ThetaSketchIter;
use crate::updatable::UpdatableState;
use core_compact::CompactSketchState;
use core_operators::{EntryIter, EntrySketch, HashIter, KeySketch, ThetaFamilySketchMetadata};
use core_slots::{SlotEntry, ThetaEntry, TupleEntry};
use std::alloc::{AllocError, Allocator, Global};

enum Viewed<'a, E: SlotEntry, A: Allocator> {
    Mutable(&'a UpdatableState<E, A>),
    Compact(&'a CompactSketchState<E, A>),
}

impl<'a, E: SlotEntry, A: Allocator> Clone for Viewed<'a, E, A> {
    ghost is_clone = { λ view copy. copy ≡ view };

    ghost is_infallible = { λ _. ⊤ };

    fn clone(&self) -> Result<Self, AllocError> {
        Ok(*self)
    }
}

impl<'a, E: SlotEntry, A: Allocator> Copy for Viewed<'a, E, A> {}

/// A view of a mutable or a compact sketch. A view of a mutable sketch is not ordered.
pub struct SketchView<'a, E: SlotEntry, A: Allocator = Global> {
    sketch: Viewed<'a, E, A>,
}

impl<'a, E: SlotEntry, A: Allocator> Clone for SketchView<'a, E, A> {
    ghost is_clone = { λ view copy. copy ≡ view };

    ghost is_infallible = { λ _. ⊤ };

    fn clone(&self) -> Result<Self, AllocError> {
        Ok(*self)
    }
}

impl<'a, E: SlotEntry, A: Allocator> Copy for SketchView<'a, E, A> {}

impl<'a, E: SlotEntry, A: Allocator> SketchView<'a, E, A> {
    /// A view of a mutable sketch.
    pub fn of_state(state: &'a UpdatableState<E, A>) -> Self
        ensures shows { shows E.key result ≡ sketch_shows E.key state.entry.now }
        ensures sequence { sequence result ≡ state.entry.now.sequence }
        ensures value { shown_value E.key (shows E.key result) (sequence result) ≡ sketch_value state.entry.now }
    {
        state.laws();
        SketchView {
            sketch: Viewed::Mutable(state),
        }
    }

    /// A view of a compact sketch.
    pub fn of_compact(state: &'a CompactSketchState<E, A>) -> Self
        ensures shows { shows E.key result ≡ shown_of E.key state.entry.now }
        ensures sequence { sequence result ≡ state.entry.now.entries }
    {
        SketchView {
            sketch: Viewed::Compact(state),
        }
    }

    /// The hash of the sketch's seed.
    pub fn seed_hash(&self) -> u16
        ensures { result ≡ (shows E.key self.now).seed_hash }
    {
        match self.sketch {
            Viewed::Mutable(sketch) => sketch.seed_hash(),
            Viewed::Compact(sketch) => sketch.seed_hash(),
        }
    }

    /// The sketch's theta, from 1 to `MAX_THETA`. It is `MAX_THETA` for an empty sketch.
    pub fn theta64(&self) -> u64
        ensures { result ≡ (shows E.key self.now).theta }
    {
        match self.sketch {
            Viewed::Mutable(sketch) => sketch.theta64(),
            Viewed::Compact(sketch) => sketch.theta(),
        }
    }

    /// Whether the sketch is empty.
    pub fn is_empty(&self) -> bool
        ensures { result ≡ (shows E.key self.now).empty }
    {
        match self.sketch {
            Viewed::Mutable(sketch) => sketch.is_empty(),
            Viewed::Compact(sketch) => sketch.is_empty(),
        }
    }

    /// Whether the hashes are known to ascend. It is false for a mutable sketch.
    pub fn is_ordered(&self) -> bool
        ensures { result ≡ (shows E.key self.now).ordered }
    {
        match self.sketch {
            Viewed::Mutable(_) => false,
            Viewed::Compact(sketch) => sketch.is_ordered(),
        }
    }

    /// How many entries the sketch retains, fewer than 2^32.
    pub fn num_retained(&self) -> usize
        ensures count { result ≡ length (shows E.key self.now).hashes }
        ensures sound { IsShown (shows E.key self.now) }
    {
        match self.sketch {
            Viewed::Mutable(sketch) => sketch.num_retained(),
            Viewed::Compact(sketch) => sketch.retained_entries().len(),
        }
    }
}

impl<'a, A: Allocator> SketchView<'a, ThetaEntry, A> {
    /// The sketch's entries, each once: those of a mutable sketch in an unspecified order, those of a compact sketch
    /// in its order.
    pub fn iter(&self) -> ThetaSketchIter<'a>
        ensures listed { result ≡ lending self.now }
        ensures sound { IsShown (shows hash_key self.now) }
    {
        ThetaSketchIter::over(entries_of_view(*self))
    }
}

impl<'a, S: Drop, A: Allocator> SketchView<'a, TupleEntry<S>, A> {
    /// References to the sketch's entries, each once: those of a mutable sketch in an unspecified order, those of a
    /// compact sketch in its order.
    pub fn iter(&self) -> EntryIter<'a, TupleEntry<S>>
        ensures listed { result ≡ lending self.now }
        ensures sound { IsShown (shows tuple_key self.now) }
    {
        entries_of_view(*self)
    }
}

fn entries_of_view<'a, E: SlotEntry, A: Allocator>(view: SketchView<'a, E, A>) -> EntryIter<'a, E>
    ensures listed { result ≡ lending view.entry }
    ensures sound { IsShown (shows E.key view.entry) }
{
    match view.sketch {
        Viewed::Mutable(sketch) => sketch.entries(),
        Viewed::Compact(sketch) => EntryIter::of_slice(sketch.retained_entries()),
    }
}

/// The metadata of a view's sketch.
fn metadata_of_view<'a, E: SlotEntry, A: Allocator>(
    view: SketchView<'a, E, A>,
) -> ThetaFamilySketchMetadata
    ensures metadata { result ≡ metadata_of (shows E.key view.entry) }
    ensures sound { IsShown (shows E.key view.entry) }
{
    let seed_hash = view.seed_hash();
    let num_retained = view.num_retained();
    if view.is_empty() {
        ThetaFamilySketchMetadata::Empty { seed_hash }
    } else {
        ThetaFamilySketchMetadata::NonEmpty {
            seed_hash,
            theta: view.theta64(),
            ordered: view.is_ordered(),
            num_retained,
        }
    }
}

/// The hashes of a view's entries, in the order of the entries.
fn hashes_of<'a, E: SlotEntry, A: Allocator>(view: SketchView<'a, E, A>) -> HashIter<'a, E>
    ensures all { result.rest ≡ (shows E.key view.entry).hashes }
    ensures sound { IsShown (shows E.key view.entry) }
{
    HashIter::new(entries_of_view(view))
}

impl<'a, E: SlotEntry, A: Allocator> KeySketch for SketchView<'a, E, A>
where
    E::Slot: 'a,
{
    type Hashes = HashIter<'a, E>;

    ghost shown = { shows E.key };

    ghost rest = { λ s. s.rest };

    fn metadata(self) -> ThetaFamilySketchMetadata {
        metadata_of_view(self)
    }

    fn hashes(self) -> HashIter<'a, E>
        ensures all { result.rest ≡ (shows E.key self.entry).hashes }
        ensures sound { IsShown (shows E.key self.entry) }
    {
        hashes_of(self)
    }

    ghost yields = { λ s r t gives. gives.0 };

    ghost may_go_on = { λ s. tt };

    ghost ends = { λ s. tt };
}

impl<'a, E: SlotEntry, A: Allocator> EntrySketch for SketchView<'a, E, A>
where
    E::Slot: 'a,
{
    type Entry = E;

    ghost listing = { sequence };

    fn entries(&self) -> EntryIter<'_, E> {
        entries_of_view(*self)
    }

    ghost lists = { λ s. hashes_listed E.key s };
}
