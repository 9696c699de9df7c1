//! Compact tuple sketches, which are immutable.
ghost use Rattle.std.specs.Prelude.{◌≡◌, ◌≤◌, ◌&&◌, ℕ, true, not, nat_lt, None, length, IfOk};
ghost use Rattle.core_compact.specs.CompactState.{IsCompact, shown_of, compact_value};
ghost use Rattle.core_laws.specs.Entries.{ClonesEqual};
ghost use Rattle.core_laws.specs.Refusal.{Refuses};
ghost use Rattle.core_laws.specs.Shown.{shown_value};
ghost use Rattle.core_state.specs.Fraction.{compact_fraction};
ghost use Rattle.estimates.specs.Fraction.{decimal_of};
ghost use Rattle.core_state.specs.View.{shows, sequence};
ghost use Rattle.estimates.specs.declared.fraction.TheConstants.{MAX_PLACES};
ghost use Rattle.core_slots.specs.Entry.{tuple_key};
ghost use Rattle.tuple_sketches.specs.Streams.{Given, value_of, view_value, IsPartOf, IsSampleOf};

use crate::view::{TupleSketchIter, TupleSketchView};
use core_compact::CompactSketchState;
use core_laws::MAX_THETA;
use core_operators::EntryIter;
use core_slots::TupleEntry;
use core_state::{compact_decimal, compact_fraction};
use estimates::{Decimal, MAX_PLACES};
use sketch_base::Error;
use std::alloc::{Allocator, Global};
use std::marker::Model;

/// An immutable tuple sketch: its entries in a list, with its theta. Contracts see a record of these. The crate's
/// documentation has an example.
#[derive(Drop)]
pub struct CompactTupleSketch<S: Drop, A: Allocator = Global> {
    state: CompactSketchState<TupleEntry<S>, A>,
}

impl<S: Drop, A: Allocator> Model for CompactTupleSketch<S, A> {
    ghost use Rattle.core_compact.specs.CompactState.{Compact};
    ghost use Rattle.core_slots.specs.declared.entry.TupleEntry.{TupleEntry};

    ghost Value = { Compact (TupleEntry S) };

    ghost view = { λ s. s.state };
}

impl<S: Drop, A: Allocator> CompactTupleSketch<S, A> {
    pub(crate) fn of_state(state: CompactSketchState<TupleEntry<S>, A>) -> Self
        ensures { result ≡ state }
    {
        CompactTupleSketch { state }
    }

    pub(crate) fn state(&self) -> &CompactSketchState<TupleEntry<S>, A>
        ensures { result.now ≡ self.now }
    {
        &self.state
    }

    /// A view of the sketch, for operators.
    pub fn as_view(&self) -> TupleSketchView<'_, S, A>
        ensures shows { shows tuple_key result ≡ shown_of tuple_key self.now }
        ensures sequence { sequence result ≡ self.now.entries }
        ensures value { shown_value tuple_key (shows tuple_key result) (sequence result)
            ≡ compact_value tuple_key self.now }
        ensures part { (k start : ℕ) (given : Given S)
            → IsPartOf k start (value_of self.now) given
            → IsPartOf k start (view_value result) given }
        ensures sample { (given : Given S)
            → IsSampleOf (value_of self.now) given
            → IsSampleOf (view_value result) given }
    {
        TupleSketchView::of_compact(&self.state)
    }

    /// Whether it is empty: no update was accepted, or an operator returned an empty result.
    pub fn is_empty(&self) -> bool
        ensures { result ≡ self.now.empty }
    {
        self.state.is_empty()
    }

    /// Whether its estimate may be inexact: it is not empty, and its theta is below `MAX_THETA`.
    pub fn is_estimation_mode(&self) -> bool
        ensures { result ≡ (not self.now.empty && nat_lt self.now.theta MAX_THETA) }
    {
        self.state.is_estimation_mode()
    }

    /// Its theta, from 1 to `MAX_THETA`. It is `MAX_THETA` for an empty sketch.
    pub fn theta64(&self) -> u64
        ensures { result ≡ self.now.theta }
    {
        self.state.theta()
    }

    /// How many entries it retains, fewer than 2^32.
    pub fn num_retained(&self) -> usize
        ensures count { result ≡ length self.now.entries }
        ensures sound { IsCompact tuple_key self.now }
    {
        self.state.retained_entries().len()
    }

    /// The estimated number of distinct keys seen, as a fraction that is not reduced: the retained entries times
    /// `MAX_THETA`, below 2^95, over theta, from 1 to `MAX_THETA`; 0 over 1 for an empty sketch.
    pub fn estimate_fraction(&self) -> (u128, u128)
        ensures { result ≡ compact_fraction self.now }
    {
        compact_fraction(&self.state)
    }

    /// The estimate as a decimal number with `places` decimals, from 0 to 19, rounded down; 0 for an empty sketch.
    pub fn estimate_decimal(&self, places: u32) -> Decimal
        requires limited { places ≤ MAX_PLACES }
        ensures { result ≡ decimal_of (compact_fraction self.now) places }
    {
        compact_decimal(&self.state, places)
    }

    /// Whether its hashes are known to ascend.
    pub fn is_ordered(&self) -> bool
        ensures { result ≡ self.now.ordered }
    {
        self.state.is_ordered()
    }

    /// The hash of its seed, of 16 bits.
    pub fn seed_hash(&self) -> u16
        ensures { result ≡ self.now.seed_hash }
    {
        self.state.seed_hash()
    }

    /// Its entries, in its order: ascending by hash if it is ordered.
    pub fn iter(&self) -> TupleSketchIter<'_, S>
        ensures listed { result ≡ record { rest = self.now.entries; counted = true } }
        ensures sound { IsCompact tuple_key self.now }
    {
        EntryIter::of_slice(self.state.retained_entries())
    }

    /// Bytes taken by its entries, without memory that summaries own elsewhere.
    pub fn estimated_size(&self) -> usize {
        size_of_val(self.state.retained_entries())
    }
}

impl<S: Clone, A: Allocator + Clone> CompactTupleSketch<S, A> {
    /// Returns a copy of the sketch, in memory of a clone of its allocator. Refused with `OutOfMemory` alone. Clones
    /// of summaries must equal their originals.
    pub fn clone(&self) -> Result<Self, Error>
        requires clones_equal { ClonesEqual S.is_clone }
        ensures ok { IfOk result (λ s. s ≡ self.now) }
        ensures refused { Refuses result None true }
    {
        Ok(CompactTupleSketch {
            state: self.state.clone()?,
        })
    }
}
