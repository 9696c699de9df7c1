//! Compact theta sketches, which are immutable.
ghost use Rattle.std.specs.Prelude.{◌≡◌, ◌≤◌, ◌&&◌, ℕ, List, true, not, nat_lt, None, length, IfOk};
ghost use Rattle.core_compact.specs.CompactState.{IsCompact, shown_of, compact_value};
ghost use Rattle.core_laws.specs.Entries.{hash_key};
ghost use Rattle.core_laws.specs.Refusal.{Refuses};
ghost use Rattle.core_laws.specs.Shown.{shown_value};
ghost use Rattle.core_state.specs.Fraction.{compact_fraction};
ghost use Rattle.estimates.specs.Fraction.{decimal_of};
ghost use Rattle.estimates.specs.declared.fraction.TheConstants.{MAX_PLACES};
ghost use Rattle.theta_sketches.specs.View.{view_shows, view_sequence};
ghost use Rattle.theta_sketches.specs.Streams.{value_of, view_value, IsPartOf, IsSampleOf};

use crate::view::ThetaSketchView;
use core_compact::CompactSketchState;
use core_laws::MAX_THETA;
use core_operators::EntryIter;
use core_slots::ThetaEntry;
use core_state::{ThetaSketchIter, compact_decimal, compact_fraction};
use estimates::{Decimal, MAX_PLACES};
use sketch_base::Error;
use std::alloc::{Allocator, Global};
use std::marker::Model;

/// An immutable theta sketch: its hashes in a list, with its theta. Contracts see a record of these. The crate's
/// documentation has an example.
#[derive(Drop)]
pub struct CompactThetaSketch<A: Allocator = Global> {
    state: CompactSketchState<ThetaEntry, A>,
}

impl<A: Allocator> Model for CompactThetaSketch<A> {
    ghost use Rattle.std.specs.Prelude.{ℕ};
    ghost use Rattle.core_compact.specs.CompactState.{Compact};

    ghost Value = { Compact ℕ };

    ghost view = { λ s. s.state };
}

impl<A: Allocator> CompactThetaSketch<A> {
    /// The sketch of a compact state.
    pub fn of_state(state: CompactSketchState<ThetaEntry, A>) -> Self
        ensures { result ≡ state }
    {
        CompactThetaSketch { state }
    }

    /// Its state, which has its hashes as a slice.
    pub fn state(&self) -> &CompactSketchState<ThetaEntry, A>
        ensures { result.now ≡ self.now }
    {
        &self.state
    }

    /// A view of the sketch, for operators.
    pub fn as_view(&self) -> ThetaSketchView<'_, A>
        ensures shows { view_shows result ≡ shown_of hash_key self.now }
        ensures sequence { view_sequence result ≡ self.now.entries }
        ensures value { shown_value hash_key (view_shows result) (view_sequence result)
            ≡ compact_value hash_key self.now }
        ensures part { (k start : ℕ) (hashes : List ℕ) → IsPartOf k start (value_of self.now) hashes →
            IsPartOf k start (view_value result) hashes }
        ensures sample { (hashes : List ℕ)
            → IsSampleOf (value_of self.now) hashes
            → IsSampleOf (view_value result) hashes }
    {
        ThetaSketchView::of_compact(&self.state)
    }

    /// Whether it is empty: no update was accepted, or an operator returned an empty result.
    pub fn is_empty(&self) -> bool
        ensures { result ≡ self.now.empty }
    {
        self.state.is_empty()
    }

    /// Whether its estimate may be inexact: it is not empty, and its theta is below `MAX_THETA`.
    pub fn is_estimation_mode(&self) -> bool
        ensures { result ≡ (not self.now.empty && nat_lt self.now.theta MAX_THETA) }
    {
        self.state.is_estimation_mode()
    }

    /// Its theta, from 1 to `MAX_THETA`. It is `MAX_THETA` for an empty sketch.
    pub fn theta64(&self) -> u64
        ensures { result ≡ self.now.theta }
    {
        self.state.theta()
    }

    /// How many hashes it retains, fewer than 2^32.
    pub fn num_retained(&self) -> usize
        ensures count { result ≡ length self.now.entries }
        ensures sound { IsCompact hash_key self.now }
    {
        self.state.retained_entries().len()
    }

    /// The estimated number of distinct values seen, as a fraction that is not reduced: the retained hashes times
    /// `MAX_THETA`, below 2^95, over theta, from 1 to `MAX_THETA`; 0 over 1 for an empty sketch.
    pub fn estimate_fraction(&self) -> (u128, u128)
        ensures { result ≡ compact_fraction self.now }
    {
        compact_fraction(&self.state)
    }

    /// The estimate as a decimal number with `places` decimals, from 0 to 19, rounded down; 0 for an empty sketch.
    pub fn estimate_decimal(&self, places: u32) -> Decimal
        requires limited { places ≤ MAX_PLACES }
        ensures { result ≡ decimal_of (compact_fraction self.now) places }
    {
        compact_decimal(&self.state, places)
    }

    /// Whether its hashes are known to ascend.
    pub fn is_ordered(&self) -> bool
        ensures { result ≡ self.now.ordered }
    {
        self.state.is_ordered()
    }

    /// The hash of its seed, of 16 bits.
    pub fn seed_hash(&self) -> u16
        ensures { result ≡ self.now.seed_hash }
    {
        self.state.seed_hash()
    }

    /// Its entries, in its order: ascending if it is ordered.
    pub fn iter(&self) -> ThetaSketchIter<'_>
        ensures { result ≡ record { rest = self.now.entries; counted = true } }
    {
        ThetaSketchIter::over(EntryIter::of_slice(self.state.retained_entries()))
    }

    /// Bytes taken by its hashes.
    pub fn estimated_size(&self) -> usize {
        size_of_val(self.state.retained_entries())
    }
}

impl<A: Allocator + Clone> CompactThetaSketch<A> {
    /// Returns a copy of the sketch, in memory of a clone of its allocator. Refused with `OutOfMemory` alone.
    pub fn clone(&self) -> Result<Self, Error>
        ensures ok { IfOk result (λ s. s ≡ self.now) }
        ensures refused { Refuses result None true }
    {
        Ok(CompactThetaSketch {
            state: self.state.clone()?,
        })
    }
}
