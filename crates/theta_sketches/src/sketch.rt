//! Theta sketches that take updates.
ghost use Rattle.std.specs.Prelude.{◌≡◌, ◌≢◌, ◌<◌, ◌≤◌, ◌==◌, ◌&&◌, ◌^◌, ℕ, List, [], ◌∷◌, true, false, not, nat_lt};
ghost use Rattle.std.specs.Prelude.{None, length, IfOk, OnOk, OnErr};
ghost use Rattle.core_compact.specs.CompactState.{IsAnswer};
ghost use Rattle.core_laws.specs.Entries.{hash_key, hash_step};
ghost use Rattle.core_laws.specs.Refusal.{Refuses};
ghost use Rattle.core_laws.specs.Settings.{settings_refusal};
ghost use Rattle.core_table.specs.HashTable.{empty_table, after_reset, after_hashes, key_hash, after_hash};
ghost use Rattle.core_table.specs.HashTable.{hash_allocates, trimmed_table};
ghost use Rattle.core_laws.specs.Maps.{IsListing};
ghost use Rattle.core_laws.specs.Insertion.{upsert_allocates};
ghost use Rattle.core_state.specs.Updatable.{sketch_value, sketch_shows, StopsUpdates};
ghost use Rattle.core_laws.specs.Parts.{StopsAt};
ghost use Rattle.core_laws.specs.Values.{theta_of, count_of, fraction_of};
ghost use Rattle.core_laws.specs.Shown.{IsShown, shown_value};
ghost use Rattle.estimates.specs.Fraction.{decimal_of};
ghost use Rattle.estimates.specs.declared.fraction.TheConstants.{MAX_PLACES};
ghost use Rattle.theta_sketches.specs.View.{view_shows, view_sequence};
ghost use Rattle.theta_sketches.specs.Streams.{value_hash, seed_hash, kmin, set_of, NonEmpty, value_of, view_value};
ghost use Rattle.theta_sketches.specs.Streams.{retained_of, IsPartOf, IsSampleOf, IsSketchOf, IsTrimmedOf};
ghost use Rattle.theta_sketches.specs.Streams.{GivesMore, GivesNothing};

use crate::compact_sketch::CompactThetaSketch;
use crate::view::ThetaSketchView;
use core_laws::MAX_THETA;
use core_slots::ThetaEntry;
use core_state::{Settings, ThetaSketchIter, UpdatableState};
use estimates::{Decimal, MAX_PLACES};
use sketch_base::Error;
use std::alloc::{Allocator, Global};
use std::hash::Hash;
use std::marker::Model;

/// A theta sketch that takes updates. Its value is Empty until the first update is accepted. The crate's
/// documentation has an example.
#[derive(Drop)]
pub struct ThetaSketch<A: Allocator = Global> {
    state: UpdatableState<ThetaEntry, A>,
}

impl<A: Allocator> Model for ThetaSketch<A> {
    ghost use Rattle.std.specs.Prelude.{ℕ};
    ghost use Rattle.core_state.specs.Updatable.{Updatable};

    ghost Value = { Updatable ℕ };

    ghost view = { λ s. s.state };
}

impl<A: Allocator> ThetaSketch<A> {
    pub(crate) fn new(alloc: A, settings: Settings) -> Result<Self, Error>
    where
        A: Drop,
        ensures empty { IfOk result (λ s. s.empty ≡ true) }
        ensures made { IfOk result (λ s. s.map ≡ empty_table settings.lg_k settings.starting_theta settings.seed) }
        ensures given { IfOk result (λ s. IsSketchOf settings.lg_k settings.starting_theta settings.seed s []) }
        ensures refused { Refuses result (settings_refusal settings.lg_k settings.starting_theta settings.seed) true }
    {
        let state = UpdatableState::new(alloc, settings)?;
        Ok(ThetaSketch { state })
    }

    /// A view of the sketch, for operators.
    pub fn as_view(&self) -> ThetaSketchView<'_, A>
        ensures shows { view_shows result ≡ sketch_shows hash_key self.now }
        ensures sequence { view_sequence result ≡ self.now.sequence }
        ensures value { shown_value hash_key (view_shows result) (view_sequence result) ≡ sketch_value self.now }
        ensures part { (lg_k start seed : ℕ) (hashes : List ℕ) → IsSketchOf lg_k start seed self.now hashes →
            IsPartOf (2 ^ lg_k) start (view_value result) hashes }
        ensures sample { (lg_k start seed : ℕ) (hashes : List ℕ) → IsSketchOf lg_k start seed self.now hashes →
            IsSampleOf (view_value result) hashes }
    {
        ThetaSketchView::of_state(&self.state)
    }

    /// Whether no update was accepted since it was built or last reset.
    pub fn is_empty(&self) -> bool
        ensures { result ≡ self.now.empty }
    {
        self.state.is_empty()
    }

    /// Whether its estimate may be inexact: it is not empty, and its theta is below `MAX_THETA`.
    pub fn is_estimation_mode(&self) -> bool
        ensures { result ≡ (not self.now.empty && nat_lt self.now.map.kept.theta MAX_THETA) }
    {
        self.state.is_estimation_mode()
    }

    /// The theta of its value, from 1 to `MAX_THETA`. It is `MAX_THETA` for an empty sketch, whatever its starting
    /// theta.
    pub fn theta64(&self) -> u64
        ensures { result ≡ theta_of (sketch_value self.now) }
    {
        self.state.theta64()
    }

    /// How many hashes it retains, fewer than 2^32.
    pub fn num_retained(&self) -> usize
        ensures count { result ≡ count_of (sketch_value self.now) }
        ensures listed { result ≡ length self.now.sequence }
        ensures sound { IsShown (sketch_shows hash_key self.now) }
    {
        self.state.num_retained()
    }

    /// The estimated number of distinct values seen, as a fraction that is not reduced: the retained hashes times
    /// `MAX_THETA`, below 2^95, over theta, from 1 to `MAX_THETA`; 0 over 1 for an empty sketch.
    pub fn estimate_fraction(&self) -> (u128, u128)
        ensures fraction { result ≡ fraction_of (sketch_value self.now) }
        ensures limited { result.0 < 2 ^ 95 }
        ensures sound { IsShown (sketch_shows hash_key self.now) }
    {
        self.state.estimate_fraction()
    }

    /// The estimate as a decimal number with `places` decimals, from 0 to 19, rounded down; 0 for an empty sketch.
    pub fn estimate_decimal(&self, places: u32) -> Decimal
        requires limited { places ≤ MAX_PLACES }
        ensures { result ≡ decimal_of (fraction_of (sketch_value self.now)) places }
    {
        self.state.estimate_decimal(places)
    }

    /// The binary logarithm of its nominal entries, from 4 to 26.
    pub fn lg_k(&self) -> u8
        ensures { result ≡ self.now.map.lg_nom }
    {
        self.state.lg_k()
    }

    /// The hash of its seed, from 1 to 65535.
    pub fn seed_hash(&self) -> u16
        ensures { result ≡ self.now.map.seed_hash }
    {
        self.state.seed_hash()
    }

    /// Its entries, each once, in an unspecified order.
    pub fn iter(&self) -> ThetaSketchIter<'_>
        ensures listed { result ≡ record { rest = self.now.sequence; counted = false } }
        ensures each_once { IsListing hash_key self.now.map.kept.entries self.now.sequence }
    {
        ThetaSketchIter::over(self.state.entries())
    }

    /// Bytes taken by the slots of its table, including free ones: eight per slot, with 32 to 2^(`lg_k` + 1) slots.
    pub fn estimated_size(&self) -> usize {
        self.state.estimated_size()
    }

    /// Makes it empty again, with its starting theta. It allocates nothing.
    pub fn reset(&mut self)
        ensures empty { self.new.empty ≡ true }
        ensures map { self.new.map ≡ after_reset self.old.map }
        ensures given { (lg_k start seed : ℕ) (hashes : List ℕ) → IsSketchOf lg_k start seed self.old hashes →
            IsSketchOf lg_k start seed self.new [] }
    {
        self.state.reset();
    }
}

impl<A: Allocator + Clone> ThetaSketch<A> {
    /// Updates the sketch with a value, by its hash under the sketch's seed. Refused as `update_hash` is.
    ///
    /// The value is hashed as std's `Hash` writes its bytes, and after a text `Hash` writes one more byte, 255. So
    /// `update("ann")` has another hash than in libraries of other languages, which hash the bytes of the text alone.
    /// To get their hash, `write` the bytes to a `MurmurHash3X64128` of the sketch's seed and pass `finish128().0 >>
    /// 1` to `update_hash`.
    #[inline(always)]
    pub fn update<T: Hash + Drop>(&mut self, value: T) -> Result<(), Error>
        ensures nonempty { OnOk result (self.new.empty ≡ false) }
        ensures after { let h = key_hash self.old.map (T.hash_input value) in
            OnOk result (self.new.map ≡ after_hash h self.old.map) }
        ensures err_empty { OnErr result (self.new.empty ≡ self.old.empty) }
        ensures err { OnErr result (self.new.map ≡ self.old.map) }
        ensures given { OnOk result (GivesMore self.old self.new (λ seed. value_hash seed (T.hash_input value) ∷ [])) }
        ensures err_given { OnErr result (GivesNothing self.old self.new) }
        ensures refused { let h = key_hash self.old.map (T.hash_input value) in
            Refuses result None (hash_allocates h self.old.map.kept) }
    {
        let hash = self.state.hash(value);
        self.update_hash(hash)
    }

    /// Updates the sketch with a hash of 63 bits. A hash that is 0 or at least theta is not retained, but the sketch
    /// becomes nonempty.
    ///
    /// Refused with `OutOfMemory` alone, and only for a new hash below theta; then nothing has changed, emptiness
    /// included.
    #[inline(always)]
    pub fn update_hash(&mut self, hash: u64) -> Result<(), Error>
        ensures nonempty { OnOk result (self.new.empty ≡ false) }
        ensures after { OnOk result (self.new.map ≡ after_hash hash self.old.map) }
        ensures err_empty { OnErr result (self.new.empty ≡ self.old.empty) }
        ensures err { OnErr result (self.new.map ≡ self.old.map) }
        ensures given { OnOk result (GivesMore self.old self.new (λ _. hash ∷ [])) }
        ensures err_given { OnErr result (GivesNothing self.old self.new) }
        ensures refused { Refuses result None (upsert_allocates hash_key hash (hash_step hash) self.old.map.kept) }
    {
        self.state.insert_hash(hash)
    }

    /// Updates the sketch with hashes in their order, each as `update_hash` does. Afterwards the sketch is nonempty,
    /// unless it was empty and there were no hashes.
    ///
    /// If the sketch is large and retains most of the hashes already, this takes half the time of one call per hash,
    /// because it waits for the slots of up to 256 hashes together. So pass a few hundred at a time. If most hashes
    /// are new, or the sketch is small, one call per hash is as fast or faster.
    ///
    /// Refused with `OutOfMemory` alone, and only at a new hash below theta; then exactly the hashes before it have
    /// been inserted. The same call may be repeated: hashes that were inserted before change nothing.
    ///
    /// ```
    /// use theta_sketches::ThetaSketchBuilder;
    ///
    /// let mut sketch = ThetaSketchBuilder::default().build(rt.alloc())?;
    /// sketch.update_hashes(&[7, 5, 7])?;
    /// assert_eq!(rt; sketch.num_retained(), 2);
    /// ```
    pub fn update_hashes(&mut self, hashes: &[u64]) -> Result<(), Error>
        ensures after { OnOk result (self.new.map ≡ after_hashes hashes.now self.old.map) }
        ensures empty { OnOk result (self.new.empty ≡ (self.old.empty && length hashes.now == 0)) }
        ensures err { OnErr result (StopsUpdates hashes.now self.old self.new) }
        ensures given { OnOk result (GivesMore self.old self.new (λ _. hashes.now)) }
        ensures err_given { OnErr result (StopsAt hashes.now (λ before _. GivesMore self.old self.new (λ _. before))) }
        ensures refused { Refuses result None true }
    {
        self.state.insert_hashes(hashes)
    }

    /// If more than k hashes are retained, where k is 2^`lg_k`, lowers theta to the (k+1)th smallest hash and keeps
    /// the k hashes below it.
    ///
    /// Refused with `OutOfMemory` alone, and only if more than k are retained; then nothing has changed.
    pub fn trim(&mut self) -> Result<(), Error>
        ensures same_emptiness { self.new.empty ≡ self.old.empty }
        ensures after { OnOk result (self.new.map ≡ trimmed_table hash_key self.old.map) }
        ensures err { OnErr result (self.new.map ≡ self.old.map) }
        ensures given { OnOk result
            ((lg_k start seed : ℕ) (hashes : List ℕ) → IsSketchOf lg_k start seed self.old hashes →
            IsTrimmedOf lg_k start seed self.new hashes) }
        ensures err_given { OnErr result (GivesNothing self.old self.new) }
        ensures refused { Refuses result None (nat_lt (2 ^ self.old.map.lg_nom) (length self.old.map.kept.entries)) }
    {
        self.state.trim()
    }

    /// Returns a copy of the sketch, in memory of clones of its allocator: with the same hashes, theta and settings,
    /// but perhaps with another order of `iter`. Refused with `OutOfMemory` alone.
    pub fn clone(&self) -> Result<Self, Error>
        ensures empty { IfOk result (λ s. s.empty ≡ self.now.empty) }
        ensures copied { IfOk result (λ s. s.map ≡ self.now.map) }
        ensures given { IfOk result (λ s. GivesNothing self.now s) }
        ensures refused { Refuses result None true }
    {
        Ok(ThetaSketch {
            state: self.state.clone()?,
        })
    }

    /// Returns a compact sketch of the same value, untrimmed. The result is ordered if `ordered` is true, if it is
    /// empty, or if it has one hash at the greatest theta. The sketch doesn't change. Refused with `OutOfMemory`
    /// alone.
    pub fn compact(&self, ordered: bool) -> Result<CompactThetaSketch<A>, Error>
        ensures ok { IfOk result (IsAnswer hash_key (sketch_value self.now) self.now.map.seed_hash ordered) }
        ensures part { IfOk result
            (λ s. (lg_k start seed : ℕ) (hashes : List ℕ) → IsSketchOf lg_k start seed self.now hashes →
            IsPartOf (2 ^ lg_k) start (value_of s) hashes) }
        ensures seeded { IfOk result
            (λ s. (lg_k start seed : ℕ) (hashes : List ℕ) → IsSketchOf lg_k start seed self.now hashes →
            s.seed_hash ≡ seed_hash seed) }
        ensures least { IfOk result
            (λ s. (lg_k start seed : ℕ) (hashes : List ℕ) → IsTrimmedOf lg_k start seed self.now hashes →
            hashes ≢ [] → value_of s ≡ NonEmpty (kmin (2 ^ lg_k) (set_of hashes) start)) }
        ensures kmin { IfOk result
            (λ s. (lg_k seed : ℕ) (hashes : List ℕ) → IsTrimmedOf lg_k MAX_THETA seed self.now hashes →
            ordered ≡ true → retained_of s ≡ kmin (2 ^ lg_k) (set_of hashes) MAX_THETA) }
        ensures refused { Refuses result None true }
    {
        let state = self.state.compact(ordered)?;
        Ok(CompactThetaSketch::of_state(state))
    }
}
