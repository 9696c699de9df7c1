//! Tuple sketches that take updates.
ghost use Rattle.std.specs.Prelude.{◌≡◌, ◌≤◌, ◌&&◌, ◌^◌, ℕ, true, false, not, nat_lt, None, length, IfOk, OnOk, OnErr};
ghost use Rattle.core_compact.specs.CompactState.{IsAnswer};
ghost use Rattle.core_laws.specs.Entries.{ClonesEqual};
ghost use Rattle.core_laws.specs.Refusal.{Refuses};
ghost use Rattle.core_laws.specs.Settings.{settings_refusal};
ghost use Rattle.core_table.specs.HashTable.{empty_table, after_reset, key_hash, after_insertion, trimmed_table};
ghost use Rattle.core_laws.specs.Maps.{IsListing};
ghost use Rattle.core_laws.specs.Insertion.{upsert_refusal, upsert_allocates};
ghost use Rattle.core_state.specs.Updatable.{sketch_value, sketch_shows};
ghost use Rattle.core_state.specs.View.{shows, sequence};
ghost use Rattle.core_laws.specs.Values.{theta_of, count_of, fraction_of};
ghost use Rattle.core_laws.specs.Shown.{IsShown, shown_value};
ghost use Rattle.estimates.specs.Fraction.{decimal_of};
ghost use Rattle.estimates.specs.declared.fraction.TheConstants.{MAX_PLACES};
ghost use Rattle.core_policies.specs.Summaries.{update_step};
ghost use Rattle.core_slots.specs.Entry.{tuple_key};
ghost use Rattle.tuple_sketches.specs.Streams.{NonEmpty, seed_hash, value_hash, Given, nothing, with_value};
ghost use Rattle.tuple_sketches.specs.Streams.{least_folds, unmarked, unmarked_value, value_of, view_value};
ghost use Rattle.tuple_sketches.specs.Streams.{retained_of, IsPartOf, IsSampleOf, IsSketchOf, IsTrimmedOf};
ghost use Rattle.tuple_sketches.specs.Streams.{GivesMore, GivesNothing};

use crate::compact_sketch::CompactTupleSketch;
use crate::view::{TupleSketchIter, TupleSketchView};
use core_laws::MAX_THETA;
use core_policies::{SummaryPolicy, SummaryUpdatePolicy, UpdateStep};
use core_slots::TupleEntry;
use core_state::{Settings, UpdatableState};
use estimates::{Decimal, MAX_PLACES};
use sketch_base::Error;
use std::alloc::{Allocator, Global};
use std::hash::Hash;

/// A tuple sketch that takes updates: beside each hash it keeps a summary of the values of that key, which its policy
/// creates and updates. Its value is Empty until the first update is accepted. The crate's documentation has an
/// example.
#[derive(Drop)]
pub struct TupleSketch<P: SummaryPolicy, A: Allocator = Global> {
    state: UpdatableState<TupleEntry<P::Summary>, A>,
    policy: P,
}

impl<P: SummaryPolicy, A: Allocator> TupleSketch<P, A> {
    pub(crate) fn new(alloc: A, settings: Settings, policy: P) -> Result<Self, Error>
    where
        A: Drop,
        P: Drop,
        ensures empty { IfOk result (λ s. s.state.empty ≡ true) }
        ensures made { IfOk result (λ s.
            s.state.map ≡ empty_table settings.lg_k settings.starting_theta settings.seed) }
        ensures policy { IfOk result (λ s. s.policy ≡ policy) }
        ensures given { IfOk result (λ s.
            IsSketchOf settings.lg_k settings.starting_theta settings.seed s.state nothing) }
        ensures refused { Refuses result (settings_refusal settings.lg_k settings.starting_theta settings.seed) true }
    {
        let state = UpdatableState::new(alloc, settings)?;
        Ok(TupleSketch { state, policy })
    }

    /// A view of the sketch, for operators.
    pub fn as_view(&self) -> TupleSketchView<'_, P::Summary, A>
        ensures shows { shows tuple_key result ≡ sketch_shows tuple_key self.now.state }
        ensures sequence { sequence result ≡ self.now.state.sequence }
        ensures value { shown_value tuple_key (shows tuple_key result) (sequence result) ≡ sketch_value self.now.state }
        ensures part { (lg_k start seed : ℕ) (given : Given P.Summary)
            → IsSketchOf lg_k start seed self.now.state given →
            IsPartOf (2 ^ lg_k) start (view_value result) given }
        ensures sample { (lg_k start seed : ℕ) (given : Given P.Summary)
            → IsSketchOf lg_k start seed self.now.state given →
            IsSampleOf (view_value result) given }
    {
        TupleSketchView::of_state(&self.state)
    }

    /// Whether no update was accepted since it was built or last reset.
    pub fn is_empty(&self) -> bool
        ensures { result ≡ self.now.state.empty }
    {
        self.state.is_empty()
    }

    /// Whether its estimate may be inexact: it is not empty, and its theta is below `MAX_THETA`.
    pub fn is_estimation_mode(&self) -> bool
        ensures { result ≡ (not self.now.state.empty && nat_lt self.now.state.map.kept.theta MAX_THETA) }
    {
        self.state.is_estimation_mode()
    }

    /// The theta of its value, from 1 to `MAX_THETA`. It is `MAX_THETA` for an empty sketch, whatever its starting
    /// theta.
    pub fn theta64(&self) -> u64
        ensures { result ≡ theta_of (sketch_value self.now.state) }
    {
        self.state.theta64()
    }

    /// How many entries it retains, fewer than 2^32.
    pub fn num_retained(&self) -> usize
        ensures count { result ≡ count_of (sketch_value self.now.state) }
        ensures listed { result ≡ length self.now.state.sequence }
        ensures sound { IsShown (sketch_shows tuple_key self.now.state) }
    {
        self.state.num_retained()
    }

    /// The estimated number of distinct keys seen, as a fraction that is not reduced: the retained entries times
    /// `MAX_THETA`, below 2^95, over theta, from 1 to `MAX_THETA`; 0 over 1 for an empty sketch.
    pub fn estimate_fraction(&self) -> (u128, u128)
        ensures { result ≡ fraction_of (sketch_value self.now.state) }
    {
        self.state.estimate_fraction()
    }

    /// The estimate as a decimal number with `places` decimals, from 0 to 19, rounded down; 0 for an empty sketch.
    pub fn estimate_decimal(&self, places: u32) -> Decimal
        requires limited { places ≤ MAX_PLACES }
        ensures { result ≡ decimal_of (fraction_of (sketch_value self.now.state)) places }
    {
        self.state.estimate_decimal(places)
    }

    /// The binary logarithm of its nominal entries, from 4 to 26.
    pub fn lg_k(&self) -> u8
        ensures { result ≡ self.now.state.map.lg_nom }
    {
        self.state.lg_k()
    }

    /// The hash of its seed, from 1 to 65535.
    pub fn seed_hash(&self) -> u16
        ensures { result ≡ self.now.state.map.seed_hash }
    {
        self.state.seed_hash()
    }

    /// Its entries, each once, in an unspecified order.
    pub fn iter(&self) -> TupleSketchIter<'_, P::Summary>
        ensures listed { result ≡ record { rest = self.now.state.sequence; counted = false } }
        ensures each_once { IsListing tuple_key self.now.state.map.kept.entries self.now.state.sequence }
        ensures sound { IsShown (sketch_shows tuple_key self.now.state) }
    {
        self.state.entries()
    }

    /// Bytes taken by the slots of its table, including free ones, without memory that summaries own elsewhere. There
    /// are 32 to 2^(`lg_k` + 1) slots.
    pub fn estimated_size(&self) -> usize {
        self.state.estimated_size()
    }

    /// Makes it empty again, with its starting theta. It allocates nothing.
    pub fn reset(&mut self)
        ensures empty { self.new.state.empty ≡ true }
        ensures map { self.new.state.map ≡ after_reset self.old.state.map }
        ensures same_policy { self.new.policy ≡ self.old.policy }
        ensures given { (lg_k start seed : ℕ) (given : Given P.Summary)
            → IsSketchOf lg_k start seed self.old.state given →
            IsSketchOf lg_k start seed self.new.state nothing }
    {
        self.state.reset();
    }
}

impl<P: SummaryPolicy, A: Allocator + Clone> TupleSketch<P, A> {
    /// Updates the summary of a key with a value, by the key's hash under the sketch's seed. Refused as `update_hash`
    /// is.
    ///
    /// A key is hashed as std's `Hash` writes its bytes, and after a text `Hash` writes one more byte, 255, while
    /// libraries in other languages hash the bytes of the text alone. To get their hash, `write` the bytes to a
    /// `MurmurHash3X64128` of the sketch's seed, and pass `finish128().0 >> 1` to `update_hash`.
    #[inline(always)]
    pub fn update<K: Hash + Drop, U: Drop>(&mut self, key: K, value: U) -> Result<(), Error>
    where
        P: SummaryUpdatePolicy<U>,
        ensures nonempty { OnOk result (self.new.state.empty ≡ false) }
        ensures after { let h = key_hash self.old.state.map (K.hash_input key) in
            OnOk result (
            self.new.state.map
            ≡ after_insertion tuple_key h
            (update_step (P.creates self.old.policy) (P.updates self.old.policy) h value) self.old.state.map) }
        ensures same_policy { self.new.policy ≡ self.old.policy }
        ensures err_empty { OnErr result (self.new.state.empty ≡ self.old.state.empty) }
        ensures err { OnErr result (self.new.state.map ≡ self.old.state.map) }
        ensures given { OnOk result (
            GivesMore self.old.state self.new.state (λ seed given.
            with_value (P.creates self.old.policy) (P.updates self.old.policy) (value_hash seed (K.hash_input key)) value given)) }
        ensures err_given { OnErr result (GivesNothing self.old.state self.new.state) }
        ensures refused { let h = key_hash self.old.state.map (K.hash_input key) in
            let step = update_step (P.creates self.old.policy) (P.updates self.old.policy) h value in
            Refuses result (upsert_refusal tuple_key h step self.old.state.map.kept)
            (upsert_allocates tuple_key h (record step { allocates = P.takes_memory self.old.policy })
            self.old.state.map.kept) }
    {
        let hash = self.state.hash(key);
        self.update_hash(hash, value)
    }

    /// Updates the summary of a hash of 63 bits with a value: the policy updates the retained summary, or one that it
    /// creates for a new hash. A hash that is 0 or at least theta is not retained, and no policy is called, but the
    /// sketch becomes nonempty.
    ///
    /// Refused with `Policy` if the policy refuses to create or to update, and with `OutOfMemory`; then nothing has
    /// changed, emptiness and summaries included. A hash that is 0 or at least theta is never refused.
    #[inline(always)]
    pub fn update_hash<U: Drop>(&mut self, hash: u64, value: U) -> Result<(), Error>
    where
        P: SummaryUpdatePolicy<U>,
        ensures nonempty { OnOk result (self.new.state.empty ≡ false) }
        ensures after { OnOk result (
            self.new.state.map
            ≡ after_insertion tuple_key hash
            (update_step (P.creates self.old.policy) (P.updates self.old.policy) hash value)
            self.old.state.map) }
        ensures same_policy { self.new.policy ≡ self.old.policy }
        ensures err_empty { OnErr result (self.new.state.empty ≡ self.old.state.empty) }
        ensures err { OnErr result (self.new.state.map ≡ self.old.state.map) }
        ensures given { OnOk result (
            GivesMore self.old.state self.new.state (λ _ given.
            with_value (P.creates self.old.policy) (P.updates self.old.policy) hash value given)) }
        ensures err_given { OnErr result (GivesNothing self.old.state self.new.state) }
        ensures refused { let step = update_step (P.creates self.old.policy) (P.updates self.old.policy) hash value in
            Refuses result (upsert_refusal tuple_key hash step self.old.state.map.kept)
            (upsert_allocates tuple_key hash (record step { allocates = P.takes_memory self.old.policy })
            self.old.state.map.kept) }
    {
        let step = UpdateStep::new(&self.policy, hash, value);
        self.state.upsert(hash, step)
    }

    /// If more than k entries are retained, where k is 2^`lg_k`, lowers theta to the (k+1)th smallest hash and keeps
    /// the k entries below it.
    ///
    /// Refused with `OutOfMemory` alone, and only if more than k are retained; then nothing has changed.
    pub fn trim(&mut self) -> Result<(), Error>
        ensures same_emptiness { self.new.state.empty ≡ self.old.state.empty }
        ensures after { OnOk result (self.new.state.map ≡ trimmed_table tuple_key self.old.state.map) }
        ensures same_policy { self.new.policy ≡ self.old.policy }
        ensures err { OnErr result (self.new.state.map ≡ self.old.state.map) }
        ensures given { OnOk result
            ((lg_k start seed : ℕ) (given : Given P.Summary) → IsSketchOf lg_k start seed self.old.state given →
            IsTrimmedOf lg_k start seed self.new.state given) }
        ensures err_given { OnErr result (GivesNothing self.old.state self.new.state) }
        ensures refused { Refuses result None
            (nat_lt (2 ^ self.old.state.map.lg_nom) (length self.old.state.map.kept.entries)) }
    {
        self.state.trim()
    }

    /// Returns a compact sketch of the same value, untrimmed. The result is ordered if `ordered` is true, if it is
    /// empty, or if it has one entry at the greatest theta. The sketch doesn't change. Refused with `OutOfMemory`
    /// alone. Clones of summaries must equal their originals.
    pub fn compact(&self, ordered: bool) -> Result<CompactTupleSketch<P::Summary, A>, Error>
    where
        P::Summary: Clone,
        requires clones_equal { ClonesEqual P.Summary.is_clone }
        ensures ok { IfOk result
            (IsAnswer tuple_key (sketch_value self.now.state) self.now.state.map.seed_hash ordered) }
        ensures part { IfOk result
            (λ s. (lg_k start seed : ℕ) (given : Given P.Summary) → IsSketchOf lg_k start seed self.now.state given →
            IsPartOf (2 ^ lg_k) start (value_of s) given) }
        ensures seeded { IfOk result
            (λ s. (lg_k start seed : ℕ) (given : Given P.Summary) → IsSketchOf lg_k start seed self.now.state given →
            s.seed_hash ≡ seed_hash seed) }
        ensures least { IfOk result
            (λ s. (lg_k start seed : ℕ) (given : Given P.Summary) → IsTrimmedOf lg_k start seed self.now.state given →
            given.any ≡ true → unmarked_value (value_of s) ≡ NonEmpty (least_folds (2 ^ lg_k) given start)) }
        ensures kmin { IfOk result
            (λ s. (lg_k seed : ℕ) (given : Given P.Summary) → IsTrimmedOf lg_k MAX_THETA seed self.now.state given →
            ordered ≡ true → unmarked (retained_of s) ≡ least_folds (2 ^ lg_k) given MAX_THETA) }
        ensures refused { Refuses result None true }
    {
        let state = self.state.compact(ordered)?;
        Ok(CompactTupleSketch::of_state(state))
    }
}

impl<P: SummaryPolicy + Copy, A: Allocator + Clone> TupleSketch<P, A> {
    /// Returns a copy of the sketch, in memory of clones of its allocator: with the same entries, theta, settings and
    /// policy, but perhaps in another order. Refused with `OutOfMemory` alone. Clones of summaries must equal their
    /// originals.
    pub fn clone(&self) -> Result<Self, Error>
    where
        P::Summary: Clone,
        requires clones_equal { ClonesEqual P.Summary.is_clone }
        ensures empty { IfOk result (λ s. s.state.empty ≡ self.now.state.empty) }
        ensures copied { IfOk result (λ s. s.state.map ≡ self.now.state.map) }
        ensures same_policy { IfOk result (λ s. s.policy ≡ self.now.policy) }
        ensures given { IfOk result (λ s. GivesNothing self.now.state s.state) }
        ensures refused { Refuses result None true }
    {
        let state = self.state.clone()?;
        let policy = self.policy;
        Ok(TupleSketch { state, policy })
    }
}
