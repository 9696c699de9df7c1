//! Unions of tuple sketches.
ghost use Rattle.std.specs.Prelude.{◌≡◌, ◌≢◌, ◌≤◌, ◌^◌, ℕ, List, [], ◌∷◌, true, not, None, map, IfOk, IfErr, OnOk};
ghost use Rattle.std.specs.Prelude.{OnErr};
ghost use Rattle.sketch_base.specs.Seed.{seed_hash};
ghost use Rattle.core_compact.specs.CompactState.{IsAnswer};
ghost use Rattle.core_slots.specs.Entry.{tuple_key};
ghost use Rattle.core_laws.specs.Settings.{settings_refusal};
ghost use Rattle.core_laws.specs.Shown.{IsShown};
ghost use Rattle.core_laws.specs.Cuts.{IsRetained};
ghost use Rattle.core_laws.specs.Entries.{ClonesEqual};
ghost use Rattle.core_laws.specs.Refusal.{Refuses};
ghost use Rattle.core_laws.specs.Values.{cut_value};
ghost use Rattle.core_policies.specs.Summaries.{combined, combine_refused};
ghost use Rattle.core_operators.specs.Union.{empty_union, union_value, update_refusal, lower_refusal};
ghost use Rattle.core_operators.specs.Union.{lower_allocates, lowered, failure, IsUnion, IsUpdateError};
ghost use Rattle.core_operators.specs.Union.{JoinsSummaries, UnitesSummaries, all_empty, update_all_refusal};
ghost use Rattle.core_operators.specs.Union.{IsUpdateAllError, JoinsAllSummaries, UnitesAllSummaries};
ghost use Rattle.core_state.specs.View.{shows, sequence};
ghost use Rattle.core_laws.specs.Folds.{Value};
ghost use Rattle.core_laws.specs.Maps.{below};
ghost use Rattle.sketch_base.specs.declared.error.ErrorKind.TheVariants.{OutOfMemory, Policy};
ghost use Rattle.tuple_sketches.specs.Streams.{MAX_THETA, NonEmpty, Given, nothing, united, united_all};
ghost use Rattle.tuple_sketches.specs.Streams.{least_folds, fold_key, unmarked, unmarked_value, value_of};
ghost use Rattle.tuple_sketches.specs.Streams.{view_value, retained_of, IsPartOf, IsSampleOf, ArePartsOf};
ghost use Rattle.tuple_sketches.specs.Streams.{IsUnionOf, IsUnionOfSamples};

use crate::compact_sketch::CompactTupleSketch;
use crate::operands::{join_view, join_views};
use crate::view::TupleSketchView;
use core_operators::UnionState;
use core_policies::{SummaryCombinePolicy, SummaryPolicy};
use core_slots::TupleEntry;
use core_state::Settings;
use sketch_base::Error;
use std::alloc::{Allocator, Global};

/// A union of tuple sketches, passed one by one or many at once.
///
/// Its value has the entries of all its inputs below their least theta and its own starting theta. If these are more
/// than k, its 2^`lg_k` nominal entries, the value has the k of least hash, and its theta is the (k+1)th hash. Its
/// policy combines the summaries of a key that inputs share, in the order of the inputs. If memory runs out in an
/// update, or the policy refuses, the union has failed: until it is reset, `update`, `update_all`, `to_sketch` and
/// `lower_lg_k` are refused with `Failed`. The crate's documentation has an example.
#[derive(Drop)]
pub struct TupleUnion<P: SummaryPolicy, A: Allocator = Global> {
    state: UnionState<TupleEntry<P::Summary>, P, A>,
}

impl<P: SummaryPolicy + Drop, A: Allocator + Drop> TupleUnion<P, A> {
    pub(crate) fn new(alloc: A, settings: Settings, policy: P) -> Result<Self, Error>
        ensures made { IfOk result (λ u.
            u.state ≡ empty_union settings.lg_k settings.starting_theta (seed_hash settings.seed) policy) }
        ensures given { IfOk result (λ u.
            IsUnionOf settings.lg_k (2 ^ settings.lg_k) settings.starting_theta u.state nothing) }
        ensures sampled { IfOk result (λ u. IsUnionOfSamples u.state nothing) }
        ensures refused { Refuses result (settings_refusal settings.lg_k settings.starting_theta settings.seed) true }
    {
        let state = UnionState::new(
            alloc,
            settings.lg_k(),
            settings.resize_factor(),
            settings.starting_theta(),
            settings.seed(),
            policy,
        )?;
        Ok(TupleUnion { state })
    }

    /// Makes it empty again, and ends a failure. It allocates nothing.
    ///
    /// `given` needs no fact of what the union was given, so it is there after a failure too: no call but
    /// `lower_lg_k` changes a union's nominal entries, and none its start.
    pub fn reset(&mut self)
        ensures after { self.new.state
            ≡ empty_union self.old.state.lg_k self.old.state.start self.old.state.seed_hash self.old.state.policy }
        ensures given { (k start : ℕ) → k ≤ 2 ^ self.old.state.lg_k → start ≤ self.old.state.start →
            IsUnionOf self.old.state.lg_k k start self.new.state nothing }
        ensures sampled { IsUnionOfSamples self.new.state nothing }
    {
        self.state.reset();
    }
}

impl<P: SummaryCombinePolicy + Drop, A: Allocator + Clone> TupleUnion<P, A> {
    /// Merges a sketch into the union. An empty sketch changes nothing, and its seed is not checked.
    ///
    /// Refused with `Failed` if the union has failed, whatever the input, and with `InvalidArgument` for a sketch of
    /// another seed; then nothing has changed. Refused with `OutOfMemory`, or with `Policy` if the policy refuses the
    /// summaries of a key below every theta so far; then the union has failed. Clones of summaries must equal their
    /// originals.
    pub fn update<B: Allocator>(
        &mut self,
        sketch: TupleSketchView<'_, P::Summary, B>,
    ) -> Result<(), Error>
    where
        P::Summary: Clone,
        requires clones_equal { ClonesEqual P.Summary.is_clone }
        ensures skipped { OnOk result ((shows tuple_key sketch.entry).empty ≡ true → self.new.state ≡ self.old.state) }
        ensures united { OnOk result (
            UnitesSummaries (P.combines self.old.state.policy) self.old.state self.new.state
            (shows tuple_key sketch.entry) (sequence sketch.entry)) }
        ensures joined { OnOk result (
            JoinsSummaries (P.combines self.old.state.policy) self.old.state self.new.state
            (shows tuple_key sketch.entry) (sequence sketch.entry)) }
        ensures made_with { OnOk result
            (self.new.state
            ≡ record self.old.state { empty = self.new.state.empty; content = self.new.state.content }) }
        ensures accepted { OnOk result (update_refusal self.old.state (shows tuple_key sketch.entry) ≡ None) }
        ensures shown { OnOk result (IsShown (shows tuple_key sketch.entry)) }
        ensures given { OnOk result
            ((lg_k k start : ℕ) (given more : Given P.Summary) → IsUnionOf lg_k k start self.old.state given →
            IsPartOf k start (view_value sketch.entry) more →
            IsUnionOf lg_k k start self.new.state (united (P.combines self.old.state.policy) given more)) }
        ensures sampled { OnOk result ((given more : Given P.Summary) → IsUnionOfSamples self.old.state given →
            IsSampleOf (view_value sketch.entry) more →
            IsUnionOfSamples self.new.state (united (P.combines self.old.state.policy) given more)) }
        ensures err_given { IfErr result (λ e. e ≢ OutOfMemory → e ≢ Policy → self.new.state ≡ self.old.state) }
        ensures err_settings { OnErr result
            ((self.new.state.lg_k ≡ self.old.state.lg_k) × (self.new.state.start ≡ self.old.state.start)) }
        ensures refused { IfErr result (
            IsUpdateError tuple_key (combine_refused (P.combines self.old.state.policy)) self.old.state
            self.new.state (shows tuple_key sketch.entry) (sequence sketch.entry)) }
        ensures sound { IsUnion self.old.state }
        ensures content { IsRetained tuple_key self.old.state.content }
    {
        join_view(&mut self.state, sketch)
    }

    /// Merges sketches into the union, with the value of one `update` after another, if these succeed: the policy
    /// combines the summaries of a key in the order of the sketches. Empty sketches change nothing, and their seeds
    /// are not checked.
    ///
    /// If all sketches that aren't empty are ordered, the entries of least hash of all are merged first, and no
    /// sketch is read on once the union's theta is below its next hash. For many sketches with different hashes this
    /// takes a fraction of the time of one `update` each, and the policy combines fewer summaries. If some sketch
    /// isn't ordered, each is read as `update` reads it.
    ///
    /// Refused with `Failed` if the union has failed, whatever the inputs, and with `InvalidArgument` if one of the
    /// sketches that aren't empty has another seed; then nothing has changed. Refused with `OutOfMemory`, or with
    /// `Policy` if the policy refuses the summaries of a key below the thetas of the union and of all sketches; then
    /// the union has failed. Whether the policy is called for a key at or above the theta of the result is
    /// unspecified. Clones of summaries must equal their originals.
    pub fn update_all<B: Allocator>(
        &mut self,
        sketches: &[TupleSketchView<'_, P::Summary, B>],
    ) -> Result<(), Error>
    where
        P::Summary: Clone,
        requires clones_equal { ClonesEqual P.Summary.is_clone }
        ensures skipped { OnOk result (
            all_empty (λ v. shows tuple_key v) sketches.now ≡ true → self.new.state ≡ self.old.state) }
        ensures united { OnOk result (
            UnitesAllSummaries (P.combines self.old.state.policy) self.old.state self.new.state
            (λ v. shows tuple_key v) (λ v. sequence v) sketches.now) }
        ensures joined { OnOk result (
            JoinsAllSummaries (P.combines self.old.state.policy) self.old.state self.new.state
            (λ v. shows tuple_key v) (λ v. sequence v) sketches.now) }
        ensures made_with { OnOk result
            (self.new.state
            ≡ record self.old.state { empty = self.new.state.empty; content = self.new.state.content }) }
        ensures accepted { OnOk result
            (update_all_refusal self.old.state (λ v. shows tuple_key v) sketches.now ≡ None) }
        ensures given { OnOk result (
            (lg_k k start : ℕ) (given : Given P.Summary) (others : List (Given P.Summary))
            → IsUnionOf lg_k k start self.old.state given →
            ArePartsOf k start (map (λ v. view_value v) sketches.now) others →
            IsUnionOf lg_k k start self.new.state (united_all (P.combines self.old.state.policy) given others)) }
        ensures err_settings { OnErr result
            ((self.new.state.lg_k ≡ self.old.state.lg_k) × (self.new.state.start ≡ self.old.state.start)) }
        ensures refused { IfErr result (
            IsUpdateAllError tuple_key (combined (P.combines self.old.state.policy))
            (combine_refused (P.combines self.old.state.policy)) self.old.state self.new.state
            (λ v. shows tuple_key v) (λ v. sequence v) sketches.now) }
        ensures sound { IsUnion self.old.state }
        ensures content { IsRetained tuple_key self.old.state.content }
    {
        join_views(&mut self.state, sketches)
    }

    /// Returns its value as a compact sketch. The result is ordered if `ordered` is true, if it is empty, or if it
    /// has one entry at the greatest theta. The union doesn't change. Refused with `Failed` if the union has failed,
    /// and with `OutOfMemory`. Clones of summaries must equal their originals.
    pub fn to_sketch(&self, ordered: bool) -> Result<CompactTupleSketch<P::Summary, A>, Error>
    where
        P::Summary: Clone,
        requires clones_equal { ClonesEqual P.Summary.is_clone }
        ensures ok { IfOk result
            (IsAnswer tuple_key (union_value tuple_key self.now.state) self.now.state.seed_hash ordered) }
        ensures part { IfOk result
            (λ s. (lg_k k start : ℕ) (given : Given P.Summary) → IsUnionOf lg_k k start self.now.state given →
            IsPartOf k start (value_of s) given) }
        ensures sample { IfOk result (λ s.
            (given : Given P.Summary) → IsUnionOfSamples self.now.state given → IsSampleOf (value_of s) given) }
        ensures below { IfOk result
            (λ s. (given : Given P.Summary) → IsUnionOfSamples self.now.state given → ordered ≡ true →
            map Value s.entries ≡ below (fold_key tuple_key) given.whole s.theta) }
        ensures least { IfOk result
            (λ s. (lg_k start : ℕ) (given : Given P.Summary) → IsUnionOf lg_k (2 ^ lg_k) start self.now.state given →
            given.any ≡ true → unmarked_value (value_of s) ≡ NonEmpty (least_folds (2 ^ lg_k) given start)) }
        ensures kmin { IfOk result
            (λ s. (lg_k : ℕ) (given : Given P.Summary) → IsUnionOf lg_k (2 ^ lg_k) MAX_THETA self.now.state given →
            ordered ≡ true → unmarked (retained_of s) ≡ least_folds (2 ^ lg_k) given MAX_THETA) }
        ensures refused { Refuses result (failure self.now.state.failed) (not self.now.state.failed) }
    {
        let state = self.state.to_compact_sketch_state(ordered)?;
        Ok(CompactTupleSketch::of_state(state))
    }

    /// Lowers the nominal entries to 2^`lg_k`, at least 2^4 and no more than now. The union's value is cut to those,
    /// and later values have no more, also after a `reset`. An empty union stays empty. With its own `lg_k` nothing
    /// changes, and nothing is allocated.
    ///
    /// Refused, in this order, with `Failed` if the union has failed, with `InvalidArgument` if `lg_k` isn't from 4
    /// to its own, and with `OutOfMemory`; then the union is unchanged. No policy is called. Clones of summaries must
    /// equal their originals.
    pub fn lower_lg_k(&mut self, lg_k: u8) -> Result<(), Error>
    where
        P::Summary: Clone,
        requires clones_equal { ClonesEqual P.Summary.is_clone }
        ensures after { OnOk result (self.new.state ≡ lowered tuple_key lg_k self.old.state) }
        ensures value { OnOk result
            (union_value tuple_key self.new.state
            ≡ cut_value tuple_key (2 ^ lg_k) (union_value tuple_key self.old.state)) }
        ensures err { OnErr result (self.new.state ≡ self.old.state) }
        ensures given { OnOk result
            ((nominal k less start : ℕ) (given : Given P.Summary) → IsUnionOf nominal k start self.old.state given →
            less ≤ k → less ≤ 2 ^ lg_k → IsUnionOf lg_k less start self.new.state given) }
        ensures sampled { OnOk result
            ((given : Given P.Summary)
            → IsUnionOfSamples self.old.state given
            → IsUnionOfSamples self.new.state given) }
        ensures refused { Refuses result (lower_refusal self.old.state lg_k) (lower_allocates self.old.state lg_k) }
        ensures sound { IsUnion self.old.state }
        ensures content { IsRetained tuple_key self.old.state.content }
    {
        self.state.lower_lg_k(lg_k)
    }

    /// Bytes taken by the slots of its table, including free ones, without memory that summaries own elsewhere. There
    /// are 32 to 2^(`lg_k` + 1) slots. If more than 512 hashes shared a path in them, its entries are in lists, whose
    /// bytes are added.
    pub fn estimated_size(&self) -> usize
    where
        P::Summary: Clone,
    {
        self.state.estimated_size()
    }
}
