//! Unions of theta sketches.
ghost use Rattle.std.specs.Prelude.{◌≡◌, ◌≢◌, ◌≤◌, ◌^◌, ℕ, List, [], ◌∷◌, ◌++◌, true, not, None, map, IfOk, IfErr};
ghost use Rattle.std.specs.Prelude.{OnOk, OnErr};
ghost use Rattle.std.specs.List.{concat};
ghost use Rattle.sketch_base.specs.Seed.{seed_hash};
ghost use Rattle.core_compact.specs.CompactState.{IsAnswer};
ghost use Rattle.core_laws.specs.Entries.{hash_key};
ghost use Rattle.core_laws.specs.Refusal.{Refuses};
ghost use Rattle.core_laws.specs.Settings.{settings_refusal};
ghost use Rattle.core_laws.specs.Shown.{IsShown};
ghost use Rattle.core_laws.specs.Cuts.{IsRetained};
ghost use Rattle.core_operators.specs.Union.{Union, empty_union, union_value, update_refusal, lower_refusal};
ghost use Rattle.core_operators.specs.Union.{lower_allocates, lowered, failure, IsUnion, JoinsHashes, UnitesHashes};
ghost use Rattle.core_operators.specs.Union.{IsHashUpdateError, all_empty, update_all_refusal, JoinsAllHashes};
ghost use Rattle.core_operators.specs.Union.{UnitesAllHashes, IsHashUpdateAllError};
ghost use Rattle.core_laws.specs.Values.{cut_value};
ghost use Rattle.theta_sketches.specs.View.{view_shows, view_sequence};
ghost use Rattle.sketch_base.specs.declared.error.ErrorKind.TheVariants.{OutOfMemory};
ghost use Rattle.theta_sketches.specs.Streams.{kmin, set_of, set_below, MAX_THETA, NonEmpty, value_of, view_value};
ghost use Rattle.theta_sketches.specs.Streams.{retained_of, IsPartOf, IsSampleOf, ArePartsOf, IsUnionOf};
ghost use Rattle.theta_sketches.specs.Streams.{IsUnionOfSamples};

use crate::compact_sketch::CompactThetaSketch;
use crate::policy::NoopUnionPolicy;
use crate::view::ThetaSketchView;
use core_operators::UnionState;
use core_slots::ThetaEntry;
use core_state::Settings;
use sketch_base::Error;
use std::alloc::{Allocator, Global};
use std::marker::Model;

/// A union of theta sketches, passed one by one or many at once.
///
/// Its value has the hashes of all its inputs below their least theta and its own starting theta. If these are more
/// than k, its 2^`lg_k` nominal entries, the value has the k least, and its theta is the (k+1)th. If memory runs out
/// in an update, the union has failed: until it is reset, `update`, `update_all`, `to_sketch` and `lower_lg_k` are
/// refused with `Failed`. The crate's documentation has an example.
#[derive(Drop)]
pub struct ThetaUnion<A: Allocator = Global> {
    state: UnionState<ThetaEntry, NoopUnionPolicy, A>,
}

impl<A: Allocator> Model for ThetaUnion<A> {
    ghost use Rattle.std.specs.Prelude.{ℕ};
    ghost use Rattle.core_operators.specs.Union.{Union};
    ghost use Rattle.theta_sketches.specs.declared.policy.NoopUnionPolicy.{NoopUnionPolicy};

    ghost Value = { Union ℕ NoopUnionPolicy };

    ghost view = { λ u. u.state };
}

impl<A: Allocator + Drop> ThetaUnion<A> {
    pub(crate) fn new(alloc: A, settings: Settings) -> Result<Self, Error>
        ensures made { IfOk result (λ u.
            u ≡ empty_union settings.lg_k settings.starting_theta (seed_hash settings.seed) (record {})) }
        ensures given { IfOk result (λ u. IsUnionOf settings.lg_k (2 ^ settings.lg_k) settings.starting_theta u []) }
        ensures sampled { IfOk result (λ u. IsUnionOfSamples u []) }
        ensures refused { Refuses result (settings_refusal settings.lg_k settings.starting_theta settings.seed) true }
    {
        let state = UnionState::new(
            alloc,
            settings.lg_k(),
            settings.resize_factor(),
            settings.starting_theta(),
            settings.seed(),
            NoopUnionPolicy,
        )?;
        Ok(ThetaUnion { state })
    }

    /// Makes it empty again, and ends a failure. It allocates nothing.
    ///
    /// `given` needs no fact of what the union was given, so it is there after a failure too: no call but
    /// `lower_lg_k` changes a union's nominal entries, and none its start.
    pub fn reset(&mut self)
        ensures after { self.new ≡ empty_union self.old.lg_k self.old.start self.old.seed_hash self.old.policy }
        ensures given { (k start : ℕ)
            → k ≤ 2 ^ self.old.lg_k
            → start ≤ self.old.start
            → IsUnionOf self.old.lg_k k start self.new [] }
        ensures sampled { IsUnionOfSamples self.new [] }
    {
        self.state.reset();
    }
}

impl<A: Allocator + Clone> ThetaUnion<A> {
    /// Merges a sketch into the union. An empty sketch changes nothing, and its seed is not checked.
    ///
    /// Refused with `Failed` if the union has failed, whatever the input, and with `InvalidArgument` for a sketch of
    /// another seed; then nothing has changed. Refused with `OutOfMemory`; then the union has failed.
    pub fn update<B: Allocator>(&mut self, sketch: ThetaSketchView<'_, B>) -> Result<(), Error>
        ensures skipped { OnOk result ((view_shows sketch.entry).empty ≡ true → self.new ≡ self.old) }
        ensures united { OnOk result
            (UnitesHashes self.old self.new (view_shows sketch.entry) (view_sequence sketch.entry)) }
        ensures joined { OnOk result
            (JoinsHashes self.old self.new (view_shows sketch.entry) (view_sequence sketch.entry)) }
        ensures made_with { OnOk result
            (self.new ≡ record self.old { empty = self.new.empty; content = self.new.content }) }
        ensures accepted { OnOk result (update_refusal self.old (view_shows sketch.entry) ≡ None) }
        ensures shown { OnOk result (IsShown (view_shows sketch.entry)) }
        ensures given { OnOk result
            ((lg_k k start : ℕ) (hashes more : List ℕ) → IsUnionOf lg_k k start self.old hashes →
            IsPartOf k start (view_value sketch.entry) more → IsUnionOf lg_k k start self.new (hashes ++ more)) }
        ensures sampled { OnOk result
            ((hashes more : List ℕ) → IsUnionOfSamples self.old hashes → IsSampleOf (view_value sketch.entry) more →
            IsUnionOfSamples self.new (hashes ++ more)) }
        ensures err_given { IfErr result (λ e. e ≢ OutOfMemory → self.new ≡ self.old) }
        ensures err_settings { OnErr result ((self.new.lg_k ≡ self.old.lg_k) × (self.new.start ≡ self.old.start)) }
        ensures refused { IfErr result (IsHashUpdateError self.old self.new (view_shows sketch.entry)) }
        ensures sound { IsUnion self.old }
        ensures content { IsRetained hash_key self.old.content }
    {
        self.state.update(sketch)?;
        Ok(())
    }

    /// Merges sketches into the union, with the value of one `update` after another. Empty sketches change nothing,
    /// and their seeds are not checked.
    ///
    /// If all sketches that aren't empty are ordered, the least hashes of all are merged first, and no sketch is read
    /// on once the union's theta is below its next hash. For many sketches with different hashes this takes a
    /// fraction of the time of one `update` each. If some sketch isn't ordered, each is read as `update` reads it.
    ///
    /// Refused with `Failed` if the union has failed, whatever the inputs, and with `InvalidArgument` if one of the
    /// sketches that aren't empty has another seed; then nothing has changed. Refused with `OutOfMemory`; then the
    /// union has failed.
    pub fn update_all<B: Allocator>(
        &mut self,
        sketches: &[ThetaSketchView<'_, B>],
    ) -> Result<(), Error>
        ensures skipped { OnOk result (all_empty (λ v. view_shows v) sketches.now ≡ true → self.new ≡ self.old) }
        ensures united { OnOk result (
            UnitesAllHashes self.old self.new (λ v. view_shows v) (λ v. view_sequence v) sketches.now) }
        ensures joined { OnOk result (
            JoinsAllHashes self.old self.new (λ v. view_shows v) (λ v. view_sequence v) sketches.now) }
        ensures made_with { OnOk result
            (self.new ≡ record self.old { empty = self.new.empty; content = self.new.content }) }
        ensures accepted { OnOk result (update_all_refusal self.old (λ v. view_shows v) sketches.now ≡ None) }
        ensures given { OnOk result
            ((lg_k k start : ℕ) (hashes : List ℕ) (streams : List (List ℕ)) → IsUnionOf lg_k k start self.old hashes →
            ArePartsOf k start (map (λ v. view_value v) sketches.now) streams → IsUnionOf lg_k k start self.new (hashes ++ concat streams)) }
        ensures err_settings { OnErr result ((self.new.lg_k ≡ self.old.lg_k) × (self.new.start ≡ self.old.start)) }
        ensures refused { IfErr result (IsHashUpdateAllError self.old self.new (λ v. view_shows v) sketches.now) }
        ensures sound { IsUnion self.old }
        ensures content { IsRetained hash_key self.old.content }
    {
        self.state.update_all(sketches)?;
        Ok(())
    }

    /// Returns its value as a compact sketch. The result is ordered if `ordered` is true, if it is empty, or if it
    /// has one hash at the greatest theta. The union doesn't change. Refused with `Failed` if the union has failed,
    /// and with `OutOfMemory`.
    pub fn to_sketch(&self, ordered: bool) -> Result<CompactThetaSketch<A>, Error>
        ensures ok { IfOk result (IsAnswer hash_key (union_value hash_key self.now) self.now.seed_hash ordered) }
        ensures part { IfOk result (λ s. (lg_k k start : ℕ) (hashes : List ℕ) → IsUnionOf lg_k k start self.now hashes →
            IsPartOf k start (value_of s) hashes) }
        ensures sample { IfOk result (λ s.
            (hashes : List ℕ) → IsUnionOfSamples self.now hashes → IsSampleOf (value_of s) hashes) }
        ensures below { IfOk result (λ s. (hashes : List ℕ) → IsUnionOfSamples self.now hashes → ordered ≡ true →
            s.entries ≡ set_below s.theta hashes) }
        ensures least { IfOk result
            (λ s. (lg_k start : ℕ) (hashes : List ℕ) → IsUnionOf lg_k (2 ^ lg_k) start self.now hashes →
            hashes ≢ [] → value_of s ≡ NonEmpty (kmin (2 ^ lg_k) (set_of hashes) start)) }
        ensures kmin { IfOk result
            (λ s. (lg_k : ℕ) (hashes : List ℕ) → IsUnionOf lg_k (2 ^ lg_k) MAX_THETA self.now hashes →
            ordered ≡ true → retained_of s ≡ kmin (2 ^ lg_k) (set_of hashes) MAX_THETA) }
        ensures refused { Refuses result (failure self.now.failed) (not self.now.failed) }
    {
        let state = self.state.to_compact_sketch_state(ordered)?;
        Ok(CompactThetaSketch::of_state(state))
    }

    /// Lowers the nominal entries to 2^`lg_k`, at least 2^4 and no more than now. The union's value is cut to those,
    /// and later values have no more, also after a `reset`. An empty union stays empty. With its own `lg_k` nothing
    /// changes, and nothing is allocated.
    ///
    /// Refused, in this order, with `Failed` if the union has failed, with `InvalidArgument` if `lg_k` isn't from 4
    /// to its own, and with `OutOfMemory`; then the union is unchanged.
    pub fn lower_lg_k(&mut self, lg_k: u8) -> Result<(), Error>
        ensures after { OnOk result (self.new ≡ lowered hash_key lg_k self.old) }
        ensures value { OnOk result
            (union_value hash_key self.new ≡ cut_value hash_key (2 ^ lg_k) (union_value hash_key self.old)) }
        ensures err { OnErr result (self.new ≡ self.old) }
        ensures given { OnOk result
            ((nominal k less start : ℕ) (hashes : List ℕ) → IsUnionOf nominal k start self.old hashes →
            less ≤ k → less ≤ 2 ^ lg_k → IsUnionOf lg_k less start self.new hashes) }
        ensures sampled { OnOk result
            ((hashes : List ℕ) → IsUnionOfSamples self.old hashes → IsUnionOfSamples self.new hashes) }
        ensures refused { Refuses result (lower_refusal self.old lg_k) (lower_allocates self.old lg_k) }
        ensures sound { IsUnion self.old }
        ensures content { IsRetained hash_key self.old.content }
    {
        self.state.lower_lg_k(lg_k)
    }

    /// Bytes taken by the slots of its table, including free ones: eight per slot, with 32 to 2^(`lg_k` + 1) slots. If
    /// more than 512 hashes shared a path in them, its hashes are in lists, and eight bytes of each hash are added.
    pub fn estimated_size(&self) -> usize {
        self.state.estimated_size()
    }
}
