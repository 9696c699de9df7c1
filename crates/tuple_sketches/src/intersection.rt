//! Intersections of tuple sketches.
ghost use Rattle.std.specs.Prelude.{◌≡◌, ◌≢◌, ◌++◌, List, [], ◌∷◌, map, Option, None, true, false, is_some, IsSome};
ghost use Rattle.std.specs.Prelude.{IfSome, IfOk, IfErr, OnOk};
ghost use Rattle.sketch_base.specs.Seed.{seed_hash};
ghost use Rattle.sketch_base.specs.declared.seed.TheConstants.{DEFAULT_UPDATE_SEED};
ghost use Rattle.core_slots.specs.Entry.{tuple_key};
ghost use Rattle.core_laws.specs.Cuts.{IsRetained};
ghost use Rattle.core_laws.specs.Entries.{ClonesEqual};
ghost use Rattle.core_laws.specs.Refusal.{Refuses};
ghost use Rattle.core_policies.specs.Summaries.{combined, combine_refused};
ghost use Rattle.core_operators.specs.Intersection.{new_intersection, seed_refusal, intersect_refusal};
ghost use Rattle.core_operators.specs.Intersection.{IsAnswerIfAny, IsIntersection, IsMet, content_of};
ghost use Rattle.core_operators.specs.Intersection.{IsIntersectError};
ghost use Rattle.core_state.specs.View.{shows, sequence};
ghost use Rattle.core_laws.specs.Folds.{Value};
ghost use Rattle.core_laws.specs.Maps.{below};
ghost use Rattle.tuple_sketches.specs.Streams.{Given, shared_by, fold_key, value_of, view_value, IsSampleOf};
ghost use Rattle.tuple_sketches.specs.Streams.{IsIntersectionOf};

use crate::compact_sketch::CompactTupleSketch;
use crate::operands::meet_view;
use crate::view::TupleSketchView;
use core_operators::IntersectionState;
use core_policies::{SummaryCombinePolicy, SummaryPolicy};
use core_slots::TupleEntry;
use sketch_base::{DEFAULT_UPDATE_SEED, Error};
use std::alloc::{Allocator, Global};

/// An intersection of tuple sketches, passed one by one.
///
/// It has no value before its first sketch. Its value has the keys that all its sketches share, below their least
/// theta; its policy combines the summaries of a key, in the order of the sketches. The value is empty once a sketch
/// is, or once sketches that have keys share none while theta is still the greatest. A refused update changes
/// nothing. The crate's documentation has an example.
#[derive(Drop)]
pub struct TupleIntersection<P: SummaryPolicy, A: Allocator = Global> {
    state: IntersectionState<TupleEntry<P::Summary>, P, A>,
}

impl<P: SummaryPolicy + Drop, A: Allocator + Drop> TupleIntersection<P, A> {
    /// A new intersection of sketches of the default seed, 9001, under this policy, without a value. It allocates
    /// nothing.
    ///
    /// Never refused: the seed hash of 9001 isn't 0.
    pub fn new(alloc: A, policy: P) -> Result<Self, Error>
        ensures made { IfOk result (λ i. i.state ≡ new_intersection (seed_hash DEFAULT_UPDATE_SEED) policy) }
        ensures given { (combines : P.Summary → P.Summary → Option P.Summary)
            → IfOk result (λ i. IsIntersectionOf combines i.state []) }
        ensures refused { Refuses result (seed_refusal DEFAULT_UPDATE_SEED) false }
    {
        TupleIntersection::with_seed(alloc, policy, DEFAULT_UPDATE_SEED)
    }

    /// A new intersection of sketches of this seed, under this policy, without a value. It allocates nothing.
    ///
    /// Refused with `InvalidArgument` for a seed whose seed hash is 0.
    pub fn with_seed(alloc: A, policy: P, seed: u64) -> Result<Self, Error>
        ensures made { IfOk result (λ i. i.state ≡ new_intersection (seed_hash seed) policy) }
        ensures given { (combines : P.Summary → P.Summary → Option P.Summary)
            → IfOk result (λ i. IsIntersectionOf combines i.state []) }
        ensures refused { Refuses result (seed_refusal seed) false }
    {
        let state = IntersectionState::new(alloc, seed, policy)?;
        Ok(TupleIntersection { state })
    }
}

impl<P: SummaryPolicy, A: Allocator> TupleIntersection<P, A> {
    /// Whether a sketch was passed to it, so that it has a value.
    pub fn has_result(&self) -> bool
        ensures { result ≡ is_some self.now.state.result }
    {
        self.state.has_result()
    }

    /// Bytes taken by its entries, without memory that summaries own elsewhere. There are none before its first
    /// sketch.
    pub fn estimated_size(&self) -> usize {
        self.state.estimated_size()
    }
}

impl<P: SummaryCombinePolicy + Drop, A: Allocator + Clone> TupleIntersection<P, A> {
    /// Intersects with a sketch. The first rule that applies is used: once empty, the intersection accepts every
    /// sketch unchecked and stays empty; an empty sketch makes it empty, and its seed is not checked; a sketch of
    /// another seed is refused; the first sketch is copied as it is; with any other sketch, it keeps only the keys
    /// that both have below the lesser theta, which becomes its theta, and the policy combines each retained summary
    /// with the incoming one. If both had keys, none is left and theta is the greatest, the value becomes empty.
    ///
    /// Refused with `InvalidArgument` for a sketch of another seed, with `OutOfMemory`, and with `Policy` if the
    /// policy refuses the summaries of a shared key below the lesser theta; then nothing has changed. Clones of
    /// summaries must equal their originals.
    pub fn update<B: Allocator>(
        &mut self,
        sketch: TupleSketchView<'_, P::Summary, B>,
    ) -> Result<(), Error>
    where
        P::Summary: Clone,
        requires clones_equal { ClonesEqual P.Summary.is_clone }
        ensures met { OnOk result (
            IsMet tuple_key (combined (P.combines self.old.state.policy))
            (combine_refused (P.combines self.old.state.policy)) self.old.state self.new.state
            (shows tuple_key sketch.entry) (sequence sketch.entry)) }
        ensures made_with { self.new.state ≡ record self.old.state { result = self.new.state.result } }
        ensures given { OnOk result ((givens : List (Given P.Summary)) (more : Given P.Summary) →
            IsIntersectionOf (P.combines self.old.state.policy) self.old.state givens
            → IsSampleOf (view_value sketch.entry) more →
            IsIntersectionOf (P.combines self.old.state.policy) self.new.state (givens ++ more ∷ [])) }
        ensures accepted { OnOk result (intersect_refusal self.old.state (shows tuple_key sketch.entry) ≡ None) }
        ensures refused { IfErr result (
            IsIntersectError tuple_key (combine_refused (P.combines self.old.state.policy)) self.old.state
            self.new.state (shows tuple_key sketch.entry) (sequence sketch.entry)) }
        ensures sound { IsIntersection self.old.state }
        ensures content { IsRetained tuple_key (content_of self.old.state.result) }
    {
        meet_view(&mut self.state, sketch)
    }

    /// Returns its value as a compact sketch, or `None` before its first sketch. The result is ordered if `ordered`
    /// is true, if it is empty, or if it has one entry at the greatest theta. The intersection doesn't change.
    /// Refused with `OutOfMemory` alone, and only if there is a value. Clones of summaries must equal their
    /// originals.
    pub fn to_sketch(
        &self,
        ordered: bool,
    ) -> Result<Option<CompactTupleSketch<P::Summary, A>>, Error>
    where
        P::Summary: Clone,
        requires clones_equal { ClonesEqual P.Summary.is_clone }
        ensures ok { IfOk result (IsAnswerIfAny tuple_key self.now.state.result self.now.state.seed_hash ordered) }
        ensures found { IfOk result (λ o. (givens : List (Given P.Summary)) →
            IsIntersectionOf (P.combines self.now.state.policy) self.now.state givens → givens ≢ [] → IsSome o) }
        ensures sample { IfOk result (λ o. IfSome o (λ s. (givens : List (Given P.Summary)) →
            IsIntersectionOf (P.combines self.now.state.policy) self.now.state givens →
            IsSampleOf (value_of s) (shared_by (P.combines self.now.state.policy) givens))) }
        ensures below { IfOk result (λ o. IfSome o (λ s. (givens : List (Given P.Summary)) →
            IsIntersectionOf (P.combines self.now.state.policy) self.now.state givens → ordered ≡ true →
            map Value s.entries ≡ below (fold_key tuple_key) (shared_by (P.combines self.now.state.policy) givens).whole s.theta)) }
        ensures refused { Refuses result None (is_some self.now.state.result) }
    {
        match self.state.to_compact_sketch_state(ordered)? {
            Some(state) => Ok(Some(CompactTupleSketch::of_state(state))),
            None => Ok(None),
        }
    }
}
