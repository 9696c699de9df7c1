//! Intersections of theta sketches.
ghost use Rattle.std.specs.Prelude.{◌≡◌, ◌≢◌, ◌∷◌, ◌++◌, ℕ, List, [], Some, None, true, false, is_some, IsSome};
ghost use Rattle.std.specs.Prelude.{IfSome, IfOk, IfErr, OnOk};
ghost use Rattle.sketch_base.specs.Seed.{seed_hash};
ghost use Rattle.sketch_base.specs.declared.seed.TheConstants.{DEFAULT_UPDATE_SEED};
ghost use Rattle.core_laws.specs.Entries.{hash_key, first_hash};
ghost use Rattle.core_operators.specs.Intersection.{Intersection, new_intersection, seed_refusal};
ghost use Rattle.core_operators.specs.Intersection.{intersect_refusal, IsAnswerIfAny, IsIntersection, content_of};
ghost use Rattle.core_operators.specs.Intersection.{IsHashIntersectError};
ghost use Rattle.core_laws.specs.Operators.{meet_next};
ghost use Rattle.core_laws.specs.Cuts.{IsRetained};
ghost use Rattle.core_laws.specs.Refusal.{Refuses};
ghost use Rattle.core_laws.specs.Shown.{shown_value};
ghost use Rattle.theta_sketches.specs.View.{view_shows, view_sequence};
ghost use Rattle.theta_sketches.specs.Streams.{shared_by, set_below, value_of, view_value, IsSampleOf};
ghost use Rattle.theta_sketches.specs.Streams.{IsIntersectionOf};

use crate::compact_sketch::CompactThetaSketch;
use crate::view::ThetaSketchView;
use core_operators::IntersectionState;
use core_policies::IntersectionMergePolicy;
use core_slots::ThetaEntry;
use sketch_base::{DEFAULT_UPDATE_SEED, Error};
use std::alloc::{Allocator, Global};
use std::marker::Model;

/// An intersection's policy that changes nothing: entries are hashes alone, so the retained one stays.
#[derive(Debug, Clone, Copy)]
struct NoopIntersectionPolicy;

impl IntersectionMergePolicy<ThetaEntry> for NoopIntersectionPolicy {
    ghost merges = { λ _ entry incoming. first_hash entry incoming };

    ghost refuses = { λ _ _ _. false };

    fn merge(&self, _entry: &mut ThetaEntry, _incoming: &ThetaEntry) -> Result<(), Error> {
        Ok(())
    }

    ghost keeps_hash = { λ p x y same. same };
}

/// An intersection of theta sketches, passed one by one. The crate's documentation has an example.
///
/// It has no value before its first sketch. Its value has the hashes that all its sketches share, below their least
/// theta. The value is empty once a sketch is, or once sketches that have hashes share none while theta is still the
/// greatest. A refused update changes nothing.
#[derive(Drop)]
pub struct ThetaIntersection<A: Allocator = Global> {
    state: IntersectionState<ThetaEntry, NoopIntersectionPolicy, A>,
}

impl<A: Allocator> Model for ThetaIntersection<A> {
    ghost use Rattle.std.specs.Prelude.{ℕ};
    ghost use Rattle.core_operators.specs.Intersection.{Intersection};
    ghost use Rattle.theta_sketches.specs.declared.intersection.NoopIntersectionPolicy.{NoopIntersectionPolicy};

    ghost Value = { Intersection ℕ NoopIntersectionPolicy };

    ghost view = { λ i. i.state };
}

impl<A: Allocator + Drop> ThetaIntersection<A> {
    /// A new intersection of sketches of the default seed, 9001, without a value. It allocates nothing.
    ///
    /// Never refused: the seed hash of 9001 isn't 0.
    pub fn default(alloc: A) -> Result<Self, Error>
        ensures made { IfOk result (λ i. i ≡ new_intersection (seed_hash DEFAULT_UPDATE_SEED) (record {})) }
        ensures given { IfOk result (λ i. IsIntersectionOf i []) }
        ensures refused { Refuses result (seed_refusal DEFAULT_UPDATE_SEED) false }
    {
        ThetaIntersection::with_seed(alloc, DEFAULT_UPDATE_SEED)
    }

    /// A new intersection of sketches of this seed, without a value. It allocates nothing.
    ///
    /// Refused with `InvalidArgument` for a seed whose seed hash is 0.
    pub fn with_seed(alloc: A, seed: u64) -> Result<Self, Error>
        ensures made { IfOk result (λ i. i ≡ new_intersection (seed_hash seed) (record {})) }
        ensures given { IfOk result (λ i. IsIntersectionOf i []) }
        ensures refused { Refuses result (seed_refusal seed) false }
    {
        let state = IntersectionState::new(alloc, seed, NoopIntersectionPolicy)?;
        Ok(ThetaIntersection { state })
    }
}

impl<A: Allocator> ThetaIntersection<A> {
    /// Whether a sketch was passed to it, so that it has a value.
    pub fn has_result(&self) -> bool
        ensures { result ≡ is_some self.now.result }
    {
        self.state.has_result()
    }

    /// Bytes taken by its entries: eight per hash, and none before its first sketch.
    pub fn estimated_size(&self) -> usize {
        self.state.estimated_size()
    }
}

impl<A: Allocator + Clone> ThetaIntersection<A> {
    /// Intersects with a sketch. The first rule that applies is used: once empty, the intersection accepts every
    /// sketch unchecked and stays empty; an empty sketch makes it empty, and its seed is not checked; a sketch of
    /// another seed is refused; the first sketch is copied as it is; with any other sketch, it keeps only the hashes
    /// that both have below the lesser theta. If both had hashes, none is left and theta is the greatest, the value
    /// becomes empty.
    ///
    /// Refused with `InvalidArgument` for a sketch of another seed, and with `OutOfMemory`; then nothing has changed.
    pub fn update<B: Allocator>(&mut self, sketch: ThetaSketchView<'_, B>) -> Result<(), Error>
        ensures met { OnOk result (
            self.new.result
            ≡ Some (
            meet_next hash_key first_hash self.old.result (
            shown_value hash_key (view_shows sketch.entry) (view_sequence sketch.entry)))) }
        ensures made_with { self.new ≡ record self.old { result = self.new.result } }
        ensures given { OnOk result ((streams : List (List ℕ)) (more : List ℕ) → IsIntersectionOf self.old streams →
            IsSampleOf (view_value sketch.entry) more → IsIntersectionOf self.new (streams ++ more ∷ [])) }
        ensures accepted { OnOk result (intersect_refusal self.old (view_shows sketch.entry) ≡ None) }
        ensures refused { IfErr result (IsHashIntersectError self.old self.new (view_shows sketch.entry)) }
        ensures sound { IsIntersection self.old }
        ensures content { IsRetained hash_key (content_of self.old.result) }
    {
        self.state.update(sketch)?;
        Ok(())
    }

    /// Returns its value as a compact sketch, or `None` before its first sketch. The result is ordered if `ordered`
    /// is true, if it is empty, or if it has one hash at the greatest theta. The intersection doesn't change. Refused
    /// with `OutOfMemory` alone, and only if there is a value.
    pub fn to_sketch(&self, ordered: bool) -> Result<Option<CompactThetaSketch<A>>, Error>
        ensures ok { IfOk result (IsAnswerIfAny hash_key self.now.result self.now.seed_hash ordered) }
        ensures found { IfOk result (λ o.
            (streams : List (List ℕ)) → IsIntersectionOf self.now streams → streams ≢ [] → IsSome o) }
        ensures sample { IfOk result
            (λ o. IfSome o (λ s. (streams : List (List ℕ)) → IsIntersectionOf self.now streams →
            IsSampleOf (value_of s) (shared_by streams))) }
        ensures below { IfOk result (λ o. IfSome o (λ s. (streams : List (List ℕ)) → IsIntersectionOf self.now streams →
            ordered ≡ true → s.entries ≡ set_below s.theta (shared_by streams))) }
        ensures refused { Refuses result None (is_some self.now.result) }
    {
        match self.state.to_compact_sketch_state(ordered)? {
            Some(state) => Ok(Some(CompactThetaSketch::of_state(state))),
            None => Ok(None),
        }
    }
}
