//! The family of theta sketches.
ghost use Rattle.std.specs.Prelude.{◌≡◌, ◌^◌, ◌++◌, ℕ, List, [], ◌∷◌, true, false, Some, None, IfOk, OnOk};
ghost use Rattle.sketch_base.specs.Seed.{seed_hash};
ghost use Rattle.core_compact.specs.CompactState.{IsAnswer, compact_value};
ghost use Rattle.core_laws.specs.Entries.{hash_key, first_hash};
ghost use Rattle.core_laws.specs.Operators.{meet_next, unite};
ghost use Rattle.core_laws.specs.Values.{Sketch};
ghost use Rattle.core_laws.specs.Refusal.{Refuses};
ghost use Rattle.core_laws.specs.Settings.{settings_refusal};
ghost use Rattle.core_laws.specs.declared.TheConstants.{MAX_THETA};
ghost use Rattle.core_operators.specs.Intersection.{seed_refusal};
ghost use Rattle.core_operators.specs.Union.{empty_union, union_value};
ghost use Rattle.expression_text.specs.declared.operator.Operator.TheVariants.{Union, Intersection, Difference};
ghost use Rattle.expression_evaluation.specs.Values.{hash_rules};
ghost use Rattle.expression_evaluation.specs.OpenUnions.{IsOpenedBy};
ghost use Rattle.expression_evaluation.specs.Contents.{contents_of};
ghost use Rattle.expression_evaluation.specs.Running.{is_accepted, BothHaveSeed, IsCombination};

use crate::family::SetFamily;
use crate::open_union::OpenUnion;
use crate::results::ThetaResult;
use core_slots::ThetaEntry;
use expression_text::Operator;
use sketch_base::Error;
use std::alloc::{AllocError, Allocator};
use theta_sketches::{
    CompactThetaSketch, ThetaANotB, ThetaIntersection, ThetaUnion, ThetaUnionBuilder,
};

/// Theta sketches: entries are hashes alone, and no merge is refused.
pub struct ThetaSets;

impl<A: Allocator + Clone + Drop, B: Allocator> SetFamily<A, B> for ThetaSets {
    type Entry = ThetaEntry;

    type Named = CompactThetaSketch<B>;

    type Sketch = ThetaResult<A>;

    ghost use Rattle.expression_evaluation.specs.Values.{hash_rules};
    ghost use Rattle.expression_evaluation.specs.Contents.{contents_of};

    ghost rules = { λ family. hash_rules };

    ghost named = { λ s. s };

    ghost listed = { λ s. contents_of s };

    fn is_accepted(&self, hash: u16, sketch: &CompactThetaSketch<B>) -> bool {
        sketch.is_empty() || hash == sketch.seed_hash()
    }

    fn to_ordered(
        &self,
        alloc: A,
        seed: u64,
        sketch: &CompactThetaSketch<B>,
    ) -> Result<ThetaResult<A>, Error> {
        let mut intersection = ThetaIntersection::with_seed(alloc, seed)?;
        meet_sketch(&mut intersection, sketch)?;
        let ordered = intersection_sketch(&intersection)?;
        Ok(ThetaResult::Made(ordered))
    }

    fn combine(
        &self,
        alloc: A,
        seed: u64,
        lg_k: u8,
        operator: Operator,
        first: ThetaResult<A>,
        second: ThetaResult<A>,
    ) -> Result<ThetaResult<A>, Error> {
        match operator {
            Operator::Union => union_of(alloc, seed, lg_k, first, second),
            Operator::Intersection => {
                let sketch = intersection_of(alloc, seed, first, second)?;
                Ok(ThetaResult::Made(sketch))
            }
            Operator::Difference => {
                let sketch = difference_of(alloc, seed, first, second)?;
                Ok(ThetaResult::Made(sketch))
            }
        }
    }

    ghost keeps = { λ family x y same. same };
}

/// Intersects with a sketch that is empty or of the intersection's seed.
fn meet_sketch<A: Allocator + Clone, B: Allocator>(
    intersection: &mut ThetaIntersection<A>,
    sketch: &CompactThetaSketch<B>,
) -> Result<(), Error>
    requires { is_accepted intersection.old.seed_hash sketch.now ≡ true }
    ensures met { OnOk result (
        intersection.new.result
        ≡ Some (meet_next hash_key first_hash intersection.old.result (compact_value hash_key sketch.now))) }
    ensures seed { OnOk result (intersection.new.seed_hash ≡ intersection.old.seed_hash) }
    ensures refused { Refuses result None true }
{
    intersection.update(sketch.as_view())?;
    Ok(())
}

/// The ordered sketch of an intersection that has a value.
fn intersection_sketch<A: Allocator + Clone>(
    intersection: &ThetaIntersection<A>,
) -> Result<CompactThetaSketch<A>, Error>
    ensures value { (v : Sketch ℕ)
        → intersection.now.result ≡ Some v
        → IfOk result (IsAnswer hash_key v intersection.now.seed_hash true) }
    ensures refused { Refuses result None true }
{
    match intersection.to_sketch(true)? {
        Some(sketch) => Ok(sketch),
        None => Err(Error::from(AllocError)),
    }
}

/// A new union of 2^`lg_k` nominal entries, of sketches of this seed.
fn new_union<A: Allocator + Drop>(alloc: A, seed: u64, lg_k: u8) -> Result<ThetaUnion<A>, Error>
    ensures made { IfOk result (λ u. u ≡ empty_union lg_k MAX_THETA (seed_hash seed) u.policy) }
    ensures refused { Refuses result (settings_refusal lg_k MAX_THETA seed) true }
{
    ThetaUnionBuilder::default()
        .lg_k(lg_k)
        .seed(seed)
        .build(alloc)
}

/// Merges a sketch of the union's seed into a union.
fn unite_sketch<A: Allocator + Clone, B: Allocator>(
    union: &mut ThetaUnion<A>,
    sketch: &CompactThetaSketch<B>,
) -> Result<(), Error>
    requires sound { union.old.failed ≡ false }
    requires seed { sketch.now.seed_hash ≡ union.old.seed_hash }
    ensures united { (values : List (Sketch ℕ))
        → union_value hash_key union.old ≡ unite hash_key first_hash (2 ^ union.old.lg_k) union.old.start values
        → OnOk result (
        union_value hash_key union.new
        ≡ unite hash_key first_hash (2 ^ union.old.lg_k) union.old.start (values ++ compact_value hash_key sketch.now ∷ [])) }
    ensures made { OnOk result (union.new ≡ record union.old { empty = union.new.empty; content = union.new.content }) }
    ensures refused { Refuses result None true }
{
    union.update(sketch.as_view())?;
    Ok(())
}

/// A union of 2^`lg_k` nominal entries to which a result of this seed was added: an open union of as many nominal
/// entries itself, which takes more.
fn opened<A: Allocator + Clone + Drop>(
    alloc: A,
    seed: u64,
    lg_k: u8,
    first: ThetaResult<A>,
) -> Result<ThetaUnion<A>, Error>
    requires settings { settings_refusal lg_k MAX_THETA seed ≡ None }
    requires seeded { (contents_of first).seed_hash ≡ seed_hash seed }
    ensures opened { IfOk result (λ u. IsOpenedBy lg_k (seed_hash seed) (compact_value hash_key (contents_of first)) u) }
    ensures refused { Refuses result None true }
{
    let sketch = match first {
        ThetaResult::Made(sketch) => sketch,
        ThetaResult::Open(open) => {
            if open.lg_k == lg_k {
                return Ok(open.union);
            }
            ThetaResult::Open(open).into_sketch()?
        }
    };
    let mut union = new_union(alloc, seed, lg_k)?;
    unite_sketch(&mut union, &sketch)?;
    Ok(union)
}

/// The union of two results of this seed, with 2^`lg_k` nominal entries. It stays open.
fn union_of<A: Allocator + Clone + Drop>(
    alloc: A,
    seed: u64,
    lg_k: u8,
    first: ThetaResult<A>,
    second: ThetaResult<A>,
) -> Result<ThetaResult<A>, Error>
    requires settings { settings_refusal lg_k MAX_THETA seed ≡ None }
    requires seeds { BothHaveSeed seed (contents_of first) (contents_of second) }
    ensures value { IfOk result (λ s.
        IsCombination hash_rules lg_k seed Union (contents_of first) (contents_of second) (contents_of s)) }
    ensures refused { Refuses result None true }
{
    let mut union = opened(alloc, seed, lg_k, first)?;
    let sketch = second.into_sketch()?;
    unite_sketch(&mut union, &sketch)?;
    Ok(ThetaResult::Open(OpenUnion { union, lg_k }))
}

/// The intersection of two results of this seed, ordered.
fn intersection_of<A: Allocator + Clone + Drop>(
    alloc: A,
    seed: u64,
    first: ThetaResult<A>,
    second: ThetaResult<A>,
) -> Result<CompactThetaSketch<A>, Error>
    requires seeded { seed_refusal seed ≡ None }
    requires seeds { BothHaveSeed seed (contents_of first) (contents_of second) }
    ensures value { IfOk result (λ s.
        IsCombination hash_rules 0 seed Intersection (contents_of first) (contents_of second) s) }
    ensures refused { Refuses result None true }
{
    let one = first.into_sketch()?;
    let two = second.into_sketch()?;
    let mut intersection = ThetaIntersection::with_seed(alloc, seed)?;
    meet_sketch(&mut intersection, &one)?;
    meet_sketch(&mut intersection, &two)?;
    intersection_sketch(&intersection)
}

/// The difference of two results of this seed, ordered.
fn difference_of<A: Allocator + Clone + Drop>(
    alloc: A,
    seed: u64,
    first: ThetaResult<A>,
    second: ThetaResult<A>,
) -> Result<CompactThetaSketch<A>, Error>
    requires seeded { seed_refusal seed ≡ None }
    requires seeds { BothHaveSeed seed (contents_of first) (contents_of second) }
    ensures value { IfOk result (λ s.
        IsCombination hash_rules 0 seed Difference (contents_of first) (contents_of second) s) }
    ensures refused { Refuses result None true }
{
    let one = first.into_sketch()?;
    let two = second.into_sketch()?;
    let difference = ThetaANotB::with_seed(seed)?;
    difference.compute(alloc, one.as_view(), two.as_view(), true)
}
