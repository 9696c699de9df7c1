//! The family of sketches of sums.
ghost use Rattle.std.specs.Prelude.{◌≡◌, ◌^◌, ◌++◌, ℕ, List, [], ◌∷◌, true, false, Some, None, IfOk, IfErr, OnOk};
ghost use Rattle.sketch_base.specs.Seed.{seed_hash};
ghost use Rattle.core_compact.specs.CompactState.{IsAnswer, compact_value};
ghost use Rattle.core_laws.specs.Operators.{meet_next, unite};
ghost use Rattle.core_laws.specs.Values.{Sketch};
ghost use Rattle.core_laws.specs.Refusal.{Refuses};
ghost use Rattle.core_laws.specs.Settings.{settings_refusal};
ghost use Rattle.core_laws.specs.declared.TheConstants.{MAX_THETA};
ghost use Rattle.core_operators.specs.Intersection.{seed_refusal};
ghost use Rattle.core_operators.specs.Union.{empty_union, union_value};
ghost use Rattle.core_slots.specs.Entry.{tuple_key};
ghost use Rattle.core_slots.specs.declared.entry.TupleEntry.{TupleEntry};
ghost use Rattle.tuple_sketches.specs.declared.numbers.SummaryMode.{SummaryMode};
ghost use Rattle.expression_text.specs.declared.operator.Operator.TheVariants.{Union, Intersection, Difference};
ghost use Rattle.expression_evaluation.specs.Sums.{IsRefusedMeet, IsRefusedJoin, HasPartOf};
ghost use Rattle.expression_evaluation.specs.Values.{sum_merged, sum_rules};
ghost use Rattle.expression_evaluation.specs.Running.{is_accepted, BothHaveSeed, AreRefused, IsCombination};
ghost use Rattle.expression_evaluation.specs.Running.{IsMergeError};

use crate::family::SetFamily;
use core_slots::TupleEntry;
use expression_text::Operator;
use sketch_base::Error;
use std::alloc::{AllocError, Allocator};
use tuple_sketches::{
    CompactTupleSketch, NumberPolicy, SummaryMode, TupleANotB, TupleIntersection, TupleUnion,
    TupleUnionBuilder,
};

/// Sketches of sums of 64 bits: the sums of one key are merged by a mode. Those that are added are refused from 2^64
/// on.
#[derive(Drop)]
pub struct SumSets {
    pub mode: SummaryMode,
}

impl<A: Allocator + Clone + Drop, B: Allocator> SetFamily<A, B> for SumSets {
    type Entry = TupleEntry<u64>;

    type Named = CompactTupleSketch<u64, B>;

    type Sketch = CompactTupleSketch<u64, A>;

    ghost use Rattle.expression_evaluation.specs.Values.{sum_rules};

    ghost rules = { λ family. sum_rules family.mode };

    ghost named = { λ s. s };

    ghost listed = { λ s. s };

    fn is_accepted(&self, hash: u16, sketch: &CompactTupleSketch<u64, B>) -> bool {
        sketch.is_empty() || hash == sketch.seed_hash()
    }

    fn to_ordered(
        &self,
        alloc: A,
        seed: u64,
        sketch: &CompactTupleSketch<u64, B>,
    ) -> Result<CompactTupleSketch<u64, A>, Error> {
        let mut intersection = new_meet(alloc, self.mode, seed)?;
        meet_sketch(&mut intersection, sketch)?;
        intersection_sketch(&intersection)
    }

    fn combine(
        &self,
        alloc: A,
        seed: u64,
        lg_k: u8,
        operator: Operator,
        first: CompactTupleSketch<u64, A>,
        second: CompactTupleSketch<u64, A>,
    ) -> Result<CompactTupleSketch<u64, A>, Error> {
        match operator {
            Operator::Union => union_of(alloc, self.mode, seed, lg_k, first, second),
            Operator::Intersection => intersection_of(alloc, self.mode, seed, first, second),
            Operator::Difference => difference_of(alloc, seed, first, second),
        }
    }

    ghost keeps = { λ family x y same. same };
}

/// Intersects with a sketch that is empty or of the intersection's seed.
fn meet_sketch<A: Allocator + Clone, B: Allocator>(
    intersection: &mut TupleIntersection<NumberPolicy, A>,
    sketch: &CompactTupleSketch<u64, B>,
) -> Result<(), Error>
    requires { is_accepted intersection.old.state.seed_hash sketch.now ≡ true }
    ensures met { OnOk result (
        intersection.new.state.result
        ≡ Some (meet_next tuple_key (sum_merged intersection.old.state.policy.mode) intersection.old.state.result
        (compact_value tuple_key sketch.now))) }
    ensures mode { OnOk result (intersection.new.state.policy.mode ≡ intersection.old.state.policy.mode) }
    ensures seed { OnOk result (intersection.new.state.seed_hash ≡ intersection.old.state.seed_hash) }
    ensures refused { IfErr result (IsMergeError (
        IsRefusedMeet intersection.old.state.policy.mode intersection.old.state.result
        (compact_value tuple_key sketch.now))) }
{
    intersection.update(sketch.as_view())?;
    Ok(())
}

/// The ordered sketch of an intersection that has a value.
fn intersection_sketch<A: Allocator + Clone>(
    intersection: &TupleIntersection<NumberPolicy, A>,
) -> Result<CompactTupleSketch<u64, A>, Error>
    ensures value { (v : Sketch (TupleEntry ℕ))
        → intersection.now.state.result ≡ Some v
        → IfOk result (IsAnswer tuple_key v intersection.now.state.seed_hash true) }
    ensures refused { Refuses result None true }
{
    match intersection.to_sketch(true)? {
        Some(sketch) => Ok(sketch),
        None => Err(Error::from(AllocError)),
    }
}

/// A new intersection of this mode, of sketches of this seed.
fn new_meet<A: Allocator + Drop>(
    alloc: A,
    mode: SummaryMode,
    seed: u64,
) -> Result<TupleIntersection<NumberPolicy, A>, Error>
    requires { seed_refusal seed ≡ None }
    ensures value { IfOk result (λ i. i.state.result ≡ None) }
    ensures mode { IfOk result (λ i. i.state.policy.mode ≡ mode) }
    ensures seed { IfOk result (λ i. i.state.seed_hash ≡ seed_hash seed) }
    ensures refused { Refuses result None false }
{
    let policy = NumberPolicy::new(mode);
    TupleIntersection::with_seed(alloc, policy, seed)
}

/// A new union of this mode and of 2^`lg_k` nominal entries, of sketches of this seed.
fn new_union<A: Allocator + Drop>(
    alloc: A,
    mode: SummaryMode,
    seed: u64,
    lg_k: u8,
) -> Result<TupleUnion<NumberPolicy, A>, Error>
    ensures made { IfOk result (λ u. u.state ≡ empty_union lg_k MAX_THETA (seed_hash seed) u.state.policy) }
    ensures mode { IfOk result (λ u. u.state.policy.mode ≡ mode) }
    ensures refused { Refuses result (settings_refusal lg_k MAX_THETA seed) true }
{
    let policy = NumberPolicy::new(mode);
    TupleUnionBuilder::new(policy)
        .lg_k(lg_k)
        .seed(seed)
        .build(alloc)
}

/// Merges a sketch of the union's seed into a union.
fn unite_sketch<A: Allocator + Clone, B: Allocator>(
    union: &mut TupleUnion<NumberPolicy, A>,
    sketch: &CompactTupleSketch<u64, B>,
) -> Result<(), Error>
    requires sound { union.old.state.failed ≡ false }
    requires seed { sketch.now.seed_hash ≡ union.old.state.seed_hash }
    ensures united { (values : List (Sketch (TupleEntry ℕ)))
        → union_value tuple_key union.old.state
        ≡ unite tuple_key (sum_merged union.old.state.policy.mode) (2 ^ union.old.state.lg_k) union.old.state.start values
        → OnOk result (
        union_value tuple_key union.new.state
        ≡ unite tuple_key (sum_merged union.old.state.policy.mode) (2 ^ union.old.state.lg_k) union.old.state.start
        (values ++ compact_value tuple_key sketch.now ∷ [])) }
    ensures part { union.old.state.content.entries ≡ []
        → OnOk result (HasPartOf union.new.state (compact_value tuple_key sketch.now)) }
    ensures made { OnOk result (
        union.new.state
        ≡ record union.old.state { empty = union.new.state.empty; content = union.new.state.content }) }
    ensures refused { IfErr result (IsMergeError (
        IsRefusedJoin union.old.state.policy.mode union.old.state (compact_value tuple_key sketch.now))) }
{
    let shown = sketch.as_view();
    union.update(shown)?;
    Ok(())
}

/// The ordered sketch of a union that has not failed.
fn union_sketch<A: Allocator + Clone>(
    union: &TupleUnion<NumberPolicy, A>,
) -> Result<CompactTupleSketch<u64, A>, Error>
    requires { union.now.state.failed ≡ false }
    ensures value { IfOk result (
        IsAnswer tuple_key (union_value tuple_key union.now.state) union.now.state.seed_hash true) }
    ensures refused { Refuses result None true }
{
    union.to_sketch(true)
}

/// The union of two sketches of this seed, of this mode and with 2^`lg_k` nominal entries, ordered.
fn union_of<A: Allocator + Clone + Drop>(
    alloc: A,
    mode: SummaryMode,
    seed: u64,
    lg_k: u8,
    first: CompactTupleSketch<u64, A>,
    second: CompactTupleSketch<u64, A>,
) -> Result<CompactTupleSketch<u64, A>, Error>
    requires settings { settings_refusal lg_k MAX_THETA seed ≡ None }
    requires seeds { BothHaveSeed seed first second }
    ensures value { IfOk result (IsCombination (sum_rules mode) lg_k seed Union first second) }
    ensures refused { IfErr result (IsMergeError (
        AreRefused (sum_rules mode) (compact_value tuple_key first) (compact_value tuple_key second))) }
{
    let mut union = new_union(alloc, mode, seed, lg_k)?;
    unite_sketch(&mut union, &first)?;
    unite_sketch(&mut union, &second)?;
    let sketch = union_sketch(&union)?;
    Ok(sketch)
}

/// The intersection of two sketches of this seed, of this mode, ordered.
fn intersection_of<A: Allocator + Clone + Drop>(
    alloc: A,
    mode: SummaryMode,
    seed: u64,
    first: CompactTupleSketch<u64, A>,
    second: CompactTupleSketch<u64, A>,
) -> Result<CompactTupleSketch<u64, A>, Error>
    requires seeded { seed_refusal seed ≡ None }
    requires seeds { BothHaveSeed seed first second }
    ensures value { IfOk result (IsCombination (sum_rules mode) 0 seed Intersection first second) }
    ensures refused { IfErr result (IsMergeError (
        AreRefused (sum_rules mode) (compact_value tuple_key first) (compact_value tuple_key second))) }
{
    let mut intersection = new_meet(alloc, mode, seed)?;
    meet_sketch(&mut intersection, &first)?;
    meet_sketch(&mut intersection, &second)?;
    let sketch = intersection_sketch(&intersection)?;
    Ok(sketch)
}

/// The difference of two sketches of this seed, ordered.
fn difference_of<A: Allocator + Clone + Drop>(
    alloc: A,
    seed: u64,
    first: CompactTupleSketch<u64, A>,
    second: CompactTupleSketch<u64, A>,
) -> Result<CompactTupleSketch<u64, A>, Error>
    requires seeded { seed_refusal seed ≡ None }
    requires seeds { BothHaveSeed seed first second }
    ensures value { (mode : SummaryMode) → IfOk result (IsCombination (sum_rules mode) 0 seed Difference first second) }
    ensures refused { Refuses result None true }
{
    let difference = TupleANotB::with_seed(seed)?;
    difference.compute(alloc, first.as_view(), second.as_view(), true)
}
