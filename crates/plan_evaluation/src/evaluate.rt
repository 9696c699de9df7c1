//! One evaluation for every family of sketches.
ghost use Rattle.std.specs.Prelude.{◌≡◌, ◌<◌, ◌^◌, ◌||◌, ◌⊎◌, ℕ, Bool, IsTrue, true, false, not, None, Some, IfOk};
ghost use Rattle.std.specs.Prelude.{IfErr, OnOk};
ghost use Rattle.sketch_base.specs.Seed.{seed_hash};
ghost use Rattle.core_compact.specs.CompactState.{IsAnswer};
ghost use Rattle.core_laws.specs.Settings.{settings_refusal};
ghost use Rattle.core_laws.specs.Folds.{Fold, unmarked};
ghost use Rattle.core_laws.specs.Leaf.{leaf, leaf_step, updated_step};
ghost use Rattle.core_laws.specs.Refusal.{Refuses};
ghost use Rattle.core_laws.specs.Values.{Sketch};
ghost use Rattle.plan_values.specs.Family.{folds_of};
ghost use Rattle.plan_values.specs.Refusals.{step_refused, steps_refused, must_refuse};
ghost use Rattle.plan_values.specs.Value.{plan_refusal};
ghost use Rattle.plan_evaluation.specs.Parts.{IsResultOf, HasValue, IsFoldAnswer, sketch_in_folds, value_or_empty};
ghost use Rattle.plan_evaluation.specs.Refused.{RefusedFor, IsPlanRefused};

use crate::evaluated::Evaluated;
use crate::family::SketchFamily;
use core_laws::{MAX_THETA, MIN_LG_K};
use plan_text::{Plan, Step, UnionPart};
use sketch_base::Error;
use std::alloc::Allocator;

/// Evaluates a node of a plan. A leaf's result is its sketch as it is. The result of any other node is a compact
/// sketch. It is ordered exactly if `ordered` is set, if the node orders it (an image that is written ordered or of
/// an ordered sketch, or a difference with an ordered first operand), if it is empty, or if it has one entry at the
/// greatest theta.
///
/// An operator is built first; then its parts are evaluated and passed to it one by one: a leaf's sketch as it is,
/// any other as a compact sketch, which needn't be ordered. A `Lower` among a union's parts lowers its nominal
/// entries at that place.
///
/// Refused with `OutOfMemory`. Refused with `InvalidArgument` if a setting is out of range: if the seed hash is 0, if
/// some node's `lg_k` isn't from 4 to 26 or its start isn't from 1 to `MAX_THETA`, or if a `Lower` isn't from 4 to
/// the least `lg_k` before it in its union. Refused with `Policy` only if a policy refuses some leaf's step, or the
/// entries that the first parts of some union or intersection have at a key. The first in the order of work counts:
/// `InvalidArgument` is returned only if no policy refuses a leaf's step before the first setting out of range, and
/// `Policy` only for a refusal before it.
pub fn evaluate<F: SketchFamily<A>, A: Allocator + Clone, B: Allocator>(
    family: &F,
    alloc: &A,
    plan: &Plan<F::Value, B>,
    seed: u64,
    ordered: bool,
) -> Result<Evaluated<F::Sketch, F::Compact>, Error>
    ensures value { let f = folds_of (F.rules family.now) (F.refuses family.now) in
        IfOk result (IsResultOf (F.rules family.now).key F.state F.listed f (seed_hash seed) plan.now ordered) }
    ensures seeded { OnOk result (0 < seed_hash seed) }
    ensures accepted { OnOk result (plan_refusal seed plan.now ≡ None) }
    ensures unrefused { OnOk result
        (must_refuse (folds_of (F.rules family.now) (F.refuses family.now)) seed plan.now ≡ false) }
    ensures refused { IfErr result
        (IsPlanRefused (folds_of (F.rules family.now) (F.refuses family.now)) F.strict seed plan.now) }
{
    match plan {
        Plan::Leaf { lg_k, start, steps } => {
            let sketch = sketch_after(family, alloc, *lg_k, *start, steps.as_slice(), seed)?;
            Ok(Evaluated::Mutable(sketch))
        }
        Plan::Union { lg_k, start, parts } => {
            let mut union = family.new_union(alloc.clone()?, *lg_k, *start, seed)?;
            'parts: for part in parts.as_slice() {
                match part {
                    UnionPart::Of(united) => {
                        let sketch = evaluate(family, alloc, united, seed, false)?;
                        family.join(&mut union, &sketch)?;
                    }
                    UnionPart::Lower(fewer) => family.lower(&mut union, *fewer)?,
                }
            }
            let answer = family.union_value(&union, ordered)?;
            Ok(Evaluated::Compact(answer))
        }
        Plan::Meet { parts } => {
            let mut intersection = family.new_intersection(alloc.clone()?, seed)?;
            'met: for part in parts.as_slice() {
                let sketch = evaluate(family, alloc, part, seed, false)?;
                family.meet(&mut intersection, &sketch)?;
            }
            let answer = shared(family, alloc, &intersection, seed, ordered)?;
            Ok(Evaluated::Compact(answer))
        }
        Plan::Minus(first, second) => {
            let difference = family.new_difference(seed)?;
            let one = first.get();
            let two = second.get();
            let a = evaluate(family, alloc, one, seed, false)?;
            let b = evaluate(family, alloc, two, seed, false)?;
            let answer = family.a_not_b(&difference, alloc.clone()?, &a, &b, ordered)?;
            Ok(Evaluated::Compact(answer))
        }
        Plan::Via { ordered: own, part } => {
            let asked = *own || ordered;
            let a = evaluate(family, alloc, part.get(), seed, asked)?;
            let sketch = into_compact(family, a, asked)?;
            let answer = family.through_image(alloc.clone()?, sketch, seed)?;
            Ok(Evaluated::Compact(answer))
        }
    }
}

/// The result of a node as a compact sketch; a leaf's is ordered if `ordered` is set. Refused with `OutOfMemory`
/// alone.
pub fn into_compact<F: SketchFamily<A>, A: Allocator>(
    family: &F,
    evaluated: Evaluated<F::Sketch, F::Compact>,
    ordered: bool,
) -> Result<F::Compact, Error>
    ensures ok { (leaf : Bool) (v : Sketch (Fold F.Entry)) (seed_hash : ℕ) (own : Bool)
        → HasValue (F.rules family.now).key F.state F.listed evaluated leaf v seed_hash ordered own
        → IfOk result (λ c. IsFoldAnswer (F.rules family.now).key v seed_hash (ordered || own) (F.listed c)) }
    ensures refused { Refuses result None true }
{
    match evaluated {
        Evaluated::Mutable(sketch) => family.compact(&sketch, ordered),
        Evaluated::Compact(sketch) => Ok(sketch),
    }
}

/// The value of an intersection of this seed; Empty before its first part. Refused with `OutOfMemory` alone.
fn shared<F: SketchFamily<A>, A: Allocator + Clone>(
    family: &F,
    alloc: &A,
    intersection: &F::Intersection,
    seed: u64,
    ordered: bool,
) -> Result<F::Compact, Error>
    requires same_seed { (F.met intersection.now).seed_hash ≡ seed_hash seed }
    requires seeded { 0 < seed_hash seed }
    ensures value { IfOk result (λ c.
        IsAnswer (F.rules family.now).key (value_or_empty (F.met intersection.now).result) (seed_hash seed) ordered (F.listed c)) }
    ensures refused { Refuses result None true }
{
    match family.shared(intersection, ordered)? {
        Some(sketch) => Ok(sketch),
        None => {
            let sketch = family.new_sketch(alloc.clone()?, MIN_LG_K, MAX_THETA, seed)?;
            family.compact(&sketch, ordered)
        }
    }
}

/// A new sketch after steps.
fn sketch_after<F: SketchFamily<A>, A: Allocator + Clone>(
    family: &F,
    alloc: &A,
    lg_k: u8,
    start: u64,
    steps: &[Step<F::Value>],
    seed: u64,
) -> Result<F::Sketch, Error>
    ensures value { let f = folds_of (F.rules family.now) (F.refuses family.now) in
        IfOk result (λ s. sketch_in_folds (F.state s) ≡ leaf f.key f.step_of (2 ^ lg_k) start steps.now) }
    ensures seed { IfOk result (λ s. (F.state s).map.seed_hash ≡ seed_hash seed) }
    ensures accepted { OnOk result (settings_refusal lg_k start seed ≡ None) }
    ensures unrefused { OnOk result
        (steps_refused (folds_of (F.rules family.now) (F.refuses family.now)) (2 ^ lg_k) start steps.now ≡ false) }
    ensures refused { let f = folds_of (F.rules family.now) (F.refuses family.now) in
        let own = settings_refusal lg_k start seed in
        IfErr result (λ e.
        (own ≡ Some e)
        ⊎ RefusedFor e F.strict ((own ≡ None) × IsTrue (steps_refused f (2 ^ lg_k) start steps.now))) }
{
    let mut sketch = family.new_sketch(alloc.clone()?, lg_k, start, seed)?;
    for step in steps {
        apply(family, &mut sketch, step)?;
    }
    Ok(sketch)
}

/// Applies a step to a sketch.
fn apply<F: SketchFamily<A>, A: Allocator>(
    family: &F,
    sketch: &mut F::Sketch,
    step: &Step<F::Value>,
) -> Result<(), Error>
    requires own { F.made_sketch family.now sketch.old }
    ensures still { F.made_sketch family.now sketch.new }
    ensures map { OnOk result (
        let f = folds_of (F.rules family.now) (F.refuses family.now) in
        let old = (F.state sketch.old).map in
        unmarked (F.state sketch.new).map.kept
        ≡ leaf_step f.key f.step_of (2 ^ old.lg_nom) old.start step.now (unmarked old.kept)) }
    ensures made_with { OnOk result
        ((F.state sketch.new).map ≡ record (F.state sketch.old).map { kept = (F.state sketch.new).map.kept }) }
    ensures empty { OnOk result
        ((F.state sketch.new).empty ≡ not (updated_step step.now (not (F.state sketch.old).empty))) }
    ensures unrefused { let f = folds_of (F.rules family.now) (F.refuses family.now) in
        OnOk result (step_refused f step.now (unmarked (F.state sketch.old).map.kept) ≡ false) }
    ensures refused { let f = folds_of (F.rules family.now) (F.refuses family.now) in
        IfErr result (λ e.
        RefusedFor e F.strict (IsTrue (step_refused f step.now (unmarked (F.state sketch.old).map.kept)))) }
{
    match step {
        Step::Add(hash, value) => family.add(sketch, *hash, *value),
        Step::Trim => family.trim(sketch),
        Step::Reset => {
            family.reset(sketch);
            Ok(())
        }
    }
}
