//! The one sketch that a plan is evaluated to, in each family.
ghost use Rattle.std.specs.Prelude.{◌≡◌, ◌⊎◌, ℕ, map, true, false, Some, None, IfOk, IfErr, OnOk};
ghost use Rattle.sketch_base.specs.Seed.{seed_hash};
ghost use Rattle.core_laws.specs.Entries.{ClonesEqual};
ghost use Rattle.core_laws.specs.Maps.{entry_at};
ghost use Rattle.core_slots.specs.Entry.{tuple_key};
ghost use Rattle.core_slots.specs.declared.entry.TupleEntry.{TupleEntry};
ghost use Rattle.plan_values.specs.AddedValues.{added_values, total};
ghost use Rattle.plan_values.specs.Family.{folds_of, tuple_folds};
ghost use Rattle.plan_values.specs.MergePlan.{only_unites};
ghost use Rattle.plan_values.specs.Refusals.{must_refuse};
ghost use Rattle.plan_values.specs.Value.{value_in, plan_refusal};
ghost use Rattle.plan_evaluation.specs.Answered.{IsOrderedSketchOf};
ghost use Rattle.plan_evaluation.specs.Answers.{IsPlanAnswer, IsThetaPlanAnswer};
ghost use Rattle.plan_evaluation.specs.Refused.{IsPlanRefused};

use crate::evaluate::{evaluate, into_compact};
use crate::family::SketchFamily;
use crate::theta::ThetaFamily;
use crate::tuple::TupleFamily;
use plan_text::Plan;
use sketch_base::Error;
use std::alloc::Allocator;
use theta_sketches::CompactThetaSketch;
use tuple_sketches::{
    CheckedSum, CompactTupleSketch, DefaultUnionPolicy, DefaultUpdatePolicy, SummaryCombinePolicy,
    SummaryUpdatePolicy, TupleSummaryValue,
};

/// The sketch of a plan under a seed, ordered. Its value is the plan's: it retains all of the whole streams' map
/// below its theta, and if it is empty that map has no keys.
///
/// If the plan merges leaves of one start, the value is the k-minimum (the k least, and as theta the next one) of the
/// hashes from 1 on that were added after the leaves' last resets, whatever the order and grouping, and whether or
/// not parts go through images; k is the root's nominal entries, the least that it is lowered to. The premises: the
/// root is a union, perhaps through images; every leaf and every other union has at least the root's nominal entries,
/// counting for a union the least that it is lowered to; no union starts below the leaves; and some leaf is updated
/// after its last reset. If the plan is a leaf that isn't empty and whose last step is a trim, the value is the
/// k-minimum of the hashes that were added to it.
///
/// Refused with `InvalidArgument` if the seed hash is 0, if some node's `lg_k` is outside 4 to 26 or its start
/// outside 1 to `MAX_THETA`, or if a union is lowered to an `lg_k` outside 4 to its least so far; and with
/// `OutOfMemory`.
pub fn evaluate_theta<A: Allocator + Clone, B: Allocator>(
    alloc: A,
    plan: &Plan<(), B>,
    seed: u64,
) -> Result<CompactThetaSketch<A>, Error>
    ensures plan { IsThetaPlanAnswer seed plan.now result }
{
    ordered_sketch(&ThetaFamily, &alloc, plan, seed)
}

/// The sketch of a plan of tuples under a seed and two policies, ordered. In leaves, `update_policy` makes and
/// updates summaries. In unions and intersections, `combine_policy` combines those of a key that parts share, in the
/// order of the parts. Its value is the plan's, in folds without a mark: it retains all of the whole streams' map
/// below its theta, and if it is empty that map has no keys.
///
/// If the plan merges leaves under the premises of `evaluate_theta`, its keys and theta are the k-minimum of the
/// hashes that were added, whatever the policies and whatever the thetas of leaves and inner unions, and each key has
/// its fold over the whole streams. If the plan is a leaf that isn't empty and whose last step is a trim, they are
/// the k-minimum of those that were added to it.
///
/// Refused with `OutOfMemory`, also if a summary can't be written to an image. Refused with `InvalidArgument` if a
/// setting is out of range: if the seed hash is 0, if some node's `lg_k` is outside 4 to 26 or its start outside 1 to
/// `MAX_THETA`, or if a union is lowered to an `lg_k` outside 4 to its least so far. Refused with `Policy` only if
/// `update_policy` refuses some leaf's step, or the policies refuse, at some key, what the first parts of some union
/// or intersection have there.
///
/// The first in the order of work counts. `InvalidArgument` is returned only if `update_policy` refuses no step of a
/// leaf before the first setting out of range, and `Policy` only for a refusal before it. If `update_policy` refuses
/// a leaf's step before it, the call is refused with `Policy` or `OutOfMemory`. Clones of summaries must equal their
/// originals.
pub fn evaluate_tuple<
    S: Clone + TupleSummaryValue<A>,
    U: Copy + Drop,
    P: SummaryUpdatePolicy<U, Summary = S> + Copy + Drop,
    Q: SummaryCombinePolicy<Summary = S> + Copy + Drop,
    A: Allocator + Clone,
    B: Allocator,
>(
    alloc: A,
    plan: &Plan<U, B>,
    seed: u64,
    update_policy: P,
    combine_policy: Q,
) -> Result<CompactTupleSketch<S, A>, Error>
    requires clones_equal { ClonesEqual S.is_clone }
    ensures plan { IsPlanAnswer
        (tuple_folds (P.creates update_policy) (P.updates update_policy) (Q.combines combine_policy))
        seed plan.now result }
{
    let family = TupleFamily::new(update_policy, combine_policy);
    ordered_sketch(&family, &alloc, plan, seed)
}

/// The sketch of a plan of tuples whose summaries are sums: a leaf adds each value of a key to its summary, from 0
/// on, and operators add the summaries of a key that their parts share.
///
/// If the plan has only leaves, unions and images, each summary is the whole-number sum of all values that were added
/// at its key after the leaves' last resets, in any order and grouping. The rest is as for `evaluate_tuple`: if the
/// plan merges leaves, or is a leaf that ends by a trim, the keys and theta are the k-minimum of the hashes that were
/// added.
///
/// Refused as `evaluate_tuple` is: with `Policy` only if a sum is out of the bounds of its type in some leaf, at a
/// hash that the leaf then retains, or over the first parts of some union or intersection; and with `InvalidArgument`
/// only if no leaf before the first setting out of range has such a sum. Clones of summaries must equal their
/// originals.
pub fn evaluate_sums<
    S: CheckedSum + TupleSummaryValue<A> + Drop,
    A: Allocator + Clone,
    B: Allocator,
>(alloc: A, plan: &Plan<S, B>, seed: u64) -> Result<CompactTupleSketch<S, A>, Error>
    requires clones_equal { ClonesEqual S.is_clone }
    ensures plan { IsPlanAnswer (tuple_folds (Some S.ZERO) S.sums S.sums) seed plan.now result }
    ensures sums { only_unites plan.now ≡ true
        → IfOk result (λ s.
        (h : ℕ) (e : TupleEntry S)
        → entry_at tuple_key s.entries h ≡ Some e
        → S.whole e.summary ≡ total (map S.whole (added_values h plan.now))) }
{
    let updates = DefaultUpdatePolicy::<S>::default();
    let unions = DefaultUnionPolicy::<S>::default();
    evaluate_tuple(alloc, plan, seed, updates, unions)
}

/// The sketch of a plan in a family, ordered.
fn ordered_sketch<F: SketchFamily<A>, A: Allocator + Clone, B: Allocator>(
    family: &F,
    alloc: &A,
    plan: &Plan<F::Value, B>,
    seed: u64,
) -> Result<F::Compact, Error>
    ensures value { let f = folds_of (F.rules family.now) (F.refuses family.now) in
        IfOk result (λ c.
        IsOrderedSketchOf (F.rules family.now).key (value_in f plan.now) (seed_hash seed) (F.listed c)) }
    ensures accepted { OnOk result (plan_refusal seed plan.now ≡ None) }
    ensures unrefused { OnOk result
        (must_refuse (folds_of (F.rules family.now) (F.refuses family.now)) seed plan.now ≡ false) }
    ensures refused { IfErr result
        (IsPlanRefused (folds_of (F.rules family.now) (F.refuses family.now)) F.strict seed plan.now) }
{
    let sketch = evaluate(family, alloc, plan, seed, true)?;
    into_compact(family, sketch, true)
}
