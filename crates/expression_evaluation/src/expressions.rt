//! The evaluation of expressions over theta sketches, and over sketches of sums.
ghost use Rattle.std.specs.Prelude.{◌≡◌, ℕ, List, [], length, Some, None, true, IfOk, IfErr, OnOk};
ghost use Rattle.sketch_base.specs.Seed.{seed_hash};
ghost use Rattle.core_compact.specs.CompactState.{compact_value, ordered_sketch};
ghost use Rattle.core_laws.specs.Entries.{hash_key};
ghost use Rattle.core_laws.specs.Refusal.{Refuses};
ghost use Rattle.core_laws.specs.Samples.{IsSample, AreSamples};
ghost use Rattle.core_slots.specs.Entry.{tuple_key};
ghost use Rattle.core_slots.specs.declared.entry.TupleEntry.{TupleEntry};
ghost use Rattle.expression_text.specs.Expressions.{Expression, postfix, HasIndicesBelow};
ghost use Rattle.expression_evaluation.specs.Values.{hashes_value, set_of, sum_rules, sums_value, whole_sums_in};
ghost use Rattle.expression_evaluation.specs.Running.{values_of, sums_values, evaluation_refusal, sums_refusal};
ghost use Rattle.expression_evaluation.specs.Running.{IsEvaluationError, MayRefuse};

use crate::evaluation::evaluate_in;
use crate::sums::SumSets;
use crate::theta::ThetaSets;
use expression_text::Step;
use sketch_base::Error;
use std::alloc::Allocator;
use theta_sketches::CompactThetaSketch;
use tuple_sketches::{CompactTupleSketch, SummaryMode};

/// Evaluates the steps of an expression over one sketch per name, in postfix order. The result is ordered. A union
/// retains at most 2^`lg_k` hashes. The result of a name alone is its sketch, with all its hashes.
///
/// If each sketch retains exactly the hashes of its whole stream below its theta, the result retains exactly the
/// hashes of the same expression of the whole streams below the result's theta.
///
/// Refused with `InvalidArgument` if `lg_k` isn't from 4 to 26 or the seed's hash is 0; if a sketch that isn't empty
/// is of another seed, even if no step takes it; and if the steps aren't those of one expression over these sketches.
/// Refused with `OutOfMemory`. Nothing else is refused.
pub fn evaluate<A: Allocator + Clone + Drop, B: Allocator>(
    alloc: A,
    seed: u64,
    lg_k: u8,
    steps: &[Step],
    sketches: &[CompactThetaSketch<B>],
) -> Result<CompactThetaSketch<A>, Error>
    ensures value { (e : Expression)
        → steps.now ≡ postfix e
        → HasIndicesBelow (length sketches.now) e
        → IfOk result (λ s. s ≡ ordered_sketch (hashes_value lg_k (values_of sketches.now) e) (seed_hash seed)) }
    ensures whole { (e : Expression) (sets : List (List ℕ))
        → steps.now ≡ postfix e
        → AreSamples hash_key (values_of sketches.now) sets
        → HasIndicesBelow (length sketches.now) e
        → IfOk result (λ s. IsSample hash_key (compact_value hash_key s) (set_of sets e)) }
    ensures refused { Refuses result (evaluation_refusal seed lg_k steps.now sketches.now) true }
{
    let result = evaluate_in::<ThetaSets, A, B>(&ThetaSets, alloc, seed, lg_k, steps, sketches)?;
    result.into_sketch()
}

/// Evaluates the steps of an expression over one sketch of sums per name, in postfix order. In a union and an
/// intersection the sums of a key are merged by a mode: added, or the less or the greater is kept; a difference keeps
/// the sums of its first operand. The result is ordered.
/// A union retains at most 2^`lg_k` keys. The result of a name alone is its sketch, with all its keys.
///
/// If each sketch retains exactly the keys of its whole stream below its theta, with their sums, the result retains
/// exactly the keys of the same expression of the whole streams below the result's theta, with their sums.
///
/// Refused with `InvalidArgument` if `lg_k` isn't from 4 to 26 or the seed's hash is 0; if a sketch that isn't empty
/// is of another seed, even if no step takes it; and if the steps aren't those of one expression over these sketches.
/// Refused with `OutOfMemory`; and with `Policy` only in the mode `Sum`, if the sums of some key that both operands of
/// a union or an intersection have are 2^64 or more together. So no sum in a result has wrapped.
pub fn evaluate_sums<A: Allocator + Clone + Drop, B: Allocator>(
    alloc: A,
    mode: SummaryMode,
    seed: u64,
    lg_k: u8,
    steps: &[Step],
    sketches: &[CompactTupleSketch<u64, B>],
) -> Result<CompactTupleSketch<u64, A>, Error>
    ensures value { (e : Expression)
        → steps.now ≡ postfix e
        → HasIndicesBelow (length sketches.now) e
        → IfOk result (λ s. s ≡ ordered_sketch (sums_value mode lg_k (sums_values sketches.now) e) (seed_hash seed)) }
    ensures whole { (e : Expression) (wholes : List (List (TupleEntry ℕ)))
        → steps.now ≡ postfix e
        → AreSamples tuple_key (sums_values sketches.now) wholes
        → HasIndicesBelow (length sketches.now) e
        → IfOk result (λ s. IsSample tuple_key (compact_value tuple_key s) (whole_sums_in mode wholes e)) }
    ensures accepted { OnOk result (sums_refusal mode seed lg_k steps.now sketches.now ≡ None) }
    ensures refused { IfErr result (
        IsEvaluationError (sums_refusal mode seed lg_k steps.now sketches.now)
        (MayRefuse (sum_rules mode) lg_k (sums_values sketches.now) steps.now (Some []))) }
{
    let family = SumSets { mode };
    evaluate_in::<SumSets, A, B>(&family, alloc, seed, lg_k, steps, sketches)
}
