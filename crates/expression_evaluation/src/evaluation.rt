//! Evaluates expressions over sketches of any family.
ghost use Rattle.std.specs.Prelude.{◌≡◌, List, [], length, true, false, None, Some, IfOk, IfErr, OnOk};
ghost use Rattle.sketch_base.specs.Seed.{seed_hash};
ghost use Rattle.core_compact.specs.CompactState.{ordered_sketch};
ghost use Rattle.core_laws.specs.Refusal.{Refuses};
ghost use Rattle.core_laws.specs.Samples.{IsSample, AreSamples};
ghost use Rattle.core_laws.specs.Settings.{settings_refusal};
ghost use Rattle.core_laws.specs.declared.TheConstants.{MAX_THETA};
ghost use Rattle.expression_text.specs.Expressions.{Expression, postfix, HasIndicesBelow};
ghost use Rattle.expression_text.specs.declared.operator.Step.TheVariants.{Combine};
ghost use Rattle.expression_evaluation.specs.Values.{expression_value, expression_whole};
ghost use Rattle.expression_evaluation.specs.Running.{value_by, values_by, after_step, values_onto};
ghost use Rattle.expression_evaluation.specs.Running.{AreOrderedSketches, are_accepted, refusal_by, IsStepRefused};
ghost use Rattle.expression_evaluation.specs.Running.{IsEvaluationError, MayRefuseStep, MayRefuse};

use crate::family::SetFamily;
use core_laws::{MAX_LG_K, MIN_LG_K};
use expression_text::{Operator, Step};
use sketch_base::{Error, ErrorKind, compute_seed_hash};
use std::alloc::Allocator;

/// Refuses an `lg_k` that isn't from 4 to 26, and a seed whose seed hash is 0, with `InvalidArgument`.
fn check_settings(lg_k: u8, seed: u64) -> Result<u16, Error>
    ensures hash { IfOk result (λ h. h ≡ seed_hash seed) }
    ensures refused { Refuses result (settings_refusal lg_k MAX_THETA seed) false }
{
    let fits = MIN_LG_K <= lg_k && lg_k <= MAX_LG_K;
    if !fits {
        return Err(Error::new(ErrorKind::InvalidArgument));
    }
    compute_seed_hash(seed, ErrorKind::InvalidArgument)
}

/// Whether all sketches are empty or of the seed with this hash.
fn are_accepted<F: SetFamily<A, B>, A: Allocator, B: Allocator>(
    family: &F,
    hash: u16,
    sketches: &[F::Named],
) -> bool
    ensures { result ≡ are_accepted F.named hash sketches.now }
{
    for sketch in sketches {
        if !family.is_accepted(hash, sketch) {
            return false;
        }
    }
    true
}

/// Replaces the last two results by their combination.
fn combine_last<F: SetFamily<A, B>, A: Allocator, B: Allocator>(
    family: &F,
    alloc: A,
    seed: u64,
    lg_k: u8,
    operator: Operator,
    stack: &mut Vec<F::Sketch, A>,
) -> Result<(), Error>
    requires settings { settings_refusal lg_k MAX_THETA seed ≡ None }
    requires ordered { AreOrderedSketches (F.rules family.now) F.listed (seed_hash seed) stack.old.items }
    ensures ordered { OnOk result (AreOrderedSketches (F.rules family.now) F.listed (seed_hash seed) stack.new.items) }
    ensures ran { OnOk result (
        after_step (F.rules family.now) lg_k [] (Combine operator) (values_onto (F.rules family.now) F.listed stack.old.items [])
        ≡ Some (values_onto (F.rules family.now) F.listed stack.new.items [])) }
    ensures refused { IfErr result (
        IsStepRefused (after_step (F.rules family.now) lg_k [] (Combine operator) (values_onto (F.rules family.now) F.listed stack.old.items []))
        (MayRefuseStep (F.rules family.now) (Combine operator) (values_onto (F.rules family.now) F.listed stack.old.items []))) }
{
    let Some(second) = stack.pop() else {
        return Err(Error::new(ErrorKind::InvalidArgument));
    };
    let Some(first) = stack.pop() else {
        return Err(Error::new(ErrorKind::InvalidArgument));
    };
    let sketch = family.combine(alloc, seed, lg_k, operator, first, second)?;
    stack.push(sketch)?;
    Ok(())
}

/// Runs one step on a stack of sketches.
fn run_step<F: SetFamily<A, B>, A: Allocator, B: Allocator>(
    family: &F,
    alloc: A,
    seed: u64,
    lg_k: u8,
    step: Step,
    sketches: &[F::Named],
    stack: &mut Vec<F::Sketch, A>,
) -> Result<(), Error>
    requires settings { settings_refusal lg_k MAX_THETA seed ≡ None }
    requires accepted { are_accepted F.named (seed_hash seed) sketches.now ≡ true }
    requires ordered { AreOrderedSketches (F.rules family.now) F.listed (seed_hash seed) stack.old.items }
    ensures ordered { OnOk result (AreOrderedSketches (F.rules family.now) F.listed (seed_hash seed) stack.new.items) }
    ensures ran { OnOk result (
        after_step (F.rules family.now) lg_k (values_by (F.rules family.now) F.named sketches.now) step
        (values_onto (F.rules family.now) F.listed stack.old.items [])
        ≡ Some (values_onto (F.rules family.now) F.listed stack.new.items [])) }
    ensures refused { IfErr result (IsStepRefused (
        after_step (F.rules family.now) lg_k (values_by (F.rules family.now) F.named sketches.now) step
        (values_onto (F.rules family.now) F.listed stack.old.items []))
        (MayRefuseStep (F.rules family.now) step (values_onto (F.rules family.now) F.listed stack.old.items []))) }
{
    match step {
        Step::Operand(index) => {
            let Some(sketch) = sketches.get(index) else {
                return Err(Error::new(ErrorKind::InvalidArgument));
            };
            let same = family.to_ordered(alloc, seed, sketch)?;
            stack.push(same)?;
            Ok(())
        }
        Step::Combine(operator) => combine_last(family, alloc, seed, lg_k, operator, stack),
    }
}

/// Evaluates the steps of an expression over one sketch per name, in postfix order. The result is ordered. A union
/// retains at most 2^`lg_k` entries. The result of a name alone is its sketch, with all its entries.
///
/// Refused with `InvalidArgument` if `lg_k` isn't from 4 to 26 or the seed's hash is 0; if a sketch that isn't empty
/// is of another seed, even if no step takes it; and if the steps aren't those of one expression over these sketches.
/// Refused with `OutOfMemory`, and with `Policy` only if the family may refuse a merge of two entries of one key in a
/// union or an intersection.
pub fn evaluate_in<F: SetFamily<A, B>, A: Allocator + Clone, B: Allocator>(
    family: &F,
    alloc: A,
    seed: u64,
    lg_k: u8,
    steps: &[Step],
    sketches: &[F::Named],
) -> Result<F::Sketch, Error>
    ensures value { (e : Expression)
        → steps.now ≡ postfix e
        → HasIndicesBelow (length sketches.now) e
        → IfOk result (λ s.
        F.listed s ≡ ordered_sketch (expression_value (F.rules family.now) lg_k (values_by (F.rules family.now) F.named sketches.now) e) (seed_hash seed)) }
    ensures whole { (e : Expression) (wholes : List (List F.Entry))
        → steps.now ≡ postfix e
        → AreSamples (F.rules family.now).key (values_by (F.rules family.now) F.named sketches.now) wholes
        → HasIndicesBelow (length sketches.now) e
        → IfOk result (λ s. IsSample (F.rules family.now).key (value_by (F.rules family.now) F.listed s) (expression_whole (F.rules family.now) wholes e)) }
    ensures accepted { OnOk result (refusal_by (F.rules family.now) F.named seed lg_k steps.now sketches.now ≡ None) }
    ensures refused { IfErr result (
        IsEvaluationError (refusal_by (F.rules family.now) F.named seed lg_k steps.now sketches.now)
        (MayRefuse (F.rules family.now) lg_k (values_by (F.rules family.now) F.named sketches.now) steps.now (Some []))) }
{
    let hash = check_settings(lg_k, seed)?;
    if !are_accepted(family, hash, sketches) {
        return Err(Error::new(ErrorKind::InvalidArgument));
    }
    let mut stack: Vec<F::Sketch, A> = Vec::new(alloc.clone()?);
    for step in steps {
        run_step(
            family,
            alloc.clone()?,
            seed,
            lg_k,
            *step,
            sketches,
            &mut stack,
        )?;
    }
    let Some(last) = stack.pop() else {
        return Err(Error::new(ErrorKind::InvalidArgument));
    };
    if !stack.as_slice().is_empty() {
        return Err(Error::new(ErrorKind::InvalidArgument));
    }
    Ok(last)
}
