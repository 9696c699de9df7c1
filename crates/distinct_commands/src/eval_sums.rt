//! What `eval --sums` prints or writes: the result of a set expression over the sketches of sums of files.
ghost use Rattle.std.specs.Prelude.{◌≡◌, ◌≢◌, ◌⊎◌, ℕ, true, List, [], Some, length, IfOk, IfErr, IfSome, Bool};
ghost use Rattle.sketch_base.specs.Seed.{seed_hash};
ghost use Rattle.sketch_base.specs.declared.error.ErrorKind.TheVariants.{OutOfMemory, Policy};
ghost use Rattle.core_compact.specs.CompactState.{Compact, ordered_sketch};
ghost use Rattle.expression_text.specs.Grammar.{IsExpressionText};
ghost use Rattle.keys_sums.specs.Images.{AreReadSums};
ghost use Rattle.core_slots.specs.declared.entry.TupleEntry.{TupleEntry};
ghost use Rattle.expression_text.specs.declared.operator.Step.{Step};
ghost use Rattle.expression_evaluation.specs.Values.{sum_rules, sums_value};
ghost use Rattle.expression_evaluation.specs.Running.{sums_values, MayRefuse};
ghost use Rattle.distinct_arguments.specs.Faults.{options_of};
ghost use Rattle.distinct_inputs.specs.Lists.{names_of};
ghost use Rattle.distinct_commands.specs.Eval.{is_cut};
ghost use Rattle.distinct_commands.specs.EvalSums.{evaluated_sums_text, IsSumsEvaluated};
ghost use Rattle.distinct_commands.specs.Failing.{IsOfResult, IsOfSumsResult};
ghost use Rattle.distinct_commands.specs.Operands.{IsRead};
ghost use Rattle.distinct_messages.specs.Failures.{UnreadableIf};
ghost use Rattle.distinct_inputs.specs.Failures.{chosen_summary, images_in, IsOfImages};
ghost use Rattle.tuple_sketches.specs.declared.numbers.SummaryMode.{SummaryMode};
ghost use Rattle.distinct_inputs.specs.Images.{images_of, in_form};
ghost use Rattle.distinct_inputs.specs.Seeds.{AreSeeded};
ghost use Rattle.distinct_messages.specs.declared.failure.Failure.TheVariants as failure;

use crate::combine::image_failure;
use crate::commands::in_form;
use crate::expression::Expression;
use crate::job::Job;
use crate::sums::{chosen_summary, total_text};
use distinct_arguments::Options;
use distinct_inputs::Images;
use distinct_messages::{Coarser, Console, Failure, Remark, out_of_memory};
use expression_evaluation::evaluate_sums;
use keys_sketches::{ReadError, Sources};
use keys_sums::{all_sums, sums_image};
use sketch_base::{Error, ErrorKind};
use std::alloc::Global;
use tuple_sketches::CompactTupleSketch;

/// The failure of an evaluation that is refused: memory, or a sum of a key that is 2^64 or more.
fn evaluation_failure(alloc: Global, text: &str, error: Error) -> Failure
    requires { (error ≡ OutOfMemory) ⊎ (error ≡ Policy) }
    ensures of_result { (mode : SummaryMode) (lg_k : ℕ) (steps : List Step) (sketches : List (Compact (TupleEntry ℕ)))
        → (error ≡ Policy → MayRefuse (sum_rules mode) lg_k (sums_values sketches) steps (Some []))
        → IsOfResult mode lg_k text.now steps sketches result }
    ensures fallible { (may_fail : Bool) → UnreadableIf may_fail result }
{
    if error.kind() != ErrorKind::Policy {
        return Failure::Memory;
    }
    match String::from_str(alloc, text) {
        Ok(text) => Failure::PastResult(text),
        Err(_) => Failure::Memory,
    }
}

/// The result of an expression over one sketch of sums per name, each of this seed. The sums of a key are combined as
/// the options say. It fails if memory is refused, or if a sum that is added would be 2^64 or more.
fn result_of(
    alloc: Global,
    options: &Options<'_>,
    seed: u64,
    expression: &Expression<'_>,
    sketches: &[CompactTupleSketch<u64>],
) -> Result<CompactTupleSketch<u64>, Failure>
    requires seed { seed_hash seed ≢ 0 }
    requires seeded { AreSeeded seed sketches.now }
    requires read { IsRead expression.now }
    requires counted { length expression.now.names.items ≡ length sketches.now }
    ensures value { (spelled : IsExpressionText expression.now.text.now (names_of expression.now.names.items)
        expression.now.steps.items)
        → IfOk result (λ s.
        s
        ≡ ordered_sketch (sums_value (chosen_summary (options_of options.now)) options.now.lg_k (sums_values sketches.now) spelled.tree)
        (seed_hash seed)) }
    ensures failed { IfErr result
        (IsOfResult (chosen_summary (options_of options.now)) options.now.lg_k expression.now.text.now
        expression.now.steps.items sketches.now) }
    ensures fallible { (may_fail : Bool) → IfErr result (UnreadableIf may_fail) }
{
    let steps = expression.steps.as_slice();
    let mode = chosen_summary(options);
    match evaluate_sums(alloc, mode, seed, options.lg_k, steps, sketches) {
        Ok(sketch) => Ok(sketch),
        Err(error) => Err(evaluation_failure(alloc, expression.text, error)),
    }
}

/// The total of a sketch of sums as it is printed, or its image as it is written with `--output`.
fn put_result(
    alloc: Global,
    options: &Options<'_>,
    sums: &CompactTupleSketch<u64>,
) -> Result<Vec<u8>, Failure>
    ensures result { IfOk result (λ v. v.items ≡ evaluated_sums_text (options_of options.now) sums.now) }
    ensures memory { IfErr result (λ f. f ≡ failure.Memory) }
{
    if options.output.is_some() {
        return match sums_image(sums) {
            Ok(image) => in_form(alloc, options.hex, image),
            Err(error) => Err(out_of_memory(error)),
        };
    }
    let text = total_text(alloc, options, sums)?;
    Ok(text.into_bytes())
}

/// Whether a result has a lower theta than each of the sketches that it is made of: a union in it dropped keys.
fn is_cut(evaluated: &CompactTupleSketch<u64>, sketches: &[CompactTupleSketch<u64>]) -> bool
    ensures { result ≡ is_cut evaluated.now sketches.now }
{
    let theta = evaluated.theta64();
    let mut rest = sketches;
    while let Some((sketch, others)) = rest.split_first() {
        if sketch.theta64() <= theta {
            return false;
        }
        rest = others;
    }
    true
}

/// Remarks that an image retains more keys than a union keeps, if one does, and a union in the result of an expression
/// over these sketches dropped keys.
fn remark_cut<C: Console>(
    coarser: Option<Coarser<'_>>,
    evaluated: &CompactTupleSketch<u64>,
    sketches: &[CompactTupleSketch<u64>],
    console: &mut C,
) {
    if let Some(coarser) = coarser {
        if is_cut(evaluated, sketches) {
            console.remark(Remark::Coarser(coarser));
        }
    }
}

impl<'a, S: Sources + Drop> Job<'a, S> {
    /// The sketches of sums that all sources have as images, each of this seed. `coarser` is then the remark on the
    /// image that retains more keys than a union keeps, if one does.
    fn sums_operands(
        self,
        coarser: &mut Option<Coarser<'a>>,
    ) -> Result<Vec<CompactTupleSketch<u64>>, Failure>
        ensures seeded { IfOk result (λ v. AreSeeded self.entry.seed v.items) }
        ensures operands { IfSome (S.texts self.entry.inputs.sources) (λ texts.
            IfOk result (λ v. AreReadSums self.entry.seed (images_of true self.entry.options.now.hex texts) v.items)) }
        ensures failed { IfErr result (
            IsOfImages true self.entry.options.now.hex self.entry.seed
            (images_in true (options_of self.entry.options.now) (S.texts self.entry.inputs.sources))) }
        ensures fallible { IfErr result (UnreadableIf S.may_fail) }
    {
        let (alloc, options, seed) = (self.alloc, self.options, self.seed);
        let mut images = Images::of(alloc, self.inputs, true, options.hex, seed);
        match all_sums(alloc, seed, &mut images) {
            Ok(sketches) => {
                *coarser = images.coarser(options.lg_k);
                Ok(sketches)
            }
            Err(ReadError::Failed(error)) => Err(images.read_failure(error)),
            Err(ReadError::Refused(error)) => Err(image_failure(&images, true, options.hex, error)),
        }
    }

    /// The result of an expression over the sketches of sums of the sources, which have its names in their order.
    pub fn evaluate_sums<C: Console>(
        self,
        expression: &Expression<'_>,
        console: &mut C,
    ) -> Result<Vec<u8>, Failure>
        requires seeded { seed_hash self.seed ≢ 0 }
        requires read { IsRead expression.now }
        ensures evaluated { IfSome (S.texts self.entry.inputs.sources) (λ texts. IfOk result (λ v.
            IsSumsEvaluated (options_of self.entry.options.now) self.entry.seed expression.now.text.now texts v.items)) }
        ensures failed { IfErr result (
            IsOfSumsResult (options_of self.entry.options.now) self.entry.seed expression.now.text.now (S.texts self.entry.inputs.sources)) }
        ensures fallible { IfErr result (UnreadableIf S.may_fail) }
    {
        let (alloc, options, seed) = (self.alloc, self.options, self.seed);
        let mut coarser = None;
        let sketches = self.sums_operands(&mut coarser)?;
        let found = sketches.len();
        let wanted = expression.names.len();
        if found != wanted {
            return Err(Failure::NotOneEach(found as u64, wanted as u64));
        }
        let result = result_of(alloc, options, seed, expression, sketches.as_slice())?;
        remark_cut(coarser, &result, sketches.as_slice(), console);
        put_result(alloc, options, &result)
    }
}
