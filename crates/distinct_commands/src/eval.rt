//! What `eval` prints or writes: the result of a set expression over the sketches of files.
ghost use Rattle.std.specs.Prelude.{◌≡◌, ◌≢◌, ℕ, false, List, length, IfOk, IfErr, IfSome, Bool};
ghost use Rattle.sketch_base.specs.Seed.{seed_hash};
ghost use Rattle.core_laws.specs.Settings.{settings_refusal};
ghost use Rattle.core_laws.specs.declared.TheConstants.{MAX_THETA};
ghost use Rattle.keys_sketches.specs.Refusals.{RefusesRead};
ghost use Rattle.expression_text.specs.Grammar.{IsExpressionText};
ghost use Rattle.expression_evaluation.specs.Values.{hashes_value};
ghost use Rattle.core_compact.specs.CompactState.{ordered_sketch};
ghost use Rattle.expression_evaluation.specs.Running.{values_of};
ghost use Rattle.distinct_arguments.specs.Faults.{options_of};
ghost use Rattle.distinct_inputs.specs.Lists.{names_of};
ghost use Rattle.distinct_commands.specs.Eval.{sketch_of_text, SketchesNext, AreSketchesOfTexts, AreOperands};
ghost use Rattle.distinct_commands.specs.Eval.{is_cut, IsEvaluated, IsEvaluatedBy, evaluated_text};
ghost use Rattle.distinct_commands.specs.Failing.{IsOfNames, IsOfThetas, IsOfEvaluation};
ghost use Rattle.distinct_commands.specs.Operands.{IsRead};
ghost use Rattle.distinct_inputs.specs.Seeds.{AreSeeded};
ghost use Rattle.distinct_messages.specs.Failures.{UnreadableIf};
ghost use Rattle.distinct_inputs.specs.Failures.{IsOfReading, NotesNext};
ghost use Rattle.distinct_messages.specs.declared.failure.Failure.TheVariants as failure;

use crate::combine::all_sketches;
use crate::commands::image_in_form;
use crate::expression::Expression;
use crate::job::Job;
use crate::show::{head_of, shown_text};
use distinct_arguments::Options;
use distinct_inputs::{Images, Inputs};
use distinct_messages::{Coarser, Console, Failure, Remark, out_of_memory};
use expression_evaluation::evaluate;
use keys_lines::Hashing;
use keys_sketches::{BLOCK, ReadError, Sources, TextReader, sketch_lines};
use std::alloc::Global;
use theta_sketches::CompactThetaSketch;

/// The sketch of the lines of a source. Refused only with `OutOfMemory`; if the source can't be read, its error is
/// returned.
fn sketch_source<R: TextReader, C: Console>(
    alloc: Global,
    options: &Options<'_>,
    seed: u64,
    source: &mut R,
    console: &mut C,
) -> Result<CompactThetaSketch, ReadError>
    ensures sketch { IfSome (R.remaining source.old) (λ text.
        IfOk result (λ s. s ≡ sketch_of_text (options_of options.now) seed text)) }
    ensures seeded { IfOk result (λ s. s.seed_hash ≡ seed_hash seed) }
    ensures refused { RefusesRead result (settings_refusal options.now.lg_k MAX_THETA seed) }
{
    let mut block = vec![in alloc; 0u8; BLOCK]?;
    let hashing = Hashing {
        key: options.key(),
        seed,
    };
    let lg_k = options.lg_k;
    sketch_lines(alloc, hashing, lg_k, source, &mut block, console)
}

/// The sketch of the lines of the next source, of this seed, or `None` at the end. It fails if memory is refused or
/// the source can't be read.
pub fn next_lines<S: Sources, C: Console>(
    alloc: Global,
    options: &Options<'_>,
    seed: u64,
    inputs: &mut Inputs<'_, S>,
    console: &mut C,
) -> Result<Option<CompactThetaSketch>, Failure>
    requires seeded { seed_hash seed ≢ 0 }
    ensures seeded { IfOk result (λ next. IfSome next (λ s. s.seed_hash ≡ seed_hash seed)) }
    ensures sketches { IfOk result
        (SketchesNext (options_of options.now) seed (S.texts inputs.old.sources) (S.texts inputs.new.sources)) }
    ensures named { NotesNext inputs.old.current.now inputs.old.left.now inputs.new.current.now inputs.new.left.now }
    ensures failed { IfErr result IsOfReading }
    ensures fallible { IfErr result (UnreadableIf S.may_fail) }
{
    let mut source = match inputs.next_source() {
        Ok(Some(source)) => source,
        Ok(None) => return Ok(None),
        Err(error) => return Err(inputs.read_failure(alloc, error)),
    };
    match sketch_source(alloc, options, seed, &mut source, console) {
        Ok(sketch) => Ok(Some(sketch)),
        Err(ReadError::Failed(error)) => Err(inputs.read_failure(alloc, error)),
        Err(ReadError::Refused(error)) => Err(out_of_memory(error)),
    }
}

/// The result of an expression over one sketch per name, each of this seed. It fails if memory is refused.
fn result_of(
    alloc: Global,
    options: &Options<'_>,
    seed: u64,
    expression: &Expression<'_>,
    sketches: &[CompactThetaSketch],
) -> Result<CompactThetaSketch, Failure>
    requires seed { seed_hash seed ≢ 0 }
    requires seeded { AreSeeded seed sketches.now }
    requires read { IsRead expression.now }
    requires counted { length expression.now.names.items ≡ length sketches.now }
    ensures value { (spelled : IsExpressionText expression.now.text.now (names_of expression.now.names.items)
        expression.now.steps.items)
        → IfOk result (λ s.
        s
        ≡ ordered_sketch (hashes_value options.now.lg_k (values_of sketches.now) spelled.tree)
        (seed_hash seed)) }
    ensures memory { IfErr result (λ f. f ≡ failure.Memory) }
{
    let steps = expression.steps.as_slice();
    match evaluate(alloc, seed, options.lg_k, steps, sketches) {
        Ok(sketch) => Ok(sketch),
        Err(error) => Err(out_of_memory(error)),
    }
}

/// What `eval` prints of a sketch, the result of this expression, or its image as it is written with `--output`.
fn put_result(
    alloc: Global,
    options: &Options<'_>,
    text: &str,
    sketch: &CompactThetaSketch,
) -> Result<Vec<u8>, Failure>
    ensures result { IfOk result (λ v. v.items ≡ evaluated_text (options_of options.now) text.now sketch.now) }
    ensures memory { IfErr result (λ f. f ≡ failure.Memory) }
{
    if options.output.is_some() {
        return image_in_form(alloc, options.hex, sketch);
    }
    let head = head_of(alloc, options.form)?;
    let line = shown_text(alloc, options, text, sketch)?;
    let mut shown = head.into_bytes();
    shown.extend_from_slice(line.as_bytes())?;
    Ok(shown)
}

/// Whether a result has a lower theta than each of the sketches that it is made of: a union in it dropped hashes.
fn is_cut(evaluated: &CompactThetaSketch, sketches: &[CompactThetaSketch]) -> bool
    ensures { result ≡ is_cut evaluated.now sketches.now }
{
    let theta = evaluated.theta64();
    let mut rest = sketches;
    while let Some((sketch, others)) = rest.split_first() {
        if sketch.theta64() <= theta {
            return false;
        }
        rest = others;
    }
    true
}

/// Remarks that an image retains more hashes than a union keeps, if one does, and a union in the result of an
/// expression over these sketches dropped hashes.
fn remark_cut<C: Console>(
    coarser: Option<Coarser<'_>>,
    evaluated: &CompactThetaSketch,
    sketches: &[CompactThetaSketch],
    console: &mut C,
) {
    if let Some(coarser) = coarser {
        if is_cut(evaluated, sketches) {
            console.remark(Remark::Coarser(coarser));
        }
    }
}

impl<'a, S: Sources + Drop> Job<'a, S> {
    /// The sketches of the lines of all sources, one for each source, each of this seed. It fails if memory is
    /// refused or a source can't be read.
    fn all_lines<C: Console>(self, console: &mut C) -> Result<Vec<CompactThetaSketch>, Failure>
        requires seeded { seed_hash self.seed ≢ 0 }
        ensures seeded { IfOk result (λ v. AreSeeded self.entry.seed v.items) }
        ensures sketched { IfSome (S.texts self.entry.inputs.sources) (λ texts.
            IfOk result (λ v. AreSketchesOfTexts (options_of self.entry.options.now) self.entry.seed texts v.items)) }
        ensures failed { IfErr result IsOfReading }
        ensures fallible { IfErr result (UnreadableIf S.may_fail) }
    {
        let (alloc, options, seed) = (self.alloc, self.options, self.seed);
        let mut inputs = self.inputs;
        let mut sketches = Vec::new(alloc);
        for _ in 0..u64::MAX {
            match next_lines(alloc, options, seed, &mut inputs, console)? {
                Some(sketch) => sketches.push(sketch)?,
                None => return Ok(sketches),
            }
        }
        Err(Failure::Memory)
    }

    /// The sketches of all sources, each of this seed: those of their lines with `--keys`, else those that they have
    /// as images. `coarser` is then the remark on the image that retains more hashes than a union keeps, if one does.
    fn operands<C: Console>(
        self,
        console: &mut C,
        coarser: &mut Option<Coarser<'a>>,
    ) -> Result<Vec<CompactThetaSketch>, Failure>
        requires seeded { seed_hash self.seed ≢ 0 }
        ensures seeded { IfOk result (λ v. AreSeeded self.entry.seed v.items) }
        ensures operands { IfSome (S.texts self.entry.inputs.sources) (λ texts. IfOk result (λ v.
            AreOperands self.entry.options.now.keys (options_of self.entry.options.now) self.entry.seed texts v.items)) }
        ensures failed { IfErr result (
            IsOfNames self.entry.options.now.keys self.entry.options.now.hex self.entry.seed (S.texts self.entry.inputs.sources)) }
        ensures fallible { IfErr result (UnreadableIf S.may_fail) }
    {
        if self.options.keys {
            return self.all_lines(console);
        }
        let (alloc, options, seed) = (self.alloc, self.options, self.seed);
        let mut images = Images::new(alloc, self.inputs, options.hex, seed);
        let sketches = all_sketches(alloc, seed, options.hex, &mut images);
        *coarser = images.coarser(options.lg_k);
        sketches
    }

    /// The result of an expression over the theta sketches of the sources, which have its names in their order.
    fn evaluate_theta<C: Console>(
        self,
        expression: &Expression<'_>,
        console: &mut C,
    ) -> Result<Vec<u8>, Failure>
        requires seeded { seed_hash self.seed ≢ 0 }
        requires read { IsRead expression.now }
        ensures evaluated { IfSome (S.texts self.entry.inputs.sources) (λ texts. IfOk result (λ v.
            IsEvaluated (options_of self.entry.options.now) self.entry.seed expression.now.text.now texts v.items)) }
        ensures failed { IfErr result
            (IsOfThetas (options_of self.entry.options.now) self.entry.seed (S.texts self.entry.inputs.sources)) }
        ensures fallible { IfErr result (UnreadableIf S.may_fail) }
    {
        let (alloc, options, seed) = (self.alloc, self.options, self.seed);
        let mut coarser = None;
        let sketches = self.operands(console, &mut coarser)?;
        let found = sketches.len();
        let wanted = expression.names.len();
        if found != wanted {
            return Err(Failure::NotOneEach(found as u64, wanted as u64));
        }
        let result = result_of(alloc, options, seed, expression, sketches.as_slice())?;
        remark_cut(coarser, &result, sketches.as_slice(), console);
        put_result(alloc, options, expression.text, &result)
    }

    /// The result of an expression over the sketches of the sources, which have its names in their order: sketches of
    /// sums, or theta sketches, or the results over the groups of the sources.
    pub fn evaluate<C: Console>(
        self,
        expression: &Expression<'_>,
        console: &mut C,
    ) -> Result<Vec<u8>, Failure>
        requires seeded { seed_hash self.seed ≢ 0 }
        requires read { IsRead expression.now }
        ensures evaluated { IfSome (S.texts self.entry.inputs.sources) (λ texts. IfOk result (λ v.
            IsEvaluatedBy self.entry.options.now.sums (options_of self.entry.options.now) self.entry.seed expression.now.text.now texts v.items)) }
        ensures failed { IfErr result (
            IsOfEvaluation self.entry.options.now.sums (options_of self.entry.options.now) self.entry.seed
            expression.now.text.now
            (S.texts self.entry.inputs.sources)) }
        ensures fallible { IfErr result (UnreadableIf S.may_fail) }
    {
        if self.options.sums {
            return self.evaluate_sums(expression, console);
        }
        if self.options.groups {
            return self.evaluate_groups(expression);
        }
        self.evaluate_theta(expression, console)
    }
}
