//! Sums of lines by their keys, or the least or the greatest numbers: their images, and the totals that `sum` prints of
//! them.
ghost use Rattle.std.specs.Prelude.{◌≡◌, ◌≢◌, ℕ, List, Option, IfOk, IfErr, IfSome, string_bytes, Bool};
ghost use Rattle.sketch_base.specs.Seed.{seed_hash};
ghost use Rattle.keys_lines.specs.Lines.{lines_of_all};
ghost use Rattle.keys_sums.specs.Amounts.{AreNumbers};
ghost use Rattle.keys_sums.specs.Parts.{bytes_of};
ghost use Rattle.keys_sums.specs.declared.addends.Amount.{Amount};
ghost use Rattle.keys_sums.specs.Images.{written_sums, ReadsSums};
ghost use Rattle.keys_sums.specs.declared.addends.Amount.TheVariants.{One};
ghost use Rattle.distinct_messages.specs.declared.failure.Failure.TheVariants as failure;
ghost use Rattle.distinct_arguments.specs.Faults.{options_of};
ghost use Rattle.distinct_arguments.specs.Settings.{OptionValues, chosen_value};
ghost use Rattle.distinct_inputs.specs.Failures.{chosen_amount, chosen_summary, HasGreatSum, HasNoNumberIn};
ghost use Rattle.distinct_inputs.specs.Failures.{IsOfNumbers, IsOfSums, IsOfTotal, shown_field};
ghost use Rattle.distinct_messages.specs.Failures.{UnreadableIf};
ghost use Rattle.totals.specs.Totals.{lines_total};
ghost use Rattle.tuple_sketches.specs.declared.numbers.SummaryMode.{SummaryMode};
ghost use Rattle.distinct_commands.specs.Sums.{exact_total, lines_totalled_in, sums_of, total_text, IsSumsText, IsTotalText};

use crate::commands::in_form;
use crate::job::Job;
use crate::show::chosen_deviations;
use distinct_arguments::{Fault, Form, Mode, Options};
use distinct_inputs::Inputs;
use distinct_messages::{Console, Failure, out_of_memory};
use keys_lines::{Hashing, Key};
use keys_sketches::Sources;
use keys_sums::{Amount, SumError, SumsOfLines, ValueStart, sum_sources, sums_image};
use std::alloc::{AllocError, Global};
use totals::{
    lines_total, lines_total_json_line, lines_total_line, lines_total_tsv_head,
    lines_total_tsv_row, total_bounds, total_json_line, total_line, total_of, total_tsv_head,
    total_tsv_row,
};
use tuple_sketches::{CompactTupleSketch, SummaryMode};

/// What each line adds to the sum of its key, if `sketch` writes sums.
pub fn chosen_amount(options: &Options<'_>) -> Option<Amount>
    ensures { result ≡ chosen_amount (options_of options.now) }
{
    if options.visits {
        return Some(Amount::One);
    }
    match options.value() {
        Some(field) => Some(Amount::Number(field)),
        None => None,
    }
}

/// How the numbers of a key are combined.
pub fn chosen_summary(options: &Options<'_>) -> SummaryMode
    ensures { result ≡ chosen_summary (options_of options.now) }
{
    match options.mode() {
        Mode::Sum => SummaryMode::Sum,
        Mode::Min => SummaryMode::Min,
        Mode::Max => SummaryMode::Max,
    }
}

/// The failure for a line of the source that was opened last, with which the sum of its key would be 2^64 or more.
fn overflow_failure<S: Sources>(alloc: Global, inputs: &Inputs<'_, S>, line: u64) -> Failure
    ensures of_sums { (mode : SummaryMode) (options : OptionValues) (seed : ℕ) (amount : Amount)
        (texts : Option (List (List ℕ)))
        → HasGreatSum mode options seed amount texts
        → IsOfSums mode options seed amount texts result }
    ensures fallible { (may_fail : Bool) → UnreadableIf may_fail result }
{
    match String::from_str(alloc, inputs.name()) {
        Ok(name) => Failure::PastGreatest(name, line),
        Err(_) => Failure::Memory,
    }
}

/// The byte between the parts of a line that texts choose.
const PARTS: u8 = 30;

/// The number, from 1, of the field that lines add; 0 if they add none, or a text chooses it.
fn shown_field(amount: Amount) -> u64
    ensures { result ≡ shown_field amount }
{
    match amount {
        Amount::Number(Key::Field(_, PARTS)) => 0,
        Amount::Number(Key::Field(before, _)) => before as u64 + 1,
        _ => 0,
    }
}

/// The failure for a line of the source that was opened last, which has no number to add in its field, which starts in
/// this way.
pub fn number_failure<S: Sources>(
    alloc: Global,
    inputs: &Inputs<'_, S>,
    amount: Amount,
    line: u64,
    start: &ValueStart,
) -> Failure
    ensures of_sums { (mode : SummaryMode) (options : OptionValues) (seed : ℕ) (texts : Option (List (List ℕ)))
        → amount ≢ One
        → HasNoNumberIn amount line (bytes_of start.now) texts
        → IsOfSums mode options seed amount texts result }
    ensures of_numbers { (texts : Option (List (List ℕ)))
        → amount ≢ One
        → HasNoNumberIn amount line (bytes_of start.now) texts
        → IsOfNumbers amount texts result }
    ensures fallible { (may_fail : Bool) → UnreadableIf may_fail result }
{
    let Ok(name) = String::from_str(alloc, inputs.name()) else {
        return Failure::Memory;
    };
    let mut value = Vec::new(alloc);
    match value.extend_from_slice(start.as_bytes()) {
        Ok(()) => Failure::NotANumber(name, line, shown_field(amount), value),
        Err(_) => Failure::Memory,
    }
}

/// The image of a sketch of sums. It fails if memory is refused.
fn image_of_sums(sums: &CompactTupleSketch<u64>, seed: u64) -> Result<Vec<u8>, Failure>
    requires seeded { seed_hash seed ≢ 0 }
    ensures image { IfOk result (λ v. v.items ≡ written_sums sums.now) }
    ensures reads { sums.now.seed_hash ≡ seed_hash seed
        → IfOk result (λ v. ReadsSums v.items (seed_hash seed) sums.now) }
    ensures memory { IfErr result (λ f. f ≡ failure.Memory) }
{
    match sums_image(sums) {
        Ok(image) => Ok(image),
        Err(error) => Err(out_of_memory(error)),
    }
}

/// What `eval` prints of a sketch of sums.
pub fn total_text(
    alloc: Global,
    options: &Options<'_>,
    sums: &CompactTupleSketch<u64>,
) -> Result<String, AllocError>
    ensures { IfOk result (λ text. string_bytes text ≡ total_text (options_of options.now) sums.now) }
{
    let total = total_of(sums);
    let bounds = total_bounds(sums, chosen_deviations(options));
    match options.form {
        Form::Plain => total_line(alloc, total, bounds),
        Form::Tsv => {
            let mut text = total_tsv_head(alloc)?;
            let row = total_tsv_row(alloc, total, bounds)?;
            text.push_str(row.as_str())?;
            Ok(text)
        }
        Form::Json => total_json_line(alloc, total, bounds),
    }
}

/// What `sum` prints of the sums of lines.
fn lines_total_text(alloc: Global, form: Form, sums: &SumsOfLines) -> Result<String, AllocError>
    ensures { IfOk result (λ text. string_bytes text ≡ lines_totalled_in form (lines_total sums.now.sketch sums.now.total)) }
{
    let total = lines_total(&sums.sketch, sums.total);
    match form {
        Form::Plain => lines_total_line(alloc, total),
        Form::Tsv => {
            let mut text = lines_total_tsv_head(alloc)?;
            let row = lines_total_tsv_row(alloc, total)?;
            text.push_str(row.as_str())?;
            Ok(text)
        }
        Form::Json => lines_total_json_line(alloc, total),
    }
}

impl<'a, S: Sources + Drop> Job<'a, S> {
    /// The sketch of the lines of all sources, each key with what its lines add, combined by a mode, and the total. It
    /// fails if memory is refused, a source can't be read, a sum would be 2^64 or more, or a line adds no number.
    pub fn sums_of<C: Console>(
        self,
        mode: SummaryMode,
        amount: Amount,
        console: &mut C,
    ) -> Result<SumsOfLines, Failure>
        requires seeded { seed_hash self.seed ≢ 0 }
        ensures sums { IfSome (S.texts self.entry.inputs.sources) (λ texts.
            IfOk result (λ s. s.sketch ≡ sums_of mode (options_of self.entry.options.now) amount self.entry.seed texts)) }
        ensures total { IfSome (S.texts self.entry.inputs.sources) (λ texts.
            IfOk result (λ s. s.total ≡ exact_total amount texts)) }
        ensures numbers { IfSome (S.texts self.entry.inputs.sources) (λ texts.
            IfOk result (λ _. AreNumbers amount (lines_of_all texts))) }
        ensures failed { IfErr result
            (IsOfSums mode (options_of self.entry.options.now) self.entry.seed amount
            (S.texts self.entry.inputs.sources)) }
        ensures fallible { IfErr result (UnreadableIf S.may_fail) }
    {
        let (alloc, options, seed) = (self.alloc, self.options, self.seed);
        let mut inputs = self.inputs;
        let hashing = Hashing {
            key: options.key(),
            seed,
        };
        match sum_sources(
            alloc,
            mode,
            hashing,
            amount,
            options.lg_k,
            &mut inputs,
            console,
        ) {
            Ok(sums) => Ok(sums),
            Err(SumError::Failed(error)) => Err(inputs.read_failure(alloc, error)),
            Err(SumError::PastGreatest(line)) => Err(overflow_failure(alloc, &inputs, line)),
            Err(SumError::NotANumber(line, start)) => {
                Err(number_failure(alloc, &inputs, amount, line, &start))
            }
            Err(SumError::Refused(error)) => Err(out_of_memory(error)),
        }
    }

    /// What `sketch` writes of what the lines of all sources add, combined as the options say. It fails if memory is refused, a source
    /// can't be read, a sum would be 2^64 or more, or a line adds no number.
    pub fn write_sums<C: Console>(self, amount: Amount, console: &mut C) -> Result<Vec<u8>, Failure>
        requires seeded { seed_hash self.seed ≢ 0 }
        ensures written { IfSome (S.texts self.entry.inputs.sources) (λ texts.
            IfOk result (λ v. IsSumsText amount (options_of self.entry.options.now) self.entry.seed texts v.items)) }
        ensures failed { IfErr result
            (IsOfSums (chosen_summary (options_of self.entry.options.now)) (options_of self.entry.options.now)
            self.entry.seed amount (S.texts self.entry.inputs.sources)) }
        ensures fallible { IfErr result (UnreadableIf S.may_fail) }
    {
        let (alloc, options, seed) = (self.alloc, self.options, self.seed);
        let mode = chosen_summary(options);
        let sums = self.sums_of(mode, amount, console)?;
        let image = image_of_sums(&sums.sketch, seed)?;
        in_form(alloc, options.hex, image)
    }

    /// What `sum` prints of the lines of all sources. It fails if no field has the lines' numbers, memory is refused,
    /// a source can't be read, a sum would be 2^64 or more, or a line has no number.
    pub fn sum_inputs<C: Console>(self, console: &mut C) -> Result<Vec<u8>, Failure>
        requires seeded { seed_hash self.seed ≢ 0 }
        ensures printed { IfSome (S.texts self.entry.inputs.sources) (λ texts. IfOk result (λ v.
            IsTotalText (chosen_value (options_of self.entry.options.now)) (options_of self.entry.options.now) self.entry.seed texts v.items)) }
        ensures failed { IfErr result
            (IsOfTotal (options_of self.entry.options.now) self.entry.seed (S.texts self.entry.inputs.sources)) }
        ensures fallible { IfErr result (UnreadableIf S.may_fail) }
    {
        let (alloc, options) = (self.alloc, self.options);
        let Some(field) = options.value() else {
            return Err(Failure::Arguments(Fault::SumNeedsValue));
        };
        let sums = self.sums_of(SummaryMode::Sum, Amount::Number(field), console)?;
        let text = lines_total_text(alloc, options.form, &sums)?;
        Ok(text.into_bytes())
    }
}
