//! What `visits` prints: how many keys occur once, twice, 3 to 4 times, and so on, in lines or in images of sums.
ghost use Rattle.std.specs.Prelude.{◌≡◌, ◌≢◌, ◌<◌, ◌++◌, true, IfOk, IfErr, IfSome, OnOk, string_bytes};
ghost use Rattle.sketch_base.specs.Seed.{seed_hash};
ghost use Rattle.keys_sums.specs.declared.addends.Amount.TheVariants.{One};
ghost use Rattle.distinct_arguments.specs.Faults.{options_of};
ghost use Rattle.keys_sums.specs.Unions.{IsUnitedSums, AreSumsOfTexts};
ghost use Rattle.tuple_sketches.specs.declared.numbers.SummaryMode.TheVariants.{Sum};
ghost use Rattle.distinct_inputs.specs.Failures.{images_in, IsOfEitherUnion, IsOfSums, IsOfUniting, IsOfVisits};
ghost use Rattle.distinct_messages.specs.Failures.{UnreadableIf};
ghost use Rattle.distinct_inputs.specs.Images.{images_of, remaining_images};
ghost use Rattle.distinct_commands.specs.Visits.{visits_of, ranges_head, bin_text, bin_up_to, visits_text};
ghost use Rattle.distinct_commands.specs.Visits.{IsVisitsOfImages, IsVisitsText};

use crate::combine::{remark_coarser, union_failure};
use crate::job::Job;
use crate::show::chosen_deviations;
use distinct_arguments::{Form, Options};
use distinct_inputs::Images;
use distinct_messages::{Console, Failure};
use keys_reports::{range_json_line, range_line, range_tsv_head, range_tsv_row, report_of_part};
use keys_sketches::{ReadError, Sources};
use keys_sums::{
    Amount, BINS, UnionOfSums, count_in, greatest_of, greatest_sum, least_of, union_of_sums,
};
use std::alloc::{AllocError, Global};
use tuple_sketches::{CompactTupleSketch, SummaryMode};

/// What is printed before all ranges.
fn ranges_head(alloc: Global, form: Form) -> Result<String, AllocError>
    ensures { IfOk result (λ text. string_bytes text ≡ ranges_head form) }
{
    if form == Form::Tsv {
        range_tsv_head(alloc)
    } else {
        Ok(String::new(alloc))
    }
}

/// What is printed of the keys whose sums are in a bin.
fn bin_text(
    alloc: Global,
    options: &Options<'_>,
    visits: &CompactTupleSketch<u64>,
    bin: u32,
) -> Result<String, AllocError>
    requires { bin < 65 }
    ensures { IfOk result (λ text. string_bytes text ≡ bin_text (options_of options.now) visits.now bin) }
{
    let least = least_of(bin);
    let greatest = greatest_of(bin);
    let report = report_of_part(
        visits.is_empty(),
        count_in(visits, bin),
        visits.theta64(),
        chosen_deviations(options),
    );
    match options.form {
        Form::Plain => range_line(alloc, options.bounds.is_some(), least, greatest, report),
        Form::Tsv => range_tsv_row(alloc, least, greatest, report),
        Form::Json => range_json_line(alloc, least, greatest, report),
    }
}

/// Appends what is printed of the keys whose sums are in a bin, if the bin is not above the greatest sum.
fn put_bin(
    text: &mut String,
    alloc: Global,
    options: &Options<'_>,
    visits: &CompactTupleSketch<u64>,
    most: u128,
    bin: u32,
) -> Result<(), AllocError>
    requires { bin < 65 }
    ensures { OnOk result
        (string_bytes text.new ≡ string_bytes text.old ++ bin_up_to (options_of options.now) visits.now most bin) }
{
    if least_of(bin) > most {
        return Ok(());
    }
    let line = bin_text(alloc, options, visits, bin)?;
    text.push_str(line.as_str())
}

/// What is printed of a sketch of sums: a line for each bin up to that of the greatest sum. Each sum from 1 to 2^64 -
/// 1 is in exactly one bin (`keys_sums::laws::numbers_are_in_one_bin`), so each retained key that occurs is counted
/// in exactly one line.
fn visits_text(
    alloc: Global,
    options: &Options<'_>,
    visits: &CompactTupleSketch<u64>,
) -> Result<String, AllocError>
    ensures { IfOk result (λ text. string_bytes text ≡ visits_text (options_of options.now) visits.now) }
{
    let most = greatest_sum(visits) as u128;
    let mut text = ranges_head(alloc, options.form)?;
    for bin in 0..BINS {
        put_bin(&mut text, alloc, options, visits, most, bin)?;
    }
    Ok(text)
}

/// The union of images of sums. If it is refused, the failure is that of `union_failure`.
fn united_visits<S: Sources>(
    alloc: Global,
    options: &Options<'_>,
    seed: u64,
    images: &mut Images<'_, S>,
) -> Result<UnionOfSums, ReadError>
    requires seeded { seed_hash seed ≢ 0 }
    ensures united { IfSome (remaining_images S.Source.remaining S.texts images.old) (λ all.
        IfOk result (λ u. IsUnitedSums Sum seed options.now.lg_k all u.sketch)) }
    ensures apart { IfSome (remaining_images S.Source.remaining S.texts images.old) (λ all.
        IfOk result (λ u. AreSumsOfTexts Sum seed options.now.lg_k all u.sketch)) }
    ensures refused { IfErr result (IsOfUniting true seed (remaining_images S.Source.remaining S.texts images.old)) }
{
    union_of_sums(alloc, SummaryMode::Sum, seed, options.lg_k, images)
}

impl<'a, S: Sources + Drop> Job<'a, S> {
    /// What `visits` prints of the lines of all sources. It fails if memory is refused, a source can't be read, or a
    /// line occurs 2^64 times.
    fn visit_lines<C: Console>(self, console: &mut C) -> Result<Vec<u8>, Failure>
        requires seeded { seed_hash self.seed ≢ 0 }
        ensures printed { IfSome (S.texts self.entry.inputs.sources) (λ texts. IfOk result (λ v.
            v.items ≡ visits_text (options_of self.entry.options.now) (visits_of (options_of self.entry.options.now) self.entry.seed texts))) }
        ensures failed { IfErr result
            (IsOfSums Sum (options_of self.entry.options.now) self.entry.seed One (S.texts self.entry.inputs.sources)) }
        ensures fallible { IfErr result (UnreadableIf S.may_fail) }
    {
        let (alloc, options) = (self.alloc, self.options);
        let visits = self.sums_of(SummaryMode::Sum, Amount::One, console)?;
        let text = visits_text(alloc, options, &visits.sketch)?;
        Ok(text.into_bytes())
    }

    /// What `visits` prints of the union of the images of sums of all sources. It fails if memory is refused, a
    /// source can't be read or isn't an image of sums, or the sum of a key is 2^64 or more.
    fn visit_images<C: Console>(self, console: &mut C) -> Result<Vec<u8>, Failure>
        requires seeded { seed_hash self.seed ≢ 0 }
        requires sums { self.options.now.sums ≡ true }
        ensures printed { IfSome (S.texts self.entry.inputs.sources) (λ texts. IfOk result (λ v.
            IsVisitsOfImages (options_of self.entry.options.now) self.entry.seed (images_of true self.entry.options.now.hex texts) v.items)) }
        ensures failed { IfErr result (
            IsOfEitherUnion (options_of self.entry.options.now) self.entry.seed
            (images_in self.entry.options.now.sums (options_of self.entry.options.now) (S.texts self.entry.inputs.sources))) }
        ensures fallible { IfErr result (UnreadableIf S.may_fail) }
    {
        let (alloc, options, seed) = (self.alloc, self.options, self.seed);
        let mut images = Images::of(alloc, self.inputs, true, options.hex, seed);
        match united_visits(alloc, options, seed, &mut images) {
            Ok(united) => {
                remark_coarser(&images, options.lg_k, console);
                let text = visits_text(alloc, options, &united.sketch)?;
                Ok(text.into_bytes())
            }
            Err(ReadError::Failed(error)) => Err(images.read_failure(error)),
            Err(ReadError::Refused(error)) => Err(union_failure(&images, options, error)),
        }
    }

    /// What `visits` prints of all sources: of their lines, or of their images of sums.
    pub fn visit_inputs<C: Console>(self, console: &mut C) -> Result<Vec<u8>, Failure>
        requires seeded { seed_hash self.seed ≢ 0 }
        ensures printed { IfSome (S.texts self.entry.inputs.sources) (λ texts. IfOk result (λ v.
            IsVisitsText self.entry.options.now.sums (options_of self.entry.options.now) self.entry.seed texts v.items)) }
        ensures failed { IfErr result
            (IsOfVisits (options_of self.entry.options.now) self.entry.seed (S.texts self.entry.inputs.sources)) }
        ensures fallible { IfErr result (UnreadableIf S.may_fail) }
    {
        if self.options.sums {
            return self.visit_images(console);
        }
        self.visit_lines(console)
    }
}
