//! What `union`, `meet` and `minus` write.
ghost use Rattle.std.specs.Prelude.{◌≡◌, ◌≢◌, ◌≤◌, ◌⊎◌, ℕ, List, [], ◌∷◌, length, Option, None, IfOk, IfErr};
ghost use Rattle.std.specs.Prelude.{IfSome, IfNone, OnOk, true, false, Bool};
ghost use Rattle.sketch_base.specs.Seed.{seed_hash};
ghost use Rattle.sketch_base.specs.declared.error.ErrorKind.TheVariants.{OutOfMemory, InvalidData, Policy};
ghost use Rattle.theta_sketches.specs.Image.{written};
ghost use Rattle.keys_sketches.specs.Shards.{AreRead};
ghost use Rattle.distinct_arguments.specs.Faults.{options_of};
ghost use Rattle.distinct_arguments.specs.Settings.{OptionValues};
ghost use Rattle.distinct_arguments.specs.declared.commands.Operator.{Operator};
ghost use Rattle.distinct_commands.specs.Answers.{IsCombinedOf, IsExpected, IsUnionOf};
ghost use Rattle.keys_joins.specs.Joins.{intersection_of, difference_of};
ghost use Rattle.distinct_inputs.specs.Images.{remaining_images, HasNoSketch, ReadsNext};
ghost use Rattle.distinct_inputs.specs.Failures.{chosen_summary, images_in, unites_sums, AreCounted, IsOfImages, IsOfCombining, NotesNextFile};
ghost use Rattle.distinct_inputs.specs.Failures.{IsOfEitherUnion, IsOfUniting};
ghost use Rattle.distinct_messages.specs.Failures.{UnreadableIf};
ghost use Rattle.distinct_inputs.specs.Failures.{ReportsNoSketch, ReportsPastUnion};
ghost use Rattle.distinct_arguments.specs.declared.commands.Operator.TheVariants.{Union};
ghost use Rattle.distinct_inputs.specs.Seeds.{AreSeeded};
ghost use Rattle.distinct_messages.specs.declared.failure.Failure.TheVariants as failure;

use crate::commands::image_to_put;
use crate::job::Job;
use crate::sums::chosen_summary;
use distinct_arguments::{Operator, Options};
use distinct_inputs::Images;
use distinct_messages::{Console, Failure, Remark, out_of_memory};
use estimates::Deviations;
use keys_reports::report_of;
use keys_sketches::{
    ReadError, Sources, United, difference, intersection, read_image, unite_images,
};
use keys_sums::unite_sums;
use sketch_base::{Error, ErrorKind};
use std::alloc::Global;
use theta_sketches::CompactThetaSketch;

/// The failure for an image that was not read.
pub fn image_failure<S: Sources>(
    images: &Images<'_, S>,
    sums: bool,
    hex: bool,
    error: Error,
) -> Failure
    requires { (error ≡ OutOfMemory) ⊎ (error ≡ InvalidData) }
    ensures memory { error ≡ OutOfMemory → result ≡ failure.Memory }
    ensures data { error ≡ InvalidData → ReportsNoSketch sums hex images.now result }
    ensures of_images { (seed : ℕ) (all : Option (List (List ℕ)))
        → (error ≡ InvalidData → HasNoSketch sums seed all)
        → IsOfImages sums hex seed all result }
    ensures fallible { (may_fail : Bool) → UnreadableIf may_fail result }
{
    if error.kind() == ErrorKind::InvalidData {
        images.sketch_failure(sums, hex)
    } else {
        out_of_memory(error)
    }
}

/// The sketch of the next image, of this seed, or `None` at the end. It fails if memory is refused, a file can't be
/// read, or the bytes aren't an image.
pub fn next_sketch<S: Sources>(
    alloc: Global,
    seed: u64,
    hex: bool,
    images: &mut Images<'_, S>,
) -> Result<Option<CompactThetaSketch>, Failure>
    ensures seeded { IfOk result (λ next. IfSome next (λ s. s.seed_hash ≡ seed_hash seed)) }
    ensures reads { IfOk result (ReadsNext seed
        (remaining_images S.Source.remaining S.texts images.old)
        (remaining_images S.Source.remaining S.texts images.new)) }
    ensures advances { NotesNextFile images.old images.new }
    ensures failed { IfErr result (IsOfImages false hex seed (remaining_images S.Source.remaining S.texts images.old)) }
    ensures fallible { IfErr result (UnreadableIf S.may_fail) }
{
    match images.next_image() {
        Ok(Some(image)) => match read_image(alloc, seed, image.as_slice()) {
            Ok(sketch) => Ok(Some(sketch)),
            Err(error) => Err(image_failure(images, false, hex, error)),
        },
        Ok(None) => Ok(None),
        Err(error) => Err(images.read_failure(error)),
    }
}

/// Fails if a number of images is expected, and another was found.
fn check_count(expected: Option<u64>, found: u64) -> Result<(), Failure>
    ensures counted { OnOk result (IsExpected expected found) }
    ensures of_union { (options : OptionValues) (seed : ℕ) (images : Option (List (List ℕ)))
        → options.expected ≡ expected
        → AreCounted found images
        → IfErr result (IsOfEitherUnion options seed images) }
    ensures of_operator { (operator : Operator) (options : OptionValues) (seed count : ℕ)
        (texts : Option (List (List ℕ)))
        → options.expected ≡ expected
        → AreCounted found (images_in (unites_sums operator options) options texts)
        → IfErr result (IsOfCombining operator options seed count texts) }
    ensures fallible { (may_fail : Bool) → IfErr result (UnreadableIf may_fail) }
{
    match expected {
        Some(number) if number != found => Err(Failure::WrongCount(found, number)),
        _ => Ok(()),
    }
}

/// The sketches of a list that has just two.
pub fn two_of(sketches: &[CompactThetaSketch]) -> Option<(&CompactThetaSketch, &CompactThetaSketch)>
    ensures some { IfSome result (λ pair. sketches.now ≡ pair.0.now ∷ pair.1.now ∷ []) }
    ensures none { IfNone result (length sketches.now ≢ 2) }
{
    let (first, others) = sketches.split_first()?;
    let (second, more) = others.split_first()?;
    if more.is_empty() {
        Some((first, second))
    } else {
        None
    }
}

/// The union of images, of sums if the options say so. If it is refused, the failure is that of `union_failure`.
fn unite<S: Sources>(
    alloc: Global,
    options: &Options<'_>,
    seed: u64,
    images: &mut Images<'_, S>,
) -> Result<United, ReadError>
    requires seeded { seed_hash seed ≢ 0 }
    ensures united { IfSome (remaining_images S.Source.remaining S.texts images.old) (λ all.
        IfOk result (λ u. IsUnionOf options.now.sums (chosen_summary (options_of options.now)) seed options.now.lg_k all u.image.items)) }
    ensures counted { IfSome (remaining_images S.Source.remaining S.texts images.old) (λ all.
        IfOk result (λ u. u.count ≡ length all)) }
    ensures refused { IfErr result
        (IsOfUniting options.now.sums seed (remaining_images S.Source.remaining S.texts images.old)) }
{
    if options.sums {
        let mode = chosen_summary(options);
        unite_sums(alloc, mode, seed, options.lg_k, images)
    } else {
        unite_images(alloc, seed, options.lg_k, images)
    }
}

/// Remarks that an image retains more hashes than a union of 2^`lg_k` keeps, if one does.
pub fn remark_coarser<S: Sources, C: Console>(images: &Images<'_, S>, lg_k: u8, console: &mut C) {
    if let Some(coarser) = images.coarser(lg_k) {
        console.remark(Remark::Coarser(coarser));
    }
}

/// The failure for an image that was not added to a union. That the sum of a key is 2^64 or more is a failure of
/// images of sums alone.
pub fn union_failure<S: Sources>(
    images: &Images<'_, S>,
    options: &Options<'_>,
    error: Error,
) -> Failure
    requires { (error ≡ OutOfMemory) ⊎ ((error ≡ Policy) ⊎ (error ≡ InvalidData)) }
    ensures policy { error ≡ Policy → ReportsPastUnion images.now result }
    ensures data { error ≡ InvalidData → ReportsNoSketch options.now.sums options.now.hex images.now result }
    ensures of_union { (seed : ℕ) (all : Option (List (List ℕ)))
        → (error ≡ Policy → options.now.sums ≡ true)
        → (error ≡ InvalidData → HasNoSketch options.now.sums seed all)
        → IsOfEitherUnion (options_of options.now) seed all result }
    ensures fallible { (may_fail : Bool) → UnreadableIf may_fail result }
{
    match error.kind() {
        ErrorKind::Policy => images.overflow_failure(),
        ErrorKind::InvalidData => images.sketch_failure(options.sums, options.hex),
        _ => Failure::Memory,
    }
}

impl<'a, S: Sources + Drop> Job<'a, S> {
    /// The image that an operator makes of the images of `count` files.
    pub fn combine_inputs<C: Console>(
        self,
        count: usize,
        operator: Operator,
        console: &mut C,
    ) -> Result<Vec<u8>, Failure>
        requires seeded { seed_hash self.seed ≢ 0 }
        ensures combined { IfSome (S.texts self.entry.inputs.sources) (λ texts.
            IfOk result (λ v. IsCombinedOf operator (options_of self.entry.options.now) self.entry.seed texts v.items)) }
        ensures failed { IfErr result (
            IsOfCombining operator (options_of self.entry.options.now) self.entry.seed count (S.texts self.entry.inputs.sources)) }
        ensures fallible { IfErr result (UnreadableIf S.may_fail) }
    {
        let (alloc, options, seed) = (self.alloc, self.options, self.seed);
        match operator {
            Operator::Union => self.union_of_inputs(console),
            Operator::Meet => {
                let mut images = Images::new(alloc, self.inputs, options.hex, seed);
                let sketches = all_sketches(alloc, seed, options.hex, &mut images)?;
                check_count(options.expected, sketches.len() as u64)?;
                meet_image(alloc, seed, sketches.as_slice(), console)
            }
            Operator::Minus => {
                if !options.hex && count != 2 {
                    return Err(Failure::NotTwo);
                }
                let mut images = Images::new(alloc, self.inputs, options.hex, seed);
                let sketches = all_sketches(alloc, seed, options.hex, &mut images)?;
                match two_of(sketches.as_slice()) {
                    Some((first, second)) => minus_image(alloc, seed, first, second, console),
                    None => Err(Failure::NotTwo),
                }
            }
        }
    }

    /// The image of the union of the images in files, which are of sums if the options say so.
    fn union_of_inputs<C: Console>(self, console: &mut C) -> Result<Vec<u8>, Failure>
        requires seeded { seed_hash self.seed ≢ 0 }
        ensures combined { IfSome (S.texts self.entry.inputs.sources) (λ texts.
            IfOk result (λ v. IsCombinedOf Union (options_of self.entry.options.now) self.entry.seed texts v.items)) }
        ensures failed { IfErr result (
            IsOfEitherUnion (options_of self.entry.options.now) self.entry.seed
            (images_in self.entry.options.now.sums (options_of self.entry.options.now) (S.texts self.entry.inputs.sources))) }
        ensures fallible { IfErr result (UnreadableIf S.may_fail) }
    {
        let (alloc, options, seed) = (self.alloc, self.options, self.seed);
        let mut images = Images::of(alloc, self.inputs, options.sums, options.hex, seed);
        match unite(alloc, options, seed, &mut images) {
            Ok(united) => {
                check_count(options.expected, united.count)?;
                remark_coarser(&images, options.lg_k, console);
                Ok(united.image)
            }
            Err(ReadError::Failed(error)) => Err(images.read_failure(error)),
            Err(ReadError::Refused(error)) => Err(union_failure(&images, options, error)),
        }
    }
}

/// The image of a sketch. If the sketch estimates, the estimate and its bounds are remarked.
fn remarked_image<C: Console>(
    sketch: &CompactThetaSketch,
    console: &mut C,
) -> Result<Vec<u8>, Failure>
    ensures image { IfOk result (λ v. v.items ≡ written sketch.now) }
    ensures memory { IfErr result (λ f. f ≡ failure.Memory) }
{
    let report = report_of(sketch, Deviations::Two);
    if !report.exact {
        console.remark(Remark::Estimated(report));
    }
    image_to_put(sketch)
}

/// The image of the intersection of sketches of this seed. It fails if memory is refused.
fn meet_image<C: Console>(
    alloc: Global,
    seed: u64,
    sketches: &[CompactThetaSketch],
    console: &mut C,
) -> Result<Vec<u8>, Failure>
    requires seed { seed_hash seed ≢ 0 }
    requires seeded { AreSeeded seed sketches.now }
    ensures image { IfOk result (λ v. v.items ≡ written (intersection_of seed sketches.now)) }
    ensures memory { IfErr result (λ f. f ≡ failure.Memory) }
{
    match intersection(alloc, seed, sketches) {
        Ok(sketch) => remarked_image(&sketch, console),
        Err(error) => Err(out_of_memory(error)),
    }
}

/// The image of the difference of two sketches of this seed. It fails if memory is refused.
fn minus_image<C: Console>(
    alloc: Global,
    seed: u64,
    first: &CompactThetaSketch,
    second: &CompactThetaSketch,
    console: &mut C,
) -> Result<Vec<u8>, Failure>
    requires seed { seed_hash seed ≢ 0 }
    requires first { first.now.seed_hash ≡ seed_hash seed }
    requires second { second.now.seed_hash ≡ seed_hash seed }
    ensures image { IfOk result (λ v. v.items ≡ written (difference_of seed first.now second.now)) }
    ensures memory { IfErr result (λ f. f ≡ failure.Memory) }
{
    match difference(alloc, seed, first, second) {
        Ok(sketch) => remarked_image(&sketch, console),
        Err(error) => Err(out_of_memory(error)),
    }
}

/// The sketches of all images, each of this seed. It fails if memory is refused, a file can't be read, or the bytes
/// aren't an image.
pub fn all_sketches<S: Sources>(
    alloc: Global,
    seed: u64,
    hex: bool,
    images: &mut Images<'_, S>,
) -> Result<Vec<CompactThetaSketch>, Failure>
    ensures seeded { IfOk result (λ v. AreSeeded seed v.items) }
    ensures read { IfSome (remaining_images S.Source.remaining S.texts images.old) (λ all.
        IfOk result (λ v. AreRead seed all v.items)) }
    ensures failed { IfErr result (IsOfImages false hex seed (remaining_images S.Source.remaining S.texts images.old)) }
    ensures fallible { IfErr result (UnreadableIf S.may_fail) }
{
    let mut sketches = Vec::new(alloc);
    for _ in 0..u64::MAX {
        match next_sketch(alloc, seed, hex, images)? {
            Some(sketch) => sketches.push(sketch)?,
            None => return Ok(sketches),
        }
    }
    Err(Failure::Memory)
}
