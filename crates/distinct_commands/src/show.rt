//! What `count` and `show` print of sketches.
ghost use Rattle.std.specs.List.{list_all};
ghost use Rattle.std.specs.Prelude.{◌≡◌, ◌≢◌, true, false, None, Some, IfOk, IfErr, IfSome, OnOk, string_bytes};
ghost use Rattle.sketch_base.specs.Seed.{seed_hash};
ghost use Rattle.distinct_arguments.specs.Faults.{options_of};
ghost use Rattle.distinct_commands.specs.Showing.{AreShownByName, AreShown, IsShownOf, AreOfOne, EndsShow};
ghost use Rattle.distinct_commands.specs.Showing.{ShowsNext, PassesNext, SeesNext, IfPassed, IsAppended, NamesFile};
ghost use Rattle.distinct_inputs.specs.Lists.{names_of};
ghost use Rattle.distinct_messages.specs.Failures.{display_name, is_fault, IsOfOne, UnreadableIf};
ghost use Rattle.distinct_inputs.specs.Failures.{IsOfImages, NotesNextFile};
ghost use Rattle.distinct_messages.specs.declared.failure.Failure.TheVariants as failure;
ghost use Rattle.distinct_inputs.specs.Images.{remaining_images};
ghost use Rattle.distinct_commands.specs.Texts.{chosen_deviations, count_text, counted_line, file_count_text, named_counted_line};
ghost use Rattle.distinct_commands.specs.Texts.{shown_text, head_of};

use crate::combine::image_failure;
use crate::job::{Answer, Job};
use distinct_arguments::{Form, Options};
use distinct_inputs::{Images, read_any_seed};
use distinct_messages::{Console, Failure, Remark, display_name};
use estimates::Deviations;
use keys_reports::{
    Report, count_line, human_line, json_line, named_count_line, named_human_line, report_of,
    shown_line, tsv_head, tsv_row,
};
use keys_sketches::Sources;
use std::alloc::{AllocError, Global};
use theta_sketches::CompactThetaSketch;

/// The standard deviations of bounds: those of `--bounds`, or two.
pub fn chosen_deviations(options: &Options<'_>) -> Deviations
    ensures { result ≡ chosen_deviations (options_of options.now) }
{
    options.bounds.unwrap_or(Deviations::Two)
}

/// The line of a count: for people with `--human`, else its numbers, with bounds if they are chosen.
pub fn counted_line(
    alloc: Global,
    options: &Options<'_>,
    report: Report,
) -> Result<String, AllocError>
    ensures { IfOk result (λ text. string_bytes text ≡ counted_line (options_of options.now) report) }
{
    if options.human {
        human_line(alloc, report)
    } else {
        count_line(alloc, report, options.bounds.is_some())
    }
}

/// What `count` prints of a sketch.
pub fn count_text(
    alloc: Global,
    options: &Options<'_>,
    sketch: &CompactThetaSketch,
) -> Result<String, AllocError>
    ensures { IfOk result (λ text. string_bytes text ≡ count_text (options_of options.now) sketch.now) }
{
    let report = report_of(sketch, chosen_deviations(options));
    match options.form {
        Form::Plain => counted_line(alloc, options, report),
        Form::Tsv => {
            let mut text = tsv_head(alloc, false)?;
            let row = tsv_row(alloc, None, report)?;
            text.push_str(row.as_str())?;
            Ok(text)
        }
        Form::Json => json_line(alloc, None, report),
    }
}

/// The line of a count with a name behind it: for people with `--human`, else its numbers, with bounds if they are chosen.
fn named_counted_line(
    alloc: Global,
    options: &Options<'_>,
    name: &str,
    report: Report,
) -> Result<String, AllocError>
    ensures { IfOk result (λ text. string_bytes text ≡ named_counted_line (options_of options.now) name.now report) }
{
    if options.human {
        named_human_line(alloc, name, report)
    } else {
        named_count_line(alloc, name, report, options.bounds.is_some())
    }
}

/// What `count --per-file` prints of the sketch of a file of this name.
pub fn file_count_text(
    alloc: Global,
    options: &Options<'_>,
    name: &str,
    sketch: &CompactThetaSketch,
) -> Result<String, AllocError>
    ensures { IfOk result (λ text. string_bytes text ≡ file_count_text (options_of options.now) name.now sketch.now) }
{
    let report = report_of(sketch, chosen_deviations(options));
    match options.form {
        Form::Plain => named_counted_line(alloc, options, name, report),
        Form::Tsv => tsv_row(alloc, Some(name.as_bytes()), report),
        Form::Json => json_line(alloc, Some(name), report),
    }
}

/// Remarks that a count is an estimate, if it is one and is printed as a number alone.
pub fn remark_rough<C: Console>(
    options: &Options<'_>,
    sketch: &CompactThetaSketch,
    console: &mut C,
) {
    if options.form != Form::Plain || options.human || options.bounds.is_some() {
        return;
    }
    let report = report_of(sketch, Deviations::Two);
    if !report.exact {
        console.remark(Remark::Rough(report));
    }
}

/// What `show` prints before all sketches.
pub fn head_of(alloc: Global, form: Form) -> Result<String, AllocError>
    ensures { IfOk result (λ text. string_bytes text ≡ head_of form) }
{
    if form == Form::Tsv {
        tsv_head(alloc, true)
    } else {
        Ok(String::new(alloc))
    }
}

/// What `show` prints of a sketch.
pub fn shown_text(
    alloc: Global,
    options: &Options<'_>,
    name: &str,
    sketch: &CompactThetaSketch,
) -> Result<String, AllocError>
    ensures { IfOk result (λ text. string_bytes text ≡ shown_text (options_of options.now) name.now sketch.now) }
{
    let report = report_of(sketch, chosen_deviations(options));
    match options.form {
        Form::Plain => shown_line(alloc, name, report),
        Form::Tsv => tsv_row(alloc, Some(name.as_bytes()), report),
        Form::Json => json_line(alloc, Some(name), report),
    }
}

/// The sketch of the next image, of whatever seed, or `None` at the end. It fails if memory is refused, a file can't be
/// read, or the bytes are an image of no seed; the next image is then that behind these bytes, or that of the next file.
fn next_of_any_seed<S: Sources>(
    alloc: Global,
    seed: u64,
    hex: bool,
    images: &mut Images<'_, S>,
) -> Result<Option<CompactThetaSketch>, Failure>
    requires seeded { seed_hash seed ≢ 0 }
    ensures reads { IfOk result (ShowsNext
        (remaining_images S.Source.remaining S.texts images.old)
        (remaining_images S.Source.remaining S.texts images.new)) }
    ensures failed { IfErr result (IsOfImages false hex seed None) }
    ensures passes { IfErr result (PassesNext
        (remaining_images S.Source.remaining S.texts images.old)
        (remaining_images S.Source.remaining S.texts images.new)) }
    ensures advances { NotesNextFile images.old images.new }
    ensures names { hex ≡ false → IfErr result (NamesFile (display_name images.new.inputs.current.now)) }
    ensures fallible { IfErr result (UnreadableIf S.may_fail) }
{
    match images.next_image() {
        Ok(Some(image)) => match read_any_seed(alloc, seed, image.as_slice()) {
            Ok(sketch) => Ok(Some(sketch)),
            Err(error) => Err(image_failure(images, false, hex, error)),
        },
        Ok(None) => Ok(None),
        Err(error) => {
            let failure = images.read_failure(error);
            images.leave();
            Err(failure)
        }
    }
}

/// Remarks that the image that was read last, which is that of this sketch, was made with another seed, if it was.
fn remark_seed<S: Sources, C: Console>(
    images: &Images<'_, S>,
    sketch: &CompactThetaSketch,
    console: &mut C,
) {
    if let Some(other) = images.other_seed(sketch) {
        console.remark(Remark::OtherSeed(other));
    }
}

/// What the next image is: a sketch, or bytes or a file to be passed over, for this reason.
#[derive(Drop)]
enum Seen {
    Sketch(CompactThetaSketch),
    Passed(Failure),
}

/// The next image, of whatever seed, or `None` at the end. An image of another seed than this one is remarked. It fails
/// if memory is refused, or if standard input can't be read.
fn see_next<S: Sources, C: Console>(
    alloc: Global,
    seed: u64,
    hex: bool,
    images: &mut Images<'_, S>,
    console: &mut C,
) -> Result<Option<Seen>, Failure>
    requires seeded { seed_hash seed ≢ 0 }
    ensures sees { IfOk result (SeesNext
        (remaining_images S.Source.remaining S.texts images.old)
        (remaining_images S.Source.remaining S.texts images.new)) }
    ensures of_one { IfOk result (λ next. IfPassed next (λ f. IsOfOne f × UnreadableIf S.may_fail f)) }
    ensures advances { NotesNextFile images.old images.new }
    ensures names { hex ≡ false →
        IfOk result (λ next. IfPassed next (NamesFile (display_name images.new.inputs.current.now))) }
    ensures ends { IfErr result EndsShow }
    ensures fallible { IfErr result (UnreadableIf S.may_fail) }
{
    match next_of_any_seed(alloc, seed, hex, images) {
        Ok(Some(sketch)) => {
            remark_seed(images, &sketch, console);
            Ok(Some(Seen::Sketch(sketch)))
        }
        Ok(None) => Ok(None),
        Err(failure) => {
            if failure.is_of_one() {
                Ok(Some(Seen::Passed(failure)))
            } else {
                Err(failure)
            }
        }
    }
}

/// Appends what is shown of an image under this name, or the failure for which it is passed over.
fn put_seen(
    alloc: Global,
    options: &Options<'_>,
    name: &str,
    seen: Seen,
    answer: &mut Answer,
) -> Result<(), Failure>
    ensures appended { OnOk result (IsAppended (options_of options.now) name.now seen
        answer.old.bytes.items answer.old.passed.items answer.new.bytes.items answer.new.passed.items) }
    ensures memory { IfErr result (λ f. f ≡ failure.Memory) }
{
    match seen {
        Seen::Sketch(sketch) => {
            let text = shown_text(alloc, options, name, &sketch)?;
            answer.bytes.extend_from_slice(text.as_bytes())?;
            Ok(())
        }
        Seen::Passed(failure) => {
            answer.passed.push(failure)?;
            Ok(())
        }
    }
}

impl<'a, S: Sources + Drop> Job<'a, S> {
    /// One line per image, of whatever seed, after the head of a table if there is to be one. What is no image, and a
    /// file that can't be read, is passed over.
    pub fn show_inputs<C: Console>(
        self,
        files: &[String],
        console: &mut C,
    ) -> Result<Answer, Failure>
        requires seeded { seed_hash self.seed ≢ 0 }
        requires named { self.inputs.left.now ≡ files.now }
        ensures shown { IfSome (S.texts self.entry.inputs.sources) (λ texts. IfOk result (λ a.
            IsShownOf (options_of self.entry.options.now) (names_of files.now) texts a.bytes.items a.passed.items)) }
        ensures of_one { IfOk result (λ a. AreOfOne S.may_fail a.passed.items) }
        ensures ends { IfErr result EndsShow }
        ensures fallible { IfErr result (UnreadableIf S.may_fail) }
    {
        let (alloc, options, seed) = (self.alloc, self.options, self.seed);
        let mut images = Images::of_any_seed(alloc, self.inputs, options.hex, seed);
        let head = head_of(alloc, options.form)?;
        let lines = if options.hex {
            show_lines(alloc, options, seed, &mut images, console)?
        } else {
            show_files(alloc, options, seed, files, &mut images, console)?
        };
        let mut bytes = head.into_bytes();
        bytes.extend_from_slice(lines.bytes.as_slice())?;
        Ok(Answer {
            bytes,
            passed: lines.passed,
        })
    }
}

/// One line per image, if each line of the files has an image.
fn show_lines<S: Sources, C: Console>(
    alloc: Global,
    options: &Options<'_>,
    seed: u64,
    images: &mut Images<'_, S>,
    console: &mut C,
) -> Result<Answer, Failure>
    requires seeded { seed_hash seed ≢ 0 }
    ensures shown { IfSome (remaining_images S.Source.remaining S.texts images.old) (λ all. IfOk result (λ a.
        list_all is_fault a.passed.items ≡ true
        → AreShown (options_of options.now) all a.bytes.items a.passed.items)) }
    ensures of_one { IfOk result (λ a. AreOfOne S.may_fail a.passed.items) }
    ensures ends { IfErr result EndsShow }
    ensures fallible { IfErr result (UnreadableIf S.may_fail) }
{
    let mut answer = Answer {
        bytes: Vec::new(alloc),
        passed: Vec::new(alloc),
    };
    for _ in 0..u64::MAX {
        let Some(seen) = see_next(alloc, seed, options.hex, images, console)? else {
            return Ok(answer);
        };
        put_seen(alloc, options, images.name(), seen, &mut answer)?;
    }
    Err(Failure::Memory)
}

/// One line per image, under the file's name, if each file is an image.
fn show_files<S: Sources, C: Console>(
    alloc: Global,
    options: &Options<'_>,
    seed: u64,
    files: &[String],
    images: &mut Images<'_, S>,
    console: &mut C,
) -> Result<Answer, Failure>
    requires seeded { seed_hash seed ≢ 0 }
    requires whole { options.now.hex ≡ false }
    requires images { images.now.hex ≡ false }
    requires named { images.now.inputs.left.now ≡ files.now }
    ensures shown { IfSome (remaining_images S.Source.remaining S.texts images.old) (λ all. IfOk result (λ a.
        list_all is_fault a.passed.items ≡ true
        → AreShownByName (options_of options.now) (names_of files.now) all a.bytes.items a.passed.items)) }
    ensures of_one { IfOk result (λ a. AreOfOne S.may_fail a.passed.items) }
    ensures ends { IfErr result EndsShow }
    ensures fallible { IfErr result (UnreadableIf S.may_fail) }
{
    let mut answer = Answer {
        bytes: Vec::new(alloc),
        passed: Vec::new(alloc),
    };
    let mut left = files;
    while let Some((file, others)) = left.split_first() {
        let Some(seen) = see_next(alloc, seed, options.hex, images, console)? else {
            return Ok(answer);
        };
        put_seen(
            alloc,
            options,
            display_name(file.as_str()),
            seen,
            &mut answer,
        )?;
        left = others;
    }
    Ok(answer)
}
