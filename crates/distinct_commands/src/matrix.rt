//! What `matrix` prints: how similar each two of the sketches in images are.
ghost use Rattle.std.specs.Prelude.{◌≡◌, ◌≢◌, ◌++◌, [], ◌∷◌, false, is_some, length, map, IfOk, IfErr, IfSome, OnOk};
ghost use Rattle.std.specs.Prelude.{string_bytes};
ghost use Rattle.sketch_base.specs.Seed.{seed_hash};
ghost use Rattle.keys_sketches.specs.Shards.{AreRead};
ghost use Rattle.distinct_arguments.specs.Faults.{options_of};
ghost use Rattle.distinct_inputs.specs.Failures.{IsOfImages};
ghost use Rattle.distinct_inputs.specs.Images.{remaining_images};
ghost use Rattle.distinct_inputs.specs.Lists.{names_of};
ghost use Rattle.distinct_inputs.specs.Seeds.{AreSeeded};
ghost use Rattle.distinct_messages.specs.Failures.{display_name, UnreadableIf};
ghost use Rattle.distinct_messages.specs.declared.failure.Failure.TheVariants as failure;
ghost use Rattle.distinct_commands.specs.Failing.{IsOfPairs};
ghost use Rattle.distinct_commands.specs.Matrix.{matrix_head, named_of, pair_columns, pair_fields, pair_in, pair_text};
ghost use Rattle.distinct_commands.specs.Matrix.{pairs_text, row_text, sketches_in, AreNamed, IsMatrixOf};

use crate::combine::next_sketch;
use crate::job::Job;
use crate::show::chosen_deviations;
use crate::similarity::{Comparison, comparison_of};
use distinct_arguments::{Form, Options};
use distinct_inputs::Images;
use distinct_messages::{Failure, out_of_memory};
use keys_reports::{escaped_name, put_json_string};
use keys_sketches::Sources;
use similarities::{
    Similarity, put_similarity_json_rest, similarity_line, similarity_of, similarity_tsv_row,
};
use std::alloc::{AllocError, Global};
use theta_sketches::CompactThetaSketch;

/// A sketch, and the name under which it is printed.
#[derive(Drop)]
struct Named {
    name: String,
    sketch: CompactThetaSketch,
}

/// The name of the image that was read last: that of its file, and with `hex` the number of its line behind it.
fn name_of<S: Sources>(
    alloc: Global,
    hex: bool,
    images: &Images<'_, S>,
) -> Result<String, AllocError>
    ensures { hex ≡ false → IfOk result (λ text. string_bytes text ≡ display_name images.now.inputs.current.now) }
{
    let name = images.name();
    if hex {
        let line = images.line();
        format!(in alloc; "{name}:{line}")
    } else {
        String::from_str(alloc, name)
    }
}

/// The sketches of all images, each of this seed, with their names. It fails if memory is refused, a file can't be
/// read, or the bytes aren't an image.
fn named_sketches<S: Sources>(
    alloc: Global,
    seed: u64,
    hex: bool,
    images: &mut Images<'_, S>,
) -> Result<Vec<Named>, Failure>
    requires form { images.now.hex ≡ hex }
    ensures seeded { IfOk result (λ v. AreSeeded seed (sketches_in (map named_of v.items))) }
    ensures read { IfSome (remaining_images S.Source.remaining S.texts images.old) (λ all.
        IfOk result (λ v. AreRead seed all (sketches_in (map named_of v.items)))) }
    ensures named { hex ≡ false → IfOk result (λ v. AreNamed (names_of images.old.inputs.left.now) (map named_of v.items)) }
    ensures failed { IfErr result (IsOfImages false hex seed (remaining_images S.Source.remaining S.texts images.old)) }
    ensures fallible { IfErr result (UnreadableIf S.may_fail) }
{
    let mut named = Vec::new(alloc);
    for _ in 0..u64::MAX {
        match next_sketch(alloc, seed, hex, images)? {
            Some(sketch) => {
                let name = name_of(alloc, hex, images)?;
                named.push(Named { name, sketch })?;
            }
            None => return Ok(named),
        }
    }
    Err(Failure::Memory)
}

/// Appends a copy of a sketch to a list. It fails if memory is refused.
fn push_copy(
    sketches: &mut Vec<CompactThetaSketch>,
    sketch: &CompactThetaSketch,
) -> Result<(), Failure>
    ensures pushed { OnOk result (sketches.new.items ≡ sketches.old.items ++ sketch.now ∷ []) }
    ensures memory { IfErr result (λ f. f ≡ failure.Memory) }
{
    match sketch.clone() {
        Ok(copy) => {
            sketches.push(copy)?;
            Ok(())
        }
        Err(error) => Err(out_of_memory(error)),
    }
}

/// Copies of two sketches, in a list. It fails if memory is refused.
fn pair_of(
    alloc: Global,
    first: &CompactThetaSketch,
    second: &CompactThetaSketch,
) -> Result<Vec<CompactThetaSketch>, Failure>
    ensures pair { IfOk result (λ v. v.items ≡ first.now ∷ second.now ∷ []) }
    ensures memory { IfErr result (λ f. f ≡ failure.Memory) }
{
    let mut pair = Vec::new(alloc);
    push_copy(&mut pair, first)?;
    push_copy(&mut pair, second)?;
    Ok(pair)
}

/// How the line of a pair begins: with both names, the estimates of what both have, and each alone, and tabs behind.
fn pair_columns(
    alloc: Global,
    first: &str,
    second: &str,
    compared: Comparison,
) -> Result<String, AllocError>
    ensures { IfOk result (λ text. string_bytes text ≡ pair_columns first.now second.now compared) }
{
    let both = compared.both;
    let first_only = compared.first;
    let second_only = compared.second;
    let mut line = escaped_name(alloc, first)?;
    line.push_str("\t")?;
    let other = escaped_name(alloc, second)?;
    line.push_str(other.as_str())?;
    write!(line, "\t{both}\t{first_only}\t{second_only}\t")?;
    Ok(line)
}

/// How the JSON object of a pair begins: with the fields of both names and of the estimates.
fn pair_fields(
    alloc: Global,
    first: &str,
    second: &str,
    compared: Comparison,
) -> Result<String, AllocError>
    ensures { IfOk result (λ text. string_bytes text ≡ pair_fields first.now second.now compared) }
{
    let both = compared.both;
    let first_only = compared.first;
    let second_only = compared.second;
    let mut line = String::from_str(alloc, "{\"first\":")?;
    put_json_string(&mut line, first)?;
    line.push_str(",\"second\":")?;
    put_json_string(&mut line, second)?;
    write!(
        line,
        ",\"both\":{both},\"first_only\":{first_only},\"second_only\":{second_only},"
    )?;
    Ok(line)
}

/// The line of a pair of these names.
fn pair_line(
    alloc: Global,
    options: &Options<'_>,
    first: &str,
    second: &str,
    compared: Comparison,
    similarity: Similarity,
) -> Result<String, AllocError>
    ensures { IfOk result (λ text. string_bytes text
        ≡ pair_in options.now.form (is_some options.now.bounds) first.now second.now compared similarity) }
{
    match options.form {
        Form::Plain => {
            let mut line = pair_columns(alloc, first, second, compared)?;
            let rest = similarity_line(alloc, similarity, options.bounds.is_some())?;
            line.push_str(rest.as_str())?;
            Ok(line)
        }
        Form::Tsv => {
            let mut line = pair_columns(alloc, first, second, compared)?;
            let rest = similarity_tsv_row(alloc, similarity)?;
            line.push_str(rest.as_str())?;
            Ok(line)
        }
        Form::Json => {
            let mut line = pair_fields(alloc, first, second, compared)?;
            put_similarity_json_rest(&mut line, similarity)?;
            Ok(line)
        }
    }
}

/// The line of two sketches of this seed. It fails if memory is refused.
fn pair_text(
    alloc: Global,
    options: &Options<'_>,
    seed: u64,
    first: &Named,
    second: &Named,
) -> Result<Vec<u8>, Failure>
    requires seed { seed_hash seed ≢ 0 }
    requires first { first.now.sketch.seed_hash ≡ seed_hash seed }
    requires second { second.now.sketch.seed_hash ≡ seed_hash seed }
    ensures text { IfOk result (λ v.
        v.items ≡ pair_text (options_of options.now) seed (named_of first.now) (named_of second.now)) }
    ensures memory { IfErr result (λ f. f ≡ failure.Memory) }
{
    let pair = pair_of(alloc, &first.sketch, &second.sketch)?;
    let compared = comparison_of(alloc, seed, pair.as_slice(), &first.sketch, &second.sketch)?;
    let similarity = similarity_of(compared.overlap, chosen_deviations(options));
    let line = pair_line(
        alloc,
        options,
        first.name.as_str(),
        second.name.as_str(),
        compared,
        similarity,
    )?;
    Ok(line.into_bytes())
}

/// The lines of a sketch and each of others, all of this seed. It fails if memory is refused.
fn row_text(
    alloc: Global,
    options: &Options<'_>,
    seed: u64,
    first: &Named,
    others: &[Named],
) -> Result<Vec<u8>, Failure>
    requires seed { seed_hash seed ≢ 0 }
    requires first { first.now.sketch.seed_hash ≡ seed_hash seed }
    requires others { AreSeeded seed (sketches_in (map named_of others.now)) }
    ensures text { IfOk result (λ v.
        v.items ≡ row_text (options_of options.now) seed (named_of first.now) (map named_of others.now)) }
    ensures memory { IfErr result (λ f. f ≡ failure.Memory) }
{
    let mut text = Vec::new(alloc);
    let mut left = others;
    while let Some((second, more)) = left.split_first() {
        let line = pair_text(alloc, options, seed, first, second)?;
        text.extend_from_slice(line.as_slice())?;
        left = more;
    }
    Ok(text)
}

/// The lines of all pairs of sketches of this seed. It fails if memory is refused.
fn pairs_text(
    alloc: Global,
    options: &Options<'_>,
    seed: u64,
    sketches: &[Named],
) -> Result<Vec<u8>, Failure>
    requires seed { seed_hash seed ≢ 0 }
    requires seeded { AreSeeded seed (sketches_in (map named_of sketches.now)) }
    ensures text { IfOk result (λ v. v.items ≡ pairs_text (options_of options.now) seed (map named_of sketches.now)) }
    ensures memory { IfErr result (λ f. f ≡ failure.Memory) }
{
    let mut text = Vec::new(alloc);
    let mut left = sketches;
    while let Some((first, others)) = left.split_first() {
        let row = row_text(alloc, options, seed, first, others)?;
        text.extend_from_slice(row.as_slice())?;
        left = others;
    }
    Ok(text)
}

/// What is printed before all lines.
fn matrix_head(alloc: Global, form: Form) -> Result<String, AllocError>
    ensures { IfOk result (λ text. string_bytes text ≡ matrix_head form) }
{
    match form {
        Form::Tsv => String::from_str(
            alloc,
            "first\tsecond\tboth\tfirst_only\tsecond_only\tsimilarity\tlower\tupper\texact\tshared\tunited\ttheta\n",
        ),
        _ => Ok(String::new(alloc)),
    }
}

/// The lines of all pairs of sketches of this seed, after the head of a table if there is to be one. It fails if
/// memory is refused.
fn matrix_text(
    alloc: Global,
    options: &Options<'_>,
    seed: u64,
    sketches: &[Named],
) -> Result<Vec<u8>, Failure>
    requires seed { seed_hash seed ≢ 0 }
    requires seeded { AreSeeded seed (sketches_in (map named_of sketches.now)) }
    ensures text { IfOk result (λ v. v.items
        ≡ matrix_head options.now.form ++ pairs_text (options_of options.now) seed (map named_of sketches.now)) }
    ensures memory { IfErr result (λ f. f ≡ failure.Memory) }
{
    let head = matrix_head(alloc, options.form)?;
    let pairs = pairs_text(alloc, options, seed, sketches)?;
    let mut text = head.into_bytes();
    text.extend_from_slice(pairs.as_slice())?;
    Ok(text)
}

impl<'a, S: Sources + Drop> Job<'a, S> {
    /// What `matrix` prints of the images of the files of these names, which are those of the sources.
    pub fn compare_each(self, files: &[String]) -> Result<Vec<u8>, Failure>
        requires seeded { seed_hash self.seed ≢ 0 }
        requires named { self.inputs.left.now ≡ files.now }
        ensures printed { IfSome (S.texts self.entry.inputs.sources) (λ texts. IfOk result (λ v.
            IsMatrixOf (options_of self.entry.options.now) self.entry.seed (names_of files.now) texts v.items)) }
        ensures failed { IfErr result (
            IsOfPairs (options_of self.entry.options.now) self.entry.seed (length files.now)
            (S.texts self.entry.inputs.sources)) }
        ensures fallible { IfErr result (UnreadableIf S.may_fail) }
    {
        let (alloc, options, seed) = (self.alloc, self.options, self.seed);
        if !options.hex && files.len() < 2 {
            return Err(Failure::NotTwo);
        }
        let mut images = Images::new(alloc, self.inputs, options.hex, seed);
        let sketches = named_sketches(alloc, seed, options.hex, &mut images)?;
        if sketches.len() < 2 {
            return Err(Failure::NotTwo);
        }
        matrix_text(alloc, options, seed, sketches.as_slice())
    }
}
