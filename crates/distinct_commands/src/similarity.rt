//! What `similarity` prints: how similar the sketches in two images are.
ghost use Rattle.std.specs.Prelude.{◌≡◌, ◌≢◌, [], ◌∷◌, is_some, IfOk, IfErr, IfSome, string_bytes};
ghost use Rattle.sketch_base.specs.Seed.{seed_hash};
ghost use Rattle.distinct_arguments.specs.Faults.{options_of};
ghost use Rattle.distinct_inputs.specs.Seeds.{AreSeeded};
ghost use Rattle.distinct_messages.specs.Failures.{UnreadableIf};
ghost use Rattle.distinct_messages.specs.declared.failure.Failure.TheVariants as failure;
ghost use Rattle.keys_joins.specs.Joins.{intersection_of, difference_of};
ghost use Rattle.distinct_commands.specs.Failing.{IsOfPair};
ghost use Rattle.distinct_commands.specs.Similarity.{comparison_of, counted_of, nonempty_of, similarity_in, similarity_text};
ghost use Rattle.distinct_commands.specs.Similarity.{IsComparedOf};

use crate::combine::{all_sketches, two_of};
use crate::job::Job;
use crate::show::chosen_deviations;
use distinct_arguments::{Form, Options};
use distinct_inputs::Images;
use distinct_messages::{Failure, out_of_memory};
use estimates::Deviations;
use keys_reports::report_of;
use keys_sketches::{Sources, difference, intersection};
use similarities::{
    Nonempty, Overlap, Similarity, similarity_json_line, similarity_line, similarity_of,
    similarity_tsv_head, similarity_tsv_row,
};
use std::alloc::{AllocError, Global};
use theta_sketches::CompactThetaSketch;

/// How many of two sketches aren't empty.
fn nonempty_of(first_empty: bool, second_empty: bool) -> Nonempty
    ensures { result ≡ nonempty_of first_empty second_empty }
{
    match (first_empty, second_empty) {
        (true, true) => Nonempty::Neither,
        (false, false) => Nonempty::Both,
        _ => Nonempty::One,
    }
}

/// What is counted of a sketch.
#[derive(Debug, Clone, Copy)]
pub struct Counted {
    /// How many hashes it retains.
    pub retained: u32,
    /// Its estimate, rounded to the nearest whole number; a half is rounded up.
    pub estimate: u128,
}

/// What is counted of a sketch.
fn counted_of(sketch: &CompactThetaSketch) -> Counted
    ensures { result ≡ counted_of sketch.now }
{
    let report = report_of(sketch, Deviations::Two);
    Counted {
        retained: sketch.num_retained() as u32,
        estimate: report.estimate,
    }
}

/// What is counted of the intersection of sketches of this seed. It fails if memory is refused.
fn shared_count(
    alloc: Global,
    seed: u64,
    sketches: &[CompactThetaSketch],
) -> Result<Counted, Failure>
    requires seed { seed_hash seed ≢ 0 }
    requires seeded { AreSeeded seed sketches.now }
    ensures count { IfOk result (λ n. n ≡ counted_of (intersection_of seed sketches.now)) }
    ensures memory { IfErr result (λ f. f ≡ failure.Memory) }
{
    match intersection(alloc, seed, sketches) {
        Ok(sketch) => Ok(counted_of(&sketch)),
        Err(error) => Err(out_of_memory(error)),
    }
}

/// What is counted of the difference of two sketches of this seed. It fails if memory is refused.
fn lone_count(
    alloc: Global,
    seed: u64,
    first: &CompactThetaSketch,
    second: &CompactThetaSketch,
) -> Result<Counted, Failure>
    requires seed { seed_hash seed ≢ 0 }
    requires first { first.now.seed_hash ≡ seed_hash seed }
    requires second { second.now.seed_hash ≡ seed_hash seed }
    ensures count { IfOk result (λ n. n ≡ counted_of (difference_of seed first.now second.now)) }
    ensures memory { IfErr result (λ f. f ≡ failure.Memory) }
{
    match difference(alloc, seed, first, second) {
        Ok(sketch) => Ok(counted_of(&sketch)),
        Err(error) => Err(out_of_memory(error)),
    }
}

/// What two sketches have in common, and what each has alone.
#[derive(Debug, Clone, Copy)]
pub struct Comparison {
    /// What they retain below the lesser of their thetas.
    pub overlap: Overlap,
    /// The estimate of their intersection.
    pub both: u128,
    /// The estimate of what the first has and the second lacks.
    pub first: u128,
    /// The estimate of what the second has and the first lacks.
    pub second: u128,
}

/// What two sketches of this seed, which are those of a list, have in common, and each alone. It fails if memory is
/// refused.
pub fn comparison_of(
    alloc: Global,
    seed: u64,
    sketches: &[CompactThetaSketch],
    first: &CompactThetaSketch,
    second: &CompactThetaSketch,
) -> Result<Comparison, Failure>
    requires seed { seed_hash seed ≢ 0 }
    requires seeded { AreSeeded seed sketches.now }
    requires both { sketches.now ≡ first.now ∷ second.now ∷ [] }
    ensures comparison { IfOk result (λ c. c ≡ comparison_of seed first.now second.now) }
    ensures memory { IfErr result (λ f. f ≡ failure.Memory) }
{
    let shared = shared_count(alloc, seed, sketches)?;
    let of_first = lone_count(alloc, seed, first, second)?;
    let of_second = lone_count(alloc, seed, second, first)?;
    let overlap = Overlap {
        nonempty: nonempty_of(first.is_empty(), second.is_empty()),
        shared: shared.retained,
        first: of_first.retained,
        second: of_second.retained,
        theta: first.theta64().min(second.theta64()),
    };
    Ok(Comparison {
        overlap,
        both: shared.estimate,
        first: of_first.estimate,
        second: of_second.estimate,
    })
}

/// A similarity as it is printed.
fn printed(
    alloc: Global,
    options: &Options<'_>,
    similarity: Similarity,
) -> Result<String, AllocError>
    ensures { IfOk result (λ text. string_bytes text ≡ similarity_in options.now.form (is_some options.now.bounds) similarity) }
{
    match options.form {
        Form::Plain => similarity_line(alloc, similarity, options.bounds.is_some()),
        Form::Tsv => {
            let mut text = similarity_tsv_head(alloc)?;
            let row = similarity_tsv_row(alloc, similarity)?;
            text.push_str(row.as_str())?;
            Ok(text)
        }
        Form::Json => similarity_json_line(alloc, similarity),
    }
}

/// What is printed of two sketches of this seed, which are those of a list. It fails if memory is refused.
fn similarity_text(
    alloc: Global,
    options: &Options<'_>,
    seed: u64,
    sketches: &[CompactThetaSketch],
    first: &CompactThetaSketch,
    second: &CompactThetaSketch,
) -> Result<Vec<u8>, Failure>
    requires seed { seed_hash seed ≢ 0 }
    requires seeded { AreSeeded seed sketches.now }
    requires both { sketches.now ≡ first.now ∷ second.now ∷ [] }
    ensures text { IfOk result (λ v. v.items ≡ similarity_text (options_of options.now) seed first.now second.now) }
    ensures memory { IfErr result (λ f. f ≡ failure.Memory) }
{
    let compared = comparison_of(alloc, seed, sketches, first, second)?;
    let similarity = similarity_of(compared.overlap, chosen_deviations(options));
    let text = printed(alloc, options, similarity)?;
    Ok(text.into_bytes())
}

impl<'a, S: Sources + Drop> Job<'a, S> {
    /// What `similarity` prints of the images of `count` files.
    pub fn compare_inputs(self, count: usize) -> Result<Vec<u8>, Failure>
        requires seeded { seed_hash self.seed ≢ 0 }
        ensures compared { IfSome (S.texts self.entry.inputs.sources) (λ texts.
            IfOk result (λ v. IsComparedOf (options_of self.entry.options.now) self.entry.seed texts v.items)) }
        ensures failed { IfErr result (
            IsOfPair (options_of self.entry.options.now) self.entry.seed count (S.texts self.entry.inputs.sources)) }
        ensures fallible { IfErr result (UnreadableIf S.may_fail) }
    {
        let (alloc, options, seed) = (self.alloc, self.options, self.seed);
        if !options.hex && count != 2 {
            return Err(Failure::NotTwo);
        }
        let mut images = Images::new(alloc, self.inputs, options.hex, seed);
        let sketches = all_sketches(alloc, seed, options.hex, &mut images)?;
        let all = sketches.as_slice();
        match two_of(all) {
            Some((first, second)) => similarity_text(alloc, options, seed, all, first, second),
            None => Err(Failure::NotTwo),
        }
    }
}
