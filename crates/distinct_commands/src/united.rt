//! What `union`, `meet` and `minus` write, and `count` and `show` print, of images by groups.
ghost use Rattle.std.specs.Prelude.{◌≡◌, ◌≢◌, ◌≤◌, ◌<◌, ◌^◌, ℕ, List, Option, IfOk, IfErr, IfSome, IfNone, Bool};
ghost use Rattle.sketch_base.specs.Seed.{seed_hash};
ghost use Rattle.keys_lines.specs.Lines.{lines_of_all};
ghost use Rattle.keys_groups.specs.United.{AreSound, FailsIf, HasFirstFlawed, HasUnions, IsUnitedText};
ghost use Rattle.distinct_arguments.specs.Faults.{options_of};
ghost use Rattle.distinct_messages.specs.Failures.{UnreadableIf};
ghost use Rattle.distinct_inputs.specs.Failures.{IsOfGroups, ReportsFlawed};
ghost use Rattle.keys_joins.specs.Joins.{IsMeetText, IsMinusText};
ghost use Rattle.keys_joins.specs.Reading.{HasFlawedIn, IsJoinError};
ghost use Rattle.distinct_commands.specs.Answers.{IsCombinedGroups};
ghost use Rattle.distinct_commands.specs.Failing.{IsOfJoin, IsOfMinus, IsOfCombinedGroups};
ghost use Rattle.distinct_commands.specs.Groups.{IsUnitedListing};

use crate::groups::{GroupPrinter, Listing};
use crate::job::Job;
use distinct_arguments::Operator;
use distinct_inputs::Inputs;
use distinct_messages::{Coarser, Console, Failure, Remark, display_name, out_of_memory};
use keys_groups::{LineFlaw, UniteError, UnitedGroups, unite_groups, united_text};
use keys_joins::{meet_groups, minus_groups};
use keys_sketches::Sources;
use std::alloc::Global;

/// The failure for a line with this flaw: its number, from 1, and the name of its file in messages.
fn line_failure(alloc: Global, name: &str, line: u64, flaw: LineFlaw) -> Failure
    ensures reports { ReportsFlawed name.now line flaw result }
    ensures of_groups { (seed : ℕ) (texts : Option (List (List ℕ)))
        → IfSome texts (HasFirstFlawed seed line flaw)
        → IsOfGroups seed texts result }
    ensures of_join { (seed : ℕ) (texts : Option (List (List ℕ)))
        → IfSome texts (HasFlawedIn seed line flaw)
        → IsOfJoin seed texts result }
    ensures fallible { (may_fail : Bool) → UnreadableIf may_fail result }
{
    let Ok(name) = String::from_str(alloc, name) else {
        return Failure::Memory;
    };
    match flaw {
        LineFlaw::NoTab => Failure::NoTab(name, line),
        LineFlaw::NoHex => Failure::NoHex(name, line),
        LineFlaw::NoImage(flaw) => Failure::NoSketch(name, line, flaw),
    }
}

/// The remark that an image in the file of this name retains this many hashes, if these are more than 2^`lg_k`.
fn warning_of(name: &str, retained: u64, lg_k: u8) -> Option<Coarser<'_>>
    ensures some { IfSome result (λ c.
        (2 ^ lg_k < retained) × (c.retained ≡ retained) × (c.lg_k ≡ lg_k) × (c.name.now ≡ name.now)) }
    ensures none { IfNone result (retained ≤ 2 ^ lg_k) }
{
    if lg_k < 64 && 1u64 << lg_k < retained {
        Some(Coarser {
            name,
            retained,
            lg_k,
        })
    } else {
        None
    }
}

/// The name, in messages, of the file of this number, from 1.
fn name_at(names: &[String], number: u64) -> &str {
    match names.get(number.saturating_sub(1) as usize) {
        Some(name) => display_name(name.as_str()),
        None => "an image",
    }
}

/// Remarks that the image in the file of this name retains more hashes than 2^`lg_k`, if it does.
fn remark_coarser<C: Console>(name: &str, retained: u64, lg_k: u8, console: &mut C) {
    if let Some(coarser) = warning_of(name, retained, lg_k) {
        console.remark(Remark::Coarser(coarser));
    }
}

/// The failure of files of groups that were not joined.
pub fn join_failure<S: Sources>(alloc: Global, inputs: &Inputs<'_, S>, error: UniteError) -> Failure
    ensures failed { (seed : ℕ) (texts : Option (List (List ℕ)))
        → IsJoinError seed texts error
        → IsOfJoin seed texts result }
    ensures fallible { FailsIf S.may_fail error → UnreadableIf S.may_fail result }
{
    match error {
        UniteError::Failed(error) => inputs.read_failure(alloc, error),
        UniteError::Flawed(line, flaw) => line_failure(alloc, inputs.name(), line, flaw),
        UniteError::Refused(_) => Failure::Memory,
    }
}

impl<'a, S: Sources + Drop> Job<'a, S> {
    /// The groups of all lines, each with the union of its images. It fails if memory is refused, a file can't be
    /// read, or a line isn't that of a group with an image.
    fn read_unions<C: Console>(self, console: &mut C) -> Result<UnitedGroups, Failure>
        requires seeded { seed_hash self.seed ≢ 0 }
        ensures united { IfSome (S.texts self.entry.inputs.sources) (λ texts.
            IfOk result (HasUnions self.entry.seed self.entry.options.now.lg_k (lines_of_all texts))) }
        ensures sound { IfOk result AreSound }
        ensures failed { IfErr result (IsOfGroups self.entry.seed (S.texts self.entry.inputs.sources)) }
        ensures fallible { IfErr result (UnreadableIf S.may_fail) }
    {
        let (alloc, options, seed) = (self.alloc, self.options, self.seed);
        let mut inputs = self.inputs;
        let names = inputs.names_left();
        match unite_groups(alloc, seed, options.lg_k, &mut inputs) {
            Ok(groups) => {
                let name = name_at(names, groups.most_source());
                remark_coarser(name, groups.most_retained(), options.lg_k, console);
                Ok(groups)
            }
            Err(UniteError::Failed(error)) => Err(inputs.read_failure(alloc, error)),
            Err(UniteError::Flawed(line, flaw)) => Err(line_failure(
                alloc,
                inputs.name(),
                line,
                flaw,
            )),
            Err(UniteError::Refused(error)) => Err(out_of_memory(error)),
        }
    }

    /// A line for each group of all lines, with the image of the union of its images. It fails if memory is refused,
    /// a file can't be read, or a line isn't that of a group with an image.
    pub fn unite_inputs<C: Console>(self, console: &mut C) -> Result<Vec<u8>, Failure>
        requires seeded { seed_hash self.seed ≢ 0 }
        ensures united { IfSome (S.texts self.entry.inputs.sources) (λ texts.
            IfOk result (λ v. IsUnitedText self.entry.seed self.entry.options.now.lg_k (lines_of_all texts) v.items)) }
        ensures failed { IfErr result (IsOfGroups self.entry.seed (S.texts self.entry.inputs.sources)) }
        ensures fallible { IfErr result (UnreadableIf S.may_fail) }
    {
        let alloc = self.alloc;
        let mut groups = self.read_unions(console)?;
        match united_text(alloc, &mut groups) {
            Ok(text) => Ok(text),
            Err(error) => Err(out_of_memory(error)),
        }
    }

    /// What is printed of the groups of all lines, each with the union of its images. It fails as `unite_inputs` does.
    pub fn list_unions<C: Console>(
        self,
        listing: Listing,
        console: &mut C,
    ) -> Result<Vec<u8>, Failure>
        requires seeded { seed_hash self.seed ≢ 0 }
        ensures listed { IfSome (S.texts self.entry.inputs.sources) (λ texts.
            IfOk result (λ v. IsUnitedListing listing (options_of self.entry.options.now) self.entry.seed texts v.items)) }
        ensures failed { IfErr result (IsOfGroups self.entry.seed (S.texts self.entry.inputs.sources)) }
        ensures fallible { IfErr result (UnreadableIf S.may_fail) }
    {
        let (alloc, options) = (self.alloc, self.options);
        let mut groups = self.read_unions(console)?;
        let printer = GroupPrinter {
            alloc,
            options,
            listing,
        };
        printer.table(&mut groups)
    }

    /// A line for each group that all files have, with the image of the intersection.
    fn meet_inputs(self) -> Result<Vec<u8>, Failure>
        requires seeded { seed_hash self.seed ≢ 0 }
        ensures met { IfSome (S.texts self.entry.inputs.sources) (λ texts.
            IfOk result (λ v. IsMeetText self.entry.seed self.entry.options.now.lg_k texts v.items)) }
        ensures failed { IfErr result (IsOfJoin self.entry.seed (S.texts self.entry.inputs.sources)) }
        ensures fallible { IfErr result (UnreadableIf S.may_fail) }
    {
        let (alloc, options, seed) = (self.alloc, self.options, self.seed);
        let mut inputs = self.inputs;
        match meet_groups(alloc, seed, options.lg_k, &mut inputs) {
            Ok(text) => Ok(text),
            Err(error) => Err(join_failure(alloc, &inputs, error)),
        }
    }

    /// A line for each group of the first of two files, with the image of the difference.
    fn minus_inputs(self, count: usize) -> Result<Vec<u8>, Failure>
        requires seeded { seed_hash self.seed ≢ 0 }
        ensures difference { IfSome (S.texts self.entry.inputs.sources) (λ texts.
            IfOk result (λ v. IsMinusText self.entry.seed self.entry.options.now.lg_k texts v.items)) }
        ensures failed { IfErr result (IsOfMinus self.entry.seed count (S.texts self.entry.inputs.sources)) }
        ensures fallible { IfErr result (UnreadableIf S.may_fail) }
    {
        if count != 2 {
            return Err(Failure::NotTwo);
        }
        let (alloc, options, seed) = (self.alloc, self.options, self.seed);
        let mut inputs = self.inputs;
        match minus_groups(alloc, seed, options.lg_k, &mut inputs) {
            Ok(Some(text)) => Ok(text),
            Ok(None) => Err(Failure::NotTwo),
            Err(error) => Err(join_failure(alloc, &inputs, error)),
        }
    }

    /// A line for each group of the result of an operator on the groups of images in `count` files.
    pub fn combine_groups<C: Console>(
        self,
        count: usize,
        operator: Operator,
        console: &mut C,
    ) -> Result<Vec<u8>, Failure>
        requires seeded { seed_hash self.seed ≢ 0 }
        ensures combined { IfSome (S.texts self.entry.inputs.sources) (λ texts.
            IfOk result (λ v. IsCombinedGroups operator self.entry.seed self.entry.options.now.lg_k texts v.items)) }
        ensures failed { IfErr result
            (IsOfCombinedGroups operator self.entry.seed count (S.texts self.entry.inputs.sources)) }
        ensures fallible { IfErr result (UnreadableIf S.may_fail) }
    {
        match operator {
            Operator::Union => self.unite_inputs(console),
            Operator::Meet => self.meet_inputs(),
            Operator::Minus => self.minus_inputs(count),
        }
    }
}
