//! What is printed or written of groups.
ghost use Rattle.std.specs.Prelude.{◌≡◌, ◌≢◌, ◌++◌, ℕ, List, IfOk, IfErr, IfSome, string_bytes};
ghost use Rattle.sketch_base.specs.Seed.{seed_hash};
ghost use Rattle.keys_lines.specs.Lines.{lines_of_all};
ghost use Rattle.core_compact.specs.CompactState.{Compact};
ghost use Rattle.keys_groups.specs.Groups.{HasGroups};
ghost use Rattle.distinct_arguments.specs.Faults.{options_of};
ghost use Rattle.distinct_messages.specs.Failures.{UnreadableIf};
ghost use Rattle.distinct_inputs.specs.Failures.{IsOfReading};
ghost use Rattle.keys_groups.specs.Files.{AreFilesOf};
ghost use Rattle.distinct_commands.specs.Groups.{grouping_of, group_text, group_line, groups_text, groups_head, shown_group};
ghost use Rattle.distinct_commands.specs.Groups.{group_estimate, chosen_order, counted_names, AreOrdered, IsNextCounted};
ghost use Rattle.distinct_commands.specs.Groups.{IsGroupsText};
ghost use Rattle.distinct_commands.specs.Ranked.{AreRanked, first_items, reaches};
ghost use Rattle.distinct_commands.specs.Texts.{report_by};
ghost use Rattle.distinct_messages.specs.declared.failure.Failure.TheVariants as failure;

use crate::commands::image_to_put;
use crate::job::Job;
use crate::ranked::{Ranked, first_ranked_text, is_full, one_less, reaches};
use crate::show::{chosen_deviations, counted_line, head_of};
use distinct_arguments::{Form, Options, Order};
use distinct_inputs::Inputs;
use distinct_messages::{Console, Failure, out_of_memory};
use keys_groups::{
    Group, GroupFile, Grouping, Groups, SketchedGroups, files_of, group_sources, image_line,
};
use keys_lines::{Hashing, Key};
use keys_reports::{json_line, report_of, shown_line, tsv_row};
use keys_sketches::{ReadError, Sources};
use std::alloc::{AllocError, Global};
use theta_sketches::CompactThetaSketch;

/// What the line of a group has.
#[derive(Clone, Copy, Debug, PartialEq, Eq)]
pub enum Listing {
    /// Its count.
    Counts,
    /// Its image, as a line has it.
    Images,
    /// What `show` prints of it.
    Shown,
}

/// What is printed of the count of a group of this name.
fn group_text(
    alloc: Global,
    options: &Options<'_>,
    name: &[u8],
    sketch: &CompactThetaSketch,
) -> Result<Vec<u8>, AllocError>
    ensures { IfOk result (λ text. text.items ≡ group_text (options_of options.now) name.now sketch.now) }
{
    let report = report_of(sketch, chosen_deviations(options));
    match options.form {
        Form::Plain => {
            let line = counted_line(alloc, options, report)?;
            let mut text = Vec::from_slice(alloc, name)?;
            text.push(b'\t')?;
            text.extend_from_slice(line.as_bytes())?;
            Ok(text)
        }
        Form::Tsv => {
            let row = tsv_row(alloc, Some(name), report)?;
            Ok(row.into_bytes())
        }
        Form::Json => {
            let name = String::from_utf8_lossy(alloc, name)?;
            let line = json_line(alloc, Some(name.as_str()), report)?;
            Ok(line.into_bytes())
        }
    }
}

/// What `show` prints of a group of this name.
fn shown_group(
    alloc: Global,
    options: &Options<'_>,
    name: &[u8],
    sketch: &CompactThetaSketch,
) -> Result<Vec<u8>, AllocError>
    ensures { IfOk result (λ text.
        text.items ≡ shown_group options.now.form (options_of options.now) name.now sketch.now) }
{
    match options.form {
        Form::Plain => {
            let report = report_of(sketch, chosen_deviations(options));
            let name = String::from_utf8_lossy(alloc, name)?;
            let line = shown_line(alloc, name.as_str(), report)?;
            Ok(line.into_bytes())
        }
        Form::Tsv => group_text(alloc, options, name, sketch),
        Form::Json => group_text(alloc, options, name, sketch),
    }
}

/// Whether a group with this sketch is printed: whether its estimate is at least that of `--min`, if there is one.
fn is_counted(options: &Options<'_>, sketch: &CompactThetaSketch) -> bool
    ensures { result ≡ reaches (options_of options.now).least (report_by (options_of options.now) sketch.now).estimate }
{
    if options.least.is_none() {
        return true;
    }
    let report = report_of(sketch, chosen_deviations(options));
    reaches(options.least, report.estimate)
}

/// How groups are printed, in the form that options choose. Of those whose estimate
/// is at least that of `--min` the first ones are printed, as many as `--top` says, or all.
#[derive(Clone, Copy)]
pub struct GroupPrinter<'a> {
    pub alloc: Global,
    pub options: &'a Options<'a>,
    pub listing: Listing,
}

impl<'a> GroupPrinter<'a> {
    /// The line of a group of this name. It fails if memory is refused.
    fn line(self, name: &[u8], sketch: &CompactThetaSketch) -> Result<Vec<u8>, Failure>
        ensures line { IfOk result (λ text.
            text.items ≡ group_line self.entry.listing (options_of self.entry.options.now) name.now sketch.now) }
        ensures memory { IfErr result (λ f. f ≡ failure.Memory) }
    {
        match self.listing {
            Listing::Counts => Ok(group_text(self.alloc, self.options, name, sketch)?),
            Listing::Images => {
                let image = image_to_put(sketch)?;
                Ok(image_line(self.alloc, name, image.as_slice())?)
            }
            Listing::Shown => Ok(shown_group(self.alloc, self.options, name, sketch)?),
        }
    }

    /// Takes out the groups that are left up to the first whose estimate is at least that of `--min`, and returns it,
    /// or `None` if there is none. It fails if memory is refused.
    fn next_counted<G: SketchedGroups>(self, groups: &mut G) -> Result<Option<Group>, Failure>
        requires sound { G.is_sound groups.old }
        ensures next { (sketch : List ℕ → Compact ℕ) (names : List (List ℕ))
            → G.lists sketch names groups.old
            → IfOk result (IsNextCounted (G.lists sketch) (options_of self.entry.options.now) sketch names groups.new) }
        ensures sound { G.is_sound groups.new }
        ensures memory { IfErr result (λ f. f ≡ failure.Memory) }
    {
        for _ in 0..u64::MAX {
            match groups.take_group() {
                Ok(Some(group)) => {
                    if is_counted(self.options, &group.sketch) {
                        return Ok(Some(group));
                    }
                }
                Ok(None) => return Ok(None),
                Err(error) => return Err(out_of_memory(error)),
            }
        }
        Err(Failure::Memory)
    }

    /// The lines of groups, one after another. It fails if memory is refused.
    fn groups_text<G: SketchedGroups>(self, groups: &mut G) -> Result<Vec<u8>, Failure>
        requires sound { G.is_sound groups.old }
        ensures printed { (sketch : List ℕ → Compact ℕ) (names : List (List ℕ))
            → G.lists sketch names groups.old
            → IfOk result (λ v.
            v.items ≡ groups_text self.entry.listing (options_of self.entry.options.now) sketch
            (first_items (options_of self.entry.options.now).most
            (counted_names (options_of self.entry.options.now) sketch names))) }
        ensures memory { IfErr result (λ f. f ≡ failure.Memory) }
    {
        let mut printed = Vec::new(self.alloc);
        let mut room = self.options.most;
        for _ in 0..u64::MAX {
            if is_full(room) {
                return Ok(printed);
            }
            match self.next_counted(groups) {
                Ok(Some(group)) => {
                    let line = self.line(group.name.as_slice(), &group.sketch)?;
                    printed.extend_from_slice(line.as_slice())?;
                    room = one_less(room);
                }
                Ok(None) => return Ok(printed),
                Err(failure) => return Err(failure),
            }
        }
        Err(Failure::Memory)
    }

    /// A group with its line, to be ordered by its estimate. It fails if memory is refused.
    fn ranked(self, group: Group) -> Result<Ranked, Failure>
        ensures name { IfOk result (λ r. r.name.items ≡ group.name.items) }
        ensures estimate { IfOk result (λ r.
            r.number ≡ (report_by (options_of self.entry.options.now) group.sketch).estimate) }
        ensures text { IfOk result (λ r.
            r.text.items
            ≡ group_line self.entry.listing (options_of self.entry.options.now) group.name.items group.sketch) }
        ensures memory { IfErr result (λ f. f ≡ failure.Memory) }
    {
        let Group { name, sketch } = group;
        let report = report_of(&sketch, chosen_deviations(self.options));
        let text = self.line(name.as_slice(), &sketch)?;
        Ok(Ranked {
            number: report.estimate,
            name,
            text,
        })
    }

    /// The lines of groups, one after another, in the order of their estimates. It fails if memory is refused.
    fn ranked_groups_text<G: SketchedGroups>(self, groups: &mut G) -> Result<Vec<u8>, Failure>
        requires sound { G.is_sound groups.old }
        ensures printed { (sketch : List ℕ → Compact ℕ) (names : List (List ℕ))
            → G.lists sketch names groups.old
            → IfOk result (λ v. (ordered : List (List ℕ))
            × AreRanked (group_estimate (options_of self.entry.options.now) sketch)
            (counted_names (options_of self.entry.options.now) sketch names) ordered
            × (v.items ≡ groups_text self.entry.listing (options_of self.entry.options.now) sketch
            (first_items (options_of self.entry.options.now).most ordered))) }
        ensures memory { IfErr result (λ f. f ≡ failure.Memory) }
    {
        let mut ranked = Vec::new(self.alloc);
        for _ in 0..u64::MAX {
            match self.next_counted(groups) {
                Ok(Some(group)) => {
                    let one = self.ranked(group)?;
                    ranked.push(one)?;
                }
                Ok(None) => return Ok(first_ranked_text(self.alloc, ranked, self.options.most)?),
                Err(failure) => return Err(failure),
            }
        }
        Err(Failure::Memory)
    }

    /// The lines of groups, one after another, in the order that options choose. It fails if memory is refused.
    fn ordered_text<G: SketchedGroups>(self, groups: &mut G) -> Result<Vec<u8>, Failure>
        requires sound { G.is_sound groups.old }
        ensures printed { (sketch : List ℕ → Compact ℕ) (names : List (List ℕ))
            → G.lists sketch names groups.old
            → IfOk result (λ v. (ordered : List (List ℕ))
            × AreOrdered (chosen_order (options_of self.entry.options.now))
            (group_estimate (options_of self.entry.options.now) sketch)
            (counted_names (options_of self.entry.options.now) sketch names) ordered
            × (v.items ≡ groups_text self.entry.listing (options_of self.entry.options.now) sketch
            (first_items (options_of self.entry.options.now).most ordered))) }
        ensures memory { IfErr result (λ f. f ≡ failure.Memory) }
    {
        match self.options.sort.unwrap_or(Order::Name) {
            Order::Greatest => self.ranked_groups_text(groups),
            Order::Name => self.groups_text(groups),
        }
    }

    /// The head of a table of groups, if there is to be one.
    fn head(self) -> Result<String, AllocError>
        ensures { IfOk result (λ text.
            string_bytes text ≡ groups_head self.entry.listing (options_of self.entry.options.now)) }
    {
        if self.listing == Listing::Images {
            Ok(String::new(self.alloc))
        } else {
            head_of(self.alloc, self.options.form)
        }
    }

    /// The lines of groups, in the order that options choose, after the head of a table if there is to be one. It
    /// fails if memory is refused.
    pub fn table<G: SketchedGroups>(self, groups: &mut G) -> Result<Vec<u8>, Failure>
        requires sound { G.is_sound groups.old }
        ensures printed { (sketch : List ℕ → Compact ℕ) (names : List (List ℕ))
            → G.lists sketch names groups.old
            → IfOk result (λ v.
            IsGroupsText self.entry.listing (options_of self.entry.options.now) sketch names v.items) }
        ensures memory { IfErr result (λ f. f ≡ failure.Memory) }
    {
        let head = self.head()?;
        let lines = self.ordered_text(groups)?;
        let mut printed = head.into_bytes();
        printed.extend_from_slice(lines.as_slice())?;
        Ok(printed)
    }
}

/// The file of each group of the lines of all sources in turn, by this key. It fails if memory is refused or a source
/// can't be read.
pub fn group_files<S: Sources + Drop, C: Console>(
    alloc: Global,
    options: &Options<'_>,
    seed: u64,
    by: Key,
    inputs: Inputs<'_, S>,
    console: &mut C,
) -> Result<Vec<GroupFile>, Failure>
    requires seeded { seed_hash seed ≢ 0 }
    ensures files { IfSome (S.texts inputs.entry.sources) (λ texts.
        IfOk result (λ v. AreFilesOf options.now.hex (grouping_of (options_of options.now) seed by) (lines_of_all texts) v.items)) }
    ensures failed { IfErr result IsOfReading }
    ensures fallible { IfErr result (UnreadableIf S.may_fail) }
{
    let job = Job {
        alloc,
        options,
        seed,
        inputs,
    };
    let mut groups = job.read_groups(by, console)?;
    match files_of(alloc, options.hex, &mut groups) {
        Ok(files) => Ok(files),
        Err(error) => Err(out_of_memory(error)),
    }
}

impl<'a, S: Sources + Drop> Job<'a, S> {
    /// The groups of the lines of all sources in turn, by this key. It fails if memory is refused or a source can't
    /// be read.
    pub fn read_groups<C: Console>(self, by: Key, console: &mut C) -> Result<Groups, Failure>
        requires seeded { seed_hash self.seed ≢ 0 }
        ensures grouped { IfSome (S.texts self.entry.inputs.sources) (λ texts.
            IfOk result (HasGroups (grouping_of (options_of self.entry.options.now) self.entry.seed by) (lines_of_all texts))) }
        ensures failed { IfErr result IsOfReading }
        ensures fallible { IfErr result (UnreadableIf S.may_fail) }
    {
        let (alloc, options, seed) = (self.alloc, self.options, self.seed);
        let mut inputs = self.inputs;
        let grouping = Grouping {
            by,
            hashing: Hashing {
                key: options.key(),
                seed,
            },
            lg_k: options.lg_k,
        };
        match group_sources(alloc, grouping, &mut inputs, console) {
            Ok(groups) => Ok(groups),
            Err(ReadError::Failed(error)) => Err(inputs.read_failure(alloc, error)),
            Err(ReadError::Refused(error)) => Err(out_of_memory(error)),
        }
    }
}
