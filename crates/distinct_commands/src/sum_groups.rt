//! What `sum` prints of groups of lines: the exact total of each.
ghost use Rattle.std.specs.Prelude.{◌≡◌, ◌≢◌, ◌++◌, ℕ, List, IfErr, IfOk, IfSome, flat_map, string_bytes};
ghost use Rattle.sketch_base.specs.Seed.{seed_hash};
ghost use Rattle.keys_lines.specs.Lines.{lines_of_all};
ghost use Rattle.keys_sums.specs.Amounts.{AreNumbers};
ghost use Rattle.keys_totals.specs.Totals.{HasTotals, ListsTotals};
ghost use Rattle.distinct_arguments.specs.Faults.{options_of};
ghost use Rattle.distinct_arguments.specs.Settings.{chosen_group, chosen_value};
ghost use Rattle.distinct_messages.specs.Failures.{UnreadableIf};
ghost use Rattle.distinct_inputs.specs.Failures.{IsOfGroupTotals, IsOfNumbers, IsOfSum};
ghost use Rattle.distinct_commands.specs.Groups.{chosen_order, AreOrdered};
ghost use Rattle.distinct_commands.specs.Ranked.{first_items, reaching, HasTexts};
ghost use Rattle.distinct_commands.specs.SumGroups.{named_total, totals_head, IsGroupTotals, IsNextReaching};
ghost use Rattle.distinct_commands.specs.SumGroups.{IsSumText, IsTotalsText};

use crate::job::Job;
use crate::ranked::{Ranked, first_ranked_text, first_texts, reaches};
use crate::sums::number_failure;
use distinct_arguments::{Fault, Form, Options, Order};
use distinct_messages::{Console, Failure};
use keys_lines::Key;
use keys_reports::{
    named_total_json_line, named_total_line, named_total_tsv_head, named_total_tsv_row,
};
use keys_sketches::Sources;
use keys_sums::Amount;
use keys_totals::{GroupTotal, GroupTotals, TotalError, total_groups};
use std::alloc::{AllocError, Global};

/// What is printed of the total of a group of this name.
fn total_text(alloc: Global, form: Form, name: &[u8], total: u128) -> Result<Vec<u8>, AllocError>
    ensures { IfOk result (λ text. text.items ≡ named_total form name.now total) }
{
    match form {
        Form::Plain => named_total_line(alloc, name, total),
        Form::Tsv => {
            let row = named_total_tsv_row(alloc, name, total)?;
            Ok(row.into_bytes())
        }
        Form::Json => {
            let name = String::from_utf8_lossy(alloc, name)?;
            let line = named_total_json_line(alloc, name.as_str(), total)?;
            Ok(line.into_bytes())
        }
    }
}

/// What is printed before the totals of groups.
fn totals_head(alloc: Global, form: Form) -> Result<String, AllocError>
    ensures { IfOk result (λ text. string_bytes text ≡ totals_head form) }
{
    match form {
        Form::Tsv => named_total_tsv_head(alloc),
        _ => Ok(String::new(alloc)),
    }
}

/// A group with what is printed of it, to be ordered by its total.
fn ranked_total(alloc: Global, form: Form, group: GroupTotal) -> Result<Ranked, AllocError>
    ensures name { IfOk result (λ r. r.name.items ≡ group.name.items) }
    ensures number { IfOk result (λ r. r.number ≡ group.total) }
    ensures text { IfOk result (λ r. r.text.items ≡ named_total form group.name.items group.total) }
{
    let GroupTotal { name, total } = group;
    let text = total_text(alloc, form, name.as_slice(), total)?;
    Ok(Ranked {
        number: total,
        name,
        text,
    })
}

/// Takes out the groups that are left up to the first whose total is at least this number, if there is one, and returns it, or
/// `None` if there is none.
fn next_reaching(
    least: Option<u64>,
    totals: &mut GroupTotals,
) -> Result<Option<GroupTotal>, AllocError>
    ensures { (total : List ℕ → ℕ) (names : List (List ℕ))
        → ListsTotals total names totals.old
        → IfOk result (IsNextReaching least total names totals.new) }
{
    for _ in 0..u64::MAX {
        match totals.next_total() {
            Some(group) => {
                if reaches(least, group.total) {
                    return Ok(Some(group));
                }
            }
            None => return Ok(None),
        }
    }
    Err(AllocError)
}

/// The groups that are left whose total is at least that of `--min`, each with what is printed of it.
fn ranked_totals(
    alloc: Global,
    options: &Options<'_>,
    totals: &mut GroupTotals,
) -> Result<Vec<Ranked>, AllocError>
    ensures { (total : List ℕ → ℕ) (names : List (List ℕ))
        → ListsTotals total names totals.old
        → IfOk result (λ v.
        HasTexts total (λ name. named_total options.now.form name (total name))
        (reaching (options_of options.now).least total names) v.items) }
{
    let mut ranked = Vec::new(alloc);
    for _ in 0..u64::MAX {
        match next_reaching(options.least, totals) {
            Ok(Some(group)) => {
                let one = ranked_total(alloc, options.form, group)?;
                ranked.push(one)?;
            }
            Ok(None) => return Ok(ranked),
            Err(error) => return Err(error),
        }
    }
    Err(AllocError)
}

/// The texts of the first groups, as many as `--top` says, or of all, in the order that options choose.
fn ordered_texts(
    alloc: Global,
    options: &Options<'_>,
    ranked: Vec<Ranked>,
) -> Result<Vec<u8>, AllocError>
    ensures { (number : List ℕ → ℕ) (text : List ℕ → List ℕ) (names : List (List ℕ))
        → HasTexts number text names ranked.items
        → IfOk result (λ v. (ordered : List (List ℕ))
        × AreOrdered (chosen_order (options_of options.now)) number names ordered
        × (v.items ≡ flat_map text (first_items (options_of options.now).most ordered))) }
{
    match options.sort.unwrap_or(Order::Name) {
        Order::Greatest => first_ranked_text(alloc, ranked, options.most),
        Order::Name => first_texts(alloc, ranked.as_slice(), options.most),
    }
}

/// The lines of the groups that are left, in the order that options choose, after the head of a table if there is to be
/// one.
fn totals_text(
    alloc: Global,
    options: &Options<'_>,
    totals: &mut GroupTotals,
) -> Result<Vec<u8>, AllocError>
    ensures { (total : List ℕ → ℕ) (names : List (List ℕ))
        → ListsTotals total names totals.old
        → IfOk result (λ v. IsTotalsText (options_of options.now) total names v.items) }
{
    let head = totals_head(alloc, options.form)?;
    let ranked = ranked_totals(alloc, options, totals)?;
    let lines = ordered_texts(alloc, options, ranked)?;
    let mut text = head.into_bytes();
    text.extend_from_slice(lines.as_slice())?;
    Ok(text)
}

impl<'a, S: Sources + Drop> Job<'a, S> {
    /// The totals of the groups of the lines of all sources, by this key. It fails if memory is refused, a source can't
    /// be read, or a line adds no number.
    fn group_totals(self, by: Key, amount: Amount) -> Result<GroupTotals, Failure>
        ensures totals { IfSome (S.texts self.entry.inputs.sources) (λ texts.
            IfOk result (HasTotals by amount (lines_of_all texts))) }
        ensures numbers { IfSome (S.texts self.entry.inputs.sources) (λ texts.
            IfOk result (λ _. AreNumbers amount (lines_of_all texts))) }
        ensures failed { IfErr result (IsOfNumbers amount (S.texts self.entry.inputs.sources)) }
        ensures fallible { IfErr result (UnreadableIf S.may_fail) }
    {
        let alloc = self.alloc;
        let mut inputs = self.inputs;
        match total_groups(alloc, by, amount, &mut inputs) {
            Ok(totals) => Ok(totals),
            Err(TotalError::Failed(error)) => Err(inputs.read_failure(alloc, error)),
            Err(TotalError::NotANumber(line, start)) => {
                Err(number_failure(alloc, &inputs, amount, line, &start))
            }
            Err(TotalError::Memory) => Err(Failure::Memory),
        }
    }

    /// What `sum` prints of the lines of all sources by groups, by this key. It fails if no field has the lines' numbers,
    /// memory is refused, a source can't be read, or a line has no number.
    fn sum_groups(self, by: Key) -> Result<Vec<u8>, Failure>
        ensures printed { IfSome (S.texts self.entry.inputs.sources) (λ texts. IfOk result (λ v.
            IsGroupTotals (chosen_value (options_of self.entry.options.now)) by (options_of self.entry.options.now) texts v.items)) }
        ensures failed { IfErr result
            (IsOfGroupTotals (options_of self.entry.options.now) (S.texts self.entry.inputs.sources)) }
        ensures fallible { IfErr result (UnreadableIf S.may_fail) }
    {
        let (alloc, options) = (self.alloc, self.options);
        let Some(field) = options.value() else {
            return Err(Failure::Arguments(Fault::SumNeedsValue));
        };
        let mut totals = self.group_totals(by, Amount::Number(field))?;
        let text = totals_text(alloc, options, &mut totals)?;
        Ok(text)
    }

    /// What `sum` prints of the lines of all sources: of all, or of each group if the options say so.
    pub fn sum_lines<C: Console>(self, console: &mut C) -> Result<Vec<u8>, Failure>
        requires seeded { seed_hash self.seed ≢ 0 }
        ensures printed { IfSome (S.texts self.entry.inputs.sources) (λ texts. IfOk result (λ v.
            IsSumText (chosen_group (options_of self.entry.options.now)) (options_of self.entry.options.now) self.entry.seed texts v.items)) }
        ensures failed { IfErr result
            (IsOfSum (chosen_group (options_of self.entry.options.now)) (options_of self.entry.options.now)
            self.entry.seed (S.texts self.entry.inputs.sources)) }
        ensures fallible { IfErr result (UnreadableIf S.may_fail) }
    {
        match self.options.group() {
            Some(by) => self.sum_groups(by),
            None => self.sum_inputs(console),
        }
    }
}
