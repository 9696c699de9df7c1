//! The result of an expression over the groups of files, for each name that any of them has.
ghost use Rattle.std.specs.Prelude.{◌≡◌, ◌≤◌, ℕ, List, length, None, true, IfOk, IfErr, IfSome};
ghost use Rattle.std.specs.List.Sorted.{IsStrictlySortedBy};
ghost use Rattle.std.specs.Map.{keys_of};
ghost use Rattle.std.specs.Ordering.{nat_cmp};
ghost use Rattle.std.specs.Cmp.Lexicographic.{slice_cmp};
ghost use Rattle.core_laws.specs.Refusal.{Refuses};
ghost use Rattle.core_laws.specs.Settings.{settings_refusal};
ghost use Rattle.core_laws.specs.declared.TheConstants.{MAX_LG_K, MAX_THETA};
ghost use Rattle.expression_text.specs.Expressions.{Expression, postfix, HasIndicesBelow};
ghost use Rattle.keys_sketches.specs.Keys.{HaveSameLines};
ghost use Rattle.keys_groups.specs.Names.{texts_of};
ghost use Rattle.keys_groups.specs.United.{FailsIf};
ghost use Rattle.keys_joins.specs.Tables.{FileGroups, HasGroupsOf, AreTablesOf};
ghost use Rattle.keys_joins.specs.Reading.{IsJoinError};
ghost use Rattle.keys_joins.specs.Evaluated.{evaluated_group, group_or_empty, groups_in, names_in, HasEvaluated};

use crate::joins::met;
use crate::reading::tables_of;
use crate::tables::SketchTable;
use core_laws::MAX_LG_K;
use expression_evaluation::evaluate;
use expression_text::Step;
use keys_groups::{Group, SketchedGroups, UniteError};
use keys_sketches::Sources;
use sketch_base::Error;
use std::alloc::{AllocError, Global};
use std::collections::BTreeMap;
use theta_sketches::CompactThetaSketch;

/// The groups that any of several files has, in the ascending order of the bytes of their names, each with the result
/// of an expression over its sketches in the files.
#[derive(Drop)]
pub struct EvaluatedGroups<'a> {
    alloc: Global,
    seed: u64,
    lg_k: u8,
    steps: &'a [Step],
    tables: Vec<SketchTable>,
    /// The names that are left.
    names: BTreeMap<Vec<u8>, ()>,
}

/// A copy of the sketch of the group of this name; the empty sketch of this seed if there is no such group. Refused
/// only with `OutOfMemory`.
fn group_or_empty(
    alloc: Global,
    seed: u64,
    table: &SketchTable,
    name: &[u8],
) -> Result<CompactThetaSketch, Error>
    ensures sketch { (file : FileGroups)
        → HasGroupsOf file table.now.map
        → IfOk result (λ s. s ≡ group_or_empty seed file name.now) }
    ensures refused { Refuses result None true }
{
    match table.sketch_of(name) {
        Some(sketch) => sketch.clone(),
        None => met(alloc, seed, &[]),
    }
}

/// The sketches of the group of this name in all tables, the empty one for each that lacks it. Refused only with
/// `OutOfMemory`.
fn groups_in(
    alloc: Global,
    seed: u64,
    tables: &[SketchTable],
    name: &[u8],
) -> Result<Vec<CompactThetaSketch>, Error>
    ensures all { (files : List FileGroups)
        → AreTablesOf files tables.now
        → IfOk result (λ v. v.items ≡ groups_in seed files name.now) }
    ensures refused { Refuses result None true }
{
    let mut sketches = Vec::new(alloc);
    let mut left = tables;
    while let Some((table, more)) = left.split_first() {
        let sketch = group_or_empty(alloc, seed, table, name)?;
        sketches.push(sketch)?;
        left = more;
    }
    Ok(sketches)
}

/// The result of an expression over the groups of this name. Over sketches of one seed it is refused only for memory,
/// so this is what any refusal is reported as.
fn evaluated_group(
    alloc: Global,
    seed: u64,
    lg_k: u8,
    steps: &[Step],
    tables: &[SketchTable],
    name: &[u8],
) -> Result<CompactThetaSketch, Error>
    ensures sketch { (files : List FileGroups) (tree : Expression)
        → AreTablesOf files tables.now
        → steps.now ≡ postfix tree
        → HasIndicesBelow (length files) tree
        → IfOk result (λ s. s ≡ evaluated_group seed lg_k tree files name.now) }
    ensures refused { Refuses result None true }
{
    let sketches = groups_in(alloc, seed, tables, name)?;
    match evaluate(alloc, seed, lg_k, steps, sketches.as_slice()) {
        Ok(sketch) => Ok(sketch),
        Err(_) => Err(Error::from(AllocError)),
    }
}

/// The names that any table has, each once. Refused only with `OutOfMemory`. That they ascend is a clause of `len`.
fn all_names(alloc: Global, tables: &[SketchTable]) -> Result<BTreeMap<Vec<u8>, ()>, Error>
    ensures names { IfOk result (λ names. HaveSameLines (texts_of names.entries) (names_in tables.now)) }
    ensures ascending { IfOk result (λ names.
        IsStrictlySortedBy (λ x y. slice_cmp nat_cmp x.items y.items) (keys_of names.entries)) }
    ensures refused { Refuses result None true }
{
    let mut names = BTreeMap::new(alloc);
    let mut left = tables;
    while let Some((table, more)) = left.split_first() {
        table.put_names(alloc, &mut names)?;
        left = more;
    }
    let _ = names.len();
    Ok(names)
}

impl EvaluatedGroups<'_> {
    /// How many files were read.
    pub fn files(&self) -> usize
        ensures { result ≡ length self.now.tables.items }
    {
        self.tables.len()
    }
}

impl SketchedGroups for EvaluatedGroups<'_> {
    ghost use Rattle.std.specs.Prelude.{⊤};
    ghost use Rattle.keys_joins.specs.Evaluated.{ListsEvaluated};

    ghost lists = { ListsEvaluated };

    ghost is_sound = { λ groups. ⊤ };

    fn take_group(&mut self) -> Result<Option<Group>, Error> {
        let Some((name, _)) = self.names.pop_first() else {
            return Ok(None);
        };
        let sketch = evaluated_group(
            self.alloc,
            self.seed,
            self.lg_k,
            self.steps,
            self.tables.as_slice(),
            name.as_slice(),
        )?;
        Ok(Some(Group { name, sketch }))
    }
}

/// The groups that any of several texts has in its lines, each with the result of an expression over its sketches in
/// the texts, whose steps are in postfix order. The nth name of the expression is that of the nth text. A line of a
/// text has the name of a group, a tab, and an image in hexadecimal digits. The images of one name in a text are
/// united with 2^26 nominal entries, so no hash is dropped; a text without the group has the empty sketch there. A
/// union in the expression keeps at most 2^`lg_k` hashes.
///
/// The steps are not checked: if there are other numbers of texts and of names, the groups may be refused with
/// `OutOfMemory`, so compare `files` with the names. Refused only with `OutOfMemory`. If a source fails, or can't be
/// opened, its error is returned: only if sources may fail, so never for texts in memory. A flaw is returned only for
/// the first line of a text that has one, with its number in its text.
pub fn evaluate_groups<'a, S: Sources>(
    alloc: Global,
    seed: u64,
    lg_k: u8,
    steps: &'a [Step],
    sources: &mut S,
) -> Result<EvaluatedGroups<'a>, UniteError>
    requires settled { settings_refusal MAX_LG_K MAX_THETA seed ≡ None }
    ensures evaluated { IfSome (S.texts sources.old) (λ texts. IfOk result (HasEvaluated seed lg_k steps.now texts)) }
    ensures failed { IfErr result (IsJoinError seed (S.texts sources.old)) }
    ensures fallible { IfErr result (FailsIf S.may_fail) }
{
    let tables = tables_of(alloc, seed, MAX_LG_K, sources)?;
    let names = all_names(alloc, tables.as_slice())?;
    Ok(EvaluatedGroups {
        alloc,
        seed,
        lg_k,
        steps,
        tables,
        names,
    })
}
