//! Groups of lines, each with its sketch.
ghost use Rattle.std.specs.Prelude.{◌≡◌, ℕ, List, [], None, Some, IfOk, OnOk, true, slice_get};
ghost use Rattle.std.specs.List.Sorted.{IsPermutation, IsSorted};
ghost use Rattle.std.specs.Ordering.{nat_cmp};
ghost use Rattle.std.specs.Cmp.Lexicographic.{slice_cmp};
ghost use Rattle.core_laws.specs.Refusal.{Refuses};
ghost use Rattle.core_laws.specs.Settings.{settings_refusal};
ghost use Rattle.core_laws.specs.declared.TheConstants.{MAX_THETA};
ghost use Rattle.keys_lines.specs.declared.key.Hashing.{Hashing};
ghost use Rattle.keys_sketches.specs.Keys.{line_state, new_state, with_line};
ghost use Rattle.keys_groups.specs.Groups.{AreLeft, HasGroups, IsNext};
ghost use Rattle.keys_groups.specs.Names.{texts_of, AreNamed};
ghost use Rattle.keys_groups.specs.States.{Changes, UpdatesGroup, AddsLine, IsGrouped};
ghost use Rattle.keys_groups.specs.declared.groups.Grouping.{Grouping};

use crate::names::NameIndex;
use crate::sketched::SketchedGroups;
use keys_lines::{Hashing, Key, key_hash, key_in};
use keys_sketches::trim_and_compact;
use sketch_base::Error;
use std::alloc::Global;
use std::collections::VecDeque;
use theta_sketches::{CompactThetaSketch, ResizeFactor, ThetaSketch, ThetaSketchBuilder};

/// How lines are put into groups and sketched.
#[derive(Clone, Copy, Debug, PartialEq, Eq)]
pub struct Grouping {
    /// Which part of a line is the name of its group.
    pub by: Key,
    /// How a line is hashed.
    pub hashing: Hashing,
    /// The binary logarithm of the nominal entries of each sketch, from 4 to 26.
    pub lg_k: u8,
}

/// A group of lines.
#[derive(Drop)]
pub struct Group {
    /// Its name: the part of its lines that is the same in all of them.
    pub name: Vec<u8>,
    /// The sketch of its lines.
    pub sketch: CompactThetaSketch,
}

/// Groups of lines, each with a sketch that takes more lines.
#[derive(Drop)]
pub(crate) struct Table {
    pub(crate) entries: Vec<(Vec<u8>, ThetaSketch)>,
    pub(crate) index: NameIndex,
}

/// Groups of lines, in the ascending order of the bytes of their names.
#[derive(Drop)]
pub struct Groups {
    pub(crate) left: VecDeque<(Vec<u8>, ThetaSketch)>,
}

impl Table {
    /// No groups.
    pub(crate) fn new(alloc: Global) -> Table
        ensures grouped { (grouping : Grouping) → IsGrouped grouping [] result.entries.items }
        ensures named { AreNamed result.index result.entries.items }
    {
        Table {
            entries: Vec::new(alloc),
            index: NameIndex::new(alloc),
        }
    }

    /// Inserts a line into the group of this number and name.
    #[inline(always)]
    fn update(
        &mut self,
        hashing: Hashing,
        number: usize,
        name: &[u8],
        line: &[u8],
    ) -> Result<(), Error>
        requires named { AreNamed self.old.index self.old.entries.items }
        requires here { slice_get (texts_of self.old.entries.items) number ≡ Some name.now }
        ensures updated { OnOk result (UpdatesGroup hashing name.now line.now self.old.entries.items self.new.entries.items) }
        ensures named { OnOk result (AreNamed self.new.index self.new.entries.items) }
        ensures refused { Refuses result None true }
    {
        match self.entries.get_mut(number) {
            Some(entry) => {
                entry.1.update_hash(key_hash(hashing, line))?;
                Ok(())
            }
            None => Ok(()),
        }
    }

    /// Makes a group of this name, which has this line alone.
    fn begin(
        &mut self,
        alloc: Global,
        grouping: Grouping,
        name: &[u8],
        line: &[u8],
    ) -> Result<(), Error>
        requires settled { settings_refusal grouping.lg_k MAX_THETA grouping.hashing.seed ≡ None }
        requires named { AreNamed self.old.index self.old.entries.items }
        requires absent { (number : ℕ) → slice_get (texts_of self.old.entries.items) number ≡ Some name.now → ⊥ }
        ensures begun { OnOk result (Changes name.now
            (Some (with_line grouping.hashing (new_state grouping.hashing.seed grouping.lg_k) line.now))
            self.old.entries.items self.new.entries.items) }
        ensures named { OnOk result (AreNamed self.new.index self.new.entries.items) }
        ensures refused { Refuses result None true }
    {
        let mut sketch = small_sketch(alloc, grouping)?;
        sketch.update_hash(key_hash(grouping.hashing, line))?;
        let key = Vec::from_slice(alloc, name)?;
        self.index.add(alloc, name, self.entries.len())?;
        self.entries.push((key, sketch))?;
        Ok(())
    }

    /// Inserts a line into its group. Refused only with `OutOfMemory`.
    pub(crate) fn add_line(
        &mut self,
        alloc: Global,
        grouping: Grouping,
        line: &[u8],
    ) -> Result<(), Error>
        requires settled { settings_refusal grouping.lg_k MAX_THETA grouping.hashing.seed ≡ None }
        requires named { AreNamed self.old.index self.old.entries.items }
        ensures added { OnOk result (AddsLine grouping line.now self.old.entries.items self.new.entries.items) }
        ensures named { OnOk result (AreNamed self.new.index self.new.entries.items) }
        ensures refused { Refuses result None true }
    {
        let name = key_in(grouping.by, line);
        match self.index.find(self.entries.as_slice(), name) {
            Some(number) => self.update(grouping.hashing, number, name, line),
            None => self.begin(alloc, grouping, name, line),
        }
    }

    /// The number of groups.
    pub(crate) fn count(&self) -> usize {
        self.entries.len()
    }

    /// The groups, in the order of their names.
    pub(crate) fn into_groups(self) -> Groups
        requires named { AreNamed self.index self.entries.items }
        ensures { (grouping : Grouping) (lines : List (List ℕ))
            → IsGrouped grouping lines self.entries.items
            → HasGroups grouping lines result }
    {
        let Table { mut entries, index } = self;
        drop(index);
        sort_entries(&mut entries);
        Groups {
            left: VecDeque::from_vec(entries),
        }
    }
}

/// Sorts entries by their names.
fn sort_entries<V>(entries: &mut Vec<(Vec<u8>, V)>)
    ensures permutation { IsPermutation entries.old.items entries.new.items }
    ensures sorted { IsSorted (λ x y. slice_cmp nat_cmp x.0.items y.0.items) entries.new.items }
{
    entries.sort_unstable_by(|entry, other| entry.0.as_slice().cmp(other.0.as_slice()));
}

impl Groups {
    /// Takes out the first group of those that are left, or returns `None` if none is. Refused only with
    /// `OutOfMemory`; the group is then dropped.
    pub fn next_group(&mut self) -> Result<Option<Group>, Error>
        ensures next { (grouping : Grouping) (lines names : List (List ℕ))
            → AreLeft grouping lines names self.old
            → IfOk result (IsNext grouping lines names self.new) }
        ensures refused { Refuses result None true }
    {
        let Some((name, sketch)) = self.left.pop_front() else {
            return Ok(None);
        };
        let mut sketch = sketch;
        let sketch = trim_and_compact(&mut sketch)?;
        Ok(Some(Group { name, sketch }))
    }
}

impl SketchedGroups for Groups {
    ghost use Rattle.std.specs.Prelude.{⊤};
    ghost use Rattle.keys_groups.specs.Groups.{ListsLines};

    ghost lists = { ListsLines };

    ghost is_sound = { λ _. ⊤ };

    fn take_group(&mut self) -> Result<Option<Group>, Error> {
        self.next_group()
    }
}

/// A sketch for a new group. Its table begins with 32 slots and doubles, since most groups may be small.
fn small_sketch(alloc: Global, grouping: Grouping) -> Result<ThetaSketch, Error>
    ensures new { IfOk result (λ s. line_state s ≡ new_state grouping.hashing.seed grouping.lg_k) }
    ensures refused { Refuses result (settings_refusal grouping.lg_k MAX_THETA grouping.hashing.seed) true }
{
    ThetaSketchBuilder::default()
        .lg_k(grouping.lg_k)
        .resize_factor(ResizeFactor::X2)
        .seed(grouping.hashing.seed)
        .build(alloc)
}

/// Refuses settings that no sketch has: with `InvalidArgument` an `lg_k` that isn't from 4 to 26 or a seed whose seed
/// hash is 0, and with `OutOfMemory`.
pub(crate) fn check_settings(alloc: Global, grouping: Grouping) -> Result<(), Error>
    ensures refused { Refuses result (settings_refusal grouping.lg_k MAX_THETA grouping.hashing.seed) true }
{
    let _ = small_sketch(alloc, grouping)?;
    Ok(())
}
