//! Groups, each with the total of what its lines add.
ghost use Rattle.std.specs.Prelude.{◌≡◌, ℕ, List, [], OnOk, Some};
ghost use Rattle.keys_lines.specs.declared.key.Key.{Key};
ghost use Rattle.keys_sums.specs.declared.addends.Amount.{Amount};
ghost use Rattle.keys_totals.specs.Totals.{total_after, AddsTotal, AreTotalled, IsNextTotal, ListsTotals, SetsTotal};
ghost use Rattle.keys_totals.specs.Totals.{UpdatesTotal};

use std::alloc::{AllocError, Global};
use std::collections::BTreeMap;

/// A group of lines.
#[derive(Drop)]
pub struct GroupTotal {
    /// Its name: the part of its lines that is the same in all of them.
    pub name: Vec<u8>,
    /// The total of what its lines add, below 2^128. 2^128 - 1 stands for any greater total, which takes more than 2^64
    /// lines.
    pub total: u128,
}

/// The totals of groups of lines, in the ascending order of the bytes of their names.
#[derive(Drop)]
pub struct GroupTotals {
    pub(crate) map: BTreeMap<Vec<u8>, u128>,
}

impl GroupTotals {
    /// No groups.
    pub(crate) fn new(alloc: Global) -> GroupTotals
        ensures { (by : Key) (amount : Amount) → AreTotalled by amount [] result.map }
    {
        GroupTotals {
            map: BTreeMap::new(alloc),
        }
    }

    /// Adds a number to the total of the group of this name, if there is one. Returns whether there is.
    fn update(&mut self, name: &[u8], number: u64) -> bool
        ensures { UpdatesTotal name.now number self.old.map self.new.map result }
    {
        match self.map.get_mut(name) {
            Some(total) => {
                *total = total.saturating_add(number as u128);
                true
            }
            None => false,
        }
    }

    /// Makes a group of this name, which has this number as its total. An older group of the name is dropped.
    fn begin(&mut self, alloc: Global, name: &[u8], number: u64) -> Result<(), AllocError>
        ensures { OnOk result (SetsTotal name.now (total_after 0 number) self.old.map self.new.map) }
    {
        let key = Vec::from_slice(alloc, name)?;
        self.map.insert(key, number as u128)?;
        Ok(())
    }

    /// Adds a number to the total of the group of this name, which is new if there was none. If memory for a new group is
    /// refused, nothing changes; no clause says so.
    pub(crate) fn add(&mut self, alloc: Global, name: &[u8], number: u64) -> Result<(), AllocError>
        ensures { OnOk result (AddsTotal name.now number self.old.map self.new.map) }
    {
        let found = self.update(name, number);
        if found {
            return Ok(());
        }
        self.begin(alloc, name, number)
    }

    /// Takes out the first group of those that are left, or returns `None` if none is.
    pub fn next_total(&mut self) -> Option<GroupTotal>
        ensures { (total : List ℕ → ℕ) (names : List (List ℕ))
            → ListsTotals total names self.old
            → IsNextTotal total names self.new result }
    {
        let Some((name, total)) = self.map.pop_first() else {
            return None;
        };
        Some(GroupTotal { name, total })
    }
}
