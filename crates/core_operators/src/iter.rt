//! Iterators over the entries of views. Contracts see the items that an iterator has left.
ghost use Rattle.std.specs.Prelude.{◌≡◌, ◌↔◌, Some, true, false, length, map, IsSome, IfSome};
ghost use Rattle.core_laws.specs.Maps.{IsListing};
ghost use Rattle.core_table.specs.Gathering.{from_below};
ghost use Rattle.core_table.specs.HashTable.{IsTable};
ghost use Rattle.std.specs.Iterator.{YieldsFirst, YieldsFirstRef, UpTo, item_count};
ghost use Rattle.std.specs.Iterator.SizeHint.{IsWithinCount};

use core_slots::SlotEntry;
use core_table::{SketchHashTable, SketchHashTableIter};
use std::alloc::Allocator;
use std::marker::Model;

#[derive(Drop)]
enum Source<'a, E: SlotEntry> {
    Table(SketchHashTableIter<'a, E>),
    Slice(&'a [E]),
}

/// Iterates over the entries of a table, in an unspecified order, or of a slice, in its order.
#[derive(Drop)]
pub struct EntryIter<'a, E: SlotEntry> {
    source: Source<'a, E>,
}

impl<'a, E: SlotEntry> Model for EntryIter<'a, E> {
    ghost use Rattle.core_operators.specs.Iter.{Remaining};

    ghost Value = { Remaining E };

    ghost use Rattle.core_operators.specs.Iter.{left_in};

    ghost view = { λ s. left_in s.source };
}

impl<'a, E: SlotEntry> EntryIter<'a, E> {
    /// The entries of a slice, in its order.
    pub fn of_slice(entries: &'a [E]) -> Self
        ensures { result ≡ record { rest = entries.entry.now; counted = true } }
    {
        EntryIter {
            source: Source::Slice(entries),
        }
    }
}

impl<'a, E: SlotEntry> EntryIter<'a, E> {
    /// The entries of a table, each once, in an unspecified order.
    pub fn of_table<A: Allocator>(table: &'a SketchHashTable<E, A>) -> Self
        ensures listed { result ≡ record { rest = table.entry.now.sequence; counted = false } }
        ensures each_once { IsListing E.key table.entry.now.map.kept.entries table.entry.now.sequence }
        ensures sound { IsTable E.key table.entry.now.map }
    {
        EntryIter {
            source: Source::Table(table.iter_entries()),
        }
    }
}

/// The entries from the first one below theta on.
#[inline(always)]
fn entries_from_below<'a, E: SlotEntry>(entries: &'a [E], theta: u64) -> &'a [E]
    ensures { result.now ≡ from_below E.key theta entries.entry.now }
{
    let mut left = entries;
    while let Some((first, others)) = left.split_first() {
        if first.hash() < theta {
            break;
        }
        left = others;
    }
    left
}

impl<'a, E: SlotEntry> EntryIter<'a, E> {
    /// The entries that are left, if they are in a slice.
    #[inline(always)]
    pub fn as_slice(&self) -> Option<&'a [E]>
        ensures left { IfSome result (λ s. s.now ≡ self.now.rest) }
        ensures sliced { IsSome result ↔ (self.now.counted ≡ true) }
    {
        match &self.source {
            Source::Table(_) => None,
            Source::Slice(entries) => Some(*entries),
        }
    }
}

impl<'a, E: SlotEntry> EntryIter<'a, E> {
    /// Skips the entries in front whose hashes are not below theta.
    #[inline(always)]
    pub fn pass_to_below(&mut self, theta: u64)
        ensures { self.new ≡ record { rest = from_below E.key theta self.old.rest; counted = self.old.counted } }
    {
        match &mut self.source {
            Source::Table(entries) => entries.pass_to_below(theta),
            Source::Slice(entries) => *entries = entries_from_below(entries, theta),
        }
    }
}

impl<'a, E: SlotEntry> Iterator for EntryIter<'a, E> {
    type Item = &'a E;

    ghost next_gives = { λ old item new. YieldsFirstRef (λ s. s.rest) old item new × (new.counted ≡ old.counted) };

    ghost remaining = { item_count (λ s. s.rest) };

    fn next(&mut self) -> Option<&'a E> {
        match &mut self.source {
            Source::Table(entries) => entries.next(),
            Source::Slice(entries) => {
                let (first, others) = entries.split_first()?;
                *entries = others;
                Some(first)
            }
        }
    }

    /// Exact over a slice. Over a table the lower bound is 0, and the upper bound is at least the entries left.
    fn size_hint(&self) -> (usize, Option<usize>)
        ensures lower { IsWithinCount result.0 (item_count (λ s. s.rest) self.now) }
        ensures upper { IfSome result.1 (UpTo (item_count (λ s. s.rest) self.now)) }
        ensures exact { self.now.counted ≡ true → result ≡ (length self.now.rest, Some (length self.now.rest)) }
        ensures from_none { self.now.counted ≡ false → result.0 ≡ 0 }
        ensures bounded { IsSome result.1 }
    {
        match &self.source {
            Source::Table(entries) => entries.size_hint(),
            Source::Slice(entries) => (entries.len(), Some(entries.len())),
        }
    }
}

/// The hashes of the entries of an `EntryIter`, in its order.
#[derive(Drop)]
pub struct HashIter<'a, E: SlotEntry> {
    entries: EntryIter<'a, E>,
}

impl<'a, E: SlotEntry> Model for HashIter<'a, E> {
    ghost use Rattle.std.specs.Prelude.{ℕ, map};
    ghost use Rattle.core_operators.specs.Iter.{Remaining};

    ghost Value = { Remaining ℕ };

    ghost view = { λ s. record { rest = map E.key s.entries.rest; counted = s.entries.counted } };
}

impl<'a, E: SlotEntry> HashIter<'a, E> {
    /// The hashes of these entries.
    pub fn new(entries: EntryIter<'a, E>) -> Self
        ensures { result ≡ record { rest = map E.key entries.entry.rest; counted = entries.entry.counted } }
    {
        HashIter { entries }
    }
}

impl<'a, E: SlotEntry> Iterator for HashIter<'a, E> {
    type Item = u64;

    ghost next_gives = { λ old item new. YieldsFirst (λ s. s.rest) old item new × (new.counted ≡ old.counted) };

    ghost remaining = { item_count (λ s. s.rest) };

    fn next(&mut self) -> Option<u64> {
        let entry = self.entries.next()?;
        Some(entry.hash())
    }

    /// The same as that of the entries.
    fn size_hint(&self) -> (usize, Option<usize>)
        ensures lower { IsWithinCount result.0 (item_count (λ s. s.rest) self.now) }
        ensures upper { IfSome result.1 (UpTo (item_count (λ s. s.rest) self.now)) }
        ensures exact { self.now.counted ≡ true → result ≡ (length self.now.rest, Some (length self.now.rest)) }
        ensures from_none { self.now.counted ≡ false → result.0 ≡ 0 }
        ensures bounded { IsSome result.1 }
    {
        self.entries.size_hint()
    }
}
