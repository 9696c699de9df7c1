//! Iterators over the entries of theta sketches.
ghost use Rattle.std.specs.Prelude.{◌≡◌, Some, true, false, length, IsSome, IfSome};
ghost use Rattle.std.specs.Iterator.{YieldsFirst, UpTo, item_count};
ghost use Rattle.std.specs.Iterator.SizeHint.{IsWithinCount};

use core_operators::EntryIter;
use core_slots::ThetaEntry;
use std::marker::Model;

/// Iterates over the entries of a theta sketch, each once: those of a mutable sketch in an unspecified order, those
/// of a compact sketch in its order.
#[derive(Drop)]
pub struct ThetaSketchIter<'a> {
    entries: EntryIter<'a, ThetaEntry>,
}

impl<'a> Model for ThetaSketchIter<'a> {
    ghost use Rattle.std.specs.Prelude.{ℕ};
    ghost use Rattle.core_operators.specs.Iter.{Remaining};

    ghost Value = { Remaining ℕ };

    ghost view = { λ s. s.entries };
}

impl<'a> ThetaSketchIter<'a> {
    /// Iterates over these entries.
    pub fn over(entries: EntryIter<'a, ThetaEntry>) -> Self
        ensures { result ≡ entries.entry }
    {
        ThetaSketchIter { entries }
    }
}

impl<'a> Iterator for ThetaSketchIter<'a> {
    type Item = ThetaEntry;

    ghost next_gives = { λ old item new. YieldsFirst (λ s. s.rest) old item new × (new.counted ≡ old.counted) };

    ghost remaining = { item_count (λ s. s.rest) };

    fn next(&mut self) -> Option<ThetaEntry> {
        let entry = self.entries.next()?;
        Some(*entry)
    }

    /// Exact over a compact sketch. Over a mutable sketch the lower bound is 0, and the upper bound is at least the
    /// entries left.
    fn size_hint(&self) -> (usize, Option<usize>)
        ensures lower { IsWithinCount result.0 (item_count (λ s. s.rest) self.now) }
        ensures upper { IfSome result.1 (UpTo (item_count (λ s. s.rest) self.now)) }
        ensures exact { self.now.counted ≡ true → result ≡ (length self.now.rest, Some (length self.now.rest)) }
        ensures from_none { self.now.counted ≡ false → result.0 ≡ 0 }
        ensures bounded { IsSome result.1 }
    {
        self.entries.size_hint()
    }
}
