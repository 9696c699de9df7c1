//! Traits of the views that operators take.
ghost use Rattle.std.specs.Prelude.{◌≡◌, ℕ, List, map, Option};
ghost use Rattle.std.specs.Iterator.{YieldsFirst, IsFinite};
ghost use Rattle.core_operators.specs.View.{metadata_of};
ghost use Rattle.core_laws.specs.Shown.{Shown, IsShown};

use crate::iter::EntryIter;
use core_slots::SlotEntry;

/// The metadata of a sketch.
#[derive(Debug, Clone, Copy)]
pub enum ThetaFamilySketchMetadata {
    /// No update was accepted.
    Empty {
        /// The hash of its seed.
        seed_hash: u16,
    },
    /// The sketch is not empty: some update was accepted, even if its hash was screened.
    NonEmpty {
        /// The hash of its seed.
        seed_hash: u16,
        /// From 1 to `MAX_THETA`, above every hash.
        theta: u64,
        /// Whether its hashes are known to ascend.
        ordered: bool,
        /// How many hashes it has, fewer than 2^32.
        num_retained: usize,
    },
}

/// A sketch whose hashes can be read. They are distinct, from 1 to below theta, as many as `num_retained`, ascending
/// if the sketch is ordered, and none if it is empty.
pub trait KeySketch: Copy {
    type Hashes: Iterator<Item = u64>;

    /// Its metadata and hashes, as contracts see them.
    ghost shown: { Self → Shown };

    /// The hashes that an iterator has left.
    ghost rest: { Self.Hashes → List ℕ };

    /// Its metadata.
    fn metadata(self) -> ThetaFamilySketchMetadata
        ensures metadata { result ≡ metadata_of (shown self) }
        ensures is_sound { IsShown (shown self) };

    /// An iterator over its hashes, each once.
    fn hashes(self) -> Self::Hashes
        ensures all { rest result ≡ (shown self).hashes }
        ensures sound { IsShown (shown self) };

    /// An iterator yields the hashes that it has left, in their order.
    ghost yields: { (s : Self.Hashes) (r : Option ℕ) (t : Self.Hashes)
        → Self.Hashes.next_gives s r t
        → YieldsFirst rest s r t };

    /// `next` may always be called.
    ghost may_go_on: { (s : Self.Hashes) → Self.Hashes.can_next s };

    /// An iterator is finite.
    ghost ends: { (s : Self.Hashes) → IsFinite (Self.Hashes.remaining s) };
}

/// A sketch whose entries can be read, in the order of its hashes.
pub trait EntrySketch: KeySketch {
    type Entry: SlotEntry;

    /// Its entries, in the order of its hashes.
    ghost listing: { Self → List Self.Entry };

    /// An iterator over its entries, each once.
    fn entries(&self) -> EntryIter<'_, Self::Entry>
        ensures all { result.rest ≡ listing self.now }
        ensures hashes { map Self.Entry.key (listing self.now) ≡ (Self.shown self.now).hashes }
        ensures sound { IsShown (Self.shown self.now) };

    /// The entries have the hashes that the sketch shows.
    ghost lists: { (s : Self) → map Self.Entry.key (listing s) ≡ (Self.shown s).hashes };
}
