//! What an insertion does with the entry that it finds, or if it finds none.
ghost use Rattle.std.specs.Prelude.{◌≡◌, Some, None, IfOk, MatchResult};
ghost use Rattle.core_laws.specs.Refusal.{Refuses};
ghost use Rattle.core_laws.specs.Step.{Step};

use crate::entry::TupleEntry;
use sketch_base::Error;

/// A step of an insertion: it writes the entry that has the hash; if there is none, it makes one or declines to.
///
/// A table calls one of the two methods, once; if the hash is screened, it calls neither.
pub trait UpsertStep<X> {
    /// What it writes and makes, when it refuses, and whether it may take memory.
    ghost means: { Self → Step X };

    /// Writes the existing entry. A refusal leaves the entry unchanged.
    fn existing(self, entry: &mut X) -> Result<(), Error>
        ensures written { MatchResult result (λ _. entry.new ≡ (means self).writes entry.old) (λ _.
            entry.new ≡ entry.old) }
        ensures refused { Refuses result ((means self).refuses_existing entry.old) (means self).allocates };

    /// Makes the entry to insert, or declines to.
    fn absent(self) -> Result<Option<X>, Error>
        ensures made { IfOk result (λ made. made ≡ (means self).makes) }
        ensures refused { Refuses result (means self).refuses_absent (means self).allocates };
}

/// The step that makes an entry if none has its hash, and leaves an existing one unchanged. A theta sketch inserts
/// its hashes with it.
#[derive(Drop)]
pub struct PutStep<X> {
    entry: X,
}

impl<X> PutStep<X> {
    /// The step that makes this entry.
    pub fn new(entry: X) -> PutStep<X>
        ensures { result.entry ≡ entry }
    {
        PutStep { entry }
    }
}

impl<X: Drop> UpsertStep<X> for PutStep<X> {
    ghost use Rattle.core_laws.specs.Step.{put_step};

    ghost means = { λ step. put_step step.entry };

    #[inline(always)]
    fn existing(self, _entry: &mut X) -> Result<(), Error> {
        Ok(())
    }

    #[inline(always)]
    fn absent(self) -> Result<Option<X>, Error> {
        Ok(Some(self.entry))
    }
}

/// A step on the summary of a hash, as one on entries: an existing entry keeps its hash, and a new one gets the
/// inserted hash.
#[derive(Drop)]
pub struct EntryStep<T> {
    hash: u64,
    step: T,
}

impl<T> EntryStep<T> {
    /// This step, at a hash.
    pub fn new(hash: u64, step: T) -> EntryStep<T>
        ensures hash { result.hash ≡ hash }
        ensures step { result.step ≡ step }
    {
        EntryStep { hash, step }
    }
}

impl<S, T: UpsertStep<S>> UpsertStep<TupleEntry<S>> for EntryStep<T> {
    ghost use Rattle.core_slots.specs.Entry.{entry_step};

    ghost means = { λ step. entry_step step.hash (T.means step.step) };

    #[inline(always)]
    fn existing(self, entry: &mut TupleEntry<S>) -> Result<(), Error> {
        self.step.existing(&mut entry.summary)
    }

    #[inline(always)]
    fn absent(self) -> Result<Option<TupleEntry<S>>, Error> {
        match self.step.absent()? {
            Some(summary) => Ok(Some(TupleEntry::of_hash(self.hash, summary))),
            None => Ok(None),
        }
    }
}
