//! The step of an update of a tuple sketch.
ghost use Rattle.std.specs.Prelude.{◌≡◌};

use crate::summary::SummaryUpdatePolicy;
use core_slots::{TupleEntry, UpsertStep};
use sketch_base::Error;

/// The step that adds a value at a hash: it updates the existing summary, or creates one and updates it.
#[derive(Drop)]
pub struct UpdateStep<'a, P, U> {
    policy: &'a P,
    hash: u64,
    value: U,
}

impl<'a, P, U> UpdateStep<'a, P, U> {
    /// The step that adds this value at the inserted hash, by a policy.
    pub fn new(policy: &'a P, hash: u64, value: U) -> Self
        ensures policy { result.policy.now ≡ policy.entry.now }
        ensures hash { result.hash ≡ hash }
        ensures value { result.value ≡ value }
    {
        UpdateStep {
            policy,
            hash,
            value,
        }
    }
}

impl<'a, U: Drop, P: SummaryUpdatePolicy<U>> UpsertStep<TupleEntry<P::Summary>>
    for UpdateStep<'a, P, U> {
    ghost use Rattle.core_policies.specs.Summaries.{update_step};

    ghost means = { λ step.
        record (update_step (P.creates step.policy.now) (P.updates step.policy.now) step.hash step.value)
        { allocates = P.takes_memory step.policy.now } };

    #[inline(always)]
    fn existing(self, entry: &mut TupleEntry<P::Summary>) -> Result<(), Error> {
        self.policy.update(entry.summary_mut(), self.value)
    }

    #[inline(always)]
    fn absent(self) -> Result<Option<TupleEntry<P::Summary>>, Error> {
        let mut summary = self.policy.create()?;
        self.policy.update(&mut summary, self.value)?;
        Ok(Some(TupleEntry::of_hash(self.hash, summary)))
    }
}
