//! How summaries are created, updated with values and combined.
ghost use Rattle.std.specs.Prelude.{◌≡◌, Bool, Option, Some, true, is_none, MatchResult, IfOk};
ghost use Rattle.core_laws.specs.Refusal.{Refuses, policy_refusal};

use crate::merge_policy::{IntersectionMergePolicy, UnionMergePolicy};
use core_slots::TupleEntry;
use sketch_base::Error;

/// How the summary of a new key is created.
pub trait SummaryPolicy {
    /// The summary of each key.
    type Summary: Drop;

    /// The summary that it creates; none if it refuses.
    ghost creates: { Self → Option Self.Summary };

    /// Whether creating a summary, or updating one with a value, may allocate.
    ghost takes_memory: { Self → Bool };

    /// The summary of a key that has no value yet. Refused with `Policy` if `creates` is none, and with `OutOfMemory`
    /// only if it may allocate (`takes_memory`).
    fn create(&self) -> Result<Self::Summary, Error>
        ensures created { IfOk result (λ summary. creates self.now ≡ Some summary) }
        ensures refused { Refuses result (policy_refusal (is_none (creates self.now))) (takes_memory self.now) };
}

/// How a summary is updated with a value.
pub trait SummaryUpdatePolicy<U>: SummaryPolicy {
    /// The summary updated with a value; none if it refuses.
    ghost updates: { Self → Self.Summary → U → Option Self.Summary };

    /// Updates a summary with a value. Refused with `Policy` if `updates` is none, and with `OutOfMemory` only if it
    /// may allocate (`takes_memory`); then the summary is unchanged.
    fn update(&self, summary: &mut Self::Summary, value: U) -> Result<(), Error>
        ensures updated { MatchResult result (λ _. updates self.now summary.old value ≡ Some summary.new) (λ _.
            summary.new ≡ summary.old) }
        ensures refused { Refuses result (policy_refusal (is_none (updates self.now summary.old value)))
            (Self.takes_memory self.now) };
}

/// How two summaries of one key are combined.
pub trait SummaryCombinePolicy: SummaryPolicy {
    /// A summary combined with an incoming one; none if it refuses.
    ghost combines: { Self → Self.Summary → Self.Summary → Option Self.Summary };

    /// Combines an incoming summary into another. Refused with `Policy` if `combines` is none, or with `OutOfMemory`;
    /// then the summary is unchanged.
    fn combine(&self, summary: &mut Self::Summary, incoming: &Self::Summary) -> Result<(), Error>
        ensures combined { MatchResult result (λ _. combines self.now summary.old incoming.now ≡ Some summary.new)
            (λ _. summary.new ≡ summary.old) }
        ensures refused { Refuses result (policy_refusal (is_none (combines self.now summary.old incoming.now))) true };
}

/// The entries whose summaries a policy combines.
type EntryOf<P> = TupleEntry<<P as SummaryPolicy>::Summary>;

impl<P: SummaryCombinePolicy> UnionMergePolicy<TupleEntry<P::Summary>> for P {
    ghost use Rattle.core_policies.specs.Summaries.{combined, combine_refused, combined-keeps};

    ghost merges = { λ p x y. combined (P.combines p) x y };

    ghost refuses = { λ p x y. combine_refused (P.combines p) x y };

    fn merge(&self, entry: &mut EntryOf<P>, incoming: &EntryOf<P>) -> Result<(), Error> {
        self.combine(entry.summary_mut(), incoming.summary())
    }

    ghost keeps_hash = { λ p x y same. combined-keeps (P.combines p) x y same };
}

impl<P: SummaryCombinePolicy> IntersectionMergePolicy<TupleEntry<P::Summary>> for P {
    ghost use Rattle.core_policies.specs.Summaries.{combined, combine_refused, combined-keeps};

    ghost merges = { λ p x y. combined (P.combines p) x y };

    ghost refuses = { λ p x y. combine_refused (P.combines p) x y };

    fn merge(&self, entry: &mut EntryOf<P>, incoming: &EntryOf<P>) -> Result<(), Error> {
        UnionMergePolicy::merge(self, entry, incoming)
    }

    ghost keeps_hash = { λ p x y same. combined-keeps (P.combines p) x y same };
}
