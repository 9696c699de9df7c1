//! The default policy of tuple sketches.
ghost use Rattle.std.specs.Prelude.{◌≡◌, Some, None, false, is_none, IfOk, MatchResult};
ghost use Rattle.core_laws.specs.Refusal.{Refuses, policy_refusal};

use crate::summary::{SummaryPolicy, SummaryUpdatePolicy};
use crate::sums::{CheckedSum, add_to};
use sketch_base::Error;
use std::marker::PhantomData;

/// The policy of a sketch that adds each value of a key to its summary, from 0 on.
/// `DefaultUpdatePolicy::<u64>::default()` adds 64-bit values; tuple_sketches has an example.
#[derive(Debug, Clone, Copy)]
pub struct DefaultUpdatePolicy<S> {
    of: PhantomData<S>,
}

impl<S> Default for DefaultUpdatePolicy<S> {
    fn default() -> Self {
        DefaultUpdatePolicy { of: PhantomData }
    }
}

impl<S: CheckedSum> SummaryPolicy for DefaultUpdatePolicy<S> {
    type Summary = S;

    ghost creates = { λ p. Some S.ZERO };

    ghost takes_memory = { λ p. false };

    /// The summary 0. Never refused.
    fn create(&self) -> Result<S, Error>
        ensures created { IfOk result (λ summary. Some S.ZERO ≡ Some summary) }
        ensures refused { Refuses result None false }
    {
        Ok(S::ZERO)
    }
}

impl<S: CheckedSum> SummaryUpdatePolicy<S> for DefaultUpdatePolicy<S> {
    ghost updates = { λ p summary value. S.sums summary value };

    /// Adds a value to a summary. Refused with `Policy` exactly if the sum is out of the bounds of its type; then the
    /// summary is unchanged.
    fn update(&self, summary: &mut S, value: S) -> Result<(), Error>
        ensures updated { MatchResult result (λ _. S.sums summary.old value ≡ Some summary.new) (λ _.
            summary.new ≡ summary.old) }
        ensures refused { Refuses result (policy_refusal (is_none (S.sums summary.old value))) false }
    {
        add_to(summary, value)
    }
}
