//! The default policy of unions of tuple sketches.
ghost use Rattle.std.specs.Prelude.{◌≡◌, Some, None, false, is_none, IfOk, MatchResult};
ghost use Rattle.core_laws.specs.Refusal.{Refuses, policy_refusal};

use crate::summary::{SummaryCombinePolicy, SummaryPolicy};
use crate::sums::{CheckedSum, add_to};
use sketch_base::Error;
use std::marker::PhantomData;

/// The policy of a union or an intersection that adds the summaries of one key.
/// `DefaultUnionPolicy::<u64>::default()` adds 64-bit numbers; tuple_sketches has an example.
#[derive(Debug, Clone, Copy)]
pub struct DefaultUnionPolicy<S> {
    of: PhantomData<S>,
}

impl<S> Default for DefaultUnionPolicy<S> {
    fn default() -> Self {
        DefaultUnionPolicy { of: PhantomData }
    }
}

impl<S: CheckedSum> SummaryPolicy for DefaultUnionPolicy<S> {
    type Summary = S;

    ghost creates = { λ p. Some S.ZERO };

    ghost takes_memory = { λ p. false };

    /// The summary 0. Never refused.
    fn create(&self) -> Result<S, Error>
        ensures created { IfOk result (λ summary. Some S.ZERO ≡ Some summary) }
        ensures refused { Refuses result None false }
    {
        Ok(S::ZERO)
    }
}

impl<S: CheckedSum> SummaryCombinePolicy for DefaultUnionPolicy<S> {
    ghost combines = { λ p summary incoming. S.sums summary incoming };

    /// Adds an incoming summary. Refused with `Policy` exactly if the sum is out of the bounds of its type; then the
    /// summary is unchanged.
    fn combine(&self, summary: &mut S, incoming: &S) -> Result<(), Error>
        ensures combined { MatchResult result (λ _. S.sums summary.old incoming.now ≡ Some summary.new) (λ _.
            summary.new ≡ summary.old) }
        ensures refused { Refuses result (policy_refusal (is_none (S.sums summary.old incoming.now))) false }
    {
        add_to(summary, *incoming)
    }
}
