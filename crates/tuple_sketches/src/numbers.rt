//! The policy of summaries that are numbers of 64 bits: sums, least numbers or greatest numbers.
ghost use Rattle.std.specs.Prelude.{◌≡◌, Some, None, false, is_none, IfOk, MatchResult};
ghost use Rattle.core_laws.specs.Refusal.{Refuses, policy_refusal};
ghost use Rattle.tuple_sketches.specs.Numbers.{first_number, combined_number};

use core_policies::{SummaryCombinePolicy, SummaryPolicy, SummaryUpdatePolicy};
use sketch_base::{Error, ErrorKind};

/// What the summary of a key is, of the numbers of 64 bits that were added for it.
#[derive(Debug, Clone, Copy, PartialEq, Eq)]
pub enum SummaryMode {
    /// Their sum. It is 0 at first, and refused from 2^64 on.
    Sum,
    /// The least of them. It is 2^64 - 1 at first.
    Min,
    /// The greatest of them. It is 0 at first.
    Max,
}

/// The policy of a sketch, a union or an intersection whose summaries are numbers of 64 bits, combined as its mode
/// says: added, or the least or the greatest is kept. `Sum` is what `DefaultUpdatePolicy::<u64>` and
/// `DefaultUnionPolicy::<u64>` do. `Min` and `Max` never refuse. The crate's documentation has an example.
#[derive(Debug, Clone, Copy)]
pub struct NumberPolicy {
    mode: SummaryMode,
}

impl NumberPolicy {
    /// The policy of a mode.
    pub fn new(mode: SummaryMode) -> Self
        ensures { result ≡ record { mode = mode } }
    {
        NumberPolicy { mode }
    }
}

impl SummaryPolicy for NumberPolicy {
    type Summary = u64;

    ghost creates = { λ p. Some (first_number p.mode) };

    ghost takes_memory = { λ p. false };

    /// The first summary: 0, or 2^64 - 1 for `Min`. Never refused.
    fn create(&self) -> Result<u64, Error>
        ensures created { IfOk result (λ summary. Some (first_number self.now.mode) ≡ Some summary) }
        ensures refused { Refuses result None false }
    {
        match self.mode {
            SummaryMode::Sum => Ok(0),
            SummaryMode::Min => Ok(u64::MAX),
            SummaryMode::Max => Ok(0),
        }
    }
}

impl SummaryUpdatePolicy<u64> for NumberPolicy {
    ghost updates = { λ p summary value. combined_number p.mode summary value };

    /// Combines a value into a summary. Refused with `Policy` exactly if the mode is `Sum` and the sum is 2^64 or
    /// more; then the summary is unchanged.
    fn update(&self, summary: &mut u64, value: u64) -> Result<(), Error>
        ensures updated { MatchResult result (λ _. combined_number self.now.mode summary.old value ≡ Some summary.new)
            (λ _. summary.new ≡ summary.old) }
        ensures refused { Refuses result
            (policy_refusal (is_none (combined_number self.now.mode summary.old value))) false }
    {
        match self.mode {
            SummaryMode::Sum => match summary.checked_add(value) {
                Some(sum) => {
                    *summary = sum;
                    Ok(())
                }
                None => Err(Error::new(ErrorKind::Policy)),
            },
            SummaryMode::Min => {
                *summary = value.min(*summary);
                Ok(())
            }
            SummaryMode::Max => {
                *summary = value.max(*summary);
                Ok(())
            }
        }
    }
}

impl SummaryCombinePolicy for NumberPolicy {
    ghost combines = { λ p summary incoming. combined_number p.mode summary incoming };

    /// Combines an incoming summary into another, as `update` combines a value. Refused with `Policy` exactly if the
    /// mode is `Sum` and the sum is 2^64 or more; then the summary is unchanged.
    fn combine(&self, summary: &mut u64, incoming: &u64) -> Result<(), Error>
        ensures combined { MatchResult result
            (λ _. combined_number self.now.mode summary.old incoming.now ≡ Some summary.new)
            (λ _. summary.new ≡ summary.old) }
        ensures refused { Refuses result
            (policy_refusal (is_none (combined_number self.now.mode summary.old incoming.now))) false }
    {
        self.update(summary, *incoming)
    }
}
