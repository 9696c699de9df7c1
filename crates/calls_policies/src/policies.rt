//! Policies of tuple sketches whose summaries are numbers of 64 bits, and how lines name policies.
ghost use Rattle.std.specs.Prelude.{◌≡◌, Some, None, false, true, nat_lt, if◌then◌else◌, ◌+◌, ◌*◌, ◌^◌, ◌==◌};
ghost use Rattle.std.specs.Prelude.{◌||◌};

use calls_language::words::{Fault, number};
use sketch_base::{Error, ErrorKind};
use tuple_sketches::{
    DefaultUnionPolicy, DefaultUpdatePolicy, NumberPolicy, SummaryCombinePolicy, SummaryMode,
    SummaryPolicy, SummaryUpdatePolicy,
};

/// A policy that a word of a line names. What its summaries have outside themselves is in memory of `A`.
pub trait FromWord<A>: Sized {
    /// The policy of a word.
    fn from_word(alloc: A, word: &str) -> Result<Self, Fault>;
}

impl<A: Drop, S> FromWord<A> for DefaultUpdatePolicy<S> {
    fn from_word(_alloc: A, _word: &str) -> Result<Self, Fault> {
        Ok(DefaultUpdatePolicy::default())
    }
}

impl<A: Drop, S> FromWord<A> for DefaultUnionPolicy<S> {
    fn from_word(_alloc: A, _word: &str) -> Result<Self, Fault> {
        Ok(DefaultUnionPolicy::default())
    }
}

impl<A: Drop> FromWord<A> for NumberPolicy {
    fn from_word(_alloc: A, word: &str) -> Result<Self, Fault> {
        let mode = match word {
            "least" => SummaryMode::Min,
            "greatest" => SummaryMode::Max,
            _ => SummaryMode::Sum,
        };
        Ok(NumberPolicy::new(mode))
    }
}

/// Writes each number behind the digits that are there, and refuses what is past 64 bits.
#[derive(Clone, Copy)]
pub struct Digits;

impl SummaryPolicy for Digits {
    type Summary = u64;

    ghost creates = { λ policy. Some 0 };

    ghost takes_memory = { λ policy. false };

    fn create(&self) -> Result<u64, Error> {
        Ok(0)
    }
}

impl SummaryUpdatePolicy<u64> for Digits {
    ghost updates = { λ policy digits digit.
        if nat_lt (10 * digits + digit) (2 ^ 64) then Some (10 * digits + digit) else None };

    fn update(&self, digits: &mut u64, digit: u64) -> Result<(), Error> {
        let Some(tens) = digits.checked_mul(10) else {
            return Err(Error::new(ErrorKind::Policy));
        };
        let Some(sum) = tens.checked_add(digit) else {
            return Err(Error::new(ErrorKind::Policy));
        };
        *digits = sum;
        Ok(())
    }
}

impl SummaryCombinePolicy for Digits {
    ghost combines = { λ policy digits digit.
        if nat_lt (10 * digits + digit) (2 ^ 64) then Some (10 * digits + digit) else None };

    fn combine(&self, digits: &mut u64, incoming: &u64) -> Result<(), Error> {
        self.update(digits, *incoming)
    }
}

impl<A: Drop> FromWord<A> for Digits {
    fn from_word(_alloc: A, _word: &str) -> Result<Self, Fault> {
        Ok(Digits)
    }
}

/// Adds numbers, and refuses one of them.
#[derive(Clone, Copy)]
pub struct RefusesOne {
    refused: u64,
}

impl SummaryPolicy for RefusesOne {
    type Summary = u64;

    ghost creates = { λ policy. Some 0 };

    ghost takes_memory = { λ policy. false };

    fn create(&self) -> Result<u64, Error> {
        Ok(0)
    }
}

impl SummaryUpdatePolicy<u64> for RefusesOne {
    ghost updates = { λ policy sum value.
        if value == policy.refused then None
        else if nat_lt (sum + value) (2 ^ 64) then Some (sum + value)
        else None };

    fn update(&self, sum: &mut u64, value: u64) -> Result<(), Error> {
        if value == self.refused {
            return Err(Error::new(ErrorKind::Policy));
        }
        let Some(new) = sum.checked_add(value) else {
            return Err(Error::new(ErrorKind::Policy));
        };
        *sum = new;
        Ok(())
    }
}

impl SummaryCombinePolicy for RefusesOne {
    ghost combines = { λ policy sum value.
        if value == policy.refused then None
        else if nat_lt (sum + value) (2 ^ 64) then Some (sum + value)
        else None };

    fn combine(&self, sum: &mut u64, incoming: &u64) -> Result<(), Error> {
        self.update(sum, *incoming)
    }
}

impl<A: Drop> FromWord<A> for RefusesOne {
    fn from_word(_alloc: A, word: &str) -> Result<Self, Fault> {
        match word.strip_prefix("refuses:") {
            Some(value) => Ok(RefusesOne {
                refused: number(value)?,
            }),
            None => Err(Fault::Unknown),
        }
    }
}

/// Adds numbers, but has no memory for a new summary.
#[derive(Clone, Copy)]
pub struct Unmade;

impl SummaryPolicy for Unmade {
    type Summary = u64;

    ghost creates = { λ policy. Some 0 };

    ghost takes_memory = { λ policy. true };

    fn create(&self) -> Result<u64, Error> {
        Err(Error::new(ErrorKind::OutOfMemory))
    }
}

impl SummaryUpdatePolicy<u64> for Unmade {
    ghost updates = { λ policy sum value. if nat_lt (sum + value) (2 ^ 64) then Some (sum + value) else None };

    fn update(&self, sum: &mut u64, value: u64) -> Result<(), Error> {
        let Some(new) = sum.checked_add(value) else {
            return Err(Error::new(ErrorKind::Policy));
        };
        *sum = new;
        Ok(())
    }
}

impl SummaryCombinePolicy for Unmade {
    ghost combines = { λ policy sum value. if nat_lt (sum + value) (2 ^ 64) then Some (sum + value) else None };

    fn combine(&self, sum: &mut u64, incoming: &u64) -> Result<(), Error> {
        self.update(sum, *incoming)
    }
}

impl<A: Drop> FromWord<A> for Unmade {
    fn from_word(_alloc: A, _word: &str) -> Result<Self, Fault> {
        Ok(Unmade)
    }
}
