//! A summary that no image can have, since there is no memory to write it.
ghost use Rattle.std.specs.Prelude.{◌≡◌, Some, None, false, nat_lt, if◌then◌else◌, ◌+◌, ◌^◌};

use crate::policies::FromWord;
use crate::summaries::Summary;
use calls_language::words::{Fault, number};
use sketch_base::{Error, ErrorKind, SketchBytes, SketchSlice};
use std::alloc::{AllocError, Allocator};
use std::marker::Model;
use tuple_sketches::{SummaryCombinePolicy, SummaryPolicy, SummaryUpdatePolicy, TupleSummaryValue};

/// A number whose writing is refused for want of memory.
#[derive(Clone, Copy)]
pub struct Unwritten {
    number: u64,
}

impl Model for Unwritten {
    ghost use Rattle.std.specs.Prelude.{ℕ, ◌<◌, ◌^◌};

    ghost Value = { ℕ };

    ghost view = { λ u. u.number };

    ghost inverse = { λ number. record { number = number } };

    ghost invariant = { λ u. u.number < 2 ^ 64 };
}

/// Eight bytes, the lowest first, which are never written.
impl<A: Allocator> TupleSummaryValue<A> for Unwritten {
    ghost use Rattle.std.specs.Prelude.{◌<◌, ◌^◌};
    ghost use Rattle.std.specs.Int.{w64, to_le_bytes};
    ghost use Rattle.core_images.specs.Summary.{SpellsNumber};
    ghost use Rattle.core_images.specs.SummarySpelling.{one_number, eight_written};

    ghost spells = { SpellsNumber 8 };

    ghost is_value = { λ x. x < 2 ^ 64 };

    ghost text = { λ x. to_le_bytes w64 x };

    fn serialize_size(&self) -> usize {
        u64::to_le_bytes(self.number).len()
    }

    fn serialize_value<B: Allocator>(&self, _bytes: &mut SketchBytes<B>) -> Result<(), Error> {
        Err(Error::new(ErrorKind::OutOfMemory))
    }

    fn deserialize_value(_alloc: &A, slice: &mut SketchSlice<'_>) -> Result<Self, Error> {
        let number = slice.read_u64_le()?;
        Ok(Unwritten { number })
    }

    ghost one_spelling = { one_number 8 };

    ghost text_spells = { eight_written };
}

impl<A: Allocator> Summary<A> for Unwritten {
    fn read(_alloc: A, word: &str) -> Result<Unwritten, Fault> {
        let number = number(word)?;
        Ok(Unwritten { number })
    }

    fn put(&self, text: &mut String) -> Result<(), AllocError> {
        let number = self.number;
        write!(text, "{number}")
    }

    ghost clones_equal = { λ x y same. same };
}

/// Adds numbers that are never written.
#[derive(Clone, Copy)]
pub struct UnwrittenSums;

impl SummaryPolicy for UnwrittenSums {
    type Summary = Unwritten;

    ghost creates = { λ policy. Some 0 };

    ghost takes_memory = { λ policy. false };

    fn create(&self) -> Result<Unwritten, Error> {
        Ok(Unwritten { number: 0 })
    }
}

impl SummaryUpdatePolicy<Unwritten> for UnwrittenSums {
    ghost updates = { λ policy x y. if nat_lt (x + y) (2 ^ 64) then Some (x + y) else None };

    fn update(&self, summary: &mut Unwritten, value: Unwritten) -> Result<(), Error> {
        let Some(number) = summary.number.checked_add(value.number) else {
            return Err(Error::new(ErrorKind::Policy));
        };
        *summary = Unwritten { number };
        Ok(())
    }
}

impl SummaryCombinePolicy for UnwrittenSums {
    ghost combines = { λ policy x y. if nat_lt (x + y) (2 ^ 64) then Some (x + y) else None };

    fn combine(&self, summary: &mut Unwritten, incoming: &Unwritten) -> Result<(), Error> {
        self.update(summary, *incoming)
    }
}

impl<A: Drop> FromWord<A> for UnwrittenSums {
    fn from_word(_alloc: A, _word: &str) -> Result<UnwrittenSums, Fault> {
        Ok(UnwrittenSums)
    }
}

impl SummaryUpdatePolicy<u64> for UnwrittenSums {
    ghost updates = { λ policy x y. if nat_lt (x + y) (2 ^ 64) then Some (x + y) else None };

    fn update(&self, summary: &mut Unwritten, value: u64) -> Result<(), Error> {
        let Some(number) = summary.number.checked_add(value) else {
            return Err(Error::new(ErrorKind::Policy));
        };
        *summary = Unwritten { number };
        Ok(())
    }
}
