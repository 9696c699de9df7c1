//! Summaries of tuple sketches, as lines spell and show them.
ghost use Rattle.std.specs.Prelude.{◌≡◌};

use calls_language::words::{Fault, number};
use std::alloc::{AllocError, Allocator};
use tuple_sketches::TupleSummaryValue;

/// A summary that lines spell and show. What it has outside itself is in memory of `A`.
pub trait Summary<A: Allocator>: TupleSummaryValue<A> + Clone + Drop {
    /// The summary of a word.
    fn read(alloc: A, word: &str) -> Result<Self, Fault>;

    /// Appends it.
    fn put(&self, text: &mut String) -> Result<(), AllocError>;

    /// A clone equals its original.
    ghost clones_equal: { (x y : Self) → Self.is_clone x y → y ≡ x };
}

impl<A: Allocator> Summary<A> for u32 {
    fn read(_alloc: A, word: &str) -> Result<u32, Fault> {
        word.parse::<u32>().map_err(|_| Fault::Unknown)
    }

    fn put(&self, text: &mut String) -> Result<(), AllocError> {
        write!(text, "{self}")
    }

    ghost clones_equal = { λ x y same. same };
}

impl<A: Allocator> Summary<A> for u64 {
    fn read(_alloc: A, word: &str) -> Result<u64, Fault> {
        number(word)
    }

    fn put(&self, text: &mut String) -> Result<(), AllocError> {
        write!(text, "{self}")
    }

    ghost clones_equal = { λ x y same. same };
}

impl<A: Allocator> Summary<A> for i32 {
    fn read(_alloc: A, word: &str) -> Result<i32, Fault> {
        word.parse::<i32>().map_err(|_| Fault::Unknown)
    }

    fn put(&self, text: &mut String) -> Result<(), AllocError> {
        write!(text, "{self}")
    }

    ghost clones_equal = { λ x y same. same };
}

impl<A: Allocator> Summary<A> for i64 {
    fn read(_alloc: A, word: &str) -> Result<i64, Fault> {
        if word == "max" {
            return Ok(i64::MAX);
        }
        word.parse::<i64>().map_err(|_| Fault::Unknown)
    }

    fn put(&self, text: &mut String) -> Result<(), AllocError> {
        write!(text, "{self}")
    }

    ghost clones_equal = { λ x y same. same };
}
