//! `tuple_difference`: the difference operator of tuple sketches.
use crate::tuple_operand::TupleOperand;
use crate::tuples_shown::put_answer;
use calls_language::object::{Call, Memory, Object, operand_of};
use calls_language::settings::seed_alone;
use calls_language::words::{Fault, cut_word, order_flag};
use calls_policies::{FromWord, Summary};
use std::alloc::{Allocator, Global};
use std::marker::PhantomData;
use tuple_sketches::{DefaultUpdatePolicy, SummaryUpdatePolicy, TupleANotB};

/// The policy of second operands.
type Sums = DefaultUpdatePolicy<u64>;

/// The difference operator of tuple sketches. First operands that are made of updates are made by a policy `P`.
#[derive(Drop)]
pub struct TupleDifferenceObject<P, A> {
    alloc: A,
    difference: TupleANotB,
    updates: PhantomData<P>,
}

impl<
    S: Summary<A>,
    P: SummaryUpdatePolicy<S, Summary = S> + FromWord<A> + Drop,
    A: Allocator + Copy + Drop,
> TupleDifferenceObject<P, A> {
    /// Appends the difference of two operands, in an order: the words of a call.
    fn compute(&self, memory: Memory<'_>, words: &str, answer: &mut String) -> Result<(), Fault> {
        let (first, rest) = cut_word(words);
        let (second, order) = cut_word(rest);
        let ordered = order_flag(order)?;
        let a: TupleOperand<P, A> = operand_of(memory, self.alloc, first)?;
        let b: TupleOperand<Sums, A> = operand_of(memory, self.alloc, second)?;
        let left = self
            .difference
            .compute(self.alloc, a.view(), b.view(), ordered)?;
        put_answer(answer, &left)
    }
}

impl<
    S: Summary<A>,
    P: SummaryUpdatePolicy<S, Summary = S> + FromWord<A> + Drop,
    A: Allocator + Copy + Drop,
> Object<A> for TupleDifferenceObject<P, A> {
    fn make(_plain: Global, alloc: A, settings: &str) -> Result<Self, Fault> {
        let (_, rest) = cut_word(settings);
        let difference = match seed_alone(rest)? {
            Some(seed) => TupleANotB::with_seed(seed)?,
            None => TupleANotB::default()?,
        };
        Ok(TupleDifferenceObject {
            alloc,
            difference,
            updates: PhantomData,
        })
    }

    fn call(
        &mut self,
        memory: Memory<'_>,
        call: Call<'_>,
        answer: &mut String,
    ) -> Result<(), Fault> {
        match (call.verb, call.argument) {
            ("compute", words) => self.compute(memory, words, answer),
            ("seed_hash", "") | ("see", "") => self.see(answer),
            _ => Err(Fault::Unknown),
        }
    }

    fn see(&self, text: &mut String) -> Result<(), Fault> {
        let seed_hash = self.difference.seed_hash();
        write!(text, "{seed_hash}")?;
        Ok(())
    }
}
