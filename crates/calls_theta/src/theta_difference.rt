//! `theta_difference`: the difference operator of theta sketches.
use crate::theta_operand::{ThetaOperand, put_answer};
use calls_language::object::{Call, Memory, Object, operand_of};
use calls_language::settings::seed_alone;
use calls_language::words::{Fault, cut_word, order_flag};
use std::alloc::{Allocator, Global};
use theta_sketches::ThetaANotB;

/// The difference operator of theta sketches.
#[derive(Drop)]
pub struct ThetaDifferenceObject<A> {
    alloc: A,
    difference: ThetaANotB,
}

impl<A: Allocator + Copy + Drop> ThetaDifferenceObject<A> {
    /// Appends the difference of two operands, in an order: the words of a call.
    fn compute(&self, memory: Memory<'_>, words: &str, answer: &mut String) -> Result<(), Fault> {
        let (first, rest) = cut_word(words);
        let (second, order) = cut_word(rest);
        let ordered = order_flag(order)?;
        let a: ThetaOperand<A> = operand_of(memory, self.alloc, first)?;
        let b: ThetaOperand<A> = operand_of(memory, self.alloc, second)?;
        let left = self
            .difference
            .compute(self.alloc, a.view(), b.view(), ordered)?;
        put_answer(answer, &left)
    }
}

impl<A: Allocator + Copy + Drop> Object<A> for ThetaDifferenceObject<A> {
    fn make(_plain: Global, alloc: A, settings: &str) -> Result<Self, Fault> {
        let difference = match seed_alone(settings)? {
            Some(seed) => ThetaANotB::with_seed(seed)?,
            None => ThetaANotB::default()?,
        };
        Ok(ThetaDifferenceObject { alloc, difference })
    }

    fn call(
        &mut self,
        memory: Memory<'_>,
        call: Call<'_>,
        answer: &mut String,
    ) -> Result<(), Fault> {
        match (call.verb, call.argument) {
            ("compute", words) => self.compute(memory, words, answer),
            ("seed_hash", "") | ("see", "") => self.see(answer),
            _ => Err(Fault::Unknown),
        }
    }

    fn see(&self, text: &mut String) -> Result<(), Fault> {
        let seed_hash = self.difference.seed_hash();
        write!(text, "{seed_hash}")?;
        Ok(())
    }
}
