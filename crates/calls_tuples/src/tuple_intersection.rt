//! `tuple_intersection`: an intersection of tuple sketches.
use crate::tuple_operand::TupleOperand;
use crate::tuples_shown::{put_answer, put_compact};
use calls_language::object::{Call, Memory, Object, operand_of};
use calls_language::settings::seed_alone;
use calls_language::words::{Fault, cut_word, order_flag};
use calls_policies::{FromWord, Summary};
use std::alloc::{Allocator, Global};
use std::marker::PhantomData;
use tuple_sketches::{SummaryCombinePolicy, SummaryPolicy, SummaryUpdatePolicy, TupleIntersection};

/// An intersection of tuple sketches under a policy `Q`. Operands that are made of updates are made by a policy `P`.
#[derive(Drop)]
pub struct TupleIntersectionObject<P, Q: SummaryPolicy, A: Allocator> {
    alloc: A,
    intersection: TupleIntersection<Q, A>,
    updates: PhantomData<P>,
}

impl<
    S: Summary<A>,
    P: SummaryUpdatePolicy<S, Summary = S> + FromWord<A> + Drop,
    Q: SummaryCombinePolicy<Summary = S> + FromWord<A> + Drop,
    A: Allocator + Copy + Drop,
> TupleIntersectionObject<P, Q, A> {
    /// Intersects with an operand.
    fn update(&mut self, memory: Memory<'_>, word: &str) -> Result<(), Fault> {
        let operand: TupleOperand<P, A> = operand_of(memory, self.alloc, word)?;
        self.intersection.update(operand.view())?;
        Ok(())
    }
}

impl<
    S: Summary<A>,
    P: SummaryUpdatePolicy<S, Summary = S> + FromWord<A> + Drop,
    Q: SummaryCombinePolicy<Summary = S> + FromWord<A> + Drop,
    A: Allocator + Copy + Drop,
> Object<A> for TupleIntersectionObject<P, Q, A> {
    fn make(_plain: Global, alloc: A, settings: &str) -> Result<Self, Fault> {
        let (word, rest) = cut_word(settings);
        let policy = Q::from_word(alloc, word)?;
        let intersection = match seed_alone(rest)? {
            Some(seed) => TupleIntersection::with_seed(alloc, policy, seed)?,
            None => TupleIntersection::new(alloc, policy)?,
        };
        Ok(TupleIntersectionObject {
            alloc,
            intersection,
            updates: PhantomData,
        })
    }

    fn call(
        &mut self,
        memory: Memory<'_>,
        call: Call<'_>,
        answer: &mut String,
    ) -> Result<(), Fault> {
        match (call.verb, call.argument) {
            ("update", word) => {
                self.update(memory, word)?;
                answer.push_str("ok")?;
            }
            ("has_result", "") => {
                let has_result = self.intersection.has_result();
                write!(answer, "{has_result}")?;
            }
            ("to_sketch", order) => match self.intersection.to_sketch(order_flag(order)?)? {
                Some(sketch) => put_answer(answer, &sketch)?,
                None => answer.push_str("none")?,
            },
            ("size", "") => {
                let size = self.intersection.estimated_size();
                write!(answer, "{size}")?;
            }
            ("see", "") => self.see(answer)?,
            _ => return Err(Fault::Unknown),
        }
        Ok(())
    }

    fn see(&self, text: &mut String) -> Result<(), Fault> {
        match self.intersection.to_sketch(true)? {
            Some(sketch) => put_compact(text, &sketch, true)?,
            None => text.push_str("none")?,
        }
        Ok(())
    }
}
