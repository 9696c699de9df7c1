//! `theta_intersection`: an intersection of theta sketches.
use crate::theta_operand::{ThetaOperand, put_answer, put_compact};
use calls_language::object::{Call, Memory, Object, operand_of};
use calls_language::settings::seed_alone;
use calls_language::words::{Fault, order_flag};
use std::alloc::{Allocator, Global};
use theta_sketches::ThetaIntersection;

/// An intersection of theta sketches.
#[derive(Drop)]
pub struct ThetaIntersectionObject<A: Allocator> {
    alloc: A,
    intersection: ThetaIntersection<A>,
}

impl<A: Allocator + Copy + Drop> ThetaIntersectionObject<A> {
    /// Intersects with an operand.
    fn update(&mut self, memory: Memory<'_>, word: &str) -> Result<(), Fault> {
        let operand: ThetaOperand<A> = operand_of(memory, self.alloc, word)?;
        self.intersection.update(operand.view())?;
        Ok(())
    }
}

impl<A: Allocator + Copy + Drop> Object<A> for ThetaIntersectionObject<A> {
    fn make(_plain: Global, alloc: A, settings: &str) -> Result<Self, Fault> {
        let intersection = match seed_alone(settings)? {
            Some(seed) => ThetaIntersection::with_seed(alloc, seed)?,
            None => ThetaIntersection::default(alloc)?,
        };
        Ok(ThetaIntersectionObject {
            alloc,
            intersection,
        })
    }

    fn call(
        &mut self,
        memory: Memory<'_>,
        call: Call<'_>,
        answer: &mut String,
    ) -> Result<(), Fault> {
        match (call.verb, call.argument) {
            ("update", word) => {
                self.update(memory, word)?;
                answer.push_str("ok")?;
            }
            ("has_result", "") => {
                let has_result = self.intersection.has_result();
                write!(answer, "{has_result}")?;
            }
            ("to_sketch", order) => match self.intersection.to_sketch(order_flag(order)?)? {
                Some(sketch) => put_answer(answer, &sketch)?,
                None => answer.push_str("none")?,
            },
            ("size", "") => {
                let size = self.intersection.estimated_size();
                write!(answer, "{size}")?;
            }
            ("see", "") => self.see(answer)?,
            _ => return Err(Fault::Unknown),
        }
        Ok(())
    }

    fn see(&self, text: &mut String) -> Result<(), Fault> {
        match self.intersection.to_sketch(true)? {
            Some(sketch) => put_compact(text, &sketch, true)?,
            None => text.push_str("none")?,
        }
        Ok(())
    }
}
