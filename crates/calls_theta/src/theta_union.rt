//! `theta_union`: a union of theta sketches.
use crate::theta_operand::{ThetaOperand, put_answer, put_compact};
use calls_language::object::{Call, Left, Memory, Object, Operand, operand_of, operands_of};
use calls_language::settings::Settings;
use calls_language::words::{Fault, is_failure, list_of, order_flag, put_done, small_number};
use std::alloc::{Allocator, Global};
use theta_sketches::{ThetaUnion, ThetaUnionBuilder};

/// A union of theta sketches.
#[derive(Drop)]
pub struct ThetaUnionObject<A: Allocator> {
    alloc: A,
    union: ThetaUnion<A>,
}

/// The builder with these settings.
fn builder_of(settings: Settings) -> ThetaUnionBuilder {
    let mut builder = ThetaUnionBuilder::default();
    if let Some(lg_k) = settings.lg_k {
        builder = builder.lg_k(lg_k);
    }
    if let Some(factor) = settings.factor {
        builder = builder.resize_factor(factor);
    }
    if let Some(start) = settings.start {
        builder = builder.starting_theta(start);
    }
    if let Some(seed) = settings.seed {
        builder = builder.seed(seed);
    }
    builder
}

impl<A: Allocator + Copy + Drop> ThetaUnionObject<A> {
    /// Merges an operand.
    fn update(&mut self, memory: Memory<'_>, word: &str) -> Result<(), Fault> {
        let operand: ThetaOperand<A> = operand_of(memory, self.alloc, word)?;
        self.union.update(operand.view())?;
        Ok(())
    }

    /// Merges operands in one call.
    fn update_all(&mut self, memory: Memory<'_>, words: &str) -> Result<(), Fault> {
        let operands: Vec<ThetaOperand<A>> = operands_of(memory, self.alloc, words)?;
        let mut views = Vec::new(memory.plain());
        for operand in &operands {
            views.push(operand.view())?;
        }
        self.union.update_all(views.as_slice())?;
        Ok(())
    }

    /// Whether it refuses an operand with `Failed`.
    fn refuses(&mut self, plain: Global, word: &str) -> Result<bool, Fault> {
        let operand = ThetaOperand::read(plain, self.alloc, word)?;
        Ok(is_failure(self.union.update(operand.view())))
    }
}

impl<A: Allocator + Copy + Drop> Object<A> for ThetaUnionObject<A> {
    fn make(_plain: Global, alloc: A, settings: &str) -> Result<Self, Fault> {
        let union = builder_of(Settings::read(settings, ' ')?).build(alloc)?;
        Ok(ThetaUnionObject { alloc, union })
    }

    fn call(
        &mut self,
        memory: Memory<'_>,
        call: Call<'_>,
        answer: &mut String,
    ) -> Result<(), Fault> {
        match (call.verb, call.argument) {
            ("update", word) => self.update(memory, word)?,
            ("update_all", list) => self.update_all(memory, list_of(list)?)?,
            ("lower_lg_k", lg_k) => self.union.lower_lg_k(small_number(lg_k)?)?,
            ("reset", "") => self.union.reset(),
            ("to_sketch", order) => {
                return put_answer(answer, &self.union.to_sketch(order_flag(order)?)?);
            }
            ("size", "") => {
                let size = self.union.estimated_size();
                write!(answer, "{size}")?;
                return Ok(());
            }
            ("see", "") => return self.see(answer),
            _ => return Err(Fault::Unknown),
        }
        answer.push_str("ok")?;
        Ok(())
    }

    fn see(&self, text: &mut String) -> Result<(), Fault> {
        put_compact(text, &self.union.to_sketch(true)?, true)?;
        Ok(())
    }

    fn left_by(verb: &str) -> Left {
        match verb {
            "update" | "update_all" => Left::Failed,
            _ => Left::Unchanged,
        }
    }

    fn is_failed(&mut self, plain: Global) -> Result<bool, Fault> {
        let refuses_empty = self.refuses(plain, "sketch:seed=9001")?;
        let refuses_other = self.refuses(plain, "sketch:seed=77/5")?;
        let refuses_none = is_failure(self.union.update_all::<A>(&[]));
        let answers = !is_failure(self.union.to_sketch(true).map(|_| ()));
        let lowers = !is_failure(self.union.lower_lg_k(4));
        Ok(refuses_empty && refuses_other && refuses_none && !answers && !lowers)
    }

    fn reset(&mut self) {
        self.union.reset();
    }
}
