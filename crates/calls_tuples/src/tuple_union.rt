//! `tuple_union`: a union of tuple sketches.
use crate::tuple_operand::TupleOperand;
use crate::tuples_shown::{put_answer, put_compact};
use calls_language::object::{Call, Left, Memory, Object, Operand, operand_of, operands_of};
use calls_language::settings::Settings;
use calls_language::words::{Fault, cut_word, is_failure, list_of, order_flag, small_number};
use calls_policies::{FromWord, Summary};
use std::alloc::{AllocError, Allocator, Global};
use std::marker::PhantomData;
use tuple_sketches::{
    SummaryCombinePolicy, SummaryPolicy, SummaryUpdatePolicy, TupleSketchView, TupleUnion,
    TupleUnionBuilder,
};

/// A union of tuple sketches under a policy `Q`. Operands that are made of updates are made by a policy `P`.
#[derive(Drop)]
pub struct TupleUnionObject<P, Q: SummaryPolicy, A: Allocator> {
    alloc: A,
    union: TupleUnion<Q, A>,
    updates: PhantomData<P>,
}

/// The builder of a policy with these settings.
fn builder_of<Q>(policy: Q, settings: Settings) -> TupleUnionBuilder<Q> {
    let mut builder = TupleUnionBuilder::new(policy);
    if let Some(lg_k) = settings.lg_k {
        builder = builder.lg_k(lg_k);
    }
    if let Some(factor) = settings.factor {
        builder = builder.resize_factor(factor);
    }
    if let Some(start) = settings.start {
        builder = builder.starting_theta(start);
    }
    if let Some(seed) = settings.seed {
        builder = builder.seed(seed);
    }
    builder
}

/// Views of operands.
fn views_of<'a, S: Drop, P: SummaryPolicy<Summary = S>, A: Allocator + Copy + Drop>(
    plain: Global,
    operands: &'a [TupleOperand<P, A>],
) -> Result<Vec<TupleSketchView<'a, S, A>>, AllocError> {
    let mut views = Vec::with_capacity(plain, operands.len())?;
    for operand in operands {
        views.push(operand.view())?;
    }
    Ok(views)
}

impl<
    S: Summary<A>,
    P: SummaryUpdatePolicy<S, Summary = S> + FromWord<A> + Drop,
    Q: SummaryCombinePolicy<Summary = S> + FromWord<A> + Drop,
    A: Allocator + Copy + Drop,
> TupleUnionObject<P, Q, A> {
    /// Merges an operand.
    fn update(&mut self, memory: Memory<'_>, word: &str) -> Result<(), Fault> {
        let operand: TupleOperand<P, A> = operand_of(memory, self.alloc, word)?;
        self.union.update(operand.view())?;
        Ok(())
    }

    /// Merges operands in one call.
    fn update_all(&mut self, memory: Memory<'_>, words: &str) -> Result<(), Fault> {
        let operands: Vec<TupleOperand<P, A>> = operands_of(memory, self.alloc, words)?;
        let views = views_of(memory.plain(), operands.as_slice())?;
        self.union.update_all(views.as_slice())?;
        Ok(())
    }

    /// Whether it refuses an operand with `Failed`.
    fn refuses(&mut self, plain: Global, word: &str) -> Result<bool, Fault> {
        let operand: TupleOperand<P, A> = TupleOperand::read(plain, self.alloc, word)?;
        Ok(is_failure(self.union.update(operand.view())))
    }

    /// Whether it refuses a sketch of another seed with `Failed`, whose one entry has a number or else a letter.
    fn refuses_other(&mut self, plain: Global) -> Result<bool, Fault> {
        match self.refuses(plain, "sketch:seed=77/5:3") {
            Err(Fault::Unknown) => self.refuses(plain, "sketch:seed=77/5:a"),
            refuses => refuses,
        }
    }

    /// Whether it refuses no operands with `Failed`.
    fn refuses_none(&mut self) -> bool {
        is_failure(self.union.update_all::<A>(&[]))
    }
}

impl<
    S: Summary<A>,
    P: SummaryUpdatePolicy<S, Summary = S> + FromWord<A> + Drop,
    Q: SummaryCombinePolicy<Summary = S> + FromWord<A> + Drop,
    A: Allocator + Copy + Drop,
> Object<A> for TupleUnionObject<P, Q, A> {
    fn make(_plain: Global, alloc: A, settings: &str) -> Result<Self, Fault> {
        let (word, rest) = cut_word(settings);
        let policy = Q::from_word(alloc, word)?;
        let union = builder_of(policy, Settings::read(rest, ' ')?).build(alloc)?;
        Ok(TupleUnionObject {
            alloc,
            union,
            updates: PhantomData,
        })
    }

    fn call(
        &mut self,
        memory: Memory<'_>,
        call: Call<'_>,
        answer: &mut String,
    ) -> Result<(), Fault> {
        match (call.verb, call.argument) {
            ("update", word) => self.update(memory, word)?,
            ("update_all", list) => self.update_all(memory, list_of(list)?)?,
            ("lower_lg_k", lg_k) => self.union.lower_lg_k(small_number(lg_k)?)?,
            ("reset", "") => self.union.reset(),
            ("to_sketch", order) => {
                return put_answer(answer, &self.union.to_sketch(order_flag(order)?)?);
            }
            ("size", "") => {
                let size = self.union.estimated_size();
                write!(answer, "{size}")?;
                return Ok(());
            }
            ("see", "") => return self.see(answer),
            _ => return Err(Fault::Unknown),
        }
        answer.push_str("ok")?;
        Ok(())
    }

    fn see(&self, text: &mut String) -> Result<(), Fault> {
        put_compact(text, &self.union.to_sketch(true)?, true)?;
        Ok(())
    }

    fn left_by(verb: &str) -> Left {
        match verb {
            "update" | "update_all" => Left::Failed,
            _ => Left::Unchanged,
        }
    }

    fn is_failed(&mut self, plain: Global) -> Result<bool, Fault> {
        let refuses_empty = self.refuses(plain, "sketch:seed=9001")?;
        let refuses_other = self.refuses_other(plain)?;
        let refuses_none = self.refuses_none();
        let answers = !is_failure(self.union.to_sketch(true).map(|_| ()));
        let lowers = !is_failure(self.union.lower_lg_k(4));
        Ok(refuses_empty && refuses_other && refuses_none && !answers && !lowers)
    }

    fn reset(&mut self) {
        self.union.reset();
    }
}
