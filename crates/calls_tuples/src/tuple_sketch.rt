//! `tuple_sketch`: a tuple sketch that takes updates.
use crate::tuple_operand::{cut_value, sketch_of, update};
use crate::tuples_shown::{put_answer, put_sketch, put_view};
use calls_language::object::{Call, Memory, Object};
use calls_language::settings::Settings;
use calls_language::shown::{decimal_of, places_of, put_decimal, put_parts};
use calls_language::words::{Fault, cut_word, number, order_flag};
use calls_policies::{FromWord, Summary};
use std::alloc::{Allocator, Global};
use tuple_sketches::{SummaryPolicy, SummaryUpdatePolicy, TupleSketch, TupleSketchView};

/// A tuple sketch that takes updates.
#[derive(Drop)]
pub struct TupleSketchObject<P: SummaryPolicy, A: Allocator> {
    alloc: A,
    sketch: TupleSketch<P, A>,
}

impl<
    S: Summary<A>,
    P: SummaryUpdatePolicy<S, Summary = S> + FromWord<A> + Copy + Drop,
    A: Allocator + Copy + Drop,
> TupleSketchObject<P, A> {
    /// Updates the sketch with a value at a key or a hash: the words of a call.
    fn update(&mut self, memory: Memory<'_>, call: Call<'_>) -> Result<(), Fault> {
        let (key, word) = cut_value(call.argument)?;
        memory.pause();
        let value = S::read(self.alloc, word);
        memory.refuse();
        let value = value?;
        if call.verb == "hash" {
            self.sketch.update_hash(number(key)?, value)?;
            return Ok(());
        }
        update(memory.plain(), &mut self.sketch, key, value)
    }

    /// Makes a call that reads the sketch.
    fn read(&self, call: Call<'_>, answer: &mut String) -> Result<(), Fault> {
        match (call.verb, call.argument) {
            ("compact", order) => {
                put_answer(answer, &self.sketch.compact(order_flag(order)?)?)?;
            }
            ("view", "from") => put_view(answer, TupleSketchView::from(&self.sketch))?,
            ("view", "") => put_view(answer, self.sketch.as_view())?,
            ("decimal", places) => {
                put_decimal(answer, self.sketch.estimate_decimal(places_of(places)?))?;
            }
            ("parts", places) => {
                put_parts(answer, self.sketch.estimate_decimal(places_of(places)?))?;
            }
            ("fraction", places) => {
                let fraction = self.sketch.estimate_fraction();
                put_decimal(answer, decimal_of(fraction, places_of(places)?)?)?;
            }
            ("size", "") => {
                let size = self.sketch.estimated_size();
                write!(answer, "{size}")?;
            }
            ("see", "") => put_sketch::<S, P, A>(answer, &self.sketch)?,
            _ => return Err(Fault::Unknown),
        }
        Ok(())
    }
}

impl<
    S: Summary<A>,
    P: SummaryUpdatePolicy<S, Summary = S> + FromWord<A> + Copy + Drop,
    A: Allocator + Copy + Drop,
> Object<A> for TupleSketchObject<P, A> {
    fn make(_plain: Global, alloc: A, settings: &str) -> Result<Self, Fault> {
        let (word, rest) = cut_word(settings);
        let policy = P::from_word(alloc, word)?;
        let sketch = sketch_of(alloc, policy, Settings::read(rest, ' ')?)?;
        Ok(TupleSketchObject { alloc, sketch })
    }

    fn call(
        &mut self,
        memory: Memory<'_>,
        call: Call<'_>,
        answer: &mut String,
    ) -> Result<(), Fault> {
        match call.verb {
            "hash" | "update" => self.update(memory, call)?,
            "trim" => self.sketch.trim()?,
            "reset" => self.sketch.reset(),
            "clone" => self.sketch = self.sketch.clone()?,
            _ => return self.read(call, answer),
        }
        answer.push_str("ok")?;
        Ok(())
    }

    fn see(&self, text: &mut String) -> Result<(), Fault> {
        put_sketch::<S, P, A>(text, &self.sketch)?;
        Ok(())
    }
}
