//! `tuple_compact`: a compact tuple sketch.
use crate::tuple_operand::compact_of;
use crate::tuples_shown::{put_compact, put_view};
use calls_language::object::{Call, Memory, Object};
use calls_language::shown::{decimal_of, places_of, put_decimal, put_image, put_parts};
use calls_language::words::{Fault, cut_word, number};
use calls_policies::{FromWord, Summary};
use std::alloc::{Allocator, Global};
use std::marker::PhantomData;
use tuple_sketches::{CompactTupleSketch, SummaryUpdatePolicy, TupleSketchView};

/// A compact tuple sketch. One that is made of updates is made by a policy `P`.
#[derive(Drop)]
pub struct TupleCompactObject<S: Drop, P, A: Allocator> {
    alloc: A,
    sketch: CompactTupleSketch<S, A>,
    policy: PhantomData<P>,
}

impl<S: Summary<A>, P, A: Allocator + Copy + Drop> TupleCompactObject<S, P, A> {
    /// What is read of its image under a seed.
    fn read_again(&self, seed: u64) -> Result<CompactTupleSketch<S, A>, Fault> {
        let image = self.sketch.serialize()?;
        Ok(CompactTupleSketch::deserialize_with_seed(self.alloc, image.as_slice(), seed)?)
    }

    /// Makes a call that reads the sketch.
    fn read(&self, call: Call<'_>, answer: &mut String) -> Result<(), Fault> {
        match (call.verb, call.argument) {
            ("serialize", "") => put_image(answer, self.sketch.serialize())?,
            ("view", "from") => put_view(answer, TupleSketchView::from(&self.sketch))?,
            ("view", "") => put_view(answer, self.sketch.as_view())?,
            ("decimal", places) => {
                put_decimal(answer, self.sketch.estimate_decimal(places_of(places)?))?;
            }
            ("parts", places) => {
                put_parts(answer, self.sketch.estimate_decimal(places_of(places)?))?;
            }
            ("fraction", places) => {
                let fraction = self.sketch.estimate_fraction();
                put_decimal(answer, decimal_of(fraction, places_of(places)?)?)?;
            }
            ("size", "") => {
                let size = self.sketch.estimated_size();
                write!(answer, "{size}")?;
            }
            ("see", "") => put_compact(answer, &self.sketch, false)?,
            _ => return Err(Fault::Unknown),
        }
        Ok(())
    }
}

impl<
    S: Summary<A>,
    P: SummaryUpdatePolicy<S, Summary = S> + FromWord<A> + Drop,
    A: Allocator + Copy + Drop,
> Object<A> for TupleCompactObject<S, P, A> {
    fn make(plain: Global, alloc: A, settings: &str) -> Result<Self, Fault> {
        let (_, word) = cut_word(settings);
        let sketch = compact_of::<S, P, A>(plain, alloc, word)?;
        Ok(TupleCompactObject {
            alloc,
            sketch,
            policy: PhantomData,
        })
    }

    fn call(
        &mut self,
        _memory: Memory<'_>,
        call: Call<'_>,
        answer: &mut String,
    ) -> Result<(), Fault> {
        match call.verb {
            "clone" => self.sketch = self.sketch.clone()?,
            "read" => self.sketch = self.read_again(number(call.argument)?)?,
            _ => return self.read(call, answer),
        }
        answer.push_str("ok")?;
        Ok(())
    }

    fn see(&self, text: &mut String) -> Result<(), Fault> {
        put_compact(text, &self.sketch, false)?;
        Ok(())
    }
}
