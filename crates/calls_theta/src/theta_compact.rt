//! `theta_compact`: a compact theta sketch.
use crate::theta_operand::{compact_of, put_compact, put_view};
use calls_language::object::{Call, Memory, Object};
use calls_language::shown::{decimal_of, places_of, put_decimal, put_image, put_parts};
use calls_language::words::{Fault, number};
use std::alloc::{Allocator, Global};
use theta_sketches::{CompactThetaSketch, ThetaSketchView};

/// A compact theta sketch.
#[derive(Drop)]
pub struct ThetaCompactObject<A: Allocator> {
    alloc: A,
    sketch: CompactThetaSketch<A>,
}

impl<A: Allocator + Copy + Drop> ThetaCompactObject<A> {
    /// What is read of its image under a seed.
    fn read_again(&self, seed: u64) -> Result<CompactThetaSketch<A>, Fault> {
        let image = self.sketch.serialize()?;
        Ok(CompactThetaSketch::deserialize_with_seed(self.alloc, image.as_slice(), seed)?)
    }

    /// Makes a call that reads the sketch.
    fn read(&self, call: Call<'_>, answer: &mut String) -> Result<(), Fault> {
        match (call.verb, call.argument) {
            ("serialize", "") => put_image(answer, self.sketch.serialize())?,
            ("view", "from") => put_view(answer, ThetaSketchView::from(&self.sketch))?,
            ("view", "") => put_view(answer, self.sketch.as_view())?,
            ("decimal", places) => {
                put_decimal(answer, self.sketch.estimate_decimal(places_of(places)?))?;
            }
            ("parts", places) => {
                put_parts(answer, self.sketch.estimate_decimal(places_of(places)?))?;
            }
            ("fraction", places) => {
                let fraction = self.sketch.estimate_fraction();
                put_decimal(answer, decimal_of(fraction, places_of(places)?)?)?;
            }
            ("size", "") => {
                let size = self.sketch.estimated_size();
                write!(answer, "{size}")?;
            }
            ("see", "") => put_compact(answer, &self.sketch, false)?,
            _ => return Err(Fault::Unknown),
        }
        Ok(())
    }
}

impl<A: Allocator + Copy + Drop> Object<A> for ThetaCompactObject<A> {
    fn make(plain: Global, alloc: A, settings: &str) -> Result<Self, Fault> {
        let sketch = compact_of(plain, alloc, settings)?;
        Ok(ThetaCompactObject { alloc, sketch })
    }

    fn call(
        &mut self,
        _memory: Memory<'_>,
        call: Call<'_>,
        answer: &mut String,
    ) -> Result<(), Fault> {
        match call.verb {
            "clone" => self.sketch = self.sketch.clone()?,
            "of_state" => {
                let state = self.sketch.state().clone()?;
                self.sketch = CompactThetaSketch::of_state(state);
            }
            "read" => self.sketch = self.read_again(number(call.argument)?)?,
            _ => return self.read(call, answer),
        }
        answer.push_str("ok")?;
        Ok(())
    }

    fn see(&self, text: &mut String) -> Result<(), Fault> {
        put_compact(text, &self.sketch, false)?;
        Ok(())
    }
}
