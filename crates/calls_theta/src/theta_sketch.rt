//! `theta_sketch`: a theta sketch that takes updates.
use crate::theta_operand::{put_answer, put_sketch, put_view, sketch_of, update};
use calls_language::object::{Call, Left, Memory, Object};
use calls_language::series::{as_unsigned, hashes_of};
use calls_language::settings::Settings;
use calls_language::shown::{decimal_of, places_of, put_decimal, put_parts};
use calls_language::words::{Fault, list_of, number, order_flag, put_done};
use std::alloc::{Allocator, Global};
use theta_sketches::{ThetaSketch, ThetaSketchView};

/// A theta sketch that takes updates.
#[derive(Drop)]
pub struct ThetaSketchObject<A: Allocator> {
    sketch: ThetaSketch<A>,
}

impl<A: Allocator + Copy + Drop> ThetaSketchObject<A> {
    /// Makes a call that changes the sketch; returns whether the call is one.
    fn change(
        &mut self,
        plain: Global,
        call: Call<'_>,
        answer: &mut String,
    ) -> Result<bool, Fault> {
        match call.verb {
            "hash" => put_done(answer, self.sketch.update_hash(number(call.argument)?))?,
            "hashes" => {
                let hashes = hashes_of(plain, list_of(call.argument)?)?;
                put_done(answer, self.sketch.update_hashes(hashes.as_slice()))?;
            }
            "update" => {
                update(plain, &mut self.sketch, call.argument)?;
                answer.push_str("ok")?;
            }
            "trim" => put_done(answer, self.sketch.trim())?,
            "reset" => {
                self.sketch.reset();
                answer.push_str("ok")?;
            }
            "clone" => {
                self.sketch = self.sketch.clone()?;
                answer.push_str("ok")?;
            }
            _ => return Ok(false),
        }
        Ok(true)
    }

    /// Makes a call that reads the sketch.
    fn read(&self, call: Call<'_>, answer: &mut String) -> Result<(), Fault> {
        match (call.verb, call.argument) {
            ("compact", order) => put_answer(answer, &self.sketch.compact(order_flag(order)?)?)?,
            ("view", "from") => put_view(answer, ThetaSketchView::from(&self.sketch))?,
            ("view", "") => put_view(answer, self.sketch.as_view())?,
            ("decimal", places) => {
                put_decimal(answer, self.sketch.estimate_decimal(places_of(places)?))?;
            }
            ("parts", places) => {
                put_parts(answer, self.sketch.estimate_decimal(places_of(places)?))?;
            }
            ("fraction", places) => {
                let fraction = self.sketch.estimate_fraction();
                put_decimal(answer, decimal_of(fraction, places_of(places)?)?)?;
            }
            ("size", "") => {
                let size = self.sketch.estimated_size();
                write!(answer, "{size}")?;
            }
            ("see", "") => put_sketch(answer, &self.sketch)?,
            _ => return Err(Fault::Unknown),
        }
        Ok(())
    }
}

impl<A: Allocator + Copy + Drop> Object<A> for ThetaSketchObject<A> {
    fn make(_plain: Global, alloc: A, settings: &str) -> Result<Self, Fault> {
        let sketch = sketch_of(alloc, Settings::read(settings, ' ')?)?;
        Ok(ThetaSketchObject { sketch })
    }

    fn call(
        &mut self,
        memory: Memory<'_>,
        call: Call<'_>,
        answer: &mut String,
    ) -> Result<(), Fault> {
        if self.change(memory.plain(), call, answer)? {
            return Ok(());
        }
        self.read(call, answer)
    }

    fn see(&self, text: &mut String) -> Result<(), Fault> {
        put_sketch(text, &self.sketch)?;
        Ok(())
    }

    fn left_by(verb: &str) -> Left {
        if verb == "hashes" {
            Left::Beginning
        } else {
            Left::Unchanged
        }
    }
}
