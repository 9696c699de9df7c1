//! Counts the visitors of one day who return on another.
#![tactic(auto)]

ghost use Rattle.std.specs.Prelude.{◌≡◌, IfOk};
ghost use Rattle.theta_sketches.specs.Streams.{IsSketchOf, MAX_THETA, DEFAULT_UPDATE_SEED, set_below, shared_hashes};
ghost use Rattle.example_returning.specs.Visitors.{day_hashes};

mod stopped;

use crate::stopped::Stopped;
use std::alloc::Global;
use theta_sketches::{
    CompactThetaSketch, Error, ThetaIntersection, ThetaSketch, ThetaSketchBuilder,
};

/// A sketch of the visitors of a day.
fn sketch_of(alloc: Global, names: &[&str]) -> Result<ThetaSketch, Error>
    ensures { IfOk result (λ s. IsSketchOf 14 MAX_THETA DEFAULT_UPDATE_SEED s (day_hashes names.now)) }
{
    let mut sketch = ThetaSketchBuilder::default().lg_k(14).build(alloc)?;
    for name in names {
        sketch.update(*name)?;
    }
    Ok(sketch)
}

/// The visitors of both days: of the hashes that both days have, exactly those below its theta.
fn returning(alloc: Global, first: &[&str], second: &[&str]) -> Result<CompactThetaSketch, Error>
    ensures { IfOk result (λ s.
        s.entries ≡ set_below s.theta (shared_hashes (day_hashes first.now) (day_hashes second.now))) }
{
    let one = sketch_of(alloc, first)?;
    let two = sketch_of(alloc, second)?;
    let mut both = ThetaIntersection::default(alloc)?;
    both.update(one.as_view())?;
    both.update(two.as_view())?;
    let found = both.to_sketch(true)?;
    Ok(found.unwrap())
}

fn main(rt: HostRuntime) -> Result<(), Stopped> {
    let found = returning(rt.alloc(), &["ann", "bob", "ann"], &["bob", "cy"])?;
    let visitors = found.estimate_decimal(2);
    println!(rt; "{visitors} visitors returned")?;
    Ok(())
}
