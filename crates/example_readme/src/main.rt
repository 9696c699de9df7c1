//! Counts the visitors of two days.
#![tactic(auto)]

ghost use Rattle.std.specs.Prelude.{◌≡◌, ◌^◌, IfOk, OnOk};
ghost use Rattle.theta_sketches.specs.Streams.{kmin, set_of, retained_of, MAX_THETA};
ghost use Rattle.example_readme.specs.Visitors.{AddsDay, all_hashes};

mod stopped;

use crate::stopped::Stopped;
use std::alloc::Global;
use theta_sketches::{
    CompactThetaSketch, Error, ThetaSketchBuilder, ThetaUnion, ThetaUnionBuilder,
};

/// Adds the visitors of a day to a union.
fn add_day(union: &mut ThetaUnion, alloc: Global, names: &[&str]) -> Result<(), Error>
    ensures { OnOk result (AddsDay union.old union.new names.now) }
{
    let mut sketch = ThetaSketchBuilder::default().lg_k(14).build(alloc)?;
    for name in names {
        sketch.update(*name)?;
    }
    union.update(sketch.as_view())?;
    Ok(())
}

/// The visitors of all days: the 2^14 least hashes of their names, and as theta the next.
fn total(alloc: Global, days: &[&[&str]]) -> Result<CompactThetaSketch, Error>
    ensures { IfOk result (λ s. retained_of s ≡ kmin (2 ^ 14) (set_of (all_hashes days.now)) MAX_THETA) }
{
    let mut union = ThetaUnionBuilder::default().lg_k(14).build(alloc)?;
    for names in days {
        add_day(&mut union, alloc, *names)?;
    }
    union.to_sketch(true)
}

fn main(rt: HostRuntime) -> Result<(), Stopped> {
    let all = total(rt.alloc(), &[&["ann", "bob", "ann"], &["bob", "cy"]])?;
    let visitors = all.estimate_decimal(2);
    println!(rt; "{visitors} visitors")?;
    Ok(())
}
