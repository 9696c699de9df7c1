//! The example in the doc comment of the sketches.

use std::alloc::Global;
use std::test::Fail;
use tuple_sketches::{
    CompactTupleSketch, DefaultUpdatePolicy, Error, TupleSketch, TupleSketchBuilder,
};

/// A sketch of sums.
type Sums = TupleSketch<DefaultUpdatePolicy<u64>>;

/// The number of keys of a sketch, and the sum of all their summaries.
fn total(sketch: &CompactTupleSketch<u64>) -> (usize, u64) {
    let sums = sketch.iter().map(|entry| *entry.summary());
    let total = sums.fold(0, |total: u64, sum| total.saturating_add(sum));
    (sketch.num_retained(), total)
}

/// The visits of each visitor.
fn visits(alloc: Global) -> Result<Sums, Error> {
    let builder = TupleSketchBuilder::new(DefaultUpdatePolicy::<u64>::default());
    let mut sketch = builder.lg_k(14).build(alloc)?;
    sketch.update("ann", 3)?;
    sketch.update("bob", 1)?;
    sketch.update("ann", 4)?;
    Ok(sketch)
}

/// A copy that counts one more visit of bob.
fn with_another(visits: &Sums) -> Result<Sums, Error> {
    let mut copy = visits.clone()?;
    copy.update("bob", 1)?;
    Ok(copy)
}

/// The total of the compact form of a sketch.
fn total_of(sketch: &Sums) -> Result<(usize, u64), Error> {
    Ok(total(&sketch.compact(true)?))
}

#[test]
fn the_documented_example(rt: HostRuntime) -> Result<(), Fail> {
    let visits = visits(rt.alloc())?;
    let copy = with_another(&visits)?;
    assert_eq!(rt; (total_of(&visits)?, total_of(&copy)?), ((2, 8), (2, 9)));
    Ok(())
}
