//! The policy of the library's example (docs/use/LIBRARY.md).
ghost use Rattle.std.specs.Prelude.{Some, false, max};

use std::alloc::Global;
use std::test::Fail;
use tuple_sketches::{Error, SummaryPolicy, SummaryUpdatePolicy, TupleSketch, TupleSketchBuilder};

/// Keeps the greatest value that a key was seen with.
#[derive(Debug, Clone, Copy)]
struct Greatest;

impl SummaryPolicy for Greatest {
    type Summary = u64;

    ghost creates = { λ policy. Some 0 };

    ghost takes_memory = { λ policy. false };

    fn create(&self) -> Result<u64, Error> {
        Ok(0)
    }
}

impl SummaryUpdatePolicy<u64> for Greatest {
    ghost updates = { λ policy greatest value. Some (max greatest value) };

    fn update(&self, greatest: &mut u64, value: u64) -> Result<(), Error> {
        *greatest = value.max(*greatest);
        Ok(())
    }
}

/// The slowest call of each page, as in docs/use/LIBRARY.md.
fn slowest(alloc: Global, calls: &[(&str, u64)]) -> Result<TupleSketch<Greatest>, Error> {
    let mut sketch = TupleSketchBuilder::new(Greatest).build(alloc)?;
    for (page, millis) in calls {
        sketch.update(*page, *millis)?;
    }
    Ok(sketch)
}

#[test]
fn greatest_values_are_kept(rt: HostRuntime) -> Result<(), Fail> {
    let calls = [("home", 20), ("search", 310), ("home", 45), ("search", 170)];
    let slowest = slowest(rt.alloc(), &calls)?;
    let mut millis: Vec<u64> = slowest
        .iter()
        .map(|entry| *entry.summary())
        .collect(rt.alloc())?;
    millis.sort_unstable();
    assert_eq!(rt; millis.as_slice(), [45, 310].as_slice());
    Ok(())
}
