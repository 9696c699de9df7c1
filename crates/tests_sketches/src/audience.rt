//! The audience of the library's second example (docs/use/LIBRARY.md).

use sketch_base::Error;
use std::alloc::{AllocError, Global};
use std::test::Fail;
use theta_sketches::{
    CompactThetaSketch, ThetaANotB, ThetaSketch, ThetaSketchBuilder, ThetaSketchIter,
    ThetaSketchView, ThetaUnion, ThetaUnionBuilder,
};

/// The hashes of a sketch, ascending.
fn ascending(alloc: Global, entries: ThetaSketchIter<'_>) -> Result<Vec<u64>, AllocError> {
    let mut hashes: Vec<u64> = entries.map(|entry| entry.hash()).collect(alloc)?;
    hashes.sort_unstable();
    Ok(hashes)
}

/// Updates a union with a sketch.
fn add(union: &mut ThetaUnion, sketch: ThetaSketch) -> Result<(), Error> {
    union.update(sketch.as_view())
}

fn visitors(alloc: Global, hashes: &[u64]) -> Result<ThetaSketch, Error> {
    let mut sketch = ThetaSketchBuilder::default().build(alloc)?;
    for hash in hashes {
        sketch.update_hash(*hash)?;
    }
    Ok(sketch)
}

/// The visitors of A or B.
fn either(alloc: Global) -> Result<CompactThetaSketch, Error> {
    let mut either = ThetaUnionBuilder::default().build(alloc)?;
    add(&mut either, visitors(alloc, &[11, 12, 13])?)?;
    add(&mut either, visitors(alloc, &[13, 14])?)?;
    either.to_sketch(false)
}

/// The visitors of A or B, but not of C.
fn audience(alloc: Global) -> Result<CompactThetaSketch, Error> {
    let either = either(alloc)?;
    without_c(alloc, either.as_view())
}

fn without_c(alloc: Global, either: ThetaSketchView<'_>) -> Result<CompactThetaSketch, Error> {
    let c = visitors(alloc, &[12, 15])?;
    ThetaANotB::default()?.compute(alloc, either, c.as_view(), true)
}

/// The hashes of an audience, and its estimate as an exact fraction.
fn found(alloc: Global) -> Result<(Vec<u64>, (u128, u128)), Error> {
    let answer = audience(alloc)?;
    let fraction = answer.estimate_fraction();
    Ok((ascending(alloc, answer.iter())?, fraction))
}

#[test]
fn audience_example(rt: HostRuntime) -> Result<(), Fail> {
    let found = found(rt.alloc())?;
    assert_eq!(rt; found.0.as_slice(), [11, 13, 14].as_slice());
    assert_eq!(rt; found.1, (27670116110564327421, 9223372036854775807));
    Ok(())
}
