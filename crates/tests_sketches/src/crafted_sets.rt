//! Set operations on images whose hashes were chosen: they are multiples of 2^40, so in a table of slots they would
//! all share one path. A table of 300,000 of them would take minutes, and a test may take one.
use sketch_base::Error;
use std::alloc::{AllocError, Global};
use std::process::Abort;
use std::test::Fail;
use theta_sketches::{CompactThetaSketch, ThetaANotB, ThetaIntersection, ThetaSketchView};

/// The hashes of each image.
const COUNT: u64 = 300_000;

/// The first number of the second image. The images share the rest of the first.
const SECOND: u64 = 100_001;

/// An image of COUNT hashes, the multiples of 2^40 from a first one on: ascending and flagged as ordered, or
/// descending.
fn image_from(alloc: Global, first: u64, ordered: bool) -> Result<Vec<u8>, AllocError> {
    let mut bytes = Vec::new(alloc);
    let flags = if ordered { 0x1a } else { 0x0a };
    bytes.extend_from_slice(&[2, 3, 3, 0, 0, flags, 0xcc, 0x93])?;
    bytes.extend_from_slice(&COUNT.to_le_bytes())?;
    for place in 0..COUNT {
        let number = if ordered {
            first.saturating_add(place)
        } else {
            first.saturating_add(COUNT - 1).saturating_sub(place)
        };
        bytes.extend_from_slice(&number.wrapping_mul(1 << 40).to_le_bytes())?;
    }
    Ok(bytes)
}

/// The sketch of such an image.
fn sketch_from(alloc: Global, first: u64, ordered: bool) -> Result<CompactThetaSketch, Error> {
    let bytes = image_from(alloc, first, ordered)?;
    CompactThetaSketch::deserialize(alloc, &bytes)
}

/// How many hashes a sketch has, and the first and the last of them as multiples of 2^40.
fn ends_of(sketch: &CompactThetaSketch) -> (usize, u64, u64) {
    let first = sketch.iter().next().map(|entry| entry.hash() >> 40);
    let last = sketch.iter().last().map(|entry| entry.hash() >> 40);
    (sketch.num_retained(), first.unwrap_or(0), last.unwrap_or(0))
}

/// The intersection of two views.
fn shared(
    alloc: Global,
    a: ThetaSketchView<'_>,
    b: ThetaSketchView<'_>,
) -> Result<(usize, u64, u64), Error> {
    let mut intersection = ThetaIntersection::default(alloc)?;
    intersection.update(a)?;
    intersection.update(b)?;
    match intersection.to_sketch(true)? {
        Some(sketch) => Ok(ends_of(&sketch)),
        None => Ok((0, 0, 0)),
    }
}

/// The difference of two views.
fn left(
    alloc: Global,
    a: ThetaSketchView<'_>,
    b: ThetaSketchView<'_>,
) -> Result<(usize, u64, u64), Error> {
    let difference = ThetaANotB::default()?;
    let sketch = difference.compute(alloc, a, b, true)?;
    Ok(ends_of(&sketch))
}

/// Both operations on the two images, in these orders.
fn both(
    alloc: Global,
    a_ordered: bool,
    b_ordered: bool,
) -> Result<((usize, u64, u64), (usize, u64, u64)), Error> {
    let a = sketch_from(alloc, 1, a_ordered)?;
    let b = sketch_from(alloc, SECOND, b_ordered)?;
    let met = shared(alloc, a.as_view(), b.as_view())?;
    Ok((met, left(alloc, a.as_view(), b.as_view())?))
}

#[test]
fn chosen_hashes_take_no_longer(rt: HostRuntime) -> Result<(), Fail> {
    let wanted = ((200_000, 100_001, 300_000), (100_000, 1, 100_000));
    for (a_ordered, b_ordered) in [(true, true), (true, false), (false, true), (false, false)] {
        let found = both(rt.alloc(), a_ordered, b_ordered)?;
        assert_eq!(rt; found, wanted, "of {a_ordered}, {b_ordered}");
    }
    Ok(())
}
