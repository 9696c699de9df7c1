//! What is shown of the sketch of a plan.
use calls_language::entries::put_entries;
use calls_language::shown::put_viewed;
use calls_policies::Summary;
use std::alloc::{AllocError, Allocator};
use theta_sketches::CompactThetaSketch;
use tuple_sketches::CompactTupleSketch;

/// Appends a theta sketch.
pub fn put_sketch<A: Allocator>(
    text: &mut String,
    sketch: &CompactThetaSketch<A>,
) -> Result<(), AllocError> {
    let count = sketch.num_retained();
    let theta = sketch.theta64();
    let seed_hash = sketch.seed_hash();
    put_viewed(
        text,
        sketch.is_empty(),
        theta,
        count,
        seed_hash,
        sketch.is_ordered(),
    )?;
    let mut entries = Vec::new(*text.allocator());
    for entry in sketch.iter() {
        entries.push((entry.hash(), None))?;
    }
    text.push(' ')?;
    put_entries(text, entries.as_slice())
}

/// Appends a tuple sketch.
pub fn put_tuple_sketch<S: Summary<A>, A: Allocator>(
    text: &mut String,
    sketch: &CompactTupleSketch<S, A>,
) -> Result<(), AllocError> {
    let count = sketch.num_retained();
    let theta = sketch.theta64();
    let seed_hash = sketch.seed_hash();
    put_viewed(
        text,
        sketch.is_empty(),
        theta,
        count,
        seed_hash,
        sketch.is_ordered(),
    )?;
    text.push_str(" [")?;
    let mut is_first = true;
    for entry in sketch.iter() {
        if !is_first {
            text.push(' ')?;
        }
        is_first = false;
        let hash = entry.hash();
        write!(text, "{hash}:")?;
        entry.summary().put(text)?;
    }
    text.push(']')
}
