//! What is shown of tuple sketches.
use calls_language::shown::{
    Facts, order_word, put_facts, put_image, put_metadata, put_same, put_viewed,
};
use calls_language::words::Fault;
use calls_policies::Summary;
use std::alloc::{AllocError, Allocator, Global};
use theta_core::{EntrySketch, KeySketch, SketchView, TupleEntry};
use tuple_sketches::{
    CompactTupleSketch, SummaryPolicy, TupleSketch, TupleSketchIter, TupleSketchView,
};

/// The hashes of an iterator's entries, in its order.
fn hashes_in<S: Drop>(
    plain: Global,
    entries: TupleSketchIter<'_, S>,
) -> Result<Vec<u64>, AllocError> {
    let mut hashes = Vec::new(plain);
    for entry in entries {
        hashes.push(entry.hash())?;
    }
    Ok(hashes)
}

/// Appends a hash and its summary.
fn put_entry<S: Summary<A>, A: Allocator>(
    text: &mut String,
    entry: &TupleEntry<S>,
) -> Result<(), AllocError> {
    let hash = entry.hash();
    write!(text, "{hash}:")?;
    entry.summary().put(text)
}

/// Appends the entries of an iterator, ascending by hash if that is wanted, else in its order.
fn put_entries<S: Summary<A>, A: Allocator>(
    text: &mut String,
    entries: TupleSketchIter<'_, S>,
    ascending: bool,
) -> Result<(), AllocError> {
    let plain = *text.allocator();
    let mut list = Vec::new(plain);
    let mut places = Vec::new(plain);
    for entry in entries {
        places.push((entry.hash(), list.len()))?;
        list.push(entry)?;
    }
    if ascending {
        places.sort_unstable();
    }
    text.push_str(" [")?;
    let mut is_first = true;
    for (_, place) in &places {
        if !is_first {
            text.push(' ')?;
        }
        is_first = false;
        if let Some(entry) = list.get(*place) {
            put_entry::<S, A>(text, entry)?;
        }
    }
    text.push(']')
}

/// Appends a sketch that takes updates.
pub fn put_sketch<S: Summary<A>, P: SummaryPolicy<Summary = S>, A: Allocator>(
    text: &mut String,
    sketch: &TupleSketch<P, A>,
) -> Result<(), AllocError> {
    let facts = Facts {
        empty: sketch.is_empty(),
        theta: sketch.theta64(),
        count: sketch.num_retained(),
        fraction: sketch.estimate_fraction(),
        estimating: sketch.is_estimation_mode(),
        seed_hash: sketch.seed_hash(),
    };
    put_facts(text, facts)?;
    let lg_k = sketch.lg_k();
    let size = sketch.estimated_size();
    write!(text, " lg_k={lg_k} size={size}")?;
    put_entries::<S, A>(text, sketch.iter(), true)
}

/// Appends a compact sketch, with its entries in their order, or ascending.
pub fn put_compact<S: Summary<A>, A: Allocator>(
    text: &mut String,
    sketch: &CompactTupleSketch<S, A>,
    ascending: bool,
) -> Result<(), AllocError> {
    let facts = Facts {
        empty: sketch.is_empty(),
        theta: sketch.theta64(),
        count: sketch.num_retained(),
        fraction: sketch.estimate_fraction(),
        estimating: sketch.is_estimation_mode(),
        seed_hash: sketch.seed_hash(),
    };
    put_facts(text, facts)?;
    let order = order_word(sketch.is_ordered());
    let size = sketch.estimated_size();
    write!(text, " {order} size={size}")?;
    put_entries::<S, A>(text, sketch.iter(), ascending)
}

/// Appends a compact sketch that a call returned, and its image if it is ordered.
pub fn put_answer<S: Summary<A>, A: Allocator + Clone + Drop>(
    text: &mut String,
    sketch: &CompactTupleSketch<S, A>,
) -> Result<(), Fault> {
    put_compact(text, sketch, !sketch.is_ordered())?;
    if sketch.is_ordered() {
        text.push_str(" image=")?;
        put_image(text, sketch.serialize())?;
    }
    Ok(())
}

/// Whether the hashes of a view, by its `hashes` and by its `entries`, are these.
fn has_hashes<'v, S: Summary<A>, A: Allocator>(
    view: SketchView<'v, TupleEntry<S>, A>,
    plain: Global,
    wanted: &[u64],
) -> Result<bool, AllocError> {
    let mut hashes = Vec::new(plain);
    for hash in view.hashes() {
        hashes.push(hash)?;
    }
    let mut listed = Vec::new(plain);
    for entry in view.entries() {
        listed.push(entry.hash())?;
    }
    Ok(hashes.as_slice() == wanted && listed.as_slice() == wanted)
}

/// Appends a view of a sketch.
pub fn put_view<S: Summary<A>, A: Allocator>(
    text: &mut String,
    view: TupleSketchView<'_, S, A>,
) -> Result<(), AllocError> {
    let ordered = view.is_ordered();
    let seed_hash = view.seed_hash();
    put_viewed(
        text,
        view.is_empty(),
        view.theta64(),
        view.num_retained(),
        seed_hash,
        ordered,
    )?;
    put_entries::<S, A>(text, view.iter(), !ordered)?;
    put_metadata(text, view.metadata())?;
    let plain = *text.allocator();
    let same = has_hashes(view, plain, hashes_in(plain, view.iter())?.as_slice())?;
    put_same(text, same)
}
