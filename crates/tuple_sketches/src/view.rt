//! Read-only views of tuple sketches, for operators, and iterators over their entries.
ghost use Rattle.std.specs.Prelude.{◌≡◌};
ghost use Rattle.core_slots.specs.Entry.{tuple_key};
ghost use Rattle.core_state.specs.View.{ViewsSketch, ViewsCompact};

use crate::compact_sketch::CompactTupleSketch;
use crate::sketch::TupleSketch;
use core_operators::EntryIter;
use core_policies::SummaryPolicy;
use core_slots::TupleEntry;
use core_state::SketchView;
use std::alloc::{Allocator, Global};

/// A view of a mutable or a compact tuple sketch, with any summaries. A view of a mutable sketch is not ordered. The
/// crate's documentation has an example.
pub type TupleSketchView<'a, S, A = Global> = SketchView<'a, TupleEntry<S>, A>;

/// Iterates over references to the entries of a tuple sketch, each once: those of a mutable sketch in an unspecified
/// order, those of a compact sketch in its order. Its `size_hint` is exact over a compact sketch. Over a mutable
/// sketch the lower bound is 0, and the upper bound is at least the entries left.
pub type TupleSketchIter<'a, S> = EntryIter<'a, TupleEntry<S>>;

impl<'a, P: SummaryPolicy, A: Allocator> From<&'a TupleSketch<P, A>>
    for SketchView<'a, TupleEntry<P::Summary>, A> {
    ghost from_gives = { λ sketch view. ViewsSketch tuple_key view sketch.now.state };

    fn from(sketch: &'a TupleSketch<P, A>) -> Self {
        sketch.as_view()
    }
}

impl<'a, S: Drop, A: Allocator> From<&'a CompactTupleSketch<S, A>>
    for SketchView<'a, TupleEntry<S>, A> {
    ghost from_gives = { λ sketch view. ViewsCompact tuple_key view sketch.now };

    fn from(sketch: &'a CompactTupleSketch<S, A>) -> Self {
        sketch.as_view()
    }
}
