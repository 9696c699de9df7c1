//! Read-only views of theta sketches, for operators.
ghost use Rattle.std.specs.Prelude.{◌≡◌};
ghost use Rattle.core_laws.specs.Entries.{hash_key};
ghost use Rattle.core_state.specs.View.{ViewsSketch, ViewsCompact};

use crate::compact_sketch::CompactThetaSketch;
use crate::sketch::ThetaSketch;
use core_slots::ThetaEntry;
use core_state::SketchView;
use std::alloc::{Allocator, Global};

/// A view of a mutable or a compact theta sketch. A view of a mutable sketch is not ordered. The crate's
/// documentation has an example.
pub type ThetaSketchView<'a, A = Global> = SketchView<'a, ThetaEntry, A>;

impl<'a, A: Allocator> From<&'a ThetaSketch<A>> for SketchView<'a, ThetaEntry, A> {
    ghost from_gives = { λ sketch view. ViewsSketch hash_key view sketch.now };

    fn from(sketch: &'a ThetaSketch<A>) -> Self {
        sketch.as_view()
    }
}

impl<'a, A: Allocator> From<&'a CompactThetaSketch<A>> for SketchView<'a, ThetaEntry, A> {
    ghost from_gives = { λ sketch view. ViewsCompact hash_key view sketch.now };

    fn from(sketch: &'a CompactThetaSketch<A>) -> Self {
        sketch.as_view()
    }
}
