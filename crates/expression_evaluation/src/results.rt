//! What steps over theta sketches leave: a sketch, or a union that is still open.
ghost use Rattle.std.specs.Prelude.{◌≡◌, None, true, IfOk};
ghost use Rattle.core_laws.specs.Refusal.{Refuses};
ghost use Rattle.expression_evaluation.specs.Contents.{contents_of};

use crate::open_union::OpenUnion;
use sketch_base::Error;
use std::alloc::Allocator;
use theta_sketches::CompactThetaSketch;

/// The result of a step. A union stays open, so that a chain of unions is one union that is compacted once, at its
/// end.
#[derive(Drop)]
pub enum ThetaResult<A: Allocator> {
    Made(CompactThetaSketch<A>),
    Open(OpenUnion<A>),
}

impl<A: Allocator + Clone + Drop> ThetaResult<A> {
    /// Its ordered sketch. Refused with `OutOfMemory` alone.
    pub(crate) fn into_sketch(self) -> Result<CompactThetaSketch<A>, Error>
        ensures contents { IfOk result (λ s. s ≡ contents_of self) }
        ensures refused { Refuses result None true }
    {
        match self {
            ThetaResult::Made(sketch) => Ok(sketch),
            ThetaResult::Open(open) => open.union.to_sketch(true),
        }
    }
}
