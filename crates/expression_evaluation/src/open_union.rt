//! Unions of theta sketches that take more sketches.
ghost use Rattle.expression_evaluation.specs.OpenUnions.{IsOpenUnion};

use std::alloc::Allocator;
use theta_sketches::ThetaUnion;

/// A union of 2^`lg_k` nominal entries that has united some results and has not failed.
#[derive(Drop)]
pub struct OpenUnion<A: Allocator> {
    pub(crate) union: ThetaUnion<A>,
    pub(crate) lg_k: u8,
    ghost open_union: { IsOpenUnion lg_k union },
}
