//! The number of levels of a plan.

use crate::plan::{Plan, UnionPart};
use std::alloc::Allocator;

/// The most levels that a plan may have, whether it is read or built.
pub const MAX_LEVELS: u8 = 64;

/// A plan or a part of one, with its number of levels.
pub trait Levels {
    /// The number of levels, from 0 to `MAX_LEVELS`, in constant time: 1 for a leaf, one more than the part with the
    /// most for any other plan, and 0 for a `Lower`.
    fn levels(&self) -> u8;
}

impl<V, A: Allocator> Levels for Plan<V, A> {
    fn levels(&self) -> u8 {
        let content = match self {
            Plan::Leaf { .. } => 0,
            Plan::Union { parts, .. } => parts.held_levels(),
            Plan::Meet { parts } => parts.held_levels(),
            Plan::Minus(first, second) => first.held_levels().max(second.held_levels()),
            Plan::Via { part, .. } => part.held_levels(),
        };
        content.saturating_add(1)
    }
}

impl<P: Levels> Levels for UnionPart<P> {
    fn levels(&self) -> u8 {
        match self {
            UnionPart::Of(plan) => plan.levels(),
            UnionPart::Lower(_) => 0,
        }
    }
}
