//! Plans: expressions of sketches.

use crate::boxed::Boxed;
use crate::items::Items;
pub use core_laws::LeafStep as Step;
use std::alloc::{Allocator, Global};

/// A part of a union, whose plans have the type `P`.
#[derive(Drop)]
pub enum UnionPart<P> {
    /// A plan to unite.
    Of(P),
    /// Lowers the union's nominal entries from here on to 2 to this power. The power must be from 4 to the least
    /// before it in its union, or the evaluation is refused.
    Lower(u8),
}

/// A part of a union: a plan, or a lowering of the union's nominal entries.
pub type Part<V, A = Global> = UnionPart<Plan<V, A>>;

/// An expression of sketches. It has at most `MAX_LEVELS` levels, however it was made: its boxes and lists accept no
/// part that has as many already. So neither its evaluation nor its drop runs out of stack.
#[derive(Drop)]
pub enum Plan<V, A: Allocator = Global> {
    /// A sketch that is updated step by step.
    Leaf {
        /// The binary logarithm of the nominal number of entries; from 4 to 26, or it is refused.
        lg_k: u8,
        /// The starting theta; from 1 to `MAX_THETA`, or it is refused.
        start: u64,
        steps: Items<Step<V>, A>,
    },
    /// The union of the plans among its parts, in their order.
    Union {
        /// The binary logarithm of the nominal number of entries at first; from 4 to 26, or it is refused.
        lg_k: u8,
        /// The starting theta; from 1 to `MAX_THETA`, or it is refused.
        start: u64,
        parts: Items<UnionPart<Plan<V, A>>, A>,
    },
    /// The intersection of its parts, in their order.
    Meet {
        /// A text has at least one; the intersection of no parts is empty.
        parts: Items<Plan<V, A>, A>,
    },
    /// The difference: the entries of the first whose hashes the second doesn't have.
    Minus(Boxed<Plan<V, A>, A>, Boxed<Plan<V, A>, A>),
    /// The sketch of its part, written as an image and read back.
    Via {
        /// Whether the image is to be ordered.
        ordered: bool,
        part: Boxed<Plan<V, A>, A>,
    },
}
