//! The results of nodes of plans.

/// The result of a node of a plan: a leaf's sketch, which an operator sees as it is, or a compact sketch.
#[derive(Drop)]
pub enum Evaluated<S, C> {
    /// A leaf.
    Mutable(S),
    /// Any other node.
    Compact(C),
}
