//! Union, intersection and difference of sketches, generic over every entry type, policy and view that keeps the
//! laws.
//!
//! An operator takes views of sketches, and combines the entries of a shared hash by a policy. Its contract is an
//! equation between the values of its inputs and its own value.
#![tactic(auto)]

pub mod a_not_b;
mod ascending;
mod filter;
mod intersection;
mod iter;
pub mod laws;
mod lists;
mod merge;
mod ranges;
mod scan;
mod search;
mod share;
mod union;
mod union_table;
mod view;

pub use intersection::IntersectionState;
pub use iter::{EntryIter, HashIter};
pub use union::UnionState;
pub use view::{EntrySketch, KeySketch, ThetaFamilySketchMetadata};
