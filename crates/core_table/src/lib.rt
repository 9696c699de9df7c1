//! The table of the entries that a sketch retains below its theta, and its iterator. It returns compact states.
//!
//! Contracts see what a table retains as a map and a theta. Every call is an equation on that pair.
#![tactic(auto)]

mod answering;
mod clearing;
mod hash_table;
mod insertion;
mod iter;
mod resize_factor;

pub use answering::sorted_by_hash;
pub use hash_table::{SketchHashTable, ThetaHashTable, TupleHashTable};
pub use insertion::starting_sub_multiple;
pub use iter::SketchHashTableIter;
pub use resize_factor::ResizeFactor;
