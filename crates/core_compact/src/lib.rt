//! Compact states: the entries of a sketch that no longer changes, with its theta, seed hash and order.
//!
//! Contracts see a compact state as a record of these, and each obeys the laws of what a sketch shows. An entry is a
//! type with a hash.
#![tactic(auto)]

mod compact_state;
mod order;

pub use compact_state::{CompactSketchState, is_answer_ordered};
pub use order::sort_by_hash;
