//! Policies: how operators combine two entries of one hash, and how the summaries of tuple sketches are created,
//! updated with values and combined.
//!
//! A policy names each of its results as a function of its arguments, and when it refuses. A refusal leaves its
//! arguments unchanged.
#![tactic(auto)]

mod default_union;
mod default_update;
pub mod laws;
mod merge_policy;
mod step;
mod summary;
mod sums;

pub use default_union::DefaultUnionPolicy;
pub use default_update::DefaultUpdatePolicy;
pub use merge_policy::{IntersectionMergePolicy, UnionMergePolicy};
pub use step::UpdateStep;
pub use summary::{SummaryCombinePolicy, SummaryPolicy, SummaryUpdatePolicy};
pub use sums::CheckedSum;
