//! The objects behind the handles of C: sketches, batches, unions and intersections, with the seed of their hashes.
//!
//! Calls report refusals to C by a status (`status`), not by an error. What C does with objects of several kinds is a
//! trait (`objects`); `c_handles` has the handles, and `c_library` one export for each call.
#![tactic(auto)]

pub mod batch;
pub mod bounds;
pub mod buffer;
pub mod compact;
pub mod compact_sums;
mod entries;
pub mod flaws;
pub mod hashes;
pub mod images;
pub mod intersection;
pub mod numerals;
pub mod objects;
pub mod quotients;
pub mod settings;
pub mod state;
pub mod status;
pub mod strings;
pub mod sums;
pub mod sums_intersection;
pub mod sums_union;
pub mod texts;
pub mod theta;
pub mod tuples;
pub mod union;
pub mod values;
