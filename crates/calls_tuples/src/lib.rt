//! Objects of lines for tuple_sketches, each with a policy that the line names, and the reading of images of both
//! families.
#![tactic(auto)]

mod objects;
mod readings;
mod tuple_compact;
mod tuple_difference;
mod tuple_intersection;
mod tuple_operand;
mod tuple_sketch;
mod tuple_union;
mod tuples;
mod tuples_shown;

pub use objects::answer;
