//! Objects of lines for theta_sketches, estimates, and sketches of lines of texts.
#![tactic(auto)]

mod estimating;
mod objects;
mod texts;
mod theta_compact;
mod theta_difference;
mod theta_intersection;
mod theta_operand;
mod theta_sketch;
mod theta_union;

pub use objects::answer;
