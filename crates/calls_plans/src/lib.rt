//! Objects of lines for plans, as text and as values, and for runs of the program that answers them.
#![tactic(auto)]

mod built_plans;
mod objects;
mod plan_answers;
mod plan_texts;
mod plans;
mod ports;
mod running;

pub use objects::answer;
