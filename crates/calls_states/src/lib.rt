//! Objects of lines for what is below the public types: compact states, sketches that take updates, and the states of
//! operators.
#![tactic(auto)]

mod differences;
mod intersection_states;
mod keeping;
mod objects;
mod state_calls;
mod state_objects;
mod state_operands;
mod states;
mod union_states;
mod updatables;

pub use objects::answer;
