//! Tests over the public calls of the tuple sketches, with types of a caller's own: summaries that borrow, a policy
//! of the documented example, and a summary of variable width.
#![tactic(auto)]

#[cfg(test)]
mod borrowed;
#[cfg(test)]
mod forms;
#[cfg(test)]
mod letters;
#[cfg(test)]
mod policies;
