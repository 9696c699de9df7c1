//! Set expressions over named theta sketches, such as `(a & b) - c`, and over sketches of sums.
//!
//! `parse` reads an expression into the names that it has and its steps, in postfix order. `evaluate` runs the steps
//! over one sketch per name. Its main promise: if each sketch retains exactly the hashes of its whole stream below
//! its own theta, the result retains exactly those of the same expression of the whole streams below the result's
//! theta. `evaluate_sums` does the same with sketches of sums, and merges the sums of a key that operands share.
//!
//! ```
//! let parsed = parse(alloc, b"(mon + tue) - wed")?;
//! // .. one sketch for each of parsed.names, in their order ..
//! let sketch = evaluate(alloc, DEFAULT_UPDATE_SEED, 12, &parsed.steps, &sketches)?;
//! ```
#![tactic(auto)]

mod evaluation;
mod expressions;
mod family;
pub mod laws;
mod open_union;
mod results;
mod sums;
mod theta;

pub use expression_text::{MAX_LEVELS, Operator, Parsed, Reason, Step, SyntaxFault, parse};
pub use expressions::{evaluate, evaluate_sums};
