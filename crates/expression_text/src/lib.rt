//! The syntax of set expressions over names, such as `(a & b) - c`.
//!
//! `parse` reads an expression into the names that it has and its steps, in postfix order. It knows nothing of
//! sketches.
//!
//! ```
//! let parsed = parse(alloc, b"(mon + tue) - wed")?;
//! ```
#![tactic(auto)]

mod fault;
pub mod laws;
mod operator;
mod parsing;
mod tokens;

pub use fault::{Reason, SyntaxFault};
pub use operator::{Operator, Step};
pub use parsing::{MAX_LEVELS, Parsed, parse};
