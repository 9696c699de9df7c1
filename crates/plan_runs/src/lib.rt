//! A whole run of a command over a reader and a writer: the text of a plan is read to its end, read as a command and
//! evaluated, and one answer is written, or the first fault. The program `sketchtool` makes one run, over standard
//! input and output.
//!
//! ```
//! let ending = run(rt.alloc(), &mut rt.stdin(), &mut rt.stdout());
//! ExitCode::from(ending.status())
//! ```
#![tactic(auto)]

mod answer;
mod runs;

pub use runs::{Ending, run};
