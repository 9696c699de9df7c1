//! Summaries and policies of tuple sketches that lines of calls name.
#![tactic(auto)]

mod letters;
mod policies;
mod summaries;
mod unwritten;

pub use letters::{Appending, Letters};
pub use policies::{Digits, FromWord, RefusesOne, Unmade};
pub use summaries::Summary;
pub use unwritten::{Unwritten, UnwrittenSums};
