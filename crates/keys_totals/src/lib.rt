//! Lines in groups, by a field, and the exact total of each group: that of the numbers in a field of its lines.
//!
//! The promise is that of `total_groups`: the groups are exactly those of the lines, each once and in ascending order,
//! and each has the total of what its own lines add. No sketch is made, so a total is exact, and memory is used for each
//! group. A line finds its group in a balanced tree of the names, in time logarithmic in the number of groups, whatever
//! their names are.
//!
//! What each user spent, of lines that have the user in field 1 and an amount in field 3:
//!
//! ```
//! let amount = Amount::Number(Key::field(3, b'\t'));
//! let mut totals = total_groups(alloc, Key::field(1, b'\t'), amount, &mut sources)?;
//! while let Some(group) = totals.next_total() {
//!     let name = group.name.as_slice();
//!     let total = group.total;
//! }
//! ```
#![tactic(auto)]

mod grouped;
mod reading;

pub use grouped::{GroupTotal, GroupTotals};
pub use reading::{TotalError, total_groups};
