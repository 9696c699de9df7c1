//! Groups of several files, joined by their names: the intersection of the sketches of each name that all files have,
//! the difference of those of two files, or the result of an expression over those of each name that any file has.
//!
//! The promise is that of `meet_groups`, `minus_groups` and `evaluate_groups`: what they return is bound to the texts
//! of the files, each line of which has the name of a group, a tab and an image in hexadecimal digits. Each file's
//! images are united by groups first. The names of the groups are gone through in their order, and each is looked up
//! in a balanced tree per file, so the time is linear in the sizes of the images, and logarithmic per name.
//!
//! ```
//! let text = meet_groups(alloc, 9001, 26, &mut sources)?;
//! if let Some(text) = minus_groups(alloc, 9001, 26, &mut sources)? { .. }
//! let mut groups = evaluate_groups(alloc, 9001, 12, &steps, &mut sources)?;
//! while let Some(group) = groups.take_group()? { .. }
//! ```
#![tactic(auto)]

mod evaluated;
mod joins;
mod reading;
mod tables;

pub use evaluated::{EvaluatedGroups, evaluate_groups};
pub use reading::{meet_groups, minus_groups};
