//! What the program `distinct` prints beside its answers, and how it writes them: failures with their messages and
//! statuses, remarks, and the names of files in both. Nothing here reads a file.
#![tactic(auto)]

mod failure;
mod nature;
mod output;
mod remarks;

pub use failure::{Failure, display_name, family_name, out_of_memory, passed_status};
pub use nature::{Nature, nature_of};
pub use output::{put, write_failure};
pub use remarks::{Coarser, Console, NoLines, OtherSeed, Remark, Skipped};
