//! The commands of the program `distinct`: what each prints or writes, over any sources of lines and images and any
//! writer.
//!
//! The promise is that of `perform`: what a command writes is bound to its options, its seed, and the names and texts
//! of its files. A command that fails returns a [`Failure`], and has written nothing unless the writer failed.
//!
//! What a request writes, of files that `sources` opens; `eval` is given an expression that was read in their place:
//!
//! ```
//! let request = read_arguments(words)?;
//! perform(alloc, request, seed, Operands::Files(names), sources, &mut console, &mut writer)?;
//! ```
#![tactic(auto)]

mod combine;
mod commands;
mod eval;
mod eval_groups;
mod eval_sums;
mod expression;
mod groups;
mod job;
mod matrix;
mod per_file;
mod ranked;
mod show;
mod similarity;
mod sum_groups;
mod sums;
mod united;
mod visits;

pub use commands::{answer, perform};
pub use expression::{Expression, Operands, expression_in, only_expression};
pub use groups::group_files;
