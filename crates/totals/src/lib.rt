//! Totals of all values of a stream, by a sketch of sums of it, and the lines that programs print of them.
//!
//! A sketch of sums retains some keys of its stream, each with the sum of the key's values. The sum of the sums that
//! it retains is scaled by the greatest theta over its own theta, and so estimates the total of the values of all
//! keys, within bounds (`total_bounds`). If no key was dropped, theta is the greatest, and the total is exact. Where the
//! lines themselves are read, their exact total is counted beside the sketch, and `LinesTotal` has both.
#![tactic(auto)]

mod bounds;
mod forms;
pub mod laws;
mod total;

pub use bounds::total_bounds;
pub use forms::{
    lines_total_json_line, lines_total_line, lines_total_tsv_head, lines_total_tsv_row,
    total_json_line, total_line, total_tsv_head, total_tsv_row,
};
pub use total::{LinesTotal, Total, lines_total, sum_of, total_of};
