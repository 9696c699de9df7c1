//! Reports on the stream of a sketch, and the lines that programs write of them.
//!
//! A report has the estimate of a sketch, its bounds, whether these are exact, the number of retained entries, and
//! theta. It is written as a line of a count, a line that is shown, a row of a table, or a line of JSON.
#![tactic(auto)]

mod forms;
mod human;
pub mod laws;
mod named_totals;
mod names;
mod part;
mod ranges;
mod report;

pub use forms::{count_line, json_line, named_count_line, shown_line, tsv_head, tsv_row};
pub use human::{human_line, named_human_line};
pub use named_totals::{
    named_total_json_line, named_total_line, named_total_tsv_head, named_total_tsv_row,
};
pub use names::{escaped_name, put_json_string};
pub use part::report_of_part;
pub use ranges::{range_json_line, range_line, range_tsv_head, range_tsv_row};
pub use report::{Report, estimate_so_far, report_of};
