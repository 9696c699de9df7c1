//! Sums of lines by their keys: how often each key comes, and how many keys come how often; or the sum of the numbers
//! in a field of each key's lines, or the least or the greatest of them (`SummaryMode`).
//!
//! A sketch of sums retains the same hashes as the theta sketch of the same lines, and beside each the sum of what
//! all lines of that hash add: its number of lines, if each adds one. No line of a retained hash is missed, however
//! large the text.
//!
//! A sketch of sums is written as an image, and images of sums are united: `unite_sums` unites the images of texts
//! that were sketched apart to the image of the sums of all their lines, byte for byte.
//!
//! How often the lines of texts come, and how many of those retained come five to eight times:
//!
//! ```
//! let hashing = Hashing { key: Key::Line, seed: 9001 };
//! let visits = sum_sources(alloc, SummaryMode::Sum, hashing, Amount::One, 12, &mut sources, &mut quiet)?;
//! let from_five_to_eight = count_in(&visits.sketch, 3);
//! let lines = visits.total;
//! ```
#![tactic(auto)]

mod addends;
mod bins;
mod digits;
mod images;
pub mod laws;
mod operands;
mod parts;
mod sources;
mod starts;
mod summing;
mod uniting;

pub use addends::{Amount, amount_in, value_start};
pub use bins::{BINS, count_in, greatest_of, greatest_sum, least_of};
pub use images::{read_sums, sums_image};
pub use operands::all_sums;
pub use sources::sum_sources;
pub use starts::ValueStart;
pub use summing::{SumError, SumSketch, SumWatch, Summation, SumsOfLines, add_lines};
pub use tuple_sketches::SummaryMode;
pub use uniting::{UnionOfSums, union_of_sums, unite_sums};
