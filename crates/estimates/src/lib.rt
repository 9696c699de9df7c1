//! Estimates as numbers: fractions, decimal numbers and nearest whole numbers, of counts and of totals; and how near an
//! estimate is to the truth, by whole numbers that bound the count of a sketch within one, two or three standard
//! deviations.
//!
//! The bounds are the ends of the Wilson score interval (E. B. Wilson, 1927), in whole numbers and rounded outwards.
//! That they hold with some probability isn't proved.
#![tactic(auto)]

mod bounds;
mod fraction;
pub mod laws;
mod totals;

pub use bounds::{Deviations, Interval, count_bounds};
pub use fraction::{Decimal, MAX_PLACES, count_fraction, estimate_decimal, nearest};
pub use totals::{nearest_total, total_decimal};
