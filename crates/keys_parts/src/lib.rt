//! The parts of a text: the lines that begin in one of several equal ranges of its bytes.
//!
//! A line belongs to the range in which its first byte is. So the parts hold each line once, in order, however the
//! ranges cut the text, and the sketches of the parts unite to the sketch of the text (`laws`).
//!
//! `Places::of_part` is the range of a part, and `Part` reads the part's lines from a reader of the text:
//!
//! ```
//! let places = Places::of_part(size, index, parts);
//! file.seek(SeekFrom::Start(places.start()))?;
//! let mut reader = Part::new(file, places);
//! ```
#![tactic(auto)]

pub mod laws;
mod part;
mod places;
mod stage;

pub use part::Part;
pub use places::Places;
