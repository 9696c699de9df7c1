//! Lines that are passed on as lines of their chosen fields.
//!
//! `Fields` reads each line of a text and passes on another: without a CR at its end, with one tab for each run of
//! blanks, or the fields that make its key, its group and its number, by their numbers or by their names in the first
//! line. It may leave out and count lines that have no number to add.
//!
//! ```
//! let layout = Layout { separator: b'\t', blanks: false, returns: true };
//! let mut reader = Fields::Mapped(Mapped::new(alloc, file, layout)?);
//! ```
//!
//! What is left of a text is a function of its lines (`text_for`).
#![tactic(auto)]

mod ahead;
mod chosen;
mod fields;
mod header;
pub mod laws;
mod layout;
mod mapped;
mod names;
mod passing;

pub use chosen::{BETWEEN, Chosen, PARTS, Part};
pub use fields::Fields;
pub use header::header_of;
pub use layout::Layout;
pub use mapped::Mapped;
pub use names::place_in;
