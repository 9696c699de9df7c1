//! Images of compact states, generic over the entry: what the families' formats share. The rules are those of the
//! DataSketches format, serial version 3; all numbers are little endian.
//!
//! An image begins with preamble longs: words of eight bytes with its version, family, flags, seed hash, count of
//! entries and theta. The entries follow, each by its own spelling. Bytes after an image are ignored.
#![tactic(auto)]

mod blocks;
mod check;
mod entry;
mod flaw;
mod head;
pub mod laws;
mod numbers;
mod preamble;
mod read;
mod summary;
mod write;

pub use entry::ImageEntry;
pub use flaw::{Flaw, ReadError};
pub use head::{
    Head, count_of, flaw_of_image, is_followed, layout_of, length_of, reader_seed_hash, theta_head,
    tuple_head,
};
pub use preamble::{ImageLayout, Preamble, announced, count_at, seed_hash_at, theta_at};
pub use read::read_after_preamble;
pub use summary::TupleSummaryValue;
pub use write::{image_preamble, write_image, write_image_with_capacity};
