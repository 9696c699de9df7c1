//! The lines of a text, the fields of a line, and the hash of a line's key.
//!
//! A text may be read in blocks that end anywhere: `OpenLine` is a line that has begun. It keeps no byte of the line,
//! only the state of the hash.
#![tactic(auto)]

mod cut;
mod field;
mod hashed_lines;
mod key;
mod open_key;
mod open_line;
mod whole_key;

pub use cut::{cut_at, cut_line};
pub use hashed_lines::hash_lines;
pub use key::{Hashing, Key};
pub use open_line::{OpenLine, line_hash};
pub use whole_key::{key_hash, key_in};
