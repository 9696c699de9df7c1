//! Objects of lines for functions without an object, hashers, bytes and images.
#![tactic(auto)]

mod base;
mod bytes;
mod hashing;
mod image_object;
mod objects;
mod pieces;
mod preambles;
mod slices;

pub use objects::answer;
