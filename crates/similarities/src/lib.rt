//! How similar two sketches are: the share of the hashes below their common theta that both retain, with bounds, and
//! the lines that programs print of it.
//!
//! Of a hash that at least one of two streams has, both have it with a probability that is their Jaccard similarity.
//! The hashes below a theta are a sample of all, so the share of those that both sketches retain estimates it. The bounds
//! are the ends of the Wilson score interval of this share (E. B. Wilson, 1927), in millionths and rounded outwards. That
//! they hold with some probability isn't proved.
#![tactic(auto)]

mod forms;
pub mod laws;
mod similarity;

pub use forms::{
    put_similarity_json_rest, similarity_json_line, similarity_line, similarity_tsv_head,
    similarity_tsv_row,
};
pub use similarity::{MILLION, Nonempty, Overlap, Similarity, similarity_of};
