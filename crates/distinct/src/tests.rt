//! Tests of the program: what it writes by its arguments, its messages and statuses.

mod answers;
mod failures;

use std::alloc::{AllocError, Global};

/// Texts as a list of words.
fn words_of(alloc: Global, texts: &[&str]) -> Result<Vec<String>, AllocError> {
    let mut words = Vec::new(alloc);
    for text in texts {
        words.push(String::from_str(alloc, text)?)?;
    }
    Ok(words)
}
