//! The objects of this library, by their names in lines.
use crate::base::Base;
use crate::bytes::BytesObject;
use crate::hashing::Murmur;
use crate::image_object::ImagesObject;
use crate::slices::SliceObject;
use calls_language::driver::{Line, answer_line};
use calls_language::object::Heap;
use std::alloc::AllocError;

/// Appends the answers to a line of bytes, hashes and images, and returns whether its object is one of these.
/// The only error is that of a program without memory.
pub fn answer(
    heap: &Heap,
    object: &str,
    line: Line<'_>,
    out: &mut String,
) -> Result<bool, AllocError> {
    match object {
        "base" => answer_line::<_, Base>(heap, heap, line, out)?,
        "murmur" => answer_line::<_, Murmur>(heap, heap, line, out)?,
        "bytes" => answer_line::<_, BytesObject<_>>(heap, heap, line, out)?,
        "slice" => answer_line::<_, SliceObject>(heap, heap, line, out)?,
        "images" => answer_line::<_, ImagesObject<_>>(heap, heap, line, out)?,
        _ => return Ok(false),
    }
    Ok(true)
}
