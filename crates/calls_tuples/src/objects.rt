//! The objects of this library, by their names in lines.
use crate::readings::Reading;
use crate::tuples;
use calls_language::driver::{Line, answer_line};
use calls_language::object::Heap;
use std::alloc::AllocError;

/// Appends the answers to a line of tuple sketches and reading, and returns whether its object is one of these.
/// The only error is that of a program without memory.
pub fn answer(
    heap: &Heap,
    object: &str,
    line: Line<'_>,
    out: &mut String,
) -> Result<bool, AllocError> {
    match object {
        "tuple_sketch" => tuples::sketch(heap, line, out)?,
        "tuple_compact" => tuples::compact(heap, line, out)?,
        "tuple_union" => tuples::union(heap, line, out)?,
        "tuple_intersection" => tuples::intersection(heap, line, out)?,
        "tuple_difference" => tuples::difference(heap, line, out)?,
        "reading" => answer_line::<_, Reading<_>>(heap, heap, line, out)?,
        _ => return Ok(false),
    }
    Ok(true)
}
