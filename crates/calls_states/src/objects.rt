//! The objects of this library, by their names in lines.
use crate::differences::DifferenceObject;
use crate::intersection_states::{IntersectionStateObject, TupleIntersectionStateObject};
use crate::state_objects::{StateObject, TupleStateObject};
use crate::union_states::{TupleUnionStateObject, UnionStateObject};
use crate::updatables::UpdatableObject;
use calls_language::driver::{Line, answer_line};
use calls_language::object::Heap;
use std::alloc::AllocError;

/// Appends the answers to a line of states, and returns whether its object is one of these. The only error is
/// that of a program without memory.
pub fn answer(
    heap: &Heap,
    object: &str,
    line: Line<'_>,
    out: &mut String,
) -> Result<bool, AllocError> {
    match object {
        "state" => answer_line::<_, StateObject<_>>(heap, heap, line, out)?,
        "tuple_state" => answer_line::<_, TupleStateObject<_>>(heap, heap, line, out)?,
        "updatable" => answer_line::<_, UpdatableObject<_>>(heap, heap, line, out)?,
        "union_state" => answer_line::<_, UnionStateObject<_>>(heap, heap, line, out)?,
        "tuple_union_state" => answer_line::<_, TupleUnionStateObject<_>>(heap, heap, line, out)?,
        "intersection_state" => {
            answer_line::<_, IntersectionStateObject<_>>(heap, heap, line, out)?;
        }
        "tuple_intersection_state" => {
            answer_line::<_, TupleIntersectionStateObject<_>>(heap, heap, line, out)?;
        }
        "difference" => answer_line::<_, DifferenceObject<_>>(heap, heap, line, out)?,
        _ => return Ok(false),
    }
    Ok(true)
}
