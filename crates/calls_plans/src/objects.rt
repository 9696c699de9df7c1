//! The objects of this library, by their names in lines.
use crate::built_plans::BuiltObject;
use crate::plans::PlanObject;
use crate::running::RunObject;
use calls_language::driver::{Line, answer_line};
use calls_language::object::Heap;
use std::alloc::AllocError;

/// Appends the answers to a line of plans and runs, and returns whether its object is one of these.
/// The only error is that of a program without memory.
pub fn answer(
    heap: &Heap,
    object: &str,
    line: Line<'_>,
    out: &mut String,
) -> Result<bool, AllocError> {
    match object {
        "plan" => answer_line::<_, PlanObject<_>>(heap, heap, line, out)?,
        "built" => answer_line::<_, BuiltObject<_>>(heap, heap, line, out)?,
        "run" => answer_line::<_, RunObject<_>>(heap, heap, line, out)?,
        _ => return Ok(false),
    }
    Ok(true)
}
