//! The objects of this library, by their names in lines.
use crate::estimating::Estimating;
use crate::texts::Texts;
use crate::theta_compact::ThetaCompactObject;
use crate::theta_difference::ThetaDifferenceObject;
use crate::theta_intersection::ThetaIntersectionObject;
use crate::theta_sketch::ThetaSketchObject;
use crate::theta_union::ThetaUnionObject;
use calls_language::driver::{Line, answer_line};
use calls_language::object::Heap;
use std::alloc::AllocError;

/// Appends the answers to a line of theta sketches, estimates or texts, and returns whether it is one.
/// The only error is that of a program without memory.
pub fn answer(
    heap: &Heap,
    object: &str,
    line: Line<'_>,
    out: &mut String,
) -> Result<bool, AllocError> {
    match object {
        "theta_sketch" => answer_line::<_, ThetaSketchObject<_>>(heap, heap, line, out)?,
        "theta_compact" => answer_line::<_, ThetaCompactObject<_>>(heap, heap, line, out)?,
        "theta_union" => answer_line::<_, ThetaUnionObject<_>>(heap, heap, line, out)?,
        "theta_intersection" => {
            answer_line::<_, ThetaIntersectionObject<_>>(heap, heap, line, out)?;
        }
        "theta_difference" => answer_line::<_, ThetaDifferenceObject<_>>(heap, heap, line, out)?,
        "estimates" => answer_line::<_, Estimating>(heap, heap, line, out)?,
        "texts" => answer_line::<_, Texts>(heap, heap, line, out)?,
        _ => return Ok(false),
    }
    Ok(true)
}
