//! The objects of tuple_sketches, by their names and the words of their policies.
use crate::tuple_compact::TupleCompactObject;
use crate::tuple_difference::TupleDifferenceObject;
use crate::tuple_intersection::TupleIntersectionObject;
use crate::tuple_sketch::TupleSketchObject;
use crate::tuple_union::TupleUnionObject;
use calls_language::driver::{Line, answer_line};
use calls_language::object::Heap;
use calls_language::words::cut_word;
use calls_policies::{Appending, Digits, Letters, RefusesOne, Unmade, Unwritten, UnwrittenSums};
use std::alloc::AllocError;
use tuple_sketches::{DefaultUnionPolicy, DefaultUpdatePolicy, NumberPolicy};

/// The policy of sketches of sums.
type Updating<S> = DefaultUpdatePolicy<S>;

/// The policy of unions of sums.
type Uniting<S> = DefaultUnionPolicy<S>;

/// The memory of objects.
type Shared<'h> = &'h Heap;

/// Appends the answers to a line whose object is a sketch that takes updates.
pub fn sketch(heap: &Heap, line: Line<'_>, out: &mut String) -> Result<(), AllocError> {
    let (policy, _) = cut_word(line.settings);
    match policy {
        "sums:u32" => answer_line::<Shared<'_>, TupleSketchObject<Updating<u32>, _>>(
            heap, heap, line, out,
        ),
        "sums:u64" => answer_line::<Shared<'_>, TupleSketchObject<Updating<u64>, _>>(
            heap, heap, line, out,
        ),
        "sums:i32" => answer_line::<Shared<'_>, TupleSketchObject<Updating<i32>, _>>(
            heap, heap, line, out,
        ),
        "sums:i64" => answer_line::<Shared<'_>, TupleSketchObject<Updating<i64>, _>>(
            heap, heap, line, out,
        ),
        "least" | "greatest" => answer_line::<Shared<'_>, TupleSketchObject<NumberPolicy, _>>(
            heap, heap, line, out,
        ),
        "digits" => answer_line::<Shared<'_>, TupleSketchObject<Digits, _>>(heap, heap, line, out),
        "unmade" => answer_line::<Shared<'_>, TupleSketchObject<Unmade, _>>(heap, heap, line, out),
        "unwritten" => answer_line::<Shared<'_>, TupleSketchObject<UnwrittenSums, _>>(
            heap, heap, line, out,
        ),
        "letters" => answer_line::<Shared<'_>, TupleSketchObject<Appending<_>, _>>(
            heap, heap, line, out,
        ),
        _ => answer_line::<Shared<'_>, TupleSketchObject<RefusesOne, _>>(heap, heap, line, out),
    }
}

/// Appends the answers to a line whose object is a union.
pub fn union(heap: &Heap, line: Line<'_>, out: &mut String) -> Result<(), AllocError> {
    let (policy, _) = cut_word(line.settings);
    match policy {
        "sums:u32" => answer_line::<Shared<'_>, TupleUnionObject<Updating<u32>, Uniting<u32>, _>>(
            heap, heap, line, out,
        ),
        "sums:u64" => answer_line::<Shared<'_>, TupleUnionObject<Updating<u64>, Uniting<u64>, _>>(
            heap, heap, line, out,
        ),
        "sums:i32" => answer_line::<Shared<'_>, TupleUnionObject<Updating<i32>, Uniting<i32>, _>>(
            heap, heap, line, out,
        ),
        "sums:i64" => answer_line::<Shared<'_>, TupleUnionObject<Updating<i64>, Uniting<i64>, _>>(
            heap, heap, line, out,
        ),
        "least" | "greatest" => answer_line::<
            Shared<'_>,
            TupleUnionObject<Updating<u64>, NumberPolicy, _>,
        >(heap, heap, line, out),
        "digits" => answer_line::<Shared<'_>, TupleUnionObject<Updating<u64>, Digits, _>>(
            heap, heap, line, out,
        ),
        "unmade" => answer_line::<Shared<'_>, TupleUnionObject<Updating<u64>, Unmade, _>>(
            heap, heap, line, out,
        ),
        "unwritten" => answer_line::<Shared<'_>, TupleUnionObject<UnwrittenSums, UnwrittenSums, _>>(
            heap, heap, line, out,
        ),
        "letters" => answer_line::<Shared<'_>, TupleUnionObject<Appending<_>, Appending<_>, _>>(
            heap, heap, line, out,
        ),
        _ => answer_line::<Shared<'_>, TupleUnionObject<Updating<u64>, RefusesOne, _>>(
            heap, heap, line, out,
        ),
    }
}

/// Appends the answers to a line whose object is an intersection.
pub fn intersection(heap: &Heap, line: Line<'_>, out: &mut String) -> Result<(), AllocError> {
    let (policy, _) = cut_word(line.settings);
    match policy {
        "sums:u32" => answer_line::<
            Shared<'_>,
            TupleIntersectionObject<Updating<u32>, Uniting<u32>, _>,
        >(heap, heap, line, out),
        "sums:u64" => answer_line::<
            Shared<'_>,
            TupleIntersectionObject<Updating<u64>, Uniting<u64>, _>,
        >(heap, heap, line, out),
        "sums:i32" => answer_line::<
            Shared<'_>,
            TupleIntersectionObject<Updating<i32>, Uniting<i32>, _>,
        >(heap, heap, line, out),
        "sums:i64" => answer_line::<
            Shared<'_>,
            TupleIntersectionObject<Updating<i64>, Uniting<i64>, _>,
        >(heap, heap, line, out),
        "least" | "greatest" => answer_line::<
            Shared<'_>,
            TupleIntersectionObject<Updating<u64>, NumberPolicy, _>,
        >(heap, heap, line, out),
        "digits" => answer_line::<Shared<'_>, TupleIntersectionObject<Updating<u64>, Digits, _>>(
            heap, heap, line, out,
        ),
        "unmade" => answer_line::<Shared<'_>, TupleIntersectionObject<Updating<u64>, Unmade, _>>(
            heap, heap, line, out,
        ),
        "unwritten" => answer_line::<
            Shared<'_>,
            TupleIntersectionObject<UnwrittenSums, UnwrittenSums, _>,
        >(heap, heap, line, out),
        "letters" => answer_line::<
            Shared<'_>,
            TupleIntersectionObject<Appending<_>, Appending<_>, _>,
        >(heap, heap, line, out),
        _ => answer_line::<Shared<'_>, TupleIntersectionObject<Updating<u64>, RefusesOne, _>>(
            heap, heap, line, out,
        ),
    }
}

/// Appends the answers to a line whose object is a compact sketch.
pub fn compact(heap: &Heap, line: Line<'_>, out: &mut String) -> Result<(), AllocError> {
    let (policy, _) = cut_word(line.settings);
    match policy {
        "sums:u32" => answer_line::<Shared<'_>, TupleCompactObject<u32, Updating<u32>, _>>(
            heap, heap, line, out,
        ),
        "sums:u64" => answer_line::<Shared<'_>, TupleCompactObject<u64, Updating<u64>, _>>(
            heap, heap, line, out,
        ),
        "sums:i32" => answer_line::<Shared<'_>, TupleCompactObject<i32, Updating<i32>, _>>(
            heap, heap, line, out,
        ),
        "sums:i64" => answer_line::<Shared<'_>, TupleCompactObject<i64, Updating<i64>, _>>(
            heap, heap, line, out,
        ),
        "unwritten" => answer_line::<Shared<'_>, TupleCompactObject<Unwritten, UnwrittenSums, _>>(
            heap, heap, line, out,
        ),
        "letters" => answer_line::<Shared<'_>, TupleCompactObject<Letters<_>, Appending<_>, _>>(
            heap, heap, line, out,
        ),
        _ => answer_line::<Shared<'_>, TupleCompactObject<u64, Updating<u64>, _>>(
            heap, heap, line, out,
        ),
    }
}

/// Appends the answers to a line whose object is the difference operator.
pub fn difference(heap: &Heap, line: Line<'_>, out: &mut String) -> Result<(), AllocError> {
    let (policy, _) = cut_word(line.settings);
    match policy {
        "sums:u32" => answer_line::<Shared<'_>, TupleDifferenceObject<Updating<u32>, _>>(
            heap, heap, line, out,
        ),
        "sums:u64" => answer_line::<Shared<'_>, TupleDifferenceObject<Updating<u64>, _>>(
            heap, heap, line, out,
        ),
        "sums:i32" => answer_line::<Shared<'_>, TupleDifferenceObject<Updating<i32>, _>>(
            heap, heap, line, out,
        ),
        "sums:i64" => answer_line::<Shared<'_>, TupleDifferenceObject<Updating<i64>, _>>(
            heap, heap, line, out,
        ),
        "unwritten" => answer_line::<Shared<'_>, TupleDifferenceObject<UnwrittenSums, _>>(
            heap, heap, line, out,
        ),
        "letters" => answer_line::<Shared<'_>, TupleDifferenceObject<Appending<_>, _>>(
            heap, heap, line, out,
        ),
        _ => answer_line::<Shared<'_>, TupleDifferenceObject<Updating<u64>, _>>(
            heap, heap, line, out,
        ),
    }
}
