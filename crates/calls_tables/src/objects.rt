//! The objects of this library, by their names in lines.
use crate::hash_tables::HashTableObject;
use crate::operator_tables::OperatorTable;
use crate::runs::RunTable;
use crate::tuple_tables::TupleTableObject;
use calls_language::driver::{Line, answer_line};
use calls_language::object::Heap;
use std::alloc::AllocError;
use theta_core::{ThetaEntry, ThetaHashTable};
use theta_tables::PlainTable;

/// The table of a line that is called through the contract that every table has.
type TraitTable<'h> = RunTable<ThetaHashTable<&'h Heap>, &'h Heap>;

/// The plain table of a line.
type PlainObject<'h> = RunTable<PlainTable<ThetaEntry, &'h Heap>, &'h Heap>;

/// Appends the answers to a line of tables, and returns whether its object is one of these.
/// The only error is that of a program without memory.
pub fn answer(
    heap: &Heap,
    object: &str,
    line: Line<'_>,
    out: &mut String,
) -> Result<bool, AllocError> {
    match object {
        "theta_table" => answer_line::<_, HashTableObject<_>>(heap, heap, line, out)?,
        "operator_table" => answer_line::<_, OperatorTable<_>>(heap, heap, line, out)?,
        "tuple_table" => answer_line::<_, TupleTableObject<_>>(heap, heap, line, out)?,
        "trait_table" => answer_line::<_, TraitTable<'_>>(heap, heap, line, out)?,
        "plain_table" => answer_line::<_, PlainObject<'_>>(heap, heap, line, out)?,
        _ => return Ok(false),
    }
    Ok(true)
}
