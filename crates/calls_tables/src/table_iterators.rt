//! Iterators over the entries of tables.
use calls_language::arguments::put_number;
use calls_language::entries::ShownEntry;
use std::alloc::{AllocError, Allocator};
use theta_core::{EntryIter, SketchHashTable};

/// Goes through the entries of a table, and appends how many there are.
pub fn put_iterated<E: ShownEntry, A: Allocator>(
    answer: &mut String,
    table: &SketchHashTable<E, A>,
) -> Result<(), AllocError> {
    let count = table.num_retained();
    let mut entries = table.iter_entries();
    let mut seen = 0usize;
    let mut is_hint = true;
    for left in (0..=count).rev() {
        let (lower, upper) = entries.size_hint();
        is_hint = is_hint && lower == 0 && upper.is_some_and(|most| left <= most);
        if entries.next().is_none() {
            break;
        }
        seen = seen.saturating_add(1);
    }
    write!(answer, "{seen}")?;
    if is_hint {
        Ok(())
    } else {
        answer.push_str(" hint")
    }
}

/// Passes to the first entry below theta, and appends how many entries below theta are left.
pub fn put_passed<E: ShownEntry, A: Allocator>(
    answer: &mut String,
    table: &SketchHashTable<E, A>,
    theta: u64,
) -> Result<(), AllocError> {
    let mut entries = table.iter_entries();
    entries.pass_to_below(theta);
    let mut first = None;
    let mut below = 0usize;
    for _ in 0..=table.num_retained() {
        let Some(entry) = entries.next() else {
            break;
        };
        if first.is_none() {
            first = Some(entry.hash());
        }
        if entry.hash() < theta {
            below = below.saturating_add(1);
        }
    }
    write!(answer, "{below}")?;
    if first.is_some_and(|hash| theta <= hash) {
        answer.push_str(" front")?;
    }
    Ok(())
}

/// Goes through the entries of a table as operators do, and appends how many there are.
pub fn put_lent<E: ShownEntry, A: Allocator>(
    answer: &mut String,
    table: &SketchHashTable<E, A>,
) -> Result<(), AllocError> {
    let mut entries = EntryIter::of_table(table);
    let is_slice = entries.as_slice().is_some();
    let mut count = 0u64;
    for _ in 0..=table.num_retained() {
        if entries.next().is_none() {
            break;
        }
        count = count.saturating_add(1);
    }
    put_number(answer, count)?;
    if is_slice {
        answer.push_str(" slice")
    } else {
        Ok(())
    }
}
