//! Entries of a compact state, mapped by a closure that captures a value.
ghost use Rattle.std.specs.Prelude.{◌≡◌, IfOk, map};

use sketch_base::{Error, ErrorKind};
use std::alloc::{Allocator, Global};
use std::test::Fail;
use theta_core::{
    CompactSketchState, MAX_THETA, ResizeFactor, ThetaEntry, ThetaHashTable, TupleEntry,
};

/// Each hash with a mark for its summary, which the closure captures. By the contract every entry has it.
fn mark_all<A: Allocator + Clone + Drop>(
    state: CompactSketchState<ThetaEntry, A>,
    mark: u64,
) -> Result<CompactSketchState<TupleEntry<u64>, A>, Error>
    ensures { IfOk result (λ s. s.entries ≡ map (λ h. record { hash = h; summary = mark }) state.entries) }
{
    state.map_retained_entries(move |entry| TupleEntry::of_hash(entry.hash(), mark))
}

/// A table of the hashes from 1 to 9.
fn nine(alloc: Global) -> Result<ThetaHashTable, Error> {
    let mut table = ThetaHashTable::new(alloc, 5, ResizeFactor::X8, MAX_THETA, 9001)?;
    for hash in 1..=9u64 {
        if table.has_room() {
            table.try_insert_hash(hash)?;
        }
    }
    Ok(table)
}

/// The ordered compact state of `nine`, each hash with the mark 7.
fn nine_marked(alloc: Global) -> Result<CompactSketchState<TupleEntry<u64>>, Error> {
    let table = nine(alloc)?;
    if table.num_retained() < 4294967296 {
        return mark_all(table.to_non_empty_compact_state(true)?, 7);
    }
    Err(Error::new(ErrorKind::Failed))
}

#[test]
fn hashes_are_mapped_with_a_captured_value(rt: HostRuntime) -> Result<(), Fail> {
    let marked = nine_marked(rt.alloc())?;
    let mut count = 0u64;
    for entry in marked.retained_entries() {
        count = count.wrapping_add(1);
        assert_eq!(rt; (entry.hash(), *entry.summary()), (count, 7));
    }
    assert_eq!(rt; count, 9);
    Ok(())
}
