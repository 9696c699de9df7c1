//! A large table against a sort.

use sketch_base::Error;
use std::alloc::{AllocError, Global};
use std::process::Abort;
use std::test::Fail;
use theta_core::ResizeFactor::X8;
use theta_core::{MAX_THETA, ThetaHashTable};

/// A hash of 63 bits for a number, different for each up to 2^20.
fn hash_of(number: u64) -> u64 {
    number.wrapping_mul(11400714819323198485) >> 1
}

/// The hashes of the numbers from 1 to the last, ascending.
fn sorted_hashes(alloc: Global, last: u64) -> Result<Vec<u64>, AllocError> {
    let mut hashes = Vec::new(alloc);
    for number in 1..=last {
        hashes.push(hash_of(number))?;
    }
    hashes.sort_unstable();
    Ok(hashes)
}

/// The hashes of a table, ascending.
fn held_by(alloc: Global, table: &ThetaHashTable) -> Result<Vec<u64>, AllocError> {
    let mut hashes = Vec::new(alloc);
    for entry in table.iter_entries() {
        hashes.push(entry.hash())?;
    }
    hashes.sort_unstable();
    Ok(hashes)
}

/// A table with the hashes of the numbers from 1 to the last.
fn table_of(alloc: Global, lg_k: u8, last: u64) -> Result<ThetaHashTable, Error> {
    let mut table = ThetaHashTable::new(alloc, lg_k, X8, MAX_THETA, 9001)?;
    for number in 1..=last {
        if table.has_room() {
            table.try_insert_hash(hash_of(number))?;
        }
    }
    Ok(table)
}

/// Asserts that a table retains the least of its hashes, those below its theta; and exactly k of them after a trim.
fn assert_keeps_the_least(
    rt: &impl Abort,
    alloc: Global,
    lg_k: u8,
    nominal: usize,
    last: u64,
) -> Result<(), Error> {
    let sorted = sorted_hashes(alloc, last)?;
    let mut table = table_of(alloc, lg_k, last)?;
    let content = held_by(alloc, &table)?;
    assert!(rt; content.len() >= nominal && content.len() <= table.capacity_threshold());
    assert!(rt; sorted.get(..content.len()) == Some(content.as_slice()));
    assert!(rt;
        sorted
            .get(content.len())
            .is_some_and(|next| table.retention_theta() <= *next)
    );
    table.trim()?;
    assert_eq!(rt; sorted.get(nominal), Some(&table.retention_theta()));
    assert!(rt; sorted.get(..nominal) == Some(held_by(alloc, &table)?.as_slice()));
    Ok(())
}

#[test]
fn a_table_keeps_the_least(rt: HostRuntime) -> Result<(), Fail> {
    assert_keeps_the_least(&rt, rt.alloc(), 14, 16_384, 100_000)?;
    Ok(())
}
