//! `tuple_table`: a table of hashes with summaries.
use crate::steps::{Adding, Declining, Refusing};
use crate::tables::{change, copy, may_insert, put_table, read};
use calls_language::arguments::{hex_of, put_number, put_truth};
use calls_language::object::{Call, Memory, Object};
use calls_language::settings::Settings as Words;
use calls_language::words::{Fault, number};
use sketch_base::DEFAULT_UPDATE_SEED;
use std::alloc::{AllocError, Allocator, Global};
use std::hash::Hash;
use theta_core::{
    DEFAULT_LG_K, DefaultUpdatePolicy, MAX_THETA, PutStep, ResizeFactor, SketchHashTable,
    TupleEntry, TupleHashTable, UpdateStep,
};

/// A table of hashes with sums.
#[derive(Drop)]
pub struct TupleTableObject<A: Allocator> {
    table: TupleHashTable<u64, A>,
}

/// A key or a hash, and the value behind it.
fn cut_value(argument: &str) -> Result<(&str, u64), Fault> {
    match argument.rsplit_once(':') {
        Some((front, value)) => Ok((front, number(value)?)),
        None => Err(Fault::Unknown),
    }
}

/// A hash and the value behind it.
fn hash_and_value(argument: &str) -> Result<(u64, u64), Fault> {
    let (hash, value) = cut_value(argument)?;
    Ok((number(hash)?, value))
}

/// Inserts a value at the hash of a key.
fn insert_value<T: Hash + Copy + Drop, A: Allocator + Clone>(
    table: &mut TupleHashTable<u64, A>,
    key: T,
    value: u64,
) -> Result<bool, Fault> {
    let hash = table.hash(key);
    if !may_insert(table, hash) {
        return Err(Fault::Condition);
    }
    Ok(table.try_insert(key, Adding { value })?)
}

/// Inserts a value at the hash of a key in words.
fn insert_key<A: Allocator + Clone>(
    plain: Global,
    table: &mut TupleHashTable<u64, A>,
    argument: &str,
) -> Result<bool, Fault> {
    let (key, value) = cut_value(argument)?;
    match key.split_once(':') {
        Some(("text", text)) => insert_value(table, text, value),
        Some(("u64", word)) => insert_value(table, number(word)?, value),
        Some(("i32", word)) => {
            insert_value(
                table,
                word.parse::<i32>().map_err(|_| Fault::Unknown)?,
                value,
            )
        }
        Some(("bytes", digits)) => insert_value(table, hex_of(plain, digits)?.as_slice(), value),
        _ => Err(Fault::Unknown),
    }
}

/// Inserts a value at a hash.
fn insert<A: Allocator + Clone>(
    table: &mut TupleHashTable<u64, A>,
    argument: &str,
) -> Result<bool, Fault> {
    let (hash, value) = hash_and_value(argument)?;
    if !may_insert(table, hash) {
        return Err(Fault::Condition);
    }
    Ok(table.try_insert_hash(hash, Adding { value })?)
}

/// Inserts an entry by the step that makes it.
fn put<A: Allocator + Clone>(
    table: &mut TupleHashTable<u64, A>,
    argument: &str,
) -> Result<bool, Fault> {
    let (hash, value) = hash_and_value(argument)?;
    if !may_insert(table, hash) {
        return Err(Fault::Condition);
    }
    Ok(table.upsert_entry(hash, PutStep::new(TupleEntry::of_hash(hash, value)))?)
}

/// Inserts an entry if its search ends soon.
fn near<A: Allocator + Clone>(
    table: &mut TupleHashTable<u64, A>,
    argument: &str,
) -> Result<bool, Fault> {
    let (hash, value) = hash_and_value(argument)?;
    if !may_insert(table, hash) {
        return Err(Fault::Condition);
    }
    Ok(table.upsert_near(hash, PutStep::new(TupleEntry::of_hash(hash, value)))?)
}

/// Updates a hash with a value by the default policy.
fn update<A: Allocator + Clone>(
    table: &mut TupleHashTable<u64, A>,
    argument: &str,
) -> Result<bool, Fault> {
    let (hash, value) = hash_and_value(argument)?;
    if !may_insert(table, hash) {
        return Err(Fault::Condition);
    }
    let policy = DefaultUpdatePolicy::<u64>::default();
    Ok(table.upsert_entry(hash, UpdateStep::new(&policy, hash, value))?)
}

/// Inserts a hash by the step that makes nothing.
fn decline<A: Allocator + Clone>(
    table: &mut TupleHashTable<u64, A>,
    hash: u64,
) -> Result<bool, Fault> {
    if !may_insert(table, hash) {
        return Err(Fault::Condition);
    }
    Ok(table.try_insert_hash(hash, Declining)?)
}

/// Inserts a hash by the step that refuses.
fn refuse<A: Allocator + Clone>(
    table: &mut TupleHashTable<u64, A>,
    hash: u64,
) -> Result<bool, Fault> {
    if !may_insert(table, hash) {
        return Err(Fault::Condition);
    }
    Ok(table.try_insert_hash(hash, Refusing)?)
}

/// Goes through the entries of a table, and appends how many there are.
fn put_iterated<A: Allocator>(
    answer: &mut String,
    table: &TupleHashTable<u64, A>,
) -> Result<(), AllocError> {
    let mut count = 0u64;
    for _entry in table.iter() {
        count = count.saturating_add(1);
    }
    put_number(answer, count)
}

/// Appends the summary of a hash.
fn put_summary<A: Allocator>(
    answer: &mut String,
    table: &TupleHashTable<u64, A>,
    hash: u64,
) -> Result<(), AllocError> {
    match table.entry(hash) {
        Some(entry) => put_number(answer, *entry.summary()),
        None => answer.push_str("none"),
    }
}

impl<A: Allocator + Copy + Drop> TupleTableObject<A> {
    /// Makes a call on one hash; returns what it answers, or none if the call isn't one.
    fn insert_one(&mut self, plain: Global, call: Call<'_>) -> Result<Option<bool>, Fault> {
        let table = &mut self.table;
        let made = match call.verb {
            "insert" => insert(table, call.argument)?,
            "insert_key" => insert_key(plain, table, call.argument)?,
            "put" => put(table, call.argument)?,
            "update" => update(table, call.argument)?,
            "decline" => decline(table, number(call.argument)?)?,
            "refuse" => refuse(table, number(call.argument)?)?,
            _ => return Ok(None),
        };
        Ok(Some(made))
    }

    /// Makes a call that is of tables of tuples alone; returns whether the call is one.
    fn read_own(&mut self, call: Call<'_>, answer: &mut String) -> Result<bool, Fault> {
        match (call.verb, call.argument) {
            ("near", argument) => {
                let is_done = near(&mut self.table, argument)?;
                answer.push_str(if is_done { "done" } else { "far" })?;
            }
            ("entry", hash) => put_summary(answer, &self.table, number(hash)?)?,
            ("iterate", "") => put_iterated(answer, &self.table)?,
            ("hash", key) => match key.strip_prefix("text:") {
                Some(text) => put_number(answer, self.table.hash(text))?,
                None => return Err(Fault::Unknown),
            },
            _ => return Ok(false),
        }
        Ok(true)
    }
}

/// Makes a call on a table that is of tables of all entries.
fn call_table<A: Allocator + Clone>(
    memory: Memory<'_>,
    table: &mut TupleHashTable<u64, A>,
    call: Call<'_>,
    answer: &mut String,
) -> Result<(), Fault> {
    if read(table, call, answer)? || copy(table, call, answer)? {
        return Ok(());
    }
    if !change(memory, table, call)? {
        return Err(Fault::Unknown);
    }
    answer.push_str("ok")?;
    Ok(())
}

impl<A: Allocator + Copy + Drop> Object<A> for TupleTableObject<A> {
    fn make(_plain: Global, alloc: A, settings: &str) -> Result<Self, Fault> {
        let words = Words::read(settings, ' ')?;
        let lg_k = words.lg_k.unwrap_or(DEFAULT_LG_K);
        let factor = words.factor.unwrap_or(ResizeFactor::X8);
        let start = words.start.unwrap_or(MAX_THETA);
        let seed = words.seed.unwrap_or(DEFAULT_UPDATE_SEED);
        let table = SketchHashTable::new(alloc, lg_k, factor, start, seed)?;
        Ok(TupleTableObject { table })
    }

    fn call(
        &mut self,
        memory: Memory<'_>,
        call: Call<'_>,
        answer: &mut String,
    ) -> Result<(), Fault> {
        if let Some(made) = self.insert_one(memory.plain(), call)? {
            put_truth(answer, made)?;
            return Ok(());
        }
        if self.read_own(call, answer)? {
            return Ok(());
        }
        call_table(memory, &mut self.table, call, answer)
    }

    fn see(&self, text: &mut String) -> Result<(), Fault> {
        put_table(text, &self.table)?;
        Ok(())
    }
}
