//! `theta_table`: a table of hashes.
use crate::steps::{Declining, Refusing};
use crate::tables::{change, copy, may_insert, put_table, read};
use calls_language::arguments::{hex_of, put_number, put_truth};
use calls_language::object::{Call, Left, Memory, Object};
use calls_language::series::hashes_of;
use calls_language::settings::Settings as Words;
use calls_language::words::{Fault, list_of, number};
use sketch_base::DEFAULT_UPDATE_SEED;
use std::alloc::{Allocator, Global};
use std::hash::Hash;
use theta_core::{
    DEFAULT_LG_K, MAX_THETA, PutStep, ResizeFactor, SketchHashTable, ThetaEntry, ThetaHashTable,
};

/// A table of hashes.
#[derive(Drop)]
pub struct HashTableObject<A: Allocator> {
    pub table: ThetaHashTable<A>,
}

/// A table of these settings.
pub fn table_of<A: Allocator + Drop>(alloc: A, words: Words) -> Result<ThetaHashTable<A>, Fault> {
    let lg_k = words.lg_k.unwrap_or(DEFAULT_LG_K);
    let factor = words.factor.unwrap_or(ResizeFactor::X8);
    let start = words.start.unwrap_or(MAX_THETA);
    let seed = words.seed.unwrap_or(DEFAULT_UPDATE_SEED);
    Ok(SketchHashTable::new(alloc, lg_k, factor, start, seed)?)
}

/// Inserts the hash of a value.
fn insert_value<T: Hash + Copy + Drop, A: Allocator + Clone>(
    table: &mut ThetaHashTable<A>,
    value: T,
) -> Result<bool, Fault> {
    let hash = table.hash(value);
    if !may_insert(table, hash) {
        return Err(Fault::Condition);
    }
    Ok(table.try_insert(value)?)
}

/// Inserts the hash of a key.
fn insert_key<A: Allocator + Clone>(
    plain: Global,
    table: &mut ThetaHashTable<A>,
    key: &str,
) -> Result<bool, Fault> {
    match key.split_once(':') {
        Some(("text", text)) => insert_value(table, text),
        Some(("u64", value)) => insert_value(table, number(value)?),
        Some(("i32", value)) => {
            insert_value(table, value.parse::<i32>().map_err(|_| Fault::Unknown)?)
        }
        Some(("bytes", digits)) => insert_value(table, hex_of(plain, digits)?.as_slice()),
        _ => Err(Fault::Unknown),
    }
}

/// The hash of a key under the seed of a table.
fn hash_key<A: Allocator>(
    plain: Global,
    table: &ThetaHashTable<A>,
    key: &str,
) -> Result<u64, Fault> {
    match key.split_once(':') {
        Some(("text", text)) => Ok(table.hash(text)),
        Some(("u64", value)) => Ok(table.hash(number(value)?)),
        Some(("i32", value)) => Ok(table.hash(value.parse::<i32>().map_err(|_| Fault::Unknown)?)),
        Some(("bytes", digits)) => Ok(table.hash(hex_of(plain, digits)?.as_slice())),
        _ => Err(Fault::Unknown),
    }
}

/// Inserts a hash.
fn insert<A: Allocator + Clone>(table: &mut ThetaHashTable<A>, hash: u64) -> Result<bool, Fault> {
    if !may_insert(table, hash) {
        return Err(Fault::Condition);
    }
    Ok(table.try_insert_hash(hash)?)
}

/// Inserts a hash by the step that makes its entry.
fn put<A: Allocator + Clone>(table: &mut ThetaHashTable<A>, hash: u64) -> Result<bool, Fault> {
    if !may_insert(table, hash) {
        return Err(Fault::Condition);
    }
    Ok(table.upsert_entry(hash, PutStep::new(ThetaEntry::of_hash(hash)))?)
}

/// Inserts a hash by the step that makes nothing.
fn decline<A: Allocator + Clone>(table: &mut ThetaHashTable<A>, hash: u64) -> Result<bool, Fault> {
    if !may_insert(table, hash) {
        return Err(Fault::Condition);
    }
    Ok(table.upsert_entry(hash, Declining)?)
}

/// Inserts a hash by the step that refuses.
fn refuse<A: Allocator + Clone>(table: &mut ThetaHashTable<A>, hash: u64) -> Result<bool, Fault> {
    if !may_insert(table, hash) {
        return Err(Fault::Condition);
    }
    Ok(table.upsert_entry(hash, Refusing)?)
}

/// Inserts a hash if its search ends soon.
fn near<A: Allocator + Clone>(table: &mut ThetaHashTable<A>, hash: u64) -> Result<bool, Fault> {
    if !may_insert(table, hash) {
        return Err(Fault::Condition);
    }
    Ok(table.upsert_near(hash, PutStep::new(ThetaEntry::of_hash(hash)))?)
}

/// Inserts hashes at once.
fn insert_all<A: Allocator + Clone>(
    plain: Global,
    table: &mut ThetaHashTable<A>,
    list: &str,
) -> Result<(), Fault> {
    let hashes = hashes_of(plain, list_of(list)?)?;
    if table.lg_nom_size() < 3 {
        return Err(Fault::Condition);
    }
    table.insert_hashes(hashes.as_slice())?;
    Ok(())
}

impl<A: Allocator + Copy + Drop> HashTableObject<A> {
    /// Makes a call on one hash; returns what it answers, or none if the call isn't one.
    fn insert_one(&mut self, plain: Global, call: Call<'_>) -> Result<Option<bool>, Fault> {
        let table = &mut self.table;
        let made = match call.verb {
            "insert" => insert(table, number(call.argument)?)?,
            "insert_key" => insert_key(plain, table, call.argument)?,
            "put" => put(table, number(call.argument)?)?,
            "decline" => decline(table, number(call.argument)?)?,
            "refuse" => refuse(table, number(call.argument)?)?,
            _ => return Ok(None),
        };
        Ok(Some(made))
    }

    /// Makes a call that is of tables of hashes alone; returns whether the call is one.
    fn insert_more(
        &mut self,
        plain: Global,
        call: Call<'_>,
        answer: &mut String,
    ) -> Result<bool, Fault> {
        match call.verb {
            "near" => {
                let is_done = near(&mut self.table, number(call.argument)?)?;
                answer.push_str(if is_done { "done" } else { "far" })?;
            }
            "insert_all" => {
                insert_all(plain, &mut self.table, call.argument)?;
                answer.push_str("ok")?;
            }
            "hash" => put_number(answer, hash_key(plain, &self.table, call.argument)?)?,
            "entry" => {
                let found = self.table.entry(number(call.argument)?).is_some();
                answer.push_str(if found { "found" } else { "none" })?;
            }
            _ => return Ok(false),
        }
        Ok(true)
    }
}

/// Makes a call on a table that is of tables of all entries.
fn call_table<A: Allocator + Clone>(
    memory: Memory<'_>,
    table: &mut ThetaHashTable<A>,
    call: Call<'_>,
    answer: &mut String,
) -> Result<(), Fault> {
    if read(table, call, answer)? || copy(table, call, answer)? {
        return Ok(());
    }
    if !change(memory, table, call)? {
        return Err(Fault::Unknown);
    }
    answer.push_str("ok")?;
    Ok(())
}

impl<A: Allocator + Copy + Drop> Object<A> for HashTableObject<A> {
    fn make(_plain: Global, alloc: A, settings: &str) -> Result<Self, Fault> {
        let table = table_of(alloc, Words::read(settings, ' ')?)?;
        Ok(HashTableObject { table })
    }

    fn call(
        &mut self,
        memory: Memory<'_>,
        call: Call<'_>,
        answer: &mut String,
    ) -> Result<(), Fault> {
        if let Some(made) = self.insert_one(memory.plain(), call)? {
            put_truth(answer, made)?;
            return Ok(());
        }
        if self.insert_more(memory.plain(), call, answer)? {
            return Ok(());
        }
        call_table(memory, &mut self.table, call, answer)
    }

    fn see(&self, text: &mut String) -> Result<(), Fault> {
        put_table(text, &self.table)?;
        Ok(())
    }

    fn left_by(verb: &str) -> Left {
        if verb == "insert_all" {
            Left::Beginning
        } else {
            Left::Unchanged
        }
    }
}
