//! Calls and runs of commands on a table, through the contract that every table has.
ghost use Rattle.std.specs.Prelude.{◌≡◌, IsTrue, true};
ghost use Rattle.core_laws.specs.Entries.{hash_key};
ghost use Rattle.core_table.specs.HashTable.{may_insert};

use crate::commands::Commands;
use crate::steps::{Declining, Refusing};
use calls_language::arguments::{put_number, put_truth};
use calls_language::object::{Call, Memory, Object};
use calls_language::settings::Settings as Words;
use calls_language::words::{Fault, number, put_done};
use sketch_base::Error;
use std::alloc::{AllocError, Allocator, Global};
use theta_core::{MIN_LG_K, PutStep, ThetaEntry};
use theta_tables::{TableCommand, TableReply, ThetaTable, run_table};

/// A table that lines can make and show.
pub trait Runnable<A>: ThetaTable<ThetaEntry> + Sized {
    /// Makes one of these settings.
    fn make(alloc: A, words: Words) -> Result<Self, Fault>;

    /// Its seed and seed hash.
    fn seeds(&self) -> (u64, u16);

    /// Appends all that can be seen of it.
    fn put(&self, text: &mut String) -> Result<(), AllocError>;
}

/// A table, its settings, and the commands by which another becomes the same.
#[derive(Drop)]
pub struct RunTable<T, A> {
    alloc: A,
    words: Words,
    commands: Vec<TableCommand>,
    table: T,
}

/// Whether a hash may be inserted: it is screened or retained, or there is room.
fn may_insert<T: ThetaTable<ThetaEntry>>(table: &T, hash: u64) -> bool
    ensures { result ≡ true → IsTrue (may_insert hash_key hash (T.map table.now)) }
{
    if hash == 0 || table.retention_theta() <= hash {
        return true;
    }
    table.has_room() || table.entry(hash).is_some()
}

/// Inserts a hash by a step that changes nothing.
fn decline<T: ThetaTable<ThetaEntry>>(table: &mut T, hash: u64) -> Result<bool, Fault> {
    if !may_insert(table, hash) {
        return Err(Fault::Condition);
    }
    Ok(table.upsert_entry(hash, Declining)?)
}

/// Inserts a hash by the step that refuses.
fn refuse<T: ThetaTable<ThetaEntry>>(table: &mut T, hash: u64) -> Result<bool, Fault> {
    if !may_insert(table, hash) {
        return Err(Fault::Condition);
    }
    Ok(table.upsert_entry(hash, Refusing)?)
}

/// Inserts a hash.
fn put<T: ThetaTable<ThetaEntry>>(table: &mut T, hash: u64) -> Result<bool, Fault> {
    if !may_insert(table, hash) {
        return Err(Fault::Condition);
    }
    Ok(table.upsert_entry(hash, PutStep::new(ThetaEntry::of_hash(hash)))?)
}

/// Runs commands; a table whose nominal entries are too few for a reset takes none.
fn run_commands<T: ThetaTable<ThetaEntry>, B: Allocator>(
    alloc: B,
    table: &mut T,
    commands: &[TableCommand],
) -> Result<Vec<TableReply, B>, Error> {
    if table.lg_nom_size() < MIN_LG_K {
        return Ok(Vec::new(alloc));
    }
    run_table(alloc, table, commands)
}

/// What can be seen of a table.
fn text_of<A, T: Runnable<A>>(plain: Global, table: &T) -> Result<String, AllocError> {
    let mut text = String::new(plain);
    table.put(&mut text)?;
    Ok(text)
}

impl<T: Runnable<A> + Drop, A: Allocator + Copy + Drop> RunTable<T, A> {
    /// Another table that is the same as this one was before the last run.
    fn again(&self, plain: Global) -> Result<T, Fault> {
        let mut table = T::make(self.alloc, self.words)?;
        run_commands(plain, &mut table, self.commands.as_slice())?;
        Ok(table)
    }

    /// Whether the table is as some beginning of these commands leaves it.
    fn is_beginning(&self, plain: Global, commands: &[TableCommand]) -> Result<bool, Fault> {
        let found = text_of::<A, T>(plain, &self.table)?;
        let mut table = self.again(plain)?;
        for command in commands {
            if text_of::<A, T>(plain, &table)?.as_str() == found.as_str() {
                return Ok(true);
            }
            run_commands(plain, &mut table, &[*command])?;
        }
        Ok(text_of::<A, T>(plain, &table)?.as_str() == found.as_str())
    }

    /// Counts this many requests for memory, so that what was done after a refusal isn't counted.
    fn count_again(&self, memory: Memory<'_>, requests: u64) -> Result<(), AllocError> {
        memory.pause();
        for _ in 0..requests {
            let _one: Vec<u8, A> = Vec::with_capacity(self.alloc, 1)?;
        }
        Ok(())
    }

    /// Runs the commands of words. A refused run must leave the table that a beginning leaves; then the table becomes
    /// what it was before.
    fn run(&mut self, memory: Memory<'_>, words: &str, answer: &mut String) -> Result<(), Fault> {
        let plain = memory.plain();
        let commands = Commands::read(plain, words)?;
        match run_commands(self.alloc, &mut self.table, commands.list.as_slice()) {
            Ok(replies) => {
                commands.put_replies(answer, replies.as_slice())?;
                self.commands.extend_from_slice(commands.list.as_slice())?;
                Ok(())
            }
            Err(error) => {
                let requests = memory.requests();
                memory.pause();
                let is_beginning = self.is_beginning(plain, commands.list.as_slice())?;
                self.table = self.again(plain)?;
                self.count_again(memory, requests)?;
                if is_beginning {
                    Err(Fault::Refused(error.kind()))
                } else {
                    Err(Fault::Condition)
                }
            }
        }
    }

    /// Makes a call that may change the table; returns whether the call is one.
    fn change(&mut self, call: Call<'_>, answer: &mut String) -> Result<bool, Fault> {
        match (call.verb, call.argument) {
            ("put", word) => {
                let hash = number(word)?;
                put_truth(answer, put(&mut self.table, hash)?)?;
                self.commands.push(TableCommand::Insert(hash))?;
            }
            ("decline", word) => put_truth(answer, decline(&mut self.table, number(word)?)?)?,
            ("refuse", word) => put_truth(answer, refuse(&mut self.table, number(word)?)?)?,
            ("trim", "") => {
                put_done(answer, self.table.trim())?;
                self.commands.push(TableCommand::Trim)?;
            }
            ("reset", "") => {
                if self.table.lg_nom_size() < MIN_LG_K {
                    return Err(Fault::Condition);
                }
                self.table.reset();
                self.commands.push(TableCommand::Reset)?;
                answer.push_str("ok")?;
            }
            _ => return Ok(false),
        }
        Ok(true)
    }

    /// Makes a call that reads the table.
    fn read(&self, call: Call<'_>, answer: &mut String) -> Result<(), Fault> {
        let table = &self.table;
        match (call.verb, call.argument) {
            ("entry", hash) => {
                let found = table.entry(number(hash)?).is_some();
                answer.push_str(if found { "found" } else { "none" })?;
            }
            ("count", "") => put_number(answer, table.num_retained() as u64)?,
            ("theta", "") => put_number(answer, table.retention_theta())?,
            ("room", "") => put_truth(answer, table.has_room())?,
            ("lg_nom", "") => put_number(answer, table.lg_nom_size() as u64)?,
            ("seed", "") => put_number(answer, table.seeds().0)?,
            ("seed_hash", "") => put_number(answer, table.seeds().1 as u64)?,
            ("see", "") => table.put(answer)?,
            _ => return Err(Fault::Unknown),
        }
        Ok(())
    }
}

impl<T: Runnable<A> + Drop, A: Allocator + Copy + Drop> Object<A> for RunTable<T, A> {
    fn make(plain: Global, alloc: A, settings: &str) -> Result<Self, Fault> {
        let words = Words::read(settings, ' ')?;
        let table = T::make(alloc, words)?;
        Ok(RunTable {
            alloc,
            words,
            commands: Vec::new(plain),
            table,
        })
    }

    fn call(
        &mut self,
        memory: Memory<'_>,
        call: Call<'_>,
        answer: &mut String,
    ) -> Result<(), Fault> {
        if call.verb == "run" {
            return self.run(memory, call.argument, answer);
        }
        if self.change(call, answer)? {
            return Ok(());
        }
        self.read(call, answer)
    }

    fn see(&self, text: &mut String) -> Result<(), Fault> {
        self.table.put(text)?;
        Ok(())
    }
}
