//! Runs of commands over a table.
ghost use Rattle.std.specs.Prelude.{◌≡◌, ◌≤◌, ◌^◌, None, true, nat_lt, length, IfOk, OnOk, OnErr};
ghost use Rattle.core_laws.specs.Refusal.{Refuses};
ghost use Rattle.theta_tables.specs.Command.{after_command, after_commands, done, reply, replies, IsAfterBeginning};

use crate::command::{TableCommand, TableReply};
use crate::table::ThetaTable;
use core_laws::MIN_LG_K;
use core_slots::{PutStep, ThetaEntry};
use sketch_base::Error;
use std::alloc::Allocator;

/// Runs commands in turn over a table of a sketch, whose nominal logarithm is at least 4, and returns the reply to
/// each, in memory of `alloc`. The replies, and what the table then retains, are functions of what it retained, for
/// every table.
///
/// Refused with `OutOfMemory` alone, and only if there are commands. Then the table is as after some first commands,
/// perhaps none or all.
pub fn run_table<T: ThetaTable<ThetaEntry>, A: Allocator>(
    alloc: A,
    table: &mut T,
    commands: &[TableCommand],
) -> Result<Vec<TableReply, A>, Error>
    requires of_sketch { MIN_LG_K ≤ (T.map table.old).lg_nom }
    ensures ok { IfOk result (λ answer.
        answer.items
        ≡ replies (2 ^ (T.map table.old).lg_nom) (T.map table.old).start commands.now (T.map table.old).kept) }
    ensures after { OnOk result (
        T.map table.new
        ≡ record (T.map table.old)
        { kept = after_commands (2 ^ (T.map table.old).lg_nom) (T.map table.old).start commands.now (T.map table.old).kept }) }
    ensures err { OnErr result (IsAfterBeginning commands.now (T.map table.old) (T.map table.new)) }
    ensures refused { Refuses result None (nat_lt 0 (length commands.now)) }
{
    let mut answer = Vec::new(alloc);
    for command in commands {
        let next_reply = run_command(table, *command)?;
        answer.push(next_reply)?;
    }
    Ok(answer)
}

/// Runs a command over a table of a sketch, and returns its reply.
fn run_command<T: ThetaTable<ThetaEntry>>(
    table: &mut T,
    command: TableCommand,
) -> Result<TableReply, Error>
    requires of_sketch { MIN_LG_K ≤ (T.map table.old).lg_nom }
    ensures ok { IfOk result (λ next_reply.
        next_reply ≡ reply (2 ^ (T.map table.old).lg_nom) (T.map table.old).start command (T.map table.old).kept) }
    ensures after { OnOk result (
        T.map table.new
        ≡ record (T.map table.old)
        { kept = after_command (2 ^ (T.map table.old).lg_nom) (T.map table.old).start command (T.map table.old).kept }) }
    ensures err { OnErr result (T.map table.new ≡ T.map table.old) }
    ensures refused { Refuses result None true }
{
    match command {
        TableCommand::Insert(hash) => {
            let created = table.upsert_entry(hash, PutStep::new(ThetaEntry::of_hash(hash)))?;
            Ok(TableReply::Inserted(created))
        }
        TableCommand::Find(hash) => {
            let found = table.entry(hash).is_some();
            Ok(TableReply::Found(found))
        }
        TableCommand::Trim => {
            table.trim()?;
            let trimmed = done(table);
            Ok(trimmed)
        }
        TableCommand::Reset => {
            table.reset();
            let emptied = done(table);
            Ok(emptied)
        }
    }
}

/// How many hashes a table retains, and its theta.
fn done<T: ThetaTable<ThetaEntry>>(table: &T) -> TableReply
    ensures { result ≡ done (T.map table.now).kept }
{
    TableReply::Done {
        count: table.num_retained(),
        theta: table.retention_theta(),
    }
}
