//! Lines of readers, put into groups.
ghost use Rattle.std.specs.Prelude.{◌≡◌, ◌++◌, ℕ, List, None, IfOk, IfErr, IfSome, OnOk, [], true, length, ◌<◌};
ghost use Rattle.std.specs.Io.Buffered.{reader_remaining};
ghost use Rattle.core_laws.specs.Refusal.{Refuses};
ghost use Rattle.core_laws.specs.Settings.{settings_refusal};
ghost use Rattle.core_laws.specs.declared.TheConstants.{MAX_THETA};
ghost use Rattle.keys_lines.specs.Lines.{lines_of, lines_of_all, lines_after, Lacks};
ghost use Rattle.keys_sketches.specs.Refusals.{FailsIf, IsLasting, RefusesRead};
ghost use Rattle.keys_groups.specs.Groups.{HasGroups, without_lf};
ghost use Rattle.keys_groups.specs.Names.{AreNamed};
ghost use Rattle.keys_groups.specs.Reading.{ReadsLine, LeavesLines, TakesLines};
ghost use Rattle.keys_groups.specs.States.{IsGrouped};

use crate::groups::{Grouping, Groups, Table, check_settings};
use keys_lines::cut_line;
use keys_sketches::{BLOCK, ReadError, Sources, TextReader, read_failure, read_line};
use sketch_base::Error;
use std::alloc::{AllocError, Global};
use std::io;
use std::io::{BufReader, ErrorKind, Read};

/// Watches while lines are put into groups.
pub trait GroupWatch {
    /// Called after each line, which has `bytes` bytes without its LF, when there are `groups` groups. The numbers
    /// are for display: no clause speaks of them.
    fn on_line(&mut self, bytes: usize, groups: usize);
}

/// A text without the LF at its end, if it has one.
pub fn without_lf(text: &[u8]) -> &[u8]
    ensures { result.now ≡ without_lf text.now }
{
    match text.split_last() {
        Some((last, front)) => { if *last == b'\n' { front } else { text } }
        None => text,
    }
}

/// Reads the next line, with the LF that ends it, into `line`, whose old bytes are dropped. Returns whether there was
/// one. If the reader fails, its error is returned.
pub fn next_line<R: Read>(reader: &mut BufReader<R>, line: &mut Vec<u8>) -> io::Result<bool>
    ensures { IfOk result (ReadsLine
        (reader_remaining R.remaining reader.old)
        (reader_remaining R.remaining reader.new)
        line.new.items) }
{
    line.clear();
    let count = read_line(reader, line)?;
    if count == 0 {
        return Ok(false);
    }
    Ok(true)
}

/// Inserts the lines of a text that end in an LF. Returns the text after the last of them. Refused only with
/// `OutOfMemory`.
#[inline(always)]
fn take_lines<'a, W: GroupWatch>(
    groups: &mut Table,
    alloc: Global,
    grouping: Grouping,
    text: &'a [u8],
    watch: &mut W,
) -> Result<&'a [u8], Error>
    requires settled { settings_refusal grouping.lg_k MAX_THETA grouping.hashing.seed ≡ None }
    requires named { AreNamed groups.old.index groups.old.entries.items }
    ensures leaves { (before : List (List ℕ))
        → IsGrouped grouping before groups.old.entries.items
        → IfOk result (λ rest. LeavesLines grouping before text.now groups.new.entries.items rest.now) }
    ensures lacks { IfOk result (λ rest. Lacks 10 rest.now) }
    ensures named { OnOk result (AreNamed groups.new.index groups.new.entries.items) }
    ensures refused { Refuses result None true }
{
    let mut rest = text;
    while let Some((line, others)) = cut_line(rest) {
        groups.add_line(alloc, grouping, line)?;
        watch.on_line(line.len(), groups.count());
        rest = others;
    }
    Ok(rest)
}

/// Inserts the lines that end in a block, which continues an open line. The open line is then the text after the
/// block's last LF. Refused only with `OutOfMemory`.
fn take_block<W: GroupWatch>(
    groups: &mut Table,
    alloc: Global,
    grouping: Grouping,
    begun: &mut Vec<u8>,
    block: &[u8],
    watch: &mut W,
) -> Result<(), Error>
    requires settled { settings_refusal grouping.lg_k MAX_THETA grouping.hashing.seed ≡ None }
    requires named { AreNamed groups.old.index groups.old.entries.items }
    ensures takes { (before : List (List ℕ))
        → IsGrouped grouping before groups.old.entries.items
        → OnOk result (TakesLines grouping before begun.old.items block.now groups.new.entries.items begun.new.items) }
    ensures named { OnOk result (AreNamed groups.new.index groups.new.entries.items) }
    ensures refused { Refuses result None true }
{
    let Some((first, others)) = cut_line(block) else {
        begun.extend_from_slice(block)?;
        return Ok(());
    };
    begun.extend_from_slice(first)?;
    groups.add_line(alloc, grouping, begun.as_slice())?;
    watch.on_line(begun.len(), groups.count());
    let rest = take_lines(groups, alloc, grouping, others, watch)?;
    begun.clear();
    begun.extend_from_slice(rest)?;
    Ok(())
}

/// Inserts a last line without an LF, if it has a byte. Refused only with `OutOfMemory`.
fn take_last<W: GroupWatch>(
    groups: &mut Table,
    alloc: Global,
    grouping: Grouping,
    line: &[u8],
    watch: &mut W,
) -> Result<(), Error>
    requires settled { settings_refusal grouping.lg_k MAX_THETA grouping.hashing.seed ≡ None }
    requires named { AreNamed groups.old.index groups.old.entries.items }
    ensures taken { (before : List (List ℕ))
        → IsGrouped grouping before groups.old.entries.items
        → OnOk result (IsGrouped grouping (before ++ lines_after line.now []) groups.new.entries.items) }
    ensures named { OnOk result (AreNamed groups.new.index groups.new.entries.items) }
    ensures refused { Refuses result None true }
{
    if line.is_empty() {
        return Ok(());
    }
    groups.add_line(alloc, grouping, line)?;
    watch.on_line(line.len(), groups.count());
    Ok(())
}

/// Inserts all lines that a reader has left, block by block. Refused only with `OutOfMemory`. If the reader fails, its
/// error is returned; an interrupted read is repeated. After an error, some of the first lines are inserted; no clause
/// says which.
///
/// `block` has at least one byte, and its length is the most that one read requests. Its old contents are not used.
fn add_blocks<R: TextReader, W: GroupWatch>(
    groups: &mut Table,
    alloc: Global,
    grouping: Grouping,
    reader: &mut R,
    block: &mut [u8],
    watch: &mut W,
) -> Result<(), ReadError>
    requires settled { settings_refusal grouping.lg_k MAX_THETA grouping.hashing.seed ≡ None }
    requires named { AreNamed groups.old.index groups.old.entries.items }
    requires room { 0 < length block.old }
    ensures lines { (before : List (List ℕ))
        → IsGrouped grouping before groups.old.entries.items
        → IfSome (R.remaining reader.old) (λ text.
        OnOk result (IsGrouped grouping (before ++ lines_of text) groups.new.entries.items)) }
    ensures named { OnOk result (AreNamed groups.new.index groups.new.entries.items) }
    ensures refused { RefusesRead result None }
    ensures retried { IfErr result IsLasting }
    ensures fallible { IfErr result (FailsIf R.may_fail) }
{
    let mut begun = Vec::new(alloc);
    for _ in 0..u64::MAX {
        match reader.read(block) {
            Ok(0) => {
                take_last(groups, alloc, grouping, begun.as_slice(), watch)?;
                return Ok(());
            }
            Ok(count) => take_block(groups, alloc, grouping, &mut begun, &block[..count], watch)?,
            Err(error) => {
                if error.kind() != ErrorKind::Interrupted {
                    return Err(read_failure(R::may_fail(), error));
                }
            }
        }
    }
    Err(ReadError::Refused(Error::from(AllocError)))
}

/// Inserts all lines that a reader has left, as `add_blocks` does with a block of its own.
fn add_lines<R: TextReader, W: GroupWatch>(
    groups: &mut Table,
    alloc: Global,
    grouping: Grouping,
    reader: &mut R,
    watch: &mut W,
) -> Result<(), ReadError>
    requires settled { settings_refusal grouping.lg_k MAX_THETA grouping.hashing.seed ≡ None }
    requires named { AreNamed groups.old.index groups.old.entries.items }
    ensures lines { (before : List (List ℕ))
        → IsGrouped grouping before groups.old.entries.items
        → IfSome (R.remaining reader.old) (λ text.
        OnOk result (IsGrouped grouping (before ++ lines_of text) groups.new.entries.items)) }
    ensures named { OnOk result (AreNamed groups.new.index groups.new.entries.items) }
    ensures refused { RefusesRead result None }
    ensures retried { IfErr result IsLasting }
    ensures fallible { IfErr result (FailsIf R.may_fail) }
{
    let mut block = vec![in alloc; 0u8; BLOCK]?;
    add_blocks(groups, alloc, grouping, reader, &mut block, watch)
}

/// The groups of the lines of all texts, each text cut into lines by itself: a last line without an LF isn't joined
/// to the next text. Each group has the sketch of its own lines.
///
/// Refused with `InvalidArgument` only for an `lg_k` that isn't from 4 to 26 or a seed whose seed hash is 0, and with
/// `OutOfMemory`. If a source fails, or can't be opened, its error is returned: only if sources may fail, so never
/// for texts in memory. For a wrong `lg_k` or seed nothing is read; no clause says so. It allocates memory for a block,
/// for the longest line that one block begins and another ends, and for the name and the sketch of each group.
pub fn group_sources<S: Sources, W: GroupWatch>(
    alloc: Global,
    grouping: Grouping,
    sources: &mut S,
    watch: &mut W,
) -> Result<Groups, ReadError>
    ensures grouped { IfSome (S.texts sources.old) (λ texts.
        IfOk result (HasGroups grouping (lines_of_all texts))) }
    ensures refused { RefusesRead result (settings_refusal grouping.lg_k MAX_THETA grouping.hashing.seed) }
    ensures fallible { IfErr result (FailsIf S.may_fail) }
{
    check_settings(alloc, grouping)?;
    let mut groups = Table::new(alloc);
    for _ in 0..u64::MAX {
        match sources.next_source() {
            Ok(Some(mut source)) => {
                add_lines(&mut groups, alloc, grouping, &mut source, watch)?;
            }
            Ok(None) => return Ok(groups.into_groups()),
            Err(error) => return Err(read_failure(S::may_fail(), error)),
        }
    }
    Err(ReadError::Refused(Error::from(AllocError)))
}
