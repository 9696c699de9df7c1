//! Files of groups, read one after another and joined by names.
ghost use Rattle.std.specs.Prelude.{◌≡◌, Option, List, ℕ, None, true, IfOk, IfErr, IfSome, OnOk};
ghost use Rattle.core_laws.specs.Refusal.{Refuses};
ghost use Rattle.core_laws.specs.Settings.{settings_refusal};
ghost use Rattle.core_laws.specs.declared.TheConstants.{MAX_THETA};
ghost use Rattle.keys_groups.specs.United.{AreSound, FailsIf};
ghost use Rattle.keys_joins.specs.Joins.{IsMeetText};
ghost use Rattle.keys_joins.specs.Reading.{HasNextUnions, AreTables, IsJoinError, IsMinusOf, PutsTable};

use crate::joins::{Join, joined_text};
use crate::tables::SketchTable;
use keys_groups::{UniteError, UnitedGroups, unite_groups};
use keys_sketches::{Sources, TextReader};
use sketch_base::Error;
use std::alloc::{AllocError, Global};
use std::io;

/// One source alone.
#[derive(Drop)]
struct OneSource<R: TextReader + Drop> {
    source: Option<R>,
}

impl<R: TextReader + Drop> Sources for OneSource<R> {
    type Source = R;

    ghost use Rattle.keys_joins.specs.Reading.{text_of_one};

    ghost texts = { λ s. text_of_one R.remaining s.source };

    ghost may_fail = { R.may_fail };

    ghost readers_fail = { λ fails. fails };

    fn may_fail() -> bool {
        R::may_fail()
    }

    fn next_source(&mut self) -> io::Result<Option<R>> {
        Ok(self.source.take())
    }
}

/// Why files of groups are not joined, if a source failed with this error. If none may fail, only memory was missing.
fn source_failure(may_fail: bool, error: io::Error) -> UniteError
    ensures fallible { FailsIf may_fail result }
    ensures failed { (seed : ℕ) (texts : Option (List (List ℕ))) → IsJoinError seed texts result }
{
    if may_fail {
        UniteError::Failed(error)
    } else {
        UniteError::Refused(Error::from(AllocError))
    }
}

/// The groups of the next source, or `None` at the end.
fn next_groups<S: Sources>(
    alloc: Global,
    seed: u64,
    lg_k: u8,
    sources: &mut S,
) -> Result<Option<UnitedGroups>, UniteError>
    requires settled { settings_refusal lg_k MAX_THETA seed ≡ None }
    ensures next { IfOk result (HasNextUnions seed lg_k (S.texts sources.old) (S.texts sources.new)) }
    ensures sound { IfOk result (λ next. IfSome next AreSound) }
    ensures failed { IfErr result (IsJoinError seed (S.texts sources.old)) }
    ensures fallible { IfErr result (FailsIf S.may_fail) }
{
    match sources.next_source() {
        Ok(Some(source)) => {
            let mut one = OneSource {
                source: Some(source),
            };
            let groups = unite_groups(alloc, seed, lg_k, &mut one)?;
            Ok(Some(groups))
        }
        Ok(None) => Ok(None),
        Err(error) => Err(source_failure(S::may_fail(), error)),
    }
}

/// Puts a table of the sketches of groups behind others. Refused only with `OutOfMemory`.
fn put_table(
    alloc: Global,
    groups: &mut UnitedGroups,
    tables: &mut Vec<SketchTable>,
) -> Result<(), Error>
    requires sound { AreSound groups.old }
    ensures put { OnOk result (PutsTable groups.old tables.old.items tables.new.items) }
    ensures refused { Refuses result None true }
{
    let table = SketchTable::of(alloc, groups)?;
    tables.push(table)?;
    Ok(())
}

/// A table of the groups of each source that is left.
pub(crate) fn tables_of<S: Sources>(
    alloc: Global,
    seed: u64,
    lg_k: u8,
    sources: &mut S,
) -> Result<Vec<SketchTable>, UniteError>
    requires settled { settings_refusal lg_k MAX_THETA seed ≡ None }
    ensures tables { IfSome (S.texts sources.old) (λ texts. IfOk result (λ v. AreTables seed lg_k texts v.items)) }
    ensures failed { IfErr result (IsJoinError seed (S.texts sources.old)) }
    ensures fallible { IfErr result (FailsIf S.may_fail) }
{
    let mut tables = Vec::new(alloc);
    for _ in 0..u64::MAX {
        match next_groups(alloc, seed, lg_k, sources)? {
            Some(mut groups) => put_table(alloc, &mut groups, &mut tables)?,
            None => return Ok(tables),
        }
    }
    Err(UniteError::Refused(Error::from(AllocError)))
}

/// For each name that all texts have in their lines, in ascending order, a line with the image of the intersection of
/// its groups: the name, a tab, and the image in hexadecimal digits. A line of a text is of this form too; the images
/// of one name in a text are united, with 2^`lg_k` nominal entries. Of no texts there are no lines.
///
/// Refused only with `OutOfMemory`. If a source fails, or can't be opened, its error is returned: only if sources may
/// fail, so never for texts in memory. A flaw is returned only for the first line of a text that has one, with its
/// number in its text.
pub fn meet_groups<S: Sources>(
    alloc: Global,
    seed: u64,
    lg_k: u8,
    sources: &mut S,
) -> Result<Vec<u8>, UniteError>
    requires settled { settings_refusal lg_k MAX_THETA seed ≡ None }
    ensures met { IfSome (S.texts sources.old) (λ texts.
        IfOk result (λ v. IsMeetText seed lg_k texts v.items)) }
    ensures failed { IfErr result (IsJoinError seed (S.texts sources.old)) }
    ensures fallible { IfErr result (FailsIf S.may_fail) }
{
    let Some(mut first) = next_groups(alloc, seed, lg_k, sources)? else {
        return Ok(Vec::new(alloc));
    };
    let others = tables_of(alloc, seed, lg_k, sources)?;
    Ok(joined_text(alloc, Join::Meet, seed, &mut first, others.as_slice())?)
}

/// For each name that the first of two texts has in its lines, in ascending order, a line with the image of the
/// difference of its groups, or of the only one; else as `meet_groups`. If there are not two texts, it returns `None`.
pub fn minus_groups<S: Sources>(
    alloc: Global,
    seed: u64,
    lg_k: u8,
    sources: &mut S,
) -> Result<Option<Vec<u8>>, UniteError>
    requires settled { settings_refusal lg_k MAX_THETA seed ≡ None }
    ensures difference { IfSome (S.texts sources.old) (λ texts.
        IfOk result (IsMinusOf seed lg_k texts)) }
    ensures failed { IfErr result (IsJoinError seed (S.texts sources.old)) }
    ensures fallible { IfErr result (FailsIf S.may_fail) }
{
    let Some(mut first) = next_groups(alloc, seed, lg_k, sources)? else {
        return Ok(None);
    };
    let others = tables_of(alloc, seed, lg_k, sources)?;
    if others.len() != 1 {
        return Ok(None);
    }
    let text = joined_text(alloc, Join::Minus, seed, &mut first, others.as_slice())?;
    Ok(Some(text))
}
