//! Lines of readers, each with a group and its image, united by groups.
ghost use Rattle.std.specs.Prelude.{◌≡◌, ℕ, Bool, List, Option, flat_map, true, None, IfOk, IfErr, IfSome, OnOk};
ghost use Rattle.std.specs.Option.{option_map};
ghost use Rattle.core_laws.specs.Refusal.{Refuses};
ghost use Rattle.core_laws.specs.Settings.{settings_refusal};
ghost use Rattle.core_laws.specs.declared.TheConstants.{MAX_THETA};
ghost use Rattle.keys_lines.specs.Lines.{lines_of, lines_of_all};
ghost use Rattle.keys_groups.specs.United.{IsAddError, IsUniting, AreReady, AreAdded, HasUnions, AreSound};
ghost use Rattle.keys_groups.specs.United.{IsUnitedText};
ghost use Rattle.keys_groups.specs.United.{FailsIf, IsOfLine, IsOfLines, ReportsFirst, IsUniteError};
ghost use Rattle.keys_groups.specs.United.{AreSketchedTexts, IsSketchedText};
ghost use Rattle.keys_groups.specs.declared.groups.Grouping.{Grouping};

use crate::laws::groups_unite;
use crate::order::names_ascend;
use crate::reading::{next_line, without_lf};
use crate::sketched::sketched_text;
use crate::united::{AddError, LineFlaw, UnitedGroups, check_union};
use keys_sketches::{BLOCK, Sources, TextReader};
use sketch_base::Error;
use std::alloc::{AllocError, Global};
use std::io;
use std::io::BufReader;

/// Why images are not united by groups.
#[derive(Debug, Drop)]
pub enum UniteError {
    /// Memory was refused (`OutOfMemory`), or an `lg_k` isn't from 4 to 26 or the seed hash is 0 (`InvalidArgument`).
    Refused(Error),
    /// A source failed, or couldn't be opened.
    Failed(io::Error),
    /// The line of this number, from 1, of the source that was opened last has this flaw.
    Flawed(u64, LineFlaw),
}

impl From<Error> for UniteError {
    ghost use Rattle.keys_groups.specs.declared.uniting.UniteError.TheVariants.{Refused};

    ghost from_gives = { λ e reason. reason ≡ Refused e };

    fn from(e: Error) -> UniteError {
        UniteError::Refused(e)
    }
}

/// Why images are not united, if a read failed with this error. If no read may fail, only memory was missing.
fn read_failure(may_fail: bool, error: io::Error) -> UniteError
    ensures fallible { FailsIf may_fail result }
    ensures memory { IsOfLines result }
    ensures first { (seed : ℕ) (lines : Option (List (List ℕ))) → ReportsFirst seed lines result }
    ensures failed { (seed : ℕ) (texts : Option (List (List ℕ))) → IsUniteError seed None texts result }
{
    if may_fail {
        UniteError::Failed(error)
    } else {
        UniteError::Refused(Error::from(AllocError))
    }
}

/// The failure at the line after this many others.
fn failure_at(passed: u64, reason: AddError) -> UniteError
    ensures memory { IsOfLines result }
    ensures fallible { (may_fail : Bool) → FailsIf may_fail result }
    ensures line { (seed : ℕ) (line : List ℕ) → IsAddError seed line reason → IsOfLine seed passed line result }
{
    match reason {
        AddError::Memory => UniteError::Refused(Error::from(AllocError)),
        AddError::Flawed(flaw) => UniteError::Flawed(passed.saturating_add(1), flaw),
    }
}

/// Unites the images of all lines that a reader has left, each into the group of its line.
fn add_lines<R: TextReader + Drop>(
    groups: &mut UnitedGroups,
    alloc: Global,
    seed: u64,
    lg_k: u8,
    reader: R,
) -> Result<(), UniteError>
    requires settled { settings_refusal lg_k MAX_THETA seed ≡ None }
    requires ready { AreReady seed groups.old.map }
    ensures lines { (before : List (List ℕ))
        → IsUniting seed lg_k before groups.old.map
        → IfSome (R.remaining reader) (λ text. OnOk result (AreAdded seed lg_k before (lines_of text) groups.new.map)) }
    ensures ready { OnOk result (AreReady seed groups.new.map) }
    ensures memory { IfErr result IsOfLines }
    ensures first { (before : List (List ℕ))
        → IsUniting seed lg_k before groups.old.map
        → IfErr result (ReportsFirst seed (option_map lines_of (R.remaining reader))) }
    ensures fallible { IfErr result (FailsIf R.may_fail) }
{
    let mut buffered = match BufReader::with_capacity(alloc, BLOCK, reader) {
        Ok(buffered) => buffered,
        Err(_) => return Err(UniteError::Refused(Error::from(AllocError))),
    };
    let mut line = Vec::new(alloc);
    for passed in 0..u64::MAX {
        match next_line(&mut buffered, &mut line) {
            Ok(true) => {
                let bytes = without_lf(line.as_slice());
                match groups.add_line(alloc, seed, lg_k, bytes) {
                    Ok(()) => {}
                    Err(reason) => return Err(failure_at(passed, reason)),
                }
            }
            Ok(false) => return Ok(()),
            Err(error) => return Err(read_failure(R::may_fail(), error)),
        }
    }
    Err(UniteError::Refused(Error::from(AllocError)))
}

/// The groups of the lines of all texts, each with the union of its images: a line has the name of its group, a tab,
/// and an image of this seed in hexadecimal digits. A name may have tabs, since the last tab of a line counts. Each
/// text is cut into lines by itself, and may have none.
///
/// If the texts are those that `sketch --by` writes of files that were sketched apart, by one key, with this seed and
/// at least this `lg_k`, the unions are the sketches of the groups of all their lines (`laws::groups_unite`).
///
/// Refused with `InvalidArgument` only for an `lg_k` that isn't from 4 to 26 or a seed whose seed hash is 0, and with
/// `OutOfMemory`. If a source fails, or can't be opened, its error is returned: only if sources may fail, so never
/// for texts in memory. For a wrong `lg_k` or seed nothing is read; no clause says so. A flaw is returned only for
/// the first line that has one, with its number in its text.
pub fn unite_groups<S: Sources>(
    alloc: Global,
    seed: u64,
    lg_k: u8,
    sources: &mut S,
) -> Result<UnitedGroups, UniteError>
    ensures united { IfSome (S.texts sources.old) (λ texts. IfOk result (HasUnions seed lg_k (lines_of_all texts))) }
    ensures sound { IfOk result AreSound }
    ensures accepted { OnOk result (settings_refusal lg_k MAX_THETA seed ≡ None) }
    ensures failed { IfErr result (IsUniteError seed (settings_refusal lg_k MAX_THETA seed) (S.texts sources.old)) }
    ensures fallible { IfErr result (FailsIf S.may_fail) }
{
    check_union(alloc, seed, lg_k)?;
    let mut groups = UnitedGroups::new(alloc);
    for _ in 0..u64::MAX {
        match sources.next_source() {
            Ok(Some(source)) => {
                let before = groups.most_retained();
                add_lines(&mut groups, alloc, seed, lg_k, source)?;
                groups.end_source(before);
            }
            Ok(None) => {
                names_ascend(&groups.map);
                return Ok(groups);
            }
            Err(error) => return Err(read_failure(S::may_fail(), error)),
        }
    }
    Err(UniteError::Refused(Error::from(AllocError)))
}

/// The lines of groups, one after another: the name of each, a tab, and the image of its union in hexadecimal digits.
/// If the images are those of groups that were sketched in parts, these are the lines of the groups of all parts,
/// byte for byte. Refused only with `OutOfMemory`.
pub fn united_text(alloc: Global, groups: &mut UnitedGroups) -> Result<Vec<u8>, Error>
    requires sound { AreSound groups.old }
    ensures text { (seed lg_k : ℕ) (lines : List (List ℕ))
        → HasUnions seed lg_k lines groups.old
        → IfOk result (λ v. IsUnitedText seed lg_k lines v.items) }
    ensures whole { (grouping : Grouping) (sources : List (List (List ℕ))) (texts : List (List ℕ))
        → settings_refusal grouping.lg_k MAX_THETA grouping.hashing.seed ≡ None
        → AreSketchedTexts grouping sources texts
        → HasUnions grouping.hashing.seed grouping.lg_k (lines_of_all texts) groups.old
        → IfOk result (λ v. IsSketchedText grouping (lines_of_all (flat_map (λ part. part) sources)) v.items) }
    ensures refused { Refuses result None true }
{
    groups_unite();
    sketched_text(alloc, groups)
}
