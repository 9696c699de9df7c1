//! Lines of readers, added to the totals of their groups.
ghost use Rattle.std.specs.Prelude.{◌≡◌, ◌++◌, ◌∷◌, ℕ, Bool, List, [], IfErr, IfOk, IfSome, OnOk};
ghost use Rattle.keys_lines.specs.Lines.{lines_of, lines_of_all};
ghost use Rattle.keys_sums.specs.Amounts.{AreNumbers};
ghost use Rattle.keys_totals.specs.Refusals.{FailsIf, IsTotalError, LacksNumber, LacksNumberAt, LacksNumberOf};
ghost use Rattle.keys_totals.specs.Totals.{AreTotalled, HasTotals};

use crate::grouped::GroupTotals;
use keys_groups::{names_ascend, next_line, without_lf};
use keys_lines::{Key, key_in};
use keys_sketches::{BLOCK, Sources, TextReader};
use keys_sums::{Amount, ValueStart, amount_in, value_start};
use std::alloc::Global;
use std::io;
use std::io::BufReader;

/// Why lines have no totals.
#[derive(Debug, Drop)]
pub enum TotalError {
    /// Memory was refused.
    Memory,
    /// A source failed, or couldn't be opened.
    Failed(io::Error),
    /// The line of this number, from 1, of the source that was opened last doesn't add a number: its part, which starts in
    /// this way, is no whole number below 2^64.
    NotANumber(u64, ValueStart),
}

/// Why lines have no totals, if a read failed with this error. If no read may fail, only memory was missing.
fn read_failure(may_fail: bool, error: io::Error) -> TotalError
    ensures fallible { FailsIf may_fail result }
    ensures refused { (amount : Amount) → IsTotalError amount result }
    ensures text { (amount : Amount) (text : List ℕ) → LacksNumberAt amount text result }
    ensures texts { (amount : Amount) (texts : List (List ℕ)) → LacksNumberOf amount texts result }
{
    if may_fail {
        TotalError::Failed(error)
    } else {
        TotalError::Memory
    }
}

/// Adds what a line behind `passed` others of its source adds to the total of its group. It is reported to have no number
/// only if it has none, with how the part starts that should be one.
fn add_line(
    totals: &mut GroupTotals,
    alloc: Global,
    by: Key,
    amount: Amount,
    line: &[u8],
    passed: u64,
) -> Result<(), TotalError>
    ensures added { (lines : List (List ℕ))
        → AreTotalled by amount lines totals.old.map
        → OnOk result (AreTotalled by amount (lines ++ line.now ∷ []) totals.new.map) }
    ensures lacking { IfErr result (LacksNumber amount line.now passed) }
    ensures refused { IfErr result (IsTotalError amount) }
    ensures fallible { (may_fail : Bool) → IfErr result (FailsIf may_fail) }
{
    let Some(number) = amount_in(amount, line) else {
        let start = value_start(amount, line);
        return Err(TotalError::NotANumber(passed.saturating_add(1), start));
    };
    match totals.add(alloc, key_in(by, line), number) {
        Ok(()) => Ok(()),
        Err(_) => Err(TotalError::Memory),
    }
}

/// Adds what each line that a reader has left adds to the total of its group. If the reader fails, its error is returned;
/// an interrupted read is repeated.
fn add_lines<R: TextReader + Drop>(
    totals: &mut GroupTotals,
    alloc: Global,
    by: Key,
    amount: Amount,
    reader: R,
) -> Result<(), TotalError>
    ensures added { (before : List (List ℕ))
        → AreTotalled by amount before totals.old.map
        → IfSome (R.remaining reader) (λ text.
        OnOk result (AreTotalled by amount (before ++ lines_of text) totals.new.map)) }
    ensures numbered { IfSome (R.remaining reader) (λ text. IfErr result (LacksNumberAt amount text)) }
    ensures refused { IfErr result (IsTotalError amount) }
    ensures fallible { IfErr result (FailsIf R.may_fail) }
{
    let mut buffered = match BufReader::with_capacity(alloc, BLOCK, reader) {
        Ok(buffered) => buffered,
        Err(_) => return Err(TotalError::Memory),
    };
    let mut line = Vec::new(alloc);
    for passed in 0..u64::MAX {
        match next_line(&mut buffered, &mut line) {
            Ok(true) => {
                let bytes = without_lf(line.as_slice());
                add_line(totals, alloc, by, amount, bytes, passed)?;
            }
            Ok(false) => return Ok(()),
            Err(error) => return Err(read_failure(R::may_fail(), error)),
        }
    }
    Err(TotalError::Memory)
}

/// The totals of the groups of the lines of all texts: each group has the total of what its own lines add. Each text is
/// cut into lines by itself: a last line without an LF isn't joined to the next text. If they are returned, each line of
/// all texts adds a number.
///
/// Refused only if memory is. A line that adds no number is an error that has the line's number in its text and the first
/// bytes of the part that should be one, and only such a line is. If a source fails, or can't be opened, its error is
/// returned: only if sources may fail, so never for texts in memory. It allocates memory for a block, for the longest line,
/// and for the name and the total of each group.
pub fn total_groups<S: Sources>(
    alloc: Global,
    by: Key,
    amount: Amount,
    sources: &mut S,
) -> Result<GroupTotals, TotalError>
    ensures totals { IfSome (S.texts sources.old) (λ texts. IfOk result (HasTotals by amount (lines_of_all texts))) }
    ensures numbers { IfSome (S.texts sources.old) (λ texts.
        IfOk result (λ _. AreNumbers amount (lines_of_all texts))) }
    ensures numbered { IfSome (S.texts sources.old) (λ texts. IfErr result (LacksNumberOf amount texts)) }
    ensures refused { IfErr result (IsTotalError amount) }
    ensures fallible { IfErr result (FailsIf S.may_fail) }
{
    let mut totals = GroupTotals::new(alloc);
    for _ in 0..u64::MAX {
        match sources.next_source() {
            Ok(Some(source)) => add_lines(&mut totals, alloc, by, amount, source)?,
            Ok(None) => {
                names_ascend(&totals.map);
                return Ok(totals);
            }
            Err(error) => return Err(read_failure(S::may_fail(), error)),
        }
    }
    Err(TotalError::Memory)
}
