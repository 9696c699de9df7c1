//! Sums of the lines of texts, each with its own reader, or the least or the greatest of what the lines of a key add.
ghost use Rattle.std.specs.Prelude.{◌≡◌, ℕ, [], min, IfOk, IfErr, OnOk, IfSome, None};
ghost use Rattle.core_laws.specs.Settings.{settings_refusal};
ghost use Rattle.core_laws.specs.declared.TheConstants.{MAX_THETA};
ghost use Rattle.keys_lines.specs.Lines.{lines_of_all};
ghost use Rattle.tuple_sketches.specs.declared.numbers.SummaryMode.{SummaryMode};
ghost use Rattle.keys_sums.specs.Sums.{GREATEST_TOTAL, HasAdded, sketch_of_sums, total_added};
ghost use Rattle.keys_sums.specs.Amounts.{added_by, AreNumbers};
ghost use Rattle.keys_sums.specs.Reading.{AddsText, ReportsPastText};
ghost use Rattle.keys_sums.specs.Refusals.{FailsIf, IsPastIn, LacksNumberAt, LacksNumberOf, RefusesSums};

use crate::addends::Amount;
use crate::summing::{SumError, SumWatch, Summation, SumsOfLines, add_lines};
use keys_lines::Hashing;
use keys_sketches::{BLOCK, Sources, TextReader};
use sketch_base::Error;
use std::alloc::{AllocError, Allocator};
use tuple_sketches::SummaryMode;

/// Adds what each line of one text adds.
fn add_source<A: Allocator + Clone, B: Allocator, R: TextReader, W: SumWatch>(
    summation: &mut Summation<A>,
    alloc: B,
    hashing: Hashing,
    amount: Amount,
    reader: &mut R,
    watch: &mut W,
) -> Result<(), SumError>
    ensures added { AddsText hashing amount (R.remaining reader.old) summation.old result summation.new }
    ensures numbered { IfSome (R.remaining reader.old) (λ text. IfErr result (LacksNumberAt amount text)) }
    ensures past { ReportsPastText hashing amount (R.remaining reader.old) summation.old result }
    ensures refused { RefusesSums amount result None }
    ensures fallible { IfErr result (FailsIf R.may_fail) }
{
    let mut block = vec![in alloc; 0u8; BLOCK]?;
    add_lines(summation, hashing, amount, reader, &mut block, watch)
}

/// Adds what each line of all texts adds. Each text is cut into lines by itself: a last line without an LF isn't
/// joined to the next text.
fn add_sources<A: Allocator + Clone, B: Allocator + Clone + Drop, S: Sources, W: SumWatch>(
    summation: &mut Summation<A>,
    alloc: B,
    hashing: Hashing,
    amount: Amount,
    sources: &mut S,
    watch: &mut W,
) -> Result<(), SumError>
    ensures added { (mode : SummaryMode) (lg_k : ℕ)
        → HasAdded mode hashing amount lg_k [] summation.old
        → IfSome (S.texts sources.old) (λ texts.
        OnOk result (HasAdded mode hashing amount lg_k (lines_of_all texts) summation.new)) }
    ensures numbered { IfSome (S.texts sources.old) (λ texts. IfErr result (LacksNumberOf amount texts)) }
    ensures past { (mode : SummaryMode) (lg_k : ℕ)
        → HasAdded mode hashing amount lg_k [] summation.old
        → IfSome (S.texts sources.old) (λ texts. IfErr result (IsPastIn mode hashing amount (lines_of_all texts))) }
    ensures refused { RefusesSums amount result None }
    ensures fallible { IfErr result (FailsIf S.may_fail) }
{
    for _ in 0..u64::MAX {
        match sources.next_source() {
            Ok(Some(mut source)) => {
                add_source(
                    summation,
                    alloc.clone()?,
                    hashing,
                    amount,
                    &mut source,
                    watch,
                )?;
            }
            Ok(None) => return Ok(()),
            Err(error) => {
                if S::may_fail() {
                    return Err(SumError::Failed(error));
                }
                return Err(SumError::Refused(Error::from(AllocError)));
            }
        }
    }
    Err(SumError::Refused(Error::from(AllocError)))
}

/// The sketch of the lines of all texts, in which each retained hash has what its lines add, in all texts, combined by
/// a mode: the sum, the least or the greatest. Beside it the total of what all lines add, a sum whatever the mode,
/// exact whatever the sketch retains. Each text is cut into lines by itself. If it is returned, each line of all texts
/// adds a number.
///
/// Refused with `InvalidArgument` only for an `lg_k` that isn't from 4 to 26 or a seed whose seed hash is 0, and with
/// `OutOfMemory`. A line that would make a sum 2^64 or more, in the mode `Sum`, or that adds no number, is an error
/// that has the line's number in its text. A line is reported to add no number only if the line of its number in some text
/// adds none, with the first bytes of the part that should be one, and a sum to be 2^64 or more only if one of all lines
/// is. If a source fails, or can't be opened, its error is returned: only if sources may fail, so never for texts in
/// memory. For a wrong `lg_k` or seed nothing is read; no clause says so.
pub fn sum_sources<A: Allocator + Clone + Drop, S: Sources, W: SumWatch>(
    alloc: A,
    mode: SummaryMode,
    hashing: Hashing,
    amount: Amount,
    lg_k: u8,
    sources: &mut S,
    watch: &mut W,
) -> Result<SumsOfLines<A>, SumError>
    ensures sketch { IfSome (S.texts sources.old) (λ texts.
        IfOk result (λ s. s.sketch ≡ sketch_of_sums mode hashing (added_by amount) lg_k (lines_of_all texts))) }
    ensures total { IfSome (S.texts sources.old) (λ texts.
        IfOk result (λ s. s.total ≡ min (total_added (added_by amount) (lines_of_all texts)) GREATEST_TOTAL)) }
    ensures numbers { IfSome (S.texts sources.old) (λ texts.
        IfOk result (λ _. AreNumbers amount (lines_of_all texts))) }
    ensures numbered { IfSome (S.texts sources.old) (λ texts. IfErr result (LacksNumberOf amount texts)) }
    ensures past { IfSome (S.texts sources.old) (λ texts. IfErr result (IsPastIn mode hashing amount (lines_of_all texts))) }
    ensures refused { RefusesSums amount result (settings_refusal lg_k MAX_THETA hashing.seed) }
    ensures fallible { IfErr result (FailsIf S.may_fail) }
{
    let mut summation = Summation::new(alloc.clone()?, mode, hashing.seed, lg_k)?;
    add_sources(&mut summation, alloc, hashing, amount, sources, watch)?;
    Ok(summation.finish()?)
}
