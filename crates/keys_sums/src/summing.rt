//! Sketches of sums of the lines of a reader, or of the least or the greatest of what the lines of a key add.
ghost use Rattle.std.specs.Prelude.{◌≡◌, ◌<◌, ◌++◌, ◌∷◌, ℕ, Bool, List, [], length, min, IfOk, IfErr, OnOk, IfSome};
ghost use Rattle.std.specs.Prelude.{None, Some, true};
ghost use Rattle.sketch_base.specs.declared.error.ErrorKind.TheVariants.{Policy};
ghost use Rattle.core_laws.specs.Refusal.{Refuses};
ghost use Rattle.core_laws.specs.Settings.{settings_refusal};
ghost use Rattle.core_laws.specs.declared.TheConstants.{MAX_THETA};
ghost use Rattle.keys_lines.specs.Keys.{line_hash};
ghost use Rattle.keys_lines.specs.Lines.{lines_after};
ghost use Rattle.keys_lines.specs.declared.key.Hashing.{Hashing};
ghost use Rattle.keys_sums.specs.Amounts.{added_by, amount_in, IsEndedAddend, IsOpenAddend};
ghost use Rattle.keys_sums.specs.Sums.{GREATEST_TOTAL, HasAdded, sketch_of_sums, total_added};
ghost use Rattle.keys_sums.specs.Reading.{HasTaken, AddsLines, AddsText, ReportsPast, ReportsPastText};
ghost use Rattle.keys_sums.specs.Refusals.{FailsIf, IsAddRefusal, IsByPolicy, IsLastingFailure, IsPast, IsSumError};
ghost use Rattle.keys_sums.specs.Refusals.{LacksNumber, LacksNumberAt, LacksNumberIn, RefusesSums};
ghost use Rattle.keys_sums.specs.declared.addends.Amount.{Amount};
ghost use Rattle.tuple_sketches.specs.declared.numbers.SummaryMode.{SummaryMode};

use crate::addends::{Amount, OpenAddend, whole_addend};
use crate::starts::ValueStart;
use keys_lines::{Hashing, cut_line};
use keys_sketches::TextReader;
use sketch_base::{Error, ErrorKind};
use std::alloc::{AllocError, Allocator, Global};
use std::io;
use std::marker::Model;
use tuple_sketches::{
    CompactTupleSketch, NumberPolicy, SummaryMode, TupleSketch, TupleSketchBuilder,
};

/// A tuple sketch whose summaries are numbers of 64 bits: sums, or least or greatest numbers.
pub type SumSketch<A = Global> = TupleSketch<NumberPolicy, A>;

/// Why lines were not summed.
#[derive(Debug, Drop)]
pub enum SumError {
    /// Memory was refused (`OutOfMemory`), or an `lg_k` isn't from 4 to 26 or the seed hash is 0 (`InvalidArgument`).
    Refused(Error),
    /// A source failed, or couldn't be opened.
    Failed(io::Error),
    /// The mode is `Sum`, and the sum of a key would be 2^64 or more with the line of this number, from 1, in its
    /// source.
    PastGreatest(u64),
    /// The line of this number, from 1, in its source doesn't add a number: its part, which starts in this way, is no
    /// whole number below 2^64.
    NotANumber(u64, ValueStart),
}

impl From<Error> for SumError {
    ghost use Rattle.keys_sums.specs.declared.summing.SumError.TheVariants.{Refused};

    ghost from_gives = { λ e sum_error. sum_error ≡ Refused e };

    fn from(e: Error) -> SumError {
        SumError::Refused(e)
    }
}

impl From<AllocError> for SumError {
    ghost use Rattle.sketch_base.specs.declared.error.ErrorKind.TheVariants.{OutOfMemory};
    ghost use Rattle.keys_sums.specs.declared.summing.SumError.TheVariants.{Refused};

    ghost from_gives = { λ _ sum_error. sum_error ≡ Refused OutOfMemory };

    fn from(e: AllocError) -> SumError {
        SumError::Refused(Error::from(e))
    }
}

/// Lines that are being summed: a sketch of the sums of their keys, or of the least or the greatest numbers, and the
/// total of what they add.
#[derive(Drop)]
pub struct Summation<A: Allocator + Clone = Global> {
    sketch: SumSketch<A>,
    total: u128,
}

impl<A: Allocator + Clone> Model for Summation<A> {
    ghost use Rattle.keys_sums.specs.Sums.{Summed};

    ghost Value = { Summed };

    ghost view = { λ s. record { mode = s.sketch.policy.mode; sketch = s.sketch.state; total = s.total } };
}

/// The sums of lines: the sketch of those of their keys, and the total.
#[derive(Drop)]
pub struct SumsOfLines<A: Allocator = Global> {
    /// The ordered sketch, in which each retained hash has the sum, the least or the greatest of what its lines add.
    pub sketch: CompactTupleSketch<u64, A>,
    /// The total of what all lines add, below 2^128, exact however few keys the sketch retains. 2^128 - 1 stands for
    /// any greater total, which takes more than 2^64 lines.
    pub total: u128,
}

impl<A: Allocator + Clone> Summation<A> {
    /// No lines yet, with a sketch of 2^`lg_k` nominal entries under this seed, whose mode says how what the lines of
    /// a key add is combined. Refused with `InvalidArgument` for an `lg_k` that isn't from 4 to 26 or a seed whose
    /// seed hash is 0, and with `OutOfMemory`.
    pub fn new(alloc: A, mode: SummaryMode, seed: u64, lg_k: u8) -> Result<Summation<A>, Error>
        ensures new { (hashing : Hashing) (amount : Amount)
            → hashing.seed ≡ seed
            → IfOk result (HasAdded mode hashing amount lg_k []) }
        ensures refused { Refuses result (settings_refusal lg_k MAX_THETA seed) true }
    {
        let sketch = TupleSketchBuilder::new(NumberPolicy::new(mode))
            .lg_k(lg_k)
            .seed(seed)
            .build(alloc)?;
        Ok(Summation { sketch, total: 0 })
    }

    /// Adds to the number of a hash by the mode, and to the total. Refused with `OutOfMemory`, and with `Policy` only
    /// if the mode is `Sum` and the sum of a key would be 2^64 or more.
    fn add(&mut self, hash: u64, value: u64) -> Result<(), Error>
        ensures added { (hashing : Hashing) (amount : Amount) (mode : SummaryMode) (lg_k : ℕ)
            (lines : List (List ℕ)) (line : List ℕ)
            → hash ≡ line_hash hashing line
            → amount_in amount line ≡ Some value
            → HasAdded mode hashing amount lg_k lines self.old
            → OnOk result (HasAdded mode hashing amount lg_k (lines ++ line ∷ []) self.new) }
        ensures past { (hashing : Hashing) (amount : Amount) (mode : SummaryMode) (lg_k : ℕ)
            (lines : List (List ℕ)) (line : List ℕ)
            → hash ≡ line_hash hashing line
            → amount_in amount line ≡ Some value
            → HasAdded mode hashing amount lg_k lines self.old
            → IfErr result (λ e. e ≡ Policy → IsPast mode hashing (added_by amount) (lines ++ line ∷ [])) }
        ensures refused { IfErr result IsAddRefusal }
    {
        match self.sketch.update_hash(hash, value) {
            Ok(()) => {
                self.total = self.total.saturating_add(value as u128);
                Ok(())
            }
            Err(error) => Err(error),
        }
    }

    /// The sketch of the lines so far, and their total. The sketch is trimmed, and stays so. Refused only with `OutOfMemory`; then the
    /// sketch may be trimmed already.
    pub fn finish(&mut self) -> Result<SumsOfLines<A>, Error>
        ensures sketch { (hashing : Hashing) (amount : Amount) (mode : SummaryMode) (lg_k : ℕ) (lines : List (List ℕ))
            → HasAdded mode hashing amount lg_k lines self.old
            → IfOk result (λ s. s.sketch ≡ sketch_of_sums mode hashing (added_by amount) lg_k lines) }
        ensures total { (hashing : Hashing) (amount : Amount) (mode : SummaryMode) (lg_k : ℕ) (lines : List (List ℕ))
            → HasAdded mode hashing amount lg_k lines self.old
            → IfOk result (λ s. s.total ≡ min (total_added (added_by amount) lines) GREATEST_TOTAL) }
        ensures refused { Refuses result None true }
    {
        self.sketch.trim()?;
        let sketch = self.sketch.compact(true)?;
        Ok(SumsOfLines {
            sketch,
            total: self.total,
        })
    }
}

/// Why the line behind `count` others of its source was not added.
fn add_error(error: Error, count: u64) -> SumError
    requires { IsAddRefusal error }
    ensures sum_error { (amount : Amount) → IsSumError amount None result }
    ensures number { (amount : Amount) (line : List ℕ) → LacksNumber amount line count result }
    ensures policy { IsByPolicy error result }
    ensures retried { IsLastingFailure result }
    ensures fallible { (may_fail : Bool) → FailsIf may_fail result }
{
    if error.kind() == ErrorKind::Policy {
        SumError::PastGreatest(count.saturating_add(1))
    } else {
        SumError::Refused(error)
    }
}

/// Adds what a line behind `count` others of its source adds, whose last bytes are `end`. It is reported to have no number
/// only if it has none, and what is quoted is its part.
fn add_line<A: Allocator + Clone>(
    summation: &mut Summation<A>,
    amount: Amount,
    last: &OpenAddend,
    end: &[u8],
    count: u64,
) -> Result<(), SumError>
    ensures added { (hashing : Hashing) (line front : List ℕ)
        → IsEndedAddend hashing amount line front end.now last.now
        → AddsLines hashing amount (line ∷ []) summation.old result summation.new }
    ensures number { (hashing : Hashing) (line front : List ℕ)
        → IsEndedAddend hashing amount line front end.now last.now
        → IfErr result (LacksNumber amount line count) }
    ensures past { (hashing : Hashing) (line front : List ℕ)
        → IsEndedAddend hashing amount line front end.now last.now
        → ReportsPast hashing amount (line ∷ []) summation.old result }
    ensures refused { RefusesSums amount result None }
    ensures retried { IfErr result IsLastingFailure }
    ensures fallible { (may_fail : Bool) → IfErr result (FailsIf may_fail) }
{
    let Some(value) = last.value(amount) else {
        let start = last.value_start(amount, end);
        return Err(SumError::NotANumber(count.saturating_add(1), start));
    };
    add_number(summation, last.hash(), value, count)
}

/// Adds the number of a hash, which a line behind `count` others of its source adds.
fn add_number<A: Allocator + Clone>(
    summation: &mut Summation<A>,
    hash: u64,
    value: u64,
    count: u64,
) -> Result<(), SumError>
    ensures added { (hashing : Hashing) (amount : Amount) (line : List ℕ)
        → hash ≡ line_hash hashing line
        → amount_in amount line ≡ Some value
        → AddsLines hashing amount (line ∷ []) summation.old result summation.new }
    ensures number { (amount : Amount) (line : List ℕ) → IfErr result (LacksNumber amount line count) }
    ensures past { (hashing : Hashing) (amount : Amount) (line : List ℕ)
        → hash ≡ line_hash hashing line
        → amount_in amount line ≡ Some value
        → ReportsPast hashing amount (line ∷ []) summation.old result }
    ensures refused { (amount : Amount) → RefusesSums amount result None }
    ensures retried { IfErr result IsLastingFailure }
    ensures fallible { (may_fail : Bool) → IfErr result (FailsIf may_fail) }
{
    match summation.add(hash, value) {
        Ok(()) => Ok(()),
        Err(error) => Err(add_error(error, count)),
    }
}

/// Ends an open line behind `count` others of its source by these bytes, and adds what it adds. The open line has no
/// byte then. A line that has none before is added as a whole.
fn take_line<A: Allocator + Clone>(
    summation: &mut Summation<A>,
    hashing: Hashing,
    amount: Amount,
    last: &mut OpenAddend,
    end: &[u8],
    count: u64,
) -> Result<(), SumError>
    ensures added { (front : List ℕ)
        → IsOpenAddend hashing amount front last.old
        → AddsLines hashing amount ((front ++ end.now) ∷ []) summation.old result summation.new }
    ensures restarted { (front : List ℕ)
        → IsOpenAddend hashing amount front last.old
        → OnOk result (IsOpenAddend hashing amount [] last.new) }
    ensures number { (front : List ℕ)
        → IsOpenAddend hashing amount front last.old
        → IfErr result (LacksNumber amount (front ++ end.now) count) }
    ensures past { (front : List ℕ)
        → IsOpenAddend hashing amount front last.old
        → ReportsPast hashing amount ((front ++ end.now) ∷ []) summation.old result }
    ensures refused { RefusesSums amount result None }
    ensures retried { IfErr result IsLastingFailure }
    ensures fallible { (may_fail : Bool) → IfErr result (FailsIf may_fail) }
{
    if !last.is_begun() {
        if let Some((hash, value)) = whole_addend(hashing, amount, end) {
            add_number(summation, hash, value, count)?;
            return Ok(());
        }
    }
    last.end(amount, end);
    add_line(summation, amount, last, end, count)?;
    last.restart(hashing);
    Ok(())
}

/// Adds each line that ends in a block, which continues an open line behind `count` lines. The open line is then the
/// text behind the block's last LF. Returns how many lines of the text have ended so far.
fn take_block<A: Allocator + Clone>(
    summation: &mut Summation<A>,
    hashing: Hashing,
    amount: Amount,
    last: &mut OpenAddend,
    count: u64,
    block: &[u8],
) -> Result<u64, SumError>
    ensures taken { (front : List ℕ)
        → IsOpenAddend hashing amount front last.old
        → IfOk result (HasTaken hashing amount front block.now summation.old summation.new last.new count) }
    ensures numbered { (front more : List ℕ)
        → IsOpenAddend hashing amount front last.old
        → IfErr result (LacksNumberIn amount count (lines_after front (block.now ++ more))) }
    ensures past { (front more : List ℕ)
        → IsOpenAddend hashing amount front last.old
        → ReportsPast hashing amount (lines_after front (block.now ++ more)) summation.old result }
    ensures refused { RefusesSums amount result None }
    ensures retried { IfErr result IsLastingFailure }
    ensures fallible { (may_fail : Bool) → IfErr result (FailsIf may_fail) }
{
    let mut rest = block;
    let mut count = count;
    while let Some((piece, others)) = cut_line(rest) {
        take_line(summation, hashing, amount, last, piece, count)?;
        count = count.saturating_add(1);
        rest = others;
    }
    last.extend(amount, rest);
    Ok(count)
}

/// Adds a last line that no LF ends, if it has a byte; `count` lines are before it.
fn take_last<A: Allocator + Clone>(
    summation: &mut Summation<A>,
    amount: Amount,
    last: &OpenAddend,
    count: u64,
) -> Result<(), SumError>
    ensures taken { (hashing : Hashing) (front : List ℕ)
        → IsOpenAddend hashing amount front last.now
        → AddsLines hashing amount (lines_after front []) summation.old result summation.new }
    ensures numbered { (hashing : Hashing) (front : List ℕ)
        → IsOpenAddend hashing amount front last.now
        → IfErr result (LacksNumberIn amount count (lines_after front [])) }
    ensures past { (hashing : Hashing) (front : List ℕ)
        → IsOpenAddend hashing amount front last.now
        → ReportsPast hashing amount (lines_after front []) summation.old result }
    ensures refused { RefusesSums amount result None }
    ensures retried { IfErr result IsLastingFailure }
    ensures fallible { (may_fail : Bool) → IfErr result (FailsIf may_fail) }
{
    if !last.is_begun() {
        return Ok(());
    }
    add_line(summation, amount, last, &[], count)
}

/// Watches while what lines add is added.
pub trait SumWatch {
    /// Called after each read of `bytes` bytes, from 1 to the block's length. `lines` lines, from 0 to `bytes`, ended in
    /// the bytes and are added. There is no call for a last line without an LF. The numbers are for display: no clause
    /// speaks of them.
    fn on_lines(&mut self, bytes: usize, lines: u64);
}

/// Adds what each line that a reader has left adds, block by block, to the number at the line's key, by the
/// summation's mode. The seed of `hashing` should be the summation's, which is not checked. An interrupted read is
/// repeated.
///
/// Refused only with `OutOfMemory`. A line that would make a sum 2^64 or more, in the mode `Sum`, or that adds no
/// number, is an error that has its number. A line is reported to add no number only if the line of its number adds none,
/// with the first bytes of the part that should be one, and a sum to be 2^64 or more only if one of all lines is. If the
/// reader fails, its error is returned: only if its reads may fail, so never for a text in memory. After an error some
/// first part of the lines is added; no clause says so.
///
/// `block` has at least one byte, and its length is the most that one read gets. Its old contents are not used.
pub fn add_lines<A: Allocator + Clone, R: TextReader, W: SumWatch>(
    summation: &mut Summation<A>,
    hashing: Hashing,
    amount: Amount,
    reader: &mut R,
    block: &mut [u8],
    watch: &mut W,
) -> Result<(), SumError>
    requires room { 0 < length block.old }
    ensures added { AddsText hashing amount (R.remaining reader.old) summation.old result summation.new }
    ensures numbered { IfSome (R.remaining reader.old) (λ text. IfErr result (LacksNumberAt amount text)) }
    ensures past { ReportsPastText hashing amount (R.remaining reader.old) summation.old result }
    ensures refused { RefusesSums amount result None }
    ensures retried { IfErr result IsLastingFailure }
    ensures fallible { IfErr result (FailsIf R.may_fail) }
{
    let mut last = OpenAddend::new(hashing);
    let mut count = 0u64;
    for _ in 0..u64::MAX {
        match reader.read(block) {
            Ok(0) => {
                take_last(summation, amount, &last, count)?;
                return Ok(());
            }
            Ok(length) => {
                let bytes = &block[..length];
                let before = count;
                count = take_block(summation, hashing, amount, &mut last, before, bytes)?;
                watch.on_lines(length, count.saturating_sub(before));
            }
            Err(error) => {
                if error.kind() != io::ErrorKind::Interrupted {
                    if R::may_fail() {
                        return Err(SumError::Failed(error));
                    }
                    return Err(SumError::Refused(Error::from(AllocError)));
                }
            }
        }
    }
    Err(SumError::Refused(Error::from(AllocError)))
}
