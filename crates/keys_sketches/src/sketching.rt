//! Sketches of the lines of a reader.
ghost use Rattle.std.specs.Prelude.{◌≡◌, ◌≢◌, ◌<◌, ℕ, List, [], length, IfOk, IfErr, OnOk, OnErr, IfSome, None, true};
ghost use Rattle.sketch_base.specs.Seed.{seed_hash};
ghost use Rattle.core_laws.specs.Refusal.{Refuses};
ghost use Rattle.core_laws.specs.Settings.{settings_refusal};
ghost use Rattle.core_laws.specs.declared.TheConstants.{MAX_THETA};
ghost use Rattle.keys_lines.specs.Lines.{lines_of, lines_after, Lacks};
ghost use Rattle.keys_lines.specs.Open.{IsOpen};
ghost use Rattle.keys_lines.specs.declared.key.Hashing.{Hashing};
ghost use Rattle.keys_sketches.specs.Keys.{line_state, new_state, with_lines, value_of_lines, sketch_of_value};
ghost use Rattle.keys_sketches.specs.Taking.{Takes, Leaves, InsertsFirst};
ghost use Rattle.keys_sketches.specs.Refusals.{RefusesRead, IsReadError, IsLasting, FailsIf};
ghost use Rattle.std.specs.IoError.{error_kind};
ghost use Rattle.std.specs.declared.io.ErrorKind.TheVariants.{Interrupted};

use crate::sources::TextReader;
use keys_lines::{Hashing, OpenLine, cut_line, hash_lines};
use sketch_base::Error;
use std::alloc::{AllocError, Allocator};
use std::io;
use std::io::ErrorKind;
use theta_sketches::{CompactThetaSketch, ThetaSketch, ThetaSketchBuilder};

/// Why lines or images were not read.
#[derive(Debug, Drop)]
pub enum ReadError {
    /// Memory was refused (`OutOfMemory`), an `lg_k` isn't from 4 to 26, the seed hash is 0, or a sketch is of
    /// another seed (`InvalidArgument`), or a source is not an image (`InvalidData`).
    Refused(Error),
    /// A source failed, or couldn't be opened.
    Failed(io::Error),
}

impl From<Error> for ReadError {
    ghost use Rattle.keys_sketches.specs.declared.sketching.ReadError.TheVariants.{Refused};

    ghost from_gives = { λ e read_error. read_error ≡ Refused e };

    fn from(e: Error) -> ReadError {
        ReadError::Refused(e)
    }
}

impl From<AllocError> for ReadError {
    ghost use Rattle.sketch_base.specs.declared.error.ErrorKind.TheVariants.{OutOfMemory};
    ghost use Rattle.keys_sketches.specs.declared.sketching.ReadError.TheVariants.{Refused};

    ghost from_gives = { λ _ read_error. read_error ≡ Refused OutOfMemory };

    fn from(e: AllocError) -> ReadError {
        ReadError::Refused(Error::from(e))
    }
}

/// Why a text was not read, if a read failed with this error. If no read may fail, only memory was missing.
pub fn read_failure(may_fail: bool, error: io::Error) -> ReadError
    ensures fallible { FailsIf may_fail result }
    ensures read_error { IsReadError None result }
    ensures retried { error_kind error ≢ Interrupted → IsLasting result }
{
    if may_fail {
        ReadError::Failed(error)
    } else {
        ReadError::Refused(Error::from(AllocError))
    }
}

/// Watches while lines are sketched.
pub trait Watch {
    /// Called after each read of `bytes` bytes, from 1 to the block's length, and by `image_of_texts` once for each
    /// text. `lines` lines, from 0 to `bytes`, ended in the bytes and are in the sketch. There is no call for a last
    /// line without an LF. The numbers are for display: no clause speaks of them.
    fn on_read<A: Allocator>(&mut self, bytes: usize, lines: u64, sketch: &ThetaSketch<A>);
}

/// A new sketch of 2^`lg_k` nominal entries, under this seed. Refused with `InvalidArgument` for an `lg_k` that isn't
/// from 4 to 26 or a seed whose seed hash is 0, and with `OutOfMemory`.
pub fn new_sketch<A: Allocator + Drop>(
    alloc: A,
    seed: u64,
    lg_k: u8,
) -> Result<ThetaSketch<A>, Error>
    ensures new { IfOk result (λ s. line_state s ≡ new_state seed lg_k) }
    ensures refused { Refuses result (settings_refusal lg_k MAX_THETA seed) true }
{
    ThetaSketchBuilder::default()
        .lg_k(lg_k)
        .seed(seed)
        .build(alloc)
}

/// How many lines are hashed before their hashes are inserted together.
const LINES_AT_ONCE: usize = 256;

/// Inserts the lines of a text that end in an LF. Returns the text after the last of them, and their number. Refused
/// only with `OutOfMemory`; then exactly some first lines are inserted, perhaps none.
fn take_lines<'a, A: Allocator + Clone>(
    sketch: &mut ThetaSketch<A>,
    hashing: Hashing,
    text: &'a [u8],
) -> Result<(&'a [u8], u64), Error>
    ensures lacks { IfOk result (λ x. Lacks 10 x.0.now) }
    ensures leaves { IfOk result (λ x.
        Leaves hashing (line_state sketch.old) text.now (line_state sketch.new) x.0.now) }
    ensures stopped { OnErr result (InsertsFirst hashing (line_state sketch.old) [] text.now (line_state sketch.new)) }
    ensures refused { Refuses result None true }
{
    let mut hashes = [0u64; LINES_AT_ONCE];
    let mut rest = text;
    let mut count = 0u64;
    loop {
        let (lines, behind) = hash_lines(hashing, rest, &mut hashes);
        sketch.update_hashes(&hashes[..lines])?;
        rest = behind;
        count = count.wrapping_add(lines as u64);
        if lines < LINES_AT_ONCE {
            return Ok((rest, count));
        }
    }
}

/// Inserts the lines that end in a block, which continues an open line. The open line is then the text after the
/// block's last LF. Returns how many lines ended. Refused only with `OutOfMemory`; then exactly some first lines are
/// inserted, perhaps none, and the open line is unspecified.
pub(crate) fn take_block<A: Allocator + Clone>(
    sketch: &mut ThetaSketch<A>,
    hashing: Hashing,
    last: &mut OpenLine,
    block: &[u8],
) -> Result<u64, Error>
    ensures takes { (before : List ℕ)
        → IsOpen hashing before last.old
        → OnOk result (
        (after : List ℕ)
        × IsOpen hashing after last.new
        × Takes hashing (line_state sketch.old) before block.now (line_state sketch.new) after) }
    ensures stopped { (before : List ℕ)
        → IsOpen hashing before last.old
        → OnErr result (InsertsFirst hashing (line_state sketch.old) before block.now (line_state sketch.new)) }
    ensures refused { Refuses result None true }
{
    let Some((first, others)) = cut_line(block) else {
        last.extend(block);
        return Ok(0);
    };
    last.extend(first);
    sketch.update_hash(last.hash())?;
    *last = OpenLine::new(hashing);
    let (rest, count) = take_lines(sketch, hashing, others)?;
    last.extend(rest);
    Ok(count.wrapping_add(1))
}

/// Inserts a last line without an LF, if it has a byte. Refused only with `OutOfMemory`; then the sketch is
/// unchanged.
pub(crate) fn take_last<A: Allocator + Clone>(
    sketch: &mut ThetaSketch<A>,
    last: &OpenLine,
) -> Result<(), Error>
    ensures taken { (hashing : Hashing) (front : List ℕ)
        → IsOpen hashing front last.now
        → OnOk result (line_state sketch.new ≡ with_lines hashing (line_state sketch.old) (lines_after front [])) }
    ensures err { OnErr result (line_state sketch.new ≡ line_state sketch.old) }
    ensures refused { Refuses result None true }
{
    if last.is_begun() {
        sketch.update_hash(last.hash())?;
    }
    Ok(())
}

/// Inserts all lines that a reader has left, block by block, each by its key. The seed of `hashing` should be the
/// sketch's, which is not checked. An interrupted read is repeated.
///
/// Refused only with `OutOfMemory`. If the reader fails, its error is returned: only if its reads may fail, so never
/// for a text in memory. After an error, some of the first lines are inserted; no clause says which.
///
/// `block` has at least one byte, and its length is the most that one read requests. Its old contents are not used.
pub fn add_lines<A: Allocator + Clone, R: TextReader, W: Watch>(
    sketch: &mut ThetaSketch<A>,
    hashing: Hashing,
    reader: &mut R,
    block: &mut [u8],
    watch: &mut W,
) -> Result<(), ReadError>
    requires room { 0 < length block.old }
    ensures lines { IfSome (R.remaining reader.old) (λ text.
        OnOk result (line_state sketch.new ≡ with_lines hashing (line_state sketch.old) (lines_of text))) }
    ensures seeded { OnOk result (sketch.new.map.seed_hash ≡ sketch.old.map.seed_hash) }
    ensures refused { RefusesRead result None }
    ensures retried { IfErr result IsLasting }
    ensures fallible { IfErr result (FailsIf R.may_fail) }
{
    let mut last = OpenLine::new(hashing);
    for _ in 0..u64::MAX {
        match reader.read(block) {
            Ok(0) => {
                take_last(sketch, &last)?;
                return Ok(());
            }
            Ok(count) => {
                let lines = take_block(sketch, hashing, &mut last, &block[..count])?;
                watch.on_read(count, lines, sketch);
            }
            Err(error) => {
                if error.kind() != ErrorKind::Interrupted {
                    return Err(read_failure(R::may_fail(), error));
                }
            }
        }
    }
    Err(ReadError::Refused(Error::from(AllocError)))
}

/// Inserts all lines of a text in memory. Refused only with `OutOfMemory`; then some of the first lines are inserted,
/// and no clause says which.
pub(crate) fn add_text<A: Allocator + Clone, W: Watch>(
    sketch: &mut ThetaSketch<A>,
    hashing: Hashing,
    text: &[u8],
    watch: &mut W,
) -> Result<(), Error>
    ensures lines { OnOk result
        (line_state sketch.new ≡ with_lines hashing (line_state sketch.old) (lines_of text.now)) }
    ensures refused { Refuses result None true }
{
    let mut last = OpenLine::new(hashing);
    let lines = take_block(sketch, hashing, &mut last, text)?;
    watch.on_read(text.len(), lines, sketch);
    take_last(sketch, &last)
}

/// Trims the sketch, which stays trimmed, and returns its compact form, ordered. Refused only with `OutOfMemory`;
/// then the sketch may be trimmed already.
pub fn trim_and_compact<A: Allocator + Clone>(
    sketch: &mut ThetaSketch<A>,
) -> Result<CompactThetaSketch<A>, Error>
    ensures sketch { (hashing : Hashing) (lg_k : ℕ) (lines : List (List ℕ))
        → line_state sketch.old ≡ with_lines hashing (new_state hashing.seed lg_k) lines
        → IfOk result (λ s. s ≡ sketch_of_value hashing.seed (value_of_lines hashing lg_k lines)) }
    ensures seeded { IfOk result (λ s. s.seed_hash ≡ sketch.old.map.seed_hash) }
    ensures refused { Refuses result None true }
{
    sketch.trim()?;
    sketch.compact(true)
}

/// The sketch of all lines that a reader has left. Refused with `InvalidArgument` only for an `lg_k` that isn't from
/// 4 to 26 or a seed whose seed hash is 0, and with `OutOfMemory`. If a read fails, its error is returned: only if
/// reads may fail, so never for a text in memory. An interrupted read is repeated. For a wrong `lg_k` or seed nothing
/// is read. No clause says that the error is the reader's, or that nothing is read.
///
/// `block` has at least one byte, and its length is the most that one read requests. Its old contents are not used.
pub fn sketch_lines<A: Allocator + Clone + Drop, R: TextReader, W: Watch>(
    alloc: A,
    hashing: Hashing,
    lg_k: u8,
    reader: &mut R,
    block: &mut [u8],
    watch: &mut W,
) -> Result<CompactThetaSketch<A>, ReadError>
    requires room { 0 < length block.old }
    ensures sketch { IfSome (R.remaining reader.old) (λ text.
        IfOk result (λ s. s ≡ sketch_of_value hashing.seed (value_of_lines hashing lg_k (lines_of text)))) }
    ensures seeded { IfOk result (λ s. s.seed_hash ≡ seed_hash hashing.seed) }
    ensures refused { RefusesRead result (settings_refusal lg_k MAX_THETA hashing.seed) }
    ensures retried { IfErr result IsLasting }
    ensures fallible { IfErr result (FailsIf R.may_fail) }
{
    let mut sketch = new_sketch(alloc, hashing.seed, lg_k)?;
    add_lines(&mut sketch, hashing, reader, block, watch)?;
    Ok(trim_and_compact(&mut sketch)?)
}
