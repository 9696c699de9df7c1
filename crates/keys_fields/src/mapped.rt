//! A reader that passes each line on as another.
ghost use Rattle.std.specs.Prelude.{◌≡◌, ◌++◌, ◌<◌, ◌≤◌, ℕ, List, [], Some, length, take, drop, IfOk, OnOk, IfSome, OnErr};
ghost use Rattle.std.specs.Io.{ReadsAtMost};
ghost use Rattle.std.specs.Io.KnownBytes.{ReadConsumes, IsAtEnd};
ghost use Rattle.keys_fields.specs.declared.mapped.Step.TheVariants.{End};
ghost use Rattle.keys_fields.specs.Ahead.{ahead_remaining};
ghost use Rattle.keys_lines.specs.Lines.{lines_of};
ghost use Rattle.keys_fields.specs.Names.{HasLines, PassesAll};
ghost use Rattle.keys_fields.specs.Passing.{adding, bytes_for, choosing, is_left_out, passing_all};
ghost use Rattle.keys_fields.specs.Mapping.{count_with, mapped_remaining, SameLeft, Passes, HasNone};

use crate::ahead::Ahead;
use crate::chosen::Chosen;
use crate::layout::Layout;
use crate::passing::Passing;
use keys_lines::cut_line;
use keys_sums::Amount;
use std::alloc::{AllocError, Global};
use std::io;
use std::io::{ErrorKind, Read};

/// A reader that passes each line of a text on as another, over a reader of the text.
#[derive(Drop)]
pub struct Mapped<R> {
    ahead: Ahead<R>,
    passing: Passing,
    /// The front of a line whose end wasn't read.
    begun: Vec<u8>,
    /// Lines that are passed on, of which so many bytes are.
    waiting: Vec<u8>,
    given: usize,
    /// How many lines are left out so far; 2^64 - 1 if there are more.
    left_out: u64,
    /// Places for a line: as it is read, and as it is passed on.
    plain: Vec<u8>,
    made: Vec<u8>,
}

/// What was read at a step.
#[derive(Clone, Copy, Debug, PartialEq, Eq)]
enum Step {
    /// A line, which now waits.
    Line,
    /// A piece of a line.
    Piece,
    /// Nothing: the text has no more.
    End,
}

/// How many bytes wait, before they are passed on.
const ROOM: usize = 1 << 16;

/// Puts a begun line, which ends with this text, to those that wait. If it fails, nothing changes.
fn end_line(
    passing: &Passing,
    front: &[u8],
    begun: &mut Vec<u8>,
    plain: &mut Vec<u8>,
    made: &mut Vec<u8>,
    waiting: &mut Vec<u8>,
    left_out: &mut u64,
) -> io::Result<()>
    ensures ok { OnOk result (
        (bytes : List ℕ) × (bytes_for passing.now (begun.old.items ++ front.now) ≡ Some bytes)
        × (waiting.new.items ≡ waiting.old.items ++ bytes)) }
    ensures counted { OnOk result (left_out.new ≡ count_with (is_left_out passing.now (begun.old.items ++ front.now)) left_out.old) }
    ensures ended { OnOk result (begun.new.items ≡ []) }
    ensures err { OnErr result (
        (waiting.new.items ≡ waiting.old.items) × (left_out.new ≡ left_out.old) × (begun.new.items ≡ begun.old.items)) }
{
    let before = begun.len();
    if before == 0 {
        return passing.put(front, plain, made, waiting, left_out);
    }
    begun.extend_from_slice(front)?;
    match passing.put(begun, plain, made, waiting, left_out) {
        Ok(()) => {
            begun.clear();
            Ok(())
        }
        Err(error) => {
            begun.truncate(before);
            Err(error)
        }
    }
}

/// The end of a text: puts a begun line to those that wait, if there is one. If it fails, nothing changes.
fn end_text(
    passing: &Passing,
    begun: &mut Vec<u8>,
    plain: &mut Vec<u8>,
    made: &mut Vec<u8>,
    waiting: &mut Vec<u8>,
    left_out: &mut u64,
) -> io::Result<Step>
    ensures same { SameLeft (bytes_for passing.now) (is_left_out passing.now) waiting.old.items left_out.old begun.old.items (Some [])
        waiting.new.items left_out.new begun.new.items (Some []) }
    ensures end { IfOk result (λ s. s ≡ End → begun.new.items ≡ []) }
{
    if begun.is_empty() {
        return Ok(Step::End);
    }
    end_line(passing, &[], begun, plain, made, waiting, left_out)?;
    Ok(Step::Line)
}

/// Reads a step on: a line, which then waits, or a piece of one, or the end. If it fails, nothing is lost.
fn read_on<R: Read>(
    ahead: &mut Ahead<R>,
    passing: &Passing,
    begun: &mut Vec<u8>,
    plain: &mut Vec<u8>,
    made: &mut Vec<u8>,
    waiting: &mut Vec<u8>,
    left_out: &mut u64,
) -> io::Result<Step>
    ensures same { SameLeft (bytes_for passing.now) (is_left_out passing.now) waiting.old.items left_out.old begun.old.items
        (ahead_remaining R.remaining ahead.old) waiting.new.items left_out.new begun.new.items (ahead_remaining R.remaining ahead.new) }
    ensures end { IfOk result (λ s. s ≡ End → (begun.new.items ≡ []) × IsAtEnd (ahead_remaining R.remaining ahead.new)) }
{
    ahead.fill()?;
    let available = ahead.shown();
    match cut_line(available) {
        Some((front, _)) => {
            let count = front.len() + 1;
            end_line(passing, front, begun, plain, made, waiting, left_out)?;
            ahead.consume(count);
            Ok(Step::Line)
        }
        None => {
            let count = available.len();
            if count == 0 {
                return end_text(passing, begun, plain, made, waiting, left_out);
            }
            begun.extend_from_slice(available)?;
            ahead.consume(count);
            Ok(Step::Piece)
        }
    }
}

/// Reads lines until enough wait, or all that the text has left. If it fails, nothing is lost.
fn fill<R: Read>(
    ahead: &mut Ahead<R>,
    passing: &Passing,
    begun: &mut Vec<u8>,
    plain: &mut Vec<u8>,
    made: &mut Vec<u8>,
    waiting: &mut Vec<u8>,
    left_out: &mut u64,
) -> io::Result<()>
    ensures same { SameLeft (bytes_for passing.now) (is_left_out passing.now) waiting.old.items left_out.old begun.old.items
        (ahead_remaining R.remaining ahead.old) waiting.new.items left_out.new begun.new.items (ahead_remaining R.remaining ahead.new) }
    ensures end { OnOk result (
        length waiting.new.items ≡ 0 → (begun.new.items ≡ []) × IsAtEnd (ahead_remaining R.remaining ahead.new)) }
{
    for _ in 0..u64::MAX {
        let read = read_on(ahead, passing, begun, plain, made, waiting, left_out)?;
        if read == Step::End || waiting.len() >= ROOM {
            return Ok(());
        }
    }
    Err(io::Error::from(ErrorKind::Interrupted))
}

/// Gives as many bytes of those that wait as there is room for, of which so many are given already.
fn give(waiting: &[u8], given: &mut usize, buf: &mut [u8]) -> usize
    ensures bound { result ≤ length buf.new }
    ensures gives { drop given.old waiting.now ≡ take result buf.new ++ drop given.new waiting.now }
    ensures none { result ≡ 0 → 0 < length buf.new → drop given.new waiting.now ≡ [] }
{
    let start = (*given).min(waiting.len());
    let rest = &waiting[start..];
    let count = rest.len().min(buf.len());
    buf[..count].copy_from_slice(&rest[..count]);
    *given = start + count;
    count
}

impl<R: Read + Drop> Mapped<R> {
    /// The lines of a text, of which the reader has read nothing, as they are read. Fails only if memory is refused; the
    /// reader is then dropped.
    pub fn new(alloc: Global, inner: R, layout: Layout) -> Result<Mapped<R>, AllocError>
        ensures lines { (text : List ℕ)
            → R.remaining inner ≡ Some text
            → IfOk result (λ m. HasLines R.remaining m (lines_of text)) }
        ensures made { IfOk result (λ m. m.passing ≡ passing_all layout) }
    {
        Ok(Mapped {
            ahead: Ahead::new(alloc, inner)?,
            passing: Passing {
                layout,
                chosen: None,
                amount: None,
            },
            begun: Vec::new(alloc),
            waiting: Vec::new(alloc),
            given: 0,
            left_out: 0,
            plain: Vec::new(alloc),
            made: Vec::new(alloc),
        })
    }
}

impl<R: Read> Mapped<R> {
    /// The same lines, of each of which these parts are passed on. Call it before the first read.
    pub fn choosing(self, chosen: Chosen) -> Mapped<R>
        ensures parts { result.passing ≡ choosing self.passing chosen }
        ensures lines { (lines : List (List ℕ)) → HasLines R.remaining self lines → PassesAll R.remaining result lines }
    {
        Mapped {
            passing: Passing {
                layout: self.passing.layout,
                chosen: Some(chosen),
                amount: self.passing.amount,
            },
            ..self
        }
    }

    /// The same lines, without those that add no such number, as they are passed on. Call it before the first read.
    pub fn adding(self, amount: Amount) -> Mapped<R>
        ensures numbers { result.passing ≡ adding self.passing amount }
        ensures lines { (lines : List (List ℕ)) → HasLines R.remaining self lines → PassesAll R.remaining result lines }
    {
        let Passing {
            layout,
            chosen,
            amount: _,
        } = self.passing;
        Mapped {
            passing: Passing {
                layout,
                chosen,
                amount: Some(amount),
            },
            ..self
        }
    }

    /// How many lines are left out so far, since they add no number; 2^64 - 1 if there are more.
    pub fn left_out(&self) -> u64
        ensures { result ≡ self.now.left_out }
    {
        self.left_out
    }

    /// If nothing waits, reads lines until enough do, or all that the text has left. If it fails, nothing is lost.
    fn refill(&mut self) -> io::Result<()>
        ensures same { Passes R.remaining self.old self.new [] }
        ensures end { OnOk result (drop self.new.given self.new.waiting.items ≡ [] → HasNone R.remaining self.new) }
    {
        if self.given < self.waiting.len() {
            return Ok(());
        }
        self.waiting.clear();
        self.given = 0;
        fill(
            &mut self.ahead,
            &self.passing,
            &mut self.begun,
            &mut self.plain,
            &mut self.made,
            &mut self.waiting,
            &mut self.left_out,
        )
    }
}

impl<R: Read> Read for Mapped<R> {
    ghost remaining = { mapped_remaining R.remaining };

    /// A failed or interrupted read of the text is returned, and loses no byte. A line that can't be passed on is an
    /// error, `InvalidData`. The lines in front of it are still passed on; then each read fails. Lines that are left out
    /// are counted.
    fn read(&mut self, buf: &mut [u8]) -> io::Result<usize>
        ensures bound { ReadsAtMost result buf.new }
        ensures bytes { ReadConsumes (mapped_remaining R.remaining self.old) (mapped_remaining R.remaining self.new)
            result buf.new }
        ensures passes { IfOk result (λ count. Passes R.remaining self.old self.new (take count buf.new)) }
        ensures end { IfOk result (λ count. count ≡ 0 → 0 < length buf.new → HasNone R.remaining self.new) }
    {
        self.refill()?;
        Ok(give(&self.waiting, &mut self.given, buf))
    }
}
