//! A whole run, over a reader and a writer.
ghost use Rattle.std.specs.Prelude.{◌≡◌, IfOk, IfSome};
ghost use Rattle.std.specs.Io.KnownBytes.{Keeps, IsAtEnd};
ghost use Rattle.plan_runs.specs.Ending.{Puts, EndsRun, ending_status};
ghost use Rattle.plan_runs.specs.declared.runs.ReadError.TheVariants.{Memory};

use crate::answer::answer;
use std::alloc::{AllocError, Allocator};
use std::io::{ErrorKind, Read, Write};

/// The most reads that a run makes.
const READS: u32 = 1 << 24;

/// The number of bytes that each read requests.
const READ_BYTES: usize = 4096;

/// Why an input was not read to its end.
enum ReadError {
    Memory,
    Failed,
}

impl From<AllocError> for ReadError {
    ghost from_gives = { λ _ e. e ≡ Memory };

    fn from(_e: AllocError) -> Self {
        ReadError::Memory
    }
}

/// All remaining bytes of a reader.
fn read_all<A: Allocator, R: Read>(alloc: A, reader: &mut R) -> Result<Vec<u8, A>, ReadError>
    ensures all { IfOk result (λ text. IfSome (R.remaining reader.old) (λ bytes. text.items ≡ bytes)) }
    ensures end { IfOk result (λ _. IsAtEnd (R.remaining reader.new)) }
{
    let mut text = Vec::new(alloc);
    let mut buffer = [0u8; READ_BYTES];
    for _ in 0..READS {
        match reader.read(&mut buffer) {
            Ok(0) => return Ok(text),
            Ok(count) => text.extend_from_slice(&buffer[..count])?,
            Err(error) => {
                if error.kind() != ErrorKind::Interrupted {
                    return Err(ReadError::Failed);
                }
            }
        }
    }
    Err(ReadError::Failed)
}

/// How a run ended.
#[derive(Debug, Clone, Copy, PartialEq, Eq)]
pub enum Ending {
    /// An answer of this status was written: 0 if it is the answer to a command, 1 if it is a fault.
    Answered(u8),
    /// A read failed, and nothing was written.
    NotRead,
    /// A write failed; how much was written is unspecified.
    NotWritten,
}

impl Ending {
    /// The exit status: the answer's, or 2 if a read or a write failed.
    pub fn status(self) -> u8
        ensures { result ≡ ending_status self }
    {
        match self {
            Ending::Answered(status) => status,
            Ending::NotRead => 2,
            Ending::NotWritten => 2,
        }
    }
}

/// Writes an answer.
fn put<W: Write>(writer: &mut W, text: &[u8], status: u8) -> Ending
    ensures { Puts text.now status result (W.contents writer.old) (W.contents writer.new) }
{
    match writer.write_all(text) {
        Ok(()) => Ending::Answered(status),
        Err(_) => Ending::NotWritten,
    }
}

/// Answers the whole input of a reader: reads to its end, and only then writes the answer, whole, and nothing else.
///
/// Each read requests at least 4096 bytes, and an interrupted read is repeated. Any other failure of a read ends the
/// run, even if the reader could continue, and so does an input that has not ended after 2^24 reads.
pub fn run<A: Allocator + Clone, R: Read, W: Write>(
    alloc: A,
    reader: &mut R,
    writer: &mut W,
) -> Ending
    ensures answered { IfSome (R.remaining reader.old) (λ input.
        EndsRun A input result (W.contents writer.old) (W.contents writer.new)) }
    ensures unread { result ≡ Ending.NotRead → Keeps (W.contents writer.old) (W.contents writer.new) }
{
    let Ok(own) = alloc.clone() else {
        return put(writer, b"error memory\n", 1);
    };
    let input = match read_all(own, reader) {
        Ok(input) => input,
        Err(ReadError::Memory) => return put(writer, b"error memory\n", 1),
        Err(ReadError::Failed) => return Ending::NotRead,
    };
    match answer(&alloc, input.as_slice()) {
        Ok((status, text)) => put(writer, text.as_bytes(), status),
        Err(_) => put(writer, b"error memory\n", 1),
    }
}
