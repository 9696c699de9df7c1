//! Writing answers.
ghost use Rattle.std.specs.Prelude.{OnOk, IfErr, Bool};
ghost use Rattle.std.specs.Io.KnownBytes.{Appends};
ghost use Rattle.distinct_messages.specs.Failures.{IsOfWriting, ReportsNotWritten, UnreadableIf};

use crate::failure::Failure;
use std::alloc::Global;
use std::io;
use std::io::Write;

/// Writes bytes to a writer, which has this name in messages.
pub fn put<W: Write>(alloc: Global, writer: &mut W, name: &str, bytes: &[u8]) -> Result<(), Failure>
    ensures written { OnOk result (Appends (W.contents writer.old) (W.contents writer.new) bytes.now) }
    ensures failed { IfErr result (IsOfWriting name.now) }
    ensures fallible { (may_fail : Bool) → IfErr result (UnreadableIf may_fail) }
{
    match writer.write_all(bytes) {
        Ok(()) => Ok(()),
        Err(error) => Err(write_failure(alloc, name, error)),
    }
}

/// The failure if the output of this name fails for this reason.
pub fn write_failure(alloc: Global, name: &str, error: io::Error) -> Failure
    ensures reports { ReportsNotWritten name.now error result }
    ensures fallible { (may_fail : Bool) → UnreadableIf may_fail result }
{
    match String::from_str(alloc, name) {
        Ok(name) => Failure::NotWritten(name, error),
        Err(_) => Failure::Memory,
    }
}
