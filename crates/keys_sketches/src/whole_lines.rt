//! Whole lines of readers.
ghost use Rattle.std.specs.Prelude.{◌≡◌, ◌+◌, ◌≤◌, ◌++◌, IfOk, OnOk, IfSome, vec_len};
ghost use Rattle.std.specs.Io.BufRead.{take_through, DropsThrough};
ghost use Rattle.std.specs.Io.KnownBytes.{IsAtEnd};
ghost use Rattle.keys_sketches.specs.WholeLines.{Continues};

use keys_lines::cut_line;
use std::alloc::Allocator;
use std::io;
use std::io::{BufRead, ErrorKind};

/// Appends the bytes that the reader has in memory, up to and including the first LF. Returns whether it met an LF or
/// the end.
#[inline(always)]
fn read_piece<R: BufRead, A: Allocator>(reader: &mut R, line: &mut Vec<u8, A>) -> io::Result<bool>
    ensures grows { vec_len line.old ≤ vec_len line.new }
    ensures continues { IfOk result (λ is_done.
        Continues is_done (R.remaining reader.old) (R.remaining reader.new) line.old.items line.new.items) }
{
    let available = match reader.fill_buf() {
        Ok(available) => available,
        Err(error) => {
            return if error.kind() == ErrorKind::Interrupted {
                Ok(false)
            } else {
                Err(error)
            };
        }
    };
    let (count, is_done) = match cut_line(available) {
        Some((front, _)) => (front.len() + 1, true),
        None => (available.len(), available.is_empty()),
    };
    line.extend_from_slice(&available[..count])?;
    reader.consume(count);
    Ok(is_done)
}

/// Appends what the reader has left up to and including the next LF, or all of it if it has no LF. Returns how many
/// bytes these are: 0 only at the end. An interrupted read is repeated. If the reader fails, or memory is refused, the
/// error is returned, and some of the bytes may be in `line`.
///
/// It does what `read_until` of the standard library does, but looks at many bytes at once.
pub fn read_line<R: BufRead, A: Allocator>(
    reader: &mut R,
    line: &mut Vec<u8, A>,
) -> io::Result<usize>
    ensures ok { IfOk result (λ count. vec_len line.new ≡ vec_len line.old + count) }
    ensures bytes { OnOk result (IfSome (R.remaining reader.old) (λ text.
        line.new.items ≡ line.old.items ++ take_through 10 text)) }
    ensures rest { OnOk result (DropsThrough (R.remaining reader.old) (R.remaining reader.new) 10) }
    ensures end { IfOk result (λ count. count ≡ 0 → IsAtEnd (R.remaining reader.old)) }
{
    let start = line.len();
    for _ in 0..u64::MAX {
        if read_piece(reader, line)? {
            return Ok(line.len() - start);
        }
    }
    Err(io::Error::from(ErrorKind::Other))
}
