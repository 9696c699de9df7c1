//! The first line of a text.
ghost use Rattle.std.specs.Prelude.{◌≡◌, ◌∷◌, ℕ, List, [], IfOk, OnOk, OnErr, IfSome, IfNone, drop};
ghost use Rattle.std.specs.Io.KnownBytes.{Consumes, IsAtEnd, Keeps};
ghost use Rattle.keys_fields.specs.Lines.{plain_line};
ghost use Rattle.keys_fields.specs.Names.{first_of, HasText};

use crate::layout::Layout;
use std::alloc::Global;
use std::io;
use std::io::{ErrorKind, Read};

/// Reads the next byte; `None` at the end. A read that fails, or is interrupted, loses no byte.
fn next_byte<R: Read>(reader: &mut R) -> io::Result<Option<u8>>
    ensures some { IfOk result (λ byte. IfSome byte (λ b. Consumes (R.remaining reader.old) (R.remaining reader.new) (b ∷ []))) }
    ensures end { IfOk result (λ byte. IfNone byte (Consumes (R.remaining reader.old) (R.remaining reader.new) [] × IsAtEnd (R.remaining reader.new))) }
    ensures err { OnErr result (Keeps (R.remaining reader.old) (R.remaining reader.new)) }
{
    let mut bytes = [0; 1];
    let count = reader.read(&mut bytes)?;
    if count == 0 {
        Ok(None)
    } else {
        Ok(Some(bytes[0]))
    }
}

/// Reads the first line that a reader has left, without its LF, behind what `line` has, byte by byte: what is behind the
/// LF isn't read. If it fails, some of its bytes may be lost.
fn read_first<R: Read>(reader: &mut R, line: &mut Vec<u8>) -> io::Result<()>
    ensures { (lines : List (List ℕ))
        → HasText (R.remaining reader.old) lines
        → OnOk result (line.old.items ≡ [] → (line.new.items ≡ first_of lines) × HasText (R.remaining reader.new) (drop 1 lines)) }
{
    for _ in 0..u64::MAX {
        match next_byte(reader) {
            Ok(Some(byte)) => {
                if byte == b'\n' {
                    return Ok(());
                }
                line.push(byte)?;
            }
            Ok(None) => return Ok(()),
            Err(error) => {
                if error.kind() != ErrorKind::Interrupted {
                    return Err(error);
                }
            }
        }
    }
    Err(io::Error::from(ErrorKind::Other))
}

/// Reads past the first line that a reader has left, and returns it as it is read. If it fails, what is left is
/// unspecified.
pub fn header_of<R: Read>(alloc: Global, reader: &mut R, layout: Layout) -> io::Result<Vec<u8>>
    ensures { (lines : List (List ℕ))
        → HasText (R.remaining reader.old) lines
        → IfOk result (λ v. (v.items ≡ plain_line layout (first_of lines)) × HasText (R.remaining reader.new) (drop 1 lines)) }
{
    let mut first = Vec::new(alloc);
    read_first(reader, &mut first)?;
    let mut line = Vec::new(alloc);
    layout.push_plain(&first, &mut line)?;
    Ok(line)
}
