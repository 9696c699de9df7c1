//! A reader and a writer that lines describe.
ghost use Rattle.std.specs.Prelude.{◌≤◌, length, IfOk};

use std::alloc::Global;
use std::io::{Error, ErrorKind, Read, Result, Write};

/// What a line says of a reader and a writer.
#[derive(Clone, Copy)]
pub struct Ports {
    /// How many bytes a read gives at most.
    pub piece: usize,
    /// After how many bytes reads fail, and with what.
    pub failure: Option<(usize, ErrorKind)>,
    /// Every so manyth read is interrupted.
    pub interrupted: Option<u64>,
    /// Whether the reader goes on for ever after its text.
    pub endless: bool,
    /// How many bytes the writer takes.
    pub room: usize,
}

/// A reader of a text.
#[derive(Drop)]
pub struct Pieces<'t> {
    left: &'t [u8],
    ports: Ports,
    given: usize,
    reads: u64,
    least: usize,
}

impl<'t> Pieces<'t> {
    /// A reader of this text.
    pub fn new(text: &'t [u8], ports: Ports) -> Pieces<'t> {
        Pieces {
            left: text,
            ports,
            given: 0,
            reads: 0,
            least: usize::MAX,
        }
    }

    /// The number of reads.
    pub fn reads(&self) -> u64 {
        self.reads
    }

    /// The least number of bytes that a read asked for.
    pub fn least(&self) -> usize {
        self.least
    }

    /// How many bytes may be given before reads fail.
    fn allowed(&self) -> usize {
        match self.ports.failure {
            Some((after, _)) => after.saturating_sub(self.given),
            None => usize::MAX,
        }
    }

    /// What a read gives when nothing of the text is left, or all that may be given was.
    fn finish(&self, buf: &mut [u8]) -> Result<usize>
        ensures bound { IfOk result (λ count. count ≤ length buf.old) }
    {
        if let Some((after, kind)) = self.ports.failure {
            if after <= self.given {
                return Err(Error::from(kind));
            }
        }
        match buf.first_mut() {
            Some(first) if self.ports.endless => {
                *first = b'a';
                Ok(1)
            }
            _ => Ok(0),
        }
    }
}

impl Read for Pieces<'_> {
    fn read(&mut self, buf: &mut [u8]) -> Result<usize> {
        self.reads = self.reads.saturating_add(1);
        self.least = self.least.min(buf.len());
        if let Some(every) = self.ports.interrupted {
            if every != 0 && self.reads % every == 0 {
                return Err(Error::from(ErrorKind::Interrupted));
            }
        }
        let most = self.ports.piece.min(self.allowed());
        let count = most.min(buf.len()).min(self.left.len());
        if count == 0 {
            return self.finish(buf);
        }
        let (given, left) = self.left.split_at(count);
        buf[..count].copy_from_slice(given);
        self.left = left;
        self.given = self.given.saturating_add(count);
        Ok(count)
    }
}

/// A writer with room for some bytes.
#[derive(Drop)]
pub struct Room {
    bytes: Vec<u8>,
    room: usize,
}

impl Room {
    /// A writer with room for so many bytes.
    pub fn new(plain: Global, room: usize) -> Room {
        Room {
            bytes: Vec::new(plain),
            room,
        }
    }

    /// The bytes that were written.
    pub fn written(&self) -> &[u8] {
        self.bytes.as_slice()
    }
}

impl Write for Room {
    fn write(&mut self, buf: &[u8]) -> Result<usize> {
        let count = self.room.min(buf.len());
        if count == 0 {
            return Err(Error::from(ErrorKind::StorageFull));
        }
        self.bytes.extend_from_slice(&buf[..count])?;
        self.room -= count;
        Ok(count)
    }

    fn flush(&mut self) -> Result<()> {
        Ok(())
    }
}
