//! A reader that reads blocks ahead.
ghost use Rattle.std.specs.Prelude.{◌≡◌, ◌≤◌, [], length, take, OnOk, IfOk};
ghost use Rattle.std.specs.Io.KnownBytes.{Keeps, Consumes, IsAtEnd};
ghost use Rattle.keys_fields.specs.Ahead.{shown_of, ahead_remaining};

use std::alloc::{AllocError, Global};
use std::io;
use std::io::{ErrorKind, Read};

/// The size of a block.
const BLOCK: usize = 1 << 16;

/// A reader that reads blocks ahead, over another.
#[derive(Drop)]
pub(crate) struct Ahead<R> {
    inner: R,
    block: Vec<u8>,
    /// The first byte of the block that isn't read past.
    start: usize,
    /// The end of the bytes that were read into the block.
    end: usize,
}

impl<R: Read + Drop> Ahead<R> {
    /// Nothing is read yet.
    pub(crate) fn new(alloc: Global, inner: R) -> Result<Ahead<R>, AllocError>
        ensures { IfOk result (λ a. ahead_remaining R.remaining a ≡ R.remaining inner) }
    {
        let mut block = Vec::new(alloc);
        block.resize(BLOCK, 0)?;
        Ok(Ahead {
            inner,
            block,
            start: 0,
            end: 0,
        })
    }
}

impl<R: Read> Ahead<R> {
    /// The bytes that were read ahead.
    #[inline(always)]
    pub(crate) fn shown(&self) -> &[u8]
        ensures { result.now ≡ shown_of self.now }
    {
        let read = &self.block[..self.end.min(self.block.len())];
        &read[self.start.min(read.len())..]
    }

    /// Reads a block, unless some bytes of the last are left. If it fails, nothing is lost.
    pub(crate) fn fill(&mut self) -> io::Result<()>
        ensures kept { Keeps (ahead_remaining R.remaining self.old) (ahead_remaining R.remaining self.new) }
        ensures end { OnOk result (shown_of self.new ≡ [] → IsAtEnd (ahead_remaining R.remaining self.new)) }
    {
        if !self.shown().is_empty() {
            return Ok(());
        }
        self.start = 0;
        self.end = 0;
        if self.block.is_empty() {
            return Err(io::Error::from(ErrorKind::Other));
        }
        let length = self.inner.read(&mut self.block)?;
        self.end = length;
        Ok(())
    }

    /// Reads past bytes that were read ahead.
    #[inline(always)]
    pub(crate) fn consume(&mut self, count: usize)
        requires shown { count ≤ length (shown_of self.old) }
        ensures { Consumes (ahead_remaining R.remaining self.old) (ahead_remaining R.remaining self.new)
            (take count (shown_of self.old)) }
    {
        self.start = self.start.saturating_add(count);
    }
}
