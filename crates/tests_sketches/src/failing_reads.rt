//! Reads that fail while lines are sketched or summed: an interrupted read is made again, and after any other failure
//! nothing more is read.
use keys_lines::{Hashing, Key};
use keys_sketches::{ReadError, TextReader, Watch};
use keys_sums::{Amount, SumError, SumWatch, SummaryMode};
use sketch_base::Error;
use std::alloc::{Allocator, Global};
use std::io;
use std::io::{ErrorKind, Read};
use std::test::Fail;
use theta_sketches::ThetaSketch;

/// Whole lines under the default seed.
const LINES: Hashing = Hashing {
    key: Key::Line,
    seed: 9001,
};

/// A reader whose first read gives a line, whose second read fails, and which has another line behind the failure.
#[derive(Drop)]
struct FailsOnce {
    kind: ErrorKind,
    reads: u8,
}

impl Read for FailsOnce {
    fn read(&mut self, buf: &mut [u8]) -> io::Result<usize> {
        self.reads = self.reads.saturating_add(1);
        let text: &[u8] = match self.reads {
            1 => b"ann\n",
            2 => return Err(io::Error::from(self.kind)),
            3 => b"bob\n",
            _ => b"",
        };
        let count = text.len().min(buf.len());
        buf[..count].copy_from_slice(&text[..count]);
        Ok(count)
    }
}

impl TextReader for FailsOnce {
    ghost use Rattle.std.specs.Prelude.{true};

    ghost may_fail = { true };

    fn may_fail() -> bool {
        true
    }
}

/// Ignores progress.
#[derive(Drop)]
struct Quiet {}

impl Watch for Quiet {
    fn on_read<A: Allocator>(&mut self, _bytes: usize, _lines: u64, _sketch: &ThetaSketch<A>) {}
}

impl SumWatch for Quiet {
    fn on_lines(&mut self, _bytes: usize, _lines: u64) {}
}

/// The error that the lines were read with, if any, how many reads were made, and how many lines were retained.
#[derive(Clone, Copy, Debug, PartialEq, Eq)]
struct Ended {
    error: Option<ErrorKind>,
    reads: u8,
    retained: usize,
}

/// How a reader that fails once is sketched.
fn sketched(alloc: Global, kind: ErrorKind) -> Result<Ended, Error> {
    let mut sketch = keys_sketches::new_sketch(alloc, 9001, 12)?;
    let mut reader = FailsOnce { kind, reads: 0 };
    let mut block = [0u8; 64];
    let made = keys_sketches::add_lines(&mut sketch, LINES, &mut reader, &mut block, &mut Quiet {});
    let error = match made {
        Ok(()) => None,
        Err(ReadError::Failed(error)) => Some(error.kind()),
        Err(ReadError::Refused(error)) => return Err(error),
    };
    Ok(Ended {
        error,
        reads: reader.reads,
        retained: sketch.num_retained(),
    })
}

/// How the lines of a reader that fails once are summed.
fn summed(alloc: Global, kind: ErrorKind) -> Result<Ended, Error> {
    let mut summation = keys_sums::Summation::new(alloc, SummaryMode::Sum, 9001, 12)?;
    let mut reader = FailsOnce { kind, reads: 0 };
    let mut block = [0u8; 64];
    let made = keys_sums::add_lines(
        &mut summation,
        LINES,
        Amount::One,
        &mut reader,
        &mut block,
        &mut Quiet {},
    );
    let error = match made {
        Ok(()) => None,
        Err(SumError::Failed(error)) => Some(error.kind()),
        Err(SumError::Refused(error)) => return Err(error),
        Err(_) => Some(ErrorKind::InvalidInput),
    };
    Ok(Ended {
        error,
        reads: reader.reads,
        retained: summation.finish()?.sketch.num_retained(),
    })
}

#[test]
fn reads_end_with_the_first_failure(rt: HostRuntime) -> Result<(), Fail> {
    for kind in [
        ErrorKind::UnexpectedEof,
        ErrorKind::BrokenPipe,
        ErrorKind::WouldBlock,
        ErrorKind::TimedOut,
        ErrorKind::Other,
    ] {
        let wanted = Ended {
            error: Some(kind),
            reads: 2,
            retained: 1,
        };
        assert_eq!(rt; sketched(rt.alloc(), kind)?, wanted);
        assert_eq!(rt; summed(rt.alloc(), kind)?, wanted);
    }
    Ok(())
}

#[test]
fn interrupted_reads_are_repeated(rt: HostRuntime) -> Result<(), Fail> {
    let wanted = Ended {
        error: None,
        reads: 4,
        retained: 2,
    };
    assert_eq!(rt; sketched(rt.alloc(), ErrorKind::Interrupted)?, wanted);
    assert_eq!(rt; summed(rt.alloc(), ErrorKind::Interrupted)?, wanted);
    Ok(())
}
