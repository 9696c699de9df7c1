//! Readers of parts over a reader of few bytes at a time, of which every second read fails: no byte is lost, and the
//! failure is passed on.
ghost use Rattle.std.specs.Prelude.{◌≤◌, ◌<◌};

use keys_parts::{Part, Places};
use std::alloc::{AllocError, Global};
use std::io;
use std::io::{ErrorKind, Read};
use std::test::Fail;

/// A reader of a text in pieces of at most this size. The first read fails by this kind of error, and then every
/// second one.
#[derive(Drop)]
struct Pieces<'a> {
    text: &'a [u8],
    size: usize,
    kind: ErrorKind,
    succeeded: bool,
}

impl Read for Pieces<'_> {
    fn read(&mut self, buf: &mut [u8]) -> io::Result<usize> {
        self.succeeded = !self.succeeded;
        if !self.succeeded {
            return Err(io::Error::from(self.kind));
        }
        let count = self.size.min(self.text.len()).min(buf.len());
        let (front, rest) = self.text.split_at(count);
        buf[..count].copy_from_slice(front);
        self.text = rest;
        Ok(count)
    }
}

/// What the reader of a part of a text gives, read at most so many bytes at a time, and how many reads fail by this
/// kind of error.
fn read_part(
    alloc: Global,
    text: &[u8],
    index: u32,
    parts: u32,
    size: usize,
    kind: ErrorKind,
) -> Result<(Vec<u8>, u32), AllocError>
    requires counted { 0 < index }
    requires within { index ≤ parts }
{
    let places = Places::of_part(text.len() as u64, index, parts);
    let start = (places.start() as usize).min(text.len());
    let inner = Pieces {
        text: &text[start..],
        size,
        kind,
        succeeded: true,
    };
    let mut reader = Part::new(inner, places);
    let mut block = [0u8; 3];
    let mut found = Vec::new(alloc);
    let mut failures = 0u32;
    for _ in 0..100 {
        match reader.read(&mut block) {
            Ok(0) => return Ok((found, failures)),
            Ok(count) => found.extend_from_slice(&block[..count])?,
            Err(error) => {
                if error.kind() == kind {
                    failures = failures.saturating_add(1);
                }
            }
        }
    }
    Ok((found, failures))
}

/// Two lines that are ended, an empty one, one of more bytes than a block, and one without an end.
const TEXT: &[u8] = b"ann\nbob\n\nmaximilian\nzoe";

/// The parts of the text, one after another.
fn joined(alloc: Global, parts: u32, size: usize, kind: ErrorKind) -> Result<Vec<u8>, AllocError> {
    let mut all = Vec::new(alloc);
    for index in 1..parts.saturating_add(1) {
        if index <= parts {
            let (found, _) = read_part(alloc, TEXT, index, parts, size, kind)?;
            all.extend_from_slice(found.as_slice())?;
        }
    }
    Ok(all)
}

#[test]
fn parts_follow_one_another(rt: HostRuntime) -> Result<(), Fail> {
    for parts in 1..26u32 {
        for size in 1..5usize {
            let all = joined(rt.alloc(), parts, size, ErrorKind::Interrupted)?;
            assert_eq!(rt; all.as_slice(), TEXT);
        }
    }
    Ok(())
}

#[test]
fn failures_lose_no_byte(rt: HostRuntime) -> Result<(), Fail> {
    // The second of two parts begins at byte 11, within a line: it is read from byte 10 on.
    let (found, failures) = read_part(rt.alloc(), TEXT, 2, 2, 3, ErrorKind::TimedOut)?;
    assert_eq!(rt; found.as_slice(), b"zoe".as_slice());
    assert_eq!(rt; failures, 6);
    Ok(())
}
