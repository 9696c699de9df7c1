//! `run`: runs of commands over a reader and a writer that a line describes.
use crate::plans::text_bytes;
use crate::ports::{Pieces, Ports, Room};
use calls_language::object::{Call, Memory, Object};
use calls_language::words::{Fault, number};
use plan_runs::{Ending, run};
use sketch_base::ErrorKind;
use std::alloc::{AllocError, Allocator, Global};
use std::io;

/// A reader and a writer, which each call has anew.
#[derive(Drop)]
pub struct RunObject<A> {
    alloc: A,
    ports: Ports,
}

/// The kind of a reader's errors.
fn kind_of(word: &str) -> Result<io::ErrorKind, Fault> {
    match word {
        "other" => Ok(io::ErrorKind::Other),
        "broken_pipe" => Ok(io::ErrorKind::BrokenPipe),
        "unexpected_eof" => Ok(io::ErrorKind::UnexpectedEof),
        _ => Err(Fault::Unknown),
    }
}

/// After how many bytes reads fail, and with what.
fn failure_of(word: &str) -> Result<(usize, io::ErrorKind), Fault> {
    match word.split_once(':') {
        Some((after, kind)) => Ok((number(after)? as usize, kind_of(kind)?)),
        None => Err(Fault::Unknown),
    }
}

/// A number that isn't 0.
fn some_number(word: &str) -> Result<u64, Fault> {
    match number(word)? {
        0 => Err(Fault::Unknown),
        number => Ok(number),
    }
}

/// Takes what one word says of the reader and the writer.
fn set(ports: &mut Ports, word: &str) -> Result<(), Fault> {
    match word.split_once('=') {
        Some(("pieces", value)) => ports.piece = some_number(value)? as usize,
        Some(("fails", value)) => ports.failure = Some(failure_of(value)?),
        Some(("interrupted", value)) => ports.interrupted = Some(some_number(value)?),
        Some(("endless", "yes")) => ports.endless = true,
        Some(("room", value)) => ports.room = number(value)? as usize,
        _ => return Err(Fault::Unknown),
    }
    Ok(())
}

/// The word of a run's end.
fn ending_word(ending: Ending) -> &'static str {
    match ending {
        Ending::Answered(_) => "answered",
        Ending::NotRead => "not_read",
        Ending::NotWritten => "not_written",
    }
}

/// Appends what was written, with a slash at the end of each line, or `-` if nothing was.
fn put_written(answer: &mut String, bytes: &[u8]) -> Result<(), AllocError> {
    if bytes.is_empty() {
        return answer.push('-');
    }
    for byte in bytes {
        answer.push(if *byte == b'\n' { '/' } else { *byte as char })?;
    }
    Ok(())
}

/// The text of a call, with a slash at the end of each line.
fn words_of(plain: Global, call: Call<'_>) -> Result<String, AllocError> {
    let mut words = String::from_str(plain, call.verb)?;
    if !call.argument.is_empty() {
        words.push(' ')?;
        words.push_str(call.argument)?;
    }
    Ok(words)
}

impl<A: Allocator + Copy + Drop> RunObject<A> {
    /// Makes one run, and appends how it ended.
    fn put_run(&self, plain: Global, call: Call<'_>, answer: &mut String) -> Result<(), Fault> {
        let text = text_bytes(plain, words_of(plain, call)?.as_str())?;
        let mut reader = Pieces::new(text.as_slice(), self.ports);
        let mut writer = Room::new(plain, self.ports.room);
        let ending = run(self.alloc, &mut reader, &mut writer);
        let status = ending.status();
        if status == 1 && writer.written() == b"error memory\n".as_slice() {
            return Err(Fault::Refused(ErrorKind::OutOfMemory));
        }
        let word = ending_word(ending);
        let reads = reader.reads();
        write!(answer, "{status} {word} {reads} ")?;
        put_written(answer, writer.written())?;
        if reader.least() < 4096 {
            answer.push_str(" small")?;
        }
        Ok(())
    }
}

impl<A: Allocator + Copy + Drop> Object<A> for RunObject<A> {
    fn make(_plain: Global, alloc: A, settings: &str) -> Result<Self, Fault> {
        let mut ports = Ports {
            piece: 4096,
            failure: None,
            interrupted: None,
            endless: false,
            room: usize::MAX,
        };
        if !settings.is_empty() {
            for word in settings.split(' ') {
                set(&mut ports, word)?;
            }
        }
        Ok(RunObject { alloc, ports })
    }

    fn call(
        &mut self,
        memory: Memory<'_>,
        call: Call<'_>,
        answer: &mut String,
    ) -> Result<(), Fault> {
        match call.verb {
            "see" => self.see(answer),
            _ => self.put_run(memory.plain(), call, answer),
        }
    }
}
