//! `bytes`: bytes that are written one after another.
use calls_language::arguments::{half_number, hex_of, put_hex, room_of, word_number};
use calls_language::object::{Call, Memory, Object};
use calls_language::words::{Fault, number, put_done, small_number};
use sketch_base::{Error, SketchBytes};
use std::alloc::{Allocator, Global};
use std::cell::Cell;

/// Bytes, which can be seen only by taking them.
#[derive(Drop)]
pub struct BytesObject<A: Allocator> {
    content: Cell<Option<SketchBytes<A>>>,
}

/// The bytes of a writer, and a writer that goes on with as much room.
fn read_back<A: Allocator + Copy + Drop>(
    bytes: SketchBytes<A>,
    text: &mut String,
) -> Result<SketchBytes<A>, Error> {
    let taken = bytes.into_bytes();
    put_hex(text, taken.as_slice())?;
    let mut again = SketchBytes::with_capacity(*taken.allocator(), taken.capacity())?;
    again.write(taken.as_slice())?;
    Ok(again)
}

/// Writes a number or bytes; returns what the write answers, or none if the word names no way to.
fn write<A: Allocator>(
    bytes: &mut SketchBytes<A>,
    plain: Global,
    call: Call<'_>,
) -> Result<Option<Result<(), Error>>, Fault> {
    let word = call.argument;
    let done = match call.verb {
        "write" => bytes.write(hex_of(plain, word)?.as_slice()),
        "u8" => bytes.write_u8(small_number(word)?),
        "u16" => bytes.write_u16_le(half_number(word)?),
        "u32" => bytes.write_u32_le(word_number(word)?),
        "u64" => bytes.write_u64_le(number(word)?),
        "i32" => bytes.write_i32_le(word.parse::<i32>().map_err(|_| Fault::Unknown)?),
        "i64" => bytes.write_i64_le(word.parse::<i64>().map_err(|_| Fault::Unknown)?),
        _ => return Ok(None),
    };
    Ok(Some(done))
}

impl<A: Allocator + Copy + Drop> BytesObject<A> {
    /// Takes the bytes, appends them, and goes on with them.
    fn show(&self, text: &mut String) -> Result<(), Fault> {
        let Some(bytes) = self.content.replace(None) else {
            return Err(Fault::Stopped);
        };
        self.content.set(Some(read_back(bytes, text)?));
        Ok(())
    }
}

impl<A: Allocator + Copy + Drop> Object<A> for BytesObject<A> {
    fn make(_plain: Global, alloc: A, settings: &str) -> Result<Self, Fault> {
        let capacity = match settings.strip_prefix("capacity=") {
            Some(word) => room_of(word)?,
            None if settings.is_empty() => 0,
            None => return Err(Fault::Unknown),
        };
        let bytes = SketchBytes::with_capacity(alloc, capacity)?;
        Ok(BytesObject {
            content: Cell::new(Some(bytes)),
        })
    }

    fn call(
        &mut self,
        memory: Memory<'_>,
        call: Call<'_>,
        answer: &mut String,
    ) -> Result<(), Fault> {
        if call.verb == "see" {
            memory.pause();
            self.show(answer)?;
            memory.refuse();
            return Ok(());
        }
        let Some(bytes) = self.content.get_mut() else {
            return Err(Fault::Stopped);
        };
        match write(bytes, memory.plain(), call)? {
            Some(done) => put_done(answer, done),
            None => Err(Fault::Unknown),
        }
    }

    fn see(&self, text: &mut String) -> Result<(), Fault> {
        self.show(text)
    }
}
