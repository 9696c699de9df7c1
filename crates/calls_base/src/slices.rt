//! `slice`: bytes that are read one after another.
use calls_language::arguments::{hex_of, put_hex, put_number, room_of};
use calls_language::object::{Call, Memory, Object};
use calls_language::words::Fault;
use sketch_base::SketchSlice;
use std::alloc::Global;

/// The bytes that are unread.
#[derive(Drop)]
pub struct SliceObject {
    bytes: Vec<u8>,
}

/// Reads bytes into a buffer of this length.
fn read_exact(
    slice: &mut SketchSlice<'_>,
    plain: Global,
    length: usize,
    answer: &mut String,
) -> Result<(), Fault> {
    let mut buffer = Vec::new(plain);
    buffer.resize(length, 0)?;
    slice.read_exact(buffer.as_mut_slice())?;
    put_hex(answer, buffer.as_slice())?;
    Ok(())
}

/// Makes a call on the unread bytes.
fn read(
    slice: &mut SketchSlice<'_>,
    plain: Global,
    call: Call<'_>,
    answer: &mut String,
) -> Result<(), Fault> {
    match (call.verb, call.argument) {
        ("u8", "") => put_number(answer, slice.read_u8()? as u64)?,
        ("u16", "") => put_number(answer, slice.read_u16_le()? as u64)?,
        ("u32", "") => put_number(answer, slice.read_u32_le()? as u64)?,
        ("u64", "") => put_number(answer, slice.read_u64_le()?)?,
        ("i32", "") => {
            let number = slice.read_i32_le()?;
            write!(answer, "{number}")?;
        }
        ("i64", "") => {
            let number = slice.read_i64_le()?;
            write!(answer, "{number}")?;
        }
        ("exact", length) => read_exact(slice, plain, room_of(length)?, answer)?,
        ("remaining", "") | ("see", "") => put_hex(answer, slice.remaining())?,
        _ => return Err(Fault::Unknown),
    }
    Ok(())
}

impl SliceObject {
    /// Makes a call on the unread bytes; afterwards those that it left are unread.
    fn advance(&mut self, plain: Global, call: Call<'_>, answer: &mut String) -> Result<(), Fault> {
        let mut slice = SketchSlice::new(self.bytes.as_slice());
        let done = read(&mut slice, plain, call, answer);
        let left = Vec::from_clones(plain, slice.remaining())?;
        self.bytes = left;
        done
    }
}

impl<A: Drop> Object<A> for SliceObject {
    fn make(plain: Global, _alloc: A, settings: &str) -> Result<Self, Fault> {
        let bytes = hex_of(plain, settings)?;
        Ok(SliceObject { bytes })
    }

    fn call(
        &mut self,
        memory: Memory<'_>,
        call: Call<'_>,
        answer: &mut String,
    ) -> Result<(), Fault> {
        self.advance(memory.plain(), call, answer)
    }

    fn see(&self, text: &mut String) -> Result<(), Fault> {
        put_hex(text, self.bytes.as_slice())?;
        Ok(())
    }
}
