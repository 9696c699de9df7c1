//! `reading`: images that are read into memory whose bytes are counted.
use calls_language::object::{Call, Memory, Object};
use calls_language::settings::no_settings;
use calls_language::words::{Fault, bytes_of, kind_word};
use calls_policies::Letters;
use sketch_base::{Error, ErrorKind};
use std::alloc::{Allocator, Global};
use theta_sketches::CompactThetaSketch;
use tuple_sketches::{CompactTupleSketch, DEFAULT_UPDATE_SEED, ReadError, TupleSummaryValue};

/// The reader of images.
#[derive(Drop)]
pub struct Reading<A> {
    alloc: A,
}

/// The most bytes of memory for each byte of an image that are few.
const FEW: u64 = 16;

/// How much memory was requested for an image.
fn amount(memory: Memory<'_>, image: &[u8]) -> &'static str {
    if memory.requests() == 0 {
        "none"
    } else if memory.bytes() <= FEW.saturating_mul(image.len() as u64) {
        "few"
    } else {
        "many"
    }
}

/// Why bytes are no image; none if they are one.
fn tuple_error<S: TupleSummaryValue<A> + Drop, A: Allocator + Clone + Drop>(
    alloc: A,
    image: &[u8],
) -> Option<Error> {
    CompactTupleSketch::<S, A>::deserialize(alloc, image).err()
}

/// The length of the image that bytes begin with: of a theta sketch, or of a tuple sketch of `u64`.
fn length_of<A: Allocator + Clone + Drop>(
    alloc: A,
    image: &[u8],
    is_tuple: bool,
) -> Result<u64, ReadError> {
    if is_tuple {
        let sums = CompactTupleSketch::<u64, A>::read_with_seed(
            alloc,
            image,
            DEFAULT_UPDATE_SEED,
            8,
        )?;
        return Ok(sums.1);
    }
    let read = CompactThetaSketch::read_with_seed(alloc, image, DEFAULT_UPDATE_SEED)?;
    Ok(read.1)
}

impl<A: Allocator + Copy + Drop> Reading<A> {
    /// Appends the length of the image that bytes begin with, or why they begin with none.
    fn put_length(&self, image: &[u8], is_tuple: bool, answer: &mut String) -> Result<(), Fault> {
        match length_of(self.alloc, image, is_tuple) {
            Ok(length) => write!(answer, "{length}")?,
            Err(ReadError::Flawed(flaw)) => write!(answer, "flawed {flaw:?}")?,
            Err(ReadError::OutOfMemory) => return Err(Fault::Refused(ErrorKind::OutOfMemory)),
        }
        Ok(())
    }

    /// Why bytes are no image of the kind that a word names; none if they are one.
    fn error_of(&self, kind: &str, image: &[u8]) -> Result<Option<Error>, Fault> {
        match kind {
            "theta" => Ok(CompactThetaSketch::deserialize(self.alloc, image).err()),
            "u32" => Ok(tuple_error::<u32, A>(self.alloc, image)),
            "u64" => Ok(tuple_error::<u64, A>(self.alloc, image)),
            "i32" => Ok(tuple_error::<i32, A>(self.alloc, image)),
            "i64" => Ok(tuple_error::<i64, A>(self.alloc, image)),
            "letters" => Ok(tuple_error::<Letters<A>, A>(self.alloc, image)),
            _ => Err(Fault::Unknown),
        }
    }
}

impl<A: Allocator + Copy + Drop> Object<A> for Reading<A> {
    fn make(_plain: Global, alloc: A, settings: &str) -> Result<Self, Fault> {
        no_settings(settings)?;
        Ok(Reading { alloc })
    }

    fn call(
        &mut self,
        memory: Memory<'_>,
        call: Call<'_>,
        answer: &mut String,
    ) -> Result<(), Fault> {
        if call.verb == "see" {
            return self.see(answer);
        }
        let image = bytes_of(memory.plain(), call.argument)?;
        if call.verb == "theta_length" || call.verb == "u64_length" {
            return self.put_length(image.as_slice(), call.verb == "u64_length", answer);
        }
        let error = self.error_of(call.verb, image.as_slice())?;
        let amount = amount(memory, image.as_slice());
        let word = match error {
            None => "read",
            Some(error) => match error.kind() {
                ErrorKind::OutOfMemory => return Err(Fault::Refused(ErrorKind::OutOfMemory)),
                kind => kind_word(kind),
            },
        };
        write!(answer, "{word} {amount}")?;
        Ok(())
    }
}
