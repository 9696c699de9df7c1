//! `images`: reading of images by their heads.
ghost use Rattle.core_images.specs.Head.{IsWholeLayout};

use calls_language::arguments::{hex_of, two_words};
use calls_language::entries::{ShownEntry, put_state};
use calls_language::object::{Call, Memory, Object};
use calls_language::settings::no_settings;
use calls_language::words::{Fault, number};
use sketch_base::ErrorKind;
use std::alloc::{Allocator, Global};
use theta_core::image::{
    Flaw, ImageEntry, ImageLayout, ReadError, layout_of, read_after_preamble, reader_seed_hash,
    theta_head, tuple_head,
};
use theta_core::{ThetaEntry, TupleEntry};

/// A reader, which has no state but its memory.
#[derive(Drop)]
pub struct ImagesObject<A> {
    alloc: A,
}

/// The layout of a theta image, or of a tuple image with summaries of eight bytes.
fn layout_in(bytes: &[u8], is_tuple: bool, seed: u64) -> Result<ImageLayout, Flaw>
    ensures { IsWholeLayout bytes.now result }
{
    let seed_hash = reader_seed_hash(seed);
    if is_tuple {
        let head = tuple_head(16, bytes);
        return layout_of(seed_hash, bytes.len(), head);
    }
    let theta = theta_head(bytes);
    layout_of(seed_hash, bytes.len(), theta)
}

/// Reads an image under a seed, and appends its state, or why it isn't read.
fn put_read<E: ShownEntry + ImageEntry<A>, A: Allocator + Copy + Drop>(
    alloc: A,
    bytes: &[u8],
    is_tuple: bool,
    seed: u64,
    answer: &mut String,
) -> Result<(), Fault> {
    let layout = layout_in(bytes, is_tuple, seed);
    match read_after_preamble::<E, A>(alloc, bytes, layout, reader_seed_hash(seed)) {
        Ok(state) => put_state(answer, &state, false)?,
        Err(ReadError::Flawed(flaw)) => write!(answer, "flawed {flaw:?}")?,
        Err(ReadError::OutOfMemory) => return Err(Fault::Refused(ErrorKind::OutOfMemory)),
    }
    Ok(())
}

impl<A: Allocator + Copy + Drop> Object<A> for ImagesObject<A> {
    fn make(_plain: Global, alloc: A, settings: &str) -> Result<Self, Fault> {
        no_settings(settings)?;
        Ok(ImagesObject { alloc })
    }

    fn call(
        &mut self,
        memory: Memory<'_>,
        call: Call<'_>,
        answer: &mut String,
    ) -> Result<(), Fault> {
        if call.verb == "see" {
            return self.see(answer);
        }
        let (digits, seed) = two_words(call.argument)?;
        let bytes = hex_of(memory.plain(), digits)?;
        let seed = number(seed)?;
        match call.verb {
            "read" => put_read::<ThetaEntry, A>(self.alloc, bytes.as_slice(), false, seed, answer),
            "read_u64" => {
                put_read::<TupleEntry<u64>, A>(self.alloc, bytes.as_slice(), true, seed, answer)
            }
            _ => Err(Fault::Unknown),
        }
    }
}
