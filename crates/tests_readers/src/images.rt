//! The answers of the readers of images.
use keys_sketches::{Flaw, ImageFlaw, entry_count, flaw_of, hex_line, image_length};
use std::alloc::{AllocError, Global};
use std::fmt::Display;
use theta_sketches::{CompactThetaSketch, Error, ErrorKind};
use tuple_sketches::{CompactTupleSketch, TupleSummaryValue};

/// The hash of the default seed.
const SEED_HASH: u16 = 0x93cc;

/// Appends whether a sketch is empty, and its theta.
fn put_content(text: &mut String, empty: bool, theta: u64) -> Result<(), AllocError> {
    let content = if empty { "empty" } else { "filled" };
    write!(text, "{content} {theta}")
}

/// Appends the seed hash of a sketch, and whether it is ordered.
fn put_order(text: &mut String, seed_hash: u16, ordered: bool) -> Result<(), AllocError> {
    let order = if ordered { "ordered" } else { "unordered" };
    write!(text, " {seed_hash} {order}")
}

/// Appends a theta sketch: its facts and its hashes in its order.
pub fn put_theta_sketch(text: &mut String, sketch: &CompactThetaSketch) -> Result<(), AllocError> {
    put_content(text, sketch.is_empty(), sketch.theta64())?;
    put_order(text, sketch.seed_hash(), sketch.is_ordered())?;
    for entry in sketch.iter() {
        let hash = entry.hash();
        write!(text, " {hash}")?;
    }
    Ok(())
}

/// Appends a tuple sketch: its facts, and each hash and its summary in its order.
pub fn put_tuple_sketch<S: Display + Copy>(
    text: &mut String,
    sketch: &CompactTupleSketch<S>,
) -> Result<(), AllocError> {
    put_content(text, sketch.is_empty(), sketch.theta64())?;
    put_order(text, sketch.seed_hash(), sketch.is_ordered())?;
    for entry in sketch.iter() {
        let hash = entry.hash();
        let summary = *entry.summary();
        write!(text, " {hash}:{summary}")?;
    }
    Ok(())
}

/// Appends the image that a sketch is written as, or why it isn't.
fn put_written(
    text: &mut String,
    alloc: Global,
    written: Result<Vec<u8>, Error>,
) -> Result<(), AllocError> {
    text.push_str(" image ")?;
    match written {
        Ok(image) => {
            for digit in hex_line(alloc, &image)?.iter().take(2 * image.len()) {
                text.push(*digit as char)?;
            }
            Ok(())
        }
        Err(error) => put_refusal(text, error.kind()),
    }
}

/// Appends the theta sketch of an image and the image that it is written as, or why there is none.
pub fn put_theta(text: &mut String, alloc: Global, bytes: &[u8]) -> Result<(), AllocError> {
    match CompactThetaSketch::deserialize(alloc, bytes) {
        Ok(sketch) => {
            put_theta_sketch(text, &sketch)?;
            put_written(text, alloc, sketch.serialize())
        }
        Err(error) => put_refusal(text, error.kind()),
    }
}

/// Appends the tuple sketch of an image, with summaries of type `S`, and the image that it is written as, or why
/// there is none.
pub fn put_tuple<S: TupleSummaryValue<Global> + Display + Copy>(
    text: &mut String,
    alloc: Global,
    bytes: &[u8],
) -> Result<(), AllocError> {
    match CompactTupleSketch::<S>::deserialize(alloc, bytes) {
        Ok(sketch) => {
            put_tuple_sketch(text, &sketch)?;
            put_written(text, alloc, sketch.serialize())
        }
        Err(error) => put_refusal(text, error.kind()),
    }
}

/// Appends the kind of an error.
pub fn put_refusal(text: &mut String, kind: ErrorKind) -> Result<(), AllocError> {
    let word = match kind {
        ErrorKind::InvalidArgument => "argument",
        ErrorKind::InvalidData => "data",
        ErrorKind::OutOfMemory => "memory",
        ErrorKind::Policy => "policy",
        ErrorKind::Failed => "failed",
    };
    write!(text, "refused {word}")
}

/// Appends the flaw of bytes.
fn put_flaw(text: &mut String, flaw: Flaw) -> Result<(), AllocError> {
    let word = match flaw {
        Flaw::Hexadecimal => "hexadecimal",
        Flaw::Image(ImageFlaw::Short) => "short",
        Flaw::Image(ImageFlaw::Family(family)) => return write!(text, "family {family}"),
        Flaw::Image(ImageFlaw::Version(version)) => return write!(text, "version {version}"),
        Flaw::Image(ImageFlaw::BigEndian) => "big-endian",
        Flaw::Image(ImageFlaw::Seed) => "seed",
        Flaw::Image(ImageFlaw::Cut) => "cut",
        Flaw::Image(ImageFlaw::Longer) => "longer",
        Flaw::Image(ImageFlaw::Malformed) => "malformed",
        Flaw::Image(ImageFlaw::Theta) => "theta",
        Flaw::Image(ImageFlaw::Damaged) => "damaged",
    };
    text.push_str(word)
}

/// Appends what the preamble of bytes says: the length of the image, the number of its hashes, and the flaw for a
/// reader of the default seed.
pub fn put_preamble(text: &mut String, bytes: &[u8]) -> Result<(), AllocError> {
    match image_length(bytes) {
        Some(length) => write!(text, "{length} ")?,
        None => text.push_str("unknown ")?,
    }
    let count = entry_count(bytes);
    write!(text, "{count} ")?;
    put_flaw(text, flaw_of(bytes, SEED_HASH))
}
