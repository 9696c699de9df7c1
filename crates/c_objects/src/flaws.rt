//! Why bytes are not read as an image, for C. The header of C has these numbers and comments
//! (`bindings/c/make_calls.py`).
ghost use Rattle.std.specs.Prelude.{◌≡◌};
ghost use Rattle.c_objects.specs.Flaws.{reason_of, found_byte, IsFinding, IsThetaFinding};
ghost use Rattle.c_objects.specs.Flaws.{IsSumsFinding, WritesThetaFlaw, WritesSumsFlaw};

use crate::status::{INVALID_ARGUMENT, OK};
use core_images::reader_seed_hash;
use keys_sketches::{Flaw, ImageFlaw, flaw_of, image_length, sums_flaw_of, sums_length};
use sketch_base::{ErrorKind, compute_seed_hash};

/// They begin with 16 hexadecimal digits: turn the digits into bytes.
pub const FLAW_HEXADECIMAL: u32 = 1;

/// There are fewer than eight bytes.
pub const FLAW_SHORT: u32 = 2;

/// The image is of another family of sketches, which is `found`: 3 is that of theta sketches, 9 of tuple sketches.
pub const FLAW_FAMILY: u32 = 3;

/// The image is of a version that is not read, which is `found`; version 4 is compressed.
pub const FLAW_VERSION: u32 = 4;

/// The image is flagged as one of numbers with the highest byte first.
pub const FLAW_BIG_ENDIAN: u32 = 5;

/// The image has another seed hash, and is not that of an empty sketch.
pub const FLAW_SEED: u32 = 6;

/// The image is longer than the bytes, or they end within its preamble.
pub const FLAW_CUT: u32 = 7;

/// Bytes follow the image.
pub const FLAW_LONGER: u32 = 8;

/// The hashes or the summaries are not valid; it is also written for bytes without a flaw.
pub const FLAW_DAMAGED: u32 = 9;

/// The preamble has not 1 to 3 longs, or the image is of a sketch type that is not read.
pub const FLAW_MALFORMED: u32 = 10;

/// Theta is 0 or greater than 2^63 - 1.
pub const FLAW_THETA: u32 = 11;

/// What the preamble of bytes says of the image that they begin.
#[repr(C)]
#[derive(Clone, Copy)]
pub struct Finding {
    /// Why they are not one image, from 1 to 11: the first of the flaws that applies.
    pub flaw: u32,
    /// The byte of the family or of the version that is at fault; else 0.
    pub found: u32,
    /// How many bytes the image has by its preamble, at least 8; 0 if that isn't known.
    pub length: u64,
}

/// The number of a flaw.
fn reason_of(flaw: Flaw) -> u32
    ensures { result ≡ reason_of flaw }
{
    match flaw {
        Flaw::Hexadecimal => FLAW_HEXADECIMAL,
        Flaw::Image(ImageFlaw::Short) => FLAW_SHORT,
        Flaw::Image(ImageFlaw::Family(_)) => FLAW_FAMILY,
        Flaw::Image(ImageFlaw::Version(_)) => FLAW_VERSION,
        Flaw::Image(ImageFlaw::BigEndian) => FLAW_BIG_ENDIAN,
        Flaw::Image(ImageFlaw::Seed) => FLAW_SEED,
        Flaw::Image(ImageFlaw::Cut) => FLAW_CUT,
        Flaw::Image(ImageFlaw::Longer) => FLAW_LONGER,
        Flaw::Image(ImageFlaw::Damaged) => FLAW_DAMAGED,
        Flaw::Image(ImageFlaw::Malformed) => FLAW_MALFORMED,
        Flaw::Image(ImageFlaw::Theta) => FLAW_THETA,
    }
}

/// The byte that a flaw names.
fn found_byte(flaw: Flaw) -> u32
    ensures { result ≡ found_byte flaw }
{
    match flaw {
        Flaw::Image(ImageFlaw::Family(byte)) => byte as u32,
        Flaw::Image(ImageFlaw::Version(byte)) => byte as u32,
        _ => 0,
    }
}

pub(crate) fn finding_of(flaw: Flaw, length: Option<u64>) -> Finding
    ensures { IsFinding flaw length result }
{
    Finding {
        flaw: reason_of(flaw),
        found: found_byte(flaw),
        length: length.unwrap_or(0),
    }
}

/// Why bytes are not the image of one theta sketch of this seed, by their preamble.
pub(crate) fn theta_finding(image: &[u8], seed: u64) -> Finding
    ensures { IsThetaFinding image.now seed result }
{
    finding_of(flaw_of(image, reader_seed_hash(seed)), image_length(image))
}

/// The same of an image of sums.
pub(crate) fn sums_finding(image: &[u8], seed: u64) -> Finding
    ensures { IsSumsFinding image.now seed result }
{
    finding_of(
        sums_flaw_of(image, reader_seed_hash(seed)),
        sums_length(image),
    )
}

/// Writes what the preamble of an image of a theta sketch says, for a reader of this seed. The status is `OK`, or
/// `INVALID_ARGUMENT` if the hash of the seed is 0.
pub fn put_flaw(image: &[u8], seed: u64, out: &mut Finding) -> u32
    ensures { WritesThetaFlaw image.now seed out.old result out.new }
{
    match compute_seed_hash(seed, ErrorKind::InvalidArgument) {
        Ok(hash) => {
            *out = finding_of(flaw_of(image, hash), image_length(image));
            OK
        }
        Err(_) => INVALID_ARGUMENT,
    }
}

/// The same of an image of sums.
pub fn put_sums_flaw(image: &[u8], seed: u64, out: &mut Finding) -> u32
    ensures { WritesSumsFlaw image.now seed out.old result out.new }
{
    match compute_seed_hash(seed, ErrorKind::InvalidArgument) {
        Ok(hash) => {
            *out = finding_of(sums_flaw_of(image, hash), sums_length(image));
            OK
        }
        Err(_) => INVALID_ARGUMENT,
    }
}
