//! What the preamble of an image says of files: how long the image is, how many entries it has, and why bytes are not one
//! image. The rules are those of the readers of `core_images`.
ghost use Rattle.std.specs.Prelude.{◌≡◌};
ghost use Rattle.keys_sketches.specs.Header.{image_length, entry_count, flaw_of, file_flaw, is_hexadecimal};
ghost use Rattle.keys_sketches.specs.Header.{sums_length, sums_count, sums_flaw_of};

use crate::hex::are_digits;
use core_images::{Flaw as ImageFlaw, count_of, flaw_of_image, length_of, theta_head, tuple_head};

/// Why bytes are not the image of one sketch, alone in its file or line, under a seed.
#[derive(Clone, Copy, Debug, PartialEq, Eq)]
pub enum Flaw {
    /// They begin with 16 hexadecimal digits, of either case. This is looked for first.
    Hexadecimal,
    /// The image has this flaw. `Damaged` is also the answer for bytes without a flaw.
    Image(ImageFlaw),
}

/// How many bytes an entry of an image of sums has: those of its hash and of its sum.
const SUM_SIZE: u16 = 16;

/// The length in bytes of the image of a theta sketch that the bytes begin with, by its preamble: from 8 to
/// 24 + 8 * (2^32 - 1). `None` if the bytes don't begin with the whole preamble of one.
///
/// Bytes that are read as a sketch have at least this length, and their prefix of this length is read as the same
/// sketch (`laws::image_begins`).
pub fn image_length(bytes: &[u8]) -> Option<u64>
    ensures { result ≡ image_length bytes.now }
{
    length_of(theta_head(bytes))
}

/// How many hashes the image of a theta sketch that the bytes begin with has, by its preamble: below 2^32, and 0 if
/// `image_length` is `None`.
///
/// Bytes that are read as a sketch have exactly this many hashes (`laws::entries_counted`).
pub fn entry_count(bytes: &[u8]) -> u64
    ensures { result ≡ entry_count bytes.now }
{
    count_of(theta_head(bytes))
}

/// Whether bytes begin with 16 hexadecimal digits.
fn is_hexadecimal(bytes: &[u8]) -> bool
    ensures { result ≡ is_hexadecimal bytes.now }
{
    16 <= bytes.len() && are_digits(&bytes[..16])
}

/// The flaw of bytes in a file, if that of their image is this one.
fn file_flaw(flaw: ImageFlaw, bytes: &[u8]) -> Flaw
    ensures { result ≡ file_flaw flaw bytes.now }
{
    if is_hexadecimal(bytes) {
        Flaw::Hexadecimal
    } else {
        Flaw::Image(flaw)
    }
}

/// Why the bytes are not the image of one theta sketch, for a reader of this seed hash. Call it for bytes that could
/// not be read, or that continue after their image: it reads only the preamble, so it doesn't find a flaw in the
/// hashes.
///
/// Bytes that are read under this seed hash have no other flaw than `BigEndian`, `Longer` or `Damaged`
/// (`laws::flawed_is_unread`).
pub fn flaw_of(bytes: &[u8], seed_hash: u16) -> Flaw
    ensures { result ≡ flaw_of seed_hash bytes.now }
{
    file_flaw(flaw_of_image(bytes, seed_hash, theta_head(bytes)), bytes)
}

/// The length in bytes of the image of sums that the bytes begin with, by its preamble: from 8 to
/// 24 + 16 * (2^32 - 1). `None` if the bytes don't begin with the whole preamble of one.
pub fn sums_length(bytes: &[u8]) -> Option<u64>
    ensures { result ≡ sums_length bytes.now }
{
    length_of(tuple_head(SUM_SIZE, bytes))
}

/// How many sums the image that the bytes begin with has, by its preamble: below 2^32, and 0 if `sums_length` is
/// `None`.
pub fn sums_count(bytes: &[u8]) -> u64
    ensures { result ≡ sums_count bytes.now }
{
    count_of(tuple_head(SUM_SIZE, bytes))
}

/// Why the bytes are not one image of sums, for a reader of this seed hash. Call it for bytes that could not be read,
/// or that continue after their image: it reads only the preamble.
pub fn sums_flaw_of(bytes: &[u8], seed_hash: u16) -> Flaw
    ensures { result ≡ sums_flaw_of seed_hash bytes.now }
{
    file_flaw(
        flaw_of_image(bytes, seed_hash, tuple_head(SUM_SIZE, bytes)),
        bytes,
    )
}
