//! Buffers of the caller.
ghost use Rattle.c_objects.specs.Buffer.{IsPut, Writes, IsImageMade, IsImageRefused};

use crate::status::{OK, TOO_SMALL};

/// Copies bytes to the front of a buffer if it has room for them, and writes how many they are. The status is `OK`,
/// or `TOO_SMALL` if they don't fit.
pub fn put(bytes: &[u8], out: &mut [u8], length: &mut u64) -> u32
    ensures { IsPut bytes.now out.old result out.new length.new }
{
    let count = bytes.len();
    *length = count as u64;
    if out.len() < count {
        return TOO_SMALL;
    }
    out[..count].copy_from_slice(bytes);
    OK
}

/// Puts an image into a buffer, as `put` does, or returns the status with which the image was refused.
pub fn put_made(made: Result<Vec<u8>, u32>, out: &mut [u8], length: &mut u64) -> u32
    ensures { Writes (IsImageMade made) (IsImageRefused made) out.old length.old result out.new length.new }
{
    match made {
        Ok(image) => put(image.as_slice(), out, length),
        Err(status) => status,
    }
}
