//! Texts that come in pieces, whose lines update a theta sketch.
ghost use Rattle.std.specs.Prelude.{◌≡◌, None};
ghost use Rattle.c_handles.specs.Calls.{OnBoth, Fills};
ghost use Rattle.c_objects.specs.Status.{IsMemoryRefusal};
ghost use Rattle.c_objects.specs.Texts.{IsNewText, UpdatesText, EndsText};

use c_handles::handles::{TextHandle, ThetaHandle};
use c_objects::status::INVALID_ARGUMENT;
use c_objects::texts::{end_text, new_text, update_text};
use std::alloc::Global;

/// Begins a text and puts it into a handle. Its lines are hashed whole, without the LF that ends each, under this
/// seed.
///
/// Refused with `INVALID_ARGUMENT` if the handle has a text already, and with `OUT_OF_MEMORY`; then the handle is as
/// before.
#[unsafe(no_mangle)]
pub extern "C" fn kcp_text_new(alloc: Global, text: &mut TextHandle, seed: u64) -> u32
    ensures { Fills (IsNewText seed) IsMemoryRefusal text.old.value result text.new.value }
{
    text.owned().put_or(alloc, Ok(new_text(seed)))
}

/// Frees the text of a handle. A handle without one stays as it is.
#[unsafe(no_mangle)]
pub extern "C" fn kcp_text_free(alloc: Global, text: &mut TextHandle)
    ensures { text.new.value ≡ None }
{
    text.owned().free(alloc);
}

/// Updates a sketch with the lines that end in the next piece of a text, each by its hash. A text may be cut into
/// pieces anywhere, also within a line: the text keeps the state of its open line's hash. Once the text is ended,
/// exactly the lines of all its pieces have been inserted, as `kcp_theta_update_bytes` inserts each. Other updates
/// may come in between.
///
/// Refused with `INVALID_ARGUMENT` if a handle has no object or the text is of another seed than the sketch; then
/// nothing has changed. Refused with `OUT_OF_MEMORY`; then exactly some first lines of the piece have been inserted,
/// perhaps none, the text is as before, and the same call may be repeated.
#[unsafe(no_mangle)]
pub extern "C" fn kcp_theta_update_text(
    sketch: &mut ThetaHandle,
    text: &mut TextHandle,
    piece: &[u8],
) -> u32
    ensures { OnBoth (UpdatesText piece.now) text.old.value sketch.old.value result text.new.value sketch.new.value }
{
    match text.owned().get() {
        Some(open) => match sketch.owned().get() {
            Some(theta) => update_text(theta, open, piece),
            None => INVALID_ARGUMENT,
        },
        None => INVALID_ARGUMENT,
    }
}

/// Ends a text: updates the sketch with a last line that no LF ends, if it has a byte. The handle is then ready for
/// another text.
///
/// Refused with `INVALID_ARGUMENT` if a handle has no object or the text is of another seed than the sketch, and with
/// `OUT_OF_MEMORY`; then nothing has changed, and the same call may be repeated.
#[unsafe(no_mangle)]
pub extern "C" fn kcp_theta_end_text(sketch: &mut ThetaHandle, text: &mut TextHandle) -> u32
    ensures { OnBoth EndsText text.old.value sketch.old.value result text.new.value sketch.new.value }
{
    match text.owned().get() {
        Some(open) => match sketch.owned().get() {
            Some(theta) => end_text(theta, open),
            None => INVALID_ARGUMENT,
        },
        None => INVALID_ARGUMENT,
    }
}
