//! Reading images.
ghost use Rattle.std.specs.Prelude.{◌≡◌, Ok, Err};
ghost use Rattle.core_images.specs.Head.{IsWholeLayout, flaw_of_layout};
ghost use Rattle.core_images.specs.Read.{ReadsState, LeavesOpen, ReadsOrFlawed, error_of};

use crate::check::are_entries;
use crate::entry::ImageEntry;
use crate::flaw::{Flaw, ReadError};
use crate::head::flaw_of_layout;
use crate::preamble::ImageLayout;
use core_compact::CompactSketchState;
use sketch_base::{Error, ErrorKind};
use std::alloc::Allocator;

/// Reads the state that the bytes spell by this layout, under the reader's seed hash. Refused with `InvalidData` only
/// if they spell none, and with `OutOfMemory`.
fn read_state<E: ImageEntry<A> + Drop, A: Allocator + Clone + Drop>(
    alloc: A,
    bytes: &[u8],
    layout: Result<ImageLayout, Flaw>,
    seed_hash: u16,
) -> Result<CompactSketchState<E, A>, Error>
    requires { IsWholeLayout bytes.now layout }
    ensures { ReadsState (LeavesOpen E.key E.spells bytes.now seed_hash layout) result }
{
    match layout {
        Err(_) => Err(Error::new(ErrorKind::InvalidData)),
        Ok(ImageLayout::Empty) => Ok(CompactSketchState::empty(alloc, seed_hash)),
        Ok(ImageLayout::Filled(p)) => {
            let (_, rest) = bytes.split_at(p.start);
            let (entries, ascends) = E::read_and_compare(alloc.clone()?, rest, p.count)?;
            if are_entries(alloc, &entries, p.theta, p.ordered, ascends)? {
                Ok(CompactSketchState::non_empty(entries, p.theta, seed_hash, p.ordered))
            } else {
                Err(Error::new(ErrorKind::InvalidData))
            }
        }
    }
}

/// Why bytes with this flaw were not read, by the error of reading them.
fn error_of(flaw: Flaw, error: Error) -> ReadError
    ensures { result ≡ error_of flaw error }
{
    match error.kind() {
        ErrorKind::InvalidData => ReadError::Flawed(flaw),
        _ => ReadError::OutOfMemory,
    }
}

/// Reads the state that the bytes spell by this layout, under the reader's seed hash. If they spell none, it returns
/// their first flaw, unless memory is refused before it is found. Besides what entries allocate themselves, it
/// allocates room for at most one entry per eight bytes, and eight bytes per entry to compare hashes that don't
/// ascend.
pub fn read_after_preamble<E: ImageEntry<A> + Drop, A: Allocator + Clone + Drop>(
    alloc: A,
    bytes: &[u8],
    layout: Result<ImageLayout, Flaw>,
    seed_hash: u16,
) -> Result<CompactSketchState<E, A>, ReadError>
    requires { IsWholeLayout bytes.now layout }
    ensures { ReadsOrFlawed (LeavesOpen E.key E.spells bytes.now seed_hash layout) (flaw_of_layout bytes.now layout) result }
{
    match read_state(alloc, bytes, layout, seed_hash) {
        Ok(state) => Ok(state),
        Err(error) => Err(error_of(flaw_of_layout(bytes, layout), error)),
    }
}
