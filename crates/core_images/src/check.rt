//! Checks of the entries of an image.
ghost use Rattle.std.specs.Prelude.{◌≡◌, ◌≢◌, None, true, IfOk, AllPairs, map};
ghost use Rattle.std.specs.Bool.{Decides};
ghost use Rattle.core_images.specs.Check.{AreHashes, ascends_from, are_below};
ghost use Rattle.core_laws.specs.Refusal.{Refuses};

use core_laws::SketchEntry;
use sketch_base::Error;
use std::alloc::Allocator;

/// Whether each hash is above the one before it, and the first above 0. It reads all hashes without a branch, so that
/// it can become vector code.
pub(crate) fn ascends_from_zero<E: SketchEntry>(entries: &[E]) -> bool
    ensures { result ≡ ascends_from 0 (map E.key entries.now) }
{
    let mut last = 0;
    let mut ascends = true;
    for entry in entries {
        let hash = entry.hash();
        ascends = ascends & (last < hash);
        last = hash;
    }
    ascends
}

/// Whether each hash is below theta, of entries that ascend from 0: tests the last.
fn is_last_below<E: SketchEntry>(entries: &[E], theta: u64) -> bool
    requires { ascends_from 0 (map E.key entries.now) ≡ true }
    ensures { result ≡ are_below theta (map E.key entries.now) }
{
    match entries.last() {
        None => true,
        Some(entry) => entry.hash() < theta,
    }
}

/// Whether each hash is from 1 to below theta.
fn are_below<E: SketchEntry>(entries: &[E], theta: u64) -> bool
    ensures { result ≡ are_below theta (map E.key entries.now) }
{
    for entry in entries {
        let hash = entry.hash();
        if hash == 0 || hash >= theta {
            return false;
        }
    }
    true
}

/// The hashes of entries.
fn hashes_of<E: SketchEntry, A: Allocator>(alloc: A, entries: &[E]) -> Result<Vec<u64, A>, Error>
    ensures ok { IfOk result (λ v. v.items ≡ map E.key entries.now) }
    ensures refused { Refuses result None true }
{
    let mut hashes = Vec::with_capacity(alloc, entries.len())?;
    for entry in entries {
        hashes.push(entry.hash())?;
    }
    Ok(hashes)
}

/// Whether all hashes are distinct.
fn are_distinct<E: SketchEntry, A: Allocator + Drop>(alloc: A, entries: &[E]) -> Result<bool, Error>
    ensures ok { IfOk result (λ b. Decides b (AllPairs (λ x y. x ≢ y) (map E.key entries.now))) }
    ensures refused { Refuses result None true }
{
    let mut hashes = hashes_of(alloc, entries)?;
    hashes.sort_unstable();
    Ok(hashes.is_sorted_by(|hash, next| hash < next))
}

/// Whether the hashes are distinct and from 1 to below theta, and ascend if `ordered` is true; `ascends` is whether
/// they ascend from above 0. It allocates only if they don't.
pub(crate) fn are_entries<E: SketchEntry, A: Allocator + Drop>(
    alloc: A,
    entries: &[E],
    theta: u64,
    ordered: bool,
    ascends: bool,
) -> Result<bool, Error>
    requires { ascends ≡ ascends_from 0 (map E.key entries.now) }
    ensures ok { IfOk result (λ b. Decides b (AreHashes theta ordered (map E.key entries.now))) }
    ensures refused { Refuses result None true }
{
    if ascends {
        return Ok(is_last_below(entries, theta));
    }
    if ordered {
        return Ok(false);
    }
    if !are_below(entries, theta) {
        return Ok(false);
    }
    are_distinct(alloc, entries)
}
