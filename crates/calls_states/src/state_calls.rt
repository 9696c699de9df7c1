//! Calls on compact states of any entry.
ghost use Rattle.core_laws.specs.Entries.{ClonesEqual};

use calls_language::arguments::{put_hex, put_number, put_truth, room_of};
use calls_language::entries::{Shown, ShownEntry, put_entries, put_state, shown};
use calls_language::object::{Call, Memory};
use calls_language::shown::{places_of, put_decimal, put_metadata, put_same, put_viewed};
use calls_language::words::{Fault, number};
use sketch_base::{Error, Family};
use std::alloc::{AllocError, Allocator};
use theta_core::image::{ImageEntry, image_preamble, write_image, write_image_with_capacity};
use theta_core::{
    CompactSketchState, EntryIter, EntrySketch, HashIter, KeySketch, SketchView, compact_decimal,
    compact_fraction,
};

/// Goes through the entries of a state, and appends how many there are.
fn put_iterated<E: ShownEntry, A: Allocator>(
    answer: &mut String,
    state: &CompactSketchState<E, A>,
) -> Result<(), AllocError> {
    let count = state.retained_entries().len();
    let mut entries = EntryIter::of_slice(state.retained_entries());
    let mut seen = 0usize;
    let mut is_hint = true;
    for left in (0..=count).rev() {
        is_hint = is_hint && entries.size_hint() == (left, Some(left));
        if entries.next().is_none() {
            break;
        }
        seen = seen.saturating_add(1);
    }
    write!(answer, "{seen}")?;
    if is_hint {
        Ok(())
    } else {
        answer.push_str(" hint")
    }
}

/// Goes through the hashes of a state, and appends how many there are.
fn put_hashes<E: ShownEntry, A: Allocator>(
    answer: &mut String,
    state: &CompactSketchState<E, A>,
) -> Result<(), AllocError> {
    let count = state.retained_entries().len();
    let mut hashes = HashIter::new(EntryIter::of_slice(state.retained_entries()));
    let mut seen = 0usize;
    let mut is_hint = true;
    for left in (0..=count).rev() {
        is_hint = is_hint && hashes.size_hint() == (left, Some(left));
        if hashes.next().is_none() {
            break;
        }
        seen = seen.saturating_add(1);
    }
    write!(answer, "{seen}")?;
    if is_hint {
        Ok(())
    } else {
        answer.push_str(" hint")
    }
}

/// The entries that are left of an iterator over a state's entries, after its first one, as a slice.
fn rest_of<E: ShownEntry, A: Allocator>(state: &CompactSketchState<E, A>) -> Option<usize> {
    let mut entries = EntryIter::of_slice(state.retained_entries());
    let _first = entries.next();
    entries.as_slice().map(|left| left.len())
}

/// How many entries are left behind those in front that aren't below theta.
fn passed<E: ShownEntry, A: Allocator>(state: &CompactSketchState<E, A>, theta: u64) -> u64 {
    let mut entries = EntryIter::of_slice(state.retained_entries());
    entries.pass_to_below(theta);
    let mut left = 0u64;
    for _ in 0..=state.retained_entries().len() {
        if entries.next().is_none() {
            break;
        }
        left = left.saturating_add(1);
    }
    left
}

/// Appends `ok` if a state has room for its entries.
fn put_capacity<E: ShownEntry, A: Allocator>(
    answer: &mut String,
    state: &CompactSketchState<E, A>,
) -> Result<(), AllocError> {
    let has_room = state.retained_entries().len() <= state.retained_entries_capacity();
    answer.push_str(if has_room { "ok" } else { "few" })
}

/// Makes a call that reads a state; returns whether the call is one.
pub fn read<E: ShownEntry, A: Allocator>(
    state: &CompactSketchState<E, A>,
    call: Call<'_>,
    answer: &mut String,
) -> Result<bool, Fault> {
    match (call.verb, call.argument) {
        ("estimating", "") => put_truth(answer, state.is_estimation_mode())?,
        ("capacity", "") => put_capacity(answer, state)?,
        ("iterate", "") => put_iterated(answer, state)?,
        ("hashes", "") => put_hashes(answer, state)?,
        ("pass", theta) => put_number(answer, passed(state, number(theta)?))?,
        ("rest", "") => put_number(answer, rest_of(state).unwrap_or(0) as u64)?,
        ("fraction", "") => {
            let (count, theta) = compact_fraction(state);
            write!(answer, "{count}/{theta}")?;
        }
        ("decimal", places) => put_decimal(answer, compact_decimal(state, places_of(places)?))?,
        ("see", "") => put_state(answer, state, false)?,
        _ => return Ok(false),
    }
    Ok(true)
}

/// Makes a call that writes the image of a state; returns whether the call is one.
pub fn write<E: ShownEntry + ImageEntry<A>, A: Allocator + Copy + Drop>(
    alloc: A,
    state: &CompactSketchState<E, A>,
    family: Family,
    kind: u8,
    call: Call<'_>,
    answer: &mut String,
) -> Result<bool, Fault> {
    let image = match (call.verb, call.argument) {
        ("image", "") => write_image(alloc, state, family, kind)?,
        ("preamble", "") => {
            let (bytes, length) = image_preamble(state, family, kind);
            put_hex(answer, &bytes[..length])?;
            return Ok(true);
        }
        ("image_with", room) => {
            write_image_with_capacity(alloc, state, family, kind, room_of(room)?)?
        }
        _ => return Ok(false),
    };
    put_hex(answer, image.as_slice())?;
    Ok(true)
}

/// Requests memory of a state's allocator.
pub fn put_allocated<E: ShownEntry, A: Allocator + Clone>(
    answer: &mut String,
    state: &CompactSketchState<E, A>,
) -> Result<(), Fault> {
    let own = state.allocator().clone().map_err(Error::from)?;
    let bytes: Vec<u8, A> = Vec::with_capacity(own, 1).map_err(Error::from)?;
    put_number(answer, bytes.len() as u64)?;
    Ok(())
}

/// The state with each entry replaced by itself.
pub fn mapped<E: ShownEntry + Clone, A: Allocator + Clone>(
    memory: Memory<'_>,
    state: &CompactSketchState<E, A>,
) -> Result<CompactSketchState<E, A>, Fault>
    requires clones_equal { ClonesEqual E.is_clone }
{
    memory.pause();
    let copy = state.clone()?;
    memory.refuse();
    Ok(copy.map_retained_entries(|entry| entry)?)
}

/// Appends a view with these entries, and whether its other ways to list them agree.
pub fn put_view<'v, E: ShownEntry, A: Allocator>(
    text: &mut String,
    view: SketchView<'v, E, A>,
    entries: &[Shown],
) -> Result<(), AllocError>
where
    E::Slot: 'v,
{
    let ordered = view.is_ordered();
    put_viewed(
        text,
        view.is_empty(),
        view.theta64(),
        view.num_retained(),
        view.seed_hash(),
        ordered,
    )?;
    text.push(' ')?;
    let mut listed = Vec::from_clones(*text.allocator(), entries)?;
    if !ordered {
        listed.sort_unstable();
    }
    put_entries(text, listed.as_slice())?;
    put_metadata(text, view.metadata())?;
    put_same(text, lists(view, entries))
}

/// Whether a view lists these entries, by its `entries` and by its `hashes`.
fn lists<'v, E: ShownEntry, A: Allocator>(view: SketchView<'v, E, A>, wanted: &[Shown]) -> bool
where
    E::Slot: 'v,
{
    let mut hashes = view.hashes();
    let mut entries = view.entries();
    for listed in wanted {
        let (hash, _) = *listed;
        let is_next = match entries.next() {
            Some(entry) => shown(entry) == *listed,
            None => false,
        };
        if !is_next || hashes.next() != Some(hash) {
            return false;
        }
    }
    hashes.next().is_none() && entries.next().is_none()
}
