//! What is shown of entries, of compact states and of views on the layers below sketches.
use crate::shown::put_viewed;
use std::alloc::{AllocError, Allocator, Global};
use theta_core::{CompactSketchState, SlotEntry, ThetaEntry, TupleEntry};

/// A hash, and its summary if it has one.
pub type Shown = (u64, Option<u64>);

/// An entry whose summary can be shown.
pub trait ShownEntry: SlotEntry + Drop {
    /// Its summary, if it has one.
    fn shown_summary(&self) -> Option<u64>;
}

impl ShownEntry for ThetaEntry {
    fn shown_summary(&self) -> Option<u64> {
        None
    }
}

impl ShownEntry for TupleEntry<u64> {
    fn shown_summary(&self) -> Option<u64> {
        Some(*self.summary())
    }
}

/// An entry as it is shown.
pub fn shown<E: ShownEntry>(entry: &E) -> Shown {
    (entry.hash(), entry.shown_summary())
}

/// Entries as they are shown, in their order.
pub fn shown_entries<E: ShownEntry>(
    plain: Global,
    entries: &[E],
) -> Result<Vec<Shown>, AllocError> {
    let mut list = Vec::new(plain);
    for entry in entries {
        list.push(shown(entry))?;
    }
    Ok(list)
}

/// Appends entries in square brackets.
pub fn put_entries(text: &mut String, entries: &[Shown]) -> Result<(), AllocError> {
    text.push('[')?;
    let mut is_first = true;
    for (hash, summary) in entries {
        if !is_first {
            text.push(' ')?;
        }
        is_first = false;
        let hash = *hash;
        write!(text, "{hash}")?;
        if let Some(summary) = *summary {
            write!(text, ":{summary}")?;
        }
    }
    text.push(']')
}

/// Appends a compact state, with its entries in their order, or ascending.
pub fn put_state<E: ShownEntry, A: Allocator>(
    text: &mut String,
    state: &CompactSketchState<E, A>,
    ascending: bool,
) -> Result<(), AllocError> {
    let mut entries = shown_entries(*text.allocator(), state.retained_entries())?;
    if ascending {
        entries.sort_unstable();
    }
    let count = entries.len();
    let seed_hash = state.seed_hash();
    put_viewed(
        text,
        state.is_empty(),
        state.theta(),
        count,
        seed_hash,
        state.is_ordered(),
    )?;
    text.push(' ')?;
    put_entries(text, entries.as_slice())
}

/// Appends a compact state that a call returned: the order of one that isn't ordered is unspecified.
pub fn put_answer<E: ShownEntry, A: Allocator>(
    text: &mut String,
    state: &CompactSketchState<E, A>,
) -> Result<(), AllocError> {
    put_state(text, state, !state.is_ordered())
}
