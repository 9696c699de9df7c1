//! `state` and `tuple_state`: compact states of hashes and of tuples.
use crate::state_calls::{mapped, put_allocated, put_view, read, write};
use crate::states::{NamedEntry, StateWords, state_of};
use calls_language::entries::{put_answer, put_state, shown};
use calls_language::object::{Call, Memory, Object};
use calls_language::words::{Fault, number};
use sketch_base::{Error, Family};
use std::alloc::{AllocError, Allocator, Global};
use theta_core::{CompactSketchState, SketchEntry, SketchView, ThetaEntry, TupleEntry};

impl NamedEntry for ThetaEntry {
    fn put_bytes(hash: u64, value: &str, bytes: &mut Vec<u8>) -> Result<(), Fault> {
        if !value.is_empty() {
            return Err(Fault::Unknown);
        }
        bytes.extend_from_slice(&hash.to_le_bytes())?;
        Ok(())
    }
}

impl NamedEntry for TupleEntry<u64> {
    fn put_bytes(hash: u64, value: &str, bytes: &mut Vec<u8>) -> Result<(), Fault> {
        bytes.extend_from_slice(&hash.to_le_bytes())?;
        bytes.extend_from_slice(&number(value)?.to_le_bytes())?;
        Ok(())
    }
}

/// A compact state of hashes.
#[derive(Drop)]
pub struct StateObject<A: Allocator> {
    alloc: A,
    state: CompactSketchState<ThetaEntry, A>,
}

/// Each hash of a state with a mark for its summary.
fn marked<A: Allocator + Clone>(
    state: CompactSketchState<ThetaEntry, A>,
    mark: u64,
) -> Result<CompactSketchState<TupleEntry<u64>, A>, Error> {
    state.map_retained_entries(move |entry| TupleEntry::of_hash(entry.hash(), mark))
}

/// Appends the view of a state of hashes.
fn put_view_of<A: Allocator>(
    answer: &mut String,
    state: &CompactSketchState<ThetaEntry, A>,
) -> Result<(), AllocError> {
    let view = SketchView::of_compact(state);
    let mut entries = Vec::new(*answer.allocator());
    for entry in view.iter() {
        entries.push((entry.hash(), None))?;
    }
    put_view(answer, view, entries.as_slice())
}

impl<A: Allocator + Copy + Drop> Object<A> for StateObject<A> {
    fn make(plain: Global, alloc: A, settings: &str) -> Result<Self, Fault> {
        let state = state_of(plain, alloc, StateWords::read(settings)?)?;
        Ok(StateObject { alloc, state })
    }

    fn call(
        &mut self,
        memory: Memory<'_>,
        call: Call<'_>,
        answer: &mut String,
    ) -> Result<(), Fault> {
        let state = &self.state;
        if read(state, call, answer)? || write(self.alloc, state, Family::THETA, 0, call, answer)? {
            return Ok(());
        }
        match (call.verb, call.argument) {
            ("view", "") => put_view_of(answer, state)?,
            ("allocator", "") => put_allocated(answer, state)?,
            ("map", mark) => {
                let mark = number(mark)?;
                memory.pause();
                let copy = state.clone()?;
                memory.refuse();
                put_answer(answer, &marked(copy, mark)?)?;
            }
            ("clone", "") => {
                self.state = state.clone()?;
                answer.push_str("ok")?;
            }
            ("map_same", "") => {
                self.state = mapped(memory, state)?;
                answer.push_str("ok")?;
            }
            _ => return Err(Fault::Unknown),
        }
        Ok(())
    }

    fn see(&self, text: &mut String) -> Result<(), Fault> {
        put_state(text, &self.state, false)?;
        Ok(())
    }
}

/// A compact state of tuples.
#[derive(Drop)]
pub struct TupleStateObject<A: Allocator> {
    alloc: A,
    state: CompactSketchState<TupleEntry<u64>, A>,
}

/// Appends the view of a state of tuples.
fn put_tuple_view<A: Allocator>(
    answer: &mut String,
    state: &CompactSketchState<TupleEntry<u64>, A>,
) -> Result<(), AllocError> {
    let view = SketchView::of_compact(state);
    let mut entries = Vec::new(*answer.allocator());
    for entry in view.iter() {
        entries.push(shown(entry))?;
    }
    put_view(answer, view, entries.as_slice())
}

impl<A: Allocator + Copy + Drop> Object<A> for TupleStateObject<A> {
    fn make(plain: Global, alloc: A, settings: &str) -> Result<Self, Fault> {
        let state = state_of(plain, alloc, StateWords::read(settings)?)?;
        Ok(TupleStateObject { alloc, state })
    }

    fn call(
        &mut self,
        memory: Memory<'_>,
        call: Call<'_>,
        answer: &mut String,
    ) -> Result<(), Fault> {
        let state = &self.state;
        if read(state, call, answer)? || write(self.alloc, state, Family::TUPLE, 1, call, answer)? {
            return Ok(());
        }
        match (call.verb, call.argument) {
            ("view", "") => put_tuple_view(answer, state)?,
            ("allocator", "") => put_allocated(answer, state)?,
            ("clone", "") => {
                self.state = state.clone()?;
                answer.push_str("ok")?;
            }
            ("map_same", "") => {
                self.state = mapped(memory, state)?;
                answer.push_str("ok")?;
            }
            _ => return Err(Fault::Unknown),
        }
        Ok(())
    }

    fn see(&self, text: &mut String) -> Result<(), Fault> {
        put_state(text, &self.state, false)?;
        Ok(())
    }
}
