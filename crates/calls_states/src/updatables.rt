//! `updatable`: a state of hashes that takes updates.
use crate::state_calls::put_view;
use calls_language::arguments::{hex_of, put_number, put_truth};
use calls_language::entries::{Shown, put_answer, put_entries, shown};
use calls_language::object::{Call, Left, Memory, Object};
use calls_language::series::hashes_of;
use calls_language::settings::{Settings as Words, settings_of};
use calls_language::shown::{places_of, put_decimal, put_viewed};
use calls_language::words::{Fault, list_of, number, order_flag};
use std::alloc::{AllocError, Allocator, Global};
use theta_core::{PutStep, SketchView, ThetaEntry, UpdatableState};

/// A state of hashes that takes updates.
#[derive(Drop)]
pub struct UpdatableObject<A: Allocator> {
    state: UpdatableState<ThetaEntry, A>,
}

/// The hash of a key under the seed of a state.
fn hash_key<A: Allocator>(
    plain: Global,
    state: &UpdatableState<ThetaEntry, A>,
    key: &str,
) -> Result<u64, Fault> {
    match key.split_once(':') {
        Some(("text", text)) => Ok(state.hash(text)),
        Some(("u64", value)) => Ok(state.hash(number(value)?)),
        Some(("i32", value)) => Ok(state.hash(value.parse::<i32>().map_err(|_| Fault::Unknown)?)),
        Some(("bytes", digits)) => Ok(state.hash(hex_of(plain, digits)?.as_slice())),
        _ => Err(Fault::Unknown),
    }
}

/// The entries of a state, ascending.
fn entries_of<A: Allocator>(
    plain: Global,
    state: &UpdatableState<ThetaEntry, A>,
) -> Result<Vec<Shown>, AllocError> {
    let mut list = Vec::new(plain);
    for entry in state.entries() {
        list.push(shown(entry))?;
    }
    list.sort_unstable();
    Ok(list)
}

/// Appends all that can be seen of a state.
fn put_seen<A: Allocator>(
    text: &mut String,
    state: &UpdatableState<ThetaEntry, A>,
) -> Result<(), AllocError> {
    let count = state.num_retained();
    put_viewed(
        text,
        state.is_empty(),
        state.theta64(),
        count,
        state.seed_hash(),
        false,
    )?;
    text.push(' ')?;
    put_entries(text, entries_of(*text.allocator(), state)?.as_slice())
}

/// Appends the view of a state.
fn put_view_of<A: Allocator>(
    answer: &mut String,
    state: &UpdatableState<ThetaEntry, A>,
) -> Result<(), AllocError> {
    let view = SketchView::of_state(state);
    let mut entries = Vec::new(*answer.allocator());
    for entry in view.iter() {
        entries.push((entry.hash(), None))?;
    }
    put_view(answer, view, entries.as_slice())
}

impl<A: Allocator + Copy + Drop> UpdatableObject<A> {
    /// Makes a call that changes the state; returns whether the call is one.
    fn change(&mut self, plain: Global, call: Call<'_>) -> Result<bool, Fault> {
        let state = &mut self.state;
        match (call.verb, call.argument) {
            ("insert", hash) => state.insert_hash(number(hash)?)?,
            ("upsert", hash) => {
                let hash = number(hash)?;
                state.upsert(hash, PutStep::new(ThetaEntry::of_hash(hash)))?;
            }
            ("insert_all", list) => {
                state.insert_hashes(hashes_of(plain, list_of(list)?)?.as_slice())?;
            }
            ("trim", "") => state.trim()?,
            ("reset", "") => state.reset(),
            ("clone", "") => *state = state.clone()?,
            _ => return Ok(false),
        }
        Ok(true)
    }

    /// Makes a call that reads a number or a fact; returns whether the call is one.
    fn read(&self, call: Call<'_>, answer: &mut String) -> Result<bool, Fault> {
        let state = &self.state;
        match (call.verb, call.argument) {
            ("empty", "") => put_truth(answer, state.is_empty())?,
            ("estimating", "") => put_truth(answer, state.is_estimation_mode())?,
            ("theta", "") => put_number(answer, state.theta64())?,
            ("count", "") => put_number(answer, state.num_retained() as u64)?,
            ("lg_k", "") => put_number(answer, state.lg_k() as u64)?,
            ("seed_hash", "") => put_number(answer, state.seed_hash() as u64)?,
            ("size", "") => put_number(answer, state.estimated_size() as u64)?,
            ("fraction", "") => {
                let (count, theta) = state.estimate_fraction();
                write!(answer, "{count}/{theta}")?;
            }
            ("decimal", places) => {
                put_decimal(answer, state.estimate_decimal(places_of(places)?))?;
            }
            _ => return Ok(false),
        }
        Ok(true)
    }
}

impl<A: Allocator + Copy + Drop> Object<A> for UpdatableObject<A> {
    fn make(_plain: Global, alloc: A, settings: &str) -> Result<Self, Fault> {
        let settings = settings_of(Words::read(settings, ' ')?);
        let state = UpdatableState::new(alloc, settings)?;
        Ok(UpdatableObject { state })
    }

    fn call(
        &mut self,
        memory: Memory<'_>,
        call: Call<'_>,
        answer: &mut String,
    ) -> Result<(), Fault> {
        if self.change(memory.plain(), call)? {
            answer.push_str("ok")?;
            return Ok(());
        }
        if self.read(call, answer)? {
            return Ok(());
        }
        match (call.verb, call.argument) {
            ("compact", order) => put_answer(answer, &self.state.compact(order_flag(order)?)?)?,
            ("hash", key) => put_number(answer, hash_key(memory.plain(), &self.state, key)?)?,
            ("view", "") => put_view_of(answer, &self.state)?,
            ("see", "") => put_seen(answer, &self.state)?,
            _ => return Err(Fault::Unknown),
        }
        Ok(())
    }

    fn see(&self, text: &mut String) -> Result<(), Fault> {
        put_seen(text, &self.state)?;
        Ok(())
    }

    fn left_by(verb: &str) -> Left {
        if verb == "insert_all" {
            Left::Beginning
        } else {
            Left::Unchanged
        }
    }
}
