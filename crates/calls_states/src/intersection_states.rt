//! `intersection_state` and `tuple_intersection_state`: the states of intersections.
ghost use Rattle.core_laws.specs.Entries.{ClonesEqual};

use crate::keeping::Keeping;
use crate::state_operands::{SteppedEntry, operand_of};
use calls_language::arguments::{put_number, put_truth};
use calls_language::entries::{put_answer, put_state};
use calls_language::object::{Call, Memory, Object};
use calls_language::settings::seed_alone;
use calls_language::words::{Fault, order_flag};
use sketch_base::DEFAULT_UPDATE_SEED;
use std::alloc::{Allocator, Global};
use theta_core::{
    DefaultUnionPolicy, IntersectionMergePolicy, IntersectionState, ThetaEntry, TupleEntry,
};

/// The state of an intersection under the seed of settings.
fn state_of<E: SteppedEntry, P: Drop, A: Allocator + Drop>(
    alloc: A,
    settings: &str,
    policy: P,
) -> Result<IntersectionState<E, P, A>, Fault> {
    let seed = seed_alone(settings)?.unwrap_or(DEFAULT_UPDATE_SEED);
    Ok(IntersectionState::new(alloc, seed, policy)?)
}

/// Appends all that can be seen of the state of an intersection.
fn put_seen<E: SteppedEntry, P: IntersectionMergePolicy<E> + Drop, A: Allocator + Clone>(
    text: &mut String,
    intersection: &IntersectionState<E, P, A>,
) -> Result<(), Fault>
    requires clones_equal { ClonesEqual E.is_clone }
{
    match intersection.to_compact_sketch_state(true)? {
        Some(state) => put_state(text, &state, false)?,
        None => text.push_str("none")?,
    }
    Ok(())
}

/// Merges an operand.
fn update<E: SteppedEntry, P: IntersectionMergePolicy<E> + Drop, A: Allocator + Clone>(
    memory: Memory<'_>,
    intersection: &mut IntersectionState<E, P, A>,
    word: &str,
) -> Result<(), Fault>
    requires clones_equal { ClonesEqual E.is_clone }
{
    memory.pause();
    let operand = operand_of::<E>(memory.plain(), word)?;
    memory.refuse();
    intersection.update(operand.view())?;
    Ok(())
}

/// Makes a call on the state of an intersection.
fn call_intersection<E: SteppedEntry, P: IntersectionMergePolicy<E> + Drop, A: Allocator + Clone>(
    memory: Memory<'_>,
    intersection: &mut IntersectionState<E, P, A>,
    call: Call<'_>,
    answer: &mut String,
) -> Result<(), Fault>
    requires clones_equal { ClonesEqual E.is_clone }
{
    match (call.verb, call.argument) {
        ("update", word) => {
            update(memory, intersection, word)?;
            answer.push_str("ok")?;
        }
        ("has_result", "") => put_truth(answer, intersection.has_result())?,
        ("state", order) => match intersection.to_compact_sketch_state(order_flag(order)?)? {
            Some(state) => put_answer(answer, &state)?,
            None => answer.push_str("none")?,
        },
        ("size", "") => put_number(answer, intersection.estimated_size() as u64)?,
        ("see", "") => put_seen(answer, intersection)?,
        _ => return Err(Fault::Unknown),
    }
    Ok(())
}

/// The state of an intersection of hashes.
#[derive(Drop)]
pub struct IntersectionStateObject<A: Allocator> {
    intersection: IntersectionState<ThetaEntry, Keeping, A>,
}

impl<A: Allocator + Copy + Drop> Object<A> for IntersectionStateObject<A> {
    fn make(_plain: Global, alloc: A, settings: &str) -> Result<Self, Fault> {
        let intersection = state_of(alloc, settings, Keeping)?;
        Ok(IntersectionStateObject { intersection })
    }

    fn call(
        &mut self,
        memory: Memory<'_>,
        call: Call<'_>,
        answer: &mut String,
    ) -> Result<(), Fault> {
        call_intersection(memory, &mut self.intersection, call, answer)
    }

    fn see(&self, text: &mut String) -> Result<(), Fault> {
        put_seen(text, &self.intersection)
    }
}

/// The state of an intersection of tuples, whose summaries are sums.
#[derive(Drop)]
pub struct TupleIntersectionStateObject<A: Allocator> {
    intersection: IntersectionState<TupleEntry<u64>, DefaultUnionPolicy<u64>, A>,
}

impl<A: Allocator + Copy + Drop> Object<A> for TupleIntersectionStateObject<A> {
    fn make(_plain: Global, alloc: A, settings: &str) -> Result<Self, Fault> {
        let intersection = state_of(alloc, settings, DefaultUnionPolicy::default())?;
        Ok(TupleIntersectionStateObject { intersection })
    }

    fn call(
        &mut self,
        memory: Memory<'_>,
        call: Call<'_>,
        answer: &mut String,
    ) -> Result<(), Fault> {
        call_intersection(memory, &mut self.intersection, call, answer)
    }

    fn see(&self, text: &mut String) -> Result<(), Fault> {
        put_seen(text, &self.intersection)
    }
}
