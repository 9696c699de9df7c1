//! `union_state` and `tuple_union_state`: the states of unions.
ghost use Rattle.core_laws.specs.Entries.{ClonesEqual};

use crate::keeping::Keeping;
use crate::state_operands::{SteppedEntry, operand_of, operands_of};
use calls_language::arguments::put_number;
use calls_language::entries::{put_answer, put_state};
use calls_language::object::{Call, Left, Memory, Object};
use calls_language::settings::{Settings as Words, settings_of};
use calls_language::words::{Fault, is_failure, list_of, order_flag, small_number};
use std::alloc::{Allocator, Global};
use theta_core::{DefaultUnionPolicy, ThetaEntry, TupleEntry, UnionMergePolicy, UnionState};

/// The state of a union of these settings.
fn state_of<E: SteppedEntry, P: Drop, A: Allocator + Drop>(
    alloc: A,
    settings: &str,
    policy: P,
) -> Result<UnionState<E, P, A>, Fault> {
    let settings = settings_of(Words::read(settings, ' ')?);
    Ok(UnionState::new(
        alloc,
        settings.lg_k(),
        settings.resize_factor(),
        settings.starting_theta(),
        settings.seed(),
        policy,
    )?)
}

/// Merges an operand.
fn update<E: SteppedEntry, P: UnionMergePolicy<E> + Drop, A: Allocator + Clone>(
    memory: Memory<'_>,
    union: &mut UnionState<E, P, A>,
    word: &str,
) -> Result<(), Fault>
    requires clones_equal { ClonesEqual E.is_clone }
{
    memory.pause();
    let operand = operand_of::<E>(memory.plain(), word)?;
    memory.refuse();
    union.update(operand.view())?;
    Ok(())
}

/// Merges operands in one call.
fn update_all<E: SteppedEntry, P: UnionMergePolicy<E> + Drop, A: Allocator + Clone>(
    memory: Memory<'_>,
    union: &mut UnionState<E, P, A>,
    words: &str,
) -> Result<(), Fault>
    requires clones_equal { ClonesEqual E.is_clone }
{
    memory.pause();
    let operands = operands_of::<E>(memory.plain(), words)?;
    let mut views = Vec::new(memory.plain());
    for operand in &operands {
        views.push(operand.view())?;
    }
    memory.refuse();
    union.update_all(views.as_slice())?;
    Ok(())
}

/// Makes a call on the state of a union.
fn call_union<E: SteppedEntry, P: UnionMergePolicy<E> + Drop, A: Allocator + Clone>(
    memory: Memory<'_>,
    union: &mut UnionState<E, P, A>,
    call: Call<'_>,
    answer: &mut String,
) -> Result<(), Fault>
    requires clones_equal { ClonesEqual E.is_clone }
{
    match (call.verb, call.argument) {
        ("update", word) => update(memory, union, word)?,
        ("update_all", list) => update_all(memory, union, list_of(list)?)?,
        ("lower_lg_k", lg_k) => union.lower_lg_k(small_number(lg_k)?)?,
        ("reset", "") => union.reset(),
        ("state", order) => {
            put_answer(answer, &union.to_compact_sketch_state(order_flag(order)?)?)?;
            return Ok(());
        }
        ("size", "") => {
            put_number(answer, union.estimated_size() as u64)?;
            return Ok(());
        }
        ("see", "") => {
            put_state(answer, &union.to_compact_sketch_state(true)?, false)?;
            return Ok(());
        }
        _ => return Err(Fault::Unknown),
    }
    answer.push_str("ok")?;
    Ok(())
}

/// Whether the state of a union refuses this operand with `Failed`.
fn refuses<E: SteppedEntry, P: UnionMergePolicy<E> + Drop, A: Allocator + Clone>(
    union: &mut UnionState<E, P, A>,
    plain: Global,
    word: &str,
) -> Result<bool, Fault>
    requires clones_equal { ClonesEqual E.is_clone }
{
    let operand = operand_of::<E>(plain, word)?;
    Ok(is_failure(union.update(operand.view())))
}

/// Whether the state of a union refuses an empty operand, this one of another seed, and each other call, with
/// `Failed`.
fn is_failed<E: SteppedEntry, P: UnionMergePolicy<E> + Drop, A: Allocator + Clone>(
    union: &mut UnionState<E, P, A>,
    plain: Global,
    other: &str,
) -> Result<bool, Fault>
    requires clones_equal { ClonesEqual E.is_clone }
{
    let refuses_empty = refuses(union, plain, "sketch:")?;
    let refuses_other = refuses(union, plain, other)?;
    let answers = !is_failure(union.to_compact_sketch_state(true).map(|_| ()));
    let lowers = !is_failure(union.lower_lg_k(4));
    Ok(refuses_empty && refuses_other && !answers && !lowers)
}

/// What a refused call of a union leaves.
fn left_by(verb: &str) -> Left {
    match verb {
        "update" | "update_all" => Left::Failed,
        _ => Left::Unchanged,
    }
}

/// The state of a union of hashes.
#[derive(Drop)]
pub struct UnionStateObject<A: Allocator> {
    union: UnionState<ThetaEntry, Keeping, A>,
}

impl<A: Allocator + Copy + Drop> Object<A> for UnionStateObject<A> {
    fn make(_plain: Global, alloc: A, settings: &str) -> Result<Self, Fault> {
        let union = state_of(alloc, settings, Keeping)?;
        Ok(UnionStateObject { union })
    }

    fn call(
        &mut self,
        memory: Memory<'_>,
        call: Call<'_>,
        answer: &mut String,
    ) -> Result<(), Fault> {
        call_union(memory, &mut self.union, call, answer)
    }

    fn see(&self, text: &mut String) -> Result<(), Fault> {
        put_state(text, &self.union.to_compact_sketch_state(true)?, false)?;
        Ok(())
    }

    fn left_by(verb: &str) -> Left {
        left_by(verb)
    }

    fn is_failed(&mut self, plain: Global) -> Result<bool, Fault> {
        is_failed(&mut self.union, plain, "sketch:seed=77/5")
    }

    fn reset(&mut self) {
        self.union.reset();
    }
}

/// The state of a union of tuples, whose summaries are sums.
#[derive(Drop)]
pub struct TupleUnionStateObject<A: Allocator> {
    union: UnionState<TupleEntry<u64>, DefaultUnionPolicy<u64>, A>,
}

impl<A: Allocator + Copy + Drop> Object<A> for TupleUnionStateObject<A> {
    fn make(_plain: Global, alloc: A, settings: &str) -> Result<Self, Fault> {
        let union = state_of(alloc, settings, DefaultUnionPolicy::default())?;
        Ok(TupleUnionStateObject { union })
    }

    fn call(
        &mut self,
        memory: Memory<'_>,
        call: Call<'_>,
        answer: &mut String,
    ) -> Result<(), Fault> {
        call_union(memory, &mut self.union, call, answer)
    }

    fn see(&self, text: &mut String) -> Result<(), Fault> {
        put_state(text, &self.union.to_compact_sketch_state(true)?, false)?;
        Ok(())
    }

    fn left_by(verb: &str) -> Left {
        left_by(verb)
    }

    fn is_failed(&mut self, plain: Global) -> Result<bool, Fault> {
        is_failed(&mut self.union, plain, "sketch:seed=77/5:1")
    }

    fn reset(&mut self) {
        self.union.reset();
    }
}
