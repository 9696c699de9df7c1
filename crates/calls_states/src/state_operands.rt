//! Operands of the states of operators: a state that takes updates, or a compact state, in memory that is never
//! refused.
ghost use Rattle.core_laws.specs.Entries.{ClonesEqual};

use calls_language::entries::ShownEntry;
use calls_language::series::{as_unsigned, numbers_of};
use calls_language::settings::{Settings as Words, settings_of};
use calls_language::words::{Fault, number};
use std::alloc::Global;
use theta_core::{
    CompactSketchState, DefaultUpdatePolicy, SketchView, ThetaEntry, TupleEntry, UpdatableState,
    UpdateStep,
};

/// An entry whose values the steps of an operand name.
pub trait SteppedEntry: ShownEntry + Clone {
    /// Updates a state with a hash, and with a value if the entries have some.
    fn update(state: &mut UpdatableState<Self>, hash: u64, value: &str) -> Result<(), Fault>;
}

impl SteppedEntry for ThetaEntry {
    fn update(state: &mut UpdatableState<ThetaEntry>, hash: u64, value: &str) -> Result<(), Fault> {
        if !value.is_empty() {
            return Err(Fault::Unknown);
        }
        state.insert_hash(hash)?;
        Ok(())
    }
}

impl SteppedEntry for TupleEntry<u64> {
    fn update(
        state: &mut UpdatableState<TupleEntry<u64>>,
        hash: u64,
        value: &str,
    ) -> Result<(), Fault> {
        let policy = DefaultUpdatePolicy::<u64>::default();
        state.upsert(hash, UpdateStep::new(&policy, hash, number(value)?))?;
        Ok(())
    }
}

/// Makes a step: a series, `trim` or `reset`.
fn take_step<E: SteppedEntry>(
    plain: Global,
    state: &mut UpdatableState<E>,
    step: &str,
) -> Result<(), Fault> {
    match step {
        "trim" => state.trim()?,
        "reset" => state.reset(),
        _ => {
            let (series, value) = step.split_once(':').unwrap_or((step, ""));
            for hash in &numbers_of(plain, series)? {
                E::update(state, as_unsigned(*hash)?, value)?;
            }
        }
    }
    Ok(())
}

/// The state of SETTINGS/STEPS.
fn stepped<E: SteppedEntry>(plain: Global, words: &str) -> Result<UpdatableState<E>, Fault> {
    let (settings, steps) = words.split_once('/').unwrap_or((words, ""));
    let mut state = UpdatableState::new(plain, settings_of(Words::read(settings, ',')?))?;
    if !steps.is_empty() {
        for step in steps.split(',') {
            take_step(plain, &mut state, step)?;
        }
    }
    Ok(state)
}

/// A state as an operand.
#[derive(Drop)]
pub enum StateOperand<E: ShownEntry> {
    Updatable(UpdatableState<E>),
    Compact(CompactSketchState<E>),
}

/// The compact state of SETTINGS/STEPS.
fn compact<E: SteppedEntry>(
    plain: Global,
    words: &str,
    ordered: bool,
) -> Result<CompactSketchState<E>, Fault>
    requires clones_equal { ClonesEqual E.is_clone }
{
    let state = stepped::<E>(plain, words)?;
    Ok(state.compact(ordered)?)
}

/// The operand of a word.
fn read_operand<E: SteppedEntry>(plain: Global, word: &str) -> Result<StateOperand<E>, Fault>
    requires clones_equal { ClonesEqual E.is_clone }
{
    match word.split_once(':') {
        Some(("sketch", rest)) => Ok(StateOperand::Updatable(stepped::<E>(plain, rest)?)),
        Some(("compact", rest)) => Ok(StateOperand::Compact(compact::<E>(plain, rest, true)?)),
        Some(("unordered", rest)) => Ok(StateOperand::Compact(compact::<E>(plain, rest, false)?)),
        _ => Err(Fault::Unknown),
    }
}

/// The operand of a word. Its errors are those of an operand.
pub fn operand_of<E: SteppedEntry>(plain: Global, word: &str) -> Result<StateOperand<E>, Fault>
    requires clones_equal { ClonesEqual E.is_clone }
{
    match read_operand::<E>(plain, word) {
        Ok(operand) => Ok(operand),
        Err(fault) => Err(fault.of_operand()),
    }
}

/// The operands of words with blanks between; none of an empty text.
pub fn operands_of<E: SteppedEntry>(
    plain: Global,
    words: &str,
) -> Result<Vec<StateOperand<E>>, Fault>
    requires clones_equal { ClonesEqual E.is_clone }
{
    let mut operands = Vec::new(plain);
    if !words.is_empty() {
        for word in words.split(' ') {
            operands.push(operand_of::<E>(plain, word)?)?;
        }
    }
    Ok(operands)
}

impl<E: ShownEntry> StateOperand<E> {
    /// Its view.
    pub fn view(&self) -> SketchView<'_, E> {
        match self {
            StateOperand::Updatable(state) => SketchView::of_state(state),
            StateOperand::Compact(state) => SketchView::of_compact(state),
        }
    }
}
