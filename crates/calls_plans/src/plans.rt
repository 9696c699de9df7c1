//! `plan`: the command that a text spells, and the evaluation of its plan.
ghost use Rattle.core_laws.specs.Entries.{ClonesEqual};

use crate::plan_answers::{put_sketch, put_tuple_sketch};
use crate::plan_texts::put_command;
use calls_language::arguments::{put_number, two_words};
use calls_language::object::{Call, Memory, Object};
use calls_language::words::{Fault, number};
use calls_policies::{Digits, FromWord, RefusesOne, Summary, Unmade, UnwrittenSums};
use plan_evaluation::{evaluate_sums, evaluate_theta, evaluate_tuple};
use plan_text::{Command, Fault as TextFault, Levels, Plan, read_plan};
use sketch_base::ErrorKind;
use std::alloc::{AllocError, Allocator, Global};
use tuple_sketches::{
    DefaultUnionPolicy, DefaultUpdatePolicy, NumberPolicy, SummaryCombinePolicy,
    SummaryUpdatePolicy,
};

/// A text's command, or why it has none.
#[derive(Drop)]
pub struct PlanObject<A: Allocator> {
    alloc: A,
    command: Result<Command<A>, TextFault>,
}

/// The bytes of a text in which a slash ends each line.
pub fn text_bytes(plain: Global, words: &str) -> Result<Vec<u8>, AllocError> {
    let mut bytes = Vec::new(plain);
    for byte in words.as_bytes() {
        bytes.push(if *byte == b'/' { b'\n' } else { *byte })?;
    }
    Ok(bytes)
}

/// Appends the fault of a text.
fn put_text_fault(answer: &mut String, fault: TextFault) -> Result<(), AllocError> {
    match fault {
        TextFault::Syntax(line) => write!(answer, "syntax {line}"),
        TextFault::Limit(line) => write!(answer, "limit {line}"),
        TextFault::Memory => answer.push_str("memory"),
    }
}

/// Appends the sketch of a plan of tuples by two policies.
fn put_evaluated<
    S: Summary<A>,
    P: SummaryUpdatePolicy<u64, Summary = S> + Copy + Drop,
    Q: SummaryCombinePolicy<Summary = S> + Copy + Drop,
    A: Allocator + Copy + Drop,
>(
    answer: &mut String,
    alloc: A,
    plan: &Plan<u64, A>,
    seed: u64,
    updates: P,
    combines: Q,
) -> Result<(), Fault>
    requires clones_equal { ClonesEqual S.is_clone }
{
    let sketch = evaluate_tuple(alloc, plan, seed, updates, combines)?;
    put_tuple_sketch(answer, &sketch)?;
    Ok(())
}

/// Appends the sketch of a plan of tuples by the policies of a word.
fn put_tuple<A: Allocator + Copy + Drop>(
    answer: &mut String,
    alloc: A,
    plan: &Plan<u64, A>,
    argument: &str,
) -> Result<(), Fault> {
    let (policy, seed) = two_words(argument)?;
    let seed = number(seed)?;
    match policy {
        "sums:u64" => {
            let updates = DefaultUpdatePolicy::<u64>::default();
            let unions = DefaultUnionPolicy::<u64>::default();
            put_evaluated(answer, alloc, plan, seed, updates, unions)
        }
        "least" | "greatest" => {
            let policy = NumberPolicy::from_word(alloc, policy)?;
            put_evaluated(answer, alloc, plan, seed, policy, policy)
        }
        "digits" => put_evaluated(answer, alloc, plan, seed, Digits, Digits),
        "unmade" => put_evaluated(answer, alloc, plan, seed, Unmade, Unmade),
        "unwritten" => put_evaluated(answer, alloc, plan, seed, UnwrittenSums, UnwrittenSums),
        _ => {
            let policy = RefusesOne::from_word(alloc, policy)?;
            put_evaluated(answer, alloc, plan, seed, policy, policy)
        }
    }
}

/// Makes a call on a plan of theta sketches.
fn call_theta<A: Allocator + Copy + Drop>(
    alloc: A,
    plan: &Plan<(), A>,
    call: Call<'_>,
    answer: &mut String,
) -> Result<(), Fault> {
    match (call.verb, call.argument) {
        ("levels", "") => put_number(answer, plan.levels() as u64)?,
        ("evaluate", seed) => put_sketch(answer, &evaluate_theta(alloc, plan, number(seed)?)?)?,
        _ => return Err(Fault::Unknown),
    }
    Ok(())
}

/// Makes a call on a plan of tuple sketches.
fn call_tuple<A: Allocator + Copy + Drop>(
    alloc: A,
    plan: &Plan<u64, A>,
    call: Call<'_>,
    answer: &mut String,
) -> Result<(), Fault> {
    match (call.verb, call.argument) {
        ("levels", "") => put_number(answer, plan.levels() as u64)?,
        ("sums", seed) => {
            let sketch = evaluate_sums::<u64, A, A>(alloc, plan, number(seed)?)?;
            put_tuple_sketch(answer, &sketch)?;
        }
        ("tuple", argument) => put_tuple(answer, alloc, plan, argument)?,
        _ => return Err(Fault::Unknown),
    }
    Ok(())
}

impl<A: Allocator + Copy + Drop> Object<A> for PlanObject<A> {
    fn make(plain: Global, alloc: A, settings: &str) -> Result<Self, Fault> {
        let text = text_bytes(plain, settings)?;
        let command = read_plan(alloc, text.as_slice());
        if matches!(command, Err(TextFault::Memory)) {
            return Err(Fault::Refused(ErrorKind::OutOfMemory));
        }
        Ok(PlanObject { alloc, command })
    }

    fn call(
        &mut self,
        _memory: Memory<'_>,
        call: Call<'_>,
        answer: &mut String,
    ) -> Result<(), Fault> {
        match &self.command {
            Err(fault) => put_text_fault(answer, *fault)?,
            Ok(command) => match (command, call.verb) {
                (_, "see") => answer.push_str("ok")?,
                (_, "shape") => put_command(answer, command)?,
                (Command::Theta(_, plan), _) => call_theta(self.alloc, plan, call, answer)?,
                (Command::Tuple(_, plan), _) => call_tuple(self.alloc, plan, call, answer)?,
            },
        }
        Ok(())
    }
}
