//! Reading a whole text.
ghost use Rattle.std.specs.Prelude.{◌≡◌, ◌+◌, ◌-◌, length, IfOk, IfErr, MatchResult};
ghost use Rattle.plan_text.specs.Reading.{says, Gives, whole_at, command_at};
ghost use Rattle.keys_lines.specs.Lines.{lines_of};
ghost use Rattle.plan_text.specs.Spelling.{Spells};
ghost use Rattle.plan_text.specs.Faults.{IsFault};
ghost use Rattle.plan_text.specs.declared.command.Command.{Command as Commands};

use crate::command::{Command, Family};
use crate::descent::{command_line, plan};
use crate::fault::{Fault, ReadError};
use crate::levels::MAX_LEVELS;
use crate::plan::Plan;
use crate::step_value::StepValue;
use crate::text::line_count;
use std::alloc::Allocator;

/// A plan, with nothing after it.
fn whole_plan<'a, V: StepValue, A: Allocator + Clone>(
    alloc: &A,
    text: &'a [u8],
) -> Result<Plan<V, A>, ReadError<'a>>
    ensures { Gives (λ x. x) result (whole_at V.as_value (says text.now)) }
{
    let (plan, rest) = plan::<V, A>(alloc, MAX_LEVELS, text)?;
    if rest.is_empty() {
        Ok(plan)
    } else {
        Err(ReadError::Syntax(rest))
    }
}

/// A command, with nothing after its plan.
fn command<'a, A: Allocator + Clone>(alloc: &A, text: &'a [u8]) -> Result<Command<A>, ReadError<'a>>
    ensures { Gives (λ x. x) result (command_at (says text.now)) }
{
    let ((family, form), rest) = command_line(text)?;
    match family {
        Family::Theta => {
            let plan = whole_plan::<(), A>(alloc, rest)?;
            Ok(Command::Theta(form, plan))
        }
        Family::Tuple => {
            let plan = whole_plan::<u64, A>(alloc, rest)?;
            Ok(Command::Tuple(form, plan))
        }
    }
}

/// The number, from 1, of the first line of the rest of a text.
fn line_number(text: &[u8], rest: &[u8]) -> u64
    ensures { result ≡ length (lines_of text.now) - length (lines_of rest.now) + 1 }
{
    line_count(text).saturating_sub(line_count(rest)) + 1
}

/// The command that a text spells, or the text's first fault. Nothing is evaluated.
///
/// Each line ends in an LF, which the last one may lack; words are separated by one space. The text is read once, the
/// first line of each part of a union twice, and all of it once more to number the line of a fault. No line is
/// copied.
///
/// Refused with `Fault::Syntax` or `Fault::Limit` if the text spells no command, and with `Fault::Memory`, in place
/// of any other answer, if memory was refused.
pub fn read_plan<A: Allocator + Clone>(alloc: A, text: &[u8]) -> Result<Command<A>, Fault>
    ensures spelled { IfOk result (λ command. Spells text.now command) }
    ensures only { (command : Commands A)
        → Spells text.now command
        → MatchResult result (λ c. c ≡ command) (λ e. e ≡ Fault.Memory) }
    ensures fault { IfErr result (IsFault text.now) }
{
    match command(&alloc, text) {
        Ok(command) => Ok(command),
        Err(ReadError::Memory) => Err(Fault::Memory),
        Err(ReadError::Syntax(rest)) => Err(Fault::Syntax(line_number(text, rest))),
        Err(ReadError::Limit(rest)) => Err(Fault::Limit(line_number(text, rest))),
    }
}
