//! Reading a plan, node by node.
ghost use Rattle.std.specs.Prelude.{◌≡◌, ◌∷◌, Some, None, MatchOption, IfOk};
ghost use Rattle.plan_text.specs.Reading.{says, first_of, lower_first, Gives, command_in, node_in, step_in};
ghost use Rattle.plan_text.specs.Reading.{first_as, step_at, many, part_at, node_at, plan_at};

use crate::boxed::Boxed;
use crate::command::{Family, Form};
use crate::fault::ReadError;
use crate::items::Items;
use crate::line::{Line, NodeLine, StepLine, line_of, plain_add};
use crate::plan::{Plan, Step, UnionPart};
use crate::step_value::{StepValue, step_of};
use crate::text::next_line;
use std::alloc::{AllocError, Allocator};

/// What the first line says and the text after it; `None` if there is no line or the text may not have it.
fn next(text: &[u8]) -> Option<(Line, &[u8])>
    ensures { MatchOption result (first_of (says text.now) ≡ None) (λ x. says text.now ≡ Some x.0 ∷ says x.1.now) }
{
    let (line, rest) = next_line(text)?;
    let line = line_of(line)?;
    Some((line, rest))
}

/// The command that the first line says, and the text after it.
pub fn command_line(text: &[u8]) -> Result<((Family, Form), &[u8]), ReadError<'_>>
    ensures { Gives (λ x. (x.0, says x.1.now)) result (first_as command_in (says text.now)) }
{
    let Some((line, rest)) = next(text) else {
        return Err(ReadError::Syntax(text));
    };
    match line {
        Line::Command(family, form) => Ok(((family, form), rest)),
        Line::Node(_) | Line::Step(_) | Line::Lower(_) => Err(ReadError::Syntax(text)),
    }
}

/// The node that the first line begins, and the text after that line.
fn node_line(text: &[u8]) -> Result<(NodeLine, &[u8]), ReadError<'_>>
    ensures { Gives (λ x. (x.0, says x.1.now)) result (first_as node_in (says text.now)) }
{
    let Some((line, rest)) = next(text) else {
        return Err(ReadError::Syntax(text));
    };
    match line {
        Line::Node(node) => Ok((node, rest)),
        Line::Command(_, _) | Line::Step(_) | Line::Lower(_) => Err(ReadError::Syntax(text)),
    }
}

/// The step that the first line says, of either family, and the text after it.
#[inline(always)]
fn step_line(text: &[u8]) -> Result<(StepLine, &[u8]), ReadError<'_>>
    ensures { Gives (λ x. (x.0, says x.1.now)) result (first_as step_in (says text.now)) }
{
    match plain_add(text) {
        Some((update, after)) => Ok((update, after)),
        None => any_step_line(text),
    }
}

/// As `step_line`, reading the line word by word.
#[inline(never)]
fn any_step_line(text: &[u8]) -> Result<(StepLine, &[u8]), ReadError<'_>>
    ensures { Gives (λ x. (x.0, says x.1.now)) result (first_as step_in (says text.now)) }
{
    let Some((line, rest)) = next(text) else {
        return Err(ReadError::Syntax(text));
    };
    match line {
        Line::Step(step) => Ok((step, rest)),
        Line::Command(_, _) | Line::Node(_) | Line::Lower(_) => Err(ReadError::Syntax(text)),
    }
}

/// One step, and the text after it.
#[inline(always)]
fn step<V: StepValue>(text: &[u8]) -> Result<(Step<V>, &[u8]), ReadError<'_>>
    ensures { Gives (λ x. (x.0, says x.1.now)) result (step_at V.as_value (says text.now)) }
{
    let (line, rest) = step_line(text)?;
    match step_of::<V>(line) {
        Some(step) => Ok((step, rest)),
        None => Err(ReadError::Syntax(text)),
    }
}

/// `count` steps, and the text after them. Memory is allocated as steps are read.
fn steps<'a, V: StepValue, A: Allocator + Clone>(
    alloc: &A,
    count: u32,
    text: &'a [u8],
) -> Result<(Vec<Step<V>, A>, &'a [u8]), ReadError<'a>>
    ensures { Gives (λ x. (x.0.items, says x.1.now)) result (many (step_at V.as_value) count (says text.now)) }
{
    let mut steps = Vec::new(alloc.clone()?);
    let mut rest = text;
    for _ in 0..count {
        let (step, after) = step::<V>(rest)?;
        steps.push(step)?;
        rest = after;
    }
    Ok((steps, rest))
}

/// If the first line lowers a union's nominal entries: the logarithm that it lowers them to, and the text after it.
fn lower_line(text: &[u8]) -> Option<(u8, &[u8])>
    ensures { MatchOption result (lower_first (says text.now) ≡ None) (λ x.
        lower_first (says text.now) ≡ Some (x.0, says x.1.now)) }
{
    let (line, rest) = next(text)?;
    match line {
        Line::Lower(lg_k) => Some((lg_k, rest)),
        Line::Command(_, _) | Line::Node(_) | Line::Step(_) => None,
    }
}

/// A plan in a box.
fn boxed<V: StepValue, A: Allocator + Clone>(
    alloc: &A,
    plan: Plan<V, A>,
) -> Result<Boxed<Plan<V, A>, A>, AllocError>
    ensures { IfOk result (λ b. b ≡ plan) }
{
    let content = Box::new(alloc.clone()?, plan)?;
    Ok(Boxed::of_fewer(content))
}

/// `count` plans of at most `levels` levels, and the text after them.
#[cycle(nodes)]
fn parts<'a, V: StepValue, A: Allocator + Clone>(
    alloc: &A,
    levels: u8,
    count: u32,
    text: &'a [u8],
) -> Result<(Vec<Plan<V, A>, A>, &'a [u8]), ReadError<'a>>
    ensures { Gives (λ x. (x.0.items, says x.1.now)) result (many (plan_at V.as_value levels) count (says text.now)) }
{
    let mut parts = Vec::new(alloc.clone()?);
    let mut rest = text;
    for _ in 0..count {
        let (part, after) = plan::<V, A>(alloc, levels, rest)?;
        parts.push(part)?;
        rest = after;
    }
    Ok((parts, rest))
}

/// A part of a union: a line that lowers its nominal entries, or a plan of at most `levels` levels; and the text
/// after it.
#[cycle(nodes)]
fn union_part<'a, V: StepValue, A: Allocator + Clone>(
    alloc: &A,
    levels: u8,
    text: &'a [u8],
) -> Result<(UnionPart<Plan<V, A>>, &'a [u8]), ReadError<'a>>
    ensures { Gives (λ x. (x.0, says x.1.now)) result (part_at (plan_at V.as_value levels) (says text.now)) }
{
    match lower_line(text) {
        Some((lg_k, rest)) => Ok((UnionPart::Lower(lg_k), rest)),
        None => {
            let (united, after) = plan::<V, A>(alloc, levels, text)?;
            Ok((UnionPart::Of(united), after))
        }
    }
}

/// `count` parts of a union, and the text after them.
#[cycle(nodes)]
fn union_parts<'a, V: StepValue, A: Allocator + Clone>(
    alloc: &A,
    levels: u8,
    count: u32,
    text: &'a [u8],
) -> Result<(Vec<UnionPart<Plan<V, A>>, A>, &'a [u8]), ReadError<'a>>
    ensures { Gives (λ x. (x.0.items, says x.1.now)) result
        (many (part_at (plan_at V.as_value levels)) count (says text.now)) }
{
    let mut parts = Vec::new(alloc.clone()?);
    let mut rest = text;
    for _ in 0..count {
        let (part, after) = union_part::<V, A>(alloc, levels, rest)?;
        parts.push(part)?;
        rest = after;
    }
    Ok((parts, rest))
}

/// A plan of at most `levels` levels, and the text after it.
#[cycle(nodes)]
pub fn plan<'a, V: StepValue, A: Allocator + Clone>(
    alloc: &A,
    levels: u8,
    text: &'a [u8],
) -> Result<(Plan<V, A>, &'a [u8]), ReadError<'a>>
    ensures { Gives (λ x. (x.0, says x.1.now)) result (plan_at V.as_value levels (says text.now)) }
{
    let (line, rest) = node_line(text)?;
    if levels == 0 {
        return Err(ReadError::Limit(text));
    }
    node::<V, A>(alloc, levels - 1, line, rest)
}

/// The plan that a node's line begins, its parts of at most `levels` levels, and the text after it.
#[cycle(nodes)]
fn node<'a, V: StepValue, A: Allocator + Clone>(
    alloc: &A,
    levels: u8,
    line: NodeLine,
    text: &'a [u8],
) -> Result<(Plan<V, A>, &'a [u8]), ReadError<'a>>
    ensures { Gives (λ x. (x.0, says x.1.now)) result
        (node_at V.as_value (plan_at V.as_value levels) line (says text.now)) }
{
    match line {
        NodeLine::Leaf { lg_k, start, count } => {
            let (steps, after) = steps::<V, A>(alloc, count, text)?;
            let steps = Items::from_steps(steps);
            Ok((Plan::Leaf { lg_k, start, steps }, after))
        }
        NodeLine::Union { lg_k, start, count } => {
            let (joined, after) = union_parts::<V, A>(alloc, levels, count, text)?;
            let parts = Items::of_fewer(joined);
            Ok((Plan::Union { lg_k, start, parts }, after))
        }
        NodeLine::Meet { count } => {
            let (met, after) = parts::<V, A>(alloc, levels, count, text)?;
            let parts = Items::of_fewer(met);
            Ok((Plan::Meet { parts }, after))
        }
        NodeLine::Minus => {
            let (a, between) = plan::<V, A>(alloc, levels, text)?;
            let (b, after) = plan::<V, A>(alloc, levels, between)?;
            let first = boxed(alloc, a)?;
            let second = boxed(alloc, b)?;
            Ok((Plan::Minus(first, second), after))
        }
        NodeLine::Via { ordered } => {
            let (a, after) = plan::<V, A>(alloc, levels, text)?;
            let part = boxed(alloc, a)?;
            Ok((Plan::Via { ordered, part }, after))
        }
    }
}
