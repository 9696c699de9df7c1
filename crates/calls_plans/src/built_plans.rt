//! `built`: plans of theta sketches that are built by the public constructors.
use crate::plan_answers::put_sketch;
use calls_language::arguments::{put_number, two_words};
use calls_language::object::{Call, Memory, Object};
use calls_language::words::{Fault, small_number};
use plan_evaluation::evaluate_theta;
use plan_text::{Boxed, Items, Levels, Plan, Step, UnionPart};
use sketch_base::{DEFAULT_UPDATE_SEED, Error};
use std::alloc::{Allocator, Global};
use theta_core::MAX_THETA;

/// A node around one plan; a difference also has an empty leaf.
#[derive(Clone, Copy)]
enum Node {
    Via,
    Minus,
    Union,
    Meet,
}

/// The node of a word.
fn node_of(word: &str) -> Result<Node, Fault> {
    match word {
        "via" => Ok(Node::Via),
        "minus" => Ok(Node::Minus),
        "union" => Ok(Node::Union),
        "meet" => Ok(Node::Meet),
        _ => Err(Fault::Unknown),
    }
}

/// The steps that add the hash 7 so often.
fn steps_of(alloc: Global, count: u8) -> Result<Items<Step<()>>, Error> {
    let mut steps = Vec::new(alloc);
    for _ in 0..count {
        steps.push(Step::Add(7, ()))?;
    }
    Ok(Items::from_steps(steps))
}

/// A leaf that the hash 7 is added to so often.
fn leaf(alloc: Global, count: u8) -> Result<Plan<()>, Error> {
    Ok(Plan::Leaf {
        lg_k: 5,
        start: MAX_THETA,
        steps: steps_of(alloc, count)?,
    })
}

/// A plan in a box.
fn boxed(alloc: Global, plan: Plan<()>) -> Result<Boxed<Plan<()>>, Error> {
    Boxed::from_box(Box::new(alloc, plan)?)
}

/// A union of one plan.
fn union_of(alloc: Global, plan: Plan<()>) -> Result<Plan<()>, Error> {
    let mut parts = Vec::new(alloc);
    parts.push(UnionPart::Of(plan))?;
    Ok(Plan::Union {
        lg_k: 5,
        start: MAX_THETA,
        parts: Items::from_parts(parts)?,
    })
}

/// An intersection of one plan.
fn meet_of(alloc: Global, plan: Plan<()>) -> Result<Plan<()>, Error> {
    let mut parts = Vec::new(alloc);
    parts.push(plan)?;
    Ok(Plan::Meet {
        parts: Items::from_parts(parts)?,
    })
}

/// A difference of a plan and an empty leaf.
fn minus_of(alloc: Global, plan: Plan<()>) -> Result<Plan<()>, Error> {
    let first = boxed(alloc, plan)?;
    let empty = leaf(alloc, 0)?;
    let second = boxed(alloc, empty)?;
    Ok(Plan::Minus(first, second))
}

/// A plan with one node more at its root.
fn below(alloc: Global, node: Node, plan: Plan<()>) -> Result<Plan<()>, Error> {
    match node {
        Node::Via => Ok(Plan::Via {
            ordered: false,
            part: boxed(alloc, plan)?,
        }),
        Node::Minus => minus_of(alloc, plan),
        Node::Union => union_of(alloc, plan),
        Node::Meet => meet_of(alloc, plan),
    }
}

/// A leaf below so many nodes.
fn nested(alloc: Global, node: Node, count: u8) -> Result<Plan<()>, Error> {
    let mut plan = leaf(alloc, 1)?;
    for _ in 0..count {
        plan = below(alloc, node, plan)?;
    }
    Ok(plan)
}

/// The number of items of a plan's root, or the levels of the plan in its box.
fn items_of(plan: &Plan<()>) -> usize {
    match plan {
        Plan::Leaf { steps, .. } => steps.as_slice().len(),
        Plan::Union { parts, .. } => parts.as_slice().len(),
        Plan::Meet { parts } => parts.as_slice().len(),
        Plan::Minus(first, _) => first.get().levels() as usize,
        Plan::Via { part, .. } => part.get().levels() as usize,
    }
}

/// A plan that was built, and the number of its nodes above the leaf.
#[derive(Drop)]
pub struct BuiltObject<A> {
    alloc: A,
    count: u8,
    plan: Plan<()>,
}

impl<A: Allocator + Copy + Drop> Object<A> for BuiltObject<A> {
    fn make(plain: Global, alloc: A, settings: &str) -> Result<Self, Fault> {
        let (node, count) = two_words(settings)?;
        let count = small_number(count)?;
        let plan = nested(plain, node_of(node)?, count)?;
        Ok(BuiltObject { alloc, count, plan })
    }

    fn call(
        &mut self,
        memory: Memory<'_>,
        call: Call<'_>,
        answer: &mut String,
    ) -> Result<(), Fault> {
        match (call.verb, call.argument) {
            ("levels", "") => put_number(answer, self.plan.levels() as u64)?,
            ("evaluate", "") => {
                let sketch = evaluate_theta(self.alloc, &self.plan, DEFAULT_UPDATE_SEED)?;
                put_sketch(answer, &sketch)?;
            }
            ("items", "") => put_number(answer, items_of(&self.plan) as u64)?,
            ("parts", "") => {
                let steps = steps_of(memory.plain(), self.count)?.into_vec();
                put_number(answer, steps.len() as u64)?;
            }
            ("see", "") => answer.push_str("ok")?,
            _ => return Err(Fault::Unknown),
        }
        Ok(())
    }
}
