//! The answers of the reader of plans and of their evaluation.
use crate::images::{put_refusal, put_theta_sketch, put_tuple_sketch};
use plan_evaluation::{evaluate_sums, evaluate_theta};
use plan_text::{Command, Fault, Form, Plan, read_plan};
use std::alloc::{AllocError, Global};
use theta_sketches::DEFAULT_UPDATE_SEED;

/// Appends the sketch of a plan of theta sketches, or why its evaluation is refused.
fn put_theta_plan(text: &mut String, alloc: Global, plan: &Plan<()>) -> Result<(), AllocError> {
    match evaluate_theta(alloc, plan, DEFAULT_UPDATE_SEED) {
        Ok(sketch) => put_theta_sketch(text, &sketch),
        Err(error) => put_refusal(text, error.kind()),
    }
}

/// Appends the sketch of a plan of tuple sketches, or why its evaluation is refused.
fn put_tuple_plan(text: &mut String, alloc: Global, plan: &Plan<u64>) -> Result<(), AllocError> {
    match evaluate_sums(alloc, plan, DEFAULT_UPDATE_SEED) {
        Ok(sketch) => put_tuple_sketch(text, &sketch),
        Err(error) => put_refusal(text, error.kind()),
    }
}

/// Appends the form of a command's answer.
fn put_form(text: &mut String, form: Form) -> Result<(), AllocError> {
    match form {
        Form::Show => text.push_str("show "),
        Form::Image => text.push_str("image "),
    }
}

/// Appends the form and the sketch of the command that a text spells, or the text's fault.
pub fn put_plan(text: &mut String, alloc: Global, bytes: &[u8]) -> Result<(), AllocError> {
    match read_plan(alloc, bytes) {
        Ok(Command::Theta(form, plan)) => {
            put_form(text, form)?;
            put_theta_plan(text, alloc, &plan)
        }
        Ok(Command::Tuple(form, plan)) => {
            put_form(text, form)?;
            put_tuple_plan(text, alloc, &plan)
        }
        Err(Fault::Syntax(line)) => write!(text, "syntax {line}"),
        Err(Fault::Limit(line)) => write!(text, "limit {line}"),
        Err(Fault::Memory) => Err(AllocError),
    }
}
