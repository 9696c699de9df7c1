//! Plans, written as the texts that spell them, with a slash at the end of each line.
use plan_text::{Command, Form, Plan, Step, UnionPart};
use std::alloc::{AllocError, Allocator};

/// A value of an update that a text has.
trait TextValue: Copy + Drop {
    /// Appends it, behind a blank; nothing for the value of a theta sketch.
    fn put(&self, text: &mut String) -> Result<(), AllocError>;
}

impl TextValue for () {
    fn put(&self, _text: &mut String) -> Result<(), AllocError> {
        Ok(())
    }
}

impl TextValue for u64 {
    fn put(&self, text: &mut String) -> Result<(), AllocError> {
        let value = *self;
        write!(text, " {value}")
    }
}

/// Appends the steps of a leaf.
fn put_steps<V: TextValue>(text: &mut String, steps: &[Step<V>]) -> Result<(), AllocError> {
    for step in steps {
        match step {
            Step::Add(hash, value) => {
                let hash = *hash;
                write!(text, "add {hash}")?;
                value.put(text)?;
                text.push('/')?;
            }
            Step::Trim => text.push_str("trim/")?,
            Step::Reset => text.push_str("reset/")?,
        }
    }
    Ok(())
}

/// Appends a plan.
fn put_plan<V: TextValue, A: Allocator>(
    text: &mut String,
    plan: &Plan<V, A>,
) -> Result<(), AllocError> {
    match plan {
        Plan::Leaf { lg_k, start, steps } => {
            let steps = steps.as_slice();
            let count = steps.len();
            write!(text, "leaf {lg_k} {start} {count}/")?;
            put_steps(text, steps)
        }
        Plan::Union { lg_k, start, parts } => {
            let parts = parts.as_slice();
            let count = parts.len();
            write!(text, "union {lg_k} {start} {count}/")?;
            for part in parts {
                match part {
                    UnionPart::Of(united) => put_plan(text, united)?,
                    UnionPart::Lower(fewer) => write!(text, "lower {fewer}/")?,
                }
            }
            Ok(())
        }
        Plan::Meet { parts } => {
            let parts = parts.as_slice();
            let count = parts.len();
            write!(text, "meet {count}/")?;
            for part in parts {
                put_plan(text, part)?;
            }
            Ok(())
        }
        Plan::Minus(first, second) => {
            text.push_str("minus/")?;
            put_plan(text, first.get())?;
            put_plan(text, second.get())
        }
        Plan::Via { ordered, part } => {
            let order = if *ordered {
                "via ordered/"
            } else {
                "via unordered/"
            };
            text.push_str(order)?;
            put_plan(text, part.get())
        }
    }
}

/// Appends the first line of a command.
fn put_form(text: &mut String, family: &str, form: Form) -> Result<(), AllocError> {
    text.push_str(family)?;
    match form {
        Form::Show => text.push_str(" show/"),
        Form::Image => text.push_str(" image/"),
    }
}

/// Appends a command.
pub fn put_command<A: Allocator>(
    text: &mut String,
    command: &Command<A>,
) -> Result<(), AllocError> {
    match command {
        Command::Theta(form, plan) => {
            put_form(text, "theta", *form)?;
            put_plan(text, plan)
        }
        Command::Tuple(form, plan) => {
            put_form(text, "tuple", *form)?;
            put_plan(text, plan)
        }
    }
}
