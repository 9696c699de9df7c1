//! The answer of the reader of set expressions.
use expression_text::{Operator, Parsed, Reason, Step, parse};
use std::alloc::{AllocError, Global};

/// Appends a name in angle brackets, byte by byte.
fn put_name(text: &mut String, name: &[u8]) -> Result<(), AllocError> {
    text.push('<')?;
    for byte in name {
        text.push(*byte as char)?;
    }
    text.push('>')
}

/// Appends a step: a name, or the sign of an operator.
fn put_step(text: &mut String, parsed: &Parsed, step: Step) -> Result<(), AllocError> {
    match step {
        Step::Operand(index) => match parsed.names.get(index) {
            Some(name) => put_name(text, name),
            None => text.push('?'),
        },
        Step::Combine(Operator::Union) => text.push('+'),
        Step::Combine(Operator::Intersection) => text.push('&'),
        Step::Combine(Operator::Difference) => text.push('-'),
    }
}

/// Appends the number of names, and the steps in postfix order.
fn put_steps(text: &mut String, parsed: &Parsed) -> Result<(), AllocError> {
    let names = parsed.names.len();
    write!(text, "{names} ")?;
    for step in &parsed.steps {
        put_step(text, parsed, *step)?;
    }
    Ok(())
}

/// Appends the steps of an expression, or its first fault.
pub fn put_expression(text: &mut String, alloc: Global, bytes: &[u8]) -> Result<(), AllocError> {
    let fault = match parse(alloc, bytes) {
        Ok(parsed) => return put_steps(text, &parsed),
        Err(fault) => fault,
    };
    let word = match fault.reason {
        Reason::MissingOperand => "missing operand",
        Reason::MissingOperator => "missing operator",
        Reason::MissingClosing => "missing closing",
        Reason::UnexpectedClosing => "unexpected closing",
        Reason::OpenQuote => "open quote",
        Reason::TooDeep => "too deep",
        Reason::EmptyName => "empty name",
        Reason::Memory => return Err(AllocError),
    };
    let offset = fault.offset;
    write!(text, "fault {offset} {word}")
}
