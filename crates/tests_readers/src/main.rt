//! Prints the answer of a reader of this project for each line of standard input.
//!
//! A line is the name of a reader, a space, and bytes in hexadecimal. `theta`, `u32`, `i32`, `u64` and `i64` read an
//! image, of a theta sketch or of a tuple sketch with summaries of that type; `preamble` reports what an image's
//! first bytes say; `plan` reads and evaluates the text of a plan, `expression` reads a set expression, and
//! `arguments` and `message` the arguments of `distinct`, with a blank between two. The answer is one line: a sketch,
//! and of an image the image that it is written as; the steps of an expression; a request; or the reason why there is
//! none. A text's fault is reported with its place. `checks/` compares these answers with those of readers that share
//! no code with this project.
#![tactic(auto)]

mod arguments;
mod expressions;
mod images;
mod plans;

use keys_lines::{cut_at, cut_line};
use keys_sketches::read_hex;
use std::alloc::{AllocError, Global};
use std::io::{self, Read, Write};

/// Appends the answer of the reader of this name.
fn put_answer(
    text: &mut String,
    alloc: Global,
    name: &[u8],
    bytes: &[u8],
) -> Result<(), AllocError> {
    match name {
        b"theta" => images::put_theta(text, alloc, bytes),
        b"preamble" => images::put_preamble(text, bytes),
        b"u32" => images::put_tuple::<u32>(text, alloc, bytes),
        b"i32" => images::put_tuple::<i32>(text, alloc, bytes),
        b"u64" => images::put_tuple::<u64>(text, alloc, bytes),
        b"i64" => images::put_tuple::<i64>(text, alloc, bytes),
        b"plan" => plans::put_plan(text, alloc, bytes),
        b"arguments" => arguments::put_request(text, alloc, bytes),
        b"message" => arguments::put_message(text, alloc, bytes),
        b"expression" => expressions::put_expression(text, alloc, bytes),
        _ => text.push_str("unread"),
    }
}

/// Appends the answer to a line; an empty line if it is not a name and bytes in hexadecimal.
fn put_line(text: &mut String, alloc: Global, line: &[u8]) -> Result<(), AllocError> {
    if let Some((name, digits)) = cut_at(line, b' ') {
        if let Some(bytes) = read_hex(alloc, digits)? {
            put_answer(text, alloc, name, &bytes)?;
        }
    }
    text.push('\n')
}

/// The answers to all lines of an input; bytes after the last LF have no answer.
fn answers_to(alloc: Global, input: &[u8]) -> Result<String, AllocError> {
    let mut text = String::new(alloc);
    let mut rest = input;
    for _ in 0..input.len() {
        let Some((line, behind)) = cut_line(rest) else {
            break;
        };
        put_line(&mut text, alloc, line)?;
        rest = behind;
    }
    Ok(text)
}

fn main(rt: HostRuntime) -> io::Result<()> {
    let mut input = Vec::new(rt.alloc());
    rt.stdin().read_to_end(&mut input)?;
    let text = answers_to(rt.alloc(), &input)?;
    rt.stdout().write_all(text.as_bytes())
}
