//! Makes the public calls that the lines of standard input name, and prints what each answers.
//!
//! A line names an object, its settings and its calls, in words; `tests/calls/README.md` has the language. Its calls
//! are made plainly, or with each request for memory refused in turn. `checks/public_calls.py` compares the answers
//! with those of a second implementation that shares no code with this project.
#![tactic(auto)]

use calls_language::driver::Line;
use calls_language::object::Heap;
use calls_language::words::cut_word;
use keys_lines::cut_line;
use std::alloc::{AllocError, Global};
use std::io::{self, Read, Write};
use std::str;
use tests_allocator::Refusing;

/// The settings of a line and its calls: they end at the first colon that a blank or the end follows.
fn cut_settings(text: &str) -> (&str, &str) {
    match text.split_once(": ") {
        Some(parts) => parts,
        None => (text.strip_suffix(':').unwrap_or(text), ""),
    }
}

/// Appends the answers to a line, and returns whether there is an object of this name.
fn answer(heap: &Heap, object: &str, line: Line<'_>, out: &mut String) -> Result<bool, AllocError> {
    if calls_theta::answer(heap, object, line, out)?
        || calls_tuples::answer(heap, object, line, out)?
        || calls_base::answer(heap, object, line, out)?
        || calls_tables::answer(heap, object, line, out)?
    {
        return Ok(true);
    }
    Ok(
        calls_states::answer(heap, object, line, out)?
            || calls_plans::answer(heap, object, line, out)?,
    )
}

/// Appends the answers to a line.
fn put_answers(out: &mut String, alloc: Global, text: &str) -> Result<(), AllocError> {
    let (refusing, text) = match text.strip_prefix("refusing ") {
        Some(rest) => (true, rest),
        None => (false, text),
    };
    let (front, calls) = cut_settings(text);
    let (object, settings) = cut_word(front);
    let line = Line {
        refusing,
        settings,
        calls,
    };
    if answer(&Refusing::new(alloc), object, line, out)? {
        return Ok(());
    }
    out.push_str("unknown")
}

/// Appends the answers to a line, and LF.
fn put_line(out: &mut String, alloc: Global, line: &[u8]) -> Result<(), AllocError> {
    match str::from_utf8(line) {
        Ok(text) => put_answers(out, alloc, text)?,
        Err(_) => out.push_str("unknown")?,
    }
    out.push('\n')
}

/// The answers to all lines of an input; bytes after the last LF have no answer.
fn answers_to(alloc: Global, input: &[u8]) -> Result<String, AllocError> {
    let mut out = String::new(alloc);
    let mut rest = input;
    for _ in 0..input.len() {
        let Some((line, behind)) = cut_line(rest) else {
            break;
        };
        put_line(&mut out, alloc, line)?;
        rest = behind;
    }
    Ok(out)
}

fn main(rt: HostRuntime) -> io::Result<()> {
    let mut input = Vec::new(rt.alloc());
    rt.stdin().read_to_end(&mut input)?;
    let text = answers_to(rt.alloc(), &input)?;
    rt.stdout().write_all(text.as_bytes())
}
