//! Series of numbers, as lines spell them.
use crate::words::Fault;
use std::alloc::{AllocError, Global};

/// The greatest number of numbers in a series.
const MOST: u64 = 1 << 20;

/// A whole number of at most 20 digits, or `max`.
fn whole(word: &str) -> Result<i128, Fault> {
    if word == "max" {
        return Ok(i64::MAX as i128);
    }
    if 20 < word.len() {
        return Err(Fault::Unknown);
    }
    word.parse::<i128>().map_err(|_| Fault::Unknown)
}

/// The last number of a series and its step, from the text after `..`: `61`, or `199/2`; the step is 1 if there is
/// none.
fn end_and_step(word: &str) -> Result<(i128, i128), Fault> {
    match word.split_once('/') {
        Some((last, step)) => Ok((whole(last)?, whole(step)?)),
        None => Ok((whole(word)?, 1)),
    }
}

/// Appends the numbers from `first` to `last`, each further by `step` than the one before.
fn add_range(numbers: &mut Vec<i128>, first: i128, last: i128, step: i128) -> Result<(), Fault> {
    let far = last.saturating_sub(first).saturating_abs();
    if step < 1 || step.saturating_mul(MOST as i128) <= far {
        return Err(Fault::Unknown);
    }
    let stride = if first <= last {
        step
    } else {
        step.saturating_neg()
    };
    let mut next = first;
    for _ in 0..MOST {
        if far < next.saturating_sub(first).saturating_abs() {
            break;
        }
        numbers.push(next)?;
        next = next.saturating_add(stride);
    }
    Ok(())
}

/// Appends the numbers of a series: `7`, `1..61`, `62..1` or `1..199/2`.
pub fn add_series(numbers: &mut Vec<i128>, word: &str) -> Result<(), Fault> {
    match word.split_once("..") {
        Some((first, rest)) => {
            let (last, step) = end_and_step(rest)?;
            add_range(numbers, whole(first)?, last, step)
        }
        None => {
            numbers.push(whole(word)?)?;
            Ok(())
        }
    }
}

/// The numbers of series with commas between; none of an empty text.
pub fn numbers_of(plain: Global, list: &str) -> Result<Vec<i128>, Fault> {
    let mut numbers = Vec::new(plain);
    if !list.is_empty() {
        for word in list.split(',') {
            add_series(&mut numbers, word)?;
        }
    }
    Ok(numbers)
}

/// A number as one of 64 bits without a sign.
pub fn as_unsigned(number: i128) -> Result<u64, Fault> {
    u64::try_from(number).map_err(|_| Fault::Unknown)
}

/// The numbers of series with commas between, as hashes.
pub fn hashes_of(plain: Global, list: &str) -> Result<Vec<u64>, Fault> {
    let mut hashes = Vec::new(plain);
    for number in &numbers_of(plain, list)? {
        hashes.push(as_unsigned(*number)?)?;
    }
    Ok(hashes)
}

/// An argument that is made anew for each number of a series: what is before the number, and what is behind it.
#[derive(Drop)]
pub struct Spread<'w> {
    head: &'static str,
    pub numbers: Vec<i128>,
    tail: Option<&'w str>,
}

impl<'w> Spread<'w> {
    /// The argument with this number.
    pub fn argument(&self, plain: Global, number: i128) -> Result<String, AllocError> {
        let head = self.head;
        let mut text = String::new(plain);
        write!(text, "{head}{number}")?;
        if let Some(tail) = self.tail {
            write!(text, ":{tail}")?;
        }
        Ok(text)
    }
}

/// The type of a key that may be a series, with its colon, and what is behind it.
fn cut_type(argument: &str) -> (&'static str, &str) {
    if let Some(rest) = argument.strip_prefix("u64:") {
        return ("u64:", rest);
    }
    match argument.strip_prefix("i32:") {
        Some(rest) => ("i32:", rest),
        None => ("", argument),
    }
}

/// The arguments of a series with dots, `SERIES`, `u64:SERIES` or `i32:SERIES`, maybe with `:VALUE` behind; none of
/// any other argument.
pub fn spread_of(plain: Global, argument: &str) -> Result<Option<Spread<'_>>, Fault> {
    let (head, rest) = cut_type(argument);
    let (series, tail) = match rest.split_once(':') {
        Some((series, tail)) => (series, Some(tail)),
        None => (rest, None),
    };
    let mut numbers = Vec::new(plain);
    if series.split_once("..").is_none() || add_series(&mut numbers, series).is_err() {
        return Ok(None);
    }
    Ok(Some(Spread {
        head,
        numbers,
        tail,
    }))
}
