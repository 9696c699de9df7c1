//! `estimates`: fractions, decimals, nearest whole numbers and bounds of counts and totals, and the public constants.
ghost use Rattle.std.specs.Prelude.{◌<◌, ◌≤◌, ◌*◌, ◌^◌, IfOk};
ghost use Rattle.core_laws.specs.declared.TheConstants.{MAX_THETA};

use calls_language::object::{Call, Memory, Object};
use calls_language::settings::no_settings;
use calls_language::shown::{decimal_of, places_of, put_decimal};
use calls_language::words::{Fault, cut_word, number, put_bytes};
use estimates::{Deviations, count_bounds, count_fraction, nearest, nearest_total, total_decimal};
use std::alloc::Global;
use theta_sketches::{DEFAULT_UPDATE_SEED, MAX_PLACES, MAX_THETA};
use tuple_sketches::{
    EMPTY_SKETCH_BYTES, SERIAL_VERSION, SERIAL_VERSION_LEGACY, SKETCH_TYPE, SKETCH_TYPE_LEGACY,
};

/// The functions on estimates.
#[derive(Clone, Copy)]
pub struct Estimating;

/// The number of retained entries of a word; it is below 2^32.
fn retained_of(word: &str) -> Result<u64, Fault>
    ensures { IfOk result (λ retained. retained < 2 ^ 32) }
{
    let retained = number(word)?;
    if retained < 1 << 32 {
        Ok(retained)
    } else {
        Err(Fault::Condition)
    }
}

/// The theta of a word; it is from 1 to the greatest.
fn theta_of(word: &str) -> Result<u64, Fault>
    ensures low { IfOk result (λ theta. 0 < theta) }
    ensures high { IfOk result (λ theta. theta ≤ MAX_THETA) }
{
    let theta = number(word)?;
    if 0 < theta && theta <= MAX_THETA {
        Ok(theta)
    } else {
        Err(Fault::Condition)
    }
}

/// How many standard deviations a word names.
fn deviations_of(word: &str) -> Result<Deviations, Fault> {
    match word {
        "1" => Ok(Deviations::One),
        "2" => Ok(Deviations::Two),
        "3" => Ok(Deviations::Three),
        _ => Err(Fault::Unknown),
    }
}

/// Appends the bounds of a count: the words of a call.
fn put_bounds(words: &str, answer: &mut String) -> Result<(), Fault> {
    let (retained, rest) = cut_word(words);
    let (theta, deviations) = cut_word(rest);
    let deviations = deviations_of(deviations)?;
    let retained = retained_of(retained)?;
    let theta = theta_of(theta)?;
    let bounds = count_bounds(retained as usize, theta, deviations);
    let lower = bounds.lower;
    let upper = bounds.upper;
    write!(answer, "{lower} {upper}")?;
    Ok(())
}

/// Appends the estimate of a count at a theta: the words of a call.
fn put_estimate(words: &str, answer: &mut String) -> Result<(), Fault> {
    let (retained, rest) = cut_word(words);
    let (theta, places) = cut_word(rest);
    let count = u128::from(retained_of(retained)?) * u128::from(MAX_THETA);
    let fraction = (count, u128::from(theta_of(theta)?));
    put_decimal(answer, decimal_of(fraction, places_of(places)?)?)?;
    Ok(())
}

/// Appends the fraction that a count at a theta estimates: the words of a call.
fn put_fraction(words: &str, answer: &mut String) -> Result<(), Fault> {
    let (kind, rest) = cut_word(words);
    let (count, theta) = cut_word(rest);
    let empty = match kind {
        "empty" => true,
        "nonempty" => false,
        _ => return Err(Fault::Unknown),
    };
    let count = retained_of(count)?;
    let theta = theta_of(theta)?;
    let (over, under) = count_fraction(empty, count as usize, theta);
    write!(answer, "{over}/{under}")?;
    Ok(())
}

/// Appends the nearest whole number to the estimate of a count at a theta: the words of a call.
fn put_nearest(words: &str, answer: &mut String) -> Result<(), Fault> {
    let (count, theta) = cut_word(words);
    let over = u128::from(retained_of(count)?) * u128::from(MAX_THETA);
    let under = u128::from(theta_of(theta)?);
    let estimate = nearest(over, under);
    write!(answer, "{estimate}")?;
    Ok(())
}

/// A sum and a theta: a low half, a high half and theta. The high half is below theta.
fn sum_of(low: &str, high: &str, theta: &str) -> Result<(u128, u64), Fault>
    ensures low { IfOk result (λ r. 0 < r.1) }
    ensures high { IfOk result (λ r. r.1 ≤ MAX_THETA) }
    ensures small { IfOk result (λ r. r.0 < 2 ^ 64 * r.1) }
{
    let low = number(low)?;
    let high = number(high)?;
    let theta = theta_of(theta)?;
    if high < theta {
        let sum = u128::from(high) * 18446744073709551616 + u128::from(low);
        Ok((sum, theta))
    } else {
        Err(Fault::Condition)
    }
}

/// Appends the estimate of a total, rounded to the nearest whole number: the words of a call.
fn put_total(words: &str, answer: &mut String) -> Result<(), Fault> {
    let (low, rest) = cut_word(words);
    let (high, theta) = cut_word(rest);
    let (sum, theta) = sum_of(low, high, theta)?;
    let total = nearest_total(sum, theta);
    write!(answer, "{total}")?;
    Ok(())
}

/// Appends the estimate of a total as a decimal number: the words of a call.
fn put_total_decimal(words: &str, answer: &mut String) -> Result<(), Fault> {
    let (low, rest) = cut_word(words);
    let (high, rest) = cut_word(rest);
    let (theta, places) = cut_word(rest);
    let (sum, theta) = sum_of(low, high, theta)?;
    let places = places_of(places)?;
    put_decimal(answer, total_decimal(sum, theta, places))?;
    Ok(())
}

/// Appends the constants of the libraries.
fn put_constants(answer: &mut String) -> Result<(), Fault> {
    write!(answer, "{MAX_THETA} {MAX_PLACES} {DEFAULT_UPDATE_SEED}")?;
    write!(
        answer,
        " {SERIAL_VERSION} {SERIAL_VERSION_LEGACY} {SKETCH_TYPE} {SKETCH_TYPE_LEGACY} "
    )?;
    put_bytes(answer, &EMPTY_SKETCH_BYTES)?;
    Ok(())
}

impl<A: Drop> Object<A> for Estimating {
    fn make(_plain: Global, _alloc: A, settings: &str) -> Result<Self, Fault> {
        no_settings(settings)?;
        Ok(Estimating)
    }

    fn call(
        &mut self,
        _memory: Memory<'_>,
        call: Call<'_>,
        answer: &mut String,
    ) -> Result<(), Fault> {
        match (call.verb, call.argument) {
            ("bounds", words) => put_bounds(words, answer),
            ("fraction", words) => put_fraction(words, answer),
            ("decimal", words) => put_estimate(words, answer),
            ("nearest", words) => put_nearest(words, answer),
            ("total", words) => put_total(words, answer),
            ("total_decimal", words) => put_total_decimal(words, answer),
            ("constants", "") => put_constants(answer),
            ("see", "") => {
                answer.push_str("ok")?;
                Ok(())
            }
            _ => Err(Fault::Unknown),
        }
    }
}
