//! `base`: functions without an object.
use crate::{pieces, preambles};
use calls_language::arguments::{
    half_number, kind_of, put_number, three_words, two_words, word_number,
};
use calls_language::object::{Call, Memory, Object};
use calls_language::settings::{Settings as Words, factor_of, no_settings, settings_of};
use calls_language::words::{Fault, kind_word, number, small_number};
use core_slots::NEAR;
use plan_text::MAX_LEVELS;
use sketch_base::{
    DEFAULT_UPDATE_SEED, Error, ErrorKind, Family, check_seed_hash, compute_seed_hash,
};
use std::alloc::Global;
use theta_core::{
    DEFAULT_LG_K, MAX_LG_K, MAX_PLACES, MAX_THETA, MIN_LG_K, MIN_LG_SLOTS, STRIDE_MASK,
    SketchHashTable, ThetaEntry, TupleEntry, estimate_decimal, starting_sub_multiple,
};

/// The most seeds that one call tries.
const MOST_SEEDS: u64 = 1 << 20;

/// Functions, which have no state.
#[derive(Clone, Copy)]
pub struct Base;

/// The family of a word.
fn family_of(word: &str) -> Result<Family, Fault> {
    match word {
        "theta" => Ok(Family::THETA),
        "tuple" => Ok(Family::TUPLE),
        _ => Err(Fault::Unknown),
    }
}

/// The first seed from one to another whose seed hash is 0.
fn first_refused(from: u64, to: u64) -> Option<u64> {
    if MOST_SEEDS < to.saturating_sub(from) {
        return None;
    }
    for seed in from..=to {
        if compute_seed_hash(seed, ErrorKind::InvalidArgument).is_err() {
            return Some(seed);
        }
    }
    None
}

/// Appends a seed hash, or why there is none.
fn put_seed_hash(answer: &mut String, argument: &str) -> Result<(), Fault> {
    let (seed, kind) = two_words(argument)?;
    let hash = compute_seed_hash(number(seed)?, kind_of(kind)?)?;
    put_number(answer, hash as u64)?;
    Ok(())
}

/// Compares two seed hashes.
fn put_checked(answer: &mut String, argument: &str) -> Result<(), Fault> {
    let (expected, actual, kind) = three_words(argument)?;
    check_seed_hash(half_number(expected)?, half_number(actual)?, kind_of(kind)?)?;
    answer.push_str("ok")?;
    Ok(())
}

/// Appends the first seed without a seed hash.
fn put_first_refused(answer: &mut String, argument: &str) -> Result<(), Fault> {
    let (from, to) = two_words(argument)?;
    match first_refused(number(from)?, number(to)?) {
        Some(seed) => put_number(answer, seed)?,
        None => answer.push_str("none")?,
    }
    Ok(())
}

/// Appends what a family's images begin with.
fn put_family(answer: &mut String, argument: &str) -> Result<(), Fault> {
    let Family {
        id,
        min_pre_longs,
        max_pre_longs,
    } = family_of(argument)?;
    write!(answer, "{id} {min_pre_longs} {max_pre_longs}")?;
    Ok(())
}

/// Checks the number of a family.
fn put_validated(answer: &mut String, argument: &str) -> Result<(), Fault> {
    let (family, id) = two_words(argument)?;
    family_of(family)?.validate_id(small_number(id)?)?;
    answer.push_str("ok")?;
    Ok(())
}

/// Appends the starting size of slots.
fn put_starting_size(answer: &mut String, argument: &str) -> Result<(), Fault> {
    let (target, least, factor) = three_words(argument)?;
    let lg = starting_sub_multiple(
        small_number(target)?,
        small_number(least)?,
        small_number(factor)?,
    );
    put_number(answer, lg as u64)?;
    Ok(())
}

/// Appends the size of slots for a count of entries.
fn put_rebuild_size(answer: &mut String, argument: &str) -> Result<(), Fault> {
    let count = number(argument)? as usize;
    let lg = SketchHashTable::<ThetaEntry>::lg_size_from_count_for_rebuild(count);
    put_number(answer, lg as u64)?;
    Ok(())
}

/// Appends what a resize factor answers.
fn put_factor(answer: &mut String, argument: &str) -> Result<(), Fault> {
    let factor = factor_of(argument)?;
    let lg = factor.lg_value();
    let value = factor.value();
    write!(answer, "{lg} {value}")?;
    Ok(())
}

/// Appends settings.
fn put_settings(answer: &mut String, argument: &str) -> Result<(), Fault> {
    let settings = settings_of(Words::read(argument, ' ')?);
    let lg_k = settings.lg_k();
    let factor = settings.resize_factor().value();
    let start = settings.starting_theta();
    let seed = settings.seed();
    write!(answer, "{lg_k} {factor} {start} {seed}")?;
    Ok(())
}

/// A hash that an entry may have.
fn carried(word: &str) -> Result<u64, Fault> {
    let hash = number(word)?;
    if hash == 0 || hash >= MAX_THETA {
        return Err(Fault::Condition);
    }
    Ok(hash)
}

/// Appends the hash of an entry.
fn put_entry(answer: &mut String, argument: &str) -> Result<(), Fault> {
    let hash = number(argument)?;
    if hash == 0 || hash >= MAX_THETA {
        return Err(Fault::Condition);
    }
    put_number(answer, ThetaEntry::new(hash).hash())?;
    Ok(())
}

/// Appends an entry of tuples, before and after its summary is written.
fn put_tuple_entry(answer: &mut String, argument: &str) -> Result<(), Fault> {
    let (hash, before, after) = three_words(argument)?;
    let hash = carried(hash)?;
    let before = number(before)?;
    let after = number(after)?;
    if hash == 0 || hash >= MAX_THETA {
        return Err(Fault::Condition);
    }
    let mut entry = TupleEntry::new(hash, before);
    let first = *entry.summary();
    *entry.summary_mut() = after;
    let second = *entry.summary();
    let hash = entry.hash();
    write!(answer, "{hash} {first} {second}")?;
    Ok(())
}

/// Appends an entry of tuples of any hash.
fn put_tuple_of_hash(answer: &mut String, argument: &str) -> Result<(), Fault> {
    let (hash, summary) = two_words(argument)?;
    let entry = TupleEntry::of_hash(number(hash)?, number(summary)?);
    let hash = entry.hash();
    let summary = *entry.summary();
    write!(answer, "{hash} {summary}")?;
    Ok(())
}

/// Appends a fraction as a decimal number.
fn put_decimal(answer: &mut String, argument: &str) -> Result<(), Fault> {
    let (count, theta, places) = three_words(argument)?;
    let count = number(count)? as u128;
    let theta = number(theta)? as u128;
    let places = word_number(places)?;
    if theta == 0 || theta > MAX_THETA as u128 || places > MAX_PLACES {
        return Err(Fault::Condition);
    }
    let decimal = estimate_decimal((count, theta), places);
    let whole = decimal.whole();
    let decimals = decimal.decimals();
    let places = decimal.places();
    write!(answer, "{decimal} {whole} {decimals} {places}")?;
    Ok(())
}

/// The constant of a name.
fn constant_of(name: &str) -> Result<u64, Fault> {
    let value = match name {
        "DEFAULT_UPDATE_SEED" => DEFAULT_UPDATE_SEED,
        "MAX_THETA" => MAX_THETA,
        "MIN_LG_K" => MIN_LG_K as u64,
        "MAX_LG_K" => MAX_LG_K as u64,
        "MIN_LG_SLOTS" => MIN_LG_SLOTS as u64,
        "DEFAULT_LG_K" => DEFAULT_LG_K as u64,
        "STRIDE_MASK" => STRIDE_MASK,
        "MAX_PLACES" => MAX_PLACES as u64,
        "MAX_LEVELS" => MAX_LEVELS as u64,
        "NEAR" => NEAR as u64,
        _ => return Err(Fault::Unknown),
    };
    Ok(value)
}

/// Appends the answer of a function on entries and numbers, and returns whether there is one of this name.
fn put_function(answer: &mut String, call: Call<'_>) -> Result<bool, Fault> {
    let argument = call.argument;
    match call.verb {
        "seed_hash" => put_seed_hash(answer, argument)?,
        "check_seed_hash" => put_checked(answer, argument)?,
        "first_refused" => put_first_refused(answer, argument)?,
        "error" => answer.push_str(kind_word(Error::new(kind_of(argument)?).kind()))?,
        "family" => put_family(answer, argument)?,
        "validate" => put_validated(answer, argument)?,
        "starting_sub_multiple" => put_starting_size(answer, argument)?,
        "rebuild_size" => put_rebuild_size(answer, argument)?,
        "factor" => put_factor(answer, argument)?,
        "settings" => put_settings(answer, argument)?,
        "entry" => put_entry(answer, argument)?,
        "of_hash" => put_number(answer, ThetaEntry::of_hash(number(argument)?).hash())?,
        "tuple_entry" => put_tuple_entry(answer, argument)?,
        "tuple_of_hash" => put_tuple_of_hash(answer, argument)?,
        "decimal" => put_decimal(answer, argument)?,
        "constant" => put_number(answer, constant_of(argument)?)?,
        _ => return Ok(false),
    }
    Ok(true)
}

impl<A: Drop> Object<A> for Base {
    fn make(_plain: Global, _alloc: A, settings: &str) -> Result<Self, Fault> {
        no_settings(settings)?;
        Ok(Base)
    }

    fn call(
        &mut self,
        memory: Memory<'_>,
        call: Call<'_>,
        answer: &mut String,
    ) -> Result<(), Fault> {
        if put_function(answer, call)? || pieces::put(answer, memory.plain(), call)? {
            return Ok(());
        }
        match call.verb {
            "see" => answer.push_str("ok")?,
            _ => preambles::put(answer, memory.plain(), call)?,
        }
        Ok(())
    }
}
