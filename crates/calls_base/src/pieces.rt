//! Slots, sums and summaries, each by itself.
use calls_language::arguments::{put_hex, put_number, put_truth, three_words, two_words};
use calls_language::object::Call;
use calls_language::words::{Fault, number};
use core_slots::Count;
use sketch_base::{SketchBytes, SketchSlice};
use std::alloc::{AllocError, Global};
use theta_core::{
    CheckedSum, MAX_THETA, PathEntry, SlotEntry, ThetaEntry, TupleEntry, TupleSummaryValue,
};

/// Appends the hash of an entry, or `none`, behind a blank.
fn put_hash<E: SlotEntry>(answer: &mut String, entry: Option<&E>) -> Result<(), AllocError> {
    answer.push(' ')?;
    match entry {
        Some(entry) => put_number(answer, entry.hash()),
        None => answer.push_str("none"),
    }
}

/// Appends what a slot answers: its entry, whether that is below a bound, its hash, and its entry by a look.
fn put_slot<E: SlotEntry>(
    answer: &mut String,
    slot: &E::Slot,
    bound: u64,
) -> Result<(), AllocError> {
    put_hash::<E>(answer, E::in_slot(slot))?;
    answer.push(' ')?;
    put_truth(answer, E::is_below(slot, bound))?;
    answer.push(' ')?;
    put_number(answer, E::hash_or_greatest(slot))?;
    let mut looks = Count::new();
    put_hash::<E>(answer, E::look(slot, &mut looks))
}

/// Appends what the slot of an entry answers, and the entry that is taken out of it.
fn put_taken<E: SlotEntry + Drop>(
    answer: &mut String,
    mut slot: E::Slot,
    bound: u64,
) -> Result<(), AllocError> {
    put_slot::<E>(answer, &slot, bound)?;
    let taken = E::from_slot(E::take_out(&mut slot));
    put_hash::<E>(answer, taken.as_ref())
}

/// Appends how many of three free slots are free, and what one of them answers.
fn put_free<E: SlotEntry>(
    answer: &mut String,
    plain: Global,
    bound: u64,
) -> Result<(), AllocError> {
    let slots = E::free_slots(plain, 3)?;
    let mut free = 0u64;
    for slot in &slots {
        if E::in_slot(slot).is_none() {
            free = free.saturating_add(1);
        }
    }
    put_number(answer, free)?;
    put_slot::<E>(answer, &E::free_slot(), bound)
}

/// Appends what slots answer, free ones and that of an entry.
fn put_slots(answer: &mut String, plain: Global, argument: &str) -> Result<(), Fault> {
    let (family, hash, bound) = three_words(argument)?;
    let hash = number(hash)?;
    let bound = number(bound)?;
    if hash == 0 || hash >= MAX_THETA {
        return Err(Fault::Condition);
    }
    match family {
        "theta" => {
            put_free::<ThetaEntry>(answer, plain, bound)?;
            put_taken::<ThetaEntry>(answer, ThetaEntry::new(hash).into_slot(), bound)?;
        }
        "tuple" => {
            put_free::<TupleEntry<u64>>(answer, plain, bound)?;
            let slot = TupleEntry::new(hash, 1u64).into_slot();
            put_taken::<TupleEntry<u64>>(answer, slot, bound)?;
        }
        _ => return Err(Fault::Unknown),
    }
    Ok(())
}

/// Appends the sum of two numbers of a type, or `none` if the type has no such number.
fn put_sum(answer: &mut String, argument: &str) -> Result<(), Fault> {
    let (kind, first, second) = three_words(argument)?;
    let sum = match kind {
        "u32" => u32_of(first)?
            .checked_sum(u32_of(second)?)
            .map(|sum| sum as i128),
        "u64" => number(first)?
            .checked_sum(number(second)?)
            .map(|sum| sum as i128),
        "i32" => i32_of(first)?
            .checked_sum(i32_of(second)?)
            .map(|sum| sum as i128),
        "i64" => i64_of(first)?
            .checked_sum(i64_of(second)?)
            .map(|sum| sum as i128),
        _ => return Err(Fault::Unknown),
    };
    match sum {
        Some(sum) => write!(answer, "{sum}")?,
        None => answer.push_str("none")?,
    }
    Ok(())
}

/// A number of 32 bits without a sign.
fn u32_of(word: &str) -> Result<u32, Fault> {
    word.parse::<u32>().map_err(|_| Fault::Unknown)
}

/// A number of 32 bits with a sign.
fn i32_of(word: &str) -> Result<i32, Fault> {
    word.parse::<i32>().map_err(|_| Fault::Unknown)
}

/// A number of 64 bits with a sign.
fn i64_of(word: &str) -> Result<i64, Fault> {
    word.parse::<i64>().map_err(|_| Fault::Unknown)
}

/// Appends the size and the bytes of a summary, and whether the same is read from them, with a byte behind.
fn put_written<S: TupleSummaryValue<Global> + PartialEq + Drop>(
    answer: &mut String,
    plain: Global,
    summary: S,
) -> Result<(), Fault> {
    let size = summary.serialize_size();
    let mut bytes = SketchBytes::with_capacity(plain, size)?;
    summary.serialize_value(&mut bytes)?;
    bytes.write_u8(0)?;
    let written = bytes.into_bytes();
    let mut slice = SketchSlice::new(written.as_slice());
    let again = S::deserialize_value(&plain, &mut slice)?;
    let left = slice.remaining().len();
    write!(answer, "{size} ")?;
    put_hex(answer, written.as_slice())?;
    let is_same = again == summary && left == 1;
    answer.push_str(if is_same { " same" } else { " other" })?;
    Ok(())
}

/// Appends how a summary of a type is written and read.
fn put_summary(answer: &mut String, plain: Global, argument: &str) -> Result<(), Fault> {
    let (kind, word) = two_words(argument)?;
    match kind {
        "u32" => put_written(answer, plain, u32_of(word)?),
        "u64" => put_written(answer, plain, number(word)?),
        "i32" => put_written(answer, plain, i32_of(word)?),
        "i64" => put_written(answer, plain, i64_of(word)?),
        _ => Err(Fault::Unknown),
    }
}

/// Appends the answer of a call on a slot, a sum or a summary, and returns whether the call is one.
pub fn put(answer: &mut String, plain: Global, call: Call<'_>) -> Result<bool, Fault> {
    match call.verb {
        "slot" => put_slots(answer, plain, call.argument)?,
        "checked_sum" => put_sum(answer, call.argument)?,
        "summary" => put_summary(answer, plain, call.argument)?,
        _ => return Ok(false),
    }
    Ok(true)
}
