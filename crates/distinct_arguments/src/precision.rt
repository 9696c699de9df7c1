//! The size of a sketch by the standard error that it may have.
ghost use Rattle.std.specs.Prelude.{◌≡◌, ◌≤◌, ◌&&◌, IfSome, true, nat_le};
ghost use Rattle.std.specs.List.{find, list_all};
ghost use Rattle.distinct_arguments.specs.Precision.{unit_of, fraction_of, mixed_of, decimal_of, percentage_of};
ghost use Rattle.distinct_arguments.specs.Precision.{is_enough, least_size, size_of};

use crate::words::number_of;

/// The ten-thousandths that decimal places spell, of which there are one to four.
fn fraction_of(places: &str) -> Option<u64>
    ensures value { result ≡ fraction_of places.now }
    ensures bound { IfSome result (λ n. n ≤ 9999000) }
{
    let unit = match places.len() {
        1 => 1000,
        2 => 100,
        3 => 10,
        4 => 1,
        _ => return None,
    };
    Some(number_of(places, 0, 9999)? * unit)
}

/// The ten-thousandths that a whole number up to 100 and decimal places spell.
fn mixed_of(whole: &str, places: &str) -> Option<u64>
    ensures { result ≡ mixed_of whole.now places.now }
{
    let whole = number_of(whole, 0, 100)?;
    let part = fraction_of(places)?;
    Some(whole * 10000 + part)
}

/// The ten-thousandths that a decimal number spells, with a point or without.
fn decimal_of(word: &str) -> Option<u64>
    ensures { result ≡ decimal_of word.now }
{
    match word.split_once('.') {
        Some((whole, places)) => mixed_of(whole, places),
        None => Some(number_of(word, 0, 100)? * 10000),
    }
}

/// The ten-thousandths that a percentage spells, with a percent sign or without.
fn percentage_of(word: &str) -> Option<u64>
    ensures { result ≡ percentage_of word.now }
{
    match word.split_once('%') {
        Some((number, behind)) => {
            if behind.is_empty() {
                decimal_of(number)
            } else {
                None
            }
        }
        None => decimal_of(word),
    }
}

/// The squares of ten-thousandths of a percent that are one.
const ONE: u64 = 1_000_000_000_000;

/// Whether the standard error of 2^`lg_k` hashes is at most a percentage, in ten-thousandths.
fn is_enough(percentage: u64, lg_k: u8) -> bool
    requires fits { percentage ≤ 1000000 }
    requires small { lg_k ≤ 26 }
    ensures { result ≡ is_enough percentage lg_k }
{
    let hashes = 2u64.pow(lg_k as u32);
    ONE <= hashes.saturating_mul(percentage * percentage)
}

/// The sizes that sketches may have, as `lg_k`.
const SIZES: [u8; 23] = [
    4, 5, 6, 7, 8, 9, 10, 11, 12, 13, 14, 15, 16, 17, 18, 19, 20, 21, 22, 23, 24, 25, 26,
];

/// The first of sizes whose standard error is at most a percentage, in ten-thousandths.
fn first_enough(percentage: u64, mut sizes: &[u8]) -> Option<u8>
    requires fits { percentage ≤ 1000000 }
    requires range { list_all (λ n. nat_le 4 n && nat_le n 26) sizes.now ≡ true }
    ensures first { result ≡ find (is_enough percentage) sizes.entry.now }
    ensures range { IfSome result (λ n. (4 ≤ n) × (n ≤ 26)) }
{
    while let [size, others @ ..] = sizes {
        if is_enough(percentage, *size) {
            return Some(*size);
        }
        sizes = others;
    }
    None
}

/// The least size whose standard error is at most the percentage that a word spells, up to 100 percent.
pub(crate) fn size_of(word: &str) -> Option<u8>
    ensures least { result ≡ size_of word.now }
    ensures range { IfSome result (λ n. (4 ≤ n) × (n ≤ 26)) }
{
    let percentage = percentage_of(word)?;
    if percentage > 1_000_000 {
        return None;
    }
    first_enough(percentage, &SIZES)
}
