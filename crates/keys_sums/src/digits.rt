//! A whole number in decimal digits that is read byte by byte.
ghost use Rattle.std.specs.Prelude.{◌≡◌, ◌<◌, ◌≤◌, ◌+◌, ◌*◌, ◌^◌, ℕ, List, Some, IfSome};
ghost use Rattle.keys_sums.specs.Amounts.{number_in, IsRead};
ghost use Rattle.keys_sums.specs.declared.digits.Digits.TheVariants as digits;

use crate::parts::{Collected, OpenPart};
use keys_lines::Key;

/// The greatest number to which any digit can be appended below 2^64.
const MOST_BEFORE_DIGIT: u64 = u64::MAX / 10 - 1;

/// The number that a text spells, if it is found without a test for overflow at each digit.
pub(crate) fn short_number(text: &[u8]) -> Option<u64>
    ensures { IfSome result (λ n. number_in text.now ≡ Some n) }
{
    let Some((first, others)) = text.split_first() else {
        return None;
    };
    if !first.is_ascii_digit() {
        return None;
    }
    let mut number = (*first - b'0') as u64;
    for byte in others {
        if !byte.is_ascii_digit() || number > MOST_BEFORE_DIGIT {
            return None;
        }
        number = number * 10 + (*byte - b'0') as u64;
    }
    Some(number)
}

/// The whole number below 2^64 that a text spells in decimal digits, if it spells one.
pub(crate) fn number_in(text: &[u8]) -> Option<u64>
    ensures { result ≡ number_in text.now }
{
    match short_number(text) {
        Some(number) => Some(number),
        None => {
            let digits: OpenPart<Digits> = OpenPart::new();
            digits.with_bytes(Key::Line, text).collected.number()
        }
    }
}

/// What the bytes read so far spell.
#[derive(Clone, Copy, Debug, PartialEq, Eq)]
pub(crate) enum Digits {
    /// No byte is read yet.
    Nothing,
    /// Digits of this number.
    Spells(u64),
    /// No number below 2^64, whatever bytes follow.
    Wrong,
}

/// The digits of a number and one digit more.
fn with_digit(number: u64, digit: u64) -> Digits
    requires small { digit < 10 }
    ensures fits { number * 10 + digit < 2 ^ 64 → result ≡ digits.Spells (number * 10 + digit) }
    ensures past { 2 ^ 64 ≤ number * 10 + digit → result ≡ digits.Wrong }
{
    let next = number as u128 * 10 + digit as u128;
    if next <= u64::MAX as u128 {
        Digits::Spells(next as u64)
    } else {
        Digits::Wrong
    }
}

impl Collected for Digits {
    ghost use Rattle.keys_sums.specs.Amounts.{IsRead};

    ghost is_of = { IsRead };

    fn nothing() -> Digits {
        Digits::Nothing
    }

    fn with(self, byte: u8) -> Digits {
        if !byte.is_ascii_digit() {
            return Digits::Wrong;
        }
        let digit = (byte - b'0') as u64;
        match self {
            Digits::Nothing => Digits::Spells(digit),
            Digits::Spells(number) => with_digit(number, digit),
            Digits::Wrong => Digits::Wrong,
        }
    }
}

impl Digits {
    /// The number that the bytes spell, if they spell one below 2^64.
    pub(crate) fn number(self) -> Option<u64>
        ensures { (bytes : List ℕ) → IsRead bytes self → result ≡ number_in bytes }
    {
        match self {
            Digits::Nothing => None,
            Digits::Spells(number) => Some(number),
            Digits::Wrong => None,
        }
    }
}
