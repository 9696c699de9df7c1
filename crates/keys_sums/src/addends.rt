//! What a line adds to the sum of its key, while the line is read in pieces.
ghost use Rattle.std.specs.Prelude.{◌≡◌, ◌++◌, ◌∷◌, ◌==◌, not, ℕ, List, [], Some, length, IfSome};
ghost use Rattle.keys_lines.specs.Keys.{line_hash};
ghost use Rattle.keys_lines.specs.declared.key.Hashing.{Hashing};
ghost use Rattle.keys_sums.specs.Amounts.{amount_in, value_in, IsEndedAddend, IsOpenAddend};
ghost use Rattle.keys_sums.specs.Parts.{IsStart};
ghost use Rattle.keys_sums.specs.declared.addends.Amount.{Amount};
ghost use Rattle.keys_sums.specs.declared.addends.Amount.TheVariants.{One};

use crate::digits::{Digits, number_in, short_number};
use crate::parts::{Collected, OpenPart};
use crate::starts::ValueStart;
use keys_lines::{Hashing, Key, OpenLine, key_hash, key_in};

/// What each line adds to the sum of its key.
///
/// ```
/// let visits = Amount::One;
/// let spent = Amount::Number(Key::field(3, b'\t'));
/// ```
#[derive(Clone, Copy, Debug, PartialEq, Eq)]
pub enum Amount {
    /// One, so that a sum is the number of a key's lines.
    One,
    /// The whole number below 2^64 that this part of the line spells in decimal digits, with nothing else beside
    /// them.
    Number(Key),
}

/// The hash of the key of a whole line, of 63 bits, and what the line adds. `None` unless the number is found at once.
#[inline(always)]
pub(crate) fn whole_addend(hashing: Hashing, amount: Amount, line: &[u8]) -> Option<(u64, u64)>
    ensures hash { IfSome result (λ x. x.0 ≡ line_hash hashing line.now) }
    ensures value { IfSome result (λ x. amount_in amount line.now ≡ Some x.1) }
{
    let value = match amount {
        Amount::One => 1,
        Amount::Number(key) => short_number(key_in(key, line))?,
    };
    Some((key_hash(hashing, line), value))
}

/// What a whole line adds; `None` if that is no number below 2^64.
pub fn amount_in(amount: Amount, line: &[u8]) -> Option<u64>
    ensures { result ≡ amount_in amount line.now }
{
    match amount {
        Amount::One => Some(1),
        Amount::Number(key) => number_in(key_in(key, line)),
    }
}

/// How the part of a whole line starts that should be a number. It is empty if each line adds one.
pub fn value_start(amount: Amount, line: &[u8]) -> ValueStart
    ensures { IsStart (value_in amount line.now) result }
{
    match amount {
        Amount::One => ValueStart::nothing(),
        Amount::Number(key) => {
            let start: OpenPart<ValueStart> = OpenPart::new();
            start.with_bytes(key, line).collected
        }
    }
}

/// A line that has begun, which is to be added: the hash of its key, and the number in its part, so far; and how that part
/// starts in the blocks before the one in which the line ends, so that a message can quote it.
#[derive(Clone, Copy)]
pub(crate) struct OpenAddend {
    line: OpenLine,
    number: OpenPart<Digits>,
    start: OpenPart<ValueStart>,
}

impl OpenAddend {
    /// A line without bytes yet, to be hashed in this way.
    pub(crate) fn new(hashing: Hashing) -> OpenAddend
        ensures { (amount : Amount) → IsOpenAddend hashing amount [] result }
    {
        OpenAddend {
            line: OpenLine::new(hashing),
            number: OpenPart::new(),
            start: OpenPart::new(),
        }
    }

    /// Begins a line without bytes yet, to be hashed in this way.
    pub(crate) fn restart(&mut self, hashing: Hashing)
        ensures { (amount : Amount) → IsOpenAddend hashing amount [] self.new }
    {
        self.line = OpenLine::new(hashing);
        self.number = OpenPart::new();
        self.start.clear();
    }

    /// Appends bytes, none of which is an LF, to a line that adds such an amount.
    pub(crate) fn extend(&mut self, amount: Amount, bytes: &[u8])
        ensures { (hashing : Hashing) (front : List ℕ)
            → IsOpenAddend hashing amount front self.old
            → IsOpenAddend hashing amount (front ++ bytes.now) self.new }
    {
        self.end(amount, bytes);
        match amount {
            Amount::One => {}
            Amount::Number(key) => self.start = self.start.with_bytes(key, bytes),
        }
    }

    /// Appends the last bytes of a line, none of which is an LF. How the line's part starts is kept as it is, since most
    /// lines have a number.
    pub(crate) fn end(&mut self, amount: Amount, bytes: &[u8])
        ensures { (hashing : Hashing) (front : List ℕ)
            → IsOpenAddend hashing amount front self.old
            → IsEndedAddend hashing amount (front ++ bytes.now) front bytes.now self.new }
    {
        self.line.extend(bytes);
        match amount {
            Amount::One => {}
            Amount::Number(key) => self.number = self.number.with_bytes(key, bytes),
        }
    }

    /// Whether it has a byte.
    pub(crate) fn is_begun(&self) -> bool
        ensures { (hashing : Hashing) (amount : Amount) (front : List ℕ)
            → IsOpenAddend hashing amount front self.now
            → result ≡ not (length front == 0) }
    {
        self.line.is_begun()
    }

    /// The hash of its key, of 63 bits.
    pub(crate) fn hash(&self) -> u64
        ensures { (hashing : Hashing) (amount : Amount) (line front last : List ℕ)
            → IsEndedAddend hashing amount line front last self.now
            → result ≡ line_hash hashing line }
    {
        self.line.hash()
    }

    /// What it adds; `None` if that is no number below 2^64.
    pub(crate) fn value(&self, amount: Amount) -> Option<u64>
        ensures value { (hashing : Hashing) (line front last : List ℕ)
            → IsEndedAddend hashing amount line front last self.now
            → result ≡ amount_in amount line }
        ensures one { amount ≡ One → result ≡ Some 1 }
    {
        match amount {
            Amount::One => Some(1),
            Amount::Number(_) => self.number.collected.number(),
        }
    }

    /// How the part that should be a number starts in a line whose last bytes these are.
    pub(crate) fn value_start(&self, amount: Amount, bytes: &[u8]) -> ValueStart
        ensures { (hashing : Hashing) (line front : List ℕ)
            → IsEndedAddend hashing amount line front bytes.now self.now
            → IsStart (value_in amount line) result }
    {
        match amount {
            Amount::One => ValueStart::nothing(),
            Amount::Number(key) => self.start.with_bytes(key, bytes).collected,
        }
    }
}
