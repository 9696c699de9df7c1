//! Images as text: two hexadecimal digits per byte.
ghost use Rattle.std.specs.Prelude.{◌≡◌, ◌++◌, ◌∷◌, ◌<◌, [], Option, Some, None, IfOk, OnOk, MatchOption, is_some};
ghost use Rattle.std.specs.Char.{digit_char};
ghost use Rattle.keys_sketches.specs.Hex.{hex_of, digit_of, are_digits, digit_value, pair_value, bytes_of_hex};

use std::alloc::{AllocError, Allocator};

/// The letter of a digit.
fn digit_letter(digit: u8) -> u8
    requires { digit < 16 }
    ensures { result ≡ digit_char digit }
{
    if digit < 10 { 48 + digit } else { 87 + digit }
}

/// Appends the two hexadecimal digits of a byte, in lowercase. The only error is `AllocError`.
pub fn put_byte<A: Allocator>(line: &mut Vec<u8, A>, byte: u8) -> Result<(), AllocError>
    ensures { OnOk result (line.new.items ≡ line.old.items ++ hex_of (byte ∷ [])) }
{
    line.push(digit_letter(byte / 16))?;
    line.push(digit_letter(byte % 16))?;
    Ok(())
}

/// Bytes as a line of lowercase hexadecimal digits, two per byte, with the LF that ends it. The only error is
/// `AllocError`. `read_hex` reads the digits without the LF.
pub fn hex_line<A: Allocator>(alloc: A, bytes: &[u8]) -> Result<Vec<u8, A>, AllocError>
    ensures { IfOk result (λ v. v.items ≡ hex_of bytes.now ++ 10 ∷ []) }
{
    let mut line = Vec::new(alloc);
    for byte in bytes {
        put_byte(&mut line, *byte)?;
    }
    line.push(b'\n')?;
    Ok(line)
}

/// Whether a letter is a digit, of either case. All comparisons are made, so that vector code makes them.
#[inline(always)]
fn is_digit(letter: u8) -> bool
    ensures { result ≡ is_some (digit_of letter) }
{
    let decimal = (b'0' <= letter) & (letter <= b'9');
    let lower = (b'a' <= letter) & (letter <= b'f');
    let upper = (b'A' <= letter) & (letter <= b'F');
    decimal | lower | upper
}

/// Whether all bytes are hexadecimal digits, of either case.
pub(crate) fn are_digits(letters: &[u8]) -> bool
    ensures { result ≡ are_digits letters.now }
{
    let mut all = true;
    for letter in letters {
        all = all & is_digit(*letter);
    }
    all
}

/// What a digit counts, of either case. What it is for another letter is only a number.
#[inline(always)]
fn digit_value(letter: u8) -> u8
    ensures { result ≡ digit_value letter }
{
    letter % 16 + 9 * (letter / 64)
}

/// The byte of two digits.
#[inline(always)]
fn pair_value(pair: &[u8; 2]) -> u8
    ensures { result ≡ pair_value pair.now }
{
    16 * (digit_value(pair[0]) % 16) + digit_value(pair[1]) % 16
}

/// The bytes that hexadecimal digits of either case spell, two per byte. `None` if their number is odd or if another
/// byte is among them, such as an LF at the end. The only error is `AllocError`.
///
/// The digits are tested first, and then read as if no other letter could be among them: neither loop has a branch.
pub fn read_hex<A: Allocator + Drop>(
    alloc: A,
    text: &[u8],
) -> Result<Option<Vec<u8, A>>, AllocError>
    ensures { IfOk result (λ o.
        MatchOption o (bytes_of_hex text.now ≡ None) (λ v. bytes_of_hex text.now ≡ Some v.items)) }
{
    if text.len() % 2 == 1 || !are_digits(text) {
        return Ok(None);
    }
    let (pairs, _) = text.as_chunks::<2>();
    let found = pairs.iter().map(
        |pair| -> u8
            ensures { result ≡ pair_value pair.now }
        { pair_value(pair) },
    );
    let mut bytes = Vec::with_capacity(alloc, pairs.len())?;
    bytes.extend(found)?;
    Ok(Some(bytes))
}
