//! Numbers as text.
ghost use Rattle.std.specs.Prelude.{◌≡◌, ◌+◌, ◌-◌, ◌≤◌, ◌++◌, length, drop, decimal};
ghost use Rattle.c_objects.specs.Buffer.{IsPut};
ghost use Rattle.c_objects.specs.Numerals.{last_digits, after_point, decimal_text};

use crate::buffer::put;

/// The bytes of the longest text: 39 digits of a number of 128 bits, the point, and 19 decimals fit.
const ROOM: usize = 64;

/// Writes the digits of a number before a place of a text. Returns the place of the first digit.
fn put_digits(number: u128, text: &mut [u8], end: usize) -> usize
    requires fits { length (decimal number) ≤ end }
    requires within { end ≤ length text.old }
    ensures start { result + length (decimal number) ≡ end }
    ensures written { drop result text.new ≡ decimal number ++ drop end text.old }
{
    let at = end - 1;
    text[at] = b'0' + (number % 10) as u8;
    if number < 10 {
        return at;
    }
    put_digits(number / 10, text, at)
}

/// Writes the last `places` digits of a number, with zeros in front, before a place of a text.
fn put_last_digits(number: u64, places: usize, text: &mut [u8], end: usize)
    requires fits { places ≤ end }
    requires within { end ≤ length text.old }
    ensures { drop (end - places) text.new ≡ last_digits places number ++ drop end text.old }
{
    if places == 0 {
        return;
    }
    let at = end - 1;
    text[at] = b'0' + (number % 10) as u8;
    put_last_digits(number / 10, places - 1, text, at);
}

/// Puts a whole number, as text, into a buffer.
pub fn put_number(number: u128, out: &mut [u8], length: &mut u64) -> u32
    ensures { IsPut (decimal number) out.old result out.new length.new }
{
    let mut text = [0u8; ROOM];
    let start = put_digits(number, &mut text, ROOM);
    put(&text[start..], out, length)
}

/// Writes the decimals of a number to the end of a text, behind a point, or nothing if there are none. Returns the
/// place of the point.
fn put_point(decimals: u64, places: u32, text: &mut [u8; ROOM]) -> usize
    requires limited { places ≤ 19 }
    ensures start { result + length (after_point decimals places) ≡ 64 }
    ensures short { 44 ≤ result }
    ensures written { drop result text.new ≡ after_point decimals places }
{
    if places == 0 {
        return ROOM;
    }
    let count = places as usize;
    put_last_digits(decimals, count, text, ROOM);
    let at = ROOM - count - 1;
    text[at] = b'.';
    at
}

/// Puts a number with decimals, as text, into a buffer: its whole part, and a point and all `places` decimals unless
/// there are none.
pub fn put_decimal(whole: u128, decimals: u64, places: u32, out: &mut [u8], length: &mut u64) -> u32
    requires limited { places ≤ 19 }
    ensures { IsPut (decimal_text whole decimals places) out.old result out.new length.new }
{
    let mut text = [0u8; ROOM];
    let point = put_point(decimals, places, &mut text);
    let start = put_digits(whole, &mut text, point);
    put(&text[start..], out, length)
}
