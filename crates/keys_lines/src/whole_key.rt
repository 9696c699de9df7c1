//! The key of a whole line, as a part of it.
ghost use Rattle.std.specs.Prelude.{◌≡◌, [], get_or};
ghost use Rattle.keys_lines.specs.Keys.{fields_of, key_of, line_hash};

use crate::cut::cut_at;
use crate::key::{Hashing, Key};
use crate::open_line::line_hash;

/// The field of a text after this many others; empty if the text has fewer.
fn field_after(before: u32, separator: u8, text: &[u8]) -> &[u8]
    ensures { result.now ≡ get_or (fields_of separator text.now) before [] }
{
    let mut rest = text;
    for passed in 0..before {
        match cut_at(rest, separator) {
            Some((_, others)) => rest = others,
            None => return &[],
        }
    }
    match cut_at(rest, separator) {
        Some((field, _)) => field,
        None => rest,
    }
}

/// The key of a line, which has no LF.
#[inline(always)]
pub fn key_in(key: Key, line: &[u8]) -> &[u8]
    ensures { result.now ≡ key_of key line.now }
{
    match key {
        Key::Line => line,
        Key::Field(before, separator) => match cut_at(line, separator) {
            Some((first, others)) => {
                if before == 0 {
                    first
                } else {
                    field_after(before - 1, separator, others)
                }
            }
            None => line,
        },
    }
}

/// The hash of the key of a line, of 63 bits: the result of `line_hash`. The key is found first and then hashed alone;
/// `line_hash` hashes the first field until it has met a separator, as for a line that comes in pieces.
#[inline(always)]
pub fn key_hash(hashing: Hashing, line: &[u8]) -> u64
    ensures { result ≡ line_hash hashing line.now }
{
    let whole = Hashing {
        key: Key::Line,
        seed: hashing.seed,
    };
    line_hash(whole, key_in(hashing.key, line))
}
