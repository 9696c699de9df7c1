//! The hashes of the lines at the front of a text. Short lines are hashed in place, two in each step.
ghost use Rattle.std.specs.Prelude.{◌≡◌, ◌+◌, ◌<◌, ◌≤◌, ◌==◌, length, map, take, IfNone, IfSome};
ghost use Rattle.std.specs.Simd.Lanes.{chunk, mask_l};
ghost use Rattle.keys_lines.specs.Keys.{line_hash};
ghost use Rattle.keys_lines.specs.Hashed.{BeginsWithLine, BeginsWithTwo, AreHashesOfLines};
ghost use Rattle.keys_lines.specs.Lines.{Lacks};
ghost use Rattle.keys_lines.specs.declared.cut.TheConstants.{LANES};
ghost use Rattle.keys_lines.specs.declared.hashed_lines.TheConstants.{WINDOW};

use crate::cut::{LANES, cut_line, first_of_lanes};
use crate::field::field_hash;
use crate::key::{Hashing, Key};
use crate::open_line::line_hash;
use sketch_base::MurmurHash3X64128;
use std::hash::Hasher;
use std::simd::prelude::*;

/// The number of bytes in which two lines are looked for at once.
const WINDOW: usize = 64;

/// Bit k is 1 if byte k of the first `WINDOW` bytes, from 0, is an LF.
#[inline(always)]
fn ends_in_window(text: &[u8]) -> u64
    requires { WINDOW ≤ length text.now }
    ensures { result ≡ mask_l (map (λ x. x == 10) (chunk 0 WINDOW text.now)) }
{
    u8x64::from_slice(text)
        .simd_eq(u8x64::splat(b'\n'))
        .to_bitmask()
}

/// The hash of the key of a line of `count` bytes that begins a text, fewer than `LANES`, which are at its front.
#[inline(always)]
fn front_hash(hashing: Hashing, text: &[u8], front: &[u8; LANES], count: usize) -> u64
    requires few { count < LANES }
    requires enough { LANES ≤ length text.now }
    requires front { front.now ≡ take LANES text.now }
    ensures { result ≡ line_hash hashing (take count text.now) }
{
    match hashing.key {
        Key::Line => MurmurHash3X64128::of_front(hashing.seed, front, count).finish() >> 1,
        Key::Field(before, separator) => {
            field_hash(hashing.seed, before, separator, text, count)
        }
    }
}

/// The hash of the key of a line of `count` bytes that begins a text.
#[inline(always)]
fn long_hash(hashing: Hashing, text: &[u8], count: usize) -> u64
    requires whole { count ≤ length text.now }
    ensures { result ≡ line_hash hashing (take count text.now) }
{
    match hashing.key {
        Key::Field(before, separator) if LANES <= text.len() => {
            field_hash(hashing.seed, before, separator, text, count)
        }
        _ => line_hash(hashing, &text[..count]),
    }
}

/// The hash of the first line of a text, and the text after the LF that ends this line; `None` if the text has no LF.
#[inline(always)]
fn hash_first_line(hashing: Hashing, text: &[u8]) -> Option<(u64, &[u8])>
    ensures none { IfNone result (Lacks 10 text.now) }
    ensures line { IfSome result (λ x. BeginsWithLine hashing text.now x.0 x.1.now) }
{
    if let Some(front) = text.first_chunk::<LANES>() {
        let count = first_of_lanes(text, 0, b'\n');
        if count < LANES {
            return Some((front_hash(hashing, text, front, count), &text[count + 1..]));
        }
    }
    let Some((line, rest)) = cut_line(text) else {
        return None;
    };
    Some((long_hash(hashing, text, line.len()), rest))
}

/// The hashes of the first two lines of a text, and the text after them; `None` unless both are short and end within
/// the first `WINDOW` bytes. One mask finds both ends. Each step begins at the end of a line that the step before
/// found, and waits for it; with two lines in each step there are half as many waits.
#[inline(always)]
fn hash_two_lines(hashing: Hashing, text: &[u8]) -> Option<(u64, u64, &[u8])>
    ensures { IfSome result (λ x. BeginsWithTwo hashing text.now x.0 x.1 x.2.now) }
{
    if text.len() < WINDOW {
        return None;
    }
    let ends = ends_in_window(text);
    let Some(front) = text.first_chunk::<LANES>() else {
        return None;
    };
    let first = ends.trailing_zeros() as usize;
    if LANES <= first {
        return None;
    }
    let behind = &text[first + 1..];
    let Some(next) = behind.first_chunk::<LANES>() else {
        return None;
    };
    let second = (ends >> (first + 1)).trailing_zeros() as usize;
    if LANES <= second {
        return None;
    }
    let rest = &behind[second + 1..];
    Some((
        front_hash(hashing, text, front, first),
        front_hash(hashing, behind, next, second),
        rest,
    ))
}

/// Hashes the keys of the first lines of a text that end in an LF, in order, into `hashes`: of all such lines, or of
/// as many as there is room for. Returns their number and the text after the last of them. Each hash has 63 bits.
pub fn hash_lines<'a>(hashing: Hashing, text: &'a [u8], hashes: &mut [u64]) -> (usize, &'a [u8])
    ensures limited { result.0 ≤ length hashes.old }
    ensures lines { AreHashesOfLines hashing text.now (take result.0 hashes.new) result.1.now }
    ensures all { result.0 < length hashes.old → Lacks 10 result.1.now }
    ensures shorter { length result.1.now + result.0 ≤ length text.now }
{
    let mut rest = text;
    let mut count = 0usize;
    'hash_pairs: while 2 <= hashes.len() - count {
        match hash_two_lines(hashing, rest) {
            Some((first, second, others)) => {
                hashes[count] = first;
                hashes[count + 1] = second;
                rest = others;
                count += 2;
            }
            None => {
                let Some((found, others)) = hash_first_line(hashing, rest) else {
                    return (count, rest);
                };
                hashes[count] = found;
                rest = others;
                count += 1;
            }
        }
    }
    if count < hashes.len() {
        if let Some((found, others)) = hash_first_line(hashing, rest) {
            hashes[count] = found;
            return (count + 1, others);
        }
    }
    (count, rest)
}
