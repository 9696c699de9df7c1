//! Keys that are fields and end in the first bytes of a text, found by a mask of the separators.
ghost use Rattle.std.specs.Prelude.{◌≡◌, ◌+◌, ◌-◌, ◌<◌, ◌≤◌, ◌==◌, ℕ, List, not, min, map, length, take, drop, IfSome};
ghost use Rattle.std.specs.List.{prefix_len};
ghost use Rattle.std.specs.Simd.Lanes.{mask_l};
ghost use Rattle.keys_lines.specs.Keys.{line_hash, hashing_of, key_of};
ghost use Rattle.keys_lines.specs.declared.cut.TheConstants.{LANES};
ghost use Rattle.keys_lines.specs.declared.key.Key.TheVariants.{Field};

use crate::cut::{LANES, marks_of};
use crate::key::{Hashing, Key};
use crate::open_line::line_hash;
use sketch_base::MurmurHash3X64128;
use std::hash::Hasher;

/// Where the first mark from `from` on is, of marks of `LANES` bytes; at least `LANES` if there is none.
#[inline(always)]
fn next_mark(marks: u64, from: usize) -> usize
    requires { from ≤ LANES }
    ensures { (byte : ℕ) (lanes : List ℕ)
        → length lanes ≡ LANES
        → marks ≡ mask_l (map (λ x. x == byte) lanes)
        → min result LANES ≡ from + prefix_len (λ x. not (x == byte)) (drop from lanes) }
{
    from + (marks >> from).trailing_zeros() as usize
}

/// Where the field after `before` others begins and ends in a line of `count` bytes that begins a text. A line without
/// the separator is its own key, and a line of fewer fields has an empty key. `None` if the key may not end within the
/// first `LANES` bytes.
#[inline(always)]
fn key_place(text: &[u8], count: usize, before: u32, separator: u8) -> Option<(usize, usize)>
    requires enough { LANES ≤ length text.now }
    requires whole { count ≤ length text.now }
    ensures key { IfSome result (λ p.
        key_of (Field before separator) (take count text.now) ≡ take (p.1 - p.0) (drop p.0 text.now)) }
    ensures ordered { IfSome result (λ p. p.0 ≤ p.1) }
    ensures within { IfSome result (λ p. p.1 ≤ count) }
    ensures few { IfSome result (λ p. p.1 < LANES) }
{
    let marks = marks_of(text, 0, separator);
    let most = count.min(LANES);
    let mut start = 0usize;
    let mut left = before;
    while left > 0 {
        let next = next_mark(marks, start);
        if next >= most {
            if count >= LANES {
                return None;
            }
            return Some(if start == 0 {
                (0, count)
            } else {
                (count, count)
            });
        }
        start = next + 1;
        left -= 1;
    }
    let next = next_mark(marks, start);
    if next < most {
        return Some((start, next));
    }
    if count < LANES {
        Some((start, count))
    } else {
        None
    }
}

/// The hash of a field of a line of `count` bytes that begins a text.
#[inline(never)]
pub(crate) fn field_hash(seed: u64, before: u32, separator: u8, text: &[u8], count: usize) -> u64
    requires enough { LANES ≤ length text.now }
    requires whole { count ≤ length text.now }
    ensures { result ≡ line_hash (hashing_of (Field before separator) seed) (take count text.now) }
{
    if let Some((start, end)) = key_place(text, count, before, separator) {
        if let Some(front) = text[start..].first_chunk::<LANES>() {
            return MurmurHash3X64128::of_front(seed, front, end - start).finish() >> 1;
        }
    }
    let hashing = Hashing {
        key: Key::Field(before, separator),
        seed,
    };
    line_hash(hashing, &text[..count])
}
