//! Texts cut at the first byte of some value.
ghost use Rattle.std.specs.Prelude.{◌≡◌, ◌+◌, ◌≤◌, ◌++◌, ◌∷◌, ◌==◌, not, length, map, IfNone, IfSome};
ghost use Rattle.std.specs.List.{prefix_len};
ghost use Rattle.std.specs.Simd.Lanes.{chunk, mask_l};
ghost use Rattle.keys_lines.specs.Lines.{Lacks};
ghost use Rattle.keys_lines.specs.declared.cut.TheConstants.{LANES, FEW};

use std::simd::prelude::*;

/// How many bytes are compared at once.
pub(crate) const LANES: usize = 32;

/// Bit k is 1 if byte k of the next `LANES` bytes, from 0, is `byte`.
#[inline(always)]
pub(crate) fn marks_of(text: &[u8], from: usize, byte: u8) -> u64
    requires { from + LANES ≤ length text.now }
    ensures { result ≡ mask_l (map (λ x. x == byte) (chunk from LANES text.now)) }
{
    u8x32::from_slice(&text[from..])
        .simd_eq(u8x32::splat(byte))
        .to_bitmask()
}

/// How many of the next `LANES` bytes come before the first that is `byte`; `LANES` if none is.
#[inline(always)]
pub(crate) fn first_of_lanes(text: &[u8], from: usize, byte: u8) -> usize
    requires { from + LANES ≤ length text.now }
    ensures { result ≡ prefix_len (λ x. not (x == byte)) (chunk from LANES text.now) }
{
    let marks = marks_of(text, from, byte);
    if marks == 0 {
        LANES
    } else {
        marks.trailing_zeros() as usize
    }
}

/// How many bytes are compared at once where fewer than `LANES` are left.
const FEW: usize = 8;

/// Bit k is 1 if byte k of the next `FEW` bytes, from 0, is `byte`.
#[inline(always)]
fn few_marks_of(text: &[u8], from: usize, byte: u8) -> u64
    requires { from + FEW ≤ length text.now }
    ensures { result ≡ mask_l (map (λ x. x == byte) (chunk from FEW text.now)) }
{
    u8x8::from_slice(&text[from..])
        .simd_eq(u8x8::splat(byte))
        .to_bitmask()
}

/// How many of the next `FEW` bytes come before the first that is `byte`; `FEW` if none is.
#[inline(always)]
fn first_of_few(text: &[u8], from: usize, byte: u8) -> usize
    requires { from + FEW ≤ length text.now }
    ensures { result ≡ prefix_len (λ x. not (x == byte)) (chunk from FEW text.now) }
{
    let marks = few_marks_of(text, from, byte);
    if marks == 0 {
        FEW
    } else {
        marks.trailing_zeros() as usize
    }
}

/// The parts of a text before and after its first `byte`; `None` if the text doesn't have that byte.
#[inline(always)]
pub fn cut_at(text: &[u8], byte: u8) -> Option<(&[u8], &[u8])>
    ensures none { IfNone result (Lacks byte text.now) }
    ensures lacks { IfSome result (λ x. Lacks byte x.0.now) }
    ensures parts { IfSome result (λ x. text.now ≡ x.0.now ++ byte ∷ x.1.now) }
{
    let mut from = 0;
    while LANES <= text.len() - from {
        let count = first_of_lanes(text, from, byte);
        if count < LANES {
            return Some((&text[..from + count], &text[from + count + 1..]));
        }
        from += LANES;
    }
    while FEW <= text.len() - from {
        let count = first_of_few(text, from, byte);
        if count < FEW {
            return Some((&text[..from + count], &text[from + count + 1..]));
        }
        from += FEW;
    }
    for i in from..text.len() {
        if text[i] == byte {
            return Some((&text[..i], &text[i + 1..]));
        }
    }
    None
}

/// The first line of a text, without the LF that ends it, and the text after that LF; `None` if the text has no LF.
#[inline(always)]
pub fn cut_line(text: &[u8]) -> Option<(&[u8], &[u8])>
    ensures none { IfNone result (Lacks 10 text.now) }
    ensures line { IfSome result (λ x. Lacks 10 x.0.now) }
    ensures parts { IfSome result (λ x. text.now ≡ x.0.now ++ 10 ∷ x.1.now) }
{
    cut_at(text, b'\n')
}
