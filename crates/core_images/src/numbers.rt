//! Tuples whose summaries are numbers: their bytes have one size.
ghost use Rattle.std.specs.Prelude.{◌≡◌, ◌<◌, ◌+◌, ◌^◌, ◌++◌, take, drop};
ghost use Rattle.std.specs.Int.{w64, to_le_bytes, from_le_bytes};

use crate::blocks::FixedEntry;
use core_slots::TupleEntry;

/// The eight bytes of a hash, and then those of a number.
#[inline(always)]
fn joined<const M: usize, const N: usize>(hash: u64, number: [u8; M]) -> [u8; N]
    requires size { 8 + M ≡ N }
    requires small { N < 2 ^ 16 }
    ensures { result ≡ to_le_bytes w64 hash ++ number.entry }
{
    let mut text = [0u8; N];
    let (front, back) = text.split_at_mut(8);
    front.copy_from_slice(&u64::to_le_bytes(hash));
    back.copy_from_slice(&number);
    text
}

/// The hash of the first eight bytes, and the bytes of the number after them.
#[inline(always)]
fn parted<const M: usize, const N: usize>(spelling: &[u8; N]) -> (u64, [u8; M])
    requires size { 8 + M ≡ N }
    requires small { N < 2 ^ 16 }
    ensures hash { result.0 ≡ from_le_bytes w64 (take 8 spelling.now) }
    ensures number { result.1 ≡ drop 8 spelling.now }
{
    let (front, back) = spelling.split_at(8);
    let mut hash = [0u8; 8];
    hash.copy_from_slice(front);
    let mut number = [0u8; M];
    number.copy_from_slice(back);
    (u64::from_le_bytes(hash), number)
}

impl FixedEntry<12> for TupleEntry<u32> {
    ghost use Rattle.std.specs.Prelude.{◌<◌, ◌^◌};
    ghost use Rattle.std.specs.Int.{w32, to_le_bytes, from_le_bytes};
    ghost use Rattle.core_images.specs.Summary.{SpellsTuple, SpellsNumber, is_tuple_value, tuple_text, tuple_in};
    ghost use Rattle.core_images.specs.SummarySpelling.{four_read, tuple_spelled, tuple_size};

    ghost spells = { SpellsTuple (SpellsNumber 4) };

    ghost is_value = { is_tuple_value (λ x. x < 2 ^ 32) };

    ghost text = { tuple_text (to_le_bytes w32) };

    ghost entry_of = { tuple_in (from_le_bytes w32) };

    #[inline(always)]
    fn to_text(&self) -> [u8; 12] {
        joined(self.hash(), u32::to_le_bytes(*self.summary()))
    }

    #[inline(always)]
    fn of_text(spelling: &[u8; 12]) -> TupleEntry<u32> {
        let (hash, number) = parted(spelling);
        TupleEntry::of_hash(hash, u32::from_le_bytes(number))
    }

    ghost spelled = { tuple_spelled (SpellsNumber 4) 4 (from_le_bytes w32) four_read };

    ghost is_long = { tuple_size (SpellsNumber 4) 4 (λ a x s. s.0) };
}

impl FixedEntry<16> for TupleEntry<u64> {
    ghost use Rattle.std.specs.Prelude.{◌<◌, ◌^◌};
    ghost use Rattle.std.specs.Int.{w64, to_le_bytes, from_le_bytes};
    ghost use Rattle.core_images.specs.Summary.{SpellsTuple, SpellsNumber, is_tuple_value, tuple_text, tuple_in};
    ghost use Rattle.core_images.specs.SummarySpelling.{eight_read, tuple_spelled, tuple_size};

    ghost spells = { SpellsTuple (SpellsNumber 8) };

    ghost is_value = { is_tuple_value (λ x. x < 2 ^ 64) };

    ghost text = { tuple_text (to_le_bytes w64) };

    ghost entry_of = { tuple_in (from_le_bytes w64) };

    #[inline(always)]
    fn to_text(&self) -> [u8; 16] {
        joined(self.hash(), u64::to_le_bytes(*self.summary()))
    }

    #[inline(always)]
    fn of_text(spelling: &[u8; 16]) -> TupleEntry<u64> {
        let (hash, number) = parted(spelling);
        TupleEntry::of_hash(hash, u64::from_le_bytes(number))
    }

    ghost spelled = { tuple_spelled (SpellsNumber 8) 8 (from_le_bytes w64) eight_read };

    ghost is_long = { tuple_size (SpellsNumber 8) 8 (λ a x s. s.0) };
}

impl FixedEntry<12> for TupleEntry<i32> {
    ghost use Rattle.std.specs.Prelude.{FitsSigned};
    ghost use Rattle.std.specs.Int.{w32, to_le_bytes, from_le_bytes, cast_signed, cast_unsigned};
    ghost use Rattle.core_images.specs.Summary.{SpellsTuple, SpellsSigned, is_tuple_value, tuple_text, tuple_in};
    ghost use Rattle.core_images.specs.SummarySpelling.{signed_four_read, tuple_spelled, tuple_size};

    ghost spells = { SpellsTuple (SpellsSigned w32 4) };

    ghost is_value = { is_tuple_value (FitsSigned w32) };

    ghost text = { tuple_text (λ x. to_le_bytes w32 (cast_unsigned w32 x)) };

    ghost entry_of = { tuple_in (λ a. cast_signed w32 (from_le_bytes w32 a)) };

    #[inline(always)]
    fn to_text(&self) -> [u8; 12] {
        joined(self.hash(), i32::to_le_bytes(*self.summary()))
    }

    #[inline(always)]
    fn of_text(spelling: &[u8; 12]) -> TupleEntry<i32> {
        let (hash, number) = parted(spelling);
        TupleEntry::of_hash(hash, u32::from_le_bytes(number).cast_signed())
    }

    ghost spelled = { tuple_spelled (SpellsSigned w32 4) 4 (λ a. cast_signed w32 (from_le_bytes w32 a))
        signed_four_read };

    ghost is_long = { tuple_size (SpellsSigned w32 4) 4 (λ a x s. s.0) };
}

impl FixedEntry<16> for TupleEntry<i64> {
    ghost use Rattle.std.specs.Prelude.{FitsSigned};
    ghost use Rattle.std.specs.Int.{w64, to_le_bytes, from_le_bytes, cast_signed, cast_unsigned};
    ghost use Rattle.core_images.specs.Summary.{SpellsTuple, SpellsSigned, is_tuple_value, tuple_text, tuple_in};
    ghost use Rattle.core_images.specs.SummarySpelling.{signed_eight_read, tuple_spelled, tuple_size};

    ghost spells = { SpellsTuple (SpellsSigned w64 8) };

    ghost is_value = { is_tuple_value (FitsSigned w64) };

    ghost text = { tuple_text (λ x. to_le_bytes w64 (cast_unsigned w64 x)) };

    ghost entry_of = { tuple_in (λ a. cast_signed w64 (from_le_bytes w64 a)) };

    #[inline(always)]
    fn to_text(&self) -> [u8; 16] {
        joined(self.hash(), i64::to_le_bytes(*self.summary()))
    }

    #[inline(always)]
    fn of_text(spelling: &[u8; 16]) -> TupleEntry<i64> {
        let (hash, number) = parted(spelling);
        TupleEntry::of_hash(hash, u64::from_le_bytes(number).cast_signed())
    }

    ghost spelled = { tuple_spelled (SpellsSigned w64 8) 8 (λ a. cast_signed w64 (from_le_bytes w64 a))
        signed_eight_read };

    ghost is_long = { tuple_size (SpellsSigned w64 8) 8 (λ a x s. s.0) };
}
